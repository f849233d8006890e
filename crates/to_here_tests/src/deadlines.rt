//! Deadlines by hand.

use crate::small_networks::{at, network_of, two_trips};
use reversal::{deadlines_of, until_served, walks_to};
use std::test::Fail;
use timetable::{NEVER, StopNo};

/// `walks_to`.
#[test]
fn walks_lead_to_the_destination(rt: HostRuntime) -> Result<(), Fail> {
    let alloc = rt.alloc();
    let network = two_trips(alloc)?.expect(&rt, "a network");
    let walks = walks_to(alloc, network.feet(), StopNo(3))?;
    assert_eq!(rt; walks.as_slice(), [NEVER, NEVER, 120, 0].as_slice());
    Ok(())
}

/// `deadlines_of`.
#[test]
fn deadlines_are_arrivals_with_the_walk_after_them(rt: HostRuntime) -> Result<(), Fail> {
    let alloc = rt.alloc();
    let network = two_trips(alloc)?.expect(&rt, "a network");

    // the trips are at stop 2 at 300 and at 290, and stop 3 is a walk of 120 seconds away
    for (destination, first, expected) in &[
        (3, 0, [410, 420].as_slice()),
        (3, 410, [410, 420].as_slice()),
        (3, 411, [420].as_slice()),
        (2, 0, [290, 300].as_slice()),
        (1, 0, [200].as_slice()),
        (0, 0, [].as_slice()),
    ] {
        let times = deadlines_of(alloc, &network, StopNo(*destination), *first)?;
        assert_eq!(rt; times.as_slice(), *expected, "destination {destination}");
    }
    Ok(())
}

/// `deadlines_of`.
#[test]
fn a_later_event_as_early_leaves_one_deadline(rt: HostRuntime) -> Result<(), Fail> {
    let alloc = rt.alloc();

    // both trips are at stop 3 at 400, one of them by a walk that ends later; each passes there twice or is on time
    let rides_on = [at(0, 0, 0), at(2, 300, 300), at(3, 400, 400)];
    let as_late = [at(1, 0, 0), at(3, 400, 400)];
    let network = network_of(alloc, &[&rides_on, &as_late])?.expect(&rt, "a network");
    let times = deadlines_of(alloc, &network, StopNo(3), 0)?;
    assert_eq!(rt; times.as_slice(), [400].as_slice());
    Ok(())
}

/// `until_served`.
#[test]
fn the_first_deadline_that_serves_counts(rt: HostRuntime) -> Result<(), Fail> {
    let deadlines = [100, 200, 300];
    let labels = [40, NEVER, 120];
    for (start, expected) in &[(0, 100), (60, 40), (61, 239), (180, 120), (181, NEVER)] {
        let found = until_served(&deadlines, &labels, *start);
        assert_eq!(rt; found, *expected, "start {start}");
    }
    Ok(())
}
