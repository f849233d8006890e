//! Worked examples of change times: a ride directly after a ride needs the stop's change time between them.

use crate::small_networks::{Footpath, are, at, network_changing, of_minute};
use std::alloc::{AllocError, Global};
use std::test::Fail;
use timetable::{Event, NEVER};

/// The least durations of journeys of at most 2 rides over these trips, where origin and departure are in range.
fn durations(
    alloc: Global,
    changes: &[u32],
    footpaths: &[Footpath],
    trips: &[&[Event]],
    (origin, depart): (u32, u32),
) -> Result<Option<Vec<u32>>, AllocError> {
    let network = network_changing(alloc, changes, footpaths, trips)?;
    of_minute(alloc, &network, origin, depart, 2)
}

/// `Search::durations`, `lower_all`.
#[test]
fn a_change_needs_its_time(rt: HostRuntime) -> Result<(), Fail> {
    let alloc = rt.alloc();
    let first = [at(0, 28_800, 28_800), at(1, 29_400, 29_400)];
    let second = [at(1, 29_700, 29_700), at(2, 30_600, 30_600)];

    // at the stop of the change there are 300 seconds between the trips; no other stop's time counts
    for (changes, expected) in &[
        ([0, 300, 0], [0, 600, 1_800]),
        ([0, 301, 0], [0, 600, NEVER]),
        ([0, 16_777_216, 0], [0, 600, NEVER]),
        ([301, 0, 301], [0, 600, 1_800]),
    ] {
        let found = durations(alloc, changes, &[], &[&first, &second], (0, 28_800))?;
        assert!(rt; are(&found, expected), "{}", changes[1]);
    }
    Ok(())
}

/// `Search::durations`.
#[test]
fn a_stop_reached_by_a_ride_and_by_a_walk(rt: HostRuntime) -> Result<(), Fail> {
    let alloc = rt.alloc();

    // stop 2 is reached at 200 by the ride, and at 250 on foot from stop 1; its change time is 100
    let first = [at(0, 100, 100), at(1, 150, 150), at(2, 200, 200)];
    let walk = [(1, 2, 100)];
    for (footpaths, leave, expected) in &[
        (walk.as_slice(), 249u32, NEVER),
        (walk.as_slice(), 250, 250),
        ([].as_slice(), 299, NEVER),
        ([].as_slice(), 300, 300),
    ] {
        let arrive = leave.saturating_add(100);
        let second = [at(2, *leave, *leave), at(3, arrive, arrive)];
        let found = durations(
            alloc,
            &[0, 0, 100, 0],
            footpaths,
            &[&first, &second],
            (0, 100),
        )?;
        assert!(rt; are(&found, &[0, 50, 100, *expected]), "leaves at {leave}");
    }
    Ok(())
}

/// `Search::durations`.
#[test]
fn staying_aboard_takes_no_time(rt: HostRuntime) -> Result<(), Fail> {
    let alloc = rt.alloc();

    // the trip passes stop 1 twice, and goes on to stop 3; whoever alights at stop 1 can't board there again
    let round = [
        at(0, 100, 100),
        at(1, 200, 200),
        at(2, 300, 300),
        at(1, 400, 400),
        at(3, 500, 500),
    ];
    let other = [at(1, 450, 450), at(4, 600, 600)];
    let found = durations(
        alloc,
        &[0, 1_000, 0, 0, 0],
        &[],
        &[&round, &other],
        (0, 100),
    )?;
    assert!(rt; are(&found, &[0, 100, 200, 400, NEVER]));
    Ok(())
}
