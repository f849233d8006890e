//! Mirrored networks by hand.

use crate::small_networks::{at, mirrored_of, two_trips};
use std::test::Fail;
use timetable::{END_OF_AXIS, Event, StopNo};

/// `mirrored`, `horizon_of`.
#[test]
fn a_trip_runs_backwards(rt: HostRuntime) -> Result<(), Fail> {
    let alloc = rt.alloc();
    let network = mirrored_of(alloc, &two_trips(alloc)?)?.expect(&rt, "a network");
    let end = END_OF_AXIS - 1;
    assert_eq!(rt; network.trips().len(), 2);

    // boarding isn't allowed at the last stop, so in the mirrored network alighting isn't allowed at the first one
    let first = Event {
        alight: false,
        ..at(2, end - 300, end - 300)
    };
    let events = [
        first,
        at(1, end - 210, end - 200),
        at(0, end - 100, end - 90),
    ];
    assert_eq!(rt; network.trips()[0].events.as_slice(), events.as_slice());
    assert_eq!(rt; network.trips()[0].route, 7);
    assert_eq!(rt; network.trips()[1].name, 1);
    Ok(())
}

/// `mirrored`.
#[test]
fn footpaths_lead_the_other_way(rt: HostRuntime) -> Result<(), Fail> {
    let alloc = rt.alloc();
    let network = mirrored_of(alloc, &two_trips(alloc)?)?.expect(&rt, "a network");
    let feet = network.feet();
    assert_eq!(rt; feet.stops(), 4);
    assert_eq!(rt; feet.leaving(StopNo(3)), [(StopNo(2), 120)].as_slice());
    assert_eq!(rt; feet.leaving(StopNo(2)), [(StopNo(3), 150)].as_slice());
    assert_eq!(rt; feet.leaving(StopNo(0)).len(), 0);
    assert_eq!(rt; feet.change(StopNo(1)), 60);
    Ok(())
}

/// `mirrored`.
#[test]
fn mirrored_twice_it_is_the_same(rt: HostRuntime) -> Result<(), Fail> {
    let alloc = rt.alloc();
    let once = mirrored_of(alloc, &two_trips(alloc)?)?;
    let twice = mirrored_of(alloc, &once)?.expect(&rt, "a network");
    let network = two_trips(alloc)?.expect(&rt, "a network");
    assert_eq!(rt; twice.trips().len(), 2);
    assert_eq!(rt; network.trips().len(), 2);
    assert_eq!(rt;
        twice.trips()[0].events.as_slice(),
        network.trips()[0].events.as_slice()
    );
    assert_eq!(rt; twice.feet().stops(), 4);
    assert_eq!(rt; network.feet().stops(), 4);
    assert_eq!(rt;
        twice.feet().leaving(StopNo(2)),
        network.feet().leaving(StopNo(2))
    );
    Ok(())
}
