//! Worked examples of footpaths and networks, their refusals and their limits.

use crate::small_networks::{Footpath, at, lists_of, trips_with};
use std::alloc::{AllocError, Global};
use std::test::Fail;
use timetable::{Event, Feet, NetFault, Network, StopNo, Trip};

/// Why footpaths are refused, if they are, with how many lists were handed back.
fn feet_fault(
    alloc: Global,
    stops: u32,
    lists: usize,
    footpaths: &[Footpath],
) -> Result<Option<(NetFault, usize)>, AllocError> {
    let changes = vec![in alloc; 0; stops as usize]?;
    match Feet::new(alloc, stops, lists_of(alloc, lists, footpaths)?, changes) {
        Ok(_) => Ok(None),
        Err((fault, back, _)) => Ok(Some((fault, back.len()))),
    }
}

/// Feet, if they are accepted.
///
/// They stand in a box: whoever holds it drops it in one step.
type SomeFeet = Option<Box<Feet>>;

/// Footpaths among these stops, of these change times.
fn feet_with(
    alloc: Global,
    stops: u32,
    footpaths: &[Footpath],
    changes: Vec<u32>,
) -> Result<SomeFeet, AllocError> {
    let lists = lists_of(alloc, stops as usize, footpaths)?;
    match Feet::new(alloc, stops, lists, changes) {
        Ok(feet) => Ok(Some(Box::new(alloc, feet)?)),
        Err(_) => Ok(None),
    }
}

/// Footpaths among these stops, at which no change takes time.
fn feet_of(alloc: Global, stops: u32, footpaths: &[Footpath]) -> Result<SomeFeet, AllocError> {
    let changes = vec![in alloc; 0; stops as usize]?;
    feet_with(alloc, stops, footpaths, changes)
}

/// Why a footpath from the first of two stops to the second is refused with these change times, if it is, with how many
/// lists and change times were handed back.
fn change_fault(
    alloc: Global,
    changes: &[u32],
) -> Result<Option<(NetFault, usize, usize)>, AllocError> {
    let times = Vec::from_slice(alloc, changes)?;
    match Feet::new(alloc, 2, lists_of(alloc, 2, &[(0, 1, 60)])?, times) {
        Ok(_) => Ok(None),
        Err((fault, lists, times)) => Ok(Some((fault, lists.len(), times.len()))),
    }
}

/// Two trips, of which the first has two events and the second one.
fn trips_of(alloc: Global, [first, second, third]: [Event; 3]) -> Result<Vec<Trip>, AllocError> {
    let mut trips = trips_with(alloc, &[&[first, second], &[third]])?;
    if let Some(short) = trips.get_mut(1) {
        short.route = 1;
        short.name = 1;
    }
    Ok(trips)
}

/// Why a network is refused, if it is, with how many trips were handed back.
fn net_fault(
    alloc: Global,
    stops: u32,
    events: [Event; 3],
    feet: &Feet,
) -> Result<Option<(NetFault, usize)>, AllocError> {
    match Network::new(alloc, stops, trips_of(alloc, events)?, feet) {
        Ok(_) => Ok(None),
        Err((fault, back)) => Ok(Some((fault, back.len()))),
    }
}

/// `Feet::seconds`, `Events::new`.
#[test]
fn footpaths_lead_one_way(rt: HostRuntime) -> Result<(), Fail> {
    let alloc = rt.alloc();
    let footpaths = [(0, 1, 60), (3, 0, 10), (3, 2, 0), (3, 4, 30), (3, 6, 7_200)];
    let Some(feet) = feet_of(alloc, 8, &footpaths)? else {
        assert!(rt; false);
        return Ok(());
    };
    for (from, to, seconds) in &[
        (0, 1, Some(60)),
        (1, 0, None),
        (3, 0, Some(10)),
        (3, 1, None),
        (3, 2, Some(0)),
        (3, 3, None),
        (3, 4, Some(30)),
        (3, 5, None),
        (3, 6, Some(7_200)),
        (3, 7, None),
    ] {
        if *from < feet.stops() {
            assert!(rt;
                feet.seconds(StopNo(*from), StopNo(*to)) == *seconds,
                "from {from} to {to}"
            );
        }
    }
    Ok(())
}

/// `Feet::new`.
#[test]
fn footpaths_are_refused(rt: HostRuntime) -> Result<(), Fail> {
    let alloc = rt.alloc();
    for (stops, lists, footpaths, fault) in &[
        (0, 0, [].as_slice(), None),
        (2, 2, [(0, 1, 60)].as_slice(), None),
        (2, 2, [(0, 1, 7_200)].as_slice(), None),
        (65_535, 65_535, [].as_slice(), None),

        // a target that there isn't, its own source, repeated and descending targets, a list less, a list more
        (2, 2, [(0, 2, 60)].as_slice(), Some(NetFault::StopRange)),
        (2, 2, [(0, 0, 60)].as_slice(), Some(NetFault::StopRange)),
        (
            3,
            3,
            [(0, 1, 60), (0, 1, 70)].as_slice(),
            Some(NetFault::StopRange),
        ),
        (
            3,
            3,
            [(0, 2, 60), (0, 1, 70)].as_slice(),
            Some(NetFault::StopRange),
        ),
        (3, 2, [(0, 1, 60)].as_slice(), Some(NetFault::StopRange)),
        (1, 2, [].as_slice(), Some(NetFault::StopRange)),

        // past the limits; two faults at once
        (2, 2, [(0, 1, 7_201)].as_slice(), Some(NetFault::TooLarge)),
        (65_536, 65_536, [].as_slice(), Some(NetFault::TooLarge)),
        (2, 2, [(0, 2, 7_201)].as_slice(), Some(NetFault::StopRange)),
    ] {
        let expected = fault.map(|fault| (fault, *lists));
        assert!(rt; feet_fault(alloc, *stops, *lists, footpaths)? == expected);
    }
    Ok(())
}

/// `Feet::new`.
#[test]
fn change_times_are_refused(rt: HostRuntime) -> Result<(), Fail> {
    let alloc = rt.alloc();
    for (changes, fault) in &[
        ([0, 0].as_slice(), None),
        ([300, 16_777_216].as_slice(), None),

        // one too few, one too many, too long, two faults at once
        ([0].as_slice(), Some(NetFault::StopRange)),
        ([0, 0, 0].as_slice(), Some(NetFault::StopRange)),
        ([0, 16_777_217].as_slice(), Some(NetFault::TooLarge)),
        ([16_777_217].as_slice(), Some(NetFault::StopRange)),
    ] {
        let expected = fault.map(|fault| (fault, 2, changes.len()));
        assert!(rt; change_fault(alloc, changes)? == expected);
    }
    Ok(())
}

/// `Feet::change`, `Feet::new`.
#[test]
fn each_stop_has_its_change_time(rt: HostRuntime) -> Result<(), Fail> {
    let alloc = rt.alloc();
    let times = Vec::from_slice(alloc, &[300, 0, 16_777_216])?;
    let Some(feet) = feet_with(alloc, 3, &[], times)? else {
        assert!(rt; false);
        return Ok(());
    };
    for (stop, seconds) in &[(0, 300), (1, 0), (2, 16_777_216)] {
        if *stop < feet.stops() {
            assert!(rt; feet.change(StopNo(*stop)) == *seconds, "at {stop}");
        }
    }
    Ok(())
}

/// `Network::new`, `Feet::new`.
#[test]
fn networks_off_their_stops_are_refused(rt: HostRuntime) -> Result<(), Fail> {
    let alloc = rt.alloc();
    let Some(feet) = feet_of(alloc, 2, &[(1, 0, 90)])? else {
        assert!(rt; false);
        return Ok(());
    };
    let early = at(0, 100, 110);
    let late = at(1, 110, 200);
    let beyond = at(2, 110, 200);
    for (stops, events, fault) in &[
        (2, [early, late, early], None),

        // an event at stop 2 of two stops; footpaths for another number of stops; two faults at once
        (2, [early, beyond, early], Some(NetFault::StopRange)),
        (3, [early, late, early], Some(NetFault::StopRange)),
        (
            2,
            [early, at(1, 100, 120), beyond],
            Some(NetFault::StopRange),
        ),
    ] {
        let expected = fault.map(|fault| (fault, 2));
        assert!(rt; net_fault(alloc, *stops, *events, &feet)? == expected);
    }
    Ok(())
}

/// `Network::new`, `Feet::new`.
#[test]
fn networks_with_bad_times_are_refused(rt: HostRuntime) -> Result<(), Fail> {
    let alloc = rt.alloc();
    let Some(feet) = feet_of(alloc, 2, &[(1, 0, 90)])? else {
        assert!(rt; false);
        return Ok(());
    };
    let early = at(0, 100, 110);
    let late = at(1, 110, 200);
    let overlapping = at(1, 100, 120);
    let off_the_axis = at(0, 0, 16_777_216);
    for (events, fault) in &[
        ([early, late, at(0, 0, 16_777_215)], None),

        // an arrival before the departure of the event before; a departure before its arrival
        ([early, overlapping, early], Some(NetFault::TimesGoBack)),
        ([early, late, at(0, 100, 99)], Some(NetFault::TimesGoBack)),

        // past the axis of times; two faults at once
        ([early, late, off_the_axis], Some(NetFault::TooLarge)),
        (
            [early, overlapping, off_the_axis],
            Some(NetFault::TimesGoBack),
        ),
    ] {
        let expected = fault.map(|fault| (fault, 2));
        assert!(rt; net_fault(alloc, 2, *events, &feet)? == expected);
    }
    Ok(())
}

/// `Network::trips`, `Network::new`.
#[test]
fn an_empty_network(rt: HostRuntime) -> Result<(), Fail> {
    let alloc = rt.alloc();
    let Some(feet) = feet_of(alloc, 0, &[])? else {
        assert!(rt; false);
        return Ok(());
    };
    let network = Network::new(alloc, 0, Vec::new(alloc), &feet).ok();
    assert_eq!(rt; network.map(|network| network.trips().len()), Some(0));
    Ok(())
}
