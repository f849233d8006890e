//! Footpaths and trips that are refused come back as they were given.

use crate::lines::at;
use std::alloc::{AllocError, Global};
use std::test::Fail;
use timetable::{Event, Events, Feet, NetFault, Network, StopNo, Trip};

/// A walk of a minute from the first of two stops to a stop.
fn walk_to(alloc: Global, target: u32) -> Result<Vec<Vec<(StopNo, u32)>>, AllocError> {
    let mut lists = Vec::with_capacity(alloc, 2)?;
    lists.push(Vec::from_slice(alloc, &[(StopNo(target), 60)])?)?;
    lists.push(Vec::new(alloc))?;
    Ok(lists)
}

/// Whether the lists are those of `walk_to`.
fn are_walks_to(lists: &[Vec<(StopNo, u32)>], target: u32) -> bool {
    lists.len() == 2
        && lists[0].as_slice() == [(StopNo(target), 60)].as_slice()
        && lists[1].is_empty()
}

/// `Feet::new`, `Feet::seconds`.
#[test]
fn a_footpath_leads_one_way(rt: HostRuntime) -> Result<(), Fail> {
    let alloc = rt.alloc();
    let changes = Vec::from_slice(alloc, &[0, 0])?;
    match Feet::new(alloc, 2, walk_to(alloc, 1)?, changes) {
        Ok(feet) => {
            assert_eq!(rt; feet.stops(), 2);
            assert_eq!(rt; feet.seconds(StopNo(0), StopNo(1)), Some(60));
            assert_eq!(rt; feet.seconds(StopNo(1), StopNo(0)), None);
        }
        Err(_) => assert!(rt; false),
    }
    Ok(())
}

/// Whether two stops refuse a walk to a third, and hand it back with the change times.
fn is_walk_refused(alloc: Global) -> Result<bool, AllocError> {
    let times = Vec::from_slice(alloc, &[0, 300])?;
    match Feet::new(alloc, 2, walk_to(alloc, 2)?, times) {
        Ok(_) => Ok(false),
        Err((fault, lists, changes)) => Ok(
            fault == NetFault::StopRange
                && are_walks_to(&lists, 2)
                && changes.as_slice() == [0, 300].as_slice(),
        ),
    }
}

/// `Feet::new`.
#[test]
fn footpaths_come_back_with_their_change_times(rt: HostRuntime) -> Result<(), Fail> {
    assert!(rt; is_walk_refused(rt.alloc())?);
    Ok(())
}

/// Trip 7 of route 3, with two events.
fn trip_of(alloc: Global, events: [Event; 2]) -> Result<Vec<Trip>, AllocError> {
    let trip = Trip {
        route: 3,
        name: 7,
        events: Events::new(Vec::from_slice(alloc, &events)?),
    };
    Ok(vec![in alloc; trip]?)
}

/// Whether the trips are those of `trip_of`.
fn are_trip_of(trips: &[Trip], events: [Event; 2]) -> bool {
    trips.len() == 1
        && trips[0].route == 3
        && trips[0].name == 7
        && trips[0].events.as_slice() == events.as_slice()
}

/// Whether a network of two stops without footpaths refuses the trip for this fault, and hands it back.
fn is_refused(alloc: Global, events: [Event; 2], fault: NetFault) -> Result<bool, AllocError> {
    let lists = vec![in alloc; Vec::new(alloc), Vec::new(alloc)]?;
    let changes = Vec::from_slice(alloc, &[0, 0])?;
    let Some(feet) = Feet::new(alloc, 2, lists, changes).ok() else {
        return Ok(false);
    };
    match Network::new(alloc, 2, trip_of(alloc, events)?, &feet) {
        Ok(_) => Ok(false),
        Err((found, trips)) => Ok(found == fault && are_trip_of(&trips, events)),
    }
}

/// `Network::new`.
#[test]
fn trips_come_back_with_their_events(rt: HostRuntime) -> Result<(), Fail> {
    let alloc = rt.alloc();
    let beyond = [at(0, 100, 110), at(2, 200, 200)];
    let back = [at(0, 100, 110), at(1, 100, 120)];
    assert!(rt; is_refused(alloc, beyond, NetFault::StopRange)?);
    assert!(rt; is_refused(alloc, back, NetFault::TimesGoBack)?);
    Ok(())
}
