//! A small network, and its mirrored network.

use reversal::{horizon_of, mirrored};
use std::alloc::{AllocError, Global};
use timetable::{Event, Events, Feet, Network, StopNo, Trip};

/// A small network, if it is one, in a box: a box is dropped in one step.
pub(crate) type SmallNetwork = Option<Box<Network>>;

/// An event at which boarding and alighting are allowed.
pub(crate) fn at(stop: u32, arrive: u32, depart: u32) -> Event {
    Event {
        stop: StopNo(stop),
        arrive,
        depart,
        board: true,
        alight: true,
    }
}

/// A trip with these events.
fn trip_of(alloc: Global, name: u32, events: &[Event]) -> Result<Trip, AllocError> {
    Ok(Trip {
        route: 7,
        name,
        events: Events::new(Vec::from_slice(alloc, events)?),
    })
}

/// Trips with these events, named by their positions.
fn trips_with(alloc: Global, trips: &[&[Event]]) -> Result<Vec<Trip>, AllocError> {
    let mut all = Vec::with_capacity(alloc, trips.len())?;
    let mut name = 0u32;
    for events in trips {
        all.push(trip_of(alloc, name, events)?)?;
        name = name.saturating_add(1);
    }
    Ok(all)
}

/// The footpaths of four stops: from stop 2 to stop 3 and back, in 120 and 150 seconds.
fn footpaths(alloc: Global) -> Result<Vec<Vec<(StopNo, u32)>>, AllocError> {
    let mut lists = Vec::with_capacity(alloc, 4)?;
    lists.push(Vec::new(alloc))?;
    lists.push(Vec::new(alloc))?;
    lists.push(Vec::from_slice(alloc, &[(StopNo(3), 120)])?)?;
    lists.push(Vec::from_slice(alloc, &[(StopNo(2), 150)])?)?;
    Ok(lists)
}

/// The network of four stops with these trips, and with change times of 0, 60, 0 and 0 seconds.
pub(crate) fn network_of(alloc: Global, trips: &[&[Event]]) -> Result<SmallNetwork, AllocError> {
    let changes = Vec::from_slice(alloc, &[0, 60, 0, 0])?;
    match Feet::new(alloc, 4, footpaths(alloc)?, changes) {
        Ok(feet) => match Network::new(alloc, 4, trips_with(alloc, trips)?, &feet) {
            Ok(network) => Ok(Some(Box::new(alloc, network)?)),
            Err(_) => Ok(None),
        },
        Err(_) => Ok(None),
    }
}

/// Two trips and a change between them: from stop 0 at 100 to stop 1 at 200, and on to stop 2 at 300, where
/// boarding isn't allowed; and from stop 1 at 260 to stop 2 at 290.
pub(crate) fn two_trips(alloc: Global) -> Result<SmallNetwork, AllocError> {
    let last = Event {
        board: false,
        ..at(2, 300, 300)
    };
    let first = [at(0, 90, 100), at(1, 200, 210), last];
    let second = [at(1, 250, 260), at(2, 290, 290)];
    network_of(alloc, &[&first, &second])
}

/// The mirrored network, in a box.
pub(crate) fn mirrored_of(
    alloc: Global,
    network: &SmallNetwork,
) -> Result<SmallNetwork, AllocError> {
    let Some(network) = network else {
        return Ok(None);
    };
    match mirrored(alloc, network, horizon_of(network)) {
        Ok(mirrored) => Ok(Some(Box::new(alloc, mirrored)?)),
        Err(_) => Ok(None),
    }
}
