//! A network of two stops: a trip from the first to the second, and a footpath back.

use std::alloc::{AllocError, Global};
use timetable::{Event, Events, Feet, Network, StopNo, Trip};

/// A vehicle at a stop, where all may board and alight.
fn at(stop: u32, time: u32) -> Event {
    Event {
        stop: StopNo(stop),
        arrive: time,
        depart: time,
        board: true,
        alight: true,
    }
}

/// A trip from the first stop at second 100 to another at second 400.
pub(crate) fn trip_of(alloc: Global, to: u32) -> Result<Trip, AllocError> {
    Ok(Trip {
        route: 3,
        name: 5,
        events: Events::new(vec![in alloc; at(0, 100), at(to, 400)]?),
    })
}

/// The footpath of so many seconds from the second stop to the first, where a change takes 7 seconds at the second.
pub(crate) fn feet_of(alloc: Global, seconds: u32) -> Result<Option<Feet>, AllocError> {
    let mut lists: Vec<Vec<(StopNo, u32)>> = Vec::with_capacity(alloc, 2)?;
    lists.push(Vec::new(alloc))?;
    lists.push(vec![in alloc; (StopNo(0), seconds)]?)?;
    let changes: Vec<u32> = Vec::from_slice(alloc, &[0, 7])?;
    Ok(Feet::new(alloc, 2, lists, changes).ok())
}

/// The network. It stands in a box, so that whoever holds it drops it in one step.
pub(crate) fn network_of(alloc: Global) -> Result<Option<Box<Network>>, AllocError> {
    let Some(feet) = feet_of(alloc, 60)? else {
        return Ok(None);
    };
    let trips: Vec<Trip> = vec![in alloc; trip_of(alloc, 1)?]?;
    match Network::new(alloc, 2, trips, &feet) {
        Ok(network) => Ok(Some(Box::new(alloc, network)?)),
        Err(_) => Ok(None),
    }
}
