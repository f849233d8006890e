//! Networks of rides alone: nobody walks, and a change takes no time.

use std::alloc::{AllocError, Global};
use timetable::{Event, Events, Feet, Network, StopNo, Trip};

/// The stops of the small feed.
pub(crate) const A: u32 = 0;

pub(crate) const B: u32 = 1;

pub(crate) const C: u32 = 2;

/// A day on the axis, which begins a day before the study's own.
pub(crate) const DAY: u32 = 86_400;

/// A ride: from a stop at a second of the study's day, to a stop at another.
pub(crate) type Ride = (u32, u32, u32, u32);

/// 08:00 from A to B by 08:10, and 08:15 from B to C by 08:30.
pub(crate) const FIRST: Ride = (A, 28_800, B, 29_400);

pub(crate) const SECOND: Ride = (B, 29_700, C, 30_600);

/// An event on the study's day where everybody may board and alight.
fn at_time(stop: u32, time: u32) -> Event {
    let time = DAY.saturating_add(time);
    Event {
        stop: StopNo(stop),
        arrive: time,
        depart: time,
        board: true,
        alight: true,
    }
}

/// The trip of one ride.
fn trip_of(alloc: Global, (from, leaves, to, reaches): Ride) -> Result<Trip, AllocError> {
    let events = Vec::from_slice(alloc, &[at_time(from, leaves), at_time(to, reaches)])?;
    Ok(Trip {
        route: 0,
        name: 0,
        events: Events::new(events),
    })
}

/// A trip for each ride.
fn trips_of(alloc: Global, rides: &[Ride]) -> Result<Vec<Trip>, AllocError> {
    let mut trips = Vec::with_capacity(alloc, rides.len())?;
    for ride in rides {
        trips.push(trip_of(alloc, *ride)?)?;
    }
    Ok(trips)
}

/// Three stops among which nobody walks, if they are accepted.
///
/// They stand in a box: whoever holds it drops it in one step.
fn feet_of_three(alloc: Global) -> Result<Option<Box<Feet>>, AllocError> {
    let mut lists = Vec::with_capacity(alloc, 3)?;
    for _ in 0..3 {
        lists.push(Vec::new(alloc))?;
    }
    let changes = vec![in alloc; 0; 3]?;
    match Feet::new(alloc, 3, lists, changes) {
        Ok(feet) => Ok(Some(Box::new(alloc, feet)?)),
        Err(_) => Ok(None),
    }
}

/// Adds the network of three stops and these rides, if it is one.
fn push_network(
    alloc: Global,
    networks: &mut Vec<Network>,
    feet: &Feet,
    rides: &[Ride],
) -> Result<(), AllocError> {
    if let Ok(network) = Network::new(alloc, 3, trips_of(alloc, rides)?, feet) {
        networks.push(network)?;
    }
    Ok(())
}

/// Adds one network of three stops for each scenario's rides.
fn push_networks(
    alloc: Global,
    networks: &mut Vec<Network>,
    feet: &Feet,
    scenarios: &[&[Ride]],
) -> Result<(), AllocError> {
    for rides in scenarios {
        push_network(alloc, networks, feet, rides)?;
    }
    Ok(())
}

/// One network of three stops for each scenario's rides.
pub(crate) fn networks_of(
    alloc: Global,
    scenarios: &[&[Ride]],
) -> Result<Vec<Network>, AllocError> {
    let mut networks = Vec::with_capacity(alloc, scenarios.len())?;
    if let Some(feet) = feet_of_three(alloc)? {
        push_networks(alloc, &mut networks, feet.as_ref(), scenarios)?;
    }
    Ok(networks)
}
