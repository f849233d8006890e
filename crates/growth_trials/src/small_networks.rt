//! Small networks, made by hand.

use std::alloc::{AllocError, Global};
use timetable::{Event, Events, Feet, Network, StopNo, Trip};

/// A ride: from a stop at a second, to a stop at another.
pub(crate) type Ride = (u32, u32, u32, u32);

/// 08:00 from A to B by 08:10.
pub(crate) const FIRST: Ride = (0, 28_800, 1, 29_400);

/// 08:15 from B to C by 08:30.
pub(crate) const SECOND: Ride = (1, 29_700, 2, 30_600);

/// The first ride, 300 seconds late.
pub(crate) const LATER: Ride = (0, 29_100, 1, 29_700);

/// The stops of the line.
pub(crate) const LINE: u32 = 20;

/// A vehicle at a stop, where everybody may board and alight.
pub(crate) fn at(stop: u32, arrive: u32, depart: u32) -> Event {
    Event {
        stop: StopNo(stop),
        arrive,
        depart,
        board: true,
        alight: true,
    }
}

/// A trip of these events.
pub(crate) fn trip_of(alloc: Global, events: &[Event]) -> Result<Trip, AllocError> {
    Ok(Trip {
        route: 0,
        name: 0,
        events: Events::new(Vec::from_slice(alloc, events)?),
    })
}

/// A trip for each ride.
pub(crate) fn trips_of(alloc: Global, rides: &[Ride]) -> Result<Vec<Trip>, AllocError> {
    let mut trips = Vec::with_capacity(alloc, rides.len())?;
    for (from, leaves, to, reaches) in rides {
        trips.push(trip_of(
            alloc,
            &[at(*from, *leaves, *leaves), at(*to, *reaches, *reaches)],
        )?)?;
    }
    Ok(trips)
}

/// So many stops between which nobody walks.
pub(crate) fn no_walks(alloc: Global, stops: u32) -> Option<Feet> {
    let mut lists = Vec::with_capacity(alloc, stops as usize).ok()?;
    for _ in 0..stops {
        if lists.push(Vec::new(alloc)).is_err() {
            return None;
        }
    }
    let changes = vec![in alloc; 0; stops as usize].ok()?;
    Feet::new(alloc, stops, lists, changes).ok()
}

/// The network of these trips, among so many stops.
fn network_of(alloc: Global, stops: u32, trips: Vec<Trip>) -> Option<Box<Network>> {
    let feet = no_walks(alloc, stops)?;
    let made = Network::new(alloc, stops, trips, &feet);
    drop(feet);
    match made {
        Ok(network) => Box::new(alloc, network).ok(),
        Err(_) => None,
    }
}

/// The network of these rides, among three stops.
pub(crate) fn small_network(alloc: Global, rides: &[Ride]) -> Option<Box<Network>> {
    let trips = trips_of(alloc, rides).ok()?;
    network_of(alloc, 3, trips)
}

/// 400 trips, one a minute from 05:00, along 20 stops that lie two minutes apart.
pub(crate) fn a_line(alloc: Global) -> Option<Box<Network>> {
    let trips = trips_of_the_line(alloc).ok()?;
    network_of(alloc, LINE, trips)
}

fn trips_of_the_line(alloc: Global) -> Result<Vec<Trip>, AllocError> {
    let mut trips = Vec::with_capacity(alloc, 400)?;
    for minute in 0..400u32 {
        trips.push(along_the_line(alloc, 18_000 + 60 * minute)?)?;
    }
    Ok(trips)
}

fn along_the_line(alloc: Global, start: u32) -> Result<Trip, AllocError> {
    let mut events = Vec::with_capacity(alloc, LINE as usize)?;
    for stop in 0..LINE {
        let time = start.saturating_add(120 * stop);
        events.push(at(stop, time, time))?;
    }
    Ok(Trip {
        route: 0,
        name: 0,
        events: Events::new(events),
    })
}
