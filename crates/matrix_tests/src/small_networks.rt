//! Small networks, and the least durations over them.

use rounds::{Durations, MOST_RIDES, Window, durations, one_minute};
use std::alloc::{AllocError, Global};
use timetable::{END_OF_AXIS, Event, Events, Feet, MOST_STOPS, NEVER, Network, StopNo, Trip};

/// A footpath: from a stop, to a stop, in seconds.
pub(crate) type Footpath = (usize, u32, u32);

/// A small network, if it is one.
///
/// It stands in a box: whoever holds it drops it in one step, where the prover would else follow each of its lists on
/// every way out.
pub(crate) type SmallNetwork = Option<Box<Network>>;

/// An event where everybody may board and alight.
pub(crate) fn at(stop: u32, arrive: u32, depart: u32) -> Event {
    Event {
        stop: StopNo(stop),
        arrive,
        depart,
        board: true,
        alight: true,
    }
}

/// A list for each stop: the stops to which footpaths lead, with their seconds.
type Lists = Vec<Vec<(StopNo, u32)>>;

/// Adds so many empty lists.
fn push_lists(alloc: Global, all: &mut Lists, lists: usize) -> Result<(), AllocError> {
    for _ in 0..lists {
        all.push(Vec::new(alloc))?;
    }
    Ok(())
}

/// Adds each footpath to the list of its first stop.
fn push_footpaths(all: &mut Lists, footpaths: &[Footpath]) -> Result<(), AllocError> {
    for (from, to, seconds) in footpaths {
        if let Some(list) = all.get_mut(*from) {
            list.push((StopNo(*to), *seconds))?;
        }
    }
    Ok(())
}

/// So many lists of footpaths, with these in them.
pub(crate) fn lists_of(
    alloc: Global,
    lists: usize,
    footpaths: &[Footpath],
) -> Result<Lists, AllocError> {
    let mut all = Vec::with_capacity(alloc, lists)?;
    push_lists(alloc, &mut all, lists)?;
    push_footpaths(&mut all, footpaths)?;
    Ok(all)
}

/// A trip with these events.
pub(crate) fn trip_of(alloc: Global, events: &[Event]) -> Result<Trip, AllocError> {
    Ok(Trip {
        route: 0,
        name: 0,
        events: Events::new(Vec::from_slice(alloc, events)?),
    })
}

/// The network of these trips and footpaths, if it is one.
pub(crate) fn network_with(
    alloc: Global,
    stops: u32,
    footpaths: &[Footpath],
    trips: Vec<Trip>,
) -> Result<SmallNetwork, AllocError> {
    let changes = vec![in alloc; 0; stops as usize]?;
    network_over(alloc, stops, footpaths, changes, trips)
}

/// The network of these trips, footpaths and change times, if it is one.
pub(crate) fn network_over(
    alloc: Global,
    stops: u32,
    footpaths: &[Footpath],
    changes: Vec<u32>,
    trips: Vec<Trip>,
) -> Result<SmallNetwork, AllocError> {
    let lists = lists_of(alloc, stops as usize, footpaths)?;
    match Feet::new(alloc, stops, lists, changes) {
        Ok(feet) => match Network::new(alloc, stops, trips, &feet) {
            Ok(network) => Ok(Some(Box::new(alloc, network)?)),
            Err(_) => Ok(None),
        },
        Err(_) => Ok(None),
    }
}

/// Trips with these events.
pub(crate) fn trips_with(alloc: Global, trips: &[&[Event]]) -> Result<Vec<Trip>, AllocError> {
    let mut all = Vec::with_capacity(alloc, trips.len())?;
    for events in trips {
        all.push(trip_of(alloc, events)?)?;
    }
    Ok(all)
}

/// The network of trips with these events, and of these footpaths, if it is one.
pub(crate) fn network_of(
    alloc: Global,
    stops: u32,
    footpaths: &[Footpath],
    trips: &[&[Event]],
) -> Result<SmallNetwork, AllocError> {
    network_with(alloc, stops, footpaths, trips_with(alloc, trips)?)
}

/// The network of trips with these events, of these footpaths, and of these change times, one per stop, if it is one.
pub(crate) fn network_changing(
    alloc: Global,
    changes: &[u32],
    footpaths: &[Footpath],
    trips: &[&[Event]],
) -> Result<SmallNetwork, AllocError> {
    if changes.len() > MOST_STOPS {
        return Ok(None);
    }
    let stops = changes.len() as u32;
    let times = Vec::from_slice(alloc, changes)?;
    network_over(alloc, stops, footpaths, times, trips_with(alloc, trips)?)
}

/// Two trips: from stop 0 at 08:00:00 to 1 at 08:10:00, and from 1 at `leave` to 2 at 08:30:00.
pub(crate) fn two_trips(
    alloc: Global,
    leave: u32,
    board: bool,
) -> Result<SmallNetwork, AllocError> {
    let first = [at(0, 28_800, 28_800), at(1, 29_400, 29_400)];
    let on = Event {
        board,
        ..at(1, leave, leave)
    };
    network_of(alloc, 3, &[], &[&first, &[on, at(2, 30_600, 30_600)]])
}

/// A trip along 20 stops that lie two minutes apart.
fn along_the_line(alloc: Global, name: u32, start: u32) -> Result<Trip, AllocError> {
    let mut events = Vec::with_capacity(alloc, 20)?;
    for stop in 0..20u32 {
        let time = start.saturating_add(120 * stop);
        events.push(at(stop, time, time))?;
    }
    Ok(Trip {
        route: 0,
        name,
        events: Events::new(events),
    })
}

/// 400 trips, one a minute from 05:00, along 20 stops that lie two minutes apart.
pub(crate) fn a_line(alloc: Global) -> Result<SmallNetwork, AllocError> {
    let mut trips = Vec::with_capacity(alloc, 400)?;
    for minute in 0..400u32 {
        trips.push(along_the_line(alloc, minute, 18_000 + 60 * minute)?)?;
    }
    network_with(alloc, 20, &[], trips)
}

/// The least durations of one departure, where origin and departure are in range.
pub(crate) fn of_minute(
    alloc: Global,
    network: &SmallNetwork,
    origin: u32,
    depart: u32,
    rides: u32,
) -> Result<Option<Vec<u32>>, AllocError> {
    if let Some(network) = network
        && origin < network.stops()
        && depart < END_OF_AXIS
    {
        return Ok(Some(one_minute(alloc, network, StopNo(origin), depart, rides)?));
    }
    Ok(None)
}

/// Whether these are the durations.
pub(crate) fn are(found: &Option<Vec<u32>>, expected: &[u32]) -> bool {
    match found {
        Some(found) => found.as_slice() == expected,
        None => false,
    }
}

/// The durations of a window, where origin and window are in range, in a box, as networks are.
pub(crate) fn of_window(
    alloc: Global,
    network: &SmallNetwork,
    origin: u32,
    window: Window,
    rides: u32,
) -> Result<Option<Box<Durations>>, AllocError> {
    if let Some(network) = network
        && origin < network.stops()
        && window.fits()
        && rides <= MOST_RIDES
    {
        let found = durations(alloc, network, StopNo(origin), window, rides)?;
        return Ok(Some(Box::new(alloc, found)?));
    }
    Ok(None)
}

/// Whether the durations of a minute are these, with `NEVER` for none.
pub(crate) fn is_minute(found: &Durations, minute: u32, alone: &[u32]) -> bool {
    if minute >= found.minutes() || alone.len() != found.stops() as usize {
        return false;
    }
    for stop in 0..found.stops() {
        if found.at(StopNo(stop), minute).unwrap_or(NEVER) != alone[stop as usize] {
            return false;
        }
    }
    true
}
