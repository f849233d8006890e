//! The durations of a window beside those of each of its minutes alone, and one search for several networks.

use crate::small_networks::{
    Footpath, SmallNetwork, a_line, at, is_minute, network_over, of_window, trip_of, two_trips,
};
use rounds::{Durations, Search, Window, one_minute};
use std::alloc::{AllocError, Global};
use std::test::Fail;
use timetable::{END_OF_AXIS, Event, Network, StopNo, Trip};

/// The change time of each stop.
const CHANGES: [u32; 8] = [0, 60, 61, 200, 0, 30, 0, 0];

/// The footpaths between them.
const FOOTPATHS: [Footpath; 4] = [(0, 1, 500), (2, 4, 30), (4, 2, 30), (5, 7, 90)];

/// 20 minutes from 07:58, two minutes before the first trip.
const TWENTY: Window = Window {
    first: 28_680,
    minutes: 20,
};

/// An event so many seconds after a start.
fn after(start: u32, stop: u32, seconds: u32) -> Event {
    let time = start.saturating_add(seconds);
    at(stop, time, time)
}

/// A slow trip.
fn slow(alloc: Global, start: u32) -> Result<Trip, AllocError> {
    let events = [
        after(start, 0, 0),
        after(start, 1, 400),
        after(start, 2, 800),
        after(start, 3, 1_200),
    ];
    trip_of(alloc, &events)
}

/// A trip that leaves later, and overtakes the slow one.
fn fast(alloc: Global, start: u32) -> Result<Trip, AllocError> {
    let events = [
        after(start, 0, 240),
        after(start, 1, 440),
        after(start, 2, 600),
        after(start, 3, 800),
    ];
    trip_of(alloc, &events)
}

/// A trip that passes stop 3 twice.
fn twice(alloc: Global, start: u32) -> Result<Trip, AllocError> {
    let events = [
        after(start, 3, 1_000),
        after(start, 4, 1_100),
        after(start, 3, 1_200),
        after(start, 5, 1_300),
    ];
    trip_of(alloc, &events)
}

/// A trip whose hops take 0 seconds.
fn at_once(alloc: Global, start: u32) -> Result<Trip, AllocError> {
    let events = [
        after(start, 2, 860),
        after(start, 4, 860),
        after(start, 6, 860),
    ];
    trip_of(alloc, &events)
}

/// Adds the four trips of a start.
fn push_trips(alloc: Global, trips: &mut Vec<Trip>, start: u32) -> Result<(), AllocError> {
    trips.push(slow(alloc, start)?)?;
    trips.push(fast(alloc, start)?)?;
    trips.push(twice(alloc, start)?)?;
    trips.push(at_once(alloc, start)?)?;
    Ok(())
}

/// Such trips, every 7 minutes from 08:00.
fn busy_trips(alloc: Global) -> Result<Vec<Trip>, AllocError> {
    let mut trips = Vec::new(alloc);
    for turn in 0..12u32 {
        push_trips(alloc, &mut trips, 28_800 + 420 * turn)?;
    }
    Ok(trips)
}

/// The network of these trips, over 8 stops.
pub(crate) fn busy(alloc: Global) -> Result<SmallNetwork, AllocError> {
    let changes = Vec::from_slice(alloc, &CHANGES)?;
    network_over(alloc, 8, &FOOTPATHS, changes, busy_trips(alloc)?)
}

/// The network of such trips from 08:00 and 08:07 on two days: those of the second are past what narrow labels tell.
fn busy_on_two_days(alloc: Global) -> Result<SmallNetwork, AllocError> {
    let mut trips = Vec::new(alloc);
    for start in &[28_800, 29_220, 115_200, 115_620] {
        push_trips(alloc, &mut trips, *start)?;
    }
    let changes = Vec::from_slice(alloc, &CHANGES)?;
    network_over(alloc, 8, &FOOTPATHS, changes, trips)
}

/// Whether the durations of a minute are those of its departure alone.
fn minute_agrees(
    alloc: Global,
    network: &Network,
    (origin, depart, rides): (u32, u32, u32),
    found: &Durations,
    minute: u32,
) -> Result<bool, AllocError> {
    if origin >= network.stops() || depart >= END_OF_AXIS {
        return Ok(false);
    }
    let alone = one_minute(alloc, network, StopNo(origin), depart, rides)?;
    Ok(is_minute(found, minute, alone.as_slice()))
}

/// Whether the durations of each minute are those of its departure alone.
fn minutes_agree(
    alloc: Global,
    network: &Network,
    (origin, window, rides): (u32, Window, u32),
    found: &Durations,
) -> Result<bool, AllocError> {
    for minute in 0..window.minutes {
        let depart = window.first.saturating_add(minute.saturating_mul(60));
        if !minute_agrees(alloc, network, (origin, depart, rides), found, minute)? {
            return Ok(false);
        }
    }
    Ok(true)
}

/// Whether the durations of a window are those of each of its departures alone.
fn window_agrees(
    alloc: Global,
    network: &SmallNetwork,
    origin: u32,
    window: Window,
    rides: u32,
) -> Result<bool, AllocError> {
    let found = of_window(alloc, network, origin, window, rides)?;
    match (network, &found) {
        (Some(network), Some(found)) => {
            minutes_agree(alloc, network, (origin, window, rides), found)
        }
        _ => Ok(false),
    }
}

/// Whether that is so from each stop of the busy network.
fn origins_agree(
    alloc: Global,
    network: &SmallNetwork,
    minutes: u32,
    rides: u32,
) -> Result<bool, AllocError> {
    let window = Window { minutes, ..TWENTY };
    for origin in 0..8u32 {
        if !window_agrees(alloc, network, origin, window, rides)? {
            return Ok(false);
        }
    }
    Ok(true)
}

/// `one_minute`, `Lines::count`, `FlatLists::count`, `Network::feet`, `durations`.
#[test]
fn as_each_minute_alone(rt: HostRuntime) -> Result<(), Fail> {
    let alloc = rt.alloc();
    let network = busy(alloc)?;
    for minutes in &[1, 15, 16, 17, 32, 33, 90] {
        for rides in &[0, 1, 3, 8] {
            assert!(rt;
                origins_agree(alloc, &network, *minutes, *rides)?,
                "{minutes} minutes, {rides} rides"
            );
        }
    }
    Ok(())
}

/// `one_minute`.
#[test]
fn a_day_as_each_minute_alone(rt: HostRuntime) -> Result<(), Fail> {
    let alloc = rt.alloc();
    let network = busy(alloc)?;
    let window = Window {
        first: 0,
        minutes: 1_440,
    };
    assert!(rt; window_agrees(alloc, &network, 0, window, 4)?);
    Ok(())
}

/// `one_minute`.
#[test]
fn two_days_as_each_minute_alone(rt: HostRuntime) -> Result<(), Fail> {
    let alloc = rt.alloc();
    let network = busy_on_two_days(alloc)?;
    for minutes in &[1, 32, 33, 64] {
        for rides in &[1, 8] {
            assert!(rt;
                origins_agree(alloc, &network, *minutes, *rides)?,
                "{minutes} minutes, {rides} rides"
            );
        }
    }
    Ok(())
}

/// Windows from 06:00, which all find the same trip a minute, and a day from 05:00, after whose first 400 minutes no
/// trip leaves.
#[test]
fn a_line_as_each_minute_alone(rt: HostRuntime) -> Result<(), Fail> {
    let alloc = rt.alloc();
    let network = a_line(alloc)?;
    for (first, minutes) in &[
        (21_600, 1),
        (21_600, 15),
        (21_600, 16),
        (21_600, 17),
        (21_600, 32),
        (21_600, 60),
        (18_000, 1_440),
    ] {
        let window = Window {
            first: *first,
            minutes: *minutes,
        };
        assert!(rt;
            window_agrees(alloc, &network, 0, window, 2)?,
            "{minutes} minutes from {first}"
        );
    }
    Ok(())
}

/// Whether two tables have the same durations to a stop.
fn same_at(found: &Durations, other: &Durations, stop: u32) -> bool {
    if stop >= found.stops() || stop >= other.stops() {
        return false;
    }
    found.lanes_of(StopNo(stop)) == other.lanes_of(StopNo(stop))
}

/// Whether two tables have the same durations.
fn same(found: &Durations, other: &Durations) -> bool {
    if found.stops() != other.stops() || found.minutes() != other.minutes() {
        return false;
    }
    for stop in 0..found.stops() {
        if !same_at(found, other, stop) {
            return false;
        }
    }
    true
}

/// Whether a search finds these durations for 20 minutes from 07:58.
fn search_finds(
    alloc: Global,
    search: &mut Search,
    network: &Network,
    origin: u32,
    expected: &Durations,
) -> Result<bool, AllocError> {
    if origin >= network.stops() || !TWENTY.fits() {
        return Ok(false);
    }
    let found = search.durations(alloc, network, StopNo(origin), TWENTY, 4)?;
    Ok(same(&found, expected))
}

/// Whether a search that was used before finds what a new one does.
fn search_agrees(
    alloc: Global,
    search: &mut Search,
    network: &SmallNetwork,
    origin: u32,
) -> Result<bool, AllocError> {
    let expected = of_window(alloc, network, origin, TWENTY, 4)?;
    match (network, &expected) {
        (Some(network), Some(expected)) => {
            search_finds(alloc, search, network, origin, expected)
        }
        _ => Ok(false),
    }
}

/// Whether that is so in the busy network.
fn agrees_in_busy(alloc: Global, search: &mut Search, origin: u32) -> Result<bool, AllocError> {
    let network = busy(alloc)?;
    search_agrees(alloc, search, &network, origin)
}

/// Whether that is so in a network of three stops.
fn agrees_in_small(alloc: Global, search: &mut Search, origin: u32) -> Result<bool, AllocError> {
    let network = two_trips(alloc, 29_700, true)?;
    search_agrees(alloc, search, &network, origin)
}

/// Whether that is so in both in turn.
fn agrees_in_turn(alloc: Global, search: &mut Search) -> Result<bool, AllocError> {
    for origin in 0..3u32 {
        if !agrees_in_busy(alloc, search, origin)? || !agrees_in_small(alloc, search, origin)? {
            return Ok(false);
        }
    }
    Ok(true)
}

/// `Search::durations`.
#[test]
fn one_search_for_two_networks(rt: HostRuntime) -> Result<(), Fail> {
    let alloc = rt.alloc();
    let mut search = Box::new(alloc, Search::new(alloc))?;
    assert!(rt; agrees_in_turn(alloc, &mut search)?);
    Ok(())
}
