//! The calls that read tables: `read_feed` reads the small feed, and the others go over it.

use crate::small_tables::{CUT, LATE, MONDAY, over_small_feed};
use footpaths::direct;
use gtfs_tables::{
    Feed, FeedTrip, MOST_BYTES, What, file_fits, read_date, read_destinations, read_feed,
    read_opportunities, read_origins,
};
use scenarios::{Scenario, ScenarioWhat, read_scenario};
use service_days::{DayFault, Run, active};
use small_feed::{FROM_A, WALKS, small_files};
use std::alloc::{AllocError, Global};
use study_trials::{Outcome, told};
use timetable::{Event, StopNo};

/// A call over the small feed.
#[derive(Clone, Copy)]
pub(crate) enum Call {
    ReadOrigins,
    ReadOpportunities,
    ReadDestinations,
    Active,
    Direct,
    ReadScenario,
}

/// Ten opportunities at B and five at C.
const CHANCES: &[u8] = b"stop_id,opportunities
B,10
C,5
";

/// C and A, as destinations.
const TO_C_AND_A: &[u8] = b"stop_id
C
A
";

/// The runs around the Monday: both trips, on the second day of the axis.
const RUNS: [Run; 2] = [
    Run {
        trip: 0,
        shift: 86_400,
    },
    Run {
        trip: 1,
        shift: 86_400,
    },
];

/// The trial of `read_feed`.
pub(crate) fn try_read_feed(alloc: Global) -> Outcome {
    Outcome::of(|| reads_feed(alloc))
}

/// Whether `read_feed` gives the tables of the small feed.
fn reads_feed(alloc: Global) -> Result<bool, AllocError> {
    let files = small_files();
    if !files.fits() {
        return Ok(false);
    }
    match read_feed(alloc, &files) {
        Ok(feed) => {
            let is_right = is_small(&feed);
            drop(feed);
            Ok(is_right)
        }
        Err(fault) => told(fault.what == What::Memory),
    }
}

/// Whether these are the tables of the small feed.
fn is_small(feed: &Feed) -> bool {
    if feed.stop_count() != 3 || feed.trip_count() != 2 {
        return false;
    }
    feed.stop_id(StopNo(0)) == b"A".as_slice()
        && feed.stop_id(StopNo(1)) == b"B".as_slice()
        && feed.stop_id(StopNo(2)) == b"C".as_slice()
        && feed.stop_no(b"C") == Some(StopNo(2))
        && feed.route_no(b"R2") == Some(1)
        && feed.service_no(b"MON") == Some(0)
        && feed.calendar().len() == 1
        && feed.links().is_empty()
        && is_trip(feed.trip(0), b"T1", 0, [(0, 28_800), (1, 29_400)])
        && is_trip(feed.trip(1), b"T2", 1, [(1, 29_700), (2, 30_600)])
}

/// Whether a trip is that of an identifier and a route, and calls at these stops at these seconds.
fn is_trip(trip: &FeedTrip, id: &[u8], route: u32, calls: [(u32, u32); 2]) -> bool {
    let [first, last] = calls;
    trip.id.as_slice() == id
        && trip.route == route
        && trip.service == 0
        && trip.departures.as_slice().is_empty()
        && trip.events.as_slice() == [event(first), event(last)].as_slice()
}

/// A vehicle at a stop at a second, where everybody may board and alight.
fn event(call: (u32, u32)) -> Event {
    Event {
        stop: StopNo(call.0),
        arrive: call.1,
        depart: call.1,
        board: true,
        alight: true,
    }
}

/// The trial of a call over the small feed.
pub(crate) fn try_call(alloc: Global, call: Call) -> Outcome {
    over_small_feed(alloc, |feed| try_over(alloc, feed, call))
}

fn try_over(alloc: Global, feed: &Feed, call: Call) -> Outcome {
    Outcome::of(|| ask(alloc, feed, call))
}

/// Whether a call gives the right value.
fn ask(alloc: Global, feed: &Feed, call: Call) -> Result<bool, AllocError> {
    match call {
        Call::ReadOrigins => reads_origins(alloc, feed),
        Call::ReadOpportunities => reads_opportunities(alloc, feed),
        Call::ReadDestinations => reads_destinations(alloc, feed),
        Call::Active => lists_runs(alloc, feed),
        Call::Direct => lists_walks(alloc, feed),
        Call::ReadScenario => reads_scenarios(alloc, feed),
    }
}

fn reads_origins(alloc: Global, feed: &Feed) -> Result<bool, AllocError> {
    if !file_fits(Some(FROM_A)) {
        return Ok(false);
    }
    match read_origins(alloc, Some(FROM_A), feed) {
        Ok(origins) => Ok(origins.as_slice() == [StopNo(0)].as_slice()),
        Err(fault) => told(fault.what == What::Memory),
    }
}

fn reads_opportunities(alloc: Global, feed: &Feed) -> Result<bool, AllocError> {
    if !file_fits(Some(CHANCES)) {
        return Ok(false);
    }
    match read_opportunities(alloc, Some(CHANCES), feed) {
        Ok(counts) => Ok(counts.as_slice() == [0, 10, 5].as_slice()),
        Err(fault) => told(fault.what == What::Memory),
    }
}

fn reads_destinations(alloc: Global, feed: &Feed) -> Result<bool, AllocError> {
    if !file_fits(Some(TO_C_AND_A)) {
        return Ok(false);
    }
    match read_destinations(alloc, Some(TO_C_AND_A), feed) {
        Ok(stops) => Ok(stops.as_slice() == [StopNo(2), StopNo(0)].as_slice()),
        Err(fault) => told(fault.what == What::Memory),
    }
}

fn lists_runs(alloc: Global, feed: &Feed) -> Result<bool, AllocError> {
    let Some(date) = read_date(MONDAY) else {
        return Ok(false);
    };
    match active(alloc, feed, date, 1, 1) {
        Ok(runs) => Ok(runs.as_slice() == RUNS.as_slice()),
        Err(fault) => told(fault == DayFault::Memory),
    }
}

fn lists_walks(alloc: Global, feed: &Feed) -> Result<bool, AllocError> {
    if !file_fits(Some(WALKS)) {
        return Ok(false);
    }
    let walks = [(StopNo(0), StopNo(1), 60), (StopNo(1), StopNo(2), 60)];
    match direct(alloc, feed, Some(WALKS)) {
        Ok(direct) => Ok(
            direct.pairs() == walks.as_slice() && direct.changes() == [0, 0, 0].as_slice(),
        ),
        Err(fault) => told(fault.what == What::Memory),
    }
}

/// The file that cuts a route, and then the one that makes a trip late.
fn reads_scenarios(alloc: Global, feed: &Feed) -> Result<bool, AllocError> {
    Ok(
        reads_scenario(alloc, feed, b"cut", CUT, [true, false], 0)?
            && reads_scenario(alloc, feed, b"late", LATE, [true, true], 300)?,
    )
}

/// Whether a file's scenario keeps these of the two trips, and makes the first so many seconds late.
fn reads_scenario(
    alloc: Global,
    feed: &Feed,
    name: &[u8],
    bytes: &[u8],
    kept: [bool; 2],
    late: i64,
) -> Result<bool, AllocError> {
    if bytes.len() > MOST_BYTES {
        return Ok(false);
    }
    match read_scenario(alloc, name, bytes, feed) {
        Ok(scenario) => Ok(
            scenario.name() == name
                && keeps(&scenario, feed) == Some(kept)
                && scenario.shift(0) == late
                && scenario.shift(1) == 0,
        ),
        Err(fault) => told(fault.what == ScenarioWhat::Memory),
    }
}

/// Which of the two trips a scenario keeps.
fn keeps(scenario: &Scenario, feed: &Feed) -> Option<[bool; 2]> {
    if feed.trip_count() != 2 {
        return None;
    }
    Some([scenario.keeps(feed, 0), scenario.keeps(feed, 1)])
}
