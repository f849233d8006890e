//! Whether shifted trips stay within the times of a service day.
ghost use Rattle.std.specs.Prelude.{◌≡◌, ◌≤◌, ◌<◌, ◌+◌, ◌&&◌, ◌∷◌, ℕ, List, [], All, IfErr, IfOk, OnOk, false, length};
ghost use Rattle.std.specs.Prelude.{slice_index_or};
ghost use Rattle.std.specs.List.{list_all, list_any};
ghost use Rattle.timetable.specs.Trips.{EventsRise};
ghost use Rattle.gtfs_tables.specs.Feed.{IsDeparting};
ghost use Rattle.service_days.specs.Instances.{departures_of};
ghost use Rattle.scenarios.specs.declared.edits.Edit.{Edit};
ghost use Rattle.scenarios.specs.Faults.{Tells};
ghost use Rattle.scenarios.specs.Moving.{IsSum};
ghost use Rattle.scenarios.specs.ShiftedTimes as spec;
ghost use Rattle.scenarios.specs.ShiftedTimes.{NamesTrip, TellsRecord, is_trip_in_range, range_faults, shifts_trip};

use crate::edits::{END_OF_TIMES, Edit};
use crate::faults::{ScenarioFault, ScenarioWhat};
use crate::numbered::{flag_at, raise_flag};
use crate::scenario::Scenario;
use gtfs_tables::{Departures, Feed, FeedTrip};
use std::alloc::{AllocError, Global};

/// Refuses a scenario that shifts a trip too far: `ShiftOutOfRange` at the first record that is the last to shift such
/// a trip.
pub(crate) fn check_times(
    alloc: Global,
    feed: &Feed,
    scenario: &Scenario,
) -> Result<(), ScenarioFault>
    requires { All (NamesTrip feed.now) scenario.now.edits }
    ensures good { OnOk result (range_faults feed.now scenario.now.edits 2 scenario.now.edits ≡ []) }
    ensures fault { IfErr result (λ e. Tells e (range_faults feed.now scenario.now.edits 2 scenario.now.edits)) }
{
    match first_too_far(alloc, feed, scenario)? {
        None => Ok(()),
        Some(at) => Err(ScenarioFault {
            at,
            what: ScenarioWhat::ShiftOutOfRange,
        }),
    }
}

/// The number of the first record that is the last to shift its trip, where the trip is then shifted too far.
///
/// The records are looked at from the last one on, so that each trip is looked at once.
fn first_too_far(alloc: Global, feed: &Feed, scenario: &Scenario) -> Result<Option<u64>, AllocError>
    requires { All (NamesTrip feed.now) scenario.now.edits }
    ensures { IfOk result (λ first. TellsRecord first (range_faults feed.now scenario.now.edits 2 scenario.now.edits)) }
{
    let edits = scenario.edits();
    let mut later = Vec::new(alloc);
    let mut first = None;
    for i in (0..edits.len()).rev() {
        if is_last_too_far(feed, scenario, &mut later, edits[i])? {
            first = Some(i as u64 + 2);
        }
    }
    Ok(first)
}

/// Whether an edit is the last that shifts its trip, and all edits together shift the trip too far. `later` flags the
/// trips that the edits after it shift, and then its own too.
fn is_last_too_far(
    feed: &Feed,
    scenario: &Scenario,
    later: &mut Vec<bool>,
    edit: Edit,
) -> Result<bool, AllocError>
    requires { NamesTrip feed.now edit }
    ensures { IfOk result (λ is. (rest : List Edit) →
        ((k : ℕ) → slice_index_or later.old.items k false ≡ list_any (shifts_trip k) rest)
        → (is ≡ spec.is_last_too_far feed.now scenario.now.edits edit rest)
        × ((k : ℕ) → slice_index_or later.new.items k false ≡ list_any (shifts_trip k) (edit ∷ rest))) }
{
    let Edit::Shift(trip, _) = edit else {
        return Ok(false);
    };
    if flag_at(later.as_slice(), trip) {
        return Ok(false);
    }
    raise_flag(later, trip)?;
    feed.known();
    Ok(!is_in_range(feed.trip(trip), scenario.shift(trip)))
}

/// Whether all times of a trip, moved by seconds, stay within the times of a service day: those of every departure
/// where it has frequency rows. Times rise along a trip, so that its first arrival and its last departure decide.
fn is_in_range(trip: &FeedTrip, seconds: i64) -> bool
    requires seconds { IsSum seconds }
    requires times { All (λ e. (e.arrive ≤ 604799) × (e.depart ≤ 604799)) trip.now.events }
    requires rise { EventsRise trip.now.events }
    requires rows { All IsDeparting trip.now.departures }
    ensures { result ≡ is_trip_in_range seconds trip.now }
{
    let events = trip.events.as_slice();
    if events.is_empty() {
        return true;
    }
    let first = events[0];
    let last = events[events.len() - 1];
    let rows = trip.departures.as_slice();
    if rows.is_empty() {
        return begins_in_range(first.arrive, seconds) && ends_in_range(last.depart, seconds);
    }
    are_rows_in_range(rows, last.depart - first.depart, seconds)
}

/// Whether the departures of frequency rows stay in range; a trip ends `length` seconds after it departs.
fn are_rows_in_range(rows: &[Departures], length: u32, seconds: i64) -> bool
    requires seconds { IsSum seconds }
    requires length { length ≤ 604799 }
    requires rows { All IsDeparting rows.now }
    ensures { result ≡ list_all (λ row. list_all (spec.is_departure_in_range seconds length) (departures_of row))
        rows.now }
{
    for row in rows {
        if !is_row_in_range(row, length, seconds) {
            return false;
        }
    }
    true
}

/// Whether the departures of a frequency row stay in range. The first and the last of them decide.
fn is_row_in_range(row: &Departures, length: u32, seconds: i64) -> bool
    requires seconds { IsSum seconds }
    requires length { length ≤ 604799 }
    requires row { IsDeparting row.now }
    ensures { result ≡ list_all (spec.is_departure_in_range seconds length) (departures_of row.now) }
{
    if row.end <= row.start {
        return true;
    }
    let last = row.end - 1 - (row.end - row.start - 1) % row.headway;
    begins_in_range(row.start, seconds) && ends_in_range(last + length, seconds)
}

/// Whether a time moved by seconds isn't before its service day.
fn begins_in_range(time: u32, seconds: i64) -> bool
    requires { IsSum seconds }
    ensures { result ≡ spec.begins_in_range seconds time }
{
    time as i64 + seconds >= 0
}

/// Whether a time moved by seconds is before the end of the times of a service day.
fn ends_in_range(time: u32, seconds: i64) -> bool
    requires { IsSum seconds }
    ensures { result ≡ spec.ends_in_range seconds time }
{
    time as i64 + seconds < END_OF_TIMES as i64
}
