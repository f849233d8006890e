//! The runs of a trip on a day of its service.
//! (GTFS Schedule reference, `frequencies.txt`: a trip with rows there runs only as their departures.)
ghost use Rattle.std.specs.Prelude.{◌≡◌, ◌≤◌, ◌<◌, ◌+◌, ◌*◌, ◌++◌, ◌-ℤ◌, All, ℕ, IfErr, OnOk, length, map, pos};
ghost use Rattle.std.specs.List.{flat_map, range_with_len};
ghost use Rattle.gtfs_tables.specs.Feed.{IsDeparting};
ghost use Rattle.service_days.specs.declared.day.TheConstants.{LAST_START};
ghost use Rattle.service_days.specs.Instances.{IsListFault, departures_of, runs_of_row, runs_of_trip};

use crate::fault::DayFault;
use crate::run::Run;
use crate::run_list::RunList;
use gtfs_tables::{Departures, FeedTrip};

/// Adds the runs of a trip on the day that begins at `base` seconds on the axis: none where it has no events.
pub(crate) fn add_trip(
    runs: &mut RunList,
    base: u64,
    number: u32,
    trip: &FeedTrip,
) -> Result<(), DayFault>
    requires base { base ≤ LAST_START }
    requires events { All (λ e. (e.arrive ≤ 604799) × (e.depart ≤ 604799)) trip.now.events }
    requires rows { All IsDeparting trip.now.departures }
    ensures good { OnOk result (runs.new ≡ runs.old ++ runs_of_trip base number trip.now) }
    ensures fault { IfErr result (λ e. IsListFault e (length runs.old + length (runs_of_trip base number trip.now))) }
{
    let events = trip.events.as_slice();
    if events.is_empty() {
        return Ok(());
    }
    let rows = trip.departures.as_slice();
    if rows.is_empty() {
        return runs.push(Run {
            trip: number,
            shift: base as i64,
        });
    }
    add_rows(runs, base, number, events[0].depart, rows)
}

/// Adds the departures of all frequency rows of a trip, row by row.
fn add_rows(
    runs: &mut RunList,
    base: u64,
    trip: u32,
    first: u32,
    rows: &[Departures],
) -> Result<(), DayFault>
    requires base { base ≤ LAST_START }
    requires first { first ≤ 604799 }
    requires rows { All IsDeparting rows.now }
    ensures good { OnOk result (runs.new ≡ runs.old ++ flat_map (runs_of_row base trip first) rows.now) }
    ensures fault { IfErr result (λ e. IsListFault e
        (length runs.old + length (flat_map (runs_of_row base trip first) rows.now))) }
{
    for row in rows {
        add_row(runs, base, trip, first, row)?;
    }
    Ok(())
}

/// Adds the departures of a frequency row of a trip whose own first departure is `first`.
fn add_row(
    runs: &mut RunList,
    base: u64,
    trip: u32,
    first: u32,
    row: &Departures,
) -> Result<(), DayFault>
    requires base { base ≤ LAST_START }
    requires first { first ≤ 604799 }
    requires row { IsDeparting row.now }
    ensures good { OnOk result (runs.new ≡ runs.old ++ runs_of_row base trip first row.now) }
    ensures fault { IfErr result (λ e. IsListFault e (length runs.old + length (runs_of_row base trip first row.now))) }
{
    let count = departure_count(row);
    if count as usize > runs.room() {
        return Err(DayFault::TooMany);
    }
    for x in 0..count {
        let time = row.start + x * row.headway;
        runs.push(Run {
            trip,
            shift: difference(base + time as u64, first),
        })?;
    }
    Ok(())
}

/// How many departures a frequency row has: those before its end.
fn departure_count(row: &Departures) -> u32
    requires { IsDeparting row.now }
    ensures departures { departures_of row.now
        ≡ map (λ x. row.now.start + x * row.now.headway) (range_with_len 0 result) }
    ensures before_end { (x : ℕ) → x < result → row.now.start + x * row.now.headway < row.now.end }
{
    if row.end <= row.start {
        return 0;
    }
    (row.end - row.start - 1) / row.headway + 1
}

/// How much later one time is than another.
fn difference(time: u64, other: u32) -> i64
    requires { time ≤ LAST_START + 604799 }
    ensures { result ≡ pos time -ℤ pos other }
{
    time as i64 - other as i64
}
