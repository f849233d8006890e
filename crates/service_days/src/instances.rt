//! The runs of a study: the trips that run on its service days.
ghost use Rattle.std.specs.Prelude.{◌≡◌, ◌⊎◌, ◌≤◌, ◌<◌, ◌+◌, ◌++◌, ◌*◌, [], All, IfErr, IfOk, OnOk, Some, length};
ghost use Rattle.std.specs.Prelude.{slice_get};
ghost use Rattle.table_records.specs.Faults.{IsFirst};
ghost use Rattle.gtfs_tables.specs.Feed.{day_number};
ghost use Rattle.service_days.specs.declared.day.TheConstants.{LAST_DAY, LAST_START};
ghost use Rattle.service_days.specs.declared.fault.DayFault.TheVariants as day_fault;
ghost use Rattle.service_days.specs.Services.{IsServiceDay};
ghost use Rattle.service_days.specs.Instances.{IsListFault, IsRun, day_faults, runs_if, runs_of, runs_of_day};
ghost use Rattle.service_days.specs.Instances.{runs_of_days};

use crate::day::{LAST_DAY, number_of};
use crate::departures::add_trip;
use crate::fault::DayFault;
use crate::run::Run;
use crate::run_list::RunList;
use crate::services::ServiceDay;
use gtfs_tables::{Feed, FeedTrip};
use jiff::civil::Date;
use std::alloc::Global;

/// The runs of a study: of all trips that run on the service days from `back` days before a date to `ahead` days after
/// it. They are ordered by day, then by trip, then by frequency row, then by departure.
///
/// A trip runs on the days of its service; with frequency rows only as their departures, which are before a row's end,
/// of rows that overlap all of them. A trip without events never runs. (GTFS Schedule reference, `frequencies.txt`.)
///
/// `DateRange` where one of the days is outside the calendar's years; else `TooMany` past 1,000,000 runs, before they
/// are listed; `Memory` where memory ran out.
pub fn active(
    alloc: Global,
    feed: &Feed,
    date: Date,
    back: u32,
    ahead: u32,
) -> Result<Vec<Run>, DayFault>
    ensures good { IfOk result (λ runs. (day_faults feed.now (day_number date) back ahead ≡ [])
        × (runs.items ≡ runs_of feed.now (day_number date) back ahead)) }
    ensures runs { IfOk result (λ runs. All (IsRun feed.now) runs.items) }
    ensures fault { IfErr result (λ e. (e ≡ day_fault.Memory)
        ⊎ IsFirst e (day_faults feed.now (day_number date) back ahead)) }
{
    feed.known();
    let day = number_of(date);
    if day < back || LAST_DAY - day < ahead {
        return Err(DayFault::DateRange);
    }
    let mut runs = RunList::new(alloc);
    add_days(alloc, &mut runs, feed, day - back, back + ahead + 1)?;
    Ok(runs.into_vec())
}

/// Adds the runs of successive days.
fn add_days(
    alloc: Global,
    runs: &mut RunList,
    feed: &Feed,
    first: u32,
    days: u32,
) -> Result<(), DayFault>
    requires { first + days ≤ LAST_DAY + 1 }
    ensures good { OnOk result (runs.new ≡ runs.old ++ runs_of_days feed.now first days) }
    ensures fault { IfErr result (λ e. IsListFault e (length runs.old + length (runs_of_days feed.now first days))) }
{
    for x in 0..days {
        let day = ServiceDay::new(alloc, feed, first + x)?;
        add_day(runs, feed, &day, 86_400 * x as u64)?;
    }
    Ok(())
}

/// Adds the runs of a day, which begins at `base` seconds on the axis.
fn add_day(runs: &mut RunList, feed: &Feed, day: &ServiceDay, base: u64) -> Result<(), DayFault>
    requires base { base ≤ LAST_START }
    requires day { IsServiceDay feed.now day.now }
    ensures good { OnOk result (runs.new ≡ runs.old ++ runs_of_day feed.now day.now.number base) }
    ensures fault { IfErr result (λ e. IsListFault e
        (length runs.old + length (runs_of_day feed.now day.now.number base))) }
{
    for number in 0..feed.trip_count() {
        add_if_running(runs, feed, day, base, number, feed.trip(number))?;
    }
    Ok(())
}

/// Adds the runs of a trip, where its service runs on the day.
fn add_if_running(
    runs: &mut RunList,
    feed: &Feed,
    day: &ServiceDay,
    base: u64,
    number: u32,
    trip: &FeedTrip,
) -> Result<(), DayFault>
    requires base { base ≤ LAST_START }
    requires day { IsServiceDay feed.now day.now }
    requires trip { slice_get feed.now.trips number ≡ Some trip.now }
    ensures good { OnOk result (runs.new ≡ runs.old ++ runs_if feed.now day.now.number base number trip.now) }
    ensures fault { IfErr result (λ e. IsListFault e
        (length runs.old + length (runs_if feed.now day.now.number base number trip.now))) }
{
    feed.known();
    if !day.running[trip.service as usize] {
        return Ok(());
    }
    add_trip(runs, base, number, trip)
}
