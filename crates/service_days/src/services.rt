//! On which days services run: their weekdays between two dates, with dates added and dates removed.
//! (GTFS Schedule reference, `calendar.txt` and `calendar_dates.txt`.)
ghost use Rattle.std.specs.Prelude.{◌≡◌, ◌≤◌, ◌<◌, ◌+◌, ◌==◌, ◌&&◌, ◌||◌, if◌then◌else◌, ℕ, IfOk, false, length, not};
ghost use Rattle.std.specs.Prelude.{slice_index_or};
ghost use Rattle.std.specs.List.{list_any};
ghost use Rattle.gtfs_tables.specs.Feed.{calendar_data, day_number, exception_data};
ghost use Rattle.service_days.specs.Services as spec;
ghost use Rattle.service_days.specs.Services.{IsServiceDay, runs_on};
ghost use Rattle.service_days.specs.declared.day.TheConstants.{LAST_DAY};

use crate::day::{Day, number_of};
use gtfs_tables::{CalendarRow, ExceptionRow, Feed};
use jiff::civil::Date;
use std::alloc::{AllocError, Global};

/// Whether a service runs on a date: an exception adds the date; or a row of the calendar covers it, both ends
/// included, and names its weekday, and no exception removes it. (GTFS Schedule reference, `calendar_dates.txt`.)
///
/// The service is named by its number in the feed; a number that the feed gives to no service never runs. Takes no
/// memory.
pub fn runs(feed: &Feed, service: u32, date: Date) -> bool
    ensures { result ≡ runs_on feed.now service (day_number date) }
{
    let mut running = [false];
    mark_running(&mut running, service, feed, Day::of(date));
    running[0]
}

/// Whether the row covers the day, both ends included, and names its weekday.
fn covers(row: &CalendarRow, day: Day) -> bool
    ensures { result ≡ spec.covers day.number (calendar_data row.now) }
{
    number_of(row.first) <= day.number && day.number <= number_of(row.last) && row.days[day.weekday]
}

/// Whether the exception adds the day.
fn adds(row: &ExceptionRow, day: Day) -> bool
    ensures { result ≡ ((day_number row.now.date == day.number) && row.now.adds) }
{
    number_of(row.date) == day.number && row.adds
}

/// Whether the exception removes the day.
fn removes(row: &ExceptionRow, day: Day) -> bool
    ensures { result ≡ ((day_number row.now.date == day.number) && not row.now.adds) }
{
    number_of(row.date) == day.number && !row.adds
}

/// A service day, and for each service of the feed whether it runs on it.
#[derive(Drop)]
pub(crate) struct ServiceDay {
    pub(crate) number: u32,
    pub(crate) running: Vec<bool>,
}

impl ServiceDay {
    /// The services that run on the day, found in one pass over each calendar.
    pub(crate) fn new(alloc: Global, feed: &Feed, number: u32) -> Result<ServiceDay, AllocError>
        requires { number ≤ LAST_DAY }
        ensures number { IfOk result (λ d. d.number ≡ number) }
        ensures running { IfOk result (λ d. IsServiceDay feed.now d) }
    {
        let mut running = vec![in alloc; false; feed.service_count() as usize]?;
        mark_running(&mut running, 0, feed, Day::at(number));
        Ok(ServiceDay { number, running })
    }
}

/// Marks those that run on the day, of as many services from `first` on as there are marks, where none is marked yet.
fn mark_running(running: &mut [bool], first: u32, feed: &Feed, day: Day)
    requires { (k : ℕ) → k < length running.old → slice_index_or running.old k false ≡ false }
    ensures { (k : ℕ) → k < length running.old →
        slice_index_or running.new k false ≡ runs_on feed.now (first + k) day.number }
{
    let exceptions = feed.exceptions();
    mark_scheduled(running, first, feed.calendar(), day);
    unmark_removed(running, first, exceptions, day);
    mark_added(running, first, exceptions, day);
}

/// Marks the services that the calendar has run on the day.
fn mark_scheduled(running: &mut [bool], first: u32, calendar: &[CalendarRow], day: Day)
    ensures { (k : ℕ) → k < length running.old → slice_index_or running.new k false
        ≡ (slice_index_or running.old k false || list_any
        (λ row. spec.schedules (first + k) day.number (calendar_data row)) calendar.now) }
{
    for row in calendar {
        if covers(row, day) {
            set_mark(running, first, row.service, true);
        }
    }
}

/// Unmarks the services from which the day is removed.
fn unmark_removed(running: &mut [bool], first: u32, exceptions: &[ExceptionRow], day: Day)
    ensures { (k : ℕ) → k < length running.old → slice_index_or running.new k false
        ≡ (slice_index_or running.old k false && not
        (list_any (λ row. spec.removes (first + k) day.number (exception_data row)) exceptions.now)) }
{
    for row in exceptions {
        if removes(row, day) {
            set_mark(running, first, row.service, false);
        }
    }
}

/// Marks the services to which the day is added.
fn mark_added(running: &mut [bool], first: u32, exceptions: &[ExceptionRow], day: Day)
    ensures { (k : ℕ) → k < length running.old → slice_index_or running.new k false
        ≡ (slice_index_or running.old k false || list_any (λ row. spec.adds (first + k) day.number (exception_data row))
        exceptions.now) }
{
    for row in exceptions {
        if adds(row, day) {
            set_mark(running, first, row.service, true);
        }
    }
}

/// Marks a service, or unmarks it, where one of the marks of the services from `first` on is its own.
fn set_mark(running: &mut [bool], first: u32, service: u32, runs: bool)
    ensures { (k : ℕ) → k < length running.old → slice_index_or running.new k false
        ≡ (if service == first + k then runs else slice_index_or running.old k false) }
{
    if service < first {
        return;
    }
    let position = (service - first) as usize;
    if position < running.len() {
        running[position] = runs;
    }
}
