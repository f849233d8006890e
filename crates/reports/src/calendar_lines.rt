//! Which dates the calendars of a feed cover, and the nearest to a date on which a trip runs.

ghost use Rattle.std.specs.Prelude.{IfSome, ◌≤ℤ◌};
ghost use Rattle.jiff.specs.Words.{epoch_day};

use console::{Console, tell_line};
use gtfs_tables::{CalendarRow, ExceptionRow, Feed};
use jiff::civil::Date;
use service_days::{DayFault, active};
use std::alloc::{AllocError, Global};

/// The most days that are looked at on either side of a date.
const MOST_DAYS_SOUGHT: u32 = 366;

/// Dates from a first one to a last one.
#[derive(Clone, Copy)]
struct Dates {
    first: Date,
    last: Date,
}

/// What was found of a date on which a trip runs.
#[derive(Clone, Copy)]
enum Nearest {
    On(Date),
    /// There is none.
    Never,
    /// The most days that are looked at have none.
    TooFar,
}

/// Tells which dates the calendars cover, and the nearest before and after a date on which a trip runs.
pub(crate) fn tell_calendar<C: Console>(console: &C, alloc: Global, feed: &Feed, date: Date) {
    match covered_dates(feed) {
        Some(dates) => tell_dates(console, alloc, feed, date, &dates),
        None => console.tell(b"ttm: dates of the calendars: none\n"),
    }
}

/// Tells these dates, and the nearest of them before and after a date on which a trip runs.
fn tell_dates<C: Console>(console: &C, alloc: Global, feed: &Feed, date: Date, dates: &Dates) {
    tell_line(console, dates_line(alloc, dates));
    let before = date_before(alloc, feed, date, dates);
    tell_line(console, nearest_line(alloc, "before", &before));
    let after = date_after(alloc, feed, date, dates);
    tell_line(console, nearest_line(alloc, "after", &after));
}

/// The dates that the calendars of a feed cover: from the first to the last on which a service may run.
fn covered_dates(feed: &Feed) -> Option<Dates> {
    with_added(scheduled_dates(feed.calendar()), feed.exceptions())
}

/// The dates that rows of `calendar.txt` cover.
fn scheduled_dates(calendar: &[CalendarRow]) -> Option<Dates>
    ensures { IfSome result (λ dates. epoch_day dates.first ≤ℤ epoch_day dates.last) }
{
    let mut dates = None;
    for row in calendar {
        if row.first <= row.last {
            dates = Some(joined(dates, row.first, row.last));
        }
    }
    dates
}

/// Dates with those that rows of `calendar_dates.txt` add.
fn with_added(dates: Option<Dates>, exceptions: &[ExceptionRow]) -> Option<Dates> {
    let mut dates = dates;
    for row in exceptions {
        if row.adds {
            dates = Some(joined(dates, row.date, row.date));
        }
    }
    dates
}

/// Dates that reach from a first one to a last one, and beyond as far as others do.
fn joined(dates: Option<Dates>, first: Date, last: Date) -> Dates
    ensures { epoch_day first ≤ℤ epoch_day last → epoch_day result.first ≤ℤ epoch_day result.last }
{
    match dates {
        Some(dates) => Dates {
            first: earlier(dates.first, first),
            last: later(dates.last, last),
        },
        None => Dates { first, last },
    }
}

/// The earlier of two dates.
fn earlier(a: Date, b: Date) -> Date
    ensures first { epoch_day result ≤ℤ epoch_day a }
    ensures last { epoch_day result ≤ℤ epoch_day b }
{
    if a < b { a } else { b }
}

/// The later of two dates.
fn later(a: Date, b: Date) -> Date
    ensures first { epoch_day a ≤ℤ epoch_day result }
    ensures last { epoch_day b ≤ℤ epoch_day result }
{
    if a < b { b } else { a }
}

/// The dates that the calendars cover.
fn dates_line(alloc: Global, dates: &Dates) -> Result<String, AllocError> {
    let Dates { first, last } = *dates;
    format!(in alloc; "ttm: dates of the calendars: {first} to {last}\n")
}

/// The nearest date on a side of another on which a trip runs.
fn nearest_line(alloc: Global, side: &str, nearest: &Nearest) -> Result<String, AllocError> {
    match *nearest {
        Nearest::On(day) => { format!(in alloc; "ttm: nearest date with runs {side} it: {day}\n") }
        Nearest::Never => format!(in alloc; "ttm: nearest date with runs {side} it: none\n"),
        Nearest::TooFar => format!(in alloc;
            "ttm: nearest date with runs {side} it: none in {MOST_DAYS_SOUGHT} days\n"
        ),
    }
}

/// The last date before another, of those that the calendars cover, on which a trip runs.
fn date_before(alloc: Global, feed: &Feed, date: Date, dates: &Dates) -> Nearest {
    let Ok(yesterday) = date.yesterday() else {
        return Nearest::Never;
    };
    let mut day = yesterday.min(dates.last);
    for _ in 0..MOST_DAYS_SOUGHT {
        if day < dates.first {
            return Nearest::Never;
        }
        if has_runs(alloc, feed, day) {
            return Nearest::On(day);
        }
        match day.yesterday() {
            Ok(before) => day = before,
            Err(_) => return Nearest::Never,
        }
    }
    Nearest::TooFar
}

/// The first date after another, of those that the calendars cover, on which a trip runs.
fn date_after(alloc: Global, feed: &Feed, date: Date, dates: &Dates) -> Nearest {
    let Ok(tomorrow) = date.tomorrow() else {
        return Nearest::Never;
    };
    let mut day = tomorrow.max(dates.first);
    for _ in 0..MOST_DAYS_SOUGHT {
        if dates.last < day {
            return Nearest::Never;
        }
        if has_runs(alloc, feed, day) {
            return Nearest::On(day);
        }
        match day.tomorrow() {
            Ok(after) => day = after,
            Err(_) => return Nearest::Never,
        }
    }
    Nearest::TooFar
}

/// Whether a trip runs on a day, as far as there is memory to find out.
fn has_runs(alloc: Global, feed: &Feed, day: Date) -> bool {
    match active(alloc, feed, day, 0, 0) {
        Ok(runs) => !runs.is_empty(),
        Err(fault) => fault == DayFault::TooMany,
    }
}
