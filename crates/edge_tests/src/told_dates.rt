//! What is told of dates on which no trip of the small feed runs. The texts are written by hand.

use crate::pages::blank;
use crate::small_study::{Asked, MONDAY, settings_of, small_inputs};
use gtfs_tables::FeedBytes;
use reports::Report;
use std::alloc::Global;
use std::sync::Wait;
use std::thread::Threads;
use studies::{Inputs, watch_study};

/// The calendar of a service that no trip has, for four weeks and for a century.
const IDLE: &[u8] =
    b"service_id,monday,tuesday,wednesday,thursday,friday,saturday,sunday,start_date,end_date
IDLE,1,1,1,1,1,1,1,20260504,20260531
";

const LONG_IDLE: &[u8] =
    b"service_id,monday,tuesday,wednesday,thursday,friday,saturday,sunday,start_date,end_date
IDLE,1,1,1,1,1,1,1,20000101,20991231
";

/// Dates that are added, and one that is removed.
const ADDED: &[u8] =
    b"service_id,date,exception_type\nMON,20260601,1\nMON,20260320,1\nMON,20260701,2\n";

const NOTHING: &[u8] = b"service_id,date,exception_type\n";

/// The small feed with these calendars.
fn with_calendars(
    calendar: Option<&'static [u8]>,
    calendar_dates: Option<&'static [u8]>,
) -> FeedBytes<'static> {
    FeedBytes {
        calendar,
        calendar_dates,
        ..small_inputs().feed
    }
}

/// What is told of a study of a feed on a date alone.
fn told_of<R: Threads + Wait + Sync>(
    rt: &R,
    alloc: Global,
    feed: FeedBytes<'static>,
    date: &'static [u8],
) -> Option<Vec<u8>> {
    let asked = Asked {
        date,
        back: 0,
        ahead: 0,
        ..MONDAY
    };
    let inputs = Inputs {
        feed,
        ..small_inputs()
    };
    let settings = settings_of(alloc, asked)?;
    if !inputs.fits() || !settings.fits() {
        return None;
    }
    let page = blank(rt, alloc, asked);
    let report = Report::new(alloc, &page, &inputs);
    let made = watch_study(rt, alloc, &inputs, &settings, &report, &report).is_ok();
    drop(report);
    if made {
        Some(page.text.into_inner())
    } else {
        None
    }
}

/// Whether this is told of a date behind its warning, up to the runs of the scenarios.
fn is_told<R: Threads + Wait + Sync>(
    rt: &R,
    alloc: Global,
    feed: FeedBytes<'static>,
    date: &'static [u8],
    text: &str,
) -> bool {
    match told_of(rt, alloc, feed, date) {
        Some(told) => goes_on(told.as_slice(), text),
        None => false,
    }
}

/// Whether what is told goes on with a text behind the warning of a date.
fn goes_on(told: &[u8], text: &str) -> bool {
    let Ok(told) = str::from_utf8(told) else {
        return false;
    };
    match told.split_once("is it a date of the feed's calendar?\n") {
        Some((_, rest)) => rest.starts_with(text),
        None => false,
    }
}

/// `Report::refused`, `fault_line`, `warn`.
#[test]
fn dates_beside_those_of_the_feed(rt: HostRuntime) {
    let cases: [(&[u8], &str); 3] = [
        (
            b"20270101",
            "ttm: dates of the calendars: 2026-05-04 to 2026-05-31
ttm: nearest date with runs before it: 2026-05-25
ttm: nearest date with runs after it: none
ttm: runs in scenario base: 0
",
        ),
        (
            b"20260101",
            "ttm: dates of the calendars: 2026-05-04 to 2026-05-31
ttm: nearest date with runs before it: none
ttm: nearest date with runs after it: 2026-05-04
ttm: runs in scenario base: 0
",
        ),
        (
            b"20260524",
            "ttm: dates of the calendars: 2026-05-04 to 2026-05-31
ttm: nearest date with runs before it: 2026-05-18
ttm: nearest date with runs after it: 2026-05-25
ttm: runs in scenario base: 0
",
        ),
    ];
    let alloc = rt.alloc();
    for (date, text) in &cases {
        assert!(rt; is_told(&rt, alloc, small_inputs().feed, date, text));
    }
}

/// Whether this is told of a Monday where the small feed has these calendars.
fn is_told_of<R: Threads + Wait + Sync>(
    rt: &R,
    alloc: Global,
    calendar: Option<&'static [u8]>,
    calendar_dates: Option<&'static [u8]>,
    text: &str,
) -> bool {
    is_told(
        rt,
        alloc,
        with_calendars(calendar, calendar_dates),
        b"20260504",
        text,
    )
}

/// `Report::refused`.
#[test]
fn calendars_of_no_trip_or_of_dates_alone(rt: HostRuntime) {
    let alloc = rt.alloc();
    let idle = "ttm: dates of the calendars: 2026-05-04 to 2026-05-31
ttm: nearest date with runs before it: none
ttm: nearest date with runs after it: none
ttm: runs in scenario base: 0
";
    assert!(rt; is_told_of(&rt, alloc, Some(IDLE), None, idle));
    let long_idle = "ttm: dates of the calendars: 2000-01-01 to 2099-12-31
ttm: nearest date with runs before it: none in 366 days
ttm: nearest date with runs after it: none in 366 days
ttm: runs in scenario base: 0
";
    assert!(rt; is_told_of(&rt, alloc, Some(LONG_IDLE), None, long_idle));
    let added = "ttm: dates of the calendars: 2026-03-20 to 2026-06-01
ttm: nearest date with runs before it: 2026-03-20
ttm: nearest date with runs after it: 2026-06-01
ttm: runs in scenario base: 0
";
    assert!(rt; is_told_of(&rt, alloc, None, Some(ADDED), added));
    let nothing = "ttm: dates of the calendars: none\nttm: runs in scenario base: 0\n";
    assert!(rt; is_told_of(&rt, alloc, None, Some(NOTHING), nothing));
}
