//! Days of services, and runs of studies, over small feeds.

use crate::small_feeds::{LONG_TRIP, feed_in, in_may};
use gtfs_tables::{Feed, FeedBytes, read_date};
use jiff::civil::Date;
use service_days::{DayFault, Run, active, runs};
use std::alloc::Global;

const TRIPS: &[u8] = b"route_id,service_id,trip_id\nR1,MON,T1\nR2,MON,T2\n";

const TIMES: &[u8] = b"trip_id,arrival_time,departure_time,stop_id,stop_sequence
T1,07:58:00,08:00:00,A,1
T1,08:10:00,08:10:00,B,2
T2,08:15:00,08:15:00,B,1
T2,08:30:00,08:30:00,C,2
";

/// Two trips on Mondays in May 2026, from 08:00 and from 08:15.
fn mondays() -> FeedBytes<'static> {
    in_may(TRIPS, TIMES)
}

/// Whether the files are read, and this holds of their feed. One function owns the feeds of the tests, so that the drop
/// of one is proved once.
fn gives<F: Fn(Global, &Feed) -> bool>(alloc: Global, holds: F, files: FeedBytes<'_>) -> bool
    requires { F.IsAlwaysCallable holds }
{
    match feed_in(alloc, files) {
        Some(feed) => holds(alloc, feed.as_ref()),
        None => false,
    }
}

/// Whether a service is told to run on a date, or else not to.
fn runs_on(feed: &Feed, service: u32, text: &[u8], expected: bool) -> bool {
    if service >= feed.service_count() {
        return false;
    }
    match read_date(text) {
        Some(date) => runs(feed, service, date) == expected,
        None => false,
    }
}

/// Whether these are the runs, each as trip and shift.
fn are_runs(runs: &[Run], expected: &[(u32, i64)]) -> bool {
    runs.len() == expected.len()
        && runs.iter().zip(expected).all(|(run, (trip, shift))| run.trip == *trip
            && run.shift == *shift)
}

/// Whether the study around a date lists these runs.
fn lists_around(
    alloc: Global,
    feed: &Feed,
    date: Date,
    back: u32,
    ahead: u32,
    expected: &[(u32, i64)],
) -> bool {
    match active(alloc, feed, date, back, ahead) {
        Ok(runs) => are_runs(&runs, expected),
        Err(_) => false,
    }
}

/// Whether the study on a date lists these runs.
fn lists(
    alloc: Global,
    feed: &Feed,
    text: &[u8],
    back: u32,
    ahead: u32,
    expected: &[(u32, i64)],
) -> bool {
    match read_date(text) {
        Some(date) => lists_around(alloc, feed, date, back, ahead, expected),
        None => false,
    }
}

/// Whether the study of a date, so many days before it and so many after it is refused for this fault.
fn is_refused_around(
    alloc: Global,
    feed: &Feed,
    date: Date,
    back: u32,
    ahead: u32,
    expected: DayFault,
) -> bool {
    match active(alloc, feed, date, back, ahead) {
        Ok(_) => false,
        Err(fault) => fault == expected,
    }
}

/// Whether the study on a date is refused for this fault.
fn is_refused(alloc: Global, feed: &Feed, text: &[u8], expected: DayFault) -> bool {
    match read_date(text) {
        Some(date) => is_refused_around(alloc, feed, date, 1, 1, expected),
        None => false,
    }
}

/// Whether the first service runs on the days of its calendar and its exceptions.
fn runs_as_scheduled(feed: &Feed) -> bool {
    runs_on(feed, 0, b"20260427", false)
        && runs_on(feed, 0, b"20260504", true)
        && runs_on(feed, 0, b"20260505", false)
        && runs_on(feed, 0, b"20260511", false)
        && runs_on(feed, 0, b"20260518", true)
        && runs_on(feed, 0, b"20260525", true)
        && runs_on(feed, 0, b"20260601", false)
}

/// Whether the second service, which exceptions alone name, runs on the day that they add.
fn runs_as_excepted(feed: &Feed) -> bool {
    runs_on(feed, 1, b"20260505", false)
        && runs_on(feed, 1, b"20260506", true)
        && runs_on(feed, 1, b"20260507", false)
}

fn runs_on_its_days(feed: &Feed) -> bool {
    runs_as_scheduled(feed) && runs_as_excepted(feed)
}

/// `active`, `Events::into_vec`.
#[test]
fn services_run_on_their_days(rt: HostRuntime) {
    let files = FeedBytes {
        calendar: Some(
            b"service_id,monday,tuesday,wednesday,thursday,friday,saturday,sunday,start_date,end_date
MON,1,0,0,0,0,0,0,20260504,20260525
",
        ),
        calendar_dates: Some(
            b"service_id,date,exception_type
MON,20260511,2
MON,20260518,1
MON,20260518,2
NEW,20260506,1
NEW,20260507,2
",
        ),
        ..mondays()
    };
    assert!(rt; gives(rt.alloc(), |_, feed| runs_on_its_days(feed), files));
}

/// Whether both trips run on the day before a date, and none on the date.
fn runs_the_day_before(alloc: Global, feed: &Feed, text: &[u8]) -> bool {
    lists(alloc, feed, text, 1, 0, &[(0, 0), (1, 0)]) && lists(alloc, feed, text, 0, 0, &[])
}

/// Whether trips run on the last days of February, of two leap years and of one that isn't.
fn runs_on_leap_days(alloc: Global, feed: &Feed) -> bool {
    runs_the_day_before(alloc, feed, b"20000301")
        && runs_the_day_before(alloc, feed, b"20240301")
        && runs_the_day_before(alloc, feed, b"19000301")
}

/// `active`.
#[test]
fn leap_days_are_days(rt: HostRuntime) {
    assert!(rt; read_date(b"19000229").is_none());
    let files = FeedBytes {
        calendar: None,
        calendar_dates: Some(
            b"service_id,date,exception_type\nMON,20000229,1\nMON,20240229,1\nMON,19000228,1\n",
        ),
        ..mondays()
    };
    assert!(rt; gives(rt.alloc(), runs_on_leap_days, files));
}

/// Whether studies of more days than a week list the runs of those days: from the March before, and from 137 years
/// before.
fn lists_distant_days(alloc: Global, feed: &Feed) -> bool {
    let weeks = [
        (2, 54 * 86_400),
        (0, 55 * 86_400),
        (1, 55 * 86_400),
        (2, 61 * 86_400),
    ];
    let years = [
        (2, 49_999 * 86_400),
        (0, 50_000 * 86_400),
        (1, 50_000 * 86_400),
    ];
    lists(alloc, feed, b"20260509", 60, 1, &weeks)
        && lists(alloc, feed, b"20260504", 50_000, 0, &years)
}

/// Whether three studies of different days list the runs of those days.
fn lists_days_around(alloc: Global, feed: &Feed) -> bool {
    let both = [(2, 0), (0, 86_400), (1, 86_400)];
    let next = [
        (2, 0),
        (0, 86_400),
        (1, 86_400),
        (2, 7 * 86_400),
        (0, 8 * 86_400),
        (1, 8 * 86_400),
    ];
    lists(alloc, feed, b"20260504", 1, 1, &both)
        && lists(alloc, feed, b"20260504", 0, 1, &[(0, 0), (1, 0)])
        && lists(alloc, feed, b"20260509", 6, 2, &next)
        && lists_distant_days(alloc, feed)
}

/// `active`.
#[test]
fn a_study_sees_the_days_around_its_date(rt: HostRuntime) {
    let files = FeedBytes {
        trips: Some(
            b"route_id,service_id,trip_id\nR1,MON,T1\nR2,MON,T2\nR1,SUN,T0\nR1,SUN,empty\n",
        ),
        stop_times: Some(
            b"trip_id,arrival_time,departure_time,stop_id,stop_sequence
T0,24:05:00,24:05:00,A,1
T0,24:20:00,24:20:00,B,2
T1,08:00:00,08:00:00,A,1
T1,08:10:00,08:10:00,B,2
T2,08:15:00,08:15:00,B,1
T2,08:30:00,08:30:00,C,2
",
        ),
        ..mondays()
    };
    assert!(rt; gives(rt.alloc(), lists_days_around, files));
}

/// Whether a study lists each departure of rows that overlap, and none of rows that end before they begin.
fn lists_departures(alloc: Global, feed: &Feed) -> bool {
    let departures = [
        (0, 86_400),
        (0, 87_000),
        (0, 87_000),
        (0, 87_600),
        (1, 86_400 - 4_500),
    ];
    lists(alloc, feed, b"20260504", 1, 1, &departures)
}

/// `active`.
#[test]
fn trips_with_headways_run_as_their_departures(rt: HostRuntime) {
    let files = FeedBytes {
        frequencies: Some(
            b"trip_id,start_time,end_time,headway_secs
T1,08:00:00,08:20:00,600
T1,08:10:00,08:20:01,600
T2,07:00:00,07:00:01,60
T1,09:00:00,09:00:00,1
T1,09:00:00,08:00:00,1
",
        ),
        ..mondays()
    };
    assert!(rt; gives(rt.alloc(), lists_departures, files));
}

/// Whether the study on the first date of the calendar is refused, and one that asks for all days that can be named.
fn is_refused_first(alloc: Global, feed: &Feed) -> bool {
    match Date::new(-9999, 1, 1) {
        Ok(first) => {
            is_refused_around(alloc, feed, first, 1, 1, DayFault::DateRange)
                && is_refused_around(alloc, feed, first, 0, u32::MAX, DayFault::DateRange)
                && is_refused_around(alloc, feed, first, u32::MAX, u32::MAX, DayFault::DateRange)
        }
        Err(_) => false,
    }
}

/// Whether studies with too many runs, or past the ends of the calendar, are refused, but not one up to its last date.
fn refuses_studies(alloc: Global, feed: &Feed) -> bool {
    is_refused(alloc, feed, b"20260504", DayFault::TooMany)
        && is_refused(alloc, feed, b"99991231", DayFault::DateRange)
        && is_refused_first(alloc, feed)
        && lists(alloc, feed, b"99991231", 6, 0, &[])
}

/// `active`.
#[test]
fn studies_are_refused(rt: HostRuntime) {
    let files = FeedBytes {
        frequencies: Some(
            b"trip_id,start_time,end_time,headway_secs\nT1,00:00:00,167:59:59,1\nT2,00:00:00,167:59:59,1\n",
        ),
        ..mondays()
    };
    assert!(rt; gives(rt.alloc(), refuses_studies, files));
}

/// Whether these are 450,000 runs of the first trip, with the shifts of the first and of the last second.
fn are_many(runs: &[Run]) -> bool {
    let first = Run {
        trip: 0,
        shift: 86_400 - 29_400,
    };
    let last = Run {
        trip: 0,
        shift: 86_400 + 449_999 - 29_400,
    };
    runs.len() == 450_000 && runs[0] == first && runs[449_999] == last
}

/// Whether the study around a date lists the many runs.
fn lists_many_around(alloc: Global, feed: &Feed, date: Date) -> bool {
    match active(alloc, feed, date, 1, 1) {
        Ok(runs) => are_many(&runs),
        Err(_) => false,
    }
}

/// Whether the study of the first Monday lists a departure of a long trip each second.
fn lists_many(alloc: Global, feed: &Feed) -> bool {
    match read_date(b"20260504") {
        Some(monday) => lists_many_around(alloc, feed, monday),
        None => false,
    }
}

/// `active`.
#[test]
fn many_departures_are_listed(rt: HostRuntime) {
    let files = FeedBytes {
        trips: Some(b"route_id,service_id,trip_id\nR1,MON,T1\n"),
        stop_times: Some(LONG_TRIP),
        frequencies: Some(b"trip_id,start_time,end_time,headway_secs\nT1,00:00:00,125:00:00,1\n"),
        ..mondays()
    };
    assert!(rt; gives(rt.alloc(), lists_many, files));
}
