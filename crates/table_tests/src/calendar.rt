//! The services of `calendar.txt`.

use jiff::civil::Date;
use std::alloc::Global;
use std::test::Fail;
use table_files::{Calendar, CalendarRow, read_calendar};
use table_records::FeedFault;

/// A day of May 2026.
fn in_may(day: i8) -> Option<Date> {
    Date::new(2026, 5, day).ok()
}

/// Whether a row is that of a service on these weekdays, from one date to another.
fn is_row(
    row: &CalendarRow,
    service: u32,
    days: [bool; 7],
    first: Option<Date>,
    last: Option<Date>,
) -> bool {
    row.service == service && row.days == days && Some(row.first) == first && Some(row.last) == last
}

/// Whether the service MON runs on Mondays from 4 May, and SUN on Sundays from 3 May, both to the end of that month.
fn has_monday_and_sunday(calendar: &Calendar) -> bool {
    let monday = [true, false, false, false, false, false, false];
    let sunday = [false, false, false, false, false, false, true];
    let rows = calendar.rows.as_slice();
    calendar.services.number(b"MON") == Some(0)
        && calendar.services.number(b"SUN") == Some(1)
        && rows.len() == 2
        && is_row(&rows[0], 0, monday, in_may(4), in_may(31))
        && is_row(&rows[1], 1, sunday, in_may(3), in_may(31))
}

/// Whether two services, each on one weekday, are read as such.
fn reads_monday_and_sunday(alloc: Global) -> Result<bool, FeedFault> {
    let calendar = read_calendar(
        alloc,
        b"service_id,monday,tuesday,wednesday,thursday,friday,saturday,sunday,start_date,end_date
MON,1,0,0,0,0,0,0,20260504,20260531
SUN, 0,0,0,0,0,0,01,20260503,20260531
",
    )?;
    Ok(has_monday_and_sunday(&calendar))
}

/// `read_calendar`.
#[test]
fn a_week_from_monday_on(rt: HostRuntime) -> Result<(), Fail> {
    assert!(rt; reads_monday_and_sunday(rt.alloc())?);
    Ok(())
}
