//! The dates that `calendar_dates.txt` adds and removes.

use crate::test_identifiers::identifiers;
use jiff::civil::Date;
use std::alloc::Global;
use std::test::Fail;
use table_files::{CalendarDates, ExceptionRow, read_calendar_dates};
use table_records::FeedFault;

/// A day of 2026.
fn in_2026(month: i8, day: i8) -> Option<Date> {
    Date::new(2026, month, day).ok()
}

/// Whether a row adds a date to a service, or removes it.
fn is_row(row: &ExceptionRow, service: u32, date: Option<Date>, adds: bool) -> bool {
    row.service == service && Some(row.date) == date && row.adds == adds
}

/// Whether the service XMAS is new beside MON, with the 25th and 26th of December, and MON has the 4th of May twice.
fn has_christmas(dates: &CalendarDates) -> bool {
    let rows = dates.rows.as_slice();
    dates.services.len() == 2
        && dates.services.number(b"XMAS") == Some(1)
        && rows.len() == 4
        && is_row(&rows[0], 1, in_2026(12, 25), true)
        && is_row(&rows[1], 0, in_2026(5, 4), false)
        && is_row(&rows[2], 1, in_2026(12, 26), true)
        && is_row(&rows[3], 0, in_2026(5, 4), true)
}

/// Whether a file that names a new service beside MON is read so.
fn reads_christmas(alloc: Global) -> Result<bool, FeedFault> {
    let services = identifiers(alloc, &[b"MON"])?;
    if services.len() > 1 {
        return Ok(false);
    }
    let dates = read_calendar_dates(
        alloc,
        b"service_id,date,exception_type\nXMAS,20261225,1\nMON,20260504,2\nXMAS,20261226,01\nMON,20260504,1\n",
        Box::into_inner(services),
    )?;
    Ok(has_christmas(&dates))
}

/// `read_calendar_dates`.
#[test]
fn services_are_numbered_on(rt: HostRuntime) -> Result<(), Fail> {
    assert!(rt; reads_christmas(rt.alloc())?);
    Ok(())
}
