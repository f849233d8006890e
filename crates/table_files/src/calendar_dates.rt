//! The dates that are added to services or removed from them: `calendar_dates.txt`.

ghost use Rattle.std.specs.Prelude.{◌≡◌, ◌≤◌, ◌+◌, [], length, map, IfOk, IfErr};
ghost use Rattle.csv.specs.Records.{fields_of};
ghost use Rattle.table_records.specs.Checks.{Explains};
ghost use Rattle.table_records.specs.Faults.{Tells};
ghost use Rattle.table_records.specs.declared.limits.TheConstants.{MOST_BYTES};
ghost use Rattle.table_files.specs.CalendarDates as spec;
ghost use Rattle.table_files.specs.CalendarDates.{AreExceptions, columns_of, date_rows, exception_faults};
ghost use Rattle.table_files.specs.declared.services.TheConstants.{MOST_DATED_SERVICES};

use crate::days::read_adds;
use crate::services::number_service;
use csv::ByteRecord;
use jiff::civil::Date;
use std::alloc::Global;
use table_records::{
    Check, Checks, FeedFault, FileName, Identifiers, RecordReader, Rule, What, column, field,
    open_table, read_date, read_records,
};

/// A row of `calendar_dates.txt`: a date is added to a service, or removed from it.
#[derive(Clone, Copy)]
pub struct ExceptionRow {
    /// The service's number: services are numbered from 0 as they are first named.
    pub service: u32,
    pub date: Date,
    /// Whether the date is added; it is removed otherwise.
    pub adds: bool,
}

/// What `calendar_dates.txt` says: its rows, and the services that are known after them.
#[derive(Drop)]
pub struct CalendarDates {
    pub services: Identifiers,
    pub rows: Vec<ExceptionRow>,
}

/// The checks; [`calendar_date_checks`] says what holds of them.
const CHECKS: Checks = Checks {
    required: &[b"service_id", b"date", b"exception_type"],
    fields: &[
        Check(b"service_id", Rule::Filled, What::EmptyId),
        Check(b"date", Rule::Date, What::BadDate),
        Check(b"exception_type", Rule::Added, What::BadNumber),
    ],
};

/// What is checked of `calendar_dates.txt`: each fault of a record is that of a check.
pub fn calendar_date_checks() -> Checks
    ensures required { map (λ name. name.now) result.required.now ≡ spec.required }
    ensures explains { Explains result.fields.now spec.row_of spec.checks }
{
    CHECKS
}

/// The columns of `calendar_dates.txt`.
#[derive(Clone, Copy)]
pub struct ExceptionColumns {
    pub service: Option<usize>,
    pub date: Option<usize>,
    pub kind: Option<usize>,
}

impl RecordReader for ExceptionColumns {
    ghost use Rattle.std.specs.Prelude.{◌≡◌, ◌≤◌, ◌+◌, ◌^◌, length};
    ghost use Rattle.table_records.specs.declared.fault.FileName.TheVariants as file_name;
    ghost use Rattle.table_files.specs.CalendarDates.{DateRow, row_at, checks, AreExceptions};

    type Table = CalendarDates;

    ghost Row = { DateRow };

    ghost file = { file_name.CalendarDates };

    ghost row_of = { row_at };

    ghost checks = { λ _. checks };

    ghost After = { λ _ start rows now. AreExceptions start.services now rows };

    ghost HasRoom = { λ _ table at. length table.services ≤ MOST_BYTES + at };

    fn add(
        &self,
        alloc: Global,
        table: &mut CalendarDates,
        at: u64,
        row: &ByteRecord,
    ) -> Result<(), FeedFault> {
        let id = field(row, self.service);
        if id.is_empty() {
            return Err(FeedFault::at(FileName::CalendarDates, at, What::EmptyId));
        }
        let Some(date) = read_date(field(row, self.date)) else {
            return Err(FeedFault::at(FileName::CalendarDates, at, What::BadDate));
        };
        let Some(adds) = read_adds(field(row, self.kind)) else {
            return Err(FeedFault::at(FileName::CalendarDates, at, What::BadNumber));
        };
        let likely = table.rows.last().map_or(0, |row| row.service);
        let service = number_service(alloc, &mut table.services, id, likely)?;
        table.rows.push(ExceptionRow {
            service,
            date,
            adds,
        })?;
        Ok(())
    }
}

/// The columns that a header names.
fn columns_in(header: &ByteRecord) -> ExceptionColumns
    ensures { result ≡ columns_of (fields_of header.now) }
{
    ExceptionColumns {
        service: column(header, b"service_id"),
        date: column(header, b"date"),
        kind: column(header, b"exception_type"),
    }
}

/// The rows of `calendar_dates.txt`, in file order. Services that are first named here get the next numbers.
///
/// The bytes are at most 2^30, the limit of an input file.
pub fn read_calendar_dates(
    alloc: Global,
    bytes: &[u8],
    services: Identifiers,
) -> Result<CalendarDates, FeedFault>
    requires size { length bytes.now ≤ MOST_BYTES }
    requires known { length services ≤ MOST_BYTES }
    ensures good { IfOk result (λ d. (exception_faults bytes.now ≡ [])
        × AreExceptions services d (date_rows bytes.now)) }
    ensures few { IfOk result (λ d. length d.services ≤ MOST_DATED_SERVICES) }
    ensures fault { IfErr result (λ e. Tells e (exception_faults bytes.now)) }
{
    let mut file = open_table(alloc, bytes, FileName::CalendarDates, CHECKS.required)?;
    let mut dates = CalendarDates {
        services,
        rows: Vec::new(alloc),
    };
    let read = read_records(
        alloc,
        &columns_in(&file.header),
        &mut dates,
        &mut file.records,
    );
    drop(file);
    read.and(Ok(dates))
}
