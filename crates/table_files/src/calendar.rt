//! The weekdays on which services run: `calendar.txt`.

ghost use Rattle.std.specs.Prelude.{◌≡◌, ◌≤◌, [], length, map, IfOk, IfErr};
ghost use Rattle.csv.specs.Records.{fields_of};
ghost use Rattle.table_records.specs.Checks.{Explains};
ghost use Rattle.table_records.specs.Faults.{Tells};
ghost use Rattle.table_records.specs.declared.limits.TheConstants.{MOST_BYTES};
ghost use Rattle.table_files.specs.Calendar as spec;
ghost use Rattle.table_files.specs.Calendar.{IsCalendar, calendar_faults, columns_of, days_of, row_at, service_rows};

use crate::days::read_flag;
use csv::ByteRecord;
use jiff::civil::Date;
use std::alloc::Global;
use table_records::{
    Check, Checks, FeedFault, FileName, Identifiers, RecordReader, Rule, What, column, field,
    open_table, read_date, read_records,
};

/// A row of `calendar.txt`: a service runs on some weekdays, from its first date to its last, both included.
#[derive(Clone, Copy)]
pub struct CalendarRow {
    /// The service's number: services are numbered from 0 as they are first named.
    pub service: u32,
    /// The weekdays, Monday first.
    pub days: [bool; 7],
    pub first: Date,
    pub last: Date,
}

/// What `calendar.txt` says: its rows, and the services that they name.
#[derive(Drop)]
pub struct Calendar {
    pub services: Identifiers,
    pub rows: Vec<CalendarRow>,
}

/// The checks; [`calendar_checks`] says what holds of them.
const CHECKS: Checks = Checks {
    required: &[
        b"service_id",
        b"monday",
        b"tuesday",
        b"wednesday",
        b"thursday",
        b"friday",
        b"saturday",
        b"sunday",
        b"start_date",
        b"end_date",
    ],
    fields: &[
        Check(b"service_id", Rule::Filled, What::EmptyId),
        Check(b"service_id", Rule::Once, What::DuplicateId),
        Check(b"monday", Rule::Flag, What::BadNumber),
        Check(b"tuesday", Rule::Flag, What::BadNumber),
        Check(b"wednesday", Rule::Flag, What::BadNumber),
        Check(b"thursday", Rule::Flag, What::BadNumber),
        Check(b"friday", Rule::Flag, What::BadNumber),
        Check(b"saturday", Rule::Flag, What::BadNumber),
        Check(b"sunday", Rule::Flag, What::BadNumber),
        Check(b"start_date", Rule::Date, What::BadDate),
        Check(b"end_date", Rule::Date, What::BadDate),
    ],
};

/// What is checked of `calendar.txt`: each fault of a record is that of a check.
pub fn calendar_checks() -> Checks
    ensures required { map (λ name. name.now) result.required.now ≡ spec.required }
    ensures explains { Explains result.fields.now spec.row_of spec.checks }
{
    CHECKS
}

/// The columns of `calendar.txt` that are read.
#[derive(Clone, Copy)]
pub struct CalendarColumns {
    pub service: Option<usize>,
    pub monday: Option<usize>,
    pub tuesday: Option<usize>,
    pub wednesday: Option<usize>,
    pub thursday: Option<usize>,
    pub friday: Option<usize>,
    pub saturday: Option<usize>,
    pub sunday: Option<usize>,
    pub first: Option<usize>,
    pub last: Option<usize>,
}

impl CalendarColumns {
    /// The weekdays of a record, where each is a flag.
    fn days(&self, row: &ByteRecord) -> Option<[bool; 7]>
        ensures { result ≡ days_of (row_at self.now (fields_of row.now)).days }
    {
        let monday = read_flag(field(row, self.monday))?;
        let tuesday = read_flag(field(row, self.tuesday))?;
        let wednesday = read_flag(field(row, self.wednesday))?;
        let thursday = read_flag(field(row, self.thursday))?;
        let friday = read_flag(field(row, self.friday))?;
        let saturday = read_flag(field(row, self.saturday))?;
        let sunday = read_flag(field(row, self.sunday))?;
        Some([
            monday, tuesday, wednesday, thursday, friday, saturday, sunday,
        ])
    }
}

impl RecordReader for CalendarColumns {
    ghost use Rattle.std.specs.Prelude.{◌≡◌, ◌≤◌, ◌+◌, length};
    ghost use Rattle.table_records.specs.declared.fault.FileName.TheVariants as file_name;
    ghost use Rattle.table_files.specs.Calendar.{ServiceRow, row_at, checks, IsCalendar};

    type Table = Calendar;

    ghost Row = { ServiceRow };

    ghost file = { file_name.Calendar };

    ghost row_of = { row_at };

    ghost checks = { λ _. checks };

    ghost After = { λ _ _ rows now. IsCalendar now rows };

    ghost HasRoom = { λ _ table at. length table.services + 2 ≤ at };

    fn add(
        &self,
        alloc: Global,
        table: &mut Calendar,
        at: u64,
        row: &ByteRecord,
    ) -> Result<(), FeedFault> {
        let id = field(row, self.service);
        if id.is_empty() {
            return Err(FeedFault::at(FileName::Calendar, at, What::EmptyId));
        }
        let service = table.services.len() as u32;
        if !table.services.push(alloc, id)? {
            return Err(FeedFault::at(FileName::Calendar, at, What::DuplicateId));
        }
        let Some(days) = self.days(row) else {
            return Err(FeedFault::at(FileName::Calendar, at, What::BadNumber));
        };
        let Some(first) = read_date(field(row, self.first)) else {
            return Err(FeedFault::at(FileName::Calendar, at, What::BadDate));
        };
        let Some(last) = read_date(field(row, self.last)) else {
            return Err(FeedFault::at(FileName::Calendar, at, What::BadDate));
        };
        table.rows.push(CalendarRow {
            service,
            days,
            first,
            last,
        })?;
        Ok(())
    }
}

/// The columns that a header names.
fn columns_in(header: &ByteRecord) -> CalendarColumns
    ensures { result ≡ columns_of (fields_of header.now) }
{
    CalendarColumns {
        service: column(header, b"service_id"),
        monday: column(header, b"monday"),
        tuesday: column(header, b"tuesday"),
        wednesday: column(header, b"wednesday"),
        thursday: column(header, b"thursday"),
        friday: column(header, b"friday"),
        saturday: column(header, b"saturday"),
        sunday: column(header, b"sunday"),
        first: column(header, b"start_date"),
        last: column(header, b"end_date"),
    }
}

/// The rows of `calendar.txt`, in file order, and the services that they name.
///
/// The bytes are at most 2^30, the limit of an input file.
pub fn read_calendar(alloc: Global, bytes: &[u8]) -> Result<Calendar, FeedFault>
    requires { length bytes.now ≤ MOST_BYTES }
    ensures good { IfOk result (λ c. (calendar_faults bytes.now ≡ []) × IsCalendar c (service_rows bytes.now)) }
    ensures few { IfOk result (λ c. length c.services ≤ MOST_BYTES) }
    ensures fault { IfErr result (λ e. Tells e (calendar_faults bytes.now)) }
{
    let mut file = open_table(alloc, bytes, FileName::Calendar, CHECKS.required)?;
    let mut calendar = Calendar {
        services: Identifiers::new(alloc),
        rows: Vec::new(alloc),
    };
    let read = read_records(
        alloc,
        &columns_in(&file.header),
        &mut calendar,
        &mut file.records,
    );
    drop(file);
    read.and(Ok(calendar))
}
