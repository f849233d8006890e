//! The trips that run at a headway: `frequencies.txt`.

ghost use Rattle.std.specs.Prelude.{◌≡◌, ◌≤◌, ◌<◌, ◌∷◌, ◌++◌, ℕ, List, [], length, map, slice_index_or, slice_set};
ghost use Rattle.std.specs.Prelude.{IfOk, IfErr};
ghost use Rattle.std.specs.declared.vec.Vec.{Vec};
ghost use Rattle.std.specs.declared.alloc.Global.{Global};
ghost use Rattle.csv.specs.Records.{fields_of};
ghost use Rattle.table_records.specs.Checks.{Explains};
ghost use Rattle.table_records.specs.Faults.{Tells};
ghost use Rattle.table_records.specs.Fields.{trimmed};
ghost use Rattle.table_records.specs.declared.limits.TheConstants.{MOST_BYTES};
ghost use Rattle.table_files.specs.declared.frequencies.Departures.{Departures};
ghost use Rattle.table_files.specs.Frequencies as spec;
ghost use Rattle.table_files.specs.Frequencies.{columns_of, departures_by_trip, frequency_faults, frequency_rows};
ghost use Rattle.table_files.specs.Frequencies.{headway_of};

use csv::ByteRecord;
use std::alloc::{AllocError, Global};
use table_records::{
    Check, Checks, FeedFault, FileName, Identifiers, RecordReader, Rule, What, column, field,
    number, open_table, read_records, read_time, trim,
};

/// A row of `frequencies.txt`: a trip departs at its start and every headway after it, as long as that is before its
/// end.
///
/// All three are seconds. An end that isn't after the start gives no departure.
#[derive(Clone, Copy, Debug, PartialEq, Eq)]
pub struct Departures {
    pub start: u32,
    pub end: u32,
    pub headway: u32,
}

/// The checks; [`frequency_checks`] says what holds of them.
const CHECKS: Checks = Checks {
    required: &[b"trip_id", b"start_time", b"end_time", b"headway_secs"],
    fields: &[
        Check(b"trip_id", Rule::Filled, What::EmptyId),
        Check(b"trip_id", Rule::Trip, What::UnknownTrip),
        Check(b"start_time", Rule::Time, What::BadTime),
        Check(b"end_time", Rule::Time, What::BadTime),
        Check(b"headway_secs", Rule::Headway, What::BadNumber),
    ],
};

/// What is checked of `frequencies.txt`: each fault of a record is that of a check.
pub fn frequency_checks() -> Checks
    ensures required { map (λ name. name.now) result.required.now ≡ spec.required }
    ensures explains { (trips : List (List ℕ)) → Explains result.fields.now spec.row_of (spec.checks trips) }
{
    CHECKS
}

/// The columns of `frequencies.txt` that are read.
#[derive(Clone, Copy)]
pub struct FrequencyColumns {
    pub trip: Option<usize>,
    pub start: Option<usize>,
    pub end: Option<usize>,
    pub headway: Option<usize>,
}

/// A reader of `frequencies.txt`, whose records name the feed's trips.
#[derive(Drop)]
pub struct FrequencyReader<'a> {
    pub columns: FrequencyColumns,
    pub trips: &'a Identifiers,
}

/// The seconds of a headway, at least 1.
fn read_headway(text: &[u8]) -> Option<u32>
    ensures { result ≡ headway_of (trimmed text.now) }
{
    let headway = number(trim(text))?;
    if headway < 1 {
        return None;
    }
    Some(headway)
}

/// Puts a row after those of its trip.
fn add_row(table: &mut Vec<Vec<Departures>>, trip: usize, row: Departures) -> Result<(), AllocError>
    requires { trip < length table.old.items }
    ensures added { IfOk result (λ _. (v : Vec Departures Global) × (v ≡ slice_index_or table.old.items trip v)
        × ((w : Vec Departures Global) × (w.items ≡ v.items ++ row ∷ [])
        × (table.new.items ≡ slice_set table.old.items trip w))) }
{
    let departures = &mut table[trip];
    departures.push(row)?;
    Ok(())
}

impl<'a> RecordReader for FrequencyReader<'a> {
    ghost use Rattle.std.specs.Prelude.{◌≡◌, ◌<◌, ℕ, length, slice_index_or};
    ghost use Rattle.std.specs.declared.vec.Vec.{Vec};
    ghost use Rattle.std.specs.declared.alloc.Global.{Global};
    ghost use Rattle.table_records.specs.declared.fault.FileName.TheVariants as file_name;
    ghost use Rattle.table_files.specs.Frequencies.{AreDepartures, FrequencyRow, row_at, checks};

    type Table = Vec<Vec<Departures>>;

    ghost Row = { FrequencyRow };

    ghost file = { file_name.Frequencies };

    ghost row_of = { λ s. row_at s.columns };

    ghost checks = { λ s. checks s.trips.now };

    ghost After = { λ s _ rows now. AreDepartures s.trips.now now.items rows };

    ghost HasRoom = { λ s table _. length table.items ≡ length s.trips.now };

    fn add(
        &self,
        _alloc: Global,
        table: &mut Vec<Vec<Departures>>,
        at: u64,
        row: &ByteRecord,
    ) -> Result<(), FeedFault> {
        let trip = field(row, self.columns.trip);
        if trip.is_empty() {
            return Err(FeedFault::at(FileName::Frequencies, at, What::EmptyId));
        }
        let Some(trip) = self.trips.number(trip) else {
            return Err(FeedFault::at(FileName::Frequencies, at, What::UnknownTrip));
        };
        let Some(start) = read_time(field(row, self.columns.start)) else {
            return Err(FeedFault::at(FileName::Frequencies, at, What::BadTime));
        };
        let Some(end) = read_time(field(row, self.columns.end)) else {
            return Err(FeedFault::at(FileName::Frequencies, at, What::BadTime));
        };
        let Some(headway) = read_headway(field(row, self.columns.headway)) else {
            return Err(FeedFault::at(FileName::Frequencies, at, What::BadNumber));
        };
        add_row(
            table,
            trip,
            Departures {
                start,
                end,
                headway,
            },
        )?;
        Ok(())
    }
}

/// The columns that a header names.
fn columns_in(header: &ByteRecord) -> FrequencyColumns
    ensures { result ≡ columns_of (fields_of header.now) }
{
    FrequencyColumns {
        trip: column(header, b"trip_id"),
        start: column(header, b"start_time"),
        end: column(header, b"end_time"),
        headway: column(header, b"headway_secs"),
    }
}

/// No departures yet, for each of the trips.
pub fn no_departures(alloc: Global, count: usize) -> Result<Vec<Vec<Departures>>, AllocError>
    ensures size { IfOk result (λ v. length v.items ≡ count) }
    ensures empty { IfOk result (λ v. (t : ℕ) (d : Vec Departures Global) → t < count →
        (slice_index_or v.items t d).items ≡ []) }
{
    let mut trips = Vec::new(alloc);
    for _ in 0..count {
        trips.push(Vec::new(alloc))?;
    }
    Ok(trips)
}

/// The rows of `frequencies.txt` for each trip of the feed, in file order.
///
/// The bytes are at most 2^30, the limit of an input file.
pub fn read_frequencies(
    alloc: Global,
    bytes: &[u8],
    trips: &Identifiers,
) -> Result<Vec<Vec<Departures>>, FeedFault>
    requires { length bytes.now ≤ MOST_BYTES }
    ensures good { IfOk result (λ v. (frequency_faults trips.now bytes.now ≡ [])
        × (map (λ rows. rows.items) v.items ≡ departures_by_trip trips.now (frequency_rows bytes.now))) }
    ensures fault { IfErr result (λ e. Tells e (frequency_faults trips.now bytes.now)) }
{
    let mut departures = no_departures(alloc, trips.len())?;
    let mut file = open_table(alloc, bytes, FileName::Frequencies, CHECKS.required)?;
    let reader = FrequencyReader {
        columns: columns_in(&file.header),
        trips,
    };
    let read = read_records(alloc, &reader, &mut departures, &mut file.records);
    drop(file);
    read.and(Ok(departures))
}
