//! How each file of a feed is read: its header, and then record by record.

ghost use Rattle.std.specs.Prelude.{◌≡◌, ◌⊎◌, ◌+◌, ◌<◌, ◌≤◌, ◌^◌, ◌∷◌, ◌++◌, [], ℕ, List, true, false, length, map};
ghost use Rattle.std.specs.Prelude.{is_none, IfOk, IfErr, OnOk};
ghost use Rattle.std.specs.List.{list_any};
ghost use Rattle.table_records.specs.Columns as spec;
ghost use Rattle.csv.specs.Records.{fields_of};
ghost use Rattle.table_records.specs.Faults.{Tells, faults_after, faults_at};
ghost use Rattle.table_records.specs.Table.{Gives, records_of};
ghost use Rattle.table_records.specs.declared.fault.FileName.{FileName};
ghost use Rattle.table_records.specs.declared.fault.HeaderFault.TheVariants as header_fault;
ghost use Rattle.table_records.specs.declared.fault.What.{What};
ghost use Rattle.table_records.specs.declared.fault.What.TheVariants.{Memory};
ghost use Rattle.table_records.specs.declared.limits.TheConstants.{MOST_BYTES};
ghost use Rattle.table_records.specs.Reading.{lacks_column, missing_column};

use crate::columns::column;
use crate::fault::{FeedFault, FileName, HeaderFault, What};
use crate::records::Records;
use csv::ByteRecord;
use std::alloc::{AllocError, Global};

/// A reader of one file's records: the columns of its header, and what its records are checked against.
pub trait RecordReader {
    /// What the records make.
    type Table;

    // what counts of a record
    ghost Row: { Type 0 };

    ghost file: { FileName };

    // a record by the header's columns
    ghost row_of: { Self → List (List ℕ) → Row };

    // the faults of a record after those before it, in the order of their checks
    ghost checks: { Self → List Row → Row → List What };

    // what rows make of a table
    ghost After: { Self → Self.Table → List Row → Self.Table → Type 0 };

    // the table has room for the record of a number
    ghost HasRoom: { Self → Self.Table → ℕ → Type 0 };

    /// Takes the next record, or refuses it. Its number counts the header as 1.
    fn add(
        &self,
        alloc: Global,
        table: &mut Self::Table,
        at: u64,
        row: &ByteRecord,
    ) -> Result<(), FeedFault>
        requires few { at < 2 ^ 31 }
        requires room { HasRoom self.now table.old at }
        ensures good { IfOk result (λ _. (start : Self.Table) (before : List Row) → at ≡ length before + 2 →
            After self.now start before table.old
            → (checks self.now before (row_of self.now (fields_of row.now)) ≡ [])
            × After self.now start (before ++ row_of self.now (fields_of row.now) ∷ []) table.new) }
        ensures room { IfOk result (λ _. HasRoom self.now table.new (at + 1)) }
        ensures fault { IfErr result (λ e. (start : Self.Table) (before : List Row) → at ≡ length before + 2 →
            After self.now start before table.old
            → Tells e (faults_at file (checks self.now) before (row_of self.now (fields_of row.now)))) };
}

/// What is done with each record of a file, whatever its faults are: [`take_records`] goes by it.
pub trait RecordTaker {
    /// What the records make.
    type Table;

    /// Why a record is refused.
    type Fault;

    // what records without fault make of a table
    ghost Makes: { Self → Self.Table → List (List (List ℕ)) → Self.Table → Type 0 };

    // a fault that may be returned for records
    ghost Refuses: { Self → Self.Table → List (List (List ℕ)) → Self.Fault → Type 0 };

    // the table has room for the record of a number
    ghost HasRoom: { Self → Self.Table → ℕ → Type 0 };

    /// Takes the next record, or refuses it. Its number counts the header as 1.
    fn take(
        &self,
        alloc: Global,
        table: &mut Self::Table,
        at: u64,
        row: &ByteRecord,
    ) -> Result<(), Self::Fault>
        requires few { at < 2 ^ 31 }
        requires room { HasRoom self.now table.old at }
        ensures good { IfOk result (λ _. (start : Self.Table) (before : List (List (List ℕ))) → at ≡ length before + 2 →
            Makes self.now start before table.old
            → Makes self.now start (before ++ fields_of row.now ∷ []) table.new) }
        ensures room { IfOk result (λ _. HasRoom self.now table.new (at + 1)) }
        ensures fault { IfErr result (λ e. (start : Self.Table) (before after : List (List (List ℕ))) →
            at ≡ length before + 2 → Makes self.now start before table.old
            → Refuses self.now start (before ++ fields_of row.now ∷ after) e) };

    /// The error when memory runs out, which may be returned for any records.
    fn memory(&self) -> Self::Fault
        ensures { (start : Self.Table) (records : List (List (List ℕ))) → Refuses self.now start records result };
}

/// Takes all records that are left, in order, up to the first that is refused.
pub fn take_records<T: RecordTaker>(
    alloc: Global,
    taker: &T,
    table: &mut T::Table,
    records: &mut Records<'_>,
) -> Result<(), T::Fault>
    requires few { length records.old ≤ MOST_BYTES }
    requires room { T.HasRoom taker.now table.old 2 }
    requires empty { T.Makes taker.now table.old [] table.old }
    ensures good { IfOk result (λ _. T.Makes taker.now table.old records.old table.new) }
    ensures room { IfOk result (λ _. T.HasRoom taker.now table.new (length records.old + 2)) }
    ensures fault { IfErr result (λ e. T.Refuses taker.now table.old records.old e) }
{
    let mut row = ByteRecord::new(alloc);
    let mut at: u64 = 2;
    while next_of(taker, records, &mut row)? {
        taker.take(alloc, table, at, &row)?;
        at += 1;
    }
    Ok(())
}

/// Puts the next record into `row`, and says whether there was one. Out of memory it returns the taker's error.
fn next_of<T: RecordTaker>(
    taker: &T,
    records: &mut Records<'_>,
    row: &mut ByteRecord,
) -> Result<bool, T::Fault>
    ensures given { IfOk result (λ found. Gives records.old found (fields_of row.new) records.new) }
    ensures memory { IfErr result (λ e. (start : T.Table) (records : List (List (List ℕ))) →
        T.Refuses taker.now start records e) }
{
    match records.next(row) {
        Ok(found) => Ok(found),
        Err(_) => Err(taker.memory()),
    }
}

/// Reads all records that are left, in order, up to the first fault.
pub fn read_records<R: RecordReader>(
    alloc: Global,
    reader: &R,
    table: &mut R::Table,
    records: &mut Records<'_>,
) -> Result<(), FeedFault>
    requires few { length records.old ≤ MOST_BYTES }
    requires room { R.HasRoom reader.now table.old 2 }
    requires empty { R.After reader.now table.old [] table.old }
    ensures good { IfOk result (λ _.
        (faults_after R.file (R.checks reader.now) [] (map (R.row_of reader.now) records.old) ≡ [])
        × R.After reader.now table.old (map (R.row_of reader.now) records.old) table.new) }
    ensures room { IfOk result (λ _. R.HasRoom reader.now table.new (length records.old + 2)) }
    ensures fault { IfErr result (λ e. Tells e
        (faults_after R.file (R.checks reader.now) [] (map (R.row_of reader.now) records.old))) }
{
    take_records(alloc, &FeedRecords { reader }, table, records)
}

/// A [`RecordReader`] as a [`RecordTaker`], so that one loop goes over the records of every file.
#[derive(Clone, Copy)]
struct FeedRecords<'a, R> {
    reader: &'a R,
}

impl<'a, R: RecordReader> RecordTaker for FeedRecords<'a, R> {
    type Table = R::Table;

    type Fault = FeedFault;

    ghost Makes = { λ s start records table.
        (faults_after R.file (R.checks s.reader.now) [] (map (R.row_of s.reader.now) records) ≡ [])
        × R.After s.reader.now start (map (R.row_of s.reader.now) records) table };

    ghost Refuses = { λ s _ records e. Tells e
        (faults_after R.file (R.checks s.reader.now) [] (map (R.row_of s.reader.now) records)) };

    ghost HasRoom = { λ s. R.HasRoom s.reader.now };

    fn take(
        &self,
        alloc: Global,
        table: &mut R::Table,
        at: u64,
        row: &ByteRecord,
    ) -> Result<(), FeedFault> {
        self.reader.add(alloc, table, at, row)
    }

    fn memory(&self) -> FeedFault {
        FeedFault::from(AllocError)
    }
}

/// Whether a header lacks one of the columns with these names.
fn lacks_one(header: &ByteRecord, required: &[&[u8]]) -> bool
    ensures { result ≡ list_any (λ name. is_none (spec.column (fields_of header.now) name.now)) required.now }
{
    required.iter().any(|name| column(header, name).is_none())
}

/// A file whose header was read: the header, and the records after it.
#[derive(Drop)]
pub struct OpenTable<'a> {
    pub header: ByteRecord,
    pub records: Records<'a>,
}

/// Reads the header of a file of a feed, which must name each required column.
pub fn open_table<'a>(
    alloc: Global,
    bytes: &'a [u8],
    file: FileName,
    required: &[&[u8]],
) -> Result<OpenTable<'a>, FeedFault>
    requires { length bytes.now ≤ MOST_BYTES }
    ensures columns { IfOk result (λ _. lacks_column (map (λ name. name.now) required.now) (records_of bytes.now)
        ≡ false) }
    ensures records { IfOk result (λ t. records_of bytes.now ≡ fields_of t.header ∷ t.records) }
    ensures few { IfOk result (λ t. length t.records ≤ MOST_BYTES) }
    ensures fault { IfErr result (λ e. (e.what ≡ Memory)
        ⊎ ((lacks_column (map (λ name. name.now) required.now) (records_of bytes.now) ≡ true)
        × (e ≡ missing_column file))) }
{
    match open_records(alloc, bytes, required) {
        Ok(table) => Ok(table),
        Err(HeaderFault::MissingColumn) => Err(FeedFault::at(file, 1, What::MissingColumn)),
        Err(HeaderFault::Memory) => Err(FeedFault::from(AllocError)),
    }
}

/// Reads the header of any file, which must name each required column.
pub fn open_records<'a>(
    alloc: Global,
    bytes: &'a [u8],
    required: &[&[u8]],
) -> Result<OpenTable<'a>, HeaderFault>
    requires { length bytes.now ≤ MOST_BYTES }
    ensures columns { IfOk result (λ _. lacks_column (map (λ name. name.now) required.now) (records_of bytes.now)
        ≡ false) }
    ensures records { IfOk result (λ t. records_of bytes.now ≡ fields_of t.header ∷ t.records) }
    ensures few { IfOk result (λ t. length t.records ≤ MOST_BYTES) }
    ensures fault { IfErr result (λ e. (e ≡ header_fault.Memory)
        ⊎ ((lacks_column (map (λ name. name.now) required.now) (records_of bytes.now) ≡ true)
        × (e ≡ header_fault.MissingColumn))) }
{
    let mut records = Records::new(alloc, bytes);
    let mut header = ByteRecord::new(alloc);
    match read_header(&mut records, &mut header, required) {
        Ok(()) => Ok(OpenTable { header, records }),
        Err(fault) => {
            drop(records);
            drop(header);
            Err(fault)
        }
    }
}

/// Takes the first record, which must name each required column.
fn read_header(
    records: &mut Records<'_>,
    header: &mut ByteRecord,
    required: &[&[u8]],
) -> Result<(), HeaderFault>
    ensures columns { OnOk result (lacks_column (map (λ name. name.now) required.now) records.old ≡ false) }
    ensures records { OnOk result (records.old ≡ fields_of header.new ∷ records.new) }
    ensures fault { IfErr result (λ e. (e ≡ header_fault.Memory)
        ⊎ ((lacks_column (map (λ name. name.now) required.now) records.old ≡ true)
        × (e ≡ header_fault.MissingColumn))) }
{
    let Ok(found) = records.next(header) else {
        return Err(HeaderFault::Memory);
    };
    if !found {
        return Err(HeaderFault::MissingColumn);
    }
    if lacks_one(header, required) {
        return Err(HeaderFault::MissingColumn);
    }
    Ok(())
}
