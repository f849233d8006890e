//! The files of an analysis whose records name stops of the feed, each once: the origins, the opportunities.

ghost use Rattle.std.specs.Prelude.{◌≡◌, ◌<◌, ◌≤◌, ◌∷◌, ◌++◌, [], ℕ, List, false, length, map, IfOk, IfErr};
ghost use Rattle.csv.specs.Records.{fields_of};
ghost use Rattle.table_records.specs.Faults.{IsFirst, Tells};
ghost use Rattle.table_records.specs.declared.limits.TheConstants.{MOST_BYTES};
ghost use Rattle.table_records.specs.Identifiers.{number_in};
ghost use Rattle.gtfs_tables.specs.NamedStops as spec;
ghost use Rattle.gtfs_tables.specs.NamedStops.{AreMarked, AreNamed, stop_checks};

use crate::feed::Feed;
use csv::ByteRecord;
use std::alloc::{AllocError, Global};
use table_records::{
    FeedFault, FileName, RecordTaker, What, column, field, number, open_table, take_records, trim,
};
use timetable::StopNo;

/// The columns of such a file that are read.
#[derive(Clone, Copy)]
pub struct NamedColumns {
    pub stop: Option<usize>,
    pub count: Option<usize>,
}

/// A reader of such a file.
#[derive(Drop)]
pub struct NamedReader<'a> {
    pub name: FileName,
    /// Whether each record has to state a number of opportunities.
    pub is_counted: bool,
    pub columns: NamedColumns,
    pub feed: &'a Feed,
}

/// The stops that were named so far, in file order, and the count at each stop of the feed.
#[derive(Drop)]
pub struct NamedList {
    pub named: NamedStops,
    pub stops: Vec<StopNo>,
    pub counts: Vec<u32>,
}

/// For each stop of a feed, whether it was named.
#[derive(Drop)]
pub struct NamedStops {
    pub marks: Vec<bool>,
}

impl<'a> RecordTaker for NamedReader<'a> {
    ghost use Rattle.std.specs.Prelude.{◌≡◌, [], length, map};
    ghost use Rattle.table_records.specs.Faults.{Tells};
    ghost use Rattle.gtfs_tables.specs.NamedStops.{AreNamed, faults_of, row_at};

    type Table = NamedList;

    type Fault = FeedFault;

    ghost Makes = { λ s _ records now. (faults_of s.name s.is_counted s.feed.now.stops (map (row_at s.columns) records)
        ≡ [])
        × AreNamed s.feed.now.stops now (map (row_at s.columns) records) };

    ghost Refuses = { λ s _ records e. Tells e
        (faults_of s.name s.is_counted s.feed.now.stops (map (row_at s.columns) records)) };

    ghost HasRoom = { λ s table _. (length table.named.marks.items ≡ length s.feed.now.stops)
        × (length table.counts.items ≡ length s.feed.now.stops) };

    fn take(
        &self,
        _alloc: Global,
        table: &mut NamedList,
        at: u64,
        row: &ByteRecord,
    ) -> Result<(), FeedFault> {
        self.feed.known();
        let stop = match table.named.take(self.feed, field(row, self.columns.stop)) {
            Ok(stop) => stop,
            Err(what) => return Err(FeedFault::at(self.name, at, what)),
        };
        let count = number(trim(field(row, self.columns.count)));
        if self.is_counted && count.is_none() {
            return Err(FeedFault::at(self.name, at, What::BadNumber));
        }
        table.stops.push(stop)?;
        table.counts[stop.0 as usize] = count.unwrap_or(0);
        Ok(())
    }

    fn memory(&self) -> FeedFault {
        FeedFault::from(AllocError)
    }
}

impl NamedStops {
    /// Takes the stop of the next record, which no record before it may have named.
    pub fn take(&mut self, feed: &Feed, id: &[u8]) -> Result<StopNo, What>
        requires { length self.old.marks.items ≡ length feed.now.stops }
        ensures good { IfOk result (λ s. (before : List (List ℕ)) → AreMarked feed.now.stops self.old.marks.items before
            → (stop_checks feed.now.stops before id.now ≡ []) × (s.0 ≡ number_in feed.now.stops id.now)
            × AreMarked feed.now.stops self.new.marks.items (before ++ id.now ∷ [])) }
        ensures stop { IfOk result (λ s. s.0 < length feed.now.stops) }
        ensures size { length self.new.marks.items ≡ length self.old.marks.items }
        ensures fault { IfErr result (λ w. (before : List (List ℕ)) →
            AreMarked feed.now.stops self.old.marks.items before
            → IsFirst w (stop_checks feed.now.stops before id.now)) }
    {
        if id.is_empty() {
            return Err(What::EmptyId);
        }
        let Some(stop) = feed.stop_no(id) else {
            return Err(What::UnknownStop);
        };
        let stop_number = stop.0 as usize;
        if self.marks[stop_number] {
            return Err(What::DuplicateId);
        }
        self.marks[stop_number] = true;
        Ok(stop)
    }
}

/// What the bytes of such a file say, or its first fault. Its header must name each required column.
pub fn read_named(
    alloc: Global,
    bytes: &[u8],
    feed: &Feed,
    name: FileName,
    required: &[&[u8]],
    is_counted: bool,
) -> Result<NamedList, FeedFault>
    requires { length bytes.now ≤ MOST_BYTES }
    ensures good { IfOk result (λ t. (spec.faults_in name (map (λ text. text.now) required.now) is_counted bytes.now
        feed.now.stops ≡ [])
        × AreNamed feed.now.stops t (spec.named_rows bytes.now)) }
    ensures fault { IfErr result (λ e. Tells e
        (spec.faults_in name (map (λ text. text.now) required.now) is_counted bytes.now feed.now.stops)) }
{
    let mut list = none_named(alloc, feed)?;
    let mut file = open_table(alloc, bytes, name, required)?;
    let reader = NamedReader {
        name,
        is_counted,
        columns: columns_in(&file.header),
        feed,
    };
    let read = take_records(alloc, &reader, &mut list, &mut file.records);
    drop(file);
    read.and(Ok(list))
}

/// No stop is named yet.
fn none_named(alloc: Global, feed: &Feed) -> Result<NamedList, AllocError>
    ensures { IfOk result (λ t. AreNamed feed.now.stops t []) }
{
    let stops = feed.stop_count() as usize;
    Ok(NamedList {
        named: NamedStops {
            marks: vec![in alloc; false; stops]?,
        },
        stops: Vec::new(alloc),
        counts: vec![in alloc; 0; stops]?,
    })
}

/// The columns that a header names.
fn columns_in(header: &ByteRecord) -> NamedColumns
    ensures { result ≡ spec.columns_of (fields_of header.now) }
{
    NamedColumns {
        stop: column(header, b"stop_id"),
        count: column(header, b"opportunities"),
    }
}
