//! The direct footpaths of a feed: those of the walks in `transfers.txt`, and those of a file of footpaths.

ghost use Rattle.std.specs.Prelude.{◌≡◌, ◌≤◌, [], length, map, OnOk, IfOk, IfErr};
ghost use Rattle.csv.specs.Records.{fields_of};
ghost use Rattle.gtfs_tables.specs.Feed.{FeedData};
ghost use Rattle.gtfs_tables.specs.Files.{IsWithinLimit, bytes_of};
ghost use Rattle.table_files.specs.Children.{IsPlace};
ghost use Rattle.table_records.specs.Checks.{Explains};
ghost use Rattle.table_records.specs.Faults.{Tells};
ghost use Rattle.table_records.specs.declared.limits.TheConstants.{MOST_BYTES};
ghost use Rattle.footpaths.specs.Pairs.{IsRefusal, with_more};
ghost use Rattle.footpaths.specs.Walks as spec;

use crate::changes::change_times;
use crate::direct_list::Direct;
use crate::pairs::add_pairs;
use csv::ByteRecord;
use gtfs_tables::{Feed, Place};
use std::alloc::Global;
use table_records::{
    Check, Checks, FeedFault, FileName, RecordReader, Rule, What, column, field, number,
    open_table, read_records, trim,
};

/// A walk from one place to another. A station stands for all its stops.
#[derive(Clone, Copy)]
pub(crate) struct Walk {
    pub origin: Place,
    pub target: Place,
    /// How long the walk takes.
    pub seconds: u32,
}

/// The checks; [`footpath_checks`] says what holds of them.
const CHECKS: Checks = Checks {
    required: &[b"from_stop_id", b"to_stop_id", b"seconds"],
    fields: &[
        Check(b"from_stop_id", Rule::Filled, What::EmptyId),
        Check(b"to_stop_id", Rule::Filled, What::EmptyId),
        Check(b"from_stop_id", Rule::Place, What::UnknownStop),
        Check(b"to_stop_id", Rule::Place, What::UnknownStop),
        Check(b"seconds", Rule::Number, What::BadNumber),
    ],
};

/// What is checked of the file of footpaths, apart from the limit: each fault of a record is that of a check.
pub fn footpath_checks() -> Checks
    ensures required { map (λ name. name.now) result.required.now ≡ spec.required }
    ensures explains { (feed : FeedData) → Explains result.fields.now spec.row_of (spec.checks feed) }
{
    CHECKS
}

/// The columns of the file of footpaths that are read.
#[derive(Clone, Copy)]
pub(crate) struct WalkColumns {
    pub from: Option<usize>,
    pub to: Option<usize>,
    pub seconds: Option<usize>,
}

/// A reader of the file of footpaths, whose records name the feed's places.
#[derive(Drop)]
pub(crate) struct WalkReader<'a> {
    pub columns: WalkColumns,
    pub feed: &'a Feed,
}

/// The direct footpaths of a feed: those of the walks in `transfers.txt`, and then those of the file `own`, in the
/// order of their rows. Repeats are kept. A row gives the pairs of different stops of its two ends, and may give none.
/// The change times are those that `transfers.txt` states; the file `own` states none.
///
/// The file's required columns are `from_stop_id`, `to_stop_id` and `seconds`. An identifier that is empty or of no
/// record of `stops.txt` is refused, and seconds that are no number. The row with which there are more than 4,000,000
/// footpaths is refused in either file, the walks of `transfers.txt` before the file is looked at. The bytes are at
/// most 2^30, the limit of an input file.
pub fn direct(alloc: Global, feed: &Feed, own: Option<&[u8]>) -> Result<Direct, FeedFault>
    requires { IsWithinLimit (bytes_of own) }
    ensures good { IfOk result (λ d. (spec.direct_faults feed.now (bytes_of own.entry) ≡ [])
        × (d ≡ spec.direct_of feed.now (bytes_of own.entry))) }
    ensures fault { IfErr result (λ e. Tells e (spec.direct_faults feed.now (bytes_of own.entry))) }
{
    let mut direct = paths_of_links(alloc, feed)?;
    if let Some(bytes) = own {
        add_walks(alloc, &mut direct, feed, bytes)?;
    }
    Ok(direct)
}

/// The footpaths of the walks in `transfers.txt`.
fn paths_of_links(alloc: Global, feed: &Feed) -> Result<Direct, FeedFault>
    ensures good { IfOk result (λ d. (spec.link_faults feed.now.children [] feed.now.links ≡ [])
        × (d ≡ spec.lists_with feed.now [])) }
    ensures fault { IfErr result (λ e. Tells e (spec.link_faults feed.now.children [] feed.now.links)) }
{
    feed.known();
    let stops = feed.stop_count();
    let mut direct = Direct::new(alloc, stops, change_times(alloc, feed)?);
    for link in feed.links() {
        let walk = Walk {
            origin: link.origin,
            target: link.target,
            seconds: link.seconds,
        };
        if let Err(what) = add_walk(&mut direct, feed, walk) {
            return Err(FeedFault::at(FileName::Transfers, link.at, what));
        }
        direct.known();
    }
    Ok(direct)
}

/// Adds the footpaths of a file's bytes.
fn add_walks(alloc: Global, direct: &mut Direct, feed: &Feed, bytes: &[u8]) -> Result<(), FeedFault>
    requires few { length bytes.now ≤ MOST_BYTES }
    requires links { direct.old ≡ spec.lists_with feed.now [] }
    ensures good { OnOk result ((spec.walk_faults feed.now bytes.now ≡ [])
        × (direct.new ≡ spec.lists_with feed.now (spec.walk_rows bytes.now))) }
    ensures fault { IfErr result (λ e. Tells e (spec.walk_faults feed.now bytes.now)) }
{
    let mut file = open_table(alloc, bytes, FileName::Footpaths, CHECKS.required)?;
    let reader = WalkReader {
        columns: columns_in(&file.header),
        feed,
    };
    let read = read_records(alloc, &reader, direct, &mut file.records);
    drop(file);
    read
}

/// The columns that a header names.
fn columns_in(header: &ByteRecord) -> WalkColumns
    ensures { result ≡ spec.columns_of (fields_of header.now) }
{
    WalkColumns {
        from: column(header, b"from_stop_id"),
        to: column(header, b"to_stop_id"),
        seconds: column(header, b"seconds"),
    }
}

impl<'a> RecordReader for WalkReader<'a> {
    ghost use Rattle.std.specs.Prelude.{◌≡◌, length};
    ghost use Rattle.table_records.specs.declared.fault.FileName.TheVariants as file_name;
    ghost use Rattle.footpaths.specs.Walks.{WalkRow, checks, lists_with, row_at};

    type Table = Direct;

    ghost Row = { WalkRow };

    ghost file = { file_name.Footpaths };

    ghost row_of = { λ s. row_at s.columns };

    ghost checks = { λ s. checks s.feed.now };

    ghost After = { λ s _ rows now. now ≡ lists_with s.feed.now rows };

    ghost HasRoom = { λ s direct _. direct.stops ≡ length s.feed.now.stops };

    fn add(
        &self,
        _alloc: Global,
        direct: &mut Direct,
        at: u64,
        row: &ByteRecord,
    ) -> Result<(), FeedFault> {
        let walk = match self.walk(row) {
            Ok(walk) => walk,
            Err(what) => return Err(FeedFault::at(FileName::Footpaths, at, what)),
        };
        if let Err(what) = add_walk(direct, self.feed, walk) {
            return Err(FeedFault::at(FileName::Footpaths, at, what));
        }
        direct.known();
        Ok(())
    }
}

impl<'a> WalkReader<'a> {
    ghost use Rattle.std.specs.Prelude.{◌≡◌, [], length, IfOk, IfErr};
    ghost use Rattle.table_records.specs.Faults.{IsFirst};
    ghost use Rattle.footpaths.specs.Walks.{row_at, row_checks, walk_of};

    /// The walk that a record states.
    fn walk(&self, row: &ByteRecord) -> Result<Walk, What>
        ensures good { IfOk result (λ walk. (row_checks self.now.feed.now.names
            (row_at self.now.columns (fields_of row.now)) ≡ [])
            × (walk ≡ walk_of self.now.feed.now (row_at self.now.columns (fields_of row.now)))) }
        ensures origin { IfOk result (λ walk. IsPlace (length self.now.feed.now.stops)
            (length self.now.feed.now.children) walk.origin) }
        ensures target { IfOk result (λ walk. IsPlace (length self.now.feed.now.stops)
            (length self.now.feed.now.children) walk.target) }
        ensures fault { IfErr result (λ w. IsFirst w
            (row_checks self.now.feed.now.names (row_at self.now.columns (fields_of row.now)))) }
    {
        let from = field(row, self.columns.from);
        let to = field(row, self.columns.to);
        if from.is_empty() || to.is_empty() {
            return Err(What::EmptyId);
        }
        let Some(origin) = self.feed.place(from) else {
            return Err(What::UnknownStop);
        };
        let Some(target) = self.feed.place(to) else {
            return Err(What::UnknownStop);
        };
        let Some(seconds) = number(trim(field(row, self.columns.seconds))) else {
            return Err(What::BadNumber);
        };
        Ok(Walk {
            origin,
            target,
            seconds,
        })
    }
}

/// Adds the footpaths of a walk: the pairs of different stops of its two ends.
fn add_walk(direct: &mut Direct, feed: &Feed, walk: Walk) -> Result<(), What>
    requires stops { direct.old.stops ≡ length feed.now.stops }
    requires origin { IsPlace (length feed.now.stops) (length feed.now.children) walk.origin }
    requires target { IsPlace (length feed.now.stops) (length feed.now.children) walk.target }
    ensures good { OnOk result (direct.new ≡ with_more direct.old (spec.pairs_of_walk feed.now.children walk)) }
    ensures fault { IfErr result (IsRefusal direct.old (spec.pairs_of_walk feed.now.children walk)) }
{
    feed.known();
    let from = feed.stops_at(walk.origin);
    let to = feed.stops_at(walk.target);
    add_pairs(direct, from.as_slice(), to.as_slice(), walk.seconds)
}
