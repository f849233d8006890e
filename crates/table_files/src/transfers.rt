//! Walks between stops and stations, and change times: `transfers.txt`.

ghost use Rattle.std.specs.Prelude.{◌≡◌, ◌≤◌, ◌<◌, ◌+◌, ◌^◌, ℕ, List, [], All, Some, length, map, IfOk, IfErr};
ghost use Rattle.csv.specs.Records.{fields_of};
ghost use Rattle.table_records.specs.Checks.{Explains};
ghost use Rattle.table_records.specs.Columns as columns_spec;
ghost use Rattle.table_records.specs.Fields.{is_empty};
ghost use Rattle.table_records.specs.Faults.{IsFirst, Tells};
ghost use Rattle.table_records.specs.declared.fault.FileName.TheVariants as file_name;
ghost use Rattle.table_records.specs.declared.limits.TheConstants.{MOST_BYTES};
ghost use Rattle.table_files.specs.Transfers as spec;

use crate::ends::have_pair;
use crate::place::Place;
use crate::places::{Places, kind_number};
use csv::ByteRecord;
use std::alloc::{AllocError, Global};
use table_records::{
    Check, Checks, FeedFault, FileName, OpenTable, RecordReader, Records, Rule, What, column,
    field, number, read_records, trim,
};

/// A walk from one place to another, as a row of `transfers.txt` states it. A station stands for all its stops.
/// A row of type 2 from a place to itself states a change time too: the least that a change of vehicles takes there.
#[derive(Clone, Copy, Debug, PartialEq, Eq)]
pub struct Link {
    pub origin: Place,
    pub target: Place,
    /// How long the walk takes, or the change.
    pub seconds: u32,
    /// Whether the row states a change time, for the stop or for each stop of the station.
    pub changes: bool,
    /// The number of the record, counted from 1 with the header.
    pub at: u64,
}

/// What `transfers.txt` says: the rows that give a walk or a change time, in file order, and how many rows give
/// neither.
#[derive(Debug, Drop)]
pub struct Transfers {
    pub links: Vec<Link>,
    pub unused: u32,
}

/// The checks; [`transfer_checks`] says what holds of them.
const CHECKS: Checks = Checks {
    required: &[],
    fields: &[
        Check(b"transfer_type", Rule::OpenNumber, What::BadNumber),
        Check(b"from_stop_id", Rule::Place, What::UnknownStop),
        Check(b"to_stop_id", Rule::Place, What::UnknownStop),
        Check(b"min_transfer_time", Rule::Number, What::BadNumber),
    ],
};

/// What is checked of `transfers.txt`: each fault of a record is that of a check.
pub fn transfer_checks() -> Checks
    ensures required { map (λ name. name.now) result.required.now ≡ [] }
    ensures explains { (names : List (List ℕ)) → Explains result.fields.now spec.row_of (spec.checks names) }
{
    CHECKS
}

/// The columns of `transfers.txt` that are read.
#[derive(Clone, Copy)]
pub struct TransferColumns {
    pub from: Option<usize>,
    pub to: Option<usize>,
    pub kind: Option<usize>,
    pub time: Option<usize>,
    pub from_route: Option<usize>,
    pub to_route: Option<usize>,
    pub from_trip: Option<usize>,
    pub to_trip: Option<usize>,
}

/// Whether a field of a record is empty.
fn lacks(row: &ByteRecord, column: Option<usize>) -> bool
    ensures { result ≡ is_empty (columns_spec.field (fields_of row.now) column) }
{
    field(row, column).is_empty()
}

impl TransferColumns {
    ghost use Rattle.std.specs.Prelude.{◌≡◌, ◌==◌, ◌≤◌, ◌&&◌, nat_le};
    ghost use Rattle.std.specs.Str.{bytes_eq};
    ghost use Rattle.table_files.specs.Transfers.{is_general, is_whole, row_at};

    /// Whether a row holds for every route and trip.
    fn is_general(&self, row: &ByteRecord) -> bool
        ensures { result ≡ is_general (row_at self.now (fields_of row.now)) }
    {
        lacks(row, self.from_route)
            && lacks(row, self.to_route)
            && lacks(row, self.from_trip)
            && lacks(row, self.to_trip)
    }

    /// Whether a row has two ends and a time.
    fn is_whole(&self, row: &ByteRecord) -> bool
        ensures { result ≡ is_whole (row_at self.now (fields_of row.now)) }
    {
        !trim(field(row, self.time)).is_empty() && !lacks(row, self.from) && !lacks(row, self.to)
    }

    /// Whether a row with this type says how long a walk takes.
    fn is_used(&self, kind: u32, row: &ByteRecord) -> bool
        ensures { result ≡ (nat_le kind 2 && is_general (row_at self.now (fields_of row.now)) && is_whole
            (row_at self.now (fields_of row.now))) }
    {
        kind <= 2 && self.is_general(row) && self.is_whole(row)
    }

    /// Whether a row with this type states a change time.
    fn is_change(&self, kind: u32, row: &ByteRecord) -> bool
        ensures { result ≡ ((kind == 2) && bytes_eq (row_at self.now (fields_of row.now)).from
            (row_at self.now (fields_of row.now)).to) }
    {
        kind == 2 && field(row, self.from) == field(row, self.to)
    }
}

/// A reader of `transfers.txt`, whose records name the feed's places.
#[derive(Drop)]
pub struct TransferReader<'a> {
    pub columns: TransferColumns,
    pub places: &'a Places,
}

impl<'a> TransferReader<'a> {
    ghost use Rattle.std.specs.Prelude.{◌≡◌, [], length, map, IfOk, IfErr, IfSome};
    ghost use Rattle.table_files.specs.Transfers.{IsLink, checks, is_change, link_at, link_of, row_at, used_checks};

    /// The values of a row that is used, and states a change time or none.
    fn link(&self, at: u64, changes: bool, row: &ByteRecord) -> Result<Link, FeedFault>
        requires { changes ≡ is_change (row_at self.now.columns (fields_of row.now)) }
        ensures good { IfOk result (λ link. (used_checks self.now.places.now.names
            (row_at self.now.columns (fields_of row.now)) ≡ [])
            × (link ≡ link_at self.now.places.now at (row_at self.now.columns (fields_of row.now)))) }
        ensures in_range { IfOk result (λ link. IsLink (length self.now.places.now.stops)
            (length self.now.places.now.stations) link) }
        ensures fault { IfErr result (λ e. IsFirst e
            (map (λ w. record { file = file_name.Transfers; at = at; what = w })
            (used_checks self.now.places.now.names (row_at self.now.columns (fields_of row.now))))) }
    {
        let Some(origin) = self.places.place(field(row, self.columns.from)) else {
            return Err(FeedFault::at(FileName::Transfers, at, What::UnknownStop));
        };
        let Some(target) = self.places.place(field(row, self.columns.to)) else {
            return Err(FeedFault::at(FileName::Transfers, at, What::UnknownStop));
        };
        let Some(seconds) = number(trim(field(row, self.columns.time))) else {
            return Err(FeedFault::at(FileName::Transfers, at, What::BadNumber));
        };
        Ok(Link {
            origin,
            target,
            seconds,
            changes,
            at,
        })
    }

    /// The link of a row, if it gives a walk or a change time.
    fn link_in(&self, at: u64, row: &ByteRecord) -> Result<Option<Link>, FeedFault>
        ensures good { IfOk result (λ link. (checks self.now.places.now.names []
            (row_at self.now.columns (fields_of row.now)) ≡ [])
            × (link ≡ link_of self.now.places.now at (row_at self.now.columns (fields_of row.now)))) }
        ensures fault { IfErr result (λ e. IsFirst e
            (map (λ w. record { file = file_name.Transfers; at = at; what = w })
            (checks self.now.places.now.names [] (row_at self.now.columns (fields_of row.now))))) }
    {
        let Some(kind) = kind_number(trim(field(row, self.columns.kind))) else {
            return Err(FeedFault::at(FileName::Transfers, at, What::BadNumber));
        };
        if !self.columns.is_used(kind, row) {
            return Ok(None);
        }
        let link = self.link(at, self.columns.is_change(kind, row), row)?;
        if !self.gives_any(link) {
            return Ok(None);
        }
        Ok(Some(link))
    }

    /// Whether a link gives a pair or a change time.
    fn gives_any(&self, link: Link) -> bool
        requires { IsLink (length self.now.places.now.stops) (length self.now.places.now.stations) link }
        ensures { result ≡ spec.gives_any self.now.places.now.children link }
    {
        self.gives_pair(link) || self.gives_change(link)
    }

    /// Whether a link states a change time for some stop.
    fn gives_change(&self, link: Link) -> bool
        requires { IsLink (length self.now.places.now.stops) (length self.now.places.now.stations) link }
        ensures { result ≡ spec.gives_change self.now.places.now.children link }
    {
        let stops = self.places.stops_at(link.origin);
        link.changes && !stops.as_slice().is_empty()
    }

    /// Whether a link's ends give a pair of different stops.
    fn gives_pair(&self, link: Link) -> bool
        requires { IsLink (length self.now.places.now.stops) (length self.now.places.now.stations) link }
        ensures { result ≡ spec.gives_pair self.now.places.now.children link }
    {
        let from = self.places.stops_at(link.origin);
        let to = self.places.stops_at(link.target);
        have_pair(from.as_slice(), to.as_slice())
    }
}

impl Transfers {
    ghost use Rattle.std.specs.Prelude.{◌≡◌, ◌++◌, ◌∷◌, ◌+◌, ◌<◌, ◌^◌, [], IfOk};
    ghost use Rattle.table_files.specs.Transfers.{Takes};

    /// Takes a row's link, or counts a row without one.
    fn take(&mut self, link: Option<Link>) -> Result<(), AllocError>
        requires { self.old.unused + 1 < 2 ^ 32 }
        ensures { IfOk result (λ _. Takes link self.old self.new) }
    {
        match link {
            Some(link) => self.links.push(link)?,
            None => self.unused += 1,
        }
        Ok(())
    }
}

impl<'a> RecordReader for TransferReader<'a> {
    ghost use Rattle.std.specs.Prelude.{◌≤◌, ◌+◌, length};
    ghost use Rattle.table_files.specs.Transfers.{AreTransfers, TransferRow, checks, row_at};

    type Table = Transfers;

    ghost Row = { TransferRow };

    ghost file = { file_name.Transfers };

    ghost row_of = { λ s. row_at s.columns };

    ghost checks = { λ s. checks s.places.now.names };

    ghost After = { λ s _ rows now. AreTransfers s.places.now now rows };

    ghost HasRoom = { λ _ table at. table.unused + 2 ≤ at };

    fn add(
        &self,
        _alloc: Global,
        table: &mut Transfers,
        at: u64,
        row: &ByteRecord,
    ) -> Result<(), FeedFault> {
        let link = self.link_in(at, row)?;
        table.take(link)?;
        Ok(())
    }
}

/// The columns that a header names.
fn columns_in(header: &ByteRecord) -> TransferColumns
    ensures { result ≡ spec.columns_of (fields_of header.now) }
{
    TransferColumns {
        from: column(header, b"from_stop_id"),
        to: column(header, b"to_stop_id"),
        kind: column(header, b"transfer_type"),
        time: column(header, b"min_transfer_time"),
        from_route: column(header, b"from_route_id"),
        to_route: column(header, b"to_route_id"),
        from_trip: column(header, b"from_trip_id"),
        to_trip: column(header, b"to_trip_id"),
    }
}

/// The header, which may be absent since no column is required, and the records after it.
fn open_file(alloc: Global, bytes: &[u8]) -> Result<OpenTable<'_>, AllocError>
    requires { length bytes.now ≤ MOST_BYTES }
    ensures rows { IfOk result (λ t. spec.transfer_rows bytes.now ≡ map (spec.row_of (fields_of t.header)) t.records) }
    ensures few { IfOk result (λ t. length t.records ≤ MOST_BYTES) }
{
    let mut records = Records::new(alloc, bytes);
    let mut header = ByteRecord::new(alloc);
    records.next(&mut header)?;
    Ok(OpenTable { header, records })
}

/// The walks and change times of `transfers.txt`, or its first fault. No column is required, nor any record.
///
/// A row counts where its type is empty or at most 2, it names no route and no trip, it has a `min_transfer_time`, and
/// its ends stand for two different stops at least, or its type is 2 and its two ends are one stop or one station with
/// stops; all other rows are counted as unused. The bytes are at most 2^30, the limit of an input file.
pub fn read_transfers(alloc: Global, bytes: &[u8], places: &Places) -> Result<Transfers, FeedFault>
    requires { length bytes.now ≤ MOST_BYTES }
    ensures good { IfOk result (λ t. (spec.transfer_faults places.now.names bytes.now ≡ [])
        × (t.links.items ≡ spec.links_of places.now (spec.transfer_rows bytes.now))
        × (t.unused ≡ spec.unused_of places.now (spec.transfer_rows bytes.now))) }
    ensures in_range { IfOk result (λ t. All (spec.IsLink (length places.now.stops) (length places.now.stations))
        t.links.items) }
    ensures fault { IfErr result (λ e. Tells e (spec.transfer_faults places.now.names bytes.now)) }
{
    let mut file = open_file(alloc, bytes)?;
    let mut transfers = Transfers {
        links: Vec::new(alloc),
        unused: 0,
    };
    let reader = TransferReader {
        columns: columns_in(&file.header),
        places,
    };
    let read = read_records(alloc, &reader, &mut transfers, &mut file.records);
    drop(file);
    places.known();
    read.and(Ok(transfers))
}
