//! Records of a file that are looked at once more.

ghost use Rattle.std.specs.Prelude.{◌≡◌, ◌-◌, ◌<◌, Some, IfSome, length, slice_get, true};
ghost use Rattle.csv.specs.Records.{fields_of};
ghost use Rattle.table_records.specs.Columns as columns;
ghost use Rattle.table_records.specs.Table.{Gives, records_of};

use csv::ByteRecord;
use std::alloc::Global;
use table_records::{Records, column, field};

/// The header of a file, and one of its records.
#[derive(Drop)]
pub(crate) struct Found {
    pub(crate) header: ByteRecord,
    pub(crate) row: ByteRecord,
}

impl Found {
    /// The field of the record in the column of a name; empty where there is none.
    pub(crate) fn text(&self, name: &[u8]) -> &[u8]
        ensures { result.now ≡ columns.field (fields_of self.now.row)
            (columns.column (fields_of self.now.header) name.now) }
    {
        field(&self.row, column(&self.header, name))
    }
}

/// The header of a file, and the record with a number, which counts the header as 1; none where there is no such
/// record, or no memory to read it. Of record 1 there is the header alone.
#[tactic(auto, using(crate::proofs::RecordFacts::given_at))]
pub(crate) fn record_at(alloc: Global, bytes: &[u8], at: u64) -> Option<Found>
    ensures header { IfSome result (λ found.
        slice_get (records_of bytes.now) 0 ≡ Some (fields_of found.header)) }
    ensures row { IfSome result (λ found.
        1 < at → slice_get (records_of bytes.now) (at - 1) ≡ Some (fields_of found.row)) }
{
    let mut rows = Records::new(alloc, bytes);
    let mut header = ByteRecord::new(alloc);
    let mut row = ByteRecord::new(alloc);
    if !is_next(&mut rows, &mut header) {
        return None;
    }
    for _ in 1..at {
        if !is_next(&mut rows, &mut row) {
            return None;
        }
    }
    Some(Found { header, row })
}

/// Puts the next record into `row`, and says whether there was one.
fn is_next(rows: &mut Records<'_>, row: &mut ByteRecord) -> bool
    ensures { result ≡ true → Gives rows.old true (fields_of row.new) rows.new }
{
    matches!(rows.next(row), Ok(true))
}

/// How many records the bytes of a file have, the header among them, if there is memory to read them.
pub(crate) fn record_count(alloc: Global, bytes: &[u8]) -> Option<u64>
    ensures { IfSome result (λ count. count ≡ length (records_of bytes.now)) }
{
    let mut rows = Records::new(alloc, bytes);
    let mut row = ByteRecord::new(alloc);
    for count in 0..u64::MAX {
        match rows.next(&mut row) {
            Ok(true) => {}
            Ok(false) => return Some(count),
            Err(_) => return None,
        }
    }
    None
}

/// Whether a record of a file has this text in the column of a name, if there is memory to read them.
pub(crate) fn is_named(alloc: Global, bytes: &[u8], name: &[u8], text: &[u8]) -> Option<bool> {
    let mut rows = Records::new(alloc, bytes);
    let mut row = ByteRecord::new(alloc);
    if !is_next(&mut rows, &mut row) {
        return Some(false);
    }
    let position = column(&row, name);
    for _ in 0..u64::MAX {
        match rows.next(&mut row) {
            Ok(true) if field(&row, position) == text => return Some(true),
            Ok(true) => {}
            Ok(false) => return Some(false),
            Err(_) => return None,
        }
    }
    None
}
