//! The records of a table, one at a time, in one buffer of the caller's.

ghost use Rattle.std.specs.Prelude.{◌≡◌, [], MatchResult};
ghost use Rattle.csv.specs.Records.{fields_of};
ghost use Rattle.table_records.specs.Table.{records_of, Gives};

use csv::{ByteRecord, Reader, ReaderBuilder};
use std::alloc::{AllocError, Global};
use std::marker::Model;

/// The records of a table that are still to come, the header among them.
///
/// Fields are divided by commas and may be quoted, a quote inside them doubled; lines end in CR, LF or CRLF. Empty
/// lines are no records, and records may differ in length. One UTF-8 byte-order mark at the start is left out.
#[derive(Drop)]
pub struct Records<'a> {
    reader: Reader<&'a [u8]>,
    done: bool,
}

impl<'a> Model for Records<'a> {
    ghost use Rattle.std.specs.Prelude.{ℕ, List};

    ghost Value = { List (List (List ℕ)) };

    ghost use Rattle.table_records.specs.Records.{records_left, IsReading};

    ghost view = { records_left };

    ghost invariant = { IsReading };
}

impl<'a> Records<'a> {
    /// All records of the bytes of a file. Nothing is read yet, and no bytes are copied.
    pub fn new(alloc: Global, bytes: &'a [u8]) -> Records<'a>
        ensures { result ≡ records_of bytes.now }
    {
        let reader = ReaderBuilder::new()
            .has_headers(false)
            .flexible(true)
            .from_reader(alloc, bytes);
        Records {
            reader,
            done: false,
        }
    }

    /// Puts the next record into `row`, and says whether there was one.
    ///
    /// No bytes are malformed to this reader, so an error is out of memory; no record comes after it.
    pub fn next(&mut self, row: &mut ByteRecord) -> Result<bool, AllocError>
        ensures { MatchResult result (λ found. Gives self.old found (fields_of row.new) self.new)
            (λ _. self.new ≡ []) }
    {
        if self.done {
            return Ok(false);
        }
        // Every way out but the good one leaves nothing to come.
        self.done = true;
        let Ok(found) = self.reader.read_byte_record(row) else {
            return Err(AllocError);
        };
        self.done = !found;
        Ok(found)
    }
}
