//! A line of the text, formed whole before it is put out.
ghost use Rattle.std.specs.Prelude.{◌≡◌, ◌++◌, ◌∷◌, [], OnOk, OnErr, IfOk, IfErr};
ghost use Rattle.std.specs.Io.KnownBytes.{Appends};
ghost use Rattle.csv.specs.Records.{fields_of};
ghost use Rattle.matrix_text.specs.Text.{line_text, limit_field, cell_field};
ghost use Rattle.matrix_text.specs.Prefixes.{PutsPrefix};

use crate::faults::TextFault;
use crate::output::put_all;
use csv::{ByteRecord, WriterBuilder};
use itoa::{Buffer, Integer};
use std::alloc::{AllocError, Global};
use std::io::Write;
use std::marker::Model;
use std::mem;

/// The fields of a line. The room of one line serves the next.
///
/// Contracts see the list of the fields.
#[derive(Drop)]
pub struct Line {
    alloc: Global,
    fields: ByteRecord,
    text: Vec<u8>,
}

impl Model for Line {
    ghost use Rattle.std.specs.Prelude.{◌≡◌, ℕ, List, []};
    ghost use Rattle.csv.specs.Records.{fields_of, partial_of};

    ghost Value = { List (List ℕ) };

    ghost view = { λ line. fields_of line.fields };

    ghost invariant = { λ line. partial_of line.fields ≡ [] };
}

impl Line {
    /// A line without fields.
    pub fn new(alloc: Global) -> Line
        ensures { result ≡ [] }
    {
        Line {
            alloc,
            fields: ByteRecord::new(alloc),
            text: Vec::new(alloc),
        }
    }

    /// Takes all fields away.
    pub fn clear(&mut self)
        ensures { self.new ≡ [] }
    {
        self.fields.clear();
    }

    /// Puts a field last. Out of memory, all fields are gone.
    pub fn push(&mut self, field: &[u8]) -> Result<(), TextFault>
        ensures ok { OnOk result (self.new ≡ self.old ++ field.now ∷ []) }
        ensures err { OnErr result (self.new ≡ []) }
    {
        if self.fields.push_field(field).is_err() {
            self.fields.clear();
            return Err(TextFault::Memory);
        }
        Ok(())
    }

    /// Puts a number last, in digits.
    pub fn push_number<I: Integer>(&mut self, number: I) -> Result<(), TextFault>
        ensures { OnOk result (self.new ≡ self.old ++ I.text number ∷ []) }
    {
        self.push(Buffer::new().format(number).as_bytes())
    }

    /// Puts the name of a limit's column last.
    pub fn push_limit(&mut self, limit: u32) -> Result<(), TextFault>
        ensures { OnOk result (self.new ≡ self.old ++ limit_field limit ∷ []) }
    {
        let name = limit_name(self.alloc, limit)?;
        self.push(&name)
    }

    /// Puts a cell last: its digits, or an empty field where it is absent.
    pub fn push_cell(&mut self, cell: Option<u32>) -> Result<(), TextFault>
        ensures { OnOk result (self.new ≡ self.old ++ cell_field cell ∷ []) }
    {
        match cell {
            Some(seconds) => self.push_number(seconds),
            None => self.push(b""),
        }
    }

    /// Puts out the line's text, with its line end.
    pub fn put<W: Write>(&mut self, w: &mut W) -> Result<(), TextFault>
        ensures ok { OnOk result (Appends (W.contents w.old) (W.contents w.new) (line_text self.old)) }
        ensures err { OnErr result (PutsPrefix (W.contents w.old) (W.contents w.new) (line_text self.old)) }
        ensures memory { IfErr result (λ fault. fault ≡ TextFault.Memory → W.contents w.new ≡ W.contents w.old) }
        ensures same { self.new ≡ self.old }
    {
        let room = mem::replace(&mut self.text, Vec::new(self.alloc));
        let text = text_of(&self.fields, room)?;
        put_all(&text, w)?;
        self.text = text;
        Ok(())
    }
}

/// The name of a limit's column.
fn limit_name(alloc: Global, limit: u32) -> Result<Vec<u8>, AllocError>
    ensures { IfOk result (λ name. name.items ≡ limit_field limit) }
{
    let mut name = Vec::from_slice(alloc, b"access_")?;
    name.extend_from_slice(Buffer::new().format(limit).as_bytes())?;
    Ok(name)
}

/// The text of a record, in the room of a text that isn't needed any more.
#[tactic(auto, unfolding(crate::specs::Text::line_text))]
fn text_of(fields: &ByteRecord, mut room: Vec<u8>) -> Result<Vec<u8>, AllocError>
    ensures { IfOk result (λ text. text.items ≡ line_text (fields_of fields.now)) }
{
    room.clear();
    let mut writer = WriterBuilder::new().from_writer(room);
    if writer.write_byte_record(fields).is_err() {
        return Err(AllocError);
    }
    match writer.into_inner() {
        Ok(text) => Ok(text),
        Err(_) => Err(AllocError),
    }
}
