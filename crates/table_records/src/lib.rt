//! What every table of a feed is read with: records of bytes, columns by name, the values of fields, identifiers with
//! their numbers, and the first fault with its file and record.
//! It knows no column and no file's rules; those are with the files' own readers.
//!
//! - `records`: [`Records`] gives the records of a file one at a time, the header first.
//! - `columns`: [`column`] finds a column in the header, [`field`] its text in a record.
//! - `fields`: [`trim`], [`number`], [`read_time`] and [`read_date`] give texts their values.
//! - `identifiers`: [`Identifiers`] numbers stops, routes, trips and services.
//! - `limits`: [`MOST_BYTES`] is the most bytes of a file.
//! - `reading`: [`open_table`] reads a header with its required columns, and [`read_records`] record after record by a
//!   [`RecordReader`], up to the first fault. [`open_records`] and [`take_records`] do the same for a file with faults
//!   of its own, by a [`RecordTaker`].
//! - `fault`: [`FeedFault`] says what is wrong ([`What`]), in which file and record; [`HeaderFault`], that a header
//!   can't be used.
//!
//! The rules are those of the GTFS Schedule reference ("File requirements" and "Field types"), with the grammars of
//! times and numbers narrowed to what the engine counts with. Their definitions are in `specs/`, one file per module;
//! `specs/Faults.antt` has the order of faults.
#![tactic(auto)]

mod checks;
mod columns;
mod fault;
mod fields;
mod identifiers;
mod limits;
mod reading;
mod records;

pub use checks::{Check, Checks, Rule};
pub use columns::{column, field};
pub use fault::{FeedFault, FileName, HeaderFault, What};
pub use fields::{number, read_date, read_time, trim};
pub use identifiers::Identifiers;
pub use limits::{MOST_BYTES, limits_are_as_stated};
pub use reading::{
    OpenTable, RecordReader, RecordTaker, open_records, open_table, read_records, take_records,
};
pub use records::Records;
