//! The text of a matrix: comma-separated records, a header and then one line per scenario, origin and share.
//!
//! - `text`: [`write_matrix`], line after line.
//! - `labels`: [`Labels`], what names the rows and the columns; [`Labels::fit`] is a door for other programs.
//! - `lines`: one line, formed whole before it is put out.
//! - `output`: [`put_all`], bytes put out whole.
//! - `faults`: [`TextFault`], why a text wasn't written.
//!
//! The text itself stands in `specs/Text.antt`.
#![tactic(auto)]

mod faults;
mod labels;
mod lines;
mod output;
mod text;

pub use faults::TextFault;
pub use labels::Labels;
pub use output::put_all;
pub use text::write_matrix;
