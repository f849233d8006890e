//! The program around a study, on any [`Host`]: what it does with its arguments, the files that they name, and its
//! outputs.
//!
//! With arguments [`run`] makes the study that they ask for; with none, one of the small feed that it carries
//! (`example`).
//!
//! - `arguments`: the whole way on a `host`, from its `words` to a printed matrix. `answers`: what is put out and told
//!   of a study, and its report.
//! - `talk`: a conversation about what is kept: it reads the questions (`blocks`, `question_files`), and puts out the
//!   answers (`replies`, `line_room`).
//! - `reading` reads the files that the arguments name from the `disk` into `study_files`, or answers why one is
//!   `unread`; the crate `studies` makes the matrix's text of them.
//!
//! What the arguments ask for and which line tells a fault is the crate `command_line`'s.
#![tactic(auto)]

mod answers;
mod arguments;
mod blocks;
mod disk;
mod example;
mod host;
mod line_room;
mod question_files;
mod reading;
mod replies;
mod study_files;
mod talk;
mod unread;
mod words;

pub use crate::arguments::run;
pub use crate::blocks::question_limit_is_as_stated;
pub use crate::disk::{Disk, Opener};
pub use crate::host::Host;
pub use crate::words::Arguments;
