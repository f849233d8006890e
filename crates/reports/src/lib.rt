//! Reports: what a study is made of and how far it is, told while it runs.
//!
//! - `report`: [`Report`] is told by a study what each stage has made (`studies::Watch`) and which rows are kept
//!   (`workers::Gate`), and tells it in lines. It changes nothing: each lease is worked at.
//! - `table_lines`, `day_lines` and `row_lines` make the lines of each stage; a `console` takes them. `calendar_lines`:
//!   which dates have trips, where the date of the departures has none.
//! - `progress`: how many rows are done, and when it is time to tell so; `measures`: shares and times in numbers.
//! - `explain`: what the line of a fault can't say, by a second look at the file (`records`): the field that a check of
//!   its file refused, and what is allowed there (`rules`); `advice`: what to do about faults of no field.
//! - `folder_lines`: what stands in the folder of a feed that lacks a file, or why it isn't one ([`explain_folder`]).
//!
//! A line tells one fact. A line for which memory runs out is left out.
//! Which check of a file explains its faults is in `specs/Explain`.
#![tactic(auto)]

mod advice;
mod calendar_lines;
mod day_lines;
mod explain;
mod folder_lines;
mod measures;
mod progress;
mod records;
mod report;
mod row_lines;
mod rules;
mod table_lines;

pub use folder_lines::explain_folder;
pub use report::Report;
