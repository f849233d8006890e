//! Scenarios: which trips of a feed are kept, by how much their times are shifted, and the networks that result.
//!
//! - `scenario`: [`Scenario`] and [`base`], the scenario without edits.
//! - `files`: [`read_scenario`], the scenario that a file says, or its first [`ScenarioFault`].
//!   Its records are read by `edit_rows`; `shifted_times` looks for times that are shifted out of range.
//! - `networks`: [`network_of`], the network of the runs that a scenario keeps; `trip_list`, its trips so far.
//! - `moving`: the events of a trip, moved.
//! - `edits`: how many records a scenario may have, and how far they may shift times; `numbered` keeps them by trip and
//!   by route, and `name` the scenario's name.
//! - `faults`: why a scenario file is refused; `checks`: what is checked of its fields, as data.
//!
//! `specs/Edits` says what the rows of a scenario do to a trip, `specs/Networks` which network they give of runs, and
//! `specs/Files` which edits a file says, with all its faults.
#![tactic(auto)]

mod checks;
mod edit_rows;
mod edits;
mod faults;
mod files;
mod moving;
mod name;
mod networks;
mod numbered;
mod scenario;
mod shifted_times;
mod trip_list;

pub use checks::{EditCheck, EditChecks, EditRule, edit_checks};
pub use edits::{END_OF_TIMES, MOST_EDITS, MOST_SHIFT, limits_are_as_stated};
pub use faults::{ScenarioFault, ScenarioWhat};
pub use files::read_scenario;
pub use networks::network_of;
pub use scenario::{Scenario, base};
