//! The places of a study's rows, and the matrix that they make: `workers` offer here the rows of the jobs of a
//! `work_book`. A place keeps the first row that is offered for it; a row that has no place here is a stranger and
//! comes back.
//!
//! - `Row` is what one scenario and one origin give, `Cells` for each share; `Collector` has a place for each row, and
//!   `finish` makes the `Matrix`.
//! - Doors for other programs are `Collector::place` and the sizes of a `Matrix`.
//! - `plain`, not on the program's way: `run_core` makes a list of steps, those of a book and offers of rows, as data
//!   (`CoreStep`, answered by `CoreAnswer`). `runs_are_right` is what holds of every such list, `core_runs_are_fair`
//!   what holds of the book in it.
//!
//! `specs/Places.antt` says what places are, `specs/Offers.antt` what an offer and a finish do, `specs/Laws.antt` the
//! laws.
#![tactic(auto)]

mod laws;
mod places;
mod plain;
mod row;

pub use laws::{core_runs_are_fair, runs_are_right};
pub use places::{Collector, Matrix, Offer, Unfinished};
pub use plain::{CoreAnswer, CoreStep, run_core};
pub use row::{Cells, Row};
