//! A study's rows, and the matrix that they make: threads draw jobs from a `work_book`, and a `collector` takes their
//! rows. A study asks for one row per scenario and origin; each row depends on its own scenario's network alone.
//!
//! - `study`: [`Study`], what is asked for, and the limits within which it fits.
//! - `rows`: the row of one scenario and origin, computed from narrow labels if a search leaves them, else from
//!   durations. `jobs`: one job for each.
//! - `run`: [`run_workers`], the matrix, by workers in threads of their own that share a board of jobs.
//! - `worker`, `task`, `threads`: what one worker does, what it promises of its rows, and how workers start and end.
//! - `gates`: [`Gate`], which decides what becomes of a worker's lease, and [`Open`], which lets each be worked at.
//! - `faults`: [`RunFault`], why a run gave no matrix.
//!
//! Not on the program's way:
//!
//! - `plain`: [`one_thread`], the matrix, row after row: the plain form of [`run_workers`], with the same matrix.
//! - [`row_of`], [`Study::fits`], [`shares_fit`] and [`limits_fit`]: doors for other programs.
//! - `laws`: what follows for rows and matrices, as that a study has one matrix.
//!
//! In `specs/`, `Rows` and `Matrices` define a row and a matrix, and `FoundRows` the shares of a row by what a search
//! found. `Held` has what a worker promises, and `Outcomes` what a run of workers ends with.
#![tactic(auto)]

mod faults;
mod gates;
mod jobs;
mod laws;
mod plain;
mod rows;
mod run;
mod study;
mod task;
mod threads;
mod worker;

pub use faults::RunFault;
pub use gates::{Gate, Open, Verdict};
pub use laws::{
    matrices_are_unique, rows_are_unique, rows_depend_on_their_network, rows_have_their_columns,
    wholes_have_the_rows_of_their_parts, workers_give_the_matrix_of_one_thread,
};
pub use plain::one_thread;
pub use rows::row_of;
pub use run::run_workers;
pub use study::{
    MOST_LIMITS, MOST_SCENARIOS, MOST_SHARES, Study, are_rising, are_shares, limits_are_as_stated,
    limits_fit, shares_fit,
};
