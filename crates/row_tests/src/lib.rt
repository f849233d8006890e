//! Tests of the rows of a matrix, from the jobs to the text: worked rows of `work_book`, `collector`, `workers` and
//! `matrix_text`, by their public calls. How the cells of a row are found is in `matrix_tests`.
//!
//! - `book_steps`, `collected`: who computes which row, and the first row of each place.
//! - `rows`: studies of rows (over `ride_networks`).
//! - `runs`: the matrix by several workers, also where their leases are lost, repeated or delayed.
//! - `text`: the matrix as CSV.
#![tactic(auto)]

#[cfg(test)]
mod book_steps;
#[cfg(test)]
mod collected;
#[cfg(test)]
mod ride_networks;
#[cfg(test)]
mod rows;
#[cfg(test)]
mod runs;
#[cfg(test)]
mod text;
