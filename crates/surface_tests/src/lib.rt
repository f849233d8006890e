//! Tests of the surface that other programs are promised: each public name is called once, with its parameters,
//! through the crate that has it (docs/explanation/decisions.md has a table of the calls of `ttm`). A name that is
//! gone, or that wants other parameters, doesn't compile here.
//!
//! - `networks`: `timetable`, `trip_lanes` (`carry_trip` is called in `matrix_tests`), `rounds`, `shares`.
//! - `feeds`, `days`: `gtfs_tables`; `service_days`, `footpaths` and `scenarios`. `small_feeds` has their feed.
//! - `books`, `rows`: `work_book` and `collector`; `workers` and `matrix_text`. `small_studies` has their study.
//! - `whole_studies`: the calls of `ttm`, in `studies` and `command_line`.
//! - `variants`: the variants of each fault and answer, in their order.
#![tactic(auto)]

#[cfg(test)]
mod books;
#[cfg(test)]
mod days;
#[cfg(test)]
mod feeds;
#[cfg(test)]
mod networks;
#[cfg(test)]
mod rows;
#[cfg(test)]
mod small_feeds;
#[cfg(test)]
mod small_studies;
#[cfg(test)]
mod variants;
#[cfg(test)]
mod whole_studies;
