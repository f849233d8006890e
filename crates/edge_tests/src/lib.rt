//! Tests of the program's edge: what arguments ask for, which line tells a fault, what `reports` tells, and how a study
//! is run, by public calls.
//!
//! - `words`, `numbers`, `help`: what arguments ask for, the numbers that a text lists, and what help and version say.
//! - `fault_lines`, `files`: the line and the status of each fault; files read whole, windows, paths, and lines put
//!   out.
//! - `told_studies`, `told_dates`, `told_faults`: what is told of studies of the small feed, of dates without trips,
//!   and of files with too many records (what is told of other faults is data, `tests/program/fault_cases.py`);
//!   `told_options`, `told_folders`: of options that are refused, and of folders in which a file is missing.
//!   `small_study` and `pages`: the feed, and consoles that keep what is told.
//! - `minute_lines`: the line for one minute of the small feed.
//! - `watched_studies`: by how many workers a study is run, how often each row is begun, and in which order a watch is
//!   told; `gated_studies`: whole texts where leases are lost or repeated.
#![tactic(auto)]

#[cfg(test)]
mod fault_lines;
#[cfg(test)]
mod files;
#[cfg(test)]
mod gated_studies;
#[cfg(test)]
mod help;
#[cfg(test)]
mod minute_lines;
#[cfg(test)]
mod numbers;
#[cfg(test)]
mod pages;
#[cfg(test)]
mod small_study;
#[cfg(test)]
mod told_dates;
#[cfg(test)]
mod told_faults;
#[cfg(test)]
mod told_folders;
#[cfg(test)]
mod told_options;
#[cfg(test)]
mod told_studies;
#[cfg(test)]
mod watched_studies;
#[cfg(test)]
mod words;
