//! Tests of the days, footpaths and scenarios of a feed, and of a network's lines: worked rows of `service_days`,
//! `footpaths`, `scenarios` and `timetable`, by their public calls, over `small_feeds`.
//!
//! - `direct_footpaths`, `closed_footpaths`: the footpaths that rows state, and the least sums over chains of them.
//! - `lines`: which trips share a line, how its events lie, and which trips serve a stop.
//! - `refusals`: what comes back of footpaths and trips that are refused.
//! - `runs`: which trips run on which days.
//! - `scenario_files`, `scenario_networks`: what a scenario's file says, and the network that it leaves.
#![tactic(auto)]

#[cfg(test)]
mod closed_footpaths;
#[cfg(test)]
mod direct_footpaths;
#[cfg(test)]
mod lines;
#[cfg(test)]
mod refusals;
#[cfg(test)]
mod runs;
#[cfg(test)]
mod scenario_files;
#[cfg(test)]
mod scenario_networks;
#[cfg(test)]
mod small_feeds;
