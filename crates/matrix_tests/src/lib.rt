//! Tests of the way from a network to the cells of a matrix: worked rows of `timetable`, `trip_lanes`, `rounds` and
//! `shares`, by their public calls. Rows, and the matrix that they make up, are in `row_tests`.
//!
//! - `networks`, `durations`, `changes`, `cells`: networks, the least durations over them, also with change times, and
//!   their shares (over `small_networks`).
//! - `horizons`: durations that narrow labels can't tell, and windows that are no whole batches.
//! - `lanes`: trips, lines, walks and changes, sixteen or thirty-two departures at a time.
//! - `lane_rows`: what narrow labels do in rows of sixteen and of forty-eight.
//! - `windows`: the durations of a window beside those of each of its minutes, and one search for several networks.
//! - `latest_first`: departures at any times, batch by batch from the latest, compared with each departure alone.
#![tactic(auto)]

#[cfg(test)]
mod cells;
#[cfg(test)]
mod changes;
#[cfg(test)]
mod durations;
#[cfg(test)]
mod horizons;
#[cfg(test)]
mod lane_rows;
#[cfg(test)]
mod lanes;
#[cfg(test)]
mod latest_first;
#[cfg(test)]
mod networks;
#[cfg(test)]
mod small_networks;
#[cfg(test)]
mod windows;
