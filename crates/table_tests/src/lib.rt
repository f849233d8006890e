//! Tests of the tables: worked rows of `table_records`, `table_files`, `trip_events` and `gtfs_tables`, by their public
//! calls.
//!
//! - `records`: records, columns, fields and identifiers.
//! - `calendar`, `calendar_dates`, `feed_trips`, `frequencies`, `places`, `routes`, `stop_times`, `transfers`: one
//!   file each.
//! - `feeds`, `feed_places`, `origins`: whole feeds (`test_feeds`), and an analyst's own files.
//! Files that are refused are data (`tests/program/fault_cases.py`), and so are those past a limit (`test_sizes.py`).
//!
//! - `test_identifiers`: identifiers of trips, stops, routes and services, which several of these are read beside.
#![tactic(auto)]

#[cfg(test)]
mod calendar;
#[cfg(test)]
mod calendar_dates;
#[cfg(test)]
mod feed_places;
#[cfg(test)]
mod feed_trips;
#[cfg(test)]
mod feeds;
#[cfg(test)]
mod frequencies;
#[cfg(test)]
mod origins;
#[cfg(test)]
mod places;
#[cfg(test)]
mod records;
#[cfg(test)]
mod routes;
#[cfg(test)]
mod stop_times;
#[cfg(test)]
mod test_feeds;
#[cfg(test)]
mod test_identifiers;
#[cfg(test)]
mod transfers;
