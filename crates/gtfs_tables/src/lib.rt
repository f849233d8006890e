//! The tables of a GTFS feed, from the bytes of its files to the data that they state, or to their first fault.
//! (GTFS Schedule reference, the files from `stops.txt` to `transfers.txt`.)
//!
//! [`read_feed`] takes the files as [`FeedBytes`] and gives a [`Feed`]: stops, routes, services and trips by number,
//! each trip a [`FeedTrip`] with its events, the rows of both calendars, the [`Place`]s of `stops.txt` with the
//! stops of each station, and each walk of `transfers.txt` as a [`Link`] between two places. A refusal is a
//! [`FeedFault`]: which file, which record, and what is wrong with it.
//!
//! [`read_origins`], [`read_opportunities`] and [`read_destinations`] read the files of an analysis that name stops of
//! the feed: where journeys begin, how much there is to reach at each stop, and which stops have a column of cells.
//! None of them is part of GTFS, and each may be absent.
//!
//! - `feed_bytes`: the files' bytes; `read` and `catalog` read them, `feed` and `trip` are what they say.
//! - `origins` and `opportunities` read an analysis' own files, with `named_stops`.
//!
//! `specs/Files` says what the files state and which fault comes first, `specs/Feed` what is true of every feed.
//! `specs/Origins` and `specs/Opportunities` say the same of their files. How the single files are read is in the
//! crates `table_files` and `trip_events`, and how their fields are in `table_records`.
#![tactic(auto)]

mod catalog;
mod feed;
mod feed_bytes;
mod named_stops;
mod opportunities;
mod origins;
mod read;
mod trip;

pub use feed::Feed;
pub use feed_bytes::{FeedBytes, file_fits};
pub use opportunities::{opportunity_checks, read_opportunities};
pub use origins::{origin_checks, read_destinations, read_origins};
pub use read::read_feed;
pub use table_files::{
    CalendarRow, Departures, Ends, ExceptionRow, Link, Place, calendar_checks,
    calendar_date_checks, feed_trip_checks, frequency_checks, place_checks, route_checks,
    transfer_checks,
};
pub use table_records::{
    Check, Checks, FeedFault, FileName, MOST_BYTES, Rule, What, read_date, read_time,
};
pub use trip::{DepartureList, FeedTrip, TripId};
pub use trip_events::stop_time_checks;
