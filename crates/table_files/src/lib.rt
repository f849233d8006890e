//! The files of a feed but `stop_times.txt`, one module for each: what their records say, or the first fault among
//! them. (GTFS Schedule reference: `stops.txt`, `routes.txt`, `calendar.txt`, `calendar_dates.txt`, `trips.txt`,
//! `frequencies.txt`, `transfers.txt`.)
//!
//! - [`read_places`] gives the stops, stations and other places, and the stops of each station.
//! - [`read_routes`] gives the identifiers of the routes, and [`read_feed_trips`] the trips with their routes and
//!   services.
//! - [`read_calendar`] and [`read_calendar_dates`] give the days of the services.
//! - [`read_frequencies`] gives the departures of the trips that run at a headway.
//! - [`read_transfers`] gives the walks between stops and stations.
//!
//! `children` and `ends` say which stops a place stands for. `trip_events` reads `stop_times.txt`. `specs/` has one
//! module per file, with its checks in their order.
#![tactic(auto)]

mod calendar;
mod calendar_dates;
mod children;
mod days;
mod ends;
mod feed_trips;
mod frequencies;
mod place;
mod places;
mod routes;
mod services;
mod transfers;

pub use calendar::{Calendar, CalendarRow, calendar_checks, read_calendar};
pub use calendar_dates::{CalendarDates, ExceptionRow, calendar_date_checks, read_calendar_dates};
pub use children::Children;
pub use ends::Ends;
pub use feed_trips::{FeedTrips, TripNumbers, feed_trip_checks, read_feed_trips};
pub use frequencies::{Departures, frequency_checks, no_departures, read_frequencies};
pub use place::Place;
pub use places::{Places, place_checks, read_places};
pub use routes::{read_routes, route_checks};
pub use transfers::{Link, Transfers, read_transfers, transfer_checks};
