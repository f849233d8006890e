//! Timetables: stops, trips with their events, footpaths between stops, and networks of all three. A network that was
//! accepted has its stops in range, times that never fall along a trip, and a size within the limits.
//!
//! - `trips`: [`StopNo`], [`Event`], [`Events`] and [`Trip`].
//! - `footpaths`: [`Feet`], at most one footpath from each stop to each other, and the change time of each stop.
//! - `networks`: [`Network`], what journeys are made in. `lines`: [`Lines`], its trips by the way they go; `views` lays
//!   their times out. `serving`: which trips serve a stop. `last_arrivals`: how late rides end. `flat_lists`: lists in
//!   one piece of memory.
//! - `faults`: [`NetFault`], why footpaths or a network were refused.
//! - `limits`: how large all of these may be.
//! - `least`: [`NEVER`], the label of a stop that isn't reached, the law that least durations are unique, and
//!   that they stay when stops are numbered anew.
//! - [`Network::serving`], [`Feet::seconds`] and [`are_stops`]: doors for other programs.
//!
//! `specs/` has the words of every layer above: what a ride, a journey and a least duration are (`Journeys`, `Least`),
//! and what one trip, the footpaths and the change times offer in a round (`RoundSteps`).
#![tactic(auto)]

mod faults;
mod flat_lists;
mod footpaths;
mod last_arrivals;
mod least;
mod limits;
mod lines;
mod networks;
mod numbering;
mod renumbered;
mod serving;
mod trips;
mod views;

pub use faults::NetFault;
pub use flat_lists::FlatLists;
pub use footpaths::Feet;
pub use least::{NEVER, least_durations_are_unique, renumbered_stops_keep_durations};
pub use limits::{
    END_OF_AXIS, MOST_CHANGE_SECONDS, MOST_EVENTS, MOST_FOOT_SECONDS, MOST_FOOTPATHS, MOST_STOPS,
    MOST_TRIPS, limits_are_as_stated,
};
pub use lines::Lines;
pub use networks::Network;
pub use renumbered::{NumberedTrips, Renumbered};
pub use trips::{Event, Events, StopNo, Trip, are_stops};
pub use views::{Call, CallTimes};
