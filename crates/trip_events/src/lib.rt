//! The events of each trip, as `stop_times.txt` states them. (GTFS Schedule reference, `stop_times.txt`.)
//!
//! - `stop_times`: [`read_stop_times`] gives the events of each trip, in the order in which they take place, or the
//!   first fault; `likely` is what a record is likely to name, and `numbers` reads numbers of a digit or two.
//! - `trip_times`: the records of one trip, in order; `order`: [`one_order`], there is one.
//! - `whole_trips`: what is checked once all records of a trip are known, and which trips are set aside.
//! - `fill`: when an event without a time takes place.
//!
//! `table_files` reads the other files of a feed.
#![tactic(auto)]

mod fill;
mod likely;
mod numbers;
mod order;
mod stop_times;
mod trip_times;
mod whole_trips;

pub use order::one_order;
pub use stop_times::{read_stop_times, stop_time_checks};
pub use trip_times::{StopTime, VisitTimes};
pub use whole_trips::StopTimes;
