//! Service days: on which days the services of a feed run, and the trips that run on the days of a study.
//!
//! - `services`: [`runs`], whether a service runs on a date.
//! - `instances`: [`active`], the [`Run`]s of a study, which `run_list` counts and keeps; `departures` are those of
//!   `frequencies.txt`, and `day` is a day of the study.
//! - `fault`: [`DayFault`], why there are none.
//!
//! Where the rules come from: the GTFS Schedule reference for `calendar.txt`, `calendar_dates.txt` and
//! `frequencies.txt`. `specs/Services` says on which days a service runs, `specs/Instances` which runs there are, and
//! in which order.
#![tactic(auto)]

mod day;
mod departures;
mod fault;
mod instances;
mod run;
mod run_list;
mod services;

pub use fault::DayFault;
pub use instances::active;
pub use run::Run;
pub use run_list::{MOST_RUNS, limits_are_as_stated};
pub use services::runs;
