//! The durations from every origin to one destination, for each departure of a window.
//!
//! `reversal` builds the mirrored network and lists the deadlines of a destination. A search over the mirrored network
//! gives each deadline a label for each origin. This crate turns the labels into durations. [`durations_to`] does all of
//! this in one call, and promises the durations of the definition. [`advance_row`] takes the labels of a slice of
//! deadlines, however they were searched.
//!
//! # Terms
//!
//! - *Deadline*, *label*, *served*: as in `reversal`.
//! - *Front* of an origin: the number of departures that the searched deadlines serve. These are the first departures
//!   of the window, since a traveller who starts earlier is never later. As deadlines ascend, the front only grows, and a
//!   departure that it passes gets its duration once and for all.
//! - *Last front*: the front of a search from a time that no deadline is later than. Once an origin has reached it, no
//!   further deadline serves any of its departures.
//!
//! # Modules, in reading order
//!
//! - `search`: [`durations_to`], the whole search, where [`fits_horizon`] allows it.
//! - `row`: all origins. [`begin_row`], then [`advance_row`] for slices of deadlines until [`is_row_full`], then
//!   [`finish_row`], whose contract says that the durations are the least ones.
//! - `front`: one origin, by [`front_of`], [`no_durations`], [`advance`] and [`lower_to_walk`].
//! - `laws`: [`fronts_give_durations`]; [`full_fronts_are_enough`], when a search may stop; and [`cut_labels_suffice`],
//!   which labels a search has to give.
#![tactic(auto)]

mod front;
mod laws;
mod row;
mod search;

pub use front::{advance, front_of, lower_to_walk, no_durations};
pub use laws::{cut_labels_suffice, fronts_give_durations, full_fronts_are_enough};
pub use row::{OriginDurations, advance_row, begin_row, finish_row, is_row_full, last_fronts};
pub use search::{NetworkPair, durations_to, fits_horizon};
