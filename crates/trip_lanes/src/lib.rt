//! Departures side by side: what a trip, a line, walks and changes do to the labels of stops, in each lane as for one
//! departure alone.
//!
//! [`LaneLabels`] are the labels of one stop for departures side by side: [`Lanes`] for sixteen, of 32 bits, and
//! [`NarrowLabels`] of 16 bits, [`Sixteen`], [`Narrow`] for thirty-two and [`FortyEight`]. Where a stop's label falls
//! the stop is marked, so that the next step starts there alone.
//! (RAPTOR, its marked stops and its routes: Delling, Pajor, Werneck, ALENEX 2012.)
//!
//! - `lane_labels`: [`LaneLabels`], over which a search is written once. `lanes`: [`LANES`], why sixteen. `wide`,
//!   `sixteen`, `narrow`, `forty_eight`: the labels of so many lanes. `eights`: eight narrow labels, one register.
//! - `kernels`: [`lower_row`], labels of one stop.
//! - `line_scan`: [`scan_line`], all trips of a line in one pass over its positions.
//! - `columns`: when the trips of a line arrive at one of its positions, and depart. `ranks`: which of them each lane
//!   rides.
//! - `marked_walks`: walks and changes, from marked stops alone.
//! - `falls`: how far the labels of stops fell since lines were last scanned.
//! - `plain`: [`carry_trip`], [`walk`] and [`transfer`], as the definitions have them. They are not on the program's
//!   way: it calls [`scan_line`], [`walk_marked`] and [`transfer_marked`], which do the same with less work.
#![tactic(auto)]

mod columns;
mod eights;
mod falls;
mod forty_eight;
mod kernels;
mod lane_labels;
mod lanes;
mod line_scan;
mod marked_walks;
mod narrow;
mod plain;
mod ranks;
mod sixteen;
mod wide;

pub use falls::{Fall, UNFALLEN};
pub use forty_eight::FortyEight;
pub use kernels::lower_row;
pub use lane_labels::{LaneLabels, NarrowLabels};
pub use lanes::{LANES, Lanes, lanes_are_sixteen};
pub use line_scan::{LineView, ReadyLabels, scan_line};
pub use marked_walks::{transfer_marked, walk_marked};
pub use narrow::Narrow;
pub use plain::{carry_trip, lower_all, transfer, walk};
pub use ranks::Span;
pub use sixteen::Sixteen;
pub use wide::since;
