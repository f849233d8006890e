//! Useful minutes: from an origin, the minutes of a window with first rides that a later minute misses. The others need
//! no search of their own: who departs then and waits for the next useful minute boards the trip of each first ride
//! before it ends, or is as soon there by a walk alone, so that no journey ends later for it.
//!
//! - `marks`: which minutes are useful.
//! - `plan`: [`plan_for`], which minutes are searched, and which of them stands in for each minute.
//! - `counted`: [`count_durations`], the durations of all minutes from narrow labels of the searched ones, eight at a
//!   time in the orders of `eights`.
//! - `waits`: [`fill_in`], the same among wide labels, four at a time in the orders of `orders`.
//! - `walks`: [`walk_alone`], the walks that need no trip.
#![tactic(auto)]

mod counted;
mod eights;
mod marks;
mod orders;
mod plan;
mod waits;
mod walks;

pub use counted::{Found, count_durations};
pub use plan::{MOST_GAP, Plan, SHORT_WINDOW, plan_for};
pub use waits::fill_in;
pub use walks::walk_alone;
