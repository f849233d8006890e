//! Footpaths between stops: the direct ones, as rows of `transfers.txt` and of a file of footpaths give them, and the
//! closed ones, for each pair of stops the least sum over all chains of direct ones, as far as a limit.
//! A walk is one leg of a journey, so chains are closed here once and never again in the rounds.
//!
//! - `direct_list`: [`Direct`], the direct footpaths in the order of their rows, and the change time of each stop.
//! - `walks`: [`direct`], the direct footpaths of a feed and of a file of footpaths, or the first fault;
//!   [`footpath_checks`], what is checked of that file.
//! - `changes`: the change times of a feed's stops.
//! - `pairs`: the pairs of stops that the two ends of a walk give.
//! - `closure`: [`close`], and [`limit_fits`] for its limit.
//! - `adjacency`, `dijkstra`: the direct footpaths by the stop where they begin, and Dijkstra's algorithm along them.
//! - `faults`: [`FootFault`], why footpaths aren't closed.
//! - `laws`: two closures are one, and footpaths that are too many have none.
//!
//! `specs/` says which direct footpaths a feed and a file state, and their faults in order (`Walks`), what a chain and
//! a walking time are (`Chains`), and what closed footpaths are (`Closure`).
#![tactic(auto)]

mod adjacency;
mod changes;
mod closure;
mod dijkstra;
mod direct_list;
mod faults;
mod laws;
mod pairs;
mod walks;

pub use closure::{close, limit_fits};
pub use direct_list::Direct;
pub use faults::FootFault;
pub use laws::{closures_are_unique, too_many_have_no_closure};
pub use walks::{direct, footpath_checks};
