//! Tests of searches from a destination: worked examples of `reversal` and `to_here`, by their public calls.
//!
//! - `mirrored_networks`: mirrored networks by hand (over `small_networks`).
//! - `deadlines`: the deadlines of a destination, walks alone, and the read-out of one start.
//! - `fronts`: the durations of a window by hand, from labels. `rows`: those of several origins.
//! - `searches`: the durations to a destination, by searches from its deadlines and by searches from each origin.
#![tactic(auto)]

#[cfg(test)]
mod deadlines;
#[cfg(test)]
mod fronts;
#[cfg(test)]
mod mirrored_networks;
#[cfg(test)]
mod rows;
#[cfg(test)]
mod searches;
#[cfg(test)]
mod small_networks;
