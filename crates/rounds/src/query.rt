//! The input of a search.
use timetable::{Lines, Renumbered, StopNo};

/// A search from `origin` at each of the departures `times`, for journeys of at most `rides` rides.
#[derive(Clone, Copy)]
pub(crate) struct Query<'a> {
    /// The network, with stops by their search numbers.
    pub network: &'a Renumbered<'a>,
    /// The lines of the network.
    pub lines: &'a Lines,
    pub origin: StopNo,
    /// The departures in strictly ascending order, in seconds on the axis.
    pub times: &'a [u32],
    pub rides: u32,
}
