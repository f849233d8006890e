//! Runs: the instances of trips.

/// One run of a trip of a feed on a service day of a study.
#[derive(Clone, Copy, Debug, PartialEq, Eq)]
pub struct Run {
    /// The trip's number in the feed.
    pub trip: u32,
    /// What is added to the trip's times, in seconds, for those on the axis of the study.
    ///
    /// For a departure of a frequency row, whose first arrival is its first departure, it can be less than 0.
    pub shift: i64,
}
