//! How far the labels of stops fell.
use timetable::NEVER;

/// How far the labels of a stop fell, over the lanes in which they fell.
#[derive(Clone, Copy, Debug, PartialEq, Eq)]
pub struct Fall {
    /// The least label that they fell to.
    pub low: u32,
    /// The greatest label that they fell to.
    pub high: u32,
    /// The greatest label that they fell from.
    pub top: u32,
}

/// Where no label fell.
pub const UNFALLEN: Fall = Fall {
    low: NEVER,
    high: 0,
    top: 0,
};
