//! What a record of `stops.txt` is.

use timetable::StopNo;

/// A place: what a record of `stops.txt` names. (GTFS Schedule reference, `location_type`.)
///
/// Stops are numbered from 0 in file order, and so are stations.
#[derive(Clone, Copy, Debug, PartialEq, Eq)]
pub enum Place {
    /// Where vehicles stop: `location_type` empty or 0.
    Stop(StopNo),
    /// A station, by its number: `location_type` 1. It stands for the stops whose `parent_station` it is.
    Station(u32),
    /// An entrance, a node within a station or a boarding area, at which no vehicle stops.
    Other,
}
