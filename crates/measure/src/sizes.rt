//! How much was made.
ghost use Rattle.std.specs.Prelude.{◌≡◌, length};

use gtfs_tables::Feed;
use timetable::{Feet, StopNo};

/// How many stop events the trips of a feed have.
pub(crate) fn event_count(feed: &Feed) -> u64 {
    let mut events: u64 = 0;
    for trip in 0..feed.trip_count() {
        let of_trip = feed.trip(trip).events.as_slice().len();
        events = events.saturating_add(of_trip as u64);
    }
    events
}

/// How many pairs of stops the closed footpaths join.
pub(crate) fn pair_count(feet: &Feet) -> u64 {
    let mut pairs: u64 = 0;
    for stop in 0..feet.stops() {
        let from_stop = feet.leaving(StopNo(stop)).len();
        pairs = pairs.saturating_add(from_stop as u64);
    }
    pairs
}
