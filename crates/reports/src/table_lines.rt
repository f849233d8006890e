//! What the tables of a study have.

use crate::records::record_count;
use console::{Console, tell_count};
use footpaths::Direct;
use gtfs_tables::Feed;
use std::alloc::Global;
use timetable::StopNo;

/// Tells how much the feed has, with this number of routes, if it is known, and how many direct footpaths there are.
pub(crate) fn tell_feed<C: Console>(
    console: &C,
    alloc: Global,
    feed: &Feed,
    routes: Option<u64>,
    direct: &Direct,
) {
    tell_count(console, alloc, "stops", u64::from(feed.stop_count()));
    if let Some(count) = routes {
        tell_count(console, alloc, "routes", count);
    }
    tell_count(console, alloc, "trips", u64::from(feed.trip_count()));
    tell_count(console, alloc, "trips set aside", u64::from(feed.aside()));
    tell_count(
        console,
        alloc,
        "transfers not used",
        u64::from(feed.unused_transfers()),
    );
    tell_count(
        console,
        alloc,
        "direct footpaths",
        direct.pairs().len() as u64,
    );
}

/// How many routes `routes.txt` has, if it is there: each record but its header is one.
pub(crate) fn route_count(alloc: Global, routes: Option<&[u8]>) -> Option<u64> {
    let records = record_count(alloc, routes?)?;
    Some(records.saturating_sub(1))
}

/// Tells at how many stops journeys begin, and how many have a column of travel times.
pub(crate) fn tell_ends<C: Console>(
    console: &C,
    alloc: Global,
    origins: &[StopNo],
    destinations: &[StopNo],
) {
    tell_count(console, alloc, "origins", origins.len() as u64);
    tell_count(console, alloc, "destinations", destinations.len() as u64);
}
