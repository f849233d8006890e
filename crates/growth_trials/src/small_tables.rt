//! The small feed and its walks, read; and files of scenarios over it.

use footpaths::{Direct, close, direct, limit_fits};
use gtfs_tables::{Feed, file_fits, read_feed};
use small_feed::{WALKS, small_files};
use std::alloc::Global;
use study_trials::Outcome;
use timetable::Feet;

/// The first Monday on which the trips run.
pub(crate) const MONDAY: &[u8] = b"20260504";

/// The longest walk that is allowed, in seconds: as far as from A to C.
pub(crate) const LIMIT: u32 = 120;

/// Without the second route.
pub(crate) const CUT: &[u8] = b"action,id,seconds
remove_route,R2,
";

/// With the first trip 300 seconds late.
pub(crate) const LATE: &[u8] = b"action,id,seconds
shift_trip,T1,300
";

/// The small feed. None where there is no memory for it; so it is with all inputs of trials. They stand in boxes, so
/// that whoever holds them drops them in one step.
fn small_feed(alloc: Global) -> Option<Box<Feed>> {
    let files = small_files();
    if !files.fits() {
        return None;
    }
    match read_feed(alloc, &files) {
        Ok(feed) => Box::new(alloc, feed).ok(),
        Err(_) => None,
    }
}

/// What comes of trials over the small feed.
pub(crate) fn over_small_feed<F: Fn(&Feed) -> Outcome>(alloc: Global, tried: F) -> Outcome
    requires { F.IsAlwaysCallable tried }
{
    match small_feed(alloc) {
        Some(feed) => tried(feed.as_ref()),
        None => Outcome::Inputs,
    }
}

/// The direct footpaths of the two walks.
pub(crate) fn small_walks(alloc: Global, feed: &Feed) -> Option<Box<Direct>> {
    if !file_fits(Some(WALKS)) {
        return None;
    }
    match direct(alloc, feed, Some(WALKS)) {
        Ok(walks) => Box::new(alloc, walks).ok(),
        Err(_) => None,
    }
}

/// The same, closed.
pub(crate) fn closed_walks(alloc: Global, feed: &Feed) -> Option<Feet> {
    match small_walks(alloc, feed) {
        Some(walks) if limit_fits(LIMIT) => close(alloc, &walks, LIMIT).ok(),
        _ => None,
    }
}
