//! Small feeds of May 2026: three stops, two routes, and services on Mondays and on Sundays.

use gtfs_tables::{Feed, FeedBytes, read_feed};
use std::alloc::Global;

pub(crate) const STOPS: &[u8] = b"stop_id,stop_name\nA,Alpha\nB,Beta\nC,Gamma\n";

pub(crate) const ROUTES: &[u8] = b"route_id,route_type\nR1,3\nR2,3\n";

pub(crate) const CALENDAR: &[u8] =
    b"service_id,monday,tuesday,wednesday,thursday,friday,saturday,sunday,start_date,end_date
MON,1,0,0,0,0,0,0,20260504,20260531
SUN,0,0,0,0,0,0,1,20260503,20260531
";

/// A trip of twenty events.
pub(crate) const LONG_TRIP: &[u8] = b"trip_id,arrival_time,departure_time,stop_id,stop_sequence
T1,08:10:00,08:10:00,A,10
T1,08:11:00,08:11:00,A,11
T1,08:12:00,08:12:00,A,12
T1,08:13:00,08:13:00,A,13
T1,08:14:00,08:14:00,A,14
T1,08:15:00,08:15:00,A,15
T1,08:16:00,08:16:00,A,16
T1,08:17:00,08:17:00,A,17
T1,08:18:00,08:18:00,A,18
T1,08:19:00,08:19:00,A,19
T1,08:20:00,08:20:00,A,20
T1,08:21:00,08:21:00,A,21
T1,08:22:00,08:22:00,A,22
T1,08:23:00,08:23:00,A,23
T1,08:24:00,08:24:00,A,24
T1,08:25:00,08:25:00,A,25
T1,08:26:00,08:26:00,A,26
T1,08:27:00,08:27:00,A,27
T1,08:28:00,08:28:00,A,28
T1,08:29:00,08:29:00,A,29
";

/// The files of a feed with these trips, at these times.
pub(crate) fn in_may(trips: &'static [u8], stop_times: &'static [u8]) -> FeedBytes<'static> {
    FeedBytes {
        stops: Some(STOPS),
        routes: Some(ROUTES),
        calendar: Some(CALENDAR),
        calendar_dates: None,
        trips: Some(trips),
        stop_times: Some(stop_times),
        frequencies: None,
        transfers: None,
    }
}

/// The feed of the files, none where they have a fault. It stands in a box, so that whoever holds it drops it in one
/// step.
pub(crate) fn feed_in(alloc: Global, files: FeedBytes<'_>) -> Option<Box<Feed>> {
    if !files.fits() {
        return None;
    }
    match read_feed(alloc, &files) {
        Ok(feed) => Box::new(alloc, feed).ok(),
        Err(_) => None,
    }
}
