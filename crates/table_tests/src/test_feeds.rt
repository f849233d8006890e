//! A feed of three stops and two trips for the tests, with and without stations, and what is asserted of feeds and of
//! refusals.

use gtfs_tables::{Feed, FeedBytes, FeedFault, FileName, What, read_feed};
use std::alloc::Global;
use std::process::Abort;

pub(crate) const STOPS: &[u8] = b"stop_id,stop_name\nA,Alpha\nB,Beta\nC,Gamma\n";

pub(crate) const ROUTES: &[u8] = b"route_id,route_type\nR1,3\nR2,3\n";

pub(crate) const CALENDAR: &[u8] =
    b"service_id,monday,tuesday,wednesday,thursday,friday,saturday,sunday,start_date,end_date
MON,1,0,0,0,0,0,0,20260504,20260531
";

pub(crate) const TRIPS: &[u8] = b"route_id,service_id,trip_id\nR1,MON,T1\nR2,MON,T2\n";

pub(crate) const TIMES: &[u8] = b"trip_id,arrival_time,departure_time,stop_id,stop_sequence
T1,08:00:00,08:00:00,A,1
T1,08:10:00,08:10:00,B,2
T2,08:15:00,08:15:00,B,1
T2,08:30:00,08:30:00,C,2
";

pub(crate) const STATIONS: &[u8] =
    b"stop_id,location_type,parent_station\nA,,S\nS,1,\nB,0,S\nC,,\nE,2,S\nT,1,\n";

pub(crate) const TRANSFERS: &[u8] =
    b"from_stop_id,to_stop_id,transfer_type,min_transfer_time\nA,B,2,60\nA,B,3,60\nS,C,,120\nT,C,2,60\nE,C,2,60\n";

/// The small feed: two trips on Mondays in May 2026.
pub(crate) fn small_feed() -> FeedBytes<'static> {
    FeedBytes {
        stops: Some(STOPS),
        routes: Some(ROUTES),
        calendar: Some(CALENDAR),
        calendar_dates: None,
        trips: Some(TRIPS),
        stop_times: Some(TIMES),
        frequencies: None,
        transfers: None,
    }
}

/// The small feed with the station S around its stops A and B, the empty station T, an entrance E, and five rows of
/// `transfers.txt`, of which the first and the third give walks.
pub(crate) fn station_feed() -> FeedBytes<'static> {
    FeedBytes {
        stops: Some(STATIONS),
        transfers: Some(TRANSFERS),
        ..small_feed()
    }
}

/// The small feed with other files for its stops, trips and times.
pub(crate) fn feed_of(
    stops: &'static [u8],
    trips: &'static [u8],
    times: &'static [u8],
) -> FeedBytes<'static> {
    FeedBytes {
        stops: Some(stops),
        trips: Some(trips),
        stop_times: Some(times),
        ..small_feed()
    }
}

/// The feed of the files, none where they have a fault. It stands in a box, so that whoever holds it drops it in one
/// step.
pub(crate) fn feed_in(alloc: Global, files: FeedBytes<'_>) -> Option<Box<Feed>> {
    if !files.fits() {
        return None;
    }
    match read_feed(alloc, &files) {
        Ok(feed) => Box::new(alloc, feed).ok(),
        Err(_) => None,
    }
}

/// Whether the files are read, and this holds of their feed. One function owns the feeds of the tests, so that the drop
/// of one is proved once.
pub(crate) fn reads<F: Fn(&Feed) -> bool>(alloc: Global, holds: F, files: FeedBytes<'_>) -> bool
    requires { F.IsAlwaysCallable holds }
{
    match feed_in(alloc, files) {
        Some(feed) => holds(feed.as_ref()),
        None => false,
    }
}

/// The fault of the files, none where they have none.
pub(crate) fn fault_of(alloc: Global, files: FeedBytes<'_>) -> Option<FeedFault> {
    if !files.fits() {
        return None;
    }
    read_feed(alloc, &files).err()
}

/// The files are refused for this fault.
pub(crate) fn expect_fault(
    rt: &impl Abort,
    alloc: Global,
    files: FeedBytes<'_>,
    file: FileName,
    at: u64,
    what: What,
) {
    let fault = fault_of(alloc, files);
    assert_eq!(rt; fault, Some(FeedFault::at(file, at, what)));
}
