//! A feed with a record of each kind: a station with two stops, a trip that is set aside, departures by headway, and
//! transfers.

use gtfs_tables::{Feed, FeedBytes, read_feed};
use std::alloc::Global;

const STOPS: &[u8] = b"stop_id,location_type,parent_station\nA,,\nS,1,\nB,0,S\nC,,S\nE,2,\n";

const CALENDAR: &[u8] =
    b"service_id,monday,tuesday,wednesday,thursday,friday,saturday,sunday,start_date,end_date
MON,1,0,0,0,0,0,0,20260504,20260531
";

const STOP_TIMES: &[u8] = b"trip_id,arrival_time,departure_time,stop_id,stop_sequence
T1,08:00:00,08:00:00,A,1
T1,08:10:00,08:10:00,B,2
T2,08:15:00,08:15:00,,1
T2,08:30:00,08:30:00,C,2
";

const TRANSFERS: &[u8] = b"from_stop_id,to_stop_id,transfer_type,min_transfer_time
A,S,2,60
B,B,2,120
A,B,3,
";

/// The files of the feed.
pub(crate) fn files() -> FeedBytes<'static> {
    FeedBytes {
        stops: Some(STOPS),
        routes: Some(b"route_id\nR1\nR2\n"),
        calendar: Some(CALENDAR),
        calendar_dates: Some(b"service_id,date,exception_type\nMON,20260505,1\n"),
        trips: Some(b"route_id,service_id,trip_id\nR1,MON,T1\nR2,MON,T2\n"),
        stop_times: Some(STOP_TIMES),
        frequencies: Some(b"trip_id,start_time,end_time,headway_secs\nT1,08:00:00,09:00:00,1800\n"),
        transfers: Some(TRANSFERS),
    }
}

/// The feed. It stands in a box, so that whoever holds it drops it in one step.
pub(crate) fn feed(alloc: Global) -> Option<Box<Feed>> {
    let files = files();
    if !files.fits() {
        return None;
    }
    match read_feed(alloc, &files) {
        Ok(feed) => Box::new(alloc, feed).ok(),
        Err(_) => None,
    }
}
