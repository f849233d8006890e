//! The small feed, which `ttm` carries: on Mondays in May 2026 trip T1 goes from stop A to B, and T2 from B to C. Tests
//! and trials have it with two walks.
#![tactic(auto)]

ghost use Rattle.std.specs.Prelude.{◌≡◌};
ghost use Rattle.gtfs_tables.specs.Files.{AreWithinLimit, files_of};
ghost use Rattle.small_feed.specs.SmallFeed as spec;
ghost use Rattle.small_feed.specs.declared.TheConstants.{FROM_A};

use gtfs_tables::FeedBytes;

/// `stops.txt`.
const STOPS: &[u8] = b"stop_id,stop_name
A,Alpha
B,Beta
C,Gamma
";

/// `routes.txt`.
const ROUTES: &[u8] = b"route_id
R1
R2
";

/// `calendar.txt`.
const CALENDAR: &[u8] =
    b"service_id,monday,tuesday,wednesday,thursday,friday,saturday,sunday,start_date,end_date
MON,1,0,0,0,0,0,0,20260504,20260531
";

/// `trips.txt`.
const TRIPS: &[u8] = b"route_id,service_id,trip_id
R1,MON,T1
R2,MON,T2
";

/// `stop_times.txt`.
const STOP_TIMES: &[u8] = b"trip_id,arrival_time,departure_time,stop_id,stop_sequence
T1,08:00:00,08:00:00,A,1
T1,08:10:00,08:10:00,B,2
T2,08:15:00,08:15:00,B,1
T2,08:30:00,08:30:00,C,2
";

/// Stop A as the only origin.
pub const FROM_A: &[u8] = b"stop_id
A
";

/// A minute's walk from A to B, and one from B to C.
pub const WALKS: &[u8] = b"from_stop_id,to_stop_id,seconds
A,B,60
B,C,60
";

/// A law: the bytes of the origins.
pub fn origins_are_as_stated()
    ensures { FROM_A.now ≡ spec.from_a }
{}

/// The files of the small feed.
pub fn small_files() -> FeedBytes<'static>
    ensures bytes { files_of result ≡ spec.small_feed }
    ensures limit { AreWithinLimit (files_of result) }
{
    FeedBytes {
        stops: Some(STOPS),
        routes: Some(ROUTES),
        calendar: Some(CALENDAR),
        calendar_dates: None,
        trips: Some(TRIPS),
        stop_times: Some(STOP_TIMES),
        frequencies: None,
        transfers: None,
    }
}
