//! What is read of a feed: its stops, routes, services, calendars and trips.

use crate::test_feeds::{STOPS, TIMES, TRIPS, feed_of, reads, small_feed};
use gtfs_tables::{
    CalendarRow, Departures, ExceptionRow, Feed, FeedBytes, FeedTrip, read_date, read_time,
};
use timetable::{Event, StopNo};

/// Whether a feed has the stops, routes, services and the two trips of the small feed, in seconds.
fn is_small(feed: &Feed) -> bool {
    has_three_stops(feed)
        && feed.route_no(b"R2") == Some(1)
        && feed.route_no(b"R3") == None
        && feed.service_count() == 1
        && feed.service_no(b"MON") == Some(0)
        && feed.service_no(b"mon") == None
        && feed.aside() == 0
        && has_two_trips(feed)
}

fn has_three_stops(feed: &Feed) -> bool {
    feed.stop_count() == 3
        && has_stop(feed, 0, b"A")
        && has_stop(feed, 2, b"C")
        && feed.stop_no(b"B") == Some(StopNo(1))
        && feed.stop_no(b"Z") == None
}

/// Whether the stop of a number has this identifier.
fn has_stop(feed: &Feed, stop: u32, id: &[u8]) -> bool {
    stop < feed.stop_count() && feed.stop_id(StopNo(stop)) == id
}

fn has_two_trips(feed: &Feed) -> bool {
    feed.trip_count() == 2
        && feed.trip_no(b"T1") == Some(0)
        && feed.trip_no(b"T2") == Some(1)
        && feed.trip_no(b"T3") == None
        && is_trip(feed.trip(0), b"T1", 0, &[at(0, 28_800), at(1, 29_400)])
        && is_trip(feed.trip(1), b"T2", 1, &[at(1, 29_700), at(2, 30_600)])
}

/// Whether a trip of the first service has this identifier, route and events.
fn is_trip(trip: &FeedTrip, id: &[u8], route: u32, events: &[Event]) -> bool {
    trip.id.as_slice() == id
        && trip.route == route
        && trip.service == 0
        && trip.events.as_slice() == events
}

/// A stay of no length at a stop, where travellers may board and alight.
fn at(stop: u32, time: u32) -> Event {
    Event {
        stop: StopNo(stop),
        arrive: time,
        depart: time,
        board: true,
        alight: true,
    }
}

/// Whether a feed has the calendar of the small feed, no exceptions, and a first trip without departures of its own.
fn runs_on_mondays(feed: &Feed) -> bool {
    let rows = feed.calendar();
    feed.trip_count() > 0
        && feed.trip(0).departures.as_slice().is_empty()
        && feed.exceptions().is_empty()
        && rows.len() == 1
        && is_every_monday(&rows[0])
}

/// Whether a row is that of the first service on Mondays in May 2026.
fn is_every_monday(row: &CalendarRow) -> bool {
    row.service == 0
        && row.days == [true, false, false, false, false, false, false]
        && Some(row.first) == read_date(b"20260504")
        && Some(row.last) == read_date(b" 20260531 ")
}

fn is_small_on_mondays(feed: &Feed) -> bool {
    is_small(feed) && runs_on_mondays(feed)
}

/// `read_feed`.
#[test]
fn reads_a_feed(rt: HostRuntime) {
    assert!(rt; reads(rt.alloc(), is_small_on_mondays, small_feed()));
}

/// Whether a feed is the small one, with one row of each calendar, and one row of departures of its second trip.
fn has_calendars_and_departures(feed: &Feed) -> bool {
    is_small(feed)
        && feed.calendar().len() == 1
        && feed.exceptions().len() == 1
        && feed.trip_count() == 2
        && feed.trip(1).departures.as_slice().len() == 1
}

/// `read_feed`.
#[test]
fn takes_byte_order_marks_and_carriage_returns(rt: HostRuntime) {
    let files = FeedBytes {
        stops: Some(b"\xef\xbb\xbfstop_id,stop_name\r\nA,Alpha\r\nB,Beta\r\nC,Gamma\r\n"),
        routes: Some(b"\xef\xbb\xbfroute_id,route_type\r\nR1,3\r\nR2,3\r\n"),
        calendar: Some(
            b"\xef\xbb\xbfservice_id,monday,tuesday,wednesday,thursday,friday,saturday,sunday,start_date,end_date\r\n\
            MON,1,0,0,0,0,0,0,20260504,20260531\r\n",
        ),
        calendar_dates: Some(b"\xef\xbb\xbfservice_id,date,exception_type\r\nMON,20260518,2\r\n"),
        trips: Some(b"\xef\xbb\xbfroute_id,service_id,trip_id\r\nR1,MON,T1\r\nR2,MON,T2\r\n"),
        stop_times: Some(
            b"\xef\xbb\xbftrip_id,arrival_time,departure_time,stop_id,stop_sequence\r\n\
            T1,08:00:00,08:00:00,A,1\r\n\
            T1,08:10:00,08:10:00,B,2\r\n\
            T2,08:15:00,08:15:00,B,1\r\n\
            T2,08:30:00,08:30:00,C,2\r\n",
        ),
        frequencies: Some(
            b"\xef\xbb\xbftrip_id,start_time,end_time,headway_secs\r\nT2,08:00:00,09:00:00,600\r\n",
        ),
        transfers: None,
    };
    assert!(rt; reads(rt.alloc(), has_calendars_and_departures, files));
}

/// `read_feed`.
#[test]
fn puts_records_in_order_of_sequence(rt: HostRuntime) {
    let times = b"stop_sequence,stop_id,departure_time,arrival_time,trip_id
 12 ,C, 8:30:00,08:30:00 ,T2
0010,B,08:10:00,8:10:00,T1
3,B,08:15:00,08:15:00,T2
9,A,08:00:00,08:00:00,T1
";
    assert!(rt; reads(rt.alloc(), is_small, feed_of(STOPS, TRIPS, times)));
}

/// `read_feed`.
#[test]
fn counts_stops_alone(rt: HostRuntime) {
    let stops = b"location_type,stop_id\n1,S\n,A\n0,B\n2,E\n00,C\n";
    assert!(rt; reads(rt.alloc(), is_small, feed_of(stops, TRIPS, TIMES)));
}

/// The small feed with services that calendar_dates.txt and trips.txt name.
fn three_services() -> FeedBytes<'static> {
    FeedBytes {
        calendar_dates: Some(b"service_id,date,exception_type\nSAT,20260509,1\nMON,20260518,2\n"),
        trips: Some(b"trip_id,service_id,route_id\nT1,NEW,R2\nT2,SAT,R2\n"),
        ..small_feed()
    }
}

fn has_three_services(feed: &Feed) -> bool {
    feed.service_count() == 3
        && feed.service_no(b"MON") == Some(0)
        && feed.service_no(b"SAT") == Some(1)
        && feed.service_no(b"NEW") == Some(2)
}

/// `read_feed`.
#[test]
fn services_are_numbered_as_first_named(rt: HostRuntime) {
    assert!(rt; reads(rt.alloc(), has_three_services, three_services()));
}

/// Whether two trips of the second route run on the third and the second service.
fn has_trips_of_services(feed: &Feed) -> bool {
    feed.trip_count() == 2 && runs_on(feed, 0, 1, 2) && runs_on(feed, 1, 1, 1)
}

/// Whether a trip is of this route and runs on this service.
fn runs_on(feed: &Feed, trip: u32, route: u32, service: u32) -> bool {
    if trip >= feed.trip_count() {
        return false;
    }
    let trip = feed.trip(trip);
    trip.route == route && trip.service == service
}

/// `read_feed`.
#[test]
fn trips_have_routes_and_services(rt: HostRuntime) {
    assert!(rt; reads(rt.alloc(), has_trips_of_services, three_services()));
}

/// Whether a date is added to the second service, and then one removed from the first.
fn has_two_exceptions(feed: &Feed) -> bool {
    let rows = feed.exceptions();
    rows.len() == 2 && is_exception(&rows[0], 1, true) && is_exception(&rows[1], 0, false)
}

/// Whether a row adds its date to this service, or removes it from it.
fn is_exception(row: &ExceptionRow, service: u32, adds: bool) -> bool {
    row.service == service && row.adds == adds
}

/// `read_feed`.
#[test]
fn exceptions_have_services(rt: HostRuntime) {
    assert!(rt; reads(rt.alloc(), has_two_exceptions, three_services()));
}

/// Whether a feed is the small one but for its days: no row of the first calendar, and one exception.
fn has_one_exception(feed: &Feed) -> bool {
    is_small(feed) && feed.calendar().is_empty() && feed.exceptions().len() == 1
}

/// `read_feed`.
#[test]
fn one_calendar_is_enough(rt: HostRuntime) {
    let files = FeedBytes {
        calendar: None,
        calendar_dates: Some(b"service_id,date,exception_type\nMON,20260504,1\n"),
        ..small_feed()
    };
    assert!(rt; reads(rt.alloc(), has_one_exception, files));
}

/// Whether the second trip of the small feed departs every ten minutes from eight to nine, and then never, and the
/// first has no departures.
fn has_departures(feed: &Feed) -> bool {
    let early = Departures {
        start: 28_800,
        end: 32_400,
        headway: 600,
    };
    let never = Departures {
        start: 43_200,
        end: 39_600,
        headway: 1,
    };
    is_small(feed) && departs(feed, 0, &[]) && departs(feed, 1, &[early, never])
}

/// Whether a trip has these rows of departures.
fn departs(feed: &Feed, trip: u32, rows: &[Departures]) -> bool {
    trip < feed.trip_count() && feed.trip(trip).departures.as_slice() == rows
}

/// `read_feed`.
#[test]
fn departures_of_each_trip(rt: HostRuntime) {
    let files = FeedBytes {
        frequencies: Some(
            b"trip_id,start_time,end_time,headway_secs,exact_times
T2,08:00:00,09:00:00,600,1
T2,12:00:00,11:00:00,1,0
",
        ),
        ..small_feed()
    };
    assert!(rt; reads(rt.alloc(), has_departures, files));
}

fn is_empty(feed: &Feed) -> bool {
    feed.stop_count() == 0 && feed.service_count() == 0 && feed.trip_count() == 0
}

/// `read_feed`.
#[test]
fn an_empty_feed(rt: HostRuntime) {
    let files = FeedBytes {
        routes: Some(b"route_id\n"),
        calendar: None,
        calendar_dates: Some(b"service_id,date,exception_type\n"),
        frequencies: Some(b"trip_id,start_time,end_time,headway_secs\n"),
        ..feed_of(
            b"stop_id\n",
            b"route_id,service_id,trip_id\n",
            b"trip_id,stop_id,stop_sequence\n",
        )
    };
    assert!(rt; reads(rt.alloc(), is_empty, files));
}

/// `read_time`, `read_date`.
#[test]
fn times_and_dates_of_texts(rt: HostRuntime) {
    assert!(rt; read_time(b" 167:59:59 ") == Some(604_799));
    assert!(rt; read_date(b"20260230").is_none());
}

/// Whether the first of two trips is set aside, and has no events, and the second has two.
fn has_one_aside(feed: &Feed) -> bool {
    feed.aside() == 1
        && feed.trip_count() == 2
        && has_events(feed, 0, &[])
        && has_events(feed, 1, &[at(1, 29_700), at(2, 30_600)])
}

/// Whether a trip has these events.
fn has_events(feed: &Feed, trip: u32, events: &[Event]) -> bool {
    trip < feed.trip_count() && feed.trip(trip).events.as_slice() == events
}

/// `read_feed`.
#[test]
fn trips_with_a_record_of_no_stop_are_set_aside(rt: HostRuntime) {
    let times = b"trip_id,arrival_time,departure_time,stop_id,stop_sequence
T1,08:00:00,08:00:00,A,1
T1,,,,2
T2,08:15:00,08:15:00,B,1
T2,08:30:00,08:30:00,C,2
";
    assert!(rt; reads(rt.alloc(), has_one_aside, feed_of(STOPS, TRIPS, times)));
}

/// Whether the first of two trips has three events, with a time between, of which each forbids boarding or alighting.
fn has_open_times(feed: &Feed) -> bool {
    let mut first = at(0, 32_400);
    first.alight = false;
    let mut second = at(1, 32_700);
    second.board = false;
    let mut third = at(2, 33_000);
    third.alight = false;
    feed.trip_count() == 2 && has_events(feed, 0, &[first, second, third])
}

/// `read_feed`.
#[test]
fn open_times_and_pickups(rt: HostRuntime) {
    let times =
        b"trip_id,arrival_time,departure_time,stop_id,stop_sequence,pickup_type,drop_off_type
T1,09:00:00,,A,1,,1
T1,,,B,2,1,0
T1,,09:10:00,C,3,2,01
";
    assert!(rt; reads(rt.alloc(), has_open_times, feed_of(STOPS, TRIPS, times)));
}
