//! `gtfs_tables`: the readers of a feed and of an analyst's own files.

use crate::small_feeds::{feed, files};
use gtfs_tables::{
    CalendarRow, DepartureList, Departures, ExceptionRow, Feed, FeedBytes, FeedFault, FeedTrip,
    FileName, Link, Place, TripId, What, read_date, read_feed, read_opportunities, read_origins,
    read_time,
};
use jiff::civil::Date;
use std::alloc::Global;
use std::test::Fail;
use timetable::{Event, StopNo};

/// Whether each name has its number, and each number its name.
fn has_its_numbers(feed: &Feed) -> bool {
    if feed.stop_count() != 3 || feed.trip_count() != 2 {
        return false;
    }
    let id: &[u8] = feed.stop_id(StopNo(1));
    id == b"B".as_slice()
        && feed.stop_no(b"C") == Some(StopNo(2))
        && feed.trip_no(b"T2") == Some(1)
        && feed.route_no(b"R2") == Some(1)
        && feed.service_no(b"MON") == Some(0)
}

/// `Feed::stop_count`, `stop_id`, `stop_no`, `trip_count`, `trip_no`, `route_no`, `service_no`.
#[test]
fn numbers(rt: HostRuntime) {
    let is_right = match feed(rt.alloc()) {
        Some(feed) => has_its_numbers(feed.as_ref()),
        None => false,
    };
    assert!(rt; is_right);
}

/// Whether the first trip is that of the feed, and the other is set aside.
fn has_its_trips(feed: &Feed) -> bool {
    if feed.trip_count() != 2 || feed.aside() != 1 {
        return false;
    }
    let trip: &FeedTrip = feed.trip(0);
    let events: &[Event] = trip.events.as_slice();
    let every_half_hour = Departures {
        start: 28_800,
        end: 32_400,
        headway: 1_800,
    };
    (trip.route, trip.service) == (0, 0)
        && trip.id.as_slice() == b"T1".as_slice()
        && events.len() == 2
        && trip.departures.as_slice() == [every_half_hour].as_slice()
}

/// `Feed::trip`, `aside`.
#[test]
fn trips(rt: HostRuntime) {
    let is_right = match feed(rt.alloc()) {
        Some(feed) => has_its_trips(feed.as_ref()),
        None => false,
    };
    assert!(rt; is_right);
}

/// Whether the row is that of the Mondays of May.
fn is_of_mondays(row: &CalendarRow, first: Date, last: Date) -> bool {
    let days: [bool; 7] = row.days;
    row.service == 0
        && days == [true, false, false, false, false, false, false]
        && row.first == first
        && row.last == last
}

/// Whether both calendars have their row.
fn has_its_calendars(feed: &Feed) -> bool {
    let weekly: &[CalendarRow] = feed.calendar();
    let single: &[ExceptionRow] = feed.exceptions();
    match (
        read_date(b"20260504"),
        read_date(b"20260531"),
        read_date(b"20260505"),
    ) {
        (Some(first), Some(last), Some(added)) => {
            weekly.len() == 1
                && is_of_mondays(&weekly[0], first, last)
                && single.len() == 1
                && (single[0].service, single[0].adds) == (0, true)
                && single[0].date == added
        }
        _ => false,
    }
}

/// `Feed::calendar`, `exceptions`; `read_date`.
#[test]
fn calendars(rt: HostRuntime) {
    let is_right = match feed(rt.alloc()) {
        Some(feed) => has_its_calendars(feed.as_ref()),
        None => false,
    };
    assert!(rt; is_right);
}

/// The first row of the transfers, and the second, which gives a stop a change time.
const LINKS: [Link; 2] = [
    Link {
        origin: Place::Stop(StopNo(0)),
        target: Place::Station(0),
        seconds: 60,
        at: 2,
        changes: false,
    },
    Link {
        origin: Place::Stop(StopNo(1)),
        target: Place::Stop(StopNo(1)),
        seconds: 120,
        at: 3,
        changes: true,
    },
];

/// Whether places are what they are, and the transfers lead between them.
fn has_its_places(feed: &Feed) -> bool {
    let links: &[Link] = feed.links();
    let children: &[StopNo] = match feed.place(b"S") {
        Some(Place::Station(station)) => feed.children(station),
        _ => &[],
    };
    feed.place(b"B") == Some(Place::Stop(StopNo(1)))
        && feed.place(b"E") == Some(Place::Other)
        && feed.place(b"Z") == None
        && children == [StopNo(1), StopNo(2)].as_slice()
        && links == LINKS.as_slice()
        && feed.unused_transfers() == 1
}

/// `Feed::place`, `children`, `links`, `unused_transfers`.
#[test]
fn places(rt: HostRuntime) {
    let is_right = match feed(rt.alloc()) {
        Some(feed) => has_its_places(feed.as_ref()),
        None => false,
    };
    assert!(rt; is_right);
}

/// `read_feed`.
#[test]
fn faults(rt: HostRuntime) {
    let files = FeedBytes {
        routes: None,
        ..files()
    };
    let lacking = FeedFault {
        file: FileName::Routes,
        at: 0,
        what: What::MissingFile,
    };
    if files.fits() {
        match read_feed(rt.alloc(), &files) {
            Ok(_) => assert!(rt; false),
            Err(fault) => assert!(rt; fault == lacking),
        }
    }
}

/// Whether the analyst's own files are read.
fn reads_own_files(alloc: Global, feed: &Feed) -> bool {
    let origins: Result<Vec<StopNo>, FeedFault> = read_origins(alloc, Some(b"stop_id\nB\n"), feed);
    let opportunities: Result<Vec<u32>, FeedFault> = read_opportunities(
        alloc,
        Some(b"stop_id,opportunities\nC,5\n"),
        feed,
    );
    match (origins, opportunities) {
        (Ok(origins), Ok(opportunities)) => {
            origins.as_slice() == [StopNo(1)].as_slice()
                && opportunities.as_slice() == [0, 0, 5].as_slice()
        }
        _ => false,
    }
}

/// `read_origins`, `read_opportunities`.
#[test]
fn own_files(rt: HostRuntime) {
    match feed(rt.alloc()) {
        Some(feed) => assert!(rt; reads_own_files(rt.alloc(), &feed)),
        None => assert!(rt; false),
    }
}

/// `read_time`.
#[test]
fn times(rt: HostRuntime) {
    assert!(rt; read_time(b"08:00:00") == Some(28_800));
}

/// `TripId::into_vec`, `DepartureList::into_vec`.
#[test]
fn vectors_come_back(rt: HostRuntime) -> Result<(), Fail> {
    let id: Vec<u8> = TripId::new(Vec::from_slice(rt.alloc(), b"T1")?).into_vec();
    assert!(rt; id.as_slice() == b"T1".as_slice());
    let row = Departures {
        start: 0,
        end: 60,
        headway: 20,
    };
    let list: Vec<Departures> = DepartureList::new(vec![in rt.alloc(); row]?).into_vec();
    assert!(rt; list.as_slice() == [row].as_slice());
    Ok(())
}
