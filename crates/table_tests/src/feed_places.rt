//! The places of a feed and the walks between them: `location_type`, `parent_station` and `transfers.txt`.

use crate::test_feeds::{expect_fault, reads, small_feed, station_feed};
use gtfs_tables::{Feed, FeedBytes, FileName, Link, Place, What};
use timetable::StopNo;

/// A file whose third record names a stop that `stops.txt` hasn't.
const UNKNOWN: &[u8] =
    b"from_stop_id,to_stop_id,transfer_type,min_transfer_time\nA,B,2,60\nA,Z,2,60\n";

/// Whether an identifier is that of a station with these children.
fn has_children(feed: &Feed, id: &[u8], stops: &[StopNo]) -> bool {
    match feed.place(id) {
        Some(Place::Station(station)) => feed.children(station) == stops,
        _ => false,
    }
}

/// Whether a place stands for these stops.
fn stands_for(feed: &Feed, id: &[u8], stops: &[StopNo]) -> bool {
    match feed.place(id) {
        Some(place) => feed.stops_at(place).as_slice() == stops,
        None => false,
    }
}

/// Whether each of six identifiers is that of its place.
fn has_places(feed: &Feed) -> bool {
    feed.place(b"A") == Some(Place::Stop(StopNo(0)))
        && feed.place(b"B") == Some(Place::Stop(StopNo(1)))
        && feed.place(b"S") == Some(Place::Station(0))
        && feed.place(b"T") == Some(Place::Station(1))
        && feed.place(b"E") == Some(Place::Other)
        && feed.place(b"Z") == None
}

/// `read_feed`.
#[test]
fn a_place_is_a_stop_a_station_or_another(rt: HostRuntime) {
    assert!(rt; reads(rt.alloc(), has_places, station_feed()));
}

/// Whether the station S has the children A and B, T has none, and A is no station.
fn has_stations(feed: &Feed) -> bool {
    has_children(feed, b"S", &[StopNo(0), StopNo(1)])
        && has_children(feed, b"T", &[])
        && !has_children(feed, b"A", &[])
}

/// `read_feed`.
#[test]
fn a_station_between_its_children_has_both(rt: HostRuntime) {
    assert!(rt; reads(rt.alloc(), has_stations, station_feed()));
}

/// Whether the station S, the stop C and the entrance E stand for their stops.
fn has_stops_of_places(feed: &Feed) -> bool {
    stands_for(feed, b"S", &[StopNo(0), StopNo(1)])
        && stands_for(feed, b"C", &[StopNo(2)])
        && stands_for(feed, b"E", &[])
}

/// `read_feed`.
#[test]
fn a_place_stands_for_its_stops(rt: HostRuntime) {
    assert!(rt; reads(rt.alloc(), has_stops_of_places, station_feed()));
}

/// Whether a walk leads from A to B, and one from the station S to C.
fn has_two_links(feed: &Feed) -> bool {
    let walk = Link {
        origin: Place::Stop(StopNo(0)),
        target: Place::Stop(StopNo(1)),
        seconds: 60,
        changes: false,
        at: 2,
    };
    let change = Link {
        origin: Place::Station(0),
        target: Place::Stop(StopNo(2)),
        seconds: 120,
        changes: false,
        at: 4,
    };
    feed.links() == [walk, change].as_slice()
}

/// `read_feed`.
#[test]
fn links_are_the_rows_that_give_a_walk(rt: HostRuntime) {
    assert!(rt; reads(rt.alloc(), has_two_links, station_feed()));
}

/// Whether three rows of transfers give no walk.
fn has_three_unused(feed: &Feed) -> bool {
    feed.unused_transfers() == 3
}

/// `read_feed`.
#[test]
fn rows_without_a_walk_are_counted(rt: HostRuntime) {
    assert!(rt; reads(rt.alloc(), has_three_unused, station_feed()));
}

/// Whether a feed has no walk, and no row of transfers without one.
fn has_no_transfers(feed: &Feed) -> bool {
    feed.links().is_empty() && feed.unused_transfers() == 0
}

/// `read_feed`.
#[test]
fn a_feed_without_transfers_has_no_links(rt: HostRuntime) {
    assert!(rt; reads(rt.alloc(), has_no_transfers, small_feed()));
}

/// `read_feed`.
#[test]
fn an_unknown_stop_of_transfers_is_refused_at_its_record(rt: HostRuntime) {
    let files = FeedBytes {
        transfers: Some(UNKNOWN),
        ..small_feed()
    };
    expect_fault(
        &rt,
        rt.alloc(),
        files,
        FileName::Transfers,
        3,
        What::UnknownStop,
    );
}

/// `read_feed`.
#[test]
fn a_fault_of_frequencies_comes_before_one_of_transfers(rt: HostRuntime) {
    let files = FeedBytes {
        frequencies: Some(b"trip_id,start_time,end_time,headway_secs\nT9,08:00:00,09:00:00,600\n"),
        transfers: Some(UNKNOWN),
        ..small_feed()
    };
    expect_fault(
        &rt,
        rt.alloc(),
        files,
        FileName::Frequencies,
        2,
        What::UnknownTrip,
    );
}
