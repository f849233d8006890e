//! The scenario without edits, and its networks over small feeds.

use crate::lines::at;
use crate::small_feeds::{feed_in, in_may};
use gtfs_tables::{Feed, FeedBytes, read_date};
use scenarios::{Scenario, base, network_of};
use service_days::active;
use std::alloc::{AllocError, Global};
use timetable::{Event, Feet, NetFault, Network, StopNo, Trip};

const TRIPS: &[u8] = b"route_id,service_id,trip_id\nR1,MON,T1\nR2,MON,T2\nR1,SUN,T0\n";

const TIMES: &[u8] = b"trip_id,arrival_time,departure_time,stop_id,stop_sequence
T1,07:58:00,08:00:00,A,1
T1,08:10:00,08:11:00,B,2
T2,08:15:00,08:15:00,B,1
T2,08:30:00,08:30:00,C,2
T0,24:05:00,24:05:00,A,1
T0,24:20:00,24:20:00,B,2
";

/// Two trips on Mondays in May 2026, and one on Sundays that runs past midnight.
pub(crate) fn mondays() -> FeedBytes<'static> {
    in_may(TRIPS, TIMES)
}

/// For each of three stops the walks from it: one of a minute from A to B.
fn walks(alloc: Global) -> Result<Vec<Vec<(StopNo, u32)>>, AllocError> {
    let from_a = Vec::from_slice(alloc, &[(StopNo(1), 60)])?;
    Ok(vec![in alloc; from_a, Vec::new(alloc), Vec::new(alloc)]?)
}

/// A footpath of a minute from A to B, and change times of a minute, none without memory.
fn short_walk(alloc: Global) -> Option<Feet> {
    match walks(alloc) {
        Ok(lists) => {
            let changes = vec![in alloc; 60; 3].ok()?;
            Feet::new(alloc, 3, lists, changes).ok()
        }
        Err(_) => None,
    }
}

/// The network of the scenario without edits on the first Monday, with so many days before it and one after it; out of
/// memory is told too where the study has no runs.
fn network_around_monday(
    alloc: Global,
    feed: &Feed,
    feet: &Feet,
    back: u32,
) -> Result<Network, NetFault> {
    if feet.stops() != feed.stop_count() {
        return Err(NetFault::Memory);
    }
    let Some(monday) = read_date(b"20260504") else {
        return Err(NetFault::Memory);
    };
    match active(alloc, feed, monday, back, 1) {
        Ok(runs) => network_of(alloc, feed, &base(alloc), &runs, feet),
        Err(_) => Err(NetFault::Memory),
    }
}

/// A trip as its route, its number and its events.
type ExpectedTrip = (u32, u32, [Event; 2]);

fn is_trip(trip: &Trip, expected: &ExpectedTrip) -> bool {
    trip.route == expected.0
        && trip.name == expected.1
        && trip.events.as_slice() == expected.2.as_slice()
}

fn are_trips(trips: &[Trip], expected: &[ExpectedTrip]) -> bool {
    trips.len() == expected.len()
        && trips
            .iter()
            .zip(expected)
            .all(|(trip, expected)| is_trip(trip, expected))
}

fn is_short_walk(feet: &Feet) -> bool {
    feet.stops() == 3
        && feet.seconds(StopNo(0), StopNo(1)) == Some(60)
        && feet.change(StopNo(2)) == 60
}

/// Whether a network has three stops, the short walk between them, and these trips.
fn is_network(network: &Network, expected: &[ExpectedTrip]) -> bool {
    network.stops() == 3 && is_short_walk(network.feet()) && are_trips(network.trips(), expected)
}

/// Whether the network of a feed on the first Monday has these trips.
fn runs_trips(alloc: Global, feed: &Feed, feet: &Feet, expected: &[ExpectedTrip]) -> bool {
    match network_around_monday(alloc, feed, feet, 1) {
        Ok(network) => is_network(&network, expected),
        Err(_) => false,
    }
}

/// How many trips the network of a feed has on the first Monday and so many days before it, or its fault.
fn count_trips(alloc: Global, feed: &Feed, feet: &Feet, back: u32) -> Result<usize, NetFault> {
    match network_around_monday(alloc, feed, feet, back) {
        Ok(network) => Ok(network.trips().len()),
        Err(fault) => Err(fault),
    }
}

/// Whether the network of a feed on the first Monday and so many days before it is refused as too large.
fn is_too_large(alloc: Global, feed: &Feed, feet: &Feet, back: u32) -> bool {
    match count_trips(alloc, feed, feet, back) {
        Ok(_) => false,
        Err(fault) => fault == NetFault::TooLarge,
    }
}

/// Whether a scenario keeps a trip, with its times.
fn keeps_as_it_is(scenario: &Scenario, feed: &Feed, trip: u32) -> bool {
    trip < feed.trip_count() && scenario.keeps(feed, trip) && scenario.shift(trip) == 0
}

fn keeps_every_trip(scenario: &Scenario, feed: &Feed) -> bool {
    for trip in 0..feed.trip_count() {
        if !keeps_as_it_is(scenario, feed, trip) {
            return false;
        }
    }
    true
}

/// What a test expects of a feed's network on the first Monday, or of the scenario without edits.
#[derive(Clone, Copy)]
enum Expected<'a> {
    Trips(&'a [ExpectedTrip]),
    TooLarge { back: u32 },
    EveryTripKept,
}

fn is_network_as_expected(alloc: Global, feed: &Feed, feet: &Feet, expected: Expected<'_>) -> bool {
    match expected {
        Expected::Trips(trips) => runs_trips(alloc, feed, feet, trips),
        Expected::TooLarge { back } => is_too_large(alloc, feed, feet, back),
        Expected::EveryTripKept => keeps_every_trip(&base(alloc), feed),
    }
}

fn is_as_expected(alloc: Global, feed: &Feed, expected: Expected<'_>) -> bool {
    match short_walk(alloc) {
        Some(feet) => is_network_as_expected(alloc, feed, &feet, expected),
        None => false,
    }
}

/// Whether the files are read, and a feed is as expected. One function owns the feeds of all tests, so that the drop of
/// one is proved once.
fn gives(alloc: Global, files: FeedBytes<'static>, expected: Expected<'_>) -> bool {
    match feed_in(alloc, files) {
        Some(feed) => is_as_expected(alloc, &feed, expected),
        None => false,
    }
}

fn base_is_named(alloc: Global) -> bool {
    base(alloc).name() == b"base".as_slice()
}

/// `network_of`.
#[test]
fn base_keeps_every_trip_as_it_is(rt: HostRuntime) {
    assert!(rt; base_is_named(rt.alloc()));
    assert!(rt; gives(rt.alloc(), mondays(), Expected::EveryTripKept));
}

/// `network_of`.
#[test]
fn trips_run_on_the_axis(rt: HostRuntime) {
    let trips = [
        (0, 2, [at(0, 86_700, 86_700), at(1, 87_600, 87_600)]),
        (0, 0, [at(0, 115_080, 115_200), at(1, 115_800, 115_860)]),
        (1, 1, [at(1, 116_100, 116_100), at(2, 117_000, 117_000)]),
    ];
    assert!(rt; gives(rt.alloc(), mondays(), Expected::Trips(&trips)));
}

/// `network_of`.
#[test]
fn departures_arrive_first_when_they_depart(rt: HostRuntime) {
    let files = FeedBytes {
        frequencies: Some(
            b"trip_id,start_time,end_time,headway_secs\nT1,08:00:00,08:20:00,600\nT2,00:00:00,00:00:01,60\n",
        ),
        ..mondays()
    };
    let trips = [
        (0, 2, [at(0, 86_700, 86_700), at(1, 87_600, 87_600)]),
        (0, 0, [at(0, 115_200, 115_200), at(1, 115_800, 115_860)]),
        (0, 0, [at(0, 115_800, 115_800), at(1, 116_400, 116_460)]),
        (1, 1, [at(1, 86_400, 86_400), at(2, 87_300, 87_300)]),
    ];
    assert!(rt; gives(rt.alloc(), files, Expected::Trips(&trips)));
}

// 194 days are 16,761,600 seconds: Monday at 08:00:00 is then past 16,777,216, the end of the axis.
/// `network_of`.
#[test]
fn days_past_the_axis_are_refused(rt: HostRuntime) {
    assert!(rt; gives(rt.alloc(), mondays(), Expected::TooLarge { back: 194 }));
    assert!(rt; gives(rt.alloc(), mondays(), Expected::TooLarge { back: 50_000 }));
}
