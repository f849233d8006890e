//! Worked examples of closed footpaths: those of a feed whose stops are named by their numbers, and of a file.
use crate::small_feeds::feed_in;
use footpaths::{Direct, close, closures_are_unique, direct, limit_fits, too_many_have_no_closure};
use gtfs_tables::{Feed, FeedBytes, file_fits};
use std::alloc::{AllocError, Global};
use timetable::{Feet, StopNo};

/// What a test expects of closed footpaths.
#[derive(Clone, Copy)]
enum Expected {
    /// The walking time between two stops: from, to, and seconds.
    Seconds(u32, u32, Option<u32>),
    /// How many stops a stop's footpaths lead to.
    Targets(u32, usize),
    /// How many stops there are.
    Stops(u32),
    /// The change time of a stop.
    Change(u32, u32),
}

/// What a test tries with its direct footpaths.
#[derive(Clone, Copy)]
enum Trial<'a> {
    /// Closed as far as a limit, they are as expected.
    Closed(u32, &'a [Expected]),
    /// They are as given: so many, and this one first.
    Direct(usize, (StopNo, StopNo, u32)),
}

/// Adds the record of a footpath: from, to, and seconds.
fn add(
    alloc: Global,
    records: &mut Vec<u8>,
    from: u32,
    to: u32,
    seconds: u32,
) -> Result<(), AllocError> {
    let record = format!(in alloc; "{from},{to},{seconds}\n")?;
    records.extend_from_slice(record.as_bytes())
}

fn add_list(
    alloc: Global,
    records: &mut Vec<u8>,
    paths: &[(u32, u32, u32)],
) -> Result<(), AllocError> {
    for (from, to, seconds) in paths {
        add(alloc, records, *from, *to, *seconds)?;
    }
    Ok(())
}

/// The file of the given footpaths: from, to, and seconds.
fn file_of(alloc: Global, paths: &[(u32, u32, u32)]) -> Result<Vec<u8>, AllocError> {
    let mut records = Vec::from_slice(alloc, b"from_stop_id,to_stop_id,seconds\n")?;
    add_list(alloc, &mut records, paths)?;
    Ok(records)
}

/// A header, and for each of so many stops a record that begins with its number.
fn numbered(alloc: Global, header: &str, stops: u32, rest: &str) -> Result<Vec<u8>, AllocError> {
    let mut records = Vec::from_slice(alloc, header.as_bytes())?;
    for stop in 0..stops {
        let record = format!(in alloc; "{stop},{stop}{rest}\n")?;
        records.extend_from_slice(record.as_bytes())?;
    }
    Ok(records)
}

/// A feed of so many stops, each with a change time of 90 seconds, and no trips.
fn feed_of(alloc: Global, stops: u32) -> Option<Box<Feed>> {
    let names = numbered(alloc, "stop_id,stop_name\n", stops, "").ok()?;
    let header = "from_stop_id,to_stop_id,transfer_type,min_transfer_time\n";
    let changes = numbered(alloc, header, stops, ",2,90").ok()?;
    let files = FeedBytes {
        stops: Some(names.as_slice()),
        routes: Some(b"route_id\n"),
        calendar: None,
        calendar_dates: Some(b"service_id,date,exception_type\n"),
        trips: Some(b"route_id,service_id,trip_id\n"),
        stop_times: Some(b"trip_id,stop_id,stop_sequence\n"),
        frequencies: None,
        transfers: Some(changes.as_slice()),
    };
    feed_in(alloc, files)
}

/// The direct footpaths of a feed and a file, none where there are none. They stand in a box, so that whoever holds
/// them drops them in one step.
fn direct_in(alloc: Global, feed: &Feed, own: &[u8]) -> Option<Box<Direct>> {
    if !file_fits(Some(own)) {
        return None;
    }
    match direct(alloc, feed, Some(own)) {
        Ok(direct) => Box::new(alloc, direct).ok(),
        Err(_) => None,
    }
}

/// The given direct footpaths between so many stops.
fn direct_of(alloc: Global, stops: u32, paths: &[(u32, u32, u32)]) -> Option<Box<Direct>> {
    let feed = feed_of(alloc, stops)?;
    let own = file_of(alloc, paths).ok()?;
    direct_in(alloc, &feed, &own)
}

/// The walking time between two stops.
fn seconds(feet: &Feet, from: u32, to: u32) -> Option<u32> {
    if from < feet.stops() {
        feet.seconds(StopNo(from), StopNo(to))
    } else {
        None
    }
}

/// How many stops a stop's footpaths lead to.
fn targets(feet: &Feet, from: u32) -> usize {
    if from < feet.stops() {
        feet.leaving(StopNo(from)).len()
    } else {
        0
    }
}

/// The change time of a stop.
fn change(feet: &Feet, stop: u32) -> Option<u32> {
    if stop < feet.stops() {
        Some(feet.change(StopNo(stop)))
    } else {
        None
    }
}

fn is_expected(feet: &Feet, expected: Expected) -> bool {
    match expected {
        Expected::Seconds(from, to, time) => seconds(feet, from, to) == time,
        Expected::Targets(from, count) => targets(feet, from) == count,
        Expected::Stops(count) => feet.stops() == count,
        Expected::Change(stop, seconds) => change(feet, stop) == Some(seconds),
    }
}

fn are_expected(feet: &Feet, all: &[Expected]) -> bool {
    for expected in all {
        if !is_expected(feet, *expected) {
            return false;
        }
    }
    true
}

/// Whether the footpaths, closed as far as a limit, are as expected.
fn closes(alloc: Global, direct: &Direct, limit: u32, all: &[Expected]) -> bool {
    if !limit_fits(limit) {
        return false;
    }
    match close(alloc, direct, limit) {
        Ok(feet) => are_expected(&feet, all),
        Err(_) => false,
    }
}

fn holds_of(alloc: Global, direct: &Direct, trial: Trial<'_>) -> bool {
    match trial {
        Trial::Closed(limit, all) => closes(alloc, direct, limit, all),
        Trial::Direct(count, first) => {
            direct.pairs().len() == count && direct.pairs().first() == Some(&first)
        }
    }
}

/// Whether a trial of the given footpaths between so many stops goes as it should.
fn holds(alloc: Global, stops: u32, paths: &[(u32, u32, u32)], trial: Trial<'_>) -> bool {
    match direct_of(alloc, stops, paths) {
        Some(direct) => holds_of(alloc, &direct, trial),
        None => false,
    }
}

/// Whether the footpaths of a list between three stops, closed as far as a limit, are as expected.
fn closed(alloc: Global, paths: &[(u32, u32, u32)], limit: u32, all: &[Expected]) -> bool {
    holds(alloc, 3, paths, Trial::Closed(limit, all))
}

/// `close`, `limit_fits`.
#[test]
fn two_footpaths_in_succession(rt: HostRuntime) {
    let paths = [(0, 1, 60), (1, 2, 60)];
    let near = [
        Expected::Seconds(0, 1, Some(60)),
        Expected::Seconds(1, 2, Some(60)),
        Expected::Seconds(0, 2, None),
    ];
    assert!(rt; closed(rt.alloc(), &paths, 100, &near));
    let far = [
        Expected::Seconds(0, 1, Some(60)),
        Expected::Seconds(1, 2, Some(60)),
        Expected::Seconds(0, 2, Some(120)),
        Expected::Change(2, 90),
    ];
    assert!(rt; closed(rt.alloc(), &paths, 120, &far));
    assert!(rt; closed(rt.alloc(), &paths, 119, &[Expected::Seconds(0, 2, None)]));
}

/// `close`, `limit_fits`.
#[test]
fn one_way_only(rt: HostRuntime) {
    let all = [
        Expected::Seconds(1, 0, None),
        Expected::Seconds(2, 0, None),
        Expected::Targets(2, 0),
    ];
    assert!(rt; closed(rt.alloc(), &[(0, 1, 60), (1, 2, 60)], 7200, &all));
}

/// `close`, `limit_fits`.
#[test]
fn round_a_loop(rt: HostRuntime) {
    let all = [
        Expected::Seconds(0, 1, Some(10)),
        Expected::Seconds(0, 2, Some(30)),
        Expected::Seconds(1, 0, Some(60)),
        Expected::Seconds(2, 1, Some(50)),
        Expected::Seconds(0, 0, None),
        Expected::Targets(0, 2),
    ];
    assert!(rt;
        closed(
            rt.alloc(),
            &[(0, 1, 10), (1, 2, 20), (2, 0, 40)],
            7200,
            &all
        )
    );
}

/// `close`, `limit_fits`.
#[test]
fn no_time_at_all(rt: HostRuntime) {
    let all = [
        Expected::Seconds(0, 1, Some(0)),
        Expected::Seconds(0, 2, Some(0)),
        Expected::Seconds(2, 1, Some(0)),
        Expected::Seconds(1, 1, None),
    ];
    assert!(rt; closed(rt.alloc(), &[(0, 1, 0), (1, 2, 0), (2, 1, 0)], 0, &all));
    let none = [Expected::Seconds(0, 1, None)];
    assert!(rt; holds(rt.alloc(), 2, &[(0, 1, 1)], Trial::Closed(0, &none)));
}

/// `close`, `limit_fits`.
#[test]
fn the_least_of_repeats(rt: HostRuntime) {
    let falling = [(0, 1, 90), (0, 1, 30), (0, 1, 60)];
    let all = [Expected::Seconds(0, 1, Some(30)), Expected::Targets(0, 1)];
    assert!(rt; holds(rt.alloc(), 2, &falling, Trial::Closed(100, &all)));
}

/// `close`, `limit_fits`.
#[test]
fn a_chain_shorter_than_the_direct_footpath(rt: HostRuntime) {
    let paths = [(0, 2, 100), (0, 1, 30), (1, 2, 30)];
    assert!(rt;
        closed(
            rt.alloc(),
            &paths,
            100,
            &[Expected::Seconds(0, 2, Some(60))]
        )
    );
}

/// `close`, `limit_fits`.
#[test]
fn past_the_limit(rt: HostRuntime) {
    let all = [
        Expected::Seconds(0, 1, None),
        Expected::Seconds(1, 2, Some(100)),
        Expected::Seconds(0, 2, None),
    ];
    assert!(rt; closed(rt.alloc(), &[(0, 1, 101), (1, 2, 100)], 100, &all));
}

/// `close`, `limit_fits`.
#[test]
fn the_longest_footpaths(rt: HostRuntime) {
    let long = 4_294_967_295;
    let none = [Expected::Targets(0, 0), Expected::Targets(1, 0)];
    assert!(rt; closed(rt.alloc(), &[(0, 1, long), (1, 2, long)], 7200, &none));
}

/// `close`, `limit_fits`.
#[test]
fn no_stops(rt: HostRuntime) {
    let none = [Expected::Stops(0)];
    assert!(rt; holds(rt.alloc(), 0, &[], Trial::Closed(7200, &none)));
}

/// `limit_fits`.
#[test]
fn limits(rt: HostRuntime) {
    assert!(rt; limit_fits(0));
    assert!(rt; limit_fits(7200));
    assert!(rt; !limit_fits(7201));
    closures_are_unique();
    too_many_have_no_closure();
}

/// `close`, `limit_fits`.
#[test]
fn direct_footpaths_as_they_are_given(rt: HostRuntime) {
    let first = (StopNo(0), StopNo(1), 90);
    let paths = [(0, 1, 90), (0, 1, 30)];
    assert!(rt; holds(rt.alloc(), 2, &paths, Trial::Direct(2, first)));
}
