//! Worked examples of the direct footpaths of a feed.
use footpaths::{Direct, direct};
use gtfs_tables::{Feed, FeedBytes, file_fits, read_feed};
use std::alloc::{AllocError, Global};
use std::process::Abort;
use table_records::{FeedFault, FileName, What};
use timetable::StopNo;

/// The stop A, station S with the stops B and C, station T with the stops D and E, station U without stops, and an
/// entrance X.
const STOPS: &[u8] = b"stop_id,location_type,parent_station\n\
A,,\nB,,S\nS,1,\nC,0,S\nT,1,\nD,,T\nE,,T\nU,1,\nX,2,S\n";

/// Walks between the stops of S, and from A to B.
const TRANSFERS: &[u8] = b"from_stop_id,to_stop_id,min_transfer_time\nS,S,30\nA,B,60\n";

/// A feed with these stops and transfers, and no trips. It stands in a box, so that whoever holds it drops it in one
/// step.
fn feed_of<'a>(
    alloc: Global,
    stops: &'a [u8],
    transfers: &'a [u8],
) -> Result<Box<Feed>, FeedFault> {
    let files = FeedBytes {
        stops: Some(stops),
        routes: Some(b"route_id\n"),
        calendar: None,
        calendar_dates: Some(b"service_id,date,exception_type\n"),
        trips: Some(b"route_id,service_id,trip_id\n"),
        stop_times: Some(b"trip_id,stop_id,stop_sequence\n"),
        frequencies: None,
        transfers: Some(transfers),
    };
    if !files.fits() {
        return Err(FeedFault::at(FileName::Stops, 0, What::TooMany));
    }
    match read_feed(alloc, &files) {
        Ok(feed) => Ok(Box::new(alloc, feed)?),
        Err(fault) => Err(fault),
    }
}

/// A footpath: from, to, and seconds.
type Path = (StopNo, StopNo, u32);

fn path(from: u32, to: u32, seconds: u32) -> Path {
    (StopNo(from), StopNo(to), seconds)
}

/// What a test expects of the direct footpaths of a feed and a file.
#[derive(Clone, Copy)]
enum Expected<'a> {
    /// These and no others.
    Paths(&'a [Path]),
    /// So many, and this one last.
    Last(usize, Path),
    /// So many.
    Count(usize),
    /// Of each stop these change times.
    Changes(&'a [u32]),
    Fault(FeedFault),
}

fn are_expected(direct: &Direct, expected: Expected<'_>) -> bool {
    let paths = direct.pairs();
    match expected {
        Expected::Changes(times) => direct.changes() == times,
        Expected::Paths(all) => paths == all,
        Expected::Last(count, last) => paths.len() == count && paths.last() == Some(&last),
        Expected::Count(count) => paths.len() == count,
        Expected::Fault(_) => false,
    }
}

fn is_expected(fault: FeedFault, expected: Expected<'_>) -> bool {
    match expected {
        Expected::Fault(other) => fault == other,
        _ => false,
    }
}

/// Whether the direct footpaths of a feed and a file are as expected.
fn gives_over(alloc: Global, feed: &Feed, own: Option<&[u8]>, expected: Expected<'_>) -> bool {
    if !file_fits(own) {
        return false;
    }
    match direct(alloc, feed, own) {
        Ok(direct) => are_expected(&direct, expected),
        Err(fault) => is_expected(fault, expected),
    }
}

/// Whether the direct footpaths of these stops and transfers, and of a file, are as expected.
fn gives(
    alloc: Global,
    stops: &[u8],
    transfers: &[u8],
    own: Option<&[u8]>,
    expected: Expected<'_>,
) -> bool {
    match feed_of(alloc, stops, transfers) {
        Ok(feed) => gives_over(alloc, &feed, own, expected),
        Err(fault) => is_expected(fault, expected),
    }
}

/// The same for the small feed.
fn gives_small(alloc: Global, own: Option<&[u8]>, expected: Expected<'_>) -> bool {
    gives(alloc, STOPS, TRANSFERS, own, expected)
}

/// A file of footpaths of the small feed is refused at a record.
fn expect_refusal(rt: &impl Abort, alloc: Global, own: &[u8], at: u64, what: What) {
    let fault = FeedFault::at(FileName::Footpaths, at, what);
    assert!(rt; gives_small(alloc, Some(own), Expected::Fault(fault)));
}

/// Puts the line of a stop of station S.
fn put_stop(alloc: Global, bytes: &mut Vec<u8>, stop: u32) -> Result<(), AllocError> {
    let line = format!(in alloc; "{stop},,S\n")?;
    bytes.extend_from_slice(line.as_bytes())
}

/// Puts the stops of a feed of a stop A and a station S with so many stops.
fn put_station(alloc: Global, bytes: &mut Vec<u8>, stops: u32) -> Result<(), AllocError> {
    bytes.extend_from_slice(b"stop_id,location_type,parent_station\nA,,\nS,1,\n")?;
    for stop in 0..stops {
        put_stop(alloc, bytes, stop)?;
    }
    Ok(())
}

/// Whether the footpaths are as expected where each stop of a large station leads to each other one.
fn gives_large(alloc: Global, stops: u32, own: &[u8], expected: Expected<'_>) -> bool {
    let transfers = b"from_stop_id,to_stop_id,min_transfer_time\nS,S,60\n";
    let mut bytes = Vec::new(alloc);
    match put_station(alloc, &mut bytes, stops) {
        Ok(()) => gives(alloc, &bytes, transfers, Some(own), expected),
        Err(_) => false,
    }
}

/// `direct`, `Places::children`, `Children::at`, `Places::stops`, `Ends::as_slice`.
#[test]
fn a_station_stands_for_its_stops(rt: HostRuntime) {
    let all = [path(1, 2, 30), path(2, 1, 30), path(0, 1, 60)];
    assert!(rt; gives_small(rt.alloc(), None, Expected::Paths(&all)));
}

/// Whether these transfers state these change times of the stops A to E, with and without a file of footpaths.
fn states(alloc: Global, transfers: &[u8], times: &[u32]) -> bool {
    let own = b"from_stop_id,to_stop_id,seconds\nA,A,70\nS,S,80\n";
    gives(alloc, STOPS, transfers, None, Expected::Changes(times))
        && gives(alloc, STOPS, transfers, Some(own), Expected::Changes(times))
}

/// `direct`.
#[test]
fn change_times_of_stops_and_stations(rt: HostRuntime) {
    let alloc = rt.alloc();
    let none =
        b"from_stop_id,to_stop_id,transfer_type,min_transfer_time\nA,B,2,60\nS,S,1,60\nU,U,2,60\nS,T,2,60\n";
    assert!(rt; states(alloc, none, &[0, 0, 0, 0, 0]));

    // a station's stops, and one of them by itself; the greatest counts
    let station =
        b"from_stop_id,to_stop_id,transfer_type,min_transfer_time\nC,C,2,90\nS,S,2,60\nB,B,2,30\nD,D,2,5\n";
    assert!(rt; states(alloc, station, &[0, 60, 90, 5, 0]));

    // the longest time, and more than that
    let long = b"from_stop_id,to_stop_id,transfer_type,min_transfer_time
A,A,2,16777216
B,B,2,16777217
E,E,2,4294967295
C,C,2,16777215
";
    assert!(rt;
        states(
            alloc,
            long,
            &[16_777_216, 16_777_216, 16_777_215, 0, 16_777_216]
        )
    );
}

/// `direct`.
#[test]
fn walks_of_a_file_come_after_those_of_the_feed(rt: HostRuntime) {
    let own = b"seconds,to_stop_id,from_stop_id\n 90 ,B,A\n7,T,S\n";
    let all = [
        path(1, 2, 30),
        path(2, 1, 30),
        path(0, 1, 60),
        path(0, 1, 90),
        path(1, 3, 7),
        path(1, 4, 7),
        path(2, 3, 7),
        path(2, 4, 7),
    ];
    assert!(rt; gives_small(rt.alloc(), Some(own), Expected::Paths(&all)));
}

/// `direct`.
#[test]
fn rows_without_a_pair_are_passed_over(rt: HostRuntime) {
    let own = b"from_stop_id,to_stop_id,seconds\nA,A,5\nX,A,5\nA,U,5\nU,X,5\nB,A,0\n";
    assert!(rt; gives_small(rt.alloc(), Some(own), Expected::Last(4, path(1, 0, 0))));
}

/// `direct`.
#[test]
fn identifiers_that_are_refused(rt: HostRuntime) {
    let from = b"from_stop_id,to_stop_id,seconds\nA,B,5\n,Z,x\n";
    expect_refusal(&rt, rt.alloc(), from, 3, What::EmptyId);
    let to = b"from_stop_id,to_stop_id,seconds\nZ,,x\n";
    expect_refusal(&rt, rt.alloc(), to, 2, What::EmptyId);
    let unknown = b"from_stop_id,to_stop_id,seconds\nZ,A,x\n";
    expect_refusal(&rt, rt.alloc(), unknown, 2, What::UnknownStop);
    let other = b"from_stop_id,to_stop_id,seconds\nX,U,1\nA,a,x\n";
    expect_refusal(&rt, rt.alloc(), other, 3, What::UnknownStop);
}

/// `direct`.
#[test]
fn seconds_and_columns_that_are_refused(rt: HostRuntime) {
    let seconds = b"from_stop_id,to_stop_id,seconds\nA,A,\n";
    expect_refusal(&rt, rt.alloc(), seconds, 2, What::BadNumber);
    let header = b"from_stop_id,to_stop_id\nA,B\n";
    expect_refusal(&rt, rt.alloc(), header, 1, What::MissingColumn);
    expect_refusal(&rt, rt.alloc(), b"", 1, What::MissingColumn);
}

/// `direct`.
#[test]
fn too_many_footpaths_of_a_transfer(rt: HostRuntime) {
    // 4,002,000 pairs, and a file whose fault comes later
    let fault = FeedFault::at(FileName::Transfers, 2, What::TooMany);
    assert!(rt; gives_large(rt.alloc(), 2001, b"x\n", Expected::Fault(fault)));
}

/// `direct`.
#[test]
fn too_many_footpaths_of_a_file(rt: HostRuntime) {
    // 3,998,000 pairs, and 2,000 more of each row
    let most = b"from_stop_id,to_stop_id,seconds\nA,S,1\n";
    assert!(rt; gives_large(rt.alloc(), 2000, most, Expected::Count(4_000_000)));
    let more = b"from_stop_id,to_stop_id,seconds\nA,S,1\nS,A,1\nA,B,x\n";
    let fault = FeedFault::at(FileName::Footpaths, 3, What::TooMany);
    assert!(rt; gives_large(rt.alloc(), 2000, more, Expected::Fault(fault)));
}
