//! The line of the small feed, and of feeds with one thing changed.

use crate::small_study::small_inputs;
use gtfs_tables::{FeedBytes, FeedFault, FileName, What};
use std::alloc::Global;
use studies::{StudyFault, minute_line};

/// T2 leaves B when T1 arrives there.
const JUST_IN_TIME: &[u8] = b"trip_id,arrival_time,departure_time,stop_id,stop_sequence
T1,08:00:00,08:00:00,A,1
T1,08:10:00,08:10:00,B,2
T2,08:10:00,08:10:00,B,1
T2,08:30:00,08:30:00,C,2
";

/// T2 leaves B one second before T1 arrives there.
const JUST_MISSED: &[u8] = b"trip_id,arrival_time,departure_time,stop_id,stop_sequence
T1,08:00:00,08:00:00,A,1
T1,08:10:00,08:10:00,B,2
T2,08:09:59,08:09:59,B,1
T2,08:30:00,08:30:00,C,2
";

const MARKED_STOPS: &[u8] = b"\xef\xbb\xbfstop_id,stop_name\r\nA,Alpha\r\nB,Beta\r\nC,Gamma\r\n";

const MARKED_TRIPS: &[u8] =
    b"\xef\xbb\xbfroute_id,service_id,trip_id\r\nR1,MON,T1\r\nR2,MON,T2\r\n";

const MARKED_STOP_TIMES: &[u8] =
    b"\xef\xbb\xbftrip_id,arrival_time,departure_time,stop_id,stop_sequence\r
T1,08:00:00,08:00:00,A,1\r
T1,08:10:00,08:10:00,B,2\r
T2,08:15:00,08:15:00,B,1\r
T2,08:30:00,08:30:00,C,2\r
";

/// The small feed.
fn small_feed() -> FeedBytes<'static> {
    small_inputs().feed
}

/// The small feed with other stop times.
fn with_stop_times(stop_times: &'static [u8]) -> FeedBytes<'static> {
    let mut files = small_feed();
    files.stop_times = Some(stop_times);
    files
}

/// `minute_line`.
#[test]
fn tells_the_least_durations(rt: HostRuntime) {
    let files = small_feed();
    let just_in_time = with_stop_times(JUST_IN_TIME);
    let just_missed = with_stop_times(JUST_MISSED);
    let cases: [(&FeedBytes<'_>, &[u8], u32, &[u8]); 6] = [
        (&files, b"A", 1, b"0,600,\n"),
        (&files, b"A", 2, b"0,600,1800\n"),
        (&files, b"A", 8, b"0,600,1800\n"),
        (&files, b"B", 1, b",0,1800\n"),
        (&just_in_time, b"A", 2, b"0,600,1800\n"),
        (&just_missed, b"A", 2, b"0,600,\n"),
    ];
    for (files, origin, rides, want) in &cases {
        assert!(rt; files.fits());
        match minute_line(rt.alloc(), files, origin, 480, *rides) {
            Ok(line) => assert_eq!(rt; line.as_slice(), *want),
            Err(_) => panic!(rt; "refused"),
        }
    }
}

/// `minute_line`.
#[test]
fn a_minute_later_the_trip_is_gone(rt: HostRuntime) {
    let files = small_feed();
    assert!(rt; files.fits());
    match minute_line(rt.alloc(), &files, b"A", 481, 1) {
        Ok(line) => assert_eq!(rt; line.as_slice(), b"0,,\n".as_slice()),
        Err(_) => panic!(rt; "refused"),
    }
}

/// `minute_line`.
#[test]
fn reads_marks_and_windows_line_ends(rt: HostRuntime) {
    let mut files = small_feed();
    files.stops = Some(MARKED_STOPS);
    files.trips = Some(MARKED_TRIPS);
    files.stop_times = Some(MARKED_STOP_TIMES);
    assert!(rt; files.fits());
    match minute_line(rt.alloc(), &files, b"A", 480, 1) {
        Ok(line) => assert_eq!(rt; line.as_slice(), b"0,600,\n".as_slice()),
        Err(_) => panic!(rt; "refused"),
    }
}

/// The fault of the line from an origin.
fn fault_of(alloc: Global, files: &FeedBytes<'_>, origin: &[u8]) -> Option<StudyFault> {
    if !files.fits() {
        return None;
    }
    minute_line(alloc, files, origin, 480, 1).err()
}

/// `minute_line`.
#[test]
fn refuses_the_tables_before_the_origin(rt: HostRuntime) {
    let files = small_feed();
    let no_stop_times = FeedFault {
        file: FileName::StopTimes,
        at: 0,
        what: What::MissingFile,
    };
    let unknown_origin = FeedFault {
        file: FileName::Origins,
        at: 0,
        what: What::UnknownStop,
    };
    let mut cut = small_feed();
    cut.stop_times = None;
    assert!(rt; fault_of(rt.alloc(), &files, b"Z") == Some(StudyFault::Feed(unknown_origin)));
    assert!(rt; fault_of(rt.alloc(), &files, b"a") == Some(StudyFault::Feed(unknown_origin)));
    assert!(rt; fault_of(rt.alloc(), &files, b"") == Some(StudyFault::Feed(unknown_origin)));
    assert!(rt; fault_of(rt.alloc(), &cut, b"Z") == Some(StudyFault::Feed(no_stop_times)));
}
