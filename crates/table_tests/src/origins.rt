//! Origins and opportunities over the small feed.

use crate::test_feeds::{reads, small_feed};
use gtfs_tables::{Feed, file_fits, read_opportunities, read_origins};
use std::alloc::Global;
use std::process::Abort;
use timetable::StopNo;

/// Whether the origins of a file are these stops of the small feed.
fn gives_origins(alloc: Global, file: Option<&[u8]>, feed: &Feed, want: &[StopNo]) -> bool {
    if !file_fits(file) {
        return false;
    }
    match read_origins(alloc, file, feed).ok() {
        Some(stops) => stops.as_slice() == want,
        None => false,
    }
}

/// Whether the opportunities of a file are these at the stops of the small feed.
fn gives_opportunities(alloc: Global, file: Option<&[u8]>, feed: &Feed, want: &[u32]) -> bool {
    if !file_fits(file) {
        return false;
    }
    match read_opportunities(alloc, file, feed) {
        Ok(counts) => counts.as_slice() == want,
        Err(_) => false,
    }
}

fn expect_origins(rt: &impl Abort, alloc: Global, file: Option<&[u8]>, want: &[StopNo]) {
    assert!(rt;
        reads(
            alloc,
            |feed| gives_origins(alloc, file, feed, want),
            small_feed()
        )
    );
}

fn expect_opportunities(rt: &impl Abort, alloc: Global, file: Option<&[u8]>, want: &[u32]) {
    assert!(rt;
        reads(
            alloc,
            |feed| gives_opportunities(alloc, file, feed, want),
            small_feed()
        )
    );
}

/// `read_origins`.
#[test]
fn origins_in_file_order(rt: HostRuntime) {
    let alloc = rt.alloc();
    expect_origins(&rt, alloc, None, &[StopNo(0), StopNo(1), StopNo(2)]);
    expect_origins(
        &rt,
        alloc,
        Some(b"stop_id\nC\nA\n"),
        &[StopNo(2), StopNo(0)],
    );
    expect_origins(
        &rt,
        alloc,
        Some(b"\xef\xbb\xbfname,stop_id\r\nx,B\r\n"),
        &[StopNo(1)],
    );
    expect_origins(&rt, alloc, Some(b"stop_id\n"), &[]);
}

/// `read_opportunities`.
#[test]
fn opportunities_at_each_stop(rt: HostRuntime) {
    let alloc = rt.alloc();
    expect_opportunities(&rt, alloc, None, &[1, 1, 1]);
    expect_opportunities(
        &rt,
        alloc,
        Some(b"stop_id,opportunities\nC,7\nA, 0012 \n"),
        &[12, 0, 7],
    );
    expect_opportunities(&rt, alloc, Some(b"opportunities,stop_id\n"), &[0, 0, 0]);
}
