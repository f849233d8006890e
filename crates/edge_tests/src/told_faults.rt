//! What is told of faults of files that have more records than they may. The texts are written by hand; those of other
//! faults are data (`tests/program/fault_cases.py`).

use crate::pages::{Page, blank};
use crate::small_study::{MONDAY, small_inputs};
use gtfs_tables::FeedFault;
use reports::Report;
use std::alloc::Global;
use std::process::Abort;
use std::sync::Wait;
use studies::{Inputs, StudyFault};
use table_records::{FileName, What};

/// Tells of a fault on a page, beside its line.
fn tell_on<R: Wait>(page: &Page<'_, R>, alloc: Global, fault: &StudyFault, inputs: &Inputs<'_>) {
    let report = Report::new(alloc, page, inputs);
    report.refused(fault, inputs, "feed");
}

/// What is told of a fault, beside its line.
fn told_of<R: Wait>(rt: &R, alloc: Global, fault: &StudyFault, inputs: &Inputs<'_>) -> Vec<u8> {
    let page = blank(rt, alloc, MONDAY);
    tell_on(&page, alloc, fault, inputs);
    page.text.into_inner()
}

/// That this is told of a fault of a file that has fewer records.
fn expect_told(rt: &(impl Wait + Abort), alloc: Global, file: FileName, what: What, text: &str) {
    let fault = StudyFault::Feed(FeedFault::at(file, 9, what));
    let told = told_of(rt, alloc, &fault, &small_inputs());
    assert_eq!(rt; told.as_slice(), text.as_bytes());
}

/// `Report::refused`.
#[test]
fn files_have_their_limits(rt: HostRuntime) {
    let alloc = rt.alloc();
    expect_told(
        &rt,
        alloc,
        FileName::Stops,
        What::TooMany,
        "ttm: stops.txt may have 65535 records beside its header\n",
    );
    expect_told(
        &rt,
        alloc,
        FileName::Trips,
        What::TooMany,
        "ttm: trips.txt may have 1000000 records beside its header\n",
    );
    expect_told(
        &rt,
        alloc,
        FileName::StopTimes,
        What::TooMany,
        "ttm: stop_times.txt may have 8000000 records beside its header\n",
    );
    expect_told(&rt, alloc, FileName::Trips, What::BadNumber, "");
    expect_told(&rt, alloc, FileName::Routes, What::TooMany, "");
}
