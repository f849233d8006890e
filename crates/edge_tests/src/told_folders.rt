//! What is told of the folder of a feed in which a file is missing. The texts are written by hand.

use crate::pages::blank;
use crate::small_study::{MONDAY, small_inputs};
use gtfs_tables::{FeedFault, FileName, What};
use reports::{Report, explain_folder};
use std::alloc::Global;
use std::sync::Wait;
use studies::StudyFault;

/// Whether this is told of a folder in which a file is missing.
fn is_told<R: Wait>(rt: &R, alloc: Global, folder: &str, text: &str) -> bool {
    let page = blank(rt, alloc, MONDAY);
    let report = Report::new(alloc, &page, &small_inputs());
    let fault = StudyFault::Feed(FeedFault::at(FileName::Stops, 1, What::MissingFile));
    report.refused(&fault, &small_inputs(), folder);
    drop(report);
    let told = page.text.into_inner();
    told.as_slice() == text.as_bytes()
}

/// Whether this is told of a folder from which a file isn't read.
fn is_explained<R: Wait>(rt: &R, alloc: Global, folder: &str, text: &str) -> bool {
    let page = blank(rt, alloc, MONDAY);
    explain_folder(&page, alloc, folder);
    let told = page.text.into_inner();
    told.as_slice() == text.as_bytes()
}

/// `Report::refused`, `tell_line`.
#[test]
fn folders_that_lack_a_file_are_shown(rt: HostRuntime) {
    let cases: [(&str, &str); 9] = [
        ("nowhere", "ttm: there is no folder \"nowhere\"\n"),
        ("", "ttm: there is no folder \"\"\n"),
        ("empty", "ttm: folder \"empty\" is empty\n"),
        ("shut", "ttm: folder \"shut\" can't be read\n"),
        (
            "town",
            "ttm: folder \"town\" has Stops.txt, maps, trips.txt\n",
        ),
        (
            "home",
            "ttm: folder \"home\" has bus, letter.txt, notes, town.zip, tram.zip
ttm: folder \"home/bus\" has stops.txt; is it the feed's?
ttm: \"home/town.zip\" is a zip; ttm-tools prepare makes a feed's folder of it
",
        ),
        (
            "many",
            "ttm: folder \"many\" has a, b, c, d, e, f, g, h, i, j, k, l and 1 more\n",
        ),
        (
            "dozen",
            "ttm: folder \"dozen\" has a, b, c, d, e, f, g, h, i, j, k, l\n",
        ),
        ("feed", "ttm: folder \"feed\" has old.zip, stops.txt\n"),
    ];
    for (folder, text) in &cases {
        assert!(rt; is_told(&rt, rt.alloc(), folder, text));
    }
}

/// `explain_folder`.
#[test]
fn what_is_no_folder_is_told(rt: HostRuntime) {
    let cases: [(&str, &str); 3] = [
        (
            "town.zip",
            "ttm: \"town.zip\" is a file; --feed names a folder, and ttm-tools prepare makes one of a zip\n",
        ),
        ("nowhere", "ttm: there is no folder \"nowhere\"\n"),
        ("town", ""),
    ];
    for (folder, text) in &cases {
        assert!(rt; is_explained(&rt, rt.alloc(), folder, text));
    }
}
