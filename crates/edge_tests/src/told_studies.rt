//! What is told of studies of the small feed. The texts are written by hand.

use crate::pages::{Page, blank};
use crate::small_study::{Asked, MONDAY, scenario_file, settings_of, small_inputs};
use console::{Console, memory_of};
use gtfs_tables::FeedBytes;
use reports::Report;
use std::alloc::Global;
use std::process::Abort;
use std::sync::Wait;
use std::thread::Threads;
use studies::{Inputs, NamedFile, watch_study};
use work_book::{Lease, Settled};
use workers::{Gate, Verdict};

/// A gate that loses each lease.
#[derive(Clone, Copy)]
struct Lost;

impl Gate for Lost {
    fn before(&self, _lease: &Lease) -> Verdict {
        Verdict::Lose
    }

    fn after(&self, _lease: &Lease, _settled: Settled) {}
}

/// Makes a study and tells of it, where each lease is worked at, or all are lost; false where there is no matrix.
fn is_made<R: Threads + Wait + Sync>(
    rt: &R,
    alloc: Global,
    page: &Page<'_, R>,
    inputs: &Inputs<'_>,
    asked: Asked,
    are_lost: bool,
) -> bool {
    let Some(settings) = settings_of(alloc, asked) else {
        return false;
    };
    if !inputs.fits() || !settings.fits() {
        return false;
    }
    let report = Report::new(alloc, page, inputs);
    let made = if are_lost {
        watch_study(rt, alloc, inputs, &settings, &Lost, &report).is_ok()
    } else {
        watch_study(rt, alloc, inputs, &settings, &report, &report).is_ok()
    };
    report.ended();
    made
}

/// That a study is made, and what is told of it.
fn expect<R: Threads + Wait + Sync + Abort>(
    rt: &R,
    alloc: Global,
    inputs: &Inputs<'_>,
    asked: Asked,
    text: &[u8],
) {
    let page = blank(rt, alloc, asked);
    assert!(rt; is_made(rt, alloc, &page, inputs, asked, false));
    let told = page.text.into_inner();
    assert_eq!(rt; told.as_slice(), text);
}

/// Whether a study of the small feed is made, or lost with all its leases, and what is told of it ends so.
fn ends<R: Threads + Wait + Sync>(
    rt: &R,
    alloc: Global,
    asked: Asked,
    are_lost: bool,
    text: &[u8],
) -> bool {
    let page = blank(rt, alloc, asked);
    let made = is_made(rt, alloc, &page, &small_inputs(), asked, are_lost);
    let told = page.text.into_inner();
    made != are_lost && told.as_slice().ends_with(text)
}

/// `Report::ended`, `Report::new`, `small_files`, `tell_count`, `tell_count_of`.
#[test]
fn the_small_feed_is_told(rt: HostRuntime) {
    expect(
        &rt,
        rt.alloc(),
        &small_inputs(),
        MONDAY,
        b"ttm: stops: 3
ttm: routes: 2
ttm: trips: 2
ttm: trips set aside: 0
ttm: transfers not used: 0
ttm: direct footpaths: 2
ttm: origins: 1
ttm: destinations: 3
ttm: closed footpaths: 3
ttm: runs on 2026-05-03: 0
ttm: runs on 2026-05-04: 2
ttm: runs on 2026-05-05: 0
ttm: runs in scenario base: 2
ttm: rows: 1
ttm: cells: 3
ttm: bytes of the matrix and its text, about: 56
ttm: bytes that the machine has free: 1000
ttm: rows done: 1 of 1, 100 percent, about 0:00:00 left
ttm: rows done: 1 of 1
ttm: time: 0:03:03
ttm: bytes taken at most: 500
",
    );
}

/// What is told of the small feed on a Tuesday, without walks.
const WITHOUT_TRIPS_OR_WALKS: &[u8] = b"ttm: stops: 3
ttm: routes: 2
ttm: trips: 2
ttm: trips set aside: 0
ttm: transfers not used: 0
ttm: direct footpaths: 0
ttm: origins: 1
ttm: destinations: 3
ttm: closed footpaths: 0
ttm: warning: no walk leads anywhere, so changes are at one stop alone; \
    ttm-tools walks makes a file for --footpaths, and --walk says how long a walk may be
ttm: runs on 2026-05-05: 0
ttm: warning: no trip runs on the date itself; is it a date of the feed's calendar?
ttm: dates of the calendars: 2026-05-04 to 2026-05-31
ttm: nearest date with runs before it: 2026-05-04
ttm: nearest date with runs after it: 2026-05-11
ttm: runs in scenario base: 0
ttm: rows: 1
ttm: cells: 3
ttm: bytes of the matrix and its text, about: 56
ttm: bytes that the machine has free: 41
ttm: warning: the machine may not have memory for the matrix; \
    ttm-tools split makes parts of the origins, and ttm-tools join joins their matrices
ttm: rows done: 1 of 1, 100 percent, about 0:00:00 left
ttm: rows done: 1 of 1
ttm: time: 0:03:03
ttm: bytes taken at most: 500
";

/// `Report::ended`, `Report::new`.
#[test]
fn a_date_without_trips_or_walks_is_warned_of(rt: HostRuntime) {
    let inputs = Inputs {
        footpaths: None,
        ..small_inputs()
    };
    let asked = Asked {
        date: b"20260505",
        back: 0,
        ahead: 0,
        free: 41,
        ..MONDAY
    };
    expect(&rt, rt.alloc(), &inputs, asked, WITHOUT_TRIPS_OR_WALKS);
}

/// Two scenarios: one without the second route, and one that changes nothing.
fn two_scenarios(alloc: Global) -> Option<Vec<NamedFile>> {
    let cut = scenario_file(alloc, b"cut", b"action,id,seconds\nremove_route,R2,\n")?;
    let same = scenario_file(alloc, b"same", b"action,id,seconds\nshift_trip,T1,0\n")?;
    let mut files = Vec::new(alloc);
    files.push(cut).ok()?;
    files.push(same).ok()?;
    Some(files)
}

/// What is told of three scenarios on a terminal.
const THREE_SCENARIOS: &[u8] = b"ttm: stops: 3
ttm: routes: 2
ttm: trips: 2
ttm: trips set aside: 0
ttm: transfers not used: 0
ttm: direct footpaths: 2
ttm: origins: 1
ttm: destinations: 3
ttm: closed footpaths: 3
ttm: runs on 2026-05-04: 2
ttm: runs in scenario base: 2
ttm: runs in scenario cut: 1
ttm: runs in scenario same: 2
ttm: warning: this scenario changes nothing on the days of the study
ttm: rows: 3
ttm: cells: 9
ttm: bytes of the matrix and its text, about: 168
ttm: bytes that the machine has free: 1000
ttm: rows done: 2 of 3, 66 percent, about 0:00:00 left\r
ttm: rows done: 3 of 3
ttm: time: 0:00:00
ttm: bytes taken at most: 500
";

/// `Report::ended`, `Report::new`.
#[test]
fn rows_of_scenarios_move_along_on_a_terminal(rt: HostRuntime) {
    let alloc = rt.alloc();
    let Some(files) = two_scenarios(alloc) else {
        assert!(rt; false);
        return;
    };
    let inputs = Inputs {
        scenarios: files.as_slice(),
        ..small_inputs()
    };
    let asked = Asked {
        back: 0,
        ahead: 0,
        step: 100,
        terminal: true,
        ..MONDAY
    };
    expect(&rt, alloc, &inputs, asked, THREE_SCENARIOS);
}

/// The small feed with a trip set aside and two transfers that aren't used.
fn feed_with_leavings() -> FeedBytes<'static> {
    FeedBytes {
        trips: Some(b"route_id,service_id,trip_id\nR1,MON,T1\nR2,MON,T2\nR1,MON,T3\n"),
        stop_times: Some(
            b"trip_id,arrival_time,departure_time,stop_id,stop_sequence
T1,08:00:00,08:00:00,A,1
T1,08:10:00,08:10:00,B,2
T2,08:15:00,08:15:00,B,1
T2,08:30:00,08:30:00,C,2
T3,09:00:00,09:00:00,,1
",
        ),
        transfers: Some(b"from_stop_id,to_stop_id,transfer_type\nA,B,3\nB,A,3\n"),
        ..small_inputs().feed
    }
}

/// A scenario that shifts a trip by a minute.
fn late(alloc: Global) -> Option<Vec<NamedFile>> {
    let mut files = Vec::new(alloc);
    files
        .push(scenario_file(alloc, b"late", b"action,id,seconds\nshift_trip,T1,60\n")?)
        .ok()?;
    Some(files)
}

/// What is asked of a long run: four rows.
const LONG_RUN: Asked = Asked {
    back: 2,
    shares: &[25, 50],
    start: 7_000_000,
    step: 1_000_000,
    free: 448,
    ..MONDAY
};

/// What is told of a long run, none where there is no matrix.
fn long_run<R: Threads + Wait + Sync>(rt: &R, alloc: Global, asked: Asked) -> Option<Vec<u8>> {
    let files = late(alloc)?;
    let inputs = Inputs {
        feed: feed_with_leavings(),
        origins: Some(b"stop_id\nB\nA\n"),
        scenarios: files.as_slice(),
        ..small_inputs()
    };
    let page = blank(rt, alloc, asked);
    if is_made(rt, alloc, &page, &inputs, asked, false) {
        Some(page.text.into_inner())
    } else {
        None
    }
}

/// `Report::ended`, `Report::new`.
#[test]
fn each_row_of_a_long_run_is_told(rt: HostRuntime) {
    let Some(told) = long_run(&rt, rt.alloc(), LONG_RUN) else {
        assert!(rt; false);
        return;
    };
    assert_eq!(rt;
        told.as_slice(),
        b"ttm: stops: 3
ttm: routes: 2
ttm: trips: 3
ttm: trips set aside: 1
ttm: transfers not used: 2
ttm: direct footpaths: 2
ttm: origins: 2
ttm: destinations: 3
ttm: closed footpaths: 3
ttm: runs on 2026-05-02: 0
ttm: runs on 2026-05-03: 0
ttm: runs on 2026-05-04: 2
ttm: runs on 2026-05-05: 0
ttm: runs in scenario base: 2
ttm: runs in scenario late: 2
ttm: rows: 4
ttm: cells: 24
ttm: bytes of the matrix and its text, about: 448
ttm: bytes that the machine has free: 448
ttm: rows done: 1 of 4, 25 percent, about 0:50:00 left
ttm: rows done: 2 of 4, 50 percent, about 0:33:20 left
ttm: rows done: 3 of 4, 75 percent, about 0:16:40 left
ttm: rows done: 4 of 4, 100 percent, about 0:00:00 left
ttm: rows done: 4 of 4
ttm: time: 1:40:00
ttm: bytes taken at most: 500
"
            .as_slice()
    );
}

/// `Report::ended`, `Report::new`.
#[test]
fn lines_are_a_minute_apart(rt: HostRuntime) {
    let sooner = Asked {
        step: 59_999,
        ..MONDAY
    };
    let later = Asked {
        step: 60_000,
        ..MONDAY
    };
    assert!(rt;
        ends(
            &rt,
            rt.alloc(),
            sooner,
            false,
            b"free: 1000\nttm: rows done: 1 of 1\nttm: time: 0:02:59\nttm: bytes taken at most: 500\n"
        )
    );
    assert!(rt;
        ends(
            &rt,
            rt.alloc(),
            later,
            false,
            b"free: 1000
ttm: rows done: 1 of 1, 100 percent, about 0:00:00 left
ttm: rows done: 1 of 1
ttm: time: 0:03:00
ttm: bytes taken at most: 500
"
        )
    );
}

/// `Report::ended`, `Report::new`.
#[test]
fn rows_that_are_lost_are_not_done(rt: HostRuntime) {
    assert!(rt;
        ends(
            &rt,
            rt.alloc(),
            MONDAY,
            true,
            b"free: 1000\nttm: rows done: 0 of 1\nttm: time: 0:02:02\nttm: bytes taken at most: 500\n"
        )
    );
}

/// Whether what is told on a terminal of a long run ends so, with a clock of such steps.
fn moves(rt: &(impl Threads + Wait + Sync), alloc: Global, step: u64, text: &[u8]) -> bool {
    let asked = Asked {
        step,
        terminal: true,
        ..LONG_RUN
    };
    match long_run(rt, alloc, asked) {
        Some(told) => told.as_slice().ends_with(text),
        None => false,
    }
}

/// `Report::ended`, `Report::new`.
#[test]
fn a_shorter_line_covers_the_one_before(rt: HostRuntime) {
    let alloc = rt.alloc();
    // the second line is one byte shorter than the first, and the last one byte longer than the third
    assert!(rt;
        moves(
            &rt,
            alloc,
            12_000_000,
            b"free: 448
ttm: rows done: 1 of 4, 25 percent, about 10:00:00 left\r\
    ttm: rows done: 2 of 4, 50 percent, about 6:40:00 left \r\
    ttm: rows done: 3 of 4, 75 percent, about 3:20:00 left\r\
    ttm: rows done: 4 of 4, 100 percent, about 0:00:00 left\r
ttm: rows done: 4 of 4
ttm: time: 20:00:00
ttm: bytes taken at most: 500
"
        )
    );
    // the last line is two bytes shorter than the third
    assert!(rt;
        moves(
            &rt,
            alloc,
            3_600_000_000,
            b"about 1000:00:00 left\rttm: rows done: 4 of 4, 100 percent, about 0:00:00 left  \r
ttm: rows done: 4 of 4
ttm: time: 6000:00:00
ttm: bytes taken at most: 500
"
        )
    );
}

/// `memory_of`.
#[test]
fn memory_is_read_in_kilobytes(rt: HostRuntime) {
    let text =
        b"MemTotal:       24689000 kB\nMemAvailable:   16102636 kB\nBad: x kB\nMemAvailable: 1 kB\nOf Twice: 2 kB\n";
    assert_eq!(rt; memory_of(text, b"MemTotal:"), Some(25_281_536_000));
    assert_eq!(rt; memory_of(text, b"MemAvailable:"), Some(16_489_099_264));
    assert_eq!(rt; memory_of(text, b"Twice:"), None);
    assert_eq!(rt; memory_of(text, b"VmHWM:"), None);
    assert_eq!(rt; memory_of(text, b"Bad:"), None);
}

/// `Report::new`.
#[test]
fn the_machine_tells_of_itself(rt: HostRuntime) {
    let memory = Console::memory(&rt, rt.alloc());
    assert!(rt; memory.free.is_some() && memory.peak.is_some());
    assert!(rt; Console::milliseconds(&rt).is_some());
    Console::tell(&rt, b"");
}
