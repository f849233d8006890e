//! The line and the exit status of each fault.

use command_line::{Opt, bad_line, fault_line, status};
use footpaths::FootFault;
use gtfs_tables::{FeedBytes, FeedFault, FileName, What};
use matrix_text::TextFault;
use scenarios::{ScenarioFault, ScenarioWhat};
use service_days::DayFault;
use std::alloc::{AllocError, Global};
use std::process::Abort;
use studies::{Inputs, NamedFile, StudyFault};
use timetable::NetFault;
use workers::RunFault;

/// No file of a feed.
const NO_FILES: FeedBytes<'static> = FeedBytes {
    stops: None,
    routes: None,
    calendar: None,
    calendar_dates: None,
    trips: None,
    stop_times: None,
    frequencies: None,
    transfers: None,
};

/// The line of a fault of a study with one scenario file, `cut`.
fn line(alloc: Global, fault: StudyFault) -> Result<Vec<u8>, AllocError> {
    let mut files = Vec::new(alloc);
    files.push(NamedFile {
        name: Vec::from_slice(alloc, b"cut")?,
        bytes: Vec::new(alloc),
    })?;
    let inputs = Inputs {
        feed: NO_FILES,
        footpaths: None,
        origins: None,
        opportunities: None,
        destinations: None,
        scenarios: files.as_slice(),
    };
    fault_line(alloc, &fault, &inputs)
}

/// Whether the fault is told by this line and status.
fn is_told(alloc: Global, fault: StudyFault, want: &[u8], code: u8) -> bool {
    match line(alloc, fault) {
        Ok(line) => line.as_slice() == want && status(&fault) == code,
        Err(_) => false,
    }
}

fn feed(file: FileName, at: u64, what: What) -> StudyFault {
    StudyFault::Feed(FeedFault { file, at, what })
}

fn scenario(at: u64, what: ScenarioWhat) -> StudyFault {
    StudyFault::Scenario(0, ScenarioFault { at, what })
}

/// Expects that the fault is told by this line and status.
fn expect_line(rt: &impl Abort, alloc: Global, fault: StudyFault, want: &[u8], code: u8) {
    assert!(rt; is_told(alloc, fault, want, code));
}

/// Expects that the line of a fault begins and goes on with these texts, and that its status is 2.
fn expect_words(rt: &impl Abort, alloc: Global, fault: StudyFault, start: &[u8], words: &[u8]) {
    assert!(rt; has_words(alloc, fault, start, words));
}

fn has_words(alloc: Global, fault: StudyFault, start: &[u8], words: &[u8]) -> bool {
    match line(alloc, fault) {
        Ok(line) => line.as_slice().strip_prefix(start) == Some(words) && status(&fault) == 2,
        Err(_) => false,
    }
}

/// Expects that a bad date of record 9 of this file is told so.
fn expect_file(rt: &impl Abort, alloc: Global, file: FileName, words: &[u8]) {
    expect_words(rt, alloc, feed(file, 9, What::BadDate), b"ttm: ", words);
}

/// `status`.
#[test]
fn tells_each_file_of_stops_and_days(rt: HostRuntime) {
    let alloc = rt.alloc();
    expect_file(
        &rt,
        alloc,
        FileName::Stops,
        b"stops.txt: record 9: bad date\n",
    );
    expect_file(
        &rt,
        alloc,
        FileName::Routes,
        b"routes.txt: record 9: bad date\n",
    );
    expect_file(
        &rt,
        alloc,
        FileName::Calendar,
        b"calendar.txt: record 9: bad date\n",
    );
    expect_file(
        &rt,
        alloc,
        FileName::CalendarDates,
        b"calendar_dates.txt: record 9: bad date\n",
    );
}

/// `status`.
#[test]
fn tells_each_file_of_trips_and_walks(rt: HostRuntime) {
    let alloc = rt.alloc();
    expect_file(
        &rt,
        alloc,
        FileName::Trips,
        b"trips.txt: record 9: bad date\n",
    );
    expect_file(
        &rt,
        alloc,
        FileName::StopTimes,
        b"stop_times.txt: record 9: bad date\n",
    );
    expect_file(
        &rt,
        alloc,
        FileName::Frequencies,
        b"frequencies.txt: record 9: bad date\n",
    );
    expect_file(
        &rt,
        alloc,
        FileName::Transfers,
        b"transfers.txt: record 9: bad date\n",
    );
}

/// `status`.
#[test]
fn tells_each_file_of_an_analyst(rt: HostRuntime) {
    let alloc = rt.alloc();
    expect_file(
        &rt,
        alloc,
        FileName::Footpaths,
        b"footpaths.csv: record 9: bad date\n",
    );
    expect_file(
        &rt,
        alloc,
        FileName::Origins,
        b"origins: record 9: bad date\n",
    );
    expect_file(
        &rt,
        alloc,
        FileName::Opportunities,
        b"opportunities: record 9: bad date\n",
    );
}

/// `status`.
#[test]
fn tells_the_file_of_destinations(rt: HostRuntime) {
    let alloc = rt.alloc();
    let fault = FeedFault {
        file: FileName::Destinations,
        at: 9,
        what: What::BadDate,
    };
    expect_words(
        &rt,
        alloc,
        StudyFault::Feed(fault),
        b"ttm: ",
        b"destinations: record 9: bad date\n",
    );
    let short = FeedFault {
        what: What::Memory,
        ..fault
    };
    expect_line(
        &rt,
        alloc,
        StudyFault::Feed(short),
        b"ttm: out of memory\n",
        3,
    );
}

/// Expects that a fault of record 5 of `stop_times.txt` is told by these words.
fn expect_what(rt: &impl Abort, alloc: Global, what: What, words: &[u8]) {
    let start = b"ttm: stop_times.txt: record 5: ";
    expect_words(rt, alloc, feed(FileName::StopTimes, 5, what), start, words);
}

/// `status`.
#[test]
fn tells_each_fault_of_a_feed(rt: HostRuntime) {
    let alloc = rt.alloc();
    let missing = feed(FileName::StopTimes, 0, What::MissingFile);
    expect_line(
        &rt,
        alloc,
        missing,
        b"ttm: stop_times.txt: missing file\n",
        2,
    );
    expect_what(&rt, alloc, What::MissingColumn, b"missing column\n");
    expect_what(&rt, alloc, What::EmptyId, b"empty id\n");
    expect_what(&rt, alloc, What::DuplicateId, b"duplicate id\n");
    expect_what(&rt, alloc, What::UnknownStop, b"unknown stop\n");
    expect_what(&rt, alloc, What::UnknownRoute, b"unknown route\n");
    expect_what(&rt, alloc, What::UnknownTrip, b"unknown trip\n");
    expect_what(&rt, alloc, What::BadTime, b"bad time\n");
    expect_what(&rt, alloc, What::BadDate, b"bad date\n");
    expect_what(&rt, alloc, What::BadNumber, b"bad number\n");
    expect_what(&rt, alloc, What::NoTime, b"no time\n");
    expect_what(&rt, alloc, What::TimesGoBack, b"times go back\n");
    expect_what(&rt, alloc, What::TooMany, b"too many\n");
    let memory = feed(FileName::StopTimes, 5, What::Memory);
    expect_line(&rt, alloc, memory, b"ttm: out of memory\n", 3);
}

/// Expects that a fault of record 2 of the scenario file is told by these words.
fn expect_edit(rt: &impl Abort, alloc: Global, what: ScenarioWhat, words: &[u8]) {
    let start = b"ttm: scenario cut: record 2: ";
    expect_words(rt, alloc, scenario(2, what), start, words);
}

/// `status`.
#[test]
fn tells_each_fault_of_a_scenario(rt: HostRuntime) {
    let alloc = rt.alloc();
    expect_edit(&rt, alloc, ScenarioWhat::UnknownAction, b"unknown action\n");
    expect_edit(&rt, alloc, ScenarioWhat::UnknownRoute, b"unknown route\n");
    expect_edit(&rt, alloc, ScenarioWhat::UnknownTrip, b"unknown trip\n");
    expect_edit(&rt, alloc, ScenarioWhat::BadNumber, b"bad number\n");
    expect_edit(
        &rt,
        alloc,
        ScenarioWhat::ShiftOutOfRange,
        b"shift out of range\n",
    );
    expect_edit(&rt, alloc, ScenarioWhat::MissingColumn, b"missing column\n");
    expect_edit(&rt, alloc, ScenarioWhat::TooMany, b"too many\n");
    let memory = scenario(2, ScenarioWhat::Memory);
    expect_line(&rt, alloc, memory, b"ttm: out of memory\n", 3);
}

/// `status`.
#[test]
fn tells_each_fault_of_names_and_networks(rt: HostRuntime) {
    let alloc = rt.alloc();
    let base = StudyFault::Net(0, NetFault::TooLarge);
    let cut = StudyFault::Net(1, NetFault::TooLarge);
    let memory = StudyFault::Net(1, NetFault::Memory);
    expect_line(
        &rt,
        alloc,
        StudyFault::Scenarios,
        b"ttm: too many scenarios\n",
        2,
    );
    expect_line(
        &rt,
        alloc,
        StudyFault::Name(0),
        b"ttm: scenario name: cut\n",
        2,
    );
    expect_line(
        &rt,
        alloc,
        base,
        b"ttm: scenario base: network too large\n",
        2,
    );
    expect_line(
        &rt,
        alloc,
        cut,
        b"ttm: scenario cut: network too large\n",
        2,
    );
    expect_line(&rt, alloc, memory, b"ttm: out of memory\n", 3);
}

/// Expects that a fault of the days is told by this line and status.
fn expect_days(rt: &impl Abort, alloc: Global, fault: DayFault, want: &[u8], code: u8) {
    expect_line(rt, alloc, StudyFault::Days(fault), want, code);
}

/// Expects that a fault of the closed footpaths is told by this line and status.
fn expect_feet(rt: &impl Abort, alloc: Global, fault: FootFault, want: &[u8], code: u8) {
    expect_line(rt, alloc, StudyFault::Feet(fault), want, code);
}

/// `status`.
#[test]
fn tells_each_fault_of_days_and_footpaths(rt: HostRuntime) {
    let alloc = rt.alloc();
    expect_days(
        &rt,
        alloc,
        DayFault::DateRange,
        b"ttm: date out of range\n",
        2,
    );
    expect_days(&rt, alloc, DayFault::TooMany, b"ttm: too many runs\n", 2);
    expect_days(&rt, alloc, DayFault::Memory, b"ttm: out of memory\n", 3);
    expect_feet(
        &rt,
        alloc,
        FootFault::TooMany,
        b"ttm: too many footpaths\n",
        2,
    );
    expect_feet(&rt, alloc, FootFault::Memory, b"ttm: out of memory\n", 3);
}

/// Expects that a fault of the run is told by this line and status.
fn expect_run(rt: &impl Abort, alloc: Global, fault: RunFault, want: &[u8], code: u8) {
    expect_line(rt, alloc, StudyFault::Run(fault), want, code);
}

/// `status`.
#[test]
fn tells_each_fault_of_a_run_and_its_text(rt: HostRuntime) {
    let alloc = rt.alloc();
    let unfinished = RunFault::Unfinished {
        scenario: 1,
        origin: 20,
    };
    let memory = StudyFault::Text(TextFault::Memory);
    expect_run(&rt, alloc, RunFault::Memory, b"ttm: out of memory\n", 3);
    expect_run(&rt, alloc, RunFault::Spawn, b"ttm: no worker started\n", 3);
    expect_run(
        &rt,
        alloc,
        unfinished,
        b"ttm: unfinished: scenario 1, origin 20\n",
        4,
    );
    expect_line(
        &rt,
        alloc,
        StudyFault::Text(TextFault::Write),
        b"ttm: write fault\n",
        5,
    );
    expect_line(&rt, alloc, memory, b"ttm: out of memory\n", 3);
    expect_line(&rt, alloc, StudyFault::Memory, b"ttm: out of memory\n", 3);
}

/// Expects that a bad text of this option is told by this line.
fn expect_option(rt: &impl Abort, option: Opt, want: &[u8]) {
    assert_eq!(rt; bad_line(option), want);
}

/// `bad_line`.
#[test]
fn tells_each_bad_option(rt: HostRuntime) {
    expect_option(&rt, Opt::Date, b"ttm: bad date\n");
    expect_option(&rt, Opt::Window, b"ttm: bad window\n");
    expect_option(&rt, Opt::Trips, b"ttm: bad trips\n");
    expect_option(&rt, Opt::Walk, b"ttm: bad walk\n");
    expect_option(&rt, Opt::Share, b"ttm: bad share\n");
    expect_option(&rt, Opt::Within, b"ttm: bad within\n");
    expect_option(&rt, Opt::Workers, b"ttm: bad workers\n");
    expect_option(&rt, Opt::Tries, b"ttm: bad tries\n");
    expect_option(&rt, Opt::Back, b"ttm: bad back\n");
    expect_option(&rt, Opt::Ahead, b"ttm: bad ahead\n");
}
