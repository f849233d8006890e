//! Studies of the small feed: files, settings, and the texts of their matrices.

use footpaths::FootFault;
use gtfs_tables::{What, read_date};
use matrix_text::TextFault;
use scenarios::ScenarioWhat;
use service_days::DayFault;
use small_feed::{FROM_A, small_files};
use std::alloc::{AllocError, Global};
use studies::{Inputs, NamedFile, Settings, StudyFault};
use timetable::NetFault;
use workers::RunFault;

/// The first Monday on which the trips run.
pub(crate) const MONDAY: &[u8] = b"20260504";

/// Without the second route.
const CUT: &[u8] = b"action,id,seconds
remove_route,R2,
";

/// The settings of a study of the small feed, and its text.
#[derive(Clone, Copy)]
pub struct StudyCase {
    first: u32,
    minutes: u32,
    shares: &'static [u32],
    limits: &'static [u32],
    pub(crate) destinations: Option<&'static [u8]>,
    workers: u32,
    pub(crate) text: &'static [u8],
}

/// One minute, one share and one limit.
pub const ONE_SHARE: StudyCase = StudyCase {
    first: 480,
    minutes: 1,
    shares: &[50],
    limits: &[1_800],
    destinations: None,
    workers: 1,
    text: b"scenario,origin,share,access_1800,A,B,C
base,A,50,3,0,600,1800
cut,A,50,2,0,600,
",
};

/// Two shares, and C and A as the only destinations; access counts B too.
pub const TWO_DESTINATIONS: StudyCase = StudyCase {
    first: 478,
    minutes: 4,
    shares: &[25, 50],
    limits: &[1_800],
    destinations: Some(b"stop_id\nC\nA\n"),
    workers: 1,
    text: b"scenario,origin,share,access_1800,C,A
base,A,25,3,1800,0
base,A,50,2,1860,0
cut,A,25,2,,0
cut,A,50,2,,0
",
};

/// Four minutes, of which the last one misses the first ride; five shares and two limits.
pub const FIVE_SHARES: StudyCase = StudyCase {
    first: 478,
    minutes: 4,
    shares: &[1, 25, 50, 75, 100],
    limits: &[700, 1_800],
    destinations: None,
    workers: 2,
    text: b"scenario,origin,share,access_700,access_1800,A,B,C
base,A,1,2,3,0,600,1800
base,A,25,2,3,0,600,1800
base,A,50,2,2,0,660,1860
base,A,75,1,2,0,720,1920
base,A,100,1,1,0,,
cut,A,1,2,2,0,600,
cut,A,25,2,2,0,600,
cut,A,50,2,2,0,660,
cut,A,75,1,2,0,720,
cut,A,100,1,1,0,,
",
};

/// The scenario that cuts a route.
pub(crate) fn scenarios(alloc: Global) -> Result<Vec<NamedFile>, AllocError> {
    let mut files = Vec::with_capacity(alloc, 1)?;
    files.push(NamedFile {
        name: Vec::from_slice(alloc, b"cut")?,
        bytes: Vec::from_slice(alloc, CUT)?,
    })?;
    Ok(files)
}

/// The settings of a study of the first Monday.
pub(crate) fn settings(alloc: Global, case: StudyCase) -> Option<Settings> {
    Some(Settings {
        date: read_date(MONDAY)?,
        back: 1,
        ahead: 1,
        first: case.first,
        minutes: case.minutes,
        rides: 2,
        walk: 0,
        shares: Vec::from_slice(alloc, case.shares).ok()?,
        withins: Vec::from_slice(alloc, case.limits).ok()?,
        workers: case.workers,
        tries: 2,
    })
}

/// The files of a study from A, with these scenarios.
pub(crate) fn inputs_of<'a>(case: StudyCase, scenarios: &'a [NamedFile]) -> Inputs<'a> {
    Inputs {
        feed: small_files(),
        footpaths: None,
        origins: Some(FROM_A),
        opportunities: None,
        destinations: case.destinations,
        scenarios,
    }
}

/// Whether a study ran out of memory. The start of a thread takes memory too.
pub(crate) fn is_memory(fault: StudyFault) -> bool {
    match fault {
        StudyFault::Memory => true,
        StudyFault::Feed(fault) => fault.what == What::Memory,
        StudyFault::Scenario(_, fault) => fault.what == ScenarioWhat::Memory,
        StudyFault::Days(fault) => fault == DayFault::Memory,
        StudyFault::Feet(fault) => fault == FootFault::Memory,
        StudyFault::Net(_, fault) => fault == NetFault::Memory,
        StudyFault::Run(fault) => fault == RunFault::Memory || fault == RunFault::Spawn,
        StudyFault::Text(fault) => fault == TextFault::Memory,
        StudyFault::Scenarios | StudyFault::Name(_) => false,
    }
}
