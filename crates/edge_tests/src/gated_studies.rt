//! Whole studies whose leases are lost or repeated: the text stays the same, or the fault names the first place without
//! a row. The text is written by hand.

use crate::small_study::{MONDAY, scenario_file, settings_of};
use command_line::{UNFINISHED, status};
use small_feed::small_files;
use std::alloc::Global;
use std::process::Abort;
use std::sync::Wait;
use std::thread::Threads;
use studies::{Inputs, NamedFile, StudyFault, run_study};
use work_book::{Lease, Settled};
use workers::{Gate, Open, RunFault, Verdict};

const FROM_ALL: &[u8] = b"stop_id
A
B
C
";

const CUT: &[u8] = b"action,id,seconds
remove_route,R2,
";

const LATE: &[u8] = b"action,id,seconds
shift_trip,T1,300
";

/// The rows of the three scenarios from each stop.
const TEXT: &[u8] = b"scenario,origin,share,access_1800,A,B,C
base,A,50,3,0,600,1800
base,B,50,2,,0,1800
base,C,50,1,,,0
cut,A,50,2,0,600,
cut,B,50,1,,0,
cut,C,50,1,,,0
late,A,50,3,0,900,1800
late,B,50,2,,0,1800
late,C,50,1,,,0
";

/// A gate with one verdict for the leases of the first passes, and `Work` for all later ones.
#[derive(Clone, Copy)]
struct Passes {
    verdict: Verdict,
    count: u32,
}

impl Gate for Passes {
    fn before(&self, lease: &Lease) -> Verdict {
        if lease.pass < self.count {
            self.verdict
        } else {
            Verdict::Work
        }
    }

    fn after(&self, _lease: &Lease, _settled: Settled) {}
}

/// Loses the first lease of each job.
const FIRST_LOST: Passes = Passes {
    verdict: Verdict::Lose,
    count: 1,
};

/// Loses every lease of a study with two tries.
const ALL_LOST: Passes = Passes {
    verdict: Verdict::Lose,
    count: 2,
};

/// Repeats every lease of a study with two tries.
const ALL_REPEATED: Passes = Passes {
    verdict: Verdict::Repeat,
    count: 2,
};

/// A gate that loses every lease of one job, and lets all others be worked at.
#[derive(Clone, Copy)]
struct JobLost {
    job: u32,
}

impl Gate for JobLost {
    fn before(&self, lease: &Lease) -> Verdict {
        if lease.job == self.job {
            Verdict::Lose
        } else {
            Verdict::Work
        }
    }

    fn after(&self, _lease: &Lease, _settled: Settled) {}
}

/// The scenario files `cut` and `late`.
fn edited(alloc: Global) -> Option<Vec<NamedFile>> {
    let mut files = Vec::with_capacity(alloc, 2).ok()?;
    files.push(scenario_file(alloc, b"cut", CUT)?).ok()?;
    files.push(scenario_file(alloc, b"late", LATE)?).ok()?;
    Some(files)
}

/// What the study of the three scenarios gives without walks, with two tries and so many workers.
fn ran<G: Gate + Sync, R: Threads + Wait + Sync>(
    rt: &R,
    alloc: Global,
    workers: u32,
    gate: &G,
) -> Result<Vec<u8>, StudyFault> {
    ran_with(rt, alloc, workers, 2, gate)
}

/// The same with so many tries.
fn ran_with<G: Gate + Sync, R: Threads + Wait + Sync>(
    rt: &R,
    alloc: Global,
    workers: u32,
    tries: u32,
    gate: &G,
) -> Result<Vec<u8>, StudyFault> {
    let Some(scenarios) = edited(alloc) else {
        return Err(StudyFault::Memory);
    };
    let Some(mut settings) = settings_of(alloc, MONDAY) else {
        return Err(StudyFault::Memory);
    };
    settings.walk = 0;
    settings.workers = workers;
    settings.tries = tries;
    let inputs = Inputs {
        feed: small_files(),
        footpaths: None,
        origins: Some(FROM_ALL),
        opportunities: None,
        destinations: None,
        scenarios: &scenarios,
    };
    if !inputs.fits() || !settings.fits() {
        return Err(StudyFault::Memory);
    }
    run_study(rt, alloc, &inputs, &settings, gate)
}

/// Expects that the study has its text with one, two and seven workers.
fn expect_text<G: Gate + Sync, R: Threads + Wait + Sync + Abort>(rt: &R, alloc: Global, gate: &G) {
    for workers in [1u32, 2, 7] {
        match ran(rt, alloc, workers, gate) {
            Ok(text) => assert_eq!(rt; text.as_slice(), TEXT),
            Err(fault) => assert!(rt; false, "{workers} workers: {fault:?}"),
        }
    }
}

#[test]
fn an_open_gate_gives_the_text(rt: HostRuntime) {
    expect_text(&rt, rt.alloc(), &Open);
}

#[test]
fn lost_leases_of_the_first_pass_change_no_byte(rt: HostRuntime) {
    expect_text(&rt, rt.alloc(), &FIRST_LOST);
}

#[test]
fn repeated_leases_change_no_byte(rt: HostRuntime) {
    expect_text(&rt, rt.alloc(), &ALL_REPEATED);
}

#[test]
fn a_study_whose_leases_are_all_lost_names_its_first_place(rt: HostRuntime) {
    let first = StudyFault::Run(RunFault::Unfinished {
        scenario: 0,
        origin: 0,
    });
    for workers in [1u32, 2, 7] {
        match ran(&rt, rt.alloc(), workers, &ALL_LOST) {
            Ok(_) => assert!(rt; false, "{workers} workers"),
            Err(fault) => {
                assert_eq!(rt; status(&fault), UNFINISHED);
                assert!(rt; fault == first, "{workers} workers");
            }
        }
    }
}

/// Expects that the study is left unfinished at the place of a scenario and an origin.
fn expect_unfinished<R: Threads + Wait + Sync + Abort>(
    rt: &R,
    made: Result<Vec<u8>, StudyFault>,
    scenario: u32,
    origin: u32,
) {
    match made {
        Ok(_) => assert!(rt; false, "{scenario}, {origin}: a text"),
        Err(fault) => {
            assert_eq!(rt; status(&fault), UNFINISHED);
            let named = StudyFault::Run(RunFault::Unfinished { scenario, origin });
            assert!(rt; fault == named, "{scenario}, {origin}: {fault:?}");
        }
    }
}

#[test]
fn a_study_with_a_lost_job_names_its_place(rt: HostRuntime) {
    for job in 0..9u32 {
        for workers in [1u32, 2, 7] {
            let made = ran(&rt, rt.alloc(), workers, &JobLost { job });
            expect_unfinished(&rt, made, job / 3, job % 3);
        }
    }
}

#[test]
fn a_job_lost_in_all_eight_passes_leaves_its_place_empty(rt: HostRuntime) {
    let made = ran_with(&rt, rt.alloc(), 2, 8, &JobLost { job: 4 });
    expect_unfinished(&rt, made, 1, 1);
}
