//! How a study is run: by as many workers as it asks for, with each row begun as often as it asks for, and told in
//! order.

use crate::small_study::{MONDAY, settings_of, small_inputs};
use collector::Matrix;
use footpaths::Direct;
use gtfs_tables::Feed;
use scenarios::Scenario;
use service_days::Run;
use std::alloc::Global;
use std::sync::Wait;
use std::sync::atomic::{AtomicU64, Ordering};
use std::thread::Threads;
use studies::{Inputs, Settings, StudyFault, Unwatched, Watch, watch_study};
use timetable::{Feet, StopNo};
use work_book::{Lease, Settled};
use workers::{Gate, RunFault, Study, Verdict};

const FROM_TWO: &[u8] = b"stop_id
A
B
";

/// Runs a study of two rows.
fn ran<G: Gate + Sync, W: Watch, R: Threads + Wait + Sync>(
    rt: &R,
    alloc: Global,
    workers: u32,
    tries: u32,
    gate: &G,
    watch: &W,
) -> Result<(), StudyFault> {
    let Some(mut settings) = settings_of(alloc, MONDAY) else {
        return Err(StudyFault::Memory);
    };
    settings.workers = workers;
    settings.tries = tries;
    let inputs = Inputs {
        origins: Some(FROM_TWO),
        ..small_inputs()
    };
    if !inputs.fits() || !settings.fits() {
        return Err(StudyFault::Memory);
    }
    match watch_study(rt, alloc, &inputs, &settings, gate, watch) {
        Ok(_) => Ok(()),
        Err(fault) => Err(fault),
    }
}

/// Each of two jobs waits until the other is begun, some turns at most.
#[derive(Drop)]
struct Meeting {
    begun: [AtomicU64; 2],
    missed: AtomicU64,
}

impl Gate for Meeting {
    fn before(&self, lease: &Lease) -> Verdict {
        let mine = (lease.job % 2) as usize;
        self.begun[mine].store(1, Ordering::SeqCst);
        for _ in 0..10_000_000_000u64 {
            if self.begun[1 - mine].load(Ordering::SeqCst) == 1 {
                return Verdict::Work;
            }
        }
        self.missed.store(1, Ordering::SeqCst);
        Verdict::Work
    }

    fn after(&self, _lease: &Lease, _settled: Settled) {}
}

/// `watch_study`, `run_study`.
#[test]
fn two_workers_meet(rt: HostRuntime) {
    let gate = Meeting {
        begun: [AtomicU64::new(0), AtomicU64::new(0)],
        missed: AtomicU64::new(0),
    };
    assert!(rt; ran(&rt, rt.alloc(), 2, 1, &gate, &Unwatched).is_ok());
    assert_eq!(rt; gate.missed.load(Ordering::SeqCst), 0);
}

/// Loses the first lease of each job.
struct FirstLost;

impl Gate for FirstLost {
    fn before(&self, lease: &Lease) -> Verdict {
        if lease.pass == 0 {
            Verdict::Lose
        } else {
            Verdict::Work
        }
    }

    fn after(&self, _lease: &Lease, _settled: Settled) {}
}

/// `watch_study`.
#[test]
fn a_row_is_begun_as_often_as_is_asked_for(rt: HostRuntime) {
    let unfinished = StudyFault::Run(RunFault::Unfinished {
        scenario: 0,
        origin: 0,
    });
    assert!(rt; ran(&rt, rt.alloc(), 1, 2, &FirstLost, &Unwatched).is_ok());
    assert!(rt; ran(&rt, rt.alloc(), 1, 1, &FirstLost, &Unwatched) == Err(unfinished));
}

/// Counts what it is asked and told, and notes where that doesn't come in order.
#[derive(Drop)]
struct Ledger {
    /// How many stages were told.
    stages: AtomicU64,
    /// How many leases it was asked of.
    asked: AtomicU64,
    /// How many it was told of.
    told: AtomicU64,
    disorder: AtomicU64,
}

impl Ledger {
    /// A stage comes after so many others.
    fn stage(&self, before: u64) {
        if self.stages.fetch_add(1, Ordering::SeqCst) != before {
            self.disorder.store(1, Ordering::SeqCst);
        }
    }

    /// A lease comes while the rows are computed, after as many others as were told.
    fn lease(&self) {
        let is_between = self.stages.load(Ordering::SeqCst) == 3;
        let others = self.told.load(Ordering::SeqCst);
        if !is_between || self.asked.fetch_add(1, Ordering::SeqCst) != others {
            self.disorder.store(1, Ordering::SeqCst);
        }
    }
}

impl Gate for Ledger {
    fn before(&self, _lease: &Lease) -> Verdict {
        self.lease();
        Verdict::Work
    }

    fn after(&self, _lease: &Lease, settled: Settled) {
        let told = self.told.fetch_add(1, Ordering::SeqCst);
        if settled != Settled::Kept || self.asked.load(Ordering::SeqCst) != told.wrapping_add(1) {
            self.disorder.store(1, Ordering::SeqCst);
        }
    }
}

impl Watch for Ledger {
    fn tables_read(
        &self,
        _feed: &Feed,
        _direct: &Direct,
        _origins: &[StopNo],
        _destinations: &[StopNo],
    ) {
        self.stage(0);
    }

    fn days_listed(
        &self,
        _feed: &Feed,
        _settings: &Settings,
        _scenarios: &[Scenario],
        _runs: &[Run],
        _feet: &Feet,
    ) {
        self.stage(1);
    }

    fn rows_begin(&self, _study: &Study<'_>) {
        self.stage(2);
    }

    fn rows_end(&self, _made: &Result<Matrix, RunFault>) {
        self.stage(3);
    }
}

/// `watch_study`.
#[test]
fn one_worker_asks_once_of_each_row_and_tells_in_order(rt: HostRuntime) {
    let ledger = Ledger {
        stages: AtomicU64::new(0),
        asked: AtomicU64::new(0),
        told: AtomicU64::new(0),
        disorder: AtomicU64::new(0),
    };
    assert!(rt; ran(&rt, rt.alloc(), 1, 2, &ledger, &ledger).is_ok());
    assert_eq!(rt; ledger.stages.load(Ordering::SeqCst), 4);
    assert_eq!(rt; ledger.asked.load(Ordering::SeqCst), 2);
    assert_eq!(rt; ledger.told.load(Ordering::SeqCst), 2);
    assert_eq!(rt; ledger.disorder.load(Ordering::SeqCst), 0);
}
