//! Runs of workers: the same matrix by one, two and seven of them, and what becomes of it where leases are lost.
ghost use Rattle.std.specs.Prelude.{◌≤◌};

use crate::ride_networks::{A, B, C, networks_of};
use crate::rows::{EDITED, EVERY_ROW, has, study_of};
use collector::Matrix;
use std::sync::Wait;
use std::sync::atomic::{AtomicU64, Ordering};
use std::thread::Threads;
use timetable::{Network, StopNo};
use work_book::{Board, Lease, Settled};
use workers::{Gate, Open, RunFault, Study, Verdict, run_workers};

/// One verdict for some leases, by number and job, and `Work` for the rest.
#[derive(Drop)]
struct Fate {
    verdict: Verdict,
    /// From this number on.
    first: u64,
    /// Up to this one.
    last: u64,
    /// Of this job alone, where there is one.
    job: Option<u32>,
    /// How often a lease was settled.
    told: AtomicU64,
    /// Whether `Kept` and `Double` didn't come by turns.
    uneven: AtomicU64,
}

impl Gate for Fate {
    fn before(&self, lease: &Lease) -> Verdict {
        let is_of_job = match self.job {
            Some(job) => job == lease.job,
            None => true,
        };
        if is_of_job && self.first <= lease.number && lease.number <= self.last {
            self.verdict
        } else {
            Verdict::Work
        }
    }

    fn after(&self, _lease: &Lease, settled: Settled) {
        let turn = self.told.fetch_add(1, Ordering::SeqCst);
        let is_kept = settled == Settled::Kept;
        let is_even = turn % 2 == 0;
        if is_kept != is_even {
            self.uneven.store(1, Ordering::SeqCst);
        }
    }
}

/// This verdict for the leases of these numbers.
fn ending(verdict: Verdict, first: u64, last: u64) -> Fate {
    Fate {
        verdict,
        first,
        last,
        job: None,
        told: AtomicU64::new(0),
        uneven: AtomicU64::new(0),
    }
}

/// Each of two jobs waits until the other is begun, some turns at most.
#[derive(Drop)]
struct Overlap {
    begun: [AtomicU64; 2],
    missed: AtomicU64,
}

impl Gate for Overlap {
    fn before(&self, lease: &Lease) -> Verdict {
        let mine = (lease.job % 2) as usize;
        self.begun[mine].store(1, Ordering::SeqCst);
        for _ in 0..100_000_000u64 {
            if self.begun[1 - mine].load(Ordering::SeqCst) == 1 {
                return Verdict::Work;
            }
        }
        self.missed.store(1, Ordering::SeqCst);
        Verdict::Work
    }

    fn after(&self, _lease: &Lease, _settled: Settled) {}
}

/// Delays one lease of every few, so that workers settle in another order than they draw.
#[derive(Drop)]
struct Delay {
    every: u64,
    turns: AtomicU64,
}

impl Gate for Delay {
    fn before(&self, lease: &Lease) -> Verdict {
        if lease.number % self.every.max(1) == 0 {
            for _ in 0..20_000u64 {
                self.turns.fetch_add(1, Ordering::SeqCst);
            }
        }
        Verdict::Work
    }

    fn after(&self, _lease: &Lease, _settled: Settled) {}
}

/// What a run over a new board gives.
fn run<R: Threads + Wait + Sync + AllocGlobal, G: Gate + Sync>(
    rt: &R,
    study: &Study,
    workers: u32,
    tries: u32,
    gate: &G,
) -> Result<Matrix, RunFault>
    requires workers { workers ≤ 64 }
    requires tries { (1 ≤ tries) × (tries ≤ 8) }
{
    if !study.fits() {
        return Err(RunFault::Spawn);
    }
    let jobs = study.networks.len() as u32 * study.origins.len() as u32;
    let Ok((board, mut seat)) = Board::new(rt.alloc(), jobs, tries) else {
        return Err(RunFault::Memory);
    };
    run_workers(rt, rt.alloc(), study, &board, &mut seat, workers, gate)
}

/// Whether a run gives every row of the three scenarios.
fn gives<R: Threads + Wait + Sync + AllocGlobal, G: Gate + Sync>(
    rt: &R,
    study: &Study,
    workers: u32,
    tries: u32,
    gate: &G,
) -> bool
    requires workers { workers ≤ 64 }
    requires tries { (1 ≤ tries) × (tries ≤ 8) }
{
    match run(rt, study, workers, tries, gate) {
        Ok(matrix) => {
            let found = (matrix.scenarios(), matrix.origins(), matrix.width());
            found == (3, 3, 3) && has(&matrix, &EVERY_ROW)
        }
        Err(_) => false,
    }
}

/// Whether a run has no row for this place, and for each before.
fn misses<R: Threads + Wait + Sync + AllocGlobal, G: Gate + Sync>(
    rt: &R,
    study: &Study,
    workers: u32,
    tries: u32,
    gate: &G,
    place: (u32, u32),
) -> bool
    requires workers { workers ≤ 64 }
    requires tries { (1 ≤ tries) × (tries ≤ 8) }
{
    match run(rt, study, workers, tries, gate) {
        Err(RunFault::Unfinished { scenario, origin }) => (scenario, origin) == place,
        _ => false,
    }
}

/// What the tests ask of runs.
#[derive(Clone, Copy)]
enum Asked {
    Workers,
    Lost,
    LostOnce,
    Vanished,
    VanishedOfTwo,
    Repeated,
    LostToTheLast,
    NeverDone,
    Delayed,
    NoWorker,
}

/// Whether the runs of the three scenarios are as asked.
fn are_right<R: Threads + Wait + Sync + AllocGlobal>(rt: &R, asked: Asked) -> bool {
    match networks_of(rt.alloc(), EDITED) {
        Ok(networks) => give(rt, &networks, asked),
        Err(_) => false,
    }
}

/// Whether the runs over these networks are as asked.
fn give<R: Threads + Wait + Sync + AllocGlobal>(
    rt: &R,
    networks: &[Network],
    asked: Asked,
) -> bool {
    let study = Study {
        origins: &[StopNo(A), StopNo(B), StopNo(C)],
        ..study_of(networks)
    };
    match asked {
        Asked::Workers => gives(rt, &study, 1, 1, &Open)
            && gives(rt, &study, 2, 1, &Open)
            && gives(rt, &study, 7, 2, &Open),
        Asked::Lost => lose_each(rt, &study),
        Asked::LostOnce => lose_each_once(rt, &study),
        Asked::Vanished => vanish_at_each(rt, &study),
        Asked::VanishedOfTwo => vanish_of_two(rt, &study),
        Asked::Repeated => repeat_each(rt, &study),
        Asked::LostToTheLast => gives(rt, &study, 2, 8, &ending(Verdict::Lose, 0, 62)),
        Asked::NeverDone => lose_one_job(rt, &study),
        Asked::Delayed => delay_some(rt, &study),
        Asked::NoWorker => matches!(run(rt, &study, 0, 1, &Open), Err(RunFault::Spawn)),
    }
}

/// `run_workers`.
#[test]
fn any_number_of_workers_gives_one_matrix(rt: HostRuntime) {
    assert!(rt; are_right(&rt, Asked::Workers));
}

/// A lost lease is missed, where there is no other of its job.
fn lose_each<R: Threads + Wait + Sync + AllocGlobal>(rt: &R, study: &Study) -> bool {
    for job in 0..9u32 {
        let number = u64::from(job);
        let gate = ending(Verdict::Lose, number, number);
        if !misses(rt, study, 1, 1, &gate, (job / 3, job % 3)) {
            return false;
        }
    }
    true
}

/// `run_workers`.
#[test]
fn a_lost_lease_leaves_its_place_empty(rt: HostRuntime) {
    assert!(rt; are_right(&rt, Asked::Lost));
}

/// A lost lease is made good by the next one of its job.
fn lose_each_once<R: Threads + Wait + Sync + AllocGlobal>(rt: &R, study: &Study) -> bool {
    for number in 0..18u64 {
        for workers in 1..3u32 {
            if !gives(
                rt,
                study,
                workers,
                2,
                &ending(Verdict::Lose, number, number),
            ) {
                return false;
            }
        }
    }
    true
}

/// `run_workers`.
#[test]
fn a_second_try_makes_a_lost_lease_good(rt: HostRuntime) {
    assert!(rt; are_right(&rt, Asked::LostOnce));
}

/// The only worker vanishes: in the first pass a place is missed, and in the second all rows are there.
fn vanish_at_each<R: Threads + Wait + Sync + AllocGlobal>(rt: &R, study: &Study) -> bool {
    for job in 0..9u32 {
        let number = u64::from(job);
        let gate = ending(Verdict::Vanish, number, number);
        let later = ending(Verdict::Vanish, number + 9, number + 9);
        if !misses(rt, study, 1, 2, &gate, (job / 3, job % 3)) || !gives(rt, study, 1, 2, &later) {
            return false;
        }
    }
    true
}

/// `run_workers`.
#[test]
fn the_only_worker_vanishes(rt: HostRuntime) {
    assert!(rt; are_right(&rt, Asked::Vanished));
}

/// Where one of two workers vanishes the other does its job.
fn vanish_of_two<R: Threads + Wait + Sync + AllocGlobal>(rt: &R, study: &Study) -> bool {
    for number in 0..18u64 {
        if !gives(rt, study, 2, 2, &ending(Verdict::Vanish, number, number)) {
            return false;
        }
    }
    true
}

/// `run_workers`.
#[test]
fn one_of_two_workers_vanishes(rt: HostRuntime) {
    assert!(rt; are_right(&rt, Asked::VanishedOfTwo));
}

/// Each lease is settled twice: kept first, and then a double.
fn repeat_each<R: Threads + Wait + Sync + AllocGlobal>(rt: &R, study: &Study) -> bool {
    let gate = ending(Verdict::Repeat, 0, 8);
    let is_given = gives(rt, study, 1, 1, &gate);
    is_given && gate.told.load(Ordering::SeqCst) == 18 && gate.uneven.load(Ordering::SeqCst) == 0
}

/// `run_workers`.
#[test]
fn each_repeat_is_kept_once(rt: HostRuntime) {
    assert!(rt; are_right(&rt, Asked::Repeated));
}

/// `run_workers`.
#[test]
fn all_leases_are_lost_but_the_last_of_each_job(rt: HostRuntime) {
    assert!(rt; are_right(&rt, Asked::LostToTheLast));
}

/// All leases of one job are lost.
fn lose_one_job<R: Threads + Wait + Sync + AllocGlobal>(rt: &R, study: &Study) -> bool {
    let gate = Fate {
        job: Some(4),
        ..ending(Verdict::Lose, 0, 71)
    };
    misses(rt, study, 2, 8, &gate, (1, 1))
}

/// `run_workers`.
#[test]
fn a_job_that_is_never_done_is_named(rt: HostRuntime) {
    assert!(rt; are_right(&rt, Asked::NeverDone));
}

/// Leases are delayed: all of them, or one of two or four.
fn delay_some<R: Threads + Wait + Sync + AllocGlobal>(rt: &R, study: &Study) -> bool {
    for every in [1u64, 2, 4] {
        let gate = Delay {
            every,
            turns: AtomicU64::new(0),
        };
        if !gives(rt, study, 3, 2, &gate) {
            return false;
        }
    }
    true
}

/// `run_workers`.
#[test]
fn delays_change_no_row(rt: HostRuntime) {
    assert!(rt; are_right(&rt, Asked::Delayed));
}

/// `run_workers`.
#[test]
fn without_a_worker_none_is_started(rt: HostRuntime) {
    assert!(rt; are_right(&rt, Asked::NoWorker));
}

/// Two workers of two jobs, each of which waits for the other.
fn overlaps<R: Threads + Wait + Sync + AllocGlobal>(rt: &R, networks: &[Network]) -> bool {
    let study = Study {
        origins: &[StopNo(A), StopNo(B)],
        ..study_of(networks)
    };
    let gate = Overlap {
        begun: [AtomicU64::new(0), AtomicU64::new(0)],
        missed: AtomicU64::new(0),
    };
    run(rt, &study, 2, 1, &gate).is_ok() && gate.missed.load(Ordering::SeqCst) == 0
}

/// `run_workers`.
#[test]
fn two_workers_are_at_work_at_once(rt: HostRuntime) {
    let is_met = match networks_of(rt.alloc(), &EDITED[..1]) {
        Ok(networks) => overlaps(&rt, &networks),
        Err(_) => false,
    };
    assert!(rt; is_met);
}
