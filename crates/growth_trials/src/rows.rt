//! The calls that compute rows, over three scenarios of two rides.
ghost use Rattle.std.specs.Prelude.{◌≤◌};

use crate::small_networks::{FIRST, LATER, Ride, SECOND, small_network};
use collector::{Matrix, Row};
use rounds::Window;
use std::alloc::{AllocError, Global};
use std::sync::Wait;
use std::thread::Threads;
use study_trials::{Outcome, told};
use timetable::{Network, StopNo};
use work_book::Board;
use workers::{Open, RunFault, Study, one_thread, row_of, run_workers};

/// A call that computes rows in its own thread.
#[derive(Clone, Copy)]
pub(crate) enum Call {
    RowOf,
    OneThread,
}

/// How many workers `run_workers` has.
#[derive(Clone, Copy)]
pub(crate) enum Workers {
    One,
    Two,
    Seven,
}

/// The feed as it is, without its second ride, and with its first ride 300 seconds late.
const SCENARIOS: [&[Ride]; 3] = [&[FIRST, SECOND], &[FIRST], &[LATER, SECOND]];

/// What a row gives: its access, and its cells.
type Given = (u64, [Option<u32>; 3]);

/// What the rows of each scenario give, from each stop. A function, so that proofs don't compute the whole list.
fn all_rows() -> [[Given; 3]; 3] {
    [
        [
            (3, [Some(0), Some(600), Some(1_800)]),
            (2, [None, Some(0), Some(1_800)]),
            (1, [None, None, Some(0)]),
        ],
        [
            (2, [Some(0), Some(600), None]),
            (1, [None, Some(0), None]),
            (1, [None, None, Some(0)]),
        ],
        [
            (3, [Some(0), Some(900), Some(1_800)]),
            (2, [None, Some(0), Some(1_800)]),
            (1, [None, None, Some(0)]),
        ],
    ]
}

/// The study of these networks from each stop: two rides, half of the minutes of 08:00 alone, and half an hour's reach.
fn study_of(networks: &[Network]) -> Study<'_> {
    Study {
        number: 7,
        networks,
        origins: &[StopNo(0), StopNo(1), StopNo(2)],
        opportunities: &[1, 1, 1],
        window: Window {
            first: 28_800,
            minutes: 1,
        },
        rides: 2,
        shares: &[50],
        withins: &[1_800],
        destinations: &[StopNo(0), StopNo(1), StopNo(2)],
    }
}

/// A network for each scenario.
fn networks(alloc: Global) -> Option<Vec<Network>> {
    let mut networks = Vec::with_capacity(alloc, 3).ok()?;
    for rides in SCENARIOS {
        push_network(alloc, &mut networks, rides)?;
    }
    Some(networks)
}

fn push_network(alloc: Global, networks: &mut Vec<Network>, rides: &[Ride]) -> Option<()> {
    let network = small_network(alloc, rides)?;
    networks.push(Box::into_inner(network)).ok()
}

/// Whether a row gives this.
fn gives(row: &Row, given: &Given) -> bool {
    match row.shares.as_slice() {
        [cells] => {
            cells.access.as_slice() == [given.0].as_slice()
                && cells.cells.as_slice() == given.1.as_slice()
        }
        _ => false,
    }
}

/// Whether it is the row of the second scenario and the first origin.
fn is_of_a_cut(row: &Row) -> bool {
    gives(row, &all_rows()[1][0])
}

/// Whether a matrix has each row.
fn has_rows(matrix: &Matrix) -> bool {
    if matrix.scenarios() != 3 || matrix.origins() != 3 {
        return false;
    }
    let rows = all_rows();
    for scenario in 0..3u32 {
        for origin in 0..3u32 {
            if !gives(
                matrix.row(scenario, origin),
                &rows[scenario as usize][origin as usize],
            ) {
                return false;
            }
        }
    }
    true
}

/// The trial of a call over the networks of the scenarios.
pub(crate) fn try_call(alloc: Global, call: Call) -> Outcome {
    match networks(alloc) {
        Some(networks) => try_over(alloc, &study_of(&networks), call),
        None => Outcome::Inputs,
    }
}

fn try_over(alloc: Global, study: &Study<'_>, call: Call) -> Outcome {
    Outcome::of(|| ask(alloc, study, call))
}

/// Whether a call gives the row of the second scenario and the first origin, or all rows.
fn ask(alloc: Global, study: &Study<'_>, call: Call) -> Result<bool, AllocError> {
    if !study.fits() || study.networks.len() != 3 || study.origins.len() != 3 {
        return Ok(false);
    }
    match call {
        Call::RowOf => Ok(is_of_a_cut(&row_of(alloc, study, 1, 0)?)),
        Call::OneThread => match one_thread(alloc, study) {
            Ok(matrix) => Ok(has_rows(&matrix)),
            Err(fault) => told(fault == RunFault::Memory),
        },
    }
}

/// The trial of `run_workers`.
pub(crate) fn try_workers<R: Threads + Wait + Sync>(
    rt: &R,
    alloc: Global,
    workers: Workers,
) -> Outcome {
    let workers = match workers {
        Workers::One => 1,
        Workers::Two => 2,
        Workers::Seven => 7,
    };
    match networks(alloc) {
        Some(networks) => try_runs(rt, alloc, &study_of(&networks), workers),
        None => Outcome::Inputs,
    }
}

fn try_runs<R: Threads + Wait + Sync>(
    rt: &R,
    alloc: Global,
    study: &Study<'_>,
    workers: u32,
) -> Outcome
    requires { workers ≤ 64 }
{
    match runs(rt, alloc, study, workers) {
        Some(Ok(is_right)) => Outcome::at_once(is_right),
        Some(Err(_)) => Outcome::again(runs(rt, alloc, study, workers).unwrap_or(Err(AllocError))),
        None => Outcome::Inputs,
    }
}

/// Whether a run at a new board gives all rows; none where there is no memory for the board.
fn runs<R: Threads + Wait + Sync>(
    rt: &R,
    alloc: Global,
    study: &Study<'_>,
    workers: u32,
) -> Option<Result<bool, AllocError>>
    requires { workers ≤ 64 }
{
    if !study.fits() {
        return Some(Ok(false));
    }
    let jobs = study.networks.len() as u32 * study.origins.len() as u32;
    let (board, mut seat) = Board::new(alloc, jobs, 2).ok()?;
    let made = run_workers(rt, alloc, study, &board, &mut seat, workers, &Open);
    Some(are_all(made))
}

/// Whether a run gave all rows. The start of a thread takes memory too, so that a run without any thread tells that it
/// is out of it.
fn are_all(made: Result<Matrix, RunFault>) -> Result<bool, AllocError> {
    match made {
        Ok(matrix) => Ok(has_rows(&matrix)),
        Err(fault) => told(fault == RunFault::Memory || fault == RunFault::Spawn),
    }
}
