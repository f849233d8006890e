//! A run of workers over a board, from the first seat to the matrix.
ghost use Rattle.std.specs.Prelude.{◌≡◌, ◌<◌, ◌||◌, ◌⊎◌, List, [], true, All, IfOk, IfErr, vec_len, length};
ghost use Rattle.work_book.specs.declared.rule.View.{View};
ghost use Rattle.workers.specs.declared.worker.Worked.{Worked};
ghost use Rattle.work_book.specs.Board.{seen_by, IsOf};
ghost use Rattle.work_book.specs.Moves.{IsOnce, IsWhole};
ghost use Rattle.collector.specs.Offers.{IsFinished, offered};
ghost use Rattle.workers.specs.Study.{StudyData, study_of, StudyFits};
ghost use Rattle.workers.specs.Matrices.{IsMatrix, HasShape};
ghost use Rattle.workers.specs.Jobs.{jobs_of};
ghost use Rattle.workers.specs.Held.{AreTold, HoldsRows};
ghost use Rattle.workers.specs.Threads.{AreReady};
ghost use Rattle.workers.specs.Filling.{AreFilledAs};
ghost use Rattle.workers.specs.Outcomes.{HasSplit, KeptEachJob, IsByGate, IsFaultOf, IsWhy, NamesFirst};
ghost use Rattle.workers.specs.Outcomes.{is_short, is_some_short, is_started, is_some_started, joined, without};

use crate::faults::RunFault;
use crate::gates::Gate;
use crate::jobs::empty_places;
use crate::study::Study;
use crate::task::StudyTask;
use crate::threads::do_all;
use crate::worker::{Ending, Worked};
use collector::{Collector, Matrix, Row};
use std::alloc::{AllocError, Global};
use std::sync::Wait;
use std::thread::Threads;
use work_book::{Board, WorkSeat};

/// The matrix of a study that fits, computed by workers in threads of their own that share a board.
///
/// The board has one job for each scenario and origin, and the seat is its first, or one that drew and kept nothing and
/// has a share above the number of workers. The gate decides what becomes of each lease. The matrix is the study's,
/// whatever the gate decides and whatever the threads' order is; then the seat has kept each job, once.
///
/// `Spawn` is told where no worker could be started, and a place is empty; `Memory`, where memory ran out before the
/// start, or for a worker, and a place is empty; else `Unfinished` names the first empty place. A worker whose start is
/// refused is left out, and the others go on; its seat comes back, and drew nothing.
///
/// Where the seat has every share, nobody else draws. So `Unfinished` says what the gate did: it let each lease of the
/// named place go that was drawn, and was told of each place before that its row is kept.
pub fn run_workers<G: Gate + Sync, R: Threads + Wait + Sync>(
    rt: &R,
    alloc: Global,
    study: &Study,
    board: &Board,
    seat: &mut WorkSeat,
    workers: u32,
    gate: &G,
) -> Result<Matrix, RunFault>
    requires fits { StudyFits (study_of study.now) }
    requires jobs { board.now.jobs ≡ jobs_of (study_of study.now) }
    requires board { IsOf board.now seat.old }
    requires empty { ((seen_by seat.old).drawn ≡ []) × ((seen_by seat.old).kept ≡ []) }
    requires share { workers < (seen_by seat.old).share }
    ensures board { IsOf board.now seat.new }
    ensures matrix { IfOk result (λ matrix. IsMatrix (study_of study.now) matrix) }
    ensures shape { IfOk result (λ matrix. HasShape (study_of study.now) matrix) }
    ensures kept { IfOk result (λ _. KeptEachJob (study_of study.now) (seen_by seat.new)) }
    ensures told { AreTold (G.decides gate.now) (G.was_told gate.now) (seen_by seat.new).kept }
    ensures split { IfOk result (λ _. HasSplit workers (seen_by seat.old) (seen_by seat.new)) }
    ensures split_fault { IfErr result (λ fault. (fault ≡ RunFault.Memory)
        ⊎ HasSplit workers (seen_by seat.old) (seen_by seat.new)) }
    ensures place { IfErr result (λ fault. NamesFirst (study_of study.now) (seen_by seat.new) fault) }
    ensures fault { IfErr result (λ fault.
        IsFaultOf (study_of study.now) (G.decides gate.now) (G.was_told gate.now) board.now workers (seen_by seat.old)
        (seen_by seat.new) fault) }
    ensures by_gate { (seen_by seat.old).share ≡ 65536 → IfErr result (λ fault.
        IsByGate (study_of study.now) (G.decides gate.now) (G.was_told gate.now) board.now.tries fault) }
{
    let mut collector = empty_places(alloc, study)?;
    let seats = split_all(alloc, board, seat, workers as usize)?;
    let task = StudyTask {
        alloc,
        study,
        board,
        gate,
    };
    let worked = do_all(rt, alloc, &task, seats)?;
    let ends = gather(board, seat, &mut collector, worked);
    matrix_of(collector, ends)
}

/// How workers ended.
#[derive(Clone, Copy)]
struct Ends {
    /// Whether one ran out of memory.
    short: bool,
    /// Whether one was started.
    started: bool,
}

/// A seat for each worker.
fn split_all(
    alloc: Global,
    board: &Board,
    seat: &mut WorkSeat,
    workers: usize,
) -> Result<Vec<WorkSeat>, AllocError>
    requires board { IsOf board.now seat.old }
    requires share { workers < (seen_by seat.old).share }
    ensures board { IsOf board.now seat.new }
    ensures lists { ((seen_by seat.new).drawn ≡ (seen_by seat.old).drawn)
        × ((seen_by seat.new).kept ≡ (seen_by seat.old).kept) }
    ensures left { IfOk result (λ _. seen_by seat.new ≡ without workers (seen_by seat.old)) }
    ensures ready { IfOk result (λ seats. AreReady board.now seats.items) }
    ensures count { IfOk result (λ seats. vec_len seats ≡ workers) }
{
    let mut seats = Vec::with_capacity(alloc, workers)?;
    for _ in 0..workers {
        seats.push_reserved(board.split(seat));
    }
    Ok(seats)
}

/// Takes in the workers' seats, and offers each of their rows once.
fn gather(
    board: &Board,
    seat: &mut WorkSeat,
    collector: &mut Collector,
    worked: Vec<Worked>,
) -> Ends
    requires board { IsOf board.now seat.old }
    requires worked { All (λ w. IsOf board.now w.seat) worked.items }
    requires once { IsOnce (seen_by seat.old) }
    ensures board { IsOf board.now seat.new }
    ensures once { IsOnce (seen_by seat.new) }
    ensures joined { seen_by seat.new ≡ joined (seen_by seat.old) worked.items }
    ensures whole { (seen_by seat.new).share ≡ 65536 → (length worked.items ≡ 0) ⊎ IsWhole (seen_by seat.new) }
    ensures short { result.short ≡ is_some_short worked.items }
    ensures started { result.started ≡ is_some_started worked.items }
    ensures filled { (s : StudyData) → StudyFits s →
        All (λ w. HoldsRows s w.rows.items (seen_by w.seat).kept) worked.items →
        AreFilledAs s (seen_by seat.old).kept collector.old → AreFilledAs s (seen_by seat.new).kept collector.new }
{
    let mut ends = Ends {
        short: false,
        started: false,
    };
    for done in worked {
        let Worked {
            seat: theirs,
            rows,
            ending,
        } = done;
        board.join(seat, theirs);
        offer_all(collector, rows);
        ends = with_ending(ends, ending);
    }
    ends
}

/// How workers ended, with one more.
fn with_ending(ends: Ends, ending: Ending) -> Ends
    ensures short { result.short ≡ (ends.short || is_short ending) }
    ensures started { result.started ≡ (ends.started || is_started ending) }
{
    match ending {
        Ending::Short => Ends {
            short: true,
            started: true,
        },
        Ending::Nothing | Ending::Vanished => Ends {
            started: true,
            ..ends
        },
        Ending::Refused => ends,
    }
}

/// Offers each row once.
fn offer_all(collector: &mut Collector, rows: Vec<Row>)
    ensures { collector.new ≡ offered collector.old rows.items }
{
    for row in rows {
        collector.offer(row);
    }
}

/// The matrix of places that all have their rows, or why there is none.
fn matrix_of(collector: Collector, ends: Ends) -> Result<Matrix, RunFault>
    ensures full { IfOk result (λ matrix. IsFinished collector matrix) }
    ensures fault { (s : StudyData) → (v : View) → (worked : List Worked) → AreFilledAs s v.kept collector → IsOnce v →
        ends.short ≡ is_some_short worked → ends.started ≡ is_some_started worked →
        IfErr result (λ fault. IsWhy s v worked fault) }
{
    match collector.finish() {
        Ok(matrix) => Ok(matrix),
        Err(_) if ends.short => Err(RunFault::Memory),
        Err(_) if !ends.started => Err(RunFault::Spawn),
        Err(unfinished) => Err(RunFault::Unfinished {
            scenario: unfinished.scenario,
            origin: unfinished.origin,
        }),
    }
}
