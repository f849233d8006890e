//! The matrix of a study, by workers over a new board.
ghost use Rattle.std.specs.Prelude.{◌≡◌, ◌*◌, ◌⊎◌, Ok, Err, IfErr, IfOk};
ghost use Rattle.work_book.specs.Board.{IsOf, seen_by};
ghost use Rattle.work_book.specs.Views.{first_view};
ghost use Rattle.workers.specs.Jobs.{jobs_of};
ghost use Rattle.workers.specs.Matrices.{HasShape, IsMatrix};
ghost use Rattle.workers.specs.Outcomes.{HasSplit, IsByGate, IsFaultOf, IsFaultOfNew, NamesFirst};
ghost use Rattle.workers.specs.Study.{StudyFits, study_of};
ghost use Rattle.studies.specs.Settings.{SettingsFit};
ghost use Rattle.studies.specs.Watched.{listed, ended};

use crate::boxes::boxed;
use crate::settings::Settings;
use crate::watch::Watch;
use collector::Matrix;
use std::alloc::{AllocError, Global};
use std::sync::Wait;
use std::thread::Threads;
use work_book::{Board, WorkSeat};
use workers::{Gate, RunFault, Study, run_workers};

/// What the workers of a run share: the study, and the board of its jobs.
#[derive(Clone, Copy)]
struct Shared<'a, 'b> {
    study: &'b Study<'a>,
    board: &'b Board,
}

/// The matrix of a study, in a box, by as many workers as the settings say, who begin each row as often as they say at
/// most.
pub(crate) fn matrix_of<G: Gate + Sync, W: Watch, R: Threads + Wait + Sync>(
    rt: &R,
    alloc: Global,
    study: &Study<'_>,
    settings: &Settings,
    gate: &G,
    watch: &W,
) -> Result<Box<Matrix>, RunFault>
    requires study { StudyFits (study_of study.now) }
    requires settings { SettingsFit settings.now }
    requires listed { W.saw watch.now listed }
    ensures matrix { IfOk result (λ matrix. IsMatrix (study_of study.now) matrix.value) }
    ensures shape { IfOk result (λ matrix. HasShape (study_of study.now) matrix.value) }
    ensures fault { IfErr result (λ fault.
        IsFaultOfNew (study_of study.now) (G.decides gate.now) (G.was_told gate.now) settings.now.workers
        settings.now.tries fault) }
    ensures told { IfOk result (λ matrix. W.saw watch.now (ended (study_of study.now) (Ok matrix.value))) }
    ensures told_fault { IfErr result (λ fault. (fault ≡ RunFault.Memory)
        ⊎ W.saw watch.now (ended (study_of study.now) (Err fault))) }
{
    let (board, mut seat) = board_of(alloc, study, settings)?;
    let shared = Shared {
        study,
        board: &board,
    };
    watch.rows_begin(study);
    let matrix = matrix_on(rt, alloc, &shared, settings, &mut seat, gate);
    watch.rows_end(&matrix);
    Ok(boxed(alloc, matrix?)?)
}

/// A new board of the study's jobs, each offered as often as the settings say, and its first seat.
fn board_of(
    alloc: Global,
    study: &Study<'_>,
    settings: &Settings,
) -> Result<(Board, WorkSeat), AllocError>
    requires study { StudyFits (study_of study.now) }
    requires settings { SettingsFit settings.now }
    ensures jobs { IfOk result (λ r. r.0.jobs ≡ jobs_of (study_of study.now)) }
    ensures tries { IfOk result (λ r. r.0.tries ≡ settings.now.tries) }
    ensures board { IfOk result (λ r. IsOf r.0 r.1) }
    ensures seat { IfOk result (λ r.
        seen_by r.1 ≡ first_view (jobs_of (study_of study.now) * settings.now.tries)) }
{
    let jobs = study.networks.len() as u32 * study.origins.len() as u32;
    let (board, seat) = Board::new(alloc, jobs, settings.tries)?;
    Ok((board, seat))
}

/// The matrix of a study on a board, by as many workers as the settings say.
///
/// A place that a fault names is the first one whose job the seat didn't keep, and of its leases the gate let each go
/// that was drawn. The seat shows how many others were split off.
fn matrix_on<G: Gate + Sync, R: Threads + Wait + Sync>(
    rt: &R,
    alloc: Global,
    shared: &Shared<'_, '_>,
    settings: &Settings,
    seat: &mut WorkSeat,
    gate: &G,
) -> Result<Matrix, RunFault>
    requires study { StudyFits (study_of shared.now.study.now) }
    requires settings { SettingsFit settings.now }
    requires jobs { shared.now.board.now.jobs ≡ jobs_of (study_of shared.now.study.now) }
    requires board { IsOf shared.now.board.now seat.old }
    requires seat { seen_by seat.old ≡ first_view (jobs_of (study_of shared.now.study.now) * settings.now.tries) }
    ensures matrix { IfOk result (λ matrix. IsMatrix (study_of shared.now.study.now) matrix) }
    ensures shape { IfOk result (λ matrix. HasShape (study_of shared.now.study.now) matrix) }
    ensures workers { IfOk result (λ _. HasSplit settings.now.workers (seen_by seat.old) (seen_by seat.new)) }
    ensures workers_fault { IfErr result (λ fault. (fault ≡ RunFault.Memory)
        ⊎ HasSplit settings.now.workers (seen_by seat.old) (seen_by seat.new)) }
    ensures place { IfErr result (λ fault. NamesFirst (study_of shared.now.study.now) (seen_by seat.new) fault) }
    ensures fault { IfErr result (λ fault.
        IsFaultOf (study_of shared.now.study.now) (G.decides gate.now) (G.was_told gate.now) shared.now.board.now
        settings.now.workers (seen_by seat.old) (seen_by seat.new) fault) }
    ensures by_gate { IfErr result (λ fault.
        IsByGate (study_of shared.now.study.now) (G.decides gate.now) (G.was_told gate.now) shared.now.board.now.tries
        fault) }
{
    let workers = settings.workers;
    run_workers(rt, alloc, shared.study, shared.board, seat, workers, gate)
}
