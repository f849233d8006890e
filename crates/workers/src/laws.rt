//! What follows for rows and matrices.
ghost use Rattle.std.specs.Prelude.{◌≡◌, ◌<◌, [], IfOk};
ghost use Rattle.work_book.specs.Board.{seen_by, IsOf};
ghost use Rattle.workers.specs.Study.{study_of, StudyFits};
ghost use Rattle.workers.specs.Jobs.{jobs_of};
ghost use Rattle.workers.specs.Laws.{
  RowsAreUnique,
  RowsDependOnTheirNetwork,
  RowsHaveTheirColumns,
  MatricesHaveTheirColumns,
  MatricesAreUnique,
  WholesHaveTheRowsOfTheirParts,
};

use crate::faults::RunFault;
use crate::gates::Gate;
use crate::plain::one_thread;
use crate::run::run_workers;
use crate::study::Study;
use collector::Matrix;
use std::alloc::Global;
use std::sync::Wait;
use std::thread::Threads;
use work_book::{Board, WorkSeat};

/// A law: a network, an origin, opportunities and a query have one row, whatever computes it.
pub fn rows_are_unique()
    ensures { RowsAreUnique }
{}

/// A law: a scenario's rows depend on its own network alone.
///
/// Two studies that agree on one scenario's network, and on origins, opportunities, window, rides, shares and limits of
/// reach, have the same cells and access sums in that scenario's rows, whatever their other scenarios are.
pub fn rows_depend_on_their_network()
    ensures { RowsDependOnTheirNetwork }
{}

/// A law: which stops are destinations changes no number.
///
/// Beside the row of the same network, origin, opportunities and question with all stops as destinations, a row has the
/// same access sums, and for each of its destinations the cell that the other one has at that stop. So the matrix of a
/// study is that of the same study with all stops, with the other columns left out.
pub fn rows_have_their_columns()
    ensures rows { RowsHaveTheirColumns }
    ensures matrices { MatricesHaveTheirColumns }
{}

/// A law: the rows of a study are those of its parts, each a study of some of the origins.
///
/// Where the parts ask the same of the same networks and have the study's origins, one part after the other, then in
/// each scenario their rows, one part after the other, have the cells and access sums of the study's rows.
pub fn wholes_have_the_rows_of_their_parts()
    ensures { WholesHaveTheRowsOfTheirParts }
{}

/// A law: a study has one matrix, whatever computes it.
pub fn matrices_are_unique()
    ensures { MatricesAreUnique }
{}

/// A law: the matrix of workers is that of one thread, where both give one.
///
/// So it is for every number of workers and every gate, and whatever order the threads' steps come in.
pub fn workers_give_the_matrix_of_one_thread<G: Gate + Sync, R: Threads + Wait + Sync>(
    rt: &R,
    alloc: Global,
    study: &Study,
    board: &Board,
    seat: &mut WorkSeat,
    workers: u32,
    gate: &G,
) -> (Result<Matrix, RunFault>, Result<Matrix, RunFault>)
    requires fits { StudyFits (study_of study.now) }
    requires jobs { board.now.jobs ≡ jobs_of (study_of study.now) }
    requires board { IsOf board.now seat.old }
    requires empty { ((seen_by seat.old).drawn ≡ []) × ((seen_by seat.old).kept ≡ []) }
    requires share { workers < (seen_by seat.old).share }
    ensures { IfOk result.0 (λ one. IfOk result.1 (λ many. one ≡ many)) }
{
    let one = one_thread(alloc, study);
    let many = run_workers(rt, alloc, study, board, seat, workers, gate);
    (one, many)
}
