//! `work_book` and `collector`: who computes which row, and which row counts.

use collector::{Cells, Collector, CoreAnswer, CoreStep, Matrix, Offer, Row, Unfinished, run_core};
use std::alloc::{AllocError, Global};
use std::test::Fail;
use work_book::{Answer, Board, Book, Closed, Draw, Lease, Settled, Step, WorkSeat};

/// The first lease of a book of two jobs.
const FIRST: Lease = Lease {
    number: 0,
    job: 0,
    pass: 0,
};

/// Whether a book of two jobs, one try and two seats answers each step.
fn answers_each(book: &mut Book) -> Result<bool, AllocError> {
    let drawn: Answer = book.draw(0)?;
    let seen: Answer = book.look(0, 0);
    let kept: Answer = book.settle(0, 0)?;
    let lost: Answer = book.lose(1);
    let steps = [
        Step::Draw(0),
        Step::Look(0, 1),
        Step::Settle(0, 1),
        Step::Loss(0),
    ];
    let told: Vec<Answer> = book.run(&steps)?;
    let are_told = told.len() == 4
        && told[1] == Answer::Mark(false)
        && told[2] == Answer::Kept
        && told[3] == Answer::Lost;
    Ok(
        are_told
            && drawn == Answer::Lease(FIRST)
            && seen == Answer::Mark(false)
            && kept == Answer::Kept
            && lost == Answer::Lost,
    )
}

/// Whether a book of two jobs and two seats shows that nothing has happened.
fn shows_nothing(alloc: Global) -> Result<bool, AllocError> {
    let book = Book::new(alloc, 2, 1, 2)?;
    let mark: bool = book.mark(1);
    let numbers: &[u64] = book.drawn(0);
    let jobs: &[u32] = book.kept(0);
    Ok(!mark && numbers.is_empty() && jobs.is_empty())
}

/// `Book::new`, `draw`, `look`, `settle`, `lose`, `run`, `next`, `mark`, `drawn`, `kept`.
#[test]
fn books(rt: HostRuntime) -> Result<(), Fail> {
    let mut book = Book::new(rt.alloc(), 2, 1, 2)?;
    let is_new = shows_nothing(rt.alloc())?;
    let are_right = answers_each(&mut book)?;
    let next: u64 = book.next();
    drop(book);
    assert!(rt; are_right && is_new && next == 2);
    Ok(())
}

/// `Board::new`, `split`, `join`, `draw`, `look`, `settle`, `close`; `WorkSeat::share`; `Closed::settled`, `next`.
#[test]
fn boards(rt: HostRuntime) -> Result<(), Fail> {
    let (board, mut seat): (Board, WorkSeat) = Board::new(rt.alloc(), 1, 1)?;
    let shares: u32 = seat.share();
    let mut other: WorkSeat = board.split(&mut seat);
    let was_settled: bool = board.look(&mut other, 0);
    match board.draw(&mut other) {
        Draw::Lease(lease) => {
            let settled: Settled = board.settle(&mut other, lease);
            assert!(rt; lease == FIRST && settled == Settled::Kept);
        }
        Draw::Nothing => assert!(rt; false),
    }
    board.join(&mut seat, other);
    let closed: Closed = board.close(seat);
    let (is_settled, next): (bool, u64) = (closed.settled(0), closed.next());
    drop(closed);
    assert!(rt; shares == 65_536 && !was_settled && is_settled && next == 1);
    Ok(())
}

/// The row of a place, with one cell and one sum.
fn row(alloc: Global, study: u64) -> Result<Row, AllocError> {
    let cells: Vec<Option<u32>> = vec![in alloc; Some(7)]?;
    let access: Vec<u64> = vec![in alloc; 3]?;
    Ok(Row {
        study,
        scenario: 0,
        origin: 0,
        shares: vec![in alloc; Cells { cells, access }]?,
    })
}

/// Whether a collector of one place keeps its row alone.
fn keeps_its_row(alloc: Global, collector: &mut Collector) -> Result<bool, AllocError> {
    let is_stranger = matches!(collector.offer(row(alloc, 2)?), Offer::Stranger(_));
    let is_kept = matches!(collector.offer(row(alloc, 1)?), Offer::Kept);
    let is_double = matches!(collector.offer(row(alloc, 1)?), Offer::Double(_));
    Ok(is_stranger && is_kept && is_double && is_empty(alloc)?)
}

/// Whether a collector of one place begins without its row.
fn is_empty(alloc: Global) -> Result<bool, AllocError> {
    let collector = Collector::new(alloc, 1, 1, 1, 1, 1, 1)?;
    let held: Option<&Row> = collector.place(0, 0);
    Ok(held.is_none())
}

/// Whether the matrix has one row.
fn has_its_row(matrix: &Matrix) -> bool {
    if matrix.scenarios() != 1 || matrix.origins() != 1 {
        return false;
    }
    let row: &Row = matrix.row(0, 0);
    (matrix.width(), matrix.shares(), matrix.limits()) == (1, 1, 1) && row.study == 1
}

/// Whether a collector of one place, with its row or without, ends as it should.
fn ends(alloc: Global, is_filled: bool) -> Result<bool, AllocError> {
    let mut collector = Collector::new(alloc, 1, 1, 1, 1, 1, 1)?;
    let is_kept = !is_filled || keeps_its_row(alloc, &mut collector)?;
    let finished: Result<Matrix, Unfinished> = collector.finish();
    match finished {
        Ok(matrix) => Ok(is_filled && is_kept && has_its_row(&matrix)),
        Err(
            Unfinished {
                collector,
                scenario,
                origin,
            },
        ) => {
            drop(collector);
            Ok(!is_filled && (scenario, origin) == (0, 0))
        }
    }
}

/// `Collector::new`, `offer`, `place`, `finish`; `Matrix::row`, `scenarios`, `origins`, `width`, `shares`, `limits`.
#[test]
fn collectors(rt: HostRuntime) -> Result<(), Fail> {
    assert!(rt; ends(rt.alloc(), true)?);
    assert!(rt; ends(rt.alloc(), false)?);
    Ok(())
}

/// Whether the core draws a lease, and keeps a row.
fn core_answers(alloc: Global, book: &mut Book) -> Result<bool, AllocError> {
    let mut collector = Collector::new(alloc, 1, 1, 1, 1, 1, 1)?;
    let mut steps: Vec<CoreStep> = Vec::with_capacity(alloc, 2)?;
    steps.push(CoreStep::Hand(0, row(alloc, 1)?))?;
    steps.push(CoreStep::Book(Step::Draw(0)))?;
    let told: Result<Vec<CoreAnswer>, Vec<CoreStep>> = run_core(alloc, book, &mut collector, steps);
    match told {
        Ok(told) => Ok(
            told.len() == 2
                && matches!(&told[0], CoreAnswer::Hand(Offer::Kept))
                && matches!(&told[1], CoreAnswer::Book(Answer::Lease(_))),
        ),
        Err(_) => Ok(false),
    }
}

/// `run_core`.
#[test]
fn cores(rt: HostRuntime) -> Result<(), Fail> {
    let mut book = Book::new(rt.alloc(), 1, 1, 1)?;
    let are_right = core_answers(rt.alloc(), &mut book)?;
    drop(book);
    assert!(rt; are_right);
    Ok(())
}
