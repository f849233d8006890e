//! The calls that make and keep books of work, boards, and the places of rows.
ghost use Rattle.std.specs.Prelude.{◌≡◌, length, IfOk};
ghost use Rattle.work_book.specs.Board.{IsOf};

use crate::small_rows::row_with;
use collector::{Collector, CoreAnswer, CoreStep, Offer, Row, run_core};
use std::alloc::{AllocError, Global};
use study_trials::Outcome;
use work_book::{Answer, Board, Book, Draw, Lease, Settled, Step, WorkSeat};

/// A call of a book.
#[derive(Clone, Copy)]
pub(crate) enum Call {
    Draw,
    Settle,
    Run,
}

/// The jobs of the board.
const JOBS: u32 = 1_000;

/// Steps of two seats over two jobs and two tries, in an order that shows each answer. A function, so that proofs don't
/// compute the whole list.
fn steps() -> [Step; 12] {
    [
        Step::Draw(0),
        Step::Draw(1),
        Step::Settle(0, 0),
        Step::Draw(0),
        Step::Look(0, 0),
        Step::Settle(0, 2),
        Step::Draw(1),
        Step::Draw(1),
        Step::Settle(1, 0),
        Step::Settle(1, 1),
        Step::Loss(1),
        Step::Draw(1),
    ]
}

/// Their answers.
fn answers() -> [Answer; 12] {
    [
        lease(0, 0, 0),
        lease(1, 1, 0),
        Answer::Kept,
        lease(2, 0, 1),
        Answer::Mark(true),
        Answer::Double,
        lease(3, 1, 1),
        Answer::Nothing,
        Answer::Refused,
        Answer::Kept,
        Answer::Lost,
        Answer::Refused,
    ]
}

fn lease(number: u64, job: u32, pass: u32) -> Answer {
    Answer::Lease(Lease { number, job, pass })
}

/// A book of two jobs, two tries and two seats.
fn two_by_two(alloc: Global) -> Result<Box<Book>, AllocError>
    ensures jobs { IfOk result (λ book. book.value.jobs ≡ 2) }
    ensures seats { IfOk result (λ book. length book.value.seats ≡ 2) }
{
    let book = Book::new(alloc, 2, 2, 2)?;
    Ok(Box::new(alloc, book)?)
}

/// The trial of `Book::new`.
pub(crate) fn try_book(alloc: Global) -> Outcome {
    Outcome::of(|| makes_book(alloc))
}

/// Whether nothing was drawn, kept or settled yet in a new book.
fn makes_book(alloc: Global) -> Result<bool, AllocError> {
    let book = Book::new(alloc, 2, 2, 2)?;
    Ok(
        book.next() == 0
            && !book.mark(0)
            && !book.mark(1)
            && book.drawn(0).is_empty()
            && book.kept(1).is_empty(),
    )
}

/// The trial of a call of a new book, in which `Settle` finds a number drawn.
pub(crate) fn try_call(alloc: Global, call: Call) -> Outcome {
    match two_by_two(alloc) {
        Ok(mut book) => match prepare(&mut book, call) {
            Ok(()) => try_with(&mut book, call),
            Err(_) => Outcome::Inputs,
        },
        Err(_) => Outcome::Inputs,
    }
}

fn prepare(book: &mut Book, call: Call) -> Result<(), AllocError> {
    if let Call::Settle = call {
        book.draw(0)?;
    }
    Ok(())
}

fn try_with(book: &mut Book, call: Call) -> Outcome {
    match ask(book, call) {
        Ok(is_right) => Outcome::at_once(is_right),
        Err(_) => Outcome::again(ask(book, call)),
    }
}

/// Whether the book answers as it should.
fn ask(book: &mut Book, call: Call) -> Result<bool, AllocError> {
    match call {
        Call::Draw => Ok(book.draw(0)? == lease(0, 0, 0) && book.next() == 1),
        Call::Settle => Ok(book.settle(0, 0)? == Answer::Kept && book.next() == 1),
        Call::Run => {
            let told = book.run(steps().as_slice())?;
            Ok(told.as_slice() == answers().as_slice() && book.next() == 4)
        }
    }
}

/// The trial of `run_core`: the same steps, and then a row that seat 1 hands over twice.
pub(crate) fn try_core(alloc: Global) -> Outcome {
    match two_by_two(alloc) {
        Ok(mut book) => try_book_of_core(alloc, &mut book),
        Err(_) => Outcome::Inputs,
    }
}

fn try_book_of_core(alloc: Global, book: &mut Book) -> Outcome {
    match places(alloc) {
        Ok(mut collector) => try_places(alloc, book, &mut collector),
        Err(_) => Outcome::Inputs,
    }
}

fn try_places(alloc: Global, book: &mut Book, collector: &mut Collector) -> Outcome {
    match core_steps(alloc) {
        Ok(steps) => try_steps(alloc, book, collector, steps),
        Err(_) => Outcome::Inputs,
    }
}

/// The places of the rows of that book.
fn places(alloc: Global) -> Result<Box<Collector>, AllocError> {
    let collector = Collector::new(alloc, 1, 1, 2, 1, 1, 1)?;
    Ok(Box::new(alloc, collector)?)
}

fn core_steps(alloc: Global) -> Result<Vec<CoreStep>, AllocError> {
    let mut all = Vec::with_capacity(alloc, 14)?;
    for step in steps() {
        all.push(CoreStep::Book(step))?;
    }
    for _ in 0..2 {
        push_hand(alloc, &mut all)?;
    }
    Ok(all)
}

fn push_hand(alloc: Global, steps: &mut Vec<CoreStep>) -> Result<(), AllocError> {
    let row = row_with(alloc, 1, 1, &[None])?;
    steps.push(CoreStep::Hand(1, row))?;
    Ok(())
}

fn try_steps(
    alloc: Global,
    book: &mut Book,
    collector: &mut Collector,
    steps: Vec<CoreStep>,
) -> Outcome {
    match makes_steps(alloc, book, collector, steps) {
        Ok(is_right) => Outcome::at_once(is_right),
        Err(steps) => match makes_steps(alloc, book, collector, steps) {
            Ok(is_right) => Outcome::again(Ok(is_right)),
            Err(_) => Outcome::again(Err(AllocError)),
        },
    }
}

/// Whether the steps are answered as they should be; the steps where they tell out of memory.
fn makes_steps(
    alloc: Global,
    book: &mut Book,
    collector: &mut Collector,
    steps: Vec<CoreStep>,
) -> Result<bool, Vec<CoreStep>> {
    let told = run_core(alloc, book, collector, steps)?;
    Ok(are_told(&told) && book.next() == 4)
}

/// Whether the answers are those of the book's steps, and then of a row that was handed over twice.
fn are_told(told: &[CoreAnswer]) -> bool {
    for (answer, want) in told.iter().zip(answers().iter()) {
        match answer {
            CoreAnswer::Book(answer) if answer == want => (),
            _ => return false,
        }
    }
    told.len() == 14
        && matches!(&told[12], CoreAnswer::Hand(Offer::Kept))
        && matches!(&told[13], CoreAnswer::Hand(Offer::Double(_)))
}

/// The trial of `Board::new`.
pub(crate) fn try_board(alloc: Global) -> Outcome {
    Outcome::of(|| makes_board(alloc))
}

/// Whether the first seat of a new board keeps each job, and then finds no more.
fn makes_board(alloc: Global) -> Result<bool, AllocError> {
    let (board, mut seat) = Board::new(alloc, JOBS, 1)?;
    let kept = keep_all(&board, &mut seat);
    let is_empty = board.draw(&mut seat) == Draw::Nothing;
    let closed = board.close(seat);
    Ok(kept == JOBS && is_empty && closed.next() == u64::from(JOBS))
}

/// How many jobs a seat keeps.
fn keep_all(board: &Board, seat: &mut WorkSeat) -> u32
    requires { IsOf board.now seat.old }
    ensures { IsOf board.now seat.new }
{
    let mut kept = 0u32;
    for _ in 0..JOBS {
        if keeps_one(board, seat) {
            kept = kept.saturating_add(1);
        }
    }
    kept
}

/// Whether a seat draws a job and keeps it, and sees it settled.
fn keeps_one(board: &Board, seat: &mut WorkSeat) -> bool
    requires { IsOf board.now seat.old }
    ensures { IsOf board.now seat.new }
{
    let Draw::Lease(lease) = board.draw(seat) else {
        return false;
    };
    let settled = board.settle(seat, lease);
    let is_seen = board.look(seat, lease.job);
    settled == Settled::Kept && is_seen
}

/// The trial of `Collector::new`, with rows to offer.
pub(crate) fn try_collector(alloc: Global) -> Outcome {
    match rows_to_offer(alloc) {
        Ok(rows) => try_rows(alloc, rows),
        Err(_) => Outcome::Inputs,
    }
}

/// A row twice, one of another study, and one of an origin that isn't there.
fn rows_to_offer(alloc: Global) -> Result<Vec<Row>, AllocError> {
    let mut rows = Vec::with_capacity(alloc, 4)?;
    for (study, origin) in [(1, 0), (1, 0), (9, 0), (1, 3)] {
        rows.push(row_with(alloc, study, origin, &[None, None, None])?)?;
    }
    Ok(rows)
}

fn try_rows(alloc: Global, rows: Vec<Row>) -> Outcome {
    match Collector::new(alloc, 1, 3, 3, 3, 1, 1) {
        Ok(collector) => Outcome::at_once(takes_rows(collector, rows)),
        Err(_) => Outcome::again(try_rows_again(alloc, rows)),
    }
}

fn try_rows_again(alloc: Global, rows: Vec<Row>) -> Result<bool, AllocError> {
    let collector = Collector::new(alloc, 1, 3, 3, 3, 1, 1)?;
    Ok(takes_rows(collector, rows))
}

/// Whether the first row is kept, the second comes back, the others are strangers, and the second origin's place is
/// empty.
fn takes_rows(mut collector: Collector, rows: Vec<Row>) -> bool {
    let is_right = are_taken(&mut collector, rows);
    match collector.finish() {
        Ok(_) => false,
        Err(unfinished) => is_right && unfinished.scenario == 0 && unfinished.origin == 1,
    }
}

fn are_taken(collector: &mut Collector, rows: Vec<Row>) -> bool {
    let mut is_right = rows.len() == 4;
    for (at, row) in rows.into_iter().enumerate() {
        is_right = is_right && is_taken(collector, at, row);
    }
    is_right
}

fn is_taken(collector: &mut Collector, at: usize, row: Row) -> bool {
    match (at, &collector.offer(row)) {
        (0, Offer::Kept) => true,
        (1, Offer::Double(_)) => true,
        (2 | 3, Offer::Stranger(_)) => true,
        _ => false,
    }
}
