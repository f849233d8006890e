//! A trial: several threads at a new board, each with a seat of its own, until the board has nothing left.
ghost use Rattle.std.specs.Prelude.{◌≡◌, ◌+◌, ◌<◌, ◌≤◌, All, IfOk};
ghost use Rattle.work_book.specs.Board.{IsOf, seen_by};

use crate::workers::{Tally, Task, Told, work};
use std::alloc::{AllocError, Global};
use std::thread;
use std::thread::Threads;
use work_book::{Board, Closed, WorkSeat};

/// What all seats were told together, and the closed board.
#[derive(Drop)]
pub(crate) struct Outcome {
    pub tally: Tally,
    pub closed: Closed,
}

/// Makes a trial. The first seat joins all others, so it is the one that closes the board.
pub(crate) fn make<R: Threads + Sync>(
    rt: &R,
    alloc: Global,
    task: Task,
    jobs: u32,
    tries: u32,
    threads: u32,
) -> Result<Outcome, AllocError>
    requires jobs { jobs ≤ 1048560 }
    requires tries { (1 ≤ tries) × (tries ≤ 8) }
    requires threads { threads ≤ 64 }
    ensures { IfOk result (λ outcome. outcome.closed.jobs ≡ jobs) }
{
    let (board, mut seat) = Board::new(alloc, jobs, tries)?;
    let tally = run(rt, alloc, &board, &mut seat, task, threads)?;
    let closed = board.close(seat);
    Ok(Outcome { tally, closed })
}

// Splits a seat off for each thread, and joins them all at the end.
fn run<R: Threads + Sync>(
    rt: &R,
    alloc: Global,
    board: &Board,
    seat: &mut WorkSeat,
    task: Task,
    threads: u32,
) -> Result<Tally, AllocError>
    requires board { IsOf board.now seat.old }
    requires share { threads < (seen_by seat.old).share }
    ensures { IsOf board.now seat.new }
{
    let seats = split_all(alloc, board, seat, threads)?;
    let told = work_at_once(rt, board, seats, task)?;
    Ok(join_all(board, seat, told))
}

// A seat for each thread.
fn split_all(
    alloc: Global,
    board: &Board,
    seat: &mut WorkSeat,
    threads: u32,
) -> Result<Vec<WorkSeat>, AllocError>
    requires board { IsOf board.now seat.old }
    requires share { threads < (seen_by seat.old).share }
    ensures board { IsOf board.now seat.new }
    ensures seats { IfOk result (λ seats. All (λ s. IsOf board.now s) seats.items) }
{
    let mut seats = Vec::with_capacity(alloc, threads as usize)?;
    for _ in 0..threads {
        seats.push_reserved(board.split(seat));
    }
    Ok(seats)
}

// A thread for each seat, all at once.
fn work_at_once<R: Threads + Sync>(
    rt: &R,
    board: &Board,
    seats: Vec<WorkSeat>,
    task: Task,
) -> Result<Vec<Told>, AllocError>
    requires { All (λ s. IsOf board.now s) seats.items }
    ensures { IfOk result (λ told. All (λ t. IsOf board.now t.seat) told.items) }
{
    thread::map_vec(rt, seats, &|seat| work(board, seat, task))
}

// One seat and one tally of all.
fn join_all(board: &Board, seat: &mut WorkSeat, told: Vec<Told>) -> Tally
    requires board { IsOf board.now seat.old }
    requires told { All (λ t. IsOf board.now t.seat) told.items }
    ensures { IsOf board.now seat.new }
{
    let mut tally = Tally::NONE;
    for one in told {
        let Told {
            seat: theirs,
            tally: more,
        } = one;
        board.join(seat, theirs);
        tally = tally.with(more);
    }
    tally
}
