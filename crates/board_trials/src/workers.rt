//! What one thread does at a board, and what it is told.
ghost use Rattle.work_book.specs.Board.{IsOf, IsLease, HasDrawn, seen_by};

use work_book::{Board, Draw, Lease, Settled, WorkSeat};

// More draws than any board has numbers.
const MOST_DRAWS: u32 = 10_000_000;

/// What a thread does with each number that it draws.
#[derive(Clone, Copy)]
pub(crate) enum Task {
    /// Nothing.
    Draw,
    /// It settles the number's job, and looks at it.
    Settle,
}

/// How often a seat drew, was told that a job is its own, that it was settled before, and that a job isn't settled that
/// it had settled itself.
#[derive(Clone, Copy)]
pub(crate) struct Tally {
    pub drawn: u32,
    pub kept: u32,
    pub double: u32,
    pub unseen: u32,
}

impl Tally {
    /// Of a seat that did nothing.
    pub(crate) const NONE: Tally = Tally {
        drawn: 0,
        kept: 0,
        double: 0,
        unseen: 0,
    };

    /// Of two seats together.
    pub(crate) fn with(self, other: Tally) -> Tally {
        Tally {
            drawn: self.drawn.saturating_add(other.drawn),
            kept: self.kept.saturating_add(other.kept),
            double: self.double.saturating_add(other.double),
            unseen: self.unseen.saturating_add(other.unseen),
        }
    }
}

/// A thread's seat at the end, and what it was told in all.
#[derive(Drop)]
pub(crate) struct Told {
    pub seat: WorkSeat,
    pub tally: Tally,
}

/// Draws until there is nothing left, and does the task with each number.
pub(crate) fn work(board: &Board, mut seat: WorkSeat, task: Task) -> Told
    requires { IsOf board.now seat }
    ensures { IsOf board.now result.seat }
{
    let mut tally = Tally::NONE;
    for _ in 0..MOST_DRAWS {
        let Draw::Lease(lease) = board.draw(&mut seat) else {
            break;
        };
        tally.drawn = tally.drawn.saturating_add(1);
        if let Task::Settle = task {
            tally = tally.with(settle(board, &mut seat, lease));
        }
    }
    Told { seat, tally }
}

// Settles the job of a lease and looks at it.
fn settle(board: &Board, seat: &mut WorkSeat, lease: Lease) -> Tally
    requires board { IsOf board.now seat.old }
    requires lease { IsLease board.now lease }
    requires drawn { HasDrawn (seen_by seat.old) lease }
    ensures { IsOf board.now seat.new }
{
    let settled = board.settle(seat, lease);
    let seen = board.look(seat, lease.job);
    Tally {
        kept: u32::from(settled == Settled::Kept),
        double: u32::from(settled == Settled::Double),
        unseen: u32::from(!seen),
        ..Tally::NONE
    }
}
