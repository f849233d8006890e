//! The board, which threads share, and its calls.
ghost use Rattle.std.specs.Prelude.{◌≡◌, ◌*◌, ◌<◌, ◌≤◌, IfOk, IsTrue, IsFalse, replicate, false, []};
ghost use Rattle.work_book.specs.Book.{is_marked};
ghost use Rattle.work_book.specs.Views.{first_view, less_one, split_off, merged, stepped, knowing, knows};
ghost use Rattle.work_book.specs.Moves.{IsOnce, IsWhole};
ghost use Rattle.work_book.specs.Board.{seen_by, IsOf, IsLease, HasDrawn, HasGiven, Drawn, SettledAs, Closes, book_of};

use crate::lease::{Lease, Settled};
use crate::limits::{MOST_JOBS, MOST_TRIES};
use crate::moves::{Cut, Drawing, Looking, Merge, Settling, Showing};
use crate::rule::Extent;
use crate::shared::{Board, Closed, Draw, WorkSeat};
use atomic_table::Table;
use std::alloc::{AllocError, Global};

impl Board {
    /// A board of `jobs` jobs, each offered `tries` times, and its first seat, which has every share.
    ///
    /// No jobs is allowed. The only error is out of memory.
    pub fn new(alloc: Global, jobs: u32, tries: u32) -> Result<(Board, WorkSeat), AllocError>
        requires jobs { jobs ≤ MOST_JOBS }
        requires tries { (1 ≤ tries) × (tries ≤ MOST_TRIES) }
        ensures size { IfOk result (λ r. (r.0.jobs ≡ jobs) × (r.0.tries ≡ tries)) }
        ensures seat { IfOk result (λ r. IsOf r.0 r.1 × (seen_by r.1 ≡ first_view (jobs * tries))) }
    {
        let words = zeros(alloc, jobs as usize + 1)?;
        let extent = Extent { jobs, tries };
        let (table, seat) = Table::of_words(alloc, words.as_slice(), &extent)?;
        let board = Board { table, jobs, tries };
        let first = WorkSeat {
            seat,
            share: 65536,
            told: false,
        };
        Ok((board, first))
    }

    /// How many jobs there are. For other programs.
    pub fn jobs(&self) -> u32
        ensures { result ≡ self.now.jobs }
    {
        self.jobs
    }

    /// How many times each job is offered. For other programs.
    pub fn tries(&self) -> u32
        ensures { result ≡ self.now.tries }
    {
        self.tries
    }

    /// A new seat, for another thread. It takes one share of this one and knows what this one knows.
    pub fn split(&self, seat: &mut WorkSeat) -> WorkSeat
        requires board { IsOf self.now seat.old }
        requires share { 2 ≤ (seen_by seat.old).share }
        ensures board { IsOf self.now seat.new × IsOf self.now result }
        ensures old { seen_by seat.new ≡ less_one (seen_by seat.old) }
        ensures new { seen_by result ≡ split_off (seen_by seat.old) }
    {
        let other = self.table.shared.split_seat::<Cut>(&mut seat.seat);
        seat.share -= 1;
        WorkSeat {
            seat: other,
            share: 1,
            told: seat.told,
        }
    }

    /// Takes another seat in, with all that it drew and kept, and its share, by two atomic steps, both loads.
    ///
    /// A seat that has every share then is the only one left: it drew each number that was drawn, and kept each job
    /// that it knows to be settled.
    pub fn join(&self, seat: &mut WorkSeat, other: WorkSeat)
        requires board { IsOf self.now seat.old × IsOf self.now other }
        ensures board { IsOf self.now seat.new }
        ensures both { seen_by seat.new ≡ stepped (merged (seen_by seat.old) (seen_by other)) }
        ensures once { IsOnce (seen_by seat.new) }
        ensures whole { (seen_by seat.new).share ≡ 65536 → IsWhole (seen_by seat.new) }
    {
        let WorkSeat {
            seat: theirs,
            share,
            told,
        } = other;
        self.table.shared.join_seat::<Merge>(&mut seat.seat, theirs);
        self.table.shared.load::<Showing>(&mut seat.seat, 0);
        seat.share += share;
        seat.told = seat.told || told;
    }

    /// The next number, by one atomic step, or `Nothing` where all are drawn.
    ///
    /// A seat that got `Nothing` gets it again without a step.
    pub fn draw(&self, seat: &mut WorkSeat) -> Draw
        requires board { IsOf self.now seat.old }
        ensures board { IsOf self.now seat.new }
        ensures drawn { Drawn self.now (seen_by seat.old) result (seen_by seat.new) }
        ensures given { HasGiven (seen_by seat.new) result }
    {
        if seat.told {
            return Draw::Nothing;
        }
        let number = self.table.shared.fetch_add::<Drawing>(&mut seat.seat, 0, 1);
        if number < u64::from(self.jobs) * u64::from(self.tries) {
            return Draw::Lease(self.lease(number));
        }
        seat.told = true;
        Draw::Nothing
    }

    /// Whether the job is settled, by one load of its mark.
    pub fn look(&self, seat: &mut WorkSeat, job: u32) -> bool
        requires board { IsOf self.now seat.old }
        requires job { job < self.now.jobs }
        ensures board { IsOf self.now seat.new }
        ensures settled { IsTrue result → seen_by seat.new ≡ knowing job (seen_by seat.old) }
        ensures unsettled { IsFalse result → (seen_by seat.new ≡ stepped (seen_by seat.old))
            × (knows (seen_by seat.old) job ≡ false) }
    {
        let mark = self
            .table
            .shared
            .load::<Looking>(&mut seat.seat, job as usize + 1);
        mark != 0
    }

    /// Settles the job of a lease that the seat drew, by one exchange of its mark, tried once.
    ///
    /// The first seat to settle a job keeps it.
    pub fn settle(&self, seat: &mut WorkSeat, lease: Lease) -> Settled
        requires board { IsOf self.now seat.old }
        requires lease { IsLease self.now lease }
        requires drawn { HasDrawn (seen_by seat.old) lease }
        ensures board { IsOf self.now seat.new }
        ensures settled { SettledAs (seen_by seat.old) lease result (seen_by seat.new) }
    {
        let found = self.table.shared.compare_exchange::<Settling>(
            &mut seat.seat,
            lease.job as usize + 1,
            0,
            lease.number + 1,
        );
        if found == 0 {
            Settled::Kept
        } else {
            Settled::Double
        }
    }

    /// What is left when no thread shares the board any more. For other programs and for a law.
    pub fn close(self, seat: WorkSeat) -> Closed
        requires board { IsOf self seat }
        ensures size { (result.jobs ≡ self.jobs) × (result.tries ≡ self.tries) }
        ensures closes { Closes (seen_by seat) result }
    {
        let Board { table, jobs, tries } = self;
        let WorkSeat {
            seat,
            share: _,
            told: _,
        } = seat;
        let words = table.close_with(seat);
        Closed { words, jobs, tries }
    }

    /// The lease of a number.
    fn lease(&self, number: u64) -> Lease
        requires { number < self.now.jobs * self.now.tries }
        ensures { IsLease self.now result × (result.number ≡ number) }
    {
        let jobs = u64::from(self.jobs);
        Lease {
            number,
            job: (number % jobs) as u32,
            pass: (number / jobs) as u32,
        }
    }
}

impl WorkSeat {
    /// The seat's share of the board, at least 1. The first seat has 65,536, and each split takes one. For other
    /// programs.
    pub fn share(&self) -> u32
        ensures { result ≡ (seen_by self.now).share }
    {
        self.share
    }
}

impl Closed {
    /// The number that would be drawn next, which is also how many were drawn.
    pub fn next(&self) -> u64
        ensures { result ≡ (book_of self.now []).next }
    {
        let limit = u64::from(self.jobs) * u64::from(self.tries);
        self.words.word(0).min(limit)
    }

    /// Whether the job is settled.
    pub fn settled(&self, job: u32) -> bool
        requires { job < self.now.jobs }
        ensures { result ≡ is_marked (book_of self.now []) job }
    {
        self.words.word(job as usize + 1) != 0
    }
}

/// The words of a board before its first step.
fn zeros(alloc: Global, count: usize) -> Result<Vec<u64>, AllocError>
    ensures { IfOk result (λ words. words.items ≡ replicate count 0) }
{
    vec![in alloc; 0; count]
}
