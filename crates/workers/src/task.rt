//! What a worker's thread does, and promises to the one that started it.
use crate::gates::Gate;
use crate::study::Study;
use crate::worker::{Worked, unstarted, work};
use std::alloc::Global;
use std::thread::Promise;
use work_book::{Board, WorkSeat};

/// What each of some threads does with a seat of its own.
///
/// It is a trait, since a closure that captures a value with a lifetime, as a study, loses what it ensures.
pub(crate) trait Task {
    ghost use Rattle.work_book.specs.declared.shared.WorkSeat.{WorkSeat};
    ghost use Rattle.workers.specs.declared.worker.Worked.{Worked};

    // which seats it may be given
    ghost takes: { Self → WorkSeat → Type 0 };

    // what it gives back
    ghost gives: { Self → Worked → Type 0 };

    /// Does it, with this seat.
    fn run(&self, seat: WorkSeat) -> Worked
        requires { takes self.now seat }
        ensures { gives self.now result };

    /// Gives the seat back unused, since its thread couldn't be started.
    fn leave(&self, seat: WorkSeat) -> Worked
        requires { takes self.now seat }
        ensures { gives self.now result };
}

/// The promise that what a thread gives back is of this task.
#[derive_where(Clone, Copy)]
pub(crate) struct Promised<'a, T> {
    pub(crate) task: &'a T,
}

impl<'a, T: Task> Promise<Worked> for Promised<'a, T> {
    ghost kept_by = { λ p w. T.gives p.task.now w };
}

/// To compute rows of a study, as the leases of a board and a gate say.
#[derive_where(Clone, Copy)]
pub(crate) struct StudyTask<'a, 'b, G> {
    pub(crate) alloc: Global,
    pub(crate) study: &'b Study<'a>,
    pub(crate) board: &'b Board,
    pub(crate) gate: &'b G,
}

impl<'a, 'b, G: Gate> Task for StudyTask<'a, 'b, G> {
    ghost use Rattle.workers.specs.Study.{study_of};
    ghost use Rattle.workers.specs.Held.{WorkedFor};
    ghost use Rattle.workers.specs.Threads.{AreOfOneStudy, IsReady};

    ghost takes = { λ t seat. AreOfOneStudy t.board.now (study_of t.study.now) × IsReady t.board.now seat };

    ghost gives = { λ t w. WorkedFor t.board.now (study_of t.study.now) (G.decides t.gate.now) (G.was_told t.gate.now)
        w };

    fn run(&self, seat: WorkSeat) -> Worked {
        work(self.alloc, self.study, self.board, seat, self.gate)
    }

    fn leave(&self, seat: WorkSeat) -> Worked {
        unstarted(self.alloc, seat)
    }
}
