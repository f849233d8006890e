//! The rule of a board's words, and what a seat knows.
use atomic_table::TableRule;
use std::collections::LinkedList;

/// How many jobs a board has, and how often each is offered.
#[derive(Clone, Copy)]
pub struct Extent {
    pub jobs: u32,
    pub tries: u32,
}

/// What a seat knows. Only contracts speak of it: no value of it exists at run time.
pub struct View {
    /// The numbers that it drew.
    pub drawn: LinkedList<u64>,
    /// The jobs that it was the first to settle.
    pub kept: LinkedList<u32>,
    /// The numbers under which it did, in the same order.
    pub under: LinkedList<u64>,
    /// The jobs that it knows to be settled.
    pub known: LinkedList<u32>,
    /// Whether a draw has answered that all numbers are drawn.
    pub told: bool,
    /// Its share of the board. A seat whose share is 0 is spent: another took it in.
    pub share: u32,
    /// Where the numbers of its board stop.
    pub limit: u64,
    /// How many atomic steps it took, itself or by a seat that it took in.
    pub steps: u64,
}

/// The rule of a board. Word 0 counts draws, and word j + 1 is the mark of job j.
pub struct Numbers;

impl TableRule<(), View, Extent> for Numbers {
    ghost use Rattle.std.specs.Prelude.{◌*◌};
    ghost use Rattle.work_book.specs.Rule.{IsKept};
    ghost use Rattle.work_book.specs.Views.{first_view};

    ghost holds = { IsKept };

    ghost first = { λ k. first_view (k.jobs * k.tries) };
}
