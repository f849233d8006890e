//! A board, its seats, and what is left when it is closed. Their methods are in `board`, since the words of those
//! contracts name these types.
ghost use Rattle.std.specs.Prelude.{◌≡◌, ◌+◌, ◌≤◌, []};
ghost use Rattle.std.specs.Slots.{slots_len, IsFull};
ghost use Rattle.work_book.specs.declared.limits.TheConstants.{MOST_JOBS, MOST_TRIES};

use crate::lease::Lease;
use crate::rule::{Extent, Numbers, View};
use atomic_table::{Seat, Table};
use std::alloc::Global;

/// What a draw gives.
#[derive(Clone, Copy, Debug, PartialEq, Eq)]
pub enum Draw {
    /// The next number, with its job.
    Lease(Lease),
    /// All numbers were drawn.
    Nothing,
}

/// A book of work that threads share: a word for the next number, and one for each job.
///
/// Every call is one atomic step at most, but `join`, which is two. None takes a lock or waits for anybody.
#[derive(Drop)]
pub struct Board {
    pub(crate) table: Table<(), View, Extent, Numbers, Global>,
    pub(crate) jobs: u32,
    pub(crate) tries: u32,
    ghost key: { (table.shared.key.jobs ≡ jobs) × (table.shared.key.tries ≡ tries) },
    ghost sized: { (table.shared.table_id.words ≡ jobs + 1) × (table.shared.table_id.slots ≡ 0) },
    ghost few: { (jobs ≤ MOST_JOBS) × (tries ≤ MOST_TRIES) },
}

/// A token with which one thread draws, looks and settles. It has no place in memory that another thread sees.
#[derive(Drop)]
pub struct WorkSeat {
    pub(crate) seat: Seat<(), View>,
    pub(crate) share: u32,
    pub(crate) told: bool,
    ghost shared: { (seat.me.0.share ≡ share) × (1 ≤ share) × (share ≤ 65536) },
    ghost informed: { seat.me.0.told ≡ told },
    ghost empty: { seat.me.1 ≡ [] },
}

/// A board that no thread shares any more, for other programs.
pub struct Closed {
    pub(crate) words: atomic_table::Closed<(), Global>,
    pub(crate) jobs: u32,
    pub(crate) tries: u32,
    ghost full: { IsFull words.words },
    ghost wide: { slots_len words.words ≡ jobs + 1 },
    ghost none: { slots_len words.slots ≡ 0 },
    ghost few: { (jobs ≤ MOST_JOBS) × (tries ≤ MOST_TRIES) },
}

impl Drop for Closed {
    fn drop(self) {
        let Closed {
            words,
            jobs: _,
            tries: _,
        } = self;
        words.free();
    }
}
