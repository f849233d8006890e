//! Gates: what becomes of the leases that workers draw.
ghost use Rattle.std.specs.Prelude.{◌≡◌};

use work_book::{Lease, Settled};

/// What becomes of a lease.
#[derive(Clone, Copy, Debug, PartialEq, Eq)]
pub enum Verdict {
    /// Its row is computed and settled.
    Work,
    /// It is lost: nothing is done, and the worker goes on to the next draw.
    Lose,
    /// The worker ends; the rows that it holds so far are offered.
    Vanish,
    /// Its row is computed and settled twice.
    Repeat,
}

/// Decides what becomes of each lease, and is told what came of it. It is asked by several workers at once.
///
/// Contracts know of a gate what it may decide, and what it was told. Both come from its calls alone: nobody else can
/// say of a gate that it let a worker vanish, or that it was told of a row.
pub trait Gate {
    ghost use Rattle.work_book.specs.declared.lease.Lease.{Lease};
    ghost use Rattle.work_book.specs.declared.lease.Settled.{Settled};
    ghost use Rattle.workers.specs.declared.gates.Verdict.{Verdict};

    // what it may decide of a lease
    ghost decides: { Self → Lease → Verdict → Type 0 } = { λ _ _ _. Unit {0} };

    // that it was told what came of a lease
    ghost was_told: { Self → Lease → Settled → Type 0 } = { λ _ _ _. Unit {0} };

    /// Asked before a lease is worked at.
    fn before(&self, lease: &Lease) -> Verdict
        ensures decided { decides self.now lease.now result };

    /// Told after a lease was settled.
    fn after(&self, lease: &Lease, settled: Settled)
        ensures told { was_told self.now lease.now settled };
}

/// The gate that lets each lease be worked at.
#[derive(Clone, Copy, Debug, PartialEq, Eq)]
pub struct Open;

impl Gate for Open {
    ghost use Rattle.workers.specs.declared.gates.Verdict.TheVariants.{Work};

    ghost decides = { λ _ _ verdict. verdict ≡ Work };

    fn before(&self, _lease: &Lease) -> Verdict {
        Verdict::Work
    }

    fn after(&self, _lease: &Lease, _settled: Settled) {}
}
