//! How many jobs there may be, and how many times each is offered. Each limit is itself allowed.

ghost use Rattle.std.specs.Prelude.{◌≡◌};
ghost use Rattle.work_book.specs.declared.limits.TheConstants as limit;

/// The most jobs: those of 16 scenarios of 65,535 origins.
pub const MOST_JOBS: u32 = 1_048_560;

/// How often each job may be offered, at most.
pub const MOST_TRIES: u32 = 8;

/// A law: the limits in numbers.
pub fn limits_are_as_stated()
    ensures jobs { limit.MOST_JOBS ≡ 1048560 }
    ensures tries { limit.MOST_TRIES ≡ 8 }
{}
