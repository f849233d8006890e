//! How many service days and worker threads a study may have, beside the limits of the crates below. Each limit is
//! itself allowed.

ghost use Rattle.std.specs.Prelude.{◌≡◌};
ghost use Rattle.studies.specs.declared.limits.TheConstants as limit;

/// The most service days of a study before that of its date, and the most after it.
pub const MOST_DAYS: u32 = 6;

/// The most worker threads of a run.
pub const MOST_WORKERS: u32 = 64;

/// A law: the limits in numbers.
pub fn limits_are_as_stated()
    ensures days { limit.MOST_DAYS ≡ 6 }
    ensures workers { limit.MOST_WORKERS ≡ 64 }
{}
