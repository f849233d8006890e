//! Times and rates in whole numbers.

ghost use Rattle.std.specs.Prelude.{◌≡◌, ◌*◌, ◌/◌, ◌-◌, ◌^◌, max, min};

use std::time::Duration;

/// A time in whole milliseconds.
pub(crate) fn millis(time: Duration) -> u64 {
    time.as_secs()
        .saturating_mul(1000)
        .saturating_add(time.subsec_millis() as u64)
}

/// A time in whole microseconds.
pub(crate) fn micros(time: Duration) -> u64 {
    time.as_secs()
        .saturating_mul(1_000_000)
        .saturating_add(time.subsec_micros() as u64)
}

/// How many hundredths of `whole` are in `part`; a whole of 0 counts as 1.
pub(crate) fn hundredths(part: u64, whole: u64) -> u64
    ensures { result ≡ min (part * 100) (2 ^ 64 - 1) / max whole 1 }
{
    part.saturating_mul(100) / whole.max(1)
}

/// The rate per second of a count in so many milliseconds; none count as 1.
pub(crate) fn per_second(count: u64, millis: u64) -> u64
    ensures { result ≡ min (count * 1000) (2 ^ 64 - 1) / max millis 1 }
{
    count.saturating_mul(1000) / millis.max(1)
}
