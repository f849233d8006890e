//! Shares and times in numbers.
ghost use Rattle.std.specs.Prelude.{◌≡◌, ◌⊎◌, ◌≤◌, ◌*◌, ◌-◌, ◌/◌, ◌<◌, ◌^◌, IfSome, is_none, min, true};

use std::alloc::{AllocError, Global};

/// The percentage that is done, rounded down, at most 100; 0 of nothing.
pub(crate) fn percent(done: u64, all: u64) -> u64
    ensures share { 0 < all → result ≡ min (done * 100 / all) 100 }
    ensures nothing { all ≡ 0 → result ≡ 0 }
{
    if all == 0 {
        return 0;
    }
    (u128::from(done) * 100 / u128::from(all)).min(100) as u64
}

/// How long the rest takes if each takes as long as those that are done did; none where nothing is done.
pub(crate) fn time_left(elapsed: u64, done: u64, all: u64) -> Option<u64>
    ensures left { IfSome result (λ left. left ≡ elapsed * (all - done) / done) }
    ensures none { is_none result ≡ true → (done ≡ 0) ⊎ (2 ^ 64 ≤ elapsed * (all - done)) }
{
    if done == 0 {
        return None;
    }
    match elapsed.checked_mul(all.saturating_sub(done)) {
        Some(whole) => Some(whole / done),
        None => None,
    }
}

/// A time of so many milliseconds in hours, minutes and seconds, as `0:01:30`.
pub(crate) fn time_text(alloc: Global, milliseconds: u64) -> Result<String, AllocError> {
    let hours = milliseconds / 3_600_000;
    let minutes = milliseconds / 60_000 % 60;
    let seconds = milliseconds / 1000 % 60;
    format!(in alloc; "{hours}:{minutes:02}:{seconds:02}")
}
