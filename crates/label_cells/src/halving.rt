//! The whole minutes and the seconds of a rank, found by bisection: one bit after another, in sixteen stops side by
//! side.
ghost use Rattle.std.specs.Prelude.{◌≡◌, ◌+◌, ◌-◌, ◌^◌, ◌<◌, ◌≤◌, ℕ, length, slice_index};
ghost use Rattle.label_cells.specs.SplitRuns.{AreCovering, AreSmall};
ghost use Rattle.label_cells.specs.Places.{IsPlaced, IsFirstPlaced, IsLeft};

use crate::split_runs::{Sixteen, SplitRun, below, fewer, fill_covering, more_by, where_less};

/// Whole minutes in each stop, and how many of its minutes have a duration below them.
#[derive(Clone, Copy)]
pub(crate) struct Places {
    pub(crate) whole: Sixteen,
    pub(crate) under: Sixteen,
}

/// A power of two.
fn power(bit: u32) -> u16
    requires { bit ≤ 12 }
    ensures { result ≡ 2 ^ bit }
{
    1 << bit
}

/// Finds the whole minutes of the duration of a rank, in each stop that at least `rank` minutes reach.
pub(crate) fn whole_of(rows: &[SplitRun], bits: u32, rank: u16) -> Places
    requires small { AreSmall rows.now }
    requires bits { bits ≤ 12 }
    requires first { (l : ℕ) → l < 16 → IsFirstPlaced rows.now l rank (2 ^ bits) }
    ensures { (l : ℕ) → l < 16 →
        IsPlaced rows.now l rank (slice_index result.whole l) (slice_index result.under l) 1 (2 ^ bits) }
{
    let mut whole = [0; 16];
    let mut under = [0; 16];
    let ranks = [rank; 16];
    for k in 0..bits {
        let to = more_by(whole, power(bits - 1 - k));
        let count = below(rows, to);
        let higher = where_less(count, ranks, to, whole);
        let more = where_less(count, ranks, count, under);
        whole = higher;
        under = more;
    }
    Places { whole, under }
}

/// Finds the seconds of the duration of a rank among the runs that cover minute `at`. `left` is the rank less the
/// minutes below `at`.
pub(crate) fn rest_of(
    rows: &[SplitRun],
    covering: &mut [Sixteen],
    at: Sixteen,
    left: Sixteen,
) -> Sixteen
    requires small { AreSmall rows.now }
    requires few { length rows.now ≤ 1440 }
    requires size { length covering.old ≡ length rows.now }
    requires at { (l : ℕ) → l < 16 → slice_index at l < 4096 }
    requires some { (l : ℕ) → l < 16 → 1 ≤ slice_index left l }
    ensures left { (l : ℕ) → l < 16 →
        IsLeft rows.now l (slice_index at l) (slice_index left l) (slice_index result l) 1 }
    ensures size { length covering.new ≡ length rows.now }
{
    fill_covering(rows, at, covering);
    let mut rest = [0; 16];
    for k in 0..6u32 {
        let to = more_by(rest, power(5 - k));
        let count = fewer(covering, to);
        let higher = where_less(count, left, to, rest);
        rest = higher;
    }
    rest
}
