//! The duration of a rank, in sixteen stops.
ghost use Rattle.std.specs.Prelude.{◌≡◌, ◌+◌, ◌<◌, ◌≤◌, ◌^◌, ℕ, Option, length, slice_index};
ghost use Rattle.rounds.specs.Table.{known_of};
ghost use Rattle.label_cells.specs.Durations.{IsCellOf};
ghost use Rattle.label_cells.specs.Places.{IsSelected};
ghost use Rattle.label_cells.specs.SplitRuns.{AreSmall, AreSplitRuns, IsSummary};

use crate::halving::{rest_of, whole_of};
use crate::split_runs::{Sixteen, SplitRun, known, sum_of, top};
use crate::splitting::{cells_of, past};
use trip_lanes::Lanes;

/// Facts about a group's split runs that all ranks share.
#[derive(Clone, Copy)]
pub(crate) struct Summary {
    /// The whole minutes from which split runs count.
    pub low: Sixteen,
    /// How many minutes reach each stop.
    pub known: Sixteen,
    /// How many bits the whole minutes below which all durations lie have.
    pub bits: u32,
}

/// How many bits a number has.
fn bits_of(top: u32) -> u32
    requires { top ≤ 2532 }
    ensures few { result ≤ 12 }
    ensures below { top < 2 ^ result }
{
    32 - top.leading_zeros()
}

/// Sums up a group's split runs, which count from `low`.
pub(crate) fn summary_of(rows: &[SplitRun], low: Sixteen) -> Summary
    requires small { AreSmall rows.now }
    requires low { (l : ℕ) → l < 16 → slice_index low l ≤ 1092 }
    ensures summary { IsSummary rows.now result }
    ensures low { result.low ≡ low }
{
    Summary {
        low,
        known: known(rows),
        bits: bits_of(top(rows) as u32),
    }
}

/// The duration of a rank in each of sixteen stops; `NEVER` where fewer minutes reach the stop.
fn select(rows: &[SplitRun], covering: &mut [Sixteen], summary: Summary, rank: u16) -> Lanes
    requires small { AreSmall rows.now }
    requires few { length rows.now ≤ 1440 }
    requires size { length covering.old ≡ length rows.now }
    requires summary { IsSummary rows.now summary }
    requires some { 1 ≤ rank }
    ensures selected { (l : ℕ) → l < 16 →
        IsSelected rows.now l (slice_index summary.low l) rank (slice_index result l) }
    ensures size { length covering.new ≡ length rows.now }
{
    let places = whole_of(rows, summary.bits, rank);
    let left = past([rank; 16], places.under);
    let rest = rest_of(rows, covering, places.whole, left);
    let minutes = sum_of(summary.low, places.whole);
    cells_of(summary.known, rank, minutes, rest)
}

/// The cells of a rank, without walks; `NEVER` for none. The cell of rank 0 is 0.
pub(crate) fn cells_of_rank(
    rows: &[SplitRun],
    covering: &mut [Sixteen],
    summary: Summary,
    rank: u32,
) -> Lanes
    requires small { AreSmall rows.now }
    requires few { length rows.now ≤ 1440 }
    requires size { length covering.old ≡ length rows.now }
    requires summary { IsSummary rows.now summary }
    requires rank { rank ≤ 1440 }
    ensures cells { (l minutes : ℕ) (of_minute : ℕ → Option ℕ) → l < 16 →
        AreSplitRuns of_minute minutes (slice_index summary.low l) l rows.now →
        IsCellOf of_minute minutes rank (known_of (slice_index result l)) }
    ensures size { length covering.new ≡ length rows.now }
{
    if rank == 0 {
        return [0; 16];
    }
    select(rows, covering, summary, rank as u16)
}
