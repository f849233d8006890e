//! The cells of one group of sixteen stops, for all ranks.
ghost use Rattle.std.specs.Prelude.{◌≡◌, ◌+◌, ◌*◌, ◌<◌, ◌≤◌, ℕ, length, slice_index, OnOk, IfOk};
ghost use Rattle.label_cells.specs.Groups.{AddsGroup, AddsRanks, AreGroupRuns};
ghost use Rattle.label_cells.specs.Runs.{IsSplitRun};
ghost use Rattle.label_cells.specs.SplitRuns.{AreSmall, IsSummary, whole_at, rest_at, reached_at};
ghost use Rattle.label_cells.specs.Sums.{sum_to};
ghost use Rattle.rounds.specs.Labels.{ArePositions};
ghost use Rattle.label_cells.specs.GroupLanes.{shortest_at, span_in};

use crate::ends::fill_ends;
use crate::runs::{Run, fill_runs};
use crate::selection::{Summary, cells_of_rank, summary_of};
use crate::split_runs::{Sixteen, SplitRun};
use crate::splitting::{lower_of, minutes_of, split};
use rounds::WindowLabels;
use std::alloc::{AllocError, Global};
use trip_lanes::Lanes;

/// Buffers that serve one group after another, and one window after another.
#[derive(Drop)]
pub struct CellBuffers {
    ends: Vec<bool>,
    runs: Vec<Run>,
    rows: Vec<SplitRun>,
    covering: Vec<Sixteen>,
}

impl CellBuffers {
    /// Creates empty buffers.
    pub fn new(alloc: Global) -> Self {
        CellBuffers {
            ends: Vec::new(alloc),
            runs: Vec::new(alloc),
            rows: Vec::new(alloc),
            covering: Vec::new(alloc),
        }
    }

    /// Makes space for the runs of a window, of which there are at most as many as minutes.
    fn fit(&mut self, alloc: Global, minutes: u32) -> Result<(), AllocError>
        ensures { OnOk result (minutes ≤ length self.new.covering.items) }
    {
        let count = minutes as usize;
        if self.covering.len() < count {
            self.covering = vec![in alloc; [0; 16]; count]?;
        }
        Ok(())
    }
}

/// The least whole minutes of some runs, in each stop.
fn low_of(runs: &[Run]) -> Sixteen
    ensures low { (l i : ℕ) → l < 16 → i < length runs.now → 60 * slice_index result l ≤ shortest_at runs.now l i }
    ensures few { (l : ℕ) → l < 16 → slice_index result l ≤ 1092 }
{
    let mut least = [65_535; 16];
    for run in runs {
        let lower = lower_of(least, run.shortest);
        least = lower;
    }
    minutes_of(least)
}

/// Splits runs into whole minutes, counted from `low`, and seconds. Out of memory is the only error.
fn fill_split_runs(rows: &mut Vec<SplitRun>, runs: &[Run], low: Sixteen) -> Result<(), AllocError>
    requires low { (l i : ℕ) → l < 16 → i < length runs.now → 60 * slice_index low l ≤ shortest_at runs.now l i }
    requires fits { (l i : ℕ) → l < 16 → i < length runs.now → shortest_at runs.now l i ≤ 65535 }
    requires few { sum_to (span_in runs.now) (length runs.now) ≤ 1440 }
    ensures size { OnOk result (length rows.new.items ≡ length runs.now) }
    ensures parts { OnOk result ((l i : ℕ) → l < 16 → i < length runs.now →
        IsSplitRun (slice_index low l) (shortest_at runs.now l i) (span_in runs.now i) (whole_at rows.new.items l i)
        (rest_at rows.new.items l i) (reached_at rows.new.items l i)) }
    ensures small { OnOk result (AreSmall rows.new.items) }
{
    rows.clear();
    for run in runs {
        rows.push(split(run.shortest, low, run.span))?;
    }
    Ok(())
}

/// Finds the runs of the group whose labels begin at `from`, and splits them. Out of memory is the only error.
fn split_group(
    buffers: &mut CellBuffers,
    window: WindowLabels<'_>,
    from: usize,
) -> Result<Summary, AllocError>
    requires positions { ArePositions window.found.bases.now window.searched.now window.first window.minutes }
    requires width { length window.searched.now ≤ window.found.width }
    requires space { from + 16 * window.found.width + 8 ≤ length window.found.labels.now }
    ensures runs { IfOk result (λ summary. AreGroupRuns window.entry from buffers.new.rows.items summary) }
    ensures covering { buffers.new.covering ≡ buffers.old.covering }
{
    fill_ends(&mut buffers.ends, window, from)?;
    fill_runs(&mut buffers.runs, window, from, &buffers.ends)?;
    let low = low_of(&buffers.runs);
    fill_split_runs(&mut buffers.rows, &buffers.runs, low)?;
    Ok(summary_of(&buffers.rows, low))
}

/// Appends the cells of split runs, one list for each rank. Out of memory is the only error.
fn push_ranks(
    cells: &mut Vec<Lanes>,
    rows: &[SplitRun],
    covering: &mut [Sixteen],
    summary: Summary,
    ranks: &[u32],
) -> Result<(), AllocError>
    requires small { AreSmall rows.now }
    requires few { length rows.now ≤ 1440 }
    requires size { length covering.old ≡ length rows.now }
    requires summary { IsSummary rows.now summary }
    requires ranks { (k : ℕ) → k < length ranks.now → slice_index ranks.now k ≤ 1440 }
    ensures added { OnOk result (AddsRanks rows.now summary.low ranks.now cells.old.items cells.new.items) }
    ensures size { length covering.new ≡ length rows.now }
{
    for k in 0..ranks.len() {
        cells.push(cells_of_rank(rows, covering, summary, ranks[k]))?;
    }
    Ok(())
}

/// Appends the cells of the group whose labels begin at `from`, one list for each rank. Out of memory is the only
/// error.
pub(crate) fn push_group(
    alloc: Global,
    cells: &mut Vec<Lanes>,
    buffers: &mut CellBuffers,
    window: WindowLabels<'_>,
    from: usize,
    ranks: &[u32],
) -> Result<(), AllocError>
    requires positions { ArePositions window.found.bases.now window.searched.now window.first window.minutes }
    requires width { length window.searched.now ≤ window.found.width }
    requires space { from + 16 * window.found.width + 8 ≤ length window.found.labels.now }
    requires ranks { (k : ℕ) → k < length ranks.now → slice_index ranks.now k ≤ 1440 }
    ensures { OnOk result (AddsGroup window.entry from ranks.now cells.old.items cells.new.items) }
{
    buffers.fit(alloc, window.minutes)?;
    let summary = split_group(buffers, window, from)?;
    let rows = buffers.rows.as_slice();
    let covering = buffers.covering.as_mut_slice();
    push_ranks(cells, rows, &mut covering[..rows.len()], summary, ranks)
}
