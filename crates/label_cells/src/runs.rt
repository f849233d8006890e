//! The runs of sixteen stops.
ghost use Rattle.std.specs.Prelude.{◌≡◌, ◌≢◌, ◌+◌, ◌*◌, ◌<◌, ◌≤◌, ℕ, Option, length, slice_index, OnOk};
ghost use Rattle.rounds.specs.Labels.{AreLabelDurations, ArePositions, AreSince};
ghost use Rattle.label_cells.specs.Runs.{AreEnds, AreRuns};
ghost use Rattle.label_cells.specs.Sums.{sum_to};
ghost use Rattle.label_cells.specs.GroupLanes.{lane_of, shortest_at, span_in};

use crate::split_runs::Sixteen;
use crate::splitting::shortest_of;
use rounds::WindowLabels;
use std::alloc::AllocError;

/// A run of sixteen stops.
#[derive(Clone, Copy)]
pub(crate) struct Run {
    /// The duration of the run's last minute, the shortest of the run; `NEVER` where the stop isn't reached.
    pub shortest: Sixteen,
    /// How many minutes the run has.
    pub span: u16,
}

/// The labels of sixteen stops at a position.
fn column(found: &[u16], from: usize, width: usize, j: usize) -> Sixteen
    requires space { from + 16 * width ≤ length found.now }
    requires within { j < width }
    ensures fits { (l : ℕ) → l < 16 → slice_index result l ≤ 65535 }
    ensures labels { (l : ℕ) → l < 16 → slice_index result l ≡ slice_index found.now (from + l * width + j) }
{
    let mut labels = [0; 16];
    for l in 0..16 {
        labels[l] = found[from + l * width + j];
    }
    labels
}

/// Lists the runs of a group, given the positions at which they end. Out of memory is the only error.
pub(crate) fn fill_runs(
    runs: &mut Vec<Run>,
    window: WindowLabels<'_>,
    from: usize,
    ends: &[bool],
) -> Result<(), AllocError>
    requires positions { ArePositions window.found.bases.now window.searched.now window.first window.minutes }
    requires width { length window.searched.now ≤ window.found.width }
    requires space { from + 16 * window.found.width ≤ length window.found.labels.now }
    requires ends { (l : ℕ) → l < 16 →
        AreEnds (lane_of window.found.labels.now from window.found.width (length window.searched.now) l)
        window.found.bases.now ends.now }
    ensures all { OnOk result (sum_to (span_in runs.new.items) (length runs.new.items) ≡ window.entry.minutes) }
    ensures few { OnOk result (length runs.new.items ≤ window.entry.minutes) }
    ensures fits { OnOk result ((l i : ℕ) → l < 16 → i < length runs.new.items →
        shortest_at runs.new.items l i ≤ 65535) }
    ensures runs { OnOk result ((l : ℕ) (of_minute : ℕ → Option ℕ) → l < 16 →
        AreSince (lane_of window.entry.found.labels.now from window.entry.found.width
        (length window.entry.searched.now) l) window.entry.found.bases.now window.entry.searched.now
        window.entry.first →
        AreLabelDurations (lane_of window.entry.found.labels.now from window.entry.found.width
        (length window.entry.searched.now) l) window.entry.found.bases.now window.entry.searched.now
        window.entry.first window.entry.minutes of_minute →
        AreRuns of_minute window.entry.minutes (shortest_at runs.new.items l) (span_in runs.new.items)
        (length runs.new.items)) }
{
    runs.clear();
    let mut was = 0;
    for j in 0..window.searched.len() {
        if ends[j] {
            let labels = column(window.found.labels, from, window.found.width, j);
            let more = window.first + 60 * window.searched[j] - window.found.bases[j];
            let shortest = shortest_of(labels, more as u16);
            let upto = window.searched[j] + 1;
            runs.push(Run {
                shortest,
                span: (upto - was) as u16,
            })?;
            was = upto;
        }
    }
    Ok(())
}
