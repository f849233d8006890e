//! The cells of all groups of a window.
ghost use Rattle.std.specs.Prelude.{◌≡◌, ◌+◌, ◌*◌, ◌<◌, ◌≤◌, ℕ, length, slice_index, OnOk, IfOk};
ghost use Rattle.label_cells.specs.Groups.{AddsUnused, AreGroupCells, AreRankCells, groups_of};
ghost use Rattle.rounds.specs.Labels.{AreWindowLabels};

use crate::group::{CellBuffers, push_group};
use crate::walks::lower_walks;
use rounds::WindowLabels;
use std::alloc::{AllocError, Global};
use timetable::NEVER;
use trip_lanes::Lanes;

/// How many stops a group has: they are side by side in a vector.
pub(crate) const GROUP: usize = 16;

/// Appends the lists of a group that is left out, one for each rank. Out of memory is the only error.
fn push_unused(cells: &mut Vec<Lanes>, ranks: usize) -> Result<(), AllocError>
    ensures { OnOk result (AddsUnused ranks cells.old.items cells.new.items) }
{
    for _rank in 0..ranks {
        cells.push([NEVER; 16])?;
    }
    Ok(())
}

/// Returns the cells of each group for each rank, without walks; of groups that aren't used, anything. Out of memory is
/// the only error.
fn group_cells(
    alloc: Global,
    buffers: &mut CellBuffers,
    window: WindowLabels<'_>,
    used: &[bool],
    ranks: &[u32],
) -> Result<Vec<Lanes>, AllocError>
    requires window { AreWindowLabels window }
    requires used { length used.now ≡ groups_of (length window.numbers.now) }
    requires ranks { (k : ℕ) → k < length ranks.now → slice_index ranks.now k ≤ 1440 }
    ensures { IfOk result (λ cells. AreGroupCells window.entry used.now ranks.now cells.items) }
{
    let count = used.len().saturating_mul(ranks.len());
    let mut cells = Vec::with_capacity(alloc, count)?;
    for group in 0..used.len() {
        if used[group] {
            let from = GROUP * group * window.found.width;
            push_group(alloc, &mut cells, buffers, window, from, ranks)?;
        } else {
            push_unused(&mut cells, ranks.len())?;
        }
    }
    Ok(cells)
}

/// Returns the cells of all stops for each rank, group by group; of groups that aren't used, anything. Out of memory is
/// the only error.
pub(crate) fn rank_cells(
    alloc: Global,
    buffers: &mut CellBuffers,
    window: WindowLabels<'_>,
    used: &[bool],
    ranks: &[u32],
) -> Result<Vec<Lanes>, AllocError>
    requires window { AreWindowLabels window }
    requires used { length used.now ≡ groups_of (length window.numbers.now) }
    requires ranks { (k : ℕ) → k < length ranks.now → slice_index ranks.now k ≤ window.minutes }
    ensures { IfOk result (λ cells. AreRankCells window.entry used.now ranks.now cells.items) }
{
    let mut cells = group_cells(alloc, buffers, window, used, ranks)?;
    lower_walks(cells.as_mut_slice(), ranks.len(), window.walks);
    Ok(cells)
}
