//! At which positions the runs of sixteen stops end.
ghost use Rattle.std.specs.Prelude.{◌≡◌, ◌≢◌, ◌+◌, ◌*◌, ◌<◌, ◌≤◌, ℕ, false, cond, length, nat_eq, slice_index, OnOk};
ghost use Rattle.label_cells.specs.Runs.{AreEnds};
ghost use Rattle.rounds.specs.Labels.{ArePositions};
ghost use Rattle.label_cells.specs.GroupLanes.{lane_of};

use rounds::WindowLabels;
use std::alloc::AllocError;
use std::simd::prelude::*;
use std::simd::u16x8;

/// Eight labels of one stop, or a mark for each.
type Eight = [u16; 8];

/// Eight labels from position `at` on.
#[inline(always)]
fn eight_of(found: &[u16], at: usize) -> Eight
    requires { at + 8 ≤ length found.now }
    ensures { (k : ℕ) → k < 8 → slice_index result k ≡ slice_index found.now (at + k) }
{
    u16x8::from_slice(&found[at..at + 8]).to_array()
}

/// The marks in `same`, set to 0 where the labels differ.
#[inline(always)]
fn same_of(same: Eight, here: Eight, next: Eight) -> Eight
    ensures { (k : ℕ) → k < 8 → slice_index result k
        ≡ cond (nat_eq (slice_index here k) (slice_index next k)) (slice_index same k) 0 }
{
    u16x8::from_array(here)
        .simd_eq(u16x8::from_array(next))
        .select(u16x8::from_array(same), u16x8::splat(0))
        .to_array()
}

/// Marks for eight positions: 0 where some stop's label differs from that of the next position.
fn same_eight(found: &[u16], from: usize, width: usize, at: usize) -> Eight
    requires space { from + 16 * width + 8 ≤ length found.now }
    requires within { at < width }
    ensures { (k l : ℕ) → k < 8 → l < 16 → slice_index result k ≢ 0 →
        slice_index found.now (from + l * width + at + k) ≡ slice_index found.now (from + l * width + at + k + 1) }
{
    let mut same = [1; 8];
    for l in 0..16usize {
        let start = from + l * width + at;
        let more = same_of(same, eight_of(found, start), eight_of(found, start + 1));
        same = more;
    }
    same
}

/// Whether runs end at a position: it is the last, or its base isn't that of the next one, or some stop's label isn't.
fn is_end(bases: &[u32], j: usize, same: u16) -> bool
    requires { j < length bases.now }
    ensures within { result ≡ false → j + 1 < length bases.now }
    ensures base { result ≡ false → slice_index bases.now j ≡ slice_index bases.now (j + 1) }
    ensures label { result ≡ false → same ≢ 0 }
{
    j + 1 == bases.len() || bases[j] != bases[j + 1] || same == 0
}

/// Finds the positions at which the runs of a group end, one flag for each position. The group's labels begin at
/// `from`.
///
/// Its sixteen stops share their runs: if the label of one stop changes, the runs of all end. Out of memory is the only
/// error.
pub(crate) fn fill_ends(
    ends: &mut Vec<bool>,
    window: WindowLabels<'_>,
    from: usize,
) -> Result<(), AllocError>
    requires positions { ArePositions window.found.bases.now window.searched.now window.first window.minutes }
    requires width { length window.searched.now ≤ window.found.width }
    requires space { from + 16 * window.found.width + 8 ≤ length window.found.labels.now }
    ensures { OnOk result ((l : ℕ) → l < 16 →
        AreEnds (lane_of window.entry.found.labels.now from window.entry.found.width
        (length window.entry.searched.now) l) window.entry.found.bases.now ends.new.items) }
{
    let bases = window.found.bases;
    ends.clear();
    let mut same = [0; 8];
    for j in 0..bases.len() {
        if j % 8 == 0 {
            let eight = same_eight(window.found.labels, from, window.found.width, j);
            same = eight;
        }
        ends.push(is_end(bases, j, same[j % 8]))?;
    }
    Ok(())
}
