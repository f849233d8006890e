//! Labels of one stop that are lowered, in each lane.
ghost use Rattle.std.specs.Prelude.{◌≡◌, ◌-◌, ℕ, ◌<◌, length, slice_index, slice_index_or, List, set, true, false};
ghost use Rattle.trip_lanes.specs.Falls.{AreNoted};
ghost use Rattle.trip_lanes.specs.Lane.{lane, labels_in, MarksFallenOf};
ghost use Rattle.timetable.specs.RoundSteps.{Lowers};

use crate::lane_labels::LaneLabels;

/// Lowers the lanes of a stop to these times, and marks the stop where one fell.
#[inline(always)]
pub fn lower_row<R: LaneLabels>(labels: &mut [R], marked: &mut [bool], stop: usize, times: R)
    requires stop { stop < length labels.old }
    requires same { length marked.old ≡ length labels.old }
    ensures lanes { (l : ℕ) → l < R.LANES → Lowers (λ p x. (p ≡ stop)
        × (x ≡ slice_index (R.labels times) l)) (lane l (labels_in R.labels labels.old))
        (lane l (labels_in R.labels labels.new)) }
    ensures marks { MarksFallenOf R.LANES (labels_in R.labels labels.old) (labels_in R.labels labels.new) marked.old
        marked.new }
{
    let old = labels[stop];
    lower_from(labels, marked, stop, old, times);
}

/// The same, where the labels of the stop have been read.
#[inline(always)]
fn lower_from<R: LaneLabels>(labels: &mut [R], marked: &mut [bool], stop: usize, row: R, times: R)
    requires stop { stop < length labels.old }
    requires same { length marked.old ≡ length labels.old }
    requires row { row ≡ slice_index_or labels.old stop row }
    ensures lanes { (l : ℕ) → l < R.LANES → Lowers (λ p x. (p ≡ stop)
        × (x ≡ slice_index (R.labels times) l)) (lane l (labels_in R.labels labels.old))
        (lane l (labels_in R.labels labels.new)) }
    ensures marks { MarksFallenOf R.LANES (labels_in R.labels labels.old) (labels_in R.labels labels.new) marked.old
        marked.new }
{
    let new = row.lower_of(times);
    marked[stop] = marked[stop] | new.changed(row);
    labels[stop] = new;
}

/// Lowers the lanes of a stop to these times. Where one fell the stop is noted, and at its first fall its labels before
/// are kept. `before` has labels of one stop more than there are, where what is stored of a stop that is noted already
/// goes: so nothing branches.
#[inline(always)]
pub(crate) fn lower_noting<R: LaneLabels>(
    ready: &mut [R],
    fallen: &mut [bool],
    before: &mut [R],
    stop: usize,
    times: R,
)
    requires stop { stop < length ready.old }
    requires fallen { length fallen.old ≡ length ready.old }
    requires before { length ready.old < length before.old }
    ensures lanes { (l : ℕ) → l < R.LANES → Lowers (λ p x. (p ≡ stop)
        × (x ≡ slice_index (R.labels times) l)) (lane l (labels_in R.labels ready.old))
        (lane l (labels_in R.labels ready.new)) }
    ensures fallen { MarksFallenOf R.LANES (labels_in R.labels ready.old) (labels_in R.labels ready.new) fallen.old
        fallen.new }
    ensures before { (l : ℕ) (was : List ℕ) → l < R.LANES →
        AreNoted was (lane l (labels_in R.labels ready.old)) (lane l (labels_in R.labels before.old)) fallen.old →
        AreNoted was (lane l (labels_in R.labels ready.new)) (lane l (labels_in R.labels before.new)) fallen.new }
{
    // The labels before are stored first, while registers hold them.
    let old = ready[stop];
    keep_first(before, stop, old, fallen[stop]);
    lower_from(ready, fallen, stop, old, times);
}

/// Keeps the labels of a stop, unless its first fall is noted already: then those of no stop take them.
#[inline(always)]
fn keep_first<R: LaneLabels>(before: &mut [R], stop: usize, old: R, noted: bool)
    requires stop { stop < length before.old }
    ensures first { noted ≡ false → before.new ≡ set before.old stop old }
    ensures later { noted ≡ true → before.new ≡ set before.old (length before.old - 1) old }
{
    let last = before.len() - 1;
    before[if noted { last } else { stop }] = old;
}
