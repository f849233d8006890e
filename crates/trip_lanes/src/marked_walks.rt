//! Walks and changes from marked stops alone, in each lane.
ghost use Rattle.std.specs.Prelude.{◌≡◌, ℕ, ◌<◌, ◌≤◌, List, length, slice_index, slice_get, Some, true};
ghost use Rattle.trip_lanes.specs.Lane.{lane, labels_in, LeavesLaterTo, MarksFallenOf};
ghost use Rattle.trip_lanes.specs.Falls.{AreNoted};
ghost use Rattle.trip_lanes.specs.Scan.{NothingLower};
ghost use Rattle.trip_lanes.specs.Walks.{OfferedFrom, TransferredFrom};
ghost use Rattle.timetable.specs.RoundSteps.{Lowers, WalkedOrStayed, ChangedOrWalked};

use crate::kernels::lower_noting;
use crate::lane_labels::LaneLabels;
use timetable::{Feet, StopNo};

/// Walks from each marked stop, or stays there, in each lane, and notes the stops where a label fell: at its first
/// fall a stop's labels before are kept. From the other stops nobody reaches a stop earlier.
pub fn walk_marked<R: LaneLabels>(
    feet: &Feet,
    ride: &[R],
    marked: &[bool],
    ready: &mut [R],
    fallen: &mut [bool],
    before: &mut [R],
)
    requires ride { length ride.now ≡ length feet.now.walks }
    requires marked { length marked.now ≡ length feet.now.walks }
    requires ready { length ready.old ≡ length feet.now.walks }
    requires fallen { length fallen.old ≡ length feet.now.walks }
    requires before { length feet.now.walks < length before.old }
    requires fits { (l p : ℕ) → l < R.LANES → slice_index (lane l (labels_in R.labels ready.old)) p ≤ R.NEVER }
    requires settled { (l x : ℕ) → l < R.LANES → x < length feet.now.walks → (slice_get marked.now x ≡ Some true → ⊥) →
        NothingLower (OfferedFrom feet.now.walks (lane l (labels_in R.labels ride.now)) x)
        (lane l (labels_in R.labels ready.old)) }
    ensures lanes { (l : ℕ) → l < R.LANES → Lowers
        (WalkedOrStayed feet.now.walks (lane l (labels_in R.labels ride.now)))
        (lane l (labels_in R.labels ready.old)) (lane l (labels_in R.labels ready.new)) }
    ensures fallen { MarksFallenOf R.LANES (labels_in R.labels ready.old) (labels_in R.labels ready.new) fallen.old
        fallen.new }
    ensures before { (l : ℕ) (was : List ℕ) → l < R.LANES →
        AreNoted was (lane l (labels_in R.labels ready.old)) (lane l (labels_in R.labels before.old)) fallen.old →
        AreNoted was (lane l (labels_in R.labels ready.new)) (lane l (labels_in R.labels before.new)) fallen.new }
{
    feet.known();
    for stop in 0..feet.stops() {
        if marked[stop as usize] {
            let times = ride[stop as usize];
            lower_noting(ready, fallen, before, stop as usize, times);
            walk_noting(feet.leaving(StopNo(stop)), times, ready, fallen, before);
        }
    }
}

/// Changes to another vehicle at each marked stop, or walks from there, in each lane, and notes the stops where a label
/// fell: at its first fall a stop's labels before are kept. From the other stops nobody is ready earlier.
pub fn transfer_marked<R: LaneLabels>(
    feet: &Feet,
    ride: &[R],
    marked: &[bool],
    ready: &mut [R],
    fallen: &mut [bool],
    before: &mut [R],
)
    requires ride { length ride.now ≡ length feet.now.walks }
    requires marked { length marked.now ≡ length feet.now.walks }
    requires ready { length ready.old ≡ length feet.now.walks }
    requires fallen { length fallen.old ≡ length feet.now.walks }
    requires before { length feet.now.walks < length before.old }
    requires fits { (l p : ℕ) → l < R.LANES → slice_index (lane l (labels_in R.labels ready.old)) p ≤ R.NEVER }
    requires settled { (l x : ℕ) → l < R.LANES → x < length feet.now.walks → (slice_get marked.now x ≡ Some true → ⊥) →
        NothingLower (TransferredFrom feet.now (lane l (labels_in R.labels ride.now)) x)
        (lane l (labels_in R.labels ready.old)) }
    ensures lanes { (l : ℕ) → l < R.LANES → Lowers (ChangedOrWalked feet.now (lane l (labels_in R.labels ride.now)))
        (lane l (labels_in R.labels ready.old)) (lane l (labels_in R.labels ready.new)) }
    ensures fallen { MarksFallenOf R.LANES (labels_in R.labels ready.old) (labels_in R.labels ready.new) fallen.old
        fallen.new }
    ensures before { (l : ℕ) (was : List ℕ) → l < R.LANES →
        AreNoted was (lane l (labels_in R.labels ready.old)) (lane l (labels_in R.labels before.old)) fallen.old →
        AreNoted was (lane l (labels_in R.labels ready.new)) (lane l (labels_in R.labels before.new)) fallen.new }
{
    feet.known();
    for stop in 0..feet.stops() {
        if marked[stop as usize] {
            let times = ride[stop as usize];
            lower_noting(
                ready,
                fallen,
                before,
                stop as usize,
                times.later(feet.change(StopNo(stop))),
            );
            walk_noting(feet.leaving(StopNo(stop)), times, ready, fallen, before);
        }
    }
}

/// Walks along the footpaths that leave a stop, in each lane, and notes the stops where a label fell: at its first fall
/// a stop's labels before are kept. It is a function of its own, so that its loop has registers enough.
#[inline(never)]
fn walk_noting<R: LaneLabels>(
    leaving: &[(StopNo, u32)],
    times: R,
    ready: &mut [R],
    fallen: &mut [bool],
    before: &mut [R],
)
    requires targets { (k stop seconds : ℕ) → slice_get leaving.now k ≡ Some (record { 0 = stop }, seconds) →
        stop < length ready.old }
    requires fallen { length fallen.old ≡ length ready.old }
    requires before { length ready.old < length before.old }
    ensures lanes { (l : ℕ) → l < R.LANES → Lowers (LeavesLaterTo R.NEVER leaving.now (slice_index (R.labels times) l))
        (lane l (labels_in R.labels ready.old)) (lane l (labels_in R.labels ready.new)) }
    ensures fallen { MarksFallenOf R.LANES (labels_in R.labels ready.old) (labels_in R.labels ready.new) fallen.old
        fallen.new }
    ensures before { (l : ℕ) (was : List ℕ) → l < R.LANES →
        AreNoted was (lane l (labels_in R.labels ready.old)) (lane l (labels_in R.labels before.old)) fallen.old →
        AreNoted was (lane l (labels_in R.labels ready.new)) (lane l (labels_in R.labels before.new)) fallen.new }
{
    for (to, seconds) in leaving {
        lower_noting(ready, fallen, before, to.0 as usize, times.later(*seconds));
    }
}
