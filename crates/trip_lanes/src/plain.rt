//! Plain forms, over wide labels: one trip as it stands, and walks and changes from every stop, in each lane. They are
//! not on the program's way: they say what a scan of a line, and walks and changes from marked stops, come to.
ghost use Rattle.std.specs.Prelude.{◌≡◌, ◌≢◌, ℕ, ◌+◌, ◌^◌, ◌<◌, ◌≤◌, length, min, max, cond, nat_le, slice_index};
ghost use Rattle.std.specs.Prelude.{slice_get, Some, IsTrue, ◌↔◌, ◌⊎◌};
ghost use Rattle.trip_lanes.specs.Lane.{SomeFell, lane, LeavesLater, MarksFallen};
ghost use Rattle.timetable.specs.RoundSteps.{Lowers, Carries, WalkedOrStayed, ChangedOrWalked};
ghost use Rattle.timetable.specs.declared.trips.Event.{Event};
ghost use Rattle.timetable.specs.declared.limits.TheConstants.{MOST_FOOT_SECONDS, MOST_CHANGE_SECONDS};
ghost use Rattle.trip_lanes.specs.declared.lanes.TheConstants.{LANES};

use crate::lane_labels::LaneLabels;
use crate::lanes::{LANES, Lanes};
use std::simd::prelude::*;
use std::simd::u32x16;
use timetable::{Feet, NEVER, StopNo, Trip};

/// The plain form of [`scan_line`](crate::scan_line), for a single trip: carries travellers along it in each lane,
/// and marks the stops where one fell.
pub fn carry_trip(trip: &Trip, ready: &[Lanes], ride: &mut [Lanes], marked: &mut [bool])
    requires stops { (k : ℕ) (e : Event) → slice_get trip.now.events k ≡ Some e → e.stop.0 < length ride.old }
    requires ready { length ready.now ≡ length ride.old }
    requires marked { length marked.old ≡ length ride.old }
    requires fits { (l p : ℕ) → l < LANES → slice_index (lane l ride.old) p ≤ NEVER }
    ensures lanes { (l : ℕ) → l < LANES → Lowers (Carries (lane l ready.now) trip.now) (lane l ride.old)
        (lane l ride.new) }
    ensures marks { MarksFallen ride.old ride.new marked.old marked.new }
{
    let mut bar = [NEVER; LANES];
    for event in trip.events.as_slice() {
        let stop = event.stop.0 as usize;
        if event.alight {
            lower_lanes(ride, marked, stop, bar, event.arrive);
        }
        if event.board {
            let aboard = board(ready[stop], bar, event.depart);
            bar = aboard;
        }
    }
}

/// Lowers the lanes of a stop that are aboard to an arrival, and marks the stop where one fell.
pub(crate) fn lower_lanes(
    ride: &mut [Lanes],
    marked: &mut [bool],
    stop: usize,
    bar: Lanes,
    arrive: u32,
)
    requires stop { stop < length ride.old }
    requires same { length marked.old ≡ length ride.old }
    requires fits { (l : ℕ) → l < LANES → slice_index (lane l ride.old) stop ≤ NEVER }
    requires bar { (l : ℕ) → l < LANES → (slice_index bar l ≡ 0) ⊎ (slice_index bar l ≡ NEVER) }
    ensures lanes { (l : ℕ) → l < LANES → Lowers (λ p x. (slice_index bar l ≡ 0) × (p ≡ stop)
        × (x ≡ arrive)) (lane l ride.old) (lane l ride.new) }
    ensures marks { MarksFallen ride.old ride.new marked.old marked.new }
{
    let old = ride[stop];
    let new = alight(old, bar, arrive);
    ride[stop] = new;
    if fell(new, old) {
        marked[stop] = true;
    }
}

/// Lowers each lane that is aboard, whose bar is 0, to the arrival.
fn alight(old: Lanes, bar: Lanes, arrive: u32) -> Lanes
    ensures { (l : ℕ) → l < LANES → slice_index result l ≡ min (slice_index old l) (max (slice_index bar l) arrive) }
{
    let best = u32x16::from_array(bar).simd_max(u32x16::splat(arrive));
    u32x16::from_array(old).simd_min(best).to_array()
}

/// Takes each lane aboard that is ready by the departure.
fn board(ready: Lanes, bar: Lanes, depart: u32) -> Lanes
    ensures { (l : ℕ) → l < LANES → slice_index result l
        ≡ cond (nat_le (slice_index ready l) depart) 0 (slice_index bar l) }
{
    let aboard = u32x16::from_array(ready).simd_le(u32x16::splat(depart));
    aboard
        .select(u32x16::splat(0), u32x16::from_array(bar))
        .to_array()
}

/// Whether some lane is lower.
fn fell(new: Lanes, old: Lanes) -> bool
    ensures { IsTrue result ↔ SomeFell new old }
{
    let lower = u32x16::from_array(new).simd_lt(u32x16::from_array(old));
    lower.any()
}

/// The plain form of [`walk_marked`](crate::walk_marked): walks from every stop that a ride reached,
/// or stays there, in each lane.
///
/// It reads `ride` and lowers `ready`, so no walk begins where another ended.
pub fn walk(feet: &Feet, ride: &[Lanes], ready: &mut [Lanes])
    requires ride { length ride.now ≡ length feet.now.walks }
    requires ready { length ready.old ≡ length feet.now.walks }
    requires rides { (l p : ℕ) → l < LANES → slice_index (lane l ride.now) p ≢ NEVER →
        slice_index (lane l ride.now) p + MOST_FOOT_SECONDS < 2 ^ 32 }
    requires fits { (l p : ℕ) → l < LANES → slice_index (lane l ready.old) p ≤ NEVER }
    ensures { (l : ℕ) → l < LANES → Lowers (WalkedOrStayed feet.now.walks (lane l ride.now)) (lane l ready.old)
        (lane l ready.new) }
{
    feet.known();
    for stop in 0..feet.stops() {
        let times = ride[stop as usize];
        lower_all(ready, stop as usize, times);
        walk_from(feet.leaving(StopNo(stop)), times, ready);
    }
}

/// The plain form of [`transfer_marked`](crate::transfer_marked): changes to another vehicle at every
/// stop that a ride reached, or walks from there, in each lane: who stays is ready to board once the stop's change time
/// has passed, and who walks at once.
///
/// It reads `ride` and lowers `ready`.
pub fn transfer(feet: &Feet, ride: &[Lanes], ready: &mut [Lanes])
    requires ride { length ride.now ≡ length feet.now.walks }
    requires ready { length ready.old ≡ length feet.now.walks }
    requires rides { (l p : ℕ) → l < LANES → slice_index (lane l ride.now) p ≢ NEVER →
        slice_index (lane l ride.now) p + MOST_CHANGE_SECONDS < 2 ^ 32 }
    requires fits { (l p : ℕ) → l < LANES → slice_index (lane l ready.old) p ≤ NEVER }
    ensures { (l : ℕ) → l < LANES → Lowers (ChangedOrWalked feet.now (lane l ride.now)) (lane l ready.old)
        (lane l ready.new) }
{
    feet.known();
    for stop in 0..feet.stops() {
        let arrived = ride[stop as usize];
        lower_all(
            ready,
            stop as usize,
            arrived.later(feet.change(StopNo(stop))),
        );
        walk_from(feet.leaving(StopNo(stop)), arrived, ready);
    }
}

/// Walks along the footpaths that leave a stop, in each lane.
fn walk_from(leaving: &[(StopNo, u32)], times: Lanes, ready: &mut [Lanes])
    requires { (k stop seconds : ℕ) → slice_get leaving.now k ≡ Some (record { 0 = stop }, seconds) →
        stop < length ready.old }
    ensures { (l : ℕ) → l < LANES → Lowers (LeavesLater leaving.now (slice_index times l)) (lane l ready.old)
        (lane l ready.new) }
{
    for (to, seconds) in leaving {
        lower_all(ready, to.0 as usize, times.later(*seconds));
    }
}

/// Lowers the lanes of a stop to these times.
pub fn lower_all(labels: &mut [Lanes], stop: usize, times: Lanes)
    requires { stop < length labels.old }
    ensures { (l : ℕ) → l < LANES → Lowers (λ p x. (p ≡ stop)
        × (x ≡ slice_index times l)) (lane l labels.old) (lane l labels.new) }
{
    let lowered = labels[stop].lower_of(times);
    labels[stop] = lowered;
}
