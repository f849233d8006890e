//! How late somebody may come to each stop, whatever the journey: by the last trip there, and by walks that follow one.
ghost use Rattle.std.specs.Prelude.{◌≡◌, ℕ, ◌+◌, ◌<◌, ◌≤◌, ◌⊎◌, IsTrue, length, replicate, slice_get, slice_index};
ghost use Rattle.std.specs.Prelude.{Some, All, IfOk};
ghost use Rattle.timetable.specs.Footpaths.{IsFoot};
ghost use Rattle.timetable.specs.LastArrivals.{Comes, AreLastArrivals};
ghost use Rattle.timetable.specs.Trips.{EventsRise};
ghost use Rattle.timetable.specs.declared.limits.TheConstants.{END_OF_AXIS, MOST_FOOT_SECONDS};
ghost use Rattle.timetable.specs.declared.trips.Event.{Event as EventValue};

use crate::footpaths::Feet;
use crate::trips::{Event, StopNo, Trip};
use std::alloc::{AllocError, Global};

/// Raises the number of a stop to a time.
fn raise(last: &mut [u32], stop: usize, time: u32)
    requires { stop < length last.old }
    ensures here { time ≤ slice_index last.new stop }
    ensures rises { (p : ℕ) → slice_index last.old p ≤ slice_index last.new p }
    ensures told { (p : ℕ) → (slice_index last.new p ≡ slice_index last.old p)
        ⊎ ((p ≡ stop) × (slice_index last.new p ≡ time)) }
    ensures early { (most : ℕ) → time ≤ most → ((p : ℕ) → slice_index last.old p ≤ most) →
        (p : ℕ) → slice_index last.new p ≤ most }
{
    if last[stop] < time {
        last[stop] = time;
    }
}

/// Raises the numbers of the stops where one may alight from a trip to its arrivals.
fn note_arrivals(events: &[Event], ridden: &mut [u32])
    requires stops { All (λ e. e.stop.0 < length ridden.old) events.now }
    requires rise { EventsRise events.now }
    requires axis { All (λ e. e.depart < END_OF_AXIS) events.now }
    requires early { (p : ℕ) → slice_index ridden.old p ≤ END_OF_AXIS }
    ensures here { (k : ℕ) (e : EventValue) → slice_get events.now k ≡ Some e → IsTrue e.alight →
        e.arrive ≤ slice_index ridden.new e.stop.0 }
    ensures told { (p : ℕ) → (slice_index ridden.new p ≡ slice_index ridden.old p)
        ⊎ ((k : ℕ) × (e : EventValue) × (slice_get events.now k ≡ Some e) × IsTrue e.alight × (e.stop.0 ≡ p)
        × (e.arrive ≡ slice_index ridden.new p)) }
    ensures rises { (p : ℕ) → slice_index ridden.old p ≤ slice_index ridden.new p }
    ensures early { (p : ℕ) → slice_index ridden.new p ≤ END_OF_AXIS }
{
    for event in events {
        if event.alight {
            raise(ridden, event.stop.0 as usize, event.arrive);
        }
    }
}

/// Raises the number of each stop, from 0, to the last arrival of a trip there.
fn note_rides(trips: &[Trip], ridden: &mut [u32])
    requires stops { All (λ t. All (λ e. e.stop.0 < length ridden.old) t.events) trips.now }
    requires rise { All (λ t. EventsRise t.events) trips.now }
    requires axis { All (λ t. All (λ e. e.depart < END_OF_AXIS) t.events) trips.now }
    requires begins { (p : ℕ) → slice_index ridden.old p ≡ 0 }
    ensures last { (p time : ℕ) → Comes trips.now p time → time ≤ slice_index ridden.new p }
    ensures some { (p : ℕ) → Comes trips.now p (slice_index ridden.new p) }
    ensures early { (p : ℕ) → slice_index ridden.new p ≤ END_OF_AXIS }
{
    for trip in trips {
        note_arrivals(trip.events.as_slice(), ridden);
    }
}

/// Raises the numbers of the stops that one walks to, to the ends of walks that begin at a time.
fn walk_on(leaving: &[(StopNo, u32)], time: u32, last: &mut [u32])
    requires targets { All (λ x. x.0.0 < length last.old) leaving.now }
    requires seconds { All (λ x. x.1 ≤ MOST_FOOT_SECONDS) leaving.now }
    requires time { time ≤ END_OF_AXIS }
    requires early { (p : ℕ) → slice_index last.old p ≤ END_OF_AXIS + MOST_FOOT_SECONDS }
    ensures here { (k stop seconds : ℕ) → slice_get leaving.now k ≡ Some (record { 0 = stop }, seconds) →
        time + seconds ≤ slice_index last.new stop }
    ensures told { (p : ℕ) → (slice_index last.new p ≡ slice_index last.old p)
        ⊎ ((k seconds : ℕ) × (slice_get leaving.now k ≡ Some (record { 0 = p }, seconds))
        × (time + seconds ≡ slice_index last.new p)) }
    ensures rises { (p : ℕ) → slice_index last.old p ≤ slice_index last.new p }
    ensures early { (p : ℕ) → slice_index last.new p ≤ END_OF_AXIS + MOST_FOOT_SECONDS }
{
    for (to, seconds) in leaving {
        raise(last, to.0 as usize, time + *seconds);
    }
}

/// Raises the number of each stop to the last end of a walk there, from where the last trip arrived.
fn note_walks(feet: &Feet, ridden: &[u32], last: &mut [u32])
    requires ridden { length ridden.now ≡ length feet.now.walks }
    requires begins { last.old ≡ ridden.now }
    requires early { (p : ℕ) → slice_index ridden.now p ≤ END_OF_AXIS }
    ensures rides { (p : ℕ) → slice_index ridden.now p ≤ slice_index last.new p }
    ensures walks { (q p seconds : ℕ) → IsFoot feet.now.walks q p seconds →
        slice_index ridden.now q + seconds ≤ slice_index last.new p }
    ensures some { (p : ℕ) → (slice_index last.new p ≡ slice_index ridden.now p)
        ⊎ ((q seconds : ℕ) × IsFoot feet.now.walks q p seconds
        × (slice_index ridden.now q + seconds ≡ slice_index last.new p)) }
    ensures early { (p : ℕ) → slice_index last.new p ≤ END_OF_AXIS + MOST_FOOT_SECONDS }
{
    feet.known();
    for stop in 0..feet.stops() {
        walk_on(feet.leaving(StopNo(stop)), ridden[stop as usize], last);
    }
}

/// For each stop the last time at which a trip arrives that one may alight from, or a walk ends that follows such an
/// arrival, or that begins with the axis, at 0.
pub(crate) fn last_arrivals_of(
    alloc: Global,
    trips: &[Trip],
    feet: &Feet,
) -> Result<Vec<u32>, AllocError>
    requires stops { All (λ t. All (λ e. e.stop.0 < length feet.now.walks) t.events) trips.now }
    requires rise { All (λ t. EventsRise t.events) trips.now }
    requires axis { All (λ t. All (λ e. e.depart < END_OF_AXIS) t.events) trips.now }
    ensures { IfOk result (λ last. AreLastArrivals trips.now feet.now last.items) }
{
    let mut ridden = vec![in alloc; 0; feet.stops() as usize]?;
    note_rides(trips, ridden.as_mut_slice());
    let mut last = ridden.to_vec(alloc)?;
    note_walks(feet, ridden.as_slice(), last.as_mut_slice());
    Ok(last)
}
