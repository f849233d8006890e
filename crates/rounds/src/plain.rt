//! The plain form of a search: the least durations from one origin, for one departure. Rides alternate with changes and
//! walks, over one number per stop: the second at which it is reached or from which one may board there, or `NEVER`.
//! It isn't on the program's way: it says what a search of a window comes to, minute by minute.
ghost use Rattle.std.specs.Prelude.{◌≡◌, ◌≢◌, ℕ, ◌+◌, ◌^◌, ◌<◌, ◌≤◌, length, replicate, slice_index, All, IfOk};
ghost use Rattle.timetable.specs.Networks.{IsNet};
ghost use Rattle.timetable.specs.Journeys.{AreLeastDurations};
ghost use Rattle.timetable.specs.RoundSteps.{Lowers, Carries, CarriesAny, ChangedOrWalked, WalkedOrStayed, Leaves};
ghost use Rattle.timetable.specs.declared.limits.TheConstants.{END_OF_AXIS, MOST_FOOT_SECONDS};
ghost use Rattle.rounds.specs.Minutes.{IsRidden, IsSince, IsTable};

use std::alloc::{AllocError, Global};
use timetable::{Feet, NEVER, Network, StopNo, Trip};

/// The least durations from `origin` to every stop, for journeys that begin at the second `depart` and have at most
/// `rides` rides: one number of seconds per stop, waiting included, and `NEVER` where no journey leads.
///
/// `depart` is on the axis of the network's times. Out of memory is the only error.
/// (RAPTOR: Delling, Pajor, Werneck, ALENEX 2012; that walks may come first or last, and never follow one another, is
/// this project's rule.)
pub fn one_minute(
    alloc: Global,
    network: &Network,
    origin: StopNo,
    depart: u32,
    rides: u32,
) -> Result<Vec<u32>, AllocError>
    requires origin { origin.0 < network.now.stops }
    requires depart { depart < END_OF_AXIS }
    ensures { IfOk result (λ durations. AreLeastDurations network.now origin.0 depart rides durations.items) }
{
    let stops = network.stops() as usize;
    let mut ride = vec![in alloc; NEVER; stops]?;
    let mut labels = vec![in alloc; NEVER; stops]?;
    fill_durations(network, origin, depart, rides, &mut ride, &mut labels);
    Ok(labels)
}

/// Fills `labels` with the least durations. Both lists begin as `NEVER`.
fn fill_durations(
    network: &Network,
    origin: StopNo,
    depart: u32,
    rides: u32,
    ride: &mut [u32],
    labels: &mut [u32],
)
    requires origin { origin.0 < network.now.stops }
    requires depart { depart < END_OF_AXIS }
    requires ride { ride.old ≡ replicate network.now.stops NEVER }
    requires labels { labels.old ≡ replicate network.now.stops NEVER }
    ensures { AreLeastDurations network.now origin.0 depart rides labels.new }
{
    run_rounds(network, origin, depart, rides, ride, labels);
    labels.fill(NEVER);
    walk(network.feet(), ride, labels);
    count_from(labels, depart);
}

/// Fills `ride` with the second at which each stop is reached by journeys that end in no walk: walks begin there, and
/// so never follow one another.
///
/// `ready` holds the second from which one may board: after a ride once the change time has passed.
fn run_rounds(
    network: &Network,
    origin: StopNo,
    depart: u32,
    rides: u32,
    ride: &mut [u32],
    ready: &mut [u32],
)
    requires origin { origin.0 < network.now.stops }
    requires depart { depart < END_OF_AXIS }
    requires ride { ride.old ≡ replicate network.now.stops NEVER }
    requires ready { ready.old ≡ replicate network.now.stops NEVER }
    ensures known { IsNet network.now }
    ensures stops { length ride.new ≡ network.now.stops }
    ensures same { length ready.new ≡ network.now.stops }
    ensures table { IsTable (IsRidden network.now (record { stop = origin.0; time = depart }) rides) ride.new }
{
    network.known();
    lower(ride, origin.0 as usize, depart);
    walk(network.feet(), ride, ready);
    for _ in 0..rides {
        carry_all(network.trips(), ready, ride);
        transfer(network.feet(), ride, ready);
    }
}

/// Counts the labels from the departure.
fn count_from(labels: &mut [u32], depart: u32)
    requires { (p : ℕ) → p < length labels.old →
        slice_index labels.old p ≢ NEVER → depart ≤ slice_index labels.old p }
    ensures same { length labels.new ≡ length labels.old }
    ensures since { (p : ℕ) → p < length labels.old →
        IsSince depart (slice_index labels.old p) (slice_index labels.new p) }
{
    for label in labels.iter_mut() {
        if *label != NEVER {
            *label -= depart;
        }
    }
}

/// Carries travellers along every trip: whoever is ready at a stop may ride on from there.
///
/// It reads `ready` and lowers `ride`, so no ride of this round begins where another of it ended.
fn carry_all(trips: &[Trip], ready: &[u32], ride: &mut [u32])
    requires stops { All (λ t. All (λ e. e.stop.0 < length ready.now) t.events) trips.now }
    requires same { length ready.now ≡ length ride.old }
    ensures { Lowers (CarriesAny ready.now trips.now) ride.old ride.new }
{
    for trip in trips {
        carry(trip, ready, ride);
    }
}

/// Carries travellers along one trip. They alight before others board, so nobody rides from an event to itself.
fn carry(trip: &Trip, ready: &[u32], ride: &mut [u32])
    requires stops { All (λ e. e.stop.0 < length ready.now) trip.now.events }
    requires same { length ready.now ≡ length ride.old }
    ensures { Lowers (Carries ready.now trip.now) ride.old ride.new }
{
    let mut aboard = false;
    for event in trip.events.as_slice() {
        let stop = event.stop.0 as usize;
        if aboard && event.alight {
            lower(ride, stop, event.arrive);
        }
        if event.board && ready[stop] <= event.depart {
            aboard = true;
        }
    }
}

/// Walks from every stop that a ride reached, or stays there.
///
/// It reads `ride` and lowers `ready`, so no walk begins where another ended.
fn walk(feet: &Feet, ride: &[u32], ready: &mut [u32])
    requires ride { length ride.now ≡ length feet.now.walks }
    requires ready { length ready.old ≡ length feet.now.walks }
    requires labels { (p : ℕ) →
        slice_index ride.now p ≢ NEVER → slice_index ride.now p + MOST_FOOT_SECONDS < 2 ^ 32 }
    ensures { Lowers (WalkedOrStayed feet.now.walks ride.now) ready.old ready.new }
{
    feet.known();
    for stop in 0..feet.stops() {
        let time = ride[stop as usize];
        lower(ready, stop as usize, time);
        if time != NEVER {
            walk_from(feet.leaving(StopNo(stop)), time, ready);
        }
    }
}

/// Changes to another vehicle at every stop that a ride reached, or walks from there: who stays is ready to board once
/// the stop's change time has passed, and who walks at once.
///
/// It reads `ride` and lowers `ready`.
fn transfer(feet: &Feet, ride: &[u32], ready: &mut [u32])
    requires ride { length ride.now ≡ length feet.now.walks }
    requires ready { length ready.old ≡ length feet.now.walks }
    requires labels { (p : ℕ) →
        slice_index ride.now p ≢ NEVER → slice_index ride.now p < END_OF_AXIS }
    ensures { Lowers (ChangedOrWalked feet.now ride.now) ready.old ready.new }
{
    feet.known();
    for from in 0..feet.stops() {
        let arrived = ride[from as usize];
        if arrived != NEVER {
            let change = feet.change(StopNo(from));
            lower(ready, from as usize, arrived + change);
            walk_from(feet.leaving(StopNo(from)), arrived, ready);
        }
    }
}

/// Walks along the footpaths that leave a stop.
fn walk_from(leaving: &[(StopNo, u32)], time: u32, ready: &mut [u32])
    requires targets { All (λ x. x.0.0 < length ready.old) leaving.now }
    requires seconds { All (λ x. time + x.1 < 2 ^ 32) leaving.now }
    ensures { Lowers (Leaves leaving.now time) ready.old ready.new }
{
    for (to, seconds) in leaving {
        lower(ready, to.0 as usize, time + *seconds);
    }
}

/// Lowers the label of a stop to a time, unless it is no later already.
fn lower(labels: &mut [u32], stop: usize, time: u32)
    requires { stop < length labels.old }
    ensures { Lowers (λ p x. (p ≡ stop) × (x ≡ time)) labels.old labels.new }
{
    if time < labels[stop] {
        labels[stop] = time;
    }
}
