//! [`deadlines_of`]: the deadlines of a destination; and [`walks_to`]: the walks alone that lead to it.
ghost use Rattle.std.specs.Prelude.{◌≡◌, ◌≤◌, ◌<◌, ◌⊎◌, ◌↔◌, ℕ, All, Contains, IfOk, OnOk, length, min};
ghost use Rattle.std.specs.List.Sorted.{IsStrictlyIncreasing};
ghost use Rattle.timetable.specs.Least.{IsLeastOrNever};
ghost use Rattle.reversal.specs.Deadlines.{ArrivesAt, AreWalksTo, IsDeadline, IsTripDeadline, IsWalkAlone};

use std::alloc::{AllocError, Global};
use timetable::{END_OF_AXIS, Event, Feet, NEVER, Network, StopNo, Trip};

/// Returns the deadlines of `destination` from `first` on, in ascending order and without repetitions. Out of memory is
/// the only error.
///
/// `first` is the earliest time at which a traveller starts. One pass over the stop times, and a sort of the deadlines.
pub fn deadlines_of(
    alloc: Global,
    network: &Network,
    destination: StopNo,
    first: u32,
) -> Result<Vec<u32>, AllocError>
    ensures exact { IfOk result (λ times. (time : ℕ) →
        Contains times.items time ↔ (IsDeadline network.now destination.0 time × (first ≤ time))) }
    ensures ascending { IfOk result (λ times. IsStrictlyIncreasing times.items) }
{
    network.known();
    let walks = walks_to(alloc, network.feet(), destination)?;
    let mut times = Vec::new(alloc);
    for trip in network.trips() {
        add_deadlines(&mut times, network.feet(), &walks, trip, destination, first)?;
    }
    times.sort_unstable();
    times.dedup();
    Ok(times)
}

/// Returns for each stop the seconds of a walk alone to `destination`: 0 for the destination itself, and `NEVER` if no
/// footpath leads there. Out of memory is the only error.
pub fn walks_to(alloc: Global, feet: &Feet, destination: StopNo) -> Result<Vec<u32>, AllocError>
    ensures { IfOk result (λ walks. AreWalksTo feet.now.walks destination.0 walks.items) }
{
    let mut walks = Vec::with_capacity(alloc, feet.stops() as usize)?;
    for a in 0..feet.stops() {
        walks.push(walk_alone(feet, StopNo(a), destination))?;
    }
    Ok(walks)
}

/// Returns the seconds of a walk alone from one stop to another, or `NEVER`.
fn walk_alone(feet: &Feet, a: StopNo, b: StopNo) -> u32
    requires { a.0 < length feet.now.walks }
    ensures { IsLeastOrNever (IsWalkAlone feet.now.walks a.0 b.0) result }
{
    feet.known();
    if a.0 == b.0 {
        return 0;
    }
    match feet.seconds(a, b) {
        Some(seconds) => seconds,
        None => NEVER,
    }
}

/// Adds the deadlines of one trip, from `first` on.
///
/// The events are visited from the last to the first, with the least arrival of the later ones. The first event is left
/// out, since no ride ends there.
fn add_deadlines(
    times: &mut Vec<u32>,
    feet: &Feet,
    walks: &[u32],
    trip: &Trip,
    p: StopNo,
    first: u32,
) -> Result<(), AllocError>
    requires walks { AreWalksTo feet.now.walks p.0 walks.now }
    requires events { All (λ e. (e.stop.0 < length feet.now.walks) × (e.arrive < END_OF_AXIS)) trip.now.events }
    ensures { OnOk result ((time : ℕ) → Contains times.new.items time ↔
        (Contains times.old.items time ⊎ (IsTripDeadline feet.now.walks trip.now p.0 time × (first ≤ time)))) }
{
    feet.known();
    let events = trip.events.as_slice();
    let mut least = NEVER;
    for i in (1..events.len()).rev() {
        let time = arrival_at(feet, walks, &events[i], p);
        least = add_earlier(times, time, least, first)?;
    }
    Ok(())
}

/// Adds a time if it is less than the least arrival and not before `first`. Returns the new least arrival.
fn add_earlier(times: &mut Vec<u32>, time: u32, least: u32, first: u32) -> Result<u32, AllocError>
    ensures least { IfOk result (λ less. less ≡ min time least) }
    ensures times { OnOk result ((t : ℕ) → Contains times.new.items t ↔
        (Contains times.old.items t ⊎ ((t ≡ time) × (time < least) × (first ≤ time)))) }
{
    if time >= least {
        return Ok(least);
    }
    if time >= first {
        times.push(time)?;
    }
    Ok(time)
}

/// Returns the time at which a traveller who alights at the event is at stop `p`, or `NEVER`.
fn arrival_at(feet: &Feet, walks: &[u32], event: &Event, p: StopNo) -> u32
    requires walks { AreWalksTo feet.now.walks p.0 walks.now }
    requires stop { event.now.stop.0 < length feet.now.walks }
    requires axis { event.now.arrive < END_OF_AXIS }
    ensures { IsLeastOrNever (ArrivesAt feet.now.walks event.now p.0) result }
{
    feet.known();
    if !event.alight {
        return NEVER;
    }
    let seconds = walks[event.stop.0 as usize];
    if seconds == NEVER {
        return NEVER;
    }
    event.arrive + seconds
}
