//! [`mirrored`]: the mirrored network; and [`horizon_of`], a horizon for it.
ghost use Rattle.std.specs.Prelude.{◌≡◌, ◌+◌, ◌≤◌, ◌<◌, ◌∷◌, ◌++◌, ℕ, [], All, IfErr, IfOk, OnOk, length, map, reverse};
ghost use Rattle.std.specs.Prelude.{slice_index_or, slice_set, replicate};
ghost use Rattle.timetable.specs.declared.faults.NetFault.TheVariants.{Memory};
ghost use Rattle.timetable.specs.Footpaths.{rows_of};
ghost use Rattle.reversal.specs.Mirror.{IsHorizon, mirrored, mirrored_event, mirrored_feet, mirrored_trip};
ghost use Rattle.reversal.specs.Mirror.{reversed_between};

use std::alloc::{AllocError, Global};
use timetable::{END_OF_AXIS, Event, Events, Feet, NetFault, Network, StopNo, Trip};

/// Returns a horizon of the network: the last second of the axis, which no event is later than.
pub fn horizon_of(network: &Network) -> u32
    ensures horizon { IsHorizon result network.now.trips }
    ensures last { result + 1 ≡ END_OF_AXIS }
{
    network.known();
    END_OF_AXIS - 1
}

/// Builds the mirrored network. Out of memory is the only error.
///
/// No event of the network may be later than `horizon`, which is a second of the axis. Takes time and memory in
/// proportion to the network, which stays as it is.
pub fn mirrored(alloc: Global, network: &Network, horizon: u32) -> Result<Network, NetFault>
    requires horizon { IsHorizon horizon network.now.trips }
    requires axis { horizon < END_OF_AXIS }
    ensures mirrored { IfOk result (λ m. m ≡ mirrored horizon network.now) }
    ensures fault { IfErr result (λ e. e ≡ Memory) }
{
    network.known();
    let feet = mirrored_feet(alloc, network.feet())?;
    let Ok(trips) = mirrored_trips(alloc, horizon, network.trips()) else {
        return Err(NetFault::Memory);
    };
    match Network::new(alloc, network.stops(), trips, &feet) {
        Ok(mirrored) => Ok(mirrored),
        Err((fault, _)) => Err(fault),
    }
}

/// Returns the footpaths the other way, and the same change times.
fn mirrored_feet(alloc: Global, feet: &Feet) -> Result<Feet, NetFault>
    ensures mirrored { IfOk result (λ m. m ≡ mirrored_feet feet.now) }
    ensures fault { IfErr result (λ e. e ≡ Memory) }
{
    feet.known();
    let Ok(lists) = reversed_lists(alloc, feet) else {
        return Err(NetFault::Memory);
    };
    let Ok(changes) = change_times(alloc, feet) else {
        return Err(NetFault::Memory);
    };
    match Feet::new(alloc, feet.stops(), lists, changes) {
        Ok(feet) => Ok(feet),
        Err((fault, _, _)) => Err(fault),
    }
}

/// Returns one list for each stop: the footpaths that lead to it, the other way.
///
/// The stops are visited in ascending order, so the targets of each list ascend.
fn reversed_lists(alloc: Global, feet: &Feet) -> Result<Vec<Vec<(StopNo, u32)>>, AllocError>
    ensures { IfOk result (λ lists. rows_of lists.items ≡ (mirrored_feet feet.now).walks) }
{
    feet.known();
    let stops = feet.stops();
    let mut lists = no_lists(alloc, stops)?;
    for a in 0..stops {
        reverse_row(&mut lists, a, feet.leaving(StopNo(a)))?;
    }
    Ok(lists)
}

/// Returns an empty list for each stop.
fn no_lists(alloc: Global, stops: u32) -> Result<Vec<Vec<(StopNo, u32)>>, AllocError>
    ensures { IfOk result (λ lists. rows_of lists.items ≡ replicate stops []) }
{
    let mut lists = Vec::with_capacity(alloc, stops as usize)?;
    for _ in 0..stops {
        lists.push(Vec::new(alloc))?;
    }
    Ok(lists)
}

/// Adds each footpath that leads from stop `a` to the list of its target, the other way.
fn reverse_row(
    lists: &mut Vec<Vec<(StopNo, u32)>>,
    a: u32,
    row: &[(StopNo, u32)],
) -> Result<(), AllocError>
    requires { All (λ x. x.0.0 < length lists.old.items) row.now }
    ensures rows { OnOk result ((b : ℕ) → b < length lists.old.items →
        slice_index_or (rows_of lists.new.items) b []
        ≡ slice_index_or (rows_of lists.old.items) b [] ++ reversed_between a b row.now) }
    ensures count { OnOk result (length lists.new.items ≡ length lists.old.items) }
{
    for (to, seconds) in row {
        add(lists, *to, (StopNo(a), *seconds))?;
    }
    Ok(())
}

/// Adds a footpath to the end of a stop's list.
fn add(
    lists: &mut Vec<Vec<(StopNo, u32)>>,
    stop: StopNo,
    footpath: (StopNo, u32),
) -> Result<(), AllocError>
    requires { stop.0 < length lists.old.items }
    ensures rows { OnOk result (rows_of lists.new.items ≡ slice_set (rows_of lists.old.items) stop.0
        (slice_index_or (rows_of lists.old.items) stop.0 [] ++ footpath ∷ [])) }
    ensures count { OnOk result (length lists.new.items ≡ length lists.old.items) }
{
    let list = &mut lists[stop.0 as usize];
    list.push(footpath)?;
    Ok(())
}

/// Returns the change time of each stop.
fn change_times(alloc: Global, feet: &Feet) -> Result<Vec<u32>, AllocError>
    ensures { IfOk result (λ changes. changes.items ≡ feet.now.changes) }
{
    feet.known();
    let mut changes = Vec::with_capacity(alloc, feet.stops() as usize)?;
    for a in 0..feet.stops() {
        changes.push(feet.change(StopNo(a)))?;
    }
    Ok(changes)
}

/// Returns the trips, each from its last event to its first.
fn mirrored_trips(alloc: Global, horizon: u32, trips: &[Trip]) -> Result<Vec<Trip>, AllocError>
    requires { IsHorizon horizon trips.now }
    ensures { IfOk result (λ m. m.items ≡ map (mirrored_trip horizon) trips.now) }
{
    let mut mirrored = Vec::with_capacity(alloc, trips.len())?;
    for trip in trips {
        let events = mirrored_events(alloc, horizon, trip.events.as_slice())?;
        mirrored.push(Trip {
            route: trip.route,
            name: trip.name,
            events: Events::new(events),
        })?;
    }
    Ok(mirrored)
}

/// Returns the events of a trip, from the last to the first.
fn mirrored_events(alloc: Global, horizon: u32, events: &[Event]) -> Result<Vec<Event>, AllocError>
    requires { All (λ e. (e.arrive ≤ horizon) × (e.depart ≤ horizon)) events.now }
    ensures { IfOk result (λ m. m.items ≡ reverse (map (mirrored_event horizon) events.now)) }
{
    let mut mirrored = Vec::with_capacity(alloc, events.len())?;
    for event in events {
        mirrored.push(mirrored_event(horizon, event))?;
    }
    mirrored.reverse();
    Ok(mirrored)
}

/// Returns the event with arrival and departure exchanged, and boarding and alighting.
fn mirrored_event(horizon: u32, event: &Event) -> Event
    requires { (event.now.arrive ≤ horizon) × (event.now.depart ≤ horizon) }
    ensures { result ≡ mirrored_event horizon event.now }
{
    Event {
        stop: event.stop,
        arrive: horizon - event.depart,
        depart: horizon - event.arrive,
        board: event.alight,
        alight: event.board,
    }
}
