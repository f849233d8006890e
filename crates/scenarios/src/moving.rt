//! The trip of a run: its events at the times of the axis.
ghost use Rattle.std.specs.Prelude.{◌≡◌, ◌⊎◌, IfErr, IfOk, false, map, true};
ghost use Rattle.std.specs.List.{list_all};
ghost use Rattle.timetable.specs.declared.faults.NetFault.TheVariants as net_fault;
ghost use Rattle.service_days.specs.Instances.{instance_events};
ghost use Rattle.scenarios.specs.Moving.{IsSum, arriving, moved_if_on_axis, time_if_on_axis};
ghost use Rattle.scenarios.specs.Networks as spec;

use gtfs_tables::FeedTrip;
use std::alloc::Global;
use timetable::{END_OF_AXIS, Event, Events, NetFault, Trip};

/// A trip of the feed with a number, moved by seconds; with frequency rows it first arrives when it first departs.
///
/// `TooLarge` where one of its times is then no time of the axis.
pub(crate) fn moved_trip(
    alloc: Global,
    trip: &FeedTrip,
    number: u32,
    seconds: i64,
) -> Result<Trip, NetFault>
    requires { IsSum seconds }
    ensures good { IfOk result (λ made. (list_all (spec.is_event_on_axis seconds) (instance_events trip.now) ≡ true)
        × (made ≡ spec.moved_trip trip.now number seconds)) }
    ensures fault { IfErr result (λ e. (e ≡ net_fault.Memory)
        ⊎ ((e ≡ net_fault.TooLarge) × (list_all (spec.is_event_on_axis seconds) (instance_events trip.now) ≡ false))) }
{
    let departs = !trip.departures.as_slice().is_empty();
    let events = moved_events(alloc, trip.events.as_slice(), departs, seconds)?;
    Ok(Trip {
        route: trip.route,
        name: number,
        events: Events::new(events),
    })
}

/// Events moved by seconds; of a departure of a frequency row the first arrives when it departs.
fn moved_events(
    alloc: Global,
    events: &[Event],
    departs: bool,
    seconds: i64,
) -> Result<Vec<Event>, NetFault>
    requires { IsSum seconds }
    ensures good { IfOk result (λ made. (list_all (spec.is_event_on_axis seconds) (arriving departs events.now) ≡ true)
        × (made.items ≡ map (spec.moved_event seconds) (arriving departs events.now))) }
    ensures fault { IfErr result (λ e. (e ≡ net_fault.Memory)
        ⊎ ((e ≡ net_fault.TooLarge) × (list_all (spec.is_event_on_axis seconds) (arriving departs events.now)
        ≡ false))) }
{
    let mut made = match Vec::with_capacity(alloc, events.len()) {
        Ok(made) => made,
        Err(_) => return Err(NetFault::Memory),
    };
    for (position, event) in events.iter().enumerate() {
        let Some(moved) = moved_event(event, departs && position == 0, seconds) else {
            return Err(NetFault::TooLarge);
        };
        if made.push(moved).is_err() {
            return Err(NetFault::Memory);
        }
    }
    Ok(made)
}

/// An event moved by seconds, where its times are then on the axis; `departs` says that it arrives when it departs.
fn moved_event(event: &Event, departs: bool, seconds: i64) -> Option<Event>
    requires { IsSum seconds }
    ensures { result ≡ moved_if_on_axis departs seconds event.now }
{
    let arrive = if departs { event.depart } else { event.arrive };
    Some(Event {
        stop: event.stop,
        arrive: moved_time(arrive, seconds)?,
        depart: moved_time(event.depart, seconds)?,
        board: event.board,
        alight: event.alight,
    })
}

/// A time moved by seconds, where it is then on the axis.
fn moved_time(time: u32, seconds: i64) -> Option<u32>
    requires { IsSum seconds }
    ensures { result ≡ time_if_on_axis seconds time }
{
    let moved = time as i64 + seconds;
    if moved < 0 || moved >= END_OF_AXIS as i64 {
        return None;
    }
    Some(moved as u32)
}
