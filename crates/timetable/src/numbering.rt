//! Stops by numbers of their own, for a search: in the order in which trips pass them first.
//!
//! A search reads the labels of a line's stops one after another. By these numbers they lie side by side, in whatever
//! order a feed lists its stops.
ghost use Rattle.std.specs.Prelude.{◌≡◌, ◌≢◌, ℕ, ◌<◌, All, IfOk, OnOk, length, map, slice_index};
ghost use Rattle.timetable.specs.Numbering.{AreBegun, AreNumbers, number_in};
ghost use Rattle.timetable.specs.Renumbering.{renumbered_event, renumbered_trip};

use crate::trips::{Event, StopNo, Trip};
use std::alloc::{AllocError, Global};

/// A number for each stop, and the stop of each number.
#[derive(Drop)]
pub(crate) struct Numbering {
    /// The number of each stop.
    pub numbers: Vec<u32>,
    /// The stop of each number.
    pub order: Vec<u32>,
}

/// Numbers the stops in the order in which trips pass them first; stops that no trip passes come last.
pub(crate) fn number_stops(
    alloc: Global,
    stops: u32,
    trips: &[Trip],
) -> Result<Numbering, AllocError>
    requires { All (λ t. All (λ e. e.stop.0 < stops) t.events) trips.now }
    ensures { IfOk result (λ n. AreNumbers stops n.numbers.items n.order.items) }
{
    let mut numbering = no_numbers(alloc, stops)?;
    for trip in trips {
        number_events(&mut numbering, stops, trip.events.as_slice())?;
    }
    number_rest(&mut numbering, stops)?;
    Ok(numbering)
}

/// No stop has a number yet.
fn no_numbers(alloc: Global, stops: u32) -> Result<Numbering, AllocError>
    ensures { IfOk result (λ n. AreBegun stops n.numbers.items n.order.items) }
{
    Ok(Numbering {
        numbers: vec![in alloc; stops; stops as usize]?,
        order: Vec::with_capacity(alloc, stops as usize)?,
    })
}

/// Numbers the stops of a trip.
fn number_events(numbering: &mut Numbering, stops: u32, events: &[Event]) -> Result<(), AllocError>
    requires begun { AreBegun stops numbering.old.numbers.items numbering.old.order.items }
    requires stops { All (λ e. e.stop.0 < stops) events.now }
    ensures { OnOk result (AreBegun stops numbering.new.numbers.items numbering.new.order.items) }
{
    for event in events {
        number_stop(numbering, stops, event.stop.0)?;
    }
    Ok(())
}

/// Numbers the stops that have no number.
fn number_rest(numbering: &mut Numbering, stops: u32) -> Result<(), AllocError>
    requires { AreBegun stops numbering.old.numbers.items numbering.old.order.items }
    ensures { OnOk result (AreNumbers stops numbering.new.numbers.items numbering.new.order.items) }
{
    for stop in 0..stops {
        number_stop(numbering, stops, stop)?;
    }
    Ok(())
}

/// Gives a stop the next number, unless it has one.
fn number_stop(numbering: &mut Numbering, stops: u32, stop: u32) -> Result<(), AllocError>
    requires begun { AreBegun stops numbering.old.numbers.items numbering.old.order.items }
    requires stop { stop < stops }
    ensures begun { OnOk result (AreBegun stops numbering.new.numbers.items numbering.new.order.items) }
    ensures here { OnOk result (slice_index numbering.new.numbers.items stop ≢ stops) }
    ensures kept { OnOk result ((p : ℕ) → slice_index numbering.old.numbers.items p ≢ stops →
        slice_index numbering.new.numbers.items p ≢ stops) }
{
    if numbering.numbers[stop as usize] == stops {
        numbering.numbers[stop as usize] = numbering.order.len() as u32;
        numbering.order.push(stop)?;
    }
    Ok(())
}

/// Puts each event at the number of its stop.
pub(crate) fn renumber_events(events: &mut [Event], numbers: &[u32])
    requires { All (λ e. e.stop.0 < length numbers.now) events.old }
    ensures { events.new ≡ map (renumbered_event (number_in numbers.now)) events.old }
{
    for event in events.iter_mut() {
        event.stop = StopNo(numbers[event.stop.0 as usize]);
    }
}

/// Puts each event of each trip at the number of its stop.
pub(crate) fn renumber_trips(trips: &mut [Trip], numbers: &[u32])
    requires { All (λ t. All (λ e. e.stop.0 < length numbers.now) t.events) trips.old }
    ensures { trips.new ≡ map (renumbered_trip (number_in numbers.now)) trips.old }
{
    for trip in trips.iter_mut() {
        trip.events.renumber(numbers);
    }
}
