//! The events of lines, laid out so that a scan of a line reads memory in order.
//! (The RAPTOR paper lays out its routes so: Delling, Pajor, Werneck, ALENEX 2012.)
ghost use Rattle.std.specs.Prelude.{◌≡◌, ◌<◌, ◌++◌, ℕ, IfOk, OnOk, All, map, length};
ghost use Rattle.timetable.specs.FlatLists.{lists_of};
ghost use Rattle.timetable.specs.Lines.{IsLine};
ghost use Rattle.timetable.specs.LineViews.{rows_of_line, call_of, times_at, AreFor, AreTimes, IsCalls, IsTimes};

use crate::flat_lists::FlatLists;
use crate::trips::{Event, StopNo, Trip};
use std::alloc::{AllocError, Global};

/// A position of a line: its stop, and whether travellers may board and alight there.
#[derive(Clone, Copy, Debug, PartialEq, Eq)]
pub struct Call {
    pub stop: StopNo,
    pub board: bool,
    pub alight: bool,
}

/// When a trip arrives at a position and departs there, in seconds. Of a line's times the two stand side by side, since
/// who scans a line at a position looks at both.
#[derive(Clone, Copy, Debug, PartialEq, Eq)]
pub struct CallTimes {
    pub arrive: u32,
    pub depart: u32,
}

/// The calls and the times of each line.
pub(crate) fn views_of(
    alloc: Global,
    trips: &[Trip],
    lines: &FlatLists<u32>,
) -> Result<(Vec<Vec<Call>>, Vec<Vec<CallTimes>>), AllocError>
    requires lines { All (IsLine trips.now) lines.now }
    ensures calls { IfOk result (λ views. AreFor (IsCalls trips.now) (length lines.now) lines.now
        (lists_of views.0.items)) }
    ensures times { IfOk result (λ views. AreFor (IsTimes trips.now) (length lines.now) lines.now
        (lists_of views.1.items)) }
{
    let mut calls = Vec::with_capacity(alloc, lines.count())?;
    let mut times = Vec::with_capacity(alloc, lines.count())?;
    for number in 0..lines.count() {
        let line = lines.list(number);
        let line_calls = calls_of(alloc, trips[line[0] as usize].events.as_slice())?;
        let line_times = times_of(alloc, trips, line)?;
        calls.push(line_calls)?;
        times.push(line_times)?;
    }
    Ok((calls, times))
}

/// The positions of a trip.
fn calls_of(alloc: Global, events: &[Event]) -> Result<Vec<Call>, AllocError>
    ensures { IfOk result (λ calls. calls.items ≡ map call_of events.now) }
{
    let mut calls = Vec::with_capacity(alloc, events.len())?;
    for event in events {
        calls.push(Call {
            stop: event.stop,
            board: event.board,
            alight: event.alight,
        })?;
    }
    Ok(calls)
}

/// Trip by trip, in the order of the line, its times.
fn times_of(alloc: Global, trips: &[Trip], line: &[u32]) -> Result<Vec<CallTimes>, AllocError>
    requires in_range { All (λ i. i < length trips.now) line.now }
    ensures { IfOk result (λ made. (positions : ℕ) → All (λ row. length row ≡ positions)
        (rows_of_line trips.now line.now) →
        AreTimes (length line.now) positions (rows_of_line trips.now line.now) made.items) }
{
    let mut times = Vec::new(alloc);
    for trip in line {
        add_times(&mut times, trips[*trip as usize].events.as_slice())?;
    }
    Ok(times)
}

/// Adds the times of a trip.
fn add_times(times: &mut Vec<CallTimes>, events: &[Event]) -> Result<(), AllocError>
    ensures { OnOk result (times.new.items ≡ times.old.items ++ map times_at events.now) }
{
    for event in events {
        times.push(CallTimes {
            arrive: event.arrive,
            depart: event.depart,
        })?;
    }
    Ok(())
}
