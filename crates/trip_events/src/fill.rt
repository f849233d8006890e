//! The times of events that have none, by their nearest timed events.

ghost use Rattle.std.specs.Prelude.{◌≡◌, ◌≤◌, ◌<◌, ◌-◌, Some, None, length, option_map, unwrap_or, IfOk, IfSome};
ghost use Rattle.timetable.specs.declared.limits.TheConstants.{MOST_EVENTS};
ghost use Rattle.trip_events.specs.declared.fill.Neighbour.{Neighbour};
ghost use Rattle.trip_events.specs.Fill as spec;

use crate::trip_times::{StopTime, VisitTimes};
use std::alloc::{AllocError, Global};
use timetable::{Event, StopNo};

/// The nearest timed event on one side of an event.
#[derive(Clone, Copy)]
pub struct Neighbour {
    pub times: VisitTimes,
    /// How many untimed events are between the two.
    pub untimed: u32,
}

/// The events of a trip's records, which all name their stops.
///
/// An event without times gets those between its nearest timed events, in equal steps, rounded down.
pub fn filled(alloc: Global, trip_times: &[StopTime]) -> Result<Vec<Event>, AllocError>
    requires { length trip_times.now ≤ MOST_EVENTS }
    ensures { IfOk result (λ v. v.items ≡ spec.filled trip_times.now) }
{
    match timed(alloc, trip_times)? {
        Some(events) => Ok(events),
        None => with_between(alloc, trip_times),
    }
}

/// The events of records that all have their times, as those of most trips; none where one has no times.
fn timed(alloc: Global, trip_times: &[StopTime]) -> Result<Option<Vec<Event>>, AllocError>
    ensures { IfOk result (λ events. IfSome events (λ v. v.items ≡ spec.filled trip_times.now)) }
{
    let mut events = Vec::with_capacity(alloc, trip_times.len())?;
    for stop_time in trip_times {
        let Some(times) = stop_time.times else {
            return Ok(None);
        };
        events.push(event_with(*stop_time, times))?;
    }
    Ok(Some(events))
}

/// The events of records of which some may have no times.
fn with_between(alloc: Global, trip_times: &[StopTime]) -> Result<Vec<Event>, AllocError>
    requires { length trip_times.now ≤ MOST_EVENTS }
    ensures { IfOk result (λ v. v.items ≡ spec.filled trip_times.now) }
{
    let mut events = Vec::with_capacity(alloc, trip_times.len())?;
    let mut before = None;
    let mut next = nearest(trip_times);
    for i in 0..trip_times.len() {
        let stop_time = trip_times[i];
        let after = match stop_time.times {
            Some(_) => nearest(&trip_times[i + 1..]),
            None => approached(next),
        };
        events.push(event_at(stop_time, before, after))?;
        before = nearer(stop_time.times, before);
        next = after;
    }
    Ok(events)
}

/// The nearest timed event among some. All calls of a trip together look at each record at most twice.
fn nearest(trip_times: &[StopTime]) -> Option<Neighbour>
    requires { length trip_times.now ≤ MOST_EVENTS }
    ensures { result ≡ spec.nearest trip_times.now }
{
    let mut untimed = 0;
    for stop_time in trip_times {
        if let Some(times) = stop_time.times {
            return Some(Neighbour { times, untimed });
        }
        untimed += 1;
    }
    None
}

/// The nearest timed event after an untimed one, as it is seen from there.
fn approached(next: Option<Neighbour>) -> Option<Neighbour>
    ensures { result ≡ option_map (λ n. record { times = n.times; untimed = n.untimed - 1 }) next }
{
    let Neighbour { times, untimed } = next?;
    Some(Neighbour {
        times,
        untimed: untimed.saturating_sub(1),
    })
}

/// The nearest timed event before the next event.
fn nearer(times: Option<VisitTimes>, beyond: Option<Neighbour>) -> Option<Neighbour>
    requires { IfSome beyond (λ n. n.untimed ≤ MOST_EVENTS) }
    ensures { result ≡ spec.nearer times beyond }
{
    match (times, beyond) {
        (Some(times), _) => Some(Neighbour { times, untimed: 0 }),
        (None, Some(Neighbour { times, untimed })) => Some(Neighbour {
            times,
            untimed: untimed + 1,
        }),
        (None, None) => None,
    }
}

/// The event of a record between its nearest timed events.
fn event_at(stop_time: StopTime, before: Option<Neighbour>, after: Option<Neighbour>) -> Event
    requires before { IfSome before (λ n. n.untimed ≤ MOST_EVENTS) }
    requires after { IfSome after (λ n. n.untimed ≤ MOST_EVENTS) }
    ensures { result ≡ spec.event_at stop_time (unwrap_or stop_time.times (spec.between before after)) }
{
    let times = match stop_time.times {
        Some(times) => times,
        None => between(before, after),
    };
    event_with(stop_time, times)
}

/// The event of a record that has these times.
fn event_with(stop_time: StopTime, times: VisitTimes) -> Event
    ensures { result ≡ spec.event_at stop_time times }
{
    Event {
        stop: StopNo(stop_time.stop.unwrap_or(0)),
        arrive: times.arrive,
        depart: times.depart,
        board: stop_time.board,
        alight: stop_time.alight,
    }
}

/// The times of an event that has none.
fn between(before: Option<Neighbour>, after: Option<Neighbour>) -> VisitTimes
    requires before { IfSome before (λ n. n.untimed ≤ MOST_EVENTS) }
    requires after { IfSome after (λ n. n.untimed ≤ MOST_EVENTS) }
    ensures { result ≡ spec.between before after }
{
    match (before, after) {
        (Some(before), Some(after)) => {
            let gap = before.untimed + 1;
            let gaps = gap + after.untimed + 1;
            let time = time_at_gap(before.times.depart, after.times.arrive, gap, gaps);
            VisitTimes {
                arrive: time,
                depart: time,
            }
        }
        _ => VisitTimes {
            arrive: 0,
            depart: 0,
        },
    }
}

/// The time at the end of gap number `gap`, of `gaps` equal ones between a departure and an arrival.
fn time_at_gap(depart: u32, arrive: u32, gap: u32, gaps: u32) -> u32
    requires within { gap ≤ gaps }
    requires some { 0 < gaps }
    ensures { result ≡ spec.time_at_gap depart arrive gap gaps }
{
    let whole = u64::from(arrive.saturating_sub(depart));
    let part = whole * u64::from(gap) / u64::from(gaps);
    depart + part as u32
}
