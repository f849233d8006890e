//! What is checked once all records of a trip are known, and the events that they give.

ghost use Rattle.std.specs.Prelude.{◌≡◌, ◌≤◌, [], count_by, length, map, slice_get, sum_by, IfOk, IfErr};
ghost use Rattle.timetable.specs.declared.limits.TheConstants.{MOST_EVENTS, MOST_TRIPS};
ghost use Rattle.table_records.specs.Faults.{Tells};
ghost use Rattle.trip_events.specs.WholeTrips as spec;

use crate::fill::filled;
use crate::trip_times::{StopTime, TripTimes, VisitTimes};
use std::alloc::Global;
use table_records::{FeedFault, FileName, What};
use timetable::Events;

/// What `stop_times.txt` says.
#[derive(Drop)]
pub struct StopTimes {
    /// The events of each trip, in the order of `trips.txt`; none where the trip is set aside or has no record.
    pub trips: Vec<Events>,
    /// How many trips are set aside, since a record of theirs names no stop.
    pub aside: u32,
}

/// The events of each trip, or the first fault of a whole trip.
pub fn events_of_trips(alloc: Global, trips: Vec<TripTimes>) -> Result<StopTimes, FeedFault>
    requires trips { length trips.items ≤ MOST_TRIPS }
    requires records { sum_by length trips.items ≤ MOST_EVENTS }
    ensures good { IfOk result (λ t. (spec.whole_trip_faults trips.items ≡ [])
        × (t.trips.items ≡ map spec.events_of trips.items)
        × (t.aside ≡ count_by spec.is_aside trips.items)) }
    ensures fault { IfErr result (λ e. Tells e (spec.whole_trip_faults trips.items)) }
{
    let mut all = Vec::with_capacity(alloc, trips.len())?;
    let mut aside = 0;
    for trip_times in trips {
        let records = trip_times.into_vec();
        let is_aside = is_aside(records.as_slice());
        let events = events_of_trip(alloc, records.as_slice(), is_aside)?;
        all.push(events)?;
        aside += u32::from(is_aside);
    }
    Ok(StopTimes { trips: all, aside })
}

/// Whether one of a trip's records names no stop.
fn is_aside(trip_times: &[StopTime]) -> bool
    ensures { result ≡ spec.is_aside trip_times.now }
{
    trip_times.iter().any(|stop_time| stop_time.stop.is_none())
}

/// The events of one trip.
fn events_of_trip(
    alloc: Global,
    trip_times: &[StopTime],
    is_aside: bool,
) -> Result<Events, FeedFault>
    requires few { length trip_times.now ≤ MOST_EVENTS }
    requires aside { is_aside ≡ spec.is_aside trip_times.now }
    ensures good { IfOk result (λ events. (spec.trip_faults trip_times.now ≡ [])
        × (events ≡ spec.events_of trip_times.now)) }
    ensures fault { IfErr result (λ e. Tells e (spec.trip_faults trip_times.now)) }
{
    if is_aside {
        return Ok(Events::new(Vec::new(alloc)));
    }
    if let Some(at) = first_untimed_end(trip_times) {
        return Err(FeedFault::at(FileName::StopTimes, u64::from(at), What::NoTime));
    }
    if let Some(at) = first_record_back(trip_times) {
        return Err(FeedFault::at(FileName::StopTimes, u64::from(at), What::TimesGoBack));
    }
    Ok(Events::new(filled(alloc, trip_times)?))
}

/// The record of the first event, or else of the last one, that has no time.
fn first_untimed_end(trip_times: &[StopTime]) -> Option<u32>
    ensures { result ≡ slice_get (spec.untimed_ends trip_times.now) 0 }
{
    untimed(trip_times.first().copied()).or(untimed(trip_times.last().copied()))
}

/// The record of an event that has no time.
fn untimed(stop_time: Option<StopTime>) -> Option<u32>
    ensures { result ≡ slice_get (spec.untimed stop_time) 0 }
{
    match stop_time {
        Some(stop_time) if stop_time.times.is_none() => Some(stop_time.at),
        _ => None,
    }
}

/// The record of the first event at which a trip goes back.
fn first_record_back(trip_times: &[StopTime]) -> Option<u32>
    ensures { result ≡ slice_get (spec.records_back 0 trip_times.now) 0 }
{
    let mut departed = 0;
    for stop_time in trip_times {
        if goes_back(departed, stop_time.times) {
            return Some(stop_time.at);
        }
        departed = stop_time.times.map_or(departed, |times| times.depart);
    }
    None
}

/// Whether a trip goes back at an event, given the last departure before it.
fn goes_back(departed: u32, times: Option<VisitTimes>) -> bool
    ensures { result ≡ spec.goes_back departed times }
{
    match times {
        Some(times) => times.arrive < departed || times.depart < times.arrive,
        None => false,
    }
}
