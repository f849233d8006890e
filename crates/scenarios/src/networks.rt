//! The network of a scenario.
ghost use Rattle.std.specs.Prelude.{◌≡◌, ◌+◌, ◌≤ℤ◌, ◌⊎◌, ◌++◌, ◌&&◌, [], All, IfErr, IfOk, OnOk, false, length, neg_ℤ};
ghost use Rattle.std.specs.Prelude.{pos, slice_get, true};
ghost use Rattle.table_records.specs.Faults.{IsFirst};
ghost use Rattle.timetable.specs.declared.faults.NetFault.TheVariants as net_fault;
ghost use Rattle.service_days.specs.declared.day.TheConstants.{LAST_START};
ghost use Rattle.service_days.specs.Instances.{IsRun};
ghost use Rattle.scenarios.specs.Moving.{IsSum};
ghost use Rattle.scenarios.specs.Networks.{are_few, fits, kept_trip, net_faults, net_of, stays, sum_of, trips_of};

use crate::moving::moved_trip;
use crate::scenario::Scenario;
use crate::trip_list::TripList;
use gtfs_tables::Feed;
use service_days::Run;
use std::alloc::Global;
use timetable::{Feet, NetFault, Network, Trip};

/// The network of the runs that a scenario keeps, in their order, with the footpaths: each time of a run's trip is
/// moved by what the run and the scenario add to it. A departure of a frequency row first arrives when it first
/// departs.
///
/// The runs and the footpaths are of the feed; the runs may be those of any number of days. `TooLarge` where a time is
/// then past the axis, 16,777,216 seconds, or where the network has more than 1,000,000 trips or 8,000,000 events,
/// before they are listed; `Memory` where memory ran out.
pub fn network_of(
    alloc: Global,
    feed: &Feed,
    scenario: &Scenario,
    runs: &[Run],
    feet: &Feet,
) -> Result<Network, NetFault>
    requires runs { All (IsRun feed.now) runs.now }
    requires feet { length feet.now.walks ≡ length feed.now.stops }
    ensures good { IfOk result (λ network. (net_faults feed.now scenario.now runs.now ≡ [])
        × (network ≡ net_of feed.now scenario.now runs.now feet.now)) }
    ensures stops { IfOk result (λ network. network.stops ≡ length feed.now.stops) }
    ensures fault { IfErr result (λ e. (e ≡ net_fault.Memory) ⊎ IsFirst e (net_faults feed.now scenario.now runs.now)) }
{
    feed.known();
    let trips = kept_trips(alloc, feed, scenario, runs)?;
    match Network::new(alloc, feed.stop_count(), trips, feet) {
        Ok(network) => Ok(network),
        Err((fault, _)) => Err(fault),
    }
}

/// The trips of the runs that the scenario keeps, in their order.
fn kept_trips(
    alloc: Global,
    feed: &Feed,
    scenario: &Scenario,
    runs: &[Run],
) -> Result<Vec<Trip>, NetFault>
    requires { All (IsRun feed.now) runs.now }
    ensures good { IfOk result (λ trips. (fits feed.now scenario.now runs.now ≡ true)
        × (trips.items ≡ trips_of feed.now scenario.now runs.now)) }
    ensures fault { IfErr result (λ e. (e ≡ net_fault.Memory)
        ⊎ ((e ≡ net_fault.TooLarge) × (fits feed.now scenario.now runs.now ≡ false))) }
{
    let mut trips = TripList::new(alloc);
    for run in runs {
        add_run(alloc, &mut trips, feed, scenario, *run)?;
    }
    Ok(trips.into_vec())
}

/// Adds the trip of a run, where the scenario keeps it.
fn add_run(
    alloc: Global,
    trips: &mut TripList,
    feed: &Feed,
    scenario: &Scenario,
    run: Run,
) -> Result<(), NetFault>
    requires { IsRun feed.now run }
    ensures good { OnOk result ((stays scenario.now run (slice_get feed.now.trips run.trip) ≡ true)
        × (trips.new ≡ trips.old ++ kept_trip scenario.now run (slice_get feed.now.trips run.trip))) }
    ensures fault { IfErr result (λ e. (e ≡ net_fault.Memory)
        ⊎ ((e ≡ net_fault.TooLarge) × ((are_few (trips.old ++ kept_trip scenario.now run
        (slice_get feed.now.trips run.trip))
        && stays scenario.now run (slice_get feed.now.trips run.trip)) ≡ false))) }
{
    if !scenario.keeps(feed, run.trip) {
        return Ok(());
    }
    let trip = feed.trip(run.trip);
    if !trips.has_room(trip.events.as_slice().len()) {
        return Err(NetFault::TooLarge);
    }
    let seconds = seconds_of(scenario, run);
    trips.push(moved_trip(alloc, trip, run.trip, seconds)?)
}

/// What is added to the times of a run's trip.
fn seconds_of(scenario: &Scenario, run: Run) -> i64
    requires low { neg_ℤ (pos 604799) ≤ℤ run.shift }
    requires high { run.shift ≤ℤ pos (LAST_START + 604799) }
    ensures value { result ≡ sum_of scenario.now run }
    ensures sum { IsSum result }
{
    run.shift + scenario.shift(run.trip)
}
