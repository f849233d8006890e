//! The calls that make footpaths and networks: `Feet::new` and `Network::new` of lists that they are given and hand
//! back, `close` and `network_of` of what was read.
ghost use Rattle.std.specs.Prelude.{◌≡◌, All, length};
ghost use Rattle.service_days.specs.Instances.{IsRun};

use crate::small_networks::{FIRST, Ride, SECOND, no_walks, trips_of};
use crate::small_tables::{CUT, LATE, LIMIT, MONDAY, closed_walks, over_small_feed, small_walks};
use footpaths::{Direct, FootFault, close, limit_fits};
use gtfs_tables::{Feed, MOST_BYTES, read_date};
use scenarios::{Scenario, base, network_of, read_scenario};
use service_days::{Run, active};
use std::alloc::{AllocError, Global};
use study_trials::{Outcome, told};
use timetable::{Feet, NetFault, Network, StopNo, Trip};

/// For each stop the stops that one walks to, and how long that takes.
type Lists = Vec<Vec<(StopNo, u32)>>;

/// What `Feet::new` is given and gives: two stops, a walk of a minute from the first to a stop, and whether there are
/// such footpaths.
#[derive(Clone, Copy)]
pub(crate) struct FeetCase {
    target: u32,
    gives: Result<(), NetFault>,
}

/// A walk to the second stop.
pub(crate) const WALK: FeetCase = FeetCase {
    target: 1,
    gives: Ok(()),
};

/// A walk to a third one.
pub(crate) const FAR_WALK: FeetCase = FeetCase {
    target: 2,
    gives: Err(NetFault::StopRange),
};

/// The trial of `Feet::new`.
pub(crate) fn try_feet(alloc: Global, case: FeetCase) -> Outcome {
    match lists_to(alloc, case.target) {
        Ok((lists, changes)) => try_lists(alloc, case, lists, changes),
        Err(_) => Outcome::Inputs,
    }
}

fn lists_to(alloc: Global, target: u32) -> Result<(Lists, Vec<u32>), AllocError> {
    let mut lists = Vec::with_capacity(alloc, 2)?;
    lists.push(Vec::from_slice(alloc, &[(StopNo(target), 60)])?)?;
    lists.push(Vec::new(alloc))?;
    Ok((lists, vec![in alloc; 0; 2]?))
}

fn try_lists(alloc: Global, case: FeetCase, lists: Lists, changes: Vec<u32>) -> Outcome {
    match makes_feet(alloc, case, lists, changes) {
        Ok(is_right) => Outcome::at_once(is_right),
        Err((lists, changes)) => match makes_feet(alloc, case, lists, changes) {
            Ok(is_right) => Outcome::again(Ok(is_right)),
            Err(_) => Outcome::again(Err(AllocError)),
        },
    }
}

/// Whether it gives what it should; the lists where it tells out of memory.
fn makes_feet(
    alloc: Global,
    case: FeetCase,
    lists: Lists,
    changes: Vec<u32>,
) -> Result<bool, (Lists, Vec<u32>)> {
    match Feet::new(alloc, 2, lists, changes) {
        Ok(feet) => Ok(case.gives.is_ok() && is_walk(&feet)),
        Err((NetFault::Memory, lists, changes)) => Err((lists, changes)),
        Err((fault, lists, _)) => Ok(case.gives == Err(fault) && are_back(&lists, case.target)),
    }
}

/// Whether one walks a minute from the first of two stops to the second, and not back.
fn is_walk(feet: &Feet) -> bool {
    feet.stops() == 2
        && feet.seconds(StopNo(0), StopNo(1)) == Some(60)
        && feet.seconds(StopNo(1), StopNo(0)).is_none()
}

/// Whether the lists are those that were given.
fn are_back(lists: &[Vec<(StopNo, u32)>], target: u32) -> bool {
    lists.len() == 2
        && lists[0].as_slice() == [(StopNo(target), 60)].as_slice()
        && lists[1].is_empty()
}

/// What `Network::new` is given and gives: so many stops, rides, and whether it makes a network of them.
#[derive(Clone, Copy)]
pub(crate) struct NetCase {
    stops: u32,
    rides: &'static [Ride],
    gives: Result<(), NetFault>,
}

/// The two trips of the small feed.
pub(crate) const TWO_TRIPS: NetCase = NetCase {
    stops: 3,
    rides: &[FIRST, SECOND],
    gives: Ok(()),
};

/// A trip to a third stop of two.
pub(crate) const TOO_FAR: NetCase = NetCase {
    stops: 2,
    rides: &[(0, 100, 2, 200)],
    gives: Err(NetFault::StopRange),
};

/// A trip that arrives before it has left.
pub(crate) const BACK_IN_TIME: NetCase = NetCase {
    stops: 2,
    rides: &[(0, 110, 1, 100)],
    gives: Err(NetFault::TimesGoBack),
};

/// The trial of `Network::new`.
pub(crate) fn try_network(alloc: Global, case: NetCase) -> Outcome {
    match no_walks(alloc, case.stops) {
        Some(feet) => try_with_feet(alloc, case, &feet),
        None => Outcome::Inputs,
    }
}

fn try_with_feet(alloc: Global, case: NetCase, feet: &Feet) -> Outcome {
    match trips_of(alloc, case.rides) {
        Ok(trips) => try_trips(alloc, case, feet, trips),
        Err(_) => Outcome::Inputs,
    }
}

fn try_trips(alloc: Global, case: NetCase, feet: &Feet, trips: Vec<Trip>) -> Outcome {
    match makes_network(alloc, case, feet, trips) {
        Ok(is_right) => Outcome::at_once(is_right),
        Err(trips) => match makes_network(alloc, case, feet, trips) {
            Ok(is_right) => Outcome::again(Ok(is_right)),
            Err(_) => Outcome::again(Err(AllocError)),
        },
    }
}

/// Whether it gives what it should; the trips where it tells out of memory.
fn makes_network(
    alloc: Global,
    case: NetCase,
    feet: &Feet,
    trips: Vec<Trip>,
) -> Result<bool, Vec<Trip>> {
    match Network::new(alloc, case.stops, trips, feet) {
        Ok(network) => Ok(case.gives.is_ok() && is_of(&network, case)),
        Err((NetFault::Memory, trips)) => Err(trips),
        Err((fault, trips)) => Ok(case.gives == Err(fault) && have_rides(&trips, case.rides)),
    }
}

/// Whether a network has a case's stops and rides.
fn is_of(network: &Network, case: NetCase) -> bool {
    network.stops() == case.stops && have_rides(network.trips(), case.rides)
}

/// Whether there is a trip for each ride, in order.
fn have_rides(trips: &[Trip], rides: &[Ride]) -> bool {
    trips.len() == rides.len()
        && trips
            .iter()
            .zip(rides)
            .all(|(trip, ride)| is_ride(trip, *ride))
}

/// Whether a trip is this ride.
fn is_ride(trip: &Trip, ride: Ride) -> bool {
    let (from, leaves, to, reaches) = ride;
    match trip.events.as_slice() {
        [first, last] => {
            first.stop == StopNo(from)
                && first.arrive == leaves
                && first.depart == leaves
                && last.stop == StopNo(to)
                && last.arrive == reaches
                && last.depart == reaches
        }
        _ => false,
    }
}

/// The trial of `close`, over the walks of the small feed.
pub(crate) fn try_close(alloc: Global) -> Outcome {
    over_small_feed(alloc, |feed| try_close_over(alloc, feed))
}

fn try_close_over(alloc: Global, feed: &Feed) -> Outcome {
    match small_walks(alloc, feed) {
        Some(walks) => try_walks(alloc, &walks),
        None => Outcome::Inputs,
    }
}

fn try_walks(alloc: Global, walks: &Direct) -> Outcome {
    Outcome::of(|| closes(alloc, walks))
}

/// Whether `close` joins the two walks.
fn closes(alloc: Global, walks: &Direct) -> Result<bool, AllocError> {
    if !limit_fits(LIMIT) {
        return Ok(false);
    }
    match close(alloc, walks, LIMIT) {
        Ok(feet) => Ok(are_joined(&feet)),
        Err(fault) => told(fault == FootFault::Memory),
    }
}

/// Whether one walks from the first of three stops to both others, and on from the second.
fn are_joined(feet: &Feet) -> bool {
    if feet.stops() != 3 {
        return false;
    }
    let from_a = [(StopNo(1), 60), (StopNo(2), 120)];
    let from_b = [(StopNo(2), 60)];
    feet.leaving(StopNo(0)) == from_a.as_slice()
        && feet.leaving(StopNo(1)) == from_b.as_slice()
        && feet.leaving(StopNo(2)).is_empty()
}

/// The trial of `network_of`, over the small feed.
pub(crate) fn try_network_of(alloc: Global) -> Outcome {
    over_small_feed(alloc, |feed| try_network_over(alloc, feed))
}

/// The runs of the Monday, with a day before and a day after.
fn try_network_over(alloc: Global, feed: &Feed) -> Outcome {
    let Some(date) = read_date(MONDAY) else {
        return Outcome::Wrong;
    };
    match active(alloc, feed, date, 1, 1) {
        Ok(runs) => try_runs(alloc, feed, &runs),
        Err(_) => Outcome::Inputs,
    }
}

fn try_runs(alloc: Global, feed: &Feed, runs: &[Run]) -> Outcome
    requires { All (IsRun feed.now) runs.now }
{
    match closed_walks(alloc, feed) {
        Some(feet) if feet.stops() == feed.stop_count() => {
            try_scenarios(alloc, feed, runs, &feet)
        }
        Some(_) => Outcome::Wrong,
        None => Outcome::Inputs,
    }
}

fn try_scenarios(alloc: Global, feed: &Feed, runs: &[Run], feet: &Feet) -> Outcome
    requires runs { All (IsRun feed.now) runs.now }
    requires feet { length feet.now.walks ≡ length feed.now.stops }
{
    match small_scenarios(alloc, feed) {
        Some(scenarios) => match make_networks(alloc, feed, &scenarios, runs, feet) {
            Ok(is_right) => Outcome::at_once(is_right),
            Err(_) => Outcome::again(make_networks(alloc, feed, &scenarios, runs, feet)),
        },
        None => Outcome::Inputs,
    }
}

/// The scenario without edits, the one that cuts a route, and the one that makes a trip late.
fn small_scenarios(alloc: Global, feed: &Feed) -> Option<Vec<Scenario>> {
    let mut scenarios = Vec::with_capacity(alloc, 3).ok()?;
    scenarios.push(base(alloc)).ok()?;
    for (name, bytes) in [(b"cut".as_slice(), CUT), (b"late".as_slice(), LATE)] {
        push_scenario(alloc, feed, &mut scenarios, name, bytes)?;
    }
    Some(scenarios)
}

fn push_scenario(
    alloc: Global,
    feed: &Feed,
    scenarios: &mut Vec<Scenario>,
    name: &[u8],
    bytes: &[u8],
) -> Option<()> {
    if bytes.len() > MOST_BYTES {
        return None;
    }
    match read_scenario(alloc, name, bytes, feed) {
        Ok(scenario) => scenarios.push(scenario).ok(),
        Err(_) => None,
    }
}

/// The rides of each scenario's network, on the second day of the axis.
const RIDES: [&[Ride]; 3] = [
    &[(0, 115_200, 1, 115_800), (1, 116_100, 2, 117_000)],
    &[(0, 115_200, 1, 115_800)],
    &[(0, 115_500, 1, 116_100), (1, 116_100, 2, 117_000)],
];

/// Whether each scenario's network has its rides.
fn make_networks(
    alloc: Global,
    feed: &Feed,
    scenarios: &[Scenario],
    runs: &[Run],
    feet: &Feet,
) -> Result<bool, AllocError>
    requires runs { All (IsRun feed.now) runs.now }
    requires feet { length feet.now.walks ≡ length feed.now.stops }
{
    for (scenario, rides) in scenarios.iter().zip(RIDES.iter()) {
        if !makes_rides(alloc, feed, scenario, runs, feet, rides)? {
            return Ok(false);
        }
    }
    Ok(scenarios.len() == RIDES.len())
}

/// Whether a scenario's network has these rides.
fn makes_rides(
    alloc: Global,
    feed: &Feed,
    scenario: &Scenario,
    runs: &[Run],
    feet: &Feet,
    rides: &[Ride],
) -> Result<bool, AllocError>
    requires runs { All (IsRun feed.now) runs.now }
    requires feet { length feet.now.walks ≡ length feed.now.stops }
{
    match network_of(alloc, feed, scenario, runs, feet) {
        Ok(network) => Ok(are_joined(network.feet()) && have_rides(network.trips(), rides)),
        Err(fault) => told(fault == NetFault::Memory),
    }
}
