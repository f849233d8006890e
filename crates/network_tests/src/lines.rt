//! Which trips share a line, where lines are boarded, how the events of a line lie, and which trips serve a stop.

ghost use Rattle.std.specs.Prelude.{◌≡◌, IfOk};

use std::alloc::{AllocError, Global};
use timetable::{Call, CallTimes, Event, Events, Feet, Lines, Network, StopNo, Trip};

/// An event where one may board and alight, at a stop, that arrives and departs at these seconds.
pub(crate) fn at(stop: u32, arrive: u32, depart: u32) -> Event {
    Event {
        stop: StopNo(stop),
        arrive,
        depart,
        board: true,
        alight: true,
    }
}

// The same, where one may not board.
fn only_out(stop: u32, arrive: u32) -> Event {
    Event {
        board: false,
        ..at(stop, arrive, arrive)
    }
}

// The same, where one may not alight.
fn only_in(stop: u32, depart: u32) -> Event {
    Event {
        alight: false,
        ..at(stop, depart, depart)
    }
}

fn trip(alloc: Global, events: &[Event]) -> Result<Trip, AllocError> {
    Ok(Trip {
        route: 0,
        name: 0,
        events: Events::new(Vec::from_slice(alloc, events)?),
    })
}

// Trips 0 and 3 run in one line, 1 overtakes 0 on its way, and 2 runs to another stop.
fn overtaking(alloc: Global) -> Result<Vec<Trip>, AllocError> {
    let mut trips = Vec::new(alloc);
    trips.push(trip(alloc, &[at(0, 100, 100), at(1, 200, 210), only_out(2, 300)])?)?;
    trips.push(trip(alloc, &[at(0, 110, 110), at(1, 190, 190), only_out(2, 280)])?)?;
    trips.push(trip(alloc, &[at(0, 120, 120), at(2, 220, 220)])?)?;
    trips.push(trip(alloc, &[at(0, 130, 130), at(1, 230, 240), only_out(2, 330)])?)?;
    Ok(trips)
}

// Trips 0 and 1 have equal times and run in one line; of 2 nobody may alight at the first stop; 3 has no events; 4
// loops.
fn alike(alloc: Global) -> Result<Vec<Trip>, AllocError> {
    let mut trips = Vec::new(alloc);
    trips.push(trip(alloc, &[at(0, 100, 100), at(1, 200, 200)])?)?;
    trips.push(trip(alloc, &[at(0, 100, 100), at(1, 200, 200)])?)?;
    trips.push(trip(alloc, &[only_in(0, 100), at(1, 200, 200)])?)?;
    trips.push(trip(alloc, &[])?)?;
    trips.push(trip(alloc, &[at(0, 100, 100), at(1, 200, 200), at(0, 300, 300)])?)?;
    Ok(trips)
}

// Each trip overtakes the one before, so ten lines are open.
fn ten_that_overtake(alloc: Global) -> Result<Vec<Trip>, AllocError> {
    let mut trips = Vec::new(alloc);
    for i in 0..10 {
        trips.push(trip(alloc, &[at(0, 100 + i, 100 + i), at(1, 300 - i, 300 - i)])?)?;
    }
    Ok(trips)
}

fn no_walks(alloc: Global) -> Result<Feet, AllocError> {
    let mut lists = Vec::new(alloc);
    let mut changes = Vec::new(alloc);
    for _ in 0..3 {
        lists.push(Vec::new(alloc))?;
        changes.push(0)?;
    }
    match Feet::new(alloc, 3, lists, changes) {
        Ok(feet) => Ok(feet),
        Err(_) => Err(AllocError),
    }
}

// The network of three stops, without walks, with these trips. It stands in a box, so that whoever holds it drops it in
// one step.
fn network(alloc: Global, trips: Vec<Trip>) -> Result<Box<Network>, AllocError>
    ensures { IfOk result (λ n. n.value.stops ≡ 3) }
{
    let feet = no_walks(alloc)?;
    match Network::new(alloc, 3, trips, &feet) {
        Ok(network) => Ok(Box::new(alloc, network)?),
        Err(_) => Err(AllocError),
    }
}

fn network_of_overtaking(alloc: Global) -> Result<Box<Network>, AllocError>
    ensures { IfOk result (λ n. n.value.stops ≡ 3) }
{
    let trips = overtaking(alloc)?;
    network(alloc, trips)
}

fn network_of_alike(alloc: Global) -> Result<Box<Network>, AllocError>
    ensures { IfOk result (λ n. n.value.stops ≡ 3) }
{
    let trips = alike(alloc)?;
    network(alloc, trips)
}

fn network_of_ten(alloc: Global) -> Result<Box<Network>, AllocError>
    ensures { IfOk result (λ n. n.value.stops ≡ 3) }
{
    let trips = ten_that_overtake(alloc)?;
    network(alloc, trips)
}

// A trip from stop 0 to stop 1, and one from there to stop 2.
fn network_with_a_change(alloc: Global) -> Result<Box<Network>, AllocError>
    ensures { IfOk result (λ n. n.value.stops ≡ 3) }
{
    let mut trips = Vec::new(alloc);
    trips.push(trip(alloc, &[at(0, 28800, 28800), at(1, 29400, 29400)])?)?;
    trips.push(trip(alloc, &[at(1, 29700, 29700), at(2, 30600, 30600)])?)?;
    network(alloc, trips)
}

// A trip from stop 2 to stop 0.
fn network_of_one_trip(alloc: Global) -> Result<Box<Network>, AllocError>
    ensures { IfOk result (λ n. n.value.stops ≡ 3) }
{
    let mut trips = Vec::new(alloc);
    trips.push(trip(alloc, &[at(2, 100, 100), at(0, 200, 200)])?)?;
    network(alloc, trips)
}

// Whether some line has just these trips.
fn has_line(lines: &Lines, trips: &[u32]) -> bool {
    for line in 0..lines.count() {
        if line < 20 && lines.trips_of(line as u32) == trips {
            return true;
        }
    }
    false
}

// Whether some line has just these times, trip by trip.
fn has_times(network: &Network, times: &[CallTimes]) -> bool {
    let (renumbered, _) = network.renumbered();
    let lines = renumbered.lines();
    for line in 0..lines.count() {
        if line < 20 && lines.times_of(line as u32) == times {
            return true;
        }
    }
    false
}

fn times(arrive: u32, depart: u32) -> CallTimes {
    CallTimes { arrive, depart }
}

// Whether some line has just these calls.
fn has_calls(network: &Network, calls: &[Call]) -> bool {
    let (renumbered, _) = network.renumbered();
    let lines = renumbered.lines();
    for line in 0..lines.count() {
        if line < 20 && lines.calls_of(line as u32) == calls {
            return true;
        }
    }
    false
}

/// `Renumbered::lines`, `Lines::new`, `FlatLists::new`.
#[test]
fn trips_that_overtake_or_stop_elsewhere_have_lines_of_their_own(rt: HostRuntime) {
    let network = network_of_overtaking(rt.alloc()).expect(&rt, "a network");
    let (renumbered, _) = network.renumbered();
    let lines = renumbered.lines();
    assert_eq!(rt; lines.count(), 3);
    assert!(rt; has_line(lines, &[0, 3]));
    assert!(rt; has_line(lines, &[1]));
    assert!(rt; has_line(lines, &[2]));
}

/// `Renumbered::lines`.
#[test]
fn equal_times_share_a_line_and_other_flags_and_loops_do_not(rt: HostRuntime) {
    let network = network_of_alike(rt.alloc()).expect(&rt, "a network");
    let (renumbered, _) = network.renumbered();
    let lines = renumbered.lines();
    assert_eq!(rt; lines.count(), 4);
    assert!(rt; has_line(lines, &[0, 1]));
    assert!(rt; has_line(lines, &[2]));
    assert!(rt; has_line(lines, &[3]));
    assert!(rt; has_line(lines, &[4]));
}

/// `Renumbered::lines`.
#[test]
fn each_of_ten_trips_that_overtake_has_a_line(rt: HostRuntime) {
    let network = network_of_ten(rt.alloc()).expect(&rt, "a network");
    let (renumbered, _) = network.renumbered();
    let lines = renumbered.lines();
    assert_eq!(rt; lines.count(), 10);
    assert!(rt; has_line(lines, &[0]));
    assert!(rt; has_line(lines, &[9]));
}

/// `Lines::boarded_at`, `Renumbered::lines`.
#[test]
fn lines_are_listed_where_they_can_be_boarded(rt: HostRuntime) {
    let network = network_of_overtaking(rt.alloc()).expect(&rt, "a network");
    let (renumbered, _) = network.renumbered();
    let lines = renumbered.lines();
    assert_eq!(rt; lines.boarded_at(StopNo(0)).len(), 3);
    assert_eq!(rt; lines.boarded_at(StopNo(1)).len(), 2);
    assert_eq!(rt; lines.boarded_at(StopNo(2)).len(), 1);
}

/// `Network::renumbered`, `Renumbered::last_arrivals`.
#[test]
fn stops_have_numbers_in_the_order_in_which_trips_pass_them(rt: HostRuntime) {
    let network = network_of_one_trip(rt.alloc()).expect(&rt, "a network");
    let (renumbered, numbers) = network.renumbered();
    assert!(rt; numbers == [1, 2, 0].as_slice());
    assert!(rt; renumbered.last_arrivals() == [100, 200, 0].as_slice());
}

/// `Renumbered::stops`, `Renumbered::feet`, `Renumbered::trips`.
#[test]
fn a_network_has_as_many_numbers_as_stops(rt: HostRuntime) {
    let network = network_of_one_trip(rt.alloc()).expect(&rt, "a network");
    let (renumbered, _) = network.renumbered();
    let _ = renumbered.trips();
    assert_eq!(rt; renumbered.stops(), 3);
    assert_eq!(rt; renumbered.feet().stops(), 3);
}

/// `Network::serving`.
#[test]
fn the_trips_that_serve_a_stop_ascend(rt: HostRuntime) {
    let network = network_of_overtaking(rt.alloc()).expect(&rt, "a network");
    assert!(rt; network.serving(StopNo(0)) == [0, 1, 2, 3].as_slice());
    assert!(rt; network.serving(StopNo(1)) == [0, 1, 3].as_slice());
    assert!(rt; network.serving(StopNo(2)) == [0, 1, 2, 3].as_slice());
}

/// `Network::serving`.
#[test]
fn both_trips_serve_the_stop_of_the_change(rt: HostRuntime) {
    let network = network_with_a_change(rt.alloc()).expect(&rt, "a network");
    assert!(rt; network.serving(StopNo(0)) == [0].as_slice());
    assert!(rt; network.serving(StopNo(1)) == [0, 1].as_slice());
    assert!(rt; network.serving(StopNo(2)) == [1].as_slice());
}

/// `Network::serving`.
#[test]
fn a_trip_that_loops_serves_its_stop_once(rt: HostRuntime) {
    let network = network_of_alike(rt.alloc()).expect(&rt, "a network");
    assert!(rt; network.serving(StopNo(0)) == [0, 1, 2, 4].as_slice());
    assert!(rt; network.serving(StopNo(2)) == [].as_slice());
}

/// `Lines::times_of`, `Renumbered::lines`.
#[test]
fn times_lie_trip_by_trip(rt: HostRuntime) {
    let network = network_of_overtaking(rt.alloc()).expect(&rt, "a network");
    let first = [times(100, 100), times(200, 210), times(300, 300)];
    let second = [times(130, 130), times(230, 240), times(330, 330)];
    assert!(rt;
        has_times(
            &network,
            &[
                first[0], first[1], first[2], second[0], second[1], second[2]
            ]
        )
    );
}

/// `Lines::calls_of`, `Renumbered::lines`.
#[test]
fn calls_tell_where_one_may_board_and_alight(rt: HostRuntime) {
    let network = network_of_alike(rt.alloc()).expect(&rt, "a network");
    assert!(rt;
        has_calls(
            &network,
            &[
                Call {
                    stop: StopNo(0),
                    board: true,
                    alight: false
                },
                Call {
                    stop: StopNo(1),
                    board: true,
                    alight: true
                },
            ]
        )
    );
}
