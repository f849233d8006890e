//! Worked examples of lanes: sixteen departures side by side, or thirty-two by narrow labels, over two stops or three.
ghost use Rattle.std.specs.Prelude.{◌≡◌, ℕ, ◌<◌, ◌⊎◌, slice_index};

use std::alloc::{AllocError, Global};
use std::test::Fail;
use timetable::{Call, CallTimes, Event, Events, Feet, NEVER, StopNo, Trip};
use trip_lanes::{
    LaneLabels, Lanes, LineView, Narrow, ReadyLabels, UNFALLEN, carry_trip, scan_line, transfer,
    walk,
};

/// No lane reaches the stop.
const UNREACHED: Lanes = [NEVER; 16];

/// The same of narrow labels.
const FAR: Narrow = [65_535; 32];

/// The first two lanes at these seconds, the others not at all.
fn two(first: u32, second: u32) -> Lanes
    ensures { (l : ℕ) → l < 16 → (slice_index result l ≡ NEVER)
        ⊎ ((slice_index result l ≡ first) ⊎ (slice_index result l ≡ second)) }
{
    let mut lanes = UNREACHED;
    lanes[0] = first;
    lanes[1] = second;
    lanes
}

/// A vehicle at a stop, where all may board and alight.
fn at(stop: u32, arrive: u32, depart: u32) -> Event
    ensures { result.stop.0 ≡ stop }
{
    Event {
        stop: StopNo(stop),
        arrive,
        depart,
        board: true,
        alight: true,
    }
}

/// Feet with these footpaths of the first of two stops, and these change times.
fn feet_of(
    alloc: Global,
    leaving: &[(StopNo, u32)],
    changes: &[u32],
) -> Result<Option<Feet>, AllocError> {
    let mut lists = Vec::with_capacity(alloc, 2)?;
    lists.push(Vec::from_slice(alloc, leaving)?)?;
    lists.push(Vec::new(alloc))?;
    match Feet::new(alloc, 2, lists, Vec::from_slice(alloc, changes)?) {
        Ok(feet) => Ok(Some(feet)),
        Err(_) => Ok(None),
    }
}

/// `carry_trip`.
#[test]
fn who_is_ready_rides(rt: HostRuntime) -> Result<(), Fail> {
    let alloc = rt.alloc();
    let events = vec![in alloc; at(0, 28_800, 28_800), at(1, 29_400, 29_400)]?;
    let trip = Trip {
        route: 0,
        name: 0,
        events: Events::new(events),
    };
    let ready = [two(28_800, 28_801), UNREACHED];
    let mut ride = [UNREACHED, UNREACHED];
    let mut marked = [false, false];
    carry_trip(&trip, &ready, &mut ride, &mut marked);
    assert!(rt; ride[0] == UNREACHED && ride[1] == two(29_400, NEVER));
    assert!(rt; !marked[0] && marked[1]);
    Ok(())
}

/// `walk`.
#[test]
fn a_walk_takes_its_seconds(rt: HostRuntime) -> Result<(), Fail> {
    let alloc = rt.alloc();
    let feet = feet_of(alloc, &[(StopNo(1), 60)], &[0, 0])?;
    let Some(feet) = feet else {
        return Err(Fail::new("feet"));
    };
    let ride = [two(100, NEVER), UNREACHED];
    let mut ready = [UNREACHED, UNREACHED];
    if feet.stops() == 2 {
        walk(&feet, &ride, &mut ready);
    }
    assert!(rt; ready[0] == two(100, NEVER) && ready[1] == two(160, NEVER));
    Ok(())
}

/// `transfer`.
#[test]
fn a_change_takes_its_time_and_a_walk_none(rt: HostRuntime) -> Result<(), Fail> {
    let alloc = rt.alloc();
    let feet = feet_of(alloc, &[(StopNo(1), 60)], &[300, 7])?;
    let Some(feet) = feet else {
        return Err(Fail::new("feet"));
    };
    let ride = [two(100, NEVER), UNREACHED];
    let mut ready = [UNREACHED, UNREACHED];
    if feet.stops() == 2 {
        transfer(&feet, &ride, &mut ready);
    }
    assert!(rt; ready[0] == two(400, NEVER) && ready[1] == two(160, NEVER));
    Ok(())
}

/// `transfer`.
#[test]
fn a_change_at_the_end_of_the_numbers_takes_its_time(rt: HostRuntime) -> Result<(), Fail> {
    let alloc = rt.alloc();
    let feet = feet_of(alloc, &[(StopNo(1), 60)], &[300, 7])?;
    let Some(feet) = feet else {
        return Err(Fail::new("feet"));
    };
    let ride = [two(4_000_000_000, NEVER), UNREACHED];
    let mut ready = [UNREACHED, UNREACHED];
    if feet.stops() == 2 {
        transfer(&feet, &ride, &mut ready);
    }
    assert!(rt; ready[0] == two(4_000_000_300, NEVER) && ready[1] == two(4_000_000_060, NEVER));
    Ok(())
}

/// A position on a line where all may board and alight.
fn call(stop: u32) -> Call
    ensures { result.stop.0 ≡ stop }
{
    Call {
        stop: StopNo(stop),
        board: true,
        alight: true,
    }
}

/// A trip that arrives and departs in the same second.
fn stops_at(time: u32) -> CallTimes {
    CallTimes {
        arrive: time,
        depart: time,
    }
}

/// `scan_line`, `LaneLabels::fall`.
#[test]
fn each_lane_takes_the_first_trip_of_a_line(rt: HostRuntime) -> Result<(), Fail> {
    let calls = [call(0), call(1), call(2)];
    let times = [
        stops_at(100),
        stops_at(110),
        stops_at(120),
        stops_at(200),
        stops_at(210),
        stops_at(220),
        stops_at(300),
        stops_at(310),
        stops_at(320),
    ];
    let line = LineView {
        calls: &calls,
        times: &times,
        trips: 3,
        base: 0,
    };
    let ready = [two(100, 201), UNREACHED, two(NEVER, 215)];
    let falls = [ready[0].fall(UNREACHED), UNFALLEN, ready[2].fall(UNREACHED)];
    let labels = ReadyLabels {
        falls: &falls,
        ready: &ready,
    };
    let mut ride = [UNREACHED; 3];
    let mut marked = [false; 3];
    scan_line(line, 0, labels, &mut ride, &mut marked);
    assert!(rt; ride[0] == UNREACHED && ride[1] == two(110, 310) && ride[2] == two(120, 320));
    assert!(rt; !marked[0] && marked[1] && marked[2]);
    Ok(())
}

/// The first two lanes and the last at these seconds from the base, the others not at all.
fn three(first: u16, second: u16, last: u16) -> Narrow {
    let mut lanes = FAR;
    lanes[0] = first;
    lanes[1] = second;
    lanes[31] = last;
    lanes
}

// The three trips of the line above, as labels tell them that count from 50: 50, 60, 70; 150, 160, 170; 250, 260, 270.
/// `scan_line`, `LaneLabels::fall`.
#[test]
fn narrow_lanes_take_the_first_trip_from_their_base_on(rt: HostRuntime) -> Result<(), Fail> {
    let calls = [call(0), call(1), call(2)];
    let times = [
        stops_at(100),
        stops_at(110),
        stops_at(120),
        stops_at(200),
        stops_at(210),
        stops_at(220),
        stops_at(300),
        stops_at(310),
        stops_at(320),
    ];
    let line = LineView {
        calls: &calls,
        times: &times,
        trips: 3,
        base: 50,
    };
    let ready = [three(50, 151, 51), FAR, three(65_535, 165, 65_535)];
    let falls = [ready[0].fall(FAR), UNFALLEN, ready[2].fall(FAR)];
    let labels = ReadyLabels {
        falls: &falls,
        ready: &ready,
    };
    let mut ride = [FAR; 3];
    let mut marked = [false; 3];
    scan_line(line, 0, labels, &mut ride, &mut marked);
    assert!(rt; ride[0] == FAR);
    assert!(rt; ride[1] == three(60, 260, 160) && ride[2] == three(70, 270, 170));
    assert!(rt; !marked[0] && marked[1] && marked[2]);
    Ok(())
}

// From 50 on labels end at 65,585, and 100,000 would be 34,414 if its upper bits were left out.
/// `scan_line`, `LaneLabels::fall`.
#[test]
fn narrow_labels_end_at_their_horizon(rt: HostRuntime) -> Result<(), Fail> {
    let calls = [call(0), call(1), call(2), call(3)];
    let times = [
        stops_at(100),
        stops_at(65_584),
        stops_at(65_585),
        stops_at(100_000),
    ];
    let line = LineView {
        calls: &calls,
        times: &times,
        trips: 1,
        base: 50,
    };
    let ready = [three(50, 51, 1), FAR, FAR, FAR];
    let falls = [ready[0].fall(FAR), UNFALLEN, UNFALLEN, UNFALLEN];
    let labels = ReadyLabels {
        falls: &falls,
        ready: &ready,
    };
    let mut ride = [FAR; 4];
    let mut marked = [false; 4];
    scan_line(line, 0, labels, &mut ride, &mut marked);
    assert!(rt; ride[0] == FAR && ride[1] == three(65_534, 65_535, 65_534));
    assert!(rt; ride[2] == FAR && ride[3] == FAR);
    assert!(rt; !marked[0] && marked[1] && !marked[2] && !marked[3]);
    Ok(())
}

// The trips leave at 20, 50 and 51, and labels count from 50: so the first two leave at 0, before all who are ready.
/// `scan_line`, `LaneLabels::fall`.
#[test]
fn nobody_catches_what_left_before_the_base(rt: HostRuntime) -> Result<(), Fail> {
    let calls = [call(0), call(1)];
    let times = [
        stops_at(20),
        stops_at(110),
        stops_at(50),
        stops_at(120),
        stops_at(51),
        stops_at(130),
    ];
    let line = LineView {
        calls: &calls,
        times: &times,
        trips: 3,
        base: 50,
    };
    let ready = [three(1, 2, 1), FAR];
    let falls = [ready[0].fall(FAR), UNFALLEN];
    let labels = ReadyLabels {
        falls: &falls,
        ready: &ready,
    };
    let mut ride = [FAR; 2];
    let mut marked = [false; 2];
    scan_line(line, 0, labels, &mut ride, &mut marked);
    assert!(rt; ride[0] == FAR && ride[1] == three(80, 65_535, 80));
    assert!(rt; !marked[0] && marked[1]);
    Ok(())
}
