//! Departures at any times, searched batch by batch from the latest, compared with each departure alone.

use crate::small_networks::SmallNetwork;
use crate::windows::busy;
use rounds::{LatestFirst, are_departures, one_minute};
use std::alloc::{AllocError, Global};
use std::test::Fail;
use timetable::{END_OF_AXIS, Network, StopNo};
use trip_lanes::LANES;

/// So many departures, 131 seconds apart from 07:51:40 on.
fn odd_times(alloc: Global, count: u32) -> Result<Vec<u32>, AllocError> {
    let mut times = Vec::new(alloc);
    for turn in 0..count {
        times.push(28_300u32.saturating_add(turn.saturating_mul(131)))?;
    }
    Ok(times)
}

/// Whether a lane of the last batch has the durations of its departure alone.
fn lane_agrees(
    alloc: Global,
    network: &Network,
    search: &LatestFirst<'_>,
    (origin, depart): (u32, u32),
    lane: usize,
) -> Result<bool, AllocError> {
    if origin >= network.stops() || depart >= END_OF_AXIS || lane >= LANES {
        return Ok(false);
    }
    let alone = one_minute(alloc, network, StopNo(origin), depart, 4)?;
    for stop in 0..search.stops() {
        let found = search.lanes_of(StopNo(stop));
        if alone.get(stop as usize) != Some(&found[lane]) {
            return Ok(false);
        }
    }
    Ok(true)
}

/// Whether each lane of the last batch does.
fn batch_agrees(
    alloc: Global,
    network: &Network,
    search: &LatestFirst<'_>,
    times: &[u32],
    origin: u32,
) -> Result<bool, AllocError> {
    for lane in 0..LANES {
        let at = search.position().saturating_add(lane);
        if let Some(depart) = times.get(at) {
            if !lane_agrees(alloc, network, search, (origin, *depart), lane)? {
                return Ok(false);
            }
        }
    }
    Ok(true)
}

/// How many batches a search has, if each has the durations of its departures alone.
fn batches_that_agree(
    alloc: Global,
    network: &Network,
    times: &[u32],
    origin: u32,
) -> Result<Option<u32>, AllocError> {
    if origin >= network.stops() || !are_departures(times) {
        return Ok(None);
    }
    let mut search = LatestFirst::new(alloc, network, StopNo(origin), times, 4)?;
    let mut batches = 0u32;
    for _ in 0..9u32 {
        if search.next() {
            batches = batches.saturating_add(1);
            if !batch_agrees(alloc, network, &search, times, origin)? {
                return Ok(None);
            }
        }
    }
    Ok(Some(batches))
}

/// The same in the busy network.
fn batches_of(alloc: Global, count: u32, origin: u32) -> Result<Option<u32>, AllocError> {
    let network: SmallNetwork = busy(alloc)?;
    let times = odd_times(alloc, count)?;
    match &network {
        Some(network) => batches_that_agree(alloc, network, times.as_slice(), origin),
        None => Ok(None),
    }
}

/// `LatestFirst::new`, `next`, `position`, `stops`, `lanes_of`, `are_departures`.
#[test]
fn departures_at_odd_times_are_those_of_each_alone(rt: HostRuntime) -> Result<(), Fail> {
    let alloc = rt.alloc();
    for (count, batches) in &[(1u32, 1u32), (16, 1), (37, 3)] {
        for origin in 0..3u32 {
            let found = batches_of(alloc, *count, origin)?;
            assert!(rt; found == Some(*batches), "{count} departures from {origin}");
        }
    }
    Ok(())
}

/// `are_departures`.
#[test]
fn departures_ascend_on_the_axis(rt: HostRuntime) -> Result<(), Fail> {
    assert!(rt; are_departures(&[0, 1, END_OF_AXIS - 1]));
    assert!(rt; !are_departures(&[]));
    assert!(rt; !are_departures(&[60, 60]));
    assert!(rt; !are_departures(&[120, 60]));
    assert!(rt; !are_departures(&[END_OF_AXIS]));
    Ok(())
}
