//! The durations to a destination, by searches from its deadlines and by searches from each origin.

use crate::small_networks::{SmallNetwork, mirrored_of, two_trips};
use reversal::{deadlines_of, walks_to};
use rounds::{MOST_RIDES, Window, one_minute};
use std::alloc::{AllocError, Global};
use std::test::Fail;
use timetable::{END_OF_AXIS, NEVER, Network, StopNo};
use to_here::{advance, lower_to_walk, no_durations};

/// The labels of deadlines for an origin, by one search over the mirrored network for each.
fn labels_of(
    alloc: Global,
    mirrored: &Network,
    destination: u32,
    origin: u32,
    deadlines: &[u32],
    rides: u32,
) -> Result<Vec<u32>, AllocError> {
    let mut labels = Vec::with_capacity(alloc, deadlines.len())?;
    for deadline in deadlines {
        let mut label = NEVER;
        if destination < mirrored.stops() && *deadline < END_OF_AXIS && rides <= MOST_RIDES {
            let start = END_OF_AXIS - 1 - *deadline;
            let found = one_minute(alloc, mirrored, StopNo(destination), start, rides)?;
            label = found.get(origin as usize).copied().unwrap_or(NEVER);
        }
        labels.push(label)?;
    }
    Ok(labels)
}

/// The durations from an origin to a destination, by searches from its deadlines.
fn from_the_destination(
    alloc: Global,
    network: &SmallNetwork,
    destination: u32,
    origin: u32,
    window: Window,
    rides: u32,
) -> Result<Option<Vec<u32>>, AllocError> {
    let mirrored = mirrored_of(alloc, network)?;
    let (Some(network), Some(mirrored)) = (network, &mirrored) else {
        return Ok(None);
    };
    if !window.fits() {
        return Ok(None);
    }
    let deadlines = deadlines_of(alloc, network, StopNo(destination), window.first)?;
    let labels = labels_of(alloc, mirrored, destination, origin, &deadlines, rides)?;
    let walks = walks_to(alloc, network.feet(), StopNo(destination))?;
    let mut durations = no_durations(alloc, window)?;
    if labels.len() == deadlines.len() && durations.len() == window.minutes as usize {
        advance(window, &deadlines, &labels, 0, &mut durations);
    }
    lower_to_walk(
        &mut durations,
        walks.get(origin as usize).copied().unwrap_or(NEVER),
    );
    Ok(Some(durations))
}

/// The durations from an origin to a destination, by a search for each departure.
fn from_the_origin(
    alloc: Global,
    network: &SmallNetwork,
    destination: u32,
    origin: u32,
    window: Window,
    rides: u32,
) -> Result<Option<Vec<u32>>, AllocError> {
    let Some(network) = network else {
        return Ok(None);
    };
    let mut durations = Vec::new(alloc);
    for minute in 0..window.minutes {
        let start = window.first.saturating_add(minute.saturating_mul(60));
        if origin < network.stops() && start < END_OF_AXIS && rides <= MOST_RIDES {
            let found = one_minute(alloc, network, StopNo(origin), start, rides)?;
            durations.push(found.get(destination as usize).copied().unwrap_or(NEVER))?;
        }
    }
    Ok(Some(durations))
}

/// `advance`, `mirrored`.
#[test]
fn both_ways_give_the_same_durations(rt: HostRuntime) -> Result<(), Fail> {
    let alloc = rt.alloc();
    let network = two_trips(alloc)?;
    let window = Window {
        first: 30,
        minutes: 4,
    };
    for (origin, destination, rides, expected) in &[
        (0, 3, 2, [380, 320, NEVER, NEVER]),
        (0, 3, 1, [390, 330, NEVER, NEVER]),
        (1, 3, 1, [380, 320, 260, 200]),
        (2, 3, 2, [120, 120, 120, 120]),
        (3, 3, 0, [0, 0, 0, 0]),
        (3, 0, 8, [NEVER, NEVER, NEVER, NEVER]),
        (0, 1, 1, [170, 110, NEVER, NEVER]),
    ] {
        let one = from_the_destination(alloc, &network, *destination, *origin, window, *rides)?;
        let other = from_the_origin(alloc, &network, *destination, *origin, window, *rides)?;
        let one = one.expect(&rt, "durations");
        let other = other.expect(&rt, "durations");
        assert_eq!(rt;
            one.as_slice(),
            expected.as_slice(),
            "from {origin} to {destination}"
        );
        assert_eq!(rt; one.as_slice(), other.as_slice());
    }
    Ok(())
}
