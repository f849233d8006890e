//! `timetable`, `trip_lanes`, `rounds` and `shares`: a trip between two stops, and a footpath back.

use crate::small_studies::{feet_of, network_of, trip_of};
use rounds::{Durations, Window, durations, one_minute};
use shares::{access, cell, cells, cells_of};
use std::alloc::{AllocError, Global};
use std::test::Fail;
use timetable::{Event, Feet, NEVER, NetFault, Network, StopNo, Trip};
use trip_lanes::{Lanes, transfer, walk};

/// No lane reaches the stop.
const UNREACHED: Lanes = [NEVER; 16];

/// `Feet::new`, `leaving`, `seconds`, `change`, `stops`.
#[test]
fn feet(rt: HostRuntime) -> Result<(), Fail> {
    let Some(feet) = feet_of(rt.alloc(), 60)? else {
        return Err(Fail::new("no feet"));
    };
    let feet: Feet = feet;
    assert!(rt; feet.stops() == 2);
    if feet.stops() == 2 {
        assert!(rt; feet.leaving(StopNo(1)) == [(StopNo(0), 60)].as_slice());
        assert!(rt; feet.seconds(StopNo(1), StopNo(0)) == Some(60));
        assert!(rt; feet.change(StopNo(1)) == 7);
    }
    Ok(())
}

/// What comes back of footpaths that are refused: how many lists, and how many change times.
fn came_back(alloc: Global) -> Result<Option<(NetFault, usize, usize)>, AllocError> {
    let lists: Vec<Vec<(StopNo, u32)>> = Vec::new(alloc);
    let changes: Vec<u32> = vec![in alloc; 0; 3]?;
    match Feet::new(alloc, 2, lists, changes) {
        Ok(_) => Ok(None),
        Err((fault, lists, changes)) => Ok(Some((fault, lists.len(), changes.len()))),
    }
}

/// `Feet::new`.
#[test]
fn refused_feet(rt: HostRuntime) -> Result<(), Fail> {
    assert!(rt; came_back(rt.alloc())? == Some((NetFault::StopRange, 0, 3)));
    Ok(())
}

/// Whether a network has the trip and the footpath.
fn has_both(network: &Network) -> bool {
    if network.stops() != 2 || network.trips().len() != 1 {
        return false;
    }
    let trip: &Trip = network.trip(0);
    let events: &[Event] = trip.events.as_slice();
    (trip.route, trip.name, events.len()) == (3, 5, 2)
        && network.feet().stops() == 2
        && network.serving(StopNo(1)) == [0].as_slice()
}

/// `Network::new`, `trip`, `trips`, `feet`, `stops`, `serving`.
#[test]
fn networks(rt: HostRuntime) -> Result<(), Fail> {
    let Some(network) = network_of(rt.alloc())? else {
        return Err(Fail::new("no network"));
    };
    assert!(rt; has_both(&network));
    Ok(())
}

/// Why a trip to a stop that there isn't is refused, and how many trips come back.
fn trips_back(alloc: Global, feet: &Feet) -> Result<Option<(NetFault, usize)>, AllocError> {
    let trips: Vec<Trip> = vec![in alloc; trip_of(alloc, 2)?]?;
    match Network::new(alloc, 2, trips, feet) {
        Ok(_) => Ok(None),
        Err((fault, trips)) => Ok(Some((fault, trips.len()))),
    }
}

/// `Network::new`.
#[test]
fn refused_networks(rt: HostRuntime) -> Result<(), Fail> {
    let Some(feet) = feet_of(rt.alloc(), 60)? else {
        return Err(Fail::new("no feet"));
    };
    let back = trips_back(rt.alloc(), &feet)?;
    drop(feet);
    assert!(rt; back == Some((NetFault::StopRange, 1)));
    Ok(())
}

/// `walk`, `transfer`.
#[test]
fn walked(rt: HostRuntime) -> Result<(), Fail> {
    let Some(feet) = feet_of(rt.alloc(), 60)? else {
        return Err(Fail::new("no feet"));
    };
    let ride: [Lanes; 2] = [UNREACHED, [400; 16]];
    let mut ready: [Lanes; 2] = [UNREACHED; 2];
    let mut changed: [Lanes; 2] = [UNREACHED; 2];
    if feet.stops() == 2 {
        walk(&feet, &ride, &mut ready);
        transfer(&feet, &ride, &mut changed);
    }
    assert!(rt; ready == [[460; 16], [400; 16]]);
    assert!(rt; changed == [[460; 16], [407; 16]]);
    Ok(())
}

/// `one_minute`.
#[test]
fn minutes(rt: HostRuntime) -> Result<(), Fail> {
    let Some(network) = network_of(rt.alloc())? else {
        return Err(Fail::new("no network"));
    };
    if network.stops() == 2 {
        let found: Vec<u32> = one_minute(rt.alloc(), &network, StopNo(0), 100, 1)?;
        assert!(rt; found.as_slice() == [0, 300].as_slice());
        drop(found);
    }
    Ok(())
}

/// Whether these are the durations of two minutes, their cells and their access.
fn are_of_two_minutes(alloc: Global, found: &Durations) -> Result<bool, AllocError> {
    if found.stops() != 2 || found.minutes() != 2 {
        return Ok(false);
    }
    let to_the_other = [found.at(StopNo(1), 0), found.at(StopNo(1), 1)];
    let half: Vec<Option<u32>> = cells(alloc, found, 50)?;
    let lists: Vec<Vec<Option<u32>>> = cells_of(alloc, found, &[50, 100])?;
    let opportunities: [u32; 2] = [2, 5];
    let are_listed = lists.len() == 2
        && lists[0].as_slice() == half.as_slice()
        && lists[1].as_slice() == [Some(0), Some(360)].as_slice();
    let sum: u64 = if half.len() == 2 {
        access(&half, &opportunities, 299)
    } else {
        0
    };
    Ok(
        are_listed
            && to_the_other == [Some(360), Some(300)]
            && cell(found, StopNo(1), 50) == Some(300)
            && half.as_slice() == [Some(0), Some(300)].as_slice()
            && sum == 2,
    )
}

/// `Window::fits`, `durations`, `Durations::at`, `stops`, `minutes`, `cell`, `cells`, `cells_of`, `access`.
#[test]
fn windows(rt: HostRuntime) -> Result<(), Fail> {
    let Some(network) = network_of(rt.alloc())? else {
        return Err(Fail::new("no network"));
    };
    let window = Window {
        first: 40,
        minutes: 2,
    };
    if !window.fits() || network.stops() != 2 {
        return Err(Fail::new("no window"));
    }
    let found = durations(rt.alloc(), &network, StopNo(0), window, 1)?;
    drop(network);
    assert!(rt; are_of_two_minutes(rt.alloc(), &found)?);
    Ok(())
}
