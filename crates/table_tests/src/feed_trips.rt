//! The trips of `trips.txt`.

use crate::test_identifiers::identifiers;
use std::alloc::Global;
use std::test::Fail;
use table_files::{FeedTrips, TripNumbers, read_feed_trips};
use table_records::FeedFault;

/// Whether the trips T1, T2 and T3 have their routes and services, of which NEW is the second.
fn has_three_trips(trips: &FeedTrips) -> bool {
    let first = TripNumbers {
        route: 0,
        service: 0,
    };
    let second = TripNumbers {
        route: 1,
        service: 1,
    };
    let third = TripNumbers {
        route: 0,
        service: 1,
    };
    trips.ids.number(b"T3") == Some(2)
        && trips.services.number(b"NEW") == Some(1)
        && trips.numbers.as_slice() == [first, second, third].as_slice()
}

/// Whether three trips of two routes, with a service that no calendar names, are read as such.
fn reads_three_trips(alloc: Global) -> Result<bool, FeedFault> {
    let routes = identifiers(alloc, &[b"R1", b"R2"])?;
    let services = identifiers(alloc, &[b"MON"])?;
    if routes.len() > 2 || services.len() > 1 {
        return Ok(false);
    }
    let trips = read_feed_trips(
        alloc,
        b"route_id,service_id,trip_id\nR1,MON,T1\nR2,NEW,T2\nR1,NEW,T3\n",
        &routes,
        Box::into_inner(services),
    )?;
    Ok(has_three_trips(&trips))
}

/// `read_feed_trips`.
#[test]
fn trips_have_routes_and_services(rt: HostRuntime) -> Result<(), Fail> {
    assert!(rt; reads_three_trips(rt.alloc())?);
    Ok(())
}
