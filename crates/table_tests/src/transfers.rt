//! The walks of `transfers.txt`.

ghost use Rattle.std.specs.Prelude.{◌≤◌, length};
ghost use Rattle.table_records.specs.declared.limits.TheConstants.{MOST_BYTES};

use std::alloc::Global;
use std::test::Fail;
use table_files::{Link, Place, Places, Transfers, read_places, read_transfers};
use table_records::FeedFault;
use timetable::StopNo;

/// Stops A and B, station S with the stops B and C, the empty station T, and an entrance E, in a box, which is dropped
/// in one step.
fn some_places(alloc: Global) -> Option<Box<Places>> {
    match read_places(
        alloc,
        b"stop_id,location_type,parent_station\nA,,\nB,,S\nS,1,\nC,0,S\nT,1,\nE,2,S\n",
    ) {
        Ok(places) => Box::new(alloc, places).ok(),
        Err(_) => None,
    }
}

/// Whether the walks are these, and so many rows give none.
fn has_links(transfers: &Transfers, links: &[Link], unused: u32) -> bool {
    transfers.links.as_slice() == links && transfers.unused == unused
}

/// Whether a file gives these walks, and so many of its rows give none.
fn gives(alloc: Global, bytes: &[u8], links: &[Link], unused: u32) -> Result<bool, FeedFault>
    requires { length bytes.now ≤ MOST_BYTES }
{
    let Some(places) = some_places(alloc) else {
        return Ok(false);
    };
    let transfers = read_transfers(alloc, bytes, &places)?;
    Ok(has_links(&transfers, links, unused))
}

/// `read_transfers`.
#[test]
fn stops_and_stations_are_linked(rt: HostRuntime) -> Result<(), Fail> {
    let walk = Link {
        origin: Place::Stop(StopNo(0)),
        target: Place::Stop(StopNo(1)),
        seconds: 60,
        changes: false,
        at: 2,
    };
    let change = Link {
        origin: Place::Station(0),
        target: Place::Station(0),
        seconds: 30,
        changes: false,
        at: 3,
    };
    let short = Link {
        origin: Place::Stop(StopNo(1)),
        target: Place::Station(0),
        seconds: 0,
        changes: false,
        at: 4,
    };
    let holds = gives(
        rt.alloc(),
        b"from_stop_id,to_stop_id,transfer_type,min_transfer_time\nA,B,2, 60 \nS,S,,30\nB,S,1,0\n",
        &[walk, change, short],
        0,
    )?;
    assert!(rt; holds);
    Ok(())
}

/// `read_transfers`.
#[test]
fn rows_without_a_walk_are_counted(rt: HostRuntime) -> Result<(), Fail> {
    let walk = Link {
        origin: Place::Stop(StopNo(0)),
        target: Place::Stop(StopNo(1)),
        seconds: 60,
        changes: false,
        at: 10,
    };
    // A forbidden change, one of a route, one of a trip, no time, no stop, equal stops, a station without stops, an
    // entrance.
    let holds = gives(
        rt.alloc(),
        b"from_stop_id,to_stop_id,transfer_type,min_transfer_time,from_route_id,to_trip_id\n\
A,B,3,60,,\nA,B,2,60,R1,\nA,Z,2,x,,T1\nA,B,2,  ,,\nA,,2,60,,\nA,A,0,60,,\nS,T,2,60,,\nE,A,2,60,,\nA,B,0,60,,\n",
        &[walk],
        8,
    )?;
    assert!(rt; holds);
    Ok(())
}

/// `read_transfers`.
#[test]
fn change_times_are_stated(rt: HostRuntime) -> Result<(), Fail> {
    let stop = Link {
        origin: Place::Stop(StopNo(0)),
        target: Place::Stop(StopNo(0)),
        seconds: 60,
        changes: true,
        at: 2,
    };
    let station = Link {
        origin: Place::Station(0),
        target: Place::Station(0),
        seconds: 4_294_967_295,
        changes: true,
        at: 3,
    };
    let ways = Link {
        seconds: 30,
        changes: false,
        at: 4,
        ..station
    };
    // a stop, a station, the same of another type, then a station without stops, an entrance, an empty type, and a
    // trip's
    let holds = gives(
        rt.alloc(),
        b"from_stop_id,to_stop_id,transfer_type,min_transfer_time,from_trip_id\n\
A,A,2,60,\nS,S,02,4294967295,\nS,S,1,30,\nT,T,2,60,\nE,E,2,60,\nA,A,,60,\nA,A,2,60,T1\n",
        &[stop, station, ways],
        4,
    )?;
    assert!(rt; holds);
    Ok(())
}

/// `read_transfers`.
#[test]
fn no_column_and_no_record_is_needed(rt: HostRuntime) -> Result<(), Fail> {
    let alloc = rt.alloc();
    assert!(rt; gives(alloc, b"", &[], 0)?);
    assert!(rt; gives(alloc, b"from_stop_id,to_stop_id\n", &[], 0)?);
    assert!(rt; gives(alloc, b"x\ny\nz\n", &[], 2)?);
    Ok(())
}
