//! `stop_times.txt`, read for the trips T1 and T2 at the stops A, B and C.

ghost use Rattle.std.specs.Prelude.{◌≤◌, length};
ghost use Rattle.table_records.specs.declared.limits.TheConstants.{MOST_BYTES};

use crate::test_identifiers::identifiers;
use std::alloc::Global;
use std::process::Abort;
use std::test::Fail;
use table_records::{FeedFault, FileName, What};
use timetable::{Event, StopNo};
use trip_events::{StopTimes, read_stop_times};

const NINE: u32 = 32_400;

fn read(alloc: Global, bytes: &[u8]) -> Result<StopTimes, FeedFault>
    requires { length bytes.now ≤ MOST_BYTES }
{
    let trips = identifiers(alloc, &[b"T1", b"T2"])?;
    let stops = identifiers(alloc, &[b"A", b"B", b"C"])?;
    if trips.len() > 2 || stops.len() > 3 {
        return Err(FeedFault::at(FileName::Stops, 0, What::TooMany));
    }
    read_stop_times(alloc, bytes, &trips, &stops)
}

fn events(times: &StopTimes, trip: usize) -> &[Event] {
    match times.trips.get(trip) {
        Some(events) => events.as_slice(),
        None => &[],
    }
}

fn event(stop: u32, arrive: u32, depart: u32) -> Event {
    Event {
        stop: StopNo(stop),
        arrive,
        depart,
        board: true,
        alight: true,
    }
}

/// Whether the two trips have these events, and so many trips are set aside.
fn has_events(times: &StopTimes, first: &[Event], second: &[Event], aside: u32) -> bool {
    times.trips.len() == 2
        && events(times, 0) == first
        && events(times, 1) == second
        && times.aside == aside
}

/// Whether a file gives the two trips these events, and sets so many trips aside.
fn gives(
    alloc: Global,
    bytes: &[u8],
    first: &[Event],
    second: &[Event],
    aside: u32,
) -> Result<bool, FeedFault>
    requires { length bytes.now ≤ MOST_BYTES }
{
    let times = read(alloc, bytes)?;
    Ok(has_events(&times, first, second, aside))
}

/// The fault of a file, none where it has none.
fn fault_of(alloc: Global, bytes: &[u8]) -> Option<FeedFault>
    requires { length bytes.now ≤ MOST_BYTES }
{
    read(alloc, bytes).err()
}

/// A file is refused for this fault.
fn expect_fault(rt: &impl Abort, alloc: Global, bytes: &'static [u8], at: u64, what: What)
    requires { length bytes.now ≤ MOST_BYTES }
{
    let fault = fault_of(alloc, bytes);
    assert_eq!(rt; fault, Some(FeedFault::at(FileName::StopTimes, at, what)));
}

/// `read_stop_times`.
#[test]
fn times_between_timed_events(rt: HostRuntime) -> Result<(), Fail> {
    let expected = [
        event(0, NINE, NINE),
        event(1, NINE + 300, NINE + 300),
        event(2, NINE + 600, NINE + 600),
    ];
    let holds = gives(
        rt.alloc(),
        b"trip_id,stop_id,stop_sequence,arrival_time,departure_time
T1,A,1,09:00:00,09:00:00
T1,B,2,,
T1,C,3,09:10:00,09:10:00
",
        &expected,
        &[],
        0,
    )?;
    assert!(rt; holds);
    Ok(())
}

/// `read_stop_times`.
#[test]
fn times_between_are_rounded_down(rt: HostRuntime) -> Result<(), Fail> {
    let expected = [
        event(0, NINE - 60, NINE),
        event(1, NINE + 3, NINE + 3),
        event(1, NINE + 6, NINE + 6),
        event(2, NINE + 10, NINE + 20),
    ];
    let holds = gives(
        rt.alloc(),
        b"trip_id,stop_id,stop_sequence,arrival_time,departure_time
T2,C,40,09:00:10,09:00:20
T2,A,10,08:59:00,09:00:00
T2,B,30,,
T2,B,20,  ,
",
        &[],
        &expected,
        0,
    )?;
    assert!(rt; holds);
    Ok(())
}

/// `read_stop_times`.
#[test]
fn one_time_gives_the_other(rt: HostRuntime) -> Result<(), Fail> {
    let expected = [
        event(0, NINE, NINE),
        event(1, NINE + 60, NINE + 60),
        event(2, NINE + 120, NINE + 180),
    ];
    let both = gives(
        rt.alloc(),
        b"trip_id,stop_id,stop_sequence,arrival_time,departure_time
T1,A,1,,09:00:00
T1,B,2,09:01:00
T1,C,3, 9:02:00 ,09:03:00
",
        &expected,
        &[],
        0,
    )?;
    assert!(rt; both);
    let departure = gives(
        rt.alloc(),
        b"departure_time,trip_id,stop_id,stop_sequence\n09:00:00,T1,A,1\n",
        &[event(0, NINE, NINE)],
        &[],
        0,
    )?;
    assert!(rt; departure);
    Ok(())
}

/// `read_stop_times`.
#[test]
fn one_forbids_boarding_and_alighting(rt: HostRuntime) -> Result<(), Fail> {
    let mut expected = [event(0, NINE, NINE); 5];
    expected[0].board = false;
    expected[1].board = false;
    expected[2].alight = false;
    expected[3].alight = false;
    let holds = gives(
        rt.alloc(),
        b"trip_id,stop_id,stop_sequence,arrival_time,pickup_type,drop_off_type
T1,A,1,09:00:00,1,0
T1,A,2,09:00:00,01,2
T1,A,3,09:00:00,,1
T1,A,4,09:00:00,3, 001 
T1,A,5,09:00:00, ,4294967295
",
        &expected,
        &[],
        0,
    )?;
    assert!(rt; holds);
    Ok(())
}

/// `read_stop_times`.
#[test]
fn trips_set_aside(rt: HostRuntime) -> Result<(), Fail> {
    let alloc = rt.alloc();
    let one = gives(
        alloc,
        b"trip_id,stop_id,stop_sequence,arrival_time\nT1,A,1,\nT1,,2,09:00:00\nT1,B,3,08:00:00\nT2,B,1,09:00:00\n",
        &[],
        &[event(1, NINE, NINE)],
        1,
    )?;
    assert!(rt; one);
    expect_fault(
        &rt,
        alloc,
        b"trip_id,stop_id,stop_sequence,arrival_time\nT1,,2,09:00:00\nT1,A,002,\n",
        3,
        What::DuplicateId,
    );
    expect_fault(
        &rt,
        alloc,
        b"trip_id,stop_id,stop_sequence,arrival_time\nT1, ,2,09:00:00\n",
        2,
        What::UnknownStop,
    );
    Ok(())
}

/// `read_stop_times`.
#[test]
fn leading_zeros(rt: HostRuntime) -> Result<(), Fail> {
    let alloc = rt.alloc();
    let mut expected = [event(0, NINE, NINE), event(1, NINE, NINE)];
    expected[1].board = false;
    let holds = gives(
        alloc,
        b"trip_id,stop_id,stop_sequence,arrival_time,pickup_type
T1,B,00000000000000000000000000000000000000004294967295,09:00:00,00000000000000000000000000000000000000001
T1,A,00000000000000000000000000000000000000002,09:00:00,
",
        &expected,
        &[],
        0,
    )?;
    assert!(rt; holds);
    expect_fault(
        &rt,
        alloc,
        b"trip_id,stop_id,stop_sequence,arrival_time\nT1,B,4294967296,09:00:00\n",
        2,
        What::BadNumber,
    );
    Ok(())
}
