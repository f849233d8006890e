//! Scenarios that are read from files, over the feed of the other tests: trips T1 and T0 on route R1, T2 on route R2.

use crate::scenario_networks::mondays;
use crate::small_feeds::feed_in;
use gtfs_tables::{Feed, FeedBytes, MOST_BYTES};
use scenarios::{Scenario, ScenarioFault, ScenarioWhat, read_scenario};
use std::alloc::{AllocError, Global};
use std::process::Abort;
use std::test::Fail;

/// The feed where T1 departs at 00:10:00, 00:20:00 and 00:30:00, in two rows.
fn with_departures() -> FeedBytes<'static> {
    FeedBytes {
        frequencies: Some(
            b"trip_id,start_time,end_time,headway_secs\nT1,00:20:00,00:30:01,600\nT1,00:10:00,00:10:01,60\n",
        ),
        ..mondays()
    }
}

/// The scenario of a file over a feed, none where the file is refused.
fn scenario_over(alloc: Global, feed: &Feed, bytes: &[u8]) -> Option<Scenario> {
    if bytes.len() > MOST_BYTES {
        return None;
    }
    read_scenario(alloc, b"case", bytes, feed).ok()
}

/// Whether a scenario removes the second of three trips, and it alone.
fn removes_second_trip(scenario: &Scenario, feed: &Feed) -> bool {
    scenario.name() == b"case".as_slice()
        && feed.trip_count() == 3
        && scenario.keeps(feed, 0)
        && !scenario.keeps(feed, 1)
        && scenario.keeps(feed, 2)
        && scenario.shift(1) == 0
}

fn cuts_second_trip(alloc: Global, feed: &Feed) -> bool {
    match scenario_over(alloc, feed, b"action,id,seconds\nremove_route,R2,\n") {
        Some(cut) => removes_second_trip(&cut, feed),
        None => false,
    }
}

/// `read_scenario`, `FeedBytes::fits`.
#[test]
fn a_removed_route_loses_its_trips(rt: HostRuntime) {
    assert!(rt; gives(rt.alloc(), mondays(), Expected::Cut));
}

/// Whether a scenario keeps the first two of three trips.
fn keeps_two_trips(scenario: &Scenario, feed: &Feed) -> bool {
    feed.trip_count() == 3 && scenario.keeps(feed, 0) && scenario.keeps(feed, 1)
}

/// Whether a scenario shifts the first trip alone, by five minutes.
fn shifts_first_trip(scenario: &Scenario) -> bool {
    scenario.shift(0) == 300 && scenario.shift(1) == 0
}

fn delays_first_trip(alloc: Global, feed: &Feed) -> bool {
    match scenario_over(alloc, feed, b"action,id,seconds\nshift_trip,T1,300\n") {
        Some(late) => keeps_two_trips(&late, feed) && shifts_first_trip(&late),
        None => false,
    }
}

/// `read_scenario`.
#[test]
fn a_shifted_trip_runs_later(rt: HostRuntime) {
    assert!(rt; gives(rt.alloc(), mondays(), Expected::Delay));
}

/// By how many seconds a file over the feed shifts the trip with a number; none where the file is refused.
fn shift_over(alloc: Global, feed: &Feed, bytes: &[u8], trip: u32) -> Option<i64> {
    match scenario_over(alloc, feed, bytes) {
        Some(scenario) => Some(scenario.shift(trip)),
        None => None,
    }
}

const SHIFTS: &[u8] = b"seconds,id,action,id
 +300,T1,shift_trip,T2
-0100 ,T1,shift_trip
7,T2,shift_trip
x,T0,remove_trip
20,T1,shift_trip
";

/// `read_scenario`.
#[test]
fn shifts_of_a_trip_add_up(rt: HostRuntime) {
    expect_shift_of(&rt, rt.alloc(), SHIFTS, 0, 220);
    expect_shift_of(&rt, rt.alloc(), SHIFTS, 1, 7);
    expect_shift_of(&rt, rt.alloc(), SHIFTS, 2, 0);
}

/// The fault of a file over a feed, none where the file is accepted.
fn fault_over(alloc: Global, feed: &Feed, bytes: &[u8]) -> Option<ScenarioFault> {
    if bytes.len() > MOST_BYTES {
        return None;
    }
    read_scenario(alloc, b"case", bytes, feed).err()
}

/// What a test expects of a scenario file over a feed.
#[derive(Clone, Copy)]
enum Expected<'a> {
    Cut,
    Delay,
    Shift(&'a [u8], u32, i64),
    Accepted(&'a [u8]),
    Fault(&'a [u8], ScenarioFault),
}

fn is_as_expected(alloc: Global, feed: &Feed, expected: Expected<'_>) -> bool {
    match expected {
        Expected::Cut => cuts_second_trip(alloc, feed),
        Expected::Delay => delays_first_trip(alloc, feed),
        Expected::Shift(bytes, trip, shift) => shift_over(alloc, feed, bytes, trip) == Some(shift),
        Expected::Accepted(bytes) => shift_over(alloc, feed, bytes, 0).is_some(),
        Expected::Fault(bytes, fault) => fault_over(alloc, feed, bytes) == Some(fault),
    }
}

/// Whether the files are read, and a scenario file over their feed is as expected. One function owns the feeds of all
/// tests, so that the drop of one is proved once.
fn gives(alloc: Global, files: FeedBytes<'static>, expected: Expected<'_>) -> bool {
    match feed_in(alloc, files) {
        Some(feed) => is_as_expected(alloc, &feed, expected),
        None => false,
    }
}

/// A file is accepted, and shifts the trip with a number by so many seconds.
fn expect_shift_of(rt: &impl Abort, alloc: Global, bytes: &[u8], trip: u32, shift: i64) {
    assert!(rt; gives(alloc, mondays(), Expected::Shift(bytes, trip, shift)));
}

/// A file is refused at a record.
fn expect_refusal(rt: &impl Abort, alloc: Global, bytes: &[u8], at: u64, what: ScenarioWhat) {
    let fault = ScenarioFault { at, what };
    assert!(rt; gives(alloc, mondays(), Expected::Fault(bytes, fault)));
}

/// A file is refused at a record, where T1 has departures.
fn expect_refusal_of_departures(
    rt: &impl Abort,
    alloc: Global,
    bytes: &[u8],
    at: u64,
    what: ScenarioWhat,
) {
    let fault = ScenarioFault { at, what };
    assert!(rt; gives(alloc, with_departures(), Expected::Fault(bytes, fault)));
}

/// `read_scenario`.
#[test]
fn the_first_bad_record_is_told(rt: HostRuntime) {
    expect_refusal(&rt, rt.alloc(), b"", 1, ScenarioWhat::MissingColumn);
    expect_refusal(
        &rt,
        rt.alloc(),
        b"action,seconds\nstop_trip,1\n",
        1,
        ScenarioWhat::MissingColumn,
    );
    expect_refusal(
        &rt,
        rt.alloc(),
        b"action,id\nstop_trip,T1\n",
        2,
        ScenarioWhat::UnknownAction,
    );
    expect_refusal(
        &rt,
        rt.alloc(),
        b"action,id\n remove_trip,T1\n",
        2,
        ScenarioWhat::UnknownAction,
    );
    expect_refusal(
        &rt,
        rt.alloc(),
        b"action,id\nremove_trip,T1\nremove_route,R3\n",
        3,
        ScenarioWhat::UnknownRoute,
    );
    expect_refusal(
        &rt,
        rt.alloc(),
        b"action,id\nremove_trip,T9\n",
        2,
        ScenarioWhat::UnknownTrip,
    );
}

/// `read_scenario`.
#[test]
fn the_checks_of_a_record_go_in_order(rt: HostRuntime) {
    expect_refusal(
        &rt,
        rt.alloc(),
        b"action,id,seconds\nshift_trip,T9,300\n",
        2,
        ScenarioWhat::UnknownTrip,
    );
    expect_refusal(
        &rt,
        rt.alloc(),
        b"action,id,seconds\nshift_trip,T9,x\n",
        2,
        ScenarioWhat::UnknownTrip,
    );
    expect_refusal(
        &rt,
        rt.alloc(),
        b"action,id,seconds\nshift_trip,T1,604800\n",
        2,
        ScenarioWhat::BadNumber,
    );
    expect_refusal(
        &rt,
        rt.alloc(),
        b"action,id,seconds\nshift_trip,T1,- 5\n",
        2,
        ScenarioWhat::BadNumber,
    );
    expect_refusal(
        &rt,
        rt.alloc(),
        b"action,id\nremove_trip,T1\nshift_trip,T1\nstop_trip,T1\n",
        3,
        ScenarioWhat::BadNumber,
    );
}

/// `read_scenario`.
#[test]
fn a_trip_is_not_shifted_out_of_its_times(rt: HostRuntime) {
    expect_refusal(
        &rt,
        rt.alloc(),
        b"action,id,seconds\nshift_trip,T1,-30000\n",
        2,
        ScenarioWhat::ShiftOutOfRange,
    );
    expect_refusal(
        &rt,
        rt.alloc(),
        b"action,id,seconds\nremove_route,R1\nshift_trip,T1,-30000\n",
        3,
        ScenarioWhat::ShiftOutOfRange,
    );
    expect_refusal(
        &rt,
        rt.alloc(),
        b"action,id,seconds\nshift_trip,T1,-20000\nremove_trip,T2\nshift_trip,T1,-8681\nshift_trip,T2,1\n",
        4,
        ScenarioWhat::ShiftOutOfRange,
    );
    expect_refusal(
        &rt,
        rt.alloc(),
        b"action,id,seconds\nshift_trip,T1,-30000\nshift_trip,T2,-30000\nshift_trip,T1,-1\n",
        3,
        ScenarioWhat::ShiftOutOfRange,
    );
    expect_refusal(
        &rt,
        rt.alloc(),
        b"action,id,seconds\nshift_trip,T1,604799\nshift_trip,T1,604799\nshift_trip,T1,604799\nshift_trip,T1,156143\n",
        5,
        ScenarioWhat::ShiftOutOfRange,
    );
}

/// `read_scenario`.
#[test]
fn a_trip_may_be_shifted_to_the_ends_of_its_times(rt: HostRuntime) {
    expect_shift_of(
        &rt,
        rt.alloc(),
        b"action,id,seconds\nshift_trip,T1,-28680\n",
        0,
        -28_680,
    );
    expect_shift_of(
        &rt,
        rt.alloc(),
        b"action,id,seconds\nshift_trip,T1,-600000\nshift_trip,T1,+600000\n",
        0,
        0,
    );
    expect_shift_of(
        &rt,
        rt.alloc(),
        b"action,id,seconds\nshift_trip,T1,604799\nshift_trip,T1,604799\nshift_trip,T1,604799\nshift_trip,T1,156142\n",
        0,
        1_970_539,
    );
}

/// `read_scenario`.
#[test]
fn departures_are_not_shifted_out_of_their_times(rt: HostRuntime) {
    let first = b"action,id,seconds\nshift_trip,T1,-600\n";
    assert!(rt; gives(rt.alloc(), with_departures(), Expected::Accepted(first)));
    expect_refusal_of_departures(
        &rt,
        rt.alloc(),
        b"action,id,seconds\nshift_trip,T1,-601\n",
        2,
        ScenarioWhat::ShiftOutOfRange,
    );
    let last =
        b"action,id,seconds\nshift_trip,T1,604799\nshift_trip,T1,604799\nshift_trip,T1,604799\nshift_trip,T1,183142\n";
    assert!(rt; gives(rt.alloc(), with_departures(), Expected::Accepted(last)));
    expect_refusal_of_departures(
        &rt,
        rt.alloc(),
        b"action,id,seconds\nshift_trip,T1,604799\nshift_trip,T1,604799\nshift_trip,T1,604799\nshift_trip,T1,183143\n",
        5,
        ScenarioWhat::ShiftOutOfRange,
    );
}

/// A file of a hundred thousand records, and what follows them.
fn many_records(alloc: Global, rest: &[u8]) -> Result<Vec<u8>, AllocError> {
    let mut bytes = Vec::from_slice(alloc, b"action,id,seconds\n")?;
    for _ in 0..50_000 {
        bytes.extend_from_slice(b"shift_trip,T1,2\nshift_trip,T1,-1\n")?;
    }
    bytes.extend_from_slice(rest)?;
    Ok(bytes)
}

/// `read_scenario`.
#[test]
fn a_hundred_thousand_records_are_read(rt: HostRuntime) -> Result<(), Fail> {
    let most = many_records(rt.alloc(), b"")?;
    assert!(rt; gives(rt.alloc(), mondays(), Expected::Accepted(&most)));
    let more = many_records(rt.alloc(), b"stop_trip,T1,2\n")?;
    expect_refusal(&rt, rt.alloc(), &more, 100_002, ScenarioWhat::TooMany);
    Ok(())
}
