//! `service_days`, `footpaths` and `scenarios`, over the feed.

use crate::small_feeds::feed;
use footpaths::{Direct, FootFault, close, direct, limit_fits};
use gtfs_tables::{Feed, FeedFault, read_date};
use scenarios::{Scenario, ScenarioFault, ScenarioWhat, base, network_of, read_scenario};
use service_days::{DayFault, Run, active, runs};
use std::alloc::Global;
use timetable::{Feet, NetFault, Network, StopNo};

/// The runs of a Monday.
fn runs_of(alloc: Global, feed: &Feed) -> Option<Vec<Run>> {
    let monday = read_date(b"20260504")?;
    let listed: Result<Vec<Run>, DayFault> = active(alloc, feed, monday, 0, 0);
    listed.ok()
}

/// Whether there are two runs on a Monday, each with its shift.
fn lists_its_runs(alloc: Global, feed: &Feed) -> bool {
    let Some(tuesday) = read_date(b"20260512") else {
        return false;
    };
    if feed.service_count() != 1 || runs(feed, 0, tuesday) {
        return false;
    }
    let Some(list) = runs_of(alloc, feed) else {
        return false;
    };
    let shifts: [i64; 2] = [0, 1_800];
    list.len() == 2
        && list
            .iter()
            .zip(shifts.iter())
            .all(|(run, shift)| run.trip == 0 && run.shift == *shift)
}

/// `runs`, `active`.
#[test]
fn days(rt: HostRuntime) {
    match feed(rt.alloc()) {
        Some(feed) => assert!(rt; lists_its_runs(rt.alloc(), &feed)),
        None => assert!(rt; false),
    }
}

/// The direct footpaths, with one from C to A.
fn direct_of(alloc: Global, feed: &Feed) -> Option<Direct> {
    let own = b"from_stop_id,to_stop_id,seconds\nC,A,30\n";
    let found: Result<Direct, FeedFault> = direct(alloc, feed, Some(own));
    found.ok()
}

/// The closed footpaths.
fn feet_of(alloc: Global, direct: &Direct) -> Option<Feet> {
    let limit = 120;
    if !limit_fits(limit) {
        return None;
    }
    let closed: Result<Feet, FootFault> = close(alloc, direct, limit);
    closed.ok()
}

/// Whether there are three direct footpaths, one change time, and a chain.
fn lists_its_walks(alloc: Global, feed: &Feed) -> bool {
    let Some(direct) = direct_of(alloc, feed) else {
        return false;
    };
    let pairs: &[(StopNo, StopNo, u32)] = direct.pairs();
    let changes: &[u32] = direct.changes();
    let are_listed = changes == [0, 120, 0].as_slice()
        && pairs
            == [
                (StopNo(0), StopNo(1), 60),
                (StopNo(0), StopNo(2), 60),
                (StopNo(2), StopNo(0), 30),
            ]
            .as_slice();
    match feet_of(alloc, &direct) {
        Some(feet) => {
            are_listed && feet.stops() == 3 && feet.seconds(StopNo(2), StopNo(1)) == Some(90)
        }
        None => false,
    }
}

/// `direct`, `Direct::pairs`, `Direct::changes`, `limit_fits`, `close`.
#[test]
fn walks(rt: HostRuntime) {
    match feed(rt.alloc()) {
        Some(feed) => assert!(rt; lists_its_walks(rt.alloc(), &feed)),
        None => assert!(rt; false),
    }
}

/// The network of a scenario on a Monday; out of memory stands for a feed without runs, too.
fn made_of(
    alloc: Global,
    feed: &Feed,
    scenario: &Scenario,
    feet: &Feet,
) -> Result<Network, NetFault> {
    if feet.stops() != feed.stop_count() {
        return Err(NetFault::Memory);
    }
    let Some(monday) = read_date(b"20260504") else {
        return Err(NetFault::Memory);
    };
    match active(alloc, feed, monday, 0, 0) {
        Ok(list) => network_of(alloc, feed, scenario, &list, feet),
        Err(_) => Err(NetFault::Memory),
    }
}

/// How many trips the network of a scenario has on a Monday, and when the first leaves.
fn first_departure(alloc: Global, feed: &Feed, scenario: &Scenario) -> Option<(usize, u32)> {
    let direct = direct_of(alloc, feed)?;
    let feet = feet_of(alloc, &direct)?;
    drop(direct);
    let made: Result<Network, NetFault> = made_of(alloc, feed, scenario, &feet);
    match made {
        Ok(network) => {
            let trips = network.trips();
            let first = trips.first()?;
            Some((trips.len(), first.events.as_slice().first()?.depart))
        }
        Err(_) => None,
    }
}

/// Whether a scenario shifts the first trip, removes the second, and has its name.
fn reads_its_edits(alloc: Global, feed: &Feed) -> bool {
    let edits = b"action,id,seconds\nshift_trip,T1,60\nremove_trip,T2,\n";
    let read: Result<Scenario, ScenarioFault> = read_scenario(alloc, b"late", edits, feed);
    let Ok(late) = read else {
        return false;
    };
    let shift: i64 = late.shift(0);
    if feed.trip_count() != 2 || late.name() != b"late".as_slice() || shift != 60 {
        return false;
    }
    let kept = (late.keeps(feed, 0), late.keeps(feed, 1));
    kept == (true, false) && first_departure(alloc, feed, &late) == Some((2, 28_860))
}

/// Whether the base keeps each trip, and a wrong edit is refused where it stands.
fn has_its_base(alloc: Global, feed: &Feed) -> bool {
    let plain: Scenario = base(alloc);
    let wrong = b"action,id\nremove_trip,T9\n";
    let unknown = ScenarioFault {
        at: 2,
        what: ScenarioWhat::UnknownTrip,
    };
    let is_refused = match read_scenario(alloc, b"wrong", wrong, feed) {
        Ok(_) => false,
        Err(fault) => fault == unknown,
    };
    is_refused
        && plain.name() == b"base".as_slice()
        && first_departure(alloc, feed, &plain) == Some((2, 28_800))
}

/// `read_scenario`, `base`, `Scenario::keeps`, `shift`, `name`, `network_of`.
#[test]
fn edits(rt: HostRuntime) {
    match feed(rt.alloc()) {
        Some(feed) => {
            assert!(rt; reads_its_edits(rt.alloc(), &feed));
            assert!(rt; has_its_base(rt.alloc(), &feed));
        }
        None => assert!(rt; false),
    }
}
