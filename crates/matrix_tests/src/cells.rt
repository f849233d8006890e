//! Worked examples of cells and access.

ghost use Rattle.std.specs.Prelude.{◌<◌, All, IsTrue};

use crate::small_networks::{SmallNetwork, a_line, network_with, of_window, two_trips};
use rounds::{Durations, Window};
use shares::{access, access_at, cell, cells, cells_at, cells_of, cells_of_at};
use std::alloc::{AllocError, Global};
use timetable::{MOST_STOPS, StopNo};

/// So many stops, in order.
fn stops_below(alloc: Global, stops: u32) -> Result<Vec<StopNo>, AllocError> {
    let mut all = Vec::with_capacity(alloc, stops as usize)?;
    for stop in 0..stops {
        all.push(StopNo(stop))?;
    }
    Ok(all)
}

/// Whether each of some stops is one of those that durations are of.
fn are_of(found: &Durations, stops: &[StopNo]) -> bool
    ensures { IsTrue result → All (λ stop. stop.0 < found.now.stops) stops.now }
{
    stops.iter().all(|stop| stop.0 < found.stops())
}

/// Whether these are the cells of a share, also one by one.
fn are(alloc: Global, found: &Durations, share: u32, expected: &[Option<u32>]) -> bool {
    if share > 100 {
        return false;
    }
    for stop in 0..found.stops() {
        if expected.get(stop as usize).copied() != Some(cell(found, StopNo(stop), share)) {
            return false;
        }
    }
    match cells(alloc, found, share) {
        Ok(all) => all.as_slice() == expected && are_at_all(alloc, found, share, expected),
        Err(_) => false,
    }
}

/// Whether these are the cells of all stops, named as destinations.
fn are_at_all(alloc: Global, found: &Durations, share: u32, expected: &[Option<u32>]) -> bool {
    match stops_below(alloc, found.stops()) {
        Ok(stops) => are_cells_at(alloc, found, &stops, share, expected),
        Err(_) => false,
    }
}

/// Whether these are the cells of some destinations.
fn are_cells_at(
    alloc: Global,
    found: &Durations,
    destinations: &[StopNo],
    share: u32,
    expected: &[Option<u32>],
) -> bool {
    if share > 100 || !are_of(found, destinations) {
        return false;
    }
    match cells_at(alloc, found, destinations, share) {
        Ok(all) => all.as_slice() == expected,
        Err(_) => false,
    }
}

/// Whether a window from the first stop, with at most two rides, has these cells for each of some shares.
fn window_has(
    alloc: Global,
    network: &SmallNetwork,
    window: Window,
    shares: &[u32],
    expected: &[Option<u32>],
) -> bool {
    match of_window(alloc, network, 0, window, 2) {
        Ok(Some(found)) => shares
            .iter()
            .all(|share| are(alloc, &found, *share, expected)),
        _ => false,
    }
}

/// Windows of the two trips: the first second, the minutes, the share and the cells.
const TWO_TRIPS: [(u32, u32, u32, [Option<u32>; 3]); 13] = [
    // 07:58 to 08:01, where the last minute misses the trip
    (28_680, 4, 1, [Some(0), Some(600), Some(1_800)]),
    (28_680, 4, 25, [Some(0), Some(600), Some(1_800)]),
    (28_680, 4, 26, [Some(0), Some(660), Some(1_860)]),
    (28_680, 4, 50, [Some(0), Some(660), Some(1_860)]),
    (28_680, 4, 75, [Some(0), Some(720), Some(1_920)]),
    (28_680, 4, 76, [Some(0), None, None]),
    (28_680, 4, 100, [Some(0), None, None]),
    // 07:44 to 08:00
    (27_840, 17, 100, [Some(0), Some(1_560), Some(2_760)]),
    (27_840, 17, 1, [Some(0), Some(600), Some(1_800)]),
    // 07:28 to 08:00: the half of 33 minutes is 17 of them
    (26_880, 33, 50, [Some(0), Some(1_560), Some(2_760)]),
    // 08:00 alone, and 08:01 alone
    (28_800, 1, 1, [Some(0), Some(600), Some(1_800)]),
    (28_800, 1, 100, [Some(0), Some(600), Some(1_800)]),
    (28_860, 1, 1, [Some(0), None, None]),
];

/// Whether the two trips have the cells of their windows.
fn two_trips_have_theirs(alloc: Global) -> bool {
    match two_trips(alloc, 29_700, true) {
        Ok(network) => TWO_TRIPS.iter().all(|(first, minutes, share, expected)| {
            let window = Window {
                first: *first,
                minutes: *minutes,
            };
            window_has(alloc, &network, window, &[*share], expected)
        }),
        Err(_) => false,
    }
}

/// `cells`.
#[test]
fn cells_of_shares(rt: HostRuntime) {
    assert!(rt; two_trips_have_theirs(rt.alloc()));
}

/// Whether these are the lists of cells of two shares.
fn are_lists(lists: &[Vec<Option<u32>>], expected: [&[Option<u32>]; 2]) -> bool {
    lists.len() == 2 && lists[0].as_slice() == expected[0] && lists[1].as_slice() == expected[1]
}

/// Whether a window of the two trips has these cells for two shares at once: those of some destinations, or of all
/// stops.
fn has_cells_of(
    alloc: Global,
    window: Window,
    destinations: Option<&[StopNo]>,
    shares: [u32; 2],
    expected: [&[Option<u32>]; 2],
) -> bool {
    if shares[0] > 100 || shares[1] > 100 {
        return false;
    }
    let Ok(network) = two_trips(alloc, 29_700, true) else {
        return false;
    };
    let Ok(Some(found)) = of_window(alloc, &network, 0, window, 2) else {
        return false;
    };
    let lists = match destinations {
        None => cells_of(alloc, &found, &shares),
        Some(stops) if are_of(&found, stops) => cells_of_at(alloc, &found, stops, &shares),
        Some(_) => return false,
    };
    match lists {
        Ok(lists) => are_lists(&lists, expected),
        Err(_) => false,
    }
}

/// `cells_of`.
#[test]
fn cells_of_two_shares_at_once(rt: HostRuntime) {
    let four = Window {
        first: 28_680,
        minutes: 4,
    };
    let all = [StopNo(0), StopNo(1), StopNo(2)];
    let alloc = rt.alloc();
    let expected: [&[Option<u32>]; 2] = [
        &[Some(0), Some(660), Some(1_860)],
        &[Some(0), Some(720), Some(1_920)],
    ];
    assert!(rt; has_cells_of(alloc, four, None, [50, 75], expected));
    assert!(rt; has_cells_of(alloc, four, Some(&all), [50, 75], expected));
    let turned: [&[Option<u32>]; 2] = [&[Some(1_860), Some(0)], &[Some(1_920), Some(0)]];
    assert!(rt; has_cells_of(alloc, four, Some(&[StopNo(2), StopNo(0)]), [50, 75], turned));
    assert!(rt; has_cells_of(alloc, four, Some(&[]), [50, 75], [&[], &[]]));
}

/// The access of a share, from its cells as from the durations, where there are as many opportunities as stops.
fn sum_within(
    alloc: Global,
    found: &Durations,
    opportunities: &[u32],
    share: u32,
    within: u32,
) -> Option<u64> {
    if found.stops() as usize != opportunities.len() || share > 100 {
        return None;
    }
    found.known();
    let cells = cells(alloc, found, share).ok()?;
    let sum = access_at(found, opportunities, share, within);
    if cells.len() != opportunities.len() || access(&cells, opportunities, within) != sum {
        return None;
    }
    Some(sum)
}

/// From 07:58 to 08:01 the two trips' cells are 0, 600 and 1,800 for a quarter of the minutes, 0, 660 and 1,860 for
/// half of them, and 0 alone for all: the share, the opportunities, the limit and the sum.
const SUMS: [(u32, [u32; 3], u32, u64); 11] = [
    (25, [0, 10, 5], 1_800, 15),
    (25, [0, 10, 5], 1_799, 10),
    (25, [0, 10, 5], 600, 10),
    (25, [0, 10, 5], 599, 0),
    (25, [1, 1, 1], 0, 1),
    (50, [1, 1, 1], 1_800, 2),
    (50, [1, 1, 1], 1_860, 3),
    (25, [1, 1, 1], u32::MAX, 3),
    (100, [1, 1, 1], u32::MAX, 1),
    (0, [1, 1, 1], 0, 3),
    (25, [u32::MAX, u32::MAX, u32::MAX], 1_800, 12_884_901_885),
];

/// Whether the two trips have these sums.
fn two_trips_have_their_sums(alloc: Global) -> bool {
    let four = Window {
        first: 28_680,
        minutes: 4,
    };
    let Ok(network) = two_trips(alloc, 29_700, true) else {
        return false;
    };
    match of_window(alloc, &network, 0, four, 2) {
        Ok(Some(found)) => SUMS.iter().all(|(share, opportunities, within, expected)| {
            sum_within(alloc, &found, opportunities, *share, *within) == Some(*expected)
        }),
        _ => false,
    }
}

/// `access`.
#[test]
fn opportunities_within_reach(rt: HostRuntime) {
    assert!(rt; two_trips_have_their_sums(rt.alloc()));
}

/// Whether the line's stops lie two minutes apart for every share of an hour.
fn the_line_has_its_cells(alloc: Global, rides: &[Option<u32>]) -> bool {
    let hour = Window {
        first: 21_600,
        minutes: 60,
    };
    match a_line(alloc) {
        Ok(network) => window_has(alloc, &network, hour, &[1, 50, 99, 100], rides),
        Err(_) => false,
    }
}

/// `access`.
#[test]
fn an_hour_of_a_trip_every_minute(rt: HostRuntime) {
    let mut rides = [None; 20];
    for stop in 0..20u32 {
        rides[stop as usize] = Some(120 * stop);
    }
    assert!(rt; the_line_has_its_cells(rt.alloc(), &rides));
    assert!(rt; the_line_has_its_sums(rt.alloc()));
}

/// Whether eleven of the line's stops lie within 20 minutes, and ten within a second less.
fn the_line_has_its_sums(alloc: Global) -> bool {
    let hour = Window {
        first: 21_600,
        minutes: 60,
    };
    let Ok(network) = a_line(alloc) else {
        return false;
    };
    match of_window(alloc, &network, 0, hour, 2) {
        Ok(Some(found)) => {
            sum_within(alloc, &found, &[1; 20], 50, 1_200) == Some(11)
                && sum_within(alloc, &found, &[1; 20], 50, 1_199) == Some(10)
        }
        _ => false,
    }
}

/// The most stops, each a walk of 7,200 seconds from the first one.
fn far_walks(alloc: Global) -> Result<SmallNetwork, AllocError> {
    let mut walks = Vec::new(alloc);
    for stop in 1..MOST_STOPS as u32 {
        walks.push((0, stop, 7_200))?;
    }
    network_with(alloc, MOST_STOPS as u32, &walks, Vec::new(alloc))
}

/// Whether the greatest opportunities at the most stops, all but the first 7,200 seconds away, have this sum within a
/// limit.
fn greatest_sum(alloc: Global, within: u32, expected: u64) -> bool {
    let minute = Window {
        first: 28_800,
        minutes: 1,
    };
    let (Ok(network), Ok(opportunities)) = (far_walks(alloc), vec![in alloc; u32::MAX; MOST_STOPS])
    else {
        return false;
    };
    match of_window(alloc, &network, 0, minute, 1) {
        Ok(Some(found)) => sum_within(alloc, &found, &opportunities, 100, within) == Some(expected),
        _ => false,
    }
}

/// `access`.
#[test]
fn the_greatest_opportunities_at_the_most_stops(rt: HostRuntime) {
    assert!(rt; greatest_sum(rt.alloc(), 7_200, 281_470_681_677_825));
    assert!(rt; greatest_sum(rt.alloc(), 7_199, 4_294_967_295));
}
