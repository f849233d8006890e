//! Worked examples of durations at the horizon of narrow labels and past it, and of windows that are no whole batches.
//!
//! Narrow labels count from a second before a batch's first departure, and tell 65,534 seconds from there: so a batch
//! that begins at 07:00:00 (25,200) counts from 25,199, and its horizon is 90,734 (01:12:14 on the next day).

use crate::small_networks::{
    SmallNetwork, at, is_minute, network_changing, network_of, network_with, of_window, trip_of,
    two_trips,
};
use rounds::{Durations, Search, Window};
use std::alloc::{AllocError, Global};
use std::test::Fail;
use timetable::{NEVER, StopNo};

/// From stop 0 at 08:00:00 to 1 at 08:10:00, and from 1 at 08:15:00 to 2 at this second.
fn arriving(alloc: Global, arrive: u32) -> Result<SmallNetwork, AllocError> {
    let first = [at(0, 28_800, 28_800), at(1, 29_400, 29_400)];
    let second = [at(1, 29_700, 29_700), at(2, arrive, arrive)];
    network_of(alloc, 3, &[], &[&first, &second])
}

/// Nine trips between ten stops, one after another: from stop n at 07:00:00 and n steps to n + 1, in a step less 100
/// seconds.
fn chain(alloc: Global, step: u32) -> Result<SmallNetwork, AllocError> {
    let mut trips = Vec::with_capacity(alloc, 9)?;
    for n in 0..9u32 {
        let leave = step.saturating_mul(n).saturating_add(25_200);
        let arrive = leave.saturating_add(step).saturating_sub(100);
        trips.push(trip_of(alloc, &[at(n, leave, leave), at(n + 1, arrive, arrive)])?)?;
    }
    network_with(alloc, 10, &[], trips)
}

/// Whether these are the durations to each stop of a single departure, with `NEVER` for none.
fn finds(
    alloc: Global,
    network: &SmallNetwork,
    origin: u32,
    first: u32,
    rides: u32,
    expected: &[u32],
) -> Result<bool, AllocError> {
    let window = Window { first, minutes: 1 };
    let found = of_window(alloc, network, origin, window, rides)?;
    Ok(match &found {
        Some(found) => is_minute(found, 0, expected),
        None => false,
    })
}

/// Whether the durations to a stop begin with this one, are 60 less with each minute for so many, and then none.
fn counts_down(found: &Durations, stop: u32, from: u32, caught: u32) -> bool {
    if stop >= found.stops() {
        return false;
    }
    for minute in 0..found.minutes() {
        let left = from.saturating_sub(minute.saturating_mul(60));
        let expected = if minute < caught { Some(left) } else { None };
        if found.at(StopNo(stop), minute) != expected {
            return false;
        }
    }
    true
}

/// Whether that is so from stop 0, of the durations to stops 1 and 2.
fn both_count_down(
    alloc: Global,
    network: &SmallNetwork,
    window: Window,
    [to_1, to_2]: [u32; 2],
    caught: u32,
) -> Result<bool, AllocError> {
    let found = of_window(alloc, network, 0, window, 2)?;
    Ok(match &found {
        Some(found) => {
            counts_down(found, 1, to_1, caught) && counts_down(found, 2, to_2, caught)
        }
        None => false,
    })
}

// 27:00:00 is 97,200: 72,000 after 07:00, 68,400 after 08:00, and 68,401 after the base of a batch that begins then.
/// `Search::durations`, `Search::new`, `Durations::minutes`, `Durations::stops`.
#[test]
fn stops_are_reached_the_next_day(rt: HostRuntime) -> Result<(), Fail> {
    let alloc = rt.alloc();
    let network = arriving(alloc, 97_200)?;
    for (origin, first, rides, expected) in &[
        (0, 25_200, 2, [0, 4_200, 72_000]),
        (0, 28_800, 2, [0, 600, 68_400]),
        (0, 28_800, 1, [0, 600, NEVER]),
        (0, 28_801, 2, [0, NEVER, NEVER]),
        (1, 29_700, 1, [NEVER, 0, 67_500]),
        (2, 28_800, 8, [NEVER, NEVER, 0]),
    ] {
        assert!(rt;
            finds(
                alloc,
                &network,
                *origin,
                *first,
                *rides,
                expected.as_slice()
            )?,
            "from {origin} at {first}, rides {rides}"
        );
    }
    Ok(())
}

// At 07:00 the base is 25,199: 90,733 is 65,534 after it, the last time that a label tells, and 90,734 is 65,535.
/// `Search::durations`.
#[test]
fn a_ride_ends_at_the_horizon(rt: HostRuntime) -> Result<(), Fail> {
    let alloc = rt.alloc();
    for (arrive, to_2) in &[
        (90_732, 65_532),
        (90_733, 65_533),
        (90_734, 65_534),
        (90_735, 65_535),
        (90_736, 65_536),
    ] {
        let network = arriving(alloc, *arrive)?;
        assert!(rt;
            finds(alloc, &network, 0, 25_200, 2, &[0, 4_200, *to_2])?,
            "at {arrive}"
        );
        assert!(rt;
            finds(alloc, &network, 0, 25_200, 1, &[0, 4_200, NEVER])?,
            "at {arrive}, one ride"
        );
    }
    Ok(())
}

// Walks from stop 2, which is reached at 90,700, 65,501 after the base, to 3.
/// `Search::durations`.
#[test]
fn a_walk_ends_at_the_horizon(rt: HostRuntime) -> Result<(), Fail> {
    let alloc = rt.alloc();
    let ride = [at(0, 28_800, 28_800), at(2, 90_700, 90_700)];
    for (seconds, to_3) in &[(33, 65_533), (34, 65_534), (35, 65_535), (7_200, 72_700)] {
        let network = network_of(alloc, 4, &[(2, 3, *seconds)], &[&ride])?;
        assert!(rt;
            finds(alloc, &network, 0, 25_200, 1, &[0, NEVER, 65_500, *to_3])?,
            "a walk of {seconds}"
        );
    }
    Ok(())
}

// Who comes to stop 1 at 29,400 and changes there in 70,000 seconds is ready at 99,400, past the horizon. What leaves a
// second earlier is past it too, and nobody catches that.
/// `Search::durations`.
#[test]
fn a_change_ends_past_the_horizon(rt: HostRuntime) -> Result<(), Fail> {
    let alloc = rt.alloc();
    let first = [at(0, 28_800, 28_800), at(1, 29_400, 29_400)];
    for (leave, to_2) in &[(99_399, NEVER), (99_400, 74_300), (99_401, 74_300)] {
        let second = [at(1, *leave, *leave), at(2, 99_500, 99_500)];
        let network = network_changing(alloc, &[0, 70_000, 0], &[], &[&first, &second])?;
        assert!(rt;
            finds(alloc, &network, 0, 25_200, 2, &[0, 4_200, *to_2])?,
            "leave {leave}"
        );
    }
    Ok(())
}

// From stop 0 at 08:00 to 1 at 08:10, and at 27:00 (97,200) to 1 at 27:10 (97,800). A window of 32 minutes from 07:45
// (27,900) is one batch, of which sixteen departures catch the first trip, and sixteen have to wait for the second: of
// these the first is 08:01 (28,860), and 97,800 is 68,940 later.
/// `Search::durations`.
#[test]
fn some_lanes_wait_for_the_next_day(rt: HostRuntime) -> Result<(), Fail> {
    let alloc = rt.alloc();
    let today = [at(0, 28_800, 28_800), at(1, 29_400, 29_400)];
    let tomorrow = [at(0, 97_200, 97_200), at(1, 97_800, 97_800)];
    let network = network_of(alloc, 2, &[], &[&today, &tomorrow])?;
    let window = Window {
        first: 27_900,
        minutes: 32,
    };
    let found = of_window(alloc, &network, 0, window, 1)?;
    for (minute, to_1) in &[(0, 1_500), (15, 600), (16, 68_940), (31, 68_040)] {
        assert!(rt;
            match &found {
                Some(found) => is_minute(found, *minute, &[0, *to_1]),
                None => false,
            },
            "minute {minute}"
        );
    }
    Ok(())
}

// The trips of 08:00 (28,800) and 08:15 come to stop 1 at 29,400 and to 2 at 30,600. 07:28 is 26,880, and 08:00 the
// 33rd minute from there: the one living lane of the second batch. 06:56 is 24,960, and 08:00 the 65th minute.
/// `Search::durations`.
#[test]
fn windows_are_no_whole_batches(rt: HostRuntime) -> Result<(), Fail> {
    let alloc = rt.alloc();
    let network = two_trips(alloc, 29_700, true)?;
    for (first, minutes, caught, expected) in &[
        (28_800, 1, 1, [600, 1_800]),
        (28_860, 1, 0, [0, 0]),
        (26_880, 31, 31, [2_520, 3_720]),
        (26_880, 32, 32, [2_520, 3_720]),
        (26_880, 33, 33, [2_520, 3_720]),
        (26_880, 34, 33, [2_520, 3_720]),
        (26_940, 33, 32, [2_460, 3_660]),
        (27_000, 33, 31, [2_400, 3_600]),
        (24_960, 65, 65, [4_440, 5_640]),
        (25_020, 65, 64, [4_380, 5_580]),
    ] {
        let window = Window {
            first: *first,
            minutes: *minutes,
        };
        assert!(rt;
            both_count_down(alloc, &network, window, *expected, *caught)?,
            "{minutes} minutes from {first}"
        );
    }
    Ok(())
}

// 33 minutes from 07:28 (26,880) are a batch with its horizon at 92,414, and one with its horizon at 94,334: both tell
// 92,413, the second alone tells what comes then and before 94,334, and neither tells that.
/// `Search::durations`.
#[test]
fn each_batch_has_its_own_horizon(rt: HostRuntime) -> Result<(), Fail> {
    let alloc = rt.alloc();
    let window = Window {
        first: 26_880,
        minutes: 33,
    };
    for (arrive, to_2) in &[
        (92_413, 65_533),
        (92_414, 65_534),
        (94_333, 67_453),
        (94_334, 67_454),
    ] {
        let network = arriving(alloc, *arrive)?;
        assert!(rt;
            both_count_down(alloc, &network, window, [2_520, *to_2], 33)?,
            "at {arrive}"
        );
    }
    Ok(())
}

// For 00:00:00 labels count from 0, and for a second later too: so 65,534 is the last second that they tell. What
// leaves at 0 is caught at 0 alone.
/// `Search::durations`.
#[test]
fn windows_begin_at_midnight(rt: HostRuntime) -> Result<(), Fail> {
    let alloc = rt.alloc();
    let at_once = [at(0, 0, 0), at(1, 0, 0)];
    for (arrive, first, expected) in &[
        (60, 0, [0, 0, 60]),
        (60, 1, [0, NEVER, 59]),
        (60, 20, [0, NEVER, 40]),
        (60, 21, [0, NEVER, NEVER]),
        (65_534, 0, [0, 0, 65_534]),
        (65_535, 0, [0, 0, 65_535]),
        (65_536, 0, [0, 0, 65_536]),
        (65_534, 1, [0, NEVER, 65_533]),
        (65_535, 1, [0, NEVER, 65_534]),
    ] {
        let later = [at(0, 20, 20), at(2, *arrive, *arrive)];
        let network = network_of(alloc, 3, &[], &[&at_once, &later])?;
        assert!(rt;
            finds(alloc, &network, 0, *first, 1, expected.as_slice())?,
            "arrive {arrive}, from {first}"
        );
    }
    Ok(())
}

// Stop n is reached by n rides, n steps less 100 seconds after 07:00: with steps of 9,000 seconds the eighth in 71,900,
// past the horizon, and the seventh in 62,900.
/// `Search::durations`.
#[test]
fn eight_rides_and_no_more(rt: HostRuntime) -> Result<(), Fail> {
    let alloc = rt.alloc();
    let near = [0, 800, 1_700, 2_600, 3_500, 4_400, 5_300, 6_200, 7_100];
    let far = [
        0, 8_900, 17_900, 26_900, 35_900, 44_900, 53_900, 62_900, 71_900,
    ];
    for (step, rides, first, eighth) in &[
        (900, 8, near, 7_100),
        (900, 7, near, NEVER),
        (9_000, 8, far, 71_900),
        (9_000, 7, far, NEVER),
    ] {
        let network = chain(alloc, *step)?;
        let mut expected = [NEVER; 10];
        for stop in 0..8 {
            expected[stop] = first[stop];
        }
        expected[8] = *eighth;
        assert!(rt;
            finds(alloc, &network, 0, 25_200, *rides, &expected)?,
            "a step of {step}, rides {rides}"
        );
    }
    Ok(())
}

/// Whether a search finds these durations for 07:00 and eight rides, with `NEVER` for none.
fn search_finds(
    alloc: Global,
    search: &mut Search,
    network: &SmallNetwork,
    origin: u32,
    expected: &[u32],
) -> Result<bool, AllocError> {
    let window = Window {
        first: 25_200,
        minutes: 1,
    };
    if let Some(network) = network
        && origin < network.stops()
        && window.fits()
    {
        let found = search.durations(alloc, network, StopNo(origin), window, 8)?;
        return Ok(is_minute(&found, 0, expected));
    }
    Ok(false)
}

/// Whether a search finds the durations of the next day.
fn finds_tomorrow(
    alloc: Global,
    search: &mut Search,
    origin: u32,
    expected: &[u32],
) -> Result<bool, AllocError> {
    let network = arriving(alloc, 97_200)?;
    search_finds(alloc, search, &network, origin, expected)
}

/// Whether a search finds those of a network of the same size, which narrow labels tell.
fn finds_today(
    alloc: Global,
    search: &mut Search,
    origin: u32,
    expected: &[u32],
) -> Result<bool, AllocError> {
    let network = arriving(alloc, 30_600)?;
    search_finds(alloc, search, &network, origin, expected)
}

/// Whether a search finds those of a network of another size.
fn finds_in_chain(alloc: Global, search: &mut Search) -> Result<bool, AllocError> {
    let network = chain(alloc, 900)?;
    let expected = [
        0, 800, 1_700, 2_600, 3_500, 4_400, 5_300, 6_200, 7_100, NEVER,
    ];
    search_finds(alloc, search, &network, 0, &expected)
}

// After a search that goes wide fifteen more do, whatever they are asked: hence 60 of them, five a turn, so that narrow
// labels are tried again for each.
/// `Search::durations`.
#[test]
fn one_search_by_both_widths(rt: HostRuntime) -> Result<(), Fail> {
    let alloc = rt.alloc();
    let mut search = Box::new(alloc, Search::new(alloc))?;
    for turn in 0..12u32 {
        assert!(rt;
            finds_tomorrow(alloc, &mut search, 0, &[0, 4_200, 72_000])?
                && finds_today(alloc, &mut search, 0, &[0, 4_200, 5_400])?
                && finds_in_chain(alloc, &mut search)?
                && finds_tomorrow(alloc, &mut search, 1, &[NEVER, 0, 72_000])?
                && finds_today(alloc, &mut search, 1, &[NEVER, 0, 5_400])?,
            "turn {turn}"
        );
    }
    Ok(())
}
