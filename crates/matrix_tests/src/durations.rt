//! Worked examples of least durations.

use crate::small_networks::{a_line, are, at, network_of, of_minute, of_window, two_trips};
use rounds::{Durations, Window};
use std::test::Fail;
use timetable::{END_OF_AXIS, NEVER, StopNo};

/// `Search::durations`.
#[test]
fn two_trips_with_a_change(rt: HostRuntime) -> Result<(), Fail> {
    let alloc = rt.alloc();
    for (leave, board, origin, rides, expected) in &[
        (29_700, true, 0, 2, [0, 600, 1_800]),
        (29_700, true, 0, 8, [0, 600, 1_800]),
        (29_700, true, 0, 1, [0, 600, NEVER]),
        (29_700, true, 1, 1, [NEVER, 0, 1_800]),
        (29_700, false, 0, 2, [0, 600, NEVER]),
        (29_400, true, 0, 2, [0, 600, 1_800]),
        (29_399, true, 0, 2, [0, 600, NEVER]),
    ] {
        let network = two_trips(alloc, *leave, *board)?;
        let found = of_minute(alloc, &network, *origin, 28_800, *rides)?;
        assert!(rt;
            are(&found, expected.as_slice()),
            "leave {leave}, origin {origin}, rides {rides}"
        );
    }
    Ok(())
}

/// `Search::durations`.
#[test]
fn odd_trips(rt: HostRuntime) -> Result<(), Fail> {
    let alloc = rt.alloc();

    // a trip that visits a stop twice; one whose hops, and a footpath, take no time
    let twice = [
        at(0, 100, 100),
        at(1, 200, 200),
        at(0, 300, 300),
        at(2, 400, 400),
    ];
    let no_time = [at(1, 900, 900), at(2, 900, 900), at(3, 900, 900)];

    // a trip that waits at stop 5, for who walks there meanwhile
    let waits = [at(5, 6_000, 6_100), at(6, 6_200, 6_200)];

    let trips = [twice.as_slice(), no_time.as_slice(), waits.as_slice()];
    let network = network_of(alloc, 8, &[(3, 7, 0), (4, 5, 50)], &trips)?;
    for (origin, depart, rides, expected) in &[
        (0, 100, 1, [0, 100, 300, NEVER, NEVER, NEVER, NEVER, NEVER]),
        (
            0,
            101,
            1,
            [0, NEVER, 299, NEVER, NEVER, NEVER, NEVER, NEVER],
        ),
        (1, 150, 1, [150, 0, 250, 750, NEVER, NEVER, NEVER, 750]),
        (1, 900, 1, [NEVER, 0, 0, 0, NEVER, NEVER, NEVER, 0]),
        (4, 6_040, 1, [NEVER, NEVER, NEVER, NEVER, 0, 50, 160, NEVER]),
    ] {
        let found = of_minute(alloc, &network, *origin, *depart, *rides)?;
        assert!(rt;
            are(&found, expected.as_slice()),
            "from {origin} at {depart}"
        );
    }
    Ok(())
}

/// `Search::durations`.
#[test]
fn a_trip_every_minute(rt: HostRuntime) -> Result<(), Fail> {
    let alloc = rt.alloc();
    let network = a_line(alloc)?;
    let mut rides = [0; 20];
    let mut waits = [NEVER; 20];
    for stop in 0..20u32 {
        rides[stop as usize] = 120 * stop;
    }
    waits[0] = 0;

    // 06:00, 06:13, 06:59, the last trip, and a second later
    for (depart, expected) in &[
        (21_600, rides),
        (22_380, rides),
        (25_140, rides),
        (41_940, rides),
        (41_941, waits),
    ] {
        let found = of_minute(alloc, &network, 0, *depart, 1)?;
        assert!(rt; are(&found, expected.as_slice()), "at {depart}");
    }
    Ok(())
}

/// Whether this is the duration to a stop for a minute.
fn is_at(found: &Option<Box<Durations>>, stop: u32, minute: u32, expected: Option<u32>) -> bool {
    match found {
        Some(found) if stop < found.stops() && minute < found.minutes() => {
            found.at(StopNo(stop), minute) == expected
        }
        _ => false,
    }
}

/// `Search::durations`.
#[test]
fn windows_that_fit(rt: HostRuntime) -> Result<(), Fail> {
    for (first, minutes, expected) in &[
        (0, 0, false),
        (0, 1, true),
        (0, 1_440, true),
        (0, 1_441, false),
        (0, u32::MAX, false),
        (END_OF_AXIS - 1, 1, true),
        (END_OF_AXIS, 1, false),
        (END_OF_AXIS - 61, 2, true),
        (END_OF_AXIS - 60, 2, false),
        (END_OF_AXIS - 86_341, 1_440, true),
        (END_OF_AXIS - 86_340, 1_440, false),
        (u32::MAX, 1, false),
    ] {
        let window = Window {
            first: *first,
            minutes: *minutes,
        };
        assert!(rt;
            window.fits() == *expected,
            "{minutes} minutes from {first}"
        );
    }
    Ok(())
}

/// `Search::durations`.
#[test]
fn each_minute_of_a_window(rt: HostRuntime) -> Result<(), Fail> {
    let alloc = rt.alloc();
    let network = two_trips(alloc, 29_700, true)?;

    // 07:58 to 08:01, where the last minute misses the trip
    let window = Window {
        first: 28_680,
        minutes: 4,
    };
    let found = of_window(alloc, &network, 0, window, 2)?;
    for (stop, minute, expected) in &[
        (0, 0, Some(0)),
        (0, 3, Some(0)),
        (1, 0, Some(720)),
        (1, 1, Some(660)),
        (1, 2, Some(600)),
        (1, 3, None),
        (2, 0, Some(1_920)),
        (2, 1, Some(1_860)),
        (2, 2, Some(1_800)),
        (2, 3, None),
    ] {
        assert!(rt;
            is_at(&found, *stop, *minute, *expected),
            "stop {stop}, minute {minute}"
        );
    }
    Ok(())
}

/// `Search::durations`.
#[test]
fn an_hour_of_a_trip_every_minute(rt: HostRuntime) -> Result<(), Fail> {
    let alloc = rt.alloc();
    let network = a_line(alloc)?;
    for minutes in &[1, 15, 16, 17, 32, 60] {
        let window = Window {
            first: 21_600,
            minutes: *minutes,
        };
        let found = of_window(alloc, &network, 0, window, 1)?;
        for minute in 0..*minutes {
            for stop in 0..20u32 {
                assert!(rt;
                    is_at(&found, stop, minute, Some(120 * stop)),
                    "{minutes} minutes: stop {stop}, minute {minute}"
                );
            }
        }
    }
    Ok(())
}

/// `Search::durations`.
#[test]
fn a_whole_day(rt: HostRuntime) -> Result<(), Fail> {
    let alloc = rt.alloc();
    let network = a_line(alloc)?;
    // From 05:00, when the first trip leaves; the last one leaves 399 minutes later.
    let window = Window {
        first: 18_000,
        minutes: 1_440,
    };
    let found = of_window(alloc, &network, 0, window, 1)?;
    for minute in 0..1_440u32 {
        for stop in [0, 1, 19] {
            let ride = if stop == 0 || minute < 400 {
                Some(120 * stop)
            } else {
                None
            };
            assert!(rt;
                is_at(&found, stop, minute, ride),
                "stop {stop}, minute {minute}"
            );
        }
    }
    Ok(())
}
