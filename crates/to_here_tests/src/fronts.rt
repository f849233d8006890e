//! Durations of a window by hand, from the labels of deadlines.

use rounds::Window;
use std::test::Fail;
use timetable::NEVER;
use to_here::{advance, front_of, lower_to_walk, no_durations};

/// `front_of`.
#[test]
fn a_front_ends_at_the_latest_departure_in_time(rt: HostRuntime) -> Result<(), Fail> {
    let window = Window {
        first: 600,
        minutes: 3,
    };
    for (deadline, label, expected) in &[
        (999, 400, 0),
        (1_000, 400, 1),
        (1_059, 400, 1),
        (1_060, 400, 2),
        (1_120, 400, 3),
        (5_000, 400, 3),
        (5_000, NEVER, 0),
    ] {
        let found = front_of(window, *deadline, *label);
        assert_eq!(rt; found, *expected, "deadline {deadline}");
    }
    Ok(())
}

/// `no_durations`, `advance`, `lower_to_walk`.
#[test]
fn deadlines_in_two_slices(rt: HostRuntime) -> Result<(), Fail> {
    let window = Window {
        first: 600,
        minutes: 4,
    };
    let mut durations = no_durations(rt.alloc(), window)?;
    assert_eq!(rt; durations.as_slice(), [NEVER; 4].as_slice());

    // the second deadline serves no further departure, the third those at 660 and 720
    let front = advance(window, &[900, 1_000], &[250, 400], 0, &mut durations);
    assert_eq!(rt; front, 1);
    assert_eq!(rt; durations.as_slice(), [300, NEVER, NEVER, NEVER].as_slice());
    if durations.len() == 4 && front <= 4 {
        let last = advance(window, &[1_100], &[380], front, &mut durations);
        assert_eq!(rt; last, 3);
        assert_eq!(rt; durations.as_slice(), [300, 440, 380, NEVER].as_slice());
    }
    lower_to_walk(&mut durations, 400);
    assert_eq!(rt; durations.as_slice(), [300, 400, 380, 400].as_slice());
    Ok(())
}
