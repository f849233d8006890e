//! The row of a destination by hand, from the labels of two origins.

use rounds::Window;
use std::test::Fail;
use timetable::NEVER;
use to_here::{advance_row, begin_row, finish_row, is_row_full, last_fronts};

/// `begin_row`, `advance_row`, `last_fronts`, `is_row_full`, `finish_row`.
#[test]
fn two_origins(rt: HostRuntime) -> Result<(), Fail> {
    let alloc = rt.alloc();
    let window = Window {
        first: 600,
        minutes: 3,
    };

    // travellers reach the destination by 2,000 if they leave the first origin by 700, and the second by 1,700
    let lasts = last_fronts(alloc, window, 2_000, &[1_300, 300])?;
    assert_eq!(rt; lasts.as_slice(), [2, 3].as_slice());

    // by 900 they have to leave the first origin by 650; by 1,000 the first by 600 and the second by 720
    let mut row = begin_row(alloc, window, 2)?;
    advance_row(window, &[900, 1_000], &[250, 400, NEVER, 280], &mut row);
    assert!(rt; !is_row_full(&row, &lasts));

    // by 1,100 they have to leave the first origin by 660
    advance_row(window, &[1_100], &[440, 900], &mut row);
    assert!(rt; is_row_full(&row, &lasts));
    finish_row(&mut row, &[420, NEVER]);
    assert_eq!(rt; row[0].durations.as_slice(), [300, 420, 420].as_slice());
    assert_eq!(rt; row[1].durations.as_slice(), [400, 340, 280].as_slice());
    Ok(())
}
