//! Cells and access by hand, of a window of five minutes.
ghost use Rattle.std.specs.Prelude.{◌≤◌, All};

use crate::group::CellBuffers;
use crate::share_cells::{Question, ShareCells, cells_and_access};
use rounds::WindowLabels;
use std::alloc::{AllocError, Global};
use std::test::Fail;
use timetable::StopNo;
use useful_minutes::Found;

/// Minutes 1, 2 and 4 were searched. The stop with number 0 is reached in 70 seconds from minute 1, never from minute
/// 2, and in 80 seconds from minute 4; so its durations are 130, 70, none, 140 and 80. The stop with number 1 is never
/// reached but by a walk of 500 seconds.
fn of_shares(alloc: Global, shares: &[u32]) -> Result<Vec<ShareCells>, AllocError>
    requires { All (λ share. share ≤ 100) shares.now }
{
    let window = WindowLabels {
        found: Found {
            labels: &[
                130, 65_535, 320, 65_535, 65_535, 65_535, 0, 0, 0, 0, 0, 0, 0, 0, 0, 0, 0, 0, 0, 0,
                0, 0, 0, 0, 0, 0, 0, 0, 0, 0, 0, 0, 0, 0, 0, 0, 0, 0, 0, 0, 0, 0, 0, 0, 0, 0, 0, 0,
                0, 0, 0, 0, 0, 0, 0, 0, 0, 0, 0,
            ],
            bases: &[0, 0, 0],
            width: 3,
        },
        searched: &[1, 2, 4],
        first: 0,
        minutes: 5,
        numbers: &[1, 0],
        walks: &[(StopNo(1), 500)],
    };
    let question = Question {
        destinations: &[StopNo(0), StopNo(1)],
        shares,
        opportunities: &[1, 10],
        limits: &[75, 600],
    };
    let mut buffers = CellBuffers::new(alloc);
    cells_and_access(alloc, &mut buffers, window, question)
}

/// `cells_and_access`, `CellBuffers::new`.
#[test]
fn cells_and_access_by_hand(rt: HostRuntime) -> Result<(), Fail> {
    let given = of_shares(rt.alloc(), &[0, 20, 40, 60, 80, 100])?;
    assert_eq!(rt; given.len(), 6);
    assert_eq!(rt; given[0].cells.as_slice(), [Some(0), Some(0)].as_slice());
    assert_eq!(rt; given[1].cells.as_slice(), [Some(500), Some(70)].as_slice());
    assert_eq!(rt; given[2].cells.as_slice(), [Some(500), Some(80)].as_slice());
    assert_eq!(rt;
        given[3].cells.as_slice(),
        [Some(500), Some(130)].as_slice()
    );
    assert_eq!(rt;
        given[4].cells.as_slice(),
        [Some(500), Some(140)].as_slice()
    );
    assert_eq!(rt; given[5].cells.as_slice(), [Some(500), None].as_slice());
    assert_eq!(rt; given[0].access.as_slice(), [11, 11].as_slice());
    assert_eq!(rt; given[1].access.as_slice(), [10, 11].as_slice());
    assert_eq!(rt; given[2].access.as_slice(), [0, 11].as_slice());
    assert_eq!(rt; given[5].access.as_slice(), [0, 1].as_slice());
    Ok(())
}
