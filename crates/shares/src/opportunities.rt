//! Access: the opportunities within reach.
ghost use Rattle.std.specs.Prelude.{◌≡◌, ◌<◌, ◌≤◌, ℕ, Option, length};
ghost use Rattle.timetable.specs.declared.limits.TheConstants.{MOST_STOPS};
ghost use Rattle.shares.specs.Opportunities.{IsAccess, access_of, counted};
ghost use Rattle.shares.specs.Percentiles.{IsCell};

use crate::percentiles::is_reached;
use rounds::Durations;
use timetable::StopNo;

/// The sum of the opportunities at the stops whose cell is at most `within` seconds, from one cell and one number of
/// opportunities per stop. A stop without a cell is not within any limit.
///
/// [`access_at`] gives the same from durations and a share, faster: it needs no cells.
pub fn access(cells: &[Option<u32>], opportunities: &[u32], within: u32) -> u64
    requires same { length cells.now ≡ length opportunities.now }
    requires few { length cells.now ≤ MOST_STOPS }
    ensures { result ≡ access_of cells.now opportunities.now within }
{
    let mut sum = 0;
    for i in 0..cells.len() {
        sum += count_one(cells[i], opportunities[i], within);
    }
    sum
}

/// The opportunities at a stop if its cell is at most `within` seconds, else 0.
fn count_one(cell: Option<u32>, opportunities: u32, within: u32) -> u64
    ensures value { result ≡ counted cell opportunities within }
    ensures bound { result ≤ 4294967295 }
{
    match cell {
        Some(cell) if cell <= within => opportunities as u64,
        _ => 0,
    }
}

/// The fast form of [`access`]: the sum of the opportunities at the stops whose cell for this share is at most `within`
/// seconds.
///
/// It finds no cells: for each stop, it counts the minutes within the limit.
pub fn access_at(durations: &Durations, opportunities: &[u32], share: u32, within: u32) -> u64
    requires same { durations.now.stops ≡ length opportunities.now }
    requires share { share ≤ 100 }
    ensures { IsAccess durations.now opportunities.now share within result }
{
    durations.known();
    let mut sum = 0;
    for i in 0..opportunities.len() {
        sum += count_at(durations, StopNo(i as u32), opportunities[i], share, within);
    }
    sum
}

/// The opportunities at a stop if its cell for this share is at most `within` seconds, else 0.
fn count_at(durations: &Durations, stop: StopNo, opportunities: u32, share: u32, within: u32) -> u64
    requires stop { stop.0 < durations.now.stops }
    requires share { share ≤ 100 }
    ensures value { (cell : Option ℕ) → IsCell durations.now share stop.0 cell →
        result ≡ counted cell opportunities within }
    ensures bound { result ≤ 4294967295 }
{
    if is_reached(durations, stop, share, within) {
        opportunities as u64
    } else {
        0
    }
}
