//! Walks from the origin. They take as long in each minute, so a stop's cell is the lesser of the cell without walks
//! and the least walk.
ghost use Rattle.std.specs.Prelude.{◌≡◌, ◌≢◌, ◌+◌, ◌*◌, ◌/◌, ◌<◌, ◌≤◌, ◌⊎◌, ℕ, [], length, min, slice_index};
ghost use Rattle.std.specs.Prelude.{slice_index_or};
ghost use Rattle.timetable.specs.declared.least.TheConstants.{NEVER as NEVER_VALUE};
ghost use Rattle.rounds.specs.Table.{known_of};
ghost use Rattle.rounds.specs.Labels.{least_walk, lesser, walk_seconds, walk_stop};
ghost use Rattle.label_cells.specs.Groups.{cell_at};

use crate::group_cells::GROUP;
use timetable::StopNo;
use trip_lanes::Lanes;

/// Lowers one cell of a list to some seconds.
fn lower_lane(cells: &mut [Lanes], at: usize, l: usize, seconds: u32)
    requires at { at < length cells.old }
    requires l { l < 16 }
    ensures same { length cells.new ≡ length cells.old }
    ensures lowered { slice_index (slice_index_or cells.new at []) l
        ≡ min (slice_index (slice_index_or cells.old at []) l) seconds }
    ensures kept { (i k : ℕ) → (i ≢ at) ⊎ (k ≢ l) →
        slice_index (slice_index_or cells.new i []) k ≡ slice_index (slice_index_or cells.old i []) k }
{
    cells[at][l] = cells[at][l].min(seconds);
}

/// Lowers the cells of a stop to some seconds, for each rank. `number` is the stop's.
fn lower_stop(cells: &mut [Lanes], ranks: usize, number: usize, seconds: u32)
    requires cells { number / 16 * ranks + ranks ≤ length cells.old }
    ensures same { length cells.new ≡ length cells.old }
    ensures lowered { (k : ℕ) → k < ranks →
        cell_at ranks cells.new number k ≡ min (cell_at ranks cells.old number k) seconds }
    ensures kept { (q k : ℕ) → k < ranks → q ≢ number → cell_at ranks cells.new q k ≡ cell_at ranks cells.old q k }
{
    for k in 0..ranks {
        lower_lane(cells, number / GROUP * ranks + k, number % GROUP, seconds);
    }
}

/// Lowers the cells of each stop to the least walk there, for each rank.
pub(crate) fn lower_walks(cells: &mut [Lanes], ranks: usize, walks: &[(StopNo, u32)])
    requires cells { (i : ℕ) → i < length walks.now →
        walk_stop walks.now i / 16 * ranks + ranks ≤ length cells.old }
    requires seconds { (i : ℕ) → i < length walks.now → walk_seconds walks.now i < NEVER_VALUE }
    ensures same { length cells.new ≡ length cells.old }
    ensures walked { (q k : ℕ) → k < ranks → known_of (cell_at ranks cells.new q k)
        ≡ lesser (known_of (cell_at ranks cells.old q k)) (least_walk walks.now q (length walks.now)) }
{
    for i in 0..walks.len() {
        let (stop, seconds) = walks[i];
        lower_stop(cells, ranks, stop.0 as usize, seconds);
    }
}
