//! How far labels fell since lines were last scanned, and from where a round scans each line: from the first position
//! where one may board at a stop whose label fell.
ghost use Rattle.std.specs.Prelude.{◌≡◌, ℕ, ◌<◌, ◌≤◌, List, length, slice_get, slice_index, Some};
ghost use Rattle.timetable.specs.FlatLists.{IsIn};
ghost use Rattle.timetable.specs.declared.limits.TheConstants.{MOST_STOPS};
ghost use Rattle.trip_lanes.specs.Falls.{AreFalls, AreNoted};
ghost use Rattle.trip_lanes.specs.Lane.{lane, labels_in};
ghost use Rattle.rounds.specs.Scan.{AreDue};

use timetable::{Lines, NEVER, StopNo};
use trip_lanes::{Fall, LaneLabels, UNFALLEN};

/// Notes the lines of a list, each from its position on, unless it is noted from an earlier one on.
fn note_all(row: &[(u32, u32)], due: &mut [u32])
    requires { (k line position : ℕ) → slice_get row.now k ≡ Some (line, position) → line < length due.old }
    ensures earlier { (line : ℕ) → slice_index due.new line ≤ slice_index due.old line }
    ensures new { (k line position : ℕ) → slice_get row.now k ≡ Some (line, position) →
        slice_index due.new line ≤ position }
{
    for (line, position) in row {
        note(due, *line as usize, *position);
    }
}

/// Notes a line from a position on, unless it is noted from an earlier one on.
fn note(due: &mut [u32], line: usize, position: u32)
    requires { line < length due.old }
    ensures earlier { (other : ℕ) → slice_index due.new other ≤ slice_index due.old other }
    ensures new { slice_index due.new line ≤ position }
{
    due[line] = due[line].min(position);
}

/// Notes how far the labels of each stop in `fallen` fell from those that were kept of it, and from which position on
/// each line is due that can be boarded there. At the other stops none fell. It is a function of its own, so that its
/// loop has registers enough.
#[inline(never)]
pub(crate) fn note_falls<R: LaneLabels>(
    lines: &Lines,
    before: &[R],
    ready: &[R],
    fallen: &[bool],
    falls: &mut [Fall],
    due: &mut [u32],
)
    requires stops { length ready.now ≡ length lines.now.boarded }
    requires few { length ready.now ≤ MOST_STOPS }
    requires before { length ready.now ≤ length before.now }
    requires fallen { length fallen.now ≡ length ready.now }
    requires falls { length falls.old ≡ length ready.now }
    requires in_range { (p line position : ℕ) → IsIn lines.now.boarded p (line, position) → line < length due.old }
    ensures falls { (l : ℕ) (was : List ℕ) → l < R.LANES → AreNoted was (lane l (labels_in R.labels ready.now))
        (lane l (labels_in R.labels before.now)) fallen.now →
        AreFalls was (lane l (labels_in R.labels ready.now)) falls.new }
    ensures due { AreDue lines.now.boarded falls.new due.new }
{
    due.fill(NEVER);
    for stop in 0..ready.len() {
        if fallen[stop] {
            falls[stop] = ready[stop].fall(before[stop]);
            note_all(lines.boarded_at(StopNo(stop as u32)), due);
        } else {
            falls[stop] = UNFALLEN;
        }
    }
}
