//! The durations from every origin to one destination: the row of a destination.
ghost use Rattle.std.specs.Prelude.{◌≡◌, ◌+◌, ◌*◌, ◌≤◌, ◌<◌, ◌++◌, ℕ, [], List, All, IfOk, IsTrue, length};
ghost use Rattle.std.specs.Prelude.{map, min, slice_get, slice_index, Some};
ghost use Rattle.rounds.specs.Window.{Fits};
ghost use Rattle.to_here.specs.Front.{IsFront, IsFrontOf};
ghost use Rattle.to_here.specs.Row.{AreFronts, AreLastFronts, AreLowered, IsFinished, IsOriginOf, labels_for};
ghost use Rattle.to_here.specs.declared.row.OriginDurations.{OriginDurations};

use crate::front::{advance, front_of, lower_to_walk, no_durations};
use rounds::Window;
use std::alloc::{AllocError, Global};

/// The durations from one origin to the destination, given the deadlines that were searched.
#[derive(Drop)]
pub struct OriginDurations {
    /// The number of departures that are served.
    pub front: u32,
    /// The seconds of each departure; `NEVER` for those that are not served.
    pub durations: Vec<u32>,
}

/// Returns the row of a destination before any deadline was searched. Out of memory is the only error.
pub fn begin_row(
    alloc: Global,
    window: Window,
    origins: usize,
) -> Result<Vec<OriginDurations>, AllocError>
    ensures count { IfOk result (λ row. length row.items ≡ origins) }
    ensures origins { IfOk result (λ row. All (IsOriginOf window) row.items) }
    ensures fronts { IfOk result (λ row. AreFronts window [] (λ o. []) row.items) }
{
    let mut row = Vec::with_capacity(alloc, origins)?;
    for _ in 0..origins {
        row.push(OriginDurations {
            front: 0,
            durations: no_durations(alloc, window)?,
        })?;
    }
    Ok(row)
}

/// Takes the labels of further deadlines, in ascending order, for every origin of the row.
///
/// `labels` has one label for each origin and deadline, origin by origin. Deadlines can be searched in slices of any
/// size: each call continues where the last one ended.
pub fn advance_row(window: Window, deadlines: &[u32], labels: &[u32], row: &mut [OriginDurations])
    requires fits { Fits window }
    requires labels { length labels.now ≡ length row.old * length deadlines.now }
    requires origins { All (IsOriginOf window) row.old }
    ensures origins { All (IsOriginOf window) row.new }
    ensures fronts { (before : List ℕ) (labels_before : ℕ → List ℕ) →
        AreFronts window before labels_before row.old →
        AreFronts window (before ++ deadlines.now)
        (λ o. labels_before o ++ labels_for labels.now (length deadlines.now) o) row.new }
{
    let width = deadlines.len();
    let mut from = 0;
    for o in 0..row.len() {
        let to = from + width;
        advance_origin(window, deadlines, &labels[from..to], &mut row[o]);
        from = to;
    }
}

/// Takes the labels of further deadlines for one origin.
pub(crate) fn advance_origin(
    window: Window,
    deadlines: &[u32],
    labels: &[u32],
    origin: &mut OriginDurations,
)
    requires fits { Fits window }
    requires labels { length labels.now ≡ length deadlines.now }
    requires origin { IsOriginOf window origin.old }
    ensures origin { IsOriginOf window origin.new }
    ensures front { (before labels_before : List ℕ) →
        IsFront window before labels_before origin.old.front origin.old.durations.items →
        IsFront window (before ++ deadlines.now) (labels_before ++ labels.now) origin.new.front
        origin.new.durations.items }
{
    let durations = origin.durations.as_mut_slice();
    origin.front = advance(window, deadlines, labels, origin.front, durations);
}

/// Returns the last front of each origin, given the labels of a time that no deadline is later than. Out of memory is
/// the only error.
pub fn last_fronts(
    alloc: Global,
    window: Window,
    end: u32,
    labels: &[u32],
) -> Result<Vec<u32>, AllocError>
    requires { Fits window }
    ensures { IfOk result (λ lasts. AreLastFronts window end labels.now lasts.items) }
{
    let mut lasts = Vec::with_capacity(alloc, labels.len())?;
    for label in labels {
        lasts.push(front_of(window, end, *label))?;
    }
    Ok(lasts)
}

/// Whether every origin has reached its last front, so that no further deadline serves any departure.
pub fn is_row_full(row: &[OriginDurations], lasts: &[u32]) -> bool
    requires { length lasts.now ≡ length row.now }
    ensures { IsTrue result → (o : ℕ) (x : OriginDurations) → slice_get row.now o ≡ Some x →
        slice_index lasts.now o ≤ x.front }
{
    for o in 0..row.len() {
        if row[o].front < lasts[o] {
            return false;
        }
    }
    true
}

/// Lowers the durations of every origin to its walk alone, which completes the row.
///
/// `walks` has the seconds of a walk alone from each origin to the destination, as `reversal::walks_to` returns them.
/// If enough deadlines were searched, the row then has the least duration of each origin and departure.
pub fn finish_row(row: &mut [OriginDurations], walks: &[u32])
    requires { length walks.now ≡ length row.old }
    ensures lowered { AreLowered walks.now row.old row.new }
    ensures finished { IsFinished walks.now row.old row.new }
{
    for o in 0..row.len() {
        lower_origin(&mut row[o], walks[o]);
    }
}

/// Lowers the durations of one origin to its walk alone.
fn lower_origin(origin: &mut OriginDurations, walk: u32)
    ensures { origin.new.durations.items ≡ map (min walk) origin.old.durations.items }
{
    lower_to_walk(origin.durations.as_mut_slice(), walk);
}
