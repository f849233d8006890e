//! Which groups of stops are used: those with a destination or an opportunity.
ghost use Rattle.std.specs.Prelude.{◌≡◌, ◌≢◌, ◌/◌, ◌<◌, ℕ, All, length, slice_index, IfOk};
ghost use Rattle.label_cells.specs.Groups.{groups_of, is_used, stop_at};

use crate::group_cells::GROUP;
use std::alloc::{AllocError, Global};
use timetable::StopNo;

/// Marks the groups of the destinations.
fn mark_destinations(used: &mut [bool], numbers: &[u32], destinations: &[StopNo])
    requires numbers { (p : ℕ) → p < length numbers.now → slice_index numbers.now p / 16 < length used.old }
    requires stops { All (λ stop. stop.0 < length numbers.now) destinations.now }
    ensures same { length used.new ≡ length used.old }
    ensures marked { (k : ℕ) → k < length destinations.now →
        is_used used.new (slice_index numbers.now (stop_at destinations.now k)) }
    ensures kept { (q : ℕ) → is_used used.old q → is_used used.new q }
{
    for k in 0..destinations.len() {
        let number = numbers[destinations[k].0 as usize] as usize;
        used[number / GROUP] = true;
    }
}

/// Marks the groups of the stops that have opportunities.
fn mark_opportunities(used: &mut [bool], numbers: &[u32], opportunities: &[u32])
    requires numbers { (p : ℕ) → p < length numbers.now → slice_index numbers.now p / 16 < length used.old }
    requires same { length opportunities.now ≡ length numbers.now }
    ensures same { length used.new ≡ length used.old }
    ensures marked { (p : ℕ) → p < length numbers.now → slice_index opportunities.now p ≢ 0 →
        is_used used.new (slice_index numbers.now p) }
    ensures kept { (q : ℕ) → is_used used.old q → is_used used.new q }
{
    for p in 0..numbers.len() {
        if opportunities[p] > 0 {
            used[numbers[p] as usize / GROUP] = true;
        }
    }
}

/// Returns a flag for each group of stops: whether it has a destination or an opportunity. Out of memory is the only
/// error.
pub(crate) fn used_groups(
    alloc: Global,
    numbers: &[u32],
    destinations: &[StopNo],
    opportunities: &[u32],
) -> Result<Vec<bool>, AllocError>
    requires numbers { (p : ℕ) → p < length numbers.now → slice_index numbers.now p < length numbers.now }
    requires stops { All (λ stop. stop.0 < length numbers.now) destinations.now }
    requires same { length opportunities.now ≡ length numbers.now }
    ensures count { IfOk result (λ used. length used.items ≡ groups_of (length numbers.now)) }
    ensures destinations { IfOk result (λ used. (k : ℕ) → k < length destinations.now →
        is_used used.items (slice_index numbers.now (stop_at destinations.now k))) }
    ensures opportunities { IfOk result (λ used. (p : ℕ) → p < length numbers.now →
        slice_index opportunities.now p ≢ 0 → is_used used.items (slice_index numbers.now p)) }
{
    let mut used = vec![in alloc; false; (numbers.len() + (GROUP - 1)) / GROUP]?;
    mark_destinations(&mut used, numbers, destinations);
    mark_opportunities(&mut used, numbers, opportunities);
    Ok(used)
}
