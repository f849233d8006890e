//! The stops that durations are of.
ghost use Rattle.std.specs.Prelude.{◌≡◌, map, IfOk};
ghost use Rattle.std.specs.List.{range_with_len};

use std::alloc::{AllocError, Global};
use timetable::StopNo;

/// All of this number of stops, in order.
pub(crate) fn all_stops(alloc: Global, stops: u32) -> Result<Vec<StopNo>, AllocError>
    ensures { IfOk result (λ all. all.items ≡ map (λ n. record { 0 = n }) (range_with_len 0 stops)) }
{
    (0..stops).map(StopNo).collect(alloc)
}
