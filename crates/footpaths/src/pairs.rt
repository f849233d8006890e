//! The pairs of stops that the two ends of a walk give, added to the direct footpaths as far as there is room.

ghost use Rattle.std.specs.Prelude.{◌≡◌, ◌≢◌, ◌<◌, ◌∷◌, [], All, OnOk, IfErr, filter, length, map};
ghost use Rattle.table_records.specs.declared.fault.What.TheVariants as what;
ghost use Rattle.table_files.specs.Ends.{differ, pairs_between};
ghost use Rattle.footpaths.specs.Pairs.{IsRefusal, with_more};
ghost use Rattle.timetable.specs.declared.limits.TheConstants as limit;

use crate::direct_list::Direct;
use table_records::What;
use timetable::{MOST_FOOTPATHS, StopNo};

/// Adds the pairs of different stops of two ends, from-stops in the outer order.
/// They are refused with the first pair past the limit.
pub(crate) fn add_pairs(
    direct: &mut Direct,
    from: &[StopNo],
    to: &[StopNo],
    seconds: u32,
) -> Result<(), What>
    requires from { All (λ stop. stop.0 < direct.old.stops) from.now }
    requires to { All (λ stop. stop.0 < direct.old.stops) to.now }
    ensures good { OnOk result (direct.new ≡ with_more direct.old (pairs_between from.now to.now seconds)) }
    ensures fault { IfErr result (IsRefusal direct.old (pairs_between from.now to.now seconds)) }
{
    if to.is_empty() {
        return Ok(());
    }
    for stop in from {
        add_pairs_from(direct, *stop, to, seconds)?;
    }
    Ok(())
}

/// Adds the pairs of a stop and each other one of some.
fn add_pairs_from(
    direct: &mut Direct,
    from: StopNo,
    to: &[StopNo],
    seconds: u32,
) -> Result<(), What>
    requires from { from.0 < direct.old.stops }
    requires to { All (λ stop. stop.0 < direct.old.stops) to.now }
    ensures good { OnOk result (direct.new ≡ with_more direct.old
        (map (λ stop. (from, stop, seconds)) (filter (differ from) to.now))) }
    ensures fault { IfErr result (IsRefusal direct.old
        (map (λ stop. (from, stop, seconds)) (filter (differ from) to.now))) }
{
    for stop in to {
        if stop.0 != from.0 {
            add_pair(direct, from, *stop, seconds)?;
        }
    }
    Ok(())
}

/// Adds a pair of different stops.
fn add_pair(direct: &mut Direct, from: StopNo, to: StopNo, seconds: u32) -> Result<(), What>
    requires from { from.0 < direct.old.stops }
    requires to { to.0 < direct.old.stops }
    requires other { from.0 ≢ to.0 }
    ensures good { OnOk result (direct.new ≡ with_more direct.old ((from, to, seconds) ∷ [])) }
    ensures fault { IfErr result (IsRefusal direct.old ((from, to, seconds) ∷ [])) }
    ensures memory { IfErr result (λ w. w ≡ what.Memory → length direct.old.pairs < limit.MOST_FOOTPATHS) }
{
    if direct.pairs().len() >= MOST_FOOTPATHS {
        return Err(What::TooMany);
    }
    match direct.push(from, to, seconds) {
        Ok(()) => Ok(()),
        Err(_) => Err(What::Memory),
    }
}
