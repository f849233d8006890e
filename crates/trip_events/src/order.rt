//! The ascending order of a trip's records.

ghost use Rattle.trip_events.specs.Order.{Ascend, IsOne, KeepsAll};

/// A law: putting the records of a trip in order keeps them all; if no record of the file is refused, they then ascend
/// by `stop_sequence`; and they have one ascending order.
pub fn one_order()
    ensures keeps { KeepsAll }
    ensures ascend { Ascend }
    ensures one { IsOne }
{}
