//! The wide labels of a stop, and how many stand side by side.
ghost use Rattle.std.specs.Prelude.{◌≡◌};
ghost use Rattle.trip_lanes.specs.declared.lanes.TheConstants as number;

/// How many wide labels stand side by side: sixteen of 32 bits fill one cache line, and whole registers of every x86-64
/// processor (docs/explanation/decisions.md, "Two widths of labels").
pub const LANES: usize = 16;

/// The wide labels of one stop, one for each lane: by when the stop is reached, in seconds, or `NEVER`.
pub type Lanes = [u32; LANES];

/// A law: how many wide labels stand side by side, in numbers.
pub fn lanes_are_sixteen()
    ensures { number.LANES ≡ 16 }
{}
