//! Lane labels: those of one stop for departures side by side, in one width of number.
ghost use Rattle.std.specs.Prelude.{◌≡◌, ◌≢◌, ℕ, ◌+◌, ◌*◌, ◌<◌, ◌≤◌, ◌⊎◌, List, length, min, slice_index, IsTrue, ◌↔◌};
ghost use Rattle.trip_lanes.specs.Lane.{SomeFellOf};
ghost use Rattle.trip_lanes.specs.Ranks.{IsSpanOf, Rides};
ghost use Rattle.trip_lanes.specs.Falls.{HasFallen};
ghost use Rattle.trip_lanes.specs.Since.{IsMinutely};
ghost use Rattle.trip_lanes.specs.declared.lanes.TheConstants.{LANES as SIXTEEN};

use crate::falls::Fall;
use crate::ranks::Span;

/// The labels of one stop, one for each of some departures. A search is written once over this trait, and runs over
/// each width of number: narrow labels are the quicker ones, and wide ones reach as far as times go.
pub trait LaneLabels: Copy + Drop {
    /// How many departures have a label.
    ghost LANES: { ℕ };

    const LANES: usize;
    /// The greatest label: the stop isn't reached before it.
    ghost NEVER: { ℕ };

    const NEVER: u32;
    /// The labels, lane by lane.
    ghost labels: { Self → List ℕ };

    /// The same label in each lane.
    fn all(label: u32) -> Self
        requires { label ≤ NEVER }
        ensures { (l : ℕ) → l < LANES → slice_index (labels result) l ≡ label };

    /// A departure in each lane, one a minute from the first on, as many as there are minutes; `NEVER` in the others.
    fn minutely(first: u32, minutes: u32) -> Self
        requires { first + 60 * LANES < NEVER }
        ensures { (l : ℕ) → l < LANES → IsMinutely first minutes NEVER l (slice_index (labels result) l) };

    /// The label of the first lane.
    fn first(self) -> u32
        ensures { result ≡ slice_index (labels self) 0 };

    /// The lower of both, in each lane.
    fn lower_of(self, other: Self) -> Self
        ensures { (l : ℕ) → l < LANES → slice_index (labels result) l
            ≡ min (slice_index (labels self) l) (slice_index (labels other) l) };

    /// Whether some lane is lower, where none is higher.
    fn changed(self, old: Self) -> bool
        requires { (l : ℕ) → l < LANES → slice_index (labels self) l ≤ slice_index (labels old) l }
        ensures { IsTrue result ↔ SomeFellOf LANES (labels self) (labels old) };

    /// Later by some seconds, up to `NEVER`.
    fn later(self, seconds: u32) -> Self
        ensures { (l : ℕ) → l < LANES → slice_index (labels result) l
            ≡ min (slice_index (labels self) l + seconds) NEVER };

    /// The rank of a trip in each lane whose label, as of who is ready to board, is no later than the trip's departure;
    /// `NEVER` in the others.
    fn catch(self, depart: u32, rank: u32) -> Self
        requires depart { depart ≤ NEVER }
        requires rank { rank < NEVER }
        ensures caught { (l : ℕ) → l < LANES → slice_index (labels self) l ≤ depart →
            slice_index (labels result) l ≡ rank }
        ensures others { (l : ℕ) → l < LANES → depart < slice_index (labels self) l →
            slice_index (labels result) l ≡ NEVER };

    /// These labels, with the arrival of a trip in each lane that rides it, by the lanes' ranks.
    fn alight(self, run: Self, rank: u32, arrive: u32) -> Self
        requires arrive { arrive ≤ NEVER }
        requires rank { rank < NEVER }
        ensures rides { (l : ℕ) → l < LANES → slice_index (labels run) l ≡ rank →
            slice_index (labels result) l ≡ arrive }
        ensures others { (l : ℕ) → l < LANES → slice_index (labels run) l ≢ rank →
            slice_index (labels result) l ≡ slice_index (labels self) l };

    /// The ranks that are ridden, from the first to after the last: 0 to 0 where none is.
    fn span(self) -> Span
        ensures spans { IsSpanOf LANES NEVER (labels self) result }
        ensures ends { (n : ℕ) → ((l r : ℕ) → l < LANES → Rides NEVER (labels self) l r → r < n) → result.end ≤ n };

    /// Whether every lane that departs has a label below `NEVER`.
    fn is_reached(self, departs: Self) -> bool
        ensures { IsTrue result ↔ ((l : ℕ) → l < LANES → slice_index (labels departs) l ≢ NEVER →
            slice_index (labels self) l ≢ NEVER) };

    /// How far these labels fell.
    fn fall(self, before: Self) -> Fall
        ensures { (l : ℕ) → l < LANES → HasFallen (slice_index (labels before) l) (slice_index (labels self) l)
            result };

    /// The lanes are at least sixteen, and few enough for one word of a bit each.
    ghost some: { SIXTEEN ≤ LANES };

    ghost few: { LANES ≤ 64 };

    /// Labels have room for a departure in each lane, a minute apart, and for the longest walk after the last.
    ghost room: { 60 * LANES + 7202 < NEVER };

    /// Labels are of 32 bits at most.
    ghost never_fits: { NEVER ≤ 4294967295 };
}

/// Labels of 16 bits.
pub trait NarrowLabels: LaneLabels {
    /// Puts the labels among others, from a place on.
    fn put(self, found: &mut [u16], at: usize)
        requires { at + Self.LANES ≤ length found.old }
        ensures same { length found.new ≡ length found.old }
        ensures put { (l : ℕ) → l < Self.LANES →
            slice_index found.new (at + l) ≡ slice_index (Self.labels self) l }
        ensures kept { (i : ℕ) → (i < at) ⊎ (at + Self.LANES ≤ i) →
            slice_index found.new i ≡ slice_index found.old i };

    /// The greatest label is that of 16 bits.
    ghost narrow: { Self.NEVER ≡ 65535 };
}
