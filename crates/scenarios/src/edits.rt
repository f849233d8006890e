//! The rows of a scenario.
ghost use Rattle.std.specs.Prelude.{◌≡◌};
ghost use Rattle.scenarios.specs.declared.edits.TheConstants as limit;

/// The most rows of a scenario.
pub const MOST_EDITS: usize = 100_000;

/// The most seconds by which one row shifts a trip, either way: less than a week.
pub const MOST_SHIFT: u32 = 604_799;

/// The times of shifted trips, in seconds of their service day, are less than this.
pub const END_OF_TIMES: u32 = 2_000_000;

/// A law: the limits of scenarios in numbers.
pub fn limits_are_as_stated()
    ensures edits { limit.MOST_EDITS ≡ 100000 }
    ensures shift { limit.MOST_SHIFT ≡ 604799 }
    ensures times { limit.END_OF_TIMES ≡ 2000000 }
{}

/// What a row of a scenario does, by the feed's numbers.
#[derive(Clone, Copy)]
pub enum Edit {
    /// Removes all trips of a route.
    RemoveRoute(u32),
    /// Removes a trip.
    RemoveTrip(u32),
    /// Shifts all times of a trip, by seconds.
    Shift(u32, i64),
}
