//! When the trips of a line arrive at one of its positions, and depart there.
ghost use Rattle.std.specs.Prelude.{◌≡◌, ◌<◌};
ghost use Rattle.trip_lanes.specs.Columns.{IsColumn, IsTimeOf, arrives, departs, leaves};
ghost use Rattle.trip_lanes.specs.Cut.{cut};

use timetable::CallTimes;

/// A position on a line, with the times of the line's trips. The trips are known by their ranks, the earliest first.
#[derive(Clone, Copy)]
pub(crate) struct Column<'a> {
    /// The times of all trips, trip by trip, and of each trip position by position.
    pub times: &'a [CallTimes],
    /// How many positions the line has.
    pub positions: usize,
    /// The position, counted from 0.
    pub position: usize,
    /// How many trips the line has.
    pub trips: usize,
    /// From when on times are counted, in seconds.
    pub base: u32,
    /// How far they are counted: a time that is later by this much, or more, is told as this much.
    pub cap: u32,
}

/// A time as labels tell it: counted from the base, and no further than the cap.
fn told(time: u32, base: u32, cap: u32) -> u32
    ensures { result ≡ cut base cap time }
{
    let since = if time < base { 0 } else { time - base };
    if since < cap { since } else { cap }
}

/// When the trip of a rank arrives, as labels tell it.
pub(crate) fn arrival(column: Column<'_>, rank: usize) -> u32
    requires column { IsColumn column }
    requires rank { rank < column.trips }
    ensures { result ≡ arrives column.entry rank }
{
    let time = column.times[rank * column.positions + column.position].arrive;
    told(time, column.base, column.cap)
}

/// When the trip of a rank departs, as labels tell it.
pub(crate) fn departure(column: Column<'_>, rank: usize) -> u32
    requires column { IsColumn column }
    requires rank { rank < column.trips }
    ensures { result ≡ departs column.entry rank }
{
    told(departure_time(column, rank), column.base, column.cap)
}

/// When the trip of a rank departs, in seconds on the axis.
pub(crate) fn departure_time(column: Column<'_>, rank: usize) -> u32
    requires column { IsColumn column }
    requires rank { rank < column.trips }
    ensures { result ≡ leaves column.entry rank }
{
    column.times[rank * column.positions + column.position].depart
}

/// A time on the axis before which trips depart before a label.
pub(crate) fn time_of(column: Column<'_>, label: u32) -> u32
    ensures { IsTimeOf column.entry label result }
{
    if label == 0 {
        0
    } else {
        column.base.saturating_add(label)
    }
}
