//! Which minutes of a window are useful, by one look at each trip that can be boarded near the origin.
ghost use Rattle.std.specs.Prelude.{◌≡◌, ℕ, ◌+◌, ◌*◌, ◌<◌, ◌≤◌, ◌⊎◌, length, slice_get, slice_index, Some, All, IfOk};
ghost use Rattle.std.specs.Prelude.{OnOk, IsTrue, false};
ghost use Rattle.timetable.specs.declared.least.TheConstants.{NEVER as NEVER_VALUE};
ghost use Rattle.timetable.specs.declared.limits.TheConstants.{END_OF_AXIS, MOST_FOOT_SECONDS};
ghost use Rattle.timetable.specs.LineViews.{departures_in};
ghost use Rattle.timetable.specs.Networks.{Net};
ghost use Rattle.useful_minutes.specs.Marks.{AreBoardings, AreWalks, CoversAll, CoversLine, CoversTrip, Grows};
ghost use Rattle.useful_minutes.specs.Marks.{HasWalks, IsLastBefore, IsInner, AreInner, StaysNear};

use std::alloc::{AllocError, Global};
use timetable::{Call, CallTimes, Lines, NEVER, Renumbered, StopNo};

/// The most walks onward from a stop that are looked at: near a hub with thousands from each stop, looks stay few.
const MOST_ONWARD: usize = 256;

/// How long the walk from the origin to each stop takes, or `NEVER`. Out of memory is the only error.
fn walks_from(
    alloc: Global,
    network: &Renumbered<'_>,
    origin: StopNo,
) -> Result<Vec<u32>, AllocError>
    requires origin { origin.0 < network.now.stops }
    ensures { IfOk result (λ walks. AreWalks network.now origin.0 walks.items) }
{
    network.known();
    let mut walks = vec![in alloc; NEVER; network.stops() as usize]?;
    walks[origin.0 as usize] = 0;
    for (stop, seconds) in network.feet().leaving(origin) {
        walks[stop.0 as usize] = walks[stop.0 as usize].min(*seconds);
    }
    Ok(walks)
}

/// Whether a stop is inner: each stop that one walks to from it is reached no later by a walk from the origin. Stops
/// that are a long walk away seldom are, since a footpath is limited and two don't follow one another. A stop with more
/// walks onward than are looked at counts as none.
fn is_inner(network: &Renumbered<'_>, walks: &[u32], stop: StopNo) -> bool
    requires stop { stop.0 < network.now.stops }
    requires walks { length walks.now ≡ network.now.stops }
    ensures { IsTrue result → IsInner network.now walks.now stop.0 }
{
    network.known();
    let walk = walks[stop.0 as usize];
    let onward = network.feet().leaving(stop);
    if onward.len() > MOST_ONWARD {
        return false;
    }
    for (next, seconds) in onward {
        let there = walks[next.0 as usize];
        if walk < there && *seconds < there - walk {
            return false;
        }
    }
    true
}

/// Notes the walk to a stop, if it is inner.
fn note_inner(network: &Renumbered<'_>, walks: &[u32], stop: StopNo, inner: &mut [u32])
    requires stop { stop.0 < network.now.stops }
    requires walks { length walks.now ≡ network.now.stops }
    requires inner { AreInner network.now walks.now inner.old }
    ensures { AreInner network.now walks.now inner.new }
{
    if is_inner(network, walks, stop) {
        inner[stop.0 as usize] = walks[stop.0 as usize];
    }
}

/// How long the walk from the origin to each inner stop takes; `NEVER` at other stops. Out of memory is the only error.
fn inner_from(
    alloc: Global,
    network: &Renumbered<'_>,
    origin: StopNo,
    walks: &[u32],
) -> Result<Vec<u32>, AllocError>
    requires origin { origin.0 < network.now.stops }
    requires walks { length walks.now ≡ network.now.stops }
    ensures { IfOk result (λ inner. AreInner network.now walks.now inner.items) }
{
    network.known();
    let mut inner = vec![in alloc; NEVER; walks.len()]?;
    note_inner(network, walks, origin, &mut inner);
    for (stop, _) in network.feet().leaving(origin) {
        note_inner(network, walks, *stop, &mut inner);
    }
    Ok(inner)
}

/// How many seconds the walks from the origin take; `NEVER` where none leads.
#[derive(Clone, Copy)]
struct Nearby<'a> {
    /// To each stop.
    walks: &'a [u32],
    /// To each inner stop.
    inner: &'a [u32],
}

/// Whether a trip leads away from the origin that is boarded at a position after a walk of so many seconds. It doesn't
/// if whoever gets off is at an inner stop that takes no longer a walk, or could have boarded in between after a walk
/// that is no longer.
fn leads_away(calls: &[Call], nearby: Nearby<'_>, position: usize, seconds: u32) -> bool
    requires position { position < length calls.now }
    requires seconds { seconds < NEVER_VALUE }
    requires stops { All (λ c. c.stop.0 < length nearby.walks.now) calls.now }
    requires inner { length nearby.inner.now ≡ length nearby.walks.now }
    ensures goes_on { IsTrue result → position + 1 < length calls.now }
    ensures stays { (result ≡ false) → StaysNear calls.now nearby.entry.walks.now nearby.entry.inner.now position
        seconds }
{
    for next in position + 1..calls.len() {
        let stop = calls[next].stop.0 as usize;
        if calls[next].alight && seconds < nearby.inner[stop] {
            return true;
        }
        if calls[next].board && next + 1 < calls.len() && nearby.walks[stop] <= seconds {
            return false;
        }
    }
    false
}

/// The positions from which trips of a line that are boarded first lead away from the origin, each with the seconds of
/// the walk there. At the last position nobody boards.
fn boardings_of(
    alloc: Global,
    calls: &[Call],
    nearby: Nearby<'_>,
) -> Result<Vec<(usize, u32)>, AllocError>
    requires stops { All (λ c. c.stop.0 < length nearby.walks.now) calls.now }
    requires inner { length nearby.inner.now ≡ length nearby.walks.now }
    ensures { IfOk result (λ boardings. AreBoardings calls.now nearby.entry.walks.now nearby.entry.inner.now
        (length calls.now) boardings.items) }
{
    let mut boardings = Vec::new(alloc);
    for position in 0..calls.len() {
        let seconds = nearby.walks[calls[position].stop.0 as usize];
        if seconds != NEVER
            && calls[position].board
            && leads_away(calls, nearby, position, seconds)
        {
            boardings.push((position, seconds))?;
        }
    }
    Ok(boardings)
}

/// Marks the last minute from which a departure is caught, where minute 0 begins at a second, unless it is before
/// `next`: then an earlier position of the trip is caught from a minute no sooner. The result is the next such `next`.
fn mark(marks: &mut [bool], next: u32, first: u32, depart: u32) -> u32
    ensures grows { Grows marks.old marks.new }
    ensures below { (m : ℕ) → first + 60 * m ≤ depart → m < result }
    ensures some { (result ≡ next) ⊎ IsLastBefore first depart marks.new result }
{
    if depart < first {
        return next;
    }
    let minute = (depart - first) / 60;
    if minute < next {
        return next;
    }
    if (minute as usize) < marks.len() {
        marks[minute as usize] = true;
    }
    minute + 1
}

/// Marks minutes so that a trip is covered, whose times stand from one on: of each of the boardings, in their order,
/// the last minute, unless it is no later than that of one before it.
fn mark_trip(
    times: &[CallTimes],
    from: usize,
    boardings: &[(usize, u32)],
    first: u32,
    marks: &mut [bool],
)
    requires first { first < END_OF_AXIS }
    requires inside { (k j seconds : ℕ) → slice_get boardings.now k ≡ Some (j, seconds) →
        (from + j < length times.now) × (seconds ≤ MOST_FOOT_SECONDS) }
    ensures grows { Grows marks.old marks.new }
    ensures covers { CoversTrip first boardings.now (λ j. slice_index (departures_in times.now) (from + j)) marks.new
        (length boardings.now) }
{
    let mut next = 0;
    for (position, seconds) in boardings {
        let depart = times[from + *position].depart;
        next = mark(marks, next, first + *seconds, depart);
    }
}

/// Marks minutes so that each trip of a line is covered. Its times stand trip by trip.
fn mark_trips(
    times: &[CallTimes],
    trips: usize,
    positions: usize,
    boardings: &[(usize, u32)],
    first: u32,
    marks: &mut [bool],
)
    requires first { first < END_OF_AXIS }
    requires size { length times.now ≡ trips * positions }
    requires inside { (k j seconds : ℕ) → slice_get boardings.now k ≡ Some (j, seconds) →
        (j < positions) × (seconds ≤ MOST_FOOT_SECONDS) }
    ensures grows { Grows marks.old marks.new }
    ensures covers { (r : ℕ) → r < trips → CoversTrip first boardings.now
        (λ j. slice_index (departures_in times.now) (r * positions + j)) marks.new (length boardings.now) }
{
    for rank in 0..trips {
        mark_trip(times, rank * positions, boardings, first, marks);
    }
}

/// Marks minutes so that each trip of a line is covered. Out of memory is the only error.
fn mark_line(
    alloc: Global,
    lines: &Lines,
    nearby: Nearby<'_>,
    line: u32,
    first: u32,
    marks: &mut [bool],
) -> Result<(), AllocError>
    requires first { first < END_OF_AXIS }
    requires line { line < length lines.now.lines }
    requires walks { (n : Net) × (origin : ℕ) × HasWalks n origin lines.now nearby.walks.now nearby.inner.now }
    ensures grows { Grows marks.old marks.new }
    ensures covers { OnOk result ((n : Net) (origin : ℕ) →
        HasWalks n origin lines.now nearby.entry.walks.now nearby.entry.inner.now →
        CoversLine n origin first lines.now.lines marks.new line) }
{
    let calls = lines.calls_of(line);
    let boardings = boardings_of(alloc, calls, nearby)?;
    let trips = lines.trips_of(line).len();
    if boardings.len() > 0 {
        mark_trips(
            lines.times_of(line),
            trips,
            calls.len(),
            &boardings,
            first,
            marks,
        );
    }
    Ok(())
}

/// Marks the useful minutes of a window that begins at a second. Out of memory is the only error.
pub fn mark_useful(
    alloc: Global,
    network: &Renumbered<'_>,
    origin: StopNo,
    first: u32,
    marks: &mut [bool],
) -> Result<(), AllocError>
    requires origin { origin.0 < network.now.stops }
    requires first { first < END_OF_AXIS }
    ensures same { length marks.new ≡ length marks.old }
    ensures covers { OnOk result (CoversAll network.now origin.0 first marks.new) }
{
    network.known();
    let walks = walks_from(alloc, network, origin)?;
    let inner = inner_from(alloc, network, origin, &walks)?;
    let nearby = Nearby {
        walks: walks.as_slice(),
        inner: inner.as_slice(),
    };
    let lines = network.lines();
    for line in 0..lines.count() {
        mark_line(alloc, lines, nearby, line as u32, first, marks)?;
    }
    Ok(())
}
