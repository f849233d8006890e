//! All trips of a line, in one pass over its positions and in each lane: a stop's label is read and written once for
//! all of them. Travellers get aboard only where labels fell, and only on trips that leave no earlier than the least
//! label that fell and before the greatest that one fell from.
//! (Lines are the routes of the RAPTOR paper: Delling, Pajor, Werneck, ALENEX 2012.)
ghost use Rattle.std.specs.Prelude.{◌≡◌, ◌+◌, ◌*◌, ℕ, ◌<◌, ◌≤◌, ◌⊎◌, List, length, slice_index, All};
ghost use Rattle.trip_lanes.specs.Lane.{lane, labels_in, MarksFallenOf};
ghost use Rattle.trip_lanes.specs.Scan.{FallsTo};
ghost use Rattle.trip_lanes.specs.Columns.{IsColumn, IsTimeOf, departs};
ghost use Rattle.trip_lanes.specs.Falls.{HasFallen, AreFalls};
ghost use Rattle.trip_lanes.specs.Ranks.{Rides, RidesBy, Catches, Ascend};
ghost use Rattle.trip_lanes.specs.Rows.{IsCutViewOf, NoneOvertakes, CarriesRow, IsCaught, IsPast};
ghost use Rattle.timetable.specs.declared.trips.Event.{Event};

use crate::columns::{Column, departure, departure_time, time_of};
use crate::falls::Fall;
use crate::kernels::lower_row;
use crate::lane_labels::LaneLabels;
use crate::ranks::{Span, arrivals, board};
use timetable::{Call, CallTimes};

/// The positions of a line and the times of its trips, the earliest trip first: trip by trip, and of each trip position
/// by position.
#[derive(Clone, Copy)]
pub struct LineView<'a> {
    pub calls: &'a [Call],
    pub times: &'a [CallTimes],
    /// How many trips it has.
    pub trips: usize,
    /// From when on labels count, in seconds.
    pub base: u32,
}

/// For each stop, from which second one may board there, and how far this fell from what it was before.
#[derive(Clone, Copy)]
pub struct ReadyLabels<'a, R> {
    pub falls: &'a [Fall],
    pub ready: &'a [R],
}

/// Carries travellers along the trips of a line, from a position on: in each lane at least whoever is ready by a
/// departure and was not before, and nobody who isn't ready by it. Stops where a label fell are marked.
pub fn scan_line<R: LaneLabels>(
    line: LineView<'_>,
    from: usize,
    labels: ReadyLabels<'_, R>,
    ride: &mut [R],
    marked: &mut [bool],
)
    requires times { length line.times.now ≡ line.trips * length line.calls.now }
    requires stops { All (λ c. c.stop.0 < length ride.old) line.calls.now }
    requires few { line.trips ≤ R.NEVER }
    requires ready { length labels.ready.now ≡ length ride.old }
    requires falls { length labels.falls.now ≡ length ride.old }
    requires marked { length marked.old ≡ length ride.old }
    requires fits { (l p : ℕ) → l < R.LANES → slice_index (lane l (labels_in R.labels ride.old)) p ≤ R.NEVER }
    ensures marks { MarksFallenOf R.LANES (labels_in R.labels ride.old) (labels_in R.labels ride.new) marked.old
        marked.new }
    ensures lanes { (rows : List (List Event)) →
        IsCutViewOf line.entry.base R.NEVER rows line.entry.calls.now line.entry.times.now →
        length rows ≡ line.entry.trips → NoneOvertakes rows →
        (l : ℕ) → l < R.LANES → FallsTo (CarriesRow (lane l (labels_in R.labels labels.entry.ready.now)) rows)
        (lane l (labels_in R.labels ride.old)) (lane l (labels_in R.labels ride.new)) }
    ensures caught { (rows : List (List Event)) →
        IsCutViewOf line.entry.base R.NEVER rows line.entry.calls.now line.entry.times.now →
        length rows ≡ line.entry.trips → NoneOvertakes rows →
        (l r j : ℕ) (before : List ℕ) → l < R.LANES →
        AreFalls before (lane l (labels_in R.labels labels.entry.ready.now)) labels.entry.falls.now → from ≤ j →
        IsCaught before (lane l (labels_in R.labels labels.entry.ready.now)) rows r j →
        IsPast rows (lane l (labels_in R.labels ride.new)) r j }
{
    let positions = line.calls.len();
    let mut run = R::all(R::NEVER);
    let mut span = Span { first: 0, end: 0 };
    let mut near = line.trips;
    for position in from..positions {
        let call = line.calls[position];
        let stop = call.stop.0 as usize;
        let column = Column {
            times: line.times,
            positions,
            position,
            trips: line.trips,
            base: line.base,
            cap: R::NEVER,
        };
        if call.alight && span.first < span.end {
            lower_row(ride, marked, stop, arrivals(column, run, span));
        }
        let fall = labels.falls[stop];
        if call.board && fall.low < fall.top {
            let first = first_from(column, fall.low, near);
            near = first;
            run = board_position(column, first, fall, &labels.ready[stop], run);
            span = run.span();
        }
    }
}

/// The first rank that departs no earlier than a label, sought from a rank that may be near. Times are compared as they
/// stand, without telling each as labels do.
fn first_from(column: Column<'_>, label: u32, near: usize) -> usize
    requires { IsColumn column }
    ensures within { result ≤ column.entry.trips }
    ensures early { Ascend (departs column.entry) column.entry.trips → (r : ℕ) → r < result →
        departs column.entry r < label }
{
    let time = time_of(column, label);
    let start = if near < column.trips {
        near
    } else {
        guess(column, time)
    };
    forth(column, time, back(column, time, start))
}

/// A rank to seek from, by halving.
fn guess(column: Column<'_>, time: u32) -> usize
    requires { IsColumn column }
    ensures { result ≤ column.entry.trips }
{
    let mut low = 0;
    let mut high = column.trips;
    while low < high {
        let middle = low + (high - low) / 2;
        if departure_time(column, middle) < time {
            low = middle + 1;
        } else {
            high = middle;
        }
    }
    low
}

/// The least rank such that all trips from it up to before another rank depart no earlier than a time.
fn back(column: Column<'_>, time: u32, start: usize) -> usize
    requires column { IsColumn column }
    requires start { start ≤ column.trips }
    ensures within { result ≤ start }
    ensures early { (label : ℕ) → IsTimeOf column.entry label time → Ascend (departs column.entry) column.entry.trips →
        (r : ℕ) → r < result → departs column.entry r < label }
{
    let mut first = start;
    while first > 0 && departure_time(column, first - 1) >= time {
        first -= 1;
    }
    first
}

/// The first rank, from a rank on, that departs no earlier than a time.
fn forth(column: Column<'_>, time: u32, start: usize) -> usize
    requires column { IsColumn column }
    requires within { start ≤ column.trips }
    requires early { (label : ℕ) → IsTimeOf column label time → Ascend (departs column) column.trips → (r : ℕ) →
        r < start → departs column r < label }
    ensures within { result ≤ column.entry.trips }
    ensures early { (label : ℕ) → IsTimeOf column.entry label time → Ascend (departs column.entry) column.entry.trips →
        (r : ℕ) → r < result → departs column.entry r < label }
{
    let mut first = start;
    while first < column.trips && departure_time(column, first) < time {
        first += 1;
    }
    first
}

/// Takes lanes aboard at a position, on trips that they are ready for: from the first of these ranks on, as long as
/// somebody may newly catch one.
fn board_position<R: LaneLabels>(
    column: Column<'_>,
    first: usize,
    fall: Fall,
    ready: &R,
    run: R,
) -> R
    requires column { IsColumn column }
    requires cap { column.cap ≡ R.NEVER }
    requires few { column.trips ≤ R.NEVER }
    requires first { first ≤ column.trips }
    requires early { Ascend (departs column) column.trips → (r : ℕ) → r < first → departs column r < fall.low }
    requires ranks { (l r : ℕ) → l < R.LANES → Rides R.NEVER (R.labels run) l r → r < column.trips }
    requires fits { (l : ℕ) → l < R.LANES → slice_index (R.labels run) l ≤ R.NEVER }
    ensures fits { (l : ℕ) → l < R.LANES → slice_index (R.labels result) l ≤ R.NEVER }
    ensures ranks { (l r : ℕ) → l < R.LANES → Rides R.NEVER (R.labels result) l r → r < column.entry.trips }
    ensures sound { (l r : ℕ) → l < R.LANES → Rides R.NEVER (R.labels result) l r →
        Rides R.NEVER (R.labels run) l r ⊎ (slice_index (R.labels ready.now) l ≤ departs column.entry r) }
    ensures kept { (l r : ℕ) → l < R.LANES → Rides R.NEVER (R.labels run) l r → RidesBy R.NEVER (R.labels result) l r }
    ensures caught { (l r before : ℕ) → l < R.LANES → Ascend (departs column.entry) column.entry.trips →
        HasFallen before (slice_index (R.labels ready.now) l) fall → r < column.entry.trips →
        Catches before (slice_index (R.labels ready.now) l) (departs column.entry r) →
        RidesBy R.NEVER (R.labels result) l r }
{
    let mut riding = run;
    for rank in first..column.trips {
        let depart = departure(column, rank);
        if depart >= fall.top {
            return riding;
        }
        riding = board(depart, rank, *ready, riding);
        if depart >= fall.high {
            return riding;
        }
    }
    riding
}
