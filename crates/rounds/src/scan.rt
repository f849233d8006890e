//! A round of rides, line by line, for departures side by side.
ghost use Rattle.std.specs.Prelude.{◌≡◌, ℕ, ◌<◌, ◌≤◌, List, length, slice_index, slice_get, Some, replicate, All};
ghost use Rattle.timetable.specs.RoundSteps.{Lowers, CarriesAny};
ghost use Rattle.timetable.specs.Lines.{AreLinesOf};
ghost use Rattle.timetable.specs.declared.limits.TheConstants.{MOST_TRIPS};
ghost use Rattle.trip_lanes.specs.Lane.{lane, labels_in, MarksFallenOf};
ghost use Rattle.rounds.specs.Cut.{cut_trips};
ghost use Rattle.rounds.specs.Scan.{CarriesLine, AreSized, AreDue, AreCarried, AreCarriedOn};

use timetable::{Lines, NumberedTrips};
use trip_lanes::{LaneLabels, LineView, ReadyLabels, scan_line};

/// Makes all labels NEVER.
pub(crate) fn clear<R: LaneLabels>(labels: &mut [R])
    ensures { (l : ℕ) → l < R.LANES → lane l (labels_in R.labels labels.new) ≡ replicate (length labels.old) R.NEVER }
{
    for stop in 0..labels.len() {
        labels[stop] = R::all(R::NEVER);
    }
}

/// What a round of rides goes by: from when one may board at each stop, and how far this fell.
#[derive(Clone, Copy)]
pub(crate) struct Round<'a, 'b, R> {
    pub trips: &'a NumberedTrips<'a>,
    pub lines: &'a Lines,
    pub labels: ReadyLabels<'b, R>,
    /// From when on labels count, in seconds on the axis.
    pub base: u32,
}

/// Carries travellers along the trips of a line: at least who is ready by a departure and was not before. Nobody newly
/// catches a trip of it before the first position.
fn scan_trips<R: LaneLabels>(
    round: Round<'_, '_, R>,
    line: u32,
    first: usize,
    ride: &mut [R],
    marked: &mut [bool],
)
    requires lines { AreLinesOf (length ride.old) round.trips.now round.lines.now }
    requires line { line < length round.lines.now.lines }
    requires stops { All (λ t. All (λ e. e.stop.0 < length ride.old) t.events) round.trips.now }
    requires short { All (λ row. length row ≤ R.NEVER) round.lines.now.lines }
    requires labels { AreSized (length ride.old) round.labels }
    requires marked { length marked.old ≡ length ride.old }
    requires fits { (l p : ℕ) → l < R.LANES → slice_index (lane l (labels_in R.labels ride.old)) p ≤ R.NEVER }
    requires before { (row : List ℕ) → slice_get round.lines.now.lines line ≡ Some row → (l : ℕ) → l < R.LANES →
        AreCarriedOn (cut_trips round.base R.NEVER round.trips.now) row
        (lane l (labels_in R.labels round.labels.ready.now)) round.labels.falls.now first
        (lane l (labels_in R.labels ride.old)) }
    ensures lanes { (row : List ℕ) → slice_get round.entry.lines.now.lines line ≡ Some row → (l : ℕ) → l < R.LANES →
        Lowers (CarriesLine (lane l (labels_in R.labels round.entry.labels.ready.now))
        (cut_trips round.entry.base R.NEVER round.entry.trips.now) row) (lane l (labels_in R.labels ride.old))
        (lane l (labels_in R.labels ride.new)) }
    ensures marks { MarksFallenOf R.LANES (labels_in R.labels ride.old) (labels_in R.labels ride.new) marked.old
        marked.new }
{
    let _ = round.trips;
    let row = round.lines.trips_of(line);
    let calls = round.lines.calls_of(line);
    let times = round.lines.times_of(line);
    let view = LineView {
        calls,
        times,
        trips: row.len(),
        base: round.base,
    };
    scan_line(view, first, round.labels, ride, marked);
}

/// Carries travellers line by line, from where each line is due, along at least the trips that they newly catch. It is
/// a function of its own, so that its loops have registers enough.
#[inline(never)]
pub(crate) fn scan_lines<R: LaneLabels>(
    round: Round<'_, '_, R>,
    due: &[u32],
    ride: &mut [R],
    marked: &mut [bool],
)
    requires lines { AreLinesOf (length ride.old) round.trips.now round.lines.now }
    requires few_trips { length round.trips.now ≤ MOST_TRIPS }
    requires stops { All (λ t. All (λ e. e.stop.0 < length ride.old) t.events) round.trips.now }
    requires short { All (λ row. length row ≤ R.NEVER) round.lines.now.lines }
    requires labels { AreSized (length ride.old) round.labels }
    requires due { length due.now ≡ length round.lines.now.lines }
    requires noted { AreDue round.lines.now.boarded round.labels.falls.now due.now }
    requires marked { length marked.old ≡ length ride.old }
    requires fits { (l p : ℕ) → l < R.LANES → slice_index (lane l (labels_in R.labels ride.old)) p ≤ R.NEVER }
    requires before { (l : ℕ) → l < R.LANES → AreCarried (cut_trips round.base R.NEVER round.trips.now)
        (lane l (labels_in R.labels round.labels.ready.now)) round.labels.falls.now
        (lane l (labels_in R.labels ride.old)) }
    ensures lanes { (l : ℕ) → l < R.LANES → Lowers
        (CarriesAny (lane l (labels_in R.labels round.entry.labels.ready.now))
        (cut_trips round.entry.base R.NEVER round.entry.trips.now)) (lane l (labels_in R.labels ride.old))
        (lane l (labels_in R.labels ride.new)) }
    ensures marks { MarksFallenOf R.LANES (labels_in R.labels ride.old) (labels_in R.labels ride.new) marked.old
        marked.new }
{
    for i in 0..round.lines.count() {
        let first = due[i] as usize;
        if first < round.lines.calls_of(i as u32).len() {
            scan_trips(round, i as u32, first, ride, marked);
        }
    }
}
