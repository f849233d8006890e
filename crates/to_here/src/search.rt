//! [`durations_to`]: the row of a destination, by a search of its deadlines over the mirrored network.
ghost use Rattle.std.specs.Prelude.{◌≡◌, ◌-◌, ◌↔◌, ◌<◌, ◌≤◌, ℕ, [], All, IfOk, IsTrue, OnOk, length, slice_index, take};
ghost use Rattle.rounds.specs.declared.window.TheConstants.{MOST_RIDES};
ghost use Rattle.rounds.specs.LatestFirst.{IsLaneDuration, after_batch};
ghost use Rattle.rounds.specs.Window.{Fits};
ghost use Rattle.trip_lanes.specs.declared.lanes.TheConstants.{LANES as LANES_VALUE};
ghost use Rattle.to_here.specs.Front.{IsFrontOf};
ghost use Rattle.to_here.specs.Row.{IsOriginOf, IsRowTo};
ghost use Rattle.to_here.specs.Search.{AreDeadlinesFrom, AreMirroredDepartures, AreOriginsDone, AreOriginsSearched};
ghost use Rattle.to_here.specs.Search.{FitsHorizon, HaveTaken, IsLabelOf, IsNetworkPair, IsSearchOf, IsValidQuestion};

use crate::row::{
    OriginDurations, advance_origin, begin_row, finish_row, is_row_full, last_fronts,
};
use reversal::{deadlines_of, walks_to};
use rounds::{LatestFirst, Window};
use std::alloc::{AllocError, Global};
use timetable::{NEVER, Network, StopNo};
use trip_lanes::{LANES, Lanes};

/// A network, its mirrored network, and the horizon at which time is reversed.
#[derive(Clone, Copy)]
pub struct NetworkPair<'a> {
    /// The network.
    pub network: &'a Network,
    /// The mirrored network, as `reversal::mirrored` builds it.
    pub mirrored: &'a Network,
    /// The horizon of the mirrored network, in seconds on the axis.
    pub horizon: u32,
}

/// From every stop to `destination`, at each departure of the window, by at most `rides` rides.
#[derive(Clone, Copy)]
pub(crate) struct Question<'a> {
    pub networks: NetworkPair<'a>,
    pub destination: StopNo,
    pub window: Window,
    pub rides: u32,
}

/// Whether no departure of the window and no deadline of `destination` is later than the horizon, so that
/// [`durations_to`] can be asked. Out of memory is the only error.
pub fn fits_horizon(
    alloc: Global,
    networks: NetworkPair<'_>,
    destination: StopNo,
    window: Window,
) -> Result<bool, AllocError>
    requires { Fits window }
    ensures { IfOk result (λ fits. IsTrue fits →
        FitsHorizon networks.entry.horizon networks.entry.network.now window destination.0) }
{
    let deadlines = deadlines_of(alloc, networks.network, destination, window.first)?;
    let count = deadlines.len();
    if networks.horizon < window.first + 60 * (window.minutes - 1) {
        return Ok(false);
    }
    if count == 0 {
        return Ok(true);
    }
    if networks.horizon < deadlines[count - 1] {
        return Ok(false);
    }
    Ok(true)
}

/// Returns the least durations to `destination` from every stop, for each departure of the window and journeys of at
/// most `rides` rides. Out of memory is the only error.
///
/// Searches the deadlines of the destination in ascending order, sixteen at a time, and stops as soon as no further
/// deadline serves any departure.
pub fn durations_to(
    alloc: Global,
    networks: NetworkPair<'_>,
    destination: StopNo,
    window: Window,
    rides: u32,
) -> Result<Vec<OriginDurations>, AllocError>
    requires networks { IsNetworkPair networks }
    requires destination { destination.0 < networks.network.now.stops }
    requires window { Fits window }
    requires rides { rides ≤ MOST_RIDES }
    requires horizon { FitsHorizon networks.horizon networks.network.now window destination.0 }
    ensures { IfOk result (λ row. IsRowTo networks.entry.network.now window rides destination.0 row.items) }
{
    let network = networks.network;
    network.known();
    let question = Question {
        networks,
        destination,
        window,
        rides,
    };
    let deadlines = deadlines_of(alloc, network, destination, window.first)?;
    let mut row = begin_row(alloc, window, network.stops() as usize)?;
    search_deadlines(alloc, question, &deadlines, &mut row)?;
    let walks = walks_to(alloc, network.feet(), destination)?;
    finish_row(&mut row, &walks);
    Ok(row)
}

/// Takes the labels of the deadlines for every origin, until they are enough. Out of memory is the only error.
fn search_deadlines(
    alloc: Global,
    question: Question<'_>,
    deadlines: &[u32],
    row: &mut [OriginDurations],
) -> Result<(), AllocError>
    requires question { IsValidQuestion question }
    requires deadlines { AreDeadlinesFrom question.networks.network.now question.destination.0 question.window.first
        deadlines.now }
    requires row { AreOriginsSearched question [] row.old }
    ensures { OnOk result (AreOriginsDone question.entry row.new) }
{
    question.networks.network.known();
    if deadlines.len() == 0 {
        return Ok(());
    }
    search_batches(alloc, question, deadlines, row)
}

/// Takes the labels of at least one deadline, batch by batch. Out of memory is the only error.
fn search_batches(
    alloc: Global,
    question: Question<'_>,
    deadlines: &[u32],
    row: &mut [OriginDurations],
) -> Result<(), AllocError>
    requires question { IsValidQuestion question }
    requires some { 0 < length deadlines.now }
    requires deadlines { AreDeadlinesFrom question.networks.network.now question.destination.0 question.window.first
        deadlines.now }
    requires row { AreOriginsSearched question [] row.old }
    ensures { OnOk result (AreOriginsDone question.entry row.new) }
{
    question.networks.network.known();
    let end = deadlines[deadlines.len() - 1];
    let labels = labels_of_end(alloc, question, end)?;
    let lasts = last_fronts(alloc, question.window, end, &labels)?;
    let departures = mirrored_departures(alloc, question.networks.horizon, deadlines)?;
    let mut search = LatestFirst::new(
        alloc,
        question.networks.mirrored,
        question.destination,
        &departures,
        question.rides,
    )?;
    let batches = search.position() / LANES;
    for _ in 0..batches {
        advance_next(question, deadlines, &mut search, row);
        if is_row_full(row, &lasts) {
            return Ok(());
        }
    }
    Ok(())
}

/// Returns the departures over the mirrored network, in ascending order. Out of memory is the only error.
fn mirrored_departures(
    alloc: Global,
    horizon: u32,
    deadlines: &[u32],
) -> Result<Vec<u32>, AllocError>
    requires { All (λ time. time ≤ horizon) deadlines.now }
    ensures { IfOk result (λ departures. AreMirroredDepartures horizon deadlines.now departures.items) }
{
    let count = deadlines.len();
    let mut departures = Vec::with_capacity(alloc, count)?;
    for i in 0..count {
        departures.push(horizon - deadlines[count - 1 - i])?;
    }
    Ok(departures)
}

/// Returns the label of one time for each origin. Out of memory is the only error.
fn labels_of_end(alloc: Global, question: Question<'_>, end: u32) -> Result<Vec<u32>, AllocError>
    requires question { IsValidQuestion question }
    requires end { end ≤ question.networks.horizon }
    ensures count { IfOk result (λ labels. length labels.items ≡ question.entry.networks.network.now.stops) }
    ensures each { IfOk result (λ labels. (o : ℕ) → o < question.entry.networks.network.now.stops →
        IsLabelOf question.entry end o (slice_index labels.items o)) }
{
    question.networks.network.known();
    let departures = [question.networks.horizon - end];
    let mut search = LatestFirst::new(
        alloc,
        question.networks.mirrored,
        question.destination,
        &departures,
        question.rides,
    )?;
    search.next();
    let labels = first_lanes(alloc, &search)?;
    Ok(labels)
}

/// Returns the first lane of the last batch for each stop. Out of memory is the only error.
fn first_lanes(alloc: Global, search: &LatestFirst<'_>) -> Result<Vec<u32>, AllocError>
    ensures count { IfOk result (λ labels. length labels.items ≡ search.now.net.stops) }
    ensures each { IfOk result (λ labels. (o : ℕ) → o < search.now.net.stops →
        IsLaneDuration search.now o 0 (slice_index labels.items o)) }
{
    let stops = search.stops();
    let mut labels = Vec::with_capacity(alloc, stops as usize)?;
    for o in 0..stops {
        let lanes = search.lanes_of(StopNo(o));
        labels.push(lanes[0])?;
    }
    Ok(labels)
}

/// Searches the next batch, and takes its labels for every origin.
fn advance_next(
    question: Question<'_>,
    deadlines: &[u32],
    search: &mut LatestFirst<'_>,
    row: &mut [OriginDurations],
)
    requires question { IsValidQuestion question }
    requires search { IsSearchOf question deadlines.now search.old }
    requires more { 0 < search.old.from }
    requires row { AreOriginsSearched question (take (length deadlines.now - search.old.from) deadlines.now) row.old }
    ensures search { search.new ≡ after_batch search.old }
    ensures row { AreOriginsSearched question.entry (take (length deadlines.now - search.new.from) deadlines.now)
        row.new }
{
    let count = deadlines.len();
    let from = count.saturating_sub(search.position());
    search.next();
    let to = count.saturating_sub(search.position());
    advance_batch(question.window, &deadlines[from..to], search, row);
}

/// Takes the labels of the last batch for every origin. Its lanes stand in descending order of the deadlines.
fn advance_batch(
    window: Window,
    deadlines: &[u32],
    search: &LatestFirst<'_>,
    row: &mut [OriginDurations],
)
    requires fits { Fits window }
    requires deadlines { length deadlines.now ≤ LANES_VALUE }
    requires stops { length row.old ≡ search.now.net.stops }
    requires origins { All (IsOriginOf window) row.old }
    ensures count { length row.new ≡ length row.old }
    ensures origins { All (IsOriginOf window) row.new }
    ensures taken { HaveTaken window deadlines.now search.now row.old row.new }
{
    let width = deadlines.len();
    for o in 0..search.stops() {
        let labels = reversed(search.lanes_of(StopNo(o)), width);
        advance_origin(window, deadlines, &labels[0..width], &mut row[o as usize]);
    }
}

/// Returns the first `width` lanes in reverse order.
fn reversed(lanes: Lanes, width: usize) -> Lanes
    requires { width ≤ LANES_VALUE }
    ensures { (j : ℕ) → j < width → slice_index result j ≡ slice_index lanes (width - 1 - j) }
{
    let mut labels = [NEVER; LANES];
    for j in 0..width {
        labels[j] = lanes[width - 1 - j];
    }
    labels
}
