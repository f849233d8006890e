//! [`LatestFirst`]: the least durations from one origin for departures at any times, batch by batch from the latest.
//!
//! Labels are wide, so they represent every arrival.
ghost use Rattle.std.specs.Prelude.{◌≡◌, ℕ, ◌+◌, ◌*◌, ◌%◌, ◌<◌, ◌≤◌, ◌↔◌, IsTrue, length, replicate, slice_index, IfOk};
ghost use Rattle.timetable.specs.declared.least.TheConstants.{NEVER as NEVER_VALUE};
ghost use Rattle.trip_lanes.specs.declared.lanes.TheConstants.{LANES as LANES_VALUE};
ghost use Rattle.rounds.specs.LatestFirst.{IsLaneDuration, IsUnderWay, after_batch, begun, search_of};
ghost use Rattle.rounds.specs.Query.{AreDepartures, IsValidQuery};
ghost use Rattle.rounds.specs.Table.{batches_of};
ghost use Rattle.rounds.specs.declared.window.TheConstants.{MOST_RIDES};

use crate::batches::{Bounds, no_bounds, run_batch};
use crate::query::Query;
use crate::wide::write_batch;
use crate::workspace::Workspace;
use std::alloc::{AllocError, Global};
use std::marker::Model;
use timetable::{END_OF_AXIS, Lines, NEVER, Network, Renumbered, StopNo};
use trip_lanes::{LANES, Lanes};

/// Whether these are departures that [`LatestFirst`] can search: at least one, in strictly ascending order, and all of
/// them on the axis.
pub fn are_departures(times: &[u32]) -> bool
    ensures { IsTrue result ↔ AreDepartures times.now }
{
    let count = times.len();
    for j in 1..count {
        if times[j] <= times[j - 1] {
            return false;
        }
    }
    0 < count && times[count - 1] < END_OF_AXIS
}

/// The state that a search carries from batch to batch.
#[derive(Drop)]
pub(crate) struct Progress {
    pub workspace: Workspace<Lanes>,
    /// The times of the first departure that was searched, which bound the next batch.
    pub bounds: Bounds,
    /// The durations of the last batch, a row for each stop by its search number.
    pub durations: Vec<Lanes>,
}

/// A search from one origin at each of some departures, for journeys of at most a number of rides.
///
/// [`LatestFirst::next`] searches a batch of sixteen departures, the latest first, because an earlier departure arrives
/// nowhere later. A caller that knows enough after some batches stops there.
///
/// Contracts see a record of the network, the origin, the departures, the number of rides, and the position of the first
/// departure that was searched.
#[derive(Drop)]
pub struct LatestFirst<'a> {
    network: &'a Network,
    origin: StopNo,
    times: &'a [u32],
    rides: u32,
    /// The position of the first departure that was searched.
    from: usize,
    /// The network with stops by their search numbers, its lines, and the number of each stop.
    renumbered: Renumbered<'a>,
    lines: &'a Lines,
    numbers: &'a [u32],
    progress: Progress,
}

impl<'a> Model for LatestFirst<'a> {
    ghost use Rattle.rounds.specs.LatestFirst.{DepartureSearch, IsSearchIn};

    ghost Value = { DepartureSearch };

    ghost view = { λ s. record {
      net = s.network.now;
      origin = s.origin.0;
      times = s.times.now;
      rides = s.rides;
      from = s.from;
    } };

    ghost invariant = { λ s. IsSearchIn (record {
      net = s.network.now;
      origin = s.origin.0;
      times = s.times.now;
      rides = s.rides;
      from = s.from;
    }) s.numbers.now s.renumbered s.lines.now s.progress };
}

impl<'a> LatestFirst<'a> {
    /// Prepares a search from `origin` at each of `times`, in seconds on the axis, for journeys of at most `rides` rides.
    /// Nothing is searched yet. Out of memory is the only error.
    pub fn new(
        alloc: Global,
        network: &'a Network,
        origin: StopNo,
        times: &'a [u32],
        rides: u32,
    ) -> Result<Self, AllocError>
        requires origin { origin.0 < network.now.stops }
        requires times { AreDepartures times.now }
        requires rides { rides ≤ MOST_RIDES }
        ensures { IfOk result (λ search. search ≡ begun network.now origin.0 times.now rides) }
    {
        network.known();
        let (renumbered, numbers) = network.renumbered();
        let lines = renumbered.lines();
        let query = Query {
            network: &renumbered,
            lines,
            origin: StopNo(numbers[origin.0 as usize]),
            times,
            rides,
        };
        let progress = begin(alloc, query)?;
        let from = LANES * ((times.len() + (LANES - 1)) / LANES);
        Ok(LatestFirst {
            network,
            origin,
            times,
            rides,
            from,
            renumbered,
            lines,
            numbers,
            progress,
        })
    }

    /// Searches the next batch: the sixteen departures before those that were searched, or the last ones. Returns
    /// `false`, and does nothing, once all departures have been searched.
    pub fn next(&mut self) -> bool
        ensures more { IsTrue result ↔ 0 < self.old.from }
        ensures new { self.new ≡ after_batch self.old }
    {
        if self.from == 0 {
            return false;
        }
        let from = self.from - LANES;
        let numbers = self.numbers;
        let query = Query {
            network: &self.renumbered,
            lines: self.lines,
            origin: StopNo(numbers[self.origin.0 as usize]),
            times: self.times,
            rides: self.rides,
        };
        search_batch(query, from, &mut self.progress);
        self.from = from;
        true
    }

    /// How many stops the network has.
    pub fn stops(&self) -> u32
        ensures { result ≡ self.now.net.stops }
    {
        self.network.stops()
    }

    /// The position of the first departure that was searched, a multiple of sixteen.
    pub fn position(&self) -> usize
        ensures position { result ≡ self.now.from }
        ensures whole { self.now.from % LANES_VALUE ≡ 0 }
        ensures few { self.now.from < length self.now.times + LANES_VALUE }
    {
        // Reading a field brings the invariant into the proof.
        let _ = &self.progress;
        self.from
    }

    /// The least durations to a stop, in seconds and with waiting, for the departures of the last batch: lane by lane
    /// from [`LatestFirst::position`] on, and `NEVER` if no journey leads there. Lanes past the last departure hold
    /// `NEVER`, too.
    pub fn lanes_of(&self, stop: StopNo) -> Lanes
        requires { stop.0 < self.now.net.stops }
        ensures { (l : ℕ) → l < LANES_VALUE → IsLaneDuration self.now stop.0 l (slice_index result l) }
    {
        self.network.known();
        let number = self.numbers[stop.0 as usize];
        self.progress.durations[number as usize]
    }
}

/// Allocates a row of `NEVER` for each stop. Out of memory is the only error.
fn no_durations(alloc: Global, stops: u32) -> Result<Vec<Lanes>, AllocError>
    ensures { IfOk result (λ rows. rows.items ≡ replicate stops (replicate LANES_VALUE NEVER_VALUE)) }
{
    Ok(vec![in alloc; [NEVER; LANES]; stops as usize]?)
}

/// Allocates the state of a search that has searched nothing yet. Out of memory is the only error.
fn begin(alloc: Global, query: Query<'_>) -> Result<Progress, AllocError>
    requires { IsValidQuery query }
    ensures { IfOk result (λ progress.
        IsUnderWay (search_of query.entry (LANES_VALUE * batches_of (length query.entry.times.now)))
        query.entry.lines.now progress) }
{
    query.network.known();
    let stops = query.network.stops();
    let bounds = no_bounds(alloc, query)?;
    let mut workspace = Workspace::new(alloc);
    workspace.fit(alloc, stops, query.lines)?;
    let durations = no_durations(alloc, stops)?;
    Ok(Progress {
        workspace,
        bounds,
        durations,
    })
}

/// Searches the batch that begins at position `from`, once those after it have been searched.
fn search_batch(query: Query<'_>, from: usize, progress: &mut Progress)
    requires query { IsValidQuery query }
    requires from { from < length query.times.now }
    requires progress { IsUnderWay (search_of query (from + LANES_VALUE)) query.lines.now progress.old }
    ensures { IsUnderWay (search_of query.entry from) query.entry.lines.now progress.new }
{
    query.network.known();
    let batch = run_batch(query, from, &mut progress.bounds, &mut progress.workspace);
    let durations = progress.durations.as_mut_slice();
    write_batch(durations, &progress.workspace, batch.departures, 0, 1);
}
