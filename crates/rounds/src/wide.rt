//! All departures of a query by wide labels, which represent every arrival.
ghost use Rattle.std.specs.Prelude.{◌≡◌, ◌≢◌, ℕ, ◌+◌, ◌*◌, ◌<◌, ◌≤◌, [], length, slice_index, slice_index_or, OnOk};
ghost use Rattle.timetable.specs.declared.least.TheConstants.{NEVER as NEVER_VALUE};
ghost use Rattle.trip_lanes.specs.Since.{IsSinceTo};
ghost use Rattle.trip_lanes.specs.declared.lanes.TheConstants.{LANES as LANES_VALUE};
ghost use Rattle.rounds.specs.Query.{IsValidQuery, IsWorkspaceFor};
ghost use Rattle.rounds.specs.Searches.{HasPackedDurations, HaveRoom, arrival_in};

use crate::batches::{no_bounds, run_batch};
use crate::query::Query;
use crate::workspace::Workspace;
use std::alloc::{AllocError, Global};
use trip_lanes::{LANES, LaneLabels, Lanes, since};

/// Writes for a batch how long after its departure each stop is reached, by a ride or by a walk, among the durations of
/// all departures, where those of a stop stand side by side.
pub(crate) fn write_batch(
    labels: &mut [Lanes],
    workspace: &Workspace<Lanes>,
    departures: Lanes,
    at: usize,
    batches: usize,
)
    requires at { at < batches }
    requires same { length workspace.now.ride.items ≡ length workspace.now.ready.labels.items }
    requires room { length labels.old ≡ length workspace.now.ready.labels.items * batches }
    requires fits { (l p : ℕ) → l < LANES_VALUE → p < length workspace.now.ready.labels.items →
        arrival_in (λ row. row) workspace.now l p ≤ NEVER_VALUE }
    requires since { (l p : ℕ) → l < LANES_VALUE → p < length workspace.now.ready.labels.items →
        arrival_in (λ row. row) workspace.now l p ≢ NEVER_VALUE →
        slice_index departures l ≤ arrival_in (λ row. row) workspace.now l p }
    ensures same { length labels.new ≡ length labels.old }
    ensures written { (l p : ℕ) → l < LANES_VALUE → p < length workspace.now.ready.labels.items →
        IsSinceTo NEVER_VALUE (slice_index departures l) (arrival_in (λ row. row) workspace.now l p)
        (slice_index (slice_index_or labels.new (p * batches + at) []) l) }
    ensures kept { (p b : ℕ) → b < batches → b ≢ at →
        slice_index_or labels.new (p * batches + b) [] ≡ slice_index_or labels.old (p * batches + b) [] }
{
    let ride = workspace.ride.as_slice();
    let ready = workspace.ready.labels.as_slice();
    for stop in 0..ready.len() {
        let arrived = ride[stop].lower_of(ready[stop]);
        labels[stop * batches + at] = since(arrived, departures);
    }
}

/// Writes the least durations for each departure of a query, batch by batch from the last, each bounded by the one after
/// it. The rows of a stop have space for `minutes` durations. Out of memory is the only error.
pub(crate) fn run_window(
    alloc: Global,
    query: Query<'_>,
    minutes: u32,
    workspace: &mut Workspace<Lanes>,
    labels: &mut [Lanes],
) -> Result<(), AllocError>
    requires query { IsValidQuery query }
    requires few { length query.times.now ≤ minutes }
    requires workspace { IsWorkspaceFor query.network.now.stops query.lines.now workspace.old }
    requires room { HaveRoom query minutes labels.old }
    ensures { OnOk result (HasPackedDurations query.entry minutes labels.new) }
{
    query.network.known();
    let batches = (query.times.len() + (LANES - 1)) / LANES;
    let chunks = (minutes as usize + (LANES - 1)) / LANES;
    let mut bounds = no_bounds(alloc, query)?;
    for i in 0..batches {
        let at = batches - 1 - i;
        let batch = run_batch(query, LANES * at, &mut bounds, workspace);
        write_batch(labels, workspace, batch.departures, at, chunks);
    }
    Ok(())
}
