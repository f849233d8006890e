//! Stops that no journey of a query reaches, however late it arrives: where labels that reach less far don't tell
//! whether somebody is late, one search of the first departure does, by labels that reach as far as times go.
ghost use Rattle.std.specs.Prelude.{◌≡◌, ◌≢◌, ℕ, ◌<◌, ◌≤◌, length, slice_index, All, OnOk};
ghost use Rattle.timetable.specs.declared.least.TheConstants.{NEVER as NEVER_VALUE};
ghost use Rattle.trip_lanes.specs.Lane.{lane, labels_in};
ghost use Rattle.rounds.specs.Batches.{departure_at, start_at};
ghost use Rattle.rounds.specs.Cut.{cut_net};
ghost use Rattle.rounds.specs.CappedLabels.{LaneStateTo};
ghost use Rattle.rounds.specs.Query.{IsValidQuery, IsWorkspaceFor};
ghost use Rattle.rounds.specs.Searches.{AreLast, IsSearch};
ghost use Rattle.rounds.specs.State.{arrival};

use crate::bounded::{Batch, no_times, run_bounded};
use crate::query::Query;
use crate::workspace::Workspace;
use std::alloc::{AllocError, Global};
use timetable::NEVER;
use trip_lanes::{LaneLabels, Lanes};

/// How late somebody may be at each stop.
#[derive(Drop)]
pub(crate) struct LastArrivals {
    /// In seconds on the axis: nobody alights there later, or gets there by a walk after a ride.
    pub times: Vec<u32>,
    /// The workspace in which stops are found that no journey reaches.
    pub wide: Workspace<Lanes>,
}

/// Fills in by when each stop is reached from the first departure of the query, in the first lane.
fn run_first(
    alloc: Global,
    query: Query<'_>,
    workspace: &mut Workspace<Lanes>,
) -> Result<(), AllocError>
    requires query { IsValidQuery query }
    requires ranks { All (λ row. length row ≤ NEVER_VALUE) query.lines.now.lines }
    requires workspace { IsWorkspaceFor query.network.now.stops query.lines.now workspace.old }
    ensures workspace { OnOk result (IsWorkspaceFor query.entry.network.now.stops query.entry.lines.now workspace.new) }
    ensures state { OnOk result (LaneStateTo NEVER_VALUE (cut_net 0 NEVER_VALUE query.entry.network.now)
        (start_at query.entry (departure_at query.entry 0)) query.entry.rides
        (lane 0 (labels_in (λ row. row) workspace.new.ride.items))
        (lane 0 (labels_in (λ row. row) workspace.new.ready.labels.items))) }
{
    query.network.known();
    let mut rounds = no_times(alloc, query.network.stops() as usize, query.rides)?;
    let departures = Lanes::minutely(query.times[0], 1);
    run_bounded(
        query,
        Batch {
            base: 0,
            departures,
            bounded_by: NEVER,
            saves_bounds: false,
        },
        rounds.as_mut_slice(),
        workspace,
    );
    Ok(())
}

/// The number of a stop, or 0 where its label is never.
fn number_of<R: LaneLabels>(arrived: u32, last: u32) -> u32
    ensures falls { result ≤ last }
    ensures kept { arrived ≢ R.NEVER → result ≡ last }
{
    if arrived == R::NEVER { 0 } else { last }
}

/// Makes the number of each stop 0 that is never reached in the first lane.
fn leave_out<R: LaneLabels>(ride: &[R], ready: &[R], last: &mut [u32])
    requires ride { length ride.now ≡ length last.old }
    requires ready { length ready.now ≡ length last.old }
    ensures same { length last.new ≡ length last.old }
    ensures falls { (p : ℕ) → slice_index last.new p ≤ slice_index last.old p }
    ensures kept { (p : ℕ) → p < length last.old →
        arrival (lane 0 (labels_in R.labels ride.now)) (lane 0 (labels_in R.labels ready.now)) p ≢ R.NEVER →
        slice_index last.new p ≡ slice_index last.old p }
{
    for stop in 0..last.len() {
        let arrived = ride[stop].lower_of(ready[stop]).first();
        let number = number_of::<R>(arrived, last[stop]);
        last[stop] = number;
    }
}

/// Makes the number of each stop 0 that no journey of the query reaches: who leaves later reaches no more stops than
/// who leaves first. Out of memory is the only error.
pub(crate) fn leave_out_unreached(
    alloc: Global,
    query: Query<'_>,
    workspace: &mut Workspace<Lanes>,
    last: &mut [u32],
) -> Result<(), AllocError>
    requires search { IsSearch NEVER_VALUE query last.old }
    ensures last { OnOk result (AreLast query.entry last.new) }
    ensures falls { (p : ℕ) → slice_index last.new p ≤ slice_index last.old p }
{
    query.network.known();
    workspace.fit(alloc, query.network.stops(), query.lines)?;
    run_first(alloc, query, workspace)?;
    let ride = workspace.ride.as_slice();
    let ready = workspace.ready.labels.as_slice();
    leave_out(ride, ready, last);
    workspace.give_back(alloc, query.network.stops());
    Ok(())
}
