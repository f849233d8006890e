//! A window of departures: which of its minutes are searched, and the durations of all minutes.
ghost use Rattle.std.specs.Prelude.{◌≡◌, ℕ, ◌*◌, ◌<◌, IfOk, OnOk};
ghost use Rattle.useful_minutes.specs.Plan.{AreMinutes, IsPlan, SkipsNothing};
ghost use Rattle.trip_lanes.specs.declared.lanes.TheConstants.{LANES};
ghost use Rattle.rounds.specs.Arrivals.{AreAllTold};
ghost use Rattle.rounds.specs.Batches.{AreWindowDurations};
ghost use Rattle.rounds.specs.Query.{AreDepartures, IsValidQuery};
ghost use Rattle.rounds.specs.Searches.{HasPackedDurations};
ghost use Rattle.rounds.specs.Skipped.{AreTimesOf, IsPlanOf};
ghost use Rattle.rounds.specs.Table.{batches_of};
ghost use Rattle.rounds.specs.Window.{Fits};

use crate::narrow::SearchedLabels;
use crate::query::Query;
use crate::window::Window;
use std::alloc::{AllocError, Global};
use timetable::{Renumbered, StopNo};
use trip_lanes::{LANES, Lanes};
use useful_minutes::{Found, Plan, count_durations, fill_in, plan_for, walk_alone};

/// A window, and how the durations of its minutes follow from those of the searched ones.
#[derive(Clone, Copy)]
pub(crate) struct WindowPlan<'a> {
    pub window: Window,
    /// The minutes of the window that are searched, in ascending order.
    pub searched: &'a [u32],
    /// For each minute, the position of the first searched minute that is no earlier.
    pub positions: &'a [u32],
    /// The seconds that each minute waits for it.
    pub waits: &'a [u32],
    /// The search number of each stop of the network.
    pub numbers: &'a [u32],
}

impl<'a> WindowPlan<'a> {
    /// The plan of a window, as `useful_minutes` gives it, and the stops' search numbers.
    pub(crate) fn new(window: Window, found: &'a Plan, numbers: &'a [u32]) -> Self
        ensures window { result.window ≡ window }
        ensures searched { result.searched.now ≡ found.now.minutes.items }
        ensures positions { result.positions.now ≡ found.now.positions.items }
        ensures waits { result.waits.now ≡ found.now.waits.items }
        ensures numbers { result.numbers.now ≡ numbers.now }
    {
        WindowPlan {
            window,
            searched: found.minutes.as_slice(),
            positions: found.positions.as_slice(),
            waits: found.waits.as_slice(),
            numbers,
        }
    }
}

/// Which minutes of a window are searched from an origin, and which of them stands in for each minute.
pub(crate) fn plan_of(
    alloc: Global,
    network: &Renumbered<'_>,
    origin: StopNo,
    window: Window,
) -> Result<Plan, AllocError>
    requires origin { origin.0 < network.now.stops }
    requires fits { Fits window }
    ensures plan { IfOk result (λ plan. IsPlan window.minutes (LANES * batches_of window.minutes) plan.minutes.items
        plan.positions.items plan.waits.items) }
    ensures skips { IfOk result (λ plan. SkipsNothing network.now origin.0 window.first window.minutes
        plan.minutes.items plan.positions.items) }
{
    let batches = (window.minutes as usize + (LANES - 1)) / LANES;
    plan_for(
        alloc,
        network,
        origin,
        window.first,
        window.minutes,
        (LANES * batches) as u32,
    )
}

/// Lists the departures in the searched minutes of a window, in seconds on the axis. Out of memory is the only error.
pub(crate) fn times_of(
    alloc: Global,
    window: Window,
    searched: &[u32],
) -> Result<Vec<u32>, AllocError>
    requires fits { Fits window }
    requires searched { AreMinutes window.minutes searched.now }
    ensures times { IfOk result (λ times. AreTimesOf window searched.now times.items) }
    ensures departures { IfOk result (λ times. AreDepartures times.items) }
{
    let mut times = Vec::with_capacity(alloc, searched.len())?;
    for j in 0..searched.len() {
        times.push(window.first + 60 * searched[j])?;
    }
    Ok(times)
}

/// Fills in the durations of all minutes of a window, where those of the searched minutes stand first: each is that of
/// the minute that stands in for it and the wait until then, or that of a walk alone. There is nothing to fill in where
/// each minute was searched. Out of memory is the only error.
pub(crate) fn fill_skipped(
    alloc: Global,
    query: Query<'_>,
    plan: WindowPlan<'_>,
    labels: &mut [Lanes],
) -> Result<(), AllocError>
    requires query { IsValidQuery query }
    requires plan { IsPlanOf query plan }
    requires packed { HasPackedDurations query plan.window.minutes labels.old }
    ensures { OnOk result (AreWindowDurations query.entry.network.now query.entry.origin.0 plan.entry.window
        query.entry.rides labels.new) }
{
    query.network.known();
    let minutes = plan.window.minutes as usize;
    let searched = plan.searched.len();
    if searched == minutes {
        return Ok(());
    }
    let batches = (minutes + (LANES - 1)) / LANES;
    let stops = query.network.stops() as usize;
    fill_in(alloc, labels, plan.positions, plan.waits, searched, stops)?;
    walk_alone(labels, query.network, query.origin, batches, minutes);
    Ok(())
}

/// The durations of all minutes of a window, counted from the narrow labels of the searched ones: each is that of the
/// minute that stands in for it and the wait until then, or that of a walk alone. Out of memory is the only error.
pub(crate) fn count_all(
    alloc: Global,
    query: Query<'_>,
    plan: WindowPlan<'_>,
    found: &SearchedLabels,
) -> Result<Vec<Lanes>, AllocError>
    requires query { IsValidQuery query }
    requires plan { IsPlanOf query plan }
    requires told { AreAllTold query found.now.width found.now.labels.items found.now.bases.items }
    ensures { IfOk result (λ labels. AreWindowDurations query.entry.network.now query.entry.origin.0 plan.entry.window
        query.entry.rides labels.items) }
{
    query.network.known();
    let minutes = plan.window.minutes;
    let searched = query.times.len();
    let bases = found.bases.as_slice();
    let view = Found {
        labels: found.labels.as_slice(),
        bases: &bases[..searched],
        width: found.width,
    };
    let stops = query.network.stops() as usize;
    let first = plan.window.first;
    let mut labels = count_durations(alloc, view, plan.positions, first, minutes, stops)?;
    if searched < minutes as usize {
        let chunks = (minutes as usize + (LANES - 1)) / LANES;
        walk_alone(
            &mut labels,
            query.network,
            query.origin,
            chunks,
            minutes as usize,
        );
    }
    Ok(labels)
}
