//! All departures of a query by narrow labels, which may not represent every arrival. Each batch takes as many lanes as
//! it needs: sixteen, thirty-two or forty-eight.
ghost use Rattle.std.specs.Prelude.{◌≡◌, ℕ, ◌+◌, ◌*◌, ◌%◌, ◌<◌, ◌≤◌, ◌⊎◌, length, slice_index, IsTrue, IfOk, OnOk};
ghost use Rattle.timetable.specs.declared.limits.TheConstants.{END_OF_AXIS, MOST_STOPS};
ghost use Rattle.trip_lanes.specs.declared.lanes.TheConstants.{LANES as LANES_VALUE};
ghost use Rattle.useful_minutes.specs.Counted.{narrow_at};
ghost use Rattle.rounds.specs.Arrivals.{AreAllTold, AreFoundSoFar, HaveRoomFor};
ghost use Rattle.rounds.specs.Searches.{IsSearch, arrival_in};
ghost use Rattle.std.specs.Prelude.{◌≢◌};
ghost use Rattle.rounds.specs.Memory.{HoldsNothing};
ghost use Rattle.rounds.specs.declared.workspace.TheConstants.{MOST_STOPS_KEPT};

use crate::batches::{Bounds, is_in_range, no_bounds, try_batch};
use crate::query::Query;
use crate::unreached::LastArrivals;
use crate::workspace::Workspace;
use std::alloc::{AllocError, Global};
use trip_lanes::{FortyEight, LANES, LaneLabels, Narrow, NarrowLabels, Sixteen};

/// The workspaces of narrow labels, by how many departures stand side by side. Each grows when a batch first takes it.
#[derive(Drop)]
pub(crate) struct NarrowWorkspaces {
    sixteen: Workspace<Sixteen>,
    thirty_two: Workspace<Narrow>,
    forty_eight: Workspace<FortyEight>,
}

impl NarrowWorkspaces {
    /// Empty workspaces.
    pub(crate) fn new(alloc: Global) -> Self {
        NarrowWorkspaces {
            sixteen: Workspace::new(alloc),
            thirty_two: Workspace::new(alloc),
            forty_eight: Workspace::new(alloc),
        }
    }

    /// Gives memory back where a network is large: that of the workspaces that a batch of as many lanes as are left, in
    /// sixteens, doesn't take; all of it where none is left.
    fn keep_for(&mut self, alloc: Global, stops: u32, left: usize)
        ensures sixteen { MOST_STOPS_KEPT < stops → left ≢ 1 → HoldsNothing self.new.sixteen }
        ensures thirty_two { MOST_STOPS_KEPT < stops → left ≢ 2 → left ≢ 4 → HoldsNothing self.new.thirty_two }
        ensures forty_eight { MOST_STOPS_KEPT < stops → left < 3 → HoldsNothing self.new.forty_eight }
    {
        if left != 1 {
            self.sixteen.give_back(alloc, stops);
        }
        if left != 2 && left != 4 {
            self.thirty_two.give_back(alloc, stops);
        }
        if left < 3 || left == 4 {
            self.forty_eight.give_back(alloc, stops);
        }
    }
}

/// The labels of the departures, of each stop side by side. What they hold when a search begins doesn't matter.
#[derive(Drop)]
pub(crate) struct SearchedLabels {
    /// By when each stop is reached, in seconds from the base of the departure. There is space for fifteen stops more and
    /// eight labels after them, because readers take stops in groups of sixteen and labels in blocks of eight.
    pub labels: Vec<u16>,
    /// From when on the label at a position counts, in seconds on the axis.
    pub bases: Vec<u32>,
    /// How many labels of a stop stand side by side.
    pub width: usize,
    /// From which position on labels are found.
    pub from: usize,
}

impl SearchedLabels {
    /// Room for nothing yet.
    pub(crate) fn new(alloc: Global) -> Self {
        SearchedLabels {
            labels: Vec::new(alloc),
            bases: Vec::new(alloc),
            width: 0,
            from: 0,
        }
    }

    /// Makes room for so many labels of each stop, unless there is enough. None is found yet.
    fn fit(&mut self, alloc: Global, stops: usize, width: usize) -> Result<(), AllocError>
        requires stops { stops ≤ MOST_STOPS }
        requires width { width ≤ 2 * END_OF_AXIS }
        ensures room { OnOk result (HaveRoomFor stops width self.new.labels.items self.new.bases.items) }
        ensures width { OnOk result (self.new.width ≡ width) }
        ensures from { OnOk result (self.new.from ≡ width) }
    {
        let count = (stops + 15) * width + 8;
        if self.labels.len() < count {
            self.labels = vec![in alloc; 0; count]?;
        }
        if self.bases.len() < width {
            self.bases = vec![in alloc; 0; width]?;
        }
        self.width = width;
        self.from = width;
        Ok(())
    }
}

/// Writes the labels of a batch, from its position on, among those of all departures.
fn write_found<R: NarrowLabels>(
    found: &mut [u16],
    workspace: &Workspace<R>,
    from: usize,
    width: usize,
)
    requires from { from + R.LANES ≤ width }
    requires same { length workspace.now.ride.items ≡ length workspace.now.ready.labels.items }
    requires room { length workspace.now.ready.labels.items * width ≤ length found.old }
    ensures same { length found.new ≡ length found.old }
    ensures written { (l p : ℕ) → l < R.LANES → p < length workspace.now.ready.labels.items →
        narrow_at width found.new p (from + l) ≡ arrival_in R.labels workspace.now l p }
    ensures kept { (p j : ℕ) → p < length workspace.now.ready.labels.items → j < width →
        (j < from) ⊎ (from + R.LANES ≤ j) → narrow_at width found.new p j ≡ narrow_at width found.old p j }
{
    let ride = workspace.ride.as_slice();
    let ready = workspace.ready.labels.as_slice();
    for stop in 0..ready.len() {
        ride[stop]
            .lower_of(ready[stop])
            .put(found, stop * width + from);
    }
}

/// Writes the base of a batch for so many positions.
fn write_bases(bases: &mut [u32], from: usize, lanes: usize, base: u32)
    requires { from + lanes ≤ length bases.old }
    ensures same { length bases.new ≡ length bases.old }
    ensures written { (l : ℕ) → l < lanes → slice_index bases.new (from + l) ≡ base }
    ensures kept { (j : ℕ) → (j < from) ⊎ (from + lanes ≤ j) → slice_index bases.new j ≡ slice_index bases.old j }
{
    for l in 0..lanes {
        bases[from + l] = base;
    }
}

/// Finds the labels of the next batch, which ends where those found begin, of as many departures as there are lanes.
/// Returns `false` if labels can't represent every arrival.
fn find_batch<R: NarrowLabels>(
    alloc: Global,
    query: Query<'_>,
    bounds: &mut Bounds,
    workspace: &mut Workspace<R>,
    last: &mut LastArrivals,
    found: &mut SearchedLabels,
) -> Result<bool, AllocError>
    requires search { IsSearch 65535 query last.old.times.items }
    requires some { R.LANES ≤ found.old.from }
    requires found { AreFoundSoFar query bounds.old found.old }
    ensures search { OnOk result (IsSearch 65535 query.entry last.new.times.items) }
    ensures from { OnOk result (found.new.from + R.LANES ≡ found.old.from) }
    ensures found { IfOk result (λ told. IsTrue told → AreFoundSoFar query.entry bounds.new found.new) }
{
    query.network.known();
    workspace.fit(alloc, query.network.stops(), query.lines)?;
    found.from -= R::LANES;
    if !is_in_range::<R>(query, found.from) {
        return Ok(false);
    }
    let Some(base) = try_batch(alloc, query, found.from, bounds, workspace, last)? else {
        return Ok(false);
    };
    let labels = found.labels.as_mut_slice();
    write_found(labels, workspace, found.from, found.width);
    let bases = found.bases.as_mut_slice();
    write_bases(bases, found.from, R::LANES, base);
    Ok(true)
}

/// Finds the labels of the next batch, in as many lanes as it needs: sixteen, thirty-two or forty-eight departures are
/// one batch, and sixty-four are halved; of more, forty-eight are the next.
fn find_next(
    alloc: Global,
    query: Query<'_>,
    bounds: &mut Bounds,
    workspaces: &mut NarrowWorkspaces,
    last: &mut LastArrivals,
    found: &mut SearchedLabels,
) -> Result<bool, AllocError>
    requires search { IsSearch 65535 query last.old.times.items }
    requires some { 0 < found.old.from }
    requires whole { found.old.from % LANES_VALUE ≡ 0 }
    requires found { AreFoundSoFar query bounds.old found.old }
    ensures search { OnOk result (IsSearch 65535 query.entry last.new.times.items) }
    ensures from { OnOk result (found.new.from < found.old.from) }
    ensures whole { OnOk result (found.new.from % LANES_VALUE ≡ 0) }
    ensures found { IfOk result (λ told. IsTrue told → AreFoundSoFar query.entry bounds.new found.new) }
{
    match found.from / LANES {
        1 => find_batch(alloc, query, bounds, &mut workspaces.sixteen, last, found),
        2 | 4 => find_batch(
            alloc,
            query,
            bounds,
            &mut workspaces.thirty_two,
            last,
            found,
        ),
        _ => find_batch(
            alloc,
            query,
            bounds,
            &mut workspaces.forty_eight,
            last,
            found,
        ),
    }
}

/// Finds the labels of each departure of a query, batch by batch from the last, each bounded by the one after it.
/// Returns `false` if labels can't represent every arrival: what is found is then of no use.
///
/// `last` bounds how late somebody may be at each stop. Out of memory is the only error.
pub(crate) fn run_narrow(
    alloc: Global,
    query: Query<'_>,
    workspaces: &mut NarrowWorkspaces,
    last: &mut LastArrivals,
    found: &mut SearchedLabels,
) -> Result<bool, AllocError>
    requires search { IsSearch 65535 query last.old.times.items }
    ensures { IfOk result (λ told. IsTrue told →
        AreAllTold query.entry found.new.width found.new.labels.items found.new.bases.items) }
{
    query.network.known();
    let width = LANES * ((query.times.len() + (LANES - 1)) / LANES);
    found.fit(alloc, query.network.stops() as usize, width)?;
    let mut bounds = no_bounds(alloc, query)?;
    while found.from > 0 {
        workspaces.keep_for(alloc, query.network.stops(), found.from / LANES);
        if !find_next(alloc, query, &mut bounds, workspaces, last, found)? {
            return Ok(false);
        }
    }
    workspaces.keep_for(alloc, query.network.stops(), 0);
    Ok(true)
}
