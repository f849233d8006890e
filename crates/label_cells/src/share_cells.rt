//! Cells and access of a window, for several shares at once.
ghost use Rattle.std.specs.Prelude.{◌≡◌, ◌+◌, ◌*◌, ◌/◌, ◌<◌, ◌≤◌, ℕ, All, length};
ghost use Rattle.std.specs.Prelude.{nat_le, slice_index, if◌then◌else◌, IfOk};
ghost use Rattle.timetable.specs.declared.limits.TheConstants.{MOST_STOPS};
ghost use Rattle.rounds.specs.Table.{known_of};
ghost use Rattle.label_cells.specs.ShareCells.{AreOfRanks, ArePicked, AreRanks, AreShareCellsOfLabels};
ghost use Rattle.label_cells.specs.ShareCells.{AreStopCells, AreSums, IsOfRank, access_by_stop};
ghost use Rattle.rounds.specs.Labels.{AreWindowLabels};

use crate::group::CellBuffers;
use crate::group_cells::{GROUP, rank_cells};
use crate::used::used_groups;
use rounds::WindowLabels;
use std::alloc::{AllocError, Global};
use timetable::{NEVER, StopNo};
use trip_lanes::Lanes;

/// The destinations, shares, opportunities and limits of a row.
#[derive(Clone, Copy)]
pub struct Question<'a> {
    /// The stops whose cells are wanted.
    pub destinations: &'a [StopNo],
    /// The shares of the minutes, of a hundred.
    pub shares: &'a [u32],
    /// The opportunities at each stop.
    pub opportunities: &'a [u32],
    /// The limits of access, in seconds.
    pub limits: &'a [u32],
}

/// The cells and the access of one share.
#[derive(Drop)]
pub struct ShareCells {
    /// The cell of each destination, in their order.
    pub cells: Vec<Option<u32>>,
    /// The access within each limit, in the limits' order.
    pub access: Vec<u64>,
}

/// Returns the rank of each share: how many minutes have to attain a duration. Out of memory is the only error.
fn ranks_of(alloc: Global, shares: &[u32], minutes: u32) -> Result<Vec<u32>, AllocError>
    requires minutes { minutes ≤ 1440 }
    requires shares { All (λ share. share ≤ 100) shares.now }
    ensures ranks { IfOk result (λ ranks. AreRanks minutes shares.now ranks.items) }
    ensures few { IfOk result (λ ranks. (k : ℕ) → k < length ranks.items → slice_index ranks.items k ≤ minutes) }
{
    let mut ranks = Vec::with_capacity(alloc, shares.len())?;
    for share in shares {
        ranks.push((*share * minutes + 99) / 100)?;
    }
    Ok(ranks)
}

/// Returns the cell of each stop for rank `k`, in the stops' order; `NEVER` for none. Out of memory is the only error.
fn stop_cells(
    alloc: Global,
    cells: &[Lanes],
    ranks: usize,
    k: usize,
    numbers: &[u32],
) -> Result<Vec<u32>, AllocError>
    requires k { k < ranks }
    requires cells { (p : ℕ) → p < length numbers.now → slice_index numbers.now p / 16 * ranks + ranks
        ≤ length cells.now }
    ensures { IfOk result (λ of_stops. AreStopCells ranks cells.now k numbers.now of_stops.items) }
{
    let mut of_stops = Vec::with_capacity(alloc, numbers.len())?;
    for number in numbers {
        let number = *number as usize;
        of_stops.push(cells[number / GROUP * ranks + k][number % GROUP])?;
    }
    Ok(of_stops)
}

/// A cell, or `None` for `NEVER`.
fn known(cell: u32) -> Option<u32>
    ensures { result ≡ known_of cell }
{
    if cell == NEVER { None } else { Some(cell) }
}

/// Picks the cells of the destinations. Out of memory is the only error.
fn picked(
    alloc: Global,
    of_stops: &[u32],
    destinations: &[StopNo],
) -> Result<Vec<Option<u32>>, AllocError>
    requires stops { All (λ stop. stop.0 < length of_stops.now) destinations.now }
    ensures { IfOk result (λ cells. ArePicked of_stops.now destinations.now cells.items) }
{
    let mut cells = Vec::with_capacity(alloc, destinations.len())?;
    for k in 0..destinations.len() {
        cells.push(known(of_stops[destinations[k].0 as usize]))?;
    }
    Ok(cells)
}

/// The sum of the opportunities at the stops whose cell is at most `limit` seconds.
fn sum_within(of_stops: &[u32], opportunities: &[u32], limit: u32) -> u64
    requires same { length of_stops.now ≡ length opportunities.now }
    requires few { length of_stops.now ≤ MOST_STOPS }
    ensures { result ≡ access_by_stop of_stops.now opportunities.now limit }
{
    // A limit below `NEVER`, so that a stop without a cell is within none.
    let limit = limit.min(NEVER - 1);
    let mut sum = 0;
    for p in 0..of_stops.len() {
        sum += counted(of_stops[p], opportunities[p], limit);
    }
    sum
}

/// The opportunities at a stop if its cell is at most `limit` seconds, else 0.
#[inline(always)]
fn counted(cell: u32, opportunities: u32, limit: u32) -> u64
    ensures value { result ≡ (if nat_le cell limit then opportunities else 0) }
    ensures bound { result ≤ 4294967295 }
{
    if cell <= limit {
        opportunities as u64
    } else {
        0
    }
}

/// Returns the access within each limit. Out of memory is the only error.
fn sums_within(
    alloc: Global,
    of_stops: &[u32],
    opportunities: &[u32],
    limits: &[u32],
) -> Result<Vec<u64>, AllocError>
    requires same { length of_stops.now ≡ length opportunities.now }
    requires few { length of_stops.now ≤ MOST_STOPS }
    ensures { IfOk result (λ sums. AreSums of_stops.now opportunities.now limits.now sums.items) }
{
    let mut sums = Vec::with_capacity(alloc, limits.len())?;
    for limit in limits {
        sums.push(sum_within(of_stops, opportunities, *limit))?;
    }
    Ok(sums)
}

/// Returns the cells and the access of rank `k`. Out of memory is the only error.
fn of_rank(
    alloc: Global,
    cells: &[Lanes],
    ranks: usize,
    k: usize,
    numbers: &[u32],
    question: Question<'_>,
) -> Result<ShareCells, AllocError>
    requires k { k < ranks }
    requires cells { (p : ℕ) → p < length numbers.now → slice_index numbers.now p / 16 * ranks + ranks
        ≤ length cells.now }
    requires few { length numbers.now ≤ MOST_STOPS }
    requires destinations { All (λ stop. stop.0 < length numbers.now) question.destinations.now }
    requires opportunities { length question.opportunities.now ≡ length numbers.now }
    ensures { IfOk result (λ given. IsOfRank ranks cells.now k numbers.now question.entry given) }
{
    let of_stops = stop_cells(alloc, cells, ranks, k, numbers)?;
    Ok(ShareCells {
        cells: picked(alloc, &of_stops, question.destinations)?,
        access: sums_within(alloc, &of_stops, question.opportunities, question.limits)?,
    })
}

/// Returns the cells and the access of each rank. Out of memory is the only error.
fn of_ranks(
    alloc: Global,
    cells: &[Lanes],
    ranks: usize,
    numbers: &[u32],
    question: Question<'_>,
) -> Result<Vec<ShareCells>, AllocError>
    requires cells { (p : ℕ) → p < length numbers.now → slice_index numbers.now p / 16 * ranks + ranks
        ≤ length cells.now }
    requires few { length numbers.now ≤ MOST_STOPS }
    requires destinations { All (λ stop. stop.0 < length numbers.now) question.destinations.now }
    requires opportunities { length question.opportunities.now ≡ length numbers.now }
    ensures { IfOk result (λ given. AreOfRanks ranks cells.now numbers.now question.entry ranks given.items) }
{
    let mut given = Vec::with_capacity(alloc, ranks)?;
    for k in 0..ranks {
        let here = of_rank(alloc, cells, ranks, k, numbers, question)?;
        given.push(here)?;
    }
    Ok(given)
}

/// Returns what each share of a window's minutes gives: the cells of the destinations, and the access of all stops.
///
/// The durations of all minutes are never written: cells come straight from the labels of the searched minutes. Groups
/// of sixteen stops without a destination or an opportunity are skipped. Out of memory is the only error.
pub fn cells_and_access(
    alloc: Global,
    buffers: &mut CellBuffers,
    window: WindowLabels<'_>,
    question: Question<'_>,
) -> Result<Vec<ShareCells>, AllocError>
    requires window { AreWindowLabels window }
    requires destinations { All (λ stop. stop.0 < length window.numbers.now) question.destinations.now }
    requires shares { All (λ share. share ≤ 100) question.shares.now }
    requires opportunities { length question.opportunities.now ≡ length window.numbers.now }
    ensures { IfOk result (λ given. AreShareCellsOfLabels window.entry question.entry given.items) }
{
    let numbers = window.numbers;
    let rank_list = ranks_of(alloc, question.shares, window.minutes)?;
    let ranks = rank_list.as_slice();
    let used = used_groups(
        alloc,
        numbers,
        question.destinations,
        question.opportunities,
    )?;
    let cells = rank_cells(alloc, buffers, window, used.as_slice(), ranks)?;
    of_ranks(alloc, cells.as_slice(), ranks.len(), numbers, question)
}
