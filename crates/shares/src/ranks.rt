//! The cells of several shares: the labels of a stop are laid out bit by bit once, and each share looks up its rank
//! there. A single share is quicker by halving.
ghost use Rattle.std.specs.Prelude.{◌≡◌, ◌<◌, ◌≤◌, ◌+◌, ◌^◌, ◌∷◌, [], All, length, IfOk, OnOk};
ghost use Rattle.rounds.specs.Table.{known_of, label_in, IsLeastOrNone};
ghost use Rattle.shares.specs.Percentiles.{Attains, AreCellsOf, AreCellsOfAt, HoldMinutes, IsTop};
ghost use Rattle.shares.specs.declared.planes.TheConstants.{PLANES as PLANES_VALUE};
ghost use Rattle.shares.specs.Planes.{ArePlanes};
ghost use Rattle.shares.specs.Ranks.{AreEmpty, AreLonger};

use crate::percentiles::{cells_at, greatest};
use crate::planes::{PLANES, Plane, WORDS, bits_of, fill_planes, value_at};
use crate::stops::all_stops;
use rounds::Durations;
use std::alloc::{AllocError, Global};
use timetable::{NEVER, StopNo};
use trip_lanes::Lanes;

/// The cells of all stops for each of some shares, in the shares' order: one list per share, with one cell per stop, in
/// order. The only error is out of memory.
pub fn cells_of(
    alloc: Global,
    durations: &Durations,
    shares: &[u32],
) -> Result<Vec<Vec<Option<u32>>>, AllocError>
    requires { All (λ share. share ≤ 100) shares.now }
    ensures { IfOk result (λ lists. AreCellsOf durations.now shares.now lists.items) }
{
    let all = all_stops(alloc, durations.stops())?;
    cells_of_at(alloc, durations, &all, shares)
}

/// The cells of the destinations for each of some shares, in the shares' order: one list per share, with one cell per
/// destination.
///
/// If there are several shares, each destination's labels are laid out bit by bit once for all of them. The only error
/// is out of memory.
pub fn cells_of_at(
    alloc: Global,
    durations: &Durations,
    destinations: &[StopNo],
    shares: &[u32],
) -> Result<Vec<Vec<Option<u32>>>, AllocError>
    requires stops { All (λ stop. stop.0 < durations.now.stops) destinations.now }
    requires shares { All (λ share. share ≤ 100) shares.now }
    ensures { IfOk result (λ lists. AreCellsOfAt durations.now destinations.now shares.now lists.items) }
{
    match shares {
        [share] => cells_of_one(alloc, durations, destinations, *share),
        _ => cells_of_many(alloc, durations, destinations, shares),
    }
}

/// The cells of a single share.
fn cells_of_one(
    alloc: Global,
    durations: &Durations,
    destinations: &[StopNo],
    share: u32,
) -> Result<Vec<Vec<Option<u32>>>, AllocError>
    requires stops { All (λ stop. stop.0 < durations.now.stops) destinations.now }
    requires share { share ≤ 100 }
    ensures { IfOk result (λ lists. AreCellsOfAt durations.now destinations.now (share ∷ []) lists.items) }
{
    let mut lists = Vec::with_capacity(alloc, 1)?;
    lists.push(cells_at(alloc, durations, destinations, share)?)?;
    Ok(lists)
}

/// The cells of several shares: a destination's labels are looked at bit by bit once, for all of them.
fn cells_of_many(
    alloc: Global,
    durations: &Durations,
    destinations: &[StopNo],
    shares: &[u32],
) -> Result<Vec<Vec<Option<u32>>>, AllocError>
    requires stops { All (λ stop. stop.0 < durations.now.stops) destinations.now }
    requires shares { All (λ share. share ≤ 100) shares.now }
    ensures { IfOk result (λ lists. AreCellsOfAt durations.now destinations.now shares.now lists.items) }
{
    durations.known();
    let minutes = durations.minutes();
    let mut lists = empty_lists(alloc, shares.len(), destinations.len())?;
    let mut planes = vec![in alloc; [0; WORDS]; PLANES]?;
    for n in 0..destinations.len() {
        let lanes = durations.lanes_of(destinations[n]);
        push_cells(&mut lists, lanes, minutes, &mut planes, shares)?;
    }
    Ok(lists)
}

/// So many lists without cells, with room for one cell per destination.
fn empty_lists(
    alloc: Global,
    count: usize,
    destinations: usize,
) -> Result<Vec<Vec<Option<u32>>>, AllocError>
    ensures { IfOk result (λ lists. AreEmpty count lists.items) }
{
    let mut lists = Vec::with_capacity(alloc, count)?;
    for _ in 0..count {
        lists.push(Vec::with_capacity(alloc, destinations)?)?;
    }
    Ok(lists)
}

/// Puts a stop's cell last in the list of each share.
fn push_cells(
    lists: &mut [Vec<Option<u32>>],
    lanes: &[Lanes],
    minutes: u32,
    planes: &mut [Plane],
    shares: &[u32],
) -> Result<(), AllocError>
    requires count { length lists.old ≡ length shares.now }
    requires shares { All (λ share. share ≤ 100) shares.now }
    requires lanes { HoldMinutes lanes.now minutes }
    requires rows { length planes.old ≡ PLANES_VALUE }
    ensures same { length planes.new ≡ PLANES_VALUE }
    ensures longer { OnOk result (AreLonger lanes.now minutes shares.now lists.old lists.new) }
{
    let top = greatest(lanes);
    let bits = bits_of(top);
    fill_planes(lanes, bits, planes);
    for k in 0..shares.len() {
        lists[k].push(at_rank(lanes, minutes, planes, bits, top, shares[k]))?;
    }
    Ok(())
}

/// The least duration that the share of so many minutes attains: that of the share's rank, where it isn't past the
/// greatest.
fn at_rank(
    lanes: &[Lanes],
    minutes: u32,
    planes: &[Plane],
    bits: u32,
    top: u32,
    share: u32,
) -> Option<u32>
    requires lanes { HoldMinutes lanes.now minutes }
    requires share { share ≤ 100 }
    requires rows { length planes.now ≡ PLANES_VALUE }
    requires planes { ArePlanes lanes.now bits planes.now }
    requires top { IsTop lanes.now top }
    requires known { top < NEVER }
    requires few { bits ≤ 32 }
    requires bits { top + 1 < 2 ^ bits }
    ensures { IsLeastOrNone (Attains (λ m. known_of (label_in lanes.now m)) minutes share) result }
{
    let rank = (share * minutes + 99) / 100;
    if rank == 0 {
        return Some(0);
    }
    let value = value_at(lanes, planes, bits, rank);
    if value <= top { Some(value) } else { None }
}
