//! Cells: the least duration that a share of a window's minutes attains.
ghost use Rattle.std.specs.Prelude.{◌≡◌, ◌≢◌, ◌<◌, ◌≤◌, ◌*◌, ℕ, All, Some, length, max, slice_index, IfOk, IsTrue, ◌↔◌};
ghost use Rattle.rounds.specs.Table.{at, known_of, label_in, IsLeastOrNone};
ghost use Rattle.shares.specs.declared.planes.TheConstants.{MOST_BATCHES};
ghost use Rattle.shares.specs.Percentiles.{minutes_within, Attains, IsCell, AreCells, AreCellsAt, HoldMinutes, IsTop};
ghost use Rattle.shares.specs.Percentiles.{known_label};
ghost use Rattle.trip_lanes.specs.declared.lanes.TheConstants.{LANES};

use crate::stops::all_stops;
use rounds::Durations;
use std::alloc::{AllocError, Global};
use std::simd::prelude::*;
use std::simd::u32x16;
use timetable::{NEVER, StopNo};
use trip_lanes::{LANES, Lanes};

/// The least duration to a stop, in seconds, that so many of a hundred minutes attain; none where too few minutes have
/// a journey to it. A minute attains each duration that isn't below its own.
pub fn cell(durations: &Durations, stop: StopNo, share: u32) -> Option<u32>
    requires stop { stop.0 < durations.now.stops }
    requires share { share ≤ 100 }
    ensures { IsCell durations.now share stop.0 result }
{
    durations.known();
    least_attained(durations.lanes_of(stop), durations.minutes(), share)
}

/// The cell of each stop, in order. The only error is out of memory.
pub fn cells(
    alloc: Global,
    durations: &Durations,
    share: u32,
) -> Result<Vec<Option<u32>>, AllocError>
    requires { share ≤ 100 }
    ensures { IfOk result (λ cells. AreCells durations.now share cells.items) }
{
    let all = all_stops(alloc, durations.stops())?;
    cells_at(alloc, durations, &all, share)
}

/// The cell of each destination, in their order. The only error is out of memory.
pub fn cells_at(
    alloc: Global,
    durations: &Durations,
    destinations: &[StopNo],
    share: u32,
) -> Result<Vec<Option<u32>>, AllocError>
    requires stops { All (λ stop. stop.0 < durations.now.stops) destinations.now }
    requires share { share ≤ 100 }
    ensures { IfOk result (λ cells. AreCellsAt durations.now destinations.now share cells.items) }
{
    let mut cells = Vec::with_capacity(alloc, destinations.len())?;
    for k in 0..destinations.len() {
        cells.push(cell(durations, destinations[k], share))?;
    }
    Ok(cells)
}

/// Whether so many of a hundred minutes have a duration to a stop of at most a limit: then the stop's cell is within
/// it, and else it isn't.
pub(crate) fn is_reached(durations: &Durations, stop: StopNo, share: u32, within: u32) -> bool
    requires stop { stop.0 < durations.now.stops }
    requires share { share ≤ 100 }
    ensures { IsTrue result ↔ Attains (λ m. at durations.now stop.0 m) durations.now.minutes share within }
{
    durations.known();
    let lanes = durations.lanes_of(stop);
    attains(lanes, durations.minutes(), share, reach_of(lanes, within))
}

/// A limit that no dead lane is within, and that keeps out none of the durations within the other one.
fn reach_of(lanes: &[Lanes], within: u32) -> u32
    ensures below { result < NEVER }
    ensures upto { result ≤ within }
    ensures all { (m d : ℕ) → m < LANES * length lanes.now → known_of (label_in lanes.now m) ≡ Some d → d ≤ within →
        d ≤ result }
{
    if within < NEVER {
        within
    } else {
        greatest(lanes)
    }
}

/// The least duration that the share of so many minutes attains, by halving the range in which it lies, which ends with
/// the greatest of them.
fn least_attained(lanes: &[Lanes], minutes: u32, share: u32) -> Option<u32>
    requires lanes { HoldMinutes lanes.now minutes }
    requires share { share ≤ 100 }
    ensures { IsLeastOrNone (Attains (λ m. known_of (label_in lanes.now m)) minutes share) result }
{
    let mut low = 0;
    let mut high = greatest(lanes);
    if !attains(lanes, minutes, share, high) {
        return None;
    }
    while low < high {
        let middle = low + (high - low) / 2;
        if attains(lanes, minutes, share, middle) {
            high = middle;
        } else {
            low = middle + 1;
        }
    }
    Some(low)
}

/// The greatest duration of these minutes; 0 where none has one.
pub(crate) fn greatest(lanes: &[Lanes]) -> u32
    ensures below { result < NEVER }
    ensures greatest { IsTop lanes.now result }
{
    let mut high = [0; LANES];
    for batch in lanes {
        let higher = higher_of(high, *batch);
        high = higher;
    }
    greatest_lane(high)
}

/// In each lane the greater one, where the label is known.
fn higher_of(high: Lanes, labels: Lanes) -> Lanes
    ensures { (l : ℕ) → l < LANES → slice_index result l
        ≡ max (slice_index high l) (known_label (slice_index labels l)) }
{
    let known = u32x16::from_array(labels)
        .simd_eq(u32x16::splat(NEVER))
        .select(u32x16::splat(0), u32x16::from_array(labels));
    u32x16::from_array(high).simd_max(known).to_array()
}

/// The greatest of sixteen lanes.
fn greatest_lane(lanes: Lanes) -> u32
    requires { (l : ℕ) → l < LANES → slice_index lanes l ≢ NEVER }
    ensures below { result < NEVER }
    ensures greatest { (l : ℕ) → l < LANES → slice_index lanes l ≤ result }
{
    let mut greatest = 0;
    for l in 0..LANES {
        if greatest < lanes[l] {
            greatest = lanes[l];
        }
    }
    greatest
}

/// Whether the share of so many minutes attains a duration.
fn attains(lanes: &[Lanes], minutes: u32, share: u32, duration: u32) -> bool
    requires lanes { HoldMinutes lanes.now minutes }
    requires share { share ≤ 100 }
    requires duration { duration < NEVER }
    ensures { IsTrue result ↔ Attains (λ m. known_of (label_in lanes.now m)) minutes share duration }
{
    100 * count_within(lanes, duration) >= share * minutes
}

/// In how many of these minutes the duration is at most this one. A dead lane holds `NEVER`, and so is never counted.
fn count_within(lanes: &[Lanes], duration: u32) -> u32
    requires few { length lanes.now ≤ MOST_BATCHES }
    requires duration { duration < NEVER }
    ensures count { result ≡ minutes_within (λ m. known_of (label_in lanes.now m)) duration (LANES * length lanes.now) }
    ensures bound { result ≤ LANES * length lanes.now }
{
    let mut minutes = 0;
    for batch in lanes {
        minutes += count_batch(*batch, duration);
    }
    minutes
}

/// In how many of sixteen minutes the duration is at most this one.
fn count_batch(batch: Lanes, duration: u32) -> u32
    requires { duration < NEVER }
    ensures count { result ≡ minutes_within (λ l. known_of (slice_index batch l)) duration LANES }
    ensures bound { result ≤ LANES }
{
    u32x16::from_array(batch)
        .simd_le(u32x16::splat(duration))
        .to_bitmask()
        .count_ones()
}
