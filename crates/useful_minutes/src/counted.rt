//! The durations of all minutes of a window, written once from the narrow labels of the minutes that were searched.
ghost use Rattle.std.specs.Prelude.{◌≡◌, ◌≢◌, ℕ, ◌+◌, ◌-◌, ◌*◌, ◌%◌, ◌^◌, ◌<◌, ◌≤◌, length, slice_index, All, IfOk};
ghost use Rattle.std.specs.Prelude.{OnOk};
ghost use Rattle.timetable.specs.declared.limits.TheConstants.{END_OF_AXIS};
ghost use Rattle.timetable.specs.declared.least.TheConstants.{NEVER as NEVER_VALUE};
ghost use Rattle.trip_lanes.specs.declared.lanes.TheConstants.{LANES};
ghost use Rattle.useful_minutes.specs.Counted.{AreCounted, narrow_at};
ghost use Rattle.useful_minutes.specs.CountedChunks.{AddsStop, AreDurationsTo, IsSourceOf, AreChunks, HasLabels};
ghost use Rattle.useful_minutes.specs.CountedChunks.{IsCounting, IsDurationAt, IsMore, IsChunk};
ghost use Rattle.useful_minutes.specs.Eights.{AreBytes, TakesBoth, TakesNone};
ghost use Rattle.useful_minutes.specs.Orders.{AreSteps};
ghost use Rattle.useful_minutes.specs.declared.eights.TheConstants.{EIGHT as EIGHT_VALUE};

use crate::eights::{EIGHT, Eight, EightOrder, both, eight_in_order, eight_order};
use std::alloc::{AllocError, Global};
use std::simd::prelude::*;
use std::simd::{u16x8, u16x16, u32x16};
use timetable::NEVER;
use trip_lanes::{LANES, Lanes};

/// The narrow label of a stop that isn't reached.
const NEVER_NARROW: u32 = 65_535;

/// The labels of the searched minutes: of each stop side by side, in seconds from a base. 65,535 is never.
#[derive(Clone, Copy)]
pub struct Found<'a> {
    pub labels: &'a [u16],
    /// From when on the label at a position counts, in seconds on the axis: one for each searched minute.
    pub bases: &'a [u32],
    /// How many labels of a stop stand side by side.
    pub width: usize,
}

/// What durations are counted from: the labels that were found, and the minutes of a window.
#[derive(Clone, Copy)]
struct Counting<'a> {
    found: Found<'a>,
    /// For each lane of a minute, and those past the window, the position of the label that stands in for it.
    positions: &'a [u32],
    /// When the window begins, in seconds on the axis.
    first: u32,
    minutes: u32,
}

/// How eight minutes take their labels from those of a stop: in an order, from a position on.
#[derive(Clone, Copy)]
struct Source {
    at: usize,
    order: EightOrder,
}

/// How the durations of sixteen minutes are counted: from which labels, and how much more than these they are.
#[derive(Clone, Copy)]
struct Chunk {
    early: Source,
    late: Source,
    more: Lanes,
}

/// How the minutes of a group of eight take their labels.
fn source_of(counting: Counting<'_>, group: usize) -> Source
    requires counting { IsCounting counting }
    requires group { EIGHT_VALUE * group + EIGHT_VALUE ≤ length counting.positions.now }
    ensures { IsSourceOf counting.entry group result }
{
    Source {
        at: counting.positions[EIGHT * group] as usize,
        order: eight_order(counting.positions, counting.minutes, group),
    }
}

/// How much more than their labels the durations of sixteen minutes are: their bases less their departures.
fn more_of(counting: Counting<'_>, chunk: usize) -> Lanes
    requires counting { IsCounting counting }
    requires chunk { LANES * chunk + LANES ≤ length counting.positions.now }
    ensures { (l : ℕ) → l < LANES → IsMore counting.entry (LANES * chunk + l) (slice_index result l) }
{
    let mut more = [NEVER; LANES];
    for l in 0..LANES {
        let minute = LANES * chunk + l;
        if minute < counting.minutes as usize {
            let base = counting.found.bases[counting.positions[minute] as usize];
            more[l] = base.wrapping_sub(counting.first + 60 * minute as u32);
        }
    }
    more
}

/// How the durations of all minutes are counted, sixteen by sixteen.
fn chunks_of(alloc: Global, counting: Counting<'_>) -> Result<Vec<Chunk>, AllocError>
    requires counting { IsCounting counting }
    ensures { IfOk result (λ chunks. AreChunks counting.entry chunks.items) }
{
    let mut chunks = Vec::new(alloc);
    for chunk in 0..counting.positions.len() / LANES {
        chunks.push(Chunk {
            early: source_of(counting, 2 * chunk),
            late: source_of(counting, 2 * chunk + 1),
            more: more_of(counting, chunk),
        })?;
    }
    Ok(chunks)
}

/// The labels that eight minutes take from those of a stop, which stand from one on; 0 past the window.
#[inline(always)]
fn taken(labels: &[u16], from: usize, source: Source) -> Eight
    requires at { from + source.at + EIGHT_VALUE ≤ length labels.now }
    requires order { AreBytes source.order }
    ensures takes { (l k : ℕ) → l < EIGHT_VALUE → k < EIGHT_VALUE → TakesBoth source.order l k →
        slice_index result l ≡ slice_index labels.now (from + source.at + k) }
    ensures none { (l : ℕ) → l < EIGHT_VALUE → TakesNone source.order l → slice_index result l ≡ 0 }
    ensures small { (l : ℕ) → l < EIGHT_VALUE → slice_index result l < 2 ^ 16 }
{
    let at = from + source.at;
    let eight = u16x8::from_slice(&labels[at..at + EIGHT]).to_array();
    eight_in_order(eight, source.order)
}

/// Sixteen narrow labels as wide ones.
#[inline(always)]
fn widened(labels: [u16; LANES]) -> Lanes
    ensures { (l : ℕ) → l < LANES → slice_index result l ≡ slice_index labels l }
{
    let wide: u32x16 = u16x16::from_array(labels).cast();
    wide.to_array()
}

/// Sixteen labels, each with a number more, where sums wrap; `NEVER` where the label is never.
#[inline(always)]
fn with_more(labels: Lanes, more: Lanes) -> Lanes
    ensures never { (l : ℕ) → l < LANES → slice_index labels l ≡ 65535 → slice_index result l ≡ NEVER_VALUE }
    ensures sum { (l : ℕ) → l < LANES → slice_index labels l ≢ 65535 →
        slice_index result l ≡ (slice_index labels l + slice_index more l) % 2 ^ 32 }
{
    let times = u32x16::from_array(labels);
    let sums = times + u32x16::from_array(more);
    let never = u32x16::splat(NEVER_NARROW);
    // Most stops that are reached at all are reached in each of the minutes.
    if times.simd_ne(never).all() {
        return sums.to_array();
    }
    times
        .simd_eq(never)
        .select(u32x16::splat(NEVER), sums)
        .to_array()
}

/// The durations of sixteen minutes to a stop.
#[inline(always)]
fn durations_at(counting: Counting<'_>, chunks: &[Chunk], stop: usize, chunk: usize) -> Lanes
    requires counting { IsCounting counting }
    requires labels { HasLabels counting stop }
    requires chunks { AreChunks counting chunks.now }
    requires chunk { chunk < length chunks.now }
    ensures { (l : ℕ) → l < LANES → IsDurationAt counting.entry stop (LANES * chunk + l) (slice_index result l) }
{
    let labels = counting.found.labels;
    let from = stop * counting.found.width;
    let early = taken(labels, from, chunks[chunk].early);
    let late = taken(labels, from, chunks[chunk].late);
    with_more(widened(both(early, late)), chunks[chunk].more)
}

/// Appends the durations of all minutes to a stop.
#[inline(always)]
fn count_stop(
    durations: &mut Vec<Lanes>,
    counting: Counting<'_>,
    chunks: &[Chunk],
    stop: usize,
) -> Result<(), AllocError>
    requires counting { IsCounting counting }
    requires labels { HasLabels counting stop }
    requires chunks { AreChunks counting chunks.now }
    ensures { OnOk result (AddsStop counting.entry stop durations.old.items durations.new.items) }
{
    for chunk in 0..chunks.len() {
        durations.push(durations_at(counting, chunks, stop, chunk))?;
    }
    Ok(())
}

/// The durations of all minutes to so many stops. Out of memory is the only error.
fn count_stops(
    alloc: Global,
    counting: Counting<'_>,
    chunks: &[Chunk],
    stops: usize,
) -> Result<Vec<Lanes>, AllocError>
    requires counting { IsCounting counting }
    requires labels { (p : ℕ) → p < stops → HasLabels counting p }
    requires chunks { AreChunks counting chunks.now }
    ensures { IfOk result (λ durations. AreDurationsTo counting.entry stops durations.items) }
{
    let mut durations = Vec::with_capacity(alloc, stops.saturating_mul(chunks.len()))?;
    for stop in 0..stops {
        count_stop(&mut durations, counting, chunks, stop)?;
    }
    Ok(durations)
}

/// The durations of all minutes of a window that begins at a second: of each minute that of the searched minute at its
/// position, and the wait for it. Lanes past the window are `NEVER`. Out of memory is the only error.
pub fn count_durations(
    alloc: Global,
    found: Found<'_>,
    positions: &[u32],
    first: u32,
    minutes: u32,
    stops: usize,
) -> Result<Vec<Lanes>, AllocError>
    requires chunks { (chunks : ℕ) × (length positions.now ≡ LANES * chunks) }
    requires minutes { minutes ≤ length positions.now }
    requires few { minutes ≤ 1440 }
    requires first { first < END_OF_AXIS }
    requires steps { AreSteps positions.now }
    requires within { (m : ℕ) → m < minutes → slice_index positions.now m < length found.bases.now }
    requires positions { All (λ position. position ≤ found.width) positions.now }
    requires room { stops * found.width + 8 ≤ length found.labels.now }
    requires bases { All (λ base. base < END_OF_AXIS) found.bases.now }
    requires since { (p m : ℕ) → p < stops → m < minutes →
        narrow_at found.width found.labels.now p (slice_index positions.now m) ≢ 65535 →
        first + 60 * m ≤ slice_index found.bases.now (slice_index positions.now m)
        + narrow_at found.width found.labels.now p (slice_index positions.now m) }
    ensures { IfOk result (λ durations. AreCounted found.entry.width found.entry.labels.now found.entry.bases.now
        positions.now first minutes stops durations.items) }
{
    let counting = Counting {
        found,
        positions,
        first,
        minutes,
    };
    let chunks = chunks_of(alloc, counting)?;
    let durations = count_stops(alloc, counting, &chunks, stops)?;
    Ok(durations)
}
