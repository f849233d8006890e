//! Runs split into whole minutes and seconds, and how their minutes are counted: of sixteen stops side by side.
ghost use Rattle.std.specs.Prelude.{◌≡◌, ◌≢◌, ◌+◌, ◌<◌, ◌≤◌, ℕ, length, max, nat_eq, nat_lt, slice_index, cond};
ghost use Rattle.label_cells.specs.Runs.{below, covers};
ghost use Rattle.label_cells.specs.SplitRuns.{AreCovering, AreSmall, fewer_at, reached_at, under_at, whole_at};
ghost use Rattle.label_cells.specs.Sums.{sum_to};

use std::simd::prelude::*;
use std::simd::u16x16;

/// A number for each of sixteen stops.
pub(crate) type Sixteen = [u16; 16];

/// A run of sixteen stops, its shortest duration split into whole minutes and seconds.
#[derive(Clone, Copy)]
pub(crate) struct SplitRun {
    /// The whole minutes, counted from the group's least.
    pub whole: Sixteen,
    /// The seconds, fewer than 60.
    pub rest: Sixteen,
    /// How many minutes the run has; 0 where the stop isn't reached.
    pub span: Sixteen,
}

/// Adds to a count the minutes of a run whose duration is below `to` whole minutes.
#[inline(always)]
fn add_below(count: Sixteen, to: Sixteen, whole: Sixteen, span: Sixteen) -> Sixteen
    requires room { (l : ℕ) → l < 16 → slice_index count l + slice_index span l < 65536 }
    requires to { (l : ℕ) → l < 16 → slice_index to l < 4096 }
    requires whole { (l : ℕ) → l < 16 → slice_index whole l ≤ 1092 }
    ensures { (l : ℕ) → l < 16 →
        slice_index result l ≡ slice_index count l + below (slice_index to l) (slice_index whole l) (slice_index span
        l) }
{
    (u16x16::from_array(count)
        + u16x16::from_array(to)
            .saturating_sub(u16x16::from_array(whole))
            .simd_min(u16x16::from_array(span)))
        .to_array()
}

/// The seconds of a run that covers minute `at`, that is, has a duration of `at` whole minutes; 127 if it doesn't.
#[inline(always)]
fn covering_of(at: Sixteen, whole: Sixteen, rest: Sixteen, span: Sixteen) -> Sixteen
    requires at { (l : ℕ) → l < 16 → slice_index at l < 4096 }
    requires whole { (l : ℕ) → l < 16 → slice_index whole l ≤ 1092 }
    requires span { (l : ℕ) → l < 16 → slice_index span l ≤ 1440 }
    ensures { (l seconds : ℕ) → l < 16 → seconds ≤ 64 → nat_lt (slice_index result l) seconds
        ≡ covers (slice_index at l) seconds (slice_index whole l) (slice_index rest l) (slice_index span l) }
{
    // If `at` is below the run's whole minutes, the difference wraps to more than any span.
    (u16x16::from_array(at) - u16x16::from_array(whole))
        .simd_lt(u16x16::from_array(span))
        .select(u16x16::from_array(rest), u16x16::splat(127))
        .to_array()
}

/// Adds 1 to a count where a run has fewer seconds.
#[inline(always)]
fn add_fewer(count: Sixteen, here: Sixteen, seconds: Sixteen) -> Sixteen
    requires { (l : ℕ) → l < 16 → slice_index count l < 65535 }
    ensures { (l : ℕ) → l < 16 → slice_index result l
        ≡ slice_index count l + cond (nat_lt (slice_index here l) (slice_index seconds l)) 1 0 }
{
    (u16x16::from_array(count)
        + u16x16::from_array(here)
            .simd_lt(u16x16::from_array(seconds))
            .select(u16x16::splat(1), u16x16::splat(0)))
        .to_array()
}

/// `then` in the lanes where `one` is less than `other`, and `otherwise` in the rest.
#[inline(always)]
pub(crate) fn where_less(one: Sixteen, other: Sixteen, then: Sixteen, otherwise: Sixteen) -> Sixteen
    ensures { (l : ℕ) → l < 16 → slice_index result l
        ≡ cond (nat_lt (slice_index one l) (slice_index other l)) (slice_index then l) (slice_index otherwise l) }
{
    u16x16::from_array(one)
        .simd_lt(u16x16::from_array(other))
        .select(u16x16::from_array(then), u16x16::from_array(otherwise))
        .to_array()
}

/// Adds `step` in each lane.
#[inline(always)]
pub(crate) fn more_by(value: Sixteen, step: u16) -> Sixteen
    requires { (l : ℕ) → l < 16 → slice_index value l + step < 65536 }
    ensures { (l : ℕ) → l < 16 → slice_index result l ≡ slice_index value l + step }
{
    (u16x16::from_array(value) + u16x16::splat(step)).to_array()
}

/// How many minutes of all runs have a duration below `to` whole minutes.
pub(crate) fn below(rows: &[SplitRun], to: Sixteen) -> Sixteen
    requires small { AreSmall rows.now }
    requires to { (l : ℕ) → l < 16 → slice_index to l < 4096 }
    ensures { (l : ℕ) → l < 16 → slice_index result l ≡ under_at rows.now l (slice_index to l) }
{
    let mut count = [0; 16];
    for row in rows {
        let more = add_below(count, to, row.whole, row.span);
        count = more;
    }
    count
}

/// Writes the seconds of each run that covers minute `at`, and 127 for the others.
pub(crate) fn fill_covering(rows: &[SplitRun], at: Sixteen, covering: &mut [Sixteen])
    requires small { AreSmall rows.now }
    requires at { (l : ℕ) → l < 16 → slice_index at l < 4096 }
    requires size { length covering.old ≡ length rows.now }
    ensures { AreCovering rows.now at covering.new }
{
    for i in 0..rows.len() {
        let row = &rows[i];
        covering[i] = covering_of(at, row.whole, row.rest, row.span);
    }
}

/// How many runs that cover a minute have fewer seconds.
pub(crate) fn fewer(covering: &[Sixteen], seconds: Sixteen) -> Sixteen
    requires { length covering.now ≤ 1440 }
    ensures { (l : ℕ) → l < 16 → slice_index result l ≡ fewer_at covering.now l (slice_index seconds l) }
{
    let mut count = [0; 16];
    for here in covering {
        let more = add_fewer(count, *here, seconds);
        count = more;
    }
    count
}

/// The sum in each lane.
#[inline(always)]
pub(crate) fn sum_of(one: Sixteen, other: Sixteen) -> Sixteen
    requires { (l : ℕ) → l < 16 → slice_index one l + slice_index other l < 65536 }
    ensures { (l : ℕ) → l < 16 → slice_index result l ≡ slice_index one l + slice_index other l }
{
    (u16x16::from_array(one) + u16x16::from_array(other)).to_array()
}

/// The higher of both, in each lane.
#[inline(always)]
fn higher_of(one: Sixteen, other: Sixteen) -> Sixteen
    ensures { (l : ℕ) → l < 16 → slice_index result l ≡ max (slice_index one l) (slice_index other l) }
{
    u16x16::from_array(one)
        .simd_max(u16x16::from_array(other))
        .to_array()
}

/// The whole minutes below which all durations of a run lie; 0 where the run reaches the stop in no minute.
#[inline(always)]
fn end_of(whole: Sixteen, span: Sixteen) -> Sixteen
    requires { (l : ℕ) → l < 16 → slice_index whole l + slice_index span l < 65536 }
    ensures { (l : ℕ) → l < 16 → slice_index result l
        ≡ cond (nat_eq (slice_index span l) 0) 0 (slice_index whole l + slice_index span l) }
{
    u16x16::from_array(span)
        .simd_eq(u16x16::splat(0))
        .select(
            u16x16::splat(0),
            u16x16::from_array(whole) + u16x16::from_array(span),
        )
        .to_array()
}

/// How many minutes reach each stop.
pub(crate) fn known(rows: &[SplitRun]) -> Sixteen
    requires { AreSmall rows.now }
    ensures { (l : ℕ) → l < 16 → slice_index result l ≡ sum_to (reached_at rows.now l) (length rows.now) }
{
    let mut known = [0; 16];
    for row in rows {
        let more = sum_of(known, row.span);
        known = more;
    }
    known
}

/// The whole minutes below which all durations of all sixteen stops lie.
pub(crate) fn top(rows: &[SplitRun]) -> u16
    requires { AreSmall rows.now }
    ensures few { result ≤ 2532 }
    ensures top { (l i : ℕ) → l < 16 → i < length rows.now → reached_at rows.now l i ≢ 0 →
        whole_at rows.now l i + reached_at rows.now l i ≤ result }
{
    let mut top = [0; 16];
    for row in rows {
        let end = end_of(row.whole, row.span);
        let higher = higher_of(end, top);
        top = higher;
    }
    greatest(top)
}

/// The greatest of sixteen lanes.
fn greatest(lanes: Sixteen) -> u16
    requires { (l : ℕ) → l < 16 → slice_index lanes l ≤ 2532 }
    ensures few { result ≤ 2532 }
    ensures greatest { (l : ℕ) → l < 16 → slice_index lanes l ≤ result }
{
    let mut greatest = 0;
    for l in 0..16 {
        if greatest < lanes[l] {
            greatest = lanes[l];
        }
    }
    greatest
}
