//! How durations are split into whole minutes and seconds, and put together again: of sixteen stops side by side.
ghost use Rattle.std.specs.Prelude.{◌≡◌, ◌≢◌, ◌+◌, ◌-◌, ◌*◌, ◌<◌, ◌≤◌, ◌/◌, ℕ, cond, min, nat_eq, nat_lt, slice_index};
ghost use Rattle.label_cells.specs.Runs.{IsSplitRun};

use crate::split_runs::{Sixteen, SplitRun};
use std::simd::prelude::*;
use std::simd::{u16x16, u32x16};

/// The label of a stop that isn't reached, and its duration.
pub(crate) const NEVER: u16 = 65_535;

/// The durations of a searched minute: `more` seconds less than the labels.
#[inline(always)]
pub(crate) fn shortest_of(labels: Sixteen, more: u16) -> Sixteen
    requires { (l : ℕ) → l < 16 → slice_index labels l ≤ NEVER }
    ensures never { (l : ℕ) → l < 16 → slice_index labels l ≡ NEVER → slice_index result l ≡ NEVER }
    ensures counted { (l : ℕ) → l < 16 → slice_index labels l ≢ NEVER → more ≤ slice_index labels l →
        slice_index result l + more ≡ slice_index labels l }
    ensures fits { (l : ℕ) → l < 16 → slice_index result l ≤ NEVER }
{
    let labels = u16x16::from_array(labels);
    labels
        .simd_eq(u16x16::splat(NEVER))
        .select(labels, labels - u16x16::splat(more))
        .to_array()
}

/// The lower of both, in each lane.
#[inline(always)]
pub(crate) fn lower_of(one: Sixteen, other: Sixteen) -> Sixteen
    ensures { (l : ℕ) → l < 16 → slice_index result l ≡ min (slice_index one l) (slice_index other l) }
{
    u16x16::from_array(one)
        .simd_min(u16x16::from_array(other))
        .to_array()
}

/// The whole minutes of each duration.
#[inline(always)]
pub(crate) fn minutes_of(seconds: Sixteen) -> Sixteen
    ensures { (l : ℕ) → l < 16 → slice_index result l ≡ slice_index seconds l / 60 }
{
    (u16x16::from_array(seconds) / u16x16::splat(60)).to_array()
}

/// The seconds that are left over whole minutes.
#[inline(always)]
fn seconds_of(shortest: Sixteen, whole: Sixteen) -> Sixteen
    requires whole { (l : ℕ) → l < 16 → slice_index whole l ≡ slice_index shortest l / 60 }
    requires fits { (l : ℕ) → l < 16 → slice_index shortest l ≤ NEVER }
    ensures { (l : ℕ) → l < 16 → slice_index result l ≡ slice_index shortest l - 60 * slice_index whole l }
{
    (u16x16::from_array(shortest) - u16x16::from_array(whole) * u16x16::splat(60)).to_array()
}

/// The difference in each lane.
#[inline(always)]
pub(crate) fn past(one: Sixteen, other: Sixteen) -> Sixteen
    requires order { (l : ℕ) → l < 16 → slice_index other l ≤ slice_index one l }
    requires fits { (l : ℕ) → l < 16 → slice_index one l < 65536 }
    ensures { (l : ℕ) → l < 16 → slice_index result l ≡ slice_index one l - slice_index other l }
{
    (u16x16::from_array(one) - u16x16::from_array(other)).to_array()
}

/// How many minutes of a run reach each stop: its span, or 0 where the stop isn't reached.
#[inline(always)]
fn reached_of(shortest: Sixteen, span: u16) -> Sixteen
    ensures { (l : ℕ) → l < 16 → slice_index result l ≡ cond (nat_eq (slice_index shortest l) NEVER) 0 span }
{
    u16x16::from_array(shortest)
        .simd_eq(u16x16::splat(NEVER))
        .select(u16x16::splat(0), u16x16::splat(span))
        .to_array()
}

/// Splits a run into whole minutes, counted from `low`, and seconds.
#[inline(always)]
pub(crate) fn split(shortest: Sixteen, low: Sixteen, span: u16) -> SplitRun
    requires low { (l : ℕ) → l < 16 → 60 * slice_index low l ≤ slice_index shortest l }
    requires fits { (l : ℕ) → l < 16 → slice_index shortest l ≤ NEVER }
    ensures part { (l : ℕ) → l < 16 → IsSplitRun (slice_index low l) (slice_index shortest l) span
        (slice_index result.whole l) (slice_index result.rest l) (slice_index result.span l) }
    ensures small { (l : ℕ) → l < 16 → slice_index result.whole l ≤ 1092 }
{
    let minutes = minutes_of(shortest);
    let rest = seconds_of(shortest, minutes);
    let whole = past(minutes, low);
    let span = reached_of(shortest, span);
    SplitRun { whole, rest, span }
}

/// A stop without a cell.
pub(crate) const NONE: u32 = 4_294_967_295;

/// The cells of a rank, from their whole minutes and seconds; `NONE` where fewer minutes reach the stop.
#[inline(always)]
pub(crate) fn cells_of(known: Sixteen, rank: u16, minutes: Sixteen, rest: Sixteen) -> [u32; 16]
    requires minutes { (l : ℕ) → l < 16 → slice_index minutes l < 65536 }
    requires rest { (l : ℕ) → l < 16 → slice_index rest l < 65536 }
    ensures { (l : ℕ) → l < 16 → slice_index result l ≡ cond (nat_lt (slice_index known l) rank) NONE
        (60 * slice_index minutes l + slice_index rest l) }
{
    let cells = u16x16::from_array(minutes).cast::<u32>() * u32x16::splat(60)
        + u16x16::from_array(rest).cast::<u32>();
    u16x16::from_array(known)
        .cast::<u32>()
        .simd_lt(u32x16::splat(rank as u32))
        .select(u32x16::splat(NONE), cells)
        .to_array()
}
