//! Wide lane labels: sixteen labels of 32 bits, which reach as far as times go.
ghost use Rattle.std.specs.Prelude.{◌≡◌, ◌≢◌, ℕ, ◌+◌, ◌*◌, ◌<◌, ◌≤◌, ◌⊎◌, refl, slice_index};
ghost use Rattle.std.proofs.lemmas.Bool.{leb-true};
ghost use Rattle.trip_lanes.specs.Since.{IsSinceTo};
ghost use Rattle.trip_lanes.specs.declared.lanes.TheConstants.{LANES as SIXTEEN};

use crate::falls::Fall;
use crate::lane_labels::LaneLabels;
use crate::lanes::{LANES, Lanes};
use crate::ranks::Span;
use std::simd::prelude::*;
use std::simd::u32x16;
use timetable::NEVER;

impl LaneLabels for Lanes {
    ghost LANES = { 16 };

    const LANES: usize = LANES;

    ghost NEVER = { 4294967295 };

    const NEVER: u32 = NEVER;

    ghost labels = { λ row. row };

    fn all(label: u32) -> Self {
        [label; LANES]
    }

    fn minutely(first: u32, minutes: u32) -> Self {
        let mut departs = [NEVER; LANES];
        for l in 0..LANES {
            if (l as u32) < minutes {
                departs[l] = first + 60 * l as u32;
            }
        }
        departs
    }

    fn first(self) -> u32 {
        self[0]
    }

    fn lower_of(self, other: Self) -> Self {
        u32x16::from_array(self)
            .simd_min(u32x16::from_array(other))
            .to_array()
    }

    fn changed(self, old: Self) -> bool {
        u32x16::from_array(self)
            .simd_ne(u32x16::from_array(old))
            .any()
    }

    fn later(self, seconds: u32) -> Self {
        let early = u32x16::from_array(self).simd_min(u32x16::splat(NEVER - seconds));
        (early + u32x16::splat(seconds)).to_array()
    }

    fn catch(self, depart: u32, rank: u32) -> Self {
        u32x16::from_array(self)
            .simd_le(u32x16::splat(depart))
            .select(u32x16::splat(rank), u32x16::splat(NEVER))
            .to_array()
    }

    fn alight(self, run: Self, rank: u32, arrive: u32) -> Self {
        u32x16::from_array(run)
            .simd_eq(u32x16::splat(rank))
            .select(u32x16::splat(arrive), u32x16::from_array(self))
            .to_array()
    }

    fn span(self) -> Span {
        let first = least(self);
        if first == NEVER {
            return Span { first: 0, end: 0 };
        }
        Span {
            first: first as usize,
            end: greatest(ridden(self)) as usize + 1,
        }
    }

    fn is_reached(self, departs: Self) -> bool {
        let never = u32x16::splat(NEVER);
        let dead = u32x16::from_array(departs).simd_eq(never);
        dead.select(u32x16::splat(0), u32x16::from_array(self))
            .simd_ne(never)
            .all()
    }

    fn fall(self, before: Self) -> Fall {
        Fall {
            low: least(of_fallen(before, self, self, NEVER)),
            high: greatest(of_fallen(before, self, self, 0)),
            top: greatest(of_fallen(before, self, before, 0)),
        }
    }

    ghost some = { leb-true SIXTEEN 16 refl };

    ghost few = { leb-true 16 64 refl };

    ghost room = { leb-true (60 * 16 + 7203) 4294967295 refl };

    ghost never_fits = { leb-true 4294967295 4294967295 refl };
}

/// Wide labels, each counted from a departure.
#[inline(always)]
pub fn since(labels: Lanes, departs: Lanes) -> Lanes
    requires fits { (l : ℕ) → l < SIXTEEN → slice_index labels l ≤ NEVER }
    requires later { (l : ℕ) → l < SIXTEEN → slice_index labels l ≢ NEVER →
        slice_index departs l ≤ slice_index labels l }
    ensures { (l : ℕ) → l < SIXTEEN →
        IsSinceTo NEVER (slice_index departs l) (slice_index labels l) (slice_index result l) }
{
    let times = u32x16::from_array(labels);
    times
        .simd_eq(u32x16::splat(NEVER))
        .select(times, times - u32x16::from_array(departs))
        .to_array()
}

/// The ranks of the lanes that ride a trip, and 0 in the others.
#[inline(always)]
fn ridden(run: Lanes) -> Lanes
    ensures ranks { (l : ℕ) → l < SIXTEEN → slice_index run l ≢ NEVER → slice_index result l ≡ slice_index run l }
    ensures others { (l : ℕ) → l < SIXTEEN → slice_index run l ≡ NEVER → slice_index result l ≡ 0 }
{
    let none = u32x16::splat(NEVER);
    let ranks = u32x16::from_array(run);
    ranks
        .simd_eq(none)
        .select(u32x16::splat(0), ranks)
        .to_array()
}

/// The labels of the lanes that fell, and another number in the others.
#[inline(always)]
fn of_fallen(before: Lanes, ready: Lanes, labels: Lanes, other: u32) -> Lanes
    ensures { (l : ℕ) → l < SIXTEEN → slice_index ready l < slice_index before l →
        slice_index result l ≡ slice_index labels l }
{
    u32x16::from_array(ready)
        .simd_lt(u32x16::from_array(before))
        .select(u32x16::from_array(labels), u32x16::splat(other))
        .to_array()
}

/// The least of some labels.
#[inline(always)]
fn least(labels: Lanes) -> u32
    ensures below { (l : ℕ) → l < SIXTEEN → result ≤ slice_index labels l }
    ensures some { (result ≡ NEVER) ⊎ ((l : ℕ) × (l < SIXTEEN) × (slice_index labels l ≡ result)) }
{
    let mut low = NEVER;
    for l in 0..LANES {
        if labels[l] < low {
            low = labels[l];
        }
    }
    low
}

/// The greatest of some labels.
#[inline(always)]
fn greatest(labels: Lanes) -> u32
    ensures above { (l : ℕ) → l < SIXTEEN → slice_index labels l ≤ result }
    ensures some { (result ≡ 0) ⊎ ((l : ℕ) × (l < SIXTEEN) × (slice_index labels l ≡ result)) }
{
    let mut high = 0;
    for l in 0..LANES {
        if high < labels[l] {
            high = labels[l];
        }
    }
    high
}
