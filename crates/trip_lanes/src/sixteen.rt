//! Sixteen narrow lane labels, of 16 bits: as many as a batch of few departures needs, of which most lanes of a longer
//! array would be dead.
ghost use Rattle.std.specs.Prelude.{◌≡◌, ◌≢◌, ℕ, ◌+◌, ◌*◌, ◌<◌, ◌≤◌, ◌⊎◌, refl, slice_index};
ghost use Rattle.std.proofs.lemmas.Bool.{leb-true};
ghost use Rattle.trip_lanes.specs.Eights.{AreLeast, AreGreatest};
ghost use Rattle.trip_lanes.specs.declared.lanes.TheConstants.{LANES as SIXTEEN};

use crate::eights::{
    Eight, FAR, eight_of, greatest_of_eight, higher_eight, least_of_eight, lower_eight,
};
use crate::falls::Fall;
use crate::lane_labels::{LaneLabels, NarrowLabels};
use crate::ranks::Span;
use std::simd::prelude::*;
use std::simd::u16x16;

/// How many labels stand side by side where few departures are searched.
const SIXTEEN_LANES: usize = 16;

/// The labels of one stop for sixteen departures, in seconds from some time on.
pub type Sixteen = [u16; SIXTEEN_LANES];

impl LaneLabels for Sixteen {
    ghost LANES = { 16 };

    const LANES: usize = SIXTEEN_LANES;

    ghost NEVER = { 65535 };

    const NEVER: u32 = 65_535;

    ghost labels = { λ row. row };

    #[inline(always)]
    fn all(label: u32) -> Self {
        u16x16::splat(label as u16).to_array()
    }

    fn minutely(first: u32, minutes: u32) -> Self {
        let mut departs = [FAR; SIXTEEN_LANES];
        for l in 0..SIXTEEN_LANES {
            if (l as u32) < minutes {
                departs[l] = (first + 60 * l as u32) as u16;
            }
        }
        departs
    }

    #[inline(always)]
    fn first(self) -> u32 {
        self[0] as u32
    }

    #[inline(always)]
    fn lower_of(self, other: Self) -> Self {
        u16x16::from_array(self)
            .simd_min(u16x16::from_array(other))
            .to_array()
    }

    #[inline(always)]
    fn changed(self, old: Self) -> bool {
        u16x16::from_array(self)
            .simd_ne(u16x16::from_array(old))
            .any()
    }

    #[inline(always)]
    fn later(self, seconds: u32) -> Self {
        let more = if seconds < FAR as u32 {
            seconds as u16
        } else {
            FAR
        };
        // A difference of vectors, too, so that this is compiled to one instruction: a sum that stops at FAR.
        let room = u16x16::splat(FAR) - u16x16::splat(more);
        (u16x16::from_array(self).simd_min(room) + u16x16::splat(more)).to_array()
    }

    #[inline(always)]
    fn catch(self, depart: u32, rank: u32) -> Self {
        u16x16::from_array(self)
            .simd_le(u16x16::splat(depart as u16))
            .select(u16x16::splat(rank as u16), u16x16::splat(FAR))
            .to_array()
    }

    #[inline(always)]
    fn alight(self, run: Self, rank: u32, arrive: u32) -> Self {
        u16x16::from_array(run)
            .simd_eq(u16x16::splat(rank as u16))
            .select(u16x16::splat(arrive as u16), u16x16::from_array(self))
            .to_array()
    }

    #[inline(always)]
    fn span(self) -> Span {
        let first = least(self);
        if first == FAR as u32 {
            return Span { first: 0, end: 0 };
        }
        Span {
            first: first as usize,
            end: greatest(ridden(self)) as usize + 1,
        }
    }

    #[inline(always)]
    fn is_reached(self, departs: Self) -> bool {
        let far = u16x16::splat(FAR);
        let dead = u16x16::from_array(departs).simd_eq(far);
        dead.select(u16x16::splat(0), u16x16::from_array(self))
            .simd_ne(far)
            .all()
    }

    #[inline(always)]
    fn fall(self, before: Self) -> Fall {
        Fall {
            low: least(of_fallen(before, self, self, FAR)),
            high: greatest(of_fallen(before, self, self, 0)),
            top: greatest(of_fallen(before, self, before, 0)),
        }
    }

    ghost some = { leb-true SIXTEEN 16 refl };

    ghost few = { leb-true 16 64 refl };

    ghost room = { leb-true (60 * 16 + 7203) 65535 refl };

    ghost never_fits = { leb-true 65535 4294967295 refl };
}

impl NarrowLabels for Sixteen {
    #[inline(always)]
    fn put(self, found: &mut [u16], at: usize) {
        u16x16::from_array(self).copy_to_slice(&mut found[at..]);
    }

    ghost narrow = { refl };
}

/// The ranks of the lanes that ride a trip, and 0 in the others.
#[inline(always)]
pub(crate) fn ridden(run: Sixteen) -> Sixteen
    ensures ranks { (l : ℕ) → l < 16 → slice_index run l ≢ 65535 → slice_index result l ≡ slice_index run l }
    ensures others { (l : ℕ) → l < 16 → slice_index run l ≡ 65535 → slice_index result l ≡ 0 }
{
    let none = u16x16::splat(FAR);
    let ranks = u16x16::from_array(run);
    ranks
        .simd_eq(none)
        .select(u16x16::splat(0), ranks)
        .to_array()
}

/// The labels of the lanes that fell, and another number in the others.
#[inline(always)]
pub(crate) fn of_fallen(before: Sixteen, ready: Sixteen, labels: Sixteen, other: u16) -> Sixteen
    ensures { (l : ℕ) → l < 16 → slice_index ready l < slice_index before l →
        slice_index result l ≡ slice_index labels l }
{
    u16x16::from_array(ready)
        .simd_lt(u16x16::from_array(before))
        .select(u16x16::from_array(labels), u16x16::splat(other))
        .to_array()
}

/// The least of the labels that are eight lanes apart.
#[inline(always)]
pub(crate) fn least_by_eights(labels: Sixteen) -> Eight
    ensures { AreLeast 0 2 labels result }
{
    lower_eight(eight_of(&labels, 0), eight_of(&labels, 1))
}

/// The greatest of the labels that are eight lanes apart.
#[inline(always)]
pub(crate) fn greatest_by_eights(labels: Sixteen) -> Eight
    ensures { AreGreatest 0 2 labels result }
{
    higher_eight(eight_of(&labels, 0), eight_of(&labels, 1))
}

/// The least of some labels.
#[inline(always)]
fn least(labels: Sixteen) -> u32
    ensures below { (l : ℕ) → l < 16 → result ≤ slice_index labels l }
    ensures some { (l : ℕ) × (l < 16) × (slice_index labels l ≡ result) }
{
    least_of_eight(least_by_eights(labels))
}

/// The greatest of some labels.
#[inline(always)]
fn greatest(labels: Sixteen) -> u32
    ensures above { (l : ℕ) → l < 16 → slice_index labels l ≤ result }
    ensures some { (l : ℕ) × (l < 16) × (slice_index labels l ≡ result) }
{
    greatest_of_eight(greatest_by_eights(labels))
}
