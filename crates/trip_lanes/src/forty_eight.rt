//! Forty-eight narrow lane labels, of 16 bits: thirty-two and sixteen side by side. They stand in one array, of which
//! both parts are read and written as vectors: then a stop's labels stay in registers from one trip to the next. If the
//! parts were fields of a struct, the last sixteen labels would be carried one by one.
ghost use Rattle.std.specs.Prelude.{◌≡◌, ◌≢◌, ℕ, ◌+◌, ◌*◌, ◌<◌, ◌≤◌, ◌⊎◌, ◌-◌, refl, slice_index};
ghost use Rattle.std.proofs.lemmas.Bool.{leb-true};
ghost use Rattle.trip_lanes.specs.Eights.{AreLeast, AreGreatest};
ghost use Rattle.trip_lanes.specs.declared.lanes.TheConstants.{LANES as SIXTEEN};

use crate::eights::{Eight, FAR, greatest_of_eight, higher_eight, least_of_eight, lower_eight};
use crate::falls::Fall;
use crate::lane_labels::{LaneLabels, NarrowLabels};
use crate::narrow::Narrow;
use crate::ranks::Span;
use crate::sixteen::Sixteen;
use crate::{narrow, sixteen};
use std::simd::prelude::*;
use std::simd::{u16x16, u16x32};

/// How many narrow labels stand side by side at most.
const FORTY_EIGHT_LANES: usize = 48;

/// How many of them are in the first part.
const FRONT_LANES: usize = 32;

/// The labels of one stop for forty-eight departures, in seconds from some time on.
pub type FortyEight = [u16; FORTY_EIGHT_LANES];

impl LaneLabels for FortyEight {
    ghost LANES = { 48 };

    const LANES: usize = FORTY_EIGHT_LANES;

    ghost NEVER = { 65535 };

    const NEVER: u32 = 65_535;

    ghost labels = { λ row. row };

    fn all(label: u32) -> Self {
        beside(Narrow::all(label), Sixteen::all(label))
    }

    fn minutely(first: u32, minutes: u32) -> Self {
        let later = first + 60 * FRONT_LANES as u32;
        beside(
            Narrow::minutely(first, minutes),
            Sixteen::minutely(later, left_of(minutes)),
        )
    }

    #[inline(always)]
    fn first(self) -> u32 {
        self[0] as u32
    }

    #[inline(always)]
    fn lower_of(self, other: Self) -> Self {
        beside(
            front_of(self).lower_of(front_of(other)),
            back_of(self).lower_of(back_of(other)),
        )
    }

    #[inline(always)]
    fn changed(self, old: Self) -> bool {
        front_of(self).changed(front_of(old)) | back_of(self).changed(back_of(old))
    }

    #[inline(always)]
    fn later(self, seconds: u32) -> Self {
        beside(front_of(self).later(seconds), back_of(self).later(seconds))
    }

    #[inline(always)]
    fn catch(self, depart: u32, rank: u32) -> Self {
        beside(
            front_of(self).catch(depart, rank),
            back_of(self).catch(depart, rank),
        )
    }

    #[inline(always)]
    fn alight(self, run: Self, rank: u32, arrive: u32) -> Self {
        beside(
            front_of(self).alight(front_of(run), rank, arrive),
            back_of(self).alight(back_of(run), rank, arrive),
        )
    }

    #[inline(always)]
    fn span(self) -> Span {
        let first = least(self);
        if first == FAR as u32 {
            return Span { first: 0, end: 0 };
        }
        Span {
            first: first as usize,
            end: greatest(ridden(self)) as usize + 1,
        }
    }

    #[inline(always)]
    fn is_reached(self, departs: Self) -> bool {
        front_of(self).is_reached(front_of(departs)) & back_of(self).is_reached(back_of(departs))
    }

    #[inline(always)]
    fn fall(self, before: Self) -> Fall {
        Fall {
            low: least(of_fallen(before, self, self, FAR)),
            high: greatest(of_fallen(before, self, self, 0)),
            top: greatest(of_fallen(before, self, before, 0)),
        }
    }

    ghost some = { leb-true SIXTEEN 48 refl };

    ghost few = { leb-true 48 64 refl };

    ghost room = { leb-true (60 * 48 + 7203) 65535 refl };

    ghost never_fits = { leb-true 65535 4294967295 refl };
}

impl NarrowLabels for FortyEight {
    #[inline(always)]
    fn put(self, found: &mut [u16], at: usize) {
        front_of(self).put(found, at);
        back_of(self).put(found, at + FRONT_LANES);
    }

    ghost narrow = { refl };
}

/// The first thirty-two labels.
#[inline(always)]
fn front_of(labels: FortyEight) -> Narrow
    ensures { (l : ℕ) → l < 32 → slice_index result l ≡ slice_index labels l }
{
    u16x32::from_slice(&labels[0..FRONT_LANES]).to_array()
}

/// The last sixteen.
#[inline(always)]
fn back_of(labels: FortyEight) -> Sixteen
    ensures { (l : ℕ) → l < 16 → slice_index result l ≡ slice_index labels (32 + l) }
{
    u16x16::from_slice(&labels[FRONT_LANES..FORTY_EIGHT_LANES]).to_array()
}

/// Both parts in one array.
#[inline(always)]
fn beside(front: Narrow, back: Sixteen) -> FortyEight
    ensures front { (l : ℕ) → l < 32 → slice_index result l ≡ slice_index front l }
    ensures back { (l : ℕ) → l < 16 → slice_index result (32 + l) ≡ slice_index back l }
{
    let mut labels = [0; FORTY_EIGHT_LANES];
    front.put(&mut labels, 0);
    back.put(&mut labels, FRONT_LANES);
    labels
}

/// For how many of these minutes the last sixteen lanes depart.
fn left_of(minutes: u32) -> u32
    ensures { result ≡ minutes - 32 }
{
    if minutes < FRONT_LANES as u32 {
        0
    } else {
        minutes - FRONT_LANES as u32
    }
}

/// The ranks of the lanes that ride a trip, and 0 in the others.
#[inline(always)]
fn ridden(run: FortyEight) -> FortyEight
    ensures ranks { (l : ℕ) → l < 48 → slice_index run l ≢ 65535 → slice_index result l ≡ slice_index run l }
    ensures others { (l : ℕ) → l < 48 → slice_index run l ≡ 65535 → slice_index result l ≡ 0 }
{
    beside(narrow::ridden(front_of(run)), sixteen::ridden(back_of(run)))
}

/// The labels of the lanes that fell, and another number in the others.
#[inline(always)]
fn of_fallen(before: FortyEight, ready: FortyEight, labels: FortyEight, other: u16) -> FortyEight
    ensures { (l : ℕ) → l < 48 → slice_index ready l < slice_index before l →
        slice_index result l ≡ slice_index labels l }
{
    beside(
        narrow::of_fallen(front_of(before), front_of(ready), front_of(labels), other),
        sixteen::of_fallen(back_of(before), back_of(ready), back_of(labels), other),
    )
}

/// The least of the labels that are eight lanes apart.
#[inline(always)]
fn least_by_eights(labels: FortyEight) -> Eight
    ensures { AreLeast 0 6 labels result }
{
    lower_eight(
        narrow::least_by_eights(front_of(labels)),
        sixteen::least_by_eights(back_of(labels)),
    )
}

/// The greatest of the labels that are eight lanes apart.
#[inline(always)]
fn greatest_by_eights(labels: FortyEight) -> Eight
    ensures { AreGreatest 0 6 labels result }
{
    higher_eight(
        narrow::greatest_by_eights(front_of(labels)),
        sixteen::greatest_by_eights(back_of(labels)),
    )
}

/// The least of some labels.
#[inline(always)]
fn least(labels: FortyEight) -> u32
    ensures fits { result ≤ 65535 }
    ensures below { (l : ℕ) → l < 48 → result ≤ slice_index labels l }
    ensures some { (l : ℕ) × (l < 48) × (slice_index labels l ≡ result) }
{
    least_of_eight(least_by_eights(labels))
}

/// The greatest of some labels.
#[inline(always)]
fn greatest(labels: FortyEight) -> u32
    ensures fits { result ≤ 65535 }
    ensures above { (l : ℕ) → l < 48 → slice_index labels l ≤ result }
    ensures some { (l : ℕ) × (l < 48) × (slice_index labels l ≡ result) }
{
    greatest_of_eight(greatest_by_eights(labels))
}
