//! Narrow lane labels by eights: what one register of every x86-64 processor holds. They are reduced by registers,
//! always inlined, since a loop over lanes in memory is compiled lane by lane.
ghost use Rattle.std.specs.Prelude.{◌≡◌, ℕ, ◌+◌, ◌*◌, ◌<◌, ◌≤◌, ◌⊎◌, length, min, max, slice_index};

use std::simd::prelude::*;
use std::simd::u16x8;

/// Eight labels.
pub(crate) type Eight = [u16; 8];

/// The greatest narrow label.
pub(crate) const FAR: u16 = 65_535;

/// Eight of a stop's labels, from eight times a part on.
#[inline(always)]
pub(crate) fn eight_of(labels: &[u16], part: usize) -> Eight
    requires { 8 * part + 8 ≤ length labels.now }
    ensures { (l : ℕ) → l < 8 → slice_index result l ≡ slice_index labels.now (8 * part + l) }
{
    let from = 8 * part;
    u16x8::from_slice(&labels[from..from + 8]).to_array()
}

/// The lower of both, in each lane.
#[inline(always)]
pub(crate) fn lower_eight(one: Eight, other: Eight) -> Eight
    ensures { (l : ℕ) → l < 8 → slice_index result l ≡ min (slice_index one l) (slice_index other l) }
{
    u16x8::from_array(one)
        .simd_min(u16x8::from_array(other))
        .to_array()
}

/// The higher of both, in each lane.
#[inline(always)]
pub(crate) fn higher_eight(one: Eight, other: Eight) -> Eight
    ensures { (l : ℕ) → l < 8 → slice_index result l ≡ max (slice_index one l) (slice_index other l) }
{
    u16x8::from_array(one)
        .simd_max(u16x8::from_array(other))
        .to_array()
}

/// The last four lanes first.
#[inline(always)]
fn by_four(eight: Eight) -> Eight
    ensures { (k : ℕ) → k < 4 → slice_index result k ≡ slice_index eight (4 + k) }
{
    u16x8::from_array(eight)
        .rotate_elements_left::<4>()
        .to_array()
}

/// The third lane and the fourth first.
#[inline(always)]
fn by_two(eight: Eight) -> Eight
    ensures { (k : ℕ) → k < 2 → slice_index result k ≡ slice_index eight (2 + k) }
{
    u16x8::from_array(eight)
        .rotate_elements_left::<2>()
        .to_array()
}

/// The second lane first.
#[inline(always)]
fn by_one(eight: Eight) -> Eight
    ensures { (k : ℕ) → k < 1 → slice_index result k ≡ slice_index eight (1 + k) }
{
    u16x8::from_array(eight)
        .rotate_elements_left::<1>()
        .to_array()
}

/// The least of eight labels.
#[inline(always)]
pub(crate) fn least_of_eight(eight: Eight) -> u32
    ensures fits { result ≤ 65535 }
    ensures below { (k : ℕ) → k < 8 → result ≤ slice_index eight k }
    ensures some { (k : ℕ) × (k < 8) × (slice_index eight k ≡ result) }
{
    let four = lower_eight(eight, by_four(eight));
    let two = lower_eight(four, by_two(four));
    let one = lower_eight(two, by_one(two));
    one[0] as u32
}

/// The greatest of eight labels.
#[inline(always)]
pub(crate) fn greatest_of_eight(eight: Eight) -> u32
    ensures fits { result ≤ 65535 }
    ensures above { (k : ℕ) → k < 8 → slice_index eight k ≤ result }
    ensures some { (k : ℕ) × (k < 8) × (slice_index eight k ≡ result) }
{
    let four = higher_eight(eight, by_four(eight));
    let two = higher_eight(four, by_two(four));
    let one = higher_eight(two, by_one(two));
    one[0] as u32
}
