//! The narrow labels that stand in for others, eight minutes at a time: by the positions of their bytes.
ghost use Rattle.std.specs.Prelude.{◌≡◌, ℕ, ◌+◌, ◌*◌, ◌/◌, ◌%◌, ◌^◌, ◌<◌, ◌≤◌, length, slice_index};
ghost use Rattle.useful_minutes.specs.Eights.{AreBytes, IsEightOrder, TakesBoth, TakesNone};
ghost use Rattle.useful_minutes.specs.Orders.{AreSteps};

use std::simd::prelude::*;
use std::simd::{u8x16, u16x8};
use trip_lanes::LANES;

/// How many labels are taken at once: as many as one register of every x86-64 processor holds.
pub(crate) const EIGHT: usize = 8;

/// Narrow labels that are taken at once.
pub(crate) type Eight = [u16; EIGHT];

/// For each byte of eight labels, which byte of eight others it is, or `NO_BYTE`.
pub(crate) type EightOrder = [u8; 16];

/// The position of no byte: what takes it is 0.
const NO_BYTE: u8 = 128;

/// In which order eight minutes take their labels from the eight labels that begin with the first minute's. Those past
/// the window take none.
pub(crate) fn eight_order(positions: &[u32], minutes: u32, group: usize) -> EightOrder
    requires group { EIGHT * group + EIGHT ≤ length positions.now }
    requires steps { AreSteps positions.now }
    ensures { IsEightOrder positions.now minutes group result }
{
    let from = positions[EIGHT * group];
    let mut order = [NO_BYTE; 16];
    for byte in 0..16 {
        let minute = EIGHT * group + byte / 2;
        if minute < minutes as usize {
            let label = positions[minute] - from;
            order[byte] = 2 * label as u8 + (byte % 2) as u8;
        }
    }
    order
}

/// The bytes of eight labels, the lower of each first.
#[inline(always)]
fn bytes_of_eight(labels: Eight) -> u8x16
    requires { (k : ℕ) → k < EIGHT → slice_index labels k < 2 ^ 16 }
    ensures { (k b : ℕ) → k < EIGHT → b < 2 →
        slice_index result (2 * k + b) ≡ slice_index labels k / 256 ^ b % 256 }
{
    u16x8::from_array(labels).to_le_bytes()
}

/// Bytes in an order, which one instruction makes. Where the order has no byte it is 0.
#[inline(always)]
fn moved_or_none(bytes: u8x16, order: EightOrder) -> u8x16
    requires { AreBytes order }
    ensures moved { (i : ℕ) → i < 16 → slice_index order i < 16 →
        slice_index result i ≡ slice_index bytes (slice_index order i) }
    ensures none { (i : ℕ) → i < 16 → slice_index order i ≡ 128 → slice_index result i ≡ 0 }
{
    bytes.swizzle_dyn(u8x16::from_array(order))
}

/// The eight labels that have these bytes.
#[inline(always)]
fn eight_of_bytes(bytes: u8x16) -> Eight
    requires { (i : ℕ) → i < 16 → slice_index bytes i < 256 }
    ensures bytes { (l : ℕ) → l < EIGHT →
        slice_index result l ≡ slice_index bytes (2 * l) + 256 * slice_index bytes (2 * l + 1) }
    ensures small { (l : ℕ) → l < EIGHT → slice_index result l < 2 ^ 16 }
{
    u16x8::from_le_bytes(bytes).to_array()
}

/// Eight labels in an order; 0 where a label takes none.
#[inline(always)]
pub(crate) fn eight_in_order(labels: Eight, order: EightOrder) -> Eight
    requires labels { (k : ℕ) → k < EIGHT → slice_index labels k < 2 ^ 16 }
    requires order { AreBytes order }
    ensures takes { (l k : ℕ) → l < EIGHT → k < EIGHT → TakesBoth order l k →
        slice_index result l ≡ slice_index labels k }
    ensures none { (l : ℕ) → l < EIGHT → TakesNone order l → slice_index result l ≡ 0 }
    ensures small { (l : ℕ) → l < EIGHT → slice_index result l < 2 ^ 16 }
{
    eight_of_bytes(moved_or_none(bytes_of_eight(labels), order))
}

/// Twice eight labels, one after the other.
#[inline(always)]
pub(crate) fn both(early: Eight, late: Eight) -> [u16; LANES]
    ensures early { (l : ℕ) → l < EIGHT → slice_index result l ≡ slice_index early l }
    ensures late { (l : ℕ) → l < EIGHT → slice_index result (EIGHT + l) ≡ slice_index late l }
{
    u16x8::from_array(early)
        .shuffle(
            u16x8::from_array(late),
            [0, 1, 2, 3, 4, 5, 6, 7, 8, 9, 10, 11, 12, 13, 14, 15],
        )
        .to_array()
}
