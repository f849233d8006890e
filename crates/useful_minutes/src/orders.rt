//! The labels that stand in for others, four minutes at a time: by the positions of their bytes.
ghost use Rattle.std.specs.Prelude.{◌≡◌, ℕ, ◌+◌, ◌*◌, ◌/◌, ◌%◌, ◌^◌, ◌<◌, ◌≤◌, length, slice_index, IfOk};
ghost use Rattle.useful_minutes.specs.Orders.{AreSteps, AreOrders, IsOrder, Takes};

use std::alloc::{AllocError, Global};
use std::simd::prelude::*;
use std::simd::{u8x16, u32x4};

/// How many labels are taken at once: as many as one register of every x86-64 processor holds.
pub(crate) const AT_ONCE: usize = 4;

/// Labels that are taken at once.
pub(crate) type Four = [u32; AT_ONCE];

/// For each byte of four labels, which byte of four others it is.
pub(crate) type Order = [u8; 16];

/// In which order four minutes take their labels from the four labels that begin with the first minute's.
fn order_of(positions: &[u32], group: usize) -> Order
    requires group { AT_ONCE * group + AT_ONCE ≤ length positions.now }
    requires steps { AreSteps positions.now }
    ensures { IsOrder positions.now group result }
{
    let from = positions[AT_ONCE * group];
    let mut order = [0; 16];
    for byte in 0..16 {
        let label = positions[AT_ONCE * group + byte / 4] - from;
        order[byte] = 4 * label as u8 + (byte % 4) as u8;
    }
    order
}

/// The orders of all minutes, four by four.
pub(crate) fn orders_of(alloc: Global, positions: &[u32]) -> Result<Vec<Order>, AllocError>
    requires steps { AreSteps positions.now }
    ensures { IfOk result (λ orders. AreOrders positions.now orders.items) }
{
    let mut orders = Vec::new(alloc);
    for group in 0..positions.len() / AT_ONCE {
        orders.push(order_of(positions, group))?;
    }
    Ok(orders)
}

/// The bytes of four labels, the lowest of each first.
#[inline(always)]
fn bytes_of(labels: Four) -> u8x16
    requires { (k : ℕ) → k < AT_ONCE → slice_index labels k < 2 ^ 32 }
    ensures { (k b : ℕ) → k < AT_ONCE → b < 4 →
        slice_index result (4 * k + b) ≡ slice_index labels k / 256 ^ b % 256 }
{
    u32x4::from_array(labels).to_le_bytes()
}

/// Bytes in an order, which one instruction makes.
#[inline(always)]
fn moved(bytes: u8x16, order: Order) -> u8x16
    requires { (i : ℕ) → i < 16 → slice_index order i < 16 }
    ensures { (i : ℕ) → i < 16 → slice_index result i ≡ slice_index bytes (slice_index order i) }
{
    bytes.swizzle_dyn(u8x16::from_array(order))
}

/// The four labels that have these bytes.
#[inline(always)]
fn labels_of(bytes: u8x16) -> Four
    requires { (i : ℕ) → i < 16 → slice_index bytes i < 256 }
    ensures { (l : ℕ) → l < AT_ONCE → slice_index result l ≡ slice_index bytes (4 * l)
        + (256 * slice_index bytes (4 * l + 1) + (65536 * slice_index bytes (4 * l + 2)
        + 16777216 * slice_index bytes (4 * l + 3))) }
{
    u32x4::from_le_bytes(bytes).to_array()
}

/// Four labels in an order.
#[inline(always)]
pub(crate) fn in_order(labels: Four, order: Order) -> Four
    requires labels { (k : ℕ) → k < AT_ONCE → slice_index labels k < 2 ^ 32 }
    requires order { (i : ℕ) → i < 16 → slice_index order i < 16 }
    ensures { (l k : ℕ) → l < AT_ONCE → k < AT_ONCE → Takes order l k →
        slice_index result l ≡ slice_index labels k }
{
    labels_of(moved(bytes_of(labels), order))
}
