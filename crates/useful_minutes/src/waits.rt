//! The labels of all minutes of a window, from those of the minutes that were searched.
ghost use Rattle.std.specs.Prelude.{◌≡◌, ℕ, ◌+◌, ◌*◌, ◌<◌, ◌≤◌, ◌⊎◌, [], length, slice_index, slice_index_or, All};
ghost use Rattle.std.specs.Prelude.{OnOk};
ghost use Rattle.trip_lanes.specs.declared.lanes.TheConstants.{LANES};
ghost use Rattle.useful_minutes.specs.Orders.{AreSteps, AreOrders};
ghost use Rattle.useful_minutes.specs.Waits.{AreFilled, HasRoom, label_from, waited};
ghost use Rattle.useful_minutes.specs.declared.orders.TheConstants.{AT_ONCE as AT_ONCE_VALUE};

use crate::orders::{AT_ONCE, Four, Order, in_order, orders_of};
use std::alloc::{AllocError, Global};
use std::simd::prelude::*;
use std::simd::{u32x4, u32x16};
use timetable::NEVER;
use trip_lanes::{LANES, Lanes};

/// Copies sixteen labels to their positions among those of a stop.
fn copy_chunk(near: &mut [u32], lanes: Lanes, chunk: usize)
    requires { LANES * chunk + LANES ≤ length near.old }
    ensures same { length near.new ≡ length near.old }
    ensures copied { (l : ℕ) → l < LANES → slice_index near.new (LANES * chunk + l) ≡ slice_index lanes l }
    ensures kept { (m : ℕ) → (m < LANES * chunk) ⊎ (LANES * chunk + LANES ≤ m) →
        slice_index near.new m ≡ slice_index near.old m }
{
    for l in 0..LANES {
        near[LANES * chunk + l] = lanes[l];
    }
}

/// Copies the labels of a stop, so many chunks that stand side by side from one on.
fn copy_stop(near: &mut [u32], labels: &[Lanes], from: usize, chunks: usize)
    requires near { LANES * chunks ≤ length near.old }
    requires labels { from + chunks ≤ length labels.now }
    ensures same { length near.new ≡ length near.old }
    ensures copied { (m : ℕ) → m < LANES * chunks → slice_index near.new m ≡ label_from from labels.now m }
{
    for chunk in 0..chunks {
        copy_chunk(near, labels[from + chunk], chunk);
    }
}

/// The labels of the minutes that stand in for four minutes.
#[inline(always)]
fn four_of(near: &[u32], positions: &[u32], orders: &[Order], group: usize) -> Four
    requires group { AT_ONCE_VALUE * group + AT_ONCE_VALUE ≤ length positions.now }
    requires near { All (λ position. position + AT_ONCE_VALUE ≤ length near.now) positions.now }
    requires steps { AreSteps positions.now }
    requires orders { AreOrders positions.now orders.now }
    ensures { (l : ℕ) → l < AT_ONCE_VALUE →
        slice_index result l ≡ slice_index near.now (slice_index positions.now (AT_ONCE_VALUE * group + l)) }
{
    let from = positions[AT_ONCE * group] as usize;
    let labels = u32x4::from_slice(&near[from..from + AT_ONCE]).to_array();
    in_order(labels, orders[group])
}

/// Puts four labels at a position among sixteen.
#[inline(always)]
fn put_four(labels: &mut [u32], at: usize, four: Four)
    requires { at + AT_ONCE_VALUE ≤ length labels.old }
    ensures same { length labels.new ≡ length labels.old }
    ensures put { (l : ℕ) → l < AT_ONCE_VALUE → slice_index labels.new (at + l) ≡ slice_index four l }
    ensures kept { (m : ℕ) → (m < at) ⊎ (at + AT_ONCE_VALUE ≤ m) →
        slice_index labels.new m ≡ slice_index labels.old m }
{
    for l in 0..AT_ONCE {
        labels[at + l] = four[l];
    }
}

/// The labels of the minutes that stand in for sixteen minutes.
#[inline(always)]
fn stand_ins_of(near: &[u32], positions: &[u32], orders: &[Order], chunk: usize) -> Lanes
    requires chunk { LANES * chunk + LANES ≤ length positions.now }
    requires near { All (λ position. position + AT_ONCE_VALUE ≤ length near.now) positions.now }
    requires steps { AreSteps positions.now }
    requires orders { AreOrders positions.now orders.now }
    ensures { (l : ℕ) → l < LANES →
        slice_index result l ≡ slice_index near.now (slice_index positions.now (LANES * chunk + l)) }
{
    let mut taken = [0; LANES];
    for part in 0..LANES / AT_ONCE {
        let group = LANES / AT_ONCE * chunk + part;
        put_four(
            &mut taken,
            AT_ONCE * part,
            four_of(near, positions, orders, group),
        );
    }
    taken
}

/// Sixteen labels with their waits. A sum that stops at the greatest number keeps `NEVER` as it is.
#[inline(always)]
fn with_waits(labels: Lanes, waits: &[u32], chunk: usize) -> Lanes
    requires { LANES * chunk + LANES ≤ length waits.now }
    ensures { (l : ℕ) → l < LANES →
        slice_index result l ≡ waited (slice_index labels l) (slice_index waits.now (LANES * chunk + l)) }
{
    let from = LANES * chunk;
    let more = u32x16::from_slice(&waits[from..from + LANES]);
    let early = u32x16::from_array(labels).simd_min(u32x16::splat(NEVER) - more);
    (early + more).to_array()
}

/// Fills in the labels of a stop, whose chunks stand side by side from one on. `near` has room for those of the
/// searched minutes, and for one chunk more.
fn fill_stop(
    labels: &mut [Lanes],
    near: &mut [u32],
    positions: &[u32],
    orders: &[Order],
    waits: &[u32],
    from: usize,
)
    requires chunks { (chunks : ℕ) × (length positions.now ≡ LANES * chunks) × (from + chunks ≤ length labels.old) }
    requires near { HasRoom positions.now (length near.old) }
    requires waits { length waits.now ≡ length positions.now }
    requires steps { AreSteps positions.now }
    requires orders { AreOrders positions.now orders.now }
    ensures same { length labels.new ≡ length labels.old }
    ensures near { length near.new ≡ length near.old }
    ensures filled { (m : ℕ) → m < length positions.now → label_from from labels.new m
        ≡ waited (label_from from labels.old (slice_index positions.now m)) (slice_index waits.now m) }
    ensures kept { (i : ℕ) → (i < from) ⊎ (LANES * from + length positions.now ≤ LANES * i) →
        slice_index_or labels.new i [] ≡ slice_index_or labels.old i [] }
{
    copy_stop(near, labels, from, near.len() / LANES - 1);
    for chunk in 0..positions.len() / LANES {
        let taken = stand_ins_of(near, positions, orders, chunk);
        labels[from + chunk] = with_waits(taken, waits, chunk);
    }
}

/// Fills in the labels of all stops, one after another.
fn fill_stops(
    labels: &mut [Lanes],
    near: &mut [u32],
    positions: &[u32],
    orders: &[Order],
    waits: &[u32],
    stops: usize,
)
    requires chunks { (chunks : ℕ) × (length positions.now ≡ LANES * chunks) × (length labels.old ≡ stops * chunks) }
    requires near { HasRoom positions.now (length near.old) }
    requires waits { length waits.now ≡ length positions.now }
    requires steps { AreSteps positions.now }
    requires orders { AreOrders positions.now orders.now }
    ensures { AreFilled positions.now waits.now stops labels.old labels.new }
{
    let chunks = positions.len() / LANES;
    for stop in 0..stops {
        fill_stop(labels, near, positions, orders, waits, stop * chunks);
    }
}

/// Fills in the label of each stop and minute: that of the minute at its position among those that were searched, whose
/// labels stand first, and its wait. The label after these, at the position of lanes past the window, is one of them.
/// Out of memory is the only error.
pub fn fill_in(
    alloc: Global,
    labels: &mut [Lanes],
    positions: &[u32],
    waits: &[u32],
    searched: usize,
    stops: usize,
) -> Result<(), AllocError>
    requires chunks { (chunks : ℕ) × (length positions.now ≡ LANES * chunks) × (length labels.old ≡ stops * chunks) }
    requires waits { length waits.now ≡ length positions.now }
    requires steps { AreSteps positions.now }
    requires within { All (λ position. position ≤ searched) positions.now }
    requires few { searched < length positions.now }
    ensures { OnOk result (AreFilled positions.now waits.now stops labels.old labels.new) }
{
    let orders = orders_of(alloc, positions)?;
    let mut room = vec![in alloc; NEVER; LANES * (searched / LANES + 2)]?;
    let near = room.as_mut_slice();
    fill_stops(labels, near, positions, &orders, waits, stops);
    Ok(())
}
