//! Which minutes of a window are searched.
ghost use Rattle.std.specs.Prelude.{◌≡◌, ◌<◌, ◌≤◌, ◌⊎◌, length, IfOk, OnOk};
ghost use Rattle.useful_minutes.specs.Plan.{AreMinutes, HasMarked, AreStandIns, ArePadded, IsPlan, SkipsNothing};
ghost use Rattle.useful_minutes.specs.Plan.{SearchesAll};
ghost use Rattle.timetable.specs.declared.limits.TheConstants.{END_OF_AXIS};

use crate::marks::mark_useful;
use std::alloc::{AllocError, Global};
use timetable::{Renumbered, StopNo};

/// How many minutes lie between one searched minute and the next at most, in a long window: so a batch of them spans
/// some hours only, and narrow labels keep most of their reach.
pub const MOST_GAP: u32 = 8;

/// How many minutes a window has at most that is short: it spans no more than sixteen such gaps.
pub const SHORT_WINDOW: u32 = 128;

/// How many minutes are searched side by side at least, a chunk of them. A window is searched whole unless its useful
/// minutes are fewer chunks.
const SIDE_BY_SIDE: usize = 16;

/// How many minutes may lie between one searched minute and the next.
fn gap_of(minutes: usize) -> u32
    ensures some { 0 < result }
    ensures few { result ≤ SHORT_WINDOW }
    ensures near { (result ≤ MOST_GAP) ⊎ (minutes ≤ SHORT_WINDOW) }
{
    if minutes <= SHORT_WINDOW as usize {
        SHORT_WINDOW
    } else {
        MOST_GAP
    }
}

/// The minutes to search: those that are marked, the last, and one wherever the next would be too far away.
fn minutes_of(alloc: Global, marks: &[bool]) -> Result<Vec<u32>, AllocError>
    requires some { 0 < length marks.now }
    requires few { length marks.now ≤ 1440 }
    ensures minutes { IfOk result (λ searched. AreMinutes (length marks.now) searched.items) }
    ensures marked { IfOk result (λ searched. HasMarked marks.now searched.items) }
{
    let mut searched = Vec::new(alloc);
    let gap = gap_of(marks.len());
    let mut next = gap;
    for m in 0..marks.len() {
        if marks[m] || m + 1 == marks.len() || next <= m as u32 {
            searched.push(m as u32)?;
            next = m as u32 + gap;
        }
    }
    Ok(searched)
}

/// Which searched minute stands in for each minute of a window, and how long one waits for it.
fn stand_ins(
    alloc: Global,
    searched: &[u32],
    minutes: u32,
) -> Result<(Vec<u32>, Vec<u32>), AllocError>
    requires minutes { AreMinutes minutes searched.now }
    requires few { minutes ≤ 1440 }
    ensures { IfOk result (λ found. AreStandIns minutes searched.now found.0.items found.1.items) }
{
    let mut positions = Vec::new(alloc);
    let mut waits = Vec::new(alloc);
    let mut at = 0;
    for m in 0..minutes {
        if searched[at] < m {
            at += 1;
        }
        positions.push(at as u32)?;
        waits.push(60 * (searched[at] - m))?;
    }
    Ok((positions, waits))
}

/// Appends for each lane past the window the position after those of the searched minutes, and no wait: there the
/// lanes of all labels are dead.
fn pad(
    positions: &mut Vec<u32>,
    waits: &mut Vec<u32>,
    searched: u32,
    minutes: u32,
    lanes: u32,
) -> Result<(), AllocError>
    requires positions { length positions.old.items ≡ minutes }
    requires waits { length waits.old.items ≡ minutes }
    requires lanes { minutes ≤ lanes }
    ensures { OnOk result (ArePadded searched minutes lanes positions.old.items waits.old.items positions.new.items
        waits.new.items) }
{
    for _ in minutes..lanes {
        positions.push(searched)?;
        waits.push(0)?;
    }
    Ok(())
}

/// What is searched of a window.
#[derive(Drop)]
pub struct Plan {
    /// The minutes to search, in ascending order; the window's last is one of them.
    pub minutes: Vec<u32>,
    /// For each minute of the window, the position among these of the first that is no earlier.
    pub positions: Vec<u32>,
    /// How many seconds each minute waits for it.
    pub waits: Vec<u32>,
}

/// The plan for the minutes that are marked. It has positions for so many lanes.
fn plan_of(alloc: Global, marks: &[bool], lanes: u32) -> Result<Plan, AllocError>
    requires some { 0 < length marks.now }
    requires few { length marks.now ≤ 1440 }
    requires lanes { length marks.now ≤ lanes }
    ensures plan { IfOk result (λ plan. IsPlan (length marks.now) lanes plan.minutes.items plan.positions.items
        plan.waits.items) }
    ensures marked { IfOk result (λ plan. HasMarked marks.now plan.minutes.items) }
{
    let minutes = minutes_of(alloc, marks)?;
    let found = stand_ins(alloc, &minutes, marks.len() as u32)?;
    let mut positions = found.0;
    let mut waits = found.1;
    let searched = minutes.len() as u32;
    pad(
        &mut positions,
        &mut waits,
        searched,
        marks.len() as u32,
        lanes,
    )?;
    Ok(Plan {
        minutes,
        positions,
        waits,
    })
}

/// The plan that searches each minute of a window.
fn plan_of_all(alloc: Global, minutes: u32, lanes: u32) -> Result<Plan, AllocError>
    requires some { 0 < minutes }
    requires few { minutes ≤ 1440 }
    requires lanes { minutes ≤ lanes }
    ensures plan { IfOk result (λ plan. IsPlan minutes lanes plan.minutes.items plan.positions.items
        plan.waits.items) }
    ensures all { IfOk result (λ plan. SearchesAll minutes plan.minutes.items plan.positions.items) }
{
    let marks = vec![in alloc; true; minutes as usize]?;
    let plan = plan_of(alloc, marks.as_slice(), lanes)?;
    Ok(plan)
}

/// The plan that searches the useful minutes of a window.
fn plan_of_useful(
    alloc: Global,
    network: &Renumbered<'_>,
    origin: StopNo,
    first: u32,
    minutes: u32,
    lanes: u32,
) -> Result<Plan, AllocError>
    requires origin { origin.0 < network.now.stops }
    requires first { first < END_OF_AXIS }
    requires some { 0 < minutes }
    requires few { minutes ≤ 1440 }
    requires lanes { minutes ≤ lanes }
    ensures plan { IfOk result (λ plan. IsPlan minutes lanes plan.minutes.items plan.positions.items
        plan.waits.items) }
    ensures skips { IfOk result (λ plan. SkipsNothing network.now origin.0 first minutes plan.minutes.items
        plan.positions.items) }
{
    let mut marks = vec![in alloc; false; minutes as usize]?;
    let useful = marks.as_mut_slice();
    mark_useful(alloc, network, origin, first, useful)?;
    let plan = plan_of(alloc, useful, lanes)?;
    Ok(plan)
}

/// Whether fewer chunks of minutes are searched where so many minutes are searched alone.
fn saves_a_chunk(searched: usize, minutes: usize) -> bool {
    searched.div_ceil(SIDE_BY_SIDE) < minutes.div_ceil(SIDE_BY_SIDE)
}

/// Which minutes of a window are searched from an origin, where the window begins at a second: all of them, unless the
/// useful ones are fewer chunks. There are positions for so many lanes. Out of memory is the only error.
pub fn plan_for(
    alloc: Global,
    network: &Renumbered<'_>,
    origin: StopNo,
    first: u32,
    minutes: u32,
    lanes: u32,
) -> Result<Plan, AllocError>
    requires origin { origin.0 < network.now.stops }
    requires first { first < END_OF_AXIS }
    requires some { 0 < minutes }
    requires few { minutes ≤ 1440 }
    requires lanes { minutes ≤ lanes }
    ensures plan { IfOk result (λ plan. IsPlan minutes lanes plan.minutes.items plan.positions.items
        plan.waits.items) }
    ensures skips { IfOk result (λ plan. SkipsNothing network.now origin.0 first minutes plan.minutes.items
        plan.positions.items) }
{
    if saves_a_chunk(1, minutes as usize) {
        let plan = plan_of_useful(alloc, network, origin, first, minutes, lanes)?;
        if saves_a_chunk(plan.minutes.len(), minutes as usize) {
            return Ok(plan);
        }
    }
    let plan = plan_of_all(alloc, minutes, lanes)?;
    Ok(plan)
}
