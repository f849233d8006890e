//! Closed footpaths: the least sums over chains of direct footpaths, within a limit.
ghost use Rattle.std.specs.Prelude.{◌≤◌, ◌↔◌, IsTrue, IfOk, IfErr};
ghost use Rattle.timetable.specs.declared.limits.TheConstants.{MOST_FOOT_SECONDS};
ghost use Rattle.timetable.specs.Footpaths.{rows_of};
ghost use Rattle.footpaths.specs.Closure.{IsClosure, IsFootFault};

use crate::adjacency::Adjacency;
use crate::dijkstra::Dijkstra;
use crate::direct_list::Direct;
use crate::faults::FootFault;
use std::alloc::Global;
use timetable::{Feet, MOST_FOOT_SECONDS, MOST_FOOTPATHS, StopNo};

/// Whether footpaths may be closed as far as a limit, in seconds: it is at most 7,200.
pub fn limit_fits(limit: u32) -> bool
    ensures { IsTrue result ↔ (limit ≤ MOST_FOOT_SECONDS) }
{
    limit <= MOST_FOOT_SECONDS
}

/// Closes direct footpaths: from each stop to each other the least sum over chains, where it is at most `limit`
/// seconds. The change times stay. (Closed as the RAPTOR paper asks for: Delling, Pajor, Werneck, ALENEX 2012.)
///
/// `TooMany` where more than 4,000,000 pairs of stops have such a sum, before all are found; `Memory` where memory ran
/// out. A limit is at most 7,200 seconds ([`limit_fits`]).
pub fn close(alloc: Global, direct: &Direct, limit: u32) -> Result<Feet, FootFault>
    requires { limit ≤ MOST_FOOT_SECONDS }
    ensures ok { IfOk result (IsClosure direct.now limit) }
    ensures fault { IfErr result (λ fault. IsFootFault fault direct.now limit) }
{
    direct.known();
    let lists = closed_lists(alloc, direct, limit)?;
    let changes = Vec::from_slice(alloc, direct.changes())?;
    match Feet::new(alloc, direct.stops(), lists, changes) {
        Ok(feet) => Ok(feet),
        Err(_) => unreachable!(),
    }
}

/// The footpaths from each stop in turn, unless there are too many.
fn closed_lists(
    alloc: Global,
    direct: &Direct,
    limit: u32,
) -> Result<Vec<Vec<(StopNo, u32)>>, FootFault>
    requires { limit ≤ MOST_FOOT_SECONDS }
    ensures ok { IfOk result (λ lists. IsClosure direct.now limit (record {
      walks = rows_of lists.items;
      changes = direct.now.changes;
    })) }
    ensures fault { IfErr result (λ fault. IsFootFault fault direct.now limit) }
{
    direct.known();
    let footpaths = Adjacency::new(alloc, direct, limit)?;
    let mut dijkstra = Dijkstra::new(alloc, direct.stops())?;
    let mut lists = Vec::with_capacity(alloc, direct.stops() as usize)?;
    let mut pairs = 0;
    for source in 0..direct.stops() {
        dijkstra.reach(&footpaths, StopNo(source), limit)?;
        if dijkstra.reached() > MOST_FOOTPATHS - pairs {
            return Err(FootFault::TooMany);
        }
        pairs += dijkstra.reached();
        if lists.push(dijkstra.row(alloc)?).is_err() {
            return Err(FootFault::Memory);
        }
        dijkstra.clear(StopNo(source));
    }
    Ok(lists)
}
