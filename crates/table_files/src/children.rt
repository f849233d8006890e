//! The stops of each station.

ghost use Rattle.std.specs.Prelude.{◌≡◌, ◌<◌, ◌≤◌, ◌∷◌, ◌++◌, [], List, length, map, replicate, slice_get, slice_set};
ghost use Rattle.std.specs.Prelude.{Some, IfOk};
ghost use Rattle.timetable.specs.declared.limits.TheConstants.{MOST_STOPS};
ghost use Rattle.timetable.specs.declared.trips.StopNo.{StopNo};
ghost use Rattle.table_files.specs.Children as spec;

use std::alloc::{AllocError, Global};
use std::marker::Model;
use table_records::Identifiers;
use timetable::StopNo;

/// The stops of each station, in file order. Contracts see a list for each station.
#[derive(Drop)]
pub struct Children {
    lists: Vec<Vec<StopNo>>,
}

impl Model for Children {
    ghost use Rattle.std.specs.Prelude.{List, map};
    ghost use Rattle.timetable.specs.declared.trips.StopNo.{StopNo};

    ghost Value = { List (List StopNo) };

    ghost view = { λ c. map (λ v. v.items) c.lists.items };
}

impl Children {
    /// No stops yet, for each of `stations` stations.
    fn none(alloc: Global, stations: usize) -> Result<Children, AllocError>
        ensures { IfOk result (λ c. c ≡ replicate {A = List StopNo} stations []) }
    {
        let mut lists = Vec::new(alloc);
        for _ in 0..stations {
            lists.push(Vec::new(alloc))?;
        }
        Ok(Children { lists })
    }

    /// Puts a stop after those of its station.
    fn add(&mut self, station: usize, stop: StopNo) -> Result<(), AllocError>
        requires { station < length self.old }
        ensures { IfOk result (λ _. (stops : List StopNo) × (slice_get self.old station ≡ Some stops)
            × (self.new ≡ slice_set self.old station (stops ++ stop ∷ []))) }
    {
        let stops = &mut self.lists[station];
        stops.push(stop)?;
        Ok(())
    }

    /// The stops of a station.
    pub fn at(&self, station: u32) -> &[StopNo]
        requires { station < length self.now }
        ensures { slice_get self.now station ≡ Some result.now }
    {
        self.lists[station as usize].as_slice()
    }
}

/// The stops of each station, by the parents of all stops. A parent that is no station counts for nothing.
pub fn children_of(
    alloc: Global,
    stations: &Identifiers,
    parents: &[Vec<u8>],
) -> Result<Children, AllocError>
    requires { length parents.now ≤ MOST_STOPS }
    ensures { IfOk result (λ c. c ≡ spec.children_of stations.now (map (λ v. v.items) parents.now)) }
{
    let mut children = Children::none(alloc, stations.len())?;
    for (stop, parent) in parents.iter().enumerate() {
        if let Some(station) = stations.number(parent) {
            children.add(station, StopNo(stop as u32))?;
        }
    }
    Ok(children)
}
