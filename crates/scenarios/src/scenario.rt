//! Scenarios: which trips they keep, and by how much they shift them.
ghost use Rattle.std.specs.Prelude.{◌≡◌, ◌<◌, ◌≤ℤ◌, [], Some, codes, length, neg_ℤ, pos, slice_get, false};

use crate::edits::Edit;
use crate::name::Name;
use crate::numbered::{add_shift, flag_at, make_room};
use gtfs_tables::Feed;
use std::alloc::{AllocError, Global};
use std::marker::Model;

/// A scenario: what its rows do to the trips of a feed. Contracts see its name and the list of its edits.
#[derive(Drop)]
pub struct Scenario {
    name: Name,
    edits: Vec<Edit>,
    /// For each route, whether it is removed. Routes past the end aren't.
    removed_routes: Vec<bool>,
    /// For each trip, whether it is removed by itself. Trips past the end aren't.
    removed_trips: Vec<bool>,
    /// For each trip, its shift in seconds. Trips past the end aren't shifted.
    shifts: Vec<i64>,
}

impl Model for Scenario {
    ghost use Rattle.scenarios.specs.ScenarioData.{ScenarioData};

    ghost Value = { ScenarioData };

    ghost use Rattle.scenarios.specs.Scenario.{IsLookedUp, scenario_of};

    ghost view = { scenario_of };

    ghost invariant = { IsLookedUp };
}

/// The scenario `base`, which has no edits.
pub fn base(alloc: Global) -> Scenario
    ensures { result ≡ record { name = codes "base"; edits = [] } }
{
    Scenario {
        name: Name::Base,
        edits: Vec::new(alloc),
        removed_routes: Vec::new(alloc),
        removed_trips: Vec::new(alloc),
        shifts: Vec::new(alloc),
    }
}

impl Scenario {
    ghost use Rattle.std.specs.Prelude.{◌≡◌, ◌<◌, ◌≤ℤ◌, ◌++◌, ◌∷◌, [], Some, IfSome, OnErr, OnOk, length, neg_ℤ, pos};
    ghost use Rattle.std.specs.Prelude.{slice_get, slice_index_or, false};
    ghost use Rattle.std.specs.Option.{MatchOption};
    ghost use Rattle.scenarios.specs.declared.edits.Edit.TheVariants as edits;
    ghost use Rattle.scenarios.specs.declared.edits.TheConstants.{MOST_EDITS};
    ghost use Rattle.scenarios.specs.Edits.{IsShift, keeps_of, shift_of};
    ghost use Rattle.gtfs_tables.specs.declared.trip.FeedTrip.{FeedTrip};

    /// The name, in bytes; `base` for the scenario without edits.
    pub fn name(&self) -> &[u8]
        ensures { result.now ≡ self.now.name }
    {
        match &self.name {
            Name::Base => b"base",
            Name::Given(name) => name.as_slice(),
        }
    }

    /// A scenario of a name, which has no edits yet.
    pub(crate) fn named(alloc: Global, name: Vec<u8>) -> Scenario
        ensures { result ≡ record { name = name.items; edits = [] } }
    {
        Scenario {
            name: Name::Given(name),
            edits: Vec::new(alloc),
            removed_routes: Vec::new(alloc),
            removed_trips: Vec::new(alloc),
            shifts: Vec::new(alloc),
        }
    }

    /// The edits, in the order of their rows.
    pub(crate) fn edits(&self) -> &[Edit]
        ensures { result.now ≡ self.now.edits }
    {
        self.edits.as_slice()
    }

    /// Adds an edit after the others.
    pub(crate) fn add(&mut self, edit: Edit) -> Result<(), AllocError>
        requires few { length self.old.edits < MOST_EDITS }
        requires shift { IsShift edit }
        ensures good { OnOk result (self.new ≡ record self.old { edits = self.old.edits ++ edit ∷ [] }) }
        ensures err { OnErr result (self.new ≡ self.old) }
    {
        match edit {
            Edit::RemoveRoute(route) => self.remove_route(route),
            Edit::RemoveTrip(trip) => self.remove_trip(trip),
            Edit::Shift(trip, seconds) => self.shift_trip(trip, seconds),
        }
    }

    /// Adds the removal of a route.
    fn remove_route(&mut self, route: u32) -> Result<(), AllocError>
        requires { length self.old.edits < MOST_EDITS }
        ensures good { OnOk result (self.new ≡ record self.old {
          edits =
              self.old.edits ++ edits.RemoveRoute route ∷ [];
        }) }
        ensures err { OnErr result (self.new ≡ self.old) }
    {
        make_room(&mut self.removed_routes, route, false)?;
        self.edits.push(Edit::RemoveRoute(route))?;
        self.removed_routes[route as usize] = true;
        Ok(())
    }

    /// Adds the removal of a trip.
    fn remove_trip(&mut self, trip: u32) -> Result<(), AllocError>
        requires { length self.old.edits < MOST_EDITS }
        ensures good { OnOk result (self.new ≡ record self.old {
          edits =
              self.old.edits ++ edits.RemoveTrip trip ∷ [];
        }) }
        ensures err { OnErr result (self.new ≡ self.old) }
    {
        make_room(&mut self.removed_trips, trip, false)?;
        self.edits.push(Edit::RemoveTrip(trip))?;
        self.removed_trips[trip as usize] = true;
        Ok(())
    }

    /// Adds a shift of a trip, whose seconds come to those of its other shifts.
    fn shift_trip(&mut self, trip: u32, seconds: i64) -> Result<(), AllocError>
        requires few { length self.old.edits < MOST_EDITS }
        requires low { neg_ℤ (pos 604799) ≤ℤ seconds }
        requires high { seconds ≤ℤ pos 604799 }
        ensures good { OnOk result (self.new ≡ record self.old {
          edits =
              self.old.edits ++ edits.Shift trip seconds ∷ [];
        }) }
        ensures err { OnErr result (self.new ≡ self.old) }
    {
        make_room(&mut self.shifts, trip, 0)?;
        self.edits.push(Edit::Shift(trip, seconds))?;
        add_shift(&mut self.shifts, trip, seconds);
        Ok(())
    }

    /// Whether the scenario keeps a trip of the feed: no row removes it or its route.
    pub fn keeps(&self, feed: &Feed, trip: u32) -> bool
        requires { trip < length feed.now.trips }
        ensures { (t : FeedTrip) → slice_get feed.now.trips trip ≡ Some t →
            result ≡ keeps_of self.now.edits trip t.route }
    {
        let route = feed.trip(trip).route;
        !flag_at(&self.removed_trips, trip) && !flag_at(&self.removed_routes, route)
    }

    /// By how many seconds the scenario shifts a trip of the feed: the sum of all rows that name it.
    pub fn shift(&self, trip: u32) -> i64
        ensures sum { result ≡ shift_of self.now.edits trip }
        ensures low { neg_ℤ (pos 60479900000) ≤ℤ result }
        ensures high { result ≤ℤ pos 60479900000 }
    {
        self.shifts.get(trip as usize).copied().unwrap_or(0)
    }
}
