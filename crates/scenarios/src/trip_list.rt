//! The trips of a network that were found so far.
ghost use Rattle.std.specs.Prelude.{◌≡◌, ◌+◌, ◌<◌, ◌≤◌, ◌++◌, ◌∷◌, ◌↔◌, [], IsTrue, OnOk, IfErr, length, sum_by, true};
ghost use Rattle.timetable.specs.declared.limits.TheConstants.{MOST_EVENTS, MOST_TRIPS};
ghost use Rattle.timetable.specs.declared.faults.NetFault.TheVariants as net_fault;

use std::alloc::Global;
use std::marker::Model;
use timetable::{MOST_EVENTS, MOST_TRIPS, NetFault, Trip};

/// Trips, no more and with no more events than a network may have. Contracts see the list.
#[derive(Drop)]
pub(crate) struct TripList {
    trips: Vec<Trip>,
    events: usize,
}

impl Model for TripList {
    ghost use Rattle.std.specs.Prelude.{◌≡◌, ◌≤◌, List, length, sum_by};
    ghost use Rattle.timetable.specs.declared.limits.TheConstants.{MOST_EVENTS, MOST_TRIPS};
    ghost use Rattle.timetable.specs.declared.trips.Trip.{Trip};

    ghost Value = { List Trip };

    ghost view = { λ l. l.trips.items };

    ghost invariant = { λ l. (length l.trips.items ≤ MOST_TRIPS)
        × (l.events ≡ sum_by (λ t. length t.events) l.trips.items) × (l.events ≤ MOST_EVENTS) };
}

impl TripList {
    ghost use Rattle.scenarios.specs.Networks.{are_few};

    /// No trips.
    pub(crate) fn new(alloc: Global) -> TripList
        ensures { result ≡ [] }
    {
        TripList {
            trips: Vec::new(alloc),
            events: 0,
        }
    }

    /// Whether there is room for one more trip, which has `events` events.
    pub(crate) fn has_room(&self, events: usize) -> bool
        ensures { IsTrue result ↔ ((length self.now < MOST_TRIPS)
            × (sum_by (λ t. length t.events) self.now + events ≤ MOST_EVENTS)) }
    {
        self.trips.len() < MOST_TRIPS && events <= MOST_EVENTS - self.events
    }

    /// Adds a trip, for which there is room.
    pub(crate) fn push(&mut self, trip: Trip) -> Result<(), NetFault>
        requires trips { length self.old < MOST_TRIPS }
        requires events { sum_by (λ t. length t.events) self.old + length trip.events ≤ MOST_EVENTS }
        ensures good { OnOk result (self.new ≡ self.old ++ trip ∷ []) }
        ensures fault { IfErr result (λ e. e ≡ net_fault.Memory) }
    {
        let events = trip.events.as_slice().len();
        if self.trips.push(trip).is_err() {
            return Err(NetFault::Memory);
        }
        self.events += events;
        Ok(())
    }

    /// The trips as a vector.
    pub(crate) fn into_vec(self) -> Vec<Trip>
        ensures items { result.items ≡ self }
        ensures few { are_few self ≡ true }
    {
        self.trips
    }
}
