//! What a feed says, by the numbers of its stops, routes, services and trips.

ghost use Rattle.std.specs.Prelude.{◌≡◌, ◌<◌, Some, is_none, length, map, position, slice_get, option_map, IfSome};
ghost use Rattle.std.specs.Str.{bytes_eq};
ghost use Rattle.table_files.specs.Children as children_spec;
ghost use Rattle.table_files.specs.Ends as ends_spec;
ghost use Rattle.table_files.specs.Places.{place_named};
ghost use Rattle.gtfs_tables.specs.Feed.{IsFeed, calendar_data, exception_data, without_trips};
ghost use Rattle.gtfs_tables.specs.FeedParts.{data_of};

use crate::catalog::Catalog;
use crate::trip::FeedTrip;
use std::alloc::Global;
use std::marker::Model;
use table_files::{CalendarRow, Ends, ExceptionRow, Link, Place, Transfers};
use table_records::Identifiers;
use timetable::StopNo;

/// The data of a feed. Stops have numbers from 0 in the order of `stops.txt`, routes in that of `routes.txt`, trips in
/// that of `trips.txt`, and services as `calendar.txt`, `calendar_dates.txt` and `trips.txt` first name them.
#[derive(Drop)]
pub struct Feed {
    /// What the files name, by number. The numbers of each trip are in `trips`.
    catalog: Catalog,
    trips: Vec<FeedTrip>,
    aside: u32,
    transfers: Transfers,
}

impl Model for Feed {
    ghost use Rattle.std.specs.Prelude.{◌≡◌, map};
    ghost use Rattle.gtfs_tables.specs.Feed.{FeedData, IsFeed};
    ghost use Rattle.gtfs_tables.specs.FeedParts.{data_of};

    ghost Value = { FeedData };

    ghost view = { λ f. data_of f.catalog f.trips.items f.aside f.transfers };

    ghost invariant = { λ f. IsFeed (data_of f.catalog f.trips.items f.aside f.transfers)
        × (f.catalog.trips.ids ≡ map (λ t. t.id) f.trips.items) };
}

impl Feed {
    /// The feed of a catalog and its trips, of which `aside` were set aside, with the walks of `transfers.txt`.
    pub(crate) fn new(
        alloc: Global,
        mut catalog: Catalog,
        trips: Vec<FeedTrip>,
        aside: u32,
        transfers: Transfers,
    ) -> Feed
        requires feed { IsFeed (data_of catalog trips.items aside transfers) }
        requires ids { catalog.trips.ids ≡ map (λ t. t.id) trips.items }
        ensures { result ≡ data_of catalog trips.items aside transfers }
    {
        // Each trip has its own numbers now.
        catalog.trips.numbers = Vec::new(alloc);
        Feed {
            catalog,
            trips,
            aside,
            transfers,
        }
    }

    /// What is true of every feed, for the layers above.
    pub fn known(&self)
        ensures { IsFeed self.now }
    {
        // A look at a field brings the invariant into the proof.
        let _ = &self.trips;
    }

    /// How many stops there are, at most 65,535.
    pub fn stop_count(&self) -> u32
        ensures { result ≡ length self.now.stops }
    {
        self.catalog.places.stops().len() as u32
    }

    /// The identifier of a stop. [`Feed::stop_no`] leads back from it to the stop.
    pub fn stop_id(&self, stop: StopNo) -> &[u8]
        requires { stop.0 < length self.now.stops }
        ensures id { slice_get self.now.stops stop.0 ≡ Some result.now }
        ensures leads_back { position (bytes_eq result.now) self.now.stops ≡ Some stop.0 }
    {
        match self.catalog.places.stops().id(stop.0 as usize) {
            Some(id) => id,
            None => unreachable!(),
        }
    }

    /// The stop with an identifier, none where no stop has it.
    pub fn stop_no(&self, id: &[u8]) -> Option<StopNo>
        ensures number { option_map (λ s. s.0) result ≡ position (bytes_eq id.now) self.now.stops }
        ensures leads_back { IfSome result (λ s. slice_get self.now.stops s.0 ≡ Some id.now) }
    {
        match self.catalog.places.stops().number(id) {
            Some(number) => Some(StopNo(number as u32)),
            None => None,
        }
    }

    /// The number of the route with an identifier, none where no route has it.
    pub fn route_no(&self, id: &[u8]) -> Option<u32>
        ensures { result ≡ position (bytes_eq id.now) self.now.routes }
    {
        match self.catalog.routes.number(id) {
            Some(number) => Some(number as u32),
            None => None,
        }
    }

    /// How many services there are.
    pub fn service_count(&self) -> u32
        ensures { result ≡ length self.now.services }
    {
        self.catalog.trips.services.len() as u32
    }

    /// The number of the service with an identifier, none where no service has it.
    pub fn service_no(&self, id: &[u8]) -> Option<u32>
        ensures { result ≡ position (bytes_eq id.now) self.now.services }
    {
        match self.catalog.trips.services.number(id) {
            Some(number) => Some(number as u32),
            None => None,
        }
    }

    /// The rows of `calendar.txt`, in file order.
    pub fn calendar(&self) -> &[CalendarRow]
        ensures { map calendar_data result.now ≡ self.now.calendar }
    {
        self.catalog.calendar.as_slice()
    }

    /// The rows of `calendar_dates.txt`, in file order.
    pub fn exceptions(&self) -> &[ExceptionRow]
        ensures { map exception_data result.now ≡ self.now.exceptions }
    {
        self.catalog.exceptions.as_slice()
    }

    /// How many trips there are, at most 1,000,000.
    pub fn trip_count(&self) -> u32
        ensures { result ≡ length self.now.trips }
    {
        self.trips.len() as u32
    }

    /// A trip by its number.
    pub fn trip(&self, trip: u32) -> &FeedTrip
        requires { trip < length self.now.trips }
        ensures { slice_get self.now.trips trip ≡ Some result.now }
    {
        &self.trips[trip as usize]
    }

    /// The number of the trip with an identifier, none where no trip has it.
    pub fn trip_no(&self, id: &[u8]) -> Option<u32>
        ensures { result ≡ position (bytes_eq id.now) (map (λ t. t.id) self.now.trips) }
    {
        match self.catalog.trips.ids.number(id) {
            Some(number) => Some(number as u32),
            None => None,
        }
    }

    /// Forgets the trips and gives their memory back. All else of the feed stays as it is.
    pub fn forget_trips(&mut self, alloc: Global)
        ensures { self.new ≡ without_trips self.old }
    {
        let Feed {
            catalog,
            trips,
            aside,
            ..
        } = self;
        catalog.trips.ids = Identifiers::new(alloc);
        *trips = Vec::new(alloc);
        *aside = 0;
    }

    /// How many trips were set aside: a record of theirs in `stop_times.txt` names no stop. They have no events.
    pub fn aside(&self) -> u32
        ensures { result ≡ self.now.aside }
    {
        self.aside
    }

    /// The place with an identifier, a record of `stops.txt`; none where no record has it.
    pub fn place(&self, id: &[u8]) -> Option<Place>
        ensures named { result ≡ place_named self.now.names self.now.places id.now }
        ensures unknown { is_none result ≡ is_none (position (bytes_eq id.now) self.now.names) }
        ensures in_range { IfSome result (children_spec.IsPlace (length self.now.stops) (length self.now.children)) }
    {
        self.catalog.places.known();
        self.catalog.places.place(id)
    }

    /// The stops of a station, in file order.
    pub fn children(&self, station: u32) -> &[StopNo]
        requires { station < length self.now.children }
        ensures { slice_get self.now.children station ≡ Some result.now }
    {
        self.catalog.places.known();
        self.catalog.places.children(station)
    }

    /// The stops that a place stands for: a stop for itself, a station for its stops, another for none.
    pub fn stops_at(&self, place: Place) -> Ends<'_>
        requires { children_spec.IsPlace (length self.now.stops) (length self.now.children) place }
        ensures { ends_spec.stops_of result ≡ children_spec.stops_at place self.now.children }
    {
        self.catalog.places.known();
        self.catalog.places.stops_at(place)
    }

    /// The rows of `transfers.txt` that give a walk between two different stops, or a change time, in file order.
    pub fn links(&self) -> &[Link]
        ensures { result.now ≡ self.now.links }
    {
        self.transfers.links.as_slice()
    }

    /// How many rows of `transfers.txt` give neither a walk nor a change time.
    pub fn unused_transfers(&self) -> u32
        ensures { result ≡ self.now.unused }
    {
        self.transfers.unused
    }
}
