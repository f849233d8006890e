//! The trips of a feed.

ghost use Rattle.std.specs.Prelude.{◌≡◌};

use std::marker::Model;
use table_files::Departures;
use timetable::Events;

/// The identifier of a trip, `trip_id`. Contracts see its bytes.
#[derive(Drop)]
pub struct TripId {
    bytes: Vec<u8>,
}

impl Model for TripId {
    ghost use Rattle.std.specs.Prelude.{ℕ, List};

    ghost Value = { List ℕ };

    ghost view = { λ id. id.bytes.items };
}

impl TripId {
    /// The identifier that the bytes spell.
    pub fn new(bytes: Vec<u8>) -> Self
        ensures { result ≡ bytes.items }
    {
        TripId { bytes }
    }

    /// The bytes, to read.
    pub fn as_slice(&self) -> &[u8]
        ensures { result.now ≡ self.now }
    {
        self.bytes.as_slice()
    }

    /// The bytes, to keep. It takes no memory.
    pub fn into_vec(self) -> Vec<u8>
        ensures { result.items ≡ self }
    {
        let TripId { bytes } = self;
        bytes
    }
}

/// The rows of `frequencies.txt` for a trip, in file order. Contracts see the list.
#[derive(Drop)]
pub struct DepartureList {
    items: Vec<Departures>,
}

impl Model for DepartureList {
    ghost use Rattle.std.specs.Prelude.{List};
    ghost use Rattle.table_files.specs.declared.frequencies.Departures.{Departures};

    ghost Value = { List Departures };

    ghost view = { λ d. d.items.items };
}

impl DepartureList {
    /// The rows of the vector.
    pub fn new(items: Vec<Departures>) -> Self
        ensures { result ≡ items.items }
    {
        DepartureList { items }
    }

    /// The rows, to read.
    pub fn as_slice(&self) -> &[Departures]
        ensures { result.now ≡ self.now }
    {
        self.items.as_slice()
    }

    /// The rows, to keep. It takes no memory.
    pub fn into_vec(self) -> Vec<Departures>
        ensures { result.items ≡ self }
    {
        let DepartureList { items } = self;
        items
    }
}

/// A trip of a feed.
#[derive(Drop)]
pub struct FeedTrip {
    /// The number of its route.
    pub route: u32,
    /// The number of its service.
    pub service: u32,
    pub id: TripId,
    /// Its events, in ascending order of `stop_sequence`, in seconds of the service day.
    pub events: Events,
    /// Its rows of `frequencies.txt`. A trip that has some runs only as the departures that they give.
    pub departures: DepartureList,
}
