//! The places of a feed: stops, stations and others, as `stops.txt` names them.

ghost use Rattle.std.specs.Prelude.{◌<◌, Some, slice_get, ◌≡◌, ◌≤◌, [], length, map, is_none, position, IfOk, IfErr};
ghost use Rattle.std.specs.Prelude.{IfSome};
ghost use Rattle.timetable.specs.declared.limits.TheConstants.{MOST_STOPS};
ghost use Rattle.std.specs.Str.{bytes_eq};
ghost use Rattle.csv.specs.Records.{fields_of};
ghost use Rattle.table_records.specs.Checks.{Explains};
ghost use Rattle.table_records.specs.Faults.{Tells};
ghost use Rattle.table_records.specs.declared.limits.TheConstants.{MOST_BYTES};
ghost use Rattle.table_files.specs.Children as children_spec;
ghost use Rattle.table_files.specs.Ends as ends_spec;
ghost use Rattle.table_files.specs.Places as spec;

use crate::children::{Children, children_of};
use crate::ends::Ends;
use crate::place::Place;
use csv::ByteRecord;
use std::alloc::{AllocError, Global};
use std::marker::Model;
use table_records::{
    Check, Checks, FeedFault, FileName, Identifiers, RecordReader, Rule, What, column, field,
    number, open_table, read_records, trim,
};
use timetable::{MOST_STOPS, StopNo};

/// The places of a feed, in the order of `stops.txt`: what each is, and the stops of each station.
#[derive(Drop)]
pub struct Places {
    names: Identifiers,
    stops: Identifiers,
    stations: Identifiers,
    places: Vec<Place>,
    children: Children,
}

impl Model for Places {
    ghost use Rattle.table_files.specs.Places.{ArePlaces, PlaceData};

    ghost Value = { PlaceData };

    ghost view = { λ p. record {
      names = p.names;
      stops = p.stops;
      stations = p.stations;
      places = p.places.items;
      children = p.children;
    } };

    ghost invariant = { λ p. ArePlaces (record {
      names = p.names;
      stops = p.stops;
      stations = p.stations;
      places = p.places.items;
      children = p.children;
    }) };
}

impl Places {
    /// What is true of all places, for the layers above.
    pub fn known(&self)
        ensures { spec.ArePlaces self.now }
    {
        // A look at a field brings the invariant into the proof.
        let _ = &self.places;
    }

    /// The identifiers of the stops, each at its number.
    pub fn stops(&self) -> &Identifiers
        ensures { result.now ≡ self.now.stops }
    {
        &self.stops
    }

    /// The place with an identifier, none where no record has it.
    pub fn place(&self, id: &[u8]) -> Option<Place>
        ensures named { result ≡ spec.place_named self.now.names self.now.places id.now }
        ensures unknown { is_none result ≡ is_none (position (bytes_eq id.now) self.now.names) }
        ensures in_range { IfSome result (children_spec.IsPlace (length self.now.stops) (length self.now.stations)) }
    {
        let number = self.names.number(id)?;
        Some(self.places[number])
    }

    /// The stops of a station, in file order.
    pub fn children(&self, station: u32) -> &[StopNo]
        requires { station < length self.now.stations }
        ensures { slice_get self.now.children station ≡ Some result.now }
    {
        self.children.at(station)
    }

    /// The stops that a place stands for: a stop stands for itself, a station for its stops.
    pub fn stops_at(&self, place: Place) -> Ends<'_>
        requires { children_spec.IsPlace (length self.now.stops) (length self.now.stations) place }
        ensures { ends_spec.stops_of result ≡ children_spec.stops_at place self.now.children }
    {
        match place {
            Place::Stop(stop) => Ends::Alone([stop]),
            Place::Station(station) => Ends::Children(self.children.at(station)),
            Place::Other => Ends::Children(&[]),
        }
    }
}

/// The checks; [`place_checks`] says what holds of them.
const CHECKS: Checks = Checks {
    required: &[b"stop_id"],
    fields: &[
        Check(b"stop_id", Rule::Filled, What::EmptyId),
        Check(b"stop_id", Rule::Once, What::DuplicateId),
        Check(b"location_type", Rule::OpenNumber, What::BadNumber),
    ],
};

/// What is checked of `stops.txt`, apart from its limit: each fault of a record is that of a check.
pub fn place_checks() -> Checks
    ensures required { map (λ name. name.now) result.required.now ≡ spec.required }
    ensures explains { Explains result.fields.now spec.row_of spec.checks }
{
    CHECKS
}

/// The columns of `stops.txt` that are read.
#[derive(Clone, Copy)]
pub struct PlaceColumns {
    pub id: Option<usize>,
    pub kind: Option<usize>,
    pub parent: Option<usize>,
}

/// The places of the records so far. A parent may come later in the file than its child, so the stops' parents are
/// kept.
#[derive(Drop)]
pub struct PlaceList {
    pub names: Identifiers,
    pub stops: Identifiers,
    pub stations: Identifiers,
    pub places: Vec<Place>,
    pub parents: Vec<Vec<u8>>,
}

impl PlaceList {
    ghost use Rattle.std.specs.Prelude.{◌≡◌, ◌≤◌, [], length, map, IfOk};
    ghost use Rattle.table_files.specs.Places.{ArePlaces, HasRoom, IsPlaceList, IsPlaced};
    ghost use Rattle.table_files.specs.Children.{children_of};

    /// No places.
    fn new(alloc: Global) -> PlaceList
        ensures empty { IsPlaceList result [] }
        ensures room { HasRoom result 2 }
    {
        PlaceList {
            names: Identifiers::new(alloc),
            stops: Identifiers::new(alloc),
            stations: Identifiers::new(alloc),
            places: Vec::new(alloc),
            parents: Vec::new(alloc),
        }
    }

    /// Puts a place of a kind after the others; its name is put with the names.
    fn add(&mut self, alloc: Global, kind: u32, id: &[u8], parent: &[u8]) -> Result<(), AllocError>
        requires stops { length self.old.stops ≤ MOST_STOPS }
        requires stations { length self.old.stations ≤ MOST_STOPS }
        ensures { IfOk result (λ _. IsPlaced kind id.now parent.now self.old self.new) }
    {
        match kind {
            0 => {
                self.places
                    .push(Place::Stop(StopNo(self.stops.len() as u32)))?;
                self.stops.push(alloc, id)?;
                self.parents.push(Vec::from_slice(alloc, parent)?)?;
            }
            1 => {
                self.places
                    .push(Place::Station(self.stations.len() as u32))?;
                self.stations.push(alloc, id)?;
            }
            _ => self.places.push(Place::Other)?,
        }
        Ok(())
    }

    /// The places, with the stops of each station.
    fn into_places(self, alloc: Global) -> Result<Places, AllocError>
        requires few { length self.parents.items ≤ MOST_STOPS }
        requires in_range { ArePlaces (record {
          names = self.names;
          stops = self.stops;
          stations = self.stations;
          places = self.places.items;
          children = children_of self.stations (map (λ v. v.items) self.parents.items);
        }) }
        ensures { IfOk result (λ p. p ≡ record {
          names = self.names;
          stops = self.stops;
          stations = self.stations;
          places = self.places.items;
          children = children_of self.stations (map (λ v. v.items) self.parents.items);
        }) }
    {
        let children = children_of(alloc, &self.stations, &self.parents)?;
        Ok(Places {
            names: self.names,
            stops: self.stops,
            stations: self.stations,
            places: self.places,
            children,
        })
    }
}

impl RecordReader for PlaceColumns {
    ghost use Rattle.table_records.specs.declared.fault.FileName.TheVariants as file_name;
    ghost use Rattle.table_files.specs.Places.{HasRoom, IsPlaceList, PlaceRecord, checks, row_at};

    type Table = PlaceList;

    ghost Row = { PlaceRecord };

    ghost file = { file_name.Stops };

    ghost row_of = { row_at };

    ghost checks = { λ _. checks };

    ghost After = { λ _ _ rows now. IsPlaceList now rows };

    ghost HasRoom = { λ _. HasRoom };

    fn add(
        &self,
        alloc: Global,
        table: &mut PlaceList,
        at: u64,
        row: &ByteRecord,
    ) -> Result<(), FeedFault> {
        if at > MOST_STOPS as u64 + 1 {
            return Err(FeedFault::at(FileName::Stops, at, What::TooMany));
        }
        let id = field(row, self.id);
        if id.is_empty() {
            return Err(FeedFault::at(FileName::Stops, at, What::EmptyId));
        }
        if !table.names.push(alloc, id)? {
            return Err(FeedFault::at(FileName::Stops, at, What::DuplicateId));
        }
        let Some(kind) = kind_number(trim(field(row, self.kind))) else {
            return Err(FeedFault::at(FileName::Stops, at, What::BadNumber));
        };
        table.add(alloc, kind, id, field(row, self.parent))?;
        Ok(())
    }
}

/// A number of a field, 0 where the field is empty.
pub fn kind_number(text: &[u8]) -> Option<u32>
    ensures { result ≡ spec.kind_of text.now }
{
    if text.is_empty() {
        Some(0)
    } else {
        number(text)
    }
}

/// The columns that a header names.
fn columns_in(header: &ByteRecord) -> PlaceColumns
    ensures { result ≡ spec.columns_of (fields_of header.now) }
{
    PlaceColumns {
        id: column(header, b"stop_id"),
        kind: column(header, b"location_type"),
        parent: column(header, b"parent_station"),
    }
}

/// The places of `stops.txt`, or its first fault.
///
/// Records of `location_type` empty or 0 are stops, those of 1 stations. A stop's `parent_station` counts where it
/// names a station. The bytes are at most 2^30, the limit of an input file.
pub fn read_places(alloc: Global, bytes: &[u8]) -> Result<Places, FeedFault>
    requires { length bytes.now ≤ MOST_BYTES }
    ensures good { IfOk result (λ p. (spec.stop_faults bytes.now ≡ [])
        × (p ≡ spec.places_in (spec.place_records bytes.now))) }
    ensures fault { IfErr result (λ e. Tells e (spec.stop_faults bytes.now)) }
{
    let mut file = open_table(alloc, bytes, FileName::Stops, CHECKS.required)?;
    let mut list = PlaceList::new(alloc);
    let read = read_records(
        alloc,
        &columns_in(&file.header),
        &mut list,
        &mut file.records,
    );
    drop(file);
    match read {
        Ok(()) => Ok(list.into_places(alloc)?),
        Err(fault) => {
            drop(list);
            Err(fault)
        }
    }
}
