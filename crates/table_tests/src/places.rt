//! The stops, stations and other places of `stops.txt`.

ghost use Rattle.std.specs.Prelude.{◌≤◌, length};

use std::alloc::{AllocError, Global};
use std::test::Fail;
use table_files::{Place, Places, read_places};
use table_records::{FeedFault, FileName, MOST_BYTES, What};
use timetable::StopNo;

/// Whether a place stands for these stops.
fn stands_for(places: &Places, id: &[u8], stops: &[StopNo]) -> bool {
    match places.place(id) {
        Some(place) => places.stops_at(place).as_slice() == stops,
        None => false,
    }
}

/// Whether three stops, two stations and an entrance have their numbers.
fn has_six_places(places: &Places) -> bool {
    places.stops().len() == 3
        && places.place(b"A") == Some(Place::Stop(StopNo(0)))
        && places.place(b"B") == Some(Place::Stop(StopNo(1)))
        && places.place(b" ") == Some(Place::Stop(StopNo(2)))
        && places.place(b"S") == Some(Place::Station(0))
        && places.place(b"T") == Some(Place::Station(1))
        && places.place(b"E") == Some(Place::Other)
        && places.place(b"Z") == None
}

/// The places of a file. They stand in a box, so that whoever holds them drops them in one step.
fn places_of(alloc: Global, bytes: &[u8]) -> Result<Box<Places>, Fail>
    requires { length bytes.now ≤ MOST_BYTES }
{
    match read_places(alloc, bytes) {
        Ok(places) => Ok(Box::new(alloc, places)?),
        Err(_) => Err(Fail::new("a fault of stops.txt")),
    }
}

/// `read_places`, `Places::stops`, `Places::place`.
#[test]
fn stops_and_stations_are_numbered_apart(rt: HostRuntime) -> Result<(), Fail> {
    let places = places_of(
        rt.alloc(),
        b"stop_id,location_type\nA,\nS,1\nB, 0 \nE,2\nT,1\n\" \",0\n",
    )?;
    assert!(rt; has_six_places(&places));
    Ok(())
}

/// Whether the station S stands for the stops A and F, T for B, a stop for itself, and the entrance E for none.
fn has_two_stations(places: &Places) -> bool {
    stands_for(places, b"S", &[StopNo(0), StopNo(4)])
        && stands_for(places, b"T", &[StopNo(1)])
        && stands_for(places, b"A", &[StopNo(0)])
        && stands_for(places, b"F", &[StopNo(4)])
        && stands_for(places, b"E", &[])
}

/// `read_places`.
#[test]
fn a_station_stands_for_its_stops(rt: HostRuntime) -> Result<(), Fail> {
    // B's parent comes later in the file, D's is a stop, C's is nowhere, and the entrance E is no stop
    let places = places_of(
        rt.alloc(),
        b"stop_id,parent_station,location_type\nA,S,\nB,T,0\nS,,1\nT,,1\nC,Z,\nD,A,\nE,S,2\nF,S,0\n",
    )?;
    assert!(rt; has_two_stations(&places));
    Ok(())
}

/// The fault of a file, none where it has none.
fn fault_of(alloc: Global, bytes: &[u8]) -> Option<FeedFault>
    requires { length bytes.now ≤ MOST_BYTES }
{
    read_places(alloc, bytes).err()
}

/// The bytes of a file of so many stops.
fn stops_file(alloc: Global, stops: u32) -> Result<Vec<u8>, AllocError> {
    let mut bytes = Vec::from_slice(alloc, b"stop_id\n")?;
    for stop in 0..stops {
        let line = format!(in alloc; "{stop}\n")?;
        bytes.extend_from_slice(line.as_bytes())?;
    }
    Ok(bytes)
}

/// The fault of a file of so many stops.
fn fault_of_many(alloc: Global, stops: u32) -> Result<Option<FeedFault>, AllocError> {
    let bytes = stops_file(alloc, stops)?;
    if bytes.len() > MOST_BYTES {
        return Ok(None);
    }
    Ok(fault_of(alloc, &bytes))
}

/// `read_places`.
#[test]
fn at_most_65_535_places(rt: HostRuntime) -> Result<(), Fail> {
    let many = fault_of_many(rt.alloc(), 65_536)?;
    assert_eq!(rt;
        many,
        Some(FeedFault::at(FileName::Stops, 65_537, What::TooMany))
    );
    Ok(())
}
