//! The trips of a feed, with their routes and services: `trips.txt`.

ghost use Rattle.std.specs.Prelude.{◌≡◌, ◌≤◌, ℕ, List, [], length, map, IfOk, IfErr};
ghost use Rattle.csv.specs.Records.{fields_of};
ghost use Rattle.table_records.specs.Checks.{Explains};
ghost use Rattle.table_records.specs.Faults.{Tells};
ghost use Rattle.table_records.specs.declared.limits.TheConstants.{MOST_BYTES};
ghost use Rattle.table_files.specs.FeedTrips as spec;
ghost use Rattle.table_files.specs.FeedTrips.{AreTrips, columns_of, trip_faults, trip_rows};
ghost use Rattle.table_files.specs.declared.services.TheConstants.{MOST_DATED_SERVICES};

use crate::services::number_service;
use csv::ByteRecord;
use std::alloc::Global;
use table_records::{
    Check, Checks, FeedFault, FileName, Identifiers, RecordReader, Rule, What, column, field,
    open_table, read_records,
};
use timetable::MOST_TRIPS;

/// The numbers of a trip's route and service.
#[derive(Clone, Copy, PartialEq, Eq)]
pub struct TripNumbers {
    /// The route's position in `routes.txt`.
    pub route: u32,
    /// The service's number: services are numbered from 0 as they are first named.
    pub service: u32,
}

/// What `trips.txt` says: the trips' identifiers and numbers, in file order, and the services that are known after
/// them.
#[derive(Drop)]
pub struct FeedTrips {
    pub ids: Identifiers,
    pub services: Identifiers,
    pub numbers: Vec<TripNumbers>,
}

/// The checks; [`feed_trip_checks`] says what holds of them.
const CHECKS: Checks = Checks {
    required: &[b"route_id", b"service_id", b"trip_id"],
    fields: &[
        Check(b"route_id", Rule::Filled, What::EmptyId),
        Check(b"route_id", Rule::Route, What::UnknownRoute),
        Check(b"service_id", Rule::Filled, What::EmptyId),
        Check(b"trip_id", Rule::Filled, What::EmptyId),
        Check(b"trip_id", Rule::Once, What::DuplicateId),
    ],
};

/// What is checked of `trips.txt`, apart from its limit: each fault of a record is that of a check.
pub fn feed_trip_checks() -> Checks
    ensures required { map (λ name. name.now) result.required.now ≡ spec.required }
    ensures explains { (routes : List (List ℕ)) → Explains result.fields.now spec.row_of (spec.checks routes) }
{
    CHECKS
}

/// The columns of `trips.txt` that are read.
#[derive(Clone, Copy)]
pub struct TripColumns {
    pub route: Option<usize>,
    pub service: Option<usize>,
    pub id: Option<usize>,
}

/// A reader of `trips.txt`, whose records name the feed's routes.
#[derive(Drop)]
pub struct TripReader<'a> {
    pub columns: TripColumns,
    pub routes: &'a Identifiers,
}

impl<'a> RecordReader for TripReader<'a> {
    ghost use Rattle.std.specs.Prelude.{◌≤◌, ◌+◌, length};
    ghost use Rattle.table_records.specs.declared.fault.FileName.TheVariants as file_name;
    ghost use Rattle.table_files.specs.FeedTrips.{AreTrips, TripRow, row_at, checks};

    type Table = FeedTrips;

    ghost Row = { TripRow };

    ghost file = { file_name.Trips };

    ghost row_of = { λ s. row_at s.columns };

    ghost checks = { λ s. checks s.routes.now };

    ghost After = { λ s start rows now. AreTrips s.routes.now start.services now rows };

    ghost HasRoom = { λ s table at. (length s.routes.now ≤ MOST_BYTES)
        × (length table.services ≤ MOST_DATED_SERVICES + at) };

    fn add(
        &self,
        alloc: Global,
        table: &mut FeedTrips,
        at: u64,
        row: &ByteRecord,
    ) -> Result<(), FeedFault> {
        if at > MOST_TRIPS as u64 + 1 {
            return Err(FeedFault::at(FileName::Trips, at, What::TooMany));
        }
        let route = field(row, self.columns.route);
        if route.is_empty() {
            return Err(FeedFault::at(FileName::Trips, at, What::EmptyId));
        }
        let likely = likely_numbers(table.numbers.as_slice());
        let Some(route) = self.routes.number_near(route, likely.route as usize) else {
            return Err(FeedFault::at(FileName::Trips, at, What::UnknownRoute));
        };
        let service = field(row, self.columns.service);
        if service.is_empty() {
            return Err(FeedFault::at(FileName::Trips, at, What::EmptyId));
        }
        let id = field(row, self.columns.id);
        if id.is_empty() {
            return Err(FeedFault::at(FileName::Trips, at, What::EmptyId));
        }
        if !table.ids.push(alloc, id)? {
            return Err(FeedFault::at(FileName::Trips, at, What::DuplicateId));
        }
        let service = number_service(alloc, &mut table.services, service, likely.service)?;
        table.numbers.push(TripNumbers {
            route: route as u32,
            service,
        })?;
        Ok(())
    }
}

/// What the next trip is likely to have: the numbers of the trip before.
fn likely_numbers(numbers: &[TripNumbers]) -> TripNumbers {
    match numbers.last() {
        Some(last) => *last,
        None => TripNumbers {
            route: 0,
            service: 0,
        },
    }
}

/// The columns that a header names.
fn columns_in(header: &ByteRecord) -> TripColumns
    ensures { result ≡ columns_of (fields_of header.now) }
{
    TripColumns {
        route: column(header, b"route_id"),
        service: column(header, b"service_id"),
        id: column(header, b"trip_id"),
    }
}

/// The trips of `trips.txt`, in file order. Services that are first named here get the next numbers.
///
/// The bytes are at most 2^30, the limit of an input file.
pub fn read_feed_trips(
    alloc: Global,
    bytes: &[u8],
    routes: &Identifiers,
    services: Identifiers,
) -> Result<FeedTrips, FeedFault>
    requires size { length bytes.now ≤ MOST_BYTES }
    requires routes { length routes.now ≤ MOST_BYTES }
    requires known { length services ≤ MOST_DATED_SERVICES }
    ensures good { IfOk result (λ t. (trip_faults routes.now bytes.now ≡ [])
        × AreTrips routes.now services t (trip_rows bytes.now)) }
    ensures fault { IfErr result (λ e. Tells e (trip_faults routes.now bytes.now)) }
{
    let mut file = open_table(alloc, bytes, FileName::Trips, CHECKS.required)?;
    let mut trips = FeedTrips {
        ids: Identifiers::new(alloc),
        services,
        numbers: Vec::new(alloc),
    };
    let reader = TripReader {
        columns: columns_in(&file.header),
        routes,
    };
    let read = read_records(alloc, &reader, &mut trips, &mut file.records);
    drop(file);
    read.and(Ok(trips))
}
