//! The catalog of a feed: what its files name, by number, before their times are read.

ghost use Rattle.std.specs.Prelude.{◌≡◌, ◌≤◌, [], length, IfOk, IfErr};
ghost use Rattle.table_records.specs.Faults.{Tells};
ghost use Rattle.table_records.specs.declared.limits.TheConstants.{MOST_BYTES};
ghost use Rattle.table_files.specs.Calendar.{IsCalendar, service_rows};
ghost use Rattle.table_files.specs.CalendarDates.{AreExceptions, date_rows};
ghost use Rattle.table_files.specs.FeedTrips.{AreTrips, trip_rows};
ghost use Rattle.table_files.specs.Places.{ArePlaces};
ghost use Rattle.table_files.specs.declared.services.TheConstants.{MOST_DATED_SERVICES};
ghost use Rattle.gtfs_tables.specs.Files as spec;
ghost use Rattle.gtfs_tables.specs.Catalog.{IsCatalog};

use crate::feed_bytes::{FeedBytes, missing};
use std::alloc::Global;
use table_files::{
    Calendar, CalendarDates, CalendarRow, ExceptionRow, FeedTrips, Places, read_calendar,
    read_calendar_dates, read_feed_trips, read_places, read_routes,
};
use table_records::{FeedFault, FileName, Identifiers};

/// The places, routes, services and trips of a feed, by number, and the rows of its calendars.
#[derive(Drop)]
pub struct Catalog {
    pub places: Places,
    pub routes: Identifiers,
    pub calendar: Vec<CalendarRow>,
    pub exceptions: Vec<ExceptionRow>,
    pub trips: FeedTrips,
}

/// What `stops.txt`, `routes.txt`, `calendar.txt`, `calendar_dates.txt` and `trips.txt` name, in a box, or the first
/// fault among them, in this order.
pub fn read_catalog(alloc: Global, files: &FeedBytes<'_>) -> Result<Box<Catalog>, FeedFault>
    requires { spec.AreWithinLimit (spec.files_of files.now) }
    ensures good { IfOk result (λ c. (spec.catalog_faults (spec.files_of files.now) ≡ [])
        × IsCatalog c.value (spec.files_of files.now)) }
    ensures fault { IfErr result (λ e. Tells e (spec.catalog_faults (spec.files_of files.now))) }
{
    let places = places_of(alloc, files)?;
    let routes = routes_of(alloc, files)?;
    let Calendar {
        services: weekly,
        rows: calendar,
    } = calendar_of(alloc, files)?;
    let CalendarDates {
        services: dated,
        rows: exceptions,
    } = dates_of(alloc, files, weekly)?;
    let trips = trips_of(alloc, files, &routes, dated)?;
    Ok(Box::new(
        alloc,
        Catalog {
            places: Box::into_inner(places),
            routes,
            calendar,
            exceptions,
            trips,
        },
    )?)
}

/// The places of `stops.txt`, in a box.
fn places_of(alloc: Global, files: &FeedBytes<'_>) -> Result<Box<Places>, FeedFault>
    requires { spec.IsWithinLimit (spec.bytes_of files.now.stops) }
    ensures good { IfOk result (λ p. (spec.faults_of_stops (spec.files_of files.now) ≡ [])
        × (p.value ≡ spec.places_in (spec.files_of files.now))) }
    ensures sound { IfOk result (λ p. ArePlaces p.value) }
    ensures fault { IfErr result (λ e. Tells e (spec.faults_of_stops (spec.files_of files.now))) }
{
    let Some(bytes) = files.stops else {
        return Err(missing(FileName::Stops));
    };
    let places = read_places(alloc, bytes)?;
    places.known();
    Ok(Box::new(alloc, places)?)
}

/// The identifiers of the routes.
fn routes_of(alloc: Global, files: &FeedBytes<'_>) -> Result<Identifiers, FeedFault>
    requires { spec.IsWithinLimit (spec.bytes_of files.now.routes) }
    ensures good { IfOk result (λ ids. (spec.faults_of_routes (spec.files_of files.now) ≡ [])
        × (ids ≡ spec.routes_in (spec.files_of files.now))) }
    ensures few { IfOk result (λ ids. length ids ≤ MOST_BYTES) }
    ensures fault { IfErr result (λ e. Tells e (spec.faults_of_routes (spec.files_of files.now))) }
{
    match files.routes {
        Some(bytes) => read_routes(alloc, bytes),
        None => Err(missing(FileName::Routes)),
    }
}

/// The rows of `calendar.txt`, which may be absent where `calendar_dates.txt` is there.
fn calendar_of(alloc: Global, files: &FeedBytes<'_>) -> Result<Calendar, FeedFault>
    requires { spec.IsWithinLimit (spec.bytes_of files.now.calendar) }
    ensures good { IfOk result (λ c. (spec.faults_of_calendar (spec.files_of files.now) ≡ [])
        × IsCalendar c (spec.rows_in service_rows (spec.bytes_of files.now.calendar))) }
    ensures few { IfOk result (λ c. length c.services ≤ MOST_BYTES) }
    ensures fault { IfErr result (λ e. Tells e (spec.faults_of_calendar (spec.files_of files.now))) }
{
    match files.calendar {
        Some(bytes) => read_calendar(alloc, bytes),
        None => match files.calendar_dates {
            Some(_) => Ok(Calendar {
                services: Identifiers::new(alloc),
                rows: Vec::new(alloc),
            }),
            None => Err(missing(FileName::Calendar)),
        },
    }
}

/// The rows of `calendar_dates.txt`, after the services that are known.
fn dates_of(
    alloc: Global,
    files: &FeedBytes<'_>,
    services: Identifiers,
) -> Result<CalendarDates, FeedFault>
    requires size { spec.IsWithinLimit (spec.bytes_of files.now.calendar_dates) }
    requires known { length services ≤ MOST_BYTES }
    ensures good { IfOk result (λ d. (spec.faults_of_calendar_dates (spec.files_of files.now) ≡ [])
        × AreExceptions services d (spec.rows_in date_rows (spec.bytes_of files.now.calendar_dates))) }
    ensures few { IfOk result (λ d. length d.services ≤ MOST_DATED_SERVICES) }
    ensures fault { IfErr result (λ e. Tells e (spec.faults_of_calendar_dates (spec.files_of files.now))) }
{
    match files.calendar_dates {
        Some(bytes) => read_calendar_dates(alloc, bytes, services),
        None => Ok(CalendarDates {
            services,
            rows: Vec::new(alloc),
        }),
    }
}

/// The trips, after the services that are known.
fn trips_of(
    alloc: Global,
    files: &FeedBytes<'_>,
    routes: &Identifiers,
    services: Identifiers,
) -> Result<FeedTrips, FeedFault>
    requires size { spec.IsWithinLimit (spec.bytes_of files.now.trips) }
    requires routes { routes.now ≡ spec.routes_in (spec.files_of files.now) }
    requires few { length routes.now ≤ MOST_BYTES }
    requires known { length services ≤ MOST_DATED_SERVICES }
    ensures good { IfOk result (λ t. (spec.faults_of_trips (spec.files_of files.now) ≡ [])
        × AreTrips routes.now services t (spec.rows_in trip_rows (spec.bytes_of files.now.trips))) }
    ensures fault { IfErr result (λ e. Tells e (spec.faults_of_trips (spec.files_of files.now))) }
{
    match files.trips {
        Some(bytes) => read_feed_trips(alloc, bytes, routes, services),
        None => Err(missing(FileName::Trips)),
    }
}
