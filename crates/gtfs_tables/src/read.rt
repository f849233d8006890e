//! A feed from the bytes of its files.
//! A big value is held in a box, which is dropped in one step: else the prover follows each drop at every way out.

ghost use Rattle.std.specs.Prelude.{◌≡◌, ◌≤◌, [], All, length, map, IfOk, IfErr};
ghost use Rattle.timetable.specs.declared.limits.TheConstants.{MOST_STOPS, MOST_TRIPS};
ghost use Rattle.table_records.specs.Faults.{Tells};
ghost use Rattle.table_files.specs.Transfers.{IsLink};
ghost use Rattle.trip_events.specs.WholeTrips.{AreEvents};
ghost use Rattle.gtfs_tables.specs.Files as spec;

use crate::catalog::read_catalog;
use crate::feed::Feed;
use crate::feed_bytes::{FeedBytes, missing};
use crate::trip::{DepartureList, FeedTrip, TripId};
use std::alloc::{AllocError, Global};
use table_files::{
    Departures, FeedTrips, Places, Transfers, no_departures, read_frequencies, read_transfers,
};
use table_records::{FeedFault, FileName, Identifiers};
use timetable::Events;
use trip_events::{StopTimes, read_stop_times};

/// What the files of a feed state, or the first fault among them: by file, then by record, then by check.
///
/// The files are read in the order `stops.txt`, `routes.txt`, `calendar.txt`, `calendar_dates.txt`, `trips.txt`,
/// `stop_times.txt`, `frequencies.txt`, `transfers.txt`. The last two may be absent, and of the two calendars one.
/// Records are counted from 1 with the header, and a file that is absent has its fault at record 0. After the last
/// record of `stop_times.txt` each trip is checked as a whole, in the order of `trips.txt`.
///
/// Each file has at most 2^30 bytes, which [`FeedBytes::fits`] tests.
pub fn read_feed(alloc: Global, files: &FeedBytes<'_>) -> Result<Feed, FeedFault>
    requires { spec.AreWithinLimit (spec.files_of files.now) }
    ensures good { IfOk result (λ feed. (spec.feed_faults (spec.files_of files.now) ≡ [])
        × (feed ≡ spec.feed_of (spec.files_of files.now))) }
    ensures fault { IfErr result (λ e. Tells e (spec.feed_faults (spec.files_of files.now))) }
{
    let catalog = read_catalog(alloc, files)?;
    let listed = catalog.as_ref();
    let ids = &listed.trips.ids;
    let StopTimes {
        trips: events,
        aside,
    } = times_of(alloc, files, ids, listed.places.stops())?;
    let departures = departures_of(alloc, files, ids)?;
    let trips = trips_of(alloc, &listed.trips, events, departures)?;
    let transfers = transfers_of(alloc, files, &listed.places)?;
    Ok(Feed::new(alloc, Box::into_inner(catalog), trips, aside, transfers))
}

/// The events of each trip.
fn times_of(
    alloc: Global,
    files: &FeedBytes<'_>,
    trips: &Identifiers,
    stops: &Identifiers,
) -> Result<StopTimes, FeedFault>
    requires size { spec.IsWithinLimit (spec.bytes_of files.now.stop_times) }
    requires trips { trips.now ≡ spec.trip_ids_in (spec.files_of files.now) }
    requires stops { stops.now ≡ spec.stops_in (spec.files_of files.now) }
    requires few_trips { length trips.now ≤ MOST_TRIPS }
    requires few_stops { length stops.now ≤ MOST_STOPS }
    ensures good { IfOk result (λ t. (spec.faults_of_stop_times (spec.files_of files.now) ≡ [])
        × (t.trips.items ≡ spec.events_in (spec.files_of files.now))
        × (t.aside ≡ spec.aside_in (spec.files_of files.now))) }
    ensures fit { IfOk result (λ t. AreEvents (length stops.now) t.trips.items) }
    ensures few { IfOk result (λ t. t.aside ≤ length trips.now) }
    ensures fault { IfErr result (λ e. Tells e (spec.faults_of_stop_times (spec.files_of files.now))) }
{
    match files.stop_times {
        Some(bytes) => read_stop_times(alloc, bytes, trips, stops),
        None => Err(missing(FileName::StopTimes)),
    }
}

/// The rows of `frequencies.txt` for each trip, none where the file is absent.
fn departures_of(
    alloc: Global,
    files: &FeedBytes<'_>,
    trips: &Identifiers,
) -> Result<Vec<Vec<Departures>>, FeedFault>
    requires size { spec.IsWithinLimit (spec.bytes_of files.now.frequencies) }
    requires trips { trips.now ≡ spec.trip_ids_in (spec.files_of files.now) }
    ensures good { IfOk result (λ v. (spec.faults_of_frequencies (spec.files_of files.now) ≡ [])
        × (map (λ rows. rows.items) v.items ≡ spec.departures_in (spec.files_of files.now))) }
    ensures fault { IfErr result (λ e. Tells e (spec.faults_of_frequencies (spec.files_of files.now))) }
{
    match files.frequencies {
        Some(bytes) => read_frequencies(alloc, bytes, trips),
        None => Ok(no_departures(alloc, trips.len())?),
    }
}

/// The walks of `transfers.txt`, none where the file is absent.
fn transfers_of(
    alloc: Global,
    files: &FeedBytes<'_>,
    places: &Places,
) -> Result<Transfers, FeedFault>
    requires size { spec.IsWithinLimit (spec.bytes_of files.now.transfers) }
    requires places { places.now ≡ spec.places_in (spec.files_of files.now) }
    ensures good { IfOk result (λ t. (spec.faults_of_transfers (spec.files_of files.now) ≡ [])
        × (t.links.items ≡ spec.links_in (spec.files_of files.now))
        × (t.unused ≡ spec.unused_in (spec.files_of files.now))) }
    ensures in_range { IfOk result (λ t. All (IsLink (length places.now.stops) (length places.now.stations))
        t.links.items) }
    ensures fault { IfErr result (λ e. Tells e (spec.faults_of_transfers (spec.files_of files.now))) }
{
    match files.transfers {
        Some(bytes) => read_transfers(alloc, bytes, places),
        None => Ok(Transfers {
            links: Vec::new(alloc),
            unused: 0,
        }),
    }
}

/// The trips by their identifiers, numbers, events and departures.
fn trips_of(
    alloc: Global,
    trips: &FeedTrips,
    events: Vec<Events>,
    departures: Vec<Vec<Departures>>,
) -> Result<Vec<FeedTrip>, AllocError>
    requires numbers { length trips.now.numbers.items ≡ length trips.now.ids }
    requires events { length events.items ≡ length trips.now.ids }
    requires departures { length departures.items ≡ length trips.now.ids }
    ensures { IfOk result (λ v. v.items ≡ spec.trips_of trips.now.ids trips.now.numbers.items events.items
        (map (λ rows. rows.items) departures.items)) }
{
    let mut done = Vec::with_capacity(alloc, events.len())?;
    let mut departures = departures.into_iter();
    for events in events {
        let Some(id) = trips.ids.id(done.len()) else {
            unreachable!()
        };
        let Some(rows) = departures.next() else {
            unreachable!()
        };
        let numbers = trips.numbers[done.len()];
        let id = TripId::new(Vec::from_slice(alloc, id)?);
        done.push(FeedTrip {
            route: numbers.route,
            service: numbers.service,
            id,
            events,
            departures: DepartureList::new(rows),
        })?;
    }
    Ok(done)
}
