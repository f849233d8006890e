//! The events of each trip: `stop_times.txt`.

ghost use Rattle.std.specs.Prelude.{◌≡◌, ◌≤◌, ◌<◌, ◌⊎◌, ℕ, List, [], true, false, length, map, position, replicate};
ghost use Rattle.std.specs.Prelude.{slice_get, IfOk, IfErr, IfSome, IsTrue, if◌then◌else◌};
ghost use Rattle.timetable.specs.declared.limits.TheConstants.{MOST_STOPS, MOST_TRIPS};
ghost use Rattle.std.specs.Str.{bytes_eq};
ghost use Rattle.csv.specs.Records.{fields_of};
ghost use Rattle.table_records.specs.Checks.{Explains};
ghost use Rattle.table_records.specs.Faults.{Tells};
ghost use Rattle.table_records.specs.Fields.{is_empty, number_of, time_of, trimmed};
ghost use Rattle.table_records.specs.declared.fault.What.TheVariants.{BadNumber, BadTime, UnknownStop};
ghost use Rattle.table_records.specs.declared.limits.TheConstants.{MOST_BYTES};
ghost use Rattle.table_records.specs.Identifiers.{number_in};
ghost use Rattle.trip_events.specs.StopTimes.{is_wrong};
ghost use Rattle.trip_events.specs.StopTimes as spec;
ghost use Rattle.trip_events.specs.WholeTrips.{AreEvents};

use crate::likely::Likely;
use crate::numbers::read_number;
use crate::trip_times::{StopTime, TripTimes, VisitTimes};
use crate::whole_trips::{StopTimes, events_of_trips};
use csv::ByteRecord;
use std::alloc::{AllocError, Global};
use table_records::{
    Check, Checks, FeedFault, FileName, Identifiers, RecordReader, Rule, What, column, field,
    open_table, read_records, read_time, trim,
};
use timetable::MOST_EVENTS;

/// The checks; [`stop_time_checks`] says what holds of them.
const CHECKS: Checks = Checks {
    required: &[b"trip_id", b"stop_id", b"stop_sequence"],
    fields: &[
        Check(b"trip_id", Rule::Filled, What::EmptyId),
        Check(b"trip_id", Rule::Trip, What::UnknownTrip),
        Check(b"stop_id", Rule::Stop, What::UnknownStop),
        Check(b"stop_sequence", Rule::Number, What::BadNumber),
        Check(b"stop_sequence", Rule::OnceInTrip, What::DuplicateId),
        Check(b"arrival_time", Rule::OpenTime, What::BadTime),
        Check(b"departure_time", Rule::OpenTime, What::BadTime),
        Check(b"pickup_type", Rule::OpenNumber, What::BadNumber),
        Check(b"drop_off_type", Rule::OpenNumber, What::BadNumber),
        Check(b"trip_id", Rule::Timed, What::NoTime),
    ],
};

/// What is checked of `stop_times.txt`, apart from its limit: each fault of a record is that of a check. The last check
/// is that of a whole trip, after all records.
pub fn stop_time_checks() -> Checks
    ensures required { map (λ name. name.now) result.required.now ≡ spec.required }
    ensures explains { (trips stops : List (List ℕ)) →
        Explains result.fields.now spec.row_of (spec.checks trips stops) }
{
    CHECKS
}

/// The columns of `stop_times.txt` that are read.
#[derive(Clone, Copy)]
pub struct TimeColumns {
    pub trip: Option<usize>,
    pub stop: Option<usize>,
    pub sequence: Option<usize>,
    pub arrive: Option<usize>,
    pub depart: Option<usize>,
    pub pickup: Option<usize>,
    pub drop_off: Option<usize>,
}

/// The records of each trip, and what the next record is likely to name.
#[derive(Drop)]
pub struct TripRecords {
    pub trips: Vec<TripTimes>,
    pub likely: Likely,
}

/// A reader of `stop_times.txt`, whose records name the feed's trips and stops.
#[derive(Drop)]
pub struct TimeReader<'a> {
    pub columns: TimeColumns,
    pub trips: &'a Identifiers,
    pub stops: &'a Identifiers,
}

/// Which trip a record is of, where it stops, and its position along the trip.
#[derive(Clone, Copy)]
struct TripStop {
    trip: usize,
    stop: Option<u32>,
    sequence: u32,
}

/// When a trip is at its stop, and whether travellers may board and alight there.
#[derive(Clone, Copy)]
struct Visit {
    times: Option<VisitTimes>,
    board: bool,
    alight: bool,
}

impl<'a> RecordReader for TimeReader<'a> {
    ghost use Rattle.std.specs.Prelude.{◌≡◌, ◌≤◌, length};
    ghost use Rattle.table_records.specs.declared.fault.FileName.TheVariants as file_name;
    ghost use Rattle.trip_events.specs.StopTimes.{AreStopTimes, TimeRow, row_at, checks};

    type Table = TripRecords;

    ghost Row = { TimeRow };

    ghost file = { file_name.StopTimes };

    ghost row_of = { λ s. row_at s.columns };

    ghost checks = { λ s. checks s.trips.now s.stops.now };

    ghost After = { λ s _ rows now. AreStopTimes s.trips.now s.stops.now now.trips.items rows };

    ghost HasRoom = { λ s table _. (length s.stops.now ≤ MOST_STOPS)
        × (length table.trips.items ≡ length s.trips.now) };

    fn add(
        &self,
        _alloc: Global,
        table: &mut TripRecords,
        at: u64,
        row: &ByteRecord,
    ) -> Result<(), FeedFault> {
        if at > MOST_EVENTS as u64 + 1 {
            return Err(FeedFault::at(FileName::StopTimes, at, What::TooMany));
        }
        let trip_stop = match self.trip_stop(row, &table.likely) {
            Ok(trip_stop) => trip_stop,
            Err(what) => return Err(FeedFault::at(FileName::StopTimes, at, what)),
        };
        table.likely.note(at, trip_stop.trip, trip_stop.stop);
        let count = table.likely.count();
        let trip_times = &mut table.trips[trip_stop.trip];
        let Some(position) = trip_times.position_of(trip_stop.sequence) else {
            return Err(FeedFault::at(FileName::StopTimes, at, What::DuplicateId));
        };
        let visit = match self.visit(row) {
            Ok(visit) => visit,
            Err(what) => return Err(FeedFault::at(FileName::StopTimes, at, what)),
        };
        let stop_time = StopTime {
            sequence: trip_stop.sequence,
            at: at as u32,
            stop: trip_stop.stop,
            times: visit.times,
            board: visit.board,
            alight: visit.alight,
        };
        trip_times.insert(position, stop_time, count)?;
        Ok(())
    }
}

impl<'a> TimeReader<'a> {
    /// Where a record belongs.
    fn trip_stop(&self, row: &ByteRecord, likely: &Likely) -> Result<TripStop, What>
        requires { length self.now.stops.now ≤ MOST_STOPS }
        ensures good { let r = spec.row_at self.now.columns (fields_of row.now) in
            IfOk result (λ p. (spec.trip_stop_checks self.now.trips.now self.now.stops.now r ≡ [])
            × (p.trip ≡ spec.trip_of self.now.trips.now r)
            × (p.stop ≡ spec.stop_of self.now.stops.now r) × (p.sequence ≡ spec.sequence_of r)) }
        ensures inside { IfOk result (λ p. (p.trip < length self.now.trips.now)
            × IfSome p.stop (λ n. n < length self.now.stops.now)) }
        ensures fault { let r = spec.row_at self.now.columns (fields_of row.now) in
            IfErr result (λ e. slice_get (spec.trip_stop_checks self.now.trips.now self.now.stops.now r) 0 ≡ Some e) }
    {
        let trip = field(row, self.columns.trip);
        if trip.is_empty() {
            return Err(What::EmptyId);
        }
        let Some(trip) = self.trips.number_near(trip, likely.trip()) else {
            return Err(What::UnknownTrip);
        };
        let stop = read_stop(field(row, self.columns.stop), self.stops, likely.stop())?;
        let Some(sequence) = read_number(field(row, self.columns.sequence)) else {
            return Err(What::BadNumber);
        };
        Ok(TripStop {
            trip,
            stop,
            sequence,
        })
    }

    /// What a record says of its visit to the stop.
    fn visit(&self, row: &ByteRecord) -> Result<Visit, What>
        ensures good { let r = spec.row_at self.now.columns (fields_of row.now) in
            IfOk result (λ v. (spec.visit_checks r ≡ [])
            × (v.times ≡ spec.times_of (time_of r.arrive) (time_of r.depart))
            × (v.board ≡ spec.allows r.pickup) × (v.alight ≡ spec.allows r.drop_off)) }
        ensures fault { let r = spec.row_at self.now.columns (fields_of row.now) in
            IfErr result (λ e. slice_get (spec.visit_checks r) 0 ≡ Some e) }
    {
        let arrive_text = field(row, self.columns.arrive);
        let depart_text = field(row, self.columns.depart);
        let times = read_times(arrive_text, depart_text)?;
        let board = read_allowed(field(row, self.columns.pickup))?;
        let alight = read_allowed(field(row, self.columns.drop_off))?;
        Ok(Visit {
            times,
            board,
            alight,
        })
    }
}

/// The number of a stop, none where the text is empty. It is found fastest if it is `likely` or the number after it.
fn read_stop(text: &[u8], stops: &Identifiers, likely: usize) -> Result<Option<u32>, What>
    requires { length stops.now ≤ MOST_STOPS }
    ensures good { IfOk result (λ stop. (is_wrong (λ id. position (bytes_eq id) stops.now) text.now ≡ false)
        × (stop ≡ (if is_empty text.now then None else Some (number_in stops.now text.now)))) }
    ensures inside { IfOk result (λ stop. IfSome stop (λ n. n < length stops.now)) }
    ensures fault { IfErr result (λ e. (is_wrong (λ id. position (bytes_eq id) stops.now) text.now ≡ true)
        × (e ≡ UnknownStop)) }
{
    if text.is_empty() {
        return Ok(None);
    }
    match stops.number_near(text, likely) {
        Some(stop) => Ok(Some(stop as u32)),
        None => Err(What::UnknownStop),
    }
}

/// The times of an event. Nearly all arrivals and departures are written alike.
fn read_times(arrive: &[u8], depart: &[u8]) -> Result<Option<VisitTimes>, What>
    ensures good { IfOk result (λ times. (is_wrong time_of (trimmed arrive.now) ≡ false)
        × (is_wrong time_of (trimmed depart.now) ≡ false)
        × (times ≡ spec.times_of (time_of (trimmed arrive.now)) (time_of (trimmed depart.now)))) }
    ensures fault { IfErr result (λ e. ((is_wrong time_of (trimmed arrive.now) ≡ true)
        ⊎ (is_wrong time_of (trimmed depart.now) ≡ true)) × (e ≡ BadTime)) }
{
    if are_equal_times(arrive, depart) {
        if let Some(time) = read_time(arrive) {
            return Ok(Some(VisitTimes {
                arrive: time,
                depart: time,
            }));
        }
    }
    read_both_times(arrive, depart)
}

/// The same of times that are read one by one.
#[inline(never)]
fn read_both_times(arrive: &[u8], depart: &[u8]) -> Result<Option<VisitTimes>, What>
    ensures good { IfOk result (λ times. (is_wrong time_of (trimmed arrive.now) ≡ false)
        × (is_wrong time_of (trimmed depart.now) ≡ false)
        × (times ≡ spec.times_of (time_of (trimmed arrive.now)) (time_of (trimmed depart.now)))) }
    ensures fault { IfErr result (λ e. ((is_wrong time_of (trimmed arrive.now) ≡ true)
        ⊎ (is_wrong time_of (trimmed depart.now) ≡ true)) × (e ≡ BadTime)) }
{
    let arrive = read_open_time(arrive)?;
    let depart = read_open_time(depart)?;
    Ok(times_of(arrive, depart))
}

/// A time that may be left open: none where the text is empty.
fn read_open_time(text: &[u8]) -> Result<Option<u32>, What>
    ensures good { IfOk result (λ time. (is_wrong time_of (trimmed text.now) ≡ false)
        × (time ≡ time_of (trimmed text.now))) }
    ensures fault { IfErr result (λ e. (is_wrong time_of (trimmed text.now) ≡ true) × (e ≡ BadTime)) }
{
    let time = read_time(text);
    if time.is_none() && !trim(text).is_empty() {
        return Err(What::BadTime);
    }
    Ok(time)
}

/// Whether two texts are found equal, as those of many arrivals and departures with two digits of hours are.
fn are_equal_times(a: &[u8], b: &[u8]) -> bool
    ensures { IsTrue result → a.now ≡ b.now }
{
    if a.len() != 8 || b.len() != 8 {
        return false;
    }
    match (a.split_first_chunk::<8>(), b.split_first_chunk::<8>()) {
        (Some((a, _)), Some((b, _))) => a == b,
        _ => false,
    }
}

/// Whether a pickup or drop-off type allows what it speaks of. Only 1 forbids it.
fn read_allowed(text: &[u8]) -> Result<bool, What>
    ensures good { IfOk result (λ allowed. (is_wrong number_of (trimmed text.now) ≡ false)
        × (allowed ≡ spec.allows (trimmed text.now))) }
    ensures fault { IfErr result (λ e. (is_wrong number_of (trimmed text.now) ≡ true) × (e ≡ BadNumber)) }
{
    // Nearly all are one digit.
    if let [digit] = text {
        if digit.is_ascii_digit() {
            return Ok(*digit != b'1');
        }
    }
    read_any_allowed(text)
}

/// The same of a type in any form.
#[inline(never)]
fn read_any_allowed(text: &[u8]) -> Result<bool, What>
    ensures good { IfOk result (λ allowed. (is_wrong number_of (trimmed text.now) ≡ false)
        × (allowed ≡ spec.allows (trimmed text.now))) }
    ensures fault { IfErr result (λ e. (is_wrong number_of (trimmed text.now) ≡ true) × (e ≡ BadNumber)) }
{
    match read_number(text) {
        Some(kind) => Ok(kind != 1),
        None if trim(text).is_empty() => Ok(true),
        None => Err(What::BadNumber),
    }
}

/// The times of an event: where one is given the other equals it.
fn times_of(arrive: Option<u32>, depart: Option<u32>) -> Option<VisitTimes>
    ensures { result ≡ spec.times_of arrive depart }
{
    let arrive_or_depart = arrive.or(depart)?;
    Some(VisitTimes {
        arrive: arrive_or_depart,
        depart: depart.unwrap_or(arrive_or_depart),
    })
}

/// The columns that a header names.
fn columns_in(header: &ByteRecord) -> TimeColumns
    ensures { result ≡ spec.columns_of (fields_of header.now) }
{
    TimeColumns {
        trip: column(header, b"trip_id"),
        stop: column(header, b"stop_id"),
        sequence: column(header, b"stop_sequence"),
        arrive: column(header, b"arrival_time"),
        depart: column(header, b"departure_time"),
        pickup: column(header, b"pickup_type"),
        drop_off: column(header, b"drop_off_type"),
    }
}

/// No records yet, for each of the trips.
fn no_records(alloc: Global, count: usize) -> Result<Vec<TripTimes>, AllocError>
    ensures { IfOk result (λ v. v.items ≡ replicate count []) }
{
    let mut trips = Vec::with_capacity(alloc, count)?;
    for _ in 0..count {
        trips.push(TripTimes::new(alloc))?;
    }
    Ok(trips)
}

/// The events of each trip in the bytes of `stop_times.txt`, or its first fault.
///
/// `trips` and `stops` are the identifiers of the feed's trips and stops. The bytes are at most 2^30, the limit of an
/// input file.
pub fn read_stop_times(
    alloc: Global,
    bytes: &[u8],
    trips: &Identifiers,
    stops: &Identifiers,
) -> Result<StopTimes, FeedFault>
    requires few { length stops.now ≤ MOST_STOPS }
    requires trips { length trips.now ≤ MOST_TRIPS }
    requires size { length bytes.now ≤ MOST_BYTES }
    ensures good { IfOk result (λ t. (spec.time_faults trips.now stops.now bytes.now ≡ [])
        × (t.trips.items ≡ spec.trip_events trips.now stops.now (spec.time_rows bytes.now))
        × (t.aside ≡ spec.trips_aside trips.now (spec.time_rows bytes.now))) }
    ensures fit { IfOk result (λ t. AreEvents (length stops.now) t.trips.items) }
    ensures few { IfOk result (λ t. t.aside ≤ length trips.now) }
    ensures fault { IfErr result (λ e. Tells e (spec.time_faults trips.now stops.now bytes.now)) }
{
    let mut records = TripRecords {
        trips: no_records(alloc, trips.len())?,
        likely: Likely::new(alloc, stops.len())?,
    };
    let mut file = open_table(alloc, bytes, FileName::StopTimes, CHECKS.required)?;
    let reader = TimeReader {
        columns: columns_in(&file.header),
        trips,
        stops,
    };
    let read = read_records(alloc, &reader, &mut records, &mut file.records);
    drop(file);
    read?;
    events_of_trips(alloc, records.trips)
}
