//! The records of a scenario's file: which edit each of them states.
ghost use Rattle.std.specs.Prelude.{◌≡◌, ◌≤◌, ◌≤ℤ◌, [], IfErr, IfOk, IfSome, Some, neg_ℤ, pos};
ghost use Rattle.csv.specs.Records.{fields_of};
ghost use Rattle.table_records.specs.Faults.{IsFirst};
ghost use Rattle.scenarios.specs.declared.edits.TheConstants.{MOST_SHIFT};
ghost use Rattle.scenarios.specs.EditRows.{action_of, columns_of, edit_of, route_faults, route_removal_of, row_at};
ghost use Rattle.scenarios.specs.EditRows.{row_faults, seconds_of, seconds_of_digits, shift_faults, trip_faults};
ghost use Rattle.scenarios.specs.EditRows.{trip_removal_of, trip_shift_of};
ghost use Rattle.scenarios.specs.Edits.{IsShift};

use crate::edits::{Edit, MOST_EDITS, MOST_SHIFT};
use crate::faults::ScenarioWhat;
use csv::ByteRecord;
use gtfs_tables::Feed;
use table_records::{column, field, number, trim};

/// The columns of a scenario's file that are read.
#[derive(Clone, Copy)]
pub(crate) struct EditColumns {
    pub(crate) action: Option<usize>,
    pub(crate) id: Option<usize>,
    pub(crate) seconds: Option<usize>,
}

/// What a record does.
#[derive(Clone, Copy)]
pub(crate) enum Action {
    RemoveRoute,
    RemoveTrip,
    ShiftTrip,
}

/// The columns that a header names.
pub(crate) fn columns_in(header: &ByteRecord) -> EditColumns
    ensures { result ≡ columns_of (fields_of header.now) }
{
    EditColumns {
        action: column(header, b"action"),
        id: column(header, b"id"),
        seconds: column(header, b"seconds"),
    }
}

/// The edit that the record with a number states, or the first fault of the record.
pub(crate) fn edit_in(
    feed: &Feed,
    columns: EditColumns,
    at: u64,
    row: &ByteRecord,
) -> Result<Edit, ScenarioWhat>
    ensures good { IfOk result (λ edit. (row_faults feed.now at (row_at columns (fields_of row.now)) ≡ [])
        × (edit_of feed.now (row_at columns (fields_of row.now)) ≡ Some edit)) }
    ensures shift { IfOk result IsShift }
    ensures fault { IfErr result (λ e. IsFirst e (row_faults feed.now at (row_at columns (fields_of row.now)))) }
{
    if at > MOST_EDITS as u64 + 1 {
        return Err(ScenarioWhat::TooMany);
    }
    let id = field(row, columns.id);
    match action_in(field(row, columns.action)) {
        None => Err(ScenarioWhat::UnknownAction),
        Some(Action::RemoveRoute) => route_removal(feed, id),
        Some(Action::RemoveTrip) => trip_removal(feed, id),
        Some(Action::ShiftTrip) => trip_shift(feed, id, trim(field(row, columns.seconds))),
    }
}

/// The action that a text names.
fn action_in(text: &[u8]) -> Option<Action>
    ensures { result ≡ action_of text.now }
{
    if text == b"remove_route".as_slice() {
        return Some(Action::RemoveRoute);
    }
    if text == b"remove_trip".as_slice() {
        return Some(Action::RemoveTrip);
    }
    if text == b"shift_trip".as_slice() {
        return Some(Action::ShiftTrip);
    }
    None
}

/// The removal of the route with an identifier.
fn route_removal(feed: &Feed, id: &[u8]) -> Result<Edit, ScenarioWhat>
    ensures good { IfOk result (λ edit. (route_faults feed.now id.now ≡ [])
        × (route_removal_of feed.now id.now ≡ Some edit)) }
    ensures shift { IfOk result IsShift }
    ensures fault { IfErr result (λ e. IsFirst e (route_faults feed.now id.now)) }
{
    match feed.route_no(id) {
        Some(route) => Ok(Edit::RemoveRoute(route)),
        None => Err(ScenarioWhat::UnknownRoute),
    }
}

/// The removal of the trip with an identifier.
fn trip_removal(feed: &Feed, id: &[u8]) -> Result<Edit, ScenarioWhat>
    ensures good { IfOk result (λ edit. (trip_faults feed.now id.now ≡ [])
        × (trip_removal_of feed.now id.now ≡ Some edit)) }
    ensures shift { IfOk result IsShift }
    ensures fault { IfErr result (λ e. IsFirst e (trip_faults feed.now id.now)) }
{
    match feed.trip_no(id) {
        Some(trip) => Ok(Edit::RemoveTrip(trip)),
        None => Err(ScenarioWhat::UnknownTrip),
    }
}

/// The shift of the trip with an identifier by the seconds that a text says.
fn trip_shift(feed: &Feed, id: &[u8], seconds: &[u8]) -> Result<Edit, ScenarioWhat>
    ensures good { IfOk result (λ edit. (shift_faults feed.now id.now seconds.now ≡ [])
        × (trip_shift_of feed.now id.now seconds.now ≡ Some edit)) }
    ensures shift { IfOk result IsShift }
    ensures fault { IfErr result (λ e. IsFirst e (shift_faults feed.now id.now seconds.now)) }
{
    let Some(trip) = feed.trip_no(id) else {
        return Err(ScenarioWhat::UnknownTrip);
    };
    match read_shift(seconds) {
        Some(seconds) => Ok(Edit::Shift(trip, seconds)),
        None => Err(ScenarioWhat::BadNumber),
    }
}

/// The seconds that a text says: digits, after at most one sign.
fn read_shift(text: &[u8]) -> Option<i64>
    ensures value { result ≡ seconds_of text.now }
    ensures low { IfSome result (λ z. neg_ℤ (pos 604799) ≤ℤ z) }
    ensures high { IfSome result (λ z. z ≤ℤ pos 604799) }
{
    match text {
        [b'-', digits @ ..] => Some(-(shift_digits(digits)? as i64)),
        [b'+', digits @ ..] => Some(shift_digits(digits)? as i64),
        _ => Some(shift_digits(text)? as i64),
    }
}

/// The seconds that digits write, less than a week.
fn shift_digits(digits: &[u8]) -> Option<u32>
    ensures value { result ≡ seconds_of_digits digits.now }
    ensures small { IfSome result (λ n. n ≤ MOST_SHIFT) }
{
    let seconds = number(digits)?;
    if seconds > MOST_SHIFT {
        return None;
    }
    Some(seconds)
}
