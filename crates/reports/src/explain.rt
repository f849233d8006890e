//! What the line of a fault can't say: the column, its value, and what is allowed.
ghost use Rattle.std.specs.Prelude.{◌≡◌, IfSome, map, true};
ghost use Rattle.csv.specs.Records.{fields_of};
ghost use Rattle.table_records.specs.Checks.{Finds, refuses};
ghost use Rattle.reports.specs.Explain as spec;

use crate::advice::{advice_for, edit_limit, limit_of};
use crate::records::{Found, is_named, record_at};
use crate::rules::{edit_words, words_of};
use console::shown;
use csv::ByteRecord;
use footpaths::footpath_checks;
use gtfs_tables::{
    Check, Checks, FeedFault, Rule, calendar_checks, calendar_date_checks, feed_trip_checks,
    frequency_checks, opportunity_checks, origin_checks, place_checks, route_checks,
    stop_time_checks, transfer_checks,
};
use scenarios::{EditCheck, ScenarioFault, ScenarioWhat, edit_checks};
use std::alloc::{AllocError, Global};
use studies::{Inputs, StudyFault};
use table_records::{FileName, What, column};

/// The most columns of a header that are shown.
const MOST_COLUMNS: usize = 40;

/// Whether a fault is that a file of the feed is missing.
pub(crate) fn is_missing(fault: &StudyFault) -> bool {
    match fault {
        StudyFault::Feed(fault) => fault.what == What::MissingFile,
        _ => false,
    }
}

/// A line that says more of a fault, if there is more to say and memory for it.
pub(crate) fn explanation(
    alloc: Global,
    fault: &StudyFault,
    inputs: &Inputs<'_>,
) -> Option<String> {
    match fault {
        StudyFault::Feed(fault) => of_feed(alloc, *fault, bytes_of(inputs, fault.file), inputs),
        StudyFault::Scenario(number, fault) => {
            let file = inputs.scenarios.get(*number)?;
            of_scenario(alloc, *fault, &file.bytes)
        }
        fault => plain_line(alloc, &advice_for(alloc, fault)?),
    }
}

/// A line of some words.
fn plain_line(alloc: Global, words: &str) -> Option<String> {
    format!(in alloc; "ttm: {words}\n").ok()
}

/// More of a fault of a table, which has these bytes if it is there.
fn of_feed(
    alloc: Global,
    fault: FeedFault,
    bytes: Option<&[u8]>,
    inputs: &Inputs<'_>,
) -> Option<String> {
    match fault.what {
        What::TooMany => plain_line(alloc, &limit_of(alloc, fault.file)?),
        What::MissingColumn => lacking_line(alloc, bytes?, checks_of(fault.file).required),
        What::TimesGoBack => back_line(alloc, &record_at(alloc, bytes?, fault.at)?),
        what => {
            let found = record_at(alloc, bytes?, fault.at)?;
            let checks = checks_of(fault.file).fields;
            let Check(column, rule, _) = refused_check(
                alloc,
                &found,
                what,
                checks,
                inputs.feed.stops,
            )?;
            field_line(alloc, column, found.text(column), words_of(rule))
        }
    }
}

/// More of a fault of a scenario file.
fn of_scenario(alloc: Global, fault: ScenarioFault, bytes: &[u8]) -> Option<String> {
    match fault.what {
        ScenarioWhat::TooMany => plain_line(alloc, &edit_limit(alloc)?),
        ScenarioWhat::MissingColumn => lacking_line(alloc, bytes, edit_checks().required),
        what => {
            let EditCheck(column, rule, _) = edit_check(what)?;
            let found = record_at(alloc, bytes, fault.at)?;
            field_line(alloc, column, found.text(column), edit_words(rule))
        }
    }
}

/// The check that finds a fault of a scenario file; none where no field is at fault.
fn edit_check(what: ScenarioWhat) -> Option<EditCheck> {
    for check in edit_checks().fields {
        if check.2 == what {
            return Some(*check);
        }
    }
    None
}

/// What is checked of the records of a file of the feed, or of one that names its stops.
fn checks_of(file: FileName) -> Checks
    ensures required { map (λ name. name.now) result.required.now ≡ spec.required_of file }
    ensures explains { spec.ExplainsFile file result.fields.now }
{
    match file {
        FileName::Stops => place_checks(),
        FileName::Routes => route_checks(),
        FileName::Calendar => calendar_checks(),
        FileName::CalendarDates => calendar_date_checks(),
        FileName::Trips => feed_trip_checks(),
        FileName::StopTimes => stop_time_checks(),
        FileName::Frequencies => frequency_checks(),
        FileName::Transfers => transfer_checks(),
        FileName::Footpaths => footpath_checks(),
        FileName::Origins | FileName::Destinations => origin_checks(),
        FileName::Opportunities => opportunity_checks(),
    }
}

/// The bytes of a file.
fn bytes_of<'a>(inputs: &Inputs<'a>, file: FileName) -> Option<&'a [u8]> {
    match file {
        FileName::Stops => inputs.feed.stops,
        FileName::Routes => inputs.feed.routes,
        FileName::Calendar => inputs.feed.calendar,
        FileName::CalendarDates => inputs.feed.calendar_dates,
        FileName::Trips => inputs.feed.trips,
        FileName::StopTimes => inputs.feed.stop_times,
        FileName::Frequencies => inputs.feed.frequencies,
        FileName::Transfers => inputs.feed.transfers,
        FileName::Footpaths => inputs.footpaths,
        FileName::Origins => inputs.origins,
        FileName::Opportunities => inputs.opportunities,
        FileName::Destinations => inputs.destinations,
    }
}

/// The check that refused a record with this fault: the first one that can have, given the bytes of `stops.txt`.
fn refused_check(
    alloc: Global,
    found: &Found,
    what: What,
    checks: &[Check],
    stops: Option<&[u8]>,
) -> Option<Check>
    ensures { IfSome result (λ check. Finds check (fields_of found.now.header) (fields_of found.now.row) what) }
{
    for check in checks {
        let Check(column, rule, wrong) = *check;
        if wrong == what && may_refuse(alloc, rule, found.text(column), stops)? {
            return Some(*check);
        }
    }
    None
}

/// Whether a rule may have refused a text, given the bytes of `stops.txt`; none where there is no memory to find out.
fn may_refuse(alloc: Global, rule: Rule, text: &[u8], stops: Option<&[u8]>) -> Option<bool>
    ensures { IfSome result (λ may. may ≡ true → refuses rule text.now ≡ true) }
{
    if rule == Rule::Place {
        Some(!is_named(alloc, stops?, b"stop_id", text)?)
    } else {
        Some(rule.refuses(text))
    }
}

/// A field that is refused.
fn field_line(alloc: Global, column: &[u8], text: &[u8], words: &str) -> Option<String> {
    let name = shown(alloc, column).ok()?;
    let value = shown(alloc, text).ok()?;
    format!(in alloc; "ttm: column {name} is \"{value}\"; {words}\n").ok()
}

/// The times of a stop time at which its trip goes back.
fn back_line(alloc: Global, found: &Found) -> Option<String> {
    let arrive = shown(alloc, found.text(b"arrival_time")).ok()?;
    let depart = shown(alloc, found.text(b"departure_time")).ok()?;
    format!(in alloc;
        "ttm: column arrival_time is \"{arrive}\" and column departure_time is \"{depart}\"; \
            along a trip no time is before the one ahead of it\n"
    )
    .ok()
}

/// The first required column that the header of a file lacks, and those that it has.
fn lacking_line(alloc: Global, bytes: &[u8], required: &[&[u8]]) -> Option<String> {
    let header = record_at(alloc, bytes, 1)?.header;
    let lacking = shown(alloc, first_lacking(&header, required)?).ok()?;
    let has = columns_text(alloc, &header).ok()?;
    format!(in alloc; "ttm: the header lacks column {lacking}; it has {has}\n").ok()
}

/// The first of some columns that a header lacks.
fn first_lacking<'a>(header: &ByteRecord, required: &[&'a [u8]]) -> Option<&'a [u8]> {
    for name in required {
        if column(header, name).is_none() {
            return Some(*name);
        }
    }
    None
}

/// The columns of a header.
fn columns_text(alloc: Global, header: &ByteRecord) -> Result<String, AllocError> {
    let mut text = String::new(alloc);
    for position in 0..MOST_COLUMNS {
        match header.get(position) {
            Some(name) => add_column(alloc, &mut text, position, name)?,
            None => return Ok(text),
        }
    }
    Ok(text)
}

/// Adds a column at its position.
fn add_column(
    alloc: Global,
    text: &mut String,
    position: usize,
    name: &[u8],
) -> Result<(), AllocError> {
    if position > 0 {
        text.push_str(", ")?;
    }
    let name = shown(alloc, name)?;
    text.push_str(&name)
}
