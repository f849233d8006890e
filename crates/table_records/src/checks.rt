//! What is checked of the records of a file, as data: proved to explain the faults that the file's reader returns.

ghost use Rattle.std.specs.Prelude.{◌≡◌};
ghost use Rattle.table_records.specs.Checks as spec;

use crate::fault::What;
use crate::fields::{number, read_date, read_time, trim};

/// What a field must be.
#[derive(Clone, Copy, Debug, PartialEq, Eq)]
pub enum Rule {
    /// An identifier that is there.
    Filled,
    /// An identifier that no record before has.
    Once,
    /// A sequence number that no other record of its trip has.
    OnceInTrip,
    /// A stop.
    Stop,
    /// A stop, a station or another place.
    Place,
    /// A route.
    Route,
    /// A trip.
    Trip,
    /// A number.
    Number,
    /// A number, or nothing.
    OpenNumber,
    /// 0 or 1.
    Flag,
    /// 1 or 2.
    Added,
    /// A number that isn't 0.
    Headway,
    /// A time.
    Time,
    /// A time, or nothing.
    OpenTime,
    /// A date.
    Date,
    /// A trip whose first and last stop times have times.
    Timed,
}

impl Rule {
    /// Whether a text may be refused by this rule. By a rule in which other records have a part any text may.
    pub fn refuses(self, text: &[u8]) -> bool
        ensures { result ≡ spec.refuses self text.now }
    {
        let trimmed = trim(text);
        match self {
            Rule::Filled => text.is_empty(),
            Rule::Number => number(trimmed).is_none(),
            Rule::OpenNumber => !trimmed.is_empty() && number(trimmed).is_none(),
            Rule::Flag => !matches!(number(trimmed), Some(0 | 1)),
            Rule::Added => !matches!(number(trimmed), Some(1 | 2)),
            Rule::Headway => matches!(number(trimmed), None | Some(0)),
            Rule::Time => read_time(text).is_none(),
            Rule::OpenTime => !trimmed.is_empty() && read_time(text).is_none(),
            Rule::Date => read_date(text).is_none(),
            _ => true,
        }
    }
}

/// A check of a field: its column, what it must be, and what is wrong where it isn't.
#[derive(Clone, Copy)]
pub struct Check(pub &'static [u8], pub Rule, pub What);

/// What is checked of a file.
#[derive(Clone, Copy)]
pub struct Checks {
    /// The columns that the header must have.
    pub required: &'static [&'static [u8]],
    /// The checks of a record's fields, in the order in which a fault is looked for.
    pub fields: &'static [Check],
}
