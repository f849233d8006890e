//! What can be wrong with a file of a feed, and where.
//! Only the first fault is reported: the least by file, then by record, then by check.

ghost use Rattle.std.specs.Prelude.{◌≡◌};

use std::alloc::{AllocError, AllocFailed};

/// The files that are read, in the order in which they are read.
///
/// `Stops` to `Transfers` are the files of a GTFS feed. `Footpaths` is a table of walks; `Origins`,
/// `Opportunities` and `Destinations` name stops of the feed.
#[derive(Clone, Copy, Debug, PartialEq, Eq)]
pub enum FileName {
    Stops,
    Routes,
    Calendar,
    CalendarDates,
    Trips,
    StopTimes,
    Frequencies,
    Transfers,
    Footpaths,
    Origins,
    Opportunities,
    Destinations,
}

/// What is wrong with a file or one of its records.
#[derive(Clone, Copy, Debug, PartialEq, Eq)]
pub enum What {
    /// A file that a feed has to have is absent.
    MissingFile,
    /// The header lacks a required column.
    MissingColumn,
    /// An identifier that is required is empty.
    EmptyId,
    /// An identifier, or a stop sequence within a trip, is there already.
    DuplicateId,
    /// No stop has this identifier.
    UnknownStop,
    /// No route has this identifier.
    UnknownRoute,
    /// No trip has this identifier.
    UnknownTrip,
    /// Not a time of day, as `8:05:00`.
    BadTime,
    /// Not a date of the calendar, as `20240229`.
    BadDate,
    /// Not a whole number, or none that the column allows.
    BadNumber,
    /// The first or the last event of a trip has no time.
    NoTime,
    /// A time along a trip is earlier than the time before it.
    TimesGoBack,
    /// More records than the limit.
    TooMany,
    /// Out of memory; nothing is said of the file.
    Memory,
}

/// Why the records of a file can't be read by the columns of its header.
#[derive(Clone, Copy)]
pub enum HeaderFault {
    /// There is no header, or it lacks a required column.
    MissingColumn,
    /// Out of memory; nothing is said of the file.
    Memory,
}

/// The first fault of the files that were read.
///
/// Records are counted from 1 with the header, as a spreadsheet shows them; an absent file is refused at 0. Where
/// `what` is `Memory`, `file` and `at` say nothing.
#[derive(Clone, Copy, Debug, PartialEq, Eq)]
pub struct FeedFault {
    pub file: FileName,
    /// The number of the record.
    pub at: u64,
    pub what: What,
}

impl FeedFault {
    ghost use Rattle.table_records.specs.declared.fault.FeedFault.{FeedFault};
    ghost use Rattle.table_records.specs.declared.fault.What.TheVariants.{Memory};

    /// A fault at a record of a file.
    pub fn at(file: FileName, at: u64, what: What) -> FeedFault
        ensures { result ≡ record { file = file; at = at; what = what } }
    {
        FeedFault { file, at, what }
    }

    /// Out of memory, which is no file's fault.
    fn memory() -> FeedFault
        ensures { result.what ≡ Memory }
    {
        FeedFault::at(FileName::Stops, 0, What::Memory)
    }
}

impl From<AllocError> for FeedFault {
    ghost use Rattle.table_records.specs.declared.fault.What.TheVariants.{Memory};

    ghost from_gives = { λ _ e. e.what ≡ Memory };

    fn from(_: AllocError) -> FeedFault {
        FeedFault::memory()
    }
}

impl<T: Drop> From<AllocFailed<T>> for FeedFault {
    ghost use Rattle.table_records.specs.declared.fault.What.TheVariants.{Memory};

    ghost from_gives = { λ _ e. e.what ≡ Memory };

    fn from(_: AllocFailed<T>) -> FeedFault {
        FeedFault::memory()
    }
}
