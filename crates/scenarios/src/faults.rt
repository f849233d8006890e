//! What can be wrong with the file of a scenario, and where.
//! Only the first fault is reported: the least by record, then by check; shifted times are checked last.
ghost use Rattle.std.specs.Prelude.{◌≡◌};

use std::alloc::{AllocError, AllocFailed};

/// What is wrong with the file of a scenario or one of its records.
#[derive(Clone, Copy, Debug, PartialEq, Eq)]
pub enum ScenarioWhat {
    /// The action isn't `remove_route`, `remove_trip` or `shift_trip`.
    UnknownAction,
    /// No route of the feed has this identifier.
    UnknownRoute,
    /// No trip of the feed has this identifier.
    UnknownTrip,
    /// Not a shift: whole seconds, less than a week either way.
    BadNumber,
    /// All shifts of a trip together bring one of its times below 0 or past 1,999,999 seconds.
    ShiftOutOfRange,
    /// The header lacks `action` or `id`.
    MissingColumn,
    /// Out of memory; nothing is said of the file.
    Memory,
    /// More than 100,000 records.
    TooMany,
}

/// The first fault of the file of a scenario.
///
/// Records are counted from 1 with the header, as a spreadsheet shows them. Where `what` is `Memory`, `at` says
/// nothing.
#[derive(Clone, Copy, Debug, PartialEq, Eq)]
pub struct ScenarioFault {
    /// The number of the record.
    pub at: u64,
    pub what: ScenarioWhat,
}

impl ScenarioFault {
    ghost use Rattle.scenarios.specs.declared.faults.ScenarioFault.{ScenarioFault};
    ghost use Rattle.scenarios.specs.declared.faults.ScenarioWhat.TheVariants.{Memory, MissingColumn};

    /// The fault of a header that lacks a required column.
    pub(crate) fn missing_column() -> ScenarioFault
        ensures { result ≡ record { at = 1; what = MissingColumn } }
    {
        ScenarioFault {
            at: 1,
            what: ScenarioWhat::MissingColumn,
        }
    }

    /// Out of memory, which is no record's fault.
    fn memory() -> ScenarioFault
        ensures { result.what ≡ Memory }
    {
        ScenarioFault {
            at: 0,
            what: ScenarioWhat::Memory,
        }
    }
}

impl From<AllocError> for ScenarioFault {
    ghost use Rattle.scenarios.specs.declared.faults.ScenarioWhat.TheVariants.{Memory};

    ghost from_gives = { λ _ e. e.what ≡ Memory };

    fn from(_: AllocError) -> ScenarioFault {
        ScenarioFault::memory()
    }
}

impl<T: Drop> From<AllocFailed<T>> for ScenarioFault {
    ghost use Rattle.scenarios.specs.declared.faults.ScenarioWhat.TheVariants.{Memory};

    ghost from_gives = { λ _ e. e.what ≡ Memory };

    fn from(_: AllocFailed<T>) -> ScenarioFault {
        ScenarioFault::memory()
    }
}
