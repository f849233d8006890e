//! Why the runs of a study aren't listed.

use std::alloc::AllocError;
use thiserror::Error;

/// Why the runs of a study aren't listed: of the first two the first that is true is answered.
#[derive(Clone, Copy, Debug, PartialEq, Eq, Error)]
#[error("{}", self.words())]
pub enum DayFault {
    /// A day of the study lies outside the calendar's years, -9999 to 9999.
    DateRange,
    /// There are more than 1,000,000 runs.
    TooMany,
    /// A growth of memory was refused.
    Memory,
}

impl DayFault {
    ghost use Rattle.std.specs.Prelude.{◌≡◌};
    ghost use Rattle.service_days.specs.FaultWords.{words_of};

    /// What is wrong, in words.
    pub fn words(&self) -> &'static str
        ensures { result.now ≡ words_of self.now }
    {
        match self {
            DayFault::DateRange => "date out of range",
            DayFault::TooMany => "too many runs",
            DayFault::Memory => "out of memory",
        }
    }
}

impl From<AllocError> for DayFault {
    ghost use Rattle.std.specs.Prelude.{◌≡◌};
    ghost use Rattle.service_days.specs.declared.fault.DayFault.TheVariants.{Memory};

    ghost from_gives = { λ _ fault. fault ≡ Memory };

    fn from(_error: AllocError) -> DayFault {
        DayFault::Memory
    }
}
