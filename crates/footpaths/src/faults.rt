//! Why footpaths aren't closed.
ghost use Rattle.std.specs.Prelude.{◌≡◌};

use std::alloc::AllocError;
use thiserror::Error;

/// Why footpaths aren't closed.
#[derive(Clone, Copy, Debug, PartialEq, Eq, Error)]
#[error("{}", self.words())]
pub enum FootFault {
    /// More than 4,000,000 pairs of stops have a walking time within the limit.
    TooMany,
    /// A growth of memory was refused.
    Memory,
}

impl FootFault {
    ghost use Rattle.std.specs.Prelude.{◌≡◌};
    ghost use Rattle.footpaths.specs.FaultWords.{words_of};

    /// What is wrong, in words.
    pub fn words(&self) -> &'static str
        ensures { result.now ≡ words_of self.now }
    {
        match self {
            FootFault::TooMany => "too many footpaths",
            FootFault::Memory => "out of memory",
        }
    }
}

impl From<AllocError> for FootFault {
    ghost use Rattle.footpaths.specs.declared.faults.FootFault.TheVariants.{Memory};

    ghost from_gives = { λ _ fault. fault ≡ Memory };

    fn from(_error: AllocError) -> FootFault {
        FootFault::Memory
    }
}
