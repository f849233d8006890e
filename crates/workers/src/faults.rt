//! Why a run gave no matrix.

use std::alloc::AllocError;
use thiserror::Error;

/// Why a run gave no matrix. Of several that are true the first is answered.
#[derive(Clone, Copy, Debug, PartialEq, Eq, Error)]
#[error("{}", self.words())]
pub enum RunFault {
    /// Out of memory.
    Memory,
    /// No worker could be started.
    Spawn,
    /// A place has no row: the first one, by its scenario and origin, each counted from 0.
    Unfinished { scenario: u32, origin: u32 },
}

impl RunFault {
    ghost use Rattle.std.specs.Prelude.{◌≡◌};
    ghost use Rattle.workers.specs.FaultWords.{words_of};

    /// What is wrong, in words; a place without a row is not named.
    pub fn words(&self) -> &'static str
        ensures { result.now ≡ words_of self.now }
    {
        match self {
            RunFault::Memory => "out of memory",
            RunFault::Spawn => "no worker started",
            RunFault::Unfinished { .. } => "unfinished",
        }
    }
}

impl From<AllocError> for RunFault {
    ghost use Rattle.std.specs.Prelude.{◌≡◌};
    ghost use Rattle.workers.specs.declared.faults.RunFault.TheVariants.{Memory};

    ghost from_gives = { λ _ fault. fault ≡ Memory };

    fn from(_: AllocError) -> RunFault {
        RunFault::Memory
    }
}
