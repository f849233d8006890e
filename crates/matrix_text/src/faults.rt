//! Why a text wasn't written.

use std::alloc::AllocError;
use thiserror::Error;

/// Why a text wasn't written. A prefix of it may be out.
#[derive(Clone, Copy, Debug, PartialEq, Eq, Error)]
#[error("{}", self.words())]
pub enum TextFault {
    /// The writer failed, or took nothing.
    Write,
    /// Out of memory.
    Memory,
}

impl TextFault {
    ghost use Rattle.std.specs.Prelude.{◌≡◌};
    ghost use Rattle.matrix_text.specs.FaultWords.{words_of};

    /// What is wrong, in words.
    pub fn words(&self) -> &'static str
        ensures { result.now ≡ words_of self.now }
    {
        match self {
            TextFault::Write => "write fault",
            TextFault::Memory => "out of memory",
        }
    }
}

impl From<AllocError> for TextFault {
    ghost use Rattle.std.specs.Prelude.{◌≡◌};
    ghost use Rattle.matrix_text.specs.declared.faults.TextFault.TheVariants.{Memory};

    ghost from_gives = { λ _ fault. fault ≡ Memory };

    fn from(_: AllocError) -> TextFault {
        TextFault::Memory
    }
}
