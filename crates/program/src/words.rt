//! The words that the program is started with.
ghost use Rattle.std.specs.Prelude.{◌≡◌, ℕ, List, Result, IfOk, ⊤};
ghost use Rattle.std.specs.Vec.Iter.{into_iter_items};
ghost use Rattle.std.specs.declared.io.Error.{Error};
ghost use Rattle.program.specs.Words as spec;

use std::alloc::{AllocError, Global};
use std::env::Args;
use std::rt::Env;
use std::{env, io};

/// Has the words that the program is started with: its name, and its arguments.
///
/// Contracts name what it may give, so that each promise is about these words and no others.
pub trait Arguments {
    /// It may give these words, or this error in place of them.
    ghost gives: { Self → Result (List (List ℕ)) Error → Type 0 };

    /// All words, or why they can't be had: out of memory, or one of them isn't UTF-8.
    fn arguments(&self) -> io::Result<Args>
        ensures { gives self.now (spec.words_of result) };
}

/// The words of the process. Of what the system gives nothing is known.
impl<E: Env + AllocGlobal> Arguments for E {
    ghost gives = { λ _ _. ⊤ };

    fn arguments(&self) -> io::Result<Args> {
        env::args(self)
    }
}

/// Words in a vector, all of them and in their order.
pub(crate) fn collected(alloc: Global, words: Args) -> Result<Vec<String>, AllocError>
    ensures { IfOk result (λ all. all.items ≡ into_iter_items words) }
{
    words.collect(alloc)
}
