//! The kinds of atomic step that a board takes, and what each shows its seat.
use crate::rule::View;
use atomic_table::{Join, Play, Split};

/// One share goes to a new seat.
pub(crate) struct Cut;

impl Split<View> for Cut {
    ghost use Rattle.work_book.specs.Views.{less_one, split_off};

    ghost left = { less_one };

    ghost right = { split_off };
}

/// One seat takes another in.
pub(crate) struct Merge;

impl Join<View> for Merge {
    ghost use Rattle.work_book.specs.Views.{merged, spent};

    ghost both = { merged };

    ghost spent = { spent };
}

/// One more is added to the first word.
pub(crate) struct Drawing;

impl Play<(), View> for Drawing {
    ghost use Rattle.work_book.specs.Moves.{Draws};

    ghost then = { Draws };
}

/// The first word is read, for what the rule says of any seat.
pub(crate) struct Showing;

impl Play<(), View> for Showing {
    ghost use Rattle.work_book.specs.Moves.{Shows};

    ghost then = { Shows };
}

/// The word of a job is read.
pub(crate) struct Looking;

impl Play<(), View> for Looking {
    ghost use Rattle.work_book.specs.Moves.{Looks};

    ghost then = { Looks };
}

/// The word of a job is set if it is 0.
pub(crate) struct Settling;

impl Play<(), View> for Settling {
    ghost use Rattle.work_book.specs.Moves.{Settles};

    ghost then = { Settles };
}
