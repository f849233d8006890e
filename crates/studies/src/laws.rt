//! Laws of studies of files.
ghost use Rattle.studies.specs.Laws.{OpenStudiesFinish, RefusedHaveNoMeaning, TextsAreUnique, TextsHaveTheirColumns};

use footpaths::{closures_are_unique, too_many_have_no_closure};
use workers::{matrices_are_unique, rows_have_their_columns};

/// A law: the same files and settings have one text, whatever computes it.
pub fn texts_are_unique()
    ensures { TextsAreUnique }
{
    closures_are_unique();
    matrices_are_unique();
}

/// A law: the text of a study with destinations is that of the same study without them, with the other columns left
/// out.
///
/// So no number depends on which columns are asked for, and neither do the sums of access.
pub fn texts_have_their_columns()
    ensures { TextsHaveTheirColumns }
{
    closures_are_unique();
    rows_have_their_columns();
}

/// A law: no files are both refused and accepted.
pub fn refused_have_no_meaning()
    ensures { RefusedHaveNoMeaning }
{
    too_many_have_no_closure();
}

/// A law: a study whose gate lets each lease be worked at, as [`Open`](workers::Open) does, is never left unfinished.
pub fn open_studies_finish()
    ensures { OpenStudiesFinish }
{}
