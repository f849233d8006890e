//! What every run of steps keeps to.
ghost use Rattle.std.specs.Prelude.{List};
ghost use Rattle.work_book.specs.Laws.{AreDrawnOnce, AreKeptOnce};
ghost use Rattle.collector.specs.Laws.{Setup, reached, ArePlacedFirst, IsRightWhenFinished, AreMissingUnhanded};
ghost use Rattle.collector.specs.Laws.{AreDrawnAtNothing, IsRunOfBook, IsNothingLast};
ghost use Rattle.collector.specs.declared.plain.CoreStep.{CoreStep};

/// For every book, every collector and every list of steps, whoever makes them and in whatever order: a place holds
/// the first row handed over for it that is no stranger, or none where there was none; where those rows are right, a
/// finished run gives their matrix; for a missing place no such row was handed over; and where the book answered
/// `Nothing`, every number of every job was drawn, once.
pub fn runs_are_right()
    ensures placed { (s : Setup) (steps : List CoreStep) → ArePlacedFirst s steps }
    ensures finished { (s : Setup) (steps : List CoreStep) → IsRightWhenFinished s steps }
    ensures missing { (s : Setup) (steps : List CoreStep) → AreMissingUnhanded s steps }
    ensures drawn { (s : Setup) (steps : List CoreStep) → AreDrawnAtNothing s steps }
{}

/// For every book, every collector and every list of steps, rows handed over among them, the steps of the book are
/// fair: the book is as if its own steps had been made alone, and answers the same; the numbers drawn are those below
/// the next number, each once; a job is kept once where it is settled and by nobody else; and the book answers
/// `Nothing` only once every number was drawn.
pub fn core_runs_are_fair()
    ensures alone { (s : Setup) (steps : List CoreStep) → IsRunOfBook s steps }
    ensures drawn { (s : Setup) (steps : List CoreStep) → AreDrawnOnce (reached s steps).book }
    ensures kept { (s : Setup) (steps : List CoreStep) → AreKeptOnce (reached s steps).book }
    ensures nothing { (s : Setup) (steps : List CoreStep) → IsNothingLast s steps }
{}
