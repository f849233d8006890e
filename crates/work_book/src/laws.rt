//! What every run of steps keeps to.
ghost use Rattle.std.specs.Prelude.{ℕ, List};
ghost use Rattle.work_book.specs.Book.{new_book};
ghost use Rattle.work_book.specs.Laws.{AreDrawnOnce, AreKeptOnce, IsNothingLast, reached};
ghost use Rattle.work_book.specs.Runs.{IsSomeRun};
ghost use Rattle.work_book.specs.declared.steps.Step.{Step};
ghost use Rattle.work_book.specs.declared.rule.View.{View};
ghost use Rattle.work_book.specs.declared.shared.Closed.{Closed};

/// A law, for every book and every list of steps, by any seats in any order: the numbers drawn are those below the next
/// number, each once; a settled job is kept once, an open one by nobody; and `Nothing` is answered only once every
/// number was drawn.
pub fn runs_are_fair()
    ensures drawn { (jobs tries seats : ℕ) (steps : List Step) → AreDrawnOnce (reached jobs tries seats steps) }
    ensures kept { (jobs tries seats : ℕ) (steps : List Step) → AreKeptOnce (reached jobs tries seats steps) }
    ensures nothing { (jobs tries seats : ℕ) (steps : List Step) → IsNothingLast (new_book jobs tries seats) steps }
{}

/// A law, for every board that the only seat left closes, whatever its threads did and in whatever order: some run of a
/// book has the same next number, the same settled jobs, and each number drawn and each job kept as often.
pub fn closed_boards_are_runs()
    ensures { (v : View) (closed : Closed) → IsSomeRun v closed }
{}
