//! The runs that were found so far.
ghost use Rattle.std.specs.Prelude.{◌≡◌, ◌+◌, ◌*◌, ◌<◌, ◌++◌, ◌∷◌, [], length, OnOk, IfErr};
ghost use Rattle.service_days.specs.declared.day.TheConstants as day;
ghost use Rattle.service_days.specs.declared.fault.DayFault.TheVariants.{Memory};
ghost use Rattle.service_days.specs.declared.run_list.TheConstants as limit;

use crate::fault::DayFault;
use crate::run::Run;
use std::alloc::Global;
use std::marker::Model;

/// The most runs of a study.
pub const MOST_RUNS: usize = 1_000_000;

/// A law: the limits of runs and of days in numbers.
pub fn limits_are_as_stated()
    ensures runs { limit.MOST_RUNS ≡ 1000000 }
    ensures days { day.LAST_DAY ≡ 7304483 }
    ensures start { day.LAST_START ≡ 86400 * day.LAST_DAY }
{}

/// Runs, no more than `MOST_RUNS`. Contracts see the list.
#[derive(Drop)]
pub(crate) struct RunList {
    items: Vec<Run>,
}

impl Model for RunList {
    ghost use Rattle.std.specs.Prelude.{◌≤◌, List, length};
    ghost use Rattle.service_days.specs.declared.run.Run.{Run};
    ghost use Rattle.service_days.specs.declared.run_list.TheConstants.{MOST_RUNS};

    ghost Value = { List Run };

    ghost view = { λ r. r.items.items };

    ghost invariant = { λ r. length r.items.items ≤ MOST_RUNS };
}

impl RunList {
    ghost use Rattle.service_days.specs.Instances.{IsListFault};

    /// No runs.
    pub(crate) fn new(alloc: Global) -> RunList
        ensures { result ≡ [] }
    {
        RunList {
            items: Vec::new(alloc),
        }
    }

    /// How many more runs there may be.
    pub(crate) fn room(&self) -> usize
        ensures { result + length self.now ≡ MOST_RUNS }
    {
        MOST_RUNS - self.items.len()
    }

    /// Adds a run.
    pub(crate) fn push(&mut self, run: Run) -> Result<(), DayFault>
        ensures good { OnOk result (self.new ≡ self.old ++ run ∷ []) }
        ensures fault { IfErr result (λ e. IsListFault e (length self.old + 1)) }
        ensures memory { IfErr result (λ e. e ≡ Memory → length self.old < limit.MOST_RUNS) }
    {
        if self.room() == 0 {
            return Err(DayFault::TooMany);
        }
        if self.items.push(run).is_err() {
            return Err(DayFault::Memory);
        }
        Ok(())
    }

    /// The runs as a vector.
    pub(crate) fn into_vec(self) -> Vec<Run>
        ensures { result.items ≡ self }
    {
        self.items
    }
}
