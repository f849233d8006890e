//! Why a study is refused.

use footpaths::FootFault;
use gtfs_tables::FeedFault;
use matrix_text::TextFault;
use scenarios::ScenarioFault;
use service_days::DayFault;
use std::alloc::AllocError;
use timetable::NetFault;
use workers::RunFault;

/// Why no answer is given, in the order in which a study is made: the first that is true is told. Out of memory may be
/// told in its place.
#[derive(Clone, Copy, Debug, PartialEq, Eq)]
pub enum StudyFault {
    /// There are more than 15 scenario files.
    Scenarios,
    /// The name of a scenario file is empty, `base`, or used before. The files count from 0.
    Name(usize),
    /// The feed's tables, or a file that names its stops, are refused.
    Feed(FeedFault),
    /// A scenario file is refused. The files count from 0.
    Scenario(usize, ScenarioFault),
    /// The trips that run on the study's days aren't listed.
    Days(DayFault),
    /// The footpaths aren't closed.
    Feet(FootFault),
    /// A scenario's network is refused. The scenarios count from 0, which is `base`.
    Net(u32, NetFault),
    /// The rows aren't all computed.
    Run(RunFault),
    /// The text isn't written.
    Text(TextFault),
    /// Out of memory.
    Memory,
}

impl From<AllocError> for StudyFault {
    ghost use Rattle.std.specs.Prelude.{◌≡◌};
    ghost use Rattle.studies.specs.declared.fault.StudyFault.TheVariants.{Memory};

    ghost from_gives = { λ _ fault. fault ≡ Memory };

    fn from(_: AllocError) -> StudyFault {
        StudyFault::Memory
    }
}

impl From<FeedFault> for StudyFault {
    ghost use Rattle.std.specs.Prelude.{◌≡◌};
    ghost use Rattle.studies.specs.declared.fault.StudyFault.TheVariants.{Feed};

    ghost from_gives = { λ e fault. fault ≡ Feed e };

    fn from(fault: FeedFault) -> StudyFault {
        StudyFault::Feed(fault)
    }
}

impl From<DayFault> for StudyFault {
    ghost use Rattle.std.specs.Prelude.{◌≡◌};
    ghost use Rattle.studies.specs.declared.fault.StudyFault.TheVariants.{Days};

    ghost from_gives = { λ e fault. fault ≡ Days e };

    fn from(fault: DayFault) -> StudyFault {
        StudyFault::Days(fault)
    }
}

impl From<FootFault> for StudyFault {
    ghost use Rattle.std.specs.Prelude.{◌≡◌};
    ghost use Rattle.studies.specs.declared.fault.StudyFault.TheVariants.{Feet};

    ghost from_gives = { λ e fault. fault ≡ Feet e };

    fn from(fault: FootFault) -> StudyFault {
        StudyFault::Feet(fault)
    }
}

impl From<RunFault> for StudyFault {
    ghost use Rattle.std.specs.Prelude.{◌≡◌};
    ghost use Rattle.studies.specs.declared.fault.StudyFault.TheVariants.{Run};

    ghost from_gives = { λ e fault. fault ≡ Run e };

    fn from(fault: RunFault) -> StudyFault {
        StudyFault::Run(fault)
    }
}
