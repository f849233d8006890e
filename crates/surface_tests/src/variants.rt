//! The variants of each fault and answer, in their order. Each list has all variants: one more doesn't compile.

use command_line::{Opt, ReadFault};
use footpaths::FootFault;
use gtfs_tables::{FileName, What};
use matrix_text::TextFault;
use scenarios::ScenarioWhat;
use service_days::DayFault;
use studies::StudyFault;
use timetable::NetFault;
use work_book::Settled;
use workers::{RunFault, Verdict};

/// The number of a file.
fn number_of_file(file: FileName) -> u32 {
    match file {
        FileName::Stops => 1,
        FileName::Routes => 2,
        FileName::Calendar => 3,
        FileName::CalendarDates => 4,
        FileName::Trips => 5,
        FileName::StopTimes => 6,
        FileName::Frequencies => 7,
        FileName::Transfers => 8,
        FileName::Footpaths => 9,
        FileName::Origins => 10,
        FileName::Opportunities => 11,
        FileName::Destinations => 12,
    }
}

/// The number of what is wrong with a file.
fn number_of_what(what: What) -> u32 {
    match what {
        What::MissingFile => 1,
        What::MissingColumn => 2,
        What::EmptyId => 3,
        What::DuplicateId => 4,
        What::UnknownStop => 5,
        What::UnknownRoute => 6,
        What::UnknownTrip => 7,
        What::BadTime => 8,
        What::BadDate => 9,
        What::BadNumber => 10,
        What::NoTime => 11,
        What::TimesGoBack => 12,
        What::TooMany => 13,
        What::Memory => 14,
    }
}

/// The number of what is wrong with a scenario.
fn number_of_edit(what: ScenarioWhat) -> u32 {
    match what {
        ScenarioWhat::UnknownAction => 1,
        ScenarioWhat::UnknownRoute => 2,
        ScenarioWhat::UnknownTrip => 3,
        ScenarioWhat::BadNumber => 4,
        ScenarioWhat::ShiftOutOfRange => 5,
        ScenarioWhat::MissingColumn => 6,
        ScenarioWhat::Memory => 7,
        ScenarioWhat::TooMany => 8,
    }
}

/// The number of why there is no study.
fn number_of_study(fault: &StudyFault) -> u32 {
    match fault {
        StudyFault::Scenarios => 1,
        StudyFault::Name(_) => 2,
        StudyFault::Feed(_) => 3,
        StudyFault::Scenario(_, _) => 4,
        StudyFault::Days(_) => 5,
        StudyFault::Feet(_) => 6,
        StudyFault::Net(_, _) => 7,
        StudyFault::Run(_) => 8,
        StudyFault::Text(_) => 9,
        StudyFault::Memory => 10,
    }
}

/// The number of why a run of workers gave no matrix.
fn number_of_run(fault: RunFault) -> u32 {
    match fault {
        RunFault::Memory => 1,
        RunFault::Spawn => 2,
        RunFault::Unfinished { .. } => 3,
    }
}

/// The number of an option.
fn number_of_option(option: Opt) -> u32 {
    match option {
        Opt::Date => 1,
        Opt::Window => 2,
        Opt::Trips => 3,
        Opt::Walk => 4,
        Opt::Share => 5,
        Opt::Within => 6,
        Opt::Workers => 7,
        Opt::Tries => 8,
        Opt::Back => 9,
        Opt::Ahead => 10,
    }
}

/// `FileName`, `What`, `ScenarioWhat`, `Opt`.
#[test]
fn lists_have_all_variants_in_order(rt: HostRuntime) {
    assert!(rt; number_of_file(FileName::Destinations) == 1 + FileName::Destinations as u32);
    assert!(rt; number_of_file(FileName::Stops) == 1 + FileName::Stops as u32);
    assert!(rt; number_of_what(What::Memory) == 1 + What::Memory as u32);
    assert!(rt; number_of_what(What::UnknownRoute) == 1 + What::UnknownRoute as u32);
    assert!(rt; number_of_edit(ScenarioWhat::TooMany) == 1 + ScenarioWhat::TooMany as u32);
    assert!(rt; number_of_option(Opt::Ahead) == 1 + Opt::Ahead as u32);
}

/// `NetFault`, `DayFault`, `FootFault`, `TextFault`, `ReadFault`.
#[test]
fn short_lists_stand_in_order(rt: HostRuntime) {
    assert!(rt; NetFault::StopRange as u32 == 0 && NetFault::TimesGoBack as u32 == 1);
    assert!(rt; NetFault::TooLarge as u32 == 2 && NetFault::Memory as u32 == 3);
    assert!(rt; DayFault::DateRange as u32 == 0 && DayFault::TooMany as u32 == 1);
    assert!(rt; DayFault::Memory as u32 == 2 && FootFault::TooMany as u32 == 0);
    assert!(rt; FootFault::Memory as u32 == 1 && TextFault::Write as u32 == 0);
    assert!(rt; TextFault::Memory as u32 == 1 && ReadFault::Read as u32 == 0);
    assert!(rt; ReadFault::TooLong as u32 == 1 && ReadFault::Memory as u32 == 2);
}

/// `Verdict`, `Settled`.
#[test]
fn answers_of_gates_stand_in_order(rt: HostRuntime) {
    assert!(rt; Verdict::Work as u32 == 0 && Verdict::Lose as u32 == 1);
    assert!(rt; Verdict::Vanish as u32 == 2 && Verdict::Repeat as u32 == 3);
    assert!(rt; Settled::Kept as u32 == 0 && Settled::Double as u32 == 1);
}

/// `StudyFault`, `RunFault`.
#[test]
fn a_study_has_ten_faults(rt: HostRuntime) {
    assert!(rt; number_of_study(&StudyFault::Scenarios) == 1);
    assert!(rt; number_of_study(&StudyFault::Memory) == 10);
    let unfinished = RunFault::Unfinished {
        scenario: 0,
        origin: 0,
    };
    assert!(rt; number_of_run(RunFault::Memory) == 1 && number_of_run(unfinished) == 3);
}
