//! What can be done about a fault that no field of a file is the cause of.

use footpaths::FootFault;
use scenarios::MOST_EDITS;
use service_days::{DayFault, MOST_RUNS};
use std::alloc::Global;
use studies::StudyFault;
use table_records::FileName;
use timetable::{MOST_EVENTS, MOST_FOOTPATHS, MOST_STOPS, MOST_TRIPS, NetFault};
use workers::MOST_SCENARIOS;

/// What the limit of a file is, where it has too many records.
pub(crate) fn limit_of(alloc: Global, file: FileName) -> Option<String> {
    match file {
        FileName::Stops => format!(in alloc;
            "stops.txt may have {MOST_STOPS} records beside its header"
        ).ok(),
        FileName::Trips => format!(in alloc;
            "trips.txt may have {MOST_TRIPS} records beside its header"
        ).ok(),
        FileName::StopTimes => format!(in alloc;
            "stop_times.txt may have {MOST_EVENTS} records beside its header"
        ).ok(),
        FileName::Transfers | FileName::Footpaths => format!(in alloc;
            "there may be {MOST_FOOTPATHS} direct footpaths; \
                a record between stations gives one for each pair of their stops"
        )
        .ok(),
        _ => None,
    }
}

/// What the limit of a scenario file is.
pub(crate) fn edit_limit(alloc: Global) -> Option<String> {
    format!(in alloc; "a scenario may have {MOST_EDITS} records beside its header").ok()
}

/// What can be done about a fault of the study as a whole.
pub(crate) fn advice_for(alloc: Global, fault: &StudyFault) -> Option<String> {
    match fault {
        StudyFault::Scenarios => format!(in alloc;
            "a study may have {} scenario files beside the base",
            MOST_SCENARIOS - 1
        )
        .ok(),
        StudyFault::Name(_) => format!(in alloc;
            "each scenario file has a name of its own, which isn't empty and isn't base"
        ).ok(),
        StudyFault::Days(DayFault::DateRange) => format!(in alloc;
            "the days of a study are in the years -9999 to 9999; with --back 0 --ahead 0 the date alone counts"
        ).ok(),
        StudyFault::Days(DayFault::TooMany) => format!(in alloc;
            "there may be {MOST_RUNS} runs; with --back 0 --ahead 0 those of the date alone count"
        ).ok(),
        StudyFault::Feet(FootFault::TooMany) => format!(in alloc;
            "{MOST_FOOTPATHS} pairs of stops may have a walk; with a shorter --walk there are fewer"
        ).ok(),
        StudyFault::Net(_, NetFault::Memory) => None,
        StudyFault::Net(_, _) => format!(in alloc;
            "a network may have {MOST_TRIPS} runs with {MOST_EVENTS} stop times; \
                with --back 0 --ahead 0 there are fewer"
        )
        .ok(),
        _ => None,
    }
}
