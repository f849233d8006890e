//! What the analyst's own files state for a feed.

use crate::own_files::{OwnFiles, ScenarioFile};
use footpaths::{Direct, direct};
use gtfs_tables::{Feed, FeedFault, MOST_BYTES, file_fits, read_origins};
use scenarios::{Scenario, ScenarioFault, base, read_scenario};
use std::alloc::{AllocError, Global};
use timetable::StopNo;

/// Why a study has no tables.
#[derive(Clone, Copy, Debug)]
pub(crate) enum TableFault {
    /// A file has more than 1,073,741,824 bytes.
    TooLong,
    /// The file of footpaths or that of origins is refused.
    Table(FeedFault),
    /// A scenario file is refused.
    Scenario(ScenarioFault),
    /// Out of memory.
    Memory,
}

/// What a study takes beside its feed.
#[derive(Drop)]
pub(crate) struct Tables {
    /// The direct footpaths.
    pub direct: Direct,
    /// The stops at which journeys begin.
    pub origins: Vec<StopNo>,
    /// All stops: each has a column.
    pub destinations: Vec<StopNo>,
    /// The scenarios, `base` first.
    pub scenarios: Vec<Scenario>,
}

/// The tables of a feed with a file of footpaths, one of origins, and scenario files.
pub(crate) fn read_tables(
    alloc: Global,
    feed: &Feed,
    own: OwnFiles<'_>,
) -> Result<Tables, TableFault> {
    let direct = read_footpaths(alloc, feed, own.footpaths)?;
    let origins = origins_of(alloc, feed, own.origins)?;
    let destinations = origins_of(alloc, feed, None)?;
    let scenarios = read_scenarios(alloc, feed, own.scenarios)?;
    Ok(Tables {
        direct,
        origins,
        destinations,
        scenarios,
    })
}

fn read_footpaths(alloc: Global, feed: &Feed, file: Option<&[u8]>) -> Result<Direct, TableFault> {
    if !file_fits(file) {
        return Err(TableFault::TooLong);
    }
    match direct(alloc, feed, file) {
        Ok(direct) => Ok(direct),
        Err(fault) => Err(TableFault::Table(fault)),
    }
}

fn origins_of(alloc: Global, feed: &Feed, file: Option<&[u8]>) -> Result<Vec<StopNo>, TableFault> {
    if !file_fits(file) {
        return Err(TableFault::TooLong);
    }
    match read_origins(alloc, file, feed) {
        Ok(origins) => Ok(origins),
        Err(fault) => Err(TableFault::Table(fault)),
    }
}

// The scenario `base`, and then those of the files.
fn read_scenarios(
    alloc: Global,
    feed: &Feed,
    files: &[ScenarioFile],
) -> Result<Vec<Scenario>, TableFault> {
    let mut scenarios = Vec::new(alloc);
    if scenarios.push(base(alloc)).is_err() {
        return Err(TableFault::Memory);
    }
    for file in files {
        let scenario = scenario_of(alloc, feed, file)?;
        if scenarios.push(scenario).is_err() {
            return Err(TableFault::Memory);
        }
    }
    Ok(scenarios)
}

fn scenario_of(alloc: Global, feed: &Feed, file: &ScenarioFile) -> Result<Scenario, TableFault> {
    if file.bytes.len() > MOST_BYTES {
        return Err(TableFault::TooLong);
    }
    match read_scenario(alloc, &file.path, &file.bytes, feed) {
        Ok(scenario) => Ok(scenario),
        Err(fault) => Err(TableFault::Scenario(fault)),
    }
}

/// The names of scenarios.
pub(crate) fn names_of(alloc: Global, scenarios: &[Scenario]) -> Result<Vec<Vec<u8>>, AllocError> {
    let mut names = Vec::new(alloc);
    for scenario in scenarios {
        names.push(Vec::from_slice(alloc, scenario.name())?)?;
    }
    Ok(names)
}
