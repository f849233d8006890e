//! What the stages of a study hand on: the analyst's own tables, what networks are made of, and what is asked of them.

use crate::kept::Kept;
use crate::settings::Settings;
use gtfs_tables::Feed;
use scenarios::Scenario;
use service_days::Run;
use timetable::{Feet, Network, StopNo};

/// The tables of a question, by the feed that names their stops.
#[derive(Drop)]
pub(crate) struct Tables {
    /// The stops at which journeys begin.
    pub origins: Vec<StopNo>,
    /// What each stop counts for.
    pub opportunities: Vec<u32>,
    /// The stops that a row has cells for.
    pub destinations: Vec<StopNo>,
}

/// What the networks of a study are made of, beside a feed.
#[derive(Drop)]
pub(crate) struct NetworkParts {
    /// The scenarios, `base` first.
    pub scenarios: Vec<Scenario>,
    /// The runs of the study's days.
    pub runs: Vec<Run>,
    /// The closed footpaths.
    pub feet: Feet,
}

/// A study whose rows aren't computed yet: what is kept, and the tables of its question.
#[derive(Drop)]
pub(crate) struct Prepared<'a> {
    pub kept: Kept<'a>,
    pub tables: Box<Tables>,
}

/// What is asked of networks, and what names the rows and columns of the answer.
#[derive(Clone, Copy)]
pub(crate) struct Asked<'a> {
    /// The feed, which names the stops.
    pub feed: &'a Feed,
    /// The network of each scenario, `base` first.
    pub networks: &'a [Network],
    /// The names of the scenarios, `base` first.
    pub names: &'a [Vec<u8>],
    pub settings: &'a Settings,
    pub tables: &'a Tables,
}
