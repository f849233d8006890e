//! Watches: who is told what each stage of a study has made.

use crate::settings::Settings;
use collector::Matrix;
use footpaths::Direct;
use gtfs_tables::Feed;
use scenarios::Scenario;
use service_days::Run;
use timetable::{Feet, StopNo};
use workers::{RunFault, Study};

/// Is told what each stage of a study has made, in the order of its methods, by the thread that runs the study. Nothing
/// that it does changes the study. A stage that refuses is the last one that is told of.
///
/// Contracts name the stages that a watch saw, in their order, and the tables and days of these stages: only calls of
/// the watch establish such facts.
pub trait Watch {
    ghost use Rattle.std.specs.Prelude.{List};
    ghost use Rattle.workers.specs.Study.{StudyData, study_of};
    ghost use Rattle.studies.specs.Watched.{DaysData, Stage, TablesData, read, listed, begun, ended};

    // that it was told these stages, one after the other
    ghost saw: { Self → List Stage → Type 0 } = { λ _ _. Unit {0} };

    // it saw these tables
    ghost has_read: { Self → TablesData → Type 0 } = { λ _ _. Unit {0} };

    // it saw these days
    ghost has_listed: { Self → DaysData → Type 0 } = { λ _ _. Unit {0} };

    /// The feed and the analyst's own tables are read: the direct footpaths, the stops at which journeys begin, and
    /// those that a row has cells for.
    fn tables_read(&self, feed: &Feed, direct: &Direct, origins: &[StopNo], destinations: &[StopNo])
        ensures told { saw self.now read }
        ensures tables { has_read self.now (record {
          feed = feed.now;
          direct = direct.now;
          origins = origins.now;
          destinations = destinations.now;
        }) };

    /// The scenario files are read, the runs of the study's days are listed, and the footpaths are closed; no network
    /// is made yet.
    fn days_listed(
        &self,
        feed: &Feed,
        settings: &Settings,
        scenarios: &[Scenario],
        runs: &[Run],
        feet: &Feet,
    )
        requires after { saw self.now read }
        ensures told { saw self.now listed }
        ensures days { has_listed self.now (record {
          feed = feed.now;
          settings = settings.now;
          scenarios = scenarios.now;
          runs = runs.now;
          feet = feet.now;
        }) };

    /// The networks are made, and the workers are about to begin.
    fn rows_begin(&self, study: &Study<'_>)
        requires after { saw self.now listed }
        ensures told { saw self.now (begun (study_of study.now)) };

    /// The workers have ended, whatever came of it.
    fn rows_end(&self, made: &Result<Matrix, RunFault>)
        requires after { (study : StudyData) × saw self.now (begun study) }
        ensures told { (study : StudyData) → saw self.now (begun study) → saw self.now (ended study made.now) };
}

/// The watch that is told everything and does nothing.
#[derive(Clone, Copy, Debug, PartialEq, Eq)]
pub struct Unwatched;

impl Watch for Unwatched {
    fn tables_read(
        &self,
        _feed: &Feed,
        _direct: &Direct,
        _origins: &[StopNo],
        _destinations: &[StopNo],
    ) {}

    fn days_listed(
        &self,
        _feed: &Feed,
        _settings: &Settings,
        _scenarios: &[Scenario],
        _runs: &[Run],
        _feet: &Feet,
    ) {}

    fn rows_begin(&self, _study: &Study<'_>) {}

    fn rows_end(&self, _made: &Result<Matrix, RunFault>) {}
}
