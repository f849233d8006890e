//! Jobs, one per scenario and origin: their places, and the row of each.
ghost use Rattle.std.specs.Prelude.{◌≡◌, ◌<◌, IfOk};
ghost use Rattle.workers.specs.Study.{study_of, StudyFits};
ghost use Rattle.workers.specs.Jobs.{jobs_of, IsRowOfJob, places_without_rows};

use crate::rows::{RowBuffers, row_with};
use crate::study::Study;
use collector::{Collector, Row};
use std::alloc::{AllocError, Global};

/// The places of a study, without a row yet.
pub(crate) fn empty_places(alloc: Global, study: &Study) -> Result<Collector, AllocError>
    requires { StudyFits (study_of study.now) }
    ensures { IfOk result (λ collector. collector ≡ places_without_rows (study_of study.now)) }
{
    let scenarios = study.networks.len() as u32;
    let origins = study.origins.len() as u32;
    let width = study.destinations.len() as u32;
    let shares = study.shares.len() as u32;
    let limits = study.withins.len() as u32;
    Collector::new(
        alloc,
        study.number,
        scenarios,
        origins,
        width,
        shares,
        limits,
    )
}

/// The row of a job.
pub(crate) fn row_of_job(
    alloc: Global,
    buffers: &mut RowBuffers,
    study: &Study,
    job: u32,
) -> Result<Row, AllocError>
    requires fits { StudyFits (study_of study.now) }
    requires job { job < jobs_of (study_of study.now) }
    ensures { IfOk result (λ row. IsRowOfJob (study_of study.now) job row) }
{
    let origins = study.origins.len() as u32;
    row_with(alloc, buffers, study, job / origins, job % origins)
}
