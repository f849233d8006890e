//! The plain form of a run of workers, which the program doesn't call: jobs are drawn, computed, settled, and their
//! rows offered, one after another. The law [`workers_give_the_matrix_of_one_thread`](crate::laws) says that both give
//! the same matrix.
ghost use Rattle.std.specs.Prelude.{◌≡◌, true, false, IfOk, IfErr, OnOk, OnErr};
ghost use Rattle.workers.specs.Study.{study_of, StudyFits};
ghost use Rattle.workers.specs.Matrices.{IsMatrix, HasShape};
ghost use Rattle.workers.specs.Jobs.{jobs_of, AreFilled};
ghost use Rattle.workers.specs.Plain.{DoesJob, HasNoJob, IsUnderWay};

use crate::faults::RunFault;
use crate::jobs::{empty_places, row_of_job};
use crate::rows::RowBuffers;
use crate::study::Study;
use collector::{Collector, Matrix};
use std::alloc::{AllocError, Global};
use work_book::{Answer, Book};

/// The plain form of [`run_workers`](crate::run_workers): the matrix of a study that fits, by the calling thread alone.
///
/// `Memory` is the only error that comes.
pub fn one_thread(alloc: Global, study: &Study) -> Result<Matrix, RunFault>
    requires { StudyFits (study_of study.now) }
    ensures matrix { IfOk result (λ matrix. IsMatrix (study_of study.now) matrix) }
    ensures shape { IfOk result (λ matrix. HasShape (study_of study.now) matrix) }
    ensures memory { IfErr result (λ fault. fault ≡ RunFault.Memory) }
{
    let collector = filled(alloc, study)?;
    Ok(finished(study, collector))
}

/// The matrix of places that all have their rows.
fn finished(study: &Study, collector: Collector) -> Matrix
    requires fits { StudyFits (study_of study.now) }
    requires filled { AreFilled (study_of study.now) collector }
    ensures matrix { IsMatrix (study_of study.now) result }
    ensures shape { HasShape (study_of study.now) result }
{
    match collector.finish() {
        Ok(matrix) => matrix,
        Err(_) => unreachable!(),
    }
}

/// The places of a study, each with its row.
fn filled(alloc: Global, study: &Study) -> Result<Collector, AllocError>
    requires { StudyFits (study_of study.now) }
    ensures { IfOk result (λ collector. AreFilled (study_of study.now) collector) }
{
    let mut collector = empty_places(alloc, study)?;
    let jobs = study.networks.len() as u32 * study.origins.len() as u32;
    let mut book = Book::new(alloc, jobs, 1, 1)?;
    do_all_jobs(alloc, study, &mut book, &mut collector)?;
    Ok(collector)
}

/// Does the jobs that are left, all of them with the same buffers.
fn do_all_jobs(
    alloc: Global,
    study: &Study,
    book: &mut Book,
    collector: &mut Collector,
) -> Result<(), AllocError>
    requires fits { StudyFits (study_of study.now) }
    requires way { IsUnderWay (study_of study.now) book.old collector.old }
    ensures { OnOk result (AreFilled (study_of study.now) collector.new) }
{
    let mut buffers = RowBuffers::new(alloc);
    while do_next_job(alloc, &mut buffers, study, book, collector)? {}
    Ok(())
}

/// Draws the next job, computes its row, settles it, and offers the row where the book keeps it. False where no job
/// is left.
fn do_next_job(
    alloc: Global,
    buffers: &mut RowBuffers,
    study: &Study,
    book: &mut Book,
    collector: &mut Collector,
) -> Result<bool, AllocError>
    requires fits { StudyFits (study_of study.now) }
    requires jobs { book.old.jobs ≡ jobs_of (study_of study.now) }
    ensures done { IfOk result (λ more. more ≡ true →
        DoesJob (study_of study.now) book.old book.new collector.old collector.new) }
    ensures none { IfOk result (λ more. more ≡ false → HasNoJob book.old book.new collector.old collector.new) }
    ensures err { OnErr result (collector.new ≡ collector.old) }
{
    let Answer::Lease(lease) = book.draw(0)? else {
        return Ok(false);
    };
    let row = row_of_job(alloc, buffers, study, lease.job)?;
    if let Answer::Kept = book.settle(0, lease.number)? {
        collector.offer(row);
    }
    Ok(true)
}
