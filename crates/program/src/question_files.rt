//! The files that a question names, held in memory as long as it is answered.
ghost use Rattle.std.specs.Prelude.{◌≡◌, IfErr, IfOk, option_map};
ghost use Rattle.gtfs_tables.specs.Files as limit;
ghost use Rattle.studies.specs.Answers.{asked_files};
ghost use Rattle.studies.specs.Inputs.{inputs_of};
ghost use Rattle.program.specs.Files as files;
ghost use Rattle.program.specs.Talk as spec;

use crate::disk::Disk;
use crate::reading::own_file;
use crate::unread::Unread;
use command_line::QuestionTask;
use std::alloc::Global;
use studies::{Inputs, Question};

/// The files that a question names, each read whole; `None` where it doesn't name one.
#[derive(Drop)]
pub(crate) struct QuestionFiles {
    pub origins: Option<Vec<u8>>,
    pub opportunities: Option<Vec<u8>>,
    pub destinations: Option<Vec<u8>>,
}

/// Reads the files that a question names, which have to be there.
pub(crate) fn read_question_files<'a, D: Disk>(
    alloc: Global,
    disk: &D,
    task: &'a QuestionTask,
) -> Result<QuestionFiles, Unread<'a>>
    ensures files { IfOk result (λ found. spec.AreFound (D.finds disk.now) task.now found) }
    ensures limit { IfOk result spec.AreWithinLimit }
    ensures unread { IfErr result (λ unread.
        files.NamesUnread (D.finds disk.now) (spec.question_asks task.now) unread) }
{
    Ok(QuestionFiles {
        origins: own_file(alloc, disk, &task.origins)?,
        opportunities: own_file(alloc, disk, &task.opportunities)?,
        destinations: own_file(alloc, disk, &task.destinations)?,
    })
}

impl QuestionFiles {
    /// The question of a task whose files these are: what it doesn't name is as it was read at the start.
    pub(crate) fn question<'a>(&'a self, task: &'a QuestionTask, kept: &Inputs<'a>) -> Question<'a>
        ensures settings { result.settings.now ≡ task.now.settings }
        ensures files { asked_files (inputs_of kept.now) result ≡ spec.files_over (inputs_of kept.now) self.now }
    {
        Question {
            settings: &task.settings,
            origins: over(&self.origins, kept.origins),
            opportunities: over(&self.opportunities, kept.opportunities),
            destinations: over(&self.destinations, kept.destinations),
        }
    }
}

/// The bytes of a file, if there is one, and else those that stay.
fn over<'a>(file: &'a Option<Vec<u8>>, stays: Option<&'a [u8]>) -> Option<&'a [u8]>
    ensures { limit.bytes_of result
        ≡ spec.file_over (option_map (λ bytes. bytes.items) file.now) (limit.bytes_of stays.entry) }
{
    match file {
        Some(bytes) => Some(bytes.as_slice()),
        None => stays,
    }
}
