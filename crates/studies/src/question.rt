//! Questions, and their answers by what is kept.
ghost use Rattle.std.specs.Prelude.{◌≡◌, All, IfErr, IfOk};
ghost use Rattle.studies.specs.Answers.{AreAnswers, IsQuestion, asked_files};
ghost use Rattle.studies.specs.Inputs.{inputs_of};
ghost use Rattle.studies.specs.Kept.{IsKept};
ghost use Rattle.studies.specs.Study.{IsStudyText, Tells, TellsBy};

use crate::fault::StudyFault;
use crate::inputs::Inputs;
use crate::kept::Kept;
use crate::names::names_of;
use crate::parts::Asked;
use crate::settings::Settings;
use crate::tables::read_tables;
use crate::text::text_of;
use crate::watch::Unwatched;
use std::alloc::{AllocError, Global};
use std::sync::Wait;
use std::thread::Threads;
use workers::Gate;

/// A question: its settings, and the bytes of its own files.
#[derive(Clone, Copy)]
pub struct Question<'a> {
    /// Their days and their longest walk are those of what is kept.
    pub settings: &'a Settings,
    pub origins: Option<&'a [u8]>,
    pub opportunities: Option<&'a [u8]>,
    pub destinations: Option<&'a [u8]>,
}

/// The answers to questions, in their order: each is the one that [`run_study`](crate::study::run_study) gives for the
/// kept files with the question's own, and for its settings.
///
/// So no answer depends on what else is asked, or in which order. Out of memory is the answer of one question alone,
/// where there is room for the list of answers.
pub fn answers<G: Gate + Sync, R: Threads + Wait + Sync>(
    rt: &R,
    alloc: Global,
    kept: &Kept<'_>,
    questions: &[Question<'_>],
    gate: &G,
) -> Result<Vec<Result<Vec<u8>, StudyFault>>, AllocError>
    requires kept { IsKept kept.now }
    requires questions { All (IsQuestion kept.now.settings.now) questions.now }
    ensures { IfOk result (λ answers. AreAnswers (G.decides gate.now) (G.was_told gate.now)
        (inputs_of kept.now.inputs) questions.now answers.items) }
{
    let mut answers = Vec::new(alloc);
    for question in questions {
        answers.push(answer(rt, alloc, kept, question, gate))?;
    }
    Ok(answers)
}

/// The answer to a question: the text of the matrix that the kept files and the question's own mean, or why there is
/// none.
pub fn answer<G: Gate + Sync, R: Threads + Wait + Sync>(
    rt: &R,
    alloc: Global,
    kept: &Kept<'_>,
    question: &Question<'_>,
    gate: &G,
) -> Result<Vec<u8>, StudyFault>
    requires kept { IsKept kept.now }
    requires question { IsQuestion kept.now.settings.now question.now }
    ensures text { IfOk result (λ text.
        IsStudyText (asked_files (inputs_of kept.now.inputs) question.now) question.now.settings.now text.items) }
    ensures fault { IfErr result (λ e.
        Tells e (asked_files (inputs_of kept.now.inputs) question.now) question.now.settings.now) }
    ensures run { IfErr result (λ e. TellsBy (G.decides gate.now) (G.was_told gate.now) e
        (asked_files (inputs_of kept.now.inputs) question.now) question.now.settings.now) }
{
    let inputs = inputs_with(&kept.inputs, question);
    let feed = kept.feed.as_ref();
    let tables = read_tables(alloc, &inputs, feed)?;
    let names = names_of(alloc, inputs.scenarios)?;
    let asked = Asked {
        feed,
        networks: kept.networks.as_slice(),
        names: names.as_slice(),
        settings: question.settings,
        tables: tables.as_ref(),
    };
    text_of(rt, alloc, &asked, gate, &Unwatched)
}

/// The files of the study that a question asks for.
fn inputs_with<'a>(inputs: &Inputs<'a>, question: &Question<'a>) -> Inputs<'a>
    ensures { inputs_of result ≡ asked_files (inputs_of inputs.now) question.now }
{
    Inputs {
        origins: question.origins,
        opportunities: question.opportunities,
        destinations: question.destinations,
        ..*inputs
    }
}
