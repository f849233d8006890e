//! The calls of questions: `keep` of the small feed's files, and `answer` and `answers` of what is kept.
ghost use Rattle.std.specs.Prelude.{◌≡◌};
ghost use Rattle.studies.specs.Answers.{IsQuestion};
ghost use Rattle.studies.specs.Inputs.{AreWithinLimit, inputs_of as files_in};
ghost use Rattle.studies.specs.Kept.{IsKept};
ghost use Rattle.studies.specs.Settings.{SettingsFit};

use crate::outcomes::{Outcome, told};
use crate::small_studies::{StudyCase, inputs_of, is_memory, scenarios, settings};
use gtfs_tables::file_fits;
use small_feed::FROM_A;
use std::alloc::{AllocError, Global};
use std::sync::Wait;
use std::thread::Threads;
use studies::{
    Inputs, Kept, NamedFile, Question, Settings, StudyFault, Unwatched, answer, answers, keep,
};
use workers::Open;

/// A call of what is kept between questions.
#[derive(Clone, Copy)]
pub enum KeptCall {
    Keep,
    Answer,
    Answers,
}

/// The trial of a call.
pub fn try_kept_call<R: Threads + Wait + Sync>(
    rt: &R,
    alloc: Global,
    case: StudyCase,
    call: KeptCall,
) -> Outcome {
    match scenarios(alloc) {
        Ok(scenarios) => try_scenarios(rt, alloc, case, call, &scenarios),
        Err(_) => Outcome::Inputs,
    }
}

fn try_scenarios<R: Threads + Wait + Sync>(
    rt: &R,
    alloc: Global,
    case: StudyCase,
    call: KeptCall,
    scenarios: &[NamedFile],
) -> Outcome {
    let inputs = inputs_of(case, scenarios);
    match settings(alloc, case) {
        Some(settings) if inputs.fits() && settings.fits() => {
            try_inputs(rt, alloc, &inputs, &settings, case.text, call)
        }
        Some(_) => Outcome::Wrong,
        None => Outcome::Inputs,
    }
}

fn try_inputs<R: Threads + Wait + Sync>(
    rt: &R,
    alloc: Global,
    inputs: &Inputs<'_>,
    settings: &Settings,
    text: &[u8],
    call: KeptCall,
) -> Outcome
    requires files { AreWithinLimit (files_in inputs.now) }
    requires settings { SettingsFit settings.now }
{
    match call {
        KeptCall::Keep => match keeps(alloc, inputs, settings) {
            Ok(is_right) => Outcome::at_once(is_right),
            Err(_) => Outcome::again(keeps(alloc, inputs, settings)),
        },
        KeptCall::Answer | KeptCall::Answers => match keep(alloc, inputs, settings, &Unwatched) {
            Ok(kept) => try_questions(rt, alloc, &kept, settings, text, call),
            Err(_) => Outcome::Inputs,
        },
    }
}

/// Whether the networks of the base and of the scenario are kept, with both trips of the feed.
fn keeps(alloc: Global, inputs: &Inputs<'_>, settings: &Settings) -> Result<bool, AllocError>
    requires files { AreWithinLimit (files_in inputs.now) }
    requires settings { SettingsFit settings.now }
{
    match keep(alloc, inputs, settings, &Unwatched) {
        Ok(kept) => {
            let is_right = kept.networks.len() == 2 && kept.feed.trip_count() == 2;
            drop(kept);
            Ok(is_right)
        }
        Err(fault) => told(is_memory(fault)),
    }
}

/// The question of the study itself, asked once or twice.
fn try_questions<R: Threads + Wait + Sync>(
    rt: &R,
    alloc: Global,
    kept: &Kept<'_>,
    settings: &Settings,
    text: &[u8],
    call: KeptCall,
) -> Outcome
    requires kept { IsKept kept.now }
    requires settings { SettingsFit settings.now }
    requires same { kept.now.settings.now ≡ settings.now }
{
    if !file_fits(Some(FROM_A)) {
        return Outcome::Wrong;
    }
    let question = Question {
        settings,
        origins: Some(FROM_A),
        opportunities: None,
        destinations: None,
    };
    match asks(rt, alloc, kept, &question, text, call) {
        Ok(is_right) => Outcome::at_once(is_right),
        Err(_) => Outcome::again(asks(rt, alloc, kept, &question, text, call)),
    }
}

/// Whether a question has this text as its answer, or as both of its answers.
fn asks<R: Threads + Wait + Sync>(
    rt: &R,
    alloc: Global,
    kept: &Kept<'_>,
    question: &Question<'_>,
    text: &[u8],
    call: KeptCall,
) -> Result<bool, AllocError>
    requires kept { IsKept kept.now }
    requires question { IsQuestion kept.now.settings.now question.now }
{
    match call {
        KeptCall::Answers => {
            let [first, second] = [*question, *question];
            match answers(rt, alloc, kept, &[first, second], &Open)?.as_slice() {
                [first, second] => Ok(is_text(first, text)? && is_text(second, text)?),
                _ => Ok(false),
            }
        }
        _ => is_text(&answer(rt, alloc, kept, question, &Open), text),
    }
}

/// Whether an answer is this text.
fn is_text(answer: &Result<Vec<u8>, StudyFault>, text: &[u8]) -> Result<bool, AllocError> {
    match answer {
        Ok(made) => Ok(made.as_slice() == text),
        Err(fault) => told(is_memory(*fault)),
    }
}
