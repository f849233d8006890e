//! The calls of a question's words: `question_of` and `question_line`.
ghost use Rattle.studies.specs.Settings.{SettingsFit};

use crate::outcomes::{Outcome, told};
use crate::small_studies::{ONE_SHARE, settings};
use command_line::{QuestionTask, WordFault, question_line, question_of};
use std::alloc::{AllocError, Global};
use studies::Settings;

/// A call of the words of a question.
#[derive(Clone, Copy)]
pub enum QuestionCall {
    QuestionOf,
    QuestionLine,
}

/// The trial of a call.
pub fn try_question_call(alloc: Global, call: QuestionCall) -> Outcome {
    match settings(alloc, ONE_SHARE) {
        Some(settings) if settings.fits() => try_settings(alloc, &settings, call),
        Some(_) => Outcome::Wrong,
        None => Outcome::Inputs,
    }
}

fn try_settings(alloc: Global, base: &Settings, call: QuestionCall) -> Outcome
    requires { SettingsFit base.now }
{
    let made = match call {
        QuestionCall::QuestionOf => words_of(alloc, ["--from", "07:58", "--share", "25,50"]),
        QuestionCall::QuestionLine => words_of(alloc, ["--from", "07:58", "--nope", "25,50"]),
    };
    match made {
        Ok(words) => match call {
            QuestionCall::QuestionOf => try_question(alloc, base, &words),
            QuestionCall::QuestionLine => try_line(alloc, base, &words),
        },
        Err(_) => Outcome::Inputs,
    }
}

fn words_of(alloc: Global, texts: [&str; 4]) -> Result<Vec<String>, AllocError> {
    let mut words = Vec::with_capacity(alloc, 4)?;
    for text in texts {
        words.push(String::from_str(alloc, text)?)?;
    }
    Ok(words)
}

fn try_question(alloc: Global, base: &Settings, words: &[String]) -> Outcome
    requires { SettingsFit base.now }
{
    match asks(alloc, base, words) {
        Ok(is_right) => Outcome::at_once(is_right),
        Err(_) => Outcome::again(asks(alloc, base, words)),
    }
}

/// Whether the words ask for other departures and shares, and for nothing else.
fn asks(alloc: Global, base: &Settings, words: &[String]) -> Result<bool, AllocError>
    requires { SettingsFit base.now }
{
    match question_of(alloc, base, words) {
        Ok(task) => {
            let is_right = is_asked(&task);
            drop(task);
            Ok(is_right)
        }
        Err(fault) => told(matches!(fault, WordFault::Memory)),
    }
}

/// Whether a question has three minutes from 07:58 and the shares 25 and 50, and all else of the settings.
fn is_asked(task: &QuestionTask) -> bool {
    let settings = &task.settings;
    let numbers = [
        settings.first,
        settings.minutes,
        settings.rides,
        settings.walk,
    ];
    task.origins.is_none()
        && task.opportunities.is_none()
        && task.destinations.is_none()
        && numbers == [478, 3, 2, 0]
        && settings.shares.as_slice() == [25, 50].as_slice()
        && settings.withins.as_slice() == [1_800].as_slice()
}

/// The trial of the line for words that ask for nothing.
fn try_line(alloc: Global, base: &Settings, words: &[String]) -> Outcome
    requires { SettingsFit base.now }
{
    match question_of(alloc, base, words) {
        Err(WordFault::Memory) => Outcome::Inputs,
        Err(fault) => try_fault(alloc, &fault),
        Ok(_) => Outcome::Wrong,
    }
}

fn try_fault(alloc: Global, fault: &WordFault) -> Outcome {
    Outcome::of(|| tells(alloc, fault))
}

/// Whether a fault has its line.
fn tells(alloc: Global, fault: &WordFault) -> Result<bool, AllocError> {
    let line = question_line(alloc, fault)?;
    Ok(line.as_slice() == b"error: unexpected argument '--nope' found\n".as_slice())
}
