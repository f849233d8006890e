//! The calls of the command line: arguments, paths, files and lines.

use crate::outcomes::{Outcome, told};
use crate::small_studies::MONDAY;
use command_line::{
    DONE, REFUSED, ReadFault, Task, WordFault, fault_line, numbers_of, path_in, path_line,
    read_all, task_of, text_of, word_status,
};
use gtfs_tables::{FeedFault, FileName, What, read_date};
use small_feed::small_files;
use std::alloc::{AllocError, Global};
use studies::{Inputs, Settings, StudyFault};

/// A call of the command line that needs no inputs made for it.
#[derive(Clone, Copy)]
pub enum WordCall {
    FaultLine,
    NumbersOf,
    PathIn,
    PathLine,
    ReadAll,
}

/// What arguments are asked for: a study, or help, or neither.
#[derive(Clone, Copy)]
pub enum Asked {
    Study,
    Help,
    Nonsense,
    /// The text of an option of the study: `text_of`.
    Option,
}

/// The arguments of a study of one minute of the small feed.
const STUDY: [&str; 21] = [
    "ttm",
    "--feed",
    "town",
    "--date",
    "20260504",
    "--from",
    "08:00",
    "--to",
    "08:00",
    "--trips",
    "2",
    "--walk",
    "0",
    "--share",
    "50",
    "--within",
    "1800",
    "--workers",
    "1",
    "--tries",
    "1",
];

/// The trial of a call without inputs.
pub fn try_word_call(alloc: Global, call: WordCall) -> Outcome {
    Outcome::of(|| ask(alloc, call))
}

/// Whether a call gives the right value.
fn ask(alloc: Global, call: WordCall) -> Result<bool, AllocError> {
    match call {
        WordCall::FaultLine => tells_fault(alloc),
        WordCall::NumbersOf => match numbers_of(alloc, b"25,50")? {
            Some(numbers) => Ok(numbers.as_slice() == [25, 50].as_slice()),
            None => Ok(false),
        },
        WordCall::PathIn => Ok(path_in(alloc, "town", "stops.txt")?.as_str() == "town/stops.txt"),
        WordCall::PathLine => {
            let line = path_line(alloc, "x", &ReadFault::Read)?;
            Ok(line.as_slice() == b"ttm: x: read fault\n".as_slice())
        }
        WordCall::ReadAll => reads_all(alloc),
    }
}

fn tells_fault(alloc: Global) -> Result<bool, AllocError> {
    let inputs = Inputs {
        feed: small_files(),
        footpaths: None,
        origins: None,
        opportunities: None,
        destinations: None,
        scenarios: &[],
    };
    let fault = StudyFault::Feed(FeedFault {
        file: FileName::StopTimes,
        at: 5,
        what: What::BadNumber,
    });
    let line = fault_line(alloc, &fault, &inputs)?;
    Ok(line.as_slice() == b"ttm: stop_times.txt: record 5: bad number\n".as_slice())
}

fn reads_all(alloc: Global) -> Result<bool, AllocError> {
    let mut three: &[u8] = b"a,b";
    match read_all(alloc, &mut three) {
        Ok(bytes) => Ok(bytes.as_slice() == b"a,b".as_slice()),
        Err(fault) => told(fault == ReadFault::Memory),
    }
}

/// The trial of `task_of`.
pub fn try_task(alloc: Global, asked: Asked) -> Outcome {
    match words_of(alloc, asked) {
        Ok(words) => try_words(alloc, &words, asked),
        Err(_) => Outcome::Inputs,
    }
}

/// The arguments of the study; with one for help, or one that isn't the command's, last.
fn words_of(alloc: Global, asked: Asked) -> Result<Vec<String>, AllocError> {
    let mut words = Vec::with_capacity(alloc, STUDY.len() + 1)?;
    for word in STUDY {
        words.push(String::from_str(alloc, word)?)?;
    }
    match asked {
        Asked::Study | Asked::Option => (),
        Asked::Help => words.push(String::from_str(alloc, "--help")?)?,
        Asked::Nonsense => words.push(String::from_str(alloc, "--nope")?)?,
    }
    Ok(words)
}

fn try_words(alloc: Global, words: &[String], asked: Asked) -> Outcome {
    match asked {
        Asked::Option => Outcome::of(|| has_text(alloc, words)),
        _ => Outcome::of(|| asks(alloc, words, asked)),
    }
}

/// Whether `text_of` gives the text of an option.
fn has_text(alloc: Global, words: &[String]) -> Result<bool, AllocError> {
    match text_of(alloc, words, "within") {
        Ok(Some(text)) => Ok(text.as_str() == "1800"),
        Ok(None) => Ok(false),
        Err(fault) => told(matches!(fault, WordFault::Memory)),
    }
}

/// Whether the arguments are taken for what they ask.
fn asks(alloc: Global, words: &[String], asked: Asked) -> Result<bool, AllocError> {
    match task_of(alloc, words) {
        Ok(task) => {
            let is_right = is_study(&task);
            drop(task);
            Ok(is_right && matches!(asked, Asked::Study))
        }
        Err(fault) => is_refused(&fault, asked),
    }
}

/// Whether a task is that of the study's arguments.
fn is_study(task: &Task) -> bool {
    let has_no_files = task.footpaths.is_none()
        && task.origins.is_none()
        && task.opportunities.is_none()
        && task.destinations.is_none()
        && task.scenarios.is_empty();
    task.feed.as_str() == "town" && has_no_files && are_asked(&task.settings)
}

/// Whether the settings are those of the study's arguments.
fn are_asked(settings: &Settings) -> bool {
    let numbers = [
        settings.back,
        settings.ahead,
        settings.first,
        settings.minutes,
        settings.rides,
        settings.walk,
        settings.workers,
        settings.tries,
    ];
    read_date(MONDAY) == Some(settings.date)
        && numbers == [1, 1, 480, 1, 2, 0, 1, 1]
        && settings.shares.as_slice() == [50].as_slice()
        && settings.withins.as_slice() == [1_800].as_slice()
}

/// Whether arguments that are no study are told for what they are.
fn is_refused(fault: &WordFault, asked: Asked) -> Result<bool, AllocError> {
    match (fault, asked) {
        (WordFault::Memory, _) => Err(AllocError),
        (WordFault::Words(_), Asked::Help) => Ok(word_status(fault) == DONE),
        (WordFault::Words(_), Asked::Nonsense) => Ok(word_status(fault) == REFUSED),
        _ => Ok(false),
    }
}
