//! Trials of the public calls of `studies` and `command_line` that allocate, for the program `growth_trials`.
//!
//! - `outcomes`: the outcome of a trial, also of those of `growth_trials`.
//! - `whole_studies`: `run_study`, its halves `ready_study` and `compute_study`, and `minute_line`.
//! - `questions`: `keep`, `answer` and `answers`.
//! - `words`: the calls of the command line. `question_words`: those of a question's words.
//! - `small_studies`: the files and settings that several trials share.
#![tactic(auto)]

mod outcomes;
mod question_words;
mod questions;
mod small_studies;
mod whole_studies;
mod words;

pub use outcomes::{Outcome, told};
pub use question_words::{QuestionCall, try_question_call};
pub use questions::{KeptCall, try_kept_call};
pub use small_studies::{FIVE_SHARES, ONE_SHARE, StudyCase, TWO_DESTINATIONS};
pub use whole_studies::{Half, try_half, try_minute};
pub use words::{Asked, WordCall, try_task, try_word_call};
