//! The command line of a study: what its arguments ask for, the bytes of a file that they name, and the lines that tell
//! a fault.
//!
//! - `options`: the commands that take the arguments, and the words of a question. `version`: what the first tells of
//!   its version. `task`: [`Task`] and its kin. `option_text`: the text of an option.
//! - `words`: [`task_of`] reads the arguments into a [`Task`], or tells why they ask for no study ([`WordFault`]);
//!   [`text_of`] is the text that they give one option. `window`: [`window_of`], the departures that two times name.
//!   `numbers`: [`numbers_of`], the numbers that a text lists.
//! - `questions`: [`question_of`] reads the words of a question, which name what differs from the task, into a
//!   [`QuestionTask`]; [`question_line`] and [`question_status`] tell why they ask for nothing.
//! - `option_lines`: [`explain_option`] tells what is allowed of an option that is refused.
//! - `paths`: the path of a file of the feed, and the name of a scenario. `files`: [`read_all`], a file read whole.
//! - `lines`: the line and the exit status of each fault. `statuses`: the statuses in numbers.
//!
//! `specs/Words` says what the arguments ask for, `specs/Questions` what a question does, `specs/Numbers` which numbers
//! a text lists, `specs/Lines` which line tells a fault.
#![tactic(auto)]

mod files;
mod lines;
mod numbers;
mod option_lines;
mod option_text;
mod options;
mod paths;
mod questions;
mod statuses;
mod task;
mod version;
mod window;
mod words;

pub use files::{ReadFault, read_all};
pub use lines::{bad_line, fault_line, path_line, path_status, status};
pub use numbers::{MOST_NUMBERS, lists_are_of_shares_or_limits, numbers_of};
pub use option_lines::explain_option;
pub use paths::{path_in, scenario_of};
pub use questions::{question_line, question_of, question_status};
pub use statuses::{DONE, NO_ROOM, NOT_MOVED, REFUSED, UNFINISHED, statuses_are_as_stated};
pub use task::{Opt, QuestionTask, Task, WordFault};
pub use version::VERSION;
pub use window::window_of;
pub use words::{task_of, text_of, word_status};
