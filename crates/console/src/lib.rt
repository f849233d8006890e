//! Consoles: where a report goes.
//!
//! - `machine`: [`Console`], where lines are printed, and what the machine reports about itself and its folders;
//!   `memory` reads what it reports about memory ([`Memory`]).
//! - `lines`: how a line is formed and printed.
//!
//! A line has one fact. If there is no memory for a line, it is left out.
#![tactic(auto)]

mod lines;
mod machine;
mod memory;

pub use lines::{shown, shown_limit_is_as_stated, tell_count, tell_count_of, tell_line, warn};
pub use machine::Console;
pub use memory::{Memory, memory_of};
