//! The outputs of the program: bytes put out whole, and lines that tell a fault.
//!
//! - `output`: [`Output`], a writer whose broken calls contracts can name, and [`put_whole`].
//! - `telling`: [`tell`], [`tell_made`], [`tell_short`]: one line on the error stream, and the exit status.
#![tactic(auto)]

mod output;
mod telling;

pub use output::{Output, put_whole};
pub use telling::{tell, tell_made, tell_short};
