//! What the arguments ask for, or what is wrong with them.

use std::alloc::AllocError;
use studies::Settings;

/// The options whose texts have a kind and limits, in the order in which they are looked at.
/// `Window` is `--from` with `--to`; the others are the options of these names.
#[derive(Clone, Copy, PartialEq, Eq)]
pub enum Opt {
    Date,
    Window,
    Trips,
    Walk,
    Share,
    Within,
    Workers,
    Tries,
    Back,
    Ahead,
}

/// A study that the arguments ask for: its settings, the paths of its files, and whether it is reported.
#[derive(Drop)]
pub struct Task {
    /// The folder of the feed's files.
    pub feed: String,
    pub settings: Settings,
    pub footpaths: Option<String>,
    pub origins: Option<String>,
    pub opportunities: Option<String>,
    pub destinations: Option<String>,
    /// The scenario files, in their order.
    pub scenarios: Vec<String>,
    /// Whether the standard error is to tell what was read and how far the rows are. The matrix doesn't depend on it.
    pub report: bool,
    /// Whether questions are asked of what is kept, in place of one study that is made.
    pub asks: bool,
}

/// What a question asks for: its settings, and the paths of the files that it names.
#[derive(Drop)]
pub struct QuestionTask {
    pub settings: Settings,
    pub origins: Option<String>,
    pub opportunities: Option<String>,
    pub destinations: Option<String>,
}

/// Why the arguments ask for no study.
#[derive(Drop)]
pub enum WordFault {
    /// The arguments aren't the command's, or they ask for its help or its version; the error has the text to show.
    Words(clap::Error),
    /// The arguments are the command's; this is the first option whose text isn't of its kind or within its limits.
    Bad(Opt),
    /// Out of memory.
    Memory,
}

impl From<AllocError> for WordFault {
    ghost use Rattle.std.specs.Prelude.{◌≡◌};
    ghost use Rattle.command_line.specs.declared.task.WordFault.TheVariants.{Memory};

    ghost from_gives = { λ _ fault. fault ≡ Memory };

    fn from(_: AllocError) -> WordFault {
        WordFault::Memory
    }
}
