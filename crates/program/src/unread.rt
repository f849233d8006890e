//! Why the files of a study aren't all read.

ghost use Rattle.std.specs.Process.{exit_status};
ghost use Rattle.std.specs.Prelude.{◌≡◌};
ghost use Rattle.command_line.specs.Lines.{line, path_rest, read_status};
ghost use Rattle.outputs.specs.Outputs.{after};
ghost use Rattle.program.specs.Files as spec;

use command_line::{ReadFault, path_line, path_status};
use outputs::{Output, tell_made, tell_short};
use std::alloc::Global;
use std::process::ExitCode;

/// Why the files of a study aren't all read: the first one that isn't, by its path, and its fault.
#[derive(Drop)]
pub(crate) enum Unread<'a> {
    /// A file in the folder of the feed.
    Feed(String, ReadFault),
    /// A file of the analyst's own, at the path that the words name.
    Own(&'a str, ReadFault),
    /// Out of memory for a path or a name.
    Memory,
}

impl Unread<'_> {
    /// Tells it.
    pub(crate) fn tell<E: Output>(&self, alloc: Global, err: &mut E) -> ExitCode
        ensures { spec.TellsWhyUnread self.now (E.contents err.old) (after (E.contents err.new) (E.broke err.new))
            (exit_status result) }
    {
        match self {
            Unread::Feed(path, fault) => tell_file(alloc, path.as_str(), fault, err),
            Unread::Own(path, fault) => tell_file(alloc, path, fault, err),
            Unread::Memory => tell_short(err),
        }
    }
}

/// Tells why a file isn't read.
fn tell_file<E: Output>(alloc: Global, path: &str, fault: &ReadFault, err: &mut E) -> ExitCode
    ensures status { exit_status result ≡ read_status fault.now }
    ensures line { spec.TellsLine (E.contents err.old) (after (E.contents err.new) (E.broke err.new))
        (line (path_rest path.now fault.now)) }
{
    tell_made(path_line(alloc, path, fault), path_status(fault), err)
}
