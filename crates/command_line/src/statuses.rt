//! The exit statuses of the program.

ghost use Rattle.std.specs.Prelude.{◌≡◌};
ghost use Rattle.command_line.specs.declared.statuses.TheConstants as status;

/// The whole matrix is out, or the help or the version that was asked for.
pub const DONE: u8 = 0;

/// Refused input, or arguments that aren't the command's.
pub const REFUSED: u8 = 2;

/// Out of memory, or no thread.
pub const NO_ROOM: u8 = 3;

/// Work that wasn't finished.
pub const UNFINISHED: u8 = 4;

/// A read or a write that failed.
pub const NOT_MOVED: u8 = 5;

/// A law: the exit statuses in numbers.
pub fn statuses_are_as_stated()
    ensures done { status.DONE ≡ 0 }
    ensures refused { status.REFUSED ≡ 2 }
    ensures no_room { status.NO_ROOM ≡ 3 }
    ensures unfinished { status.UNFINISHED ≡ 4 }
    ensures not_moved { status.NOT_MOVED ≡ 5 }
{}
