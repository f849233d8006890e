//! Telling a fault: one line on the error stream, and the exit status.

ghost use Rattle.std.specs.Prelude.{◌≡◌, IfErr, IfOk};
ghost use Rattle.std.specs.Process.{exit_status};
ghost use Rattle.command_line.specs.Lines as spec;
ghost use Rattle.outputs.specs.Outputs.{IsTold, after};

use crate::output::{Output, put_whole};
use command_line::NO_ROOM;
use std::alloc::AllocError;
use std::process::ExitCode;

/// The line of *out of memory*, which takes none.
const NO_MEMORY: &[u8] = b"ttm: out of memory\n";

/// Tells *out of memory*: the whole line, if no call of the output breaks.
pub fn tell_short<E: Output>(err: &mut E) -> ExitCode
    ensures status { exit_status result ≡ NO_ROOM }
    ensures line { IsTold (E.contents err.old) (after (E.contents err.new) (E.broke err.new))
        (spec.line spec.no_memory) }
{
    tell(NO_MEMORY, NO_ROOM, err)
}

/// Tells by a line, or by *out of memory* where there was none for the line: all of it, if no call of the output
/// breaks. The status stays.
pub fn tell_made<E: Output>(line: Result<Vec<u8>, AllocError>, status: u8, err: &mut E) -> ExitCode
    ensures status { exit_status result ≡ status }
    ensures line { IfOk line (λ made. IsTold (E.contents err.old) (after (E.contents err.new) (E.broke err.new))
        made.items) }
    ensures short { IfErr line (λ _. IsTold (E.contents err.old) (after (E.contents err.new) (E.broke err.new))
        (spec.line spec.no_memory)) }
{
    match line {
        Ok(line) => tell(&line, status, err),
        Err(_) => tell(NO_MEMORY, status, err),
    }
}

/// Tells by a line: all of it, if no call of the output breaks.
pub fn tell<E: Output>(line: &[u8], status: u8, err: &mut E) -> ExitCode
    ensures status { exit_status result ≡ status }
    ensures line { IsTold (E.contents err.old) (after (E.contents err.new) (E.broke err.new)) line.now }
{
    let _ = put_whole(line, err);
    ExitCode::from(status)
}
