//! Room for the line of a question's file that isn't read.
//!
//! It is allocated before the files are read, and the line needs no other memory. So a file that is too long is never
//! reported as *out of memory*.

ghost use Rattle.std.specs.Prelude.{◌≡◌, ◌≤◌, ◌+◌, ◌++◌, [], IfOk, codes, length, option_map, string_bytes};
ghost use Rattle.std.specs.Prelude.{vec_capacity, vec_len};
ghost use Rattle.command_line.specs.Lines.{line, path_rest};
ghost use Rattle.program.specs.Rooms as spec;
ghost use Rattle.program.specs.Talk.{question_asks};

use command_line::{QuestionTask, ReadFault};
use std::alloc::{AllocError, Global};

/// The most bytes of such a line without its path: `ttm: `, a colon and a space, the words, and LF.
pub(crate) const MOST_BESIDE_PATH: usize = 32;

/// Allocates room for the line of any file that a question names.
pub(crate) fn line_room(alloc: Global, task: &QuestionTask) -> Result<Vec<u8>, AllocError>
    ensures empty { IfOk result (λ room. room.items ≡ []) }
    ensures room { IfOk result (λ room. spec.HaveRoom (vec_capacity room) (question_asks task.now)) }
{
    let origins = path_length(&task.origins);
    let opportunities = path_length(&task.opportunities);
    let destinations = path_length(&task.destinations);
    let longest = origins.max(opportunities).max(destinations);
    Vec::with_capacity(alloc, longest + MOST_BESIDE_PATH)
}

/// The length of a path in bytes, or 0 without a path.
fn path_length(path: &Option<String>) -> usize
    ensures length { spec.IsLengthOf result (option_map string_bytes path.now) }
    ensures below { result ≤ 9223372036854775807 }
{
    match path {
        Some(path) => path.len(),
        None => 0,
    }
}

/// The line that says why a file isn't read, in the room allocated for it.
pub(crate) fn path_line_in(mut room: Vec<u8>, path: &str, fault: &ReadFault) -> Vec<u8>
    requires empty { room.items ≡ [] }
    requires space { length path.now + MOST_BESIDE_PATH ≤ vec_capacity room }
    ensures { result.items ≡ line (path_rest path.now fault.now) }
{
    add(&mut room, b"ttm: ");
    add_rest(&mut room, path, fault);
    add(&mut room, b"\n");
    room
}

/// Appends what is wrong with a file.
fn add_rest(room: &mut Vec<u8>, path: &str, fault: &ReadFault)
    requires space { vec_len room.old + length path.now + 16 ≤ vec_capacity room.old }
    ensures rest { room.new.items ≡ room.old.items ++ path_rest path.now fault.now }
    ensures space { vec_len room.new + 1 ≤ vec_capacity room.new }
{
    match fault {
        ReadFault::Memory => add(room, b"out of memory"),
        ReadFault::Read => add_named(room, path, b"read fault"),
        ReadFault::TooLong => add_named(room, path, b"too long"),
    }
}

/// Appends what is wrong with the file of a path.
fn add_named(room: &mut Vec<u8>, path: &str, words: &[u8])
    requires space { vec_len room.old + (length path.now + (2 + length words.now)) ≤ vec_capacity room.old }
    ensures text { room.new.items ≡ room.old.items ++ (path.now ++ codes ": " ++ words.now) }
    ensures len { vec_len room.new ≡ vec_len room.old + (length path.now + (2 + length words.now)) }
    ensures space { vec_capacity room.old ≤ vec_capacity room.new }
{
    add(room, path.as_bytes());
    add(room, b": ");
    add(room, words);
}

/// Appends bytes for which there is room.
fn add(room: &mut Vec<u8>, bytes: &[u8])
    requires { vec_len room.old + length bytes.now ≤ vec_capacity room.old }
    ensures items { room.new.items ≡ room.old.items ++ bytes.now }
    ensures len { vec_len room.new ≡ vec_len room.old + length bytes.now }
    ensures space { vec_capacity room.old ≤ vec_capacity room.new }
{
    match room.extend_from_slice(bytes) {
        Ok(()) => {}
        // There is room, so this can't happen.
        Err(_) => {}
    }
}
