//! Answers of a conversation: the matrix of a question, or the line that tells why there is none.

ghost use Rattle.std.specs.Prelude.{◌≡◌, ◌≤◌, ◌+◌, ◌++◌, ℕ, List, [], Ok, IfOk, OnErr, OnOk, length, map};
ghost use Rattle.std.specs.Prelude.{string_bytes, vec_capacity};
ghost use Rattle.std.specs.Io.KnownBytes.{Appends};
ghost use Rattle.matrix_text.specs.Prefixes.{PutsPrefix};
ghost use Rattle.studies.specs.Answers.{IsQuestion, asked_files};
ghost use Rattle.command_line.specs.Lines.{line, path_rest, read_status};
ghost use Rattle.studies.specs.Inputs.{InputFiles, inputs_of};
ghost use Rattle.studies.specs.Kept.{IsKept, lasting_settings};
ghost use Rattle.studies.specs.Settings.{SettingsFit};
ghost use Rattle.program.specs.Blocks.{IsReadOf};
ghost use Rattle.program.specs.Rooms.{HasRoom, HaveRoom};
ghost use Rattle.program.specs.declared.line_room.TheConstants.{MOST_BESIDE_PATH};
ghost use Rattle.program.specs.Talk as spec;

use crate::blocks::BlockFault;
use crate::host::Host;
use crate::line_room::{line_room, path_line_in};
use crate::question_files::read_question_files;
use crate::unread::Unread;
use command_line::{
    DONE, NO_ROOM, QuestionTask, REFUSED, ReadFault, fault_line, path_status, question_line,
    question_of, question_status, status,
};
use itoa::Buffer;
use matrix_text::TextFault;
use outputs::{Output, put_whole};
use std::alloc::{AllocError, Global};
use studies::{Kept, Question, answer};
use workers::Open;

/// The answer that out of memory takes the place of.
const SHORT_REPLY: &[u8] = b"answer 3 19\nttm: out of memory\n";

/// An answer: its status and its text.
#[derive(Drop)]
pub(crate) struct Reply {
    pub status: u8,
    pub text: Vec<u8>,
}

/// The answer to a question of what is kept, by its words or why none are read.
pub(crate) fn reply_to<H: Host>(
    host: &H,
    kept: &Kept<'_>,
    words: &Result<Vec<String>, BlockFault>,
) -> Result<Reply, AllocError>
    requires kept { IsKept kept.now }
    requires settings { SettingsFit kept.now.settings.now }
    ensures { (block : List ℕ) → IsReadOf block words.now → IfOk result (λ reply. spec.IsAnswerOf (H.finds host.now)
        (inputs_of kept.now.inputs) kept.now.settings.now block reply.status reply.text.items) }
{
    match words {
        Ok(words) => reply_by_words(host, kept, words),
        Err(BlockFault::TooLong) => {
            refusal(
                Vec::from_slice(host.alloc(), b"ttm: question: too long\n"),
                REFUSED,
            )
        }
        Err(BlockFault::NotText) => {
            refusal(
                Vec::from_slice(host.alloc(), b"ttm: words that are not UTF-8\n"),
                REFUSED,
            )
        }
        Err(BlockFault::Memory) => Err(AllocError),
    }
}

/// An answer that tells why there is no matrix.
fn refusal(line: Result<Vec<u8>, AllocError>, status: u8) -> Result<Reply, AllocError>
    ensures status { IfOk result (λ reply. reply.status ≡ status) }
    ensures line { IfOk result (λ reply. line ≡ Ok reply.text) }
{
    match line {
        Ok(text) => Ok(Reply { status, text }),
        Err(fault) => Err(fault),
    }
}

/// The answer to the words of a question.
fn reply_by_words<H: Host>(host: &H, kept: &Kept<'_>, words: &[String]) -> Result<Reply, AllocError>
    requires kept { IsKept kept.now }
    requires settings { SettingsFit kept.now.settings.now }
    ensures { IfOk result (λ reply. spec.IsWordsAnswer (H.finds host.now) (inputs_of kept.now.inputs)
        kept.now.settings.now (map string_bytes words.now) reply.status reply.text.items) }
{
    match question_of(host.alloc(), kept.settings, words) {
        Ok(task) => match line_room(host.alloc(), &task) {
            Ok(room) => reply_by_files(host, kept, &task, room),
            Err(fault) => Err(fault),
        },
        Err(fault) => refusal(question_line(host.alloc(), &fault), question_status(&fault)),
    }
}

/// The answer to a question that the words ask. It can run out of memory only once all of the question's files are
/// read: the line for a file that isn't read needs no memory but `room`.
fn reply_by_files<H: Host>(
    host: &H,
    kept: &Kept<'_>,
    task: &QuestionTask,
    room: Vec<u8>,
) -> Result<Reply, AllocError>
    requires kept { IsKept kept.now }
    requires fits { SettingsFit task.now.settings }
    requires lasting { lasting_settings task.now.settings ≡ lasting_settings kept.now.settings.now }
    requires empty { room.items ≡ [] }
    requires room { HaveRoom (vec_capacity room) (spec.question_asks task.now) }
    ensures answer { IfOk result (λ reply. spec.IsTaskAnswer (H.finds host.now) (inputs_of kept.now.inputs) task.now
        reply.status reply.text.items) }
    ensures memory { OnErr result ((files : InputFiles) ×
        spec.AreFilesOf (H.finds host.now) task.now (inputs_of kept.now.inputs) files) }
{
    match read_question_files(host.alloc(), host, task) {
        Ok(files) => reply_by_study(host, kept, &files.question(task, &kept.inputs)),
        Err(unread) => Ok(unread_reply(room, &unread)),
    }
}

/// The answer if a file isn't read. Its line is written into `room`.
fn unread_reply(room: Vec<u8>, unread: &Unread<'_>) -> Reply
    requires empty { room.items ≡ [] }
    requires room { HasRoom (vec_capacity room) unread.now }
    ensures { spec.TellsUnread unread.now result.status result.text.items }
{
    match unread {
        Unread::Feed(path, fault) => path_reply(room, path.as_str(), fault),
        Unread::Own(path, fault) => path_reply(room, path, fault),
        // Ruled out by `room`: reading a question's files never gives this.
        Unread::Memory => Reply {
            status: NO_ROOM,
            text: room,
        },
    }
}

/// The answer if the file of a path isn't read.
fn path_reply(room: Vec<u8>, path: &str, fault: &ReadFault) -> Reply
    requires empty { room.items ≡ [] }
    requires space { length path.now + MOST_BESIDE_PATH ≤ vec_capacity room }
    ensures status { result.status ≡ read_status fault.now }
    ensures line { result.text.items ≡ line (path_rest path.now fault.now) }
{
    Reply {
        status: path_status(fault),
        text: path_line_in(room, path, fault),
    }
}

/// The answer of a study.
fn reply_by_study<H: Host>(
    host: &H,
    kept: &Kept<'_>,
    question: &Question<'_>,
) -> Result<Reply, AllocError>
    requires kept { IsKept kept.now }
    requires question { IsQuestion kept.now.settings.now question.now }
    ensures { IfOk result (λ reply. spec.IsStudyAnswer (asked_files (inputs_of kept.now.inputs) question.now)
        question.now.settings.now reply.status reply.text.items) }
{
    match answer(host, host.alloc(), kept, question, &Open) {
        Ok(text) => Ok(Reply { status: DONE, text }),
        Err(fault) => refusal(
            fault_line(host.alloc(), &fault, &kept.inputs),
            status(&fault),
        ),
    }
}

/// Puts out an answer, or that memory was short for it. At an error a call of the output broke, and the answer isn't
/// known to be out.
pub(crate) fn put_reply<O: Output>(
    alloc: Global,
    reply: &Result<Reply, AllocError>,
    out: &mut O,
) -> Result<(), TextFault>
    ensures ok { OnOk result ((bytes : List ℕ) × spec.IsOut reply.now bytes
        × Appends (O.contents out.old) (O.contents out.new) bytes) }
    ensures err { OnErr result ((bytes : List ℕ) × spec.IsOut reply.now bytes
        × PutsPrefix (O.contents out.old) (O.contents out.new) bytes) }
    ensures broke { OnErr result (O.broke out.new) }
{
    match reply {
        Ok(reply) => match head(alloc, reply) {
            Ok(head) => put_both(&head, &reply.text, out),
            Err(_) => put_both(SHORT_REPLY, b"", out),
        },
        Err(_) => put_both(SHORT_REPLY, b"", out),
    }
}

/// The line ahead of the text of an answer: its status, and the length of its text.
fn head(alloc: Global, reply: &Reply) -> Result<Vec<u8>, AllocError>
    ensures { IfOk result (λ head. head.items ≡ spec.head_of reply.now.status reply.now.text.items) }
{
    let mut head = Vec::from_slice(alloc, b"answer ")?;
    head.extend_from_slice(Buffer::new().format(reply.status).as_bytes())?;
    head.extend_from_slice(b" ")?;
    head.extend_from_slice(Buffer::new().format(reply.text.len()).as_bytes())?;
    head.extend_from_slice(b"\n")?;
    Ok(head)
}

/// Puts out two texts, one after the other, and flushes them.
fn put_both<O: Output>(first: &[u8], last: &[u8], out: &mut O) -> Result<(), TextFault>
    ensures ok { OnOk result (Appends (O.contents out.old) (O.contents out.new) (first.now ++ last.now)) }
    ensures err { OnErr result (PutsPrefix (O.contents out.old) (O.contents out.new) (first.now ++ last.now)) }
    ensures broke { OnErr result (O.broke out.new) }
{
    match put_whole(first, out) {
        Ok(()) => put_last(last, out),
        Err(fault) => Err(fault),
    }
}

/// Puts out a text, and flushes what is put out.
fn put_last<O: Output>(text: &[u8], out: &mut O) -> Result<(), TextFault>
    ensures ok { OnOk result (Appends (O.contents out.old) (O.contents out.new) text.now) }
    ensures err { OnErr result (PutsPrefix (O.contents out.old) (O.contents out.new) text.now) }
    ensures broke { OnErr result (O.broke out.new) }
{
    match put_whole(text, out) {
        Ok(()) => match out.hand_on() {
            Ok(()) => Ok(()),
            Err(_) => Err(TextFault::Write),
        },
        Err(fault) => Err(fault),
    }
}
