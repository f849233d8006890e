//! The program: arguments name files, the files and settings are a study, and its matrix goes to the standard output.
//!
//! A report, where the arguments ask for one, goes to a console, which is another way to the standard error: so what is
//! promised of the two outputs is said of every run, reported or not.
//!
//! A fault is told by one line on the standard error, and by the exit status. Nothing but the whole matrix, or the
//! help or the version that was asked for, is a success.

ghost use Rattle.std.specs.Prelude.{◌≡◌, ◌≤◌, ℕ, List, Ok, Option, [], map, string_bytes, true};
ghost use Rattle.std.specs.Io.KnownBytes.{Appends};
ghost use Rattle.std.specs.Process.{exit_status};
ghost use Rattle.clap.specs.Words.{Text};
ghost use Rattle.outputs.specs.Outputs.{after};
ghost use Rattle.studies.specs.Inputs.{AreWithinLimit};
ghost use Rattle.studies.specs.Settings.{SettingsFit};
ghost use Rattle.program.specs.Answers as spec;
ghost use Rattle.program.specs.Files.{TellsWhyUnread, files_of};

use crate::answers::{answer, answer_task};
use crate::example::{example_inputs, example_settings};
use crate::host::Host;
use crate::reading::read_files;
use crate::study_files::StudyFiles;
use crate::talk::converse;
use crate::unread::Unread;
use crate::words::collected;
use clap::Error;
use command_line::{
    DONE, NOT_MOVED, REFUSED, Task, WordFault, bad_line, explain_option, task_of, word_status,
};
use outputs::{Output, put_whole, tell, tell_short};
use reports::explain_folder;
use std::alloc::Global;
use std::io::{ErrorKind, Read};
use std::process::ExitCode;

/// What the program does: it has its arguments of its host, the standard input, which a conversation alone reads, and
/// the two outputs.
pub fn run<H: Host, I: Read, O: Output, E: Output>(
    host: &H,
    input: &mut I,
    out: &mut O,
    err: &mut E,
) -> ExitCode
    ensures success { exit_status result ≡ DONE →
        (words : List Text) × H.gives host.now (Ok words) × spec.EndsWell (H.finds host.now) words
        (I.remaining input.old) (I.remaining input.new) (O.contents out.old) (O.contents out.new) }
    ensures ended { spec.EndsRun (H.gives host.now) (H.finds host.now) (I.remaining input.old) (I.remaining input.new)
        (O.contents out.old) (after (O.contents out.new) (O.broke out.new))
        (E.contents err.old) (after (E.contents err.new) (E.broke err.new))
        (exit_status result) }
    ensures quiet { exit_status result ≡ DONE → err.new ≡ err.old }
{
    let given = match host.arguments() {
        Ok(given) => given,
        Err(error) => return tell_unread(error.kind(), err),
    };
    match collected(host.alloc(), given) {
        Ok(words) => run_words(host, &words, input, out, err),
        Err(_) => tell_short(err),
    }
}

/// Tells why the arguments can't be had: out of memory, or one of them isn't UTF-8.
fn tell_unread<E: Output>(kind: ErrorKind, err: &mut E) -> ExitCode
    ensures told { spec.TellsUnread kind (E.contents err.old) (after (E.contents err.new) (E.broke err.new))
        (exit_status result) }
    ensures no_success { 1 ≤ exit_status result }
{
    match kind {
        ErrorKind::OutOfMemory => tell_short(err),
        _ => tell(b"ttm: words that are not UTF-8\n", REFUSED, err),
    }
}

/// What the program does with its arguments: its name, and those after it.
pub(crate) fn run_words<H: Host, I: Read, O: Output, E: Output>(
    host: &H,
    words: &[String],
    input: &mut I,
    out: &mut O,
    err: &mut E,
) -> ExitCode
    ensures success { exit_status result ≡ DONE →
        spec.EndsWell (H.finds host.now) (map string_bytes words.now) (I.remaining input.old) (I.remaining input.new)
        (O.contents out.old) (O.contents out.new) }
    ensures ended { spec.Ends (H.finds host.now) (map string_bytes words.now) (I.remaining input.old)
        (I.remaining input.new) (O.contents out.old) (after (O.contents out.new) (O.broke out.new)) (E.contents err.old)
        (after (E.contents err.new) (E.broke err.new))
        (exit_status result) }
    ensures quiet { exit_status result ≡ DONE → err.new ≡ err.old }
{
    if words.len() <= 1 {
        example(host, out, err)
    } else {
        asked(host, words, input, out, err)
    }
}

/// The study that the program carries: one minute from stop A of the small feed, by at most two rides.
fn example<H: Host, O: Output, E: Output>(host: &H, out: &mut O, err: &mut E) -> ExitCode
    ensures success { exit_status result ≡ DONE → spec.IsExample (O.contents out.old) (O.contents out.new) }
    ensures ended { spec.EndsExample (O.contents out.old) (after (O.contents out.new) (O.broke out.new))
        (E.contents err.old)
        (after (E.contents err.new) (E.broke err.new))
        (exit_status result) }
    ensures quiet { exit_status result ≡ DONE → err.new ≡ err.old }
{
    let inputs = example_inputs();
    match example_settings(host.alloc()) {
        Ok(settings) => answer(host, &inputs, &settings, out, err),
        Err(_) => tell_short(err),
    }
}

/// The study that the arguments ask for.
fn asked<H: Host, I: Read, O: Output, E: Output>(
    host: &H,
    words: &[String],
    input: &mut I,
    out: &mut O,
    err: &mut E,
) -> ExitCode
    ensures success { exit_status result ≡ DONE →
        spec.Succeeds (H.finds host.now) (map string_bytes words.now) (I.remaining input.old) (I.remaining input.new)
        (O.contents out.old) (O.contents out.new) }
    ensures ended { spec.EndsWords (H.finds host.now) (map string_bytes words.now) (I.remaining input.old)
        (I.remaining input.new) (O.contents out.old) (after (O.contents out.new) (O.broke out.new)) (E.contents err.old)
        (after (E.contents err.new) (E.broke err.new))
        (exit_status result) }
    ensures quiet { exit_status result ≡ DONE → err.new ≡ err.old }
{
    match task_of(host.alloc(), words) {
        Ok(task) => {
            let mut files = StudyFiles::none(host.alloc());
            let code = read_and_answer(host, &task, &mut files, input, out, err);
            // Dropped here and not on the way out, where the prover would follow each file and each string.
            drop(files);
            drop(task);
            code
        }
        Err(fault) => {
            let code = word_status(&fault);
            match fault {
                WordFault::Words(error) => tell_words(host.alloc(), &error, code, out, err),
                WordFault::Bad(option) => {
                    let code = tell(bad_line(option), code, err);
                    explain_option(host, host.alloc(), words, option);
                    code
                }
                WordFault::Memory => tell_short(err),
            }
        }
    }
}

/// Puts out what `clap` says to arguments that ask for no study: its help or its version, or what is wrong with them.
fn tell_words<O: Output, E: Output>(
    alloc: Global,
    error: &Error,
    code: u8,
    out: &mut O,
    err: &mut E,
) -> ExitCode
    ensures help { exit_status result ≡ DONE →
        (code ≡ DONE) × ((text : List ℕ) × Appends (O.contents out.old) (O.contents out.new) text) }
    ensures ended { spec.EndsText code (O.contents out.old) (after (O.contents out.new) (O.broke out.new))
        (E.contents err.old)
        (after (E.contents err.new) (E.broke err.new)) (exit_status result) }
    ensures quiet { exit_status result ≡ DONE → err.new ≡ err.old }
{
    match format!(in alloc; "{error}") {
        Ok(text) => put_text(text.as_bytes(), code, out, err),
        Err(_) => tell_short(err),
    }
}

/// Puts out a text whose status is that of help or the version, and else tells it.
fn put_text<O: Output, E: Output>(text: &[u8], code: u8, out: &mut O, err: &mut E) -> ExitCode
    ensures help { exit_status result ≡ DONE →
        (code ≡ DONE) × Appends (O.contents out.old) (O.contents out.new) text.now }
    ensures ended { spec.IsPut text.now code (O.contents out.old) (after (O.contents out.new) (O.broke out.new))
        (E.contents err.old)
        (after (E.contents err.new) (E.broke err.new)) (exit_status result) }
    ensures quiet { exit_status result ≡ DONE → err.new ≡ err.old }
{
    if code == DONE {
        put_help(text, out, err)
    } else {
        tell(text, code, err)
    }
}

/// Puts out the help or the version. Where it can't be written that is no success.
fn put_help<O: Output, E: Output>(text: &[u8], out: &mut O, err: &mut E) -> ExitCode
    ensures help { exit_status result ≡ DONE → Appends (O.contents out.old) (O.contents out.new) text.now }
    ensures ended { spec.IsShown text.now (O.contents out.old) (after (O.contents out.new) (O.broke out.new))
        (E.contents err.old)
        (after (E.contents err.new) (E.broke err.new)) (exit_status result) }
    ensures quiet { exit_status result ≡ DONE → err.new ≡ err.old }
{
    match put_whole(text, out) {
        Ok(()) => ExitCode::from(DONE),
        Err(_) => tell(b"ttm: write fault\n", NOT_MOVED, err),
    }
}

/// Reads the files of a task, and answers its study, or the questions of its conversation.
fn read_and_answer<H: Host, I: Read, O: Output, E: Output>(
    host: &H,
    task: &Task,
    files: &mut StudyFiles,
    input: &mut I,
    out: &mut O,
    err: &mut E,
) -> ExitCode
    requires settings { SettingsFit task.now.settings }
    requires no_scenarios { files.old.scenarios.items ≡ [] }
    ensures success { exit_status result ≡ DONE →
        spec.IsDone (H.finds host.now) task.now (I.remaining input.old) (I.remaining input.new) (O.contents out.old)
        (O.contents out.new) }
    ensures ended { spec.EndsTask (H.finds host.now) task.now (I.remaining input.old) (I.remaining input.new)
        (O.contents out.old) (after (O.contents out.new) (O.broke out.new))
        (E.contents err.old) (after (E.contents err.new) (E.broke err.new))
        (exit_status result) }
    ensures quiet { exit_status result ≡ DONE → err.new ≡ err.old }
{
    match read_files(host.alloc(), host, task, files) {
        Ok(()) => answer_files(host, task, files, input, out, err),
        Err(unread) => {
            let code = unread.tell(host.alloc(), err);
            if task.report {
                explain_unread(host, task, &unread, &code, err);
            }
            code
        }
    }
}

/// Explains the folder of a feed whose files aren't all read: only if the arguments ask for a report, and after the
/// line of the file that isn't read.
fn explain_unread<H: Host, E: Output>(
    host: &H,
    task: &Task,
    _unread: &Unread<'_>,
    _code: &ExitCode,
    _err: &E,
)
    requires asked { task.now.report ≡ true }
    requires told { (before : Option (List ℕ)) × TellsWhyUnread _unread.now before
        (after (E.contents _err.now) (E.broke _err.now)) (exit_status _code.now) }
{
    explain_folder(host, host.alloc(), task.feed.as_str());
}

/// Answers the study of a task whose files are read, or the questions of its conversation.
fn answer_files<H: Host, I: Read, O: Output, E: Output>(
    host: &H,
    task: &Task,
    files: &mut StudyFiles,
    input: &mut I,
    out: &mut O,
    err: &mut E,
) -> ExitCode
    requires files { AreWithinLimit (files_of files.old) }
    requires settings { SettingsFit task.now.settings }
    ensures ended { spec.EndsFiles (H.finds host.now) (files_of files.old) task.now (I.remaining input.old)
        (I.remaining input.new) (O.contents out.old) (after (O.contents out.new) (O.broke out.new)) (E.contents err.old)
        (after (E.contents err.new) (E.broke err.new))
        (exit_status result) }
    ensures success { exit_status result ≡ DONE → spec.IsDoneOf (H.finds host.now) (files_of files.old) task.now
        (I.remaining input.old) (I.remaining input.new) (O.contents out.old) (O.contents out.new) }
    ensures quiet { exit_status result ≡ DONE → err.new ≡ err.old }
{
    if task.asks {
        converse(host, task, &files.inputs(), input, out, err)
    } else {
        answer_task(host, task, files, out, err)
    }
}
