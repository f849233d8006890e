//! A conversation: what a study's files give is kept, and questions of it are answered one after another.
//!
//! A question is read to its end, its answer is put out and flushed, and then the next one is read. No answer depends
//! on what was asked before, and a fault of one question changes nothing for the next.

ghost use Rattle.std.specs.Prelude.{◌≡◌, IfErr, IfOk, OnOk};
ghost use Rattle.std.specs.Process.{exit_status};
ghost use Rattle.outputs.specs.Outputs.{after};
ghost use Rattle.studies.specs.Inputs.{AreWithinLimit, inputs_of};
ghost use Rattle.studies.specs.Kept.{IsKept};
ghost use Rattle.studies.specs.Settings.{SettingsFit};
ghost use Rattle.studies.specs.Study.{Tells};
ghost use Rattle.program.specs.Answers as answers;
ghost use Rattle.program.specs.Talk as spec;

use crate::answers::{report_refused, tell_why};
use crate::blocks::next_block;
use crate::host::Host;
use crate::replies::{Reply, put_reply, reply_to};
use command_line::{DONE, NOT_MOVED, Task};
use console::{Console, tell_line};
use outputs::{Output, tell};
use reports::Report;
use std::alloc::{AllocError, Global};
use std::io::Read;
use std::process::ExitCode;
use studies::{Inputs, Kept, StudyFault, Unwatched, keep};

/// Why a conversation ended before its input did.
#[derive(Clone, Copy, PartialEq, Eq)]
pub(crate) enum TalkFault {
    /// A read of the input failed.
    Read,
    /// A call of the output broke, and an answer may not be out.
    Write,
}

/// Keeps what the files of a task give, and answers the questions of the input; or tells why nothing can be kept, as a
/// run does. What is kept is reported, and so is each question, if the task says so.
pub(crate) fn converse<'a, H: Host, I: Read, O: Output, E: Output>(
    host: &'a H,
    task: &'a Task,
    inputs: &Inputs<'a>,
    input: &mut I,
    out: &mut O,
    err: &mut E,
) -> ExitCode
    requires files { AreWithinLimit (inputs_of inputs.now) }
    requires settings { SettingsFit task.now.settings }
    ensures ended { answers.EndsConversation (H.finds host.now) (inputs_of inputs.now) task.now.settings
        (I.remaining input.old) (I.remaining input.new) (O.contents out.old)
        (after (O.contents out.new) (O.broke out.new)) (E.contents err.old)
        (after (E.contents err.new) (E.broke err.new)) (exit_status result) }
    ensures success { exit_status result ≡ DONE → spec.IsWhole (H.finds host.now) (inputs_of inputs.now)
        task.now.settings (I.remaining input.old) (I.remaining input.new) (O.contents out.old) (O.contents out.new) }
    ensures quiet { exit_status result ≡ DONE → err.new ≡ err.old }
{
    match kept_of(host, task, inputs) {
        Ok(kept) => end(talk(host, &kept, task.report, input, out), err),
        Err(fault) => {
            let code = tell_why(host.alloc(), &fault, inputs, err);
            if task.report {
                let report = Report::new(host.alloc(), host, inputs);
                report_refused(&report, task, &fault, inputs, &code, err);
            }
            code
        }
    }
}

/// What is kept of the files of a task. It is reported, if the task says so.
fn kept_of<'a, H: Host>(
    host: &'a H,
    task: &'a Task,
    inputs: &Inputs<'a>,
) -> Result<Kept<'a>, StudyFault>
    requires files { AreWithinLimit (inputs_of inputs.now) }
    requires settings { SettingsFit task.now.settings }
    ensures kept { IfOk result (λ kept. IsKept kept) }
    ensures files { IfOk result (λ kept. inputs_of kept.inputs ≡ inputs_of inputs.now) }
    ensures settings { IfOk result (λ kept. kept.settings.now ≡ task.now.settings) }
    ensures fault { IfErr result (λ fault. Tells fault (inputs_of inputs.now) task.now.settings) }
{
    if task.report {
        let report = Report::new(host.alloc(), host, inputs);
        keep(host.alloc(), inputs, &task.settings, &report)
    } else {
        keep(host.alloc(), inputs, &task.settings, &Unwatched)
    }
}

/// Tells why a conversation ended before its input did, if it did.
fn end<E: Output>(ended: Result<(), TalkFault>, err: &mut E) -> ExitCode
    ensures ended { spec.IsEnd ended (E.contents err.old) (after (E.contents err.new) (E.broke err.new))
        (exit_status result) }
    ensures quiet { exit_status result ≡ DONE → err.new ≡ err.old }
{
    match ended {
        Ok(()) => ExitCode::from(DONE),
        Err(TalkFault::Read) => tell(b"ttm: standard input: read fault\n", NOT_MOVED, err),
        Err(TalkFault::Write) => tell(b"ttm: write fault\n", NOT_MOVED, err),
    }
}

/// Answers the questions of the input, to its end.
fn talk<H: Host, I: Read, O: Output>(
    host: &H,
    kept: &Kept<'_>,
    is_told: bool,
    input: &mut I,
    out: &mut O,
) -> Result<(), TalkFault>
    requires kept { IsKept kept.now }
    requires settings { SettingsFit kept.now.settings.now }
    ensures whole { OnOk result (spec.IsWhole (H.finds host.now) (inputs_of kept.now.inputs) kept.now.settings.now
        (I.remaining input.old) (I.remaining input.new) (O.contents out.old) (O.contents out.new)) }
    ensures fault { IfErr result (λ fault. spec.IsTalk (H.finds host.now) (inputs_of kept.now.inputs)
        kept.now.settings.now (I.remaining input.old) (I.remaining input.new) (O.contents out.old)
        (after (O.contents out.new) (O.broke out.new)) fault) }
{
    for number in 1..u64::MAX {
        let told = if is_told { Some(number) } else { None };
        let more = match turn(host, kept, told, input, out) {
            Ok(more) => more,
            Err(fault) => return Err(fault),
        };
        if !more {
            return Ok(());
        }
    }
    Err(TalkFault::Read)
}

/// Reads one question, if there is one, and puts its answer out. Whether there may be another one.
fn turn<H: Host, I: Read, O: Output>(
    host: &H,
    kept: &Kept<'_>,
    told: Option<u64>,
    input: &mut I,
    out: &mut O,
) -> Result<bool, TalkFault>
    requires kept { IsKept kept.now }
    requires settings { SettingsFit kept.now.settings.now }
    ensures step { IfOk result (λ more. spec.IsStep (H.finds host.now) (inputs_of kept.now.inputs)
        kept.now.settings.now (I.remaining input.old) (I.remaining input.new) (O.contents out.old) (O.contents out.new)
        more) }
    ensures stop { IfErr result (λ fault. spec.IsStop (H.finds host.now) (inputs_of kept.now.inputs)
        kept.now.settings.now (I.remaining input.old) (I.remaining input.new) (O.contents out.old)
        (after (O.contents out.new) (O.broke out.new)) fault) }
{
    let block = match next_block(host.alloc(), input) {
        Ok(Some(block)) => block,
        Ok(None) => return Ok(false),
        Err(_) => return Err(TalkFault::Read),
    };
    let reply = reply_to(host, kept, &block.words);
    if put_reply(host.alloc(), &reply, out).is_err() {
        return Err(TalkFault::Write);
    }
    tell_question(host, host.alloc(), told, &reply);
    Ok(block.is_closed)
}

/// Tells on the console that a question is answered, if it has a number.
fn tell_question<C: Console>(
    console: &C,
    alloc: Global,
    told: Option<u64>,
    reply: &Result<Reply, AllocError>,
) {
    let Some(number) = told else {
        return;
    };
    if let Ok(reply) = reply {
        tell_line(console, report_line(alloc, number, reply));
    } else {
        console.tell(b"ttm: question: out of memory\n");
    }
}

/// The line of a question that is answered.
fn report_line(alloc: Global, number: u64, reply: &Reply) -> Result<String, AllocError> {
    let status = reply.status;
    let length = reply.text.len();
    format!(in alloc; "ttm: question {number}: status {status}, {length} bytes\n")
}
