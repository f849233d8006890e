//! What is put out and told of a study: its whole matrix, or why there is none; and beside it the report, where one is
//! asked for.
//!
//! A report is told on a console, and is neither of the two outputs. What is put out, what is told and the exit status
//! are promised in the same words with a report and without. So is why the workers gave no matrix: the program's gates
//! let every lease be worked at.

ghost use Rattle.std.specs.Prelude.{◌≡◌, ◌≤◌, ℕ, IfErr, IfOk, List, OnErr, OnOk, Option, true};
ghost use Rattle.std.specs.Io.KnownBytes.{Appends};
ghost use Rattle.std.specs.Process.{exit_status};
ghost use Rattle.outputs.specs.Outputs.{IsLost, after};
ghost use Rattle.studies.specs.Inputs.{AreWithinLimit, InputFiles, inputs_of};
ghost use Rattle.studies.specs.Ready.{IsReady};
ghost use Rattle.studies.specs.Settings.{SettingsFit};
ghost use Rattle.studies.specs.Study.{IsStudyText, TellsBy};
ghost use Rattle.studies.specs.Watched.{SawFault, listed};
ghost use Rattle.program.specs.Answers as spec;
ghost use Rattle.program.specs.Files.{AreFreed, files_of};
ghost use Rattle.program.specs.Gates.{told_anything, works_at_each};

use crate::host::Host;
use crate::study_files::StudyFiles;
use command_line::{DONE, Task, fault_line, status};
use matrix_text::TextFault;
use outputs::{Output, put_whole, tell_made};
use reports::Report;
use std::alloc::Global;
use std::process::ExitCode;
use studies::{
    Inputs, ReadyStudy, Settings, StudyFault, Unwatched, Watch, compute_study, ready_study,
    run_study,
};
use work_book::{Lease, Settled};
use workers::{Gate, Open, Verdict};

/// The gate of a run with a report. It decides as [`Open`] does, and reports each row that is kept.
#[derive_where(Clone, Copy)]
struct ReportGate<'a, 'b, H> {
    report: &'b Report<'a, H>,
}

impl<'a, 'b, H: Host> Gate for ReportGate<'a, 'b, H> {
    ghost use Rattle.workers.specs.declared.gates.Verdict.TheVariants.{Work};

    ghost decides = { λ _ _ verdict. verdict ≡ Work };

    fn before(&self, lease: &Lease) -> Verdict {
        Open.before(lease)
    }

    fn after(&self, lease: &Lease, settled: Settled) {
        self.report.after(lease, settled);
    }
}

/// Puts out the matrix of a task whose files are read, or tells why there is none; and reports it, if the task says so.
/// The matrix is the same with a report and without, and no promise of it or of the status asks whether there is one.
///
/// Of the files the scenarios' alone are left where the rows were computed.
pub(crate) fn answer_task<H: Host, O: Output, E: Output>(
    host: &H,
    task: &Task,
    files: &mut StudyFiles,
    out: &mut O,
    err: &mut E,
) -> ExitCode
    requires files { AreWithinLimit (files_of files.old) }
    requires settings { SettingsFit task.now.settings }
    ensures answered { spec.IsAnswered (files_of files.old) task.now.settings (O.contents out.old)
        (after (O.contents out.new) (O.broke out.new))
        (E.contents err.old) (after (E.contents err.new) (E.broke err.new)) (exit_status result) }
    ensures success { exit_status result ≡ DONE →
        spec.IsPrinted (files_of files.old) task.now.settings (O.contents out.old) (O.contents out.new) }
    ensures quiet { exit_status result ≡ DONE → err.new ≡ err.old }
{
    if task.report {
        return answer_and_report(host, task, files, out, err);
    }
    match put_study(host, files, &task.settings, &Open, &Unwatched, out) {
        Ok(()) => ExitCode::from(DONE),
        Err(fault) => tell_why(host.alloc(), &fault, &files.inputs(), err),
    }
}

/// The same, with a report. Its last lines come after the matrix is out or the line of a fault is told.
fn answer_and_report<H: Host, O: Output, E: Output>(
    host: &H,
    task: &Task,
    files: &mut StudyFiles,
    out: &mut O,
    err: &mut E,
) -> ExitCode
    requires asked { task.now.report ≡ true }
    requires files { AreWithinLimit (files_of files.old) }
    requires settings { SettingsFit task.now.settings }
    ensures answered { spec.IsAnswered (files_of files.old) task.now.settings (O.contents out.old)
        (after (O.contents out.new) (O.broke out.new))
        (E.contents err.old) (after (E.contents err.new) (E.broke err.new)) (exit_status result) }
    ensures success { exit_status result ≡ DONE →
        spec.IsPrinted (files_of files.old) task.now.settings (O.contents out.old) (O.contents out.new) }
    ensures quiet { exit_status result ≡ DONE → err.new ≡ err.old }
{
    let report = Report::new(host.alloc(), host, &files.inputs());
    let gate = ReportGate { report: &report };
    match put_study(host, files, &task.settings, &gate, &report, out) {
        Ok(()) => {
            report.ended();
            ExitCode::from(DONE)
        }
        Err(fault) => {
            let inputs = files.inputs();
            let code = tell_why(host.alloc(), &fault, &inputs, err);
            report_refused(&report, task, &fault, &inputs, &code, err);
            code
        }
    }
}

/// Explains an error: only if the arguments ask for a report, and after its line.
pub(crate) fn report_refused<H: Host, E: Output>(
    report: &Report<'_, H>,
    task: &Task,
    fault: &StudyFault,
    inputs: &Inputs<'_>,
    _code: &ExitCode,
    _err: &E,
)
    requires asked { task.now.report ≡ true }
    requires told { (before : Option (List ℕ)) × spec.TellsFault fault.now (inputs_of inputs.now) before
        (after (E.contents _err.now) (E.broke _err.now)) (exit_status _code.now) }
{
    report.refused(fault, inputs, task.feed.as_str());
}

/// Puts out the matrix of the study of these files. At an error it isn't out whole. If the workers gave no matrix, the
/// error says why, by what this gate may decide, and it is the one that the watch was told.
///
/// The rows need the files no more: once the study is ready, the bytes of all but the scenarios' are freed.
fn put_study<H: Host, G: Gate + Sync, W: Watch, O: Output>(
    host: &H,
    files: &mut StudyFiles,
    settings: &Settings,
    gate: &G,
    watch: &W,
    out: &mut O,
) -> Result<(), StudyFault>
    requires files { AreWithinLimit (files_of files.old) }
    requires settings { SettingsFit settings.now }
    ensures printed { OnOk result (spec.IsPrinted (files_of files.old) settings.now (O.contents out.old)
        (O.contents out.new)) }
    ensures why { IfErr result (λ fault. spec.IsWhy (G.decides gate.now) (G.was_told gate.now) fault
        (files_of files.old) settings.now (O.contents out.old) (after (O.contents out.new) (O.broke out.new))) }
    ensures told_fault { IfErr result (λ fault.
        SawFault (W.saw watch.now) fault (files_of files.old) settings.now) }
    ensures scenarios { files.new.scenarios.items ≡ files.old.scenarios.items }
{
    let study = match ready_study(host.alloc(), &files.inputs(), settings, watch) {
        Ok(study) => study,
        Err(fault) => return Err(fault),
    };
    files.free();
    match compute_freed(host, files, &study, settings, gate, watch) {
        Ok(text) => put_text(&text, out),
        Err(fault) => Err(fault),
    }
}

/// The text of a study that is ready: only once the bytes of its files are freed, so that the rows can have the memory.
fn compute_freed<H: Host, G: Gate + Sync, W: Watch>(
    host: &H,
    _files: &StudyFiles,
    study: &ReadyStudy,
    settings: &Settings,
    gate: &G,
    watch: &W,
) -> Result<Vec<u8>, StudyFault>
    requires freed { AreFreed _files.now }
    requires settings { SettingsFit settings.now }
    requires ready { (inputs : InputFiles) × IsReady inputs settings.now study.now }
    requires listed { W.saw watch.now listed }
    ensures text { IfOk result (λ text. (inputs : InputFiles) → IsReady inputs settings.now study.now →
        IsStudyText inputs settings.now text.items) }
    ensures told_fault { IfErr result (λ e. (inputs : InputFiles) → IsReady inputs settings.now study.now →
        SawFault (W.saw watch.now) e inputs settings.now) }
    ensures run { IfErr result (λ e. (inputs : InputFiles) → IsReady inputs settings.now study.now →
        TellsBy (G.decides gate.now) (G.was_told gate.now) e inputs settings.now) }
{
    compute_study(host, host.alloc(), study, settings, gate, watch)
}

/// Puts out the matrix of a study of the program's own, or tells why there is none.
pub(crate) fn answer<H: Host, O: Output, E: Output>(
    host: &H,
    inputs: &Inputs<'_>,
    settings: &Settings,
    out: &mut O,
    err: &mut E,
) -> ExitCode
    requires files { AreWithinLimit (inputs_of inputs.now) }
    requires settings { SettingsFit settings.now }
    ensures answered { spec.IsAnswered (inputs_of inputs.now) settings.now (O.contents out.old)
        (after (O.contents out.new) (O.broke out.new))
        (E.contents err.old) (after (E.contents err.new) (E.broke err.new)) (exit_status result) }
    ensures success { exit_status result ≡ DONE →
        spec.IsPrinted (inputs_of inputs.now) settings.now (O.contents out.old) (O.contents out.new) }
    ensures quiet { exit_status result ≡ DONE → err.new ≡ err.old }
{
    match put_own(host, inputs, settings, out) {
        Ok(()) => ExitCode::from(DONE),
        Err(fault) => tell_why(host.alloc(), &fault, inputs, err),
    }
}

/// Puts out the matrix of a study of the program's own. At an error it isn't out whole.
fn put_own<H: Host, O: Output>(
    host: &H,
    inputs: &Inputs<'_>,
    settings: &Settings,
    out: &mut O,
) -> Result<(), StudyFault>
    requires files { AreWithinLimit (inputs_of inputs.now) }
    requires settings { SettingsFit settings.now }
    ensures printed { OnOk result (spec.IsPrinted (inputs_of inputs.now) settings.now (O.contents out.old)
        (O.contents out.new)) }
    ensures why { IfErr result (λ fault. spec.IsWhy works_at_each told_anything fault (inputs_of inputs.now)
        settings.now (O.contents out.old) (after (O.contents out.new) (O.broke out.new))) }
{
    match run_study(host, host.alloc(), inputs, settings, &Open) {
        Ok(text) => put_text(&text, out),
        Err(fault) => Err(fault),
    }
}

/// Puts out the text of a matrix. At an error a call of the output broke, and the text isn't out whole.
fn put_text<O: Output>(text: &[u8], out: &mut O) -> Result<(), StudyFault>
    ensures whole { OnOk result (Appends (O.contents out.old) (O.contents out.new) text.now) }
    ensures fault { IfErr result (λ fault. fault ≡ StudyFault.Text TextFault.Write) }
    ensures lost { OnErr result (IsLost (O.contents out.old) (after (O.contents out.new) (O.broke out.new)) text.now) }
{
    match put_whole(text, out) {
        Ok(()) => Ok(()),
        Err(fault) => Err(StudyFault::Text(fault)),
    }
}

/// Tells why the matrix isn't out.
pub(crate) fn tell_why<E: Output>(
    alloc: Global,
    fault: &StudyFault,
    inputs: &Inputs<'_>,
    err: &mut E,
) -> ExitCode
    ensures told { spec.TellsFault fault.now (inputs_of inputs.now) (E.contents err.old)
        (after (E.contents err.new) (E.broke err.new))
        (exit_status result) }
    ensures no_success { 1 ≤ exit_status result }
{
    tell_made(fault_line(alloc, fault, inputs), status(fault), err)
}
