//! A study of files: from their bytes and the settings to the text of the matrix.
//! Each stage makes one value of those before it, so that the first stage that refuses is the one that is told.
//! A big value is held in a box, which is dropped in one step: else the prover follows each drop at every way out.
ghost use Rattle.std.specs.Prelude.{IfErr, IfOk};
ghost use Rattle.studies.specs.Inputs.{AreWithinLimit, inputs_of};
ghost use Rattle.studies.specs.Settings.{SettingsFit};
ghost use Rattle.studies.specs.Watched.{HasReadTables, SawAll, SawFault};
ghost use Rattle.studies.specs.Study.{IsStudyText, Tells, TellsBy};

use crate::fault::StudyFault;
use crate::inputs::Inputs;
use crate::ready::{compute_study, ready_study};
use crate::settings::Settings;
use crate::watch::{Unwatched, Watch};
use std::alloc::Global;
use std::sync::Wait;
use std::thread::Threads;
use workers::Gate;

/// A door for other programs, without a watch: the text of the matrix of the study that the files mean, or why there is
/// none.
///
/// Of what is refused the first is told, in the order of [`StudyFault`]; out of memory may be told in its place. The
/// condition is that the files and the settings fit ([`Inputs::fits`], [`Settings::fits`]). The rows are computed by as
/// many worker threads as the settings say, and the gate decides what becomes of each lease. The text is the same for
/// every number of workers and every gate.
pub fn run_study<G: Gate + Sync, R: Threads + Wait + Sync>(
    rt: &R,
    alloc: Global,
    inputs: &Inputs<'_>,
    settings: &Settings,
    gate: &G,
) -> Result<Vec<u8>, StudyFault>
    requires files { AreWithinLimit (inputs_of inputs.now) }
    requires settings { SettingsFit settings.now }
    ensures text { IfOk result (λ text. IsStudyText (inputs_of inputs.now) settings.now text.items) }
    ensures fault { IfErr result (λ e. Tells e (inputs_of inputs.now) settings.now) }
    ensures run { IfErr result (λ e. TellsBy (G.decides gate.now) (G.was_told gate.now) e (inputs_of inputs.now)
        settings.now) }
{
    watch_study(rt, alloc, inputs, settings, gate, &Unwatched)
}

/// The text of the matrix of the study that the files mean, or why there is none.
///
/// Of what is refused the first is told, in the order of [`StudyFault`]; out of memory may be told in its place. The
/// condition is that the files and the settings fit ([`Inputs::fits`], [`Settings::fits`]). The rows are computed by as
/// many worker threads as the settings say, and the gate decides what becomes of each lease. The text is the same for
/// every number of workers, every gate and every watch, which is told what each stage has made.
pub fn watch_study<G: Gate + Sync, W: Watch, R: Threads + Wait + Sync>(
    rt: &R,
    alloc: Global,
    inputs: &Inputs<'_>,
    settings: &Settings,
    gate: &G,
    watch: &W,
) -> Result<Vec<u8>, StudyFault>
    requires files { AreWithinLimit (inputs_of inputs.now) }
    requires settings { SettingsFit settings.now }
    ensures text { IfOk result (λ text. IsStudyText (inputs_of inputs.now) settings.now text.items) }
    ensures tables { IfOk result (λ _. HasReadTables (W.has_read watch.now) (W.has_listed watch.now)
        (inputs_of inputs.now) settings.now) }
    ensures told { IfOk result (λ _. SawAll (W.saw watch.now) (inputs_of inputs.now) settings.now) }
    ensures told_fault { IfErr result (λ e. SawFault (W.saw watch.now) e (inputs_of inputs.now) settings.now) }
    ensures fault { IfErr result (λ e. Tells e (inputs_of inputs.now) settings.now) }
    ensures run { IfErr result (λ e. TellsBy (G.decides gate.now) (G.was_told gate.now) e (inputs_of inputs.now)
        settings.now) }
{
    let study = ready_study(alloc, inputs, settings, watch)?;
    compute_study(rt, alloc, &study, settings, gate, watch)
}
