//! The calls that make whole studies: `run_study` and its halves, and `minute_line`.
ghost use Rattle.studies.specs.Inputs.{AreWithinLimit, InputFiles, inputs_of as files_in};
ghost use Rattle.studies.specs.Ready.{IsReady};
ghost use Rattle.studies.specs.Settings.{SettingsFit};

use crate::outcomes::{Outcome, told};
use crate::small_studies::{StudyCase, inputs_of, is_memory, scenarios, settings};
use small_feed::small_files;
use std::alloc::{AllocError, Global};
use std::sync::Wait;
use std::thread::Threads;
use studies::{
    Inputs, NamedFile, ReadyStudy, Settings, Unwatched, compute_study, minute_line, ready_study,
    run_study,
};
use workers::Open;

/// Which call of a study a trial makes: the whole, or one of its halves.
#[derive(Clone, Copy)]
pub enum Half {
    /// `run_study`.
    Both,
    /// `ready_study`.
    Ready,
    /// `compute_study`.
    Computed,
}

/// The trial of `minute_line`.
pub fn try_minute(alloc: Global) -> Outcome {
    Outcome::of(|| makes_line(alloc))
}

/// Whether one ride at 08:00 goes from A to B alone.
fn makes_line(alloc: Global) -> Result<bool, AllocError> {
    let files = small_files();
    if !files.fits() {
        return Ok(false);
    }
    match minute_line(alloc, &files, b"A", 480, 1) {
        Ok(line) => Ok(line.as_slice() == b"0,600,\n".as_slice()),
        Err(fault) => told(is_memory(fault)),
    }
}

/// The trial of `run_study` or one of its halves, with a scenario that cuts a route.
pub fn try_half<R: Threads + Wait + Sync>(
    rt: &R,
    alloc: Global,
    case: StudyCase,
    half: Half,
) -> Outcome {
    match scenarios(alloc) {
        Ok(scenarios) => try_scenarios(rt, alloc, case, half, &scenarios),
        Err(_) => Outcome::Inputs,
    }
}

fn try_scenarios<R: Threads + Wait + Sync>(
    rt: &R,
    alloc: Global,
    case: StudyCase,
    half: Half,
    scenarios: &[NamedFile],
) -> Outcome {
    let inputs = inputs_of(case, scenarios);
    match settings(alloc, case) {
        Some(settings) if inputs.fits() && settings.fits() => {
            try_inputs(rt, alloc, &inputs, &settings, case.text, half)
        }
        Some(_) => Outcome::Wrong,
        None => Outcome::Inputs,
    }
}

fn try_inputs<R: Threads + Wait + Sync>(
    rt: &R,
    alloc: Global,
    inputs: &Inputs<'_>,
    settings: &Settings,
    text: &[u8],
    half: Half,
) -> Outcome
    requires files { AreWithinLimit (files_in inputs.now) }
    requires settings { SettingsFit settings.now }
{
    match half {
        Half::Both => match runs_study(rt, alloc, inputs, settings, text) {
            Ok(is_right) => Outcome::at_once(is_right),
            Err(_) => Outcome::again(runs_study(rt, alloc, inputs, settings, text)),
        },
        Half::Ready => match makes_ready(alloc, inputs, settings) {
            Ok(is_right) => Outcome::at_once(is_right),
            Err(_) => Outcome::again(makes_ready(alloc, inputs, settings)),
        },
        Half::Computed => try_ready(rt, alloc, inputs, settings, text),
    }
}

/// Whether the study has this text.
fn runs_study<R: Threads + Wait + Sync>(
    rt: &R,
    alloc: Global,
    inputs: &Inputs<'_>,
    settings: &Settings,
    text: &[u8],
) -> Result<bool, AllocError>
    requires files { AreWithinLimit (files_in inputs.now) }
    requires settings { SettingsFit settings.now }
{
    match run_study(rt, alloc, inputs, settings, &Open) {
        Ok(made) => Ok(made.as_slice() == text),
        Err(fault) => told(is_memory(fault)),
    }
}

/// Whether the study becomes ready.
fn makes_ready(alloc: Global, inputs: &Inputs<'_>, settings: &Settings) -> Result<bool, AllocError>
    requires files { AreWithinLimit (files_in inputs.now) }
    requires settings { SettingsFit settings.now }
{
    match ready_study(alloc, inputs, settings, &Unwatched) {
        Ok(study) => {
            drop(study);
            Ok(true)
        }
        Err(fault) => told(is_memory(fault)),
    }
}

/// The trial of `compute_study`.
fn try_ready<R: Threads + Wait + Sync>(
    rt: &R,
    alloc: Global,
    inputs: &Inputs<'_>,
    settings: &Settings,
    text: &[u8],
) -> Outcome
    requires files { AreWithinLimit (files_in inputs.now) }
    requires settings { SettingsFit settings.now }
{
    let study = match ready_study(alloc, inputs, settings, &Unwatched) {
        Ok(study) => study,
        Err(_) => return Outcome::Inputs,
    };
    match computes(rt, alloc, &study, settings, text) {
        Ok(is_right) => Outcome::at_once(is_right),
        Err(_) => Outcome::again(computes(rt, alloc, &study, settings, text)),
    }
}

/// Whether the study that is ready has this text.
fn computes<R: Threads + Wait + Sync>(
    rt: &R,
    alloc: Global,
    study: &ReadyStudy,
    settings: &Settings,
    text: &[u8],
) -> Result<bool, AllocError>
    requires settings { SettingsFit settings.now }
    requires ready { (files : InputFiles) × IsReady files settings.now study.now }
{
    match compute_study(rt, alloc, study, settings, &Open, &Unwatched) {
        Ok(made) => Ok(made.as_slice() == text),
        Err(fault) => told(is_memory(fault)),
    }
}
