//! Trials of public calls that allocate: each runs once, and again if it reports out of memory, over inputs with
//! known answers. `tests/program/hostile.py` runs the program with its first, second and each further growth of memory
//! refused.
//!
//!     growth_trials [TRIAL]
//!
//! It prints a line for the trial, or for each of them, and its status is 1 where one of them is wrong.
//!
//! - `trials`: all of them, by name.
//! - `tables`, `networks`, `searches`, `rows`, `books`, `texts`: trials of calls that make these. Those of whole studies
//!   and of the command line are in the crate `study_trials`.
//! - `small_tables`, `small_networks`, `small_rows`: the inputs that several of them have.
#![tactic(auto)]

mod books;
mod networks;
mod rows;
mod searches;
mod small_networks;
mod small_rows;
mod small_tables;
mod tables;
mod texts;
mod trials;

use crate::trials::{Trial, make, trials};
use std::process::ExitCode;
use std::rt::Env;
use std::sync::Wait;
use std::thread::Threads;
use std::{env, io};
use study_trials::Outcome;

fn main(rt: HostRuntime) -> ExitCode {
    match run(&rt) {
        Ok(true) => ExitCode::SUCCESS,
        _ => ExitCode::FAILURE,
    }
}

/// Makes the trial that the arguments name, or all of them where they name none. Whether all goes as it should.
fn run<R: Env + Print + AllocGlobal + Threads + Wait + Sync>(rt: &R) -> io::Result<bool> {
    let words = match words_of(rt) {
        Ok(words) => words,
        Err(_) => {
            println!(rt; "{}", Outcome::Inputs.words())?;
            return Ok(true);
        }
    };
    match words.get(1) {
        Some(name) => make_named(rt, name.as_str()),
        None => make_all(rt),
    }
}

/// The arguments. Each growth that is refused here is told, so that none is taken for the call's.
fn words_of<R: Env + AllocGlobal>(rt: &R) -> io::Result<Vec<String>> {
    let mut words = Vec::new(rt.alloc());
    for word in env::args(rt)? {
        words.push(word)?;
    }
    Ok(words)
}

/// Makes every trial.
fn make_all<R: Print + AllocGlobal + Threads + Wait + Sync>(rt: &R) -> io::Result<bool> {
    let mut are_right = true;
    for (name, trial) in trials().iter() {
        are_right = make_one(rt, name, *trial)? && are_right;
    }
    Ok(are_right)
}

/// Makes the trials of a name.
fn make_named<R: Print + AllocGlobal + Threads + Wait + Sync>(
    rt: &R,
    named: &str,
) -> io::Result<bool> {
    for (name, trial) in trials().iter() {
        if *name == named {
            return make_one(rt, name, *trial);
        }
    }
    println!(rt; "no such trial: {named}")?;
    Ok(false)
}

/// Makes a trial, and prints what comes of it.
fn make_one<R: Print + AllocGlobal + Threads + Wait + Sync>(
    rt: &R,
    name: &str,
    trial: Trial,
) -> io::Result<bool> {
    let outcome = make(rt, rt.alloc(), trial);
    println!(rt; "{name}: {}", outcome.words())?;
    Ok(outcome.is_right())
}
