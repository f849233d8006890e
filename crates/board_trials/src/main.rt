//! Trials of the board: threads that draw and settle at one board at once, and what they are told. Its tests are those
//! of `work_book`'s shared calls; the program times a trial.
//!
//! - `workers`: what one thread does, and what it is told.
//! - `trials`: a trial from a new board to the closed one.
//! - `asked` reads what the arguments ask for.
#![tactic(auto)]

ghost use Rattle.std.specs.Prelude.{◌≤◌};

mod asked;
#[cfg(test)]
mod tests;
mod trials;
mod workers;

use crate::asked::Asked;
use crate::workers::Tally;
use std::alloc::Global;
use std::rt::Clock;
use std::thread::Threads;
use std::time::{Duration, Instant};
use std::{env, io};

const USAGE: &str =
    "usage: board_trials draw|settle JOBS TRIES THREADS (at most 1048560 jobs, 8 tries, 64 threads)";

fn main(rt: HostRuntime) -> io::Result<()> {
    let words = env::args(&rt)?.collect::<Vec<String>>(rt.alloc())?;
    match asked::read(words.as_slice()) {
        Some(asked) => time(&rt, rt.alloc(), asked),
        None => println!(rt; "{USAGE}"),
    }
}

/// Makes the trial and prints what it took, from the first thread's start to the last one's end.
fn time<R: Threads + Sync + Clock + Print>(rt: &R, alloc: Global, asked: Asked) -> io::Result<()>
    requires jobs { asked.jobs ≤ 1048560 }
    requires tries { (1 ≤ asked.tries) × (asked.tries ≤ 8) }
    requires threads { asked.threads ≤ 64 }
{
    let start = Instant::now(rt)?;
    let outcome = trials::make(
        rt,
        alloc,
        asked.task,
        asked.jobs,
        asked.tries,
        asked.threads,
    )?;
    let time = micros(start.elapsed(rt)?);
    tell(rt, outcome.tally, time)
}

// Prints what came out, in so many microseconds.
fn tell<R: Print>(rt: &R, tally: Tally, time: u64) -> io::Result<()> {
    println!(rt; "drawn: {}", tally.drawn)?;
    println!(rt; "kept: {}", tally.kept)?;
    println!(rt; "microseconds: {time}")?;
    let rate = u64::from(tally.drawn) * 1_000_000 / time.max(1);
    println!(rt; "draws a second: {rate}")
}

// A time in whole microseconds.
fn micros(time: Duration) -> u64 {
    time.as_secs()
        .saturating_mul(1_000_000)
        .saturating_add(u64::from(time.subsec_micros()))
}
