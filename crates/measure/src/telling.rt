//! The lines of the report.

use crate::figures::millis;
use std::fmt::Debug;
use std::io;
use std::time::Instant;

/// Prints a figure.
pub(crate) fn tell(rt: &HostRuntime, what: &str, figure: u64) -> io::Result<()> {
    println!(rt; "{what}: {figure}")
}

/// Prints how many milliseconds a stage took that ends now, and gives them.
pub(crate) fn tell_stage(rt: &HostRuntime, stage: &str, start: Instant) -> io::Result<u64> {
    let time = millis(start.elapsed(rt)?);
    println!(rt; "{stage}, ms: {time}")?;
    Ok(time)
}

/// Prints how many microseconds the durations from an origin took, which is counted from 0.
pub(crate) fn tell_origin(rt: &HostRuntime, at: usize, micros: u64) -> io::Result<()> {
    println!(rt; "durations, origin {}, us: {micros}", at.saturating_add(1))
}

/// Prints that a study isn't one.
pub(crate) fn refuse(rt: &HostRuntime, why: &str) -> io::Result<()> {
    println!(rt; "refused: {why}")
}

/// Prints the fault for which a study isn't one.
pub(crate) fn tell_fault<F: Debug>(rt: &HostRuntime, fault: &F) -> io::Result<()> {
    println!(rt; "refused: {fault:?}")
}
