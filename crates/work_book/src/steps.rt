//! Steps of seats, and their answers, as data.

use crate::lease::Lease;

/// One step by one seat; seats are numbered from 0.
#[derive(Clone, Copy, Debug, PartialEq, Eq)]
pub enum Step {
    /// The seat asks for work.
    Draw(u32),
    /// The seat asks whether a job is settled: seat and job.
    Look(u32, u32),
    /// The seat settles the job of a number that it drew: seat and number.
    Settle(u32, u64),
    /// The seat is lost and takes no further step.
    Loss(u32),
}

/// What a step answers.
#[derive(Clone, Copy, Debug, PartialEq, Eq)]
pub enum Answer {
    /// The next number, with its job.
    Lease(Lease),
    /// All numbers were drawn.
    Nothing,
    /// Whether the job is settled.
    Mark(bool),
    /// The job is settled now, and the seat keeps it.
    Kept,
    /// The job was settled before.
    Double,
    /// The seat is lost now.
    Lost,
    /// The step isn't allowed, and changes nothing: no such seat, a lost seat, no such job, or a number that the seat
    /// didn't draw.
    Refused,
}
