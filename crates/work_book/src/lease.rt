//! What a seat draws, and what becomes of it.

/// The right to compute one job's row, under a number that no other seat draws.
///
/// Number n is job `n % jobs` in pass `n / jobs`, so each job is offered once before any is offered again.
#[derive(Clone, Copy, Debug, PartialEq, Eq)]
pub struct Lease {
    /// From 0, over all seats together.
    pub number: u64,
    /// From 0.
    pub job: u32,
    /// How often the job was drawn before.
    pub pass: u32,
}

/// What becomes of a job that a seat settles.
#[derive(Clone, Copy, Debug, PartialEq, Eq)]
pub enum Settled {
    /// The seat is the first: its row counts.
    Kept,
    /// Another lease of the job was settled before.
    Double,
}
