//! How large the matrix of a study is, and whether it fits into memory.

ghost use Rattle.std.specs.Prelude.{◌≡◌};
ghost use Rattle.workers.specs.Study.{study_of};
ghost use Rattle.reports.specs.Sizes as spec;

use console::{Console, tell_count, warn};
use std::alloc::Global;
use workers::Study;

/// The bytes that a cell or a sum of access takes among the rows.
const CELL_BYTES: u64 = 8;

/// The bytes that one of them takes in the text, about: its digits and a comma.
const TEXT_BYTES: u64 = 6;

/// What is said where the matrix is larger than what the machine has free.
const NO_ROOM: &str = "the machine may not have memory for the matrix; \
    ttm-tools split makes parts of the origins, and ttm-tools join joins their matrices";

/// How many rows a study has.
pub(crate) fn row_count(study: &Study<'_>) -> u64
    ensures { result ≡ spec.row_count (study_of study.now) }
{
    (study.networks.len() as u64).saturating_mul(study.origins.len() as u64)
}

/// How many cells a study has.
fn cell_count(study: &Study<'_>) -> u64
    ensures { result ≡ spec.cell_count (study_of study.now) }
{
    row_count(study)
        .saturating_mul(study.destinations.len() as u64)
        .saturating_mul(study.shares.len() as u64)
}

/// How many sums of access a study has.
fn sum_count(study: &Study<'_>) -> u64
    ensures { result ≡ spec.sum_count (study_of study.now) }
{
    row_count(study)
        .saturating_mul(study.withins.len() as u64)
        .saturating_mul(study.shares.len() as u64)
}

/// Tells how large the matrix is.
pub(crate) fn tell_rows<C: Console>(console: &C, alloc: Global, study: &Study<'_>) {
    let cells = cell_count(study);
    tell_count(console, alloc, "rows", row_count(study));
    tell_count(console, alloc, "cells", cells);
    tell_room(
        console,
        alloc,
        cells
            .saturating_add(sum_count(study))
            .saturating_mul(CELL_BYTES + TEXT_BYTES),
    );
}

/// Tells how many bytes the matrix and its text take, about, beside what the machine has free.
fn tell_room<C: Console>(console: &C, alloc: Global, bytes: u64) {
    tell_count(
        console,
        alloc,
        "bytes of the matrix and its text, about",
        bytes,
    );
    if let Some(free) = console.memory(alloc).free {
        tell_count(console, alloc, "bytes that the machine has free", free);
        if bytes > free {
            warn(console, alloc, NO_ROOM);
        }
    }
}
