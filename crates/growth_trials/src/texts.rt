//! The call that makes a text: `write_matrix` of a matrix.

use crate::small_rows::small_matrix;
use crate::small_tables::over_small_feed;
use collector::Matrix;
use gtfs_tables::Feed;
use matrix_text::{Labels, TextFault, write_matrix};
use std::alloc::{AllocError, Global};
use study_trials::{Outcome, told};
use timetable::StopNo;

/// The text of the small matrix.
const TEXT: &[u8] = b"scenario,origin,share,access_1800,A,B,C
base,A,50,3,0,600,1800
";

/// The trial of `write_matrix`.
pub(crate) fn try_write(alloc: Global) -> Outcome {
    over_small_feed(alloc, |feed| try_feed(alloc, feed))
}

fn try_feed(alloc: Global, feed: &Feed) -> Outcome {
    match small_matrix(alloc) {
        Some(matrix) => try_matrix(alloc, feed, &matrix),
        None => Outcome::Inputs,
    }
}

fn try_matrix(alloc: Global, feed: &Feed, matrix: &Matrix) -> Outcome {
    match names(alloc) {
        Ok(names) => try_labels(alloc, matrix, &labels_of(feed, &names)),
        Err(_) => Outcome::Inputs,
    }
}

fn names(alloc: Global) -> Result<Vec<Vec<u8>>, AllocError> {
    let mut names = Vec::with_capacity(alloc, 1)?;
    names.push(Vec::from_slice(alloc, b"base")?)?;
    Ok(names)
}

fn labels_of<'a>(feed: &'a Feed, names: &'a [Vec<u8>]) -> Labels<'a> {
    Labels {
        scenarios: names,
        origins: &[StopNo(0)],
        shares: &[50],
        limits: &[1_800],
        destinations: &[StopNo(0), StopNo(1), StopNo(2)],
        feed,
    }
}

/// The text has its room beforehand: what it needs of memory is the writer's.
fn try_labels(alloc: Global, matrix: &Matrix, labels: &Labels<'_>) -> Outcome {
    let Ok(mut text) = Vec::with_capacity(alloc, 200) else {
        return Outcome::Inputs;
    };
    match writes(alloc, matrix, labels, &mut text) {
        Ok(is_right) => Outcome::at_once(is_right),
        Err(_) => {
            text.clear();
            Outcome::again(writes(alloc, matrix, labels, &mut text))
        }
    }
}

/// Whether the matrix has its text; where it isn't whole, what is out of it begins it.
fn writes(
    alloc: Global,
    matrix: &Matrix,
    labels: &Labels<'_>,
    text: &mut Vec<u8>,
) -> Result<bool, AllocError> {
    if !labels.fit(matrix) {
        return Ok(false);
    }
    match write_matrix(alloc, matrix, labels, text) {
        Ok(()) => Ok(text.as_slice() == TEXT),
        Err(fault) => told(fault == TextFault::Memory && TEXT.starts_with(text.as_slice())),
    }
}
