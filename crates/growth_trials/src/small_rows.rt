//! Rows of one share and one limit, made by hand.

use collector::{Cells, Collector, Matrix, Row};
use std::alloc::{AllocError, Global};

/// The row of the first scenario and an origin, with these cells and an access of 3.
pub(crate) fn row_with(
    alloc: Global,
    study: u64,
    origin: u32,
    cells: &[Option<u32>],
) -> Result<Row, AllocError> {
    let mut shares = Vec::with_capacity(alloc, 1)?;
    shares.push(Cells {
        cells: cells.to_vec(alloc)?,
        access: vec![in alloc; 3; 1]?,
    })?;
    Ok(Row {
        study,
        scenario: 0,
        origin,
        shares,
    })
}

/// The matrix of one row, from A to all stops of the small feed.
pub(crate) fn small_matrix(alloc: Global) -> Option<Box<Matrix>> {
    let row = row_with(alloc, 1, 0, &[Some(0), Some(600), Some(1_800)]).ok()?;
    match Collector::new(alloc, 1, 1, 1, 3, 1, 1) {
        Ok(collector) => matrix_of(alloc, collector, row),
        Err(_) => None,
    }
}

/// The matrix of places that a row fills.
fn matrix_of(alloc: Global, mut collector: Collector, row: Row) -> Option<Box<Matrix>> {
    collector.offer(row);
    match collector.finish() {
        Ok(matrix) => Box::new(alloc, matrix).ok(),
        Err(_) => None,
    }
}
