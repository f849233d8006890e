//! A row of the matrix.

use std::marker::Model;

/// What one share of the minutes gives for an origin.
#[derive(Drop)]
pub struct Cells {
    /// The travel time to each stop in seconds, or none where the stop isn't reached often enough.
    pub cells: Vec<Option<u32>>,
    /// The opportunities within reach, one sum per limit.
    pub access: Vec<u64>,
}

impl Model for Cells {
    ghost use Rattle.collector.specs.Row.{CellsData};

    ghost Value = { CellsData };

    ghost view = { λ c. record { cells = c.cells.items; access = c.access.items } };
}

/// What one scenario gives for one origin.
#[derive(Drop)]
pub struct Row {
    /// The study that the row was computed for.
    pub study: u64,
    /// The scenario's position, from 0, which is the feed as it is.
    pub scenario: u32,
    /// The origin's position, from 0.
    pub origin: u32,
    /// What each share of the minutes gives, in the shares' order.
    pub shares: Vec<Cells>,
}

impl Model for Row {
    ghost use Rattle.collector.specs.Row.{RowData};

    ghost Value = { RowData };

    ghost view = { λ r. record { study = r.study; scenario = r.scenario; origin = r.origin; shares = r.shares.items } };
}
