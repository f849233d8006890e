//! Shares: percentiles of a window's durations, as one cell per destination, and access, as sums of opportunities.
//! A cell is the least duration that a share of the minutes attains; access is the sum of the opportunities
//! at the stops whose cell is within a limit: at all stops, whichever are destinations.
//!
//! - `percentiles`: [`cell`], [`cells`] of all stops, and [`cells_at`] some destinations.
//! - `ranks`: [`cells_of`] and [`cells_of_at`], the same for several shares at once; `planes` finds the label of a
//!   rank, bit by bit.
//! - `opportunities`: [`access`] of cells, and [`access_at`], which needs no cells: it counts minutes.
//! - `laws`: [`cells_are_unique`], that a share of durations has one list of cells.
//!
//! What a share attains, and what counts as access, stands in `specs/` (`Percentiles`, `Opportunities`).
#![tactic(auto)]

mod laws;
mod opportunities;
mod percentiles;
mod planes;
mod ranks;
mod stops;

pub use laws::cells_are_unique;
pub use opportunities::{access, access_at};
pub use percentiles::{cell, cells, cells_at};
pub use ranks::{cells_of, cells_of_at};
