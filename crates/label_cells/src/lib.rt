//! The cells and the access of a row, straight from the narrow labels of a search.
//!
//! [`cells_and_access`] is the entry point. It gives the same cells and sums as `cells_of_at` and `access_at` of
//! `shares`, by the same definitions, but never writes the durations of all minutes. A cell is a nearest-rank
//! percentile. It is found by bisection, for sixteen stops side by side, one in each lane of a vector.
//!
//! # Terms
//!
//! - *Position*: the index of a searched minute. A minute that was not searched waits for the next one that was, so its
//!   duration is that of the searched minute and the seconds until then.
//! - *Base*: the second from which the labels of a position count.
//! - *Group*: sixteen stops with neighbouring numbers.
//! - *Run*: minutes that all wait for the same position. Neighbouring positions with equal labels and equal bases are
//!   one run, because a label is a time of arrival. The positions of a group are merged only where all its stops agree,
//!   so its stops share the runs. The durations of a run fall by 60 seconds from minute to minute.
//! - *Split run*: a run whose last duration is split into whole minutes and seconds.
//! - A run *covers* minute `d` if one of its durations has `d` whole minutes.
//! - *Rank*: a share of the window's minutes, rounded up to a whole number of minutes. The cell is the least duration
//!   that at least that number of minutes attain.
//!
//! # How a cell is found
//!
//! The durations of a run below `60 * d` seconds can be counted without listing them: there are
//! `min(span, d - whole)`. So the whole minutes of a cell are bisected first, and then its seconds, among the runs that
//! cover these minutes. Walks from the origin take as long in each minute, so they come last: the cell is the lesser of
//! the cell without walks and the least walk.
//!
//! # Modules, in reading order
//!
//! - `share_cells`: [`cells_and_access`], and the access sums. Its input is [`rounds::WindowLabels`].
//! - `used`: which groups have a destination or an opportunity; the others are skipped.
//! - `group_cells`: all groups. `group`: one group, and [`CellBuffers`]. `walks`: walks from the origin.
//! - `ends`, `runs`: the runs of a group. `splitting`, `split_runs`: split runs, and how they are counted.
//! - `selection`, `halving`: the cells of a rank.
//! - `laws`: [`labels_give_the_cells_of_durations`].
//!
//! `specs/Labels` of `rounds` says what labels represent, and `specs/Runs` how runs are counted.
#![tactic(auto)]

mod ends;
mod group;
mod group_cells;
mod halving;
mod laws;
mod runs;
mod selection;
mod share_cells;
mod split_runs;
mod splitting;
#[cfg(test)]
mod tests;
mod used;
mod walks;

pub use group::CellBuffers;
pub use laws::labels_give_the_cells_of_durations;
pub use share_cells::{Question, ShareCells, cells_and_access};
