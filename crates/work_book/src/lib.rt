//! The book of work: which seat draws which job, and who keeps it; `workers` draw from it, and a `collector` takes
//! their rows. Jobs are numbered once for all seats, and the first seat that settles a job keeps it, whatever the
//! others do.
//!
//! - `Board` is a book that threads share, each with a `WorkSeat` of its own. The program draws from boards alone.
//! - `Book`, in `plain`, is the plain form that the board is proved against, and not on the program's way: the whole
//!   state, and one call is one step: `draw`, `look`, `settle`, `lose`. `Step` and `Answer` are the same steps as data,
//!   and `Book::run` takes a list of them.
//! - `runs_are_fair` is what holds of every list of steps; `closed_boards_are_runs` says that a board that is `Closed`
//!   shows what some list of steps of a `Book` shows.
//! - `Board::close`, `jobs`, `tries` and `WorkSeat::share` are for other programs.
//!
//! - `limits`: how many jobs there may be, and how many times each is offered.
//! - `lease` is what a seat draws; `steps` and `seat` are the book's; `shared`, `rule` and `moves` are the board's: its
//!   types, what holds of its words between any two steps, and the kinds of its steps.
//!
//! `specs/Steps.antt` has a step's answer and change, as a table by cases, and `specs/Laws.antt` the laws.
//! `specs/Rule.antt` says what holds of a board in every schedule, and `specs/Board.antt` what its calls promise.
#![tactic(auto)]

mod board;
mod laws;
mod lease;
mod limits;
mod moves;
mod plain;
mod rule;
mod seat;
mod shared;
mod steps;

pub use laws::{closed_boards_are_runs, runs_are_fair};
pub use lease::{Lease, Settled};
pub use limits::{MOST_JOBS, MOST_TRIES, limits_are_as_stated};
pub use plain::Book;
pub use rule::{Extent, Numbers, View};
pub use shared::{Board, Closed, Draw, WorkSeat};
pub use steps::{Answer, Step};
