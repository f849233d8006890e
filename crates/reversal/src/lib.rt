//! Networks with time reversed, and the law that joins their journeys to those of the original network.
//!
//! A search finds the durations from one origin to every stop. A question from every origin to one destination is
//! therefore answered by a single search that starts at the destination and goes back in time. [`mirrored`] builds the
//! network for it, so that the search itself needs no change. [`deadlines_of`] lists the times to search from, and
//! [`durations_from_deadlines`] states which durations follow from such searches.
//!
//! # Terms
//!
//! - *Mirrored network*: the same network with time reversed. Each trip runs backwards, boarding and alighting are
//!   exchanged, each footpath leads the other way, and change times stay.
//! - *Horizon*: the time at which time is reversed. A time `t` becomes `horizon - t`, so no event may be later than the
//!   horizon.
//! - *Deadline*: a time by which a traveller has to be at the destination. Only arrivals of rides matter, each with the
//!   walk after it.
//! - *Label* of a deadline: the least duration in the mirrored network from the destination, at the mirrored deadline,
//!   to an origin. A traveller may leave the origin that many seconds before the deadline, and no later.
//! - A deadline *serves* a start if a traveller who starts then is at the destination by the deadline.
//! - *Itinerary*: rides with at most one walk before, between and after them. A journey says when a traveller is where,
//!   an itinerary only by when. Its mirror image is therefore an itinerary, too, which is why the proofs use it.
//!
//! # Modules, in reading order
//!
//! - `mirror`: [`mirrored`], the mirrored network, and [`horizon_of`].
//! - `deadlines`: [`deadlines_of`], and [`walks_to`], the walks alone that lead to a destination.
//! - `read_out`: [`until_served`], the duration that the labels of deadlines give for one start.
//! - `laws`: that mirrored networks are networks like any other, the law of reversal, and the law of the read-out.
//!
//! The specs of `timetable` define journeys and networks. Nothing here changes or adds to these definitions.
#![tactic(auto)]

mod deadlines;
mod laws;
mod mirror;
mod read_out;

pub use deadlines::{deadlines_of, walks_to};
pub use laws::{durations_from_deadlines, journeys_reverse, mirrored_networks_are_networks};
pub use mirror::{horizon_of, mirrored};
pub use read_out::until_served;
