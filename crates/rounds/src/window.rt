//! A window of departures, one a minute, and the least durations of each of them.
ghost use Rattle.std.specs.Prelude.{◌≡◌, ◌<◌, ◌≤◌, ◌↔◌, IsTrue, length, All, IfOk};
ghost use Rattle.timetable.specs.declared.limits.TheConstants.{MOST_TRIPS};
ghost use Rattle.rounds.specs.Window.{Fits, AreDurations};
ghost use Rattle.rounds.specs.declared.window.TheConstants as limit;

use crate::search::Search;
use crate::table::Durations;
use std::alloc::{AllocError, Global};
use timetable::{END_OF_AXIS, Lines, Network, StopNo};

/// The most minutes of a window: a day.
pub const MOST_MINUTES: u32 = 1_440;

/// The most rides of a journey, in every search of several departures.
pub const MOST_RIDES: u32 = 8;

/// A law: the limits of minutes and rides in numbers.
pub fn limits_are_as_stated()
    ensures minutes { limit.MOST_MINUTES ≡ 1440 }
    ensures rides { limit.MOST_RIDES ≡ 8 }
{}

/// Departures one minute apart.
#[derive(Clone, Copy, Debug, PartialEq, Eq)]
pub struct Window {
    /// The second of the first departure, on the axis of the network's times.
    pub first: u32,
    /// How many departures there are.
    pub minutes: u32,
}

impl Window {
    /// Whether there are 1 to 1,440 departures, all of them on the axis.
    pub fn fits(&self) -> bool
        ensures { IsTrue result ↔ Fits self.now }
    {
        1 <= self.minutes
            && self.minutes <= MOST_MINUTES
            && self.first < END_OF_AXIS
            && self.first + 60 * (self.minutes - 1) < END_OF_AXIS
    }
}

/// A door for other programs: the least durations from `origin` to every stop, for each departure of the window and
/// journeys of at most `rides` rides, of which there may be 8, in seconds, waiting included.
///
/// Out of memory is the only error. Who asks for several origins keeps a [`Search`].
pub fn durations(
    alloc: Global,
    network: &Network,
    origin: StopNo,
    window: Window,
    rides: u32,
) -> Result<Durations, AllocError>
    requires origin { origin.0 < network.now.stops }
    requires fits { Fits window }
    requires rides { rides ≤ limit.MOST_RIDES }
    ensures { IfOk result (λ durations. AreDurations network.now origin.0 window rides durations) }
{
    let mut search = Search::new(alloc);
    search.durations(alloc, network, origin, window, rides)
}

/// How many trips the line with most of them has.
pub(crate) fn longest(lines: &Lines) -> usize
    requires few { length lines.now.lines ≤ MOST_TRIPS }
    ensures { All (λ row. length row ≤ result) lines.now.lines }
{
    let mut most = 0;
    for line in 0..lines.count() {
        let trips = lines.trips_of(line as u32).len();
        if trips > most {
            most = trips;
        }
    }
    most
}
