//! The narrow labels that a search leaves for a window of departures.
//!
//! They represent the durations of all minutes, which needn't be written out. `specs/Labels` defines which durations
//! labels represent.
ghost use Rattle.std.specs.Prelude.{◌<◌, OnOk};
ghost use Rattle.rounds.specs.Labels.{AreWalksFrom};

use crate::table::Durations;
use std::alloc::AllocError;
use timetable::{Renumbered, StopNo};
use useful_minutes::Found;

/// The narrow labels of a window, stop by stop in the order of the stops' numbers.
#[derive(Clone, Copy)]
pub struct WindowLabels<'a> {
    /// The labels, and from when on they count. There is space for fifteen stops after the last, and eight labels more:
    /// a reader can take stops in groups of sixteen, and labels in blocks of eight.
    pub found: Found<'a>,
    /// The searched minutes of the window, in ascending order.
    pub searched: &'a [u32],
    /// The first departure, in seconds on the axis.
    pub first: u32,
    /// How many departures there are, a minute apart.
    pub minutes: u32,
    /// The number of each stop.
    pub numbers: &'a [u32],
    /// The walks from the origin, and their seconds; a walk of 0 seconds to the origin itself is one of them. Stops are
    /// given by their numbers.
    pub walks: &'a [(StopNo, u32)],
}

/// The result of a search: narrow labels if they represent every arrival, else durations.
#[derive(Drop)]
pub enum LabelsOrDurations<'a> {
    /// Labels, which the next search overwrites.
    Labels(WindowLabels<'a>),
    /// The durations of all minutes.
    Durations(Durations),
}

/// Lists the walks alone from an origin: one of 0 seconds to the origin itself, and the footpaths that leave it. Out of
/// memory is the only error.
pub(crate) fn fill_walks(
    walks: &mut Vec<(StopNo, u32)>,
    network: &Renumbered<'_>,
    origin: StopNo,
) -> Result<(), AllocError>
    requires { origin.0 < network.now.stops }
    ensures { OnOk result (AreWalksFrom network.now origin.0 walks.new.items) }
{
    network.known();
    walks.clear();
    walks.push((origin, 0))?;
    walks.extend_from_slice(network.feet().leaving(origin))?;
    Ok(())
}
