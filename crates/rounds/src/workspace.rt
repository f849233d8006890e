//! The workspace of a search.
ghost use Rattle.std.specs.Prelude.{◌≡◌, ◌<◌, ◌≤◌, length, OnOk};
ghost use Rattle.rounds.specs.Memory.{HoldsNothing};
ghost use Rattle.rounds.specs.Query.{IsWorkspaceFor};

use std::alloc::{AllocError, Global};
use timetable::{Lines, NEVER};
use trip_lanes::{Fall, LaneLabels, UNFALLEN};

/// The most stops of a network whose workspaces are kept for the next batch or origin. Those of a larger one hold
/// megabytes, and making them anew takes little beside a search.
const MOST_STOPS_KEPT: u32 = 10_000;

/// From when one may board at each stop, and what fell there since lines were scanned last.
#[derive(Drop)]
pub(crate) struct Readiness<R> {
    /// From when one may board.
    pub labels: Vec<R>,
    /// Whether a label fell.
    pub fallen: Vec<bool>,
    /// The labels before the first fall; of the stops in `fallen` alone. The last are of no stop.
    pub before: Vec<R>,
}

/// Labels and marks, of each stop or line. What they hold when a search begins doesn't matter.
#[derive(Drop)]
pub(crate) struct Workspace<R> {
    /// By when each stop is reached by a ride, for departures side by side.
    pub ride: Vec<R>,
    /// Whether the ride label of the stop fell in some lane in this round; before the first round, whether the stop is
    /// the origin.
    pub marked: Vec<bool>,
    pub ready: Readiness<R>,
    /// How far readiness fell at each stop since lines were scanned last.
    pub falls: Vec<Fall>,
    /// From which position on a line is scanned in this round, or `NEVER`.
    pub due: Vec<u32>,
}

impl<R: LaneLabels> Workspace<R> {
    /// An empty workspace.
    pub(crate) fn new(alloc: Global) -> Self
        ensures { HoldsNothing result }
    {
        Workspace {
            ride: Vec::new(alloc),
            marked: Vec::new(alloc),
            ready: Readiness {
                labels: Vec::new(alloc),
                fallen: Vec::new(alloc),
                before: Vec::new(alloc),
            },
            falls: Vec::new(alloc),
            due: Vec::new(alloc),
        }
    }

    /// Gives its memory back in a network of many stops, so that what is made next can take it.
    pub(crate) fn give_back(&mut self, alloc: Global, stops: u32)
        ensures given { MOST_STOPS_KEPT < stops → HoldsNothing self.new }
        ensures kept { stops ≤ MOST_STOPS_KEPT → self.new ≡ self.old }
    {
        if stops > MOST_STOPS_KEPT {
            *self = Workspace::new(alloc);
        }
    }

    /// Makes each list anew whose size isn't that of the network's stops or lines.
    pub(crate) fn fit(&mut self, alloc: Global, stops: u32, lines: &Lines) -> Result<(), AllocError>
        ensures { OnOk result (IsWorkspaceFor stops lines.now self.new) }
    {
        let count = stops as usize;
        make_labels(alloc, &mut self.ride, count)?;
        make_labels(alloc, &mut self.ready.labels, count)?;
        make_labels(alloc, &mut self.ready.before, count + 1)?;
        make_falls(alloc, &mut self.falls, count)?;
        make_marks(alloc, &mut self.marked, count)?;
        make_marks(alloc, &mut self.ready.fallen, count)?;
        make_due(alloc, &mut self.due, lines.count())
    }
}

/// Makes a list of labels of this length, unless it has it.
fn make_labels<R: LaneLabels>(
    alloc: Global,
    list: &mut Vec<R>,
    count: usize,
) -> Result<(), AllocError>
    ensures { OnOk result (length list.new.items ≡ count) }
{
    if list.len() != count {
        *list = vec![in alloc; R::all(R::NEVER); count]?;
    }
    Ok(())
}

/// Makes a list of falls of this length, unless it has it.
fn make_falls(alloc: Global, list: &mut Vec<Fall>, count: usize) -> Result<(), AllocError>
    ensures { OnOk result (length list.new.items ≡ count) }
{
    if list.len() != count {
        *list = vec![in alloc; UNFALLEN; count]?;
    }
    Ok(())
}

/// Makes a list of marks of this length, unless it has it.
fn make_marks(alloc: Global, list: &mut Vec<bool>, count: usize) -> Result<(), AllocError>
    ensures { OnOk result (length list.new.items ≡ count) }
{
    if list.len() != count {
        *list = vec![in alloc; false; count]?;
    }
    Ok(())
}

/// Makes a list of positions on lines of this length, unless it has it.
fn make_due(alloc: Global, list: &mut Vec<u32>, count: usize) -> Result<(), AllocError>
    ensures { OnOk result (length list.new.items ≡ count) }
{
    if list.len() != count {
        *list = vec![in alloc; NEVER; count]?;
    }
    Ok(())
}
