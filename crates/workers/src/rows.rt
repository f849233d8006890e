//! Rows: what one scenario gives for one origin.
//!
//! A search leaves narrow labels, and then cells and access come straight from them; or it leaves durations, if labels
//! can't represent every arrival. Both ways give the same row.
ghost use Rattle.std.specs.Prelude.{◌≡◌, ◌<◌, ◌≤◌, length, map, IfOk};
ghost use Rattle.rounds.specs.Labels.{AreWindowLabels};
ghost use Rattle.shares.specs.Percentiles.{AreCellsAt, AreCellsOfAt};
ghost use Rattle.workers.specs.Study.{study_of, StudyFits};
ghost use Rattle.workers.specs.Rows.{AreOfShares, AreSums, IsOfShare, IsRowOf};
ghost use Rattle.workers.specs.FoundRows.{AreOfLabels, AreSharesOf, row_cells};

use crate::study::Study;
use collector::{Cells, Row};
use label_cells::{CellBuffers, Question, ShareCells, cells_and_access};
use rounds::{Durations, LabelsOrDurations, Search, WindowLabels};
use shares::{access_at, cells_of_at};
use std::alloc::{AllocError, Global};

/// The workspaces of a search and of its cells. They serve one row after another, of any scenario and origin.
#[derive(Drop)]
pub(crate) struct RowBuffers {
    search: Search,
    cells: CellBuffers,
}

impl RowBuffers {
    /// Creates empty buffers.
    pub(crate) fn new(alloc: Global) -> Self {
        RowBuffers {
            search: Search::new(alloc),
            cells: CellBuffers::new(alloc),
        }
    }
}

/// A door for other programs: the row of a scenario and an origin, by their positions from 0. For each share it has the
/// travel time to each destination that so many of the window's minutes attain, and for each limit the opportunities at
/// the stops within reach, of all stops.
///
/// The only error is out of memory.
pub fn row_of(alloc: Global, study: &Study, scenario: u32, origin: u32) -> Result<Row, AllocError>
    requires fits { StudyFits (study_of study.now) }
    requires scenario { scenario < length study.now.networks.now }
    requires origin { origin < length study.now.origins.now }
    ensures { IfOk result (λ row. IsRowOf (study_of study.now) scenario origin row) }
{
    let mut buffers = RowBuffers::new(alloc);
    row_with(alloc, &mut buffers, study, scenario, origin)
}

/// The same row, found with buffers that may have served other rows before.
pub(crate) fn row_with(
    alloc: Global,
    buffers: &mut RowBuffers,
    study: &Study,
    scenario: u32,
    origin: u32,
) -> Result<Row, AllocError>
    requires fits { StudyFits (study_of study.now) }
    requires scenario { scenario < length study.now.networks.now }
    requires origin { origin < length study.now.origins.now }
    ensures { IfOk result (λ row. IsRowOf (study_of study.now) scenario origin row) }
{
    let cells = &mut buffers.cells;
    let search = &mut buffers.search;
    let shares = shares_of(alloc, cells, search, study, scenario, origin)?;
    Ok(Row {
        study: study.number,
        scenario,
        origin,
        shares,
    })
}

/// Searches from the origin over the scenario's network, and returns the cells and the access of each share.
fn shares_of(
    alloc: Global,
    buffers: &mut CellBuffers,
    search: &mut Search,
    study: &Study,
    scenario: u32,
    origin: u32,
) -> Result<Vec<Cells>, AllocError>
    requires fits { StudyFits (study_of study.now) }
    requires scenario { scenario < length study.now.networks.now }
    requires origin { origin < length study.now.origins.now }
    ensures { IfOk result (λ shares. AreSharesOf (study_of study.now) scenario origin shares.items) }
{
    let network = &study.networks[scenario as usize];
    let stop = study.origins[origin as usize];
    match search.labels_or_durations(alloc, network, stop, study.window, study.rides)? {
        LabelsOrDurations::Labels(labels) => shares_of_labels(alloc, buffers, labels, study),
        LabelsOrDurations::Durations(durations) => shares_of_durations(alloc, &durations, study),
    }
}

/// Returns the cells and the access of each share, from narrow labels.
fn shares_of_labels(
    alloc: Global,
    buffers: &mut CellBuffers,
    labels: WindowLabels<'_>,
    study: &Study,
) -> Result<Vec<Cells>, AllocError>
    requires fits { StudyFits (study_of study.now) }
    requires labels { AreWindowLabels labels }
    requires stops { length labels.numbers.now ≡ length study.now.opportunities.now }
    ensures { IfOk result (λ shares. AreOfLabels labels.entry (study_of study.now) shares.items) }
{
    let question = Question {
        destinations: study.destinations,
        shares: study.shares,
        opportunities: study.opportunities,
        limits: study.withins,
    };
    let given = cells_and_access(alloc, buffers, labels, question)?;
    in_row(alloc, given)
}

/// Moves the cells and the access of each share into the form of a row. Out of memory is the only error.
fn in_row(alloc: Global, given: Vec<ShareCells>) -> Result<Vec<Cells>, AllocError>
    ensures { IfOk result (λ shares. shares.items ≡ map row_cells given.items) }
{
    let mut shares = Vec::with_capacity(alloc, given.len())?;
    for of_share in given {
        let ShareCells { cells, access } = of_share;
        shares.push(Cells { cells, access })?;
    }
    Ok(shares)
}

/// Returns the cells and the access of each share, from the durations of all minutes.
fn shares_of_durations(
    alloc: Global,
    durations: &Durations,
    study: &Study,
) -> Result<Vec<Cells>, AllocError>
    requires fits { StudyFits (study_of study.now) }
    requires stops { durations.now.stops ≡ length study.now.opportunities.now }
    ensures { IfOk result (λ shares. AreOfShares durations.now (study_of study.now) shares.items) }
{
    let lists = cells_of_at(alloc, durations, study.destinations, study.shares)?;
    with_access(alloc, durations, study, lists)
}

/// What each share gives: the cells of the destinations, which these are, and the access for each limit.
fn with_access(
    alloc: Global,
    durations: &Durations,
    study: &Study,
    lists: Vec<Vec<Option<u32>>>,
) -> Result<Vec<Cells>, AllocError>
    requires fits { StudyFits (study_of study.now) }
    requires stops { durations.now.stops ≡ length study.now.opportunities.now }
    requires lists { AreCellsOfAt durations.now study.now.destinations.now study.now.shares.now lists.items }
    ensures { IfOk result (λ shares. AreOfShares durations.now (study_of study.now) shares.items) }
{
    let mut shares = Vec::with_capacity(alloc, lists.len())?;
    for cells in lists {
        let share = study.shares[shares.len()];
        shares.push(given_of(alloc, durations, study, share, cells)?)?;
    }
    Ok(shares)
}

/// What a share gives, with these cells.
fn given_of(
    alloc: Global,
    durations: &Durations,
    study: &Study,
    share: u32,
    cells: Vec<Option<u32>>,
) -> Result<Cells, AllocError>
    requires fits { StudyFits (study_of study.now) }
    requires stops { durations.now.stops ≡ length study.now.opportunities.now }
    requires share { share ≤ 100 }
    requires cells { AreCellsAt durations.now study.now.destinations.now share cells.items }
    ensures { IfOk result (λ given.
        IsOfShare durations.now study.now.opportunities.now study.now.withins.now study.now.destinations.now
        share given) }
{
    let access = sums_of(alloc, durations, study.opportunities, share, study.withins)?;
    Ok(Cells { cells, access })
}

/// The access of a share for each limit, in the limits' order.
fn sums_of(
    alloc: Global,
    durations: &Durations,
    opportunities: &[u32],
    share: u32,
    limits: &[u32],
) -> Result<Vec<u64>, AllocError>
    requires same { durations.now.stops ≡ length opportunities.now }
    requires share { share ≤ 100 }
    ensures { IfOk result (λ sums. AreSums durations.now share opportunities.now limits.now sums.items) }
{
    let mut sums = Vec::with_capacity(alloc, limits.len())?;
    for limit in limits {
        sums.push(access_at(durations, opportunities, share, *limit))?;
    }
    Ok(sums)
}
