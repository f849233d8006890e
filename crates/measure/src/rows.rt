//! The rows of a study's first network, each in two parts: its search, and then its cells and access. The second part
//! is timed twice, for the study's percentile and limit, and for eight percentiles and three limits.
ghost use Rattle.std.specs.Prelude.{◌≡◌, ◌<◌, ◌≤◌, length};
ghost use Rattle.rounds.specs.Labels.{AreWindowLabels};
ghost use Rattle.workers.specs.Study.{study_of, StudyFits};

use crate::figures::micros;
use crate::telling::{refuse, tell};
use label_cells::{CellBuffers, Question, ShareCells, cells_and_access};
use rounds::{Durations, LabelsOrDurations, Search, WindowLabels};
use shares::{access_at, cells_of_at};
use std::io;
use std::time::Instant;
use timetable::{Network, StopNo};
use workers::Study;

/// The percentiles of the longer question.
const MANY_SHARES: &[u32] = &[5, 10, 25, 50, 75, 85, 90, 95];

/// The limits of the longer question, in seconds.
const MANY_LIMITS: &[u32] = &[1800, 2700, 3600];

/// The microseconds of some rows' parts, and a sum of their access.
#[derive(Clone, Copy)]
struct RowTimes {
    search: u64,
    /// With the study's percentiles and limits.
    cells: u64,
    /// With many.
    many: u64,
    /// So that no compiler leaves the access out.
    access: u64,
}

/// The microseconds that some cells and their access took, and a sum of the access.
#[derive(Clone, Copy)]
struct CellTimes {
    micros: u64,
    access: u64,
}

/// The buffers that serve all rows, as a worker's do.
#[derive(Drop)]
struct Buffers {
    search: Search,
    cells: CellBuffers,
}

/// Times the rows of the first network with the same buffers, as a worker does.
pub(crate) fn time_apart(rt: &HostRuntime, study: &Study<'_>) -> io::Result<()>
    requires { StudyFits (study_of study.now) }
{
    let many = Study {
        number: study.number,
        networks: study.networks,
        origins: study.origins,
        opportunities: study.opportunities,
        window: study.window,
        rides: study.rides,
        shares: MANY_SHARES,
        withins: MANY_LIMITS,
        destinations: study.destinations,
    };
    if !many.fits() {
        return refuse(rt, "the study is past its limits");
    }
    match study.networks.first() {
        Some(network) if network.stops() as usize == study.opportunities.len() => {
            time_each(rt, study, &many, network)
        }
        _ => refuse(rt, "the study has no network of its stops"),
    }
}

// The same buffers serve all origins.
fn time_each(
    rt: &HostRuntime,
    study: &Study<'_>,
    many: &Study<'_>,
    network: &Network,
) -> io::Result<()>
    requires fits { StudyFits (study_of study.now) }
    requires many { StudyFits (study_of many.now) }
    requires stops { network.now.stops ≡ length study.now.opportunities.now }
    requires same { network.now.stops ≡ length many.now.opportunities.now }
{
    let mut buffers = Buffers {
        search: Search::new(rt.alloc()),
        cells: CellBuffers::new(rt.alloc()),
    };
    let mut sum = RowTimes {
        search: 0,
        cells: 0,
        many: 0,
        access: 0,
    };
    for stop in study.origins {
        if stop.0 >= network.stops() {
            return refuse(rt, "an origin is no stop of the network");
        }
        let row = time_row(rt, study, many, network, &mut buffers, *stop)?;
        sum = RowTimes {
            search: sum.search.saturating_add(row.search),
            cells: sum.cells.saturating_add(row.cells),
            many: sum.many.saturating_add(row.many),
            access: sum.access.wrapping_add(row.access),
        };
    }
    tell(rt, "rows' search, us", sum.search)?;
    tell(rt, "rows' cells and access, us", sum.cells)?;
    tell(
        rt,
        "rows' cells and access of eight percentiles, us",
        sum.many,
    )?;
    tell(rt, "rows' access", sum.access)
}

/// Times the row of one origin.
fn time_row(
    rt: &HostRuntime,
    study: &Study<'_>,
    many: &Study<'_>,
    network: &Network,
    buffers: &mut Buffers,
    origin: StopNo,
) -> io::Result<RowTimes>
    requires fits { StudyFits (study_of study.now) }
    requires many { StudyFits (study_of many.now) }
    requires stops { network.now.stops ≡ length study.now.opportunities.now }
    requires same { network.now.stops ≡ length many.now.opportunities.now }
    requires origin { origin.0 < network.now.stops }
{
    let cells = &mut buffers.cells;
    let search = &mut buffers.search;
    let start = Instant::now(rt)?;
    let found = search.labels_or_durations(rt.alloc(), network, origin, study.window, study.rides)?;
    let searched = micros(start.elapsed(rt)?);
    let (one, more) = match found {
        LabelsOrDurations::Labels(labels) => (
            time_labels(rt, cells, labels, study)?,
            time_labels(rt, cells, labels, many)?,
        ),
        LabelsOrDurations::Durations(durations) => (
            time_durations(rt, &durations, study)?,
            time_durations(rt, &durations, many)?,
        ),
    };
    Ok(RowTimes {
        search: searched,
        cells: one.micros,
        many: more.micros,
        access: one.access.wrapping_add(more.access),
    })
}

/// Times cells and access from narrow labels.
fn time_labels(
    rt: &HostRuntime,
    buffers: &mut CellBuffers,
    labels: WindowLabels<'_>,
    study: &Study<'_>,
) -> io::Result<CellTimes>
    requires fits { StudyFits (study_of study.now) }
    requires labels { AreWindowLabels labels }
    requires stops { length labels.numbers.now ≡ length study.now.opportunities.now }
{
    let question = Question {
        destinations: study.destinations,
        shares: study.shares,
        opportunities: study.opportunities,
        limits: study.withins,
    };
    let start = Instant::now(rt)?;
    let given = cells_and_access(rt.alloc(), buffers, labels, question)?;
    let micros = micros(start.elapsed(rt)?);
    let access = sum_of(&given);
    Ok(CellTimes { micros, access })
}

/// The sum of the access of all shares.
fn sum_of(given: &[ShareCells]) -> u64 {
    let mut sum = 0;
    for of_share in given {
        sum = sum_with(sum, &of_share.access);
    }
    sum
}

/// The access of a share for all limits, in a sum with another.
fn sum_with(other: u64, access: &[u64]) -> u64 {
    let mut sum = other;
    for count in access {
        sum = sum.wrapping_add(*count);
    }
    sum
}

/// Times cells and access from durations.
fn time_durations(rt: &HostRuntime, found: &Durations, study: &Study<'_>) -> io::Result<CellTimes>
    requires fits { StudyFits (study_of study.now) }
    requires stops { found.now.stops ≡ length study.now.opportunities.now }
{
    let start = Instant::now(rt)?;
    let lists = cells_of_at(rt.alloc(), found, study.destinations, study.shares)?;
    let access = access_of(study, found);
    let micros = micros(start.elapsed(rt)?);
    drop(lists);
    Ok(CellTimes { micros, access })
}

/// The sum of a row's access over all shares.
fn access_of(study: &Study<'_>, found: &Durations) -> u64
    requires fits { StudyFits (study_of study.now) }
    requires stops { found.now.stops ≡ length study.now.opportunities.now }
{
    let mut sum = 0;
    for share in study.shares {
        sum = access_within(study, found, *share, sum);
    }
    sum
}

/// The access of a share for all limits, in a sum with another.
fn access_within(study: &Study<'_>, found: &Durations, share: u32, other: u64) -> u64
    requires stops { found.now.stops ≡ length study.now.opportunities.now }
    requires share { share ≤ 100 }
{
    let mut sum = other;
    for limit in study.withins {
        sum = sum.wrapping_add(access_at(found, study.opportunities, share, *limit));
    }
    sum
}
