//! A study, stage after stage: reading, days, walks, networks, durations with their cells, and text.
//! Each stage hands what it made to the next, which first prints how long that took and how much it is.
ghost use Rattle.std.specs.Prelude.{◌≤◌, All, length};
ghost use Rattle.service_days.specs.Instances.{IsRun};

use crate::asked::{Asked, Part};
use crate::feed_files::read_feed_files;
use crate::figures::per_second;
use crate::networks::make_networks;
use crate::origins::time_origins;
use crate::own_files::{OwnFiles, read_all, read_own};
use crate::rows::time_apart;
use crate::sizes::{event_count, pair_count};
use crate::tables::{Tables, names_of, read_tables};
use crate::telling::{refuse, tell, tell_fault, tell_stage};
use collector::Matrix;
use footpaths::{close, limit_fits};
use gtfs_tables::{Feed, FeedBytes, read_feed};
use matrix_text::{Labels, write_matrix};
use service_days::{Run, active};
use std::io;
use std::time::Instant;
use timetable::{Feet, Network};
use workers::{Study, one_thread};

/// Of a hundred minutes, for how many a cell's travel time must suffice.
const SHARES: &[u32] = &[50];

/// The longest travel time, in seconds, at which a stop counts for access.
const LIMITS: &[u32] = &[1800];

/// Times the stages of a study over the feed of a folder. The own files are that of footpaths, that of origins, and
/// those of scenarios.
pub(crate) fn time_study(
    rt: &HostRuntime,
    asked: Asked,
    folder: &str,
    own: &[String],
) -> io::Result<()>
    requires { 2 ≤ length own.now }
{
    let footpaths = read_own(rt, own[0].as_str())?;
    let origins = read_own(rt, own[1].as_str())?;
    let scenarios = read_all(rt, &own[2..])?;
    let own = OwnFiles {
        footpaths: footpaths.as_deref(),
        origins: origins.as_deref(),
        scenarios: scenarios.as_slice(),
    };
    time_files(rt, asked, folder, own)
}

// The own files are in memory: the feed's are read.
fn time_files(rt: &HostRuntime, asked: Asked, folder: &str, own: OwnFiles<'_>) -> io::Result<()> {
    let files = read_feed_files(rt, folder)?;
    time_reading(rt, asked, &files.bytes(), own)
}

// All files are in memory: the feed is read from them.
fn time_reading(
    rt: &HostRuntime,
    asked: Asked,
    files: &FeedBytes<'_>,
    own: OwnFiles<'_>,
) -> io::Result<()> {
    if !files.fits() {
        return refuse(rt, "a file is too long");
    }
    let start = Instant::now(rt)?;
    match read_feed(rt.alloc(), files) {
        Ok(feed) => {
            let timed = time_tables(rt, asked, &feed, own, start);
            drop(feed);
            timed
        }
        Err(fault) => tell_fault(rt, &fault),
    }
}

// The feed is read: the own files are too.
fn time_tables(
    rt: &HostRuntime,
    asked: Asked,
    feed: &Feed,
    own: OwnFiles<'_>,
    start: Instant,
) -> io::Result<()> {
    match read_tables(rt.alloc(), feed, own) {
        Ok(tables) => time_days(rt, asked, feed, &tables, start),
        Err(fault) => tell_fault(rt, &fault),
    }
}

// All is read: the runs are listed.
fn time_days(
    rt: &HostRuntime,
    asked: Asked,
    feed: &Feed,
    tables: &Tables,
    start: Instant,
) -> io::Result<()> {
    let time = tell_stage(rt, "reading", start)?;
    tell_feed(rt, feed, time)?;
    tell(rt, "direct footpaths", tables.direct.pairs().len() as u64)?;
    let start = Instant::now(rt)?;
    match active(rt.alloc(), feed, asked.date, asked.around, asked.around) {
        Ok(runs) => time_walks(rt, asked, feed, tables, runs.as_slice(), start),
        Err(fault) => tell_fault(rt, &fault),
    }
}

fn tell_feed(rt: &HostRuntime, feed: &Feed, time: u64) -> io::Result<()> {
    let events = event_count(feed);
    tell(rt, "stops", u64::from(feed.stop_count()))?;
    tell(rt, "trips", u64::from(feed.trip_count()))?;
    tell(rt, "stop events", events)?;
    tell(rt, "stop events per second", per_second(events, time))
}

// The runs are listed: the footpaths are closed.
fn time_walks(
    rt: &HostRuntime,
    asked: Asked,
    feed: &Feed,
    tables: &Tables,
    runs: &[Run],
    start: Instant,
) -> io::Result<()>
    requires { All (IsRun feed.now) runs.now }
{
    tell_stage(rt, "days", start)?;
    tell(rt, "runs", runs.len() as u64)?;
    if !limit_fits(asked.walk) {
        return refuse(rt, "the walk is too long");
    }
    let start = Instant::now(rt)?;
    match close(rt.alloc(), &tables.direct, asked.walk) {
        Ok(feet) => {
            tell_stage(rt, "walks", start)?;
            time_networks(rt, asked, feed, tables, runs, &feet)
        }
        Err(fault) => tell_fault(rt, &fault),
    }
}

// The footpaths are closed: the networks are made.
fn time_networks(
    rt: &HostRuntime,
    asked: Asked,
    feed: &Feed,
    tables: &Tables,
    runs: &[Run],
    feet: &Feet,
) -> io::Result<()>
    requires { All (IsRun feed.now) runs.now }
{
    tell(rt, "closed pairs", pair_count(feet))?;
    if feet.stops() != feed.stop_count() {
        return refuse(rt, "the footpaths are of other stops");
    }
    let start = Instant::now(rt)?;
    match make_networks(rt.alloc(), feed, &tables.scenarios, runs, feet) {
        Ok(networks) => time_part(rt, asked, feed, tables, &networks, start),
        Err(fault) => tell_fault(rt, &fault),
    }
}

// The networks are made: the part that is asked for is computed.
fn time_part(
    rt: &HostRuntime,
    asked: Asked,
    feed: &Feed,
    tables: &Tables,
    networks: &[Network],
    start: Instant,
) -> io::Result<()> {
    tell_stage(rt, "networks", start)?;
    match (asked.part, networks.first()) {
        (Part::Durations, Some(base)) => time_origins(rt, asked, base, &tables.origins),
        _ => time_durations(rt, asked, feed, tables, networks),
    }
}

// The networks are made: the durations are computed, with their cells. Each stop counts for one opportunity.
fn time_durations(
    rt: &HostRuntime,
    asked: Asked,
    feed: &Feed,
    tables: &Tables,
    networks: &[Network],
) -> io::Result<()> {
    let opportunities = vec![in rt.alloc(); 1; feed.stop_count() as usize]?;
    time_query(rt, asked, feed, tables, networks, &opportunities)
}

// What is asked of every network is put together. One lifetime for all that the study holds: the prover asks for it.
fn time_query<'a>(
    rt: &HostRuntime,
    asked: Asked,
    feed: &Feed,
    tables: &'a Tables,
    networks: &'a [Network],
    opportunities: &'a [u32],
) -> io::Result<()> {
    let study = Study {
        number: 0,
        networks,
        origins: tables.origins.as_slice(),
        opportunities,
        window: asked.window,
        rides: asked.rides,
        shares: SHARES,
        withins: LIMITS,
        destinations: tables.destinations.as_slice(),
    };
    time_rows(rt, asked.part, feed, tables, &study)
}

// The study is put together: its matrix is computed.
fn time_rows(
    rt: &HostRuntime,
    part: Part,
    feed: &Feed,
    tables: &Tables,
    study: &Study<'_>,
) -> io::Result<()> {
    if !study.fits() {
        return refuse(rt, "the study is past its limits");
    }
    match part {
        Part::Rows | Part::Days => time_apart(rt, study)?,
        _ => {}
    }
    let start = Instant::now(rt)?;
    match one_thread(rt.alloc(), study) {
        Ok(matrix) => time_text(rt, feed, tables, &matrix, start),
        Err(fault) => tell_fault(rt, &fault),
    }
}

// The matrix is computed: the names of its rows are listed.
fn time_text(
    rt: &HostRuntime,
    feed: &Feed,
    tables: &Tables,
    matrix: &Matrix,
    start: Instant,
) -> io::Result<()> {
    tell_stage(rt, "durations", start)?;
    let rows = u64::from(matrix.scenarios()).saturating_mul(u64::from(matrix.origins()));
    tell(rt, "rows", rows)?;
    let start = Instant::now(rt)?;
    let names = names_of(rt.alloc(), &tables.scenarios)?;
    let labels = Labels {
        scenarios: names.as_slice(),
        origins: tables.origins.as_slice(),
        shares: SHARES,
        limits: LIMITS,
        destinations: tables.destinations.as_slice(),
        feed,
    };
    time_writing(rt, &labels, matrix, start)
}

// All is named: the text is written to memory.
fn time_writing(
    rt: &HostRuntime,
    labels: &Labels<'_>,
    matrix: &Matrix,
    start: Instant,
) -> io::Result<()> {
    if !labels.fit(matrix) {
        return refuse(rt, "the labels are of another matrix");
    }
    let mut text = Vec::new(rt.alloc());
    match write_matrix(rt.alloc(), matrix, labels, &mut text) {
        Ok(()) => {
            tell_stage(rt, "text", start)?;
            tell(rt, "bytes of text", text.len() as u64)
        }
        Err(fault) => tell_fault(rt, &fault),
    }
}
