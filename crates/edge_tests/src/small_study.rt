//! The small feed, and what a test asks of it.

use gtfs_tables::read_date;
use small_feed::{FROM_A, WALKS, small_files};
use std::alloc::Global;
use studies::{Inputs, NamedFile, Settings};

/// What is asked: the date, the days before and after it that count, and the shares; and what the console is like: when
/// its clock begins and by how much it goes on, and what the machine has free.
#[derive(Clone, Copy)]
pub(crate) struct Asked {
    pub(crate) date: &'static [u8],
    pub(crate) back: u32,
    pub(crate) ahead: u32,
    pub(crate) shares: &'static [u32],
    pub(crate) start: u64,
    pub(crate) step: u64,
    pub(crate) terminal: bool,
    pub(crate) free: u64,
}

pub(crate) const MONDAY: Asked = Asked {
    date: b"20260504",
    back: 1,
    ahead: 1,
    shares: &[50],
    start: 0,
    step: 61_000,
    terminal: false,
    free: 1000,
};

/// The small feed, with walks, from stop A.
pub(crate) fn small_inputs() -> Inputs<'static> {
    Inputs {
        feed: small_files(),
        footpaths: Some(WALKS),
        origins: Some(FROM_A),
        opportunities: None,
        destinations: None,
        scenarios: &[],
    }
}

/// The settings of a study of one minute, by one worker.
pub(crate) fn settings_of(alloc: Global, asked: Asked) -> Option<Settings> {
    let date = read_date(asked.date)?;
    let shares = Vec::from_slice(alloc, asked.shares).ok()?;
    let withins = Vec::from_slice(alloc, &[1800]).ok()?;
    Some(Settings {
        date,
        back: asked.back,
        ahead: asked.ahead,
        first: 480,
        minutes: 1,
        rides: 2,
        walk: 120,
        shares,
        withins,
        workers: 1,
        tries: 1,
    })
}

/// A scenario file.
pub(crate) fn scenario_file(alloc: Global, name: &[u8], bytes: &[u8]) -> Option<NamedFile> {
    let name = Vec::from_slice(alloc, name).ok()?;
    let bytes = Vec::from_slice(alloc, bytes).ok()?;
    Some(NamedFile { name, bytes })
}
