//! The calls that search a network, over 400 trips along a line, and those that tell what a window's durations come to.

use crate::small_networks::{FIRST, LINE, SECOND, a_line, small_network};
use rounds::{Durations, Search, Window, durations, one_minute};
use shares::{cells, cells_at, cells_of, cells_of_at};
use std::alloc::{AllocError, Global};
use study_trials::Outcome;
use timetable::{END_OF_AXIS, Network, StopNo};

/// A call that searches a network.
#[derive(Clone, Copy)]
pub(crate) enum Call {
    OneMinute,
    Durations,
    /// `Search::durations`.
    Search,
}

/// A call over the durations of a window.
#[derive(Clone, Copy)]
pub(crate) enum Cells {
    OfOneShare,
    OfTwoShares,
    /// `cells_at`, for C and A.
    At,
    /// `cells_of_at`, for C and A.
    OfTwoSharesAt,
}

/// 06:00 to 06:59.
const HOUR: Window = Window {
    first: 21_600,
    minutes: 60,
};

/// 07:58 to 08:01, where the last minute misses the first ride.
const FOUR_MINUTES: Window = Window {
    first: 28_680,
    minutes: 4,
};

/// The trial of a call that searches the line from its first stop.
pub(crate) fn try_call(alloc: Global, call: Call) -> Outcome {
    match a_line(alloc) {
        Some(network) => try_over(alloc, &network, call),
        None => Outcome::Inputs,
    }
}

fn try_over(alloc: Global, network: &Network, call: Call) -> Outcome {
    let mut search = Search::new(alloc);
    match ask(alloc, &mut search, network, call) {
        Ok(is_right) => Outcome::at_once(is_right),
        Err(_) => Outcome::again(ask(alloc, &mut search, network, call)),
    }
}

/// Whether a call finds the stops two minutes apart.
fn ask(
    alloc: Global,
    search: &mut Search,
    network: &Network,
    call: Call,
) -> Result<bool, AllocError> {
    if network.stops() != LINE || !HOUR.fits() || HOUR.first >= END_OF_AXIS {
        return Ok(false);
    }
    let from = StopNo(0);
    match call {
        Call::OneMinute => { Ok(are_apart(&one_minute(alloc, network, from, HOUR.first, 2)?)) }
        Call::Durations => Ok(lie_apart(&durations(alloc, network, from, HOUR, 2)?)),
        Call::Search => Ok(lie_apart(&search.durations(alloc, network, from, HOUR, 2)?)),
    }
}

/// Whether these are the durations to stops two minutes apart.
fn are_apart(durations: &[u32]) -> bool {
    for (stop, duration) in durations.iter().enumerate() {
        if *duration as usize != stop.saturating_mul(120) {
            return false;
        }
    }
    durations.len() == LINE as usize
}

/// Whether the stops lie two minutes apart in each minute.
fn lie_apart(found: &Durations) -> bool {
    if found.stops() != LINE || found.minutes() != HOUR.minutes {
        return false;
    }
    for stop in 0..LINE {
        if !lies_at(found, stop, 120 * stop) {
            return false;
        }
    }
    true
}

/// Whether a stop lies so many seconds away in each minute.
fn lies_at(found: &Durations, stop: u32, seconds: u32) -> bool {
    if stop >= found.stops() {
        return false;
    }
    for minute in 0..found.minutes() {
        if found.at(StopNo(stop), minute) != Some(seconds) {
            return false;
        }
    }
    true
}

/// The trial of a call over the durations of four minutes.
pub(crate) fn try_cells(alloc: Global, call: Cells) -> Outcome {
    match small_network(alloc, &[FIRST, SECOND]) {
        Some(network) => try_cells_over(alloc, &network, call),
        None => Outcome::Inputs,
    }
}

fn try_cells_over(alloc: Global, network: &Network, call: Cells) -> Outcome {
    if network.stops() != 3 || !FOUR_MINUTES.fits() {
        return Outcome::Wrong;
    }
    match durations(alloc, network, StopNo(0), FOUR_MINUTES, 2) {
        Ok(found) => try_cells_of(alloc, &found, call),
        Err(_) => Outcome::Inputs,
    }
}

fn try_cells_of(alloc: Global, found: &Durations, call: Cells) -> Outcome {
    Outcome::of(|| ask_cells(alloc, found, call))
}

/// Whether a call gives the cells of half of the minutes, and of three quarters.
fn ask_cells(alloc: Global, found: &Durations, call: Cells) -> Result<bool, AllocError> {
    let half = [Some(0), Some(660), Some(1_860)];
    let more = [Some(0), Some(720), Some(1_920)];
    if found.stops() != 3 {
        return Ok(false);
    }
    match call {
        Cells::OfOneShare => Ok(cells(alloc, found, 50)?.as_slice() == half.as_slice()),
        Cells::OfTwoShares => {
            let lists = cells_of(alloc, found, &[50, 75])?;
            Ok(
                lists.len() == 2
                    && lists[0].as_slice() == half.as_slice()
                    && lists[1].as_slice() == more.as_slice(),
            )
        }
        Cells::At => {
            let cells = cells_at(alloc, found, &[StopNo(2), StopNo(0)], 50)?;
            Ok(cells.as_slice() == [Some(1_860), Some(0)].as_slice())
        }
        Cells::OfTwoSharesAt => {
            let lists = cells_of_at(alloc, found, &[StopNo(2), StopNo(0)], &[50, 75])?;
            Ok(
                lists.len() == 2
                    && lists[0].as_slice() == [Some(1_860), Some(0)].as_slice()
                    && lists[1].as_slice() == [Some(1_920), Some(0)].as_slice(),
            )
        }
    }
}
