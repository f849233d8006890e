//! What runs on the days of a study and in its scenarios, and where one can walk.

use crate::calendar_lines::tell_calendar;
use console::{Console, shown, tell_count, tell_count_of, warn};
use gtfs_tables::Feed;
use jiff::civil::Date;
use scenarios::Scenario;
use service_days::{Run, active};
use std::alloc::Global;
use studies::Settings;
use timetable::{Feet, StopNo};

/// What is said where nobody can walk from a stop to another.
const NO_WALKS: &str = "no walk leads anywhere, so changes are at one stop alone; \
    ttm-tools walks makes a file for --footpaths, and --walk says how long a walk may be";

/// What is said where no trip runs on the date of the departures.
const NO_RUNS: &str = "no trip runs on the date itself; is it a date of the feed's calendar?";

/// What a scenario does to the runs of a study.
#[derive(Clone, Copy)]
struct Effect {
    /// How many runs it keeps.
    kept: u64,
    /// How many of these it shifts.
    shifted: u64,
}

/// Tells how many pairs of stops have a walk.
pub(crate) fn tell_walks<C: Console>(console: &C, alloc: Global, feet: &Feet) {
    let walks = walk_count(feet);
    tell_count(console, alloc, "closed footpaths", walks);
    if walks == 0 {
        warn(console, alloc, NO_WALKS);
    }
}

/// How many pairs of stops have a walk.
fn walk_count(feet: &Feet) -> u64 {
    let mut count: u64 = 0;
    for stop in 0..feet.stops() {
        count = count.saturating_add(feet.leaving(StopNo(stop)).len() as u64);
    }
    count
}

/// Tells how many runs each service day of a study has.
pub(crate) fn tell_days<C: Console>(console: &C, alloc: Global, feed: &Feed, settings: &Settings) {
    let Some(first) = days_before(settings.date, settings.back) else {
        return;
    };
    let mut day = first;
    for number in 0..settings
        .back
        .saturating_add(settings.ahead)
        .saturating_add(1)
    {
        tell_day(console, alloc, feed, day, number == settings.back);
        match day.tomorrow() {
            Ok(next) => day = next,
            Err(_) => return,
        }
    }
}

/// The day so many days before a date.
fn days_before(date: Date, days: u32) -> Option<Date> {
    let mut day = date;
    for _ in 0..days {
        match day.yesterday() {
            Ok(before) => day = before,
            Err(_) => return None,
        }
    }
    Some(day)
}

/// Tells how many runs a day has, which may be the date of the departures.
fn tell_day<C: Console>(console: &C, alloc: Global, feed: &Feed, day: Date, is_date: bool) {
    let Some(runs) = runs_on(alloc, feed, day) else {
        return;
    };
    if let Ok(name) = format!(in alloc; "{day}") {
        tell_count_of(console, alloc, "runs on", &name, runs);
    }
    if is_date && runs == 0 {
        warn(console, alloc, NO_RUNS);
        tell_calendar(console, alloc, feed, day);
    }
}

/// How many runs a day has.
fn runs_on(alloc: Global, feed: &Feed, day: Date) -> Option<u64> {
    match active(alloc, feed, day, 0, 0) {
        Ok(runs) => Some(runs.len() as u64),
        Err(_) => None,
    }
}

/// Tells how many runs each scenario has, the base first.
pub(crate) fn tell_scenarios<C: Console>(
    console: &C,
    alloc: Global,
    feed: &Feed,
    scenarios: &[Scenario],
    runs: &[Run],
) {
    for (number, scenario) in scenarios.iter().enumerate() {
        tell_scenario(console, alloc, feed, scenario, runs, number == 0);
    }
}

/// Tells how many runs a scenario has, and that it changes nothing where it should.
fn tell_scenario<C: Console>(
    console: &C,
    alloc: Global,
    feed: &Feed,
    scenario: &Scenario,
    runs: &[Run],
    is_base: bool,
) {
    let effect = effect_of(feed, scenario, runs);
    let Ok(name) = shown(alloc, scenario.name()) else {
        return;
    };
    tell_count_of(console, alloc, "runs in scenario", &name, effect.kept);
    if !is_base && effect.kept == runs.len() as u64 && effect.shifted == 0 {
        warn(
            console,
            alloc,
            "this scenario changes nothing on the days of the study",
        );
    }
}

/// What a scenario does to some runs.
fn effect_of(feed: &Feed, scenario: &Scenario, runs: &[Run]) -> Effect {
    let mut effect = Effect {
        kept: 0,
        shifted: 0,
    };
    for run in runs {
        if keeps(feed, scenario, *run) {
            effect.kept = effect.kept.saturating_add(1);
            if scenario.shift(run.trip) != 0 {
                effect.shifted = effect.shifted.saturating_add(1);
            }
        }
    }
    effect
}

/// Whether a scenario keeps a run.
fn keeps(feed: &Feed, scenario: &Scenario, run: Run) -> bool {
    run.trip < feed.trip_count() && scenario.keeps(feed, run.trip)
}
