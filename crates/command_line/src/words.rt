//! The arguments, and the study that they ask for.
//!
//! How arguments are split into options is `clap`'s rule, of one simple command: each option has one text, but for the
//! flag of a report, which has none; and the arguments that belong to no option are scenario files. What the texts say
//! is read here.

ghost use Rattle.std.specs.Prelude.{◌≡◌, ◌≤◌, ◌+◌, [], map, Some, None, is_some, IfOk, IfErr, IfSome, option_map};
ghost use Rattle.std.specs.Prelude.{string_bytes, codes, true, false};
ghost use Rattle.clap.specs.Words.{found_of, rows_of, fault_of};
ghost use Rattle.jiff.specs.Words.{epoch_day};
ghost use Rattle.table_records.specs.Faults.{IsFirst};
ghost use Rattle.studies.specs.Settings.{SettingsFit};
ghost use Rattle.studies.specs.declared.limits.TheConstants.{MOST_DAYS};
ghost use Rattle.workers.specs.Study.{LimitsFit, SharesFit};
ghost use Rattle.command_line.specs.Words as spec;

use crate::numbers::numbers_of;
use crate::options::command;
use crate::statuses::{DONE, NO_ROOM, REFUSED};
use crate::task::{Opt, Task, WordFault};
use crate::window::window_of;
use clap::ArgMatches;
use clap::error::ErrorKind;
use jiff::civil::Date;
use rounds::MOST_RIDES;
use std::alloc::{AllocError, Global};
use studies::{MOST_DAYS, MOST_WORKERS, Settings};
use table_records::{number, read_date, trim};
use timetable::MOST_FOOT_SECONDS;
use work_book::MOST_TRIES;
use workers::are_shares;

/// The study that the arguments ask for; the first is the program's name.
///
/// The arguments are taken as one command of `clap`, whose help names each option with its unit and limits. Beside the
/// options' own limits, `--to` isn't before `--from`. Spaces around a number or a date don't count; a list of numbers
/// has none.
pub fn task_of(alloc: Global, words: &[String]) -> Result<Task, WordFault>
    ensures taken { IfOk result (λ _. fault_of spec.study_app (map string_bytes words.now) ≡ []) }
    ensures asked { IfOk result (λ task. spec.IsAsked (spec.rows_of_words (map string_bytes words.now)) task.settings) }
    ensures fits { IfOk result (λ task. SettingsFit task.settings) }
    ensures paths { IfOk result (λ task. spec.NamesFiles (spec.rows_of_words (map string_bytes words.now)) task) }
    ensures reported { IfOk result (λ task. task.report
        ≡ spec.is_reported (spec.rows_of_words (map string_bytes words.now))) }
    ensures asks { IfOk result (λ task. task.asks
        ≡ spec.is_conversation (spec.rows_of_words (map string_bytes words.now))) }
    ensures fault { IfErr result (λ fault. spec.Tells fault (map string_bytes words.now)) }
{
    let matches = matched(alloc, words)?;
    let settings = match settings_at(alloc, &matches) {
        Ok(Ok(settings)) => settings,
        Ok(Err(opt)) => return Err(WordFault::Bad(opt)),
        Err(_) => return Err(WordFault::Memory),
    };
    match with_paths(alloc, &matches, settings) {
        Ok(task) => Ok(task),
        Err(_) => Err(WordFault::Memory),
    }
}

/// The text that the arguments give an option, by its name without the dashes; none where they give it none. What a
/// flag has as text is `true` or `false`.
///
/// The arguments are taken by the same command as those of a study, and are refused where it refuses them.
pub fn text_of(alloc: Global, words: &[String], id: &str) -> Result<Option<String>, WordFault>
    ensures text { IfOk result (λ text. spec.text_at (spec.rows_of_words (map string_bytes words.now)) id.now
        ≡ option_map string_bytes text) }
    ensures fault { IfErr result (λ fault. spec.Tells fault (map string_bytes words.now)) }
{
    let matches = matched(alloc, words)?;
    Ok(copy_at(alloc, &matches, id)?)
}

/// The exit status where the arguments ask for no study; help and the version are no fault.
pub fn word_status(fault: &WordFault) -> u8
    ensures { result ≡ spec.word_status_of fault.now }
{
    match fault {
        WordFault::Words(error) => match error.kind() {
            ErrorKind::DisplayHelp | ErrorKind::DisplayVersion => DONE,
            _ => REFUSED,
        },
        WordFault::Bad(_) => REFUSED,
        WordFault::Memory => NO_ROOM,
    }
}

/// What the arguments give each option.
fn matched<'a>(alloc: Global, words: &'a [String]) -> Result<ArgMatches<'a>, WordFault>
    ensures rows { IfOk result (λ m. rows_of (found_of m) ≡ spec.rows_of_words (map string_bytes words.now)) }
    ensures feed { IfOk result (λ m. is_some (spec.text_at (rows_of (found_of m)) (codes "feed")) ≡ true) }
    ensures taken { IfOk result (λ _. fault_of spec.study_app (map string_bytes words.now) ≡ []) }
    ensures fault { IfErr result (λ fault. spec.Tells fault (map string_bytes words.now)) }
{
    let command = command(alloc)?;
    match command.try_get_matches_from(words) {
        Ok(matches) => Ok(matches),
        Err(error) => match error.kind() {
            ErrorKind::OutOfMemory => Err(WordFault::Memory),
            _ => Err(WordFault::Words(error)),
        },
    }
}

/// The text of an option, in the words of `specs/Words` rather than those of `clap`.
pub(crate) fn text_at<'a>(matches: &ArgMatches<'a>, id: &str) -> Option<&'a str>
    ensures { option_map (λ text. text.now) result ≡ spec.text_at (rows_of (found_of matches.now)) id.now }
{
    matches.get_str(id)
}

/// The date of the departures.
fn date_at(matches: &ArgMatches<'_>) -> Result<Date, Opt>
    ensures ok { IfOk result (λ date. spec.date_of (rows_of (found_of matches.now)) ≡ Some (epoch_day date)) }
    ensures bad { IfErr result (λ o. (o ≡ Opt.Date) × (spec.date_of (rows_of (found_of matches.now)) ≡ None)) }
{
    let Some(text) = text_at(matches, "date") else {
        return Err(Opt::Date);
    };
    match read_date(text.as_bytes()) {
        Some(date) => Ok(date),
        None => Err(Opt::Date),
    }
}

/// The first minute of the day with a departure, and the number of minutes.
fn window_at(matches: &ArgMatches<'_>) -> Result<(u32, u32), Opt>
    ensures ok { IfOk result (λ window. spec.window_of (rows_of (found_of matches.now)) ≡ Some window) }
    ensures fits { IfOk result (λ window. (1 ≤ window.1) × (window.0 + window.1 ≤ 1440)) }
    ensures bad { IfErr result (λ o. (o ≡ Opt.Window) × (spec.window_of (rows_of (found_of matches.now)) ≡ None)) }
{
    let Some(from) = text_at(matches, "from") else {
        return Err(Opt::Window);
    };
    let Some(to) = text_at(matches, "to") else {
        return Err(Opt::Window);
    };
    match window_of(from.as_bytes(), to.as_bytes()) {
        Some(window) => Ok(window),
        None => Err(Opt::Window),
    }
}

/// The number of a text, if it is within its limits.
pub(crate) fn within(low: u32, high: u32, text: &str) -> Option<u32>
    ensures value { result ≡ spec.number_in low high (Some text.now) }
    ensures limits { IfSome result (λ n. (low ≤ n) × (n ≤ high)) }
{
    let number = number(trim(text.as_bytes()))?;
    if low <= number && number <= high {
        Some(number)
    } else {
        None
    }
}

/// The number of an option, from `low` to `high`.
fn number_at(matches: &ArgMatches<'_>, opt: Opt, id: &str, low: u32, high: u32) -> Result<u32, Opt>
    ensures ok { IfOk result (λ n. spec.number_in low high (spec.text_at (rows_of (found_of matches.now)) id.now)
        ≡ Some n) }
    ensures limits { IfOk result (λ n. (low ≤ n) × (n ≤ high)) }
    ensures bad { IfErr result (λ o. (o ≡ opt)
        × (spec.number_in low high (spec.text_at (rows_of (found_of matches.now)) id.now) ≡ None)) }
{
    let Some(text) = text_at(matches, id) else {
        return Err(opt);
    };
    match within(low, high, text) {
        Some(number) => Ok(number),
        None => Err(opt),
    }
}

/// The number of service days of an option; it is one where the option isn't given.
fn days_at(matches: &ArgMatches<'_>, opt: Opt, id: &str) -> Result<u32, Opt>
    ensures ok { IfOk result (λ n. spec.number_in 0 MOST_DAYS
        (spec.or_one (spec.text_at (rows_of (found_of matches.now)) id.now)) ≡ Some n) }
    ensures limits { IfOk result (λ n. n ≤ MOST_DAYS) }
    ensures bad { IfErr result (λ o. (o ≡ opt)
        × (spec.number_in 0 MOST_DAYS (spec.or_one (spec.text_at (rows_of (found_of matches.now)) id.now))
        ≡ None)) }
{
    let text = match text_at(matches, id) {
        Some(text) => text,
        None => "1",
    };
    match within(0, MOST_DAYS, text) {
        Some(number) => Ok(number),
        None => Err(opt),
    }
}

/// The shares that their option lists, if its text lists some.
pub(crate) fn shares_at(
    alloc: Global,
    matches: &ArgMatches<'_>,
) -> Result<Option<Vec<u32>>, AllocError>
    ensures value { IfOk result (λ list. option_map (λ shares. shares.items) list
        ≡ spec.shares_of (rows_of (found_of matches.now))) }
    ensures fits { IfOk result (λ list. IfSome list (λ shares. SharesFit shares.items)) }
{
    let Some(text) = text_at(matches, "share") else {
        return Ok(None);
    };
    let Some(shares) = numbers_of(alloc, text.as_bytes())? else {
        return Ok(None);
    };
    if are_shares(&shares) {
        Ok(Some(shares))
    } else {
        Ok(None)
    }
}

/// The limits of access that their option lists, if its text lists some.
pub(crate) fn withins_at(
    alloc: Global,
    matches: &ArgMatches<'_>,
) -> Result<Option<Vec<u32>>, AllocError>
    ensures value { IfOk result (λ list. option_map (λ withins. withins.items) list
        ≡ spec.withins_of (rows_of (found_of matches.now))) }
    ensures fits { IfOk result (λ list. IfSome list (λ withins. LimitsFit withins.items)) }
{
    match text_at(matches, "within") {
        Some(text) => numbers_of(alloc, text.as_bytes()),
        None => Ok(None),
    }
}

/// The settings that the texts ask for, or the first option whose text is bad.
fn settings_at(alloc: Global, matches: &ArgMatches<'_>) -> Result<Result<Settings, Opt>, AllocError>
    ensures asked { IfOk result (λ made. IfOk made
        (λ settings. spec.IsAsked (rows_of (found_of matches.now)) settings)) }
    ensures fits { IfOk result (λ made. IfOk made (λ settings. SettingsFit settings)) }
    ensures bad { IfOk result (λ made. IfErr made
        (λ o. IsFirst o (spec.bad_options (rows_of (found_of matches.now))))) }
{
    let shares = shares_at(alloc, matches)?;
    let withins = withins_at(alloc, matches)?;
    Ok(settings_with(matches, shares, withins))
}

/// The same with the lists of numbers, each there if its text lists some.
fn settings_with(
    matches: &ArgMatches<'_>,
    shares: Option<Vec<u32>>,
    withins: Option<Vec<u32>>,
) -> Result<Settings, Opt>
    requires shares { option_map (λ list. list.items) shares ≡ spec.shares_of (rows_of (found_of matches.now)) }
    requires withins { option_map (λ list. list.items) withins ≡ spec.withins_of (rows_of (found_of matches.now)) }
    requires shares_fit { IfSome shares (λ list. SharesFit list.items) }
    requires withins_fit { IfSome withins (λ list. LimitsFit list.items) }
    ensures asked { IfOk result (λ settings. spec.IsAsked (rows_of (found_of matches.now)) settings) }
    ensures fits { IfOk result (λ settings. SettingsFit settings) }
    ensures bad { IfErr result (λ o. IsFirst o (spec.bad_options (rows_of (found_of matches.now)))) }
{
    let date = date_at(matches)?;
    let (first, minutes) = window_at(matches)?;
    let rides = number_at(matches, Opt::Trips, "trips", 1, MOST_RIDES)?;
    let walk = number_at(matches, Opt::Walk, "walk", 0, MOST_FOOT_SECONDS)?;
    let Some(shares) = shares else {
        return Err(Opt::Share);
    };
    let Some(withins) = withins else {
        return Err(Opt::Within);
    };
    let workers = number_at(matches, Opt::Workers, "workers", 1, MOST_WORKERS)?;
    let tries = number_at(matches, Opt::Tries, "tries", 1, MOST_TRIES)?;
    let back = days_at(matches, Opt::Back, "back")?;
    let ahead = days_at(matches, Opt::Ahead, "ahead")?;
    Ok(Settings {
        date,
        back,
        ahead,
        first,
        minutes,
        rides,
        walk,
        shares,
        withins,
        workers,
        tries,
    })
}

/// A copy of the text of an option, if it is given.
pub(crate) fn copy_at(
    alloc: Global,
    matches: &ArgMatches<'_>,
    id: &str,
) -> Result<Option<String>, AllocError>
    ensures { IfOk result (λ text. spec.text_at (rows_of (found_of matches.now)) id.now
        ≡ option_map string_bytes text) }
{
    match text_at(matches, id) {
        Some(text) => Ok(Some(String::from_str(alloc, text)?)),
        None => Ok(None),
    }
}

/// Copies of texts.
fn copies(alloc: Global, texts: &[&str]) -> Result<Vec<String>, AllocError>
    ensures { IfOk result (λ copies. map string_bytes copies.items ≡ map (λ text. text.now) texts.now) }
{
    let mut copies = Vec::new(alloc);
    for text in texts {
        copies.push(String::from_str(alloc, text)?)?;
    }
    Ok(copies)
}

/// The paths of the scenario files.
fn scenarios_at(alloc: Global, matches: &ArgMatches<'_>) -> Result<Vec<String>, AllocError>
    ensures { IfOk result (λ paths. spec.scenarios_at (rows_of (found_of matches.now)) ≡ map string_bytes paths.items) }
{
    match matches.get_strs("scenario") {
        Some(texts) => copies(alloc, texts),
        None => Ok(Vec::new(alloc)),
    }
}

/// Whether a flag is given.
fn flag_at(matches: &ArgMatches<'_>, id: &str) -> bool
    ensures { result ≡ spec.has_flag (rows_of (found_of matches.now)) id.now }
{
    match text_at(matches, id) {
        Some(text) => text == "true",
        None => false,
    }
}

/// The task of some settings, with copies of the paths.
fn with_paths(
    alloc: Global,
    matches: &ArgMatches<'_>,
    settings: Settings,
) -> Result<Task, AllocError>
    requires { is_some (spec.text_at (rows_of (found_of matches.now)) (codes "feed")) ≡ true }
    ensures settings { IfOk result (λ task. task.settings ≡ settings) }
    ensures paths { IfOk result (λ task. spec.NamesFiles (rows_of (found_of matches.now)) task) }
    ensures reported { IfOk result (λ task. task.report ≡ spec.is_reported (rows_of (found_of matches.now))) }
    ensures asks { IfOk result (λ task. task.asks ≡ spec.is_conversation (rows_of (found_of matches.now))) }
{
    let Some(feed) = text_at(matches, "feed") else {
        unreachable!();
    };
    Ok(Task {
        feed: String::from_str(alloc, feed)?,
        settings,
        footpaths: copy_at(alloc, matches, "footpaths")?,
        origins: copy_at(alloc, matches, "origins")?,
        opportunities: copy_at(alloc, matches, "opportunities")?,
        destinations: copy_at(alloc, matches, "destinations")?,
        scenarios: scenarios_at(alloc, matches)?,
        report: flag_at(matches, "report"),
        asks: flag_at(matches, "ask"),
    })
}
