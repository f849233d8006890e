//! The words of a question, and what they ask for beside the command line.
//!
//! A question names options that can differ from question to question; what it doesn't name is as on the command line.

ghost use Rattle.std.specs.Prelude.{◌≡◌, ◌<◌, ◌≤◌, ◌+◌, [], map, Some, None, IfOk, IfErr, IfSome, option_map};
ghost use Rattle.std.specs.Prelude.{string_bytes};
ghost use Rattle.clap.specs.Words.{found_of, rows_of, fault_of};
ghost use Rattle.table_records.specs.Faults.{IsFirst};
ghost use Rattle.studies.specs.Settings.{SettingsFit};
ghost use Rattle.workers.specs.Study.{LimitsFit, SharesFit};
ghost use Rattle.command_line.specs.Questions as spec;
ghost use Rattle.command_line.specs.Words as words;

use crate::lines::bad_line;
use crate::options::question_command;
use crate::statuses::{NO_ROOM, REFUSED};
use crate::task::{Opt, QuestionTask, WordFault};
use crate::window::{minute, window_from};
use crate::words::{copy_at, shares_at, text_at, within, withins_at};
use clap::ArgMatches;
use clap::error::ErrorKind;
use rounds::MOST_RIDES;
use std::alloc::{AllocError, Global};
use studies::{MOST_WORKERS, Settings};
use work_book::MOST_TRIES;

/// What the words of a question ask for, beside the settings of the command line.
///
/// The words are taken as those of the command line are, but for the options that no question changes, and with no
/// program's name before them.
pub fn question_of(
    alloc: Global,
    base: &Settings,
    words: &[String],
) -> Result<QuestionTask, WordFault>
    requires { SettingsFit base.now }
    ensures asked { IfOk result (λ question. spec.Asks (map string_bytes words.now) base.now question) }
    ensures fits { IfOk result (λ question. SettingsFit question.settings) }
    ensures fault { IfErr result (λ fault. spec.TellsQuestion fault (map string_bytes words.now) base.now) }
{
    let matches = matched(alloc, words)?;
    let settings = match settings_over(alloc, &matches, base) {
        Ok(Ok(settings)) => settings,
        Ok(Err(opt)) => return Err(WordFault::Bad(opt)),
        Err(_) => return Err(WordFault::Memory),
    };
    match with_paths(alloc, &matches, settings) {
        Ok(question) => Ok(question),
        Err(_) => Err(WordFault::Memory),
    }
}

/// The status of a question whose words ask for nothing.
pub fn question_status(fault: &WordFault) -> u8
    ensures status { result ≡ spec.question_status_of fault.now }
    ensures no_success { 1 ≤ result }
{
    match fault {
        WordFault::Words(_) | WordFault::Bad(_) => REFUSED,
        WordFault::Memory => NO_ROOM,
    }
}

/// The line that tells why the words of a question ask for nothing.
pub fn question_line(alloc: Global, fault: &WordFault) -> Result<Vec<u8>, AllocError>
    ensures { IfOk result (λ line. spec.IsQuestionLine fault.now line.items) }
{
    match fault {
        WordFault::Words(error) => {
            let text = format!(in alloc; "{error}")?;
            first_line(alloc, text.as_bytes())
        }
        WordFault::Bad(option) => Vec::from_slice(alloc, bad_line(*option)),
        WordFault::Memory => Vec::from_slice(alloc, b"ttm: out of memory\n"),
    }
}

/// The first line of a text, with LF at its end.
fn first_line(alloc: Global, text: &[u8]) -> Result<Vec<u8>, AllocError>
    ensures { IfOk result (λ line. line.items ≡ spec.first_line text.now) }
{
    let mut line = Vec::new(alloc);
    for byte in text {
        if *byte == b'\n' {
            break;
        }
        line.push(*byte)?;
    }
    line.push(b'\n')?;
    Ok(line)
}

/// What the words of a question give each option.
fn matched<'a>(alloc: Global, words: &'a [String]) -> Result<ArgMatches<'a>, WordFault>
    ensures rows { IfOk result (λ m. rows_of (found_of m) ≡ spec.rows_of_question (map string_bytes words.now)) }
    ensures taken { IfOk result (λ _. fault_of spec.question_app (map string_bytes words.now) ≡ []) }
    ensures fault { IfErr result (λ fault. spec.TellsUntaken fault (map string_bytes words.now)) }
{
    let command = question_command(alloc)?;
    match command.try_get_matches_from(words) {
        Ok(matches) => Ok(matches),
        Err(error) => match error.kind() {
            ErrorKind::OutOfMemory => Err(WordFault::Memory),
            _ => Err(WordFault::Words(error)),
        },
    }
}

/// The settings of a question, or the first option whose text is bad.
fn settings_over(
    alloc: Global,
    matches: &ArgMatches<'_>,
    base: &Settings,
) -> Result<Result<Settings, Opt>, AllocError>
    requires { SettingsFit base.now }
    ensures asked { IfOk result (λ made. IfOk made
        (λ settings. spec.IsAskedOver (rows_of (found_of matches.now)) base.now settings)) }
    ensures fits { IfOk result (λ made. IfOk made (λ settings. SettingsFit settings)) }
    ensures bad { IfOk result (λ made. IfErr made
        (λ o. IsFirst o (spec.bad_options_over (rows_of (found_of matches.now)) base.now))) }
{
    let shares = shares_over(alloc, matches, base)?;
    let withins = withins_over(alloc, matches, base)?;
    Ok(settings_with(matches, base, shares, withins))
}

/// The same with the lists of numbers, each there if its text lists some.
fn settings_with(
    matches: &ArgMatches<'_>,
    base: &Settings,
    shares: Option<Vec<u32>>,
    withins: Option<Vec<u32>>,
) -> Result<Settings, Opt>
    requires base { SettingsFit base.now }
    requires shares { option_map (λ list. list.items) shares
        ≡ spec.shares_over (rows_of (found_of matches.now)) base.now }
    requires withins { option_map (λ list. list.items) withins
        ≡ spec.withins_over (rows_of (found_of matches.now)) base.now }
    requires shares_fit { IfSome shares (λ list. SharesFit list.items) }
    requires withins_fit { IfSome withins (λ list. LimitsFit list.items) }
    ensures asked { IfOk result (λ settings. spec.IsAskedOver (rows_of (found_of matches.now)) base.now settings) }
    ensures fits { IfOk result (λ settings. SettingsFit settings) }
    ensures bad { IfErr result (λ o. IsFirst o (spec.bad_options_over (rows_of (found_of matches.now)) base.now)) }
{
    let (first, minutes) = window_over(matches, base)?;
    let rides = number_over(
        text_at(matches, "trips"),
        Opt::Trips,
        MOST_RIDES,
        base.rides,
    )?;
    let Some(shares) = shares else {
        return Err(Opt::Share);
    };
    let Some(withins) = withins else {
        return Err(Opt::Within);
    };
    let workers = number_over(
        text_at(matches, "workers"),
        Opt::Workers,
        MOST_WORKERS,
        base.workers,
    )?;
    let tries = number_over(
        text_at(matches, "tries"),
        Opt::Tries,
        MOST_TRIES,
        base.tries,
    )?;
    Ok(Settings {
        date: base.date,
        back: base.back,
        ahead: base.ahead,
        first,
        minutes,
        rides,
        walk: base.walk,
        shares,
        withins,
        workers,
        tries,
    })
}

/// The first minute of the day with a departure, and the number of minutes.
fn window_over(matches: &ArgMatches<'_>, base: &Settings) -> Result<(u32, u32), Opt>
    requires { SettingsFit base.now }
    ensures ok { IfOk result (λ window. spec.window_over (rows_of (found_of matches.now)) base.now ≡ Some window) }
    ensures fits { IfOk result (λ window. (1 ≤ window.1) × (window.0 + window.1 ≤ 1440)) }
    ensures bad { IfErr result (λ o. (o ≡ Opt.Window)
        × (spec.window_over (rows_of (found_of matches.now)) base.now ≡ None)) }
{
    let Some(first) = minute_over(text_at(matches, "from"), base.first) else {
        return Err(Opt::Window);
    };
    let Some(last) = minute_over(text_at(matches, "to"), base.first + base.minutes - 1) else {
        return Err(Opt::Window);
    };
    match window_from(first, last) {
        Some(window) => Ok(window),
        None => Err(Opt::Window),
    }
}

/// The minute of the day of a text, if there is one, and else the one that stays.
fn minute_over(text: Option<&str>, stays: u32) -> Option<u32>
    requires { stays < 1440 }
    ensures value { result ≡ spec.minute_over (option_map (λ t. t.now) text.entry) stays }
    ensures small { IfSome result (λ minute. minute < 1440) }
{
    match text {
        Some(text) => minute(text.as_bytes()),
        None => Some(stays),
    }
}

/// The number of a text from 1 to `high`, if there is a text, and else the one that stays.
fn number_over(text: Option<&str>, opt: Opt, high: u32, stays: u32) -> Result<u32, Opt>
    requires low { 1 ≤ stays }
    requires high { stays ≤ high }
    ensures ok { IfOk result (λ n. spec.over (words.number_in 1 high) (option_map (λ t. t.now) text.entry) stays
        ≡ Some n) }
    ensures limits { IfOk result (λ n. (1 ≤ n) × (n ≤ high)) }
    ensures bad { IfErr result (λ o. (o ≡ opt)
        × (spec.over (words.number_in 1 high) (option_map (λ t. t.now) text.entry) stays ≡ None)) }
{
    let Some(text) = text else {
        return Ok(stays);
    };
    match within(1, high, text) {
        Some(number) => Ok(number),
        None => Err(opt),
    }
}

/// The shares that their text lists, if it lists some; without a text those that stay.
fn shares_over(
    alloc: Global,
    matches: &ArgMatches<'_>,
    base: &Settings,
) -> Result<Option<Vec<u32>>, AllocError>
    requires { SettingsFit base.now }
    ensures value { IfOk result (λ list. option_map (λ shares. shares.items) list
        ≡ spec.shares_over (rows_of (found_of matches.now)) base.now) }
    ensures fits { IfOk result (λ list. IfSome list (λ shares. SharesFit shares.items)) }
{
    match text_at(matches, "share") {
        Some(_) => shares_at(alloc, matches),
        None => Ok(Some(Vec::from_slice(alloc, &base.shares)?)),
    }
}

/// The limits of access that their text lists, if it lists some; without a text those that stay.
fn withins_over(
    alloc: Global,
    matches: &ArgMatches<'_>,
    base: &Settings,
) -> Result<Option<Vec<u32>>, AllocError>
    requires { SettingsFit base.now }
    ensures value { IfOk result (λ list. option_map (λ withins. withins.items) list
        ≡ spec.withins_over (rows_of (found_of matches.now)) base.now) }
    ensures fits { IfOk result (λ list. IfSome list (λ withins. LimitsFit withins.items)) }
{
    match text_at(matches, "within") {
        Some(_) => withins_at(alloc, matches),
        None => Ok(Some(Vec::from_slice(alloc, &base.withins)?)),
    }
}

/// The question of some settings, with copies of the paths.
fn with_paths(
    alloc: Global,
    matches: &ArgMatches<'_>,
    settings: Settings,
) -> Result<QuestionTask, AllocError>
    ensures settings { IfOk result (λ question. question.settings ≡ settings) }
    ensures paths { IfOk result (λ question. spec.NamesFiles (rows_of (found_of matches.now)) question) }
{
    Ok(QuestionTask {
        settings,
        origins: copy_at(alloc, matches, "origins")?,
        opportunities: copy_at(alloc, matches, "opportunities")?,
        destinations: copy_at(alloc, matches, "destinations")?,
    })
}
