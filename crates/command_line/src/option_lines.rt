//! What the line of a bad option can't say: its text as it stands, and what is allowed.

ghost use Rattle.std.specs.Prelude.{◌≡◌, length, nat_lt};
ghost use Rattle.command_line.specs.Numbers.{parts_of};
ghost use Rattle.command_line.specs.declared.numbers.TheConstants.{MOST_NUMBERS};

use crate::numbers::MOST_NUMBERS;
use crate::task::Opt;
use crate::window::window_of;
use crate::words::text_of;
use console::{Console, shown, tell_line};
use rounds::MOST_RIDES;
use std::alloc::{AllocError, Global};
use studies::{MOST_DAYS, MOST_WORKERS};
use table_records::{number, trim};
use timetable::MOST_FOOT_SECONDS;
use work_book::MOST_TRIES;

/// The bytes of a date that has the form of one.
const DATE_LENGTH: usize = 8;

/// What a time of day is.
const MINUTE: &str = "a time of day is HH:MM, 00:00 to 23:59";

/// What is wrong with a list in which something else stands than numbers and commas.
const NO_LIST: &str =
    "a list is numbers parted by commas, with no space; each is digits alone, 0 to 4294967295";

/// What is wrong with a list whose numbers don't ascend.
const NO_ASCENT: &str = "each number of a list is greater than the one before it";

/// Tells what the line of a bad option can't say, if the arguments ask for a report: its text as it stands there, and
/// what is allowed.
pub fn explain_option<C: Console>(console: &C, alloc: Global, words: &[String], option: Opt) {
    if let Some(report) = text_at(alloc, words, "report") {
        if report.as_str() == "true" {
            tell_option(console, alloc, words, option);
        }
    }
}

/// The text of an option, if the arguments give it one. Out of memory gives none, so that only its line is left out.
fn text_at(alloc: Global, words: &[String], name: &str) -> Option<String> {
    match text_of(alloc, words, name) {
        Ok(text) => text,
        Err(_) => None,
    }
}

/// Tells the text of an option, and what is allowed.
fn tell_option<C: Console>(console: &C, alloc: Global, words: &[String], option: Opt) {
    match name_of(option) {
        Some(name) => {
            if let Some(text) = text_at(alloc, words, name) {
                tell_line(console, option_line(alloc, name, &text, option));
            }
        }
        None => tell_window(console, alloc, words),
    }
}

/// The name of an option with one text; none for the window, which has two.
fn name_of(option: Opt) -> Option<&'static str> {
    match option {
        Opt::Date => Some("date"),
        Opt::Window => None,
        Opt::Trips => Some("trips"),
        Opt::Walk => Some("walk"),
        Opt::Share => Some("share"),
        Opt::Within => Some("within"),
        Opt::Workers => Some("workers"),
        Opt::Tries => Some("tries"),
        Opt::Back => Some("back"),
        Opt::Ahead => Some("ahead"),
    }
}

/// An option whose text is refused.
fn option_line(alloc: Global, name: &str, text: &str, option: Opt) -> Result<String, AllocError> {
    let value = shown(alloc, text.as_bytes())?;
    let allowed = allowed(alloc, option, text.as_bytes())?;
    format!(in alloc; "ttm: --{name} is \"{value}\"; {allowed}\n")
}

/// What the text of an option has to be, in words, where it isn't.
fn allowed(alloc: Global, option: Opt, text: &[u8]) -> Result<String, AllocError> {
    match option {
        Opt::Date => String::from_str(alloc, of_date(text)),
        Opt::Window => String::from_str(alloc, MINUTE),
        Opt::Trips => format!(in alloc; "rides are a whole number, 1 to {MOST_RIDES}"),
        Opt::Walk => format!(in alloc; "a walk is whole seconds, 0 to {MOST_FOOT_SECONDS}"),
        Opt::Share => of_list(alloc, text, "shares"),
        Opt::Within => of_list(alloc, text, "limits"),
        Opt::Workers => format!(in alloc; "workers are a whole number, 1 to {MOST_WORKERS}"),
        Opt::Tries => format!(in alloc; "tries are a whole number, 1 to {MOST_TRIES}"),
        Opt::Back => of_days(alloc, "before"),
        Opt::Ahead => of_days(alloc, "after"),
    }
}

/// What is wrong with a date: it isn't written as one, or there is no such day.
fn of_date(text: &[u8]) -> &'static str {
    let text = trim(text);
    if text.len() == DATE_LENGTH && number(text).is_some() {
        "there is no such day"
    } else {
        "a date is YYYYMMDD"
    }
}

/// What is wrong with a list that is refused. Of limits of access one that ascends isn't.
fn of_list(alloc: Global, text: &[u8], kind: &str) -> Result<String, AllocError> {
    if !are_numbers(text) {
        String::from_str(alloc, NO_LIST)
    } else if are_many(text) {
        format!(in alloc; "there may be {MOST_NUMBERS} {kind}")
    } else if !ascends(text) {
        String::from_str(alloc, NO_ASCENT)
    } else {
        String::from_str(alloc, "a share is 1 to 100 percent")
    }
}

/// How many service days there may be on a side of the date.
fn of_days(alloc: Global, side: &str) -> Result<String, AllocError> {
    format!(in alloc; "service days {side} the date are a whole number, 0 to {MOST_DAYS}")
}

/// Whether the parts of a list are numbers.
fn are_numbers(text: &[u8]) -> bool {
    for part in text.split(|byte| *byte == b',') {
        if number(part).is_none() {
            return false;
        }
    }
    true
}

/// Whether a list has more parts than it may.
fn are_many(text: &[u8]) -> bool
    ensures { result ≡ nat_lt MOST_NUMBERS (length (parts_of text.now)) }
{
    text.split(|byte| *byte == b',').count() > MOST_NUMBERS
}

/// Whether each number of a list is greater than the one before it.
fn ascends(text: &[u8]) -> bool {
    let mut last: Option<u32> = None;
    for part in text.split(|byte| *byte == b',') {
        let next = number(part);
        if last.is_some() && next <= last {
            return false;
        }
        last = next;
    }
    true
}

/// Tells what is wrong with the window: each of its ends that is no time of day, or that they stand the wrong way
/// round.
fn tell_window<C: Console>(console: &C, alloc: Global, words: &[String]) {
    let Some(from) = text_at(alloc, words, "from") else {
        return;
    };
    let Some(to) = text_at(alloc, words, "to") else {
        return;
    };
    tell_minute(console, alloc, "from", &from);
    tell_minute(console, alloc, "to", &to);
    if is_minute(&from) && is_minute(&to) {
        tell_line(console, order_line(alloc, &from, &to));
    }
}

/// Tells what is wrong with an end of the window, if it is no time of day.
fn tell_minute<C: Console>(console: &C, alloc: Global, name: &str, text: &str) {
    if !is_minute(text) {
        tell_line(console, option_line(alloc, name, text, Opt::Window));
    }
}

/// Whether a text is a time of day: there is a window that begins and ends with it.
fn is_minute(text: &str) -> bool {
    window_of(text.as_bytes(), text.as_bytes()).is_some()
}

/// A window that ends before it begins.
fn order_line(alloc: Global, from: &str, to: &str) -> Result<String, AllocError> {
    let from = shown(alloc, from.as_bytes())?;
    let to = shown(alloc, to.as_bytes())?;
    format!(in alloc;
        "ttm: --from is \"{from}\" and --to is \"{to}\"; --to may not be before --from\n"
    )
}
