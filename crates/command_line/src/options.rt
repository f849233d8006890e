//! The command of `clap` that takes the arguments, and the one that takes the words of a question: their options as
//! tables, in the order of the help.

ghost use Rattle.std.specs.Prelude.{◌≡◌, IfOk, false, map};
ghost use Rattle.clap.specs.Words.{app_of, rule_of, with_rule};
ghost use Rattle.command_line.specs.Questions as questions;
ghost use Rattle.command_line.specs.Words as spec;

use crate::option_text::OptionText;
use crate::version::VERSION;
use clap::{Arg, ArgAction, Command};
use std::alloc::{AllocError, Global};

const ABOUT: &str = "Travel time matrices over a GTFS feed, for a base network and for scenarios.";

/// The end of the help: an example, and how a refusal is explained.
const END: &str =
    "Example: ttm --feed town --date 20260504 --from 08:00 --to 08:59 --trips 3 --walk 600 --share 50 \
    --within 1800 --workers 4 --tries 2 cut.csv\n\n\
    After a refusal, the same command with --report explains it: the value that is wrong, and what is allowed.";

/// The folder of the feed.
const FEED: OptionText = OptionText {
    name: "feed",
    value: "DIR",
    help: "Folder of the feed's files, as stops.txt",
    is_needed: true,
};

/// The date of the departures.
const DATE: OptionText = OptionText {
    name: "date",
    value: "YYYYMMDD",
    help: "Date of the departures",
    is_needed: true,
};

/// The first minute of the window.
const FROM: OptionText = OptionText {
    name: "from",
    value: "HH:MM",
    help: "First minute of departure, 00:00 to 23:59",
    is_needed: true,
};

/// The last minute of the window.
const TO: OptionText = OptionText {
    name: "to",
    value: "HH:MM",
    help: "Last minute of departure, 00:00 to 23:59, not before --from",
    is_needed: true,
};

/// The most rides.
const TRIPS: OptionText = OptionText {
    name: "trips",
    value: "K",
    help: "Most rides of a journey, 1 to 8",
    is_needed: true,
};

/// The longest walk.
const WALK: OptionText = OptionText {
    name: "walk",
    value: "S",
    help: "Longest walk in seconds, 0 to 7200",
    is_needed: true,
};

/// The shares of the minutes.
const SHARE: OptionText = OptionText {
    name: "share",
    value: "P",
    help: "Share of the minutes in percent that a travel time covers, 1 to 100; 1 to 8 shares, ascending, as 25,50",
    is_needed: true,
};

/// The limits of access.
const WITHIN: OptionText = OptionText {
    name: "within",
    value: "S",
    help: "Travel time in seconds within which a stop counts for access, 0 to 4294967295; \
        1 to 8 limits, ascending, as 900,1800",
    is_needed: true,
};

/// The worker threads.
const WORKERS: OptionText = OptionText {
    name: "workers",
    value: "N",
    help: "Number of threads, 1 to 64",
    is_needed: true,
};

/// How often a row may be begun.
const TRIES: OptionText = OptionText {
    name: "tries",
    value: "N",
    help: "How often each row may be begun, 1 to 8",
    is_needed: true,
};

/// The service days before the date.
const BACK: OptionText = OptionText {
    name: "back",
    value: "N",
    help: "Service days before the date that count, 0 to 6; 0 where the network is too large [default: 1]",
    is_needed: false,
};

/// The service days after the date.
const AHEAD: OptionText = OptionText {
    name: "ahead",
    value: "N",
    help: "Service days after the date that count, 0 to 6; 0 where the network is too large [default: 1]",
    is_needed: false,
};

/// The file of origins.
const ORIGINS: OptionText = OptionText {
    name: "origins",
    value: "F",
    help: "File of the stops where journeys begin [default: all stops]",
    is_needed: false,
};

/// The file of opportunities.
const OPPORTUNITIES: OptionText = OptionText {
    name: "opportunities",
    value: "F",
    help: "File of the opportunities at stops [default: 1 at each]",
    is_needed: false,
};

/// The file of destinations.
const DESTINATIONS: OptionText = OptionText {
    name: "destinations",
    value: "F",
    help: "File of the stops that have a column of travel times [default: all stops]",
    is_needed: false,
};

/// The file of further footpaths.
const FOOTPATHS: OptionText = OptionText {
    name: "footpaths",
    value: "F",
    help: "File of further footpaths, in seconds [default: none]",
    is_needed: false,
};

/// What the help says of the flag of a report.
const REPORT: &str =
    "Tell on standard error what was read, what seems wrong, and how far the rows are";

/// What the help says of the flag of a conversation.
const ASK: &str =
    "Keep the network, read questions from the standard input, and answer each of them";

/// The options of a run: the feed and the departures, the journeys and what is told of them, the run, the service days
/// beside that of the date, and the analyst's own files.
const OPTIONS: &[OptionText] = &[
    FEED,
    DATE,
    FROM,
    TO,
    TRIPS,
    WALK,
    SHARE,
    WITHIN,
    WORKERS,
    TRIES,
    BACK,
    AHEAD,
    ORIGINS,
    OPPORTUNITIES,
    DESTINATIONS,
    FOOTPATHS,
];

/// The options of a question: the others are those of what is kept.
const QUESTION_OPTIONS: &[OptionText] = &[
    FROM,
    TO,
    TRIPS,
    SHARE,
    WITHIN,
    WORKERS,
    TRIES,
    ORIGINS,
    OPPORTUNITIES,
    DESTINATIONS,
];

/// The command.
pub(crate) fn command<'a>(alloc: Global) -> Result<Command<'a>, AllocError>
    ensures { IfOk result (λ c. app_of c ≡ spec.study_app) }
{
    let command = Command::new(alloc, "ttm")
        .version(VERSION)
        .about(ABOUT)
        .after_help(END);
    let command = with_options(alloc, command, OPTIONS, true)?;
    with_flags(alloc, command)?.arg(scenario_files(alloc))
}

/// The command that takes the words of a question. It has no help and no version to tell, and each of its words is one
/// of the question.
pub(crate) fn question_command<'a>(alloc: Global) -> Result<Command<'a>, AllocError>
    ensures { IfOk result (λ c. app_of c ≡ questions.question_app) }
{
    let command = Command::new(alloc, "ttm")
        .no_binary_name(true)
        .disable_help_flag(true);
    with_options(alloc, command, QUESTION_OPTIONS, false)
}

/// The command with more options, which must be given where the table says so and `must` is true.
fn with_options<'a>(
    alloc: Global,
    command: Command<'a>,
    options: &[OptionText],
    must: bool,
) -> Result<Command<'a>, AllocError>
    ensures { IfOk result (λ c. app_of c
        ≡ spec.with_rules (app_of command.entry) (map (spec.rule_in must) options.now)) }
{
    let mut command = command;
    for option in options {
        command = command.arg(argument(alloc, option, must))?;
    }
    Ok(command)
}

/// An option with one text as value.
fn argument<'a>(alloc: Global, option: &OptionText, must: bool) -> Arg<'a>
    ensures rule { rule_of result ≡ spec.rule_in must option.now }
    ensures local { result.global ≡ false }
{
    Arg::new(alloc, option.name)
        .long(option.name)
        .action(ArgAction::Set)
        .value_name(option.value)
        .help(option.help)
        .required(must && option.is_needed)
}

/// The command with the flags of a run.
fn with_flags<'a>(alloc: Global, command: Command<'a>) -> Result<Command<'a>, AllocError>
    ensures { IfOk result (λ c. app_of c
        ≡ with_rule (with_rule (app_of command.entry) spec.report_rule) spec.ask_rule) }
{
    command
        .arg(flag(alloc, "report", REPORT))?
        .arg(flag(alloc, "ask", ASK))
}

/// A flag. It has no text.
fn flag<'a>(alloc: Global, name: &'a str, help: &'a str) -> Arg<'a>
    ensures rule { rule_of result ≡ spec.flag_rule name.now }
    ensures local { result.global ≡ false }
{
    Arg::new(alloc, name)
        .long(name)
        .action(ArgAction::SetTrue)
        .help(help)
}

/// The scenario files: the arguments that belong to no option.
fn scenario_files<'a>(alloc: Global) -> Arg<'a>
    ensures rule { rule_of result ≡ spec.scenario_rule }
    ensures local { result.global ≡ false }
{
    Arg::new(alloc, "scenario")
        .action(ArgAction::Append)
        .num_args(0..)
        .value_name("SCENARIO")
        .help("Scenario files, at most 15; each is named by its file name without .csv")
}
