//! What the help says of each option: the name of its value, its unit and its limits; and what is told of the version.

use command_line::{WordFault, task_of};
use std::alloc::{AllocError, Global};
use std::test::Fail;

/// The whole help.
const HELP: &str = "Travel time matrices over a GTFS feed, for a base network and for scenarios.

Usage: ttm [OPTIONS] --feed <DIR> --date <YYYYMMDD> --from <HH:MM> --to <HH:MM> --trips <K> --walk <S> \
    --share <P> --within <S> --workers <N> --tries <N> [SCENARIO]...

Arguments:
  [SCENARIO]...  Scenario files, at most 15; each is named by its file name without .csv

Options:
      --feed <DIR>         Folder of the feed's files, as stops.txt
      --date <YYYYMMDD>    Date of the departures
      --from <HH:MM>       First minute of departure, 00:00 to 23:59
      --to <HH:MM>         Last minute of departure, 00:00 to 23:59, not before --from
      --trips <K>          Most rides of a journey, 1 to 8
      --walk <S>           Longest walk in seconds, 0 to 7200
      --share <P>          Share of the minutes in percent that a travel time covers, 1 to 100; \
    1 to 8 shares, ascending, as 25,50
      --within <S>         Travel time in seconds within which a stop counts for access, 0 to 4294967295; \
    1 to 8 limits, ascending, as 900,1800
      --workers <N>        Number of threads, 1 to 64
      --tries <N>          How often each row may be begun, 1 to 8
      --back <N>           Service days before the date that count, 0 to 6; 0 where the network is too large \
    [default: 1]
      --ahead <N>          Service days after the date that count, 0 to 6; 0 where the network is too large [default: 1]
      --origins <F>        File of the stops where journeys begin [default: all stops]
      --opportunities <F>  File of the opportunities at stops [default: 1 at each]
      --destinations <F>   File of the stops that have a column of travel times [default: all stops]
      --footpaths <F>      File of further footpaths, in seconds [default: none]
      --report             Tell on standard error what was read, what seems wrong, and how far the rows are
      --ask                Keep the network, read questions from the standard input, and answer each of them
  -h, --help               Print help
  -V, --version            Print version

Example: ttm --feed town --date 20260504 --from 08:00 --to 08:59 --trips 3 --walk 600 --share 50 \
    --within 1800 --workers 4 --tries 2 cut.csv

After a refusal, the same command with --report explains it: the value that is wrong, and what is allowed.
";

/// The whole text of the version.
const VERSION_TEXT: &str = "ttm 2.1.0\n";

/// The text that arguments give in place of a study, if `clap` has one for them.
fn told(alloc: Global, words: &[&str]) -> Result<Option<String>, AllocError> {
    let mut list = Vec::new(alloc);
    for word in words {
        list.push(String::from_str(alloc, word)?)?;
    }
    match task_of(alloc, &list) {
        Err(WordFault::Words(error)) => Ok(Some(format!(in alloc; "{error}")?)),
        _ => Ok(None),
    }
}

/// `task_of`.
#[test]
fn names_each_option_with_its_limits(rt: HostRuntime) -> Result<(), Fail> {
    match told(rt.alloc(), &["ttm", "--help"])? {
        Some(text) => assert_eq!(rt; text.as_str(), HELP),
        None => panic!(rt; "no help"),
    }
    Ok(())
}

/// `task_of`.
#[test]
fn tells_the_version_and_the_toolchain(rt: HostRuntime) -> Result<(), Fail> {
    for word in &["--version", "-V"] {
        match told(rt.alloc(), &["ttm", *word])? {
            Some(text) => assert_eq!(rt; text.as_str(), VERSION_TEXT),
            None => panic!(rt; "no version"),
        }
    }
    Ok(())
}
