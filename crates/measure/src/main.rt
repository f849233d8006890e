//! How fast the engine is. Over a feed alone: the `csv` crate's own pass over all records of its files, and then
//! `gtfs_tables::read_feed` over the same bytes, in one run. Over a study of files: each of its stages, or the least
//! durations alone, or the search apart from cells and access, on one service day or with those before and after it.
//!
//! - `reading`: a feed's reading beside `csv_alone`, which is the yardstick.
//! - `stages`: a study, stage after stage; `tables` and `networks` make two of them, `sizes` says how much was made.
//! - `origins`: the least durations, origin by origin. `rows`: the search, and then the cells and
//!   access of the same rows.
//! - `asked`: what the arguments ask for; `feed_files` and `own_files` hold the files in memory.
//! - `telling` prints the lines of the report, `figures` does the sums.
#![tactic(auto)]

ghost use Rattle.std.specs.Prelude.{◌≤◌, length};

mod asked;
mod csv_alone;
mod feed_files;
mod figures;
mod networks;
mod origins;
mod own_files;
mod reading;
mod rows;
mod sizes;
mod stages;
mod tables;
mod telling;

use asked::Part;
use std::{env, io};

const USAGE: &str =
    "usage: measure FOLDER [YYYYMMDD HH:MM:SS MINUTES TRIPS WALK FOOTPATHS ORIGINS [SCENARIO ..]]
       measure durations FOLDER YYYYMMDD HH:MM:SS MINUTES TRIPS WALK FOOTPATHS ORIGINS
       measure rows|days FOLDER YYYYMMDD HH:MM:SS MINUTES TRIPS WALK FOOTPATHS ORIGINS [SCENARIO ..]";

fn main(rt: HostRuntime) -> io::Result<()> {
    let words = env::args(&rt)?.collect::<Vec<String>>(rt.alloc())?;
    run(&rt, words.as_slice())
}

/// Measures what the arguments ask for; the first is the program's name.
fn run(rt: &HostRuntime, words: &[String]) -> io::Result<()> {
    match words.len() {
        2 => reading::time_feed(rt, words[1].as_str()),
        10 if words[1].as_str() == "durations" => run_study(rt, Part::Durations, &words[2..]),
        10.. if words[1].as_str() == "rows" => run_study(rt, Part::Rows, &words[2..]),
        10.. if words[1].as_str() == "days" => run_study(rt, Part::Days, &words[2..]),
        9.. => run_study(rt, Part::Stages, &words[1..]),
        _ => println!(rt; "{USAGE}"),
    }
}

/// Measures a part of a study.
fn run_study(rt: &HostRuntime, part: Part, words: &[String]) -> io::Result<()>
    requires { 8 ≤ length words.now }
{
    match asked::read(part, &words[1..6]) {
        Some(asked) => stages::time_study(rt, asked, words[0].as_str(), &words[6..]),
        None => println!(rt; "{USAGE}"),
    }
}
