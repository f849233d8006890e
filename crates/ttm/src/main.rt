//! `ttm`: an analyst's travel time matrices over GTFS timetables. The program is `program::run`, on the host that runs
//! it.
#![tactic(auto)]

use program::run;
use std::process::ExitCode;

fn main(rt: HostRuntime) -> ExitCode {
    run(&rt, &mut rt.stdin(), &mut rt.stdout(), &mut rt.stderr())
}
