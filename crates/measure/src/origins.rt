//! The least durations from each origin, and nothing else: how long each takes, and a sum of all.
ghost use Rattle.std.specs.Prelude.{◌<◌};

use crate::asked::Asked;
use crate::figures::micros;
use crate::telling::{refuse, tell, tell_origin};
use rounds::{Durations, MOST_RIDES, Search};
use std::io;
use std::time::Instant;
use timetable::{NEVER, Network, StopNo};

/// Times the least durations from each origin over a network. The sum is that of `bench/raptor`.
pub(crate) fn time_origins(
    rt: &HostRuntime,
    asked: Asked,
    network: &Network,
    origins: &[StopNo],
) -> io::Result<()> {
    if !asked.window.fits() || asked.rides > MOST_RIDES {
        return refuse(rt, "the window or the rides are past their limits");
    }
    let mut search = Search::new(rt.alloc());
    let mut sum = 0;
    for (at, origin) in origins.iter().enumerate() {
        if origin.0 >= network.stops() {
            return refuse(rt, "an origin is no stop of the network");
        }
        let start = Instant::now(rt)?;
        let found = search.durations(rt.alloc(), network, *origin, asked.window, asked.rides)?;
        tell_origin(rt, at, micros(start.elapsed(rt)?))?;
        sum = sum_with(sum, &found);
    }
    tell(rt, "durations, checksum", sum)
}

/// One more origin in a sum: its durations stop by stop.
fn sum_with(sum: u64, found: &Durations) -> u64 {
    let mut sum = sum;
    for stop in 0..found.stops() {
        sum = sum_with_stop(sum, found, StopNo(stop));
    }
    sum
}

/// One more stop in a sum: its durations minute by minute, with `NEVER` for none.
fn sum_with_stop(sum: u64, found: &Durations, stop: StopNo) -> u64
    requires { stop.0 < found.now.stops }
{
    let mut sum = sum;
    for minute in 0..found.minutes() {
        let label = found.at(stop, minute).unwrap_or(NEVER);
        sum = sum.wrapping_mul(1_000_003).wrapping_add(u64::from(label));
    }
    sum
}
