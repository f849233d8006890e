//! How fast a feed is read, beside the `csv` crate alone.
ghost use Rattle.gtfs_tables.specs.Files.{AreWithinLimit, files_of};

use crate::csv_alone;
use crate::feed_files::read_feed_files;
use crate::figures::{hundredths, millis, per_second};
use crate::telling::{refuse, tell, tell_fault, tell_stage};
use gtfs_tables::{Feed, FeedBytes, read_feed};
use std::io;
use std::time::Instant;

/// Times both over the feed of a folder, and prints what came out.
pub(crate) fn time_feed(rt: &HostRuntime, folder: &str) -> io::Result<()> {
    let files = read_feed_files(rt, folder)?;
    time_files(rt, &files.bytes())
}

// The files are in memory: the yardstick first.
fn time_files(rt: &HostRuntime, files: &FeedBytes<'_>) -> io::Result<()> {
    if !files.fits() {
        return refuse(rt, "a file is too long");
    }
    let start = Instant::now(rt)?;
    let records = csv_alone::count_feed(rt.alloc(), files)?;
    let csv_time = millis(start.elapsed(rt)?);
    tell(rt, "stop_times records", records)?;
    tell(rt, "csv alone, ms", csv_time)?;
    time_reading(rt, files, records, csv_time)
}

// The feed is read from the same files.
fn time_reading(
    rt: &HostRuntime,
    files: &FeedBytes<'_>,
    records: u64,
    csv_time: u64,
) -> io::Result<()>
    requires { AreWithinLimit (files_of files.now) }
{
    let start = Instant::now(rt)?;
    match read_feed(rt.alloc(), files) {
        Ok(feed) => {
            let reported = report(rt, &feed, records, csv_time, start);
            drop(feed);
            reported
        }
        Err(fault) => tell_fault(rt, &fault),
    }
}

// Times are in milliseconds, the ratio in hundredths.
fn report(
    rt: &HostRuntime,
    feed: &Feed,
    records: u64,
    csv_time: u64,
    start: Instant,
) -> io::Result<()> {
    let time = tell_stage(rt, "read_feed", start)?;
    tell(rt, "stops", u64::from(feed.stop_count()))?;
    tell(rt, "trips", u64::from(feed.trip_count()))?;
    tell(rt, "ratio, hundredths", hundredths(time, csv_time))?;
    tell(rt, "events per second", per_second(records, time))
}
