//! The files of a feed's folder, held in memory.

use std::io::ErrorKind;
use std::{fs, io};
use studies::FeedFiles;

/// Reads the files of an unpacked feed.
pub(crate) fn read_feed_files(rt: &HostRuntime, folder: &str) -> io::Result<FeedFiles> {
    let mut files = FeedFiles::none();
    match fill(rt, folder, &mut files) {
        Ok(()) => Ok(files),
        Err(error) => Err(error),
    }
}

// Reads each file to its field.
fn fill(rt: &HostRuntime, folder: &str, files: &mut FeedFiles) -> io::Result<()> {
    files.stops = read_file(rt, folder, "stops.txt")?;
    files.routes = read_file(rt, folder, "routes.txt")?;
    files.calendar = read_file(rt, folder, "calendar.txt")?;
    files.calendar_dates = read_file(rt, folder, "calendar_dates.txt")?;
    files.trips = read_file(rt, folder, "trips.txt")?;
    files.stop_times = read_file(rt, folder, "stop_times.txt")?;
    files.frequencies = read_file(rt, folder, "frequencies.txt")?;
    files.transfers = read_file(rt, folder, "transfers.txt")?;
    Ok(())
}

// The bytes of a file, or `None` where the folder lacks it.
fn read_file(rt: &HostRuntime, folder: &str, name: &str) -> io::Result<Option<Vec<u8>>> {
    let path = format!(in rt.alloc(); "{folder}/{name}")?;
    match fs::read(rt, path) {
        Ok(bytes) => Ok(Some(bytes)),
        Err(error) if error.kind() == ErrorKind::NotFound => Ok(None),
        Err(error) => Err(error),
    }
}
