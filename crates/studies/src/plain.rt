//! The plain form of a study, which the program doesn't call: the line for one minute of the day, over the network in
//! which every trip of a feed runs once, at the feed's own times, nobody walks, and no change takes time.

ghost use Rattle.std.specs.Prelude.{◌≡◌, ◌++◌, ◌<◌, ◌≤◌, [], IfErr, IfOk, OnOk, replicate};
ghost use Rattle.gtfs_tables.specs.Files.{AreWithinLimit, feed_of, files_of};
ghost use Rattle.timetable.specs.Footpaths.{rows_of};
ghost use Rattle.studies.specs.MinuteLine as spec;
ghost use Rattle.studies.specs.MinuteFaults.{minute_faults, Tells};

use crate::boxes::{boxed, feed_from};
use crate::fault::StudyFault;
use gtfs_tables::{Feed, FeedBytes, FeedFault, FileName, What};
use itoa::Buffer;
use rounds::one_minute;
use std::alloc::{AllocError, Global};
use timetable::{Events, Feet, NEVER, NetFault, Network, StopNo, Trip};

/// A door for other programs: the least durations from `origin` at a minute of the day to all stops, in seconds, joined
/// by commas.
///
/// Every trip of the feed runs once, at the feed's own times, and nobody walks. A stop that no journey of at most
/// `rides` rides reaches has an empty field. `minute` is below 1,440, `rides` 1 to 8, and each file keeps the limit of
/// [`FeedBytes::fits`].
pub fn minute_line(
    alloc: Global,
    files: &FeedBytes<'_>,
    origin: &[u8],
    minute: u32,
    rides: u32,
) -> Result<Vec<u8>, StudyFault>
    requires files { AreWithinLimit (files_of files.now) }
    requires minute { minute < 1440 }
    requires rides { (1 ≤ rides) × (rides ≤ 8) }
    ensures good { IfOk result (λ _. minute_faults (files_of files.now) origin.now ≡ []) }
    ensures line { IfOk result (λ line. spec.IsMinuteLine (feed_of (files_of files.now)) origin.now minute rides
        line.items) }
    ensures fault { IfErr result (λ fault. Tells fault (minute_faults (files_of files.now) origin.now)) }
{
    let feed = feed_from(alloc, files)?;
    let feed = feed.as_ref();
    let Some(stop) = feed.stop_no(origin) else {
        return Err(unknown_origin());
    };
    let network = network_once(alloc, feed)?;
    let durations = one_minute(alloc, &network, stop, 60 * minute, rides)?;
    Ok(line_of(alloc, &durations)?)
}

/// The fault of an origin that the feed doesn't name.
fn unknown_origin() -> StudyFault
    ensures { result ≡ StudyFault.Feed (record { file = FileName.Origins; at = 0; what = What.UnknownStop }) }
{
    StudyFault::Feed(FeedFault {
        file: FileName::Origins,
        at: 0,
        what: What::UnknownStop,
    })
}

/// Every trip of the feed once, in a box. Its only error is out of memory, since the feed's limits are the network's.
fn network_once(alloc: Global, feed: &Feed) -> Result<Box<Network>, AllocError>
    ensures { IfOk result (λ network. network.value ≡ spec.network_once feed.now) }
{
    feed.known();
    let stops = feed.stop_count();
    let runs = runs_of(alloc, feed)?;
    let feet = no_feet(alloc, stops)?;
    match Network::new(alloc, stops, runs, &feet) {
        Ok(network) => boxed(alloc, network),
        Err((fault, _)) => Err(only_memory(fault)),
    }
}

/// The trips of a feed, each run once.
fn runs_of(alloc: Global, feed: &Feed) -> Result<Vec<Trip>, AllocError>
    ensures { IfOk result (λ runs. runs.items ≡ spec.runs_from 0 feed.now.trips) }
{
    let mut runs = Vec::new(alloc);
    for number in 0..feed.trip_count() {
        let trip = feed.trip(number);
        runs.push(Trip {
            route: trip.route,
            name: number,
            events: Events::new(Vec::from_slice(alloc, trip.events.as_slice())?),
        })?;
    }
    Ok(runs)
}

/// No footpaths among some stops, at which no change takes time.
fn no_feet(alloc: Global, stops: u32) -> Result<Feet, AllocError>
    requires { stops ≤ 65535 }
    ensures { IfOk result (λ feet. feet ≡ record { walks = replicate stops []; changes = replicate stops 0 }) }
{
    let lists = no_lists(alloc, stops)?;
    let changes = vec![in alloc; 0; stops as usize]?;
    match Feet::new(alloc, stops, lists, changes) {
        Ok(feet) => Ok(feet),
        Err((fault, _, _)) => Err(only_memory(fault)),
    }
}

/// An empty list of footpaths per stop.
fn no_lists(alloc: Global, stops: u32) -> Result<Vec<Vec<(StopNo, u32)>>, AllocError>
    ensures { IfOk result (λ lists. rows_of lists.items ≡ replicate stops []) }
{
    let mut lists = Vec::new(alloc);
    for _ in 0..stops {
        lists.push(Vec::new(alloc))?;
    }
    Ok(lists)
}

/// Out of memory, the one error that is left where nothing else can be wrong.
fn only_memory(fault: NetFault) -> AllocError
    requires { fault ≡ NetFault.Memory }
{
    match fault {
        NetFault::Memory => AllocError,
        _ => unreachable!(),
    }
}

/// The durations joined by commas, a none as an empty field, and a line feed.
fn line_of(alloc: Global, durations: &[u32]) -> Result<Vec<u8>, AllocError>
    ensures { IfOk result (λ line. line.items ≡ spec.text_of durations.now) }
{
    let mut line = Vec::new(alloc);
    for (i, duration) in durations.iter().enumerate() {
        if i > 0 {
            line.push(b',')?;
        }
        push_field(&mut line, *duration)?;
    }
    line.push(b'\n')?;
    Ok(line)
}

/// Puts the field of a duration last: its digits, or nothing where there is none.
fn push_field(line: &mut Vec<u8>, duration: u32) -> Result<(), AllocError>
    ensures { OnOk result (line.new.items ≡ line.old.items ++ spec.duration_field duration) }
{
    if duration == NEVER {
        return Ok(());
    }
    line.extend_from_slice(Buffer::new().format(duration).as_bytes())
}
