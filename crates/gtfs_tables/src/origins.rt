//! The origins file: the stops at which journeys begin; and the destinations file: the stops that have a column.

ghost use Rattle.std.specs.Prelude.{◌≡◌, ◌<◌, ℕ, List, [], length, map, All, IfOk, IfErr};
ghost use Rattle.std.specs.List.{range_with_len};
ghost use Rattle.table_records.specs.Checks.{Explains};
ghost use Rattle.table_records.specs.Faults.{Tells};
ghost use Rattle.gtfs_tables.specs.Files.{IsWithinLimit, bytes_of};
ghost use Rattle.gtfs_tables.specs.Origins as spec;

use crate::feed::Feed;
use crate::named_stops::read_named;
use std::alloc::{AllocError, Global};
use table_records::{Check, Checks, FeedFault, FileName, Rule, What};
use timetable::StopNo;

/// The checks; [`origin_checks`] says what holds of them.
const CHECKS: Checks = Checks {
    required: &[b"stop_id"],
    fields: &[
        Check(b"stop_id", Rule::Filled, What::EmptyId),
        Check(b"stop_id", Rule::Stop, What::UnknownStop),
        Check(b"stop_id", Rule::Once, What::DuplicateId),
    ],
};

/// What is checked of the origins file, and of the destinations file: each fault of a record is that of a check.
pub fn origin_checks() -> Checks
    ensures required { map (λ name. name.now) result.required.now ≡ spec.required }
    ensures explains { (stops : List (List ℕ)) → Explains result.fields.now spec.row_of (spec.checks stops) }
{
    CHECKS
}

/// The stops at which journeys begin, in file order. Without a file they are all stops of the feed, in order.
///
/// The file's one required column is `stop_id`. An identifier that is empty, no stop's or given before is refused.
/// The bytes are at most 2^30, the limit of an input file.
pub fn read_origins(
    alloc: Global,
    file: Option<&[u8]>,
    feed: &Feed,
) -> Result<Vec<StopNo>, FeedFault>
    requires { IsWithinLimit (bytes_of file) }
    ensures good { IfOk result (λ v. (spec.origins_faults (bytes_of file.entry) feed.now ≡ [])
        × (v.items ≡ spec.origins_of (bytes_of file.entry) feed.now)) }
    ensures stops { IfOk result (λ v. All (λ s. s.0 < length feed.now.stops) v.items) }
    ensures fault { IfErr result (λ e. Tells e (spec.origins_faults (bytes_of file.entry) feed.now)) }
{
    read_stops(alloc, FileName::Origins, file, feed)
}

/// The stops that have a column of cells, in file order. Without a file they are all stops of the feed, in order.
///
/// The file is read as one of origins is, and a fault of it names it. The bytes are at most 2^30, the limit of an
/// input file.
pub fn read_destinations(
    alloc: Global,
    file: Option<&[u8]>,
    feed: &Feed,
) -> Result<Vec<StopNo>, FeedFault>
    requires { IsWithinLimit (bytes_of file) }
    ensures good { IfOk result (λ v. (spec.destinations_faults (bytes_of file.entry) feed.now ≡ [])
        × (v.items ≡ spec.destinations_of (bytes_of file.entry) feed.now)) }
    ensures stops { IfOk result (λ v. All (λ s. s.0 < length feed.now.stops) v.items) }
    ensures fault { IfErr result (λ e. Tells e (spec.destinations_faults (bytes_of file.entry) feed.now)) }
{
    read_stops(alloc, FileName::Destinations, file, feed)
}

/// The stops that a file names, in file order. Without a file they are all stops of the feed, in order.
fn read_stops(
    alloc: Global,
    name: FileName,
    file: Option<&[u8]>,
    feed: &Feed,
) -> Result<Vec<StopNo>, FeedFault>
    requires { IsWithinLimit (bytes_of file) }
    ensures good { IfOk result (λ v. (spec.stops_faults name (bytes_of file.entry) feed.now ≡ [])
        × (v.items ≡ spec.origins_of (bytes_of file.entry) feed.now)) }
    ensures stops { IfOk result (λ v. All (λ s. s.0 < length feed.now.stops) v.items) }
    ensures fault { IfErr result (λ e. Tells e (spec.stops_faults name (bytes_of file.entry) feed.now)) }
{
    let Some(bytes) = file else {
        return Ok(all_stops(alloc, feed)?);
    };
    match read_named(alloc, bytes, feed, name, CHECKS.required, false) {
        Ok(list) => Ok(list.stops),
        Err(fault) => Err(fault),
    }
}

/// All stops of a feed, in order.
fn all_stops(alloc: Global, feed: &Feed) -> Result<Vec<StopNo>, AllocError>
    ensures { IfOk result (λ v. v.items ≡ map (λ n. record { 0 = n }) (range_with_len 0 (length feed.now.stops))) }
{
    (0..feed.stop_count()).map(StopNo).collect(alloc)
}
