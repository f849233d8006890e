//! The opportunities file: how many opportunities, as jobs or shops, are at each stop.

ghost use Rattle.std.specs.Prelude.{◌≡◌, ℕ, List, [], length, map, replicate, IfOk, IfErr};
ghost use Rattle.table_records.specs.Checks.{Explains};
ghost use Rattle.table_records.specs.Faults.{Tells};
ghost use Rattle.gtfs_tables.specs.Files.{IsWithinLimit, bytes_of};
ghost use Rattle.gtfs_tables.specs.Opportunities as spec;

use crate::feed::Feed;
use crate::named_stops::read_named;
use std::alloc::{AllocError, Global};
use table_records::{Check, Checks, FeedFault, FileName, Rule, What};

/// The checks; [`opportunity_checks`] says what holds of them.
const CHECKS: Checks = Checks {
    required: &[b"stop_id", b"opportunities"],
    fields: &[
        Check(b"stop_id", Rule::Filled, What::EmptyId),
        Check(b"stop_id", Rule::Stop, What::UnknownStop),
        Check(b"stop_id", Rule::Once, What::DuplicateId),
        Check(b"opportunities", Rule::Number, What::BadNumber),
    ],
};

/// What is checked of the opportunities file: each fault of a record is that of a check.
pub fn opportunity_checks() -> Checks
    ensures required { map (λ name. name.now) result.required.now ≡ spec.required }
    ensures explains { (stops : List (List ℕ)) → Explains result.fields.now spec.row_of (spec.checks stops) }
{
    CHECKS
}

/// The number of opportunities at each stop of the feed. Without a file it is 1 for each; with one, 0 for the stops
/// that it doesn't name.
///
/// The file's required columns are `stop_id` and `opportunities`. An identifier that is empty, no stop's or given
/// before is refused, and a count that is no number. The bytes are at most 2^30, the limit of an input file.
pub fn read_opportunities(
    alloc: Global,
    file: Option<&[u8]>,
    feed: &Feed,
) -> Result<Vec<u32>, FeedFault>
    requires { IsWithinLimit (bytes_of file) }
    ensures good { IfOk result (λ v. (spec.opportunities_faults (bytes_of file.entry) feed.now ≡ [])
        × (v.items ≡ spec.opportunities_of (bytes_of file.entry) feed.now)) }
    ensures stops { IfOk result (λ v. length v.items ≡ length feed.now.stops) }
    ensures fault { IfErr result (λ e. Tells e (spec.opportunities_faults (bytes_of file.entry) feed.now)) }
{
    let Some(bytes) = file else {
        return Ok(one_at_each(alloc, feed)?);
    };
    match read_named(
        alloc,
        bytes,
        feed,
        FileName::Opportunities,
        CHECKS.required,
        true,
    ) {
        Ok(list) => Ok(list.counts),
        Err(fault) => Err(fault),
    }
}

/// One opportunity at each stop.
fn one_at_each(alloc: Global, feed: &Feed) -> Result<Vec<u32>, AllocError>
    ensures { IfOk result (λ v. v.items ≡ replicate (length feed.now.stops) 1) }
{
    vec![in alloc; 1; feed.stop_count() as usize]
}
