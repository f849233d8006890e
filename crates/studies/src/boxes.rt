//! What takes long to drop, in boxes: a box is dropped in one step, whatever is in it.
ghost use Rattle.std.specs.Prelude.{◌≡◌, [], IfErr, IfOk};
ghost use Rattle.table_records.specs.Faults.{Tells};
ghost use Rattle.footpaths.specs.Walks as walks;
ghost use Rattle.gtfs_tables.specs.Files as files;

use footpaths::{Direct, direct};
use gtfs_tables::{Feed, FeedBytes, FeedFault, read_feed};
use std::alloc::{AllocError, Global};

/// The value in a box. The error of `Box::new` has the value, which no fault of a study can hold; it is dropped here.
pub(crate) fn boxed<T: Drop>(alloc: Global, value: T) -> Result<Box<T>, AllocError>
    ensures { IfOk result (λ b. b.value ≡ value) }
{
    Ok(Box::new(alloc, value)?)
}

/// What the files of a feed state, or the first fault among them.
pub(crate) fn feed_from(alloc: Global, bytes: &FeedBytes<'_>) -> Result<Box<Feed>, FeedFault>
    requires { files.AreWithinLimit (files.files_of bytes.now) }
    ensures good { IfOk result (λ _. files.feed_faults (files.files_of bytes.now) ≡ []) }
    ensures feed { IfOk result (λ feed. feed.value ≡ files.feed_of (files.files_of bytes.now)) }
    ensures fault { IfErr result (λ e. Tells e (files.feed_faults (files.files_of bytes.now))) }
{
    Ok(boxed(alloc, read_feed(alloc, bytes)?)?)
}

/// The direct footpaths of a feed and of the analyst's own file, or the first fault of that file.
pub(crate) fn direct_from(
    alloc: Global,
    feed: &Feed,
    footpaths: Option<&[u8]>,
) -> Result<Box<Direct>, FeedFault>
    requires { files.IsWithinLimit (files.bytes_of footpaths) }
    ensures good { IfOk result (λ _. walks.direct_faults feed.now (files.bytes_of footpaths.entry) ≡ []) }
    ensures direct { IfOk result (λ d. d.value ≡ walks.direct_of feed.now (files.bytes_of footpaths.entry)) }
    ensures fault { IfErr result (λ e. Tells e (walks.direct_faults feed.now (files.bytes_of footpaths.entry))) }
{
    Ok(boxed(alloc, direct(alloc, feed, footpaths)?)?)
}
