//! The change times of a feed's stops, as rows of `transfers.txt` state them.

ghost use Rattle.std.specs.Prelude.{◌≡◌, ◌<◌, ◌≤◌, ℕ, All, IfOk, length, replicate, slice_index};
ghost use Rattle.timetable.specs.declared.limits.TheConstants as limit;
ghost use Rattle.footpaths.specs.Changes as spec;

use gtfs_tables::Feed;
use std::alloc::{AllocError, Global};
use timetable::{MOST_CHANGE_SECONDS, StopNo};

/// The change time of each stop: the greatest that a row states for it or for its station, 0 where none does. A time
/// past 16,777,216 seconds counts as that, which lets nobody change.
pub(crate) fn change_times(alloc: Global, feed: &Feed) -> Result<Vec<u32>, AllocError>
    ensures changes { IfOk result (λ changes. changes.items ≡ spec.change_times feed.now) }
    ensures each { IfOk result (λ changes. length changes.items ≡ length feed.now.stops) }
    ensures short { IfOk result (λ changes. All (λ seconds. seconds ≤ limit.MOST_CHANGE_SECONDS) changes.items) }
{
    let mut changes = vec![in alloc; 0; feed.stop_count() as usize]?;
    raise_all(&mut changes, feed);
    Ok(changes)
}

/// Raises the change times of all stops to what the rows of `transfers.txt` state.
fn raise_all(changes: &mut [u32], feed: &Feed)
    requires { changes.old ≡ replicate (length feed.now.stops) 0 }
    ensures changes { changes.new ≡ spec.change_times feed.now }
    ensures each { length changes.new ≡ length feed.now.stops }
    ensures short { All (λ seconds. seconds ≤ limit.MOST_CHANGE_SECONDS) changes.new }
{
    feed.known();
    for link in feed.links() {
        if link.changes {
            let stops = feed.stops_at(link.origin);
            raise(
                changes,
                stops.as_slice(),
                link.seconds.min(MOST_CHANGE_SECONDS),
            );
        }
    }
}

/// Raises the change times of some stops to `seconds`, where they are shorter.
fn raise(changes: &mut [u32], stops: &[StopNo], seconds: u32)
    requires { All (λ stop. stop.0 < length changes.old) stops.now }
    ensures same { length changes.new ≡ length changes.old }
    ensures raised { (p : ℕ) → p < length changes.old →
        slice_index changes.new p ≡ spec.longer (spec.has_stop p stops.now) (slice_index changes.old p) seconds }
{
    for stop in stops {
        let position = stop.0 as usize;
        changes[position] = changes[position].max(seconds);
    }
}
