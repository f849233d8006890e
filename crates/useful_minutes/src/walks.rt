//! Walks from the origin to stops near it, which need no trip: the same in each minute.
ghost use Rattle.std.specs.Prelude.{◌≡◌, ◌≢◌, ℕ, ◌+◌, ◌*◌, ◌/◌, ◌%◌, ◌<◌, ◌≤◌, ◌⊎◌, [], length, min, slice_index};
ghost use Rattle.std.specs.Prelude.{slice_index_or};
ghost use Rattle.trip_lanes.specs.declared.lanes.TheConstants.{LANES};
ghost use Rattle.useful_minutes.specs.Waits.{label_at, IsWalked};

use timetable::{Renumbered, StopNo};
use trip_lanes::{LANES, Lanes};

/// Lowers one label of a chunk to some seconds.
fn lower_lane(labels: &mut [Lanes], at: usize, l: usize, seconds: u32)
    requires at { at < length labels.old }
    requires l { l < LANES }
    ensures same { length labels.new ≡ length labels.old }
    ensures lowered { slice_index (slice_index_or labels.new at []) l
        ≡ min (slice_index (slice_index_or labels.old at []) l) seconds }
    ensures kept { (i k : ℕ) → (i ≢ at) ⊎ (k ≢ l) →
        slice_index (slice_index_or labels.new i []) k ≡ slice_index (slice_index_or labels.old i []) k }
{
    labels[at][l] = labels[at][l].min(seconds);
}

/// Lowers the labels of a stop to some seconds, for each of so many minutes.
fn lower_stop(labels: &mut [Lanes], stop: usize, chunks: usize, minutes: usize, seconds: u32)
    requires chunks { minutes ≤ LANES * chunks }
    requires labels { stop * chunks + chunks ≤ length labels.old }
    ensures same { length labels.new ≡ length labels.old }
    ensures lowered { (m : ℕ) → m < minutes →
        label_at chunks labels.new stop m ≡ min (label_at chunks labels.old stop m) seconds }
    ensures kept { (p m : ℕ) → m < LANES * chunks → (p ≢ stop) ⊎ (minutes ≤ m) →
        label_at chunks labels.new p m ≡ label_at chunks labels.old p m }
{
    for m in 0..minutes {
        lower_lane(labels, stop * chunks + m / LANES, m % LANES, seconds);
    }
}

/// Lowers the label of each stop near the origin to the seconds of the walk there, for each of so many minutes.
pub fn walk_alone(
    labels: &mut [Lanes],
    network: &Renumbered<'_>,
    origin: StopNo,
    chunks: usize,
    minutes: usize,
)
    requires origin { origin.0 < network.now.stops }
    requires chunks { minutes ≤ LANES * chunks }
    requires labels { length labels.old ≡ network.now.stops * chunks }
    ensures same { length labels.new ≡ length labels.old }
    ensures walked { (p m : ℕ) → p < network.now.stops → m < minutes →
        IsWalked network.now origin.0 p (label_at chunks labels.old p m) (label_at chunks labels.new p m) }
    ensures kept { (p m : ℕ) → p < network.now.stops → minutes ≤ m → m < LANES * chunks →
        label_at chunks labels.new p m ≡ label_at chunks labels.old p m }
{
    network.known();
    lower_stop(labels, origin.0 as usize, chunks, minutes, 0);
    for (stop, seconds) in network.feet().leaving(origin) {
        lower_stop(labels, stop.0 as usize, chunks, minutes, *seconds);
    }
}
