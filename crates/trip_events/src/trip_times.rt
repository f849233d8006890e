//! The records of one trip: when it calls at which stop, in ascending order of `stop_sequence`.

ghost use Rattle.std.specs.Prelude.{◌≡◌, ◌≢◌, ◌<◌, ◌≤◌, ℕ, [], true, length, slice_index_or, IfNone, IfSome, IsTrue};
ghost use Rattle.std.specs.Prelude.{OnErr, OnOk};
ghost use Rattle.std.specs.VecDeque.{deque_capacity};
ghost use Rattle.trip_events.specs.declared.trip_times.StopTime.{StopTime};
ghost use Rattle.trip_events.specs.TripTimes.{FitsAt, IsAscending, has_number, insert_in_order};

use std::alloc::{AllocError, Global};
use std::collections::VecDeque;
use std::marker::Model;

/// When a vehicle arrives at a stop and when it departs, in seconds of its service day.
#[derive(Clone, Copy, Debug, PartialEq, Eq)]
pub struct VisitTimes {
    pub arrive: u32,
    pub depart: u32,
}

/// A trip at a stop, as a record of `stop_times.txt` says it.
#[derive(Clone, Copy)]
pub struct StopTime {
    /// Its position along the trip, `stop_sequence`.
    pub sequence: u32,
    /// The number of the record, the header being record 1.
    pub at: u32,
    /// The number of the stop, none where the record names none.
    pub stop: Option<u32>,
    /// Its times, none where the record has neither.
    pub times: Option<VisitTimes>,
    /// Whether travellers may board here.
    pub board: bool,
    /// Whether travellers may alight here.
    pub alight: bool,
}

/// The records of one trip in ascending order, each sequence number once. Contracts see the list.
///
/// An insertion moves the records of the nearer end, so that records which ascend take as little time as those which
/// descend.
#[derive(Drop)]
pub struct TripTimes {
    items: VecDeque<StopTime>,
}

impl Model for TripTimes {
    ghost use Rattle.std.specs.Prelude.{List};
    ghost use Rattle.trip_events.specs.declared.trip_times.StopTime.{StopTime};

    ghost Value = { List StopTime };

    ghost use Rattle.trip_events.specs.TripTimes.{IsAscending};

    ghost view = { λ s. s.items.items };

    ghost invariant = { λ s. IsAscending 0 s.items.items };
}

impl TripTimes {
    /// No records.
    pub fn new(alloc: Global) -> TripTimes
        ensures { result ≡ [] }
    {
        TripTimes {
            items: VecDeque::new(alloc),
        }
    }

    /// Where a record with this sequence number belongs, none where there is one already.
    pub fn position_of(&self, sequence: u32) -> Option<usize>
        ensures taken { IfNone result (has_number sequence self.now ≡ true) }
        ensures free { IfSome result (λ i. FitsAt i sequence self.now) }
    {
        // Nearly all records come last.
        if is_past_all(&self.items, sequence) {
            return Some(self.items.len());
        }
        position_of(&self.items, sequence)
    }

    /// Puts a record where its sequence number belongs. The first record reserves room for `likely` records in all.
    pub fn insert(
        &mut self,
        position: usize,
        stop_time: StopTime,
        likely: usize,
    ) -> Result<(), AllocError>
        requires fits { FitsAt position stop_time.sequence self.old }
        ensures put { OnOk result (self.new ≡ insert_in_order stop_time self.old) }
        ensures err { OnErr result (self.new ≡ self.old) }
    {
        reserve_once(&mut self.items, likely)?;
        insert_at(&mut self.items, position, stop_time)
    }

    /// The records, in a vector.
    pub fn into_vec(self) -> Vec<StopTime>
        ensures { result.items ≡ self }
    {
        let TripTimes { items } = self;
        Vec::from(items)
    }
}

/// Reserves room for `likely` records, unless there are some already: for them it was reserved before.
fn reserve_once(trip_times: &mut VecDeque<StopTime>, likely: usize) -> Result<(), AllocError>
    ensures same { trip_times.new.items ≡ trip_times.old.items }
    ensures first { OnOk result (trip_times.old.items ≡ [] → likely ≤ deque_capacity trip_times.new) }
    ensures later { trip_times.old.items ≢ [] → deque_capacity trip_times.new ≡ deque_capacity trip_times.old }
{
    if trip_times.is_empty() {
        trip_times.reserve(likely)?;
    }
    Ok(())
}

/// Puts a record at its position. A function of the list alone, so that the order need not hold of `self` halfway.
fn insert_at(
    trip_times: &mut VecDeque<StopTime>,
    position: usize,
    stop_time: StopTime,
) -> Result<(), AllocError>
    requires fits { FitsAt position stop_time.sequence trip_times.old.items }
    requires ascending { IsAscending 0 trip_times.old.items }
    ensures put { OnOk result (trip_times.new.items ≡ insert_in_order stop_time trip_times.old.items) }
    ensures ascending { IsAscending 0 trip_times.new.items }
    ensures err { OnErr result (trip_times.new.items ≡ trip_times.old.items) }
{
    // Last, nothing has to move.
    if position == trip_times.len() {
        trip_times.push_back(stop_time)?;
    } else {
        trip_times.insert(position, stop_time)?;
    }
    Ok(())
}

/// Where a record with this sequence number belongs, none where there is one already.
fn position_of(trip_times: &VecDeque<StopTime>, sequence: u32) -> Option<usize>
    requires { IsAscending 0 trip_times.now.items }
    ensures taken { IfNone result (has_number sequence trip_times.now.items ≡ true) }
    ensures free { IfSome result (λ i. FitsAt i sequence trip_times.now.items) }
{
    let i = count_below(trip_times, sequence);
    if i < trip_times.len() && trip_times[i].sequence == sequence {
        return None;
    }
    Some(i)
}

/// How many records have a lesser sequence number.
fn count_below(trip_times: &VecDeque<StopTime>, sequence: u32) -> usize
    requires { IsAscending 0 trip_times.now.items }
    ensures within { result ≤ length trip_times.now.items }
    ensures below { (k : ℕ) (d : StopTime) → k < result →
        (slice_index_or trip_times.now.items k d).sequence < sequence }
    ensures from { (k : ℕ) (d : StopTime) → result ≤ k → k < length trip_times.now.items →
        sequence ≤ (slice_index_or trip_times.now.items k d).sequence }
{
    trip_times.partition_point(|stop_time| stop_time.sequence < sequence)
}

/// Whether all records have a lesser sequence number, so that one with this number belongs last.
fn is_past_all(trip_times: &VecDeque<StopTime>, sequence: u32) -> bool
    requires { IsAscending 0 trip_times.now.items }
    ensures last { IsTrue result → FitsAt (length trip_times.now.items) sequence trip_times.now.items }
    ensures past { IsTrue result → (k : ℕ) (d : StopTime) → k < length trip_times.now.items →
        (slice_index_or trip_times.now.items k d).sequence < sequence }
{
    let count = trip_times.len();
    count == 0 || trip_times[count - 1].sequence < sequence
}
