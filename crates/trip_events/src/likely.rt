//! What the next record of `stop_times.txt` is likely to name. It makes look-ups faster and changes no result.

use std::alloc::{AllocError, Global};

/// What the next record is likely to name: the records of a trip mostly follow one another, and a stop mostly follows
/// the same stop as the last time.
#[derive(Drop)]
pub struct Likely {
    /// The trip of the record before.
    trip: usize,
    /// The number of the first record in a row that named it.
    since: u64,
    /// How many records in a row named the trip before it.
    run_before: usize,
    /// The last stop that a record named.
    stop: usize,
    /// The one after it the last time, looked up as soon as it can be.
    next: u32,
    /// By stop, which one was named after it the last time.
    after: Vec<u32>,
}

impl Likely {
    /// Nothing is known yet, of a feed with `stops` stops.
    pub fn new(alloc: Global, stops: usize) -> Result<Likely, AllocError> {
        Ok(Likely {
            trip: 0,
            since: 2,
            run_before: 0,
            stop: 0,
            next: 0,
            after: vec![in alloc; 0; stops]?,
        })
    }

    /// The number of the trip.
    pub fn trip(&self) -> usize {
        self.trip
    }

    /// How many records the trip has, as many as stood together of the trip before: so all that is expected of a file's
    /// trips together is no more than the file has.
    pub fn count(&self) -> usize {
        self.run_before
    }

    /// The number of the stop.
    pub fn stop(&self) -> usize {
        self.next as usize
    }

    /// The record of this number named this trip, and this stop if it named one.
    pub fn note(&mut self, at: u64, trip: usize, stop: Option<u32>) {
        self.note_trip(at, trip);
        if let Some(stop) = stop {
            self.note_stop(stop);
        }
    }

    /// The record of this number named this trip.
    fn note_trip(&mut self, at: u64, trip: usize) {
        if self.trip != trip {
            self.run_before = at.saturating_sub(self.since) as usize;
            self.since = at;
            self.trip = trip;
        }
    }

    /// The record after the last one named this stop.
    fn note_stop(&mut self, stop: u32) {
        if self.stop < self.after.len() {
            self.after[self.stop] = stop;
        }
        self.stop = stop as usize;
        self.next = self.after.get(self.stop).copied().unwrap_or(0);
    }
}
