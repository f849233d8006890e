//! Walking times from one stop, by Dijkstra's algorithm as far as a limit.
//! One table of labels serves all sources in turn: only the labels of stops that were reached are taken back.
ghost use Rattle.timetable.specs.declared.least.TheConstants.{NEVER};
ghost use Rattle.std.specs.Prelude.{◌≡◌, ◌<◌, ◌≤◌, ◌+◌, ◌-◌, ◌⊎◌, ℕ, [], length, slice_index, All, IfOk, OnOk};

use crate::adjacency::Adjacency;
use std::alloc::{AllocError, Global};
use std::collections::BinaryHeap;
use timetable::{NEVER, StopNo};

/// The labels of one source at a time.
#[derive(Drop)]
pub(crate) struct Dijkstra {
    /// Of each stop the least seconds so far, or `NEVER`.
    labels: Vec<u32>,
    /// The stops other than the source that have a label, each once.
    touched: Vec<u32>,
    /// The stops whose label fell, each after the seconds of the limit that are left there, so that the least label is
    /// taken first.
    noted: BinaryHeap<(u32, u32)>,
}

impl Dijkstra {
    ghost use Rattle.timetable.specs.declared.limits.TheConstants.{MOST_FOOT_SECONDS};
    ghost use Rattle.footpaths.specs.Adjacency.{IsInRange, part};
    ghost use Rattle.footpaths.specs.Dijkstra.{marks, AreFresh, AreTouched, Relaxed, PassedOn, AreShortest, row_of};

    /// Nothing is labelled yet.
    pub(crate) fn new(alloc: Global, stops: u32) -> Result<Self, AllocError>
        ensures { IfOk result (λ dijkstra. AreFresh stops (marks dijkstra)) }
    {
        Ok(Dijkstra {
            labels: vec![in alloc; NEVER; stops as usize]?,
            touched: Vec::new(alloc),
            noted: BinaryHeap::new(alloc),
        })
    }

    /// Finds the stops that the source reaches within the limit, in ascending order, and labels them.
    pub(crate) fn reach(
        &mut self,
        footpaths: &Adjacency,
        source: StopNo,
        limit: u32,
    ) -> Result<(), AllocError>
        requires footpaths { IsInRange (length self.old.labels.items) footpaths.now }
        requires source { source.0 < length self.old.labels.items }
        requires limit { limit ≤ MOST_FOOT_SECONDS }
        requires fresh { AreFresh (length self.old.labels.items) (marks self.old) }
        ensures { OnOk result (AreShortest (part footpaths.now) (length self.old.labels.items) source.0 limit
            (marks self.new)) }
    {
        self.labels[source.0 as usize] = 0;
        self.noted.push((limit, source.0))?;
        while let Some((left, stop)) = self.noted.pop() {
            let label = limit - left;
            if label == self.labels[stop as usize] {
                self.pass_on(footpaths.leaving(StopNo(stop)), label, limit)?;
            }
        }
        self.touched.sort_unstable();
        Ok(())
    }

    /// Passes a stop's label on along its footpaths.
    fn pass_on(
        &mut self,
        leaving: &[(StopNo, u32)],
        label: u32,
        limit: u32,
    ) -> Result<(), AllocError>
        requires leaving { All (λ footpath. footpath.0.0 < length self.old.labels.items) leaving.now }
        requires label { label ≤ limit }
        requires limit { limit ≤ MOST_FOOT_SECONDS }
        ensures { OnOk result (PassedOn limit label leaving.now (marks self.old) (marks self.new)) }
    {
        for (stop, seconds) in leaving {
            if *seconds <= limit - label {
                self.relax(*stop, label + *seconds, limit)?;
            }
        }
        Ok(())
    }

    /// Lowers a stop's label, and notes the stop.
    fn relax(&mut self, stop: StopNo, label: u32, limit: u32) -> Result<(), AllocError>
        requires stop { stop.0 < length self.old.labels.items }
        requires label { label ≤ limit }
        requires limit { limit ≤ MOST_FOOT_SECONDS }
        ensures { OnOk result (Relaxed limit stop.0 label (marks self.old) (marks self.new)) }
    {
        let old = self.labels[stop.0 as usize];
        if label < old {
            if old == NEVER {
                self.touched.push(stop.0)?;
            }
            self.labels[stop.0 as usize] = label;
            self.noted.push((limit - label, stop.0))?;
        }
        Ok(())
    }

    /// How many stops are reached.
    pub(crate) fn reached(&self) -> usize
        ensures { result ≡ length (row_of (marks self.now)) }
    {
        self.touched.len()
    }

    /// The stops that are reached, with their labels.
    pub(crate) fn row(&self, alloc: Global) -> Result<Vec<(StopNo, u32)>, AllocError>
        requires { All (λ stop. stop < length self.now.labels.items) self.now.touched.items }
        ensures { IfOk result (λ row. row.items ≡ row_of (marks self.now)) }
    {
        let mut row = Vec::with_capacity(alloc, self.touched.len())?;
        for stop in &self.touched {
            row.push((StopNo(*stop), self.labels[*stop as usize]))?;
        }
        Ok(row)
    }

    /// Takes all labels back.
    pub(crate) fn clear(&mut self, source: StopNo)
        requires source { source.0 < length self.old.labels.items }
        requires touched { (limit : ℕ) × AreTouched source.0 limit (marks self.old) }
        requires noted { (marks self.old).noted ≡ [] }
        ensures { AreFresh (length self.old.labels.items) (marks self.new) }
    {
        forget(&mut self.labels, &self.touched);
        self.labels[source.0 as usize] = NEVER;
        self.touched.clear();
    }
}

/// Takes the labels of some stops back.
fn forget(labels: &mut [u32], stops: &[u32])
    requires { All (λ stop. stop < length labels.old) stops.now }
    ensures forgotten { All (λ stop. slice_index labels.new stop ≡ NEVER) stops.now }
    ensures others { (p : ℕ) → (slice_index labels.new p ≡ slice_index labels.old p)
        ⊎ (slice_index labels.new p ≡ NEVER) }
{
    for stop in stops {
        labels[*stop as usize] = NEVER;
    }
}
