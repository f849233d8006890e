//! Direct footpaths, as rows of `transfers.txt` and of a file of footpaths give them.
ghost use Rattle.std.specs.Prelude.{◌≡◌, ◌≢◌, ◌<◌, ◌≤◌, ◌++◌, ◌∷◌, [], All, OnOk, OnErr, length};

use std::alloc::{AllocError, Global};
use std::marker::Model;
use timetable::{MOST_CHANGE_SECONDS, MOST_FOOTPATHS, MOST_STOPS, StopNo};

/// Direct footpaths between the stops of a feed, in the order of the rows that give them.
/// Each leads one way, from a stop to another; a pair may come again with other seconds. And the change time of each
/// stop, the seconds that a change between two vehicles there takes.
///
/// At most 65,535 stops and 4,000,000 footpaths.
#[derive(Drop)]
pub struct Direct {
    stops: u32,
    pairs: Vec<(StopNo, StopNo, u32)>,
    changes: Vec<u32>,
}

impl Model for Direct {
    ghost use Rattle.footpaths.specs.Direct.{DirectLists, AreDirect};

    ghost Value = { DirectLists };

    ghost view = { λ d. record { stops = d.stops; pairs = d.pairs.items; changes = d.changes.items } };

    ghost invariant = { λ d. AreDirect (record { stops = d.stops; pairs = d.pairs.items; changes = d.changes.items }) };
}

impl Direct {
    ghost use Rattle.footpaths.specs.Direct.{AreDirect};

    /// No footpaths yet, between `stops` stops with these change times.
    pub(crate) fn new(alloc: Global, stops: u32, changes: Vec<u32>) -> Self
        requires stops { stops ≤ MOST_STOPS }
        requires each { length changes.items ≡ stops }
        requires short { All (λ seconds. seconds ≤ MOST_CHANGE_SECONDS) changes.items }
        ensures { result ≡ record { stops = stops; pairs = []; changes = changes.items } }
    {
        Direct {
            stops,
            pairs: Vec::new(alloc),
            changes,
        }
    }

    /// One footpath more, from one stop to another.
    pub(crate) fn push(&mut self, from: StopNo, to: StopNo, seconds: u32) -> Result<(), AllocError>
        requires from { from.0 < self.old.stops }
        requires to { to.0 < self.old.stops }
        requires other { from.0 ≢ to.0 }
        requires few { length self.old.pairs < MOST_FOOTPATHS }
        ensures ok { OnOk result (self.new ≡ record {
          stops = self.old.stops;
          pairs = self.old.pairs ++ (from, to, seconds) ∷ [];
          changes = self.old.changes;
        }) }
        ensures err { OnErr result (self.new ≡ self.old) }
    {
        self.pairs.push((from, to, seconds))?;
        Ok(())
    }

    /// The footpaths: from, to, and seconds.
    pub fn pairs(&self) -> &[(StopNo, StopNo, u32)]
        ensures { result.now ≡ self.now.pairs }
    {
        self.pairs.as_slice()
    }

    /// The change time of each stop, in the order of their numbers: the greatest that a row states for it, or 0.
    pub fn changes(&self) -> &[u32]
        ensures { result.now ≡ self.now.changes }
    {
        self.changes.as_slice()
    }

    /// How many stops there are.
    pub(crate) fn stops(&self) -> u32
        ensures { result ≡ self.now.stops }
    {
        self.stops
    }

    /// What is true of all direct footpaths, for the proofs of the callers.
    pub(crate) fn known(&self)
        ensures { AreDirect self.now }
    {
        // A look at a field brings the invariant into the proof.
        let _ = &self.pairs;
    }
}
