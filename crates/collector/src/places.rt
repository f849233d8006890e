//! The places of a study's rows, and the matrix.
ghost use Rattle.std.specs.Prelude.{◌≡◌, ◌+◌, ◌*◌, ◌<◌, ◌≤◌, Some, None, option_copied, length, slice_get, IfOk, IfErr};
ghost use Rattle.std.specs.Prelude.{MatchOption};
ghost use Rattle.std.specs.List.{list_all};
ghost use Rattle.collector.specs.Places.{empty_places, place_of, row_at, AreFull, IsFirstGap};
ghost use Rattle.collector.specs.Offers.{is_whole, belongs, offer_of, after_offer, IsSameSize, IsFinished};
ghost use Rattle.collector.specs.Offers.{IsHandedBack};

use crate::row::{Cells, Row};
use std::alloc::{AllocError, Global};
use std::marker::Model;
use work_book::MOST_JOBS;

/// The places of a study's rows, one for each scenario and origin.
#[derive(Drop)]
pub struct Collector {
    study: u64,
    scenarios: u32,
    origins: u32,
    width: u32,
    shares: u32,
    limits: u32,
    places: Vec<Option<Row>>,
}

impl Model for Collector {
    ghost use Rattle.std.specs.Prelude.{◌≡◌, ◌*◌, ◌≤◌, length};
    ghost use Rattle.collector.specs.Places.{PlacesData};
    ghost use Rattle.work_book.specs.declared.limits.TheConstants.{MOST_JOBS};

    ghost Value = { PlacesData };

    ghost view = { λ c. record {
      study = c.study;
      scenarios = c.scenarios;
      origins = c.origins;
      width = c.width;
      shares = c.shares;
      limits = c.limits;
      rows = c.places.items;
    } };

    ghost invariant = { λ c. (length c.places.items ≡ c.scenarios * c.origins)
        × (c.scenarios * c.origins ≤ MOST_JOBS) };
}

/// What became of a row that was offered.
#[derive(Drop)]
pub enum Offer {
    /// It is the first row of its place.
    Kept,
    /// Its place has a row already.
    Double(Row),
    /// It has no place here: another study, a scenario or origin out of range, or another number of shares, cells or
    /// access sums.
    Stranger(Row),
}

/// A collector with an empty place.
#[derive(Drop)]
pub struct Unfinished {
    /// The collector, as it was.
    pub collector: Collector,
    /// The first empty place's scenario; places go by scenario and then by origin.
    pub scenario: u32,
    /// The first empty place's origin.
    pub origin: u32,
}

/// A row for each scenario and origin.
#[derive(Drop)]
pub struct Matrix {
    scenarios: u32,
    origins: u32,
    width: u32,
    shares: u32,
    limits: u32,
    // The collector's own places, all full, so that to finish takes no memory.
    places: Vec<Option<Row>>,
}

impl Model for Matrix {
    ghost use Rattle.std.specs.Prelude.{◌≡◌, ◌*◌, ◌≤◌, length};
    ghost use Rattle.collector.specs.Places.{MatrixData, present, AreFull};
    ghost use Rattle.work_book.specs.declared.limits.TheConstants.{MOST_JOBS};

    ghost Value = { MatrixData };

    ghost view = { λ m. record {
      scenarios = m.scenarios;
      origins = m.origins;
      width = m.width;
      shares = m.shares;
      limits = m.limits;
      rows = present m.places.items;
    } };

    ghost invariant = { λ m. (length m.places.items ≡ m.scenarios * m.origins) × (m.scenarios * m.origins ≤ MOST_JOBS)
        × AreFull m.places.items };
}

impl Collector {
    /// An empty place for each of `scenarios` times `origins` rows, which have `width` cells and `limits` access sums
    /// for each of `shares` shares.
    ///
    /// There are at most as many places as a book may have jobs.
    pub fn new(
        alloc: Global,
        study: u64,
        scenarios: u32,
        origins: u32,
        width: u32,
        shares: u32,
        limits: u32,
    ) -> Result<Collector, AllocError>
        requires { scenarios * origins ≤ MOST_JOBS }
        ensures { IfOk result (λ collector. collector ≡ empty_places study scenarios origins width shares limits) }
    {
        let count = scenarios * origins;
        let mut places = Vec::with_capacity(alloc, count as usize)?;
        for _ in 0..count {
            places.push_reserved(None);
        }
        Ok(Collector {
            study,
            scenarios,
            origins,
            width,
            shares,
            limits,
            places,
        })
    }

    /// Keeps the row where it is the first of its place, and else hands it back. Takes no memory.
    pub fn offer(&mut self, row: Row) -> Offer
        ensures answer { result ≡ offer_of self.old row }
        ensures places { self.new ≡ after_offer self.old row }
        ensures size { IsSameSize self.old self.new }
    {
        if !self.has_place(&row) {
            return Offer::Stranger(row);
        }
        let index = self.index(row.scenario, row.origin);
        if self.places[index].is_some() {
            return Offer::Double(row);
        }
        self.places[index] = Some(row);
        Offer::Kept
    }

    /// A door for other programs: the row that a place keeps, if it keeps one.
    pub fn place(&self, scenario: u32, origin: u32) -> Option<&Row>
        requires scenario { scenario < self.now.scenarios }
        requires origin { origin < self.now.origins }
        ensures { option_copied result ≡ row_at self.now (place_of self.now scenario origin) }
    {
        let index = self.index(scenario, origin);
        self.places[index].as_ref()
    }

    /// The matrix, where every place keeps a row; else the collector comes back. Takes no memory.
    pub fn finish(self) -> Result<Matrix, Unfinished>
        ensures full { IfOk result (λ matrix. IsFinished self matrix) }
        ensures empty { IfErr result (λ unfinished. IsHandedBack self unfinished) }
    {
        match self.first_empty() {
            Some(index) => {
                let (scenario, origin) = self.position(index);
                Err(Unfinished {
                    collector: self,
                    scenario,
                    origin,
                })
            }
            None => Ok(Matrix {
                scenarios: self.scenarios,
                origins: self.origins,
                width: self.width,
                shares: self.shares,
                limits: self.limits,
                places: self.places,
            }),
        }
    }

    // Whether the row is no stranger.
    fn has_place(&self, row: &Row) -> bool
        ensures { result ≡ belongs self.now row.now }
    {
        row.study == self.study
            && row.scenario < self.scenarios
            && row.origin < self.origins
            && row.shares.len() == self.shares as usize
            && are_whole(&row.shares, self.width as usize, self.limits as usize)
    }

    // The place of a scenario and an origin.
    fn index(&self, scenario: u32, origin: u32) -> usize
        requires scenario { scenario < self.now.scenarios }
        requires origin { origin < self.now.origins }
        ensures value { result ≡ place_of self.now scenario origin }
        ensures there { result < length self.now.rows }
    {
        (scenario * self.origins + origin) as usize
    }

    // The scenario and the origin of a place.
    #[tactic(auto, using(crate::proofs::Divide::divided))]
    fn position(&self, index: usize) -> (u32, u32)
        requires { index < length self.now.rows }
        ensures scenario { result.0 < self.now.scenarios }
        ensures origin { result.1 < self.now.origins }
        ensures index { place_of self.now result.0 result.1 ≡ index }
    {
        let origins = self.origins as usize;
        ((index / origins) as u32, (index % origins) as u32)
    }

    // The first place without a row.
    fn first_empty(&self) -> Option<usize>
        ensures { MatchOption result (AreFull self.now.rows) (λ k. IsFirstGap self.now.rows k) }
    {
        for (k, place) in self.places.iter().enumerate() {
            if place.is_none() {
                return Some(k);
            }
        }
        None
    }
}

impl Matrix {
    /// The row of a scenario and an origin.
    pub fn row(&self, scenario: u32, origin: u32) -> &Row
        requires scenario { scenario < self.now.scenarios }
        requires origin { origin < self.now.origins }
        ensures { slice_get self.now.rows (scenario * self.now.origins + origin) ≡ Some result.now }
    {
        let index = (scenario * self.origins + origin) as usize;
        let Some(row) = &self.places[index] else {
            unreachable!()
        };
        row
    }

    /// How many scenarios.
    pub fn scenarios(&self) -> u32
        ensures { result ≡ self.now.scenarios }
    {
        self.scenarios
    }

    /// How many origins.
    pub fn origins(&self) -> u32
        ensures { result ≡ self.now.origins }
    {
        self.origins
    }

    /// A door for other programs: how many cells each row has for a share.
    pub fn width(&self) -> u32
        ensures { result ≡ self.now.width }
    {
        self.width
    }

    /// A door for other programs: how many shares each row has.
    pub fn shares(&self) -> u32
        ensures { result ≡ self.now.shares }
    {
        self.shares
    }

    /// A door for other programs: how many access sums each row has for a share.
    pub fn limits(&self) -> u32
        ensures { result ≡ self.now.limits }
    {
        self.limits
    }
}

// Whether what each share gives has so many cells, and so many access sums.
fn are_whole(shares: &[Cells], width: usize, limits: usize) -> bool
    ensures { result ≡ list_all (is_whole width limits) shares.now }
{
    shares.iter().all(|cells| cells.cells.len() == width && cells.access.len() == limits)
}
