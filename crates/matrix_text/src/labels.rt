//! What names the rows and the columns of a matrix.
ghost use Rattle.std.specs.Prelude.{◌↔◌, IsTrue};
ghost use Rattle.matrix_text.specs.Text.{labels_of, LabelsFit};

use collector::Matrix;
use gtfs_tables::Feed;
use timetable::{StopNo, are_stops};

/// The names of a matrix's scenarios, its origins, its shares and limits, and the stops of a feed that are its columns.
#[derive(Clone, Copy)]
pub struct Labels<'a> {
    /// The scenarios' names, in order.
    pub scenarios: &'a [Vec<u8>],
    /// The stop of each origin, in order.
    pub origins: &'a [StopNo],
    /// The shares of a hundred minutes, in the order of each row's cells.
    pub shares: &'a [u32],
    /// The limits of reach in seconds, in the order of the access sums.
    pub limits: &'a [u32],
    /// The stop of each column of cells, in order.
    pub destinations: &'a [StopNo],
    /// The feed, for the identifiers of the stops.
    pub feed: &'a Feed,
}

impl Labels<'_> {
    /// A door for other programs: whether the labels fit a matrix. There is one name per scenario and one stop of the
    /// feed per origin, there are as many shares and limits as the matrix has, and one stop of the feed per column.
    pub fn fit(&self, matrix: &Matrix) -> bool
        ensures { IsTrue result ↔ LabelsFit (labels_of self.now) matrix.now }
    {
        let stops = self.feed.stop_count() as usize;
        self.scenarios.len() == matrix.scenarios() as usize
            && self.origins.len() == matrix.origins() as usize
            && are_stops(self.origins, stops)
            && self.shares.len() == matrix.shares() as usize
            && self.limits.len() == matrix.limits() as usize
            && are_stops(self.destinations, stops)
            && self.destinations.len() == matrix.width() as usize
    }
}
