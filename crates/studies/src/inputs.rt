//! What goes into a study: the bytes of its files.
ghost use Rattle.std.specs.Prelude.{◌≤◌, ◌↔◌, IsTrue, All, length};
ghost use Rattle.studies.specs.Inputs.{AreWithinLimit, inputs_of};

use crate::named_file::NamedFile;
use gtfs_tables::{FeedBytes, MOST_BYTES, file_fits};

/// The files of a study.
#[derive(Clone, Copy)]
pub struct Inputs<'a> {
    /// The feed's own files.
    pub feed: FeedBytes<'a>,
    /// Footpaths beside those of `transfers.txt`.
    pub footpaths: Option<&'a [u8]>,
    /// The stops at which journeys begin; without a file they are all stops.
    pub origins: Option<&'a [u8]>,
    /// What each stop counts for in the access of a row; without a file it is one.
    pub opportunities: Option<&'a [u8]>,
    /// The stops that a row has cells for, in the order of its columns; without a file they are all stops.
    pub destinations: Option<&'a [u8]>,
    /// One file for each scenario beside `base`.
    pub scenarios: &'a [NamedFile],
}

impl Inputs<'_> {
    /// Whether each file has at most 1,073,741,824 bytes, as [`run_study`](crate::study::run_study) asks.
    pub fn fits(&self) -> bool
        ensures { IsTrue result ↔ AreWithinLimit (inputs_of self.now) }
    {
        self.feed.fits()
            && file_fits(self.footpaths)
            && file_fits(self.origins)
            && file_fits(self.opportunities)
            && file_fits(self.destinations)
            && are_within_limit(self.scenarios)
    }
}

/// Whether each scenario file keeps the limit of an input file.
fn are_within_limit(files: &[NamedFile]) -> bool
    ensures { IsTrue result ↔ All (λ f. length f.bytes ≤ MOST_BYTES) files.now }
{
    files.iter().all(is_within_limit)
}

/// Whether a scenario file keeps the limit of an input file.
fn is_within_limit(file: &NamedFile) -> bool
    ensures { IsTrue result ↔ (length file.now.bytes ≤ MOST_BYTES) }
{
    file.bytes.len() <= MOST_BYTES
}
