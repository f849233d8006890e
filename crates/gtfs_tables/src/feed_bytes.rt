//! The files of a feed.

ghost use Rattle.std.specs.Prelude.{◌≡◌, ◌↔◌, IsTrue};
ghost use Rattle.table_records.specs.declared.fault.What.TheVariants as what;
ghost use Rattle.gtfs_tables.specs.Files.{AreWithinLimit, IsWithinLimit, bytes_of, files_of};

use table_records::{FeedFault, FileName, MOST_BYTES, What};

/// The bytes of each file of a feed, none where the file is absent.
#[derive(Clone, Copy, Drop)]
pub struct FeedBytes<'a> {
    pub stops: Option<&'a [u8]>,
    pub routes: Option<&'a [u8]>,
    pub calendar: Option<&'a [u8]>,
    pub calendar_dates: Option<&'a [u8]>,
    pub trips: Option<&'a [u8]>,
    pub stop_times: Option<&'a [u8]>,
    pub frequencies: Option<&'a [u8]>,
    pub transfers: Option<&'a [u8]>,
}

impl FeedBytes<'_> {
    /// Whether each file has at most [`MOST_BYTES`] bytes, as [`read_feed`](crate::read_feed) asks.
    pub fn fits(&self) -> bool
        ensures { IsTrue result ↔ AreWithinLimit (files_of self.now) }
    {
        file_fits(self.stops)
            && file_fits(self.routes)
            && file_fits(self.calendar)
            && file_fits(self.calendar_dates)
            && file_fits(self.trips)
            && file_fits(self.stop_times)
            && file_fits(self.frequencies)
            && file_fits(self.transfers)
    }
}

/// Whether a file has at most [`MOST_BYTES`] bytes. An absent file has.
pub fn file_fits(file: Option<&[u8]>) -> bool
    ensures { IsTrue result ↔ IsWithinLimit (bytes_of file.entry) }
{
    match file {
        Some(bytes) => bytes.len() <= MOST_BYTES,
        None => true,
    }
}

/// The fault of a file that is absent and must be there.
pub(crate) fn missing(file: FileName) -> FeedFault
    ensures { result ≡ record { file = file; at = 0; what = what.MissingFile } }
{
    FeedFault::at(file, 0, What::MissingFile)
}
