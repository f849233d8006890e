//! The files of a feed, held in memory.
ghost use Rattle.std.specs.Prelude.{◌≡◌, option_map};
ghost use Rattle.gtfs_tables.specs.Files as files;
ghost use Rattle.studies.specs.FeedFiles.{files_read, no_files};

use gtfs_tables::FeedBytes;

/// The files of a feed, each read whole; `None` where there is no such file.
#[derive(Drop)]
pub struct FeedFiles {
    /// `stops.txt`
    pub stops: Option<Vec<u8>>,
    /// `routes.txt`
    pub routes: Option<Vec<u8>>,
    /// `calendar.txt`
    pub calendar: Option<Vec<u8>>,
    /// `calendar_dates.txt`
    pub calendar_dates: Option<Vec<u8>>,
    /// `trips.txt`
    pub trips: Option<Vec<u8>>,
    /// `stop_times.txt`
    pub stop_times: Option<Vec<u8>>,
    /// `frequencies.txt`
    pub frequencies: Option<Vec<u8>>,
    /// `transfers.txt`
    pub transfers: Option<Vec<u8>>,
}

impl FeedFiles {
    /// No file is there.
    pub fn none() -> FeedFiles
        ensures { files_read result ≡ no_files }
    {
        FeedFiles {
            stops: None,
            routes: None,
            calendar: None,
            calendar_dates: None,
            trips: None,
            stop_times: None,
            frequencies: None,
            transfers: None,
        }
    }

    /// Their bytes.
    pub fn bytes(&self) -> FeedBytes<'_>
        ensures { files.files_of result ≡ files_read self.now }
    {
        FeedBytes {
            stops: bytes_of(&self.stops),
            routes: bytes_of(&self.routes),
            calendar: bytes_of(&self.calendar),
            calendar_dates: bytes_of(&self.calendar_dates),
            trips: bytes_of(&self.trips),
            stop_times: bytes_of(&self.stop_times),
            frequencies: bytes_of(&self.frequencies),
            transfers: bytes_of(&self.transfers),
        }
    }
}

/// The bytes of a file, if it is there.
pub fn bytes_of(file: &Option<Vec<u8>>) -> Option<&[u8]>
    ensures { files.bytes_of result ≡ option_map (λ bytes. bytes.items) file.now }
{
    match file {
        Some(bytes) => Some(bytes.as_slice()),
        None => None,
    }
}
