//! The yardstick: the `csv` crate alone, over every record of the same bytes.

use csv::{ByteRecord, Reader, ReaderBuilder};
use gtfs_tables::FeedBytes;
use std::alloc::{AllocError, Global};

/// Goes over the records of all files and gives the number of `stop_times.txt`'s, its header not counted.
pub(crate) fn count_feed(alloc: Global, feed: &FeedBytes<'_>) -> Result<u64, AllocError> {
    let others = [
        feed.stops,
        feed.routes,
        feed.calendar,
        feed.calendar_dates,
        feed.trips,
        feed.frequencies,
        feed.transfers,
    ];
    for file in others {
        count_file(alloc, file)?;
    }
    Ok(count_file(alloc, feed.stop_times)?.saturating_sub(1))
}

fn count_file(alloc: Global, bytes: Option<&[u8]>) -> Result<u64, AllocError> {
    match bytes {
        Some(bytes) => count_records(alloc, bytes),
        None => Ok(0),
    }
}

// The number of records, the header's among them.
fn count_records(alloc: Global, bytes: &[u8]) -> Result<u64, AllocError> {
    let mut reader = ReaderBuilder::new()
        .has_headers(false)
        .flexible(true)
        .from_reader(alloc, bytes);
    let mut row = ByteRecord::new(alloc);
    count_with(&mut reader, &mut row)
}

// The same, of a reader, over one record's room.
fn count_with(reader: &mut Reader<&[u8]>, row: &mut ByteRecord) -> Result<u64, AllocError> {
    for count in 0..u64::MAX {
        let Ok(found) = reader.read_byte_record(row) else {
            return Err(AllocError);
        };
        if !found {
            return Ok(count);
        }
    }
    Ok(u64::MAX)
}
