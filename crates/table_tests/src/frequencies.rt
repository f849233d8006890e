//! The departures of `frequencies.txt`.

ghost use Rattle.std.specs.Prelude.{◌≤◌, length};
ghost use Rattle.table_records.specs.declared.limits.TheConstants.{MOST_BYTES};

use crate::test_identifiers::identifiers;
use std::alloc::Global;
use std::test::Fail;
use table_files::{Departures, read_frequencies};
use table_records::FeedFault;

/// Whether the second of two trips has these departures, and the first has none.
fn has_departures(rows: &[Vec<Departures>], second: &[Departures]) -> bool {
    rows.len() == 2 && rows[0].len() == 0 && rows[1].as_slice() == second
}

/// Whether the rows of a file are the departures of the second of two trips.
fn gives(alloc: Global, bytes: &[u8], second: &[Departures]) -> Result<bool, FeedFault>
    requires { length bytes.now ≤ MOST_BYTES }
{
    let trips = identifiers(alloc, &[b"T1", b"T2"])?;
    let rows = read_frequencies(alloc, bytes, &trips)?;
    Ok(has_departures(rows.as_slice(), second))
}

/// `read_frequencies`.
#[test]
fn rows_of_each_trip(rt: HostRuntime) -> Result<(), Fail> {
    let early = Departures {
        start: 28_800,
        end: 30_000,
        headway: 600,
    };
    let none = Departures {
        start: 36_000,
        end: 32_400,
        headway: 1,
    };
    let holds = gives(
        rt.alloc(),
        b"trip_id,start_time,end_time,headway_secs\nT2,08:00:00,08:20:00,600\nT2,10:00:00,09:00:00,1\n",
        &[early, none],
    )?;
    assert!(rt; holds);
    Ok(())
}
