//! Worked examples of texts, and texts put out by poor writers.

use collector::{Cells, Collector, Matrix, Row};
use gtfs_tables::{Feed, FeedBytes, read_feed};
use matrix_text::{Labels, TextFault, put_all, write_matrix};
use std::alloc::{AllocError, Global};
use std::io;
use std::io::{ErrorKind, Write};
use timetable::StopNo;

/// The two files in which the feeds of the examples differ.
#[derive(Clone, Copy)]
struct Files {
    stops: &'static [u8],
    stop_times: &'static [u8],
}

/// Two trips among three stops.
const THREE_STOPS: Files = Files {
    stops: b"stop_id\nA\nB\nC\n",
    stop_times: b"trip_id,arrival_time,departure_time,stop_id,stop_sequence
T1,08:00:00,08:00:00,A,1
T1,08:10:00,08:10:00,B,2
T2,08:15:00,08:15:00,B,1
T2,08:30:00,08:30:00,C,2
",
};

/// The same, where the first stop's identifier has a comma.
const QUOTED: Files = Files {
    stops: b"stop_id\n\"A,1\"\nB\nC\n",
    stop_times: b"trip_id,arrival_time,departure_time,stop_id,stop_sequence
T1,08:00:00,08:00:00,\"A,1\",1
T1,08:10:00,08:10:00,B,2
T2,08:15:00,08:15:00,B,1
T2,08:30:00,08:30:00,C,2
",
};

/// Two stops in place of three, and no times.
const TWO_STOPS: Files = Files {
    stops: b"stop_id\nA\nB\n",
    stop_times: b"trip_id,stop_id,stop_sequence,arrival_time,departure_time\n",
};

/// The feed of two trips, if it is one. It stands in a box, so that whoever holds it drops it in one step.
fn feed_of(alloc: Global, own: Files) -> Option<Box<Feed>> {
    let files = FeedBytes {
        stops: Some(own.stops),
        routes: Some(b"route_id\nR1\nR2\n"),
        calendar: Some(
            b"service_id,monday,tuesday,wednesday,thursday,friday,saturday,sunday,start_date,end_date
MON,1,0,0,0,0,0,0,20260504,20260531
",
        ),
        calendar_dates: None,
        trips: Some(b"route_id,service_id,trip_id\nR1,MON,T1\nR2,MON,T2\n"),
        stop_times: Some(own.stop_times),
        frequencies: None,
        transfers: None,
    };
    if !files.fits() {
        return None;
    }
    match read_feed(alloc, &files) {
        Ok(feed) => Box::new(alloc, feed).ok(),
        Err(_) => None,
    }
}

/// What a share gives: scenario, origin, access sums and cells.
type Told<'a> = (u32, u32, &'a [u64], &'a [Option<u32>]);

/// From A: B after ten minutes and C after thirty.
const FROM_A: Told<'static> = (0, 0, &[3], &[Some(0), Some(600), Some(1_800)]);

/// The names of scenarios, the stops of origins, the shares and limits, and the stops of the columns.
#[derive(Clone, Copy)]
struct Named<'a> {
    scenarios: &'a [&'a [u8]],
    origins: &'a [StopNo],
    shares: &'a [u32],
    limits: &'a [u32],
    destinations: &'a [StopNo],
}

/// The three stops of a feed, in order.
const EVERY_STOP: [StopNo; 3] = [StopNo(0), StopNo(1), StopNo(2)];

/// One scenario, and A as the only origin, at half of the minutes and within half an hour.
const BASE_FROM_A: Named<'static> = Named {
    scenarios: &[b"base"],
    origins: &[StopNo(0)],
    shares: &[50],
    limits: &[1_800],
    destinations: &EVERY_STOP,
};

/// The row of a scenario and an origin, of what each of its shares gives; out of memory is told too without shares.
fn row_of(alloc: Global, shares: &[Told<'_>]) -> Result<Row, AllocError> {
    let Some((scenario, origin, _, _)) = shares.first() else {
        return Err(AllocError);
    };
    let mut list = Vec::with_capacity(alloc, shares.len())?;
    for (_, _, access, cells) in shares {
        list.push(Cells {
            cells: cells.to_vec(alloc)?,
            access: access.to_vec(alloc)?,
        })?;
    }
    Ok(Row {
        study: 1,
        scenario: *scenario,
        origin: *origin,
        shares: list,
    })
}

/// The matrix of three columns with so many scenarios, origins, shares and limits as are named, of what the shares of
/// each row give, one after another; out of memory is told too where they don't fill it.
fn matrix_of(alloc: Global, named: Named<'_>, told: &[Told<'_>]) -> Result<Matrix, AllocError> {
    let shares = named.shares.len();
    if named.scenarios.len() > 3 || named.origins.len() > 3 || shares == 0 || shares > 3 {
        return Err(AllocError);
    }
    if named.limits.len() > 3 {
        return Err(AllocError);
    }
    let mut collector = Collector::new(
        alloc,
        1,
        named.scenarios.len() as u32,
        named.origins.len() as u32,
        3,
        shares as u32,
        named.limits.len() as u32,
    )?;
    for row in told.chunks(shares) {
        collector.offer(row_of(alloc, row)?);
    }
    match collector.finish() {
        Ok(matrix) => Ok(matrix),
        Err(_) => Err(AllocError),
    }
}

/// The names as they stand in labels.
fn list_of(alloc: Global, names: &[&[u8]]) -> Result<Vec<Vec<u8>>, AllocError> {
    let mut list = Vec::with_capacity(alloc, names.len())?;
    for name in names {
        list.push(Vec::from_slice(alloc, name)?)?;
    }
    Ok(list)
}

/// Writes the text where the labels fit; out of memory is told too where they don't.
fn write_over<W: Write>(
    alloc: Global,
    feed: &Feed,
    matrix: &Matrix,
    scenarios: &[Vec<u8>],
    named: Named<'_>,
    w: &mut W,
) -> Result<(), TextFault> {
    let labels = Labels {
        scenarios,
        origins: named.origins,
        shares: named.shares,
        limits: named.limits,
        destinations: named.destinations,
        feed,
    };
    if !labels.fit(matrix) {
        return Err(TextFault::Memory);
    }
    write_matrix(alloc, matrix, &labels, w)
}

/// Writes the text of a matrix over a feed of these files.
fn write_text<W: Write>(
    alloc: Global,
    files: Files,
    matrix: &Matrix,
    named: Named<'_>,
    w: &mut W,
) -> Result<(), TextFault> {
    let Ok(scenarios) = list_of(alloc, named.scenarios) else {
        return Err(TextFault::Memory);
    };
    match feed_of(alloc, files) {
        Some(feed) => write_over(alloc, &feed, matrix, &scenarios, named, w),
        None => Err(TextFault::Memory),
    }
}

/// Whether the matrix of these rows has this text.
fn gives(alloc: Global, files: Files, told: &[Told<'_>], named: Named<'_>, want: &[u8]) -> bool {
    let mut text = Vec::new(alloc);
    match matrix_of(alloc, named, told) {
        Ok(matrix) => {
            let done = write_text(alloc, files, &matrix, named, &mut text);
            done.is_ok() && text.as_slice() == want
        }
        Err(_) => false,
    }
}

/// `write_matrix`, `Labels::fit`.
#[test]
fn writes_one_row(rt: HostRuntime) {
    assert!(rt;
        gives(
            rt.alloc(),
            THREE_STOPS,
            &[FROM_A],
            BASE_FROM_A,
            b"scenario,origin,share,access_1800,A,B,C\nbase,A,50,3,0,600,1800\n"
        )
    );
}

/// `write_matrix`, `Labels::fit`.
#[test]
fn writes_scenarios_and_their_origins_in_order(rt: HostRuntime) {
    let told: [Told<'_>; 9] = [
        (2, 2, &[1], &[None, None, Some(0)]),
        FROM_A,
        (0, 1, &[2], &[None, Some(0), Some(1_800)]),
        (0, 2, &[1], &[None, None, Some(0)]),
        (1, 0, &[2], &[Some(0), Some(600), None]),
        (1, 1, &[1], &[None, Some(0), None]),
        (1, 2, &[1], &[None, None, Some(0)]),
        (2, 0, &[3], &[Some(0), Some(900), Some(1_800)]),
        (2, 1, &[2], &[None, Some(0), Some(1_800)]),
    ];
    let named = Named {
        scenarios: &[b"base", b"cut", b"late"],
        origins: &[StopNo(0), StopNo(1), StopNo(2)],
        shares: &[50],
        limits: &[1_800],
        destinations: &EVERY_STOP,
    };
    let want = b"scenario,origin,share,access_1800,A,B,C
base,A,50,3,0,600,1800
base,B,50,2,,0,1800
base,C,50,1,,,0
cut,A,50,2,0,600,
cut,B,50,1,,0,
cut,C,50,1,,,0
late,A,50,3,0,900,1800
late,B,50,2,,0,1800
late,C,50,1,,,0
";
    assert!(rt; gives(rt.alloc(), THREE_STOPS, &told, named, want));
}

/// `write_matrix`, `Labels::fit`.
#[test]
fn writes_a_line_for_each_share_and_a_sum_for_each_limit(rt: HostRuntime) {
    let told: [Told<'_>; 4] = [
        (0, 1, &[1, 2], &[None, Some(0), Some(900)]),
        (0, 1, &[1, 1], &[None, Some(0), None]),
        (0, 0, &[2, 2], &[Some(0), Some(660), Some(1_860)]),
        (0, 0, &[1, 1], &[Some(0), None, None]),
    ];
    let named = Named {
        scenarios: &[b"base"],
        origins: &[StopNo(0), StopNo(1)],
        shares: &[50, 100],
        limits: &[700, 1_800],
        destinations: &EVERY_STOP,
    };
    let want = b"scenario,origin,share,access_700,access_1800,A,B,C
base,A,50,2,2,0,660,1860
base,A,100,1,1,0,,
base,B,50,1,2,,0,900
base,B,100,1,1,,0,
";
    assert!(rt; gives(rt.alloc(), THREE_STOPS, &told, named, want));
}

/// `write_matrix`, `Labels::fit`.
#[test]
fn tells_origins_by_their_stops(rt: HostRuntime) {
    let named = Named {
        origins: &[StopNo(2)],
        ..BASE_FROM_A
    };
    assert!(rt;
        gives(
            rt.alloc(),
            THREE_STOPS,
            &[(0, 0, &[1], &[None, None, Some(0)])],
            named,
            b"scenario,origin,share,access_1800,A,B,C\nbase,C,50,1,,,0\n"
        )
    );
}

/// `write_matrix`, `Labels::fit`.
#[test]
fn writes_the_header_alone_without_origins(rt: HostRuntime) {
    let named = Named {
        origins: &[],
        ..BASE_FROM_A
    };
    let want = b"scenario,origin,share,access_1800,A,B,C\n";
    assert!(rt; gives(rt.alloc(), THREE_STOPS, &[], named, want));
}

/// `write_matrix`, `Labels::fit`.
#[test]
fn quotes_where_it_is_needed(rt: HostRuntime) {
    let named = Named {
        scenarios: &[b"a \"b\""],
        ..BASE_FROM_A
    };
    let want =
        b"scenario,origin,share,access_1800,\"A,1\",B,C\n\"a \"\"b\"\"\",\"A,1\",50,3,0,600,1800\n";
    assert!(rt; gives(rt.alloc(), QUOTED, &[FROM_A], named, want));
}

/// Whether the row from A is written whole under a scenario's name of so many bytes.
fn gives_a_line_longer_than(alloc: Global, bytes: usize) -> Result<bool, AllocError> {
    let name = vec![in alloc; b'x'; bytes]?;
    let mut want = Vec::from_slice(alloc, b"scenario,origin,share,access_1800,A,B,C\n")?;
    want.extend_from_slice(&name)?;
    want.extend_from_slice(b",A,50,3,0,600,1800\n")?;
    let named = Named {
        scenarios: &[&name],
        origins: &[StopNo(0)],
        shares: &[50],
        limits: &[1_800],
        destinations: &EVERY_STOP,
    };
    Ok(gives(alloc, THREE_STOPS, &[FROM_A], named, &want))
}

/// `write_matrix`, `Labels::fit`.
#[test]
fn writes_a_line_of_more_than_64_kib(rt: HostRuntime) {
    assert_eq!(rt; gives_a_line_longer_than(rt.alloc(), 65_536), Ok(true));
}

/// Whether these labels are told to fit the matrix of the row from A: none without memory.
fn fit(alloc: Global, files: Files, named: Named<'_>) -> Option<bool> {
    match (
        matrix_of(alloc, BASE_FROM_A, &[FROM_A]),
        list_of(alloc, named.scenarios),
    ) {
        (Ok(matrix), Ok(scenarios)) => fit_over(alloc, files, &scenarios, named, &matrix),
        _ => None,
    }
}

/// Whether labels over these files are told to fit a matrix: none where the files are no feed.
fn fit_over(
    alloc: Global,
    files: Files,
    scenarios: &[Vec<u8>],
    named: Named<'_>,
    matrix: &Matrix,
) -> Option<bool> {
    match feed_of(alloc, files) {
        Some(feed) => Some(labels_fit(scenarios, named, &feed, matrix)),
        None => None,
    }
}

/// Whether these labels are told to fit a matrix.
fn labels_fit(scenarios: &[Vec<u8>], named: Named<'_>, feed: &Feed, matrix: &Matrix) -> bool {
    let labels = Labels {
        scenarios,
        origins: named.origins,
        shares: named.shares,
        limits: named.limits,
        destinations: named.destinations,
        feed,
    };
    labels.fit(matrix)
}

/// Labels: the names of scenarios, the origins, the shares, the limits, and whether they fit the matrix of the row from
/// A.
const LABELS: [(&[&[u8]], &[StopNo], &[u32], &[u32], bool); 9] = [
    (&[b"base"], &[StopNo(0)], &[50], &[1_800], true),
    (&[], &[StopNo(0)], &[50], &[1_800], false),
    (&[b"base", b"cut"], &[StopNo(0)], &[50], &[1_800], false),
    (&[b"base"], &[StopNo(3)], &[50], &[1_800], false),
    (&[b"base"], &[], &[50], &[1_800], false),
    (&[b"base"], &[StopNo(0)], &[], &[1_800], false),
    (&[b"base"], &[StopNo(0)], &[50, 75], &[1_800], false),
    (&[b"base"], &[StopNo(0)], &[50], &[], false),
    (&[b"base"], &[StopNo(0)], &[50], &[700, 1_800], false),
];

/// Whether each of the labels is told to fit, or not to, as it should.
fn labels_are_told(alloc: Global) -> bool {
    for (scenarios, origins, shares, limits, want) in &LABELS {
        let named = Named {
            scenarios,
            origins,
            shares,
            limits,
            destinations: &EVERY_STOP,
        };
        if fit(alloc, THREE_STOPS, named) != Some(*want) {
            return false;
        }
    }
    true
}

/// `Labels::fit`.
#[test]
fn labels_fit_their_own_matrix_alone(rt: HostRuntime) {
    assert!(rt; labels_are_told(rt.alloc()));
    assert_eq!(rt; fit(rt.alloc(), TWO_STOPS, BASE_FROM_A), Some(false));
}

/// The labels of one scenario from A, with these columns.
fn to(destinations: &[StopNo]) -> Named<'_> {
    Named {
        destinations,
        ..BASE_FROM_A
    }
}

/// `Labels::fit`.
#[test]
fn a_matrix_has_as_many_columns_as_labels(rt: HostRuntime) {
    let alloc = rt.alloc();
    assert_eq!(rt;
        fit(alloc, THREE_STOPS, to(&[StopNo(2), StopNo(0), StopNo(1)])),
        Some(true)
    );
    assert_eq!(rt;
        fit(alloc, THREE_STOPS, to(&[StopNo(2), StopNo(0)])),
        Some(false)
    );
    assert_eq!(rt;
        fit(alloc, THREE_STOPS, to(&[StopNo(0), StopNo(1), StopNo(3)])),
        Some(false)
    );
}

/// `write_matrix`, `Labels::fit`.
#[test]
fn names_each_column_by_its_own_stop(rt: HostRuntime) {
    let told: [Told<'_>; 1] = [(0, 0, &[3], &[Some(1_800), Some(0), Some(600)])];
    let want = b"scenario,origin,share,access_1800,C,A,B\nbase,A,50,3,1800,0,600\n";
    assert!(rt;
        gives(
            rt.alloc(),
            THREE_STOPS,
            &told,
            to(&[StopNo(2), StopNo(0), StopNo(1)]),
            want
        )
    );
}

/// Takes at most so many bytes at a call, and fails after so many calls.
#[derive(Drop)]
struct Slow {
    taken: Vec<u8>,
    at_once: usize,
    calls: usize,
}

impl Write for Slow {
    fn write(&mut self, bytes: &[u8]) -> io::Result<usize> {
        if self.calls == 0 {
            return Err(io::Error::from(ErrorKind::BrokenPipe));
        }
        self.calls -= 1;
        let count = bytes.len().min(self.at_once);
        self.taken.extend_from_slice(&bytes[..count])?;
        Ok(count)
    }

    fn flush(&mut self) -> io::Result<()> {
        Ok(())
    }
}

/// Whether a slow writer takes these bytes of the text, and is told so of the rest.
fn leaves(
    alloc: Global,
    at_once: usize,
    calls: usize,
    told: Result<(), TextFault>,
    want: &[u8],
) -> bool {
    let mut writer = Slow {
        taken: Vec::new(alloc),
        at_once,
        calls,
    };
    match matrix_of(alloc, BASE_FROM_A, &[FROM_A]) {
        Ok(matrix) => {
            let done = write_text(alloc, THREE_STOPS, &matrix, BASE_FROM_A, &mut writer);
            done == told && writer.taken.as_slice() == want
        }
        Err(_) => false,
    }
}

/// `write_matrix`, `Labels::fit`.
#[test]
fn leaves_a_prefix_where_the_writer_fails(rt: HostRuntime) {
    let fault = Err(TextFault::Write);
    let header = b"scenario,origin,share,access_1800,A,B,C\n";
    let all = b"scenario,origin,share,access_1800,A,B,C\nbase,A,50,3,0,600,1800\n";
    assert!(rt; leaves(rt.alloc(), 10, 1, fault, b"scenario,o"));
    assert!(rt; leaves(rt.alloc(), 1, 999, Ok(()), all));
    assert!(rt; leaves(rt.alloc(), 99, 1, fault, header));
    assert!(rt; leaves(rt.alloc(), 0, 9, fault, b""));
    assert!(rt; leaves(rt.alloc(), 99, 0, fault, b""));
}

/// `put_all`.
#[test]
fn puts_out_bytes_piece_by_piece(rt: HostRuntime) {
    let mut writer = Slow {
        taken: Vec::new(rt.alloc()),
        at_once: 3,
        calls: 4,
    };
    assert_eq!(rt; put_all(b"0,600,1800\n", &mut writer), Ok(()));
    assert_eq!(rt; put_all(b"0", &mut writer), Err(TextFault::Write));
    assert_eq!(rt; writer.taken.as_slice(), b"0,600,1800\n".as_slice());
}
