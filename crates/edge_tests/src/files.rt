//! Files read whole, windows, paths and the names of scenarios, and lines put out.

use command_line::{
    REFUSED, ReadFault, path_in, path_line, path_status, read_all, scenario_of, window_of,
};
use outputs::{tell, tell_short};
use std::alloc::Global;
use std::io::Read;
use std::process::ExitCode;

/// Gives so many bytes, and fails at a call after so many calls.
#[derive(Drop)]
struct Source {
    left: usize,
    calls: usize,
}

impl Read for Source {
    fn read(&mut self, buffer: &mut [u8]) -> std::io::Result<usize> {
        if self.calls == 0 {
            return Err(std::io::Error::from(std::io::ErrorKind::BrokenPipe));
        }
        self.calls -= 1;
        let count = buffer.len().min(self.left);
        self.left -= count;
        Ok(count)
    }
}

/// How many bytes are read, or why they aren't.
fn count_of(alloc: Global, left: usize, calls: usize) -> Result<usize, ReadFault> {
    let mut source = Source { left, calls };
    match read_all(alloc, &mut source) {
        Ok(bytes) => Ok(bytes.len()),
        Err(fault) => Err(fault),
    }
}

/// `read_all`.
#[test]
fn reads_all_bytes(rt: HostRuntime) {
    let mut three: &[u8] = b"a,b";
    match read_all(rt.alloc(), &mut three) {
        Ok(bytes) => assert_eq!(rt; bytes.as_slice(), b"a,b".as_slice()),
        Err(_) => panic!(rt; "not read"),
    }
}

/// `read_all`.
#[test]
fn tells_why_a_file_is_not_read(rt: HostRuntime) {
    let cases: [(usize, usize, Result<usize, ReadFault>); 2] = [
        (10_000, 9, Ok(10_000)),
        (10_000, 1, Err(ReadFault::Read)),
    ];
    for (left, calls, want) in &cases {
        assert!(rt; count_of(rt.alloc(), *left, *calls) == *want);
    }
}

/// `path_status`, `path_line`.
#[test]
fn tells_which_file_is_not_read(rt: HostRuntime) {
    let cases: [(ReadFault, &[u8], u8); 3] = [
        (ReadFault::Read, b"ttm: x: read fault\n", 5),
        (ReadFault::TooLong, b"ttm: x: too long\n", 2),
        (ReadFault::Memory, b"ttm: out of memory\n", 3),
    ];
    for (fault, want, status) in &cases {
        assert_eq!(rt; path_status(fault), *status);
        match path_line(rt.alloc(), "x", fault) {
            Ok(line) => assert_eq!(rt; line.as_slice(), *want),
            Err(_) => panic!(rt; "out of memory"),
        }
    }
}

/// `window_of`.
#[test]
fn a_window_has_both_its_ends(rt: HostRuntime) {
    let cases: [(&[u8], &[u8], Option<(u32, u32)>); 8] = [
        (b"07:28", b"08:00", Some((448, 33))),
        (b"08:00", b"08:00", Some((480, 1))),
        (b"00:00", b"23:59", Some((0, 1440))),
        (b"08:01", b"08:00", None),
        (b"8:00", b"09:00", None),
        (b"08:00", b"24:00", None),
        (b"08:60", b"09:00", None),
        (b" 08:00", b"09:00", None),
    ];
    for (from, to, want) in &cases {
        assert!(rt; window_of(from, to) == *want);
    }
}

/// `scenario_of`.
#[test]
fn names_scenarios_by_their_files(rt: HostRuntime) {
    let cases: [(&[u8], &[u8]); 6] = [
        (b"cut.csv", b"cut"),
        (b"town/plans/cut.csv", b"cut"),
        (b"town.csv/late", b"late"),
        (b"cut.csv.csv", b"cut.csv"),
        (b".csv", b""),
        (b"town/", b""),
    ];
    for (path, want) in &cases {
        assert_eq!(rt; scenario_of(path), *want);
    }
}

/// `path_in`.
#[test]
fn finds_the_files_of_a_feed_in_its_folder(rt: HostRuntime) {
    match path_in(rt.alloc(), "town", "stops.txt") {
        Ok(path) => assert_eq!(rt; path.as_str(), "town/stops.txt"),
        Err(_) => panic!(rt; "out of memory"),
    }
}

/// `tell_short`.
#[test]
fn a_line_is_told_whole(rt: HostRuntime) {
    let mut err = Vec::new(rt.alloc());
    assert!(rt; tell(b"ttm: bad date\n", REFUSED, &mut err) == ExitCode::from(2));
    assert!(rt; tell_short(&mut err) == ExitCode::from(3));
    assert_eq!(rt;
        err.as_slice(),
        b"ttm: bad date\nttm: out of memory\n".as_slice()
    );
}
