//! Tables and fields as feeds have them, and what has to be read from them.

use crate::test_identifiers::identifiers;
use csv::ByteRecord;
use std::alloc::{AllocError, Global};
use std::test::Fail;
use table_records::{
    FeedFault, FileName, Records, What, column, field, number, read_date, read_time, trim,
};

/// A box is dropped in one step, where a reader and a record would be in many.
fn reader<'a>(alloc: Global, bytes: &'a [u8]) -> Result<Box<Records<'a>>, AllocError> {
    Ok(Box::new(alloc, Records::new(alloc, bytes))?)
}

fn empty_record(alloc: Global) -> Result<Box<ByteRecord>, AllocError> {
    Ok(Box::new(alloc, ByteRecord::new(alloc))?)
}

/// The first ten records of a file, with `|` between two fields and `;` after a record.
fn shown(alloc: Global, bytes: &[u8]) -> Result<Vec<u8>, AllocError> {
    let mut rows = reader(alloc, bytes)?;
    let mut row = empty_record(alloc)?;
    let (rows, row) = (rows.as_mut(), row.as_mut());
    let mut text = Vec::new(alloc);
    for _ in 0..10 {
        if !rows.next(row)? {
            break;
        }
        show(row, &mut text)?;
    }
    Ok(text)
}

fn show(row: &ByteRecord, text: &mut Vec<u8>) -> Result<(), AllocError> {
    for i in 0..row.len() {
        if i > 0 {
            text.push(b'|')?;
        }
        text.extend_from_slice(field(row, Some(i)))?;
    }
    text.push(b';')?;
    Ok(())
}

/// `Records::new`, `field`.
#[test]
fn reads_records(rt: HostRuntime) -> Result<(), Fail> {
    let cases: [(&[u8], &[u8]); 15] = [
        (b"", b""),
        (b"a,b\n1\n1,2,3\n", b"a|b;1;1|2|3;"),
        (b"a,\n,b", b"a|;|b;"),
        (b"\"x,y\",\"say \"\"hi\"\"\"\n", b"x,y|say \"hi\";"),
        (b"\"two\nlines\",z\n", b"two\nlines|z;"),
        (b"a\rb\nc\r\nd", b"a;b;c;d;"),
        (b"a\n\n\r\n\rb\n\n", b"a;b;"),
        (b"a\n \nb\n", b"a; ;b;"),
        (b"a\n\"\"\nb\n", b"a;;b;"),
        (b"a\"b,c\"\"\n", b"a\"b|c\"\";"),
        (b"\"a\"b,c\n", b"ab|c;"),
        (b"\"never ended\n,", b"never ended\n,;"),
        (b" a , b \n", b" a | b ;"),
        (b"\xEF\xBB\xBFa,b\n", b"a|b;"),
        (b"\xEF\xBB\xBF\xEF\xBB\xBFa\n", b"\xEF\xBB\xBFa;"),
    ];
    for (bytes, want) in &cases {
        let text = shown(rt.alloc(), bytes)?;
        assert!(rt; text.as_slice() == *want);
    }
    Ok(())
}

/// `column`.
#[test]
fn finds_columns_by_name(rt: HostRuntime) -> Result<(), Fail> {
    let mut rows = reader(rt.alloc(), b"id, name ,id,\tzone\nA,Alpha,B,1\nC\n")?;
    let mut row = empty_record(rt.alloc())?;
    let (rows, row) = (rows.as_mut(), row.as_mut());
    assert!(rt; rows.next(row)?);
    let columns: [(&[u8], Option<usize>); 4] = [
        (b"id", Some(0)),
        (b"name", Some(1)),
        (b"zone", None),
        (b"Id", None),
    ];
    for (name, want) in &columns {
        assert!(rt; column(row, name) == *want);
    }
    let records: [(&[u8], &[u8]); 2] = [(b"A", b"Alpha"), (b"C", b"")];
    for (id, name) in &records {
        assert!(rt; rows.next(row)? && has_fields(row, id, name));
    }
    assert!(rt; !rows.next(row)?);
    Ok(())
}

/// Whether the first two fields of a record are these, and one in no column is empty.
fn has_fields(row: &ByteRecord, first: &[u8], second: &[u8]) -> bool {
    field(row, Some(0)) == first && field(row, Some(1)) == second && field(row, None).is_empty()
}

/// `Identifiers::id`, `Identifiers::push`.
#[test]
fn numbers_identifiers(rt: HostRuntime) -> Result<(), Fail> {
    let mut ids = identifiers(rt.alloc(), &[])?;
    let ids = ids.as_mut();
    assert!(rt; ids.is_empty());
    let pushed: [(&[u8], bool); 4] = [(b"T1", true), (b" ", true), (b"T1", false), (b"t1", true)];
    for (id, is_new) in &pushed {
        assert!(rt; ids.push(rt.alloc(), id)? == *is_new);
    }
    let numbers: [(&[u8], Option<usize>); 4] = [
        (b"T1", Some(0)),
        (b" ", Some(1)),
        (b"t1", Some(2)),
        (b"", None),
    ];
    for (id, want) in &numbers {
        assert!(rt; ids.number(id) == *want);
    }
    assert!(rt; ids.len() == 3 && ids.id(2) == Some(b"t1") && ids.id(3).is_none());
    Ok(())
}

/// `trim`.
#[test]
fn trims_spaces(rt: HostRuntime) {
    let cases: [(&[u8], &[u8]); 4] = [
        (b"  a b ", b"a b"),
        (b" \t ", b"\t"),
        (b"   ", b""),
        (b"", b""),
    ];
    for (text, want) in &cases {
        assert!(rt; trim(text) == *want);
    }
}

/// `number`.
#[test]
fn reads_numbers(rt: HostRuntime) {
    let cases: [(&[u8], Option<u32>); 10] = [
        (b"0", Some(0)),
        (trim(b" 7 "), Some(7)),
        (b"0000000000000000000000000000000000000001", Some(1)),
        (b"4294967295", Some(4_294_967_295)),
        (b"4294967296", None),
        (b"99999999999999999999999999999999999999x", None),
        (b"-1", None),
        (b"7 ", None),
        (b"1.0", None),
        (b"", None),
    ];
    for (text, want) in &cases {
        assert!(rt; number(text) == *want);
    }
}

/// `read_time`.
#[test]
fn reads_times(rt: HostRuntime) {
    let cases: [(&[u8], Option<u32>); 16] = [
        (b"00:00:00", Some(0)),
        (b"0:00:00", Some(0)),
        (b"8:05:07", Some(29_107)),
        (b"08:05:07", Some(29_107)),
        (b"25:00:59", Some(90_059)),
        (b"167:59:59", Some(604_799)),
        (b"  23:59:59 ", Some(86_399)),
        (b"168:00:00", None),
        (b"0001:00:00", None),
        (b"8:5:00", None),
        (b"24:60:00", None),
        (b"24:00:60", None),
        (b"08:05", None),
        (b"08-05:00", None),
        (b"", None),
        (b" ", None),
    ];
    for (text, want) in &cases {
        assert!(rt; read_time(text) == *want);
    }
}

/// `read_date`.
#[test]
fn reads_dates(rt: HostRuntime) {
    let cases: [(&[u8], Option<(i16, i8, i8)>); 12] = [
        (b"20240229", Some((2024, 2, 29))),
        (b" 20260504 ", Some((2026, 5, 4))),
        (b"20000229", Some((2000, 2, 29))),
        (b"00000101", Some((0, 1, 1))),
        (b"99991231", Some((9999, 12, 31))),
        (b"19000229", None),
        (b"20261301", None),
        (b"20260001", None),
        (b"20260431", None),
        (b"2026050", None),
        (b"2026-5-4", None),
        (b"", None),
    ];
    for (text, want) in &cases {
        let day = match read_date(text) {
            Some(date) => Some((date.year(), date.month(), date.day())),
            None => None,
        };
        assert!(rt; day == *want);
    }
}

/// `FeedFault::from`, `FeedFault::at`.
#[test]
fn tells_out_of_memory(rt: HostRuntime) {
    let fault = FeedFault::at(FileName::Trips, 7, What::BadDate);
    assert!(rt; (fault.file, fault.at, fault.what) == (FileName::Trips, 7, What::BadDate));
    assert!(rt; FeedFault::from(AllocError).what == What::Memory);
}
