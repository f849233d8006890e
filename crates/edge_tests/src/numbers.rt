//! The numbers that a text lists.

use command_line::numbers_of;
use std::alloc::{AllocError, Global};

/// Whether a text lists these numbers.
fn lists(alloc: Global, text: &[u8], want: &[u32]) -> Result<bool, AllocError> {
    match numbers_of(alloc, text)? {
        Some(numbers) => Ok(numbers.as_slice() == want),
        None => Ok(false),
    }
}

/// Whether a text lists nothing.
fn lists_nothing(alloc: Global, text: &[u8]) -> Result<bool, AllocError> {
    Ok(numbers_of(alloc, text)?.is_none())
}

/// `numbers_of`.
#[test]
fn reads_lists_of_one_to_eight_numbers(rt: HostRuntime) -> Result<(), AllocError> {
    let cases: [(&[u8], &[u32]); 6] = [
        (b"25,50", &[25, 50]),
        (b"0", &[0]),
        (b"007,08", &[7, 8]),
        (b"4294967294,4294967295", &[4_294_967_294, 4_294_967_295]),
        (b"1,25,50,75,100", &[1, 25, 50, 75, 100]),
        (b"1,2,3,4,5,6,7,8", &[1, 2, 3, 4, 5, 6, 7, 8]),
    ];
    for (text, want) in &cases {
        assert!(rt; lists(rt.alloc(), text, want)?);
    }
    Ok(())
}

/// `numbers_of`.
#[test]
fn reads_nothing_from_other_texts(rt: HostRuntime) -> Result<(), AllocError> {
    let cases: [&[u8]; 14] = [
        b"",
        b",",
        b"50,",
        b",50",
        b"25,,50",
        b"50,25",
        b"1800,1800",
        b"25, 50",
        b" 25",
        b"25;50",
        b"+25",
        b"4294967296",
        b"1,2,3,4,5,6,7,8,9",
        b"5,4,3,2,1",
    ];
    for text in &cases {
        assert!(rt; lists_nothing(rt.alloc(), text)?);
    }
    Ok(())
}
