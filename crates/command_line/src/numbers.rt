//! Lists of numbers, as a text of the command line has them.

ghost use Rattle.std.specs.Prelude.{◌≡◌, ◌≤◌, ◌↔◌, ℕ, List, map, IfNone, IfOk, IfSome, IsTrue, length, option_map};
ghost use Rattle.std.specs.List.Sorted.{IsStrictlyIncreasing};
ghost use Rattle.workers.specs.declared.study.TheConstants as limit;
ghost use Rattle.command_line.specs.Numbers as spec;
ghost use Rattle.command_line.specs.declared.numbers.TheConstants.{MOST_NUMBERS};

use std::alloc::{AllocError, Global};
use table_records::number;
use workers::are_rising;

/// The most numbers of a list.
pub const MOST_NUMBERS: usize = 8;

/// A law: a list may have as many numbers as there may be shares, or limits of access.
pub fn lists_are_of_shares_or_limits()
    ensures shares { MOST_NUMBERS ≡ limit.MOST_SHARES }
    ensures limits { MOST_NUMBERS ≡ limit.MOST_LIMITS }
{}

/// The numbers that a text lists: 1 to 8 numbers parted by single commas, each greater than the one before it.
///
/// A number is one or more digits of a value of at most 4,294,967,295. There is no space, and no part is empty. A text
/// that is anything else lists nothing.
pub fn numbers_of(alloc: Global, text: &[u8]) -> Result<Option<Vec<u32>>, AllocError>
    ensures listed { IfOk result (λ list. IfSome list (λ numbers. spec.Lists text.now numbers.items)) }
    ensures nothing { IfOk result (λ list. IfNone list ((numbers : List ℕ) → spec.Lists text.now numbers → ⊥)) }
    ensures value { IfOk result (λ list. option_map (λ numbers. numbers.items) list ≡ spec.numbers_of text.now) }
{
    let Some(numbers) = written(alloc, text)? else {
        return Ok(None);
    };
    if are_few_and_ascend(&numbers) {
        Ok(Some(numbers))
    } else {
        Ok(None)
    }
}

/// The numbers that the parts of a text write, if each part writes one.
fn written(alloc: Global, text: &[u8]) -> Result<Option<Vec<u32>>, AllocError>
    ensures { IfOk result (λ list. option_map (λ numbers. numbers.items) list
        ≡ spec.written_by (spec.parts_of text.now)) }
{
    let parts = parts(alloc, text)?;
    written_by(alloc, &parts)
}

/// The texts before, between and after the commas of a text.
fn parts(alloc: Global, text: &[u8]) -> Result<Vec<&[u8]>, AllocError>
    ensures { IfOk result (λ parts. map (λ part. part.now) parts.items ≡ spec.parts_of text.now) }
{
    text.split(|byte| *byte == b',').collect(alloc)
}

/// The numbers that texts write, if each writes one.
fn written_by(alloc: Global, texts: &[&[u8]]) -> Result<Option<Vec<u32>>, AllocError>
    ensures { IfOk result (λ list. option_map (λ numbers. numbers.items) list
        ≡ spec.written_by (map (λ text. text.now) texts.now)) }
{
    let mut numbers = Vec::new(alloc);
    for text in texts {
        match number(text) {
            Some(number) => numbers.push(number)?,
            None => return Ok(None),
        }
    }
    Ok(Some(numbers))
}

/// Whether there are at most as many numbers as a list may have, each greater than the one before it.
fn are_few_and_ascend(numbers: &[u32]) -> bool
    ensures { IsTrue result ↔ ((length numbers.now ≤ MOST_NUMBERS) × IsStrictlyIncreasing numbers.now) }
{
    numbers.len() <= MOST_NUMBERS && are_rising(numbers)
}
