//! The numbers of fields, most of which have a digit or two.

ghost use Rattle.std.specs.Prelude.{◌≡◌, ◌<◌, ◌-◌, Some, true, IfSome};
ghost use Rattle.table_records.specs.Fields.{is_digit, number_of, trimmed};

use table_records::{number, trim};

/// The number that a field writes. Spaces around it don't count.
pub fn read_number(text: &[u8]) -> Option<u32>
    ensures { result ≡ number_of (trimmed text.now) }
{
    match short_number(text) {
        Some(value) => Some(value),
        None => any_number(text),
    }
}

/// The number of a digit or two, without a space; none of another text.
fn short_number(text: &[u8]) -> Option<u32>
    ensures { IfSome result (λ value. number_of (trimmed text.now) ≡ Some value) }
{
    match text {
        [ones] => digit(*ones),
        [tens, ones] => Some(digit(*tens)? * 10 + digit(*ones)?),
        _ => None,
    }
}

/// The number of any text.
#[inline(never)]
fn any_number(text: &[u8]) -> Option<u32>
    ensures { result ≡ number_of (trimmed text.now) }
{
    number(trim(text))
}

/// The value of a digit.
fn digit(byte: u8) -> Option<u32>
    ensures { IfSome result (λ n. (is_digit byte ≡ true) × (n ≡ byte - 48) × (n < 10)) }
{
    if !byte.is_ascii_digit() {
        return None;
    }
    Some((byte - b'0') as u32)
}
