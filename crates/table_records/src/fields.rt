//! The values of fields: numbers, times and dates, and the spaces around them.

ghost use Rattle.std.specs.Prelude.{◌≡◌, ◌<◌, Some, IfSome, option_map};
ghost use Rattle.jiff.specs.Words.{epoch_day};
ghost use Rattle.table_records.specs.Fields.{sixty, time_of, day_of, trimmed, trim_start, trim_end, number_of};

use jiff::civil::Date;

/// The most that the hours of a time may be: a service day and the six after it.
const MAX_HOURS: u32 = 167;

/// A text without the spaces around it. Only the byte 0x20 is a space; a tab stays.
pub fn trim(text: &[u8]) -> &[u8]
    ensures { result.now ≡ trimmed text.now }
{
    trim_back(trim_front(text))
}

/// A text without the spaces at its start.
fn trim_front(text: &[u8]) -> &[u8]
    ensures { result.now ≡ trim_start text.now }
{
    let mut rest = text;
    while let [b' ', more @ ..] = rest {
        rest = more;
    }
    rest
}

/// A text without the spaces at its end.
fn trim_back(text: &[u8]) -> &[u8]
    ensures { result.now ≡ trim_end text.now }
{
    let mut end = text.len();
    while end > 0 && text[end - 1] == b' ' {
        end -= 1;
    }
    &text[..end]
}

/// The number that one or more digits write, at most 4,294,967,295.
///
/// Leading zeros are allowed, any count of them; a sign and spaces are not.
pub fn number(digits: &[u8]) -> Option<u32>
    ensures { result ≡ number_of digits.now }
{
    if digits.is_empty() {
        return None;
    }
    let mut value: u32 = 0;
    for digit in digits {
        if !digit.is_ascii_digit() {
            return None;
        }
        let more = value as u64 * 10 + (*digit - b'0') as u64;
        if more > u32::MAX as u64 {
            return None;
        }
        value = more as u32;
    }
    Some(value)
}

/// The seconds of a time, as `8:05:00` or `25:10:30`, counted from the midnight at which the service day begins.
///
/// One to three digits of hours, 0 to 167, and two each of minutes and seconds, 00 to 59.
/// Spaces around the time don't count.
#[inline(never)]
pub fn read_time(text: &[u8]) -> Option<u32>
    ensures { result ≡ time_of (trimmed text.now) }
{
    match plain_time(text) {
        Some(seconds) => Some(seconds),
        None => any_time(text),
    }
}

/// The seconds of a time in the form that nearly all have: two digits of hours, up to 59, and no space. `None` for any
/// other text.
fn plain_time(text: &[u8]) -> Option<u32>
    ensures { IfSome result (λ seconds. time_of (trimmed text.now) ≡ Some seconds) }
{
    if text.len() != 8 {
        return None;
    }
    if text[2] != b':' || text[5] != b':' {
        return None;
    }
    let hours = two_digits(text[0], text[1])?;
    let minutes = two_digits(text[3], text[4])?;
    let seconds = two_digits(text[6], text[7])?;
    Some(3600 * hours + 60 * minutes + seconds)
}

/// The seconds of a time in any form.
#[inline(never)]
fn any_time(text: &[u8]) -> Option<u32>
    ensures { result ≡ time_of (trimmed text.now) }
{
    let text = trim(text);
    if text.len() < 7 || text.len() > 9 {
        return None;
    }
    let n = text.len() - 6;
    if text[n] != b':' || text[n + 3] != b':' {
        return None;
    }
    let hours = number(&text[..n])?;
    if hours > MAX_HOURS {
        return None;
    }
    let minutes = two_digits(text[n + 1], text[n + 2])?;
    let seconds = two_digits(text[n + 4], text[n + 5])?;
    Some(hours * 3600 + minutes * 60 + seconds)
}

/// Minutes or seconds, of their two digits.
fn two_digits(tens: u8, ones: u8) -> Option<u32>
    ensures value { result ≡ sixty tens ones }
    ensures small { IfSome result (λ n. n < 60) }
{
    if tens < b'0' || tens > b'5' || !ones.is_ascii_digit() {
        return None;
    }
    Some((tens - b'0') as u32 * 10 + (ones - b'0') as u32)
}

/// The day that eight digits name, `YYYYMMDD`, years 0000 to 9999 of the Gregorian calendar.
///
/// Spaces around the date don't count.
pub fn read_date(text: &[u8]) -> Option<Date>
    ensures { option_map epoch_day result ≡ day_of (trimmed text.now) }
{
    let text = trim(text);
    if text.len() != 8 {
        return None;
    }
    let digits = number(text)?;
    let year = digits / 10_000;
    let month = digits / 100 % 100;
    let day = digits % 100;
    Date::new(year as i16, month as i8, day as i8).ok()
}
