//! The departure window that two texts of the command line name.

ghost use Rattle.std.specs.Prelude.{◌≡◌, ◌<◌, ◌≤◌, ◌+◌, IfSome};
ghost use Rattle.command_line.specs.Window.{below_of, minute_of, minutes_between, window_between};

/// The hours of a day.
const HOURS: u32 = 24;

/// The minutes of an hour.
const MINUTES: u32 = 60;

/// The window from one minute of the day to another: its first minute and how many minutes it has, both ends included.
///
/// Each text is two digits, a colon and two digits, `00:00` to `23:59`, with no space around it. There is no window
/// where a text is none of these, or where `to` is before `from`.
pub fn window_of(from: &[u8], to: &[u8]) -> Option<(u32, u32)>
    ensures window { result ≡ window_between from.now to.now }
    ensures within { IfSome result (λ window. (1 ≤ window.1) × (window.0 + window.1 ≤ 1440)) }
{
    let first = minute(from)?;
    let last = minute(to)?;
    window_from(first, last)
}

/// The same of two minutes of the day.
pub(crate) fn window_from(first: u32, last: u32) -> Option<(u32, u32)>
    requires first { first < 1440 }
    requires last { last < 1440 }
    ensures window { result ≡ minutes_between first last }
    ensures within { IfSome result (λ window. (1 ≤ window.1) × (window.0 + window.1 ≤ 1440)) }
{
    if last < first {
        return None;
    }
    Some((first, last - first + 1))
}

/// The minute of the day that a text writes.
pub(crate) fn minute(text: &[u8]) -> Option<u32>
    ensures value { result ≡ minute_of text.now }
    ensures small { IfSome result (λ minute. minute < 1440) }
{
    if text.len() != 5 || text[2] != b':' {
        return None;
    }
    let hours = below(HOURS, text[0], text[1])?;
    let minutes = below(MINUTES, text[3], text[4])?;
    Some(60 * hours + minutes)
}

/// The number below a limit that two digits write.
fn below(limit: u32, tens: u8, ones: u8) -> Option<u32>
    ensures value { result ≡ below_of limit tens ones }
    ensures small { IfSome result (λ n. n < limit) }
{
    if !tens.is_ascii_digit() || !ones.is_ascii_digit() {
        return None;
    }
    let number = 10 * (tens - b'0') as u32 + (ones - b'0') as u32;
    if number < limit { Some(number) } else { None }
}
