//! Lines: each begins with the program's name and ends with a line end.

ghost use Rattle.std.specs.Prelude.{◌≡◌, ◌<◌, IfErr, IfOk, false, string_bytes, true};
ghost use Rattle.console.specs.Lines as spec;

use crate::machine::Console;
use std::alloc::{AllocError, Global};

/// The most bytes of a name or a value that are shown.
pub(crate) const MOST_SHOWN: usize = 60;

/// The most bytes of a shown name are as stated.
pub fn shown_limit_is_as_stated()
    ensures { MOST_SHOWN ≡ 60 }
{}

/// Prints a line, and returns whether there was memory for it.
pub fn tell_line<C: Console>(console: &C, line: Result<String, AllocError>) -> bool
    ensures printed { IfOk line (λ text. (result ≡ true) × C.told console.now (string_bytes text)) }
    ensures none { IfErr line (λ _. result ≡ false) }
{
    let Ok(line) = line else {
        return false;
    };
    console.tell(line.as_bytes());
    true
}

/// Prints a number under its name, and returns whether there was memory for the line.
pub fn tell_count<C: Console>(console: &C, alloc: Global, name: &str, count: u64) -> bool
    ensures { result ≡ true → C.told console.now (spec.count_line name.now count) }
{
    let Ok(line) = format!(in alloc; "ttm: {name}: {count}\n") else {
        return false;
    };
    console.tell(line.as_bytes());
    true
}

/// Prints a number under its name and that of what it counts, and returns whether there was memory for the line.
pub fn tell_count_of<C: Console>(
    console: &C,
    alloc: Global,
    name: &str,
    of: &str,
    count: u64,
) -> bool
    ensures { result ≡ true → C.told console.now (spec.count_of_line name.now of.now count) }
{
    let Ok(line) = format!(in alloc; "ttm: {name} {of}: {count}\n") else {
        return false;
    };
    console.tell(line.as_bytes());
    true
}

/// Prints a warning, and returns whether there was memory for the line.
pub fn warn<C: Console>(console: &C, alloc: Global, warning: &str) -> bool
    ensures { result ≡ true → C.told console.now (spec.warning_line warning.now) }
{
    let Ok(line) = format!(in alloc; "ttm: warning: {warning}\n") else {
        return false;
    };
    console.tell(line.as_bytes());
    true
}

/// A name or a value as it is shown: its first bytes, `?` for those that are no printed sign of ASCII, and two dots
/// where there are more.
pub fn shown(alloc: Global, bytes: &[u8]) -> Result<String, AllocError>
    ensures { IfOk result (λ text. string_bytes text ≡ spec.shown_of bytes.now) }
{
    let mut text = String::new(alloc);
    for byte in &bytes[..bytes.len().min(MOST_SHOWN)] {
        text.push(shown_byte(*byte))?;
    }
    if bytes.len() > MOST_SHOWN {
        text.push_str("..")?;
    }
    Ok(text)
}

/// A byte as it is shown.
fn shown_byte(byte: u8) -> char
    ensures shown { result ≡ spec.shown_byte byte }
    ensures ascii { result < 128 }
{
    if byte.is_ascii_graphic() || byte == b' ' {
        char::from(byte)
    } else {
        '?'
    }
}
