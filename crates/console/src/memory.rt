//! What a system reports about memory: lines of a name, a number of kilobytes, and `kB`.
ghost use Rattle.std.specs.Prelude.{◌≡◌, ◌*◌, ◌%◌, IfSome, option_map};
ghost use Rattle.console.specs.Memory as spec;

use table_records::number;

/// The bytes of a kilobyte.
const KILOBYTE: u64 = 1024;

/// What is known of the memory of a machine and of a program, in bytes.
#[derive(Clone, Copy, Debug, PartialEq, Eq)]
pub struct Memory {
    /// What the machine has free for programs.
    pub free: Option<u64>,
    /// The most that this program has taken so far.
    pub peak: Option<u64>,
}

/// The bytes that the first line of a text with this name at its head states, as `MemAvailable:   16102636 kB` does:
/// whole kilobytes. `None` if no such line states them.
pub fn memory_of(text: &[u8], name: &[u8]) -> Option<u64>
    ensures figure { result ≡ spec.first_figure name.now (spec.lines_of text.now) }
    ensures whole { IfSome result (λ bytes. bytes % 1024 ≡ 0) }
{
    for line in text.split(|byte| *byte == b'\n') {
        if let Some(bytes) = figure_of(line, name) {
            return Some(bytes);
        }
    }
    None
}

/// The bytes that a line states, if the name is at its head.
fn figure_of(line: &[u8], name: &[u8]) -> Option<u64>
    ensures figure { result ≡ spec.figure_of name.now line.now }
    ensures whole { IfSome result (λ bytes. bytes % 1024 ≡ 0) }
{
    match line.strip_prefix(name) {
        Some(rest) => kilobytes(rest),
        None => None,
    }
}

/// The bytes of a number of kilobytes, as `\t  16102636 kB` writes it.
fn kilobytes(text: &[u8]) -> Option<u64>
    ensures figure { result ≡ spec.kilobytes_of text.now }
    ensures whole { IfSome result (λ bytes. bytes % 1024 ≡ 0) }
{
    match text.trim_ascii().strip_suffix(b"kB") {
        Some(digits) => bytes_of(number(digits.trim_ascii())),
        None => None,
    }
}

/// The bytes of some kilobytes.
fn bytes_of(kilobytes: Option<u32>) -> Option<u64>
    ensures bytes { result ≡ option_map (λ kilobytes. kilobytes * 1024) kilobytes }
    ensures whole { IfSome result (λ bytes. bytes % 1024 ≡ 0) }
{
    match kilobytes {
        Some(kilobytes) => Some(u64::from(kilobytes) * KILOBYTE),
        None => None,
    }
}
