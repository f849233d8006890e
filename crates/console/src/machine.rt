//! Where a report goes, and what the machine reports about itself and its folders.

ghost use Rattle.std.specs.Prelude.{◌≡◌, ◌⊎◌, ◌≤◌, ◌/◌, ◌-◌, ◌^◌, ◌++◌, ℕ, List, IfOk, OnOk, codes, length, min};
ghost use Rattle.std.specs.Io.KnownBytes.{Consumes, IsAtEnd};
ghost use Rattle.std.specs.Duration.{as_nanos};
ghost use Rattle.console.specs.Reads.{IsRead};

use crate::memory::{Memory, memory_of};
use std::alloc::{AllocError, Global};
use std::io::{IsTerminal, Read, Write};
use std::rt::Files;
use std::time::{Clock, Duration};
use std::{fs, io};

/// The most reads of a file in which the system reports about itself.
const MOST_READS: u32 = 16;

/// Where a report goes, and what the machine reports about itself and its folders. Several workers call it at once.
pub trait Console {
    ghost use Rattle.std.specs.Prelude.{ℕ, List};

    // it printed this text
    ghost told: { Self → List ℕ → Type 0 } = { λ _ _. Unit {0} };

    /// Puts out a text, as far as it is taken.
    fn tell(&self, text: &[u8])
        ensures told { told self.now text.now };

    /// Whether somebody reads along, on a terminal.
    fn is_terminal(&self) -> bool;

    /// The milliseconds of a clock that never goes back, if there is one.
    fn milliseconds(&self) -> Option<u64>;

    /// What is known of the memory of the machine and of this program.
    fn memory(&self, alloc: Global) -> Memory;

    /// The names in a folder, in no order. Names that aren't UTF-8 are left out.
    fn names_in(&self, alloc: Global, folder: &str) -> io::Result<Vec<String>>;
}

impl Console for HostRuntime {
    fn tell(&self, text: &[u8]) {
        let _ = self.stderr().write_all(text);
    }

    fn is_terminal(&self) -> bool {
        self.stderr().is_terminal()
    }

    fn milliseconds(&self) -> Option<u64> {
        match self.monotonic() {
            Ok(time) => Some(milliseconds_of(&time)),
            Err(_) => None,
        }
    }

    fn memory(&self, alloc: Global) -> Memory {
        Memory {
            free: told_in(alloc, self, "/proc/meminfo", free_name()),
            peak: told_in(alloc, self, "/proc/self/status", peak_name()),
        }
    }

    fn names_in(&self, alloc: Global, folder: &str) -> io::Result<Vec<String>> {
        let mut names = Vec::new(alloc);
        for entry in fs::read_dir(self, folder)? {
            if let Ok(entry) = entry {
                add_name(alloc, &mut names, entry.file_name())?;
            }
        }
        Ok(names)
    }
}

/// The whole milliseconds of a time.
fn milliseconds_of(time: &Duration) -> u64
    ensures { result ≡ min (as_nanos time.now / 1_000_000) (2 ^ 64 - 1) }
{
    time.as_millis().min(u128::from(u64::MAX)) as u64
}

/// The name of the memory that programs can still have, as the system's table of memory names it.
fn free_name() -> &'static [u8]
    ensures { result.now ≡ codes "MemAvailable:" }
{
    b"MemAvailable:"
}

/// The name of the most memory that a program has taken, as the system's table of the program names it.
fn peak_name() -> &'static [u8]
    ensures { result.now ≡ codes "VmHWM:" }
{
    b"VmHWM:"
}

/// Adds a name to others.
fn add_name(alloc: Global, names: &mut Vec<String>, name: &str) -> Result<(), AllocError> {
    names.push(String::from_str(alloc, name)?)?;
    Ok(())
}

/// The bytes that a file of the system states under a name.
fn told_in(alloc: Global, files: &impl Files, path: &str, name: &[u8]) -> Option<u64> {
    let mut file = fs::open(files, path).ok()?;
    let text = first_bytes(alloc, &mut file).ok()?;
    memory_of(&text, name)
}

/// Reads a file to its end, or [`MOST_READS`] times at most.
fn first_bytes<R: Read>(alloc: Global, r: &mut R) -> io::Result<Vec<u8>>
    ensures bytes { IfOk result (λ bytes. Consumes (R.remaining r.old) (R.remaining r.new) bytes.items) }
    ensures end { IfOk result (λ bytes. IsAtEnd (R.remaining r.new) ⊎ (MOST_READS ≤ length bytes.items)) }
{
    let mut bytes = Vec::new(alloc);
    for _ in 0..MOST_READS {
        if !read_more(r, &mut bytes)? {
            return Ok(bytes);
        }
    }
    Ok(bytes)
}

/// Appends the bytes of one read, and returns whether there were any.
fn read_more<R: Read>(r: &mut R, bytes: &mut Vec<u8>) -> io::Result<bool>
    ensures { IfOk result (λ more. (read : List ℕ) × (bytes.new.items ≡ bytes.old.items ++ read)
        × IsRead (R.remaining r.old) (R.remaining r.new) read more) }
{
    let mut chunk = [0u8; 4096];
    let taken = r.read(&mut chunk)?;
    bytes.extend_from_slice(&chunk[..taken])?;
    Ok(taken > 0)
}
