//! Files read whole.

ghost use Rattle.std.specs.Prelude.{◌≡◌, ◌≤◌, length, IfOk, IfErr, IfSome};
ghost use Rattle.command_line.specs.Files.{Tells, words_of};

use gtfs_tables::MOST_BYTES;
use std::alloc::Global;
use std::io::Read;
use thiserror::Error;

/// Why a file isn't read.
#[derive(Clone, Copy, Debug, PartialEq, Eq, Error)]
#[error("{}", self.words())]
pub enum ReadFault {
    /// It can't be opened, or a read of it failed.
    Read,
    /// It has more than 1,073,741,824 bytes.
    TooLong,
    /// Out of memory.
    Memory,
}

impl ReadFault {
    /// What is wrong, in words.
    pub fn words(&self) -> &'static str
        ensures { result.now ≡ words_of self.now }
    {
        match self {
            ReadFault::Read => "read fault",
            ReadFault::TooLong => "too long",
            ReadFault::Memory => "out of memory",
        }
    }
}

/// All the bytes that a reader has left, at most 1,073,741,824.
pub fn read_all<R: Read>(alloc: Global, r: &mut R) -> Result<Vec<u8>, ReadFault>
    ensures bytes { IfOk result (λ bytes. IfSome (R.remaining r.old) (λ all. bytes.items ≡ all)) }
    ensures limit { IfOk result (λ bytes. length bytes.items ≤ MOST_BYTES) }
    ensures fault { IfErr result (λ fault. Tells fault (R.remaining r.old)) }
{
    let mut bytes = Vec::new(alloc);
    let mut chunk = [0u8; 8192];
    while bytes.len() <= MOST_BYTES {
        match r.read(&mut chunk) {
            Ok(0) => return Ok(bytes),
            Ok(n) => {
                if bytes.extend_from_slice(&chunk[..n]).is_err() {
                    return Err(ReadFault::Memory);
                }
            }
            Err(_) => return Err(ReadFault::Read),
        }
    }
    Err(ReadFault::TooLong)
}
