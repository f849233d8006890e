//! The disk, as far as a study's files are read from it.
ghost use Rattle.std.specs.Prelude.{◌≡◌, ℕ, List, Option, Result, Ok, Err, IfErr, IfOk, option_map, ⊤};
ghost use Rattle.std.specs.declared.io.Error.{Error};
ghost use Rattle.command_line.specs.declared.files.ReadFault.{ReadFault};
ghost use Rattle.gtfs_tables.specs.Files.{IsWithinLimit};
ghost use Rattle.program.specs.Disk as spec;

use command_line::{ReadFault, read_all};
use std::alloc::Global;
use std::io::{ErrorKind, Read};
use std::rt::Files;
use std::{fs, io};

/// Opens files by their paths.
///
/// Contracts name what an opening of a path may give, so a file that was opened at another path is no file of this one.
/// What a disk has at a path no contract knows.
pub trait Opener {
    /// An open file.
    type File: Read + Drop;

    /// An opening of this path may give this.
    ghost opens: { Self → List ℕ → Result Self.File Error → Type 0 };

    /// Opens the file at a path for reading.
    fn open(&self, path: &str) -> io::Result<Self::File>
        ensures { opens self.now path.now result };
}

/// The files of the system. Of what the system opens nothing is known.
impl<F: Files> Opener for F {
    type File = F::File;

    ghost opens = { λ _ _ _. ⊤ };

    fn open(&self, path: &str) -> io::Result<F::File> {
        fs::open(self, path)
    }
}

/// Where the files of a study are found, by their paths.
///
/// Contracts name what a read of a path may find, so that they can tell which file goes where, and which error was met
/// where.
pub trait Disk {
    /// A read of this path may find this: the bytes of a file, that there is none, or why it isn't read.
    ghost finds: { Self → List ℕ → Result (Option (List ℕ)) ReadFault → Type 0 };

    /// All bytes of a file, at most `gtfs_tables::MOST_BYTES`, if it is found.
    fn find(&self, alloc: Global, path: &str) -> Result<Option<Vec<u8>>, ReadFault>
        ensures found { IfOk result (λ file. finds self.now path.now (Ok (option_map (λ bytes. bytes.items) file))) }
        ensures unread { IfErr result (λ fault. finds self.now path.now (Err fault)) }
        ensures limit { IfOk result (λ file. IsWithinLimit (option_map (λ bytes. bytes.items) file)) };
}

/// What opens files is a disk: a read of a path finds what an opening of that very path gave.
impl<D: Opener> Disk for D {
    ghost finds = { λ disk path found. (opened : Result D.File Error) × D.opens disk path opened
        × spec.IsFoundOf D.File.remaining opened found };

    fn find(&self, alloc: Global, path: &str) -> Result<Option<Vec<u8>>, ReadFault> {
        read_opened(alloc, self.open(path))
    }
}

/// All bytes of what was opened at a path, at most `gtfs_tables::MOST_BYTES`, if there is a file. It is closed again.
pub(crate) fn read_opened<F: Read + Drop>(
    alloc: Global,
    opened: io::Result<F>,
) -> Result<Option<Vec<u8>>, ReadFault>
    ensures found { IfOk result (λ file. spec.IsFoundOf F.remaining opened
        (Ok (option_map (λ bytes. bytes.items) file))) }
    ensures unread { IfErr result (λ fault. spec.IsFoundOf F.remaining opened (Err fault)) }
    ensures limit { IfOk result (λ file. IsWithinLimit (option_map (λ bytes. bytes.items) file)) }
{
    match opened {
        Ok(mut file) => match read_all(alloc, &mut file) {
            Ok(bytes) => Ok(Some(bytes)),
            Err(fault) => Err(fault),
        },
        Err(error) => unopened(error.kind()),
    }
}

/// What is found at a path that can't be opened. Only one at which there is nothing counts as having no file.
fn unopened(kind: ErrorKind) -> Result<Option<Vec<u8>>, ReadFault>
    ensures found { IfOk result (λ file. Ok (option_map (λ bytes. bytes.items) file) ≡ spec.found_unopened kind) }
    ensures unread { IfErr result (λ fault. Err fault ≡ spec.found_unopened kind) }
    ensures none { IfOk result (λ file. file ≡ None) }
{
    match kind {
        ErrorKind::NotFound => Ok(None),
        ErrorKind::OutOfMemory => Err(ReadFault::Memory),
        _ => Err(ReadFault::Read),
    }
}
