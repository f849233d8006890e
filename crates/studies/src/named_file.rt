//! Scenario files.

use std::marker::Model;

/// A scenario file. Contracts see its name and its bytes as lists.
#[derive(Drop)]
pub struct NamedFile {
    /// The name of its scenario, in bytes.
    pub name: Vec<u8>,
    /// The bytes of the file.
    pub bytes: Vec<u8>,
}

impl Model for NamedFile {
    ghost use Rattle.studies.specs.NamedFile.{NamedBytes};

    ghost Value = { NamedBytes };

    ghost view = { λ f. record { name = f.name.items; bytes = f.bytes.items } };
}
