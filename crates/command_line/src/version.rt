//! What `--version` tells after the program's name.

/// The version of the program.
pub const VERSION: &str = "2.1.0";
