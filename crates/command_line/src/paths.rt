//! The paths of a feed's files, and the names of scenarios.

ghost use Rattle.std.specs.Prelude.{◌≡◌, IfOk, string_bytes};
ghost use Rattle.command_line.specs.Paths as spec;

use std::alloc::{AllocError, Global};

/// The path of a file of the feed: the folder, a slash, and the file's name.
pub fn path_in(alloc: Global, folder: &str, name: &str) -> Result<String, AllocError>
    ensures { IfOk result (λ path. string_bytes path ≡ spec.path_in folder.now name.now) }
{
    let mut path = String::from_str(alloc, folder)?;
    path.push_str("/")?;
    path.push_str(name)?;
    Ok(path)
}

/// The name of the scenario of a path: the path after its last slash, without a final `.csv`.
pub fn scenario_of(path: &[u8]) -> &[u8]
    ensures { result.now ≡ spec.scenario_of path.now }
{
    without_csv(after_slash(path))
}

/// A path after its last slash.
fn after_slash(path: &[u8]) -> &[u8]
    ensures { result.now ≡ spec.after_slash path.now }
{
    let mut name = path;
    let mut rest = path;
    while let [byte, more @ ..] = rest {
        rest = more;
        if *byte == b'/' {
            name = more;
        }
    }
    name
}

/// A text without a final `.csv`.
fn without_csv(text: &[u8]) -> &[u8]
    ensures { result.now ≡ spec.without_csv text.now }
{
    match text.strip_suffix(b".csv") {
        Some(name) => name,
        None => text,
    }
}
