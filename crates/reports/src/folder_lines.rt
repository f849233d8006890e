//! The folder of a feed that can't be read as one: whether it is there, and what stands in it.

use console::{Console, shown, tell_line};
use std::alloc::{AllocError, Global};
use std::io::{Error, ErrorKind};

/// The most names of a folder that are shown.
const MOST_NAMES: usize = 12;

/// The most names of a folder that are looked at as folders.
const MOST_LOOKS: usize = 1000;

/// The file that each feed has.
const STOPS: &str = "stops.txt";

/// Tells why a folder isn't one whose files can be read, if it isn't: nothing is there, or a file.
pub fn explain_folder<C: Console>(console: &C, alloc: Global, folder: &str) {
    if let Err(error) = console.names_in(alloc, folder) {
        tell_unread(console, alloc, folder, &error);
    }
}

/// Tells what stands in the folder of a feed in which a file is missing, or that there is no such folder.
pub(crate) fn tell_folder<C: Console>(console: &C, alloc: Global, folder: &str) {
    match console.names_in(alloc, folder) {
        Ok(names) => tell_names(console, alloc, folder, names),
        Err(error) => tell_unread(console, alloc, folder, &error),
    }
}

/// Tells why the names in a folder can't be had.
fn tell_unread<C: Console>(console: &C, alloc: Global, folder: &str, error: &Error) {
    tell_line(console, unread_line(alloc, folder, error.kind()));
}

/// Why the names in a folder can't be had.
fn unread_line(alloc: Global, folder: &str, kind: ErrorKind) -> Result<String, AllocError> {
    let folder = shown(alloc, folder.as_bytes())?;
    match kind {
        ErrorKind::NotFound => format!(in alloc; "ttm: there is no folder \"{folder}\"\n"),
        ErrorKind::NotADirectory => format!(in alloc;
            "ttm: \"{folder}\" is a file; --feed names a folder, and ttm-tools prepare makes one of a zip\n"
        ),
        _ => format!(in alloc; "ttm: folder \"{folder}\" can't be read\n"),
    }
}

/// Tells which names stand in a folder, and where the feed may be.
fn tell_names<C: Console>(console: &C, alloc: Global, folder: &str, names: Vec<String>) {
    let mut names = names;
    names.sort_unstable();
    tell_line(console, names_line(alloc, folder, names.as_slice()));
    if !has_stops(names.as_slice()) {
        tell_below(console, alloc, folder, names.as_slice());
        tell_zip(console, alloc, folder, names.as_slice());
    }
}

/// The first names that stand in a folder, in order, and how many more there are.
fn names_line(alloc: Global, folder: &str, names: &[String]) -> Result<String, AllocError> {
    let folder = shown(alloc, folder.as_bytes())?;
    if names.is_empty() {
        return format!(in alloc; "ttm: folder \"{folder}\" is empty\n");
    }
    let text = names_text(alloc, names)?;
    let more = names.len().saturating_sub(MOST_NAMES);
    if more > 0 {
        format!(in alloc; "ttm: folder \"{folder}\" has {text} and {more} more\n")
    } else {
        format!(in alloc; "ttm: folder \"{folder}\" has {text}\n")
    }
}

/// The first of some names.
fn names_text(alloc: Global, names: &[String]) -> Result<String, AllocError> {
    let mut text = String::new(alloc);
    for name in names.iter().take(MOST_NAMES) {
        if !text.is_empty() {
            text.push_str(", ")?;
        }
        let name = shown(alloc, name.as_bytes())?;
        text.push_str(&name)?;
    }
    Ok(text)
}

/// Whether `stops.txt` is among some names.
fn has_stops(names: &[String]) -> bool {
    for name in names {
        if name.as_str() == STOPS {
            return true;
        }
    }
    false
}

/// Tells the first folder below a folder that has `stops.txt`, if one has it.
fn tell_below<C: Console>(console: &C, alloc: Global, folder: &str, names: &[String]) {
    for name in names.iter().take(MOST_LOOKS) {
        if let Ok(path) = format!(in alloc; "{folder}/{name}") {
            if is_feed(console, alloc, &path) {
                tell_line(console, below_line(alloc, &path));
                return;
            }
        }
    }
}

/// Whether a path is that of a folder that has `stops.txt`.
fn is_feed<C: Console>(console: &C, alloc: Global, path: &str) -> bool {
    match console.names_in(alloc, path) {
        Ok(names) => has_stops(names.as_slice()),
        Err(_) => false,
    }
}

/// A folder that may be the feed's.
fn below_line(alloc: Global, path: &str) -> Result<String, AllocError> {
    let path = shown(alloc, path.as_bytes())?;
    format!(in alloc; "ttm: folder \"{path}\" has stops.txt; is it the feed's?\n")
}

/// Tells the first zip in a folder, if there is one.
fn tell_zip<C: Console>(console: &C, alloc: Global, folder: &str, names: &[String]) {
    for name in names {
        if name.ends_with(".zip") {
            tell_line(console, zip_line(alloc, folder, name));
            return;
        }
    }
}

/// A zip that may be the feed.
fn zip_line(alloc: Global, folder: &str, name: &str) -> Result<String, AllocError> {
    let path = format!(in alloc; "{folder}/{name}")?;
    let path = shown(alloc, path.as_bytes())?;
    format!(in alloc; "ttm: \"{path}\" is a zip; ttm-tools prepare makes a feed's folder of it\n")
}
