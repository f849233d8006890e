//! Consoles that keep what is told on them.

use crate::small_study::Asked;
use console::{Console, Memory};
use std::alloc::{AllocError, Global};
use std::io;
use std::io::ErrorKind;
use std::sync::atomic::{AtomicU64, Ordering};
use std::sync::{Mutex, Wait};

/// The folders that a page knows, with the names of what stands in each. What ends in `.zip` is a file, and `shut`
/// can't be looked into.
const FOLDERS: &[(&str, &[&str])] = &[
    ("empty", &[]),
    ("town", &["trips.txt", "Stops.txt", "maps"]),
    ("town/maps", &["town.png"]),
    (
        "home",
        &["notes", "letter.txt", "town.zip", "bus", "tram.zip"],
    ),
    ("home/notes", &[]),
    ("home/bus", &["routes.txt", "stops.txt"]),
    (
        "many",
        &[
            "m", "a", "l", "b", "k", "c", "j", "d", "i", "e", "h", "f", "g",
        ],
    ),
    (
        "dozen",
        &["l", "b", "k", "c", "j", "d", "i", "e", "h", "f", "g", "a"],
    ),
    ("feed", &["stops.txt", "old.zip"]),
];

/// A console that keeps what is told, with a clock that goes on by so much at each look.
#[derive(Drop)]
pub(crate) struct Page<'r, R> {
    rt: &'r R,
    pub(crate) text: Mutex<Vec<u8>>,
    clock: AtomicU64,
    step: u64,
    terminal: bool,
    free: u64,
}

impl<'r, R: Wait> Console for Page<'r, R> {
    fn tell(&self, text: &[u8]) {
        let mut all = self.text.lock(self.rt);
        let _ = all.extend_from_slice(text);
    }

    fn is_terminal(&self) -> bool {
        self.terminal
    }

    fn milliseconds(&self) -> Option<u64> {
        Some(self.clock.fetch_add(self.step, Ordering::SeqCst))
    }

    fn memory(&self, _alloc: Global) -> Memory {
        Memory {
            free: Some(self.free),
            peak: Some(500),
        }
    }

    fn names_in(&self, alloc: Global, folder: &str) -> io::Result<Vec<String>> {
        match names_of(folder) {
            Some(names) => Ok(copies(alloc, names)?),
            None if folder.ends_with(".zip") => Err(io::Error::from(ErrorKind::NotADirectory)),
            None if folder == "shut" => Err(io::Error::from(ErrorKind::PermissionDenied)),
            None => Err(io::Error::from(ErrorKind::NotFound)),
        }
    }
}

/// The names of what stands in a folder, if a page knows it.
fn names_of(folder: &str) -> Option<&'static [&'static str]> {
    for (name, names) in FOLDERS {
        if *name == folder {
            return Some(*names);
        }
    }
    None
}

/// Copies of names.
fn copies(alloc: Global, names: &[&str]) -> Result<Vec<String>, AllocError> {
    let mut copies = Vec::new(alloc);
    for name in names {
        copies.push(String::from_str(alloc, name)?)?;
    }
    Ok(copies)
}

/// A page on which nothing is told yet.
pub(crate) fn blank<R: Wait>(rt: &R, alloc: Global, asked: Asked) -> Page<'_, R> {
    Page {
        rt,
        text: Mutex::new(Vec::new(alloc)),
        clock: AtomicU64::new(asked.start),
        step: asked.step,
        terminal: asked.terminal,
        free: asked.free,
    }
}
