//! How many rows are done, and when it is time to tell so.

use crate::measures::{percent, time_left, time_text};
use console::{Console, tell_line};
use std::alloc::{AllocError, Global};
use std::sync::atomic::{AtomicU64, Ordering};

/// The least milliseconds between two lines on a terminal.
const TERMINAL_PAUSE: u64 = 200;

/// The least milliseconds between two lines elsewhere.
const PAUSE: u64 = 60_000;

/// How far the rows of a study are. Several workers count at once; what another has counted is no fact of any proof.
#[derive(Drop)]
pub(crate) struct Progress {
    /// How many rows there are.
    rows: AtomicU64,
    /// How many are kept.
    done: AtomicU64,
    /// When the rows began, in milliseconds.
    began: AtomicU64,
    /// When a line was told last, in milliseconds.
    told: AtomicU64,
    /// How long the line is that stands on the terminal, in bytes.
    width: AtomicU64,
}

impl Progress {
    /// No rows yet.
    pub(crate) fn new() -> Progress {
        Progress {
            rows: AtomicU64::new(0),
            done: AtomicU64::new(0),
            began: AtomicU64::new(0),
            told: AtomicU64::new(0),
            width: AtomicU64::new(0),
        }
    }

    /// How many rows there are.
    pub(crate) fn rows(&self) -> u64 {
        self.rows.load(Ordering::SeqCst)
    }

    /// How many rows are kept.
    pub(crate) fn done(&self) -> u64 {
        self.done.load(Ordering::SeqCst)
    }

    /// So many rows begin now.
    pub(crate) fn begin(&self, rows: u64, now: Option<u64>) {
        self.rows.store(rows, Ordering::SeqCst);
        if let Some(now) = now {
            self.began.store(now, Ordering::SeqCst);
            self.told.store(now, Ordering::SeqCst);
        }
    }

    /// Counts a row that is kept, and tells how far the rows are if the last line is long enough ago.
    pub(crate) fn kept<C: Console>(&self, console: &C, alloc: Global) {
        let done = self.done.fetch_add(1, Ordering::SeqCst).saturating_add(1);
        if let Some(now) = console.milliseconds() {
            if console.is_terminal() {
                if self.is_time(now, TERMINAL_PAUSE) {
                    self.move_line(console, alloc, done, now);
                }
            } else if self.is_time(now, PAUSE) {
                tell_line(console, whole_line(alloc, self.line(alloc, done, now)));
            }
        }
    }

    /// Whether a line may be told now. Of several that ask at once one is let through.
    fn is_time(&self, now: u64, pause: u64) -> bool {
        let told = self.told.load(Ordering::SeqCst);
        now.saturating_sub(told) >= pause
            && self
                .told
                .compare_exchange(told, now, Ordering::SeqCst, Ordering::SeqCst)
                .is_ok()
    }

    /// How far the rows are.
    fn line(&self, alloc: Global, done: u64, now: u64) -> Result<String, AllocError> {
        let elapsed = now.saturating_sub(self.began.load(Ordering::SeqCst));
        progress_text(alloc, done, self.rows(), elapsed)
    }

    /// Puts the line in place of the one that stands on the terminal.
    fn move_line<C: Console>(&self, console: &C, alloc: Global, done: u64, now: u64) {
        if let Ok(line) = self.line(alloc, done, now) {
            let before = self.width.swap(line.len() as u64, Ordering::SeqCst);
            tell_line(console, moving_line(line, before));
        }
    }

    /// The workers have ended: the line on the terminal stays.
    pub(crate) fn end<C: Console>(&self, console: &C) {
        if self.width.swap(0, Ordering::SeqCst) > 0 {
            console.tell(b"\n");
        }
    }
}

/// How far some rows are, after so many milliseconds.
fn progress_text(alloc: Global, done: u64, rows: u64, elapsed: u64) -> Result<String, AllocError> {
    let share = percent(done, rows);
    match time_left(elapsed, done, rows) {
        Some(left) => timed_text(alloc, done, rows, share, left),
        None => format!(in alloc; "ttm: rows done: {done} of {rows}, {share} percent"),
    }
}

/// How far some rows are, and how long the rest takes.
fn timed_text(
    alloc: Global,
    done: u64,
    rows: u64,
    share: u64,
    left: u64,
) -> Result<String, AllocError> {
    let time = time_text(alloc, left)?;
    format!(in alloc; "ttm: rows done: {done} of {rows}, {share} percent, about {time} left")
}

/// A line with its end.
fn whole_line(alloc: Global, line: Result<String, AllocError>) -> Result<String, AllocError> {
    let line = line?;
    format!(in alloc; "{line}\n")
}

/// A line that covers one of so many bytes, after which the next one begins at its start.
fn moving_line(line: String, before: u64) -> Result<String, AllocError> {
    let mut line = line;
    for _ in line.len() as u64..before {
        line.push(' ')?;
    }
    line.push('\r')?;
    Ok(line)
}
