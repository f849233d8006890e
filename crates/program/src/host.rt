//! What the program runs on.

use crate::disk::Disk;
use crate::words::Arguments;
use console::Console;
use std::sync::Wait;
use std::thread::Threads;

/// What the program runs on: its words, its disk, its console, its memory and its threads.
pub trait Host: Arguments + Disk + Console + AllocGlobal + Threads + Wait + Sync {}

impl<H: Arguments + Disk + Console + AllocGlobal + Threads + Wait + Sync> Host for H {}
