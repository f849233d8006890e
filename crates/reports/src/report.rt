//! The report of a study.
ghost use Rattle.std.specs.Prelude.{◌≡◌};

use crate::day_lines::{tell_days, tell_scenarios, tell_walks};
use crate::explain::{explanation, is_missing};
use crate::folder_lines::tell_folder;
use crate::measures::time_text;
use crate::progress::Progress;
use crate::row_lines::{row_count, tell_rows};
use crate::table_lines::{route_count, tell_ends, tell_feed};
use collector::Matrix;
use console::{Console, tell_count, tell_line};
use footpaths::Direct;
use gtfs_tables::Feed;
use scenarios::Scenario;
use service_days::Run;
use std::alloc::{AllocError, Global};
use studies::{Inputs, Settings, StudyFault, Watch};
use timetable::{Feet, StopNo};
use work_book::{Lease, Settled};
use workers::{Gate, RunFault, Study, Verdict};

/// Tells on a console what a study is made of and how far it is. A study takes it as its watch and as its gate.
#[derive(Drop)]
pub struct Report<'a, C> {
    console: &'a C,
    alloc: Global,
    /// How many routes there are, if `routes.txt` is there.
    routes: Option<u64>,
    /// When the report began, in milliseconds.
    began: Option<u64>,
    progress: Progress,
}

impl<'a, C: Console> Report<'a, C> {
    /// The report of the study of some files. Nothing is told yet, and nothing of the files is held.
    pub fn new(alloc: Global, console: &'a C, inputs: &Inputs<'_>) -> Report<'a, C> {
        let began = console.milliseconds();
        Report {
            console,
            alloc,
            routes: route_count(alloc, inputs.feed.routes),
            began,
            progress: Progress::new(),
        }
    }

    /// Tells how long it took since the report began, how many rows are done, and the most memory that was taken.
    pub fn ended(&self) {
        tell_line(self.console, self.rows_line());
        self.tell_time();
        if let Some(peak) = self.console.memory(self.alloc).peak {
            tell_count(self.console, self.alloc, "bytes taken at most", peak);
        }
    }

    /// Tells what the line of a fault of these files can't say, if there is more to say: the column, its value as it
    /// stands in the record, and what is allowed; or what can be done; or, of a file of the feed that is missing, what
    /// stands in the feed's folder.
    pub fn refused(&self, fault: &StudyFault, inputs: &Inputs<'_>, folder: &str) {
        if is_missing(fault) {
            tell_folder(self.console, self.alloc, folder);
        } else if let Some(line) = explanation(self.alloc, fault, inputs) {
            self.console.tell(line.as_bytes());
        }
    }

    // How many rows are done.
    fn rows_line(&self) -> Result<String, AllocError> {
        let done = self.progress.done();
        let rows = self.progress.rows();
        format!(in self.alloc; "ttm: rows done: {done} of {rows}\n")
    }

    // Tells how long it took.
    fn tell_time(&self) {
        if let (Some(began), Some(now)) = (self.began, self.console.milliseconds()) {
            tell_line(self.console, self.time_line(now.saturating_sub(began)));
        }
    }

    // How long it took.
    fn time_line(&self, milliseconds: u64) -> Result<String, AllocError> {
        let time = time_text(self.alloc, milliseconds)?;
        format!(in self.alloc; "ttm: time: {time}\n")
    }
}

impl<'a, C: Console> Watch for Report<'a, C> {
    fn tables_read(
        &self,
        feed: &Feed,
        direct: &Direct,
        origins: &[StopNo],
        destinations: &[StopNo],
    ) {
        tell_feed(self.console, self.alloc, feed, self.routes, direct);
        tell_ends(self.console, self.alloc, origins, destinations);
    }

    fn days_listed(
        &self,
        feed: &Feed,
        settings: &Settings,
        scenarios: &[Scenario],
        runs: &[Run],
        feet: &Feet,
    ) {
        tell_walks(self.console, self.alloc, feet);
        tell_days(self.console, self.alloc, feed, settings);
        tell_scenarios(self.console, self.alloc, feed, scenarios, runs);
    }

    fn rows_begin(&self, study: &Study<'_>) {
        tell_rows(self.console, self.alloc, study);
        self.progress
            .begin(row_count(study), self.console.milliseconds());
    }

    fn rows_end(&self, _made: &Result<Matrix, RunFault>) {
        self.progress.end(self.console);
    }
}

impl<'a, C: Console> Gate for Report<'a, C> {
    fn before(&self, _lease: &Lease) -> Verdict
        ensures { result ≡ Verdict.Work }
    {
        Verdict::Work
    }

    fn after(&self, _lease: &Lease, settled: Settled) {
        if settled == Settled::Kept {
            self.progress.kept(self.console, self.alloc);
        }
    }
}
