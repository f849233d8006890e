//! The files of a study, held in memory.
ghost use Rattle.std.specs.Prelude.{◌≡◌, None, []};
ghost use Rattle.studies.specs.FeedFiles.{no_files};
ghost use Rattle.studies.specs.Inputs.{inputs_of};
ghost use Rattle.program.specs.Files.{AreFreed, files_of};

use std::alloc::Global;
use studies::{FeedFiles, Inputs, NamedFile, bytes_of};

/// All files of a study, each read whole.
#[derive(Drop)]
pub struct StudyFiles {
    /// The feed's own files; `None` where there is no such file.
    pub feed: FeedFiles,
    /// Each of the analyst's own files; `None` where its option isn't given.
    pub footpaths: Option<Vec<u8>>,
    pub origins: Option<Vec<u8>>,
    pub opportunities: Option<Vec<u8>>,
    pub destinations: Option<Vec<u8>>,
    /// The scenario files, in their order.
    pub scenarios: Vec<NamedFile>,
}

impl StudyFiles {
    /// No file is there.
    pub fn none(alloc: Global) -> StudyFiles
        ensures { files_of result ≡ record {
          feed = no_files;
          footpaths = None;
          origins = None;
          opportunities = None;
          destinations = None;
          scenarios = [];
        } }
    {
        StudyFiles {
            feed: FeedFiles::none(),
            footpaths: None,
            origins: None,
            opportunities: None,
            destinations: None,
            scenarios: Vec::new(alloc),
        }
    }

    /// What goes into the study.
    pub fn inputs(&self) -> Inputs<'_>
        ensures { inputs_of result ≡ files_of self.now }
    {
        Inputs {
            feed: self.feed.bytes(),
            footpaths: bytes_of(&self.footpaths),
            origins: bytes_of(&self.origins),
            opportunities: bytes_of(&self.opportunities),
            destinations: bytes_of(&self.destinations),
            scenarios: self.scenarios.as_slice(),
        }
    }

    /// Frees the bytes of all files but the scenarios', as if there were no such files.
    pub fn free(&mut self)
        ensures files { files_of self.new ≡ record {
          feed = no_files;
          footpaths = None;
          origins = None;
          opportunities = None;
          destinations = None;
          scenarios = self.old.scenarios.items;
        } }
        ensures freed { AreFreed self.new }
    {
        self.feed = FeedFiles::none();
        self.footpaths = None;
        self.origins = None;
        self.opportunities = None;
        self.destinations = None;
    }
}
