//! The analyst's own files, held in memory.

use std::{fs, io};

/// A scenario file: the path that names its scenario, and its bytes.
#[derive(Drop)]
pub(crate) struct ScenarioFile {
    pub path: Vec<u8>,
    pub bytes: Vec<u8>,
}

/// The bytes of an analyst's own files: none where there is no file of footpaths, or of origins.
#[derive(Clone, Copy)]
pub(crate) struct OwnFiles<'a> {
    pub footpaths: Option<&'a [u8]>,
    pub origins: Option<&'a [u8]>,
    pub scenarios: &'a [ScenarioFile],
}

/// The bytes of a file, none where the argument for its path is `-`.
pub(crate) fn read_own(rt: &HostRuntime, path: &str) -> io::Result<Option<Vec<u8>>> {
    if path == "-" {
        return Ok(None);
    }
    Ok(Some(fs::read(rt, path)?))
}

/// The scenario files of these paths.
pub(crate) fn read_all(rt: &HostRuntime, paths: &[String]) -> io::Result<Vec<ScenarioFile>> {
    let mut files = Vec::new(rt.alloc());
    for path in paths {
        files.push(read_scenario_file(rt, path.as_str())?)?;
    }
    Ok(files)
}

fn read_scenario_file(rt: &HostRuntime, path: &str) -> io::Result<ScenarioFile> {
    let bytes = fs::read(rt, path)?;
    let path = Vec::from_slice(rt.alloc(), path.as_bytes())?;
    Ok(ScenarioFile { path, bytes })
}
