//! The names of scenarios.
ghost use Rattle.std.specs.Prelude.{◌≡◌, ◌<◌, [], IfErr, IfOk, OnOk, length, map};
ghost use Rattle.workers.specs.declared.study.TheConstants.{MOST_SCENARIOS};
ghost use Rattle.studies.specs.Names as spec;
ghost use Rattle.studies.specs.Stages.{TellsNames};

use crate::fault::StudyFault;
use crate::named_file::NamedFile;
use std::alloc::{AllocError, Global};
use workers::MOST_SCENARIOS;

/// The name of the scenario without edits.
const BASE: &[u8] = b"base";

/// Accepts the names of scenario files, each of them new, not empty and not `base`; with the base there are at most as
/// many scenarios as a study may have.
///
/// Else `Scenarios` for more files, or `Name` for the first name that is refused.
#[tactic(auto, using(crate::proofs::NameFaults::names))]
pub(crate) fn check_names(files: &[NamedFile]) -> Result<(), StudyFault>
    ensures good { OnOk result ((length files.now < MOST_SCENARIOS) × (spec.name_faults files.now ≡ [])) }
    ensures fault { IfErr result (λ e. TellsNames e files.now) }
{
    if files.len() >= MOST_SCENARIOS {
        return Err(StudyFault::Scenarios);
    }
    for (i, file) in files.iter().enumerate() {
        if is_refused(&files[..i], &file.name) {
            return Err(StudyFault::Name(i));
        }
    }
    Ok(())
}

/// Whether a name is empty, `base`, or that of a file before.
fn is_refused(before: &[NamedFile], name: &[u8]) -> bool
    ensures { result ≡ spec.is_refused before.now name.now }
{
    name.is_empty() || name == BASE || is_used(before, name)
}

/// Whether a name is that of one of the files.
fn is_used(files: &[NamedFile], name: &[u8]) -> bool
    ensures { result ≡ spec.is_used files.now name.now }
{
    files.iter().any(|file| file.name.as_slice() == name)
}

/// The names of all scenarios, `base` first.
pub(crate) fn names_of(alloc: Global, files: &[NamedFile]) -> Result<Vec<Vec<u8>>, AllocError>
    ensures { IfOk result (λ names. map (λ n. n.items) names.items ≡ spec.names_of files.now) }
{
    let mut names = Vec::new(alloc);
    names.push(Vec::from_slice(alloc, BASE)?)?;
    for file in files {
        names.push(Vec::from_slice(alloc, &file.name)?)?;
    }
    Ok(names)
}
