//! The scenarios that files state.
ghost use Rattle.std.specs.Prelude.{◌≡◌, ◌≤◌, [], All, IfErr, IfOk, length};
ghost use Rattle.table_records.specs.declared.limits.TheConstants.{MOST_BYTES};
ghost use Rattle.studies.specs.Parts.{edit_faults, scenarios_of};
ghost use Rattle.studies.specs.Stages.{IsOfNoRun, TellsEdits};

use crate::fault::StudyFault;
use crate::named_file::NamedFile;
use gtfs_tables::Feed;
use scenarios::{Scenario, base, read_scenario};
use std::alloc::Global;

/// The scenario `base`, and then the one that each file states; else the first fault of the files.
#[tactic(auto, using(crate::proofs::ScenarioFiles::files))]
pub(crate) fn read_scenarios(
    alloc: Global,
    files: &[NamedFile],
    feed: &Feed,
) -> Result<Vec<Scenario>, StudyFault>
    requires { All (λ f. length f.bytes ≤ MOST_BYTES) files.now }
    ensures good { IfOk result (λ _. edit_faults feed.now 0 files.now ≡ []) }
    ensures scenarios { IfOk result (λ v. v.items ≡ scenarios_of feed.now files.now) }
    ensures fault { IfErr result (λ e. TellsEdits e feed.now files.now) }
    ensures no_run { IfErr result IsOfNoRun }
{
    let mut scenarios = Vec::new(alloc);
    if scenarios.push(base(alloc)).is_err() {
        return Err(StudyFault::Memory);
    }
    for (i, file) in files.iter().enumerate() {
        let scenario = match read_scenario(alloc, &file.name, &file.bytes, feed) {
            Ok(scenario) => scenario,
            Err(fault) => return Err(StudyFault::Scenario(i, fault)),
        };
        if scenarios.push(scenario).is_err() {
            return Err(StudyFault::Memory);
        }
    }
    Ok(scenarios)
}
