//! The networks of a study's scenarios, and what they are made of.
ghost use Rattle.std.specs.Prelude.{◌≡◌, ◌≤◌, [], All, IfErr, IfOk, length};
ghost use Rattle.service_days.specs.Instances.{IsRun};
ghost use Rattle.workers.specs.declared.study.TheConstants.{MOST_SCENARIOS};
ghost use Rattle.studies.specs.Inputs.{AreWithinLimit, inputs_of};
ghost use Rattle.studies.specs.Parts.{direct_in, feed_in, network_faults, networks_of};
ghost use Rattle.studies.specs.Settings.{SettingsFit};
ghost use Rattle.studies.specs.Stages.{AreNetworkParts, IsOfNoRun, TellsNetworks};
ghost use Rattle.studies.specs.Study.{AreRead, Tells};

use crate::boxes::boxed;
use crate::fault::StudyFault;
use crate::inputs::Inputs;
use crate::parts::NetworkParts;
use crate::scenario_files::read_scenarios;
use crate::settings::Settings;
use footpaths::{Direct, close};
use gtfs_tables::Feed;
use scenarios::{Scenario, network_of};
use service_days::{Run, active};
use std::alloc::Global;
use timetable::{Feet, Network};

/// What the networks of a study are made of, in a box: the scenario files are read, the runs of the study's days are
/// listed, and then the footpaths are closed; else the first fault.
pub(crate) fn network_parts(
    alloc: Global,
    inputs: &Inputs<'_>,
    settings: &Settings,
    feed: &Feed,
    direct: &Direct,
) -> Result<Box<NetworkParts>, StudyFault>
    requires files { AreWithinLimit (inputs_of inputs.now) }
    requires settings { SettingsFit settings.now }
    requires read { AreRead (inputs_of inputs.now) }
    requires feed { feed.now ≡ feed_in (inputs_of inputs.now) }
    requires direct { direct.now ≡ direct_in (inputs_of inputs.now) }
    ensures parts { IfOk result (λ parts. AreNetworkParts (inputs_of inputs.now) settings.now parts.value) }
    ensures fault { IfErr result (λ e. Tells e (inputs_of inputs.now) settings.now) }
    ensures no_run { IfErr result IsOfNoRun }
{
    let scenarios = read_scenarios(alloc, inputs.scenarios, feed)?;
    let runs = active(alloc, feed, settings.date, settings.back, settings.ahead)?;
    let feet = close(alloc, direct, settings.walk)?;
    let parts = NetworkParts {
        scenarios,
        runs,
        feet,
    };
    Ok(boxed(alloc, parts)?)
}

/// The network of each scenario, made of the same runs and footpaths; else the first fault of the networks.
#[tactic(auto, using(crate::proofs::NetworkFaults::networks))]
pub(crate) fn make_networks(
    alloc: Global,
    feed: &Feed,
    scenarios: &[Scenario],
    runs: &[Run],
    feet: &Feet,
) -> Result<Vec<Network>, StudyFault>
    requires few { length scenarios.now ≤ MOST_SCENARIOS }
    requires runs { All (IsRun feed.now) runs.now }
    requires feet { length feet.now.walks ≡ length feed.now.stops }
    ensures good { IfOk result (λ _. network_faults feed.now runs.now 0 scenarios.now ≡ []) }
    ensures networks { IfOk result (λ v. v.items ≡ networks_of feed.now runs.now feet.now scenarios.now) }
    ensures fault { IfErr result (λ e. TellsNetworks e feed.now runs.now scenarios.now) }
    ensures no_run { IfErr result IsOfNoRun }
{
    let mut networks = Vec::new(alloc);
    for (i, scenario) in scenarios.iter().enumerate() {
        let network = match network_of(alloc, feed, scenario, runs, feet) {
            Ok(network) => network,
            Err(fault) => return Err(StudyFault::Net(i as u32, fault)),
        };
        if networks.push(network).is_err() {
            return Err(StudyFault::Memory);
        }
    }
    Ok(networks)
}
