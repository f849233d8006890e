//! What is kept of a study's files between questions.
ghost use Rattle.std.specs.Prelude.{◌≡◌, IfErr, IfOk};
ghost use Rattle.studies.specs.Inputs.{AreWithinLimit, inputs_of};
ghost use Rattle.studies.specs.Kept.{IsKept};
ghost use Rattle.studies.specs.Settings.{SettingsFit};
ghost use Rattle.studies.specs.Stages.{AreTables, IsFeedOf, IsOfNoRun};
ghost use Rattle.studies.specs.Study.{AreNetworks, Tells};
ghost use Rattle.studies.specs.Watched.{HasReadTables, listed};

use crate::boxes::{direct_from, feed_from};
use crate::fault::StudyFault;
use crate::inputs::Inputs;
use crate::names::check_names;
use crate::networks::{make_networks, network_parts};
use crate::parts::Prepared;
use crate::settings::Settings;
use crate::tables::read_tables;
use crate::watch::Watch;
use gtfs_tables::Feed;
use std::alloc::Global;
use timetable::Network;

/// What is kept of a study's files between questions: what takes long to make, and what no question changes.
#[derive(Drop)]
pub struct Kept<'a> {
    /// The files.
    pub inputs: Inputs<'a>,
    /// The settings, whose days and longest walk are the networks'.
    pub settings: &'a Settings,
    /// What the feed's files state.
    pub feed: Box<Feed>,
    /// The network of each scenario, `base` first.
    pub networks: Vec<Network>,
}

/// Reads the files of a study and makes its networks, which are kept; else the first fault, as
/// [`run_study`](crate::study::run_study) tells it.
///
/// The files of origins, opportunities and destinations are read as well, and are refused as in a run.
pub fn keep<'a, W: Watch>(
    alloc: Global,
    inputs: &Inputs<'a>,
    settings: &'a Settings,
    watch: &W,
) -> Result<Kept<'a>, StudyFault>
    requires files { AreWithinLimit (inputs_of inputs.now) }
    requires settings { SettingsFit settings.now }
    ensures kept { IfOk result (λ kept. IsKept kept) }
    ensures files { IfOk result (λ kept. inputs_of kept.inputs ≡ inputs_of inputs.now) }
    ensures settings { IfOk result (λ kept. kept.settings.now ≡ settings.now) }
    ensures told { IfOk result (λ _. HasReadTables (W.has_read watch.now) (W.has_listed watch.now)
        (inputs_of inputs.now) settings.now) }
    ensures fault { IfErr result (λ e. Tells e (inputs_of inputs.now) settings.now) }
{
    let prepared = prepare(alloc, inputs, settings, watch)?;
    Ok(prepared.kept)
}

/// The same with the tables of the study's own question.
pub(crate) fn prepare<'a, W: Watch>(
    alloc: Global,
    inputs: &Inputs<'a>,
    settings: &'a Settings,
    watch: &W,
) -> Result<Prepared<'a>, StudyFault>
    requires files { AreWithinLimit (inputs_of inputs.now) }
    requires settings { SettingsFit settings.now }
    ensures files { IfOk result (λ p. inputs_of p.kept.inputs ≡ inputs_of inputs.now) }
    ensures settings { IfOk result (λ p. p.kept.settings.now ≡ settings.now) }
    ensures feed { IfOk result (λ p. IsFeedOf (inputs_of inputs.now) p.kept.feed.value) }
    ensures tables { IfOk result (λ p. AreTables (inputs_of inputs.now) p.kept.feed.value p.tables.value) }
    ensures networks { IfOk result (λ p. AreNetworks (inputs_of inputs.now) settings.now p.kept.networks.items) }
    ensures listed { IfOk result (λ _. W.saw watch.now listed) }
    ensures told { IfOk result (λ _. HasReadTables (W.has_read watch.now) (W.has_listed watch.now)
        (inputs_of inputs.now) settings.now) }
    ensures fault { IfErr result (λ e. Tells e (inputs_of inputs.now) settings.now) }
    ensures no_run { IfErr result IsOfNoRun }
{
    check_names(inputs.scenarios)?;
    let held = feed_from(alloc, &inputs.feed)?;
    let feed = held.as_ref();
    let walks = direct_from(alloc, feed, inputs.footpaths)?;
    let direct = walks.as_ref();
    let tables = read_tables(alloc, inputs, feed)?;
    watch.tables_read(feed, direct, &tables.origins, &tables.destinations);
    let parts = network_parts(alloc, inputs, settings, feed, direct)?;
    let parts = parts.as_ref();
    watch.days_listed(feed, settings, &parts.scenarios, &parts.runs, &parts.feet);
    let networks = make_networks(alloc, feed, &parts.scenarios, &parts.runs, &parts.feet)?;
    let kept = Kept {
        inputs: *inputs,
        settings,
        feed: held,
        networks,
    };
    Ok(Prepared { kept, tables })
}
