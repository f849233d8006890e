//! Studies that are ready to be computed: what the rows and the text need, without the files.
ghost use Rattle.std.specs.Prelude.{◌≡◌, [], IfErr, IfOk};
ghost use Rattle.studies.specs.Inputs.{AreWithinLimit, InputFiles, inputs_of};
ghost use Rattle.studies.specs.Ready.{IsReady};
ghost use Rattle.studies.specs.Settings.{SettingsFit};
ghost use Rattle.studies.specs.Stages.{IsOfNoRun};
ghost use Rattle.studies.specs.Study.{IsStudyText, Tells, TellsBy};
ghost use Rattle.studies.specs.Watched.{HasReadTables, SawAll, SawFault, listed};

use crate::fault::StudyFault;
use crate::inputs::Inputs;
use crate::kept::prepare;
use crate::names::names_of;
use crate::parts::{Asked, Tables};
use crate::settings::Settings;
use crate::text::text_of;
use crate::watch::Watch;
use gtfs_tables::Feed;
use std::alloc::Global;
use std::sync::Wait;
use std::thread::Threads;
use timetable::Network;
use workers::Gate;

/// A study that is ready to be computed: all that its rows and its text need. It holds nothing of its files, so their
/// bytes can be freed.
#[derive(Drop)]
pub struct ReadyStudy {
    /// What the feed's files state, without the trips: the networks have copies of those.
    pub(crate) feed: Box<Feed>,
    /// The network of each scenario, `base` first.
    pub(crate) networks: Vec<Network>,
    /// The names of the scenarios, `base` first.
    pub(crate) names: Vec<Vec<u8>>,
    /// What the tables of its question state.
    pub(crate) tables: Box<Tables>,
}

/// Reads the files of a study and makes its networks; else the first fault, as
/// [`watch_study`](crate::study::watch_study) tells it. The rows are left to [`compute_study`].
pub fn ready_study<'a, W: Watch>(
    alloc: Global,
    inputs: &Inputs<'a>,
    settings: &'a Settings,
    watch: &W,
) -> Result<ReadyStudy, StudyFault>
    requires files { AreWithinLimit (inputs_of inputs.now) }
    requires settings { SettingsFit settings.now }
    ensures ready { IfOk result (λ study. IsReady (inputs_of inputs.now) settings.now study) }
    ensures no_trips { IfOk result (λ study. study.feed.value.trips ≡ []) }
    ensures listed { IfOk result (λ _. W.saw watch.now listed) }
    ensures told { IfOk result (λ _. HasReadTables (W.has_read watch.now) (W.has_listed watch.now)
        (inputs_of inputs.now) settings.now) }
    ensures fault { IfErr result (λ e. Tells e (inputs_of inputs.now) settings.now) }
    ensures no_run { IfErr result IsOfNoRun }
{
    let prepared = prepare(alloc, inputs, settings, watch)?;
    let names = names_of(alloc, inputs.scenarios)?;
    Ok(ReadyStudy {
        feed: without_trips(alloc, prepared.kept.feed),
        networks: prepared.kept.networks,
        names,
        tables: prepared.tables,
    })
}

/// A feed without its trips: rows need the networks' copies of them alone.
fn without_trips(alloc: Global, mut feed: Box<Feed>) -> Box<Feed>
    ensures no_trips { result.value.trips ≡ [] }
    ensures stops { result.value.stops ≡ feed.value.stops }
{
    feed.forget_trips(alloc);
    feed
}

/// The text of the matrix of a study that is ready, or why there is none: what
/// [`watch_study`](crate::study::watch_study) says of the files that it was made of, and of the same settings.
///
/// The condition is that there are such files, and that the watch was told of them.
pub fn compute_study<G: Gate + Sync, W: Watch, R: Threads + Wait + Sync>(
    rt: &R,
    alloc: Global,
    study: &ReadyStudy,
    settings: &Settings,
    gate: &G,
    watch: &W,
) -> Result<Vec<u8>, StudyFault>
    requires settings { SettingsFit settings.now }
    requires ready { (files : InputFiles) × IsReady files settings.now study.now }
    requires listed { W.saw watch.now listed }
    ensures text { IfOk result (λ text. (files : InputFiles) → IsReady files settings.now study.now →
        IsStudyText files settings.now text.items) }
    ensures told { IfOk result (λ _. (files : InputFiles) → IsReady files settings.now study.now →
        SawAll (W.saw watch.now) files settings.now) }
    ensures told_fault { IfErr result (λ e. (files : InputFiles) → IsReady files settings.now study.now →
        SawFault (W.saw watch.now) e files settings.now) }
    ensures run { IfErr result (λ e. (files : InputFiles) → IsReady files settings.now study.now →
        TellsBy (G.decides gate.now) (G.was_told gate.now) e files settings.now) }
{
    let asked = Asked {
        feed: study.feed.as_ref(),
        networks: study.networks.as_slice(),
        names: study.names.as_slice(),
        settings,
        tables: study.tables.as_ref(),
    };
    text_of(rt, alloc, &asked, gate, watch)
}
