//! The text of the matrix of what is asked of networks.
ghost use Rattle.std.specs.Prelude.{◌≡◌, ◌<◌, All, IfErr, IfOk, length};
ghost use Rattle.matrix_text.specs.Text.{matrix_text};
ghost use Rattle.studies.specs.Inputs.{InputFiles};
ghost use Rattle.studies.specs.Ready.{IsAsked, labels_of};
ghost use Rattle.studies.specs.Settings.{SettingsFit};
ghost use Rattle.studies.specs.Stages.{TellsText};
ghost use Rattle.studies.specs.Study.{IsStudyText, TellsBy};
ghost use Rattle.studies.specs.Watched.{SawAll, SawFault, listed};

use crate::fault::StudyFault;
use crate::matrix::matrix_of;
use crate::parts::Asked;
use crate::watch::Watch;
use collector::Matrix;
use matrix_text::{Labels, TextFault, write_matrix};
use std::alloc::Global;
use std::sync::Wait;
use std::thread::Threads;
use workers::{Gate, Study};

/// The text of the matrix of what is asked of networks, or why there is none. Of the feed it takes the stops.
pub(crate) fn text_of<G: Gate + Sync, W: Watch, R: Threads + Wait + Sync>(
    rt: &R,
    alloc: Global,
    asked: &Asked<'_>,
    gate: &G,
    watch: &W,
) -> Result<Vec<u8>, StudyFault>
    requires settings { SettingsFit asked.now.settings.now }
    requires asked { (files : InputFiles) × IsAsked files asked.now }
    requires listed { W.saw watch.now listed }
    ensures text { IfOk result (λ text. (files : InputFiles) → IsAsked files asked.now →
        IsStudyText files asked.now.settings.now text.items) }
    ensures told { IfOk result (λ _. (files : InputFiles) → IsAsked files asked.now →
        SawAll (W.saw watch.now) files asked.now.settings.now) }
    ensures told_fault { IfErr result (λ e. (files : InputFiles) → IsAsked files asked.now →
        SawFault (W.saw watch.now) e files asked.now.settings.now) }
    ensures run { IfErr result (λ e. (files : InputFiles) → IsAsked files asked.now →
        TellsBy (G.decides gate.now) (G.was_told gate.now) e files asked.now.settings.now) }
{
    let tables = asked.tables;
    asked.feed.known();
    let study = Study {
        number: 0,
        networks: asked.networks,
        origins: tables.origins.as_slice(),
        opportunities: tables.opportunities.as_slice(),
        ..asked.settings.asked(tables.destinations.as_slice())
    };
    let matrix = matrix_of(rt, alloc, &study, asked.settings, gate, watch)?;
    text_of_matrix(alloc, asked, matrix.as_ref())
}

/// The text of the matrix.
fn text_of_matrix(alloc: Global, asked: &Asked<'_>, matrix: &Matrix) -> Result<Vec<u8>, StudyFault>
    requires scenarios { matrix.now.scenarios ≡ length asked.now.names.now }
    requires origins { matrix.now.origins ≡ length asked.now.tables.now.origins.items }
    requires width { matrix.now.width ≡ length asked.now.tables.now.destinations.items }
    requires shares { matrix.now.shares ≡ length asked.now.settings.now.shares }
    requires limits { matrix.now.limits ≡ length asked.now.settings.now.withins }
    requires origins_are { All (λ o. o.0 < length asked.now.feed.now.stops) asked.now.tables.now.origins.items }
    requires destinations_are { All (λ o. o.0 < length asked.now.feed.now.stops)
        asked.now.tables.now.destinations.items }
    ensures text { IfOk result (λ text. text.items ≡ matrix_text (labels_of asked.now) matrix.now) }
    ensures fault { IfErr result TellsText }
{
    let settings = asked.settings;
    let tables = asked.tables;
    let labels = Labels {
        scenarios: asked.names,
        origins: tables.origins.as_slice(),
        shares: settings.shares.as_slice(),
        limits: settings.withins.as_slice(),
        destinations: tables.destinations.as_slice(),
        feed: asked.feed,
    };
    let mut text = Vec::new(alloc);
    match write_matrix(alloc, matrix, &labels, &mut text) {
        Ok(()) => Ok(text),
        Err(TextFault::Memory) => Err(StudyFault::Text(TextFault::Memory)),
        Err(TextFault::Write) => Err(StudyFault::Memory),
    }
}
