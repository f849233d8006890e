//! The study that the program carries: the small feed, and what is asked of it.

ghost use Rattle.std.specs.Prelude.{◌≡◌, IfOk};
ghost use Rattle.program.specs.Example as spec;
ghost use Rattle.studies.specs.Inputs.{AreWithinLimit, inputs_of};
ghost use Rattle.studies.specs.Settings.{SettingsFit};

use jiff::civil::Date;
use small_feed::{FROM_A, small_files};
use std::alloc::{AllocError, Global};
use studies::{Inputs, Settings};

/// The small feed, with stop A as the only origin.
pub(crate) fn example_inputs() -> Inputs<'static>
    ensures files { inputs_of result ≡ spec.example_files }
    ensures limit { AreWithinLimit (inputs_of result) }
{
    Inputs {
        feed: small_files(),
        footpaths: None,
        origins: Some(FROM_A),
        opportunities: None,
        destinations: None,
        scenarios: &[],
    }
}

/// One minute of Monday, 4 May 2026, by at most two rides.
pub(crate) fn example_settings(alloc: Global) -> Result<Settings, AllocError>
    ensures settings { IfOk result spec.IsExampleSettings }
    ensures fit { IfOk result (λ settings. SettingsFit settings) }
{
    Ok(Settings {
        date: Date::constant(2026, 5, 4),
        back: 1,
        ahead: 1,
        first: 480,
        minutes: 1,
        rides: 2,
        walk: 0,
        shares: Vec::from_slice(alloc, &[50])?,
        withins: Vec::from_slice(alloc, &[1800])?,
        workers: 1,
        tries: 1,
    })
}
