//! The networks of a study's scenarios.
ghost use Rattle.std.specs.Prelude.{◌≡◌, All, length};
ghost use Rattle.service_days.specs.Instances.{IsRun};

use gtfs_tables::Feed;
use scenarios::{Scenario, network_of};
use service_days::Run;
use std::alloc::Global;
use timetable::{Feet, NetFault, Network};

/// The network of each scenario, made of the same runs and footpaths.
pub(crate) fn make_networks(
    alloc: Global,
    feed: &Feed,
    scenarios: &[Scenario],
    runs: &[Run],
    feet: &Feet,
) -> Result<Vec<Network>, NetFault>
    requires runs { All (IsRun feed.now) runs.now }
    requires feet { length feet.now.walks ≡ length feed.now.stops }
{
    let mut networks = Vec::new(alloc);
    for scenario in scenarios {
        let network = network_of(alloc, feed, scenario, runs, feet)?;
        if networks.push(network).is_err() {
            return Err(NetFault::Memory);
        }
    }
    Ok(networks)
}
