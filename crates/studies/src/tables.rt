//! The tables of a question.
ghost use Rattle.std.specs.Prelude.{◌≡◌, [], IfErr, IfOk};
ghost use Rattle.studies.specs.Inputs.{AreWithinLimit, inputs_of};
ghost use Rattle.studies.specs.Parts.{point_faults};
ghost use Rattle.studies.specs.Stages.{AreTables, TellsTables};

use crate::boxes::boxed;
use crate::fault::StudyFault;
use crate::inputs::Inputs;
use crate::parts::Tables;
use gtfs_tables::{Feed, read_destinations, read_opportunities, read_origins};
use std::alloc::Global;

/// What the tables of a question state for a feed, in a box, or their first fault: of the origins, the opportunities,
/// the destinations.
pub(crate) fn read_tables(
    alloc: Global,
    inputs: &Inputs<'_>,
    feed: &Feed,
) -> Result<Box<Tables>, StudyFault>
    requires { AreWithinLimit (inputs_of inputs.now) }
    ensures good { IfOk result (λ _. point_faults (inputs_of inputs.now) feed.now ≡ []) }
    ensures tables { IfOk result (λ tables. AreTables (inputs_of inputs.now) feed.now tables.value) }
    ensures fault { IfErr result (λ e. TellsTables e (inputs_of inputs.now) feed.now) }
{
    let origins = read_origins(alloc, inputs.origins, feed)?;
    let opportunities = read_opportunities(alloc, inputs.opportunities, feed)?;
    let destinations = read_destinations(alloc, inputs.destinations, feed)?;
    let tables = Tables {
        origins,
        opportunities,
        destinations,
    };
    Ok(boxed(alloc, tables)?)
}
