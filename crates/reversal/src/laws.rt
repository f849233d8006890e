//! Theorems about mirrored networks and their journeys.
ghost use Rattle.reversal.specs.Laws.{JourneysReverse, LabelsAreLeastUpTo, LastDeparturesAreHorizons};
ghost use Rattle.reversal.specs.Laws.{LaterDeadlinesServe, LeastDurationsAreReadOut, MirroredNetworksAreNetworks};
ghost use Rattle.reversal.specs.Laws.{MirroredNetworksAreUnique, MirroredTwiceIsOriginal};

/// A law: a mirrored network is a network like any other; a network has only one; and mirrored again, it is the
/// original network.
///
/// Every promise about networks therefore holds for mirrored ones. The last clause says which horizons a network has.
pub fn mirrored_networks_are_networks()
    ensures accepted { MirroredNetworksAreNetworks }
    ensures unique { MirroredNetworksAreUnique }
    ensures twice { MirroredTwiceIsOriginal }
    ensures horizons { LastDeparturesAreHorizons }
{}

/// A law: some journey leads from an origin to a destination, between a start and a deadline and with at most a given
/// number of rides, if and only if some journey of the mirrored network leads from the destination to the origin,
/// between the mirrored deadline and the mirrored start.
pub fn journeys_reverse()
    ensures { JourneysReverse }
{}

/// A law: searches over the mirrored network, one for each deadline of a destination, give the least durations to it.
///
/// - `least`: each duration is the lesser of a walk alone and the seconds until the first deadline that serves.
/// - `later`: a start that a deadline serves is served by every later deadline, too. So the departures of a window that
///   are served form a front that only grows.
/// - `up_to`: the labels of a search are right up to every limit, which is all that `least` asks of them.
pub fn durations_from_deadlines()
    ensures least { LeastDurationsAreReadOut }
    ensures later { LaterDeadlinesServe }
    ensures up_to { LabelsAreLeastUpTo }
{}
