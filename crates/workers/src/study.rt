//! Studies: what is asked of the networks.
ghost use Rattle.std.specs.Prelude.{◌≡◌, ◌<◌, ◌≤◌, ◌↔◌, IsTrue, All};
ghost use Rattle.std.specs.List.{list_all};
ghost use Rattle.std.specs.List.Sorted.{IsStrictlyIncreasing};
ghost use Rattle.workers.specs.Study.{study_of, is_share, SharesFit, LimitsFit, StudyFits};
ghost use Rattle.workers.specs.declared.study.TheConstants as limit;

use rounds::{MOST_RIDES, Window};
use timetable::{MOST_STOPS, Network, StopNo, are_stops};

/// The most scenarios of a study.
pub const MOST_SCENARIOS: usize = 16;

/// The most shares of the minutes that a study may ask for.
pub const MOST_SHARES: usize = 8;

/// The most limits of reach that a study may ask for.
pub const MOST_LIMITS: usize = 8;

/// A law: the limits of a study in numbers.
pub fn limits_are_as_stated()
    ensures scenarios { limit.MOST_SCENARIOS ≡ 16 }
    ensures shares { limit.MOST_SHARES ≡ 8 }
    ensures limits { limit.MOST_LIMITS ≡ 8 }
{}

/// What is asked for: one row per scenario and origin, with, for each share, one cell per destination and one access
/// sum per limit.
#[derive(Clone, Copy)]
pub struct Study<'a> {
    /// The study's number, which each of its rows bears.
    pub number: u64,
    /// One network per scenario.
    pub networks: &'a [Network],
    /// The stops that journeys begin at.
    pub origins: &'a [StopNo],
    /// The opportunities at each stop.
    pub opportunities: &'a [u32],
    /// The departures.
    pub window: Window,
    /// The most rides of a journey, 1 to 8.
    pub rides: u32,
    /// The percentiles: a cell is the least duration that at least this percentage of the minutes attains. Each share
    /// has its own cells.
    pub shares: &'a [u32],
    /// The limits of access: the longest travel times, in seconds, at which a stop counts. Each limit has its own sum.
    pub withins: &'a [u32],
    /// The stops that a row has cells for, in the order of its cells. Access counts all stops, whichever these are.
    pub destinations: &'a [StopNo],
}

impl Study<'_> {
    /// A door for other programs: whether the study is within the limits.
    ///
    /// There are at most 16 networks, each with as many stops as there are opportunities; at most 65,535 origins and as
    /// many destinations, each of them one of these stops; the window fits; there are 1 to 8 rides; and the shares and
    /// the limits fit.
    pub fn fits(&self) -> bool
        ensures { IsTrue result ↔ StudyFits (study_of self.now) }
    {
        self.networks.len() <= MOST_SCENARIOS
            && have_stops(self.networks, self.opportunities.len())
            && self.origins.len() <= MOST_STOPS
            && are_stops(self.origins, self.opportunities.len())
            && self.destinations.len() <= MOST_STOPS
            && are_stops(self.destinations, self.opportunities.len())
            && self.window.fits()
            && 1 <= self.rides
            && self.rides <= MOST_RIDES
            && shares_fit(self.shares)
            && limits_fit(self.withins)
    }
}

/// A door for other programs: whether these are shares to ask for, 1 to 8 of them, each above the one before, all 1 to
/// 100.
pub fn shares_fit(shares: &[u32]) -> bool
    ensures { IsTrue result ↔ SharesFit shares.now }
{
    1 <= shares.len() && shares.len() <= MOST_SHARES && are_rising(shares) && are_shares(shares)
}

/// A door for other programs: whether these are limits to ask for, 1 to 8 of them, each above the one before.
pub fn limits_fit(limits: &[u32]) -> bool
    ensures { IsTrue result ↔ LimitsFit limits.now }
{
    1 <= limits.len() && limits.len() <= MOST_LIMITS && are_rising(limits)
}

/// Whether each number is a share of a hundred minutes, 1 to 100.
pub fn are_shares(numbers: &[u32]) -> bool
    ensures value { result ≡ list_all is_share numbers.now }
    ensures each { IsTrue result ↔ All (λ share. (1 ≤ share) × (share ≤ 100)) numbers.now }
{
    numbers.iter().all(|share| 1 <= *share && *share <= 100)
}

/// Whether each number is above the one before.
pub fn are_rising(numbers: &[u32]) -> bool
    ensures { IsTrue result ↔ IsStrictlyIncreasing numbers.now }
{
    numbers.windows(2).all(|pair| pair[0] < pair[1])
}

/// Whether each network has so many stops.
fn have_stops(networks: &[Network], stops: usize) -> bool
    ensures { IsTrue result ↔ All (λ n. n.stops ≡ stops) networks.now }
{
    networks
        .iter()
        .all(|network| network.stops() as usize == stops)
}
