//! The ends of a footpath: a stop, or a station that stands for all its stops.

ghost use Rattle.std.specs.Prelude.{◌≡◌};
ghost use Rattle.std.specs.List.{list_any};
ghost use Rattle.table_files.specs.Ends as spec;

use timetable::StopNo;

/// The stops that a place stands for: a stop stands for itself, a station for its stops, another for none.
#[derive(Clone, Copy, Drop)]
pub enum Ends<'a> {
    /// One stop.
    Alone([StopNo; 1]),
    /// The stops of a station, if any.
    Children(&'a [StopNo]),
}

impl<'a> Ends<'a> {
    /// The stops, in file order.
    pub fn as_slice(&self) -> &[StopNo]
        ensures { result.now ≡ spec.stops_of self.now }
    {
        match self {
            Ends::Alone(stop) => stop,
            Ends::Children(stops) => stops,
        }
    }
}

/// Whether two ends give a pair of different stops.
///
/// The stops of an end differ from one another, so that at most two of each are looked at.
pub fn have_pair(from: &[StopNo], to: &[StopNo]) -> bool
    ensures { result ≡ spec.have_pair from.now to.now }
{
    if to.is_empty() {
        return false;
    }
    from.iter().any(|stop| has_other(*stop, to))
}

/// Whether another stop is among some.
fn has_other(stop: StopNo, stops: &[StopNo]) -> bool
    ensures { result ≡ list_any (spec.differ stop) stops.now }
{
    stops.iter().any(|other| other.0 != stop.0)
}
