//! A network with its stops by numbers of their own.
ghost use Rattle.std.specs.Prelude.{◌≡◌, length, map};
ghost use Rattle.timetable.specs.Indexes.{IsLined};
ghost use Rattle.timetable.specs.LastArrivals.{AreLastArrivals};
ghost use Rattle.timetable.specs.Lines.{AreLinesOf};
ghost use Rattle.timetable.specs.Networks.{IsNet};
ghost use Rattle.timetable.specs.Numbering.{number_in};
ghost use Rattle.timetable.specs.Renumbering.{renumbered_trip};

use crate::footpaths::Feet;
use crate::lines::Lines;
use crate::trips::Trip;
use std::marker::Model;

/// The trips of a network by the numbers of their stops. Contracts see the trips; what computes reads the lines.
#[derive(Drop)]
pub struct NumberedTrips<'a> {
    /// At the feed's stops.
    trips: &'a [Trip],
    /// The number of each of these.
    numbers: &'a [u32],
}

impl<'a> Model for NumberedTrips<'a> {
    ghost use Rattle.std.specs.Prelude.{List, map};
    ghost use Rattle.timetable.specs.declared.trips.Trip.{Trip};
    ghost use Rattle.timetable.specs.Numbering.{number_in};
    ghost use Rattle.timetable.specs.Renumbering.{renumbered_trip};

    ghost Value = { List Trip };

    ghost view = { λ n. map (renumbered_trip (number_in n.numbers.now)) n.trips.now };
}

impl<'a> NumberedTrips<'a> {
    /// These trips, with each stop by its number.
    pub(crate) fn new(trips: &'a [Trip], numbers: &'a [u32]) -> Self
        ensures { result ≡ map (renumbered_trip (number_in numbers.now)) trips.now }
    {
        NumberedTrips { trips, numbers }
    }
}

/// A network as it is searched: with each stop by its number. Contracts see a network in which trips and footpaths lead
/// from number to number.
#[derive(Drop)]
pub struct Renumbered<'a> {
    stops: u32,
    trips: NumberedTrips<'a>,
    feet: &'a Feet,
    lines: &'a Lines,
    last_arrivals: &'a [u32],
}

impl<'a> Model for Renumbered<'a> {
    ghost use Rattle.timetable.specs.Indexes.{IsLined};
    ghost use Rattle.timetable.specs.Networks.{Net};

    ghost Value = { Net };

    ghost view = { λ n. record { stops = n.stops; trips = n.trips; feet = n.feet.now } };

    ghost invariant = { λ n. IsLined (record { stops = n.stops; trips = n.trips; feet = n.feet.now }) n.lines.now
        n.last_arrivals.now };
}

impl<'a> Renumbered<'a> {
    /// The network of these trips.
    pub(crate) fn new(
        stops: u32,
        trips: NumberedTrips<'a>,
        feet: &'a Feet,
        lines: &'a Lines,
        last_arrivals: &'a [u32],
    ) -> Self
        requires { IsLined (record { stops = stops; trips = trips; feet = feet.now }) lines.now last_arrivals.now }
        ensures { result ≡ record { stops = stops; trips = trips.entry; feet = feet.now } }
    {
        Renumbered {
            stops,
            trips,
            feet,
            lines,
            last_arrivals,
        }
    }

    /// How many stops there are.
    pub fn stops(&self) -> u32
        ensures { result ≡ self.now.stops }
    {
        self.stops
    }

    /// Its trips, in their order.
    pub fn trips(&self) -> &NumberedTrips<'a>
        ensures { result.now ≡ self.now.trips }
    {
        &self.trips
    }

    /// The footpaths between its stops, and their change times.
    pub fn feet(&self) -> &'a Feet
        ensures { result.now ≡ self.now.feet }
    {
        self.feet
    }

    /// The lines of its trips.
    pub fn lines(&self) -> &'a Lines
        ensures { AreLinesOf self.now.stops self.now.trips result.now }
    {
        self.lines
    }

    /// For each stop the last time at which a trip arrives that one may alight from, or a walk ends that follows such
    /// an arrival, or that begins with the axis, at 0.
    pub fn last_arrivals(&self) -> &'a [u32]
        ensures { AreLastArrivals self.now.trips self.now.feet result.now }
    {
        self.last_arrivals
    }

    /// What is true of every network, for the proofs of the layers above.
    pub fn known(&self)
        ensures { IsNet self.now }
    {
        // A look at a field brings the invariant into the proof.
        let _ = &self.trips;
    }
}
