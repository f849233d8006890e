//! What is asked of the files.
ghost use Rattle.std.specs.Prelude.{◌≡◌, ◌≤◌, ◌+◌, ◌↔◌, IsTrue};
ghost use Rattle.workers.specs.Study as study;
ghost use Rattle.studies.specs.Settings.{SettingsFit, query_of, window_of};

use crate::limits::{MOST_DAYS, MOST_WORKERS};
use footpaths::limit_fits;
use jiff::civil::Date;
use rounds::{MOST_MINUTES, MOST_RIDES, Window};
use std::marker::Model;
use timetable::StopNo;
use work_book::MOST_TRIES;
use workers::{Study, limits_fit, shares_fit};

/// The seconds of a service day, on the axis of a study's times.
const DAY: u32 = 86_400;

/// What is asked of the files of a study. Contracts see the shares and the longest travel times as lists.
#[derive(Drop)]
pub struct Settings {
    /// The date of the departures.
    pub date: Date,
    /// How many service days before that of the date count, at most 6.
    pub back: u32,
    /// How many service days after that of the date count, at most 6.
    pub ahead: u32,
    /// The minute of the day of the first departure.
    pub first: u32,
    /// How many minutes have a departure: at least 1, and all of one day.
    pub minutes: u32,
    /// The most rides of a journey, 1 to 8.
    pub rides: u32,
    /// The longest walk between two rides, in seconds, at most 7,200.
    pub walk: u32,
    /// Of a hundred minutes, for how many a cell's travel time must suffice, 1 to 100; each share has its own cells.
    /// There are 1 to 8, each above the one before.
    pub shares: Vec<u32>,
    /// The longest travel times, in seconds, at which a stop counts for access; each has its own sum. There are 1 to 8,
    /// each above the one before.
    pub withins: Vec<u32>,
    /// How many worker threads there are, 1 to 64.
    pub workers: u32,
    /// How often each row may be begun, 1 to 8.
    pub tries: u32,
}

impl Model for Settings {
    ghost use Rattle.studies.specs.Settings.{SettingsData};

    ghost Value = { SettingsData };

    ghost view = { λ s. record {
      date = s.date;
      back = s.back;
      ahead = s.ahead;
      first = s.first;
      minutes = s.minutes;
      rides = s.rides;
      walk = s.walk;
      shares = s.shares.items;
      withins = s.withins.items;
      workers = s.workers;
      tries = s.tries;
    } };
}

impl Settings {
    /// Whether all settings are within their limits, as [`run_study`](crate::study::run_study) asks: 6 days back and
    /// ahead at most; 1 minute or more, all on one day; 1 to 8 rides; a walk of at most 7,200 seconds; 1 to 8 shares of
    /// 1 to 100, and 1 to 8 longest travel times, each above the one before; 1 to 64 workers; and 1 to 8 tries.
    pub fn fits(&self) -> bool
        ensures { IsTrue result ↔ SettingsFit self.now }
    {
        self.back <= MOST_DAYS
            && self.ahead <= MOST_DAYS
            && is_on_one_day(self.first, self.minutes)
            && 1 <= self.rides
            && self.rides <= MOST_RIDES
            && limit_fits(self.walk)
            && shares_fit(&self.shares)
            && limits_fit(&self.withins)
            && 1 <= self.workers
            && self.workers <= MOST_WORKERS
            && 1 <= self.tries
            && self.tries <= MOST_TRIES
    }

    /// What a study with these settings and destinations asks of every network, as a study that has no networks,
    /// origins and opportunities yet.
    pub fn asked<'a>(&'a self, destinations: &'a [StopNo]) -> Study<'a>
        requires { SettingsFit self.now }
        ensures { study.query_of result ≡ query_of self.now destinations.now }
    {
        Study {
            number: 0,
            networks: &[],
            origins: &[],
            opportunities: &[],
            window: self.window(),
            rides: self.rides,
            shares: self.shares.as_slice(),
            withins: self.withins.as_slice(),
            destinations,
        }
    }

    /// The departures on the axis of the study's times, which begins with the first service day.
    pub fn window(&self) -> Window
        requires { SettingsFit self.now }
        ensures { result ≡ window_of self.now }
    {
        Window {
            first: DAY * self.back + 60 * self.first,
            minutes: self.minutes,
        }
    }
}

/// Whether there are minutes from the first one on, all of them on one day.
fn is_on_one_day(first: u32, minutes: u32) -> bool
    ensures { IsTrue result ↔ ((1 ≤ minutes) × (first + minutes ≤ 1440)) }
{
    1 <= minutes && minutes <= MOST_MINUTES && first <= MOST_MINUTES - minutes
}
