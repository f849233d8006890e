//! Days by number, with their weekdays.
ghost use Rattle.std.specs.Prelude.{◌≡◌, ◌<◌, ◌≤◌};
ghost use Rattle.gtfs_tables.specs.Feed.{day_number};
ghost use Rattle.service_days.specs.Day.{weekday_at};

use jiff::civil::Date;

/// The number of the last day, 31 December 9999. Day 0 is 1 January of the year -9999.
pub const LAST_DAY: u32 = 7_304_483;

/// The latest start of a service day on an axis, in seconds: that of the last day, where the axis begins with the
/// first.
pub const LAST_START: u64 = 631_107_331_200;

/// A day, and its weekday.
#[derive(Clone, Copy)]
pub(crate) struct Day {
    /// Days since 1 January of the year -9999.
    pub(crate) number: u32,
    /// From 0 for Monday.
    pub(crate) weekday: usize,
    ghost is_weekday: { weekday ≡ weekday_at number },
    ghost in_week: { weekday < 7 },
}

impl Day {
    /// The day with a number.
    pub(crate) fn at(number: u32) -> Day
        requires { number ≤ LAST_DAY }
        ensures { result.number ≡ number }
    {
        let weekday = jiff_core::civil::Date::from_days_since_min(number).weekday();
        Day {
            number,
            weekday: weekday.index() as usize,
        }
    }

    /// The day of a date.
    pub(crate) fn of(date: Date) -> Day
        ensures { result.number ≡ day_number date }
    {
        Day::at(number_of(date))
    }
}

/// The number of a date's day.
pub(crate) fn number_of(date: Date) -> u32
    ensures value { result ≡ day_number date }
    ensures bound { result ≤ LAST_DAY }
{
    date.to_plain().days_since_min()
}
