//! What is asked of the files of a study.
ghost use Rattle.std.specs.Prelude.{◌≡◌, length};

use gtfs_tables::{read_date, read_time};
use jiff::civil::Date;
use rounds::Window;
use table_records::number;

/// What is measured of a study.
#[derive(Clone, Copy)]
pub(crate) enum Part {
    /// Stage after stage.
    Stages,
    /// The least durations of the base network, origin by origin.
    Durations,
    /// Stage after stage, and first the rows of the base network: their search apart from their cells and access.
    Rows,
    /// The same with one more service day before the date and one after it.
    Days,
}

/// The seconds of a service day.
const DAY: u32 = 86_400;

/// The service days of a study, its departures, and how far its journeys go.
#[derive(Clone, Copy)]
pub(crate) struct Asked {
    pub part: Part,
    pub date: Date,
    /// How many service days before the date, and after it, have trips that run, too.
    pub around: u32,
    /// The departures, on an axis that begins with the first service day.
    pub window: Window,
    /// The most rides of a journey.
    pub rides: u32,
    /// The longest walk between two rides, in seconds.
    pub walk: u32,
}

/// What five arguments ask for: the date, the time of the first departure, how many minutes have one, the most rides,
/// and the longest walk in seconds. None where one of them isn't a date, a time or a number.
pub(crate) fn read(part: Part, words: &[String]) -> Option<Asked>
    requires { length words.now ≡ 5 }
{
    let around = match part {
        Part::Days => 1,
        _ => 0,
    };
    Some(Asked {
        part,
        date: read_date(words[0].as_bytes())?,
        around,
        window: Window {
            first: read_time(words[1].as_bytes())?.saturating_add(DAY * around),
            minutes: number(words[2].as_bytes())?,
        },
        rides: number(words[3].as_bytes())?,
        walk: number(words[4].as_bytes())?,
    })
}
