//! What the fields of a record must be, as it is told.

use gtfs_tables::Rule;
use scenarios::EditRule;

/// What a rule allows, in words.
pub(crate) fn words_of(rule: Rule) -> &'static str {
    match rule {
        Rule::Filled => "it may not be empty",
        Rule::Once => "a record before has the same",
        Rule::OnceInTrip => "another record of the trip has the same",
        Rule::Stop => "stops.txt has to name it, as a stop (location_type 0 or empty)",
        Rule::Place => "stops.txt has to name it",
        Rule::Route => "routes.txt has to name it",
        Rule::Trip => "trips.txt has to name it",
        Rule::Number => "a number is digits alone, 0 to 4294967295",
        Rule::OpenNumber => "it is empty or a number: digits alone, 0 to 4294967295",
        Rule::Flag => "a weekday is 0 or 1",
        Rule::Added => "it is 1 (the date is added) or 2 (it is removed)",
        Rule::Headway => "a headway is whole seconds, 1 to 4294967295",
        Rule::Time | Rule::OpenTime => "a time is H:MM:SS, 0:00:00 to 167:59:59",
        Rule::Date => "a date is YYYYMMDD",
        Rule::Timed => {
            "the first and the last stop time of a trip have an arrival_time or a departure_time"
        }
    }
}

/// What a rule of scenario files allows, in words.
pub(crate) fn edit_words(rule: EditRule) -> &'static str {
    match rule {
        EditRule::Action => "an action is remove_route, remove_trip or shift_trip",
        EditRule::Route => words_of(Rule::Route),
        EditRule::Trip => words_of(Rule::Trip),
        EditRule::Shift => "a shift is whole seconds, -604799 to 604799",
        EditRule::Shifted =>
            "all shifts of a trip together keep its times from 0 to 1999999 seconds",
    }
}
