//! What is checked of a scenario's file, as data: proved to explain the faults that its reader returns.
ghost use Rattle.std.specs.Prelude.{◌≡◌, ℕ, List, map};
ghost use Rattle.gtfs_tables.specs.Feed.{FeedData};
ghost use Rattle.scenarios.specs.Checks.{AreExplained};
ghost use Rattle.scenarios.specs.EditRows.{row_faults, row_of};
ghost use Rattle.scenarios.specs.Files as spec;

use crate::faults::ScenarioWhat;

/// What a field of a scenario's file must be.
#[derive(Clone, Copy, Debug, PartialEq, Eq)]
pub enum EditRule {
    /// An action.
    Action,
    /// The identifier of a route.
    Route,
    /// The identifier of a trip.
    Trip,
    /// The seconds of a shift.
    Shift,
    /// The identifier of a trip whose shifted times are in range.
    Shifted,
}

/// A check of a field: its column, what it must be, and what is wrong where it isn't.
#[derive(Clone, Copy)]
pub struct EditCheck(pub &'static [u8], pub EditRule, pub ScenarioWhat);

/// What is checked of a scenario's file.
#[derive(Clone, Copy)]
pub struct EditChecks {
    /// The columns that the header must have.
    pub required: &'static [&'static [u8]],
    /// The checks of a record's fields. The last is looked at after all records.
    pub fields: &'static [EditCheck],
}

/// The checks; [`edit_checks`] says what holds of them.
pub(crate) const CHECKS: EditChecks = EditChecks {
    required: &[b"action", b"id"],
    fields: &[
        EditCheck(b"action", EditRule::Action, ScenarioWhat::UnknownAction),
        EditCheck(b"id", EditRule::Route, ScenarioWhat::UnknownRoute),
        EditCheck(b"id", EditRule::Trip, ScenarioWhat::UnknownTrip),
        EditCheck(b"seconds", EditRule::Shift, ScenarioWhat::BadNumber),
        EditCheck(b"id", EditRule::Shifted, ScenarioWhat::ShiftOutOfRange),
    ],
};

/// What is checked of a scenario's file, apart from its limit: each fault of a record is that of a check.
pub fn edit_checks() -> EditChecks
    ensures required { map (λ name. name.now) result.required.now ≡ spec.required }
    ensures explains { (feed : FeedData) (at : ℕ) (header fields : List (List ℕ))
        → AreExplained feed result.fields.now header fields (row_faults feed at (row_of header fields)) }
{
    CHECKS
}
