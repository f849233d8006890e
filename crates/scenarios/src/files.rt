//! The files of scenarios.
ghost use Rattle.std.specs.Prelude.{◌≡◌, ◌≤◌, ◌⊎◌, ◌∷◌, [], IfErr, IfOk, OnOk, false, length, true};
ghost use Rattle.csv.specs.Records.{fields_of};
ghost use Rattle.table_records.specs.Reading.{lacks_column};
ghost use Rattle.table_records.specs.Table.{records_of};
ghost use Rattle.table_records.specs.declared.limits.TheConstants.{MOST_BYTES};
ghost use Rattle.scenarios.specs.declared.faults.ScenarioWhat.TheVariants.{Memory};
ghost use Rattle.scenarios.specs.Faults.{Tells};
ghost use Rattle.scenarios.specs.Files.{edits_of, missing_column, required, rows_in, scenario_faults, scenario_in};

use crate::checks::CHECKS;
use crate::edit_rows::{EditColumns, columns_in, edit_in};
use crate::faults::ScenarioFault;
use crate::scenario::Scenario;
use crate::shifted_times::check_times;
use csv::ByteRecord;
use gtfs_tables::Feed;
use std::alloc::{AllocError, Global};
use table_records::{HeaderFault, OpenTable, RecordTaker, open_records, take_records};

/// The scenario of a name whose edits the bytes of a file say: the columns `action`, `id` and `seconds`, of which the
/// first two are required, and a record for each edit. The actions are `remove_route`, `remove_trip` and `shift_trip`.
///
/// The seconds of a shift are read without the spaces around them; other actions don't read theirs. A trip that several
/// records shift moves by their sum. A fault names the record, counted from 1 with the header: the first record that
/// is bad; else, of the trips whose times the shifts bring below 0 or past 1,999,999 seconds, the first
/// that is shifted for the last time. The bytes are at most 2^30, the limit of an input file.
pub fn read_scenario(
    alloc: Global,
    name: &[u8],
    bytes: &[u8],
    feed: &Feed,
) -> Result<Scenario, ScenarioFault>
    requires { length bytes.now ≤ MOST_BYTES }
    ensures good { IfOk result (λ s. (scenario_faults bytes.now feed.now ≡ [])
        × (s ≡ scenario_in name.now bytes.now feed.now)) }
    ensures fault { IfErr result (λ e. Tells e (scenario_faults bytes.now feed.now)) }
{
    let mut scenario = Scenario::named(alloc, Vec::from_slice(alloc, name)?);
    let read = read_edits(alloc, bytes, feed, &mut scenario);
    read.and(Ok(scenario))
}

/// Adds the edits that the bytes of a file say, and checks the times that they shift.
fn read_edits(
    alloc: Global,
    bytes: &[u8],
    feed: &Feed,
    scenario: &mut Scenario,
) -> Result<(), ScenarioFault>
    requires few { length bytes.now ≤ MOST_BYTES }
    requires first { scenario.old.edits ≡ [] }
    ensures good { OnOk result ((scenario_faults bytes.now feed.now ≡ [])
        × (scenario.new ≡ record scenario.old { edits = edits_of feed.now (rows_in bytes.now) })) }
    ensures fault { IfErr result (λ e. Tells e (scenario_faults bytes.now feed.now)) }
{
    let mut file = open_file(alloc, bytes)?;
    let taker = EditTaker {
        columns: columns_in(&file.header),
        feed,
    };
    let read = take_records(alloc, &taker, scenario, &mut file.records);
    drop(file);
    read?;
    check_times(alloc, feed, scenario)
}

/// Reads the header of a file, which must name each required column.
fn open_file<'a>(alloc: Global, bytes: &'a [u8]) -> Result<OpenTable<'a>, ScenarioFault>
    requires { length bytes.now ≤ MOST_BYTES }
    ensures columns { IfOk result (λ _. lacks_column required (records_of bytes.now) ≡ false) }
    ensures records { IfOk result (λ t. records_of bytes.now ≡ fields_of t.header ∷ t.records) }
    ensures few { IfOk result (λ t. length t.records ≤ MOST_BYTES) }
    ensures fault { IfErr result (λ e. (e.what ≡ Memory)
        ⊎ ((lacks_column required (records_of bytes.now) ≡ true) × (e ≡ missing_column))) }
{
    match open_records(alloc, bytes, CHECKS.required) {
        Ok(file) => Ok(file),
        Err(HeaderFault::MissingColumn) => Err(ScenarioFault::missing_column()),
        Err(HeaderFault::Memory) => Err(ScenarioFault::from(AllocError)),
    }
}

/// Adds the edit of each record to a scenario.
#[derive(Clone, Copy)]
struct EditTaker<'a> {
    columns: EditColumns,
    feed: &'a Feed,
}

impl<'a> RecordTaker for EditTaker<'a> {
    ghost use Rattle.std.specs.Prelude.{◌≡◌, ◌+◌, [], length, map};
    ghost use Rattle.scenarios.specs.EditRows.{row_at};
    ghost use Rattle.scenarios.specs.Faults.{Tells};
    ghost use Rattle.scenarios.specs.Files.{edits_of, faults_from};

    type Table = Scenario;

    type Fault = ScenarioFault;

    ghost Makes = { λ s start records now. (faults_from s.feed.now 2 (map (row_at s.columns) records) ≡ [])
        × (now ≡ record start { edits = edits_of s.feed.now (map (row_at s.columns) records) }) };

    ghost Refuses = { λ s _ records e. Tells e (faults_from s.feed.now 2 (map (row_at s.columns) records)) };

    // a record adds one edit
    ghost HasRoom = { λ _ scenario at. at ≡ length scenario.edits + 2 };

    fn take(
        &self,
        _alloc: Global,
        scenario: &mut Scenario,
        at: u64,
        row: &ByteRecord,
    ) -> Result<(), ScenarioFault> {
        match edit_in(self.feed, self.columns, at, row) {
            Ok(edit) => Ok(scenario.add(edit)?),
            Err(what) => Err(ScenarioFault { at, what }),
        }
    }

    fn memory(&self) -> ScenarioFault {
        ScenarioFault::from(AllocError)
    }
}
