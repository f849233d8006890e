//! The routes of a feed: `routes.txt`.

ghost use Rattle.std.specs.Prelude.{◌≡◌, ◌≤◌, [], length, map, IfOk, IfErr};
ghost use Rattle.csv.specs.Records.{fields_of};
ghost use Rattle.table_records.specs.Checks.{Explains};
ghost use Rattle.table_records.specs.Faults.{Tells};
ghost use Rattle.table_records.specs.declared.limits.TheConstants.{MOST_BYTES};
ghost use Rattle.table_files.specs.Routes as spec;
ghost use Rattle.table_files.specs.Routes.{columns_of, route_faults, route_ids};

use csv::ByteRecord;
use std::alloc::Global;
use table_records::{
    Check, Checks, FeedFault, FileName, Identifiers, RecordReader, Rule, What, column, field,
    open_table, read_records,
};

/// The checks; [`route_checks`] says what holds of them.
const CHECKS: Checks = Checks {
    required: &[b"route_id"],
    fields: &[
        Check(b"route_id", Rule::Filled, What::EmptyId),
        Check(b"route_id", Rule::Once, What::DuplicateId),
    ],
};

/// What is checked of `routes.txt`: each fault of a record is that of a check.
pub fn route_checks() -> Checks
    ensures required { map (λ name. name.now) result.required.now ≡ spec.required }
    ensures explains { Explains result.fields.now spec.row_of spec.checks }
{
    CHECKS
}

/// The columns of `routes.txt` that are read.
#[derive(Clone, Copy)]
pub struct RouteColumns {
    pub id: Option<usize>,
}

impl RecordReader for RouteColumns {
    ghost use Rattle.std.specs.Prelude.{◌≡◌, ◌≤◌, ◌+◌, length};
    ghost use Rattle.table_records.specs.declared.fault.FileName.TheVariants.{Routes};
    ghost use Rattle.table_files.specs.Routes.{RouteRow, row_at, checks, routes_of};

    type Table = Identifiers;

    ghost Row = { RouteRow };

    ghost file = { Routes };

    ghost row_of = { row_at };

    ghost checks = { λ _. checks };

    ghost After = { λ _ _ rows now. now ≡ routes_of rows };

    ghost HasRoom = { λ _ table at. length table + 2 ≤ at };

    fn add(
        &self,
        alloc: Global,
        table: &mut Identifiers,
        at: u64,
        row: &ByteRecord,
    ) -> Result<(), FeedFault> {
        let id = field(row, self.id);
        if id.is_empty() {
            return Err(FeedFault::at(FileName::Routes, at, What::EmptyId));
        }
        if !table.push(alloc, id)? {
            return Err(FeedFault::at(FileName::Routes, at, What::DuplicateId));
        }
        Ok(())
    }
}

/// The columns that a header names.
fn columns_in(header: &ByteRecord) -> RouteColumns
    ensures { result ≡ columns_of (fields_of header.now) }
{
    RouteColumns {
        id: column(header, b"route_id"),
    }
}

/// The identifiers of the routes that `routes.txt` names, in file order.
///
/// The bytes are at most 2^30, the limit of an input file.
pub fn read_routes(alloc: Global, bytes: &[u8]) -> Result<Identifiers, FeedFault>
    requires { length bytes.now ≤ MOST_BYTES }
    ensures good { IfOk result (λ ids. (route_faults bytes.now ≡ []) × (ids ≡ route_ids bytes.now)) }
    ensures few { IfOk result (λ ids. length ids ≤ MOST_BYTES) }
    ensures fault { IfErr result (λ e. Tells e (route_faults bytes.now)) }
{
    let mut file = open_table(alloc, bytes, FileName::Routes, CHECKS.required)?;
    let mut ids = Identifiers::new(alloc);
    let read = read_records(
        alloc,
        &columns_in(&file.header),
        &mut ids,
        &mut file.records,
    );
    drop(file);
    read.and(Ok(ids))
}
