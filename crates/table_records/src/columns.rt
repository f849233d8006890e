//! Columns by name, and the fields of a record.

ghost use Rattle.std.specs.Prelude.{◌≡◌};
ghost use Rattle.csv.specs.Records.{fields_of};
ghost use Rattle.table_records.specs.Columns as spec;

use csv::ByteRecord;

/// The position of a column, from 0: the first one of a header that has this name.
///
/// The spaces around a header's field don't count; `name` has to be without them.
pub fn column(header: &ByteRecord, name: &[u8]) -> Option<usize>
    ensures { result ≡ spec.column (fields_of header.now) name.now }
{
    let mut i = 0;
    while let Some(text) = header.get(i) {
        if crate::fields::trim(text) == name {
            return Some(i);
        }
        i += 1;
    }
    None
}

/// The field of a record in a column. It is empty where the table has no such column, or the record ends before it.
pub fn field<'a>(row: &'a ByteRecord, column: Option<usize>) -> &'a [u8]
    ensures { result.now ≡ spec.field (fields_of row.now) column }
{
    // No record has a field in the last position of all: so the record alone is asked.
    match row.get(column.unwrap_or(usize::MAX)) {
        None => &[],
        Some(text) => text,
    }
}
