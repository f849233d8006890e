//! How large a file may be. The limit is itself allowed.

ghost use Rattle.std.specs.Prelude.{◌≡◌};
ghost use Rattle.table_records.specs.declared.limits.TheConstants as limit;

/// The most bytes of an input file.
pub const MOST_BYTES: usize = 1_073_741_824;

/// A law: the limit in numbers.
pub fn limits_are_as_stated()
    ensures { limit.MOST_BYTES ≡ 1073741824 }
{}
