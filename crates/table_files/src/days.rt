//! Fields that choose one of two values.

ghost use Rattle.std.specs.Prelude.{◌≡◌};
ghost use Rattle.table_records.specs.Fields.{trimmed};
ghost use Rattle.table_files.specs.Days.{flag_of, adds_of};

use table_records::{number, trim};

/// Whether a service runs on a weekday: 1 where it does, 0 where it doesn't.
pub fn read_flag(text: &[u8]) -> Option<bool>
    ensures { result ≡ flag_of (trimmed text.now) }
{
    match number(trim(text)) {
        Some(0) => Some(false),
        Some(1) => Some(true),
        _ => None,
    }
}

/// Whether an exception adds its date: 1 where it does, 2 where it removes the date.
pub fn read_adds(text: &[u8]) -> Option<bool>
    ensures { result ≡ adds_of (trimmed text.now) }
{
    match number(trim(text)) {
        Some(1) => Some(true),
        Some(2) => Some(false),
        _ => None,
    }
}
