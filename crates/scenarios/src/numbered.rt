//! Values by the number of a route or trip. Past the end of a list each has its first value: no edit has changed it.
ghost use Rattle.std.specs.Prelude.{◌≡◌, ◌<◌, ◌==◌, ◌||◌, ◌+ℤ◌, ℕ, OnOk, pos, false, slice_index_or, vec_len};
ghost use Rattle.std.specs.Prelude.{if◌then◌else◌};
ghost use Rattle.scenarios.specs.Moving.{IsSum};

use std::alloc::AllocError;

/// The flag at a number, which is not set past the end.
pub(crate) fn flag_at(flags: &[bool], number: u32) -> bool
    ensures { result ≡ slice_index_or flags.now number false }
{
    flags.get(number as usize).copied().unwrap_or(false)
}

/// Sets the flag at a number.
pub(crate) fn raise_flag(flags: &mut Vec<bool>, number: u32) -> Result<(), AllocError>
    ensures { OnOk result ((k : ℕ) → slice_index_or flags.new.items k false
        ≡ (slice_index_or flags.old.items k false || (number == k))) }
{
    make_room(flags, number, false)?;
    flags[number as usize] = true;
    Ok(())
}

/// Adds seconds to the shift at a number of the list.
pub(crate) fn add_shift(shifts: &mut Vec<i64>, number: u32, seconds: i64)
    requires there { number < vec_len shifts.old }
    requires shift { IsSum (slice_index_or shifts.old.items number (pos 0)) }
    requires seconds { IsSum seconds }
    ensures { (k : ℕ) → slice_index_or shifts.new.items k (pos 0)
        ≡ slice_index_or shifts.old.items k (pos 0) +ℤ (if number == k then seconds else pos 0) }
{
    shifts[number as usize] += seconds;
}

/// Makes a list long enough to have a number. No value changes: those past its end were `none`.
pub(crate) fn make_room<T: Copy>(items: &mut Vec<T>, number: u32, none: T) -> Result<(), AllocError>
    ensures there { OnOk result (number < vec_len items.new) }
    ensures same { (k : ℕ) → slice_index_or items.new.items k none ≡ slice_index_or items.old.items k none }
{
    if (number as usize) < items.len() {
        return Ok(());
    }
    items.resize(number as usize + 1, none)
}
