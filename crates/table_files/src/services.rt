//! The services of a feed, numbered as they are first named.

ghost use Rattle.std.specs.Prelude.{◌≡◌, ◌≤◌, ◌+◌, ◌<◌, ◌^◌, ◌∷◌, [], length, IfOk};
ghost use Rattle.table_records.specs.Identifiers.{number_in};
ghost use Rattle.table_files.specs.Services.{named};

use std::alloc::{AllocError, Global};
use table_records::Identifiers;

/// No fewer than `calendar.txt` and `calendar_dates.txt` can name: a record of theirs names one, and a file has no more
/// records than bytes.
pub const MOST_DATED_SERVICES: usize = 2_147_483_650;

/// No fewer than a feed can have: `trips.txt` names one more for each of its trips.
pub const MOST_SERVICES: usize = 2_148_483_650;

/// The number of a service, which gets the next number if it is named for the first time. It is found fastest if it is
/// `likely` or the number after it.
pub fn number_service(
    alloc: Global,
    services: &mut Identifiers,
    id: &[u8],
    likely: u32,
) -> Result<u32, AllocError>
    requires { length services.old < 2 ^ 32 }
    ensures number { IfOk result (λ n. n ≡ number_in services.new id.now) }
    ensures named { IfOk result (λ _. services.new ≡ named services.old (id.now ∷ [])) }
    ensures few { IfOk result (λ _. length services.new ≤ length services.old + 1) }
{
    if let Some(number) = services.number_near(id, likely as usize) {
        return Ok(number as u32);
    }
    let number = services.len() as u32;
    services.push(alloc, id)?;
    Ok(number)
}
