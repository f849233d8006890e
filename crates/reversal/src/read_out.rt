//! [`until_served`]: the duration that the labels of deadlines give for one start.
ghost use Rattle.std.specs.Prelude.{◌≡◌, length};
ghost use Rattle.reversal.specs.ReadOut.{until_served};

use timetable::NEVER;

/// Returns the seconds until the first searched deadline that serves a traveller who starts at `start`, or `NEVER`.
///
/// `deadlines` ascend, and each has its label, a duration in the mirrored network.
pub fn until_served(deadlines: &[u32], labels: &[u32], start: u32) -> u32
    requires { length labels.now ≡ length deadlines.now }
    ensures { result ≡ until_served deadlines.now labels.now start }
{
    for j in 0..deadlines.len() {
        if labels[j] <= deadlines[j] && start <= deadlines[j] - labels[j] {
            return deadlines[j] - start;
        }
    }
    NEVER
}
