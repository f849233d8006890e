//! The durations from one origin to a destination, for each departure of a window, deadline by deadline.
ghost use Rattle.std.specs.Prelude.{◌≡◌, ◌+◌, ◌≤◌, ◌<◌, ◌++◌, ℕ, [], List, IfOk, length, map, min};
ghost use Rattle.rounds.specs.Window.{Fits, departure};
ghost use Rattle.to_here.specs.Front.{IsFilled, IsFront, IsFrontOf};

use rounds::Window;
use std::alloc::{AllocError, Global};
use timetable::NEVER;

/// Returns how many departures of the window a deadline serves, given its label. They are the first ones.
pub fn front_of(window: Window, deadline: u32, label: u32) -> u32
    requires { Fits window }
    ensures { IsFrontOf window deadline label result }
{
    if deadline < label || deadline - label < window.first {
        return 0;
    }
    let departures = (deadline - label - window.first) / 60 + 1;
    if departures < window.minutes {
        departures
    } else {
        window.minutes
    }
}

/// Returns the durations of a window before any deadline was searched: `NEVER` for each departure. Out of memory is the
/// only error.
pub fn no_durations(alloc: Global, window: Window) -> Result<Vec<u32>, AllocError>
    ensures { IfOk result (λ durations. IsFront window [] [] 0 durations.items) }
{
    vec![in alloc; NEVER; window.minutes as usize]
}

/// Takes the labels of further deadlines, in ascending order, and returns the new front.
///
/// `front` is the front of the deadlines before these. On entry, `durations` has the durations of the departures that
/// it passed, and `NEVER` for the others; on return, those that the new front passed. Takes one step for each deadline,
/// and one for each departure that is served for the first time.
pub fn advance(
    window: Window,
    deadlines: &[u32],
    labels: &[u32],
    front: u32,
    durations: &mut [u32],
) -> u32
    requires fits { Fits window }
    requires labels { length labels.now ≡ length deadlines.now }
    requires minutes { length durations.old ≡ window.minutes }
    requires front { front ≤ window.minutes }
    ensures within { result ≤ window.minutes }
    ensures front { (before labels_before : List ℕ) →
        IsFront window before labels_before front durations.old →
        IsFront window (before ++ deadlines.now) (labels_before ++ labels.now) result durations.new }
{
    let mut front = front;
    for j in 0..deadlines.len() {
        front = serve(window, deadlines[j], labels[j], front, durations);
    }
    front
}

/// Takes the label of one deadline, and returns the new front.
fn serve(window: Window, deadline: u32, label: u32, front: u32, durations: &mut [u32]) -> u32
    requires fits { Fits window }
    requires minutes { length durations.old ≡ window.minutes }
    requires front { front ≤ window.minutes }
    ensures within { (front ≤ result) × (result ≤ window.minutes) }
    ensures served { (m : ℕ) → front ≤ m → m < result → departure window m + label ≤ deadline }
    ensures unserved { (m : ℕ) → result ≤ m → m < window.minutes → deadline < departure window m + label }
    ensures durations { IsFilled window deadline front result durations.old durations.new }
{
    let to = front_of(window, deadline, label);
    if to <= front {
        return front;
    }
    fill(window, deadline, front, to, durations);
    to
}

/// Writes the seconds from each of these departures to the deadline.
fn fill(window: Window, deadline: u32, from: u32, to: u32, durations: &mut [u32])
    requires fits { Fits window }
    requires minutes { length durations.old ≡ window.minutes }
    requires order { from ≤ to }
    requires to { to ≤ window.minutes }
    requires served { (m : ℕ) → m < to → departure window m ≤ deadline }
    ensures { IsFilled window deadline from to durations.old durations.new }
{
    for m in from..to {
        durations[m as usize] = deadline - (window.first + 60 * m);
    }
}

/// Lowers each duration to the seconds of a walk alone, which may be `NEVER`.
pub fn lower_to_walk(durations: &mut [u32], walk: u32)
    ensures { durations.new ≡ map (min walk) durations.old }
{
    for m in 0..durations.len() {
        let duration = durations[m];
        durations[m] = if walk < duration { walk } else { duration };
    }
}
