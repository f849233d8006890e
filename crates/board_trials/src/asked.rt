//! What the arguments ask for.
ghost use Rattle.std.specs.Prelude.{◌≤◌, IfSome};

use crate::workers::Task;

/// A trial: what each thread does, and at which board.
#[derive(Clone, Copy)]
pub(crate) struct Asked {
    pub task: Task,
    pub jobs: u32,
    pub tries: u32,
    pub threads: u32,
}

/// The trial that the arguments ask for, after the program's name. None where they ask for none within the limits.
pub(crate) fn read(words: &[String]) -> Option<Asked>
    ensures jobs { IfSome result (λ asked. asked.jobs ≤ 1048560) }
    ensures tries { IfSome result (λ asked. (1 ≤ asked.tries) × (asked.tries ≤ 8)) }
    ensures threads { IfSome result (λ asked. asked.threads ≤ 64) }
{
    if words.len() != 5 {
        return None;
    }
    let task = task(words[1].as_str())?;
    let jobs = within(words[2].as_str(), 0, 1_048_560)?;
    let tries = within(words[3].as_str(), 1, 8)?;
    let threads = within(words[4].as_str(), 0, 64)?;
    Some(Asked {
        task,
        jobs,
        tries,
        threads,
    })
}

fn task(word: &str) -> Option<Task> {
    match word {
        "draw" => Some(Task::Draw),
        "settle" => Some(Task::Settle),
        _ => None,
    }
}

// A number that is neither too low nor too high.
fn within(word: &str, least: u32, most: u32) -> Option<u32>
    ensures { IfSome result (λ n. (least ≤ n) × (n ≤ most)) }
{
    let number = word.parse::<u32>().ok()?;
    if least <= number && number <= most {
        Some(number)
    } else {
        None
    }
}
