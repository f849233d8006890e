//! Workers in threads: started together, and joined.
ghost use Rattle.std.specs.Prelude.{◌≡◌, ◌+◌, ◌≤◌, [], All, IfErr, IfOk, OnOk, vec_len, vec_capacity};

use crate::task::{Promised, Task};
use crate::worker::Worked;
use std::alloc::{AllocError, Global};
use std::sync::Wait;
use std::sync::atomic::{AtomicUsize, Ordering};
use std::thread;
use std::thread::{PromisedHandle, Scope, SpawnError, Threads};
use work_book::WorkSeat;

/// Does a task with each seat, in a thread of its own, all at once. Each seat comes back; one whose thread couldn't be
/// started comes back unused.
pub(crate) fn do_all<T: Task + Sync, R: Threads + Wait + Sync>(
    rt: &R,
    alloc: Global,
    task: &T,
    seats: Vec<WorkSeat>,
) -> Result<Vec<Worked>, AllocError>
    requires { All (λ seat. T.takes task.now seat) seats.items }
    ensures given { IfOk result (λ all. All (λ worked. T.gives task.now worked) all.items) }
    ensures count { IfOk result (λ all. vec_len all ≡ vec_len seats) }
{
    let refused = AtomicUsize::new(usize::MAX);
    let refused = &refused;
    thread::scope(
        thread::scope_env(),
        rt,
        move |scope| -> Result<Vec<Worked>, AllocError>
            requires { All (λ seat. T.takes task.now seat) seats.items }
            ensures given { IfOk result (λ all. All (λ worked. T.gives task.entry.now worked) all.items) }
            ensures count { IfOk result (λ all. vec_len all ≡ vec_len seats) }
        {
            let mut done = Vec::with_capacity(alloc, seats.len())?;
            let handles = start_all(scope, alloc, task, refused, seats, &mut done)?;
            Ok(join_all(rt, task, handles, done))
        },
    )
}

/// Starts a thread for each seat. Where that is refused, what is given back goes to `done`, and the next is started.
fn start_all<'s, 'a: 's, T: Task + Sync, E>(
    scope: &Scope<'s, E>,
    alloc: Global,
    task: &'a T,
    refused: &'a AtomicUsize,
    seats: Vec<WorkSeat>,
    done: &mut Vec<Worked>,
) -> Result<Vec<PromisedHandle<Worked, Promised<'a, T>>>, AllocError>
    requires takes { All (λ seat. T.takes task.now seat) seats.items }
    requires none { done.old.items ≡ [] }
    requires room { vec_len seats ≤ vec_capacity done.old }
    ensures promised { IfOk result (λ handles. All (λ handle. handle.promise.task.now ≡ task.now) handles.items) }
    ensures left { OnOk result (All (λ worked. T.gives task.now worked) done.new.items) }
    ensures count { IfOk result (λ handles. vec_len handles + vec_len done.new ≡ vec_len seats) }
    ensures room { OnOk result (vec_len seats ≤ vec_capacity done.new) }
{
    let mut handles = Vec::with_capacity(alloc, seats.len())?;
    for seat in seats {
        let number = handles.len() + done.len();
        match start(scope, task, refused, number, seat) {
            Ok(handle) => handles.push_reserved(handle),
            Err(left) => done.push_reserved(left),
        }
    }
    Ok(handles)
}

/// Starts a thread, which has a number of its own. Where that is refused, the number is noted, and the closure that
/// comes back gives its seat back.
fn start<'s, 'a: 's, T: Task + Sync, E>(
    scope: &Scope<'s, E>,
    task: &'a T,
    refused: &'a AtomicUsize,
    number: usize,
    seat: WorkSeat,
) -> Result<PromisedHandle<Worked, Promised<'a, T>>, Worked>
    requires { T.takes task.now seat }
    ensures promised { IfOk result (λ handle. handle.promise.task.now ≡ task.now) }
    ensures left { IfErr result (λ worked. T.gives task.now worked) }
{
    let started = scope.spawn_with(
        Promised { task },
        move || -> Worked
            requires { T.takes task.now seat }
            ensures { T.gives task.entry.now result }
        {
            if refused.load(Ordering::SeqCst) == number {
                task.leave(seat)
            } else {
                task.run(seat)
            }
        },
    );
    match started {
        Ok(handle) => Ok(handle),
        Err(SpawnError { value: closure }) => {
            refused.store(number, Ordering::SeqCst);
            Err(closure())
        }
    }
}

/// Joins each thread, and puts what it gives back last.
fn join_all<'a, T: Task, R: Threads>(
    rt: &R,
    task: &'a T,
    handles: Vec<PromisedHandle<Worked, Promised<'a, T>>>,
    mut done: Vec<Worked>,
) -> Vec<Worked>
    requires room { vec_len done + vec_len handles ≤ vec_capacity done }
    requires worked { All (λ worked. T.gives task.now worked) done.items }
    requires promised { All (λ handle. handle.promise.task.now ≡ task.now) handles.items }
    ensures worked { All (λ worked. T.gives task.now worked) result.items }
    ensures len { vec_len result ≡ vec_len done + vec_len handles.entry }
{
    for handle in handles {
        done.push_reserved(handle.join(rt));
    }
    done
}
