//! When tasks called the entries in whose queues they wait (RM 9.5.3).
ghost use Rattle.std.specs.Prelude.{◌≡◌, IfOk, length};
ghost use Rattle.tasking.specs.Held.{kernel_of};
ghost use Rattle.tracing.specs.Calls.{call_time, no_calls, with_call};

use clock::Delays;
use dispatch::Ready;
use machine::{Machine, Place};
use std::alloc::{AllocError, Global};

/// The most tasks and handlers that a run has.
pub const ACTORS: usize = 256;

/// No task has called an entry.
///
/// # Errors
/// Where memory was refused.
pub fn no_calls(alloc: Global) -> Result<Vec<i64>, AllocError>
    ensures { IfOk result (λ calls. calls.items ≡ no_calls ACTORS) }
{
    let mut calls = Vec::new(alloc);
    let mut count = 0;
    while count < ACTORS {
        calls.push(0)?;
        count += 1;
    }
    Ok(calls)
}

/// The time of the last call of a task that had to wait, in microseconds.
pub fn call_time(calls: &[i64], task: u8) -> i64
    ensures { result ≡ call_time calls.now task }
{
    match calls.get(usize::from(task)) {
        Some(time) => *time,
        None => 0,
    }
}

/// Notes the call of the task that ran, if it waits now.
pub fn note_call<R: Ready, D: Delays>(
    calls: &mut [i64],
    before: &Machine<'_, R, D>,
    after: &Machine<'_, R, D>,
)
    requires room { length calls.old ≡ ACTORS }
    ensures noted { let k = kernel_of before.now.tasking in calls.new ≡ with_call calls.old k.now k.running (kernel_of after.now.tasking).place }
    ensures room { length calls.new ≡ ACTORS }
{
    let Some(ran) = before.actor() else {
        return;
    };
    if let Place::Queued(_) = after.place_of_actor(ran) {
        calls[usize::from(ran)] = before.now();
    }
}
