//! How a run is left: who runs, and who waits since when and where.
ghost use Rattle.std.specs.Prelude.{◌≡◌, ◌+◌, ◌≤◌, ◌++◌, IfOk, OnOk, length};
ghost use Rattle.endings.specs.LastSteps.{IsLastWorld, running_by, waiting_from, waiting_if};
ghost use Rattle.execution.specs.Ahead.{next_address};
ghost use Rattle.execution.specs.Held.{world_of};
ghost use Rattle.tasking.specs.Held.{kernel_of, place_of};

use crate::last_steps::{LastStep, follow, last_step, no_steps};
use clock::{Delays, HeapDelays, Schedule};
use dispatch::{Ready, RingReady};
use image::Image;
use machine::{Machine, Place, Steps};
use std::alloc::{AllocError, Global};
use std::sync::ledger::Ledger;

/// An actor that runs.
#[derive(Clone, Copy, PartialEq, Eq, Debug)]
pub struct Running {
    /// Its number: that of a task, or beyond the tasks that of the handler of an interrupt.
    pub actor: u8,
    /// The address of the instruction that its next step does.
    pub address: u16,
}

/// A task that waits in the queue of an entry (RM 9.5.3).
#[derive(Clone, Copy, PartialEq, Eq, Debug)]
pub struct Waiting {
    /// Its number.
    pub task: u8,
    /// The number of the object.
    pub object: u8,
    /// Its last step, by which it called the entry.
    pub call: LastStep,
}

/// How a run is left after its steps, or by its outcome.
#[derive(Drop)]
pub struct LastWorld {
    /// Who runs, unless there is an outcome.
    pub running: Option<Running>,
    /// The tasks that wait in queues, by their numbers.
    pub waiting: Vec<Waiting>,
    /// The time after the last step, in microseconds.
    pub time: i64,
    /// The time after half of the steps.
    pub middle: i64,
}

// Who runs.
fn runner_of<R: Ready, D: Delays>(machine: &Machine<'_, R, D>) -> Option<Running>
    ensures { result ≡ running_by (kernel_of machine.now.tasking).running (next_address (world_of machine.now)) }
{
    match (machine.actor(), machine.address_ahead()) {
        (Some(actor), Some(address)) => Some(Running { actor, address }),
        _ => None,
    }
}

// Adds the task where it waits in a queue.
fn push_waiting(
    waiting: &mut Vec<Waiting>,
    task: u8,
    place: Place,
    last: Option<LastStep>,
) -> Result<(), AllocError>
    ensures { OnOk result (waiting.new.items ≡ waiting.old.items ++ waiting_if task (place_of place) last) }
{
    if let (Place::Queued(object), Some(call)) = (place, last) {
        waiting.push(Waiting { task, object, call })?;
    }
    Ok(())
}

// The tasks that wait in queues.
fn waiting_in<R: Ready, D: Delays>(
    alloc: Global,
    machine: &Machine<'_, R, D>,
    lasts: &[Option<LastStep>],
) -> Result<Vec<Waiting>, AllocError>
    ensures { IfOk result (λ waiting. waiting.items ≡ waiting_from (kernel_of machine.now.tasking).place lasts.now 0 (length machine.now.image.tasks)) }
{
    let mut waiting = Vec::new(alloc);
    for task in 0..machine.tasks() {
        let place = machine.place_of_actor(task);
        push_waiting(&mut waiting, task, place, last_step(lasts, task))?;
    }
    Ok(waiting)
}

/// The end of a run of an image, for at most `limit` steps: the task that runs, each that waits in a queue, since when and by which call, and whether the
/// clock moved at last. The steps of a machine, at most `limit`, are counted.
///
/// # Errors
/// Where memory was refused.
pub fn last_world<L: Ledger>(
    alloc: Global,
    image: &Image,
    schedule: &Schedule,
    limit: u64,
    steps: &mut Steps<L>,
) -> Result<LastWorld, AllocError>
    ensures world { IfOk result (λ last. IsLastWorld image.now schedule.now limit last) }
    ensures count { steps.new ≤ steps.old + limit }
{
    let Ok(mut machine) = Machine::<'_, RingReady, HeapDelays>::start(alloc, image, schedule) else {
        return Err(AllocError);
    };
    let mut lasts = no_steps(alloc)?;
    follow(&mut machine, &mut lasts, limit / 2, steps);
    let middle = machine.now();
    follow(&mut machine, &mut lasts, limit - limit / 2, steps);
    Ok(LastWorld {
        running: runner_of(&machine),
        waiting: waiting_in(alloc, &machine, &lasts)?,
        time: machine.now(),
        middle,
    })
}
