//! What the next step of a task asks for beside the operation of an object: nothing changes.
ghost use Rattle.std.specs.Prelude.{◌≡◌, ◌≤◌, length};
ghost use Rattle.base.specs.declared.limits.TheConstants.{FRAME_WORDS};
ghost use Rattle.image_laws.specs.Shape.{IsSound};
ghost use Rattle.kernel.specs.State.{is_task};
ghost use Rattle.task_steps.specs.Asked.{asked_input, asked_value, asked_wait, asking_ahead, operation_asks};
ghost use Rattle.task_steps.specs.Stepping.{IsReadyFor};
ghost use Rattle.tasking.specs.Held.{kernel_of};
ghost use Rattle.tasking.specs.Orderly.{StandsThere};

use crate::foreseeing::top;
use crate::kernel_steps::input;
use crate::lookups::operation;
use base::arithmetic::Checked;
use clock::{Delays, Schedule};
use dispatch::Ready;
use image::Operation;
use image_laws::frames_have_room;
use processor::{Program, TaskState};
use tasking::Tasking;

/// What a step asks for beside the operation of an object.
#[derive(Clone, Copy, PartialEq, Eq, Debug)]
pub enum Asking {
    /// To wait until a time, in microseconds since the start, which may have passed (RM 9.6).
    Waits { until: i64 },
    /// The value of an input channel.
    Reads { channel: i64, value: i64 },
}

// The value of a channel, if there is such a channel.
fn asked_value(channel: i64, value: Checked) -> Option<Asking>
    ensures { result ≡ asked_value channel value }
{
    match value {
        Ok(value) => Some(Asking::Reads { channel, value }),
        Err(_) => None,
    }
}

// DLY.
fn asked_wait<R: Ready, D: Delays>(
    tasking: &Tasking<'_, R, D>,
    task: u8,
    state: &TaskState,
) -> Option<Asking>
    requires task { StandsThere (kernel_of tasking.now) task }
    requires there { 1 ≤ length state.now.task.frame.stack }
    requires few { length state.now.task.frame.stack ≤ FRAME_WORDS }
    ensures { result ≡ asked_wait (kernel_of tasking.now) task state.now.task.frame.stack }
{
    let until = top(state);
    if tasking.is_inside_any(task) {
        None
    } else {
        Some(Asking::Waits { until })
    }
}

// READ.
fn asked_input(schedule: &Schedule, now: i64, state: &TaskState) -> Option<Asking>
    requires there { 1 ≤ length state.now.task.frame.stack }
    requires few { length state.now.task.frame.stack ≤ FRAME_WORDS }
    ensures { result ≡ asked_input schedule.now now state.now.task.frame.stack }
{
    let channel = top(state);
    asked_value(channel, input(schedule, now, channel))
}

// What an operation asks for.
fn operation_asks<R: Ready, D: Delays>(
    program: &Program,
    schedule: &Schedule,
    tasking: &Tasking<'_, R, D>,
    task: u8,
    state: &TaskState,
    operation: Operation,
) -> Option<Asking>
    requires task { StandsThere (kernel_of tasking.now) task }
    requires here { IsReadyFor program.now state.now.task operation }
    ensures { result ≡ operation_asks schedule.now (kernel_of tasking.now) task state.now.task.frame.stack operation }
{
    match operation {
        Operation::DelayUntil => asked_wait(tasking, task, state),
        Operation::ReadInput => asked_input(schedule, tasking.now(), state),
        _ => None,
    }
}

/// What the next step of a task asks for beside the operation of an object, if it asks for anything, and raises nothing.
pub fn asking_ahead<R: Ready, D: Delays>(
    program: &Program,
    schedule: &Schedule,
    tasking: &Tasking<'_, R, D>,
    task: u8,
    state: &TaskState,
) -> Option<Asking>
    requires task { StandsThere (kernel_of tasking.now) task }
    requires sound { IsSound program.now (is_task (kernel_of tasking.now).partition task) state.now.task }
    ensures { result ≡ asking_ahead program.now schedule.now (kernel_of tasking.now) task state.now.task }
{
    frames_have_room();
    let _image = program.image();
    if state.raising().is_some() {
        return None;
    }
    let operation = operation(program, state)?;
    operation_asks(program, schedule, tasking, task, state, operation)
}
