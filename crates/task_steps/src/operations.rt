//! The operations that do more than to work on words of the running frame and shared ones, one by one.
ghost use Rattle.std.specs.Prelude.{◌≡◌, None, Some, length, option_map, slice_get, true};
ghost use Rattle.image.specs.Steps.{act};
ghost use Rattle.image_laws.specs.Room.{widest};
ghost use Rattle.image_laws.specs.Shape.{IsSound};
ghost use Rattle.kernel.specs.State.{is_task};
ghost use Rattle.processor.specs.Decoding.{is_left};
ghost use Rattle.task_steps.specs.Acting.{solo_in, stepped_of};
ghost use Rattle.task_steps.specs.Stepping.{DoesIn, IsReadyFor};
ghost use Rattle.tasking.specs.Held.{kernel_of};
ghost use Rattle.tasking.specs.Orderly.{StandsThere};

use crate::acts::Act;
use crate::blocks::{copy, load_block, store_block};
use crate::calls::{call, entry_call, protected_call};
use crate::kernel_steps::{check_blocking, clock, delay_until, put_line, raise_named, read_input};
use crate::memory::Memory;
use crate::returns::leave;
use clock::{Delays, Schedule};
use dispatch::Ready;
use image::Operation;
use image_laws::frames_have_room;
use processor::{Program, TaskState};
use tasking::Tasking;

/// Whether an operation is one of those.
pub(crate) fn is_left(operation: &Operation) -> bool
    ensures { result ≡ is_left operation.now }
{
    matches!(
        operation,
        Operation::LoadBlock { .. }
            | Operation::StoreBlock { .. }
            | Operation::Copy { .. }
            | Operation::Call(_)
            | Operation::ProtectedCall(_)
            | Operation::EntryCall(_)
            | Operation::Return
            | Operation::Raise
            | Operation::CheckBlocking
            | Operation::DelayUntil
            | Operation::PutLine(_)
            | Operation::ReadInput
            | Operation::Clock
    )
}

/// Does the operation of the running frame's instruction.
pub(crate) fn operate_here<R: Ready, D: Delays>(
    program: &Program,
    schedule: &Schedule,
    tasking: &Tasking<'_, R, D>,
    task: u8,
    state: &mut TaskState,
    memory: &mut Memory,
    operation: Operation,
) -> Act
    requires task { StandsThere (kernel_of tasking.now) task }
    requires objects { (kernel_of tasking.now).partition.objects ≡ length program.now.objects }
    requires sound { IsSound program.now (is_task (kernel_of tasking.now).partition task) state.old.task }
    requires quiet { state.old.task.raising ≡ None }
    requires here { Some operation ≡ option_map (λ x. x.operation) (slice_get program.now.instructions state.old.task.frame.place) }
    requires left { is_left operation ≡ true }
    requires width { state.old.width ≡ widest program.now }
    ensures does { act program.now schedule.now (kernel_of tasking.now) task (solo_in program.now memory.old state.old.task) ≡ stepped_of program.now result
        memory.new state.new.task }
    ensures width { state.new.width ≡ state.old.width }
{
    frames_have_room();
    let _image = program.image();
    operate(program, schedule, tasking, task, state, memory, operation)
}

// Does an operation.
fn operate<R: Ready, D: Delays>(
    program: &Program,
    schedule: &Schedule,
    tasking: &Tasking<'_, R, D>,
    task: u8,
    state: &mut TaskState,
    memory: &mut Memory,
    operation: Operation,
) -> Act
    requires task { StandsThere (kernel_of tasking.now) task }
    requires objects { (kernel_of tasking.now).partition.objects ≡ length program.now.objects }
    requires here { IsReadyFor program.now state.old.task operation }
    requires left { is_left operation ≡ true }
    requires width { state.old.width ≡ widest program.now }
    ensures does { DoesIn program.now operation state.old.task memory.old result memory.new state.new.task schedule.now (kernel_of tasking.now) task }
    ensures width { state.new.width ≡ state.old.width }
{
    match operation {
        Operation::LoadBlock { region, words } => load_block(program, state, memory, region, words),
        Operation::StoreBlock { region, words } => {
            store_block(program, state, memory, region, words)
        }
        Operation::Copy {
            target,
            source,
            words,
        } => copy(program, state, memory, target, source, words),
        Operation::Call(number) => call(program, tasking.is_task(task), state, memory, number),
        Operation::ProtectedCall(number) => {
            protected_call(program, tasking, task, state, memory, number)
        }
        Operation::EntryCall(object) => entry_call(program, tasking, task, state, memory, object),
        Operation::Return => leave(program, state, memory),
        Operation::Raise => raise_named(program, state, memory),
        Operation::CheckBlocking => check_blocking(program, tasking, task, state, memory),
        Operation::DelayUntil => delay_until(program, tasking, task, state, memory),
        Operation::PutLine(label) => put_line(program, state, memory, label),
        Operation::ReadInput => read_input(program, schedule, tasking, state, memory),
        Operation::Clock => clock(program, tasking, state, memory),
        _ => unreachable!(),
    }
}
