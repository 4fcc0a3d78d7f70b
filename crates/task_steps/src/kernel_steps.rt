//! Steps that ask the kernel, or report to it: what may block, `delay until`, lines, input and the clock.
ghost use Rattle.std.specs.Prelude.{◌≡◌, ◌<◌, ◌≤◌, ◌+◌, ◌∷◌, ℕ, IfSome, List, None, drop, is_some, length};
ghost use Rattle.base.specs.Exceptions.{number_of};
ghost use Rattle.base.specs.declared.exceptions.PredefinedException.TheVariants.{ProgramError};
ghost use Rattle.base.specs.declared.limits.TheConstants.{FRAME_WORDS};
ghost use Rattle.base.specs.declared.schedule.ScheduleLine.{ScheduleLine};
ghost use Rattle.image.specs.Scalars.{input_of};
ghost use Rattle.image.specs.Steps.{unwind};
ghost use Rattle.image.specs.declared.instruction.Operation.TheVariants as operations;
ghost use Rattle.image_laws.specs.Room.{widest};
ghost use Rattle.kernel.specs.Effects.{is_inside_any};
ghost use Rattle.kernel.specs.State.{Kernel};
ghost use Rattle.processor.specs.Decoding.{words_in};
ghost use Rattle.task_steps.specs.Acting.{stepped_of};
ghost use Rattle.task_steps.specs.Stepping.{Does, DoesIn, IsReadyFor, MayRaise};
ghost use Rattle.tasking.specs.Held.{kernel_of};
ghost use Rattle.tasking.specs.Orderly.{StandsThere};

use crate::acts::{Act, Effect};
use crate::lookups;
use crate::memory::Memory;
use crate::raising::{raise, raise_predefined};
use base::PredefinedException;
use base::arithmetic::Checked;
use base::limits::CHANNELS;
use clock::{Delays, Schedule};
use dispatch::Ready;
use processor::{Program, TaskState};
use tasking::Tasking;

// What may block raises Program_Error inside an action (RM 9.5.1, H.5).
fn refuse_inside<R: Ready, D: Delays>(
    program: &Program,
    tasking: &Tasking<'_, R, D>,
    task: u8,
    state: &mut TaskState,
    memory: &Memory,
) -> Option<Act>
    requires task { StandsThere (kernel_of tasking.now) task }
    requires raises { MayRaise program.now state.old.task }
    requires width { state.old.width ≡ widest program.now }
    ensures inside { is_some result ≡ is_inside_any (kernel_of tasking.now) task }
    ensures refused { IfSome result (λ act. unwind program.now (words_in program.now memory.now.shared) (number_of ProgramError) state.old.task.frame
        state.old.task.callers ≡ stepped_of program.now act memory.now state.new.task) }
    ensures passed { result ≡ None → state.new.task ≡ state.old.task }
    ensures width { state.new.width ≡ state.old.width }
{
    if tasking.is_inside_any(task) {
        Some(raise_predefined(program, state, memory, PredefinedException::ProgramError))
    } else {
        None
    }
}

/// BLK.
pub(crate) fn check_blocking<R: Ready, D: Delays>(
    program: &Program,
    tasking: &Tasking<'_, R, D>,
    task: u8,
    state: &mut TaskState,
    memory: &Memory,
) -> Act
    requires task { StandsThere (kernel_of tasking.now) task }
    requires here { IsReadyFor program.now state.old.task operations.CheckBlocking }
    requires width { state.old.width ≡ widest program.now }
    ensures does { (schedule : List ScheduleLine) → DoesIn program.now operations.CheckBlocking state.old.task memory.now result memory.now state.new.task
        schedule (kernel_of tasking.now) task }
    ensures width { state.new.width ≡ state.old.width }
{
    if let Some(act) = refuse_inside(program, tasking, task, state, memory) {
        return act;
    }
    state.advance();
    Act::of(Effect::Quiet)
}

/// DLY.
pub(crate) fn delay_until<R: Ready, D: Delays>(
    program: &Program,
    tasking: &Tasking<'_, R, D>,
    task: u8,
    state: &mut TaskState,
    memory: &Memory,
) -> Act
    requires task { StandsThere (kernel_of tasking.now) task }
    requires here { IsReadyFor program.now state.old.task operations.DelayUntil }
    requires width { state.old.width ≡ widest program.now }
    ensures does { (schedule : List ScheduleLine) → DoesIn program.now operations.DelayUntil state.old.task memory.now result memory.now state.new.task schedule
        (kernel_of tasking.now) task }
    ensures width { state.new.width ≡ state.old.width }
{
    if let Some(act) = refuse_inside(program, tasking, task, state, memory) {
        return act;
    }
    let until = state.pop();
    state.advance();
    Act::of(Effect::Delays { until })
}

/// PUT.
pub(crate) fn put_line(program: &Program, state: &mut TaskState, memory: &Memory, label: u16) -> Act
    requires { IsReadyFor program.now state.old.task (operations.PutLine label) }
    ensures does { Does program.now (operations.PutLine label) state.old.task memory.now result memory.now state.new.task }
    ensures width { state.new.width ≡ state.old.width }
{
    let value = state.pop();
    state.advance();
    Act::of(Effect::Says { label, value })
}

/// READ.
pub(crate) fn read_input<R: Ready, D: Delays>(
    program: &Program,
    schedule: &Schedule,
    tasking: &Tasking<'_, R, D>,
    state: &mut TaskState,
    memory: &Memory,
) -> Act
    requires here { IsReadyFor program.now state.old.task operations.ReadInput }
    requires width { state.old.width ≡ widest program.now }
    ensures does { (t : ℕ) → DoesIn program.now operations.ReadInput state.old.task memory.now result memory.now state.new.task schedule.now
        (kernel_of tasking.now) t }
    ensures width { state.new.width ≡ state.old.width }
{
    let channel = operand(state, 0);
    match input(schedule, tasking.now(), channel) {
        Ok(value) => {
            state.drop_top(1);
            state.push(value);
            state.advance();
            Act::of(Effect::Quiet)
        }
        Err(exception) => raise_predefined(program, state, memory, exception),
    }
}

/// The input of a channel at a time, where there is a channel of this number.
pub(crate) fn input(schedule: &Schedule, now: i64, channel: i64) -> Checked
    ensures { result ≡ input_of schedule.now now channel }
{
    match u8::try_from(channel) {
        Ok(number) if 1 <= number && number <= CHANNELS => Ok(schedule.value(number, now)),
        _ => Err(PredefinedException::ConstraintError),
    }
}

/// CLK.
pub(crate) fn clock<R: Ready, D: Delays>(
    program: &Program,
    tasking: &Tasking<'_, R, D>,
    state: &mut TaskState,
    memory: &Memory,
) -> Act
    requires here { IsReadyFor program.now state.old.task operations.Clock }
    requires width { state.old.width ≡ widest program.now }
    ensures does { (schedule : List ScheduleLine) (t : ℕ) → DoesIn program.now operations.Clock state.old.task memory.now result memory.now state.new.task
        schedule (kernel_of tasking.now) t }
    ensures width { state.new.width ≡ state.old.width }
{
    state.push(tasking.now());
    state.advance();
    Act::of(Effect::Quiet)
}

/// RAISE: the exception that the top word names.
pub(crate) fn raise_named(program: &Program, state: &mut TaskState, memory: &Memory) -> Act
    requires here { IsReadyFor program.now state.old.task operations.Raise }
    requires width { state.old.width ≡ widest program.now }
    ensures does { Does program.now operations.Raise state.old.task memory.now result memory.now state.new.task }
    ensures width { state.new.width ≡ state.old.width }
{
    let number = operand(state, 0);
    match lookups::exception(program, number) {
        Some(exception) => raise(program, state, memory, exception),
        None => Act::of(Effect::Breaks),
    }
}

/// The word of the operand stack with so many above it.
pub(crate) fn operand(state: &TaskState, above: u16) -> i64
    requires there { above < length state.now.task.frame.stack }
    requires few { length state.now.task.frame.stack ≤ FRAME_WORDS }
    ensures { drop above state.now.task.frame.stack ≡ result ∷ drop (above + 1) state.now.task.frame.stack }
{
    state.top(above + 1)[0]
}
