//! What the next step of a task raises, and what refuses what it asks for: nothing changes.
ghost use Rattle.std.specs.Prelude.{◌≡◌, ◌<◌, ◌≤◌, ◌∷◌, None, Some, drop, length, option_map, slice_get};
ghost use Rattle.base.specs.Exceptions.{number_of};
ghost use Rattle.base.specs.declared.limits.TheConstants.{FRAME_WORDS};
ghost use Rattle.image.specs.Frames.{frames_counted, frames_in_use};
ghost use Rattle.image.specs.Operations.{called, entry_of};
ghost use Rattle.image.specs.Scalars.{in_bounds};
ghost use Rattle.image.specs.declared.instruction.Operation.TheVariants as operations;
ghost use Rattle.image_laws.specs.Shape.{IsSound};
ghost use Rattle.kernel.specs.State.{is_task};
ghost use Rattle.processor.specs.Decoding.{words_in};
ghost use Rattle.task_steps.specs.Acting.{solo_in};
ghost use Rattle.task_steps.specs.Foreseen.{failure, of_blocking, of_call, of_entry, of_operation, of_protected, of_three, with_frame, word_failure, words_failure};
ghost use Rattle.task_steps.specs.Raised.{blocking_cause, cause_here, entry_cause, operation_cause, protected_cause, raised, raising_ahead, where_refused};
ghost use Rattle.task_steps.specs.Stepping.{IsExternal, IsReadyFor};
ghost use Rattle.tasking.specs.Held.{kernel_of};
ghost use Rattle.tasking.specs.Orderly.{StandsThere};

use crate::calls::{external_object, is_refused};
use crate::kernel_steps::{input, operand};
use crate::lookups::{called, entry, exception, is_full, object_number, operation};
use crate::memory::Memory;
use base::PredefinedException;
use base::arithmetic::{
    Checked, absolute, add, divide, modulus, multiply, negate, remainder, subtract,
};
use clock::{Delays, Schedule};
use dispatch::Ready;
use image::Operation;
use image_laws::frames_have_room;
use processor::{Program, TaskState};
use tasking::{Refusal, Tasking};

/// Why a step raises Program_Error: the kernel refuses what it asks for. Objects are their numbers in the image.
#[derive(Clone, Copy, PartialEq, Eq, Debug)]
pub enum Cause {
    /// The task calls an operation of an object that it is inside already (RM 9.5.1).
    InsideObject { object: u8 },
    /// Its active priority is above the ceiling of the object that it calls (RM D.3).
    AboveCeiling { object: u8 },
    /// It calls an entry inside an action (RM 9.5.1).
    InsideAction { object: u8 },
    /// A call waits in the queue of the entry already (RM D.7).
    QueueFull { object: u8 },
    /// It may not block, since it is inside an action (RM 9.5.1, H.5).
    MayNotBlock,
}

/// An exception that a step raises.
#[derive(Clone, Copy, PartialEq, Eq, Debug)]
pub struct Raising {
    /// Its number.
    pub exception: u16,
    /// Whether it was raised before, in an action that is over, and is raised again at the call (RM 9.5.3, 11.4).
    pub is_pending: bool,
    /// The subprogram whose frame runs.
    pub subprogram: u16,
    /// The place of the instruction that raises it, or of the call.
    pub place: u16,
    /// What was refused, where that is why.
    pub cause: Option<Cause>,
}

// The exception that stands in the place of a value, if one does.
fn failure(value: Checked) -> Option<u16>
    ensures { result ≡ failure value }
{
    match value {
        Ok(_) => None,
        Err(exception) => Some(exception.number()),
    }
}

/// The word on top of the running frame's operand stack.
pub(crate) fn top(state: &TaskState) -> i64
    requires there { 1 ≤ length state.now.task.frame.stack }
    requires few { length state.now.task.frame.stack ≤ FRAME_WORDS }
    ensures { state.now.task.frame.stack ≡ result ∷ drop 1 state.now.task.frame.stack }
{
    operand(state, 0)
}

// The two words on top, the deeper one first.
fn top_two(state: &TaskState) -> (i64, i64)
    requires there { 2 ≤ length state.now.task.frame.stack }
    requires few { length state.now.task.frame.stack ≤ FRAME_WORDS }
    ensures { state.now.task.frame.stack ≡ result.1 ∷ result.0 ∷ drop 2 state.now.task.frame.stack }
{
    (operand(state, 1), operand(state, 0))
}

// A word on top that is checked against the two above it.
fn check_top(state: &TaskState) -> Checked
    requires there { 3 ≤ length state.now.task.frame.stack }
    requires few { length state.now.task.frame.stack ≤ FRAME_WORDS }
    ensures { failure result ≡ of_three (λ v least most. failure (in_bounds least most v)) state.now.task.frame.stack }
{
    let value = operand(state, 2);
    let least = operand(state, 1);
    let most = operand(state, 0);
    if least <= value && value <= most {
        Ok(value)
    } else {
        Err(PredefinedException::ConstraintError)
    }
}

// What stands in the place of the value of one word.
fn of_word(state: &TaskState, operation: Operation) -> Option<u16>
    requires there { 1 ≤ length state.now.task.frame.stack }
    requires few { length state.now.task.frame.stack ≤ FRAME_WORDS }
    ensures { result ≡ word_failure operation state.now.task.frame.stack }
{
    let word = top(state);
    match operation {
        Operation::Negate => failure(negate(word)),
        Operation::Absolute => failure(absolute(word)),
        _ => None,
    }
}

// What stands in the place of the value of two words.
fn of_words(state: &TaskState, operation: Operation) -> Option<u16>
    requires there { 2 ≤ length state.now.task.frame.stack }
    requires few { length state.now.task.frame.stack ≤ FRAME_WORDS }
    ensures { result ≡ words_failure operation state.now.task.frame.stack }
{
    let (left, right) = top_two(state);
    match operation {
        Operation::Add => failure(add(left, right)),
        Operation::Subtract => failure(subtract(left, right)),
        Operation::Multiply => failure(multiply(left, right)),
        Operation::Divide => failure(divide(left, right)),
        Operation::Modulo => failure(modulus(left, right)),
        Operation::Remainder => failure(remainder(left, right)),
        _ => None,
    }
}

// A call needs a frame behind those that there are.
fn without_frame(is_task: bool, state: &TaskState) -> Option<u16>
    ensures { result ≡ with_frame (frames_counted is_task state.now.task.callers) None }
{
    if is_full(is_task, state) {
        Some(PredefinedException::StorageError.number())
    } else {
        None
    }
}

// CALL.
fn of_call(program: &Program, is_task: bool, state: &TaskState, number: u16) -> Option<u16>
    requires { IsReadyFor program.now state.now.task (operations.Call number) }
    ensures { result ≡ of_call (frames_counted is_task state.now.task.callers) (length state.now.task.frame.stack) (called program.now number) }
{
    let Some(_) = called(program, number) else {
        unreachable!()
    };
    without_frame(is_task, state)
}

// PCALL.
fn of_protected_call<R: Ready, D: Delays>(
    program: &Program,
    tasking: &Tasking<'_, R, D>,
    task: u8,
    state: &TaskState,
    number: u16,
) -> Option<u16>
    requires task { StandsThere (kernel_of tasking.now) task }
    requires objects { (kernel_of tasking.now).partition.objects ≡ length program.now.objects }
    requires here { IsReadyFor program.now state.now.task (operations.ProtectedCall number) }
    ensures { let k = kernel_of tasking.now in result ≡ of_protected k task (frames_in_use k.partition task state.now.task.callers)
        (length state.now.task.frame.stack) (called program.now number) }
{
    let Some(subprogram) = called(program, number) else {
        unreachable!()
    };
    let object = external_object(program, subprogram.kind);
    if tasking.call_refusal(task, object).is_some() {
        return Some(PredefinedException::ProgramError.number());
    }
    without_frame(tasking.is_task(task), state)
}

// ECALL.
fn of_entry_call<R: Ready, D: Delays>(
    program: &Program,
    tasking: &Tasking<'_, R, D>,
    task: u8,
    state: &TaskState,
    memory: &Memory,
    object: u16,
) -> Option<u16>
    requires task { StandsThere (kernel_of tasking.now) task }
    requires objects { (kernel_of tasking.now).partition.objects ≡ length program.now.objects }
    requires here { IsReadyFor program.now state.now.task (operations.EntryCall object) }
    ensures { let k = kernel_of tasking.now in result ≡ of_entry program.now k task (words_in program.now memory.now.shared)
        (frames_in_use k.partition task state.now.task.callers) (length state.now.task.frame.stack) object (entry_of (slice_get program.now.objects object)) }
{
    let Some(number) = entry(program, object) else {
        unreachable!()
    };
    let Some(_) = called(program, number) else {
        unreachable!()
    };
    let object = object_number(program, object);
    if is_refused(tasking, task, object) {
        return Some(PredefinedException::ProgramError.number());
    }
    if is_full(tasking.is_task(task), state) {
        return Some(PredefinedException::StorageError.number());
    }
    if !memory.is_open(program.image(), object) && tasking.is_full(object) {
        return Some(PredefinedException::ProgramError.number());
    }
    None
}

// What may block raises Program_Error inside an action.
fn of_blocking<R: Ready, D: Delays>(tasking: &Tasking<'_, R, D>, task: u8) -> Option<u16>
    requires { StandsThere (kernel_of tasking.now) task }
    ensures { result ≡ of_blocking (kernel_of tasking.now) task }
{
    if tasking.is_inside_any(task) {
        Some(PredefinedException::ProgramError.number())
    } else {
        None
    }
}

// What an operation raises.
fn of_operation<R: Ready, D: Delays>(
    program: &Program,
    schedule: &Schedule,
    tasking: &Tasking<'_, R, D>,
    task: u8,
    state: &TaskState,
    memory: &Memory,
    operation: Operation,
) -> Option<u16>
    requires task { StandsThere (kernel_of tasking.now) task }
    requires objects { (kernel_of tasking.now).partition.objects ≡ length program.now.objects }
    requires here { IsReadyFor program.now state.now.task operation }
    ensures { result ≡ of_operation program.now schedule.now (kernel_of tasking.now) task (words_in program.now memory.now.shared) state.now.task.frame
        (frames_in_use (kernel_of tasking.now).partition task state.now.task.callers) operation }
{
    match operation {
        Operation::Negate | Operation::Absolute => of_word(state, operation),
        Operation::Add
        | Operation::Subtract
        | Operation::Multiply
        | Operation::Divide
        | Operation::Modulo
        | Operation::Remainder => of_words(state, operation),
        Operation::CheckRange => failure(check_top(state)),
        Operation::Call(number) => of_call(program, tasking.is_task(task), state, number),
        Operation::ProtectedCall(number) => {
            of_protected_call(program, tasking, task, state, number)
        }
        Operation::EntryCall(object) => {
            of_entry_call(program, tasking, task, state, memory, object)
        }
        Operation::Raise => exception(program, top(state)),
        Operation::CheckBlocking | Operation::DelayUntil => of_blocking(tasking, task),
        Operation::ReadInput => failure(input(schedule, tasking.now(), top(state))),
        _ => None,
    }
}

// The exception that the next step of a task raises, handled or not.
fn exception_ahead<R: Ready, D: Delays>(
    program: &Program,
    schedule: &Schedule,
    tasking: &Tasking<'_, R, D>,
    task: u8,
    state: &TaskState,
    memory: &Memory,
) -> Option<u16>
    requires task { StandsThere (kernel_of tasking.now) task }
    requires objects { (kernel_of tasking.now).partition.objects ≡ length program.now.objects }
    requires sound { IsSound program.now (is_task (kernel_of tasking.now).partition task) state.now.task }
    ensures { result ≡ raised program.now schedule.now (kernel_of tasking.now) task (solo_in program.now memory.now state.now.task) }
{
    frames_have_room();
    let _image = program.image();
    if let Some(exception) = state.raising() {
        return Some(exception);
    }
    let Some(operation) = operation(program, state) else {
        return None;
    };
    of_operation(program, schedule, tasking, task, state, memory, operation)
}

// Why a call of a procedure or a function of an object is refused.
fn protected_cause<R: Ready, D: Delays>(
    program: &Program,
    tasking: &Tasking<'_, R, D>,
    task: u8,
    number: u16,
) -> Option<Cause>
    requires task { StandsThere (kernel_of tasking.now) task }
    requires objects { (kernel_of tasking.now).partition.objects ≡ length program.now.objects }
    requires external { IsExternal program.now (called program.now number) }
    ensures { result ≡ protected_cause (kernel_of tasking.now) task (called program.now number) }
{
    let Some(subprogram) = called(program, number) else {
        unreachable!()
    };
    let object = external_object(program, subprogram.kind);
    match tasking.call_refusal(task, object) {
        None => None,
        Some(Refusal::SameObject) => Some(Cause::InsideObject { object }),
        Some(Refusal::AboveCeiling) => Some(Cause::AboveCeiling { object }),
        Some(Refusal::QueueFull) => unreachable!(),
    }
}

// Why an entry call is refused.
fn entry_cause<R: Ready, D: Delays>(
    tasking: &Tasking<'_, R, D>,
    task: u8,
    object: u8,
) -> Option<Cause>
    requires task { StandsThere (kernel_of tasking.now) task }
    requires object { object < (kernel_of tasking.now).partition.objects }
    ensures { result ≡ entry_cause (kernel_of tasking.now) task object }
{
    if tasking.is_inside_any(task) {
        Some(Cause::InsideAction { object })
    } else if tasking.is_above_ceiling(task, object) {
        Some(Cause::AboveCeiling { object })
    } else if tasking.is_full(object) {
        Some(Cause::QueueFull { object })
    } else {
        None
    }
}

// Why what may block is refused.
fn blocking_cause<R: Ready, D: Delays>(tasking: &Tasking<'_, R, D>, task: u8) -> Option<Cause>
    requires { StandsThere (kernel_of tasking.now) task }
    ensures { result ≡ blocking_cause (kernel_of tasking.now) task }
{
    if tasking.is_inside_any(task) {
        Some(Cause::MayNotBlock)
    } else {
        None
    }
}

// Why an operation is refused.
fn operation_cause<R: Ready, D: Delays>(
    program: &Program,
    tasking: &Tasking<'_, R, D>,
    task: u8,
    state: &TaskState,
    operation: Operation,
) -> Option<Cause>
    requires task { StandsThere (kernel_of tasking.now) task }
    requires objects { (kernel_of tasking.now).partition.objects ≡ length program.now.objects }
    requires here { IsReadyFor program.now state.now.task operation }
    ensures { result ≡ operation_cause program.now (kernel_of tasking.now) task operation }
{
    match operation {
        Operation::ProtectedCall(number) => protected_cause(program, tasking, task, number),
        Operation::EntryCall(object) => {
            entry_cause(tasking, task, object_number(program, object))
        }
        Operation::CheckBlocking | Operation::DelayUntil => blocking_cause(tasking, task),
        _ => None,
    }
}

// Why the instruction of the running frame is refused; an exception that is still to be raised was raised before.
fn cause_here<R: Ready, D: Delays>(
    program: &Program,
    tasking: &Tasking<'_, R, D>,
    task: u8,
    state: &TaskState,
) -> Option<Cause>
    requires task { StandsThere (kernel_of tasking.now) task }
    requires objects { (kernel_of tasking.now).partition.objects ≡ length program.now.objects }
    requires sound { IsSound program.now (is_task (kernel_of tasking.now).partition task) state.now.task }
    ensures { result ≡ cause_here program.now (kernel_of tasking.now) task state.now.task state.now.task.raising }
{
    frames_have_room();
    let _image = program.image();
    if state.raising().is_some() {
        return None;
    }
    let Some(operation) = operation(program, state) else {
        return None;
    };
    operation_cause(program, tasking, task, state, operation)
}

// Why an exception is raised, where that is Program_Error and something is refused.
fn cause_of<R: Ready, D: Delays>(
    program: &Program,
    tasking: &Tasking<'_, R, D>,
    task: u8,
    state: &TaskState,
    exception: u16,
) -> Option<Cause>
    requires task { StandsThere (kernel_of tasking.now) task }
    requires objects { (kernel_of tasking.now).partition.objects ≡ length program.now.objects }
    requires sound { IsSound program.now (is_task (kernel_of tasking.now).partition task) state.now.task }
    ensures { result ≡ where_refused (Some exception) (cause_here program.now (kernel_of tasking.now) task state.now.task state.now.task.raising) }
{
    if exception == PredefinedException::ProgramError.number() {
        cause_here(program, tasking, task, state)
    } else {
        None
    }
}

/// The exception that the next step of a task raises, handled or not, if it raises one.
pub fn raising_ahead<R: Ready, D: Delays>(
    program: &Program,
    schedule: &Schedule,
    tasking: &Tasking<'_, R, D>,
    task: u8,
    state: &TaskState,
    memory: &Memory,
) -> Option<Raising>
    requires task { StandsThere (kernel_of tasking.now) task }
    requires objects { (kernel_of tasking.now).partition.objects ≡ length program.now.objects }
    requires sound { IsSound program.now (is_task (kernel_of tasking.now).partition task) state.now.task }
    ensures { result ≡ raising_ahead program.now schedule.now (kernel_of tasking.now) task (solo_in program.now memory.now state.now.task) }
{
    let exception = exception_ahead(program, schedule, tasking, task, state, memory)?;
    Some(Raising {
        exception,
        is_pending: state.raising().is_some(),
        subprogram: state.subprogram(),
        place: state.place(),
        cause: cause_of(program, tasking, task, state, exception),
    })
}
