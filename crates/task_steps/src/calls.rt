//! Calls (RM 6.4, 9.5.1, 9.5.3): the refusals of the kernel, each an exception at the call, and the frame of the call.
ghost use Rattle.std.specs.Prelude.{◌≡◌, ◌<◌, ◌≤◌, ◌||◌, ℕ, List, None, Some, length};
ghost use Rattle.base.specs.declared.schedule.ScheduleLine.{ScheduleLine};
ghost use Rattle.image.specs.Sections.{object_of};
ghost use Rattle.image.specs.Steps.{enters, queues, with_frame_left};
ghost use Rattle.image.specs.declared.instruction.Operation.TheVariants as operations;
ghost use Rattle.image_laws.specs.Room.{widest};
ghost use Rattle.kernel.specs.Effects.{is_above_ceiling, is_inside_any};
ghost use Rattle.kernel.specs.State.{Kernel, is_task as of_task};
ghost use Rattle.processor.specs.Decoding.{words_in};
ghost use Rattle.processor.specs.Layout.{role_of};
ghost use Rattle.task_steps.specs.Acting.{effect_of, stepped_of};
ghost use Rattle.task_steps.specs.Stepping.{DoesAs, DoesIn, IsObjectKind, IsReadyFor, MayRaise, opening};
ghost use Rattle.tasking.specs.Held.{kernel_of};
ghost use Rattle.tasking.specs.Orderly.{StandsThere};

use crate::acts::{Act, Effect};
use crate::lookups::{called, entry, first_place, is_full, object_number};
use crate::memory::Memory;
use crate::raising::raise_predefined;
use base::PredefinedException;
use clock::Delays;
use dispatch::Ready;
use image::{Kind, Subprogram};
use processor::{Program, Role, TaskState};
use tasking::Tasking;

/// CALL.
pub(crate) fn call(
    program: &Program,
    is_task: bool,
    state: &mut TaskState,
    memory: &Memory,
    number: u16,
) -> Act
    requires here { IsReadyFor program.now state.old.task (operations.Call number) }
    requires width { state.old.width ≡ widest program.now }
    ensures does { DoesAs program.now (operations.Call number) state.old.task memory.now result memory.now state.new.task is_task }
    ensures width { state.new.width ≡ state.old.width }
{
    let Some(subprogram) = called(program, number) else {
        unreachable!()
    };
    enter(
        program,
        is_task,
        state,
        memory,
        number,
        &subprogram,
        Role::Inner,
        Effect::Quiet,
    )
}

/// PCALL.
pub(crate) fn protected_call<R: Ready, D: Delays>(
    program: &Program,
    tasking: &Tasking<'_, R, D>,
    task: u8,
    state: &mut TaskState,
    memory: &Memory,
    number: u16,
) -> Act
    requires task { StandsThere (kernel_of tasking.now) task }
    requires objects { (kernel_of tasking.now).partition.objects ≡ length program.now.objects }
    requires here { IsReadyFor program.now state.old.task (operations.ProtectedCall number) }
    requires width { state.old.width ≡ widest program.now }
    ensures does { (schedule : List ScheduleLine) → DoesIn program.now (operations.ProtectedCall number) state.old.task memory.now result memory.now
        state.new.task schedule (kernel_of tasking.now) task }
    ensures width { state.new.width ≡ state.old.width }
{
    let Some(subprogram) = called(program, number) else {
        unreachable!()
    };
    let object = external_object(program, subprogram.kind);
    if tasking.call_refusal(task, object).is_some() {
        return raise_predefined(program, state, memory, PredefinedException::ProgramError);
    }
    let role = Role::Opened {
        object: u16::from(object),
    };
    let effect = opening(subprogram.kind, object);
    let is_task = tasking.is_task(task);
    enter(
        program,
        is_task,
        state,
        memory,
        number,
        &subprogram,
        role,
        effect,
    )
}

/// The object of an external call.
pub(crate) fn external_object(program: &Program, kind: Kind) -> u8
    requires { IsObjectKind program.now kind }
    ensures { object_of kind ≡ Some result }
{
    match kind {
        Kind::ProtectedProcedure(object) => object_number(program, object),
        Kind::ProtectedFunction(object) => object_number(program, object),
        _ => unreachable!(),
    }
}

// What an external call opens: an action of a function, or else of a procedure.
fn opening(kind: Kind, object: u8) -> Effect
    ensures { result ≡ opening kind object }
{
    match kind {
        Kind::ProtectedFunction(_) => Effect::Views { object },
        _ => Effect::Opens { object },
    }
}

/// ECALL.
pub(crate) fn entry_call<R: Ready, D: Delays>(
    program: &Program,
    tasking: &Tasking<'_, R, D>,
    task: u8,
    state: &mut TaskState,
    memory: &Memory,
    object: u16,
) -> Act
    requires task { StandsThere (kernel_of tasking.now) task }
    requires objects { (kernel_of tasking.now).partition.objects ≡ length program.now.objects }
    requires here { IsReadyFor program.now state.old.task (operations.EntryCall object) }
    requires width { state.old.width ≡ widest program.now }
    ensures does { (schedule : List ScheduleLine) → DoesIn program.now (operations.EntryCall object) state.old.task memory.now result memory.now
        state.new.task schedule (kernel_of tasking.now) task }
    ensures width { state.new.width ≡ state.old.width }
{
    let Some(number) = entry(program, object) else {
        unreachable!()
    };
    let Some(subprogram) = called(program, number) else {
        unreachable!()
    };
    let object = object_number(program, object);
    if is_refused(tasking, task, object) {
        return raise_predefined(program, state, memory, PredefinedException::ProgramError);
    }
    let is_task = tasking.is_task(task);
    if !memory.is_open(program.image(), object) {
        return queue(program, tasking, is_task, state, memory, object);
    }
    let role = Role::Opened {
        object: u16::from(object),
    };
    enter(
        program,
        is_task,
        state,
        memory,
        number,
        &subprogram,
        role,
        Effect::Opens { object },
    )
}

/// Whether an entry call is refused before its barrier is asked: inside any action, or above the ceiling (RM 9.5.1, D.3).
pub(crate) fn is_refused<R: Ready, D: Delays>(
    tasking: &Tasking<'_, R, D>,
    task: u8,
    object: u8,
) -> bool
    requires task { StandsThere (kernel_of tasking.now) task }
    requires object { object < (kernel_of tasking.now).partition.objects }
    ensures { result ≡ (is_inside_any (kernel_of tasking.now) task || is_above_ceiling (kernel_of tasking.now) task object) }
{
    tasking.is_inside_any(task) || tasking.is_above_ceiling(task, object)
}

// An entry call with a closed barrier waits, where no other does (RM D.7).
fn queue<R: Ready, D: Delays>(
    program: &Program,
    tasking: &Tasking<'_, R, D>,
    is_task: bool,
    state: &mut TaskState,
    memory: &Memory,
    object: u8,
) -> Act
    requires object { object < (kernel_of tasking.now).partition.objects }
    requires quiet { state.old.task.raising ≡ None }
    requires raises { MayRaise program.now state.old.task }
    requires width { state.old.width ≡ widest program.now }
    ensures does { (schedule : List ScheduleLine) (t : ℕ) → of_task (kernel_of tasking.now).partition t ≡ is_task → with_frame_left program.now schedule
        (kernel_of tasking.now) t (words_in program.now memory.now.shared) state.old.task.frame state.old.task.callers
        (queues program.now schedule (kernel_of tasking.now) t (words_in program.now memory.now.shared) state.old.task.frame state.old.task.callers object)
        ≡ stepped_of program.now result memory.now state.new.task }
    ensures width { state.new.width ≡ state.old.width }
{
    if is_full(is_task, state) {
        return raise_predefined(program, state, memory, PredefinedException::StorageError);
    }
    if tasking.is_full(object) {
        return raise_predefined(program, state, memory, PredefinedException::ProgramError);
    }
    Act::of(Effect::Queues { object })
}

// The frame of a call, where one is left.
#[inline(always)]
fn enter(
    program: &Program,
    is_task: bool,
    state: &mut TaskState,
    memory: &Memory,
    number: u16,
    subprogram: &Subprogram,
    role: Role,
    effect: Effect,
) -> Act
    requires there { subprogram.now.parameters ≤ length state.old.task.frame.stack }
    requires fits { subprogram.now.parameters ≤ subprogram.now.locals }
    requires room { subprogram.now.locals ≤ widest program.now }
    requires quiet { state.old.task.raising ≡ None }
    requires raises { MayRaise program.now state.old.task }
    requires width { state.old.width ≡ widest program.now }
    ensures does { (schedule : List ScheduleLine) (k : Kernel) (t : ℕ) → of_task k.partition t ≡ is_task → with_frame_left program.now schedule k t
        (words_in program.now memory.now.shared) state.old.task.frame state.old.task.callers
        (enters program.now schedule k t (words_in program.now memory.now.shared) state.old.task.frame state.old.task.callers
        (effect_of program.now effect) (role_of role) number subprogram.now) ≡ stepped_of program.now result memory.now state.new.task }
    ensures width { state.new.width ≡ state.old.width }
{
    if is_full(is_task, state) {
        return raise_predefined(program, state, memory, PredefinedException::StorageError);
    }
    state.call(number, first_place(program, number), subprogram, role);
    Act::of(effect)
}
