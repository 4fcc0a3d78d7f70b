//! Raising: frames are removed up to one that handles the exception, or to the end of an action (RM 11.4).
ghost use Rattle.std.specs.Prelude.{◌≡◌, ◌<◌, ◌∷◌, [], IfSome, None, Some, length, pos};
ghost use Rattle.base.specs.Exceptions.{number_of};
ghost use Rattle.handlers.specs.Innermost.{handler_of};
ghost use Rattle.image.specs.Steps.{unwind};
ghost use Rattle.image_laws.specs.Room.{widest};
ghost use Rattle.processor.specs.Decoding.{words_in};
ghost use Rattle.task_steps.specs.Acting.{stepped_of};
ghost use Rattle.task_steps.specs.Stepping.{MayRaise, Unwinds};
ghost use Rattle.image.specs.Steps.{is_open};
ghost use Rattle.task_steps.specs.declared.acts.Effect.TheVariants.{Ends as EndsBody};

use crate::acts::{Act, Effect, Given};
use crate::memory::Memory;
use base::PredefinedException;
use handlers::{Probes, Table, lookup};
use image_laws::{frames_have_room, steps_sound};
use processor::{Program, Role, TaskState};
use std::marker::Brand;
use std::sync::ledger::{Blank, Ledger};

/// Raises a predefined exception in the running frame.
pub(crate) fn raise_predefined(
    program: &Program,
    state: &mut TaskState,
    memory: &Memory,
    exception: PredefinedException,
) -> Act
    requires raises { MayRaise program.now state.old.task }
    requires width { state.old.width ≡ widest program.now }
    ensures does { unwind program.now (words_in program.now memory.now.shared) (number_of exception) state.old.task.frame state.old.task.callers ≡ stepped_of
        program.now result memory.now state.new.task }
    ensures width { state.new.width ≡ state.old.width }
{
    raise(program, state, memory, exception.number())
}

/// Raises an exception in the running frame. What the task had still to raise has no part in it.
pub(crate) fn raise(
    program: &Program,
    state: &mut TaskState,
    memory: &Memory,
    exception: u16,
) -> Act
    requires raises { MayRaise program.now state.old.task }
    requires width { state.old.width ≡ widest program.now }
    ensures does { unwind program.now (words_in program.now memory.now.shared) exception state.old.task.frame state.old.task.callers ≡ stepped_of program.now
        result memory.now state.new.task }
    ensures width { state.new.width ≡ state.old.width }
{
    loop {
        if let Some(act) = unwind_frame(program, state, memory, exception) {
            return act;
        }
    }
}

// What an exception makes of the running frame: it goes on at its handler, is removed, or is the task's body and dies.
fn unwind_frame(
    program: &Program,
    state: &mut TaskState,
    memory: &Memory,
    exception: u16,
) -> Option<Act>
    requires raises { MayRaise program.now state.old.task }
    requires width { state.old.width ≡ widest program.now }
    ensures unwinds { Unwinds program.now memory.now exception state.old.task result state.new.task }
    ensures width { state.new.width ≡ state.old.width }
{
    if let Some(target) = handler(program, state, exception) {
        state.handle(target, exception);
        state.set_raising(None);
        return Some(Act::of(Effect::Quiet));
    }
    if state.callers() == 0 {
        state.die(exception);
        return Some(Act::of(Effect::Dies { exception }));
    }
    remove(program, state, memory, exception)
}

// Removes the running frame, which doesn't handle the exception: with an action the step ends.
fn remove(program: &Program, state: &mut TaskState, memory: &Memory, exception: u16) -> Option<Act>
    requires sound { MayRaise program.now state.old.task }
    requires callers { 0 < length state.old.task.callers }
    requires unhandled { handler_of program.now.rows state.old.task.frame.place exception ≡ None }
    ensures unwinds { Unwinds program.now memory.now exception state.old.task result state.new.task }
    ensures width { state.new.width ≡ state.old.width }
{
    frames_have_room();
    let _image = program.image();
    let role = state.role();
    state.abandon();
    match role {
        Role::Inner => None,
        Role::Opened { object } => {
            state.set_raising(Some(exception));
            Some(ends(program, memory, object, None))
        }
        Role::Serving {
            object,
            pending,
            ..
        } => {
            state.set_raising(pending);
            Some(ends(program, memory, object, Some(Given::Raised(exception))))
        }
    }
}

/// The end of a body that an action of an object runs.
pub(crate) fn ends(program: &Program, memory: &Memory, object: u16, given: Option<Given>) -> Act
    ensures { result ≡ record { effect = EndsBody (is_open program.now (words_in program.now memory.now.shared) object); given = given } }
{
    Act {
        effect: Effect::Ends {
            is_open: memory.is_open_at(program.image(), object),
        },
        given,
    }
}

// Where the running frame goes on that handles the exception.
fn handler(program: &Program, state: &TaskState, exception: u16) -> Option<u16>
    requires { MayRaise program.now state.now.task }
    ensures is { result ≡ handler_of program.now.rows state.now.task.frame.place exception }
    ensures room { IfSome result (λ _. length state.now.task.frame.locals < widest program.now) }
{
    steps_sound();
    frames_have_room();
    let place = state.place();
    target::<Brand>(program.image().handlers(), place, exception, Blank::new(2))
}

// The handler of an exception at a place; nobody reads how long the search took.
fn target<L: Ledger>(table: &Table, place: u16, exception: u16, blank: Blank) -> Option<u16>
    requires name { blank.name ≡ L.name }
    requires parts { blank.parts ≡ L.parts }
    requires two { L.parts ≡ 2 }
    ensures { result ≡ handler_of table.now.rows place exception }
{
    let mut probes = Probes::<L>::new(blank);
    lookup(table, place, exception, &mut probes)
}
