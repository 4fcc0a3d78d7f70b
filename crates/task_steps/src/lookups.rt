//! Looking up what instructions name.
ghost use Rattle.std.specs.Prelude.{◌≡◌, ◌<◌, ◌≤◌, false, length, option_map, slice_get, true};
ghost use Rattle.base.specs.declared.limits.TheConstants.{FRAMES};
ghost use Rattle.image.specs.Frames.{frames_counted, own_object};
ghost use Rattle.image.specs.Operations.{called, entry_of, results_of};
ghost use Rattle.image.specs.Scalars.{exception_of};
ghost use Rattle.image.specs.Sections.{first_place};

use base::limits::FRAMES;
use image::{Operation, Subprogram};
use image_laws::code_leads_on;
use processor::{Program, TaskState};

/// The operation of the running frame's instruction, where there is one.
pub(crate) fn operation(program: &Program, state: &TaskState) -> Option<Operation>
    ensures { result ≡ option_map (λ x. x.operation) (slice_get program.now.instructions state.now.task.frame.place) }
{
    let place = usize::from(state.place());
    program
        .image()
        .instructions()
        .get(place)
        .map(|x| x.operation)
}

/// The subprogram of this number.
pub fn called(program: &Program, number: u16) -> Option<Subprogram>
    ensures { result ≡ called program.now number }
{
    program
        .image()
        .subprograms()
        .get(usize::from(number))
        .copied()
}

/// Where a subprogram begins: where the one before it ends.
pub fn first_place(program: &Program, number: u16) -> u16
    ensures { result ≡ first_place program.now number }
{
    match number.checked_sub(1) {
        None => 0,
        Some(before) => program
            .image()
            .subprograms()
            .get(usize::from(before))
            .map_or(0, |s| s.end_),
    }
}

/// Whether no frame is left for a call: the frames of a task are the one that runs and those below it, of which the last one of a handler never runs (C.3.1).
pub(crate) fn is_full(is_task: bool, state: &TaskState) -> bool
    ensures left { result ≡ false → frames_counted is_task state.now.task.callers < FRAMES }
    ensures none { result ≡ true → FRAMES ≤ frames_counted is_task state.now.task.callers }
{
    let limit = if is_task { FRAMES - 1 } else { FRAMES };
    limit <= state.callers()
}

/// How many words the running frame's subprogram gives.
pub(crate) fn results(program: &Program, state: &TaskState) -> u16
    ensures { result ≡ results_of (called program.now state.now.task.frame.subprogram) }
{
    match called(program, state.subprogram()) {
        None => 0,
        Some(subprogram) => subprogram.results,
    }
}

/// The object that the running frame's subprogram belongs to.
pub(crate) fn own_object(program: &Program, state: &TaskState) -> Option<u16>
    ensures { result ≡ own_object program.now state.now.task.frame }
{
    match called(program, state.subprogram()) {
        None => None,
        Some(subprogram) => subprogram.kind.object(),
    }
}

/// The number of the subprogram of an object's entry.
pub fn entry(program: &Program, object: u16) -> Option<u16>
    ensures { result ≡ entry_of (slice_get program.now.objects object) }
{
    match program.image().objects().get(usize::from(object)) {
        None => None,
        Some(row) => row.entry(),
    }
}

/// An object's number as tasks have it: there are at most 64.
pub(crate) fn object_number(program: &Program, object: u16) -> u8
    requires { object < length program.now.objects }
    ensures { result ≡ object }
{
    code_leads_on();
    let _objects = program.image().objects();
    match u8::try_from(object) {
        Ok(number) => number,
        Err(_) => unreachable!(),
    }
}

/// The exception that a word names, where there is one.
pub(crate) fn exception(program: &Program, word: i64) -> Option<u16>
    ensures { result ≡ exception_of (length program.now.exceptions) word }
{
    let count = program.image().exceptions().len();
    match u16::try_from(word) {
        Ok(number) if 1 <= number && usize::from(number) <= count => Some(number),
        _ => None,
    }
}
