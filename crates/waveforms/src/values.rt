//! The values of a run's signals.
ghost use Rattle.std.specs.Prelude.{◌≡◌, ◌+◌, ◌*◌, ◌<◌, ◌≤◌, ◌∷◌, [], ◌++◌, IfOk, length, slice_get, vec_capacity, vec_len};
ghost use Rattle.kernel.specs.State.{inside};
ghost use Rattle.execution.specs.Held.{world_of};
ghost use Rattle.tasking.specs.Held.{kernel_of, place_of};
ghost use Rattle.waveforms.specs.Signals as signals;
ghost use Rattle.waveforms.specs.Signals.{all_below, components, is_left, object_first, shown_object, state_number, task_values, variable_values};

use crate::scopes::{Scopes, Variable};
use clock::Delays;
use dispatch::Ready;
use machine::{Machine, Outcome, Place};
use std::alloc::AllocError;

/// How many signals there are beside the inputs, where there are so many tasks and protected objects.
///
/// # Errors
/// Where there are more than memory has places for.
pub(crate) fn signal_count(scopes: &Scopes, tasks: u8, objects: u8) -> Result<usize, AllocError>
    ensures { IfOk result (λ count. count ≡ object_first scopes.now tasks objects) }
{
    let first = 1 + 2 * usize::from(tasks);
    let mut count = sum(first, scopes.package_variables().len())?;
    for object in 0..objects {
        let next = after_object(scopes, count, object)?;
        count = next;
    }
    Ok(count)
}

/// The number of the signal after those of an object, of which the first has this number.
///
/// # Errors
/// Where it is larger than any memory.
pub(crate) fn after_object(scopes: &Scopes, first: usize, object: u8) -> Result<usize, AllocError>
    ensures { IfOk result (λ next. next ≡ first + 2 + length (components scopes.now object)) }
{
    let own = sum(first, 2)?;
    sum(own, scopes.components(object).len())
}

/// A sum of signals.
///
/// # Errors
/// Where it is larger than any memory.
pub(crate) fn sum(left: usize, right: usize) -> Result<usize, AllocError>
    ensures { IfOk result (λ sum. sum ≡ left + right) }
{
    left.checked_add(right).ok_or(AllocError)
}

/// Adds the values of a task's or an object's signals.
pub(crate) fn add_two(values: &mut Vec<u64>, first: u64, second: u64)
    requires { vec_len values.old + 2 ≤ vec_capacity values.old }
    ensures items { values.new.items ≡ values.old.items ++ (first ∷ second ∷ []) }
    ensures len { vec_len values.new ≡ vec_len values.old + 2 }
    ensures capacity { vec_capacity values.new ≡ vec_capacity values.old }
{
    values.push_reserved(first);
    values.push_reserved(second);
}

// The value of a variable, by the number of its word.
fn word_value(words: &[i64], word: u16) -> u64
    ensures { result ≡ signals.word_value words.now word }
{
    match words.get(usize::from(word)) {
        None => 0,
        Some(word) => word.cast_unsigned(),
    }
}

/// Adds the values of variables among these words.
pub(crate) fn add_variables(values: &mut Vec<u64>, words: &[i64], variables: &[Variable])
    requires { vec_len values.old + length variables.now ≤ vec_capacity values.old }
    ensures items { values.new.items ≡ values.old.items ++ variable_values words.now variables.now }
    ensures len { vec_len values.new ≡ vec_len values.old + length variables.now }
    ensures capacity { vec_capacity values.new ≡ vec_capacity values.old }
{
    for variable in variables {
        values.push_reserved(word_value(words, variable.word()));
    }
}

/// The number that stands for a task's place.
pub(crate) fn place_number(place: Place) -> u64
    ensures { result ≡ signals.place_number (place_of place) }
{
    match place {
        Place::Ready => 0,
        Place::Running => 1,
        Place::Asleep => 2,
        Place::Queued(_) => 3,
        Place::Served(_) => 4,
        Place::Finished => 5,
    }
}

/// Whether an exception has left the body of a task.
pub(crate) fn is_left<R: Ready, D: Delays>(machine: &Machine<'_, R, D>, task: u8) -> bool
    ensures { result ≡ is_left task (kernel_of machine.now.tasking).outcome }
{
    match machine.outcome() {
        Some(Outcome::Unhandled { task: left, .. }) => left == task,
        _ => false,
    }
}

// The number that stands for a task's state.
fn state_number<R: Ready, D: Delays>(machine: &Machine<'_, R, D>, task: u8) -> u64
    ensures { result ≡ state_number (kernel_of machine.now.tasking) task }
{
    if is_left(machine, task) {
        6
    } else {
        place_number(machine.place_of_actor(task))
    }
}

// A task's number counted from 1, or 0 for nobody.
fn from_one(task: Option<u8>) -> u64
    ensures { result ≡ signals.from_one task }
{
    match task {
        None => 0,
        Some(task) => u64::from(task) + 1,
    }
}

// Who is inside an object, if somebody is: a task, or by the number behind those of the tasks a handler.
fn first_inside<R: Ready, D: Delays>(machine: &Machine<'_, R, D>, object: u8) -> Option<u8>
    ensures { let k = kernel_of machine.now.tasking in result ≡ signals.shown k (slice_get (inside k object) 0) }
{
    let number = machine.inside(object).as_slice().get(0).copied()?;
    Some(number.min(machine.tasks()))
}

// Adds the values of the tasks' signals.
fn add_tasks<R: Ready, D: Delays>(values: &mut Vec<u64>, machine: &Machine<'_, R, D>)
    requires { vec_len values.old + 2 * length machine.now.image.tasks ≤ vec_capacity values.old }
    ensures items { values.new.items ≡ values.old.items
        ++ all_below (kernel_of machine.now.tasking).partition.tasks (task_values (kernel_of machine.now.tasking)) }
    ensures len { vec_len values.new ≡ vec_len values.old + 2 * length machine.now.image.tasks }
    ensures capacity { vec_capacity values.new ≡ vec_capacity values.old }
{
    for task in 0..machine.tasks() {
        let priority = u64::from(machine.active_of_actor(task));
        add_two(values, state_number(machine, task), priority);
    }
}

/// Adds the values of an object's signals, where it is known who is inside.
pub(crate) fn add_object<R: Ready, D: Delays>(
    values: &mut Vec<u64>,
    machine: &Machine<'_, R, D>,
    scopes: &Scopes,
    object: u8,
    inside: Option<u8>,
)
    requires there { object < length machine.now.image.objects }
    requires room { vec_len values.old + 2 + length (components scopes.now object) ≤ vec_capacity values.old }
    ensures items { let w = world_of machine.now in
        values.new.items ≡ values.old.items ++ ((signals.from_one inside ∷ signals.from_one (w.kernel.queued object) ∷ [])
        ++ variable_values (w.rest.memory.objects object) (components scopes.now object)) }
    ensures len { vec_len values.new ≡ vec_len values.old + 2 + length (components scopes.now object) }
    ensures capacity { vec_capacity values.new ≡ vec_capacity values.old }
{
    add_two(values, from_one(inside), from_one(machine.queued(object)));
    let words = machine.object_words(object);
    add_variables(values, words, scopes.components(object));
}

// Adds the values of the objects' signals.
fn add_objects<R: Ready, D: Delays>(
    values: &mut Vec<u64>,
    machine: &Machine<'_, R, D>,
    scopes: &Scopes,
)
    requires len { vec_len values.old ≡ object_first scopes.now (length machine.now.image.tasks) 0 }
    requires room { object_first scopes.now (length machine.now.image.tasks) (length machine.now.image.objects) ≤ vec_capacity values.old }
    ensures items { values.new.items ≡ values.old.items
        ++ all_below (kernel_of machine.now.tasking).partition.objects (shown_object scopes.now (world_of machine.now)) }
    ensures len { vec_len values.new ≡ object_first scopes.now (length machine.now.image.tasks) (length machine.now.image.objects) }
    ensures capacity { vec_capacity values.new ≡ vec_capacity values.old }
{
    for object in 0..machine.objects() {
        let inside = first_inside(machine, object);
        add_object(values, machine, scopes, object, inside);
    }
}

/// The values of all signals of a machine but its inputs, in place of other ones.
pub(crate) fn read_values<R: Ready, D: Delays>(
    values: &mut Vec<u64>,
    machine: &Machine<'_, R, D>,
    scopes: &Scopes,
)
    requires { object_first scopes.now (length machine.now.image.tasks) (length machine.now.image.objects) ≤ vec_capacity values.old }
    ensures items { values.new.items ≡ signals.world_values scopes.now (world_of machine.now) }
    ensures count { length values.new.items ≡ object_first scopes.now (length machine.now.image.tasks) (length machine.now.image.objects) }
    ensures capacity { vec_capacity values.new ≡ vec_capacity values.old }
{
    values.clear();
    values.push_reserved(machine.now().cast_unsigned());
    add_tasks(values, machine);
    let words = machine.plain_words();
    add_variables(values, words, scopes.package_variables());
    add_objects(values, machine, scopes);
}
