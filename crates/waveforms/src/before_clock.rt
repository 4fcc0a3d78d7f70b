//! The values of a run's signals at the end of an instant, by the machine after the clock has moved on from there.
ghost use Rattle.std.specs.Prelude.{◌≡◌, ◌+◌, ◌*◌, ◌≤◌, ◌++◌, length, slice_get, vec_capacity, vec_len};
ghost use Rattle.execution.specs.Held.{world_of};
ghost use Rattle.kernel.specs.State.{inside};
ghost use Rattle.tasking.specs.Held.{kernel_of, place_of};
ghost use Rattle.waveforms.specs.Instants as instants;
ghost use Rattle.waveforms.specs.Instants.{waiting, waiting_world, world_before};
ghost use Rattle.waveforms.specs.Signals as signals;
ghost use Rattle.waveforms.specs.Signals.{all_below, object_first, shown_object, state_number, task_values};

use crate::scopes::Scopes;
use crate::values::{add_object, add_two, add_variables, is_left, place_number};
use clock::Delays;
use dispatch::Ready;
use machine::{Machine, Place};

// Where a task was before the clock moved, by where it is now: whoever runs or is ready has slept until then.
fn slept(place: Place) -> Place
    ensures { place_of result ≡ instants.slept (place_of place) }
{
    match place {
        Place::Running | Place::Ready | Place::Asleep => Place::Asleep,
        Place::Queued(object) => Place::Queued(object),
        Place::Served(object) => Place::Served(object),
        Place::Finished => Place::Finished,
    }
}

// The number that stands for a task's state before the clock moved.
fn state_before<R: Ready, D: Delays>(machine: &Machine<'_, R, D>, task: u8) -> u64
    ensures { result ≡ state_number (waiting (kernel_of machine.now.tasking)) task }
{
    if is_left(machine, task) {
        6
    } else {
        place_number(slept(machine.place_of_actor(task)))
    }
}

// The first of some numbers, if there is one.
fn first_of(numbers: &[u8]) -> Option<u8>
    ensures { result ≡ slice_get numbers.now 0 }
{
    numbers.get(0).copied()
}

// Who was inside an object before the clock moved, if somebody was: no handler.
fn inside_before<R: Ready, D: Delays>(machine: &Machine<'_, R, D>, object: u8) -> Option<u8>
    ensures { let k = waiting (kernel_of machine.now.tasking) in result ≡ signals.shown k (slice_get (inside k object) 0) }
{
    let number = first_of(machine.inside(object).as_slice())?;
    if number < machine.tasks() {
        Some(number)
    } else {
        None
    }
}

// Adds the values of the tasks' signals before the clock moved.
fn add_tasks<R: Ready, D: Delays>(values: &mut Vec<u64>, machine: &Machine<'_, R, D>)
    requires { vec_len values.old + 2 * length machine.now.image.tasks ≤ vec_capacity values.old }
    ensures items { let k = waiting (kernel_of machine.now.tasking) in
        values.new.items ≡ values.old.items ++ all_below k.partition.tasks (task_values k) }
    ensures len { vec_len values.new ≡ vec_len values.old + 2 * length machine.now.image.tasks }
    ensures capacity { vec_capacity values.new ≡ vec_capacity values.old }
{
    for task in 0..machine.tasks() {
        let priority = u64::from(machine.active_of_actor(task));
        add_two(values, state_before(machine, task), priority);
    }
}

// Adds the values of the objects' signals before the clock moved.
fn add_objects<R: Ready, D: Delays>(
    values: &mut Vec<u64>,
    machine: &Machine<'_, R, D>,
    scopes: &Scopes,
)
    requires len { vec_len values.old ≡ object_first scopes.now (length machine.now.image.tasks) 0 }
    requires room { object_first scopes.now (length machine.now.image.tasks) (length machine.now.image.objects) ≤ vec_capacity values.old }
    ensures items { let w = waiting_world (world_of machine.now) in
        values.new.items ≡ values.old.items ++ all_below w.kernel.partition.objects (shown_object scopes.now w) }
    ensures len { vec_len values.new ≡ object_first scopes.now (length machine.now.image.tasks) (length machine.now.image.objects) }
    ensures capacity { vec_capacity values.new ≡ vec_capacity values.old }
{
    for object in 0..machine.objects() {
        let inside = inside_before(machine, object);
        add_object(values, machine, scopes, object, inside);
    }
}

/// The values of all signals but the inputs at this time (microseconds since the start), from which the clock has moved to where it is now, in place of other
/// ones.
pub(crate) fn read_values_before_clock<R: Ready, D: Delays>(
    values: &mut Vec<u64>,
    machine: &Machine<'_, R, D>,
    scopes: &Scopes,
    time: i64,
)
    requires { object_first scopes.now (length machine.now.image.tasks) (length machine.now.image.objects) ≤ vec_capacity values.old }
    ensures items { values.new.items ≡ signals.world_values scopes.now (world_before time (world_of machine.now)) }
    ensures count { length values.new.items ≡ object_first scopes.now (length machine.now.image.tasks) (length machine.now.image.objects) }
    ensures capacity { vec_capacity values.new ≡ vec_capacity values.old }
{
    values.clear();
    values.push_reserved(time.cast_unsigned());
    add_tasks(values, machine);
    let words = machine.plain_words();
    add_variables(values, words, scopes.package_variables());
    add_objects(values, machine, scopes);
}
