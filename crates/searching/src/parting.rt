//! Times that part the slots of a set, and where a run is at one.
ghost use Rattle.std.specs.Prelude.{◌≡◌, ◌<ℤ◌, pos, true};
ghost use Rattle.execution.specs.Held.{world_of};
ghost use Rattle.likeness.specs.Worlds.{IsEarly, IsLastBefore};
ghost use Rattle.searching.specs.Meeting.{AreEachBefore, AreEachFrom, IsAtEnd, PartsAt};

use choices::Slot;
use clock::Delays;
use dispatch::Ready;
use execution::Execution;
use tasking::Outcome;

/// Whether the run has ended before a time, and doesn't wait forever.
pub(crate) fn is_at_end<R: Ready, D: Delays>(execution: &Execution<'_, '_, R, D>, time: i64) -> bool
    ensures { result ≡ true → IsAtEnd time (world_of execution.now).kernel }
{
    if time <= execution.tasking().now() {
        return false;
    }
    match execution.tasking().outcome() {
        None => false,
        Some(Outcome::WaitsForever) => false,
        Some(Outcome::Ended) => true,
        Some(Outcome::ImageFault) => true,
        Some(
            Outcome::Unhandled {
                exception: _,
                task: _,
            },
        ) => true,
    }
}

/// The time of the slot after the first `front` ones, where all of these are before it, and none of the others is.
pub(crate) fn parting_time(slots: &[Slot], front: usize) -> Option<i64>
    ensures { PartsAt result front slots.now }
{
    if slots.len() <= front {
        return None;
    }
    let time = slots[front].time();
    if time <= 0 {
        return None;
    }
    if !are_each_before(&slots[..front], time) {
        return None;
    }
    if !are_each_from(&slots[front..], time) {
        return None;
    }
    Some(time)
}

/// The last time before one that is later than 0.
pub(crate) fn last_before(time: i64) -> i64
    requires { pos 0 <ℤ time }
    ensures { IsLastBefore result time }
{
    time - 1
}

// Whether all slots are before a time.
fn are_each_before(slots: &[Slot], time: i64) -> bool
    ensures { result ≡ true → AreEachBefore time slots.now }
{
    for slot in slots {
        if time <= slot.time() {
            return false;
        }
    }
    true
}

// Whether none is before a time.
fn are_each_from(slots: &[Slot], time: i64) -> bool
    ensures { result ≡ true → AreEachFrom time slots.now }
{
    for slot in slots {
        if slot.time() < time {
            return false;
        }
    }
    true
}

/// Whether the time is reached, or there is an outcome.
pub(crate) fn has_come_to<R: Ready, D: Delays>(
    execution: &Execution<'_, '_, R, D>,
    time: i64,
) -> bool
    ensures { result ≡ true → IsEarly time (world_of execution.now).kernel → ⊥ }
{
    if time <= execution.tasking().now() {
        return true;
    }
    execution.tasking().outcome().is_some()
}
