//! Worlds just before a step that may be the last one before the clock moves on.
ghost use Rattle.std.specs.Prelude.{◌≡◌, IfOk, IfSome, false, option_map, true};
ghost use Rattle.execution.specs.Held.{world_of};
ghost use Rattle.likeness.specs.Schedules.{reads_input};
ghost use Rattle.likeness.specs.Worlds.{ReadsNothing};
ghost use Rattle.searching.specs.Following.{IsMomentOf, IsPauseOf, NoneBefore};

use crate::crossing::{is_known, meeting_front};
use crate::table::{Table, digest_of};
use crate::world::World;
use choices::{Choices, Slot};
use clock::{Delays, Schedule};
use dispatch::Ready;
use execution::Execution;
use image::Operation;
use std::alloc::{AllocError, Global};
use std::marker::Model;
use tasking::Pause;

/// A world in which a run is, with its words and their digest, a copy of its tasks and objects unless the table has the world, and the time of its next
/// interrupt, before a step that reads no input.
#[derive(Drop)]
pub(crate) struct Moment {
    world: World,
    words: Vec<i64>,
    digest: u64,
    pause: Option<Box<Pause>>,
    next: Option<i64>,
}

impl Model for Moment {
    ghost use Rattle.std.specs.Prelude.{option_map};
    ghost use Rattle.searching.specs.Following.{KeptMoment};

    ghost Value = { KeptMoment };

    ghost view = { λ m. record { world = m.world; words = m.words.items; pause = option_map (λ b. b.value) m.pause; next = m.next } };

    ghost invariant = { λ m. Unit {0} };
}

impl Moment {
    /// The world in which a run is, if its next step may be the last one before the time of a slot that comes after the first `front` ones and not before the
    /// first `first` ones, after which the choice of the run takes the first alternative of each slot: no task is ready, nobody wakes sooner, and the step may
    /// leave the processor.
    ///
    /// # Errors
    /// Where memory was refused.
    pub(crate) fn of<R: Ready, D: Delays>(
        alloc: Global,
        execution: &Execution<'_, '_, R, D>,
        choices: &Choices,
        schedule: &Schedule,
        first: usize,
        front: usize,
        table: &Table,
    ) -> Result<Option<Moment>, AllocError>
        ensures { IfOk result (λ moment. IfSome moment (IsMomentOf execution.now)) }
    {
        if !may_leave(execution) {
            return Ok(None);
        }
        let slots = choices.slots();
        let Some(front) = front_ahead(execution, slots, first, front) else {
            return Ok(None);
        };
        let world = World::of(alloc, execution)?;
        let Some(world) = world else {
            return Ok(None);
        };
        let words = world.words_of(alloc, execution)?;
        let Some(words) = words else {
            return Ok(None);
        };
        let digest = digest_of(words.as_slice());
        let is_known = is_known(slots, schedule, front, digest, table);
        let pause = pause_if_new(alloc, execution, is_known)?;
        let tasking = execution.tasking();
        let next = tasking.next_interrupt();
        Ok(Some(Moment {
            world,
            words,
            digest,
            pause,
            next,
        }))
    }

    /// The world.
    pub(crate) fn world(&self) -> &World
        ensures { result.now ≡ self.now.world }
    {
        &self.world
    }

    /// The words of the world.
    pub(crate) fn words(&self) -> &[i64]
        ensures { result.now ≡ self.now.words }
    {
        self.words.as_slice()
    }

    /// The digest of the words.
    pub(crate) fn digest(&self) -> u64 {
        self.digest
    }

    /// The world, and the copy of its tasks and objects, if one was made.
    pub(crate) fn into_parts(self) -> (World, Option<Box<Pause>>)
        ensures world { result.0 ≡ self.world }
        ensures pause { option_map (λ b. b.value) result.1 ≡ self.pause }
    {
        let Moment {
            world,
            words: _,
            digest: _,
            pause,
            next: _,
        } = self;
        (world, pause)
    }

    /// Whether an interrupt is pending that comes before a time.
    pub(crate) fn is_interrupted_before(&self, time: i64) -> bool
        ensures { result ≡ false → NoneBefore time self.now.next }
    {
        match self.next {
            None => false,
            Some(next) => next < time,
        }
    }
}

// After how many first slots the run may meet an earlier one, or be met, by its next step, if it may: the least such number from `front` on.
fn front_ahead<R: Ready, D: Delays>(
    execution: &Execution<'_, '_, R, D>,
    slots: &[Slot],
    first: usize,
    front: usize,
) -> Option<usize> {
    if !may_pass(execution, slots, front) {
        return None;
    }
    if first <= front {
        return Some(front);
    }
    let meeting = meeting_front(slots, first, front);
    if may_pass(execution, slots, meeting) {
        Some(meeting)
    } else {
        None
    }
}

// Whether the next step may lead to the time of the slot after the first `front` ones or past it: nobody wakes sooner.
fn may_pass<R: Ready, D: Delays>(
    execution: &Execution<'_, '_, R, D>,
    slots: &[Slot],
    front: usize,
) -> bool {
    let Some(slot) = slots.get(front) else {
        return false;
    };
    let time = slot.time();
    let tasking = execution.tasking();
    for task in 0..tasking.task_count() {
        if let Some(wake) = tasking.wake_time(task) {
            if wake < time {
                return false;
            }
        }
    }
    true
}

// A copy of the tasks and objects of a run, for later runs to go on from, if nothing is known of its world.
fn pause_if_new<R: Ready, D: Delays>(
    alloc: Global,
    execution: &Execution<'_, '_, R, D>,
    is_known: bool,
) -> Result<Option<Box<Pause>>, AllocError>
    ensures { IfOk result (λ pause. IfSome (option_map (λ b. b.value) pause) (IsPauseOf execution.now)) }
{
    if is_known {
        return Ok(None);
    }
    pause_of(alloc, execution)
}

// A copy of the tasks and objects of a run, if no task is ready and there is no outcome. The 30 KB of its frame are filled at each call.
#[inline(never)]
fn pause_of<R: Ready, D: Delays>(
    alloc: Global,
    execution: &Execution<'_, '_, R, D>,
) -> Result<Option<Box<Pause>>, AllocError>
    ensures { IfOk result (λ pause. IfSome (option_map (λ b. b.value) pause) (IsPauseOf execution.now)) }
{
    let tasking = execution.tasking();
    let Some(pause) = tasking.pause() else {
        return Ok(None);
    };
    let pause = Box::new(alloc, pause)?;
    Ok(Some(pause))
}

// Whether the next step is one by which a task or a handler may leave the processor. Such a step reads no input.
fn may_leave<R: Ready, D: Delays>(execution: &Execution<'_, '_, R, D>) -> bool
    ensures { result ≡ true → ReadsNothing execution.now.image (world_of execution.now) }
{
    let Some(address) = execution.address_ahead() else {
        return false;
    };
    match execution.image().instructions().get(usize::from(address)) {
        None => true,
        Some(instruction) => {
            if is_input(instruction.operation) {
                false
            } else {
                leaves(
                    instruction.operation,
                    execution.tasking().handler().is_some(),
                )
            }
        }
    }
}

// Whether an operation reads an input.
fn is_input(operation: Operation) -> bool
    ensures { result ≡ reads_input operation }
{
    match operation {
        Operation::ReadInput => true,
        _ => false,
    }
}

// Whether a task or a handler may leave the processor by an operation: it delays, its call waits, or the handler ends. Where a task ends, the next delay or
// call of another one serves as well.
fn leaves(operation: Operation, is_handler_there: bool) -> bool {
    match operation {
        Operation::DelayUntil => true,
        Operation::EntryCall(_) => true,
        Operation::Return => is_handler_there,
        _ => false,
    }
}
