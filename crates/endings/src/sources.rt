//! From where the exceptions of a run came.
ghost use Rattle.std.specs.Prelude.{◌≡◌, ◌*◌, ◌+◌, ◌≤◌, if◌then◌else◌, IfOk, length};
ghost use Rattle.endings.specs.Sources.{after_step, came_from, from_of, froms_after, has_it, is_over, left_from, no_froms, raised_from};
ghost use Rattle.image.specs.Code.{code};
ghost use Rattle.machine.specs.Stands.{HoldsWorld};
ghost use Rattle.tasking.specs.Held.{kernel_of};

use clock::{Delays, HeapDelays, Schedule};
use dispatch::{Ready, RingReady};
use image::Image;
use image_laws::outcome_stays;
use machine::{Machine, Place, Raising, Steps};
use std::alloc::{AllocError, Global};
use std::sync::ledger::Ledger;

/// Actors are reported by numbers of 8 bits.
pub const ACTORS: usize = 256;

// No actor has had an exception.
fn none_yet(alloc: Global) -> Result<Vec<Option<u16>>, AllocError>
    ensures { IfOk result (λ froms. froms.items ≡ no_froms ACTORS) }
{
    let mut froms = Vec::new(alloc);
    let mut count = 0;
    while count < ACTORS {
        froms.push(None)?;
        count += 1;
    }
    Ok(froms)
}

fn from_of(froms: &[Option<u16>], task: u8) -> Option<u16>
    ensures { result ≡ from_of froms.now task }
{
    match froms.get(usize::from(task)) {
        Some(from) => *from,
        None => None,
    }
}

// From where an exception came that the task raises.
fn came_from(froms: &[Option<u16>], task: u8, raising: &Raising) -> Option<u16>
    ensures { result ≡ came_from froms.now task raising.now }
{
    if raising.is_pending {
        from_of(froms, task)
    } else {
        Some(raising.place)
    }
}

// Whether a step that leads from one machine to the other has ended the entry body that was run for the actor's call.
fn is_over<R: Ready, D: Delays>(
    before: &Machine<'_, R, D>,
    after: &Machine<'_, R, D>,
    actor: u8,
) -> bool
    ensures { result ≡ is_over ((kernel_of before.now.tasking).place actor) ((kernel_of after.now.tasking).place actor) }
{
    match (before.place_of_actor(actor), after.place_of_actor(actor)) {
        (Place::Served(_), Place::Ready | Place::Running) => true,
        _ => false,
    }
}

// Whether the exception that the task raises in that step is one of the actor.
fn has_it<R: Ready, D: Delays>(
    before: &Machine<'_, R, D>,
    after: &Machine<'_, R, D>,
    task: u8,
    actor: u8,
) -> bool
    ensures { result ≡ has_it (kernel_of before.now.tasking).place (kernel_of after.now.tasking).place task actor }
{
    actor == task || is_over(before, after, actor)
}

// What is told of an actor behind a step: where it has the exception, from where that came; else what was told before.
fn told_of(has_it: bool, came: Option<u16>, old: Option<u16>) -> Option<u16>
    ensures { result ≡ (if has_it then came else old) }
{
    if has_it { came } else { old }
}

// From where the actors' exceptions came, behind a step in which the task has one that came from there.
fn left_from<R: Ready, D: Delays>(
    alloc: Global,
    froms: &[Option<u16>],
    before: &Machine<'_, R, D>,
    after: &Machine<'_, R, D>,
    task: u8,
    came: Option<u16>,
) -> Result<Vec<Option<u16>>, AllocError>
    requires few { length froms.now ≤ ACTORS }
    ensures { IfOk result (λ next. next.items ≡ left_from came (kernel_of before.now.tasking).place (kernel_of after.now.tasking).place task 0 froms.now) }
{
    let mut next = Vec::new(alloc);
    for (actor, old) in froms.iter().enumerate() {
        let has_it = has_it(before, after, task, actor as u8);
        next.push(told_of(has_it, came, *old))?;
    }
    Ok(next)
}

// From where the actors' exceptions came, after a step, by what it raises.
fn after_step<R: Ready, D: Delays>(
    alloc: Global,
    froms: Vec<Option<u16>>,
    before: &Machine<'_, R, D>,
    after: &Machine<'_, R, D>,
    raising: Option<Raising>,
) -> Result<Vec<Option<u16>>, AllocError>
    requires few { length froms.items ≤ ACTORS }
    ensures { let k = kernel_of before.now.tasking in IfOk result (λ next. next.items ≡ after_step froms.items raising k.place
        (kernel_of after.now.tasking).place k.running) }
{
    match (raising, before.actor()) {
        (Some(raising), Some(task)) => {
            let came = came_from(&froms, task, &raising);
            left_from(alloc, &froms, before, after, task, came)
        }
        _ => Ok(froms),
    }
}

// Takes steps up to an outcome, `limit` of them at most, by two machines of which one stays a step behind the other.
fn froms_on<R: Ready, D: Delays, L: Ledger>(
    alloc: Global,
    before: &mut Machine<'_, R, D>,
    after: &mut Machine<'_, R, D>,
    limit: u64,
    steps: &mut Steps<L>,
) -> Result<Vec<Option<u16>>, AllocError>
    requires image { before.old.image ≡ after.old.image }
    requires schedule { before.old.schedule ≡ after.old.schedule }
    requires stands { HoldsWorld after.old (code after.old.image after.old.schedule 0) }
    requires stands_before { HoldsWorld before.old (code before.old.image before.old.schedule 0) }
    ensures froms { IfOk result (λ froms. froms.items ≡ froms_after after.old.image after.old.schedule limit) }
    ensures count { steps.new ≤ steps.old + 2 * limit }
{
    outcome_stays();
    let mut froms = none_yet(alloc)?;
    let mut step = 0;
    while step < limit {
        if let Some(_outcome) = after.outcome() {
            return Ok(froms);
        }
        let raising = before.raising_ahead();
        after.step(steps);
        froms = after_step(alloc, froms, before, after, raising)?;
        before.step(steps);
        step += 1;
    }
    Ok(froms)
}

/// Of a run of an image, for at most `limit` steps: the address of the instruction from which the last exception came that the task had, if it had one. An
/// exception that is raised again at a call came from where it was raised before, be it by another task that ran the entry body for the call. Two machines take
/// at most `limit` steps each, which are counted.
///
/// # Errors
/// Where memory was refused.
pub fn raised_from<L: Ledger>(
    alloc: Global,
    image: &Image,
    schedule: &Schedule,
    limit: u64,
    task: u8,
    steps: &mut Steps<L>,
) -> Result<Option<u16>, AllocError>
    ensures address { IfOk result (λ address. address ≡ raised_from image.now schedule.now limit task) }
    ensures count { steps.new ≤ steps.old + 2 * limit }
{
    let Ok(mut before) = Machine::<'_, RingReady, HeapDelays>::start(alloc, image, schedule) else {
        return Err(AllocError);
    };
    let Ok(mut after) = Machine::<'_, RingReady, HeapDelays>::start(alloc, image, schedule) else {
        return Err(AllocError);
    };
    let froms = froms_on(alloc, &mut before, &mut after, limit, steps)?;
    Ok(from_of(&froms, task))
}
