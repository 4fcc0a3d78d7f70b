//! The last steps that the actors of a run took.
ghost use Rattle.std.specs.Prelude.{◌≡◌, ◌+◌, ◌≤◌, ℕ, IfOk, length};
ghost use Rattle.endings.specs.LastSteps.{last_step, last_steps, no_steps, with_step};
ghost use Rattle.execution.specs.Ahead.{next_address};
ghost use Rattle.execution.specs.Held.{world_of};
ghost use Rattle.image.specs.Code.{code};
ghost use Rattle.machine.specs.Stands.{HoldsWorld};
ghost use Rattle.tasking.specs.Held.{kernel_of};

use crate::sources::ACTORS;
use clock::Delays;
use dispatch::Ready;
use image_laws::outcome_stays;
use machine::{Machine, Steps};
use std::alloc::{AllocError, Global};
use std::sync::ledger::Ledger;

/// A step of an actor.
#[derive(Clone, Copy, PartialEq, Eq, Debug)]
pub struct LastStep {
    /// When it was taken, in microseconds.
    pub time: i64,
    /// The address of its instruction.
    pub address: u16,
}

/// No actor has taken a step.
pub(crate) fn no_steps(alloc: Global) -> Result<Vec<Option<LastStep>>, AllocError>
    ensures { IfOk result (λ lasts. lasts.items ≡ no_steps ACTORS) }
{
    let mut lasts = Vec::new(alloc);
    let mut count = 0;
    while count < ACTORS {
        lasts.push(None)?;
        count += 1;
    }
    Ok(lasts)
}

/// The last step of the actor with this number, if it has taken one.
pub(crate) fn last_step(lasts: &[Option<LastStep>], actor: u8) -> Option<LastStep>
    ensures { result ≡ last_step lasts.now actor }
{
    match lasts.get(usize::from(actor)) {
        Some(last) => *last,
        None => None,
    }
}

// Notes the step that the machine is to take.
fn note_step<R: Ready, D: Delays>(lasts: &mut [Option<LastStep>], machine: &Machine<'_, R, D>)
    requires room { length lasts.old ≡ ACTORS }
    ensures { let k = kernel_of machine.now.tasking in lasts.new ≡ with_step lasts.old k.now k.running (next_address (world_of machine.now)) }
{
    if let (Some(actor), Some(address)) = (machine.actor(), machine.address_ahead()) {
        lasts[usize::from(actor)] = Some(LastStep {
            time: machine.now(),
            address,
        });
    }
}

/// Takes steps up to an outcome, `count` of them at most, and notes the last one of each actor.
pub(crate) fn follow<R: Ready, D: Delays, L: Ledger>(
    machine: &mut Machine<'_, R, D>,
    lasts: &mut [Option<LastStep>],
    count: u64,
    steps: &mut Steps<L>,
)
    requires room { length lasts.old ≡ ACTORS }
    ensures steps { (n : ℕ) → HoldsWorld machine.old (code machine.old.image machine.old.schedule n)
        → lasts.old ≡ last_steps machine.old.image machine.old.schedule n → HoldsWorld machine.new (code machine.old.image machine.old.schedule (n + count))
        × (lasts.new ≡ last_steps machine.old.image machine.old.schedule (n + count)) }
    ensures image { machine.new.image ≡ machine.old.image }
    ensures schedule { machine.new.schedule ≡ machine.old.schedule }
    ensures room { length lasts.new ≡ ACTORS }
    ensures count { steps.new ≤ steps.old + count }
{
    outcome_stays();
    let mut step = 0;
    while step < count {
        if let Some(_outcome) = machine.outcome() {
            return;
        }
        note_step(lasts, machine);
        machine.step(steps);
        step += 1;
    }
}
