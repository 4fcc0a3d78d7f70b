//! How far a run goes.
ghost use Rattle.std.specs.Prelude.{◌≡◌, ◌+◌, ◌≤◌, IfErr, IfOk, unsigned_abs};
ghost use Rattle.image.specs.Code.{code};
ghost use Rattle.machine.specs.Stands.{HoldsWorld};
ghost use Rattle.machine.specs.Taken.{steps_taken};
ghost use Rattle.tasking.specs.Held.{kernel_of};

use clock::{Delays, HeapDelays, Schedule};
use dispatch::{Ready, RingReady};
use image::Image;
use image_laws::outcome_stays;
use machine::{Machine, RunFault, Steps};
use std::alloc::Global;
use std::sync::ledger::Ledger;

/// How far a run goes.
#[derive(Clone, Copy)]
pub struct Extent {
    /// The time that its clock comes to, in microseconds.
    pub time: u64,
    /// How many steps it takes.
    pub steps: u64,
}

// Takes steps up to an outcome, `limit` of them at most, and counts them.
fn count_steps<R: Ready, D: Delays, L: Ledger>(
    machine: &mut Machine<'_, R, D>,
    limit: u64,
    steps: &mut Steps<L>,
) -> u64
    requires { HoldsWorld machine.old (code machine.old.image machine.old.schedule 0) }
    ensures stands { HoldsWorld machine.new (code machine.old.image machine.old.schedule limit) }
    ensures taken { result ≡ steps_taken machine.old.image machine.old.schedule limit }
    ensures count { steps.new ≤ steps.old + limit }
{
    outcome_stays();
    let mut taken = 0;
    while taken < limit {
        if let Some(_outcome) = machine.outcome() {
            return taken;
        }
        machine.step(steps);
        taken += 1;
    }
    taken
}

/// How far a run of at most so many steps goes. To know this it runs the image without writing anything; its steps are counted.
///
/// # Errors
/// `Memory` where memory was refused.
#[inline(never)]
pub(crate) fn extent_of<L: Ledger>(
    alloc: Global,
    image: &Image,
    schedule: &Schedule,
    limit: u64,
    steps: &mut Steps<L>,
) -> Result<Extent, RunFault>
    ensures time { IfOk result (λ extent. extent.time ≡ unsigned_abs (code image.now schedule.now limit).kernel.now) }
    ensures steps { IfOk result (λ extent. extent.steps ≡ steps_taken image.now schedule.now limit) }
    ensures fault { IfErr result (λ fault. fault ≡ RunFault.Memory) }
    ensures count { steps.new ≤ steps.old + limit }
{
    let mut machine: Machine<'_, RingReady, HeapDelays> = Machine::start(alloc, image, schedule)?;
    let taken = count_steps(&mut machine, limit, steps);
    let time = machine.now().unsigned_abs();
    Ok(Extent { time, steps: taken })
}
