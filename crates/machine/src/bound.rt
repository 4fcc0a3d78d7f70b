//! Up to where a run goes: for so many steps, or up to a time that its clock doesn't pass.
ghost use Rattle.std.specs.Prelude.{◌≡◌, ◌+◌, ◌≤◌, IfErr, IfOk};
ghost use Rattle.machine.specs.Bounds.{IsBound, at_most};

use crate::fault::RunFault;
use crate::running::Machine;
use clock::{ListDelays, Schedule};
use dispatch::RingReady;
use image::Image;
use processor::Steps;
use std::alloc::Global;
use std::sync::ledger::Ledger;

/// What cuts a run that has come to no outcome.
#[derive(Clone, Copy, PartialEq, Eq, Debug)]
pub enum Cut {
    /// The limit on steps.
    Steps,
    /// A time: with the next step the clock would pass it.
    Time,
}

/// After how many steps a run is cut, and by what.
#[derive(Clone, Copy, PartialEq, Eq, Debug)]
pub struct Bound {
    /// How many steps it takes at most.
    pub steps: u64,
    /// What cuts it then.
    pub cut: Cut,
}

impl Bound {
    /// So many steps at most.
    pub fn at_most(steps: u64) -> Bound
        ensures { result ≡ at_most steps }
    {
        Bound {
            steps,
            cut: Cut::Steps,
        }
    }
}

/// Up to where the run of an image on a schedule goes, with at most `limit` steps and, where a time is given (in microseconds), only as long as the clock
/// doesn't pass it. To know this it runs the image without writing anything; its steps are counted.
///
/// # Errors
/// `Memory` where memory was refused.
#[inline(never)]
pub fn bound_of<L: Ledger>(
    alloc: Global,
    image: &Image,
    schedule: &Schedule,
    until: Option<i64>,
    limit: u64,
    steps: &mut Steps<L>,
) -> Result<Bound, RunFault>
    ensures bound { IfOk result (IsBound image.now schedule.now until limit) }
    ensures fault { IfErr result (λ fault. fault ≡ RunFault.Memory) }
    ensures count { steps.new ≤ steps.old + limit }
{
    match until {
        None => Ok(Bound::at_most(limit)),
        Some(until) => {
            let mut machine: Machine<'_, RingReady, ListDelays> = Machine::start(
                alloc, image, schedule,
            )?;
            Ok(machine.bound_by_time(until, limit, steps))
        }
    }
}
