//! When a run is over or cut.
ghost use Rattle.std.specs.Prelude.{◌≡◌, ◌+◌, ◌≤◌, None, IfErr, IfOk};
ghost use Rattle.image.specs.Code.{code};
ghost use Rattle.machine.specs.Outcomes.{time_of};

use clock::Schedule;
use image::Image;
use machine::{Outcome, RunFault, Sink, SinkError, Steps, run};
use std::alloc::Global;
use std::sync::ledger::Ledger;

// A sink that takes all bytes and keeps none.
#[derive(Drop)]
struct Discard;

impl Sink for Discard {
    ghost bytes = { λ s. None };

    ghost failures = { λ s. 0 };

    fn write(&mut self, piece: &[u8]) -> Result<usize, SinkError> {
        Ok(piece.len())
    }
}

// The time of an outcome.
fn time_of(outcome: &Outcome) -> i64
    ensures { result ≡ time_of outcome.now }
{
    match outcome {
        Outcome::Ended { time }
        | Outcome::WaitsForever { time }
        | Outcome::Unhandled { time, .. }
        | Outcome::ImageFault { time }
        | Outcome::StepLimit { time } => *time,
    }
}

/// The time, in microseconds, that the clock of a run of at most so many steps comes to. To know this it runs the image without writing anything; its steps are
/// counted.
///
/// # Errors
/// `Memory` where memory was refused.
pub(crate) fn last_time<L: Ledger>(
    alloc: Global,
    image: &Image,
    schedule: &Schedule,
    limit: u64,
    steps: &mut Steps<L>,
) -> Result<i64, RunFault>
    ensures time { IfOk result (λ time. time ≡ (code image.now schedule.now limit).kernel.now) }
    ensures fault { IfErr result (λ fault. fault ≡ RunFault.Memory) }
    ensures count { steps.new ≤ steps.old + limit }
{
    let mut sink = Discard;
    match run(alloc, image, schedule, limit, &mut sink, steps) {
        Ok(outcome) => Ok(time_of(&outcome)),
        Err(_) => Err(RunFault::Memory),
    }
}
