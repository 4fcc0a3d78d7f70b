//! Compiling and running up to a time in one call.
ghost use Rattle.std.specs.Prelude.{◌≡◌, ◌<◌, ◌≤◌, ◌+◌, ◌*◌, Err, IfErr, IfOk, OnOk};
ghost use Rattle.adarun.specs.Stopping.{RefusesRunning};
ghost use Rattle.adarun.specs.Timed.{WritesBeginningUntil, WritesItsMeaningUntil};

use crate::compilation::compile;
use crate::going::GoFault;
use clock::{Schedule, ScheduleFault};
use image_laws::{code_leads_on, kernel_kept, steps_whole};
use kernel::laws::left_unmoved;
use lexer::Fault;
use machine::{Cut, Outcome, RunFault, Sink, Steps, bound_of, run_within};
use std::alloc::Global;
use std::sync::ledger::Ledger;

/// How a run up to a time ended: its outcome, and what has cut it where it has come to none.
#[derive(Clone, Copy, PartialEq, Eq, Debug)]
pub struct Ending {
    /// The outcome, or that the run was cut.
    pub outcome: Outcome,
    /// What has cut it.
    pub cut: Cut,
}

/// Compiles a source text, reads a schedule of input values, and runs the image as `go` does, for at most `limit` steps and only as long as its clock doesn't
/// pass a time (in microseconds). It writes the lines of the source with times up to then, all of them, and a last line that says how the run ended or what
/// has cut it: with the next step of the source its clock would pass the time, or the limit on steps was reached before. To know after how many steps that
/// is, the image is run twice; the steps of both runs are counted.
///
/// # Errors
/// As `go`.
pub fn go_until<S: Sink, L: Ledger>(
    alloc: Global,
    source: &[u8],
    schedule: &[u8],
    until: i64,
    limit: u64,
    sink: &mut S,
    steps: &mut Steps<L>,
) -> Result<Ending, GoFault>
    // What is written is what the source writes up to the time, within the limit.
    ensures meaning { IfOk result (λ ending. WritesItsMeaningUntil source.now schedule.now until limit ending.cut ending.outcome (S.bytes sink.old)
        (S.bytes sink.new)) }
    ensures kept { OnOk result (S.failures sink.new ≡ S.failures sink.old) }
    // A refusal is that of the call it comes from, where the calls before it gave their answers.
    ensures refused { IfErr result (RefusesRunning source.now schedule.now) }
    ensures source { (fault : Fault) → result ≡ Err (GoFault.Source fault) → sink.new ≡ sink.old }
    ensures schedule { (fault : ScheduleFault) → result ≡ Err (GoFault.Schedule fault) → sink.new ≡ sink.old }
    ensures memory { result ≡ Err (GoFault.Run RunFault.Memory) → sink.new ≡ sink.old }
    ensures failed { result ≡ Err (GoFault.Run RunFault.Write) → S.failures sink.old < S.failures sink.new }
    ensures beginning { result ≡ Err (GoFault.Run RunFault.Write) → WritesBeginningUntil source.now schedule.now until limit (S.bytes sink.old)
        (S.bytes sink.new) }
    ensures count { steps.new ≤ steps.old + 2 * limit }
{
    code_leads_on();
    kernel_kept();
    left_unmoved();
    steps_whole();
    let image = match compile(alloc, source) {
        Ok(image) => image,
        Err(fault) => return Err(GoFault::Source(fault)),
    };
    let schedule = match Schedule::read(alloc, schedule) {
        Ok(schedule) => schedule,
        Err(fault) => return Err(GoFault::Schedule(fault)),
    };
    let bound = match bound_of(alloc, &image, &schedule, Some(until), limit, steps) {
        Ok(bound) => bound,
        Err(_) => return Err(GoFault::Run(RunFault::Memory)),
    };
    match run_within(alloc, &image, &schedule, bound, sink, steps) {
        Ok(outcome) => Ok(Ending {
            outcome,
            cut: bound.cut,
        }),
        Err(fault) => Err(GoFault::Run(fault)),
    }
}
