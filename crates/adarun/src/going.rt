//! Compiling and running in one call.
ghost use Rattle.std.specs.Prelude.{◌≡◌, ◌<◌, ◌≤◌, ◌+◌, Err, IfErr, IfOk, OnOk};
ghost use Rattle.compiler.specs.ada_tree.specs.ProgramTree.{ProgramTree};
ghost use Rattle.adarun.specs.Accepted.{IsAccepted, RefusesAccepted};
ghost use Rattle.adarun.specs.Headline.{Runs, WritesBeginning, WritesItsMeaning};
ghost use Rattle.adarun.specs.Stopping.{RefusesRunning};

use crate::compilation::compile;
use clock::{Schedule, ScheduleFault};
use image_laws::{code_leads_on, outcome_stays, steps_whole};
use lexer::Fault;
use machine::{Outcome, RunFault, Sink, Steps, run};
use std::alloc::Global;
use std::sync::ledger::Ledger;
use thiserror::Error;

/// Why a source text was not compiled and run to an outcome.
#[derive(Clone, Copy, PartialEq, Eq, Debug, Error)]
pub enum GoFault {
    /// The source text was refused.
    #[error(transparent)]
    Source(Fault),
    /// The schedule was refused.
    #[error(transparent)]
    Schedule(ScheduleFault),
    /// The run stopped early.
    #[error(transparent)]
    Run(RunFault),
}

/// Compiles a source text, reads a schedule of input values, and runs the image for at most `limit` steps. It writes the lines of
/// the run, and a last line that says how it ended: the run ends, waits forever or stops by an unhandled exception exactly when the
/// source does, with the same lines; cut at the limit, it has written the lines of the source up to then, each whole, and the time. The steps of the run
/// are counted.
///
/// # Errors
/// As `compile`, `Schedule::read` and `run`, in this order. Nothing was written then, but a beginning of the run's text where a write failed.
pub fn go<S: Sink, L: Ledger>(
    alloc: Global,
    source: &[u8],
    schedule: &[u8],
    limit: u64,
    sink: &mut S,
    steps: &mut Steps<L>,
) -> Result<Outcome, GoFault>
    // What is written is what the source writes after some number of steps, which the limit allows.
    ensures meaning { IfOk result (λ outcome. WritesItsMeaning source.now schedule.now limit outcome (S.bytes sink.old) (S.bytes sink.new)) }
    // It is what the code of an image writes that means the same, within the limit.
    ensures runs { IfOk result (λ outcome. Runs source.now schedule.now limit outcome (S.bytes sink.old) (S.bytes sink.new)) }
    ensures kept { OnOk result (S.failures sink.new ≡ S.failures sink.old) }
    // A refusal is that of the call it comes from, where the calls before it gave their answers.
    ensures refused { IfErr result (RefusesRunning source.now schedule.now) }
    // An accepted text is refused only for want of memory, or because its code may be too large, which that of no small text is: its text tells which.
    ensures accepted { (tree : ProgramTree) (fault : Fault) → IsAccepted tree source.now → result ≡ Err (GoFault.Source fault) → RefusesAccepted
        source.now tree fault }
    ensures source { (fault : Fault) → result ≡ Err (GoFault.Source fault) → sink.new ≡ sink.old }
    ensures schedule { (fault : ScheduleFault) → result ≡ Err (GoFault.Schedule fault) → sink.new ≡ sink.old }
    ensures memory { result ≡ Err (GoFault.Run RunFault.Memory) → sink.new ≡ sink.old }
    ensures failed { result ≡ Err (GoFault.Run RunFault.Write) → S.failures sink.old < S.failures sink.new }
    ensures beginning { result ≡ Err (GoFault.Run RunFault.Write) → WritesBeginning source.now schedule.now limit (S.bytes sink.old) (S.bytes sink.new) }
    ensures count { steps.new ≤ steps.old + limit }
{
    code_leads_on();
    outcome_stays();
    steps_whole();
    let image = match compile(alloc, source) {
        Ok(image) => image,
        Err(fault) => return Err(GoFault::Source(fault)),
    };
    let schedule = match Schedule::read(alloc, schedule) {
        Ok(schedule) => schedule,
        Err(fault) => return Err(GoFault::Schedule(fault)),
    };
    match run(alloc, &image, &schedule, limit, sink, steps) {
        Ok(outcome) => Ok(outcome),
        Err(fault) => Err(GoFault::Run(fault)),
    }
}
