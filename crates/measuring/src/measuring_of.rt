//! Measures of runs.
ghost use Rattle.std.specs.Prelude.{◌≡◌, ◌+◌, ◌*◌, ◌<◌, ◌≤◌, Err, IfErr, IfOk, OnErr, OnOk};
ghost use Rattle.std.specs.Io.KnownBytes.{Appends};
ghost use Rattle.image.specs.Code.{code};
ghost use Rattle.machine.specs.Stands.{EndsBy, HoldsWorld};
ghost use Rattle.machine.specs.Written.{AppendsBeginning};
ghost use Rattle.tracing.specs.Calls.{no_calls};
ghost use Rattle.tracing.specs.declared.calls.TheConstants.{ACTORS};
ghost use Rattle.measuring.specs.Measures.{no_steps};
ghost use Rattle.measuring.specs.Runs.{calls, instants, stories, usages};
ghost use Rattle.measuring.specs.Stories.{not_called, not_used, nothing_happened};
ghost use Rattle.measuring.specs.Tables.{AreMeasured, AreWhole};
ghost use Rattle.measuring.specs.Text.{measures_text};

use crate::counting::Measures;
use crate::sizes::{object_count, task_count};
use crate::text::{Form, text_of};
use clock::{Delays, HeapDelays, Schedule};
use dispatch::{Ready, RingReady};
use image::{Image, Text};
use image_laws::outcome_stays;
use machine::{Bound, Machine, Outcome, RunFault, Sink, Steps, cut_line, write_all};
use std::alloc::Global;
use std::sync::ledger::Ledger;
use tracing::{ahead_of, no_calls, note_call};

// Takes steps up to an outcome, `limit` of them at most, by two machines of which the first takes each step after the second, and measures them.
fn measure_on<R: Ready, D: Delays, L: Ledger>(
    measures: &mut Measures,
    before: &mut Machine<'_, R, D>,
    after: &mut Machine<'_, R, D>,
    times: &mut [i64],
    limit: u64,
    steps: &mut Steps<L>,
) -> Outcome
    requires whole { AreWhole measures.old }
    requires nothing { AreMeasured measures.old nothing_happened not_called not_used no_steps }
    requires times { times.old ≡ no_calls ACTORS }
    requires image { before.old.image ≡ after.old.image }
    requires schedule { before.old.schedule ≡ after.old.schedule }
    requires stands { HoldsWorld after.old (code after.old.image after.old.schedule 0) }
    requires stands_before { HoldsWorld before.old (code before.old.image before.old.schedule 0) }
    ensures whole { AreWhole measures.new }
    ensures measured { AreMeasured measures.new (stories after.old.image after.old.schedule limit) (calls after.old.image after.old.schedule limit)
        (usages after.old.image after.old.schedule limit) (instants after.old.image after.old.schedule limit) }
    ensures ends { EndsBy result (code after.old.image after.old.schedule limit) }
    ensures count { steps.new ≤ steps.old + 2 * limit }
{
    outcome_stays();
    measures.note_start(after);
    let mut step = 0;
    while step < limit {
        if let Some(outcome) = after.outcome() {
            return outcome;
        }
        let ahead = ahead_of(before);
        let frames = before.frames_ahead();
        after.step(steps);
        step += 1;
        measures.note_step(before, after, times, ahead, frames, step);
        note_call(times, before, after);
        before.step(steps);
    }
    after.outcome_or_limit()
}

/// What is measured of the run of an image on a schedule within a bound, and how the run ended, as `machine::run_within` reports it; nothing is written. Two
/// machines take at most as many steps each as the bound has, which are counted.
///
/// # Errors
/// `Memory` where memory was refused.
#[inline(never)]
pub fn measure_run<L: Ledger>(
    alloc: Global,
    image: &Image,
    schedule: &Schedule,
    bound: Bound,
    steps: &mut Steps<L>,
) -> Result<(Measures, Outcome), RunFault>
    ensures whole { IfOk result (λ run. AreWhole run.0) }
    ensures measured { IfOk result (λ run. AreMeasured run.0 (stories image.now schedule.now bound.steps) (calls image.now schedule.now bound.steps)
        (usages image.now schedule.now bound.steps) (instants image.now schedule.now bound.steps)) }
    ensures ends { IfOk result (λ run. EndsBy run.1 (code image.now schedule.now bound.steps)) }
    ensures fault { IfErr result (λ fault. fault ≡ RunFault.Memory) }
    ensures count { steps.new ≤ steps.old + 2 * bound.steps }
{
    let mut before: Machine<'_, RingReady, HeapDelays> = Machine::start(alloc, image, schedule)?;
    let mut after: Machine<'_, RingReady, HeapDelays> = Machine::start(alloc, image, schedule)?;
    let mut measures = Measures::new(alloc)?;
    let mut times = no_calls(alloc)?;
    let outcome = measure_on(
        &mut measures,
        &mut before,
        &mut after,
        &mut times,
        bound.steps,
        steps,
    );
    Ok((measures, outcome))
}

/// Runs an image as `machine::run_within` does, with the same outcome, and writes what is measured of the run in this form, and the last line of the run.
/// Its protected objects have these names, in the order of their numbers; one for which there is none is named by its number. Two machines take at most as many
/// steps each as the bound has, which are counted.
///
/// # Errors
/// `Memory` where memory was refused, before anything is written; `Write` where a write failed, and what was written then is a beginning of the text.
#[inline(never)]
pub fn measure<S: Sink, L: Ledger>(
    alloc: Global,
    form: Form,
    image: &Image,
    names: &[Text],
    schedule: &Schedule,
    bound: Bound,
    sink: &mut S,
    steps: &mut Steps<L>,
) -> Result<Outcome, RunFault>
    ensures text { OnOk result (Appends (S.bytes sink.old) (S.bytes sink.new) (measures_text form image.now names.now schedule.now bound)) }
    ensures ends { IfOk result (λ outcome. EndsBy outcome (code image.now schedule.now bound.steps)) }
    ensures kept { OnOk result (S.failures sink.new ≡ S.failures sink.old) }
    ensures memory { result ≡ Err RunFault.Memory → sink.new ≡ sink.old }
    ensures failed { result ≡ Err RunFault.Write → S.failures sink.old < S.failures sink.new }
    ensures beginning { AppendsBeginning (S.bytes sink.old) (S.bytes sink.new) (measures_text form image.now names.now schedule.now bound) }
    ensures count { steps.new ≤ steps.old + 2 * bound.steps }
{
    let run = measure_run(alloc, image, schedule, bound, steps)?;
    let (measures, outcome) = run;
    let tasks = task_count(image);
    let objects = object_count(image);
    let mut text = text_of(alloc, form, image, names, tasks, objects, &measures)?;
    text.extend_from_slice(cut_line(image, &outcome, bound.cut).as_slice())?;
    match write_all(sink, text.as_slice()) {
        Ok(()) => Ok(outcome),
        Err(_) => Err(RunFault::Write),
    }
}
