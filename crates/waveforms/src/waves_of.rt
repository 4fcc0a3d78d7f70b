//! Runs as value change dumps.
ghost use Rattle.std.specs.Prelude.{◌≡◌, ◌+◌, ◌*◌, ◌<◌, ◌≤◌, ◌++◌, Err, IfErr, IfOk, OnErr, OnOk, length};
ghost use Rattle.std.specs.Io.KnownBytes.{Appends};
ghost use Rattle.image.specs.Code.{code};
ghost use Rattle.machine.specs.Stands.{EndsBy, HoldsWorld};
ghost use Rattle.machine.specs.Written.{AppendsBeginning};
ghost use Rattle.machine.specs.Taken.{steps_taken};
ghost use Rattle.execution.specs.Held.{world_of};
ghost use Rattle.waveforms.specs.LastValues.{last_shown, shown_by};
ghost use Rattle.waveforms.specs.Lines.{line_values};
ghost use Rattle.waveforms.specs.Signals.{object_first};
ghost use Rattle.waveforms.specs.declared.axis.Axis.TheVariants as axes;
ghost use Rattle.waveforms.specs.Waves.{declarations_text, start_text, steps_text, waves_text};

use crate::axis::Axis;
use crate::declarations::declarations;
use crate::lines::Lines;
use crate::rows::Rows;
use crate::scopes::Scopes;
use crate::text::ending_text;
use crate::values::signal_count;
use clock::{Delays, HeapDelays, Schedule};
use dispatch::{Ready, RingReady};
use image::Image;
use image_laws::outcome_stays;
use kernel::laws::left_unmoved;
use machine::{Bound, Machine, Outcome, RunFault, Sink, Steps, cut_line, write_all};
use std::alloc::{AllocError, Global};
use std::sync::ledger::Ledger;

// How a run ended, and behind how many steps.
#[derive(Clone, Copy)]
struct Ending {
    outcome: Outcome,
    taken: u64,
}

// The declarations and the values at the start, which rows then have.
#[inline(never)]
fn beginning<R: Ready, D: Delays>(
    alloc: Global,
    image: &Image,
    scopes: &Scopes,
    machine: &Machine<'_, R, D>,
    rows: &mut Rows<'_, '_>,
) -> Result<Vec<u8>, AllocError>
    requires image { machine.now.image ≡ image.now }
    requires room { object_first scopes.now (length machine.now.image.tasks) (length machine.now.image.objects) ≡ rows.old.room }
    ensures text { IfOk result (λ text.
        text.items ≡ declarations_text axes.Steps scopes.now rows.old.schedule rows.old.lines.labels image.now
        ++ start_text 0 (shown_by scopes.now rows.old (world_of machine.now))) }
    ensures last { OnOk result (last_shown rows.new ≡ shown_by scopes.now rows.old (world_of machine.now)) }
    ensures lines { OnOk result (rows.new.lines ≡ record rows.old.lines { written = rows.old.lines.current }) }
    ensures kept { OnOk result (rows.new.room ≡ rows.old.room) }
    ensures schedule { OnOk result (rows.new.schedule ≡ rows.old.schedule) }
{
    let mut text = declarations(
        alloc,
        Axis::Steps,
        image,
        scopes,
        rows,
        machine.tasks(),
        machine.objects(),
    )?;
    rows.start(machine, scopes);
    text.extend_from_slice(rows.text())?;
    Ok(text)
}

// Takes steps up to an outcome, `limit` of them at most, and writes what each has changed.
fn write_steps<R: Ready, D: Delays, S: Sink, L: Ledger>(
    machine: &mut Machine<'_, R, D>,
    scopes: &Scopes,
    rows: &mut Rows<'_, '_>,
    limit: u64,
    sink: &mut S,
    steps: &mut Steps<L>,
) -> Result<Ending, RunFault>
    requires stands { HoldsWorld machine.old (code machine.old.image machine.old.schedule 0) }
    requires last { last_shown rows.old ≡ shown_by scopes.now rows.old (world_of machine.old) }
    requires schedule { rows.old.schedule ≡ machine.old.schedule }
    requires image { rows.old.lines.image ≡ machine.old.image }
    requires lines { rows.old.lines.current ≡ line_values rows.old.lines.labels (code machine.old.image machine.old.schedule 0).kernel.lines }
    requires room { object_first scopes.now (length machine.old.image.tasks) (length machine.old.image.objects) ≡ rows.old.room }
    ensures changes { OnOk result (Appends (S.bytes sink.old) (S.bytes sink.new)
        (steps_text machine.old.image scopes.now machine.old.schedule rows.old.lines.labels limit)) }
    ensures ends { IfOk result (λ ending. EndsBy ending.outcome (code machine.old.image machine.old.schedule limit)) }
    ensures taken { IfOk result (λ ending. ending.taken ≡ steps_taken machine.old.image machine.old.schedule limit) }
    ensures kept { OnOk result (S.failures sink.new ≡ S.failures sink.old) }
    ensures fault { IfErr result (λ fault. fault ≡ RunFault.Write) }
    ensures failed { OnErr result (S.failures sink.old < S.failures sink.new) }
    ensures beginning { OnErr result (AppendsBeginning (S.bytes sink.old) (S.bytes sink.new)
        (steps_text machine.old.image scopes.now machine.old.schedule rows.old.lines.labels limit)) }
    ensures count { steps.new ≤ steps.old + limit }
{
    outcome_stays();
    let mut taken = 0;
    while taken < limit {
        if let Some(outcome) = machine.outcome() {
            return Ok(Ending { outcome, taken });
        }
        let line = machine.step_line(steps);
        taken += 1;
        rows.note(line);
        rows.step(taken, machine, scopes);
        match write_all(sink, rows.text()) {
            Ok(()) => {}
            Err(_) => return Err(RunFault::Write),
        }
    }
    let outcome = machine.outcome_or_limit();
    Ok(Ending { outcome, taken })
}

/// Runs an image as `machine::run_within` does, with the same outcome, and writes the run as a value change dump with the variables of these scopes. Protected
/// objects that have no scope here, or no name that Ada allows, have their number. Two machines take at most as many steps each as the bound has, which are
/// counted: one by which the labels of lines are known, and one for the dump.
///
/// # Errors
/// `Memory` where memory was refused, before anything is written; `Write` where a write failed, and what was written then is a beginning of the dump.
#[inline(never)]
pub fn waves<S: Sink, L: Ledger>(
    alloc: Global,
    image: &Image,
    scopes: &Scopes,
    schedule: &Schedule,
    bound: Bound,
    sink: &mut S,
    steps: &mut Steps<L>,
) -> Result<Outcome, RunFault>
    ensures text { OnOk result (Appends (S.bytes sink.old) (S.bytes sink.new) (waves_text image.now scopes.now schedule.now bound)) }
    ensures ends { IfOk result (λ outcome. EndsBy outcome (code image.now schedule.now bound.steps)) }
    ensures kept { OnOk result (S.failures sink.new ≡ S.failures sink.old) }
    ensures memory { result ≡ Err RunFault.Memory → sink.new ≡ sink.old }
    ensures failed { result ≡ Err RunFault.Write → S.failures sink.old < S.failures sink.new }
    ensures beginning { AppendsBeginning (S.bytes sink.old) (S.bytes sink.new) (waves_text image.now scopes.now schedule.now bound) }
    ensures count { steps.new ≤ steps.old + 2 * bound.steps }
{
    left_unmoved();
    let lines = Lines::of_run(alloc, image, schedule, bound.steps, steps)?;
    let mut machine: Machine<'_, RingReady, HeapDelays> = Machine::start(alloc, image, schedule)?;
    let signals = signal_count(scopes, machine.tasks(), machine.objects())?;
    let mut rows = Rows::new(alloc, signals, schedule, lines)?;
    let start = beginning(alloc, image, scopes, &machine, &mut rows)?;
    match write_all(sink, start.as_slice()) {
        Ok(()) => {}
        Err(_) => return Err(RunFault::Write),
    }
    let ending = write_steps(&mut machine, scopes, &mut rows, bound.steps, sink, steps)?;
    let last = cut_line(image, &ending.outcome, bound.cut);
    match write_all(sink, ending_text(ending.taken, &last).as_slice()) {
        Ok(()) => Ok(ending.outcome),
        Err(_) => Err(RunFault::Write),
    }
}
