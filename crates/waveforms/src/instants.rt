//! Runs as value change dumps over virtual time.
ghost use Rattle.std.specs.Prelude.{◌≡◌, ◌+◌, ◌*◌, ◌<◌, ◌≤◌, Err, IfErr, IfOk, None, OnErr, OnOk, length};
ghost use Rattle.std.specs.Io.KnownBytes.{Appends};
ghost use Rattle.image.specs.Code.{code};
ghost use Rattle.machine.specs.Stands.{EndsBy, HoldsWorld};
ghost use Rattle.machine.specs.Written.{AppendsBeginning};
ghost use Rattle.execution.specs.Held.{world_of};
ghost use Rattle.waveforms.specs.Instants.{ended, instants};
ghost use Rattle.waveforms.specs.Signals.{object_first};
ghost use Rattle.waveforms.specs.TimeWaves.{instants_text, time_waves_text};
ghost use Rattle.waveforms.specs.LastValues.{dumped_after, ended_text, ended_values, last_values};
ghost use Rattle.waveforms.specs.Lines.{line_values};

use crate::axis::Axis;
use crate::declarations::declarations;
use crate::lines::Lines;
use crate::rows::Rows;
use crate::scopes::Scopes;
use crate::text::comment_text;
use crate::values::signal_count;
use clock::{Delays, HeapDelays, Schedule};
use dispatch::{Ready, RingReady};
use image::Image;
use image_laws::outcome_stays;
use kernel::laws::left_unmoved;
use machine::{Bound, Machine, Outcome, RunFault, Sink, SinkError, Steps, cut_line, write_all};
use std::alloc::Global;
use std::sync::ledger::Ledger;

// Writes the instant of this time, where the step has ended it: where the clock has moved from there. Then its values are those that were written last.
#[inline(never)]
fn write_ended<R: Ready, D: Delays, S: Sink>(
    time: i64,
    machine: &Machine<'_, R, D>,
    scopes: &Scopes,
    rows: &mut Rows<'_, '_>,
    sink: &mut S,
) -> Result<(), SinkError>
    requires { object_first scopes.now (length machine.now.image.tasks) (length machine.now.image.objects) ≡ rows.old.room }
    ensures dumped { OnOk result (last_values rows.new
        ≡ ended_values scopes.now rows.old time (world_of machine.now)) }
    ensures current { rows.new.lines.current ≡ rows.old.lines.current }
    ensures labels { rows.new.lines.labels ≡ rows.old.lines.labels }
    ensures image { rows.new.lines.image ≡ rows.old.lines.image }
    ensures room { rows.new.room ≡ rows.old.room }
    ensures schedule { rows.new.schedule ≡ rows.old.schedule }
    ensures whole { OnOk result (Appends (S.bytes sink.old) (S.bytes sink.new) (ended_text scopes.now rows.old time (world_of machine.now))) }
    ensures kept { OnOk result (S.failures sink.new ≡ S.failures sink.old) }
    ensures failed { OnErr result (S.failures sink.old < S.failures sink.new) }
    ensures beginning { OnErr result (AppendsBeginning (S.bytes sink.old) (S.bytes sink.new) (ended_text scopes.now rows.old time (world_of machine.now))) }
{
    if machine.now() <= time {
        return Ok(());
    }
    rows.ended(time, machine, scopes);
    write_all(sink, rows.text())
}

// Takes steps up to an outcome, `limit` of them at most, and writes each instant that they end.
fn write_all_ended<R: Ready, D: Delays, S: Sink, L: Ledger>(
    machine: &mut Machine<'_, R, D>,
    scopes: &Scopes,
    rows: &mut Rows<'_, '_>,
    limit: u64,
    sink: &mut S,
    steps: &mut Steps<L>,
) -> Result<Outcome, RunFault>
    requires stands { HoldsWorld machine.old (code machine.old.image machine.old.schedule 0) }
    requires none { last_values rows.old ≡ None }
    requires schedule { rows.old.schedule ≡ machine.old.schedule }
    requires image { rows.old.lines.image ≡ machine.old.image }
    requires lines { rows.old.lines.current ≡ line_values rows.old.lines.labels (code machine.old.image machine.old.schedule 0).kernel.lines }
    requires room { object_first scopes.now (length machine.old.image.tasks) (length machine.old.image.objects) ≡ rows.old.room }
    ensures stands { OnOk result (HoldsWorld machine.new (code machine.old.image machine.old.schedule limit)) }
    ensures image { OnOk result (machine.new.image ≡ machine.old.image) }
    ensures dumped { OnOk result (last_values rows.new
        ≡ dumped_after scopes.now machine.old.schedule rows.old.lines.labels None (ended machine.old.image machine.old.schedule limit)) }
    ensures current { OnOk result (rows.new.lines.current
        ≡ line_values rows.old.lines.labels (code machine.old.image machine.old.schedule limit).kernel.lines) }
    ensures room { OnOk result (rows.new.room ≡ rows.old.room) }
    ensures schedule { OnOk result (rows.new.schedule ≡ rows.old.schedule) }
    ensures text { OnOk result (Appends (S.bytes sink.old) (S.bytes sink.new)
        (instants_text scopes.now machine.old.schedule rows.old.lines.labels None (ended machine.old.image machine.old.schedule limit))) }
    ensures ends { IfOk result (λ outcome. EndsBy outcome (code machine.old.image machine.old.schedule limit)) }
    ensures kept { OnOk result (S.failures sink.new ≡ S.failures sink.old) }
    ensures fault { IfErr result (λ fault. fault ≡ RunFault.Write) }
    ensures failed { OnErr result (S.failures sink.old < S.failures sink.new) }
    ensures beginning { OnErr result (AppendsBeginning (S.bytes sink.old) (S.bytes sink.new)
        (instants_text scopes.now machine.old.schedule rows.old.lines.labels None (ended machine.old.image machine.old.schedule limit))) }
    ensures count { steps.new ≤ steps.old + limit }
{
    outcome_stays();
    let mut taken = 0;
    while taken < limit {
        if let Some(outcome) = machine.outcome() {
            return Ok(outcome);
        }
        let time = machine.now();
        let line = machine.step_line(steps);
        taken += 1;
        rows.note(line);
        match write_ended(time, machine, scopes, rows, sink) {
            Ok(()) => {}
            Err(_) => return Err(RunFault::Write),
        }
    }
    Ok(machine.outcome_or_limit())
}

// Takes these steps, and writes all instants: the last one ends with the run.
fn write_instants<R: Ready, D: Delays, S: Sink, L: Ledger>(
    machine: &mut Machine<'_, R, D>,
    scopes: &Scopes,
    rows: &mut Rows<'_, '_>,
    limit: u64,
    sink: &mut S,
    steps: &mut Steps<L>,
) -> Result<Outcome, RunFault>
    requires stands { HoldsWorld machine.old (code machine.old.image machine.old.schedule 0) }
    requires none { last_values rows.old ≡ None }
    requires schedule { rows.old.schedule ≡ machine.old.schedule }
    requires image { rows.old.lines.image ≡ machine.old.image }
    requires lines { rows.old.lines.current ≡ line_values rows.old.lines.labels (code machine.old.image machine.old.schedule 0).kernel.lines }
    requires room { object_first scopes.now (length machine.old.image.tasks) (length machine.old.image.objects) ≡ rows.old.room }
    ensures text { OnOk result (Appends (S.bytes sink.old) (S.bytes sink.new)
        (instants_text scopes.now machine.old.schedule rows.old.lines.labels None (instants machine.old.image machine.old.schedule limit))) }
    ensures ends { IfOk result (λ outcome. EndsBy outcome (code machine.old.image machine.old.schedule limit)) }
    ensures kept { OnOk result (S.failures sink.new ≡ S.failures sink.old) }
    ensures fault { IfErr result (λ fault. fault ≡ RunFault.Write) }
    ensures failed { OnErr result (S.failures sink.old < S.failures sink.new) }
    ensures beginning { AppendsBeginning (S.bytes sink.old) (S.bytes sink.new)
        (instants_text scopes.now machine.old.schedule rows.old.lines.labels None (instants machine.old.image machine.old.schedule limit)) }
    ensures count { steps.new ≤ steps.old + limit }
{
    let outcome = write_all_ended(machine, scopes, rows, limit, sink, steps)?;
    rows.instant(machine, scopes);
    match write_all(sink, rows.text()) {
        Ok(()) => Ok(outcome),
        Err(_) => Err(RunFault::Write),
    }
}

/// Runs an image as `machine::run_within` does, with the same outcome, and writes the run as a value change dump over virtual time, with the variables of these
/// scopes: an instant of it has the values at its end. Protected objects that have no scope here, or no name that Ada allows, have their number. Two
/// machines take at most as many steps each as the bound has, which are counted: one by which the labels of lines are known, and one for the dump.
///
/// # Errors
/// `Memory` where memory was refused, before anything is written; `Write` where a write failed, and what was written then is a beginning of the dump.
#[inline(never)]
pub fn time_waves<S: Sink, L: Ledger>(
    alloc: Global,
    image: &Image,
    scopes: &Scopes,
    schedule: &Schedule,
    bound: Bound,
    sink: &mut S,
    steps: &mut Steps<L>,
) -> Result<Outcome, RunFault>
    ensures text { OnOk result (Appends (S.bytes sink.old) (S.bytes sink.new) (time_waves_text image.now scopes.now schedule.now bound)) }
    ensures ends { IfOk result (λ outcome. EndsBy outcome (code image.now schedule.now bound.steps)) }
    ensures kept { OnOk result (S.failures sink.new ≡ S.failures sink.old) }
    ensures memory { result ≡ Err RunFault.Memory → sink.new ≡ sink.old }
    ensures failed { result ≡ Err RunFault.Write → S.failures sink.old < S.failures sink.new }
    ensures beginning { AppendsBeginning (S.bytes sink.old) (S.bytes sink.new) (time_waves_text image.now scopes.now schedule.now bound) }
    ensures count { steps.new ≤ steps.old + 2 * bound.steps }
{
    left_unmoved();
    let lines = Lines::of_run(alloc, image, schedule, bound.steps, steps)?;
    let mut machine: Machine<'_, RingReady, HeapDelays> = Machine::start(alloc, image, schedule)?;
    let signals = signal_count(scopes, machine.tasks(), machine.objects())?;
    let mut rows = Rows::new(alloc, signals, schedule, lines)?;
    let start = declarations(
        alloc,
        Axis::Time,
        image,
        scopes,
        &rows,
        machine.tasks(),
        machine.objects(),
    )?;
    match write_all(sink, start.as_slice()) {
        Ok(()) => {}
        Err(_) => return Err(RunFault::Write),
    }
    let outcome = write_instants(&mut machine, scopes, &mut rows, bound.steps, sink, steps)?;
    let last = cut_line(image, &outcome, bound.cut);
    match write_all(sink, comment_text(&last).as_slice()) {
        Ok(()) => Ok(outcome),
        Err(_) => Err(RunFault::Write),
    }
}
