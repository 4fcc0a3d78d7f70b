//! Traces of runs.
ghost use Rattle.std.specs.Prelude.{◌≡◌, ◌+◌, ◌-◌, ◌<◌, ◌≤◌, ◌*◌, ◌++◌, Err, IfErr, IfOk, None, OnErr, OnOk, Some, ℕ, length};
ghost use Rattle.std.specs.Io.KnownBytes.{Appends};
ghost use Rattle.image.specs.Code.{code};
ghost use Rattle.machine.specs.Stands.{EndsBy, HoldsWorld};
ghost use Rattle.machine.specs.Written.{AppendsBeginning};
ghost use Rattle.tasking.specs.Held.{kernel_of};
ghost use Rattle.tracing.specs.Calls.{no_calls};
ghost use Rattle.tracing.specs.declared.calls.TheConstants.{ACTORS};
ghost use Rattle.tracing.specs.Changes.{since_clock, starts, until_clock};
ghost use Rattle.tracing.specs.Traces.{came, has_come, lines_come, row_names, rows, rows_text, shown, trace_text};
ghost use Rattle.tracing.specs.Writing.{line_text_of, start_text, step_text};

use crate::ahead::{Ahead, ahead_of};
use crate::calls::{no_calls, note_call};
use crate::comparing::{since_clock, starts, until_clock};
use crate::event::Event;
use crate::origin::Origins;
use crate::text::{event_row, input_row, line_end, line_heading, without_end};
use base::ScheduleLine;
use clock::{Delays, HeapDelays, Schedule};
use dispatch::{Ready, RingReady};
use image::{Image, Text};
use image_laws::outcome_stays;
use machine::{Bound, Machine, Outcome, RunFault, Sink, SinkError, Steps, cut_line, write_all};
use std::alloc::Global;
use std::sync::ledger::Ledger;

// Writes the rows of events.
fn write_events<O: Origins, S: Sink>(
    image: &Image,
    objects: &[Text],
    origins: &O,
    time: i64,
    step: u64,
    events: &[Event],
    sink: &mut S,
) -> Result<(), SinkError>
    ensures whole { OnOk result (Appends (S.bytes sink.old) (S.bytes sink.new)
        (rows_text (row_names image.now objects.now (O.known origins.now)) (shown time step events.now))) }
    ensures kept { OnOk result (S.failures sink.new ≡ S.failures sink.old) }
    ensures failed { OnErr result (S.failures sink.old < S.failures sink.new) }
    ensures beginning { OnErr result (AppendsBeginning (S.bytes sink.old) (S.bytes sink.new)
        (rows_text (row_names image.now objects.now (O.known origins.now)) (shown time step events.now))) }
{
    for event in events {
        let row = event_row(image, objects, origins, time, step, event);
        match write_all(sink, row.as_slice()) {
            Ok(()) => {}
            Err(error) => return Err(error),
        }
    }
    Ok(())
}

// Whether the clock, which was at `since`, has come to a line of the schedule.
fn has_come(since: Option<i64>, now: i64, line: &ScheduleLine) -> bool
    ensures { result ≡ has_come since now line.now }
{
    match since {
        None => line.time <= now,
        Some(since) => since < line.time && line.time <= now,
    }
}

// Writes the rows of the lines of the schedule to which the clock has come.
fn write_inputs<O: Origins, S: Sink>(
    image: &Image,
    objects: &[Text],
    origins: &O,
    lines: &[ScheduleLine],
    since: Option<i64>,
    now: i64,
    step: u64,
    sink: &mut S,
) -> Result<(), SinkError>
    ensures whole { OnOk result (Appends (S.bytes sink.old) (S.bytes sink.new)
        (rows_text (row_names image.now objects.now (O.known origins.now)) (came step (lines_come since now lines.now)))) }
    ensures kept { OnOk result (S.failures sink.new ≡ S.failures sink.old) }
    ensures failed { OnErr result (S.failures sink.old < S.failures sink.new) }
    ensures beginning { OnErr result (AppendsBeginning (S.bytes sink.old) (S.bytes sink.new)
        (rows_text (row_names image.now objects.now (O.known origins.now)) (came step (lines_come since now lines.now)))) }
{
    for line in lines {
        if has_come(since, now, line) {
            let row = input_row(image, objects, origins, step, line);
            match write_all(sink, row.as_slice()) {
                Ok(()) => {}
                Err(error) => return Err(error),
            }
        }
    }
    Ok(())
}

// Writes the row of the line that a step has written, if it has.
fn write_line<O: Origins, S: Sink>(
    image: &Image,
    objects: &[Text],
    origins: &O,
    time: i64,
    step: u64,
    task: u8,
    address: Option<u16>,
    shown: &machine::Event,
    sink: &mut S,
) -> Result<(), SinkError>
    ensures whole { OnOk result (Appends (S.bytes sink.old) (S.bytes sink.new)
        (line_text_of (row_names image.now objects.now (O.known origins.now)) time step task address shown.now)) }
    ensures kept { OnOk result (S.failures sink.new ≡ S.failures sink.old) }
    ensures failed { OnErr result (S.failures sink.old < S.failures sink.new) }
    ensures beginning { OnErr result (AppendsBeginning (S.bytes sink.old) (S.bytes sink.new)
        (line_text_of (row_names image.now objects.now (O.known origins.now)) time step task address shown.now)) }
{
    let machine::Event::Line(line) = shown else {
        return Ok(());
    };
    let heading = line_heading(image, time, step, task);
    match write_all(sink, heading.as_slice()) {
        Ok(()) => {}
        Err(error) => return Err(error),
    }
    match write_all(sink, without_end(line.as_slice())) {
        Ok(()) => {}
        Err(error) => return Err(error),
    }
    let end = line_end(image, objects, origins, address);
    write_all(sink, end.as_slice())
}

// Writes the rows of a step: the line that it has written, what it has raised, what has changed from one machine to the other, and the lines of the schedule to
// which the clock has come.
fn write_step<R: Ready, D: Delays, O: Origins, S: Sink>(
    image: &Image,
    objects: &[Text],
    origins: &O,
    before: &Machine<'_, R, D>,
    after: &Machine<'_, R, D>,
    lines: &[ScheduleLine],
    calls: &[i64],
    ahead: Ahead,
    shown: &machine::Event,
    step: u64,
    sink: &mut S,
) -> Result<(), SinkError>
    requires { before.now.image ≡ after.now.image }
    ensures whole { OnOk result (Appends (S.bytes sink.old) (S.bytes sink.new) (step_text (row_names image.now objects.now (O.known origins.now)) lines.now
        calls.now ahead (kernel_of before.now.tasking) (kernel_of after.now.tasking) step shown.now (kernel_of before.now.tasking).running)) }
    ensures kept { OnOk result (S.failures sink.new ≡ S.failures sink.old) }
    ensures failed { OnErr result (S.failures sink.old < S.failures sink.new) }
    ensures beginning { OnErr result (AppendsBeginning (S.bytes sink.old) (S.bytes sink.new)
        (step_text (row_names image.now objects.now (O.known origins.now)) lines.now calls.now ahead (kernel_of before.now.tasking)
        (kernel_of after.now.tasking) step shown.now (kernel_of before.now.tasking).running)) }
{
    let Some(ran) = before.actor() else {
        return Ok(());
    };
    let time = before.now();
    let now = after.now();
    let until = until_clock(calls, before, after, ran, ahead);
    let since = since_clock(before, after, ran);
    match write_line(
        image,
        objects,
        origins,
        time,
        step,
        ran,
        ahead.address,
        shown,
        sink,
    ) {
        Ok(()) => {}
        Err(error) => return Err(error),
    }
    match write_events(image, objects, origins, time, step, until.as_slice(), sink) {
        Ok(()) => {}
        Err(error) => return Err(error),
    }
    match write_inputs(image, objects, origins, lines, Some(time), now, step, sink) {
        Ok(()) => {}
        Err(error) => return Err(error),
    }
    write_events(image, objects, origins, now, step, since.as_slice(), sink)
}

// Writes the rows of the start.
fn write_start<R: Ready, D: Delays, O: Origins, S: Sink>(
    image: &Image,
    objects: &[Text],
    origins: &O,
    machine: &Machine<'_, R, D>,
    lines: &[ScheduleLine],
    sink: &mut S,
) -> Result<(), SinkError>
    ensures whole { OnOk result (Appends (S.bytes sink.old) (S.bytes sink.new) (start_text (row_names image.now objects.now (O.known origins.now)) lines.now
        (kernel_of machine.now.tasking))) }
    ensures kept { OnOk result (S.failures sink.new ≡ S.failures sink.old) }
    ensures failed { OnErr result (S.failures sink.old < S.failures sink.new) }
    ensures beginning { OnErr result (AppendsBeginning (S.bytes sink.old) (S.bytes sink.new)
        (start_text (row_names image.now objects.now (O.known origins.now)) lines.now (kernel_of machine.now.tasking))) }
{
    let now = machine.now();
    match write_inputs(image, objects, origins, lines, None, now, 0, sink) {
        Ok(()) => {}
        Err(error) => return Err(error),
    }
    write_events(
        image,
        objects,
        origins,
        now,
        0,
        starts(machine).as_slice(),
        sink,
    )
}

// Takes steps up to an outcome, `limit` of them at most, by two machines of which one stays a step behind the other, and writes the rows.
fn trace_on<R: Ready, D: Delays, O: Origins, S: Sink, L: Ledger>(
    image: &Image,
    objects: &[Text],
    origins: &O,
    before: &mut Machine<'_, R, D>,
    after: &mut Machine<'_, R, D>,
    calls: &mut [i64],
    schedule: &Schedule,
    limit: u64,
    sink: &mut S,
    steps: &mut Steps<L>,
) -> Result<Outcome, RunFault>
    requires calls { calls.old ≡ no_calls ACTORS }
    requires image { after.old.image ≡ image.now }
    requires image_before { before.old.image ≡ image.now }
    requires schedule { after.old.schedule ≡ schedule.now }
    requires schedule_before { before.old.schedule ≡ schedule.now }
    requires stands { HoldsWorld after.old (code after.old.image after.old.schedule 0) }
    requires stands_before { HoldsWorld before.old (code before.old.image before.old.schedule 0) }
    ensures rows { OnOk result (Appends (S.bytes sink.old) (S.bytes sink.new)
        (rows_text (row_names image.now objects.now (O.known origins.now)) (rows image.now schedule.now limit))) }
    ensures ends { IfOk result (λ outcome. EndsBy outcome (code image.now schedule.now limit)) }
    ensures kept { OnOk result (S.failures sink.new ≡ S.failures sink.old) }
    ensures fault { IfErr result (λ fault. fault ≡ RunFault.Write) }
    ensures failed { OnErr result (S.failures sink.old < S.failures sink.new) }
    ensures beginning { OnErr result (AppendsBeginning (S.bytes sink.old) (S.bytes sink.new)
        (rows_text (row_names image.now objects.now (O.known origins.now)) (rows image.now schedule.now limit))) }
    ensures count { steps.new ≤ steps.old + 2 * limit }
{
    outcome_stays();
    match write_start(image, objects, origins, after, schedule.lines(), sink) {
        Ok(()) => {}
        Err(_) => return Err(RunFault::Write),
    }
    let mut step = 0;
    while step < limit {
        if let Some(outcome) = after.outcome() {
            return Ok(outcome);
        }
        let ahead = ahead_of(before);
        let shown = after.step(steps);
        step += 1;
        match write_step(
            image,
            objects,
            origins,
            before,
            after,
            schedule.lines(),
            calls,
            ahead,
            &shown,
            step,
            sink,
        ) {
            Ok(()) => {}
            Err(_) => return Err(RunFault::Write),
        }
        note_call(calls, before, after);
        before.step(steps);
    }
    Ok(after.outcome_or_limit())
}

/// Runs an image as `machine::run_within` does, with the same outcome, and writes its trace: the rows of the start and of each step, and the last line of the
/// run.
/// Its protected objects have these names, in the order of their numbers; one for which there is none is named by its number. Rows of what
/// a statement does have its place, if the origins know it. Two machines take at most as many steps each as the bound
/// has, which are counted.
///
/// # Errors
/// `Memory` where memory was refused, before anything is written; `Write` where a write failed, and what was written then is a beginning of the trace.
#[inline(never)]
pub fn trace<O: Origins, S: Sink, L: Ledger>(
    alloc: Global,
    image: &Image,
    objects: &[Text],
    origins: &O,
    schedule: &Schedule,
    bound: Bound,
    sink: &mut S,
    steps: &mut Steps<L>,
) -> Result<Outcome, RunFault>
    ensures text { OnOk result (Appends (S.bytes sink.old) (S.bytes sink.new) (trace_text image.now objects.now (O.known origins.now) schedule.now bound)) }
    ensures ends { IfOk result (λ outcome. EndsBy outcome (code image.now schedule.now bound.steps)) }
    ensures kept { OnOk result (S.failures sink.new ≡ S.failures sink.old) }
    ensures memory { result ≡ Err RunFault.Memory → sink.new ≡ sink.old }
    ensures failed { result ≡ Err RunFault.Write → S.failures sink.old < S.failures sink.new }
    ensures beginning { AppendsBeginning (S.bytes sink.old) (S.bytes sink.new) (trace_text image.now objects.now (O.known origins.now) schedule.now bound) }
    ensures count { steps.new ≤ steps.old + 2 * bound.steps }
{
    let mut before: Machine<'_, RingReady, HeapDelays> = Machine::start(alloc, image, schedule)?;
    let mut after: Machine<'_, RingReady, HeapDelays> = Machine::start(alloc, image, schedule)?;
    let Ok(mut calls) = no_calls(alloc) else {
        return Err(RunFault::Memory);
    };
    let outcome = trace_on(
        image,
        objects,
        origins,
        &mut before,
        &mut after,
        &mut calls,
        schedule,
        bound.steps,
        sink,
        steps,
    )?;
    let text = cut_line(image, &outcome, bound.cut);
    match write_all(sink, text.as_slice()) {
        Ok(()) => Ok(outcome),
        Err(_) => Err(RunFault::Write),
    }
}
