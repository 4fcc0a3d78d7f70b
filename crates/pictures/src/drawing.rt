//! Pictures of runs.
ghost use Rattle.std.specs.Prelude.{◌≡◌, ◌+◌, ◌*◌, ◌<◌, ◌≤◌, ◌++◌, Err, IfErr, IfOk, OnErr, OnOk, length};
ghost use Rattle.std.specs.Io.KnownBytes.{Appends};
ghost use Rattle.image.specs.Code.{code};
ghost use Rattle.machine.specs.Stands.{EndsBy, HoldsWorld};
ghost use Rattle.machine.specs.Written.{AppendsBeginning};
ghost use Rattle.tasking.specs.Held.{kernel_of};
ghost use Rattle.tracing.specs.Calls.{no_calls};
ghost use Rattle.tracing.specs.Traces.{rows};
ghost use Rattle.tracing.specs.declared.calls.TheConstants.{ACTORS};
ghost use Rattle.pictures.specs.Drawn.{start_text, step_text};
ghost use Rattle.pictures.specs.Pictures.{picture_text};
ghost use Rattle.pictures.specs.Text.{picture_names, rows_text};

use crate::event::{add_events, add_inputs, add_reported};
use crate::extent::extent_of;
use crate::frame::Frame;
use crate::front::{add_end, add_front};
use base::ScheduleLine;
use clock::{Delays, HeapDelays, Schedule};
use dispatch::{Ready, RingReady};
use image::{Image, Text};
use image_laws::outcome_stays;
use machine::{Bound, Machine, Outcome, RunFault, Sink, Steps, cut_line, write_all};
use std::alloc::{AllocError, Global};
use std::sync::ledger::Ledger;
use tracing::{Ahead, ahead_of, no_calls, note_call, since_clock, starts, until_clock};

// Draws the start of a run.
fn draw_start<R: Ready, D: Delays>(
    text: &mut Vec<u8>,
    alloc: Global,
    image: &Image,
    names: &[Text],
    frame: Frame,
    machine: &Machine<'_, R, D>,
    lines: &[ScheduleLine],
) -> Result<(), AllocError>
    requires time { 0 < frame.time }
    requires steps { 0 < frame.steps }
    ensures { OnOk result (text.new.items ≡ text.old.items
        ++ start_text frame (picture_names image.now names.now) lines.now (kernel_of machine.now.tasking)) }
{
    let now = machine.now();
    let time = now.unsigned_abs();
    let events = starts(machine);
    add_inputs(text, alloc, frame, lines, None, now, 0)?;
    add_events(text, alloc, image, names, frame, events.as_slice(), time, 0)?;
    Ok(())
}

// Draws a step of a run, which leads from one machine to the other and has shown this, where these are the times of calls before it and what is known of it
// ahead.
fn draw_step<R: Ready, D: Delays>(
    text: &mut Vec<u8>,
    alloc: Global,
    image: &Image,
    names: &[Text],
    frame: Frame,
    before: &Machine<'_, R, D>,
    after: &Machine<'_, R, D>,
    lines: &[ScheduleLine],
    calls: &[i64],
    ahead: Ahead,
    shown: &machine::Event,
    step: u64,
) -> Result<(), AllocError>
    requires time { 0 < frame.time }
    requires steps { 0 < frame.steps }
    requires image { before.now.image ≡ after.now.image }
    ensures { OnOk result (text.new.items ≡ text.old.items ++ step_text frame (picture_names image.now names.now) lines.now calls.now ahead
        (kernel_of before.now.tasking) (kernel_of after.now.tasking) step shown.now (kernel_of before.now.tasking).running) }
{
    let Some(ran) = before.actor() else {
        return Ok(());
    };
    let since = before.now();
    let now = after.now();
    let here = since.unsigned_abs();
    let there = now.unsigned_abs();
    let until = until_clock(calls, before, after, ran, ahead);
    let later = since_clock(before, after, ran);
    add_reported(text, alloc, image, frame, ran, shown, here, step)?;
    add_events(
        text,
        alloc,
        image,
        names,
        frame,
        until.as_slice(),
        here,
        step,
    )?;
    add_inputs(text, alloc, frame, lines, Some(since), now, step)?;
    add_events(
        text,
        alloc,
        image,
        names,
        frame,
        later.as_slice(),
        there,
        step,
    )?;
    Ok(())
}

// Takes steps up to an outcome, `limit` of them at most, by two machines of which the first takes each step after the second, and draws them.
fn draw_on<R: Ready, D: Delays, L: Ledger>(
    text: &mut Vec<u8>,
    alloc: Global,
    image: &Image,
    names: &[Text],
    frame: Frame,
    before: &mut Machine<'_, R, D>,
    after: &mut Machine<'_, R, D>,
    calls: &mut [i64],
    schedule: &Schedule,
    limit: u64,
    steps: &mut Steps<L>,
) -> Result<Outcome, AllocError>
    requires time { 0 < frame.time }
    requires steps { 0 < frame.steps }
    requires calls { calls.old ≡ no_calls ACTORS }
    requires image { after.old.image ≡ image.now }
    requires image_before { before.old.image ≡ image.now }
    requires schedule { after.old.schedule ≡ schedule.now }
    requires schedule_before { before.old.schedule ≡ schedule.now }
    requires stands { HoldsWorld after.old (code after.old.image after.old.schedule 0) }
    requires stands_before { HoldsWorld before.old (code before.old.image before.old.schedule 0) }
    ensures rows { OnOk result (text.new.items ≡ text.old.items ++ rows_text frame (picture_names image.now names.now) (rows image.now schedule.now limit)) }
    ensures ends { IfOk result (λ outcome. EndsBy outcome (code image.now schedule.now limit)) }
    ensures count { steps.new ≤ steps.old + 2 * limit }
{
    outcome_stays();
    let lines = schedule.lines();
    draw_start(text, alloc, image, names, frame, after, lines)?;
    let mut step = 0;
    while step < limit {
        if let Some(outcome) = after.outcome() {
            return Ok(outcome);
        }
        let ahead = ahead_of(before);
        let shown = after.step(steps);
        step += 1;
        draw_step(
            text, alloc, image, names, frame, before, after, lines, calls, ahead, &shown, step,
        )?;
        note_call(calls, before, after);
        before.step(steps);
    }
    Ok(after.outcome_or_limit())
}

/// Runs an image as `machine::run_within` does, with the same outcome, and writes its picture, with the last line of the run. Its protected objects have these
/// names, in the order of their numbers; one for which there is none that Ada allows is named by its number. Three machines take at most as many steps each as
/// the bound has, which are counted: one by which it is known how far the run goes, and two for the picture.
///
/// # Errors
/// `Memory` where memory was refused, before anything is written; `Write` where a write failed, and what was written then is a beginning of the text.
#[inline(never)]
pub fn picture<S: Sink, L: Ledger>(
    alloc: Global,
    image: &Image,
    names: &[Text],
    schedule: &Schedule,
    bound: Bound,
    sink: &mut S,
    steps: &mut Steps<L>,
) -> Result<Outcome, RunFault>
    ensures text { OnOk result (Appends (S.bytes sink.old) (S.bytes sink.new) (picture_text image.now names.now schedule.now bound)) }
    ensures ends { IfOk result (λ outcome. EndsBy outcome (code image.now schedule.now bound.steps)) }
    ensures kept { OnOk result (S.failures sink.new ≡ S.failures sink.old) }
    ensures memory { result ≡ Err RunFault.Memory → sink.new ≡ sink.old }
    ensures failed { result ≡ Err RunFault.Write → S.failures sink.old < S.failures sink.new }
    ensures beginning { AppendsBeginning (S.bytes sink.old) (S.bytes sink.new) (picture_text image.now names.now schedule.now bound) }
    ensures count { steps.new ≤ steps.old + 3 * bound.steps }
{
    let extent = extent_of(alloc, image, schedule, bound.steps, steps)?;
    let mut before: Machine<'_, RingReady, HeapDelays> = Machine::start(alloc, image, schedule)?;
    let mut after: Machine<'_, RingReady, HeapDelays> = Machine::start(alloc, image, schedule)?;
    let mut calls = no_calls(alloc)?;
    let frame = Frame::new(after.tasks(), after.objects(), extent.time, extent.steps);
    let mut text = Vec::new(alloc);
    add_front(&mut text, alloc, image, names, frame)?;
    let outcome = draw_on(
        &mut text,
        alloc,
        image,
        names,
        frame,
        &mut before,
        &mut after,
        &mut calls,
        schedule,
        bound.steps,
        steps,
    )?;
    let last = cut_line(image, &outcome, bound.cut);
    add_end(&mut text, frame, last.as_slice())?;
    match write_all(sink, text.as_slice()) {
        Ok(()) => Ok(outcome),
        Err(_) => Err(RunFault::Write),
    }
}
