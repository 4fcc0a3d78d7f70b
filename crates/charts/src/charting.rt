//! Charts of runs.
ghost use Rattle.std.specs.Prelude.{◌≡◌, ◌+◌, ◌*◌, ◌<◌, ◌≤◌, Err, IfErr, IfOk, None, OnErr, OnOk, length};
ghost use Rattle.std.specs.Io.KnownBytes.{Appends};
ghost use Rattle.image.specs.Code.{code};
ghost use Rattle.machine.specs.Stands.{EndsBy, HoldsWorld};
ghost use Rattle.machine.specs.Written.{AppendsBeginning};
ghost use Rattle.tasking.specs.Held.{kernel_of};
ghost use Rattle.tracing.specs.Calls.{no_calls};
ghost use Rattle.tracing.specs.Changes.{starts};
ghost use Rattle.tracing.specs.declared.calls.TheConstants.{ACTORS};
ghost use Rattle.charts.specs.Runs.{cells_after, cells_by_step};
ghost use Rattle.charts.specs.Scales as scales;
ghost use Rattle.charts.specs.Signs.{Cells, nothing_seen, with_events};
ghost use Rattle.charts.specs.Tables.{HoldsCells};
ghost use Rattle.charts.specs.Text.{chart_text};
ghost use Rattle.charts.specs.declared.table.TheConstants.{CELLS};

use crate::cell::{Cell, Sign};
use crate::last_time::last_time;
use crate::rows::Row;
use crate::scale::{SCALES, column, least_scale};
use crate::signs::{Note, is_line, line_note};
use crate::table::{no_cells, note, note_events};
use crate::text::text_of;
use clock::{Delays, HeapDelays, Schedule};
use dispatch::{Ready, RingReady};
use image::{Image, Text};
use image_laws::outcome_stays;
use machine::{Bound, Machine, Outcome, RunFault, Sink, Steps, cut_line, write_all};
use std::alloc::Global;
use std::sync::ledger::Ledger;
use tracing::{Ahead, ahead_of, no_calls, note_call, since_clock, starts, until_clock};

// With the start of a run.
fn note_start<R: Ready, D: Delays>(cells: &mut [Cell], scale: u64, machine: &Machine<'_, R, D>)
    requires room { length cells.old ≡ CELLS }
    requires positive { 0 < scale }
    ensures noted { (shown : Cells) → HoldsCells cells.old shown → let k = kernel_of machine.now.tasking in
        HoldsCells cells.new (with_events (scales.column scale k.now) (starts k) shown) }
    ensures room { length cells.new ≡ CELLS }
{
    let here = column(scale, machine.now());
    note_events(cells, here, starts(machine).as_slice());
}

// With a step of a run, which leads from one machine to the other and has written a line or not, where these are the times of calls before it and what is known
// of it ahead.
fn note_step<R: Ready, D: Delays>(
    cells: &mut [Cell],
    scale: u64,
    before: &Machine<'_, R, D>,
    after: &Machine<'_, R, D>,
    calls: &[i64],
    ahead: Ahead,
    wrote: bool,
)
    requires room { length cells.old ≡ CELLS }
    requires positive { 0 < scale }
    requires image { before.now.image ≡ after.now.image }
    ensures noted { (shown : Cells) → HoldsCells cells.old shown → let k = kernel_of before.now.tasking in let l = kernel_of after.now.tasking in
        HoldsCells cells.new (cells_by_step scale calls.now ahead k l wrote None k.running shown) }
    ensures room { length cells.new ≡ CELLS }
{
    let Some(ran) = before.actor() else {
        return;
    };
    let here = column(scale, before.now());
    let there = column(scale, after.now());
    let until = until_clock(calls, before, after, ran, ahead);
    let since = since_clock(before, after, ran);
    let acts = Note {
        row: Row::Actor(ran),
        sign: Sign::Acts,
    };
    note(cells, here, Some(acts));
    note(cells, here, line_note(wrote));
    note_events(cells, here, until.as_slice());
    note_events(cells, there, since.as_slice());
}

// Takes steps up to an outcome, `limit` of them at most, by two machines of which the first takes each step after the second, and notes their signs.
fn chart_on<R: Ready, D: Delays, L: Ledger>(
    cells: &mut [Cell],
    scale: u64,
    before: &mut Machine<'_, R, D>,
    after: &mut Machine<'_, R, D>,
    times: &mut [i64],
    limit: u64,
    steps: &mut Steps<L>,
) -> Outcome
    requires room { length cells.old ≡ CELLS }
    requires nothing { HoldsCells cells.old nothing_seen }
    requires positive { 0 < scale }
    requires times { times.old ≡ no_calls ACTORS }
    requires image { before.old.image ≡ after.old.image }
    requires schedule { before.old.schedule ≡ after.old.schedule }
    requires stands { HoldsWorld after.old (code after.old.image after.old.schedule 0) }
    requires stands_before { HoldsWorld before.old (code before.old.image before.old.schedule 0) }
    ensures room { length cells.new ≡ CELLS }
    ensures charted { HoldsCells cells.new (cells_after scale after.old.image after.old.schedule limit) }
    ensures ends { EndsBy result (code after.old.image after.old.schedule limit) }
    ensures count { steps.new ≤ steps.old + 2 * limit }
{
    outcome_stays();
    note_start(cells, scale, after);
    let mut step = 0;
    while step < limit {
        if let Some(outcome) = after.outcome() {
            return outcome;
        }
        let ahead = ahead_of(before);
        let shown = after.step(steps);
        step += 1;
        note_step(cells, scale, before, after, times, ahead, is_line(&shown));
        note_call(times, before, after);
        before.step(steps);
    }
    after.outcome_or_limit()
}

/// Runs an image as `machine::run_within` does, with the same outcome, and writes its chart and the last line of the run. Its protected objects have these
/// names, in the order of their numbers; one for which there is none is named by its number. Three machines take at most as many steps each as the bound has,
/// which are counted: one by which the time is known that a column has, and two for the chart.
///
/// # Errors
/// `Memory` where memory was refused, before anything is written; `Write` where a write failed, and what was written then is a beginning of the text.
#[inline(never)]
pub fn chart<S: Sink, L: Ledger>(
    alloc: Global,
    image: &Image,
    names: &[Text],
    schedule: &Schedule,
    bound: Bound,
    sink: &mut S,
    steps: &mut Steps<L>,
) -> Result<Outcome, RunFault>
    ensures text { OnOk result (Appends (S.bytes sink.old) (S.bytes sink.new) (chart_text image.now names.now schedule.now bound)) }
    ensures ends { IfOk result (λ outcome. EndsBy outcome (code image.now schedule.now bound.steps)) }
    ensures kept { OnOk result (S.failures sink.new ≡ S.failures sink.old) }
    ensures memory { result ≡ Err RunFault.Memory → sink.new ≡ sink.old }
    ensures failed { result ≡ Err RunFault.Write → S.failures sink.old < S.failures sink.new }
    ensures beginning { AppendsBeginning (S.bytes sink.old) (S.bytes sink.new) (chart_text image.now names.now schedule.now bound) }
    ensures count { steps.new ≤ steps.old + 3 * bound.steps }
{
    let last = last_time(alloc, image, schedule, bound.steps, steps)?;
    let scale = least_scale(&SCALES, last.unsigned_abs());
    let mut before: Machine<'_, RingReady, HeapDelays> = Machine::start(alloc, image, schedule)?;
    let mut after: Machine<'_, RingReady, HeapDelays> = Machine::start(alloc, image, schedule)?;
    let mut cells = no_cells(alloc)?;
    let mut times = no_calls(alloc)?;
    let tasks = after.tasks();
    let objects = after.objects();
    let outcome = chart_on(
        &mut cells,
        scale,
        &mut before,
        &mut after,
        &mut times,
        bound.steps,
        steps,
    );
    let lines = schedule.lines();
    let mut text = text_of(
        alloc, image, names, lines, tasks, objects, scale, last, &cells,
    )?;
    text.extend_from_slice(cut_line(image, &outcome, bound.cut).as_slice())?;
    match write_all(sink, text.as_slice()) {
        Ok(()) => Ok(outcome),
        Err(_) => Err(RunFault::Write),
    }
}
