//! Memory for the values of signals and for their text, which is made before the run and used again at each step.
ghost use Rattle.std.specs.Prelude.{◌≡◌, ◌+◌, ◌*◌, ◌≤◌, [], Some, IfOk, false, length, unsigned_abs, vec_capacity};
ghost use Rattle.base.specs.declared.limits.TheConstants.{CHANNELS};
ghost use Rattle.execution.specs.Held.{lines_of, world_of};
ghost use Rattle.waveforms.specs.Instants.{world_before};
ghost use Rattle.waveforms.specs.LastValues.{last_shown, last_values, noted_all, shown_by};
ghost use Rattle.waveforms.specs.Signals as signals;
ghost use Rattle.waveforms.specs.Signals.{object_first};
ghost use Rattle.waveforms.specs.TimeWaves.{instant_text};
ghost use Rattle.waveforms.specs.Waves.{start_text, step_text};

use crate::before_clock::read_values_before_clock;
use crate::inputs::{INPUTS, Inputs};
use crate::lines::{Lines, TaskLabel};
use crate::scopes::Scopes;
use crate::text::{STEP_BYTES, VALUE_BYTES, instant_text, start_text, step_text};
use crate::values::{read_values, sum};
use clock::{Delays, Schedule};
use dispatch::Ready;
use machine::{Line, Machine};
use std::alloc::{AllocError, Global};
use std::marker::Model;
use std::mem;

/// Rows for the values of so many signals, of the inputs and of lines: the values that were written last, if any were, and the text that is to be written.
#[derive(Drop)]
pub(crate) struct Rows<'s, 'i> {
    room: usize,
    inputs: Inputs<'s>,
    is_written: bool,
    last: Vec<u64>,
    next: Vec<u64>,
    lines: Lines<'i>,
    text: Vec<u8>,
}

impl<'s, 'i> Model for Rows<'s, 'i> {
    ghost use Rattle.std.specs.Prelude.{◌+◌, ◌*◌, ◌≤◌, length, vec_capacity};
    ghost use Rattle.base.specs.declared.limits.TheConstants.{CHANNELS};
    ghost use Rattle.waveforms.specs.LastValues.{HeldRows};
    ghost use Rattle.waveforms.specs.declared.text.TheConstants.{STEP_BYTES, VALUE_BYTES};

    ghost Value = { HeldRows };

    ghost view = { λ r. record { room = r.room; schedule = r.inputs; is_written = r.is_written; last = r.last.items; lines = r.lines; text = r.text.items } };

    ghost invariant = { λ r. (r.room + CHANNELS ≤ vec_capacity r.last) × (r.room + CHANNELS ≤ vec_capacity r.next)
        × (STEP_BYTES + (r.room + CHANNELS + length r.lines.labels) * VALUE_BYTES ≤ vec_capacity r.text) };
}

// How many bytes the text of a step may have, where there are so many signals.
fn text_room(signals: usize) -> Result<usize, AllocError>
    ensures { IfOk result (λ room. room ≡ STEP_BYTES + signals * VALUE_BYTES) }
{
    let lines = signals.checked_mul(VALUE_BYTES).ok_or(AllocError)?;
    STEP_BYTES.checked_add(lines).ok_or(AllocError)
}

// The values of all signals of a machine but those of lines, in place of other ones.
fn read_all<R: Ready, D: Delays>(
    values: &mut Vec<u64>,
    machine: &Machine<'_, R, D>,
    scopes: &Scopes,
    inputs: &Inputs<'_>,
)
    requires { object_first scopes.now (length machine.now.image.tasks) (length machine.now.image.objects) + CHANNELS ≤ vec_capacity values.old }
    ensures items { values.new.items ≡ signals.known_values scopes.now inputs.now (world_of machine.now) }
    ensures count { length values.new.items ≤ object_first scopes.now (length machine.now.image.tasks) (length machine.now.image.objects) + CHANNELS }
    ensures capacity { vec_capacity values.new ≡ vec_capacity values.old }
{
    read_values(values, machine, scopes);
    inputs.add_values(values, machine.now());
}

// The values of all signals but those of lines at this time, from which the clock has moved to where it is now, in place of other ones.
fn read_all_before_clock<R: Ready, D: Delays>(
    values: &mut Vec<u64>,
    machine: &Machine<'_, R, D>,
    scopes: &Scopes,
    inputs: &Inputs<'_>,
    time: i64,
)
    requires { object_first scopes.now (length machine.now.image.tasks) (length machine.now.image.objects) + CHANNELS ≤ vec_capacity values.old }
    ensures items { values.new.items ≡ signals.known_values scopes.now inputs.now (world_before time (world_of machine.now)) }
    ensures count { length values.new.items ≤ object_first scopes.now (length machine.now.image.tasks) (length machine.now.image.objects) + CHANNELS }
    ensures capacity { vec_capacity values.new ≡ vec_capacity values.old }
{
    read_values_before_clock(values, machine, scopes, time);
    inputs.add_values(values, time);
}

impl<'s, 'i> Rows<'s, 'i> {
    /// Rows for the values of so many signals, of the inputs that this schedule gives, and of these lines.
    ///
    /// # Errors
    /// Where memory was refused.
    pub(crate) fn new(
        alloc: Global,
        signals: usize,
        schedule: &'s Schedule,
        lines: Lines<'i>,
    ) -> Result<Rows<'s, 'i>, AllocError>
        ensures { IfOk result (λ rows.
            rows ≡ record { room = signals; schedule = schedule.now; is_written = false; last = []; lines = lines.entry; text = [] }) }
    {
        let places = sum(signals, INPUTS)?;
        let all = sum(places, lines.labels().len())?;
        Ok(Rows {
            room: signals,
            inputs: Inputs::new(schedule),
            is_written: false,
            last: Vec::with_capacity(alloc, places)?,
            next: Vec::with_capacity(alloc, places)?,
            lines,
            text: Vec::with_capacity(alloc, text_room(all)?)?,
        })
    }

    /// The inputs.
    pub(crate) fn inputs(&self) -> &Inputs<'s>
        ensures { result.now ≡ self.now.schedule }
    {
        &self.inputs
    }

    /// The labels of lines.
    pub(crate) fn labels(&self) -> &[TaskLabel<'i>]
        ensures { result.now ≡ self.now.lines.labels }
    {
        self.lines.labels()
    }

    /// The text that is to be written.
    pub(crate) fn text(&self) -> &[u8]
        ensures { result.now ≡ self.now.text }
    {
        &self.text
    }

    /// Notes the line that a step has written, if it has written one.
    pub(crate) fn note(&mut self, line: Option<Line>)
        ensures { let lines = self.old.lines in
            self.new ≡ record self.old { lines = record lines { current = noted_all (lines_of lines.image line) lines.labels lines.current } } }
    {
        self.lines.note(line);
    }

    /// Has the text of the start of a run, where the machine is.
    pub(crate) fn start<R: Ready, D: Delays>(
        &mut self,
        machine: &Machine<'_, R, D>,
        scopes: &Scopes,
    )
        requires { object_first scopes.now (length machine.now.image.tasks) (length machine.now.image.objects) ≡ self.old.room }
        ensures last { last_shown self.new ≡ shown_by scopes.now self.old (world_of machine.now) }
        ensures text { self.new.text ≡ start_text 0 (shown_by scopes.now self.old (world_of machine.now)) }
        ensures lines { self.new.lines ≡ record self.old.lines { written = self.old.lines.current } }
        ensures room { self.new.room ≡ self.old.room }
        ensures schedule { self.new.schedule ≡ self.old.schedule }
    {
        read_all(&mut self.last, machine, scopes, &self.inputs);
        start_text(&mut self.text, 0, &self.last, &self.lines);
        self.lines.mark_written();
        self.is_written = true;
    }

    /// Has the text of the step of this number, which has led to where the machine is: none where it has changed no value.
    pub(crate) fn step<R: Ready, D: Delays>(
        &mut self,
        step: u64,
        machine: &Machine<'_, R, D>,
        scopes: &Scopes,
    )
        requires { object_first scopes.now (length machine.now.image.tasks) (length machine.now.image.objects) ≡ self.old.room }
        ensures last { last_shown self.new ≡ shown_by scopes.now self.old (world_of machine.now) }
        ensures text { self.new.text ≡ step_text step (last_shown self.old) (shown_by scopes.now self.old (world_of machine.now)) }
        ensures lines { self.new.lines ≡ record self.old.lines { written = self.old.lines.current } }
        ensures room { self.new.room ≡ self.old.room }
        ensures schedule { self.new.schedule ≡ self.old.schedule }
    {
        read_all(&mut self.next, machine, scopes, &self.inputs);
        step_text(&mut self.text, step, &self.last, &self.next, &self.lines);
        mem::swap(&mut self.last, &mut self.next);
        self.lines.mark_written();
    }

    /// Has the text of the instant of this time (microseconds since the start), from which the clock has moved to where the machine is.
    pub(crate) fn ended<R: Ready, D: Delays>(
        &mut self,
        time: i64,
        machine: &Machine<'_, R, D>,
        scopes: &Scopes,
    )
        requires { object_first scopes.now (length machine.now.image.tasks) (length machine.now.image.objects) ≡ self.old.room }
        ensures last { last_values self.new ≡ Some (shown_by scopes.now self.old (world_before time (world_of machine.now))) }
        ensures text { self.new.text ≡ instant_text (unsigned_abs time) (last_values self.old)
            (shown_by scopes.now self.old (world_before time (world_of machine.now))) }
        ensures lines { self.new.lines ≡ record self.old.lines { written = self.old.lines.current } }
        ensures room { self.new.room ≡ self.old.room }
        ensures schedule { self.new.schedule ≡ self.old.schedule }
    {
        read_all_before_clock(&mut self.next, machine, scopes, &self.inputs, time);
        instant_text(
            &mut self.text,
            time.unsigned_abs(),
            self.is_written,
            &self.last,
            &self.next,
            &self.lines,
        );
        mem::swap(&mut self.last, &mut self.next);
        self.lines.mark_written();
        self.is_written = true;
    }

    /// Has the text of the instant in which the machine is.
    pub(crate) fn instant<R: Ready, D: Delays>(
        &mut self,
        machine: &Machine<'_, R, D>,
        scopes: &Scopes,
    )
        requires { object_first scopes.now (length machine.now.image.tasks) (length machine.now.image.objects) ≡ self.old.room }
        ensures text { let w = world_of machine.now in
            self.new.text ≡ instant_text (unsigned_abs w.kernel.now) (last_values self.old) (shown_by scopes.now self.old w) }
        ensures room { self.new.room ≡ self.old.room }
        ensures schedule { self.new.schedule ≡ self.old.schedule }
    {
        read_all(&mut self.next, machine, scopes, &self.inputs);
        instant_text(
            &mut self.text,
            machine.now().unsigned_abs(),
            self.is_written,
            &self.last,
            &self.next,
            &self.lines,
        );
    }
}
