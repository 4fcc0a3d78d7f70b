//! The lines of a run: the labels under which its tasks write them, and the values of the last ones.
ghost use Rattle.std.specs.Prelude.{◌≡◌, ◌+◌, ◌≤◌, IfErr, IfOk, None, Option, OnOk, [], length, vec_capacity, vec_len};
ghost use Rattle.std.specs.List.{list_any};
ghost use Rattle.image.specs.Code.{code};
ghost use Rattle.execution.specs.Held.{line_of, lines_of};
ghost use Rattle.waveforms.specs.LastValues.{noted, noted_all, value_with};
ghost use Rattle.waveforms.specs.Lines as lines;
ghost use Rattle.waveforms.specs.Lines.{is_under, line_values, with_line, with_lines};

use clock::{HeapDelays, Schedule};
use dispatch::RingReady;
use image::Image;
use image_laws::outcome_stays;
use kernel::laws::left_unmoved;
use machine::{Line, Machine, RunFault, Steps, label};
use std::alloc::{AllocError, Global};
use std::marker::Model;
use std::mem;
use std::sync::ledger::Ledger;

/// A label of a task, or of the handler of an interrupt. Contracts see the number that its lines have, and the label.
#[derive(Drop)]
pub(crate) struct TaskLabel<'i> {
    task: u8,
    label: &'i [u8],
}

impl<'i> Model for TaskLabel<'i> {
    ghost use Rattle.waveforms.specs.Lines as lines;

    ghost Value = { lines.TaskLabel };

    ghost view = { λ l. record { task = l.task; label = l.label.now } };

    ghost invariant = { λ l. Unit {0} };
}

impl<'i> TaskLabel<'i> {
    /// The number of the task or handler, as its lines have it.
    pub(crate) fn task(&self) -> u8
        ensures { result ≡ self.now.task }
    {
        self.task
    }

    /// The label.
    pub(crate) fn label(&self) -> &[u8]
        ensures { result.now ≡ self.now.label }
    {
        self.label
    }

    // Whether a line is one of this task under this label.
    fn is_under(&self, image: &Image, line: &Line) -> bool
        ensures { result ≡ is_under self.now (line_of image.now line.now) }
    {
        self.task == line.task && self.label == label(image, line.label)
    }
}

// The label of a line.
fn label_of<'i>(image: &'i Image, line: &Line) -> TaskLabel<'i>
    ensures { result ≡ lines.label_of (line_of image.now line.now) }
{
    TaskLabel {
        task: line.task,
        label: label(image, line.label),
    }
}

// Whether a line's label is among these.
fn is_listed(labels: &[TaskLabel<'_>], image: &Image, line: &Line) -> bool
    ensures { result ≡ list_any (λ p. is_under p (line_of image.now line.now)) labels.now }
{
    labels.iter().any(|own| own.is_under(image, line))
}

// Adds the label of a line, unless it is there.
fn add_label<'i>(
    labels: &mut Vec<TaskLabel<'i>>,
    image: &'i Image,
    line: &Line,
) -> Result<(), AllocError>
    ensures { OnOk result (labels.new.items ≡ with_line labels.old.items (line_of image.now line.now)) }
{
    if is_listed(labels, image, line) {
        return Ok(());
    }
    labels.push(label_of(image, line))?;
    Ok(())
}

// Adds the label of a line, if there is one, unless it is there.
fn add_label_if_any<'i>(
    labels: &mut Vec<TaskLabel<'i>>,
    image: &'i Image,
    line: Option<Line>,
) -> Result<(), AllocError>
    ensures { OnOk result (labels.new.items ≡ with_lines labels.old.items (lines_of image.now line)) }
{
    match line {
        None => Ok(()),
        Some(line) => add_label(labels, image, &line),
    }
}

// The labels of the lines that a run of at most so many steps writes. To know them it runs the image; its steps are counted.
#[inline(never)]
fn labels_of_run<'i, L: Ledger>(
    alloc: Global,
    image: &'i Image,
    schedule: &Schedule,
    limit: u64,
    steps: &mut Steps<L>,
) -> Result<Vec<TaskLabel<'i>>, RunFault>
    ensures labels { IfOk result (λ labels. labels.items ≡ lines.labels_of (code image.now schedule.now limit).kernel.lines) }
    ensures fault { IfErr result (λ fault. fault ≡ RunFault.Memory) }
    ensures count { steps.new ≤ steps.old + limit }
{
    outcome_stays();
    left_unmoved();
    let mut machine: Machine<'_, RingReady, HeapDelays> = Machine::start(alloc, image, schedule)?;
    let mut labels = Vec::new(alloc);
    let mut taken = 0;
    while taken < limit {
        if let Some(_) = machine.outcome() {
            return Ok(labels);
        }
        let line = machine.step_line(steps);
        taken += 1;
        add_label_if_any(&mut labels, image, line)?;
    }
    Ok(labels)
}

// No value for each label.
fn no_values(alloc: Global, labels: &[TaskLabel<'_>]) -> Result<Vec<Option<u64>>, AllocError>
    ensures items { IfOk result (λ values. values.items ≡ line_values labels.now []) }
    ensures room { IfOk result (λ values. length labels.now ≤ vec_capacity values) }
{
    let mut values = Vec::with_capacity(alloc, labels.len())?;
    for _label in labels {
        values.push_reserved(None);
    }
    Ok(values)
}

// The value of a label with a line.
fn value_with(label: &TaskLabel<'_>, image: &Image, line: &Line, before: Option<u64>) -> Option<u64>
    ensures { result ≡ value_with (line_of image.now line.now) label.now before }
{
    if label.is_under(image, line) {
        Some(line.value.cast_unsigned())
    } else {
        before
    }
}

// The values of labels with a line, in place of other ones.
fn note(
    values: &mut Vec<Option<u64>>,
    before: &[Option<u64>],
    labels: &[TaskLabel<'_>],
    image: &Image,
    line: &Line,
)
    requires same { length before.now ≡ length labels.now }
    requires room { length labels.now ≤ vec_capacity values.old }
    ensures items { values.new.items ≡ noted (line_of image.now line.now) labels.now before.now }
    ensures len { vec_len values.new ≡ length labels.now }
    ensures capacity { vec_capacity values.new ≡ vec_capacity values.old }
{
    values.clear();
    for index in 0..labels.len() {
        values.push_reserved(value_with(&labels[index], image, line, before[index]));
    }
}

/// The labels of the lines of a run, and for each the value that was written last and the one that is current, where there are any.
#[derive(Drop)]
pub(crate) struct Lines<'i> {
    image: &'i Image,
    labels: Vec<TaskLabel<'i>>,
    written: Vec<Option<u64>>,
    current: Vec<Option<u64>>,
    spare: Vec<Option<u64>>,
}

impl<'i> Model for Lines<'i> {
    ghost use Rattle.std.specs.Prelude.{◌≡◌, ◌≤◌, length, vec_capacity};
    ghost use Rattle.waveforms.specs.LastValues.{HeldLines};

    ghost Value = { HeldLines };

    ghost view = { λ l. record { image = l.image.now; labels = l.labels.items; written = l.written.items; current = l.current.items } };

    ghost invariant = { λ l. (length l.written.items ≡ length l.labels.items) × (length l.current.items ≡ length l.labels.items)
        × (length l.labels.items ≤ vec_capacity l.current) × (length l.labels.items ≤ vec_capacity l.spare) };
}

impl<'i> Lines<'i> {
    // Lines with these labels, before the first line.
    fn new(
        alloc: Global,
        image: &'i Image,
        labels: Vec<TaskLabel<'i>>,
    ) -> Result<Lines<'i>, AllocError>
        ensures { IfOk result (λ own. let given = labels.entry.items in
            own ≡ record { image = image.now; labels = given; written = line_values given []; current = line_values given [] }) }
    {
        let written = no_values(alloc, &labels)?;
        let current = no_values(alloc, &labels)?;
        let spare = no_values(alloc, &labels)?;
        Ok(Lines {
            image,
            labels,
            written,
            current,
            spare,
        })
    }

    /// The lines of a run of at most so many steps, before the first line. To know their labels it runs the image; its steps are counted.
    ///
    /// # Errors
    /// `Memory` where memory was refused.
    pub(crate) fn of_run<L: Ledger>(
        alloc: Global,
        image: &'i Image,
        schedule: &Schedule,
        limit: u64,
        steps: &mut Steps<L>,
    ) -> Result<Lines<'i>, RunFault>
        ensures lines { IfOk result (λ own. let labels = lines.labels_of (code image.now schedule.now limit).kernel.lines in
            own ≡ record { image = image.now; labels = labels; written = line_values labels []; current = line_values labels [] }) }
        ensures fault { IfErr result (λ fault. fault ≡ RunFault.Memory) }
        ensures count { steps.new ≤ steps.old + limit }
    {
        let labels = labels_of_run(alloc, image, schedule, limit, steps)?;
        let lines = Lines::new(alloc, image, labels)?;
        Ok(lines)
    }

    /// The labels, in the order of their first lines.
    pub(crate) fn labels(&self) -> &[TaskLabel<'i>]
        ensures { result.now ≡ self.now.labels }
    {
        &self.labels
    }

    /// The values that were written last.
    pub(crate) fn written(&self) -> &[Option<u64>]
        ensures is { result.now ≡ self.now.written }
        ensures many { length result.now ≡ length self.now.labels }
    {
        &self.written
    }

    /// The values of the last lines so far.
    pub(crate) fn current(&self) -> &[Option<u64>]
        ensures is { result.now ≡ self.now.current }
        ensures many { length result.now ≡ length self.now.labels }
    {
        &self.current
    }

    // With a line.
    fn note_line(&mut self, line: &Line)
        ensures { self.new ≡ record self.old { current = noted (line_of self.old.image line.now) self.old.labels self.old.current } }
    {
        note(
            &mut self.spare,
            &self.current,
            &self.labels,
            self.image,
            line,
        );
        mem::swap(&mut self.current, &mut self.spare);
    }

    /// Notes the line that a step has written, if it has written one.
    pub(crate) fn note(&mut self, line: Option<Line>)
        ensures { self.new ≡ record self.old { current = noted_all (lines_of self.old.image line) self.old.labels self.old.current } }
    {
        match line {
            None => {}
            Some(line) => self.note_line(&line),
        }
    }

    /// The current values are those that were written last.
    pub(crate) fn mark_written(&mut self)
        ensures { self.new ≡ record self.old { written = self.old.current } }
    {
        self.written.copy_from_slice(&self.current);
    }
}
