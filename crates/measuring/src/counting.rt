//! The measures of all tasks and objects, with what one step of a run has changed.
ghost use Rattle.std.specs.Prelude.{◌≡◌, ◌*◌, IfOk, None, Some, length, replicate};
ghost use Rattle.base.specs.declared.limits.TheConstants.{OBJECTS};
ghost use Rattle.tasking.specs.Held.{kernel_of};
ghost use Rattle.tracing.specs.Changes.{since_clock, starts};
ghost use Rattle.tracing.specs.declared.calls.TheConstants.{ACTORS};
ghost use Rattle.measuring.specs.Measures.{measures, no_steps, object_measures, usage_measures};
ghost use Rattle.measuring.specs.Runs.{called_by_step, counted_by_step, happened_by_step, used_by_step};
ghost use Rattle.measuring.specs.Stories.{ObjectCalls, Stories, Usages, noticed, not_called, not_used, nothing_happened, with_call, with_calls, with_events, with_notice, with_step_inside, with_usage, with_usages};
ghost use Rattle.measuring.specs.Tables.{AreMeasured, AreWhole, IsGrid, IsTable};

use crate::actor::ActorMeasures;
use crate::happening::{Call, Happening, Notice, call_of, notice_of};
use crate::instants::Instants;
use crate::object::ObjectMeasures;
use crate::usage::{Usage, UsageMeasures, UsageNotice, usage_of};
use base::limits::OBJECTS;
use clock::Delays;
use dispatch::Ready;
use machine::{FrameUse, Machine};
use std::alloc::{AllocError, Global};
use tracing::{ACTORS, Ahead, Event, Events, since_clock, starts, until_clock};

/// The measures of a run: those of tasks and handlers by their numbers, those of objects by theirs, those of each task and handler at each object, and those of
/// instants.
#[derive(Drop)]
pub struct Measures {
    pub(crate) actors: Vec<ActorMeasures>,
    pub(crate) objects: Vec<ObjectMeasures>,
    pub(crate) usages: Vec<UsageMeasures>,
    pub(crate) instants: Instants,
}

// A table of so many rows, each of which has this value.
fn table_of<T: Copy>(alloc: Global, rows: usize, value: T) -> Result<Vec<T>, AllocError>
    ensures { IfOk result (λ table. table.items ≡ replicate rows value) }
{
    let mut table = Vec::new(alloc);
    let mut count = 0;
    while count < rows {
        table.push(value)?;
        count += 1;
    }
    Ok(table)
}

// With what has happened to a task.
fn note(actors: &mut [ActorMeasures], notice: Notice)
    requires room { length actors.old ≡ ACTORS }
    ensures noted { (stories : Stories) → IsTable actors.old (λ t. measures (stories t)) → IsTable actors.new
        (λ t. measures (with_notice (Some notice) stories t)) }
    ensures room { length actors.new ≡ ACTORS }
{
    actors[usize::from(notice.task)].note(notice.happening);
}

// With what events of this time, after so many steps of the run, say of tasks, of which there are so many.
fn note_events(actors: &mut [ActorMeasures], tasks: u8, time: i64, step: u64, events: &[Event])
    requires room { length actors.old ≡ ACTORS }
    ensures noted { (stories : Stories) → IsTable actors.old (λ t. measures (stories t)) → IsTable actors.new
        (λ t. measures (with_events tasks time step events.now stories t)) }
    ensures room { length actors.new ≡ ACTORS }
{
    for event in events {
        if let Some(notice) = notice_of(tasks, time, step, event) {
            note(actors, notice);
        }
    }
}

// With a call of an object.
fn note_call(objects: &mut [ObjectMeasures], call: Call)
    requires room { length objects.old ≡ ACTORS }
    ensures noted { (calls : ObjectCalls) → IsTable objects.old (λ o. object_measures (calls o)) → IsTable objects.new
        (λ o. object_measures (with_call (Some call) calls o)) }
    ensures room { length objects.new ≡ ACTORS }
{
    objects[usize::from(call.object)].note(call.is_queued);
}

// With the calls that events report.
fn note_calls(objects: &mut [ObjectMeasures], events: &[Event])
    requires room { length objects.old ≡ ACTORS }
    ensures noted { (calls : ObjectCalls) → IsTable objects.old (λ o. object_measures (calls o)) → IsTable objects.new
        (λ o. object_measures (with_calls events.now calls o)) }
    ensures room { length objects.new ≡ ACTORS }
{
    for event in events {
        if let Some(call) = call_of(event) {
            note_call(objects, call);
        }
    }
}

// With what a task does at an object.
fn note_usage(usages: &mut [UsageMeasures], notice: UsageNotice)
    requires room { length usages.old ≡ ACTORS * OBJECTS }
    ensures noted { (used : Usages) → IsGrid usages.old (λ t o. usage_measures (used t o)) → IsGrid usages.new
        (λ t o. usage_measures (with_usage (Some notice) used t o)) }
    ensures room { length usages.new ≡ ACTORS * OBJECTS }
{
    let object = usize::from(notice.object);
    if object < OBJECTS {
        usages[usize::from(notice.task) * OBJECTS + object].note(notice.usage);
    }
}

// With what events say that tasks do at objects.
fn note_usages(usages: &mut [UsageMeasures], events: &[Event])
    requires room { length usages.old ≡ ACTORS * OBJECTS }
    ensures noted { (used : Usages) → IsGrid usages.old (λ t o. usage_measures (used t o)) → IsGrid usages.new
        (λ t o. usage_measures (with_usages events.now used t o)) }
    ensures room { length usages.new ≡ ACTORS * OBJECTS }
{
    for event in events {
        if let Some(notice) = usage_of(event) {
            note_usage(usages, notice);
        }
    }
}

// With a step of this task inside the objects of which it has an action open before it.
fn note_step_inside<R: Ready, D: Delays>(
    usages: &mut [UsageMeasures],
    before: &Machine<'_, R, D>,
    ran: u8,
)
    requires room { length usages.old ≡ ACTORS * OBJECTS }
    ensures noted { (used : Usages) → IsGrid usages.old (λ t o. usage_measures (used t o)) →
        let k = kernel_of before.now.tasking in
        IsGrid usages.new (λ t o. usage_measures (with_step_inside k.partition.objects (k.actions ran) ran used t o)) }
    ensures room { length usages.new ≡ ACTORS * OBJECTS }
{
    for object in 0..before.objects() {
        if before.is_actor_inside(ran, object) {
            note_usage(
                usages,
                UsageNotice {
                    task: ran,
                    object,
                    usage: Usage::StepsInside,
                },
            );
        }
    }
}

// With what a step of this task does at objects: it is taken inside those of which the task has an action open before it, and has led to these events.
fn note_use<R: Ready, D: Delays>(
    usages: &mut [UsageMeasures],
    before: &Machine<'_, R, D>,
    ran: u8,
    until: &[Event],
)
    requires room { length usages.old ≡ ACTORS * OBJECTS }
    ensures noted { (used : Usages) → IsGrid usages.old (λ t o. usage_measures (used t o)) →
        let k = kernel_of before.now.tasking in
        IsGrid usages.new (λ t o. usage_measures (with_usages until.now (with_step_inside k.partition.objects (k.actions ran) ran used) t o)) }
    ensures room { length usages.new ≡ ACTORS * OBJECTS }
{
    note_step_inside(usages, before, ran);
    note_usages(usages, until);
}

// With what a step of this task says of tasks, before which it has this of frames, and which has led to these events before the clock moves, if it does.
fn note_changes<R: Ready, D: Delays>(
    actors: &mut [ActorMeasures],
    before: &Machine<'_, R, D>,
    after: &Machine<'_, R, D>,
    ran: u8,
    frames: Option<FrameUse>,
    step: u64,
    until: &[Event],
)
    requires { length actors.old ≡ ACTORS }
    ensures noted { (stories : Stories) → IsTable actors.old (λ t. measures (stories t)) →
        let k = kernel_of before.now.tasking in let l = kernel_of after.now.tasking in let tasks = length after.now.image.tasks in
        IsTable actors.new (λ t. measures (with_events tasks l.now step (since_clock k l ran)
        (with_events tasks k.now step until.now (with_notice (noticed ran (Happening.Steps step frames)) stories)) t)) }
    ensures room { length actors.new ≡ ACTORS }
{
    let since = since_clock(before, after, ran);
    let happening = Happening::Steps { step, frames };
    let tasks = after.tasks();
    note(
        actors,
        Notice {
            task: ran,
            happening,
        },
    );
    note_events(actors, tasks, before.now(), step, until);
    note_events(actors, tasks, after.now(), step, since.as_slice());
}

impl Measures {
    /// The measures before a run, in which nothing has happened.
    ///
    /// # Errors
    /// Where memory was refused.
    pub(crate) fn new(alloc: Global) -> Result<Measures, AllocError>
        ensures whole { IfOk result (λ measures. AreWhole measures) }
        ensures nothing { IfOk result (λ measures. AreMeasured measures nothing_happened not_called not_used no_steps) }
    {
        Ok(Measures {
            actors: table_of(alloc, ACTORS, ActorMeasures::default())?,
            objects: table_of(alloc, ACTORS, ObjectMeasures::default())?,
            usages: table_of(alloc, ACTORS * OBJECTS, UsageMeasures::default())?,
            instants: Instants::new(),
        })
    }

    /// With the start of a run.
    pub(crate) fn note_start<R: Ready, D: Delays>(&mut self, machine: &Machine<'_, R, D>)
        requires { AreWhole self.old }
        ensures whole { AreWhole self.new }
        ensures noted { (stories : Stories) (calls : ObjectCalls) (usages : Usages) (instants : Instants) → AreMeasured self.old stories calls usages instants →
            let k = kernel_of machine.now.tasking in AreMeasured self.new
            (with_events (length machine.now.image.tasks) k.now 0 (starts k) stories) calls usages instants }
    {
        let events = starts(machine);
        note_events(
            &mut self.actors,
            machine.tasks(),
            machine.now(),
            0,
            events.as_slice(),
        );
    }

    /// With this step of a run, which leads from one machine to the other, where these are the times of calls before it, what is known of it ahead, and the
    /// frames of who takes it.
    pub(crate) fn note_step<R: Ready, D: Delays>(
        &mut self,
        before: &Machine<'_, R, D>,
        after: &Machine<'_, R, D>,
        calls: &[i64],
        ahead: Ahead,
        frames: Option<FrameUse>,
        step: u64,
    )
        requires image { before.now.image ≡ after.now.image }
        requires whole { AreWhole self.old }
        ensures whole { AreWhole self.new }
        ensures noted { (stories : Stories) (called : ObjectCalls) (used : Usages) (instants : Instants) → AreMeasured self.old stories called used instants →
            let k = kernel_of before.now.tasking in let l = kernel_of after.now.tasking in AreMeasured self.new
            (happened_by_step (length after.now.image.tasks) calls.now ahead frames k l step None k.running stories)
            (called_by_step calls.now ahead k l None k.running called)
            (used_by_step calls.now ahead k l None k.running used)
            (counted_by_step k l None k.running instants) }
    {
        let Some(ran) = before.actor() else {
            return;
        };
        let until = until_clock(calls, before, after, ran, ahead);
        note_changes(
            &mut self.actors,
            before,
            after,
            ran,
            frames,
            step,
            until.as_slice(),
        );
        note_calls(&mut self.objects, until.as_slice());
        note_use(&mut self.usages, before, ran, until.as_slice());
        let moves = before.now() < after.now();
        self.instants.take_step(before.now(), moves);
    }
}
