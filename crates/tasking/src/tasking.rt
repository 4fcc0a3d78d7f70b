//! The tasks and protected objects of a partition, and the moves of which effects are made.
ghost use Rattle.std.specs.Prelude.{◌≡◌, ◌<◌, ◌≤◌, ◌+◌, ◌∷◌, ◌≢◌, List, [], get_or, int_lt, length, IfOk, IfSome, None, Some, true, false};
ghost use Rattle.base.specs.declared.limits.TheConstants.{CEILING, CHANNELS, OBJECTS, PRIORITIES, TASKS};
ghost use Rattle.kernel.specs.State.{Writes, active, inside, inside_among, is_object_open, is_task};
ghost use Rattle.kernel.specs.Dispatching.{becomes_ready, dispatch, highest, leaves, preempted, runs_from};
ghost use Rattle.kernel.specs.Interrupts.{actor_if, asked, delivers, told};
ghost use Rattle.kernel.specs.Clock.{clock, falls_asleep, last_outcome, next, some_queued, wakes_due};
ghost use Rattle.kernel.specs.Effects.{begin, blank, call_refusal, is_above_ceiling, is_full, is_inside_any};
ghost use Rattle.kernel.specs.Effects.{Delays as DelaysUntil, effect, ending_of, ends, goes_if, outer_of, queues, takes_over, with_actions};
ghost use Rattle.kernel.specs.Invariant.{AreAttached, Fits};
ghost use Rattle.protected.specs.Actions.{IsTaskOrHandler};
ghost use Rattle.tasking.specs.Held.{action_of, ending_as, index_in, innermost, kernel_of, lists_below, outcome_of, partition_of, pending_of, place_of, refused_as, sleepers_of, some_action, some_outcome};
ghost use Rattle.tasking.specs.Waits.{wake_time};
ghost use Rattle.tasking.specs.Orderly.{AreAwoken, BeginsAttached, IsNowhere, IsOfObject, IsOrderly, IsTask, StandsThere, MayEnd, due, inside_of, is_above, is_gone, least_of, time_ahead, waiting};

use crate::action_kinds::{close_kind, copied_kinds, innermost_kind, open_kind, serve_kind};
use crate::pause::{Pause, Tables};
use crate::reports::{Ending, Kind, Outcome, Place};
use arrayvec::ArrayVec;
use base::ScheduleLine;
use base::limits::{ACTOR, OBJECTS, TASKS};
use clock::{Delays, Sleeper};
use dispatch::Ready;
use protected::{Objects, Refusal};
use std::alloc::{AllocError, Global};
use std::marker::Model;

/// How many may be inside an object at most: all tasks and a handler.
pub const ACTORS: usize = TASKS + 1;

/// For each channel, in the place of its number, the object whose procedure is its handler, if it has one (RM C.3.1).
pub type Attached = [Option<u8>; 9];

/// The tasks and protected objects of a partition, and the handlers of interrupts, at a time. Nothing takes memory after `start`, and nothing fails. Tasks and
/// objects are numbers in the lists that `start` was given; the handler of a channel has the number of tasks and the channel as its number.
#[derive(Drop)]
pub struct Tasking<'a, R: Ready, D: Delays> {
    running: Option<u8>,
    handler: Option<u8>,
    ready: R,
    delays: D,
    tables: Box<Tables>,
    places: [Place; TASKS],
    time: i64,
    outcome: Option<Outcome>,
    attached: Attached,
    ahead: &'a [ScheduleLine],
}

impl<'a, R: Ready, D: Delays> Model for Tasking<'a, R, D> {
    ghost use Rattle.std.specs.Prelude.{map};
    ghost use Rattle.tasking.specs.Held.{Held, held_of as held};
    ghost use Rattle.tasking.specs.Orderly.{IsKeptOrderly as Kept};

    ghost Value = { Held };

    ghost view = { λ s. held s.running s.handler (R.queues s.ready) (D.sleepers s.delays) s.tables.value.objects (map (λ l. l.items) s.tables.value.kinds)
        s.places s.time s.outcome s.attached s.ahead.now };

    ghost invariant = { λ s. Kept (held s.running s.handler (R.queues s.ready) (D.sleepers s.delays) s.tables.value.objects
        (map (λ l. l.items) s.tables.value.kinds) s.places s.time s.outcome s.attached s.ahead.now) };
}

// The object whose procedure is the handler of a channel, if it has one.
fn object_of(attached: &Attached, channel: u8) -> Option<u8>
    ensures { result ≡ get_or attached.now channel None }
{
    match attached.get(usize::from(channel)) {
        None => None,
        Some(object) => *object,
    }
}

// What stands behind the lines of which no channel has a handler.
fn from_attached<'b>(attached: &Attached, lines: &'b [ScheduleLine]) -> &'b [ScheduleLine]
    ensures same { pending_of attached.now result.now ≡ pending_of attached.now lines.now }
    ensures begins { BeginsAttached attached.now result.now }
{
    let mut left = lines;
    while let [line, rest @ ..] = left {
        if object_of(attached, line.channel).is_some() {
            return left;
        }
        left = rest;
    }
    left
}

// How many lines are of channels that have a handler.
fn attached_count(attached: &Attached, lines: &[ScheduleLine]) -> usize
    ensures { result ≡ length (pending_of attached.now lines.now) }
{
    let mut count = 0;
    for line in lines {
        if object_of(attached, line.channel).is_some() {
            count += 1;
        }
    }
    count
}

// These tasks sleep.
fn sleeping<D: Delays>(sleepers: &[Sleeper]) -> D
    requires { length sleepers.now ≤ TASKS }
    ensures { D.sleepers result ≡ sleepers.now }
{
    let mut delays = D::new();
    for sleeper in sleepers {
        delays.add(sleeper.task, sleeper.wake);
    }
    delays
}

impl<'a, R: Ready, D: Delays> Tasking<'a, R, D> {
    /// The tasks and objects with these base and ceiling priorities at time 0: all tasks are ready in order of declaration, and dispatched (RM 9.2, H.6). The
    /// lines of a schedule are interrupts where their channel has a handler (RM C.3).
    ///
    /// # Errors
    /// Where memory was refused.
    pub fn start(
        alloc: Global,
        bases: &[u8],
        ceilings: &[u8],
        attached: Attached,
        lines: &'a [ScheduleLine],
    ) -> Result<Self, AllocError>
        requires tasks { length bases.now ≤ TASKS }
        requires objects { length ceilings.now ≤ OBJECTS }
        requires priorities { Fits (partition_of bases.now ceilings.now) }
        requires channels { length attached ≤ CHANNELS + 1 }
        requires attached { AreAttached (partition_of bases.now ceilings.now) (pending_of attached lines.now) }
        ensures { IfOk result (λ tasking. kernel_of tasking ≡ begin (partition_of bases.now ceilings.now) (pending_of attached lines.now)) }
    {
        let mut tasking = Self::blank(alloc, bases, ceilings, attached, lines)?;
        for task in 0..tasking.task_count() {
            tasking.becomes_ready(task);
        }
        tasking.settle();
        Ok(tasking)
    }

    // The tasks and objects at time 0, before any task is ready.
    fn blank(
        alloc: Global,
        bases: &[u8],
        ceilings: &[u8],
        attached: Attached,
        lines: &'a [ScheduleLine],
    ) -> Result<Self, AllocError>
        requires tasks { length bases.now ≤ TASKS }
        requires objects { length ceilings.now ≤ OBJECTS }
        requires priorities { Fits (partition_of bases.now ceilings.now) }
        requires channels { length attached ≤ CHANNELS + 1 }
        requires attached { AreAttached (partition_of bases.now ceilings.now) (pending_of attached lines.now) }
        ensures { IfOk result (λ tasking. kernel_of tasking ≡ blank (partition_of bases.now ceilings.now) (pending_of attached lines.now)) }
    {
        let tables = Box::new(
            alloc,
            Tables {
                objects: Objects::new(bases, ceilings),
                kinds: Default::default(),
            },
        )?;
        Ok(Tasking {
            running: None,
            handler: None,
            ready: R::new(),
            delays: D::new(),
            tables,
            places: [Place::Finished; TASKS],
            time: 0,
            outcome: None,
            attached,
            ahead: lines,
        })
    }

    /// A copy without the interrupts that are pending, if no task is ready and there is no outcome.
    pub fn pause(&self) -> Option<Pause>
        ensures kernel { IfSome result (λ pause. kernel_of pause ≡ record (kernel_of self.now) { pending = [] }) }
        ensures handler { IfSome result (λ pause. pause.handler ≡ self.now.handler) }
    {
        if self.is_idle() {
            Some(self.copied())
        } else {
            None
        }
    }

    // Whether no task is ready and there is no outcome.
    fn is_idle(&self) -> bool
        ensures outcome { result ≡ true → self.now.outcome ≡ None }
        ensures ready { result ≡ true → self.now.ready ≡ lists_below PRIORITIES (λ p. []) }
    {
        match self.outcome {
            Some(_) => false,
            None => self.ready.highest().is_none(),
        }
    }

    // A copy without the interrupts that are pending.
    fn copied(&self) -> Pause
        requires outcome { self.now.outcome ≡ None }
        requires ready { self.now.ready ≡ lists_below PRIORITIES (λ p. []) }
        ensures kernel { kernel_of result ≡ record (kernel_of self.now) { pending = [] } }
        ensures handler { result.handler ≡ self.now.handler }
    {
        let tables = &*self.tables;
        Pause {
            running: self.running,
            handler: self.handler,
            sleepers: self.delays.in_order(),
            objects: tables.objects.copy(),
            kinds: copied_kinds(&tables.kinds),
            places: self.places,
            time: self.time,
        }
    }

    /// What there is a copy of, in these tables, with these lines of a schedule as pending interrupts where their channel has a handler (RM C.3).
    pub fn resume(
        pause: &Pause,
        mut tables: Box<Tables>,
        attached: Attached,
        lines: &'a [ScheduleLine],
    ) -> Self
        requires channels { length attached ≤ CHANNELS + 1 }
        requires attached { AreAttached (kernel_of pause.now).partition (pending_of attached lines.now) }
        ensures kernel { kernel_of result ≡ record (kernel_of pause.now) { pending = pending_of attached lines.now } }
        ensures handler { result.handler ≡ pause.now.handler }
    {
        tables.restore(pause);
        Tasking {
            running: pause.running,
            handler: pause.handler,
            ready: R::new(),
            delays: sleeping(pause.sleepers.as_slice()),
            tables,
            places: pause.places,
            time: pause.time,
            outcome: None,
            attached,
            ahead: lines,
        }
    }

    /// Whether a number is a task's.
    pub fn is_task(&self, task: u8) -> bool
        ensures { result ≡ is_task (kernel_of self.now).partition task }
    {
        task < self.tables.objects.task_count()
    }

    /// Whether a number is that of a task, or of the handler that runs. Any other one has no action open, and the highest priority.
    pub fn is_there(&self, number: u8) -> bool
        ensures there { result ≡ true → StandsThere (kernel_of self.now) number }
        ensures gone { result ≡ false → (active (kernel_of self.now) number ≡ CEILING) × ((kernel_of self.now).actions number ≡ []) }
    {
        let _ = &self.running;
        if self.is_task(number) {
            return true;
        }
        self.runs(number)
    }

    // Whether this one runs.
    fn runs(&self, number: u8) -> bool
        ensures runs { result ≡ true → self.now.running ≡ Some number }
        ensures others { result ≡ false → self.now.running ≢ Some number }
    {
        match self.running {
            Some(running) => running == number,
            None => false,
        }
    }

    /// The number by which a task, or the handler that runs, is reported: that of the handler is 255 (RM C.3.1).
    pub fn told(&self, task: u8) -> u8
        ensures told { result ≡ told (kernel_of self.now).partition task }
        ensures one { IsTaskOrHandler self.now.objects result }
    {
        if self.is_task(task) { task } else { ACTOR }
    }

    /// Who is reported by a number, if there is one: a task, or by 255 the handler that runs.
    pub fn asked(&self, number: u8) -> Option<u8>
        ensures same { result ≡ asked (kernel_of self.now) number }
        ensures there { IfSome result (λ t. StandsThere (kernel_of self.now) t) }
    {
        if self.is_task(number) {
            return Some(number);
        }
        if number != ACTOR {
            return None;
        }
        self.handler
    }

    // The row of a task, or of the handler.
    fn row(&self, task: u8) -> usize
        ensures row { result ≡ index_in self.now task }
        ensures low { result ≤ TASKS }
    {
        let _ = &self.running;
        if self.is_task(task) {
            usize::from(task)
        } else {
            TASKS
        }
    }

    /// The running task or handler, if there is one.
    pub fn running(&self) -> Option<u8>
        ensures same { result ≡ self.now.running }
        ensures there { IfSome result (λ t. StandsThere (kernel_of self.now) t) }
    {
        self.running
    }

    /// The handler that runs, if one does.
    pub fn handler(&self) -> Option<u8>
        ensures same { result ≡ self.now.handler }
        ensures running { result ≡ actor_if (kernel_of self.now).partition (kernel_of self.now).running }
    {
        self.handler
    }

    /// Virtual time, in microseconds since the start.
    pub fn now(&self) -> i64
        ensures { result ≡ (kernel_of self.now).now }
    {
        self.time
    }

    /// How the run has come to its end, if it has.
    pub fn outcome(&self) -> Option<Outcome>
        ensures { some_outcome result ≡ (kernel_of self.now).outcome }
    {
        self.outcome
    }

    /// How many interrupts are pending.
    pub fn pending(&self) -> usize
        ensures { result ≡ length (kernel_of self.now).pending }
    {
        attached_count(&self.attached, self.ahead)
    }

    /// Where a task is; a handler runs, or is as one that has finished, and so is a number that no task has.
    pub fn place(&self, task: u8) -> Place
        ensures { place_of result ≡ (kernel_of self.now).place task }
    {
        if self.is_task(task) {
            return self.places[usize::from(task)];
        }
        match self.handler {
            Some(handler) if handler == task => Place::Running,
            _ => Place::Finished,
        }
    }

    /// The time that a task waits for, in microseconds since the start, if it sleeps (RM 9.6).
    pub fn wake_time(&self, task: u8) -> Option<i64>
        ensures { result ≡ wake_time task (kernel_of self.now).sleepers }
    {
        self.delays.wake_time(task)
    }

    /// The sleeping tasks with the times that they wait for, in the order in which they began to wait (RM 9.6).
    pub fn sleepers(&self) -> ArrayVec<Sleeper, TASKS>
        ensures { sleepers_of result.items ≡ (kernel_of self.now).sleepers }
    {
        self.delays.in_order()
    }

    /// The time of the next interrupt, if one is pending (RM C.3).
    pub fn next_interrupt(&self) -> Option<i64>
        ensures { result ≡ time_ahead (kernel_of self.now).pending }
    {
        let ahead = from_attached(&self.attached, self.ahead);
        match ahead.first() {
            None => None,
            Some(line) => Some(line.time),
        }
    }

    /// The active priority of a task: the greatest of its base priority and the ceilings of its open actions (RM D.3).
    pub fn active(&self, task: u8) -> u8
        requires { StandsThere (kernel_of self.now) task }
        ensures same { result ≡ active (kernel_of self.now) task }
        ensures low { result < PRIORITIES }
    {
        self.tables.objects.active(self.told(task))
    }

    /// Why a task may not open an action of an object by an external call, if anything refuses it (RM 9.5.1, D.3).
    pub fn call_refusal(&self, task: u8, object: u8) -> Option<Refusal>
        requires task { StandsThere (kernel_of self.now) task }
        requires object { object < (kernel_of self.now).partition.objects }
        ensures { result ≡ refused_as (call_refusal (kernel_of self.now) task object) }
    {
        self.tables.objects.may_open(self.told(task), object).err()
    }

    /// Whether a task's active priority exceeds the ceiling of an object (RM D.3).
    pub fn is_above_ceiling(&self, task: u8, object: u8) -> bool
        requires task { StandsThere (kernel_of self.now) task }
        requires object { object < (kernel_of self.now).partition.objects }
        ensures { result ≡ is_above_ceiling (kernel_of self.now) task object }
    {
        self.tables.objects.ceiling(object) < self.active(task)
    }

    /// Whether a call waits in the queue of an object, so that no other may (RM D.7).
    pub fn is_full(&self, object: u8) -> bool
        requires { object < (kernel_of self.now).partition.objects }
        ensures { result ≡ is_full (kernel_of self.now) object }
    {
        self.tables.objects.queued(object).is_some()
    }

    /// Whether a task is inside any action (RM 9.5.1, H.5).
    pub fn is_inside_any(&self, task: u8) -> bool
        requires { StandsThere (kernel_of self.now) task }
        ensures { result ≡ is_inside_any (kernel_of self.now) task }
    {
        self.tables.objects.in_action(self.told(task))
    }

    /// The task whose call waits in the queue of an object, if there is one.
    pub fn queued(&self, object: u8) -> Option<u8>
        requires { object < (kernel_of self.now).partition.objects }
        ensures { result ≡ (kernel_of self.now).queued object }
    {
        self.tables.objects.queued(object)
    }

    /// The tasks inside an object, by their numbers, and the handler (RM 9.5.1).
    pub fn inside(&self, object: u8) -> ArrayVec<u8, ACTORS>
        ensures { result.items ≡ inside (kernel_of self.now) object }
    {
        let _ = &self.running;
        let mut tasks = self.tasks_inside(object);
        if let Some(handler) = self.handler_inside(object) {
            tasks.push(handler);
        }
        tasks
    }

    // The tasks among them.
    fn tasks_inside(&self, object: u8) -> ArrayVec<u8, ACTORS>
        ensures tasks { result.items ≡ inside_among (kernel_of self.now).partition.tasks (kernel_of self.now) object }
        ensures few { length result.items ≤ TASKS }
    {
        let mut tasks = ArrayVec::new();
        for task in 0..self.task_count() {
            if self.is_inside(task, object) {
                tasks.push(task);
            }
        }
        tasks
    }

    // The handler, if it is inside an object.
    fn handler_inside(&self, object: u8) -> Option<u8>
        ensures { result ≡ inside_of (λ a. is_object_open object ((kernel_of self.now).actions a)) self.now.handler }
    {
        let handler = self.handler?;
        if self.is_inside(handler, object) {
            Some(handler)
        } else {
            None
        }
    }

    /// The number of objects.
    pub fn object_count(&self) -> u8
        ensures { result ≡ (kernel_of self.now).partition.objects }
    {
        self.tables.objects.object_count()
    }

    /// The number of tasks.
    pub fn task_count(&self) -> u8
        ensures same { result ≡ (kernel_of self.now).partition.tasks }
        ensures few { result ≤ TASKS }
    {
        self.tables.objects.task_count()
    }

    // Whether a task is inside an object.
    fn is_inside(&self, task: u8, object: u8) -> bool
        requires { StandsThere (kernel_of self.now) task }
        ensures { result ≡ is_object_open object ((kernel_of self.now).actions task) }
    {
        self.tables.objects.is_open(self.told(task), object)
    }

    // The running task gives up the processor (RM D.2.1).
    pub(crate) fn leaves(&mut self, task: u8)
        requires task { IsTask (kernel_of self.old) task }
        requires running { self.old.running ≡ Some task }
        ensures moved { kernel_of self.new ≡ leaves task (kernel_of self.old) }
        ensures nowhere { IsNowhere (kernel_of self.new) task }
        ensures task { IsTask (kernel_of self.new) task }
    {
        self.running = None;
        self.places[usize::from(task)] = Place::Finished;
    }

    // The handler is over, with no action open.
    fn handler_leaves(&mut self, task: u8)
        requires handler { self.old.handler ≡ Some task }
        requires none { (kernel_of self.old).actions task ≡ [] }
        ensures { kernel_of self.new ≡ leaves task (kernel_of self.old) }
    {
        self.running = None;
        self.handler = None;
    }

    // A task that is nowhere becomes ready: the tail of the list of its active priority (RM D.2.3).
    fn becomes_ready(&mut self, task: u8)
        requires task { IsTask (kernel_of self.old) task }
        requires nowhere { IsNowhere (kernel_of self.old) task }
        ensures { kernel_of self.new ≡ becomes_ready task (kernel_of self.old) }
    {
        let priority = self.active(task);
        self.ready.add_tail(task, priority);
        self.places[usize::from(task)] = Place::Ready;
    }

    // The running task is preempted: the head of the list of its active priority (RM D.2.3).
    fn preempted(&mut self, task: u8)
        requires running { self.old.running ≡ Some task }
        requires task { IsTask (kernel_of self.old) task }
        ensures { kernel_of self.new ≡ preempted task (kernel_of self.old) }
    {
        let priority = self.active(task);
        self.running = None;
        self.ready.add_head(task, priority);
        self.places[usize::from(task)] = Place::Ready;
    }

    // A task that is nowhere waits for a time (RM 9.6).
    fn falls_asleep(&mut self, task: u8, wake: i64)
        requires task { IsTask (kernel_of self.old) task }
        requires nowhere { IsNowhere (kernel_of self.old) task }
        ensures { kernel_of self.new ≡ falls_asleep task wake (kernel_of self.old) }
    {
        self.delays.add(task, wake);
        self.places[usize::from(task)] = Place::Asleep;
    }

    // Where nobody runs, the head of the highest list that is not empty runs (RM D.2.1).
    fn run_highest(&mut self)
        requires { self.old.running ≡ None }
        ensures { kernel_of self.new ≡ runs_from (highest (kernel_of self.old).ready PRIORITIES) (kernel_of self.old) }
    {
        if let Some(task) = self.ready.take_highest() {
            self.running = Some(task);
            self.places[usize::from(task)] = Place::Running;
        }
    }

    // Whether a ready task has a higher priority.
    fn is_outranked(&self, task: u8) -> bool
        requires { StandsThere (kernel_of self.now) task }
        ensures { result ≡ is_above (active (kernel_of self.now) task) (highest (kernel_of self.now).ready PRIORITIES) }
    {
        match self.ready.highest() {
            Some(highest) => self.active(task) < highest,
            None => false,
        }
    }

    // The head of the highest list that is not empty runs; a running task runs on, unless a list above it is not empty (RM D.2.1, D.2.3).
    #[inline(always)]
    fn dispatch(&mut self)
        ensures { kernel_of self.new ≡ dispatch (kernel_of self.old) }
    {
        match self.running() {
            None => self.run_highest(),
            Some(task) if self.is_outranked(task) => {
                self.preempted(task);
                self.run_highest();
            }
            Some(_) => {}
        }
    }

    // The tasks that are due at a time leave the sleepers; the clock is at that time then.
    fn expire(&mut self, time: i64) -> ArrayVec<u8, TASKS>
        ensures tasks { result.items ≡ due time (kernel_of self.old).sleepers }
        ensures left { kernel_of self.new ≡ record (kernel_of self.old) { now = time; sleepers = waiting time (kernel_of self.old).sleepers } }
        ensures awoken { AreAwoken (kernel_of self.new) result.items }
        ensures orderly { IsOrderly (kernel_of self.new) }
    {
        self.time = time;
        self.delays.expire(time)
    }

    // The clock moves to a time, and the tasks that are due become ready in the order in which they began to wait (RM 9.6, D.2.3).
    fn wake_due(&mut self, time: i64)
        ensures { kernel_of self.new ≡ wakes_due (kernel_of self.old).sleepers (record (kernel_of self.old) { now = time; sleepers = [] }) }
    {
        let tasks = self.expire(time);
        for task in tasks.as_slice() {
            self.becomes_ready(*task);
        }
    }

    // The least time that somebody waits for, if there is one.
    fn next_wake(&self) -> Option<i64>
        ensures { result ≡ least_of (kernel_of self.now).sleepers }
    {
        self.delays.next_time()
    }

    // Lines in front of the first whose channel has a handler are passed.
    fn pass_lines(&mut self)
        ensures same { kernel_of self.new ≡ kernel_of self.old }
        ensures begins { BeginsAttached self.new.attached self.new.ahead }
    {
        self.ahead = from_attached(&self.attached, self.ahead);
    }

    // The next time at which something is to come: that of a sleeper or that of an interrupt, which is awaited while somebody sleeps or a call is queued.
    fn next_time(&mut self) -> Option<i64>
        ensures same { kernel_of self.new ≡ kernel_of self.old }
        ensures time { result ≡ next (kernel_of self.old) }
    {
        self.pass_lines();
        let ahead = self.ahead;
        match ahead.first() {
            None => self.next_wake(),
            Some(line) => self.earlier(line.time),
        }
    }

    // That time, where an interrupt of this time is the first that is pending.
    fn earlier(&self, time: i64) -> Option<i64>
        requires { time_ahead (kernel_of self.now).pending ≡ Some time }
        ensures { result ≡ next (kernel_of self.now) }
    {
        match self.next_wake() {
            Some(wake) => {
                let is_sooner = wake < time;
                Some(if is_sooner { wake } else { time })
            }
            None => { if self.some_queued() { Some(time) } else { None } }
        }
    }

    // Where nobody runs, the handler of the first pending interrupt runs, if its time has come (RM C.3.1).
    fn deliver(&mut self)
        requires { self.old.running ≡ None }
        ensures { kernel_of self.new ≡ delivers (kernel_of self.old).pending (kernel_of self.old) }
    {
        self.pass_lines();
        let ahead = self.ahead;
        if let Some((line, rest)) = ahead.split_first() {
            let is_early = self.time < line.time;
            if is_early {
                return;
            }
            self.begins(*line, rest);
        }
    }

    // The handler of the first line's channel, whose time has come, runs with the action of its procedure's object open; the line is passed.
    fn begins(&mut self, line: ScheduleLine, rest: &'a [ScheduleLine])
        requires idle { self.old.running ≡ None }
        requires first { self.old.ahead ≡ line ∷ rest.now }
        requires attached { BeginsAttached self.old.attached self.old.ahead }
        requires due { int_lt self.old.time line.time ≡ false }
        ensures { kernel_of self.new ≡ delivers (kernel_of self.old).pending (kernel_of self.old) }
    {
        let Some(object) = object_of(&self.attached, line.channel) else {
            unreachable!()
        };
        let handler = self.task_count() + line.channel;
        let tables = &mut *self.tables;
        tables.objects.enter(ACTOR, object);
        open_kind(&mut tables.kinds, TASKS, Kind::Writes);
        self.running = Some(handler);
        self.handler = Some(handler);
        self.ahead = rest;
    }

    // Whether a call is queued at some object.
    fn some_queued(&self) -> bool
        ensures { result ≡ some_queued (kernel_of self.now).queued (kernel_of self.now).partition.objects }
    {
        let mut is_queued = false;
        for object in 0..self.tables.objects.object_count() {
            is_queued = self.tables.objects.queued(object).is_some() || is_queued;
        }
        is_queued
    }

    // Nobody runs, is ready or sleeps: the run is over.
    fn is_over(&mut self)
        ensures { kernel_of self.new ≡ record (kernel_of self.old) { outcome = Some (last_outcome (kernel_of self.old)) } }
    {
        self.outcome = Some(if self.some_queued() {
            Outcome::WaitsForever
        } else {
            Outcome::Ended
        });
    }

    // Where nobody runs, time moves on to the next time at which something is to come: those due wake, the first interrupt of that time is delivered, and who
    // is ready is dispatched; the run is over where nothing is to come (RM D.8).
    fn clock(&mut self)
        ensures { kernel_of self.new ≡ clock (kernel_of self.old) }
    {
        if self.running().is_none() {
            match self.next_time() {
                Some(time) => {
                    self.wake_due(time);
                    self.deliver();
                    self.dispatch();
                }
                None => self.is_over(),
            }
        }
    }

    // Dispatching, then the clock.
    pub(crate) fn settle(&mut self)
        ensures { kernel_of self.new ≡ clock (dispatch (kernel_of self.old)) }
    {
        self.dispatch();
        self.clock();
    }

    // A task opens an action.
    pub(crate) fn opens(&mut self, task: u8, object: u8, kind: Kind)
        requires task { StandsThere (kernel_of self.old) task }
        requires object { object < (kernel_of self.old).partition.objects }
        requires allowed { call_refusal (kernel_of self.old) task object ≡ None }
        ensures { kernel_of self.new ≡ with_actions task (action_of kind object ∷ (kernel_of self.old).actions task) (kernel_of self.old) }
    {
        let row = self.row(task);
        let number = self.told(task);
        let tables = &mut *self.tables;
        tables.objects.enter(number, object);
        open_kind(&mut tables.kinds, row, kind);
    }

    // The object of a task's innermost action and what the action is for, if the task has one open.
    fn innermost(&self, task: u8) -> Option<(u8, Kind)>
        requires { StandsThere (kernel_of self.now) task }
        ensures action { some_action result ≡ innermost ((kernel_of self.now).actions task) }
        ensures object { IfSome result (λ action. action.0 < (kernel_of self.now).partition.objects) }
    {
        let tables = &*self.tables;
        let object = tables.objects.innermost(self.told(task))?;
        let kind = innermost_kind(&tables.kinds, self.row(task))?;
        Some((object, kind))
    }

    // A task's innermost action is closed, if it has one open.
    fn closes(&mut self, task: u8)
        requires { StandsThere (kernel_of self.old) task }
        ensures { kernel_of self.new ≡ with_actions task (outer_of ((kernel_of self.old).actions task)) (kernel_of self.old) }
    {
        let row = self.row(task);
        let number = self.told(task);
        if let Some(object) = self.tables.objects.innermost(number) {
            let tables = &mut *self.tables;
            tables.objects.close(number, object);
            close_kind(&mut tables.kinds, row);
        }
    }

    // What comes of the end of the body that a task's innermost action runs (RM 9.5.3).
    pub(crate) fn ending(&self, task: u8, is_open: bool) -> Ending
        requires { StandsThere (kernel_of self.now) task }
        ensures ending { ending_as result ≡ ending_of is_open ((kernel_of self.now).actions task) (kernel_of self.now).queued }
        ensures object { IsOfObject (kernel_of self.now) result }
    {
        match self.innermost(task) {
            Some((object, Kind::Writes)) if is_open => match self.tables.objects.queued(object) {
                Some(caller) => Ending::TakesOver { object, caller },
                None => Ending::Closes,
            },
            Some((_, Kind::Serves(caller))) => Ending::HandsBack { caller },
            _ => Ending::Closes,
        }
    }

    // A task's innermost action, of an object, serves the call that is queued there.
    fn takes_over(&mut self, task: u8, object: u8, caller: u8)
        requires task { StandsThere (kernel_of self.old) task }
        requires caller { IsTask (kernel_of self.old) caller }
        requires object { object < (kernel_of self.old).partition.objects }
        requires innermost { innermost ((kernel_of self.old).actions task) ≡ Some (Writes object) }
        ensures { kernel_of self.new ≡ takes_over task object caller (outer_of ((kernel_of self.old).actions task)) (kernel_of self.old) }
    {
        let row = self.row(task);
        let tables = &mut *self.tables;
        tables.objects.to_serve(object, true);
        serve_kind(&mut tables.kinds, row, caller);
        self.places[usize::from(caller)] = Place::Served(object);
    }

    // The body that a task's innermost action runs is left, and this comes of it.
    pub(crate) fn ends_by(&mut self, task: u8, ending: Ending)
        requires task { StandsThere (kernel_of self.old) task }
        requires ready { MayEnd (kernel_of self.old) task ending }
        ensures { kernel_of self.new ≡ ends task (ending_as ending) (outer_of ((kernel_of self.old).actions task)) (kernel_of self.old) }
    {
        match ending {
            Ending::Closes => self.closes(task),
            Ending::TakesOver { object, caller } => self.takes_over(task, object, caller),
            Ending::HandsBack { caller } => {
                self.closes(task);
                self.becomes_ready(caller);
            }
        }
    }

    // Where the handler has closed its own action it is over, and the next interrupt is delivered if its time has come (RM C.3.1).
    pub(crate) fn goes_if_over(&mut self, task: u8) -> bool
        requires { self.old.running ≡ Some task }
        ensures over { result ≡ is_gone (kernel_of self.old) task }
        ensures kernel { kernel_of self.new ≡ goes_if (is_gone (kernel_of self.old) task) task (kernel_of self.old) }
    {
        let _ = &self.running;
        if self.is_task(task) {
            return false;
        }
        if self.is_inside_any(task) {
            return false;
        }
        self.handler_leaves(task);
        self.deliver();
        true
    }

    // The running task waits for a time, or where that is due gives up the processor (RM 9.6, D.2.3).
    pub(crate) fn delays(&mut self, task: u8, until: i64)
        requires task { IsTask (kernel_of self.old) task }
        requires running { self.old.running ≡ Some task }
        ensures { kernel_of self.new ≡ effect task (DelaysUntil until) (kernel_of self.old) }
    {
        let is_later = self.time < until;
        self.leaves(task);
        if is_later {
            self.falls_asleep(task, until);
        } else {
            self.becomes_ready(task);
        }
    }

    // The call of a task that is nowhere waits in the queue of an object.
    pub(crate) fn queues(&mut self, task: u8, object: u8)
        requires task { IsTask (kernel_of self.old) task }
        requires object { object < (kernel_of self.old).partition.objects }
        requires room { is_full (kernel_of self.old) object ≡ false }
        ensures { kernel_of self.new ≡ queues task object (kernel_of self.old) }
    {
        if self.tables.objects.queue(task, object).is_ok() {
            self.places[usize::from(task)] = Place::Queued(object);
        }
    }

    // The run is over.
    pub(crate) fn breaks_off(&mut self, outcome: Outcome)
        ensures { kernel_of self.new ≡ record (kernel_of self.old) { outcome = Some (outcome_of outcome) } }
    {
        self.outcome = Some(outcome);
    }
}

impl<'a, R: Ready + Drop, D: Delays + Drop> Tasking<'a, R, D> {
    /// The memory of its tables of open actions, for another run.
    pub fn into_tables(self) -> Box<Tables> {
        let Tasking {
            running: _,
            handler: _,
            ready: _,
            delays: _,
            tables,
            places: _,
            time: _,
            outcome: _,
            attached: _,
            ahead: _,
        } = self;
        tables
    }
}
