//! The machine: one processor that runs the tasks of an image in virtual time.
ghost use Rattle.std.specs.Prelude.{◌≡◌, None, Some, ℕ, ◌+◌, ◌-◌, ◌<◌, ◌≤◌, Err, IfErr, IfOk, List, OnErr, OnOk, length, map, option_map};
ghost use Rattle.std.specs.Io.KnownBytes.{Appends};
ghost use Rattle.base.specs.declared.limits.TheConstants.{OBJECTS, PRIORITIES, TASKS};
ghost use Rattle.kernel.specs.Exclusion.{FourStatements};
ghost use Rattle.kernel.specs.State.{active, is_object_open, Line as KernelLine, Outcome as KernelOutcome};
ghost use Rattle.kernel.specs.Text.{line_text as text_line, lines_text};
ghost use Rattle.image.specs.Code.{code, code_text};
ghost use Rattle.image.specs.Steps.{is_open};
ghost use Rattle.image.specs.Texts.{names_of};
ghost use Rattle.execution.specs.Ahead.{next_address, next_asking, next_frames, next_raising};
ghost use Rattle.execution.specs.Held.{line_of, world_of, world_with};
ghost use Rattle.machine.specs.Bounds.{IsTimeBound, bounded_text};
ghost use Rattle.machine.specs.Exclusion.{Excludes, observed};
ghost use Rattle.machine.specs.Stands.{EndsBy, IsLast, ShowsText, HoldsWorld, kernel_outcome};
ghost use Rattle.machine.specs.TaskStates.{place_asked};
ghost use Rattle.machine.specs.Written.{AppendsBeginning};
ghost use Rattle.tasking.specs.Held.{kernel_of, place_of};
ghost use Rattle.tasking.specs.Waits.{wake_time};

use crate::bound::{Bound, Cut};
use crate::fault::RunFault;
use crate::reports::{Event, LineText, Outcome};
use crate::task_state::TaskState;
use crate::text::{cut_line, line_text};
use crate::writing::{Sink, write_all};
use arrayvec::ArrayVec;
use base::limits::{CEILING, TASKS};
use clock::{Delays, ListDelays, Schedule};
use dispatch::{Ready, RingReady};
use execution::{Asking, Execution, FrameUse, Line, Raising};
use image::Image;
use image_laws::{code_leads_on, lines_grow_on, outcome_stays, steps_whole};
use kernel::laws::{four_statements_hold, inside_lists, left_unmoved};
use processor::{Steps, plain_words};
use std::alloc::Global;
use std::marker::Model;
use std::sync::ledger::Ledger;
use tasking::{Place, Refusal};

/// A machine that runs an image, over keepers of ready and of sleeping tasks. Memory is taken by `start` alone.
#[derive(Drop)]
pub struct Machine<'a, R: Ready, D: Delays> {
    pub(crate) execution: Execution<'a, 'a, R, D>,
}

impl<'a, R: Ready, D: Delays> Model for Machine<'a, R, D> {
    ghost use Rattle.execution.specs.Held.{HeldWorld};

    ghost Value = { HeldWorld };

    ghost view = { λ m. m.execution };

    ghost invariant = { λ m. Unit {0} };
}

impl<'a, R: Ready, D: Delays> Machine<'a, R, D> {
    /// The machine at time 0, before its first step: it represents the world of code at its start.
    ///
    /// # Errors
    /// `Memory` where memory was refused.
    pub fn start(alloc: Global, image: &'a Image, schedule: &'a Schedule) -> Result<Self, RunFault>
    where
        R: Drop,
        D: Drop,
        ensures stands { IfOk result (λ machine. HoldsWorld machine (code image.now schedule.now 0)) }
        ensures image { IfOk result (λ machine. machine.image ≡ image.now) }
        ensures schedule { IfOk result (λ machine. machine.schedule ≡ schedule.now) }
        ensures fault { IfErr result (λ fault. fault ≡ RunFault.Memory) }
    {
        left_unmoved();
        let execution = Execution::start(alloc, image, schedule)?;
        Ok(Machine { execution })
    }

    /// Does one step, which is counted, and returns what it has shown. It leads from the world of code after m steps to the one after m + 1. After the last
    /// step it returns the outcome again, changes nothing and counts nothing.
    pub fn step<L: Ledger>(&mut self, steps: &mut Steps<L>) -> Event
        ensures world { (m : ℕ) → HoldsWorld self.old (code self.old.image self.old.schedule m) → HoldsWorld self.new
            (code self.old.image self.old.schedule (m + 1)) × ShowsText self.old.image (code self.old.image self.old.schedule m).kernel
            (code self.old.image self.old.schedule (m + 1)).kernel result }
        ensures image { self.new.image ≡ self.old.image }
        ensures schedule { self.new.schedule ≡ self.old.schedule }
        ensures one { steps.new ≤ steps.old + 1 }
        ensures count { (kernel_of self.old.tasking).outcome ≡ None → steps.new ≡ steps.old + 1 }
        ensures done { (o : KernelOutcome) → (kernel_of self.old.tasking).outcome ≡ Some o → (self.new ≡ self.old) × (steps.new ≡ steps.old) }
    {
        outcome_stays();
        if let Some(outcome) = self.outcome() {
            return Event::Done(outcome);
        }
        match self.execution.step(steps) {
            Some(line) => Event::Line(self.text_of(&line)),
            None => match self.outcome() {
                Some(outcome) => Event::Done(outcome),
                None => Event::Quiet,
            },
        }
    }

    /// Virtual time, in microseconds.
    pub fn now(&self) -> i64
        ensures { result ≡ (kernel_of self.now.tasking).now }
    {
        self.execution.tasking().now()
    }

    /// The number of the running task, or 255 while the handler of an interrupt runs (RM C.3.1).
    pub fn running(&self) -> Option<u8>
        ensures { result ≡ (observed self.now).running }
    {
        let tasking = self.execution.tasking();
        let task = tasking.running()?;
        Some(tasking.told(task))
    }

    /// Who runs, by the number that its lines have: a task, or beyond the tasks the handler of an interrupt, whose number is theirs and the channel's together.
    pub fn actor(&self) -> Option<u8>
        ensures { result ≡ (kernel_of self.now.tasking).running }
    {
        self.execution.tasking().running()
    }

    /// How many interrupts are pending.
    pub fn pending(&self) -> usize
        ensures { result ≡ length (kernel_of self.now.tasking).pending }
    {
        self.execution.tasking().pending()
    }

    /// Where this one is, as the kernel has it.
    pub fn place_of_actor(&self, actor: u8) -> Place
        ensures { place_of result ≡ (kernel_of self.now.tasking).place actor }
    {
        self.execution.tasking().place(actor)
    }

    /// Its active priority; that of a handler that isn't there is the highest.
    pub fn active_of_actor(&self, actor: u8) -> u8
        ensures { result ≡ active (kernel_of self.now.tasking) actor }
    {
        let tasking = self.execution.tasking();
        if tasking.is_there(actor) {
            tasking.active(actor)
        } else {
            CEILING
        }
    }

    /// Whether it is inside an object (RM 9.5.1); a handler that isn't there is inside none.
    pub fn is_actor_inside(&self, actor: u8, object: u8) -> bool
        requires { object < length self.now.image.objects }
        ensures { result ≡ is_object_open object ((kernel_of self.now.tasking).actions actor) }
    {
        let tasking = self.execution.tasking();
        if tasking.is_there(actor) {
            let refusal = tasking.call_refusal(actor, object);
            matches!(refusal, Some(Refusal::SameObject))
        } else {
            false
        }
    }

    /// The number of tasks.
    pub fn tasks(&self) -> u8
        ensures image { result ≡ length self.now.image.tasks }
        ensures kernel { result ≡ (observed self.now).tasks }
        ensures few { result ≤ TASKS }
    {
        self.execution.tasking().task_count()
    }

    /// The number of protected objects.
    pub fn objects(&self) -> u8
        ensures image { result ≡ length self.now.image.objects }
        ensures kernel { result ≡ (kernel_of self.now.tasking).partition.objects }
        ensures few { result ≤ OBJECTS }
    {
        code_leads_on();
        let _objects = self.execution.image().objects();
        self.execution.tasking().object_count()
    }

    /// Where a task is (RM 9, D.2.1), or by 255 the handler that runs; a number that no task has has finished.
    pub fn state(&self, task: u8) -> TaskState
        ensures { result ≡ (observed self.now).state task }
    {
        match self.place(task) {
            Place::Running => TaskState::Running,
            Place::Ready => TaskState::Ready,
            Place::Asleep => TaskState::Delayed,
            Place::Queued(object) | Place::Served(object) => TaskState::Queued(object),
            Place::Finished => TaskState::Finished,
        }
    }

    /// Where a task is as the kernel has it: a caller whose entry body another task runs is distinguished from one that waits in the queue.
    pub fn place(&self, task: u8) -> Place
        ensures { place_of result ≡ place_asked (kernel_of self.now.tasking) task }
    {
        let tasking = self.execution.tasking();
        match tasking.asked(task) {
            Some(task) => tasking.place(task),
            None => Place::Finished,
        }
    }

    /// The time that a task waits for, in microseconds, if it sleeps (RM 9.6).
    pub fn wake_time(&self, task: u8) -> Option<i64>
        ensures { result ≡ wake_time task (kernel_of self.now.tasking).sleepers }
    {
        self.execution.tasking().wake_time(task)
    }

    /// Whether a task is inside an object (RM 9.5.1).
    pub fn is_inside(&self, task: u8, object: u8) -> bool
        requires task { task < length self.now.image.tasks }
        requires object { object < length self.now.image.objects }
        ensures { result ≡ (observed self.now).is_inside task object }
    {
        let refusal = self.execution.tasking().call_refusal(task, object);
        matches!(refusal, Some(Refusal::SameObject))
    }

    /// The active priority of a task (RM D.3), or by 255 of the handler that runs: the greatest of its base priority and the ceilings of its open actions; 0
    /// for a number that no task has.
    pub fn active(&self, task: u8) -> u8
        ensures { result ≡ (observed self.now).active task }
    {
        let tasking = self.execution.tasking();
        match tasking.asked(task) {
            Some(task) => tasking.active(task),
            None => 0,
        }
    }

    /// Whether the barrier of an object is open (RM 9.5.2); not so for a number that no object has.
    pub fn barrier(&self, object: u8) -> bool
        ensures { result ≡ (observed self.now).barrier object }
    {
        let image = self.execution.image();
        self.execution.memory().is_open(image, object)
    }

    /// The words of the package's variables, one variable after the other.
    pub fn plain_words(&self) -> &[i64]
        ensures { result.now ≡ (world_of self.now).rest.memory.plain }
    {
        plain_words(self.execution.image(), self.execution.memory().shared())
    }

    /// The words of the components of a protected object, one component after the other; none for a number that no object has.
    pub fn object_words(&self, object: u8) -> &[i64]
        ensures { result.now ≡ (world_of self.now).rest.memory.objects object }
    {
        let image = self.execution.image();
        self.execution.memory().object_words(image, object)
    }

    /// The tasks inside an object, by their numbers, and the handler, which is 255 (RM 9.5.1). By ceilings alone there is one at most.
    pub fn inside(&self, object: u8) -> ArrayVec<u8, TASKS>
        ensures tasks { result.items ≡ (observed self.now).inside object }
        ensures one { length result.items ≤ 1 }
    {
        four_statements_hold();
        let tasking = self.execution.tasking();
        let inside = tasking.inside(object);
        let tasks = inside.as_slice();
        let mut numbers = ArrayVec::new();
        for task in tasks {
            numbers.push(tasking.told(*task));
        }
        numbers
    }

    /// The task whose call waits in the queue of an object, if there is one (RM D.7).
    pub fn queued(&self, object: u8) -> Option<u8>
        requires { object < length self.now.image.objects }
        ensures { result ≡ (observed self.now).queued object }
    {
        self.execution.tasking().queued(object)
    }

    /// Exclusion by ceilings holds in the world that the machine is in, as its calls answer (RM 9.5.1, 9.5.3, D.2.1, D.3), whatever code the image holds: one
    /// task is inside an object at most; those inside objects have different active priorities, and none of them waits; the highest runs; and a task waits for
    /// its call only while the barrier is closed or somebody is inside. A law: it does nothing.
    pub fn exclusion_holds(&self)
        ensures answers { Excludes (observed self.now) }
        ensures kernel { FourStatements (is_open self.now.image (world_of self.now).rest.memory) (kernel_of self.now.tasking) }
    {
        four_statements_hold();
        inside_lists();
        steps_whole();
        code_leads_on();
        let _instructions = self.execution.image().instructions();
        let _tasking = self.execution.tasking();
    }

    /// The outcome, once there is one.
    pub fn outcome(&self) -> Option<Outcome>
        ensures outcome { kernel_outcome result ≡ (kernel_of self.now.tasking).outcome }
        ensures last { IsLast (kernel_of self.now.tasking).now result }
    {
        let time = self.now();
        match self.execution.tasking().outcome() {
            None => None,
            Some(tasking::Outcome::Ended) => Some(Outcome::Ended { time }),
            Some(tasking::Outcome::WaitsForever) => Some(Outcome::WaitsForever { time }),
            Some(tasking::Outcome::ImageFault) => Some(Outcome::ImageFault { time }),
            Some(tasking::Outcome::Unhandled { exception, task }) => Some(Outcome::Unhandled {
                exception,
                task,
                time,
            }),
        }
    }

    /// The exception that the next step raises, handled or not, if it raises one, and what is refused where that is why; nothing changes.
    pub fn raising_ahead(&self) -> Option<Raising>
        ensures { (lines : List KernelLine) → result ≡ next_raising self.now.image self.now.schedule (world_with lines self.now) }
    {
        self.execution.raising_ahead()
    }

    /// What the next step asks for beside the operation of an object, if it asks for anything and raises nothing; nothing changes.
    pub fn asking_ahead(&self) -> Option<Asking>
        ensures { (lines : List KernelLine) → result ≡ next_asking self.now.image self.now.schedule (world_with lines self.now) }
    {
        self.execution.asking_ahead()
    }

    /// The address of the instruction that the next step does, unless there is an outcome; nothing changes.
    pub fn address_ahead(&self) -> Option<u16>
        ensures { result ≡ next_address (world_of self.now) }
    {
        self.execution.address_ahead()
    }

    /// What the task or handler that takes the next step has of frames, unless there is an outcome; nothing changes.
    pub fn frames_ahead(&self) -> Option<FrameUse>
        ensures { result ≡ next_frames (world_of self.now) }
    {
        self.execution.frames_ahead()
    }

    // The text of a line.
    fn text_of(&self, line: &Line) -> LineText
        ensures { result.items ≡ text_line (names_of self.now.image) (line_of self.now.image line.now) }
    {
        line_text(self.execution.image(), line)
    }

    // Does steps up to an outcome, `limit` of them at most, and writes their lines.
    fn run_on<S: Sink, L: Ledger>(
        &mut self,
        limit: u64,
        sink: &mut S,
        steps: &mut Steps<L>,
    ) -> Result<Outcome, RunFault>
        requires stands { HoldsWorld self.old (code self.old.image self.old.schedule 0) }
        ensures lines { OnOk result (Appends (S.bytes sink.old) (S.bytes sink.new)
            (lines_text (names_of self.old.image) (code self.old.image self.old.schedule limit).kernel.lines)) }
        ensures ends { IfOk result (λ outcome. EndsBy outcome (code self.old.image self.old.schedule limit)) }
        ensures kept { OnOk result (S.failures sink.new ≡ S.failures sink.old) }
        ensures fault { IfErr result (λ fault. fault ≡ RunFault.Write) }
        ensures failed { OnErr result (S.failures sink.old < S.failures sink.new) }
        ensures beginning { OnErr result (AppendsBeginning (S.bytes sink.old) (S.bytes sink.new)
            (lines_text (names_of self.old.image) (code self.old.image self.old.schedule limit).kernel.lines)) }
        ensures count { steps.new ≤ steps.old + limit }
    {
        outcome_stays();
        lines_grow_on();
        left_unmoved();
        let mut left = limit;
        while 0 < left {
            let advance = self.execution.advance(left, steps);
            left = advance.left;
            match advance.line {
                Some(line) => {
                    let text = self.text_of(&line);
                    match write_all(sink, text.as_slice()) {
                        Ok(()) => {}
                        Err(_) => return Err(RunFault::Write),
                    }
                }
                None => return Ok(self.outcome_or_limit()),
            }
        }
        Ok(self.outcome_or_limit())
    }

    // After how many steps of at most `limit` the next one would lead the clock past the time, or that none would.
    pub(crate) fn bound_by_time<L: Ledger>(
        &mut self,
        until: i64,
        limit: u64,
        steps: &mut Steps<L>,
    ) -> Bound
        requires stands { HoldsWorld self.old (code self.old.image self.old.schedule 0) }
        ensures bound { IsTimeBound self.old.image self.old.schedule until limit result.steps result.cut }
        ensures count { steps.new ≤ steps.old + limit }
    {
        outcome_stays();
        let mut taken = 0;
        while taken < limit {
            match self.outcome() {
                Some(_) => return Bound::at_most(limit),
                None => {}
            }
            self.step(steps);
            if until < self.now() {
                return Bound {
                    steps: taken,
                    cut: Cut::Time,
                };
            }
            taken += 1;
        }
        Bound::at_most(limit)
    }

    /// The outcome, or that the limit on steps was reached.
    pub fn outcome_or_limit(&self) -> Outcome
        ensures { EndsBy result (world_of self.now) }
    {
        match self.outcome() {
            Some(outcome) => outcome,
            None => Outcome::StepLimit { time: self.now() },
        }
    }
}

// Runs an image up to this bound over these keepers, and writes its lines and the last line.
fn run_bounded<R: Ready + Drop, D: Delays + Drop, S: Sink, L: Ledger>(
    alloc: Global,
    image: &Image,
    schedule: &Schedule,
    bound: Bound,
    sink: &mut S,
    steps: &mut Steps<L>,
) -> Result<Outcome, RunFault>
    ensures text { OnOk result (Appends (S.bytes sink.old) (S.bytes sink.new) (bounded_text image.now schedule.now bound)) }
    ensures ends { IfOk result (λ outcome. EndsBy outcome (code image.now schedule.now bound.steps)) }
    ensures kept { OnOk result (S.failures sink.new ≡ S.failures sink.old) }
    ensures memory { result ≡ Err RunFault.Memory → sink.new ≡ sink.old }
    ensures failed { result ≡ Err RunFault.Write → S.failures sink.old < S.failures sink.new }
    ensures beginning { AppendsBeginning (S.bytes sink.old) (S.bytes sink.new) (bounded_text image.now schedule.now bound) }
    ensures count { steps.new ≤ steps.old + bound.steps }
{
    let mut machine: Machine<'_, R, D> = Machine::start(alloc, image, schedule)?;
    let outcome = machine.run_on(bound.steps, sink, steps)?;
    let text = cut_line(image, &outcome, bound.cut);
    match write_all(sink, text.as_slice()) {
        Ok(()) => Ok(outcome),
        Err(_) => Err(RunFault::Write),
    }
}

/// Runs an image over these keepers of ready and of sleeping tasks, and writes its lines and a last line that says how it ended: the text
/// of the world of code after `limit` steps. It takes at most `limit` steps, each of which is counted. The limit on steps is the outcome
/// only where the world has none.
///
/// # Errors
/// `Memory` where memory was refused, before anything is written; `Write` where a write failed, and what was written then is a beginning
/// of the text.
pub fn run_over<R: Ready + Drop, D: Delays + Drop, S: Sink, L: Ledger>(
    alloc: Global,
    image: &Image,
    schedule: &Schedule,
    limit: u64,
    sink: &mut S,
    steps: &mut Steps<L>,
) -> Result<Outcome, RunFault>
    ensures text { OnOk result (Appends (S.bytes sink.old) (S.bytes sink.new) (code_text image.now schedule.now limit)) }
    ensures ends { IfOk result (λ outcome. EndsBy outcome (code image.now schedule.now limit)) }
    ensures kept { OnOk result (S.failures sink.new ≡ S.failures sink.old) }
    ensures memory { result ≡ Err RunFault.Memory → sink.new ≡ sink.old }
    ensures failed { result ≡ Err RunFault.Write → S.failures sink.old < S.failures sink.new }
    ensures beginning { AppendsBeginning (S.bytes sink.old) (S.bytes sink.new) (code_text image.now schedule.now limit) }
    ensures count { steps.new ≤ steps.old + limit }
{
    run_bounded::<R, D, S, L>(alloc, image, schedule, Bound::at_most(limit), sink, steps)
}

/// Runs an image up to this bound over rings of ready tasks and a list of sleeping ones, and writes its lines and a last line that says how it ended, or what
/// has cut it. It takes at most as many steps as the bound has, each of which is counted.
///
/// # Errors
/// As `run_over`.
pub fn run_within<S: Sink, L: Ledger>(
    alloc: Global,
    image: &Image,
    schedule: &Schedule,
    bound: Bound,
    sink: &mut S,
    steps: &mut Steps<L>,
) -> Result<Outcome, RunFault>
    ensures text { OnOk result (Appends (S.bytes sink.old) (S.bytes sink.new) (bounded_text image.now schedule.now bound)) }
    ensures ends { IfOk result (λ outcome. EndsBy outcome (code image.now schedule.now bound.steps)) }
    ensures kept { OnOk result (S.failures sink.new ≡ S.failures sink.old) }
    ensures memory { result ≡ Err RunFault.Memory → sink.new ≡ sink.old }
    ensures failed { result ≡ Err RunFault.Write → S.failures sink.old < S.failures sink.new }
    ensures beginning { AppendsBeginning (S.bytes sink.old) (S.bytes sink.new) (bounded_text image.now schedule.now bound) }
    ensures count { steps.new ≤ steps.old + bound.steps }
{
    run_bounded::<RingReady, ListDelays, S, L>(alloc, image, schedule, bound, sink, steps)
}

/// Runs an image as `run_over` does, over rings of ready tasks and a list of sleeping ones.
///
/// # Errors
/// As `run_over`.
pub fn run<S: Sink, L: Ledger>(
    alloc: Global,
    image: &Image,
    schedule: &Schedule,
    limit: u64,
    sink: &mut S,
    steps: &mut Steps<L>,
) -> Result<Outcome, RunFault>
    ensures text { OnOk result (Appends (S.bytes sink.old) (S.bytes sink.new) (code_text image.now schedule.now limit)) }
    ensures ends { IfOk result (λ outcome. EndsBy outcome (code image.now schedule.now limit)) }
    ensures kept { OnOk result (S.failures sink.new ≡ S.failures sink.old) }
    ensures memory { result ≡ Err RunFault.Memory → sink.new ≡ sink.old }
    ensures failed { result ≡ Err RunFault.Write → S.failures sink.old < S.failures sink.new }
    ensures beginning { AppendsBeginning (S.bytes sink.old) (S.bytes sink.new) (code_text image.now schedule.now limit) }
    ensures count { steps.new ≤ steps.old + limit }
{
    run_over::<RingReady, ListDelays, S, L>(alloc, image, schedule, limit, sink, steps)
}
