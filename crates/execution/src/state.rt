//! What a run holds.
ghost use Rattle.std.specs.Prelude.{◌≡◌, ◌+◌, ◌-◌, ◌<◌, ◌≤◌, IfOk, None, Some, ℕ, List, get_or, length, map, not, slice_set, take, true};
ghost use Rattle.base.specs.declared.limits.TheConstants.{CHANNELS, OBJECTS, TASKS};
ghost use Rattle.image.specs.Code.{initial_state, partition_of as image_partition, start};
ghost use Rattle.image.specs.Rules.{IsWellFormed};
ghost use Rattle.image_laws.specs.Room.{widest};
ghost use Rattle.image_laws.specs.Whole.{IsWhole};
ghost use Rattle.kernel.specs.Calm.{IsRunner};
ghost use Rattle.kernel.specs.Invariant.{Fits};
ghost use Rattle.kernel.specs.State.{Line};
ghost use Rattle.kernel.specs.Worlds.{solo_of};
ghost use Rattle.task_steps.specs.Acting.{ComesToAct, solo_in};
ghost use Rattle.task_steps.specs.Asked.{asking_ahead};
ghost use Rattle.task_steps.specs.Raised.{raising_ahead};
ghost use Rattle.kernel.specs.Interrupts.{actor_if};
ghost use Rattle.tasking.specs.Held.{is_handler, kernel_of, partition_of};
ghost use Rattle.execution.specs.Ahead.{frame_use};
ghost use Rattle.execution.specs.Encoding.{AreAdded};
ghost use Rattle.execution.specs.Saving.{AreContentsOf};
ghost use Rattle.execution.specs.Held.{begun, body_state, prepared, rest_of, row_of, tasks_of, world_of};
ghost use Rattle.execution.specs.Settling.{RunsThere};
ghost use Rattle.image.specs.Attachments.{attached_to, handling_object};
ghost use Rattle.image.specs.Operations.{called};
ghost use Rattle.image.specs.Sections.{object_of};
ghost use Rattle.image.specs.Starting.{handler_state, role_within};
ghost use Rattle.processor.specs.Layout.{role_of};

use crate::contents::{Contents, copied_words, save_rows};
use crate::encoding::{add_counted, add_rows};
use crate::frame_use::FrameUse;
use crate::parameters::Parameters;
use crate::rooms::Rooms;
use clock::{Delays, Schedule};
use dispatch::Ready;
use image::{Attachment, Image, Kind, Subprogram};
use image_laws::{code_leads_on, lines_unread, steps_whole};
use kernel::laws::runner_is_calm;
use processor::{Program, Role, Steps, TaskState};
use std::alloc::{AllocError, Global};
use std::marker::Model;
use std::sync::ledger::Ledger;
use task_steps::{
    Asking, Memory, Raising, Went, asking_ahead, called, first_place, go, raising_ahead,
};
use tasking::{Attached, Tasking};

/// What a run holds: between steps a world of code, and within one what its parts have made of it so far.
#[derive(Drop)]
pub(crate) struct State<'a, 's, R: Ready, D: Delays> {
    pub(crate) program: Program<'a>,
    pub(crate) schedule: &'s Schedule,
    pub(crate) memory: Memory,
    // The tasks, and in a last row the handler that runs.
    pub(crate) tasks: Vec<TaskState>,
    pub(crate) parameters: Parameters,
    pub(crate) tasking: Tasking<'s, R, D>,
}

impl<'a, 's, R: Ready, D: Delays> Model for State<'a, 's, R, D> {
    ghost use Rattle.std.specs.Prelude.{◌≡◌, ◌+◌, length};
    ghost use Rattle.image.specs.Rules.{IsWellFormed};
    ghost use Rattle.image_laws.specs.Room.{widest};
    ghost use Rattle.execution.specs.Held.{RowsAreWide, HeldWorld, tasks_in};

    ghost Value = { HeldWorld };

    ghost view = { λ s. record { image = s.program; schedule = s.schedule.now; memory = s.memory; tasks = tasks_in s.tasks.items; tasking = s.tasking } };

    ghost invariant = { λ s. IsWellFormed s.program × (length s.tasks.items ≡ length s.program.tasks + 1)
        × RowsAreWide (widest s.program) s.tasks.items };
}

impl<'a, 's, R: Ready, D: Delays> State<'a, 's, R, D> {
    /// The start: all tasks at the first instruction of their bodies.
    ///
    /// # Errors
    /// Where memory was refused.
    pub(crate) fn new(
        alloc: Global,
        image: &'a Image,
        schedule: &'s Schedule,
    ) -> Result<Self, AllocError>
        ensures image { IfOk result (λ s. s.image ≡ image.now) }
        ensures schedule { IfOk result (λ s. s.schedule ≡ schedule.now) }
        ensures world { IfOk result (λ s. world_of s ≡ start image.now schedule.now) }
    {
        steps_whole();
        let _instructions = image.instructions();
        let program = Program::new(alloc, image)?;
        let memory = Memory::new(alloc, image)?;
        let mut tasks = initial_tasks(alloc, &program)?;
        tasks.push(TaskState::new(alloc, 0, 0, 0, program.width())?)?;
        let parameters = Parameters::new(alloc)?;
        let tasking = initial_tasking(alloc, image, schedule)?;
        let mut state = State {
            program,
            schedule,
            memory,
            tasks,
            parameters,
            tasking,
        };
        state.prepare_if_begun(None, false);
        Ok(state)
    }

    // The row of a task, or of the handler that runs.
    pub(crate) fn row(&self, task: u8) -> usize
        ensures { result ≡ row_of self.now.image task }
    {
        if usize::from(task) < self.tasks.len() - 1 {
            usize::from(task)
        } else {
            self.tasks.len() - 1
        }
    }

    /// Where a handler has begun, which did not run before or has begun anew, its row holds what its start needs.
    pub(crate) fn prepare_if_begun(&mut self, before: Option<u8>, is_over: bool)
        requires { (kernel_of self.old.tasking).partition.tasks ≡ length self.old.image.tasks }
        ensures state { self.new ≡ record self.old { tasks = prepared self.old.image self.old.tasks (begun before is_over self.old.tasking.handler) } }
        ensures handler { self.old.tasking.handler ≡ actor_if (kernel_of self.old.tasking).partition (kernel_of self.old.tasking).running }
    {
        let now = self.tasking.handler();
        if let Some(handler) = begun(before, is_over, now) {
            self.prepare(handler);
        }
    }

    // The row of the handler is as at its start.
    fn prepare(&mut self, handler: u8)
        requires count { (kernel_of self.old.tasking).partition.tasks ≡ length self.old.image.tasks }
        requires beyond { length self.old.image.tasks ≤ handler }
        ensures { self.new ≡ record self.old { tasks = prepared self.old.image self.old.tasks (Some handler) } }
    {
        let channel = handler - self.tasking.task_count();
        let row = self.row(handler);
        let Some(state) = self.tasks.get_mut(row) else {
            unreachable!()
        };
        begin_handler(&self.program, channel, state);
    }

    /// Steps of the running task, up to the first that asks something of the kernel.
    pub(crate) fn go<L: Ledger>(&mut self, task: u8, limit: u64, steps: &mut Steps<L>) -> Went
        requires whole { IsWhole self.old.image (world_of self.old) }
        requires runs { IsRunner (kernel_of self.old.tasking) task }
        ensures went { ComesToAct self.old.image self.old.schedule (kernel_of self.old.tasking) task limit result.left
            (solo_in self.old.image self.old.memory (tasks_of self.old task)) result.act self.new.memory (tasks_of self.new task) }
        ensures count { steps.new ≡ steps.old + (limit - result.left) }
        ensures well_formed { IsWellFormed self.old.image }
        ensures there { RunsThere self.old.image self.old.tasking.handler task }
        ensures moved { self.new ≡ record self.old {
          memory = self.new.memory;
          tasks = slice_set self.old.tasks (row_of self.old.image task) (tasks_of self.new task);
        } }
    {
        steps_whole();
        runner_is_calm();
        let _handler = self.tasking.handler();
        let row = self.row(task);
        let Some(state) = self.tasks.get_mut(row) else {
            unreachable!()
        };
        go(
            &self.program,
            self.schedule,
            &self.tasking,
            task,
            state,
            &mut self.memory,
            limit,
            steps,
        )
    }

    /// The exception that the next step of the running task raises, if it raises one.
    pub(crate) fn raising_ahead(&self, task: u8) -> Option<Raising>
        requires whole { IsWhole self.now.image (world_of self.now) }
        requires runs { IsRunner (kernel_of self.now.tasking) task }
        ensures { (lines : List Line) → result ≡ raising_ahead self.now.image self.now.schedule (record (kernel_of self.now.tasking) { lines = lines }) task
            (solo_of task (rest_of self.now)) }
    {
        steps_whole();
        lines_unread();
        let _handler = self.tasking.handler();
        let row = self.row(task);
        let Some(state) = self.tasks.get(row) else {
            unreachable!()
        };
        raising_ahead(
            &self.program,
            self.schedule,
            &self.tasking,
            task,
            state,
            &self.memory,
        )
    }

    /// What the next step of the running task asks for beside the operation of an object.
    pub(crate) fn asking_ahead(&self, task: u8) -> Option<Asking>
        requires whole { IsWhole self.now.image (world_of self.now) }
        requires runs { IsRunner (kernel_of self.now.tasking) task }
        ensures { (lines : List Line) → result ≡ asking_ahead self.now.image self.now.schedule (record (kernel_of self.now.tasking) { lines = lines }) task
            (solo_of task (rest_of self.now)).task }
    {
        steps_whole();
        let _handler = self.tasking.handler();
        let row = self.row(task);
        let Some(state) = self.tasks.get(row) else {
            unreachable!()
        };
        asking_ahead(&self.program, self.schedule, &self.tasking, task, state)
    }

    /// A copy of the words and the frames.
    ///
    /// # Errors
    /// Where memory was refused.
    pub(crate) fn contents(&self, alloc: Global) -> Result<Contents, AllocError>
        ensures { IfOk result (λ contents. AreContentsOf self.now contents) }
    {
        let words = copied_words(alloc, self.memory.used_words(self.program.image()))?;
        let tasks = save_rows(alloc, self.tasks.as_slice())?;
        Ok(Contents { words, tasks })
    }

    /// Adds the words and the frames of so many rows to others. `false` says that there are more words in a frame than can be counted.
    ///
    /// # Errors
    /// Where memory was refused.
    pub(crate) fn add_contents(
        &self,
        alloc: Global,
        count: usize,
        out: &mut Vec<i64>,
    ) -> Result<bool, AllocError>
        ensures { IfOk result (λ is. is ≡ true → AreAdded self.now count out.old.items out.new.items) }
    {
        let image = self.program.image();
        let words = self.memory.used_words(image);
        add_counted(out, words)?;
        let rows = first_rows(&self.tasks, count);
        let are_added = add_rows(alloc, rows, self.program.width(), out)?;
        Ok(are_added)
    }

    /// The image that runs.
    pub(crate) fn image(&self) -> &'a Image
        ensures { result.now ≡ self.now.image }
    {
        self.program.image()
    }

    /// Its tasks and protected objects, and virtual time.
    pub(crate) fn tasking(&self) -> &Tasking<'s, R, D>
        ensures { result.now ≡ self.now.tasking }
    {
        &self.tasking
    }

    /// The words that its tasks share.
    pub(crate) fn memory(&self) -> &Memory
        ensures { result.now ≡ self.now.memory }
    {
        &self.memory
    }

    // The task that runs.
    fn task(&self, task: u8) -> &TaskState
        requires whole { IsWhole self.now.image (world_of self.now) }
        requires runs { IsRunner (kernel_of self.now.tasking) task }
        ensures { result.now.task ≡ tasks_of self.now task }
    {
        let _handler = self.tasking.handler();
        let row = self.row(task);
        let Some(state) = self.tasks.get(row) else {
            unreachable!()
        };
        state
    }

    /// The address of the running frame's instruction, of the task that runs.
    pub(crate) fn address(&self, task: u8) -> u16
        requires whole { IsWhole self.now.image (world_of self.now) }
        requires runs { IsRunner (kernel_of self.now.tasking) task }
        ensures { result ≡ (tasks_of self.now task).frame.place }
    {
        self.task(task).place()
    }

    /// What the task that runs has of frames.
    pub(crate) fn frames(&self, task: u8) -> FrameUse
        requires whole { IsWhole self.now.image (world_of self.now) }
        requires runs { IsRunner (kernel_of self.now.tasking) task }
        ensures { result ≡ frame_use (tasks_of self.now task) }
    {
        let state = self.task(task);
        FrameUse {
            below: state.callers(),
            words: state.words(),
        }
    }
}

impl<'a, 's, R: Ready + Drop, D: Delays + Drop> State<'a, 's, R, D> {
    /// Its memory, for another run.
    pub(crate) fn into_rooms(self) -> Rooms<'a>
        ensures { result ≡ self.entry.image }
    {
        let State {
            program,
            schedule: _,
            memory,
            tasks,
            parameters,
            tasking,
        } = self;
        let tables = tasking.into_tables();
        Rooms {
            program,
            memory,
            tasks,
            parameters,
            tables,
        }
    }
}

// So many first rows, or all if there are no more.
fn first_rows(rows: &[TaskState], count: usize) -> &[TaskState]
    ensures { result.now ≡ take count rows.now }
{
    &rows[..count.min(rows.len())]
}

// The tasks at the first instruction of their bodies.
fn initial_tasks(alloc: Global, program: &Program) -> Result<Vec<TaskState>, AllocError>
    ensures { IfOk result (λ tasks. tasks.items ≡
        map (λ t. record { task = body_state program.now t.subprogram; width = widest program.now }) program.now.tasks) }
{
    let bodies = program.image().tasks();
    let mut tasks = Vec::new(alloc);
    for task in bodies {
        tasks.push(initial_task(alloc, program, task.subprogram)?)?;
    }
    Ok(tasks)
}

// A task at the first instruction of this subprogram.
fn initial_task(alloc: Global, program: &Program, number: u16) -> Result<TaskState, AllocError>
    ensures { IfOk result (λ s. s ≡ record { task = body_state program.now number; width = widest program.now }) }
{
    code_leads_on();
    let _image = program.image();
    let width = program.width();
    match called(program, number) {
        None => TaskState::new(alloc, number, 0, 0, width),
        Some(subprogram) => {
            let place = first_place(program, number);
            TaskState::new(alloc, number, place, subprogram.locals, width)
        }
    }
}

// The tasks and objects with their priorities at time 0.
fn initial_tasking<'s, R: Ready, D: Delays>(
    alloc: Global,
    image: &Image,
    schedule: &'s Schedule,
) -> Result<Tasking<'s, R, D>, AllocError>
    ensures { IfOk result (λ tasking. kernel_of tasking ≡ (start image.now schedule.now).kernel) }
{
    steps_whole();
    code_leads_on();
    let _instructions = image.instructions();
    let bases = priorities(alloc, image)?;
    let ceilings = ceilings(alloc, image)?;
    let attached = handling_objects(image);
    let lines = schedule.lines();
    Tasking::start(alloc, &bases, &ceilings, attached, lines)
}

// For each channel the object whose procedure is its handler; there is no channel 0.
pub(crate) fn handling_objects(image: &Image) -> Attached
    ensures objects { (channel : ℕ) → get_or result channel None ≡ handling_object image.now channel }
    ensures channels { length result ≡ CHANNELS + 1 }
{
    let _instructions = image.instructions();
    [
        handled_object(image, 0),
        handled_object(image, 1),
        handled_object(image, 2),
        handled_object(image, 3),
        handled_object(image, 4),
        handled_object(image, 5),
        handled_object(image, 6),
        handled_object(image, 7),
        handled_object(image, 8),
    ]
}

// The object of the handler of a channel.
fn handled_object(image: &Image, channel: u8) -> Option<u8>
    ensures { result ≡ handling_object image.now channel }
{
    code_leads_on();
    let number = attached_to(image.attachments(), channel)?;
    let subprogram = subprogram_of(image, number)?;
    object_number(subprogram.kind)
}

// The subprogram with this number.
fn subprogram_of(image: &Image, number: u16) -> Option<Subprogram>
    ensures { result ≡ called image.now number }
{
    image.subprograms().get(usize::from(number)).copied()
}

fn object_number(kind: Kind) -> Option<u8>
    requires { (o : ℕ) → object_of kind ≡ Some o → o < OBJECTS }
    ensures { result ≡ object_of kind }
{
    match kind {
        Kind::ProtectedProcedure(object) => Some(object as u8),
        Kind::ProtectedFunction(object) => Some(object as u8),
        Kind::EntryBody(object) => Some(object as u8),
        Kind::Plain => None,
        Kind::TaskBody => None,
    }
}

// The procedure that is attached to a channel.
fn attached_to(attachments: &[Attachment], channel: u8) -> Option<u16>
    ensures { result ≡ attached_to channel attachments.now }
{
    for attachment in attachments {
        if attachment.channel == channel {
            return Some(attachment.subprogram);
        }
    }
    None
}

// The handler that has begun: it did not run before, or has begun anew.
fn begun(before: Option<u8>, is_over: bool, now: Option<u8>) -> Option<u8>
    ensures { result ≡ begun before is_over now }
{
    let handler = now?;
    if is_over || is_another(before, handler) {
        Some(handler)
    } else {
        None
    }
}

fn is_another(before: Option<u8>, handler: u8) -> bool
    ensures { result ≡ not (is_handler before handler) }
{
    match before {
        None => true,
        Some(other) => handler != other,
    }
}

// What a handler needs at its start: the frame of its procedure, above the one that never runs.
fn begin_handler(program: &Program, channel: u8, state: &mut TaskState)
    requires { state.old.width ≡ widest program.now }
    ensures task { state.new.task ≡ handler_state program.now channel }
    ensures width { state.new.width ≡ state.old.width }
{
    code_leads_on();
    let image = program.image();
    state.restart(image.subprograms().len() as u16, 0, 0);
    let Some(number) = attached_to(image.attachments(), channel) else {
        return;
    };
    let Some(subprogram) = called(program, number) else {
        unreachable!()
    };
    let place = first_place(program, number);
    let role = handler_role(subprogram.kind);
    state.serve(number, place, &subprogram, role, &[]);
}

// The frame of a handler's procedure has opened the action of its object.
fn handler_role(kind: Kind) -> Role
    ensures { role_of result ≡ role_within (object_of kind) }
{
    match kind {
        Kind::ProtectedProcedure(object) => Role::Opened { object },
        Kind::ProtectedFunction(object) => Role::Opened { object },
        Kind::EntryBody(object) => Role::Opened { object },
        Kind::Plain => Role::Inner,
        Kind::TaskBody => Role::Inner,
    }
}

fn priorities(alloc: Global, image: &Image) -> Result<Vec<u8>, AllocError>
    ensures { IfOk result (λ bases. bases.items ≡ map (λ t. t.priority) image.now.tasks) }
{
    let tasks = image.tasks();
    let mut bases = Vec::new(alloc);
    for task in tasks {
        bases.push(task.priority)?;
    }
    Ok(bases)
}

fn ceilings(alloc: Global, image: &Image) -> Result<Vec<u8>, AllocError>
    ensures { IfOk result (λ ceilings. ceilings.items ≡ map (λ o. o.ceiling) image.now.objects) }
{
    let objects = image.objects();
    let mut ceilings = Vec::new(alloc);
    for object in objects {
        ceilings.push(object.ceiling())?;
    }
    Ok(ceilings)
}
