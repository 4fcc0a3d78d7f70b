//! Runs of images, up to what their steps report.
ghost use Rattle.std.specs.Prelude.{◌≡◌, ◌⊎◌, ◌<◌, ◌≤◌, ◌+◌, ◌-◌, [], IfOk, IfSome, List, None, Some, true, ℕ};
ghost use Rattle.image.specs.Code.{start};
ghost use Rattle.image_laws.specs.Whole.{IsWhole};
ghost use Rattle.kernel.specs.Calm.{IsRunner};
ghost use Rattle.kernel.specs.State.{Line as KernelLine, Outcome as KernelOutcome};
ghost use Rattle.tasking.specs.Held.{kernel_of};
ghost use Rattle.execution.specs.Ahead.{next_address, next_asking, next_frames, next_raising};
ghost use Rattle.execution.specs.Encoding.{AreAdded};
ghost use Rattle.execution.specs.Saving.{AreContentsOf};
ghost use Rattle.execution.specs.Held.{Leads, lines_of, tasks_of, world_of, world_with};

use crate::contents::Contents;
use crate::frame_use::FrameUse;
use crate::line::Line;
use crate::rooms::Rooms;
use crate::state::State;
use clock::{Delays, Schedule};
use dispatch::Ready;
use image::Image;
use image_laws::steps_whole;
use kernel::laws::somebody_runs;
use processor::Steps;
use std::alloc::{AllocError, Global};
use std::marker::Model;
use std::sync::ledger::Ledger;
use task_steps::{Asking, Memory, Raising};
use tasking::Tasking;

/// A run of an image, between two steps. Memory is taken by `start` alone.
#[derive(Drop)]
pub struct Execution<'a, 's, R: Ready, D: Delays> {
    pub(crate) state: Box<State<'a, 's, R, D>>,
}

impl<'a, 's, R: Ready, D: Delays> Model for Execution<'a, 's, R, D> {
    ghost use Rattle.image_laws.specs.Whole.{IsWhole};
    ghost use Rattle.execution.specs.Held.{HeldWorld, world_of};

    ghost Value = { HeldWorld };

    ghost view = { λ e. e.state.value };

    ghost invariant = { λ e. IsWhole e.state.value.image (world_of e.state.value) };
}

/// How far steps have led.
#[derive(Clone, Copy, PartialEq, Eq, Debug)]
pub struct Advance {
    /// How many steps of the limit are left.
    pub left: u64,
    /// The line that the last step wrote.
    pub line: Option<Line>,
}

impl<'a, 's, R: Ready, D: Delays> Execution<'a, 's, R, D> {
    /// Goes on up to a line or an outcome, `limit` steps at most. Nothing is done once there is an outcome.
    pub fn advance<L: Ledger>(&mut self, limit: u64, steps: &mut Steps<L>) -> Advance
        ensures leads { Leads (limit - result.left) self.old self.new (lines_of self.old.image result.line) }
        ensures left { result.left ≤ limit }
        ensures count { steps.new ≡ steps.old + (limit - result.left) }
        ensures going { IfSome result.line (λ line. (kernel_of self.new.tasking).outcome ≡ None) }
        ensures fewer { IfSome result.line (λ line. result.left < limit) }
        ensures stops { result.line ≡ None → (result.left ≡ 0) ⊎ ((o : KernelOutcome) × ((kernel_of self.new.tasking).outcome ≡ Some o)) }
    {
        let mut left = limit;
        while 0 < left {
            let Some(task) = self.runner() else {
                return Advance { left, line: None };
            };
            let advance = self.advance_task(task, left, steps);
            left = advance.left;
            if advance.line.is_some() {
                return advance;
            }
        }
        Advance { left, line: None }
    }

    /// Does one step, which is counted, and returns the line that it wrote, if any. Nothing is done once there is an outcome.
    pub fn step<L: Ledger>(&mut self, steps: &mut Steps<L>) -> Option<Line>
        ensures leads { (kernel_of self.old.tasking).outcome ≡ None → Leads 1 self.old self.new (lines_of self.old.image result) }
        ensures going { IfSome result (λ line. (kernel_of self.new.tasking).outcome ≡ None) }
        ensures count { (kernel_of self.old.tasking).outcome ≡ None → steps.new ≡ steps.old + 1 }
        ensures over { (o : KernelOutcome) → (kernel_of self.old.tasking).outcome ≡ Some o → (result ≡ None) × (self.new ≡ self.old) × (steps.new ≡ steps.old) }
    {
        match self.runner() {
            None => None,
            Some(task) => self.advance_task(task, 1, steps).line,
        }
    }

    // Steps of the running task, up to the first that asks something of the kernel, and what comes of that.
    fn advance_task<L: Ledger>(&mut self, task: u8, limit: u64, steps: &mut Steps<L>) -> Advance
        requires runs { IsRunner (kernel_of self.old.tasking) task }
        requires some { 0 < limit }
        ensures leads { Leads (limit - result.left) self.old self.new (lines_of self.old.image result.line) }
        ensures left { result.left < limit }
        ensures count { steps.new ≡ steps.old + (limit - result.left) }
        ensures going { IfSome result.line (λ line. (kernel_of self.new.tasking).outcome ≡ None) }
    {
        self.state.advance_task(task, limit, steps)
    }

    // The running task, unless there is an outcome.
    fn runner(&self) -> Option<u8>
        ensures runs { IfSome result (λ t. IsRunner (kernel_of self.now.tasking) t) }
        ensures over { result ≡ None → (o : KernelOutcome) × ((kernel_of self.now.tasking).outcome ≡ Some o) }
    {
        somebody_runs();
        let tasking = self.tasking();
        match tasking.outcome() {
            None => tasking.running(),
            Some(_) => None,
        }
    }

    /// The exception that the next step raises, handled or not, if it raises one; nothing changes.
    pub fn raising_ahead(&self) -> Option<Raising>
        ensures { (lines : List KernelLine) → result ≡ next_raising self.now.image self.now.schedule (world_with lines self.now) }
    {
        let task = self.runner()?;
        self.state().raising_ahead(task)
    }

    /// What the next step asks for beside the operation of an object, if it asks for anything and raises nothing; nothing changes.
    pub fn asking_ahead(&self) -> Option<Asking>
        ensures { (lines : List KernelLine) → result ≡ next_asking self.now.image self.now.schedule (world_with lines self.now) }
    {
        let task = self.runner()?;
        self.state().asking_ahead(task)
    }

    /// The address of the instruction that the next step does, unless there is an outcome; nothing changes.
    pub fn address_ahead(&self) -> Option<u16>
        ensures { result ≡ next_address (world_of self.now) }
    {
        let task = self.runner()?;
        Some(self.state().address(task))
    }

    /// What the task or handler that takes the next step has of frames, unless there is an outcome; nothing changes.
    pub fn frames_ahead(&self) -> Option<FrameUse>
        ensures { result ≡ next_frames (world_of self.now) }
    {
        let task = self.runner()?;
        Some(self.state().frames(task))
    }

    /// A copy of the words and the frames.
    ///
    /// # Errors
    /// Where memory was refused.
    pub fn contents(&self, alloc: Global) -> Result<Contents, AllocError>
        ensures { IfOk result (λ contents. AreContentsOf self.now contents) }
    {
        self.state().contents(alloc)
    }

    /// Adds the words that tasks share and the frames of so many rows to others, so that equal words say that they are equal. `false` says that there are
    /// more words in a frame than can be counted.
    ///
    /// # Errors
    /// Where memory was refused.
    pub fn add_contents(
        &self,
        alloc: Global,
        count: usize,
        out: &mut Vec<i64>,
    ) -> Result<bool, AllocError>
        ensures { IfOk result (λ is. is ≡ true → AreAdded self.now count out.old.items out.new.items) }
    {
        self.state().add_contents(alloc, count, out)
    }

    // What it holds.
    fn state(&self) -> &State<'a, 's, R, D>
        ensures same { result.now ≡ self.now }
        ensures whole { IsWhole self.now.image (world_of self.now) }
    {
        &self.state
    }

    /// The image that runs.
    pub fn image(&self) -> &'a Image
        ensures { result.now ≡ self.now.image }
    {
        self.state().image()
    }

    /// Its tasks and protected objects, and virtual time.
    pub fn tasking(&self) -> &Tasking<'s, R, D>
        ensures same { result.now ≡ self.now.tasking }
        ensures whole { IsWhole self.now.image (world_of self.now) }
    {
        self.state().tasking()
    }

    /// The words that its tasks share.
    pub fn memory(&self) -> &Memory
        ensures { result.now ≡ self.now.memory }
    {
        self.state().memory()
    }
}

impl<'a, 's, R: Ready + Drop, D: Delays + Drop> Execution<'a, 's, R, D> {
    /// The start of a run: the world of code after 0 steps.
    ///
    /// # Errors
    /// Where memory was refused.
    #[inline(never)]
    pub fn start(
        alloc: Global,
        image: &'a Image,
        schedule: &'s Schedule,
    ) -> Result<Self, AllocError>
        ensures image { IfOk result (λ e. e.image ≡ image.now) }
        ensures schedule { IfOk result (λ e. e.schedule ≡ schedule.now) }
        ensures world { IfOk result (λ e. world_of e ≡ start image.now schedule.now) }
    {
        steps_whole();
        let _instructions = image.instructions();
        let state = State::new(alloc, image, schedule)?;
        let state = Box::new(alloc, state)?;
        Ok(Execution { state })
    }

    /// Its memory, for another run.
    #[inline(never)]
    pub fn into_rooms(self) -> Rooms<'a>
        ensures { result ≡ self.entry.image }
    {
        Box::into_inner(self.state).into_rooms()
    }
}
