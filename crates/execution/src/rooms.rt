//! The memory of runs, which one run after the other may have.
ghost use Rattle.std.specs.Prelude.{◌≡◌, ◌<◌, ◌≤◌, ℕ, IfOk, drop, length, slice_set};
ghost use Rattle.execution.specs.Held.{RowsAreWide, world_of};
ghost use Rattle.execution.specs.Saving.{HasAllRows, world_in};
ghost use Rattle.image.specs.Attachments.{interrupts};
ghost use Rattle.image.specs.Code.{partition_of};
ghost use Rattle.image_laws.specs.Whole.{IsWhole};
ghost use Rattle.tasking.specs.Held.{kernel_of};

use crate::contents::Contents;
use crate::execution_of::Execution;
use crate::parameters::Parameters;
use crate::state::{State, handling_objects};
use base::ScheduleLine;
use clock::{Delays, Schedule};
use dispatch::Ready;
use image::Image;
use image_laws::{code_leads_on, steps_whole};
use processor::{Program, SavedTask, TaskState};
use std::alloc::{AllocError, Global};
use std::marker::Model;
use task_steps::Memory;
use tasking::{Pause, Tables, Tasking};

/// The memory of a run of an image, for another one. Contracts see the image.
#[derive(Drop)]
pub struct Rooms<'a> {
    pub(crate) program: Program<'a>,
    pub(crate) memory: Memory,
    pub(crate) tasks: Vec<TaskState>,
    pub(crate) parameters: Parameters,
    pub(crate) tables: Box<Tables>,
}

impl<'a> Model for Rooms<'a> {
    ghost use Rattle.std.specs.Prelude.{◌≡◌, ◌+◌, length};
    ghost use Rattle.image.specs.Rules.{IsWellFormed};
    ghost use Rattle.image.specs.Sections.{Sections};
    ghost use Rattle.image_laws.specs.Room.{widest};
    ghost use Rattle.execution.specs.Held.{RowsAreWide};

    ghost Value = { Sections };

    ghost view = { λ r. r.program };

    ghost invariant = { λ r. IsWellFormed r.program × (length r.tasks.items ≡ length r.program.tasks + 1)
        × RowsAreWide (widest r.program) r.tasks.items };
}

impl<'a> Rooms<'a> {
    /// A run that goes on from these words and frames and this pause, on a schedule of which so many lines have passed.
    ///
    /// # Errors
    /// Where memory was refused.
    #[inline(never)]
    pub fn resume<'s, R: Ready + Drop, D: Delays + Drop>(
        self,
        alloc: Global,
        contents: &Contents,
        pause: &Pause,
        schedule: &'s Schedule,
        passed: usize,
    ) -> Result<Execution<'a, 's, R, D>, AllocError>
        requires fits { HasAllRows self contents.now }
        requires passed { passed ≤ length schedule.now }
        requires whole { IsWhole self (world_in self contents.now pause.now (interrupts self (drop passed schedule.now))) }
        ensures image { IfOk result (λ e. e.image ≡ self.entry) }
        ensures schedule { IfOk result (λ e. e.schedule ≡ schedule.now) }
        ensures world { IfOk result (λ e. world_of e ≡ world_in self.entry contents.now pause.now (interrupts self.entry (drop passed schedule.now))) }
    {
        let state = self.resume_state(contents, pause, schedule, passed);
        let state = Box::new(alloc, state)?;
        Ok(Execution { state })
    }

    // What such a run holds.
    fn resume_state<'s, R: Ready, D: Delays>(
        self,
        contents: &Contents,
        pause: &Pause,
        schedule: &'s Schedule,
        passed: usize,
    ) -> State<'a, 's, R, D>
        requires fits { HasAllRows self contents.now }
        requires passed { passed ≤ length schedule.now }
        requires whole { IsWhole self (world_in self contents.now pause.now (interrupts self (drop passed schedule.now))) }
        ensures image { result.image ≡ self.entry }
        ensures schedule { result.schedule ≡ schedule.now }
        ensures world { world_of result ≡ world_in self.entry contents.now pause.now (interrupts self.entry (drop passed schedule.now)) }
    {
        let Rooms {
            program,
            mut memory,
            mut tasks,
            parameters,
            tables,
        } = self;
        let image = program.image();
        memory.restore(image, contents.words.as_slice());
        restore_rows(&mut tasks, contents.tasks.as_slice());
        let tasking = resume_tasking(image, pause, tables, schedule, passed);
        State {
            program,
            schedule,
            memory,
            tasks,
            parameters,
            tasking,
        }
    }
}

// The rows become those of which there are copies.
fn restore_rows(rows: &mut Vec<TaskState>, saved: &[SavedTask])
    requires count { length rows.old.items ≡ length saved.now }
    requires wide { (width : ℕ) × RowsAreWide width rows.old.items × RowsAreWide width saved.now }
    ensures { rows.new.items ≡ saved.now }
{
    let mut at = 0;
    while at < saved.len() {
        restore_row(rows, at, &saved[at]);
        at += 1;
    }
}

// A row becomes the one of which there is a copy.
fn restore_row(rows: &mut Vec<TaskState>, at: usize, saved: &SavedTask)
    requires there { at < length rows.old.items }
    requires wide { RowsAreWide saved.now.width rows.old.items }
    ensures { rows.new.items ≡ slice_set rows.old.items at saved.now }
{
    let Some(row) = rows.get_mut(at) else {
        unreachable!()
    };
    row.restore(saved);
}

// The tasks and objects of a pause, in these tables, with the interrupts of the schedule whose lines have not passed.
fn resume_tasking<'s, R: Ready, D: Delays>(
    image: &Image,
    pause: &Pause,
    tables: Box<Tables>,
    schedule: &'s Schedule,
    passed: usize,
) -> Tasking<'s, R, D>
    requires passed { passed ≤ length schedule.now }
    requires partition { (kernel_of pause.now).partition ≡ partition_of image.now }
    ensures kernel { kernel_of result ≡ record (kernel_of pause.now) { pending = interrupts image.now (drop passed schedule.now) } }
    ensures handler { result.handler ≡ pause.now.handler }
{
    code_leads_on();
    let _instructions = image.instructions();
    let attached = handling_objects(image);
    let lines = lines_from(schedule.lines(), passed);
    Tasking::resume(pause, tables, attached, lines)
}

// The lines after so many first ones.
fn lines_from(lines: &[ScheduleLine], passed: usize) -> &[ScheduleLine]
    requires { passed ≤ length lines.now }
    ensures { result.now ≡ drop passed lines.now }
{
    &lines[passed..]
}
