//! The words and frames of a run as one row of words.
ghost use Rattle.std.specs.Prelude.{◌≡◌, ◌<◌, ◌≤◌, ◌++◌, ◌∷◌, pos, IfOk, OnOk, flat_map, length, true};
ghost use Rattle.base.specs.declared.limits.TheConstants.{FRAME_WORDS, WORDS};
ghost use Rattle.execution.specs.Encoding.{counted_words, frame_words, frames_words, option_words, role_words, task_words};
ghost use Rattle.execution.specs.Held.{RowsAreWide};
ghost use Rattle.processor.specs.Layout.{role_of};

use base::limits::WORDS;
use processor::{Role, TaskState};
use std::alloc::{AllocError, Global};

/// Adds how many words there are, and these.
///
/// # Errors
/// Where memory was refused.
#[tactic(auto, unfolding(crate::specs::Encoding::counted_words))]
pub(crate) fn add_counted(out: &mut Vec<i64>, words: &[i64]) -> Result<(), AllocError>
    requires { length words.now ≤ WORDS }
    ensures { OnOk result (out.new.items ≡ out.old.items ++ counted_words words.now) }
{
    out.push(words.len() as i64)?;
    out.extend_from_slice(words)?;
    Ok(())
}

/// Adds the frames of all rows, each with the exception that its task has still to raise. `false` says that a frame has more words than can be counted.
///
/// # Errors
/// Where memory was refused.
pub(crate) fn add_rows(
    alloc: Global,
    rows: &[TaskState],
    width: usize,
    out: &mut Vec<i64>,
) -> Result<bool, AllocError>
    requires wide { RowsAreWide width rows.now }
    requires width { width ≤ FRAME_WORDS }
    ensures { IfOk result (λ is. is ≡ true → out.new.items ≡ out.old.items ++ flat_map (λ r. task_words r.task) rows.now) }
{
    for row in rows {
        if !add_task(alloc, row, width, out)? {
            return Ok(false);
        }
    }
    Ok(true)
}

// Adds the frames of a task, and the exception that it has still to raise.
#[tactic(auto, unfolding(crate::specs::Encoding::task_words))]
fn add_task(
    alloc: Global,
    task: &TaskState,
    width: usize,
    out: &mut Vec<i64>,
) -> Result<bool, AllocError>
    requires wide { task.now.width ≡ width }
    requires width { width ≤ FRAME_WORDS }
    ensures { IfOk result (λ is. is ≡ true → out.new.items ≡ out.old.items ++ task_words task.now.task) }
{
    add_option(out, task.raising())?;
    add_frames(alloc, task, width, out)
}

// Adds the frames of a task, the running one first. Those below it are read from a copy.
#[tactic(auto, unfolding(crate::specs::Encoding::frames_words))]
fn add_frames(
    alloc: Global,
    task: &TaskState,
    width: usize,
    out: &mut Vec<i64>,
) -> Result<bool, AllocError>
    requires wide { task.now.width ≡ width }
    requires width { width ≤ FRAME_WORDS }
    ensures { IfOk result (λ is. is ≡ true → out.new.items ≡ out.old.items ++ frames_words task.now.task.frame task.now.task.callers) }
{
    if task.callers() == 0 {
        return add_lowest(task, out);
    }
    let mut rest = copy_of(alloc, task, width)?;
    while 0 < rest.callers() {
        out.push(1)?;
        if !add_running(&rest, out)? {
            return Ok(false);
        }
        rest.abandon();
    }
    add_lowest(&rest, out)
}

// A copy of a task.
fn copy_of(alloc: Global, task: &TaskState, width: usize) -> Result<TaskState, AllocError>
    requires wide { task.now.width ≡ width }
    requires width { width ≤ FRAME_WORDS }
    ensures { IfOk result (λ copied. copied ≡ task.now) }
{
    let mut copied = TaskState::new(alloc, 0, 0, 0, width)?;
    let saved = task.save(alloc)?;
    copied.restore(&saved);
    Ok(copied)
}

// Adds the running frame of a task, which has none below it.
#[tactic(auto, unfolding(crate::specs::Encoding::frames_words))]
fn add_lowest(task: &TaskState, out: &mut Vec<i64>) -> Result<bool, AllocError>
    requires { length task.now.task.callers ≡ 0 }
    ensures { IfOk result (λ is. is ≡ true → out.new.items ≡ out.old.items ++ frames_words task.now.task.frame task.now.task.callers) }
{
    out.push(0)?;
    add_running(task, out)
}

// Adds the running frame of a task. `false` says that it has more words than can be counted.
#[tactic(auto, unfolding(crate::specs::Encoding::frame_words), using(crate::proofs::Added::few_arguments))]
fn add_running(task: &TaskState, out: &mut Vec<i64>) -> Result<bool, AllocError>
    ensures { IfOk result (λ is. is ≡ true → out.new.items ≡ out.old.items ++ frame_words task.now.task.frame) }
{
    let words = task.words() - task.words_below();
    if WORDS < words {
        return Ok(false);
    }
    let locals = task.locals();
    let stack = (words - locals.len()) as u16;
    add_place(task, out)?;
    add_counted(out, locals)?;
    let top = task.top(stack);
    add_counted(out, top)?;
    Ok(true)
}

// Adds where the running frame of a task is, and how it came about.
fn add_place(task: &TaskState, out: &mut Vec<i64>) -> Result<(), AllocError>
    ensures { OnOk result (out.new.items ≡
        out.old.items ++ pos task.now.task.frame.subprogram ∷ pos task.now.task.frame.place ∷ role_words task.now.task.frame.role) }
{
    out.push(i64::from(task.subprogram()))?;
    out.push(i64::from(task.place()))?;
    add_role(out, task.role())?;
    Ok(())
}

#[tactic(auto, unfolding(crate::specs::Encoding::role_words))]
fn add_role(out: &mut Vec<i64>, role: Role) -> Result<(), AllocError>
    ensures { OnOk result (out.new.items ≡ out.old.items ++ role_words (role_of role)) }
{
    match role {
        Role::Inner => out.push(0)?,
        Role::Opened { object } => {
            out.push(1)?;
            out.push(i64::from(object))?;
        }
        Role::Serving {
            object,
            caller,
            pending,
        } => {
            out.push(2)?;
            out.push(i64::from(object))?;
            out.push(i64::from(caller))?;
            add_option(out, pending)?;
        }
    }
    Ok(())
}

#[tactic(auto, unfolding(crate::specs::Encoding::option_words))]
fn add_option(out: &mut Vec<i64>, number: Option<u16>) -> Result<(), AllocError>
    ensures { OnOk result (out.new.items ≡ out.old.items ++ option_words number) }
{
    match number {
        None => out.push(0)?,
        Some(number) => {
            out.push(1)?;
            out.push(i64::from(number))?;
        }
    }
    Ok(())
}
