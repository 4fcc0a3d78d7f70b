//! Copies of the words and frames of a run.
ghost use Rattle.std.specs.Prelude.{◌≡◌, IfOk};

use processor::{SavedTask, TaskState};
use std::alloc::{AllocError, Global};
use std::marker::Model;

/// The words that tasks share, and the frames of each task and, in a last row, of the handler that runs.
#[derive(Drop)]
pub struct Contents {
    pub(crate) words: Vec<i64>,
    pub(crate) tasks: Vec<SavedTask>,
}

impl Model for Contents {
    ghost use Rattle.execution.specs.Saving.{HeldContents};

    ghost Value = { HeldContents };

    ghost view = { λ c. record { words = c.words.items; tasks = c.tasks.items } };

    ghost invariant = { λ c. Unit {0} };
}

// A copy of words.
pub(crate) fn copied_words(alloc: Global, words: &[i64]) -> Result<Vec<i64>, AllocError>
    ensures { IfOk result (λ copied. copied.items ≡ words.now) }
{
    let mut copied = Vec::new(alloc);
    copied.extend_from_slice(words)?;
    Ok(copied)
}

// Copies of the tasks of all rows.
pub(crate) fn save_rows(alloc: Global, rows: &[TaskState]) -> Result<Vec<SavedTask>, AllocError>
    ensures { IfOk result (λ saved. saved.items ≡ rows.now) }
{
    let mut saved = Vec::new(alloc);
    for row in rows {
        saved.push(row.save(alloc)?)?;
    }
    Ok(saved)
}
