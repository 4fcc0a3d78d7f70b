//! Copies of tasks, which take no more memory than their frames need.

use crate::header::SavedHeaders;
use std::marker::Model;

/// A copy of what a task has: the words of its frames, and what each frame has beside them.
#[derive(Drop)]
pub struct SavedTask {
    pub(crate) words: Vec<i64>,
    pub(crate) headers: SavedHeaders,
    pub(crate) raising: Option<u16>,
    pub(crate) width: usize,
}

impl Model for SavedTask {
    ghost use Rattle.std.specs.Prelude.{◌∷◌, ◌≤◌, length};
    ghost use Rattle.base.specs.declared.limits.TheConstants.{FRAME_WORDS};
    ghost use Rattle.processor.specs.Layout.{AreStacked, TaskRow, task_in};
    ghost use Rattle.processor.specs.declared.task_state.TheConstants.{CALLERS};

    ghost Value = { TaskRow };

    ghost view = { λ s. record { task = task_in s.words.items s.headers s.raising; width = s.width } };

    ghost invariant = { λ s. AreStacked s.width (length s.words.items) (s.headers.running ∷ s.headers.waiting) × (length s.headers.waiting ≤ CALLERS)
        × (s.width ≤ FRAME_WORDS) };
}
