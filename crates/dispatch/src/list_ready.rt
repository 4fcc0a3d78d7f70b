//! Ready tasks as plain lists.
ghost use Rattle.std.specs.Prelude.{◌≡◌, ◌<◌, ◌≤◌, ◌↔◌, ℕ, List, [], length, map, get_or};
ghost use Rattle.dispatch.specs.Queues.{highest, is_occupied};
ghost use Rattle.base.specs.declared.limits.TheConstants.{PRIORITIES, TASKS};

use crate::ready::Ready;
use arrayvec::ArrayVec;
use base::limits::{PRIORITIES, TASKS};
use std::marker::Model;

/// One list for each priority.
#[derive(Drop)]
pub struct ListReady {
    lists: [ArrayVec<u8, TASKS>; PRIORITIES],
}

impl Model for ListReady {
    ghost use Rattle.std.specs.Prelude.{◌≡◌, ℕ, List, length, map};
    ghost use Rattle.base.specs.declared.limits.TheConstants.{PRIORITIES};

    ghost Value = { List (List ℕ) };

    ghost view = { λ r. map (λ l. l.items) r.lists };

    ghost invariant = { λ r. length r.lists ≡ PRIORITIES };
}

impl Ready for ListReady {
    ghost use Rattle.std.specs.Prelude.{get_or, []};

    ghost queues = { λ r p. get_or r p [] };

    fn new() -> Self {
        ListReady {
            lists: Default::default(),
        }
    }

    fn add_tail(&mut self, task: u8, priority: u8) {
        self.lists[usize::from(priority)].push(task);
    }

    fn add_head(&mut self, task: u8, priority: u8) {
        self.lists[usize::from(priority)].insert(0, task);
    }

    fn highest(&self) -> Option<u8> {
        let mut below = PRIORITIES;
        while 0 < below {
            below -= 1;
            if self.is_occupied(below) {
                return Some(below as u8);
            }
        }
        None
    }

    fn take_highest(&mut self) -> Option<u8> {
        let priority = self.highest()?;
        self.lists[usize::from(priority)].pop_at(0)
    }
}

impl ListReady {
    // Whether some task stands in the list of a priority.
    fn is_occupied(&self, priority: usize) -> bool
        requires { priority < PRIORITIES }
        ensures { result ≡ is_occupied (get_or self.now priority []) }
    {
        !self.lists[priority].is_empty()
    }
}
