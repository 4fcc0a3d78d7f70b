//! Sleeping tasks as a plain list.
ghost use Rattle.clock.specs.Sleepers.{least, least_wake, wake_of};

use crate::delays::{Delays, Sleeper};
use arrayvec::ArrayVec;
use base::limits::TASKS;
use std::marker::Model;

/// One list.
#[derive(Drop)]
pub struct ListDelays {
    sleepers: ArrayVec<Sleeper, TASKS>,
}

impl Model for ListDelays {
    ghost use Rattle.std.specs.Prelude.{List, ◌≤◌, length};
    ghost use Rattle.base.specs.declared.limits.TheConstants.{TASKS};
    ghost use Rattle.clock.specs.declared.delays.Sleeper.{Sleeper as Row};

    ghost Value = { List Row };

    ghost view = { λ d. d.sleepers.items };

    ghost invariant = { λ d. length d.sleepers.items ≤ TASKS };
}

impl Delays for ListDelays {
    ghost sleepers = { λ d. d };

    fn new() -> Self {
        ListDelays {
            sleepers: ArrayVec::new(),
        }
    }

    fn add(&mut self, task: u8, wake: i64) {
        self.sleepers.push(Sleeper { task, wake });
    }

    fn next_time(&self) -> Option<i64> {
        let (first, rest) = self.sleepers.as_slice().split_first()?;
        let mut time = first.wake;
        for sleeper in rest {
            if sleeper.wake < time {
                time = sleeper.wake;
            }
        }
        Some(time)
    }

    fn wake_time(&self, task: u8) -> Option<i64> {
        for sleeper in self.sleepers.as_slice() {
            if sleeper.task == task {
                return Some(sleeper.wake);
            }
        }
        None
    }

    fn in_order(&self) -> ArrayVec<Sleeper, TASKS> {
        let mut sleepers = ArrayVec::new();
        for sleeper in self.sleepers.as_slice() {
            sleepers.push(*sleeper);
        }
        sleepers
    }

    fn expire(&mut self, now: i64) -> ArrayVec<u8, TASKS> {
        let mut due = ArrayVec::new();
        let mut waiting = ArrayVec::new();
        for sleeper in self.sleepers.as_slice() {
            if sleeper.wake <= now {
                due.push(sleeper.task);
            } else {
                waiting.push(*sleeper);
            }
        }
        self.sleepers = waiting;
        due
    }
}
