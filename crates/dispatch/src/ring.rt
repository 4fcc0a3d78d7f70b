//! Tasks in a ring of places.
ghost use Rattle.std.specs.Prelude.{◌≡◌, ◌<◌, ◌++◌, ◌∷◌, [], drop, length};
ghost use Rattle.dispatch.specs.Queues.{head_of, is_occupied};
ghost use Rattle.base.specs.declared.limits.TheConstants.{TASKS};

use base::limits::TASKS;
use std::marker::Model;

/// Tasks in a row, their head first. The places are read from `start` on, round their end.
#[derive(Drop)]
pub struct Ring {
    places: [u8; TASKS],
    start: usize,
    count: usize,
}

impl Model for Ring {
    ghost use Rattle.std.specs.Prelude.{◌≡◌, ◌≤◌, ◌<◌, ℕ, List, length};
    ghost use Rattle.base.specs.declared.limits.TheConstants.{TASKS};
    ghost use Rattle.dispatch.specs.Rings.{tasks_from};

    ghost Value = { List ℕ };

    ghost view = { λ r. tasks_from r.places r.start r.count };

    ghost invariant = { λ r. (length r.places ≡ TASKS) × (r.start < TASKS) × (r.count ≤ TASKS) };
}

impl Default for Ring {
    ghost use Rattle.std.specs.Prelude.{◌≡◌, []};

    ghost is_default = { λ r. r ≡ [] };

    // No task stands in it.
    fn default() -> Self {
        Ring {
            places: [0; TASKS],
            start: 0,
            count: 0,
        }
    }
}

impl Ring {
    /// Whether some task is in it.
    pub fn is_occupied(&self) -> bool
        ensures { result ≡ is_occupied self.now }
    {
        0 < self.count
    }

    /// Adds a task after the others.
    pub fn push_back(&mut self, task: u8)
        requires { length self.old < TASKS }
        ensures { self.new ≡ self.old ++ task ∷ [] }
    {
        self.places[(self.start + self.count) % TASKS] = task;
        self.count += 1;
    }

    /// Adds a task before the others.
    pub fn push_front(&mut self, task: u8)
        requires { length self.old < TASKS }
        ensures { self.new ≡ task ∷ self.old }
    {
        self.start = (self.start + TASKS - 1) % TASKS;
        self.places[self.start] = task;
        self.count += 1;
    }

    /// Takes the head, if there is one.
    pub fn pop_front(&mut self) -> Option<u8>
        ensures task { result ≡ head_of self.old }
        ensures left { self.new ≡ drop 1 self.old }
    {
        if self.count == 0 {
            return None;
        }
        let task = self.places[self.start];
        self.start = (self.start + 1) % TASKS;
        self.count -= 1;
        Some(task)
    }
}
