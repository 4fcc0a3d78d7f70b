//! Copies of the tasks and protected objects of a partition, from which runs go on.
ghost use Rattle.std.specs.Prelude.{◌≡◌, map};

use crate::action_kinds::restore_kinds;
use crate::reports::{Kind, Place};
use arrayvec::ArrayVec;
use base::limits::{OBJECTS, TASKS};
use clock::Sleeper;
use protected::Objects;
use std::marker::Model;

/// The tasks and protected objects at a time at which no task is ready and there is no outcome, without the interrupts that are pending.
#[derive(Drop)]
pub struct Pause {
    pub(crate) running: Option<u8>,
    pub(crate) handler: Option<u8>,
    pub(crate) sleepers: ArrayVec<Sleeper, TASKS>,
    pub(crate) objects: Objects,
    pub(crate) kinds: [ArrayVec<Kind, OBJECTS>; TASKS + 1],
    pub(crate) places: [Place; TASKS],
    pub(crate) time: i64,
}

impl Model for Pause {
    ghost use Rattle.std.specs.Prelude.{[], None, map};
    ghost use Rattle.tasking.specs.Held.{Held, held_of as held};
    ghost use Rattle.tasking.specs.Orderly.{IsKeptOrderly as Kept};

    ghost Value = { Held };

    ghost view = { λ p. held p.running p.handler (λ priority. []) p.sleepers.items p.objects (map (λ l. l.items) p.kinds) p.places p.time None [] [] };

    ghost invariant = { λ p. Kept (held p.running p.handler (λ priority. []) p.sleepers.items p.objects (map (λ l. l.items) p.kinds) p.places p.time None
        [] []) };
}

/// The memory of the tables of open actions, for another run.
#[derive(Drop)]
pub struct Tables {
    pub(crate) objects: Objects,
    pub(crate) kinds: [ArrayVec<Kind, OBJECTS>; TASKS + 1],
}

impl Tables {
    /// They become as those of a pause are.
    pub(crate) fn restore(&mut self, pause: &Pause)
        ensures objects { self.new.objects ≡ pause.now.objects }
        ensures kinds { map (λ l. l.items) self.new.kinds ≡ pause.now.kinds }
    {
        self.objects.restore(&pause.objects);
        restore_kinds(&mut self.kinds, &pause.kinds);
    }
}
