//! Worlds on the way of a run, from which runs on later choices go on.
ghost use Rattle.std.specs.Prelude.{◌≡◌, ℕ, ℤ, [], IfOk, IfSome, List, OnOk, take, true};
ghost use Rattle.choices.specs.Slots.{Slot as SlotRow};
ghost use Rattle.image.specs.Sections.{Sections};
ghost use Rattle.searching.specs.Following.{AreCheckpoints, IsCheckpoint};
ghost use Rattle.searching.specs.declared.sight.Wanted.{Wanted as Asked};

use crate::world::World;
use choices::Choice;
use execution::Contents;
use std::alloc::{AllocError, Global};
use std::marker::Model;
use tasking::Pause;

// How many checkpoints are kept at most, the latest ones.
const CHECKPOINTS: usize = 1_024;

/// A world in which the run on a choice is before the time of the slots after the first `front` ones, and how many steps may be taken at its time.
#[derive(Drop)]
pub(crate) struct Checkpoint {
    choice: Choice,
    front: usize,
    time: i64,
    left: u64,
    world: World,
    pause: Box<Pause>,
}

impl Model for Checkpoint {
    ghost use Rattle.searching.specs.Following.{KeptCheckpoint};

    ghost Value = { KeptCheckpoint };

    ghost view = { λ c. record { choice = c.choice; front = c.front; time = c.time; left = c.left; world = c.world; pause = c.pause.value } };

    ghost invariant = { λ c. Unit {0} };
}

impl Checkpoint {
    /// A world on the way of the run on a choice, and a copy of its tasks and objects.
    ///
    /// # Errors
    /// Where memory was refused.
    pub(crate) fn new(
        choice: &Choice,
        front: usize,
        time: i64,
        left: u64,
        world: World,
        pause: Box<Pause>,
    ) -> Result<Checkpoint, AllocError>
        ensures { IfOk result (λ c. c ≡ record { choice = choice.now; front = front; time = time; left = left; world = world; pause = pause.value }) }
    {
        let choice = choice.copy()?;
        Ok(Checkpoint {
            choice,
            front,
            time,
            left,
            world,
            pause,
        })
    }

    /// How many first slots have passed.
    pub(crate) fn front(&self) -> usize
        ensures { result ≡ self.now.front }
    {
        self.front
    }

    /// The time of the slots after those, in microseconds.
    pub(crate) fn time(&self) -> i64
        ensures { result ≡ self.now.time }
    {
        self.time
    }

    /// How many steps may be taken at the time of its world.
    pub(crate) fn left(&self) -> u64
        ensures { result ≡ self.now.left }
    {
        self.left
    }

    /// Its words and frames.
    pub(crate) fn contents(&self) -> &Contents
        ensures { result.now ≡ self.now.world.contents }
    {
        self.world.contents()
    }

    /// The copy of its tasks and objects.
    pub(crate) fn pause(&self) -> &Pause
        ensures { result.now ≡ self.now.pause }
    {
        &self.pause
    }

    /// Whether a choice has the same alternatives of the first slots. `false` doesn't say that it hasn't.
    pub(crate) fn is_on_way_of(&self, choice: &Choice) -> bool
        ensures { result ≡ true → take self.now.front choice.now ≡ take self.now.front self.now.choice }
    {
        choice.begins_like(&self.choice, self.front)
    }
}

/// The checkpoints on the way of a run, in the order of their times.
#[derive(Drop)]
pub(crate) struct Path {
    checkpoints: Vec<Checkpoint>,
}

impl Model for Path {
    ghost use Rattle.std.specs.Prelude.{List};
    ghost use Rattle.searching.specs.Following.{KeptCheckpoint};

    ghost Value = { List KeptCheckpoint };

    ghost view = { λ p. p.checkpoints.items };

    ghost invariant = { λ p. Unit {0} };
}

impl Path {
    /// No checkpoint.
    pub(crate) fn new(alloc: Global) -> Path
        ensures { result ≡ [] }
    {
        Path {
            checkpoints: Vec::new(alloc),
        }
    }

    /// The last checkpoint, if there is one.
    pub(crate) fn last(&self) -> Option<&Checkpoint>
        ensures { IfSome result (λ checkpoint. (i : Sections) (slots : List SlotRow) (until : ℤ) (limit : ℕ) (wanted : Asked)
            → AreCheckpoints i slots until limit wanted self.now → IsCheckpoint i slots until limit wanted checkpoint.now) }
    {
        let count = self.checkpoints.len();
        if count == 0 {
            return None;
        }
        Some(&self.checkpoints[count - 1])
    }

    /// The last checkpoint, if the run on a choice comes to it.
    pub(crate) fn last_for(&self, choice: &Choice) -> Option<&Checkpoint>
        ensures kept { IfSome result (λ checkpoint. (i : Sections) (slots : List SlotRow) (until : ℤ) (limit : ℕ) (wanted : Asked)
            → AreCheckpoints i slots until limit wanted self.now → IsCheckpoint i slots until limit wanted checkpoint.now) }
        ensures on_way { IfSome result (λ checkpoint. take checkpoint.now.front choice.now ≡ take checkpoint.now.front checkpoint.now.choice) }
    {
        let checkpoint = self.last()?;
        if checkpoint.is_on_way_of(choice) {
            Some(checkpoint)
        } else {
            None
        }
    }

    /// How many first slots have passed at the last checkpoint, if there is one.
    pub(crate) fn front(&self) -> Option<usize> {
        Some(self.last()?.front())
    }

    /// Leaves out the checkpoints to which the run on a choice doesn't come.
    pub(crate) fn keep_those_of(&mut self, choice: &Choice)
        ensures { (i : Sections) (slots : List SlotRow) (until : ℤ) (limit : ℕ) (wanted : Asked)
            → AreCheckpoints i slots until limit wanted self.old → AreCheckpoints i slots until limit wanted self.new }
    {
        while 0 < self.checkpoints.len() {
            if self.checkpoints[self.checkpoints.len() - 1].is_on_way_of(choice) {
                return;
            }
            let _ = self.checkpoints.pop();
        }
    }

    /// Adds a checkpoint after the others.
    ///
    /// # Errors
    /// Where memory was refused.
    pub(crate) fn push(&mut self, checkpoint: Checkpoint) -> Result<(), AllocError>
        ensures { OnOk result ((i : Sections) (slots : List SlotRow) (until : ℤ) (limit : ℕ) (wanted : Asked)
            → AreCheckpoints i slots until limit wanted self.old → IsCheckpoint i slots until limit wanted checkpoint
            → AreCheckpoints i slots until limit wanted self.new) }
    {
        self.make_room();
        self.checkpoints.push(checkpoint)?;
        Ok(())
    }

    // Leaves out the first checkpoint if there are as many as may be kept.
    fn make_room(&mut self)
        ensures { (i : Sections) (slots : List SlotRow) (until : ℤ) (limit : ℕ) (wanted : Asked)
            → AreCheckpoints i slots until limit wanted self.old → AreCheckpoints i slots until limit wanted self.new }
    {
        if self.checkpoints.len() < CHECKPOINTS {
            return;
        }
        let _ = self.checkpoints.remove(0);
    }
}
