//! Worlds in which runs are, kept for others to be compared with them.
ghost use Rattle.std.specs.Prelude.{◌≡◌, ◌≢◌, ◌++◌, IfOk, IfSome, OnOk, false, flat_map, length};
ghost use Rattle.execution.specs.Encoding.{option_words};
ghost use Rattle.kernel.specs.State.{IsReady};
ghost use Rattle.searching.specs.Encoding.{ended_words, place_words, sleeper_words};
ghost use Rattle.searching.specs.Following.{IsEncoded, IsSeenIn, StandThere, rows_of, standing_words};
ghost use Rattle.tasking.specs.Held.{place_of};

use clock::{Delays, Sleeper};
use dispatch::Ready;
use execution::{Contents, Execution};
use std::alloc::{AllocError, Global};
use std::marker::Model;
use tasking::{Place, Tasking};

// How many words there is room for at first.
const ROOM: usize = 128;

/// A world in which no task is ready and there is no outcome, without the interrupts that are pending and the lines that were written.
#[derive(Drop)]
pub(crate) struct World {
    time: i64,
    handler: Option<u8>,
    places: Vec<Place>,
    sleepers: Vec<Sleeper>,
    contents: Contents,
}

impl Model for World {
    ghost use Rattle.searching.specs.Following.{SeenWorld};

    ghost Value = { SeenWorld };

    ghost view = { λ w. record { time = w.time; handler = w.handler; places = w.places.items; sleepers = w.sleepers.items; contents = w.contents } };

    ghost invariant = { λ w. Unit {0} };
}

impl World {
    /// The world in which a run is, if no task is ready and there is no outcome.
    ///
    /// # Errors
    /// Where memory was refused.
    pub(crate) fn of<R: Ready, D: Delays>(
        alloc: Global,
        execution: &Execution<'_, '_, R, D>,
    ) -> Result<Option<World>, AllocError>
        ensures { IfOk result (λ world. IfSome world (IsSeenIn execution.now)) }
    {
        let tasking = execution.tasking();
        if tasking.outcome().is_some() {
            return Ok(None);
        }
        let places = places_of(alloc, tasking)?;
        let Some(places) = places else {
            return Ok(None);
        };
        let time = tasking.now();
        let handler = tasking.handler();
        let sleeping = tasking.sleepers();
        let sleepers = copied_sleepers(alloc, sleeping.as_slice())?;
        let contents = execution.contents(alloc)?;
        Ok(Some(World {
            time,
            handler,
            places,
            sleepers,
            contents,
        }))
    }

    /// Its time, in microseconds since the start.
    pub(crate) fn time(&self) -> i64
        ensures { result ≡ self.now.time }
    {
        self.time
    }

    /// Its words and frames.
    pub(crate) fn contents(&self) -> &Contents
        ensures { result.now ≡ self.now.contents }
    {
        &self.contents
    }

    /// The words of the world in which a run is, if they can be counted, where this is that world.
    ///
    /// # Errors
    /// Where memory was refused.
    pub(crate) fn words_of<R: Ready, D: Delays>(
        &self,
        alloc: Global,
        execution: &Execution<'_, '_, R, D>,
    ) -> Result<Option<Vec<i64>>, AllocError>
        ensures { IfOk result (λ words. IfSome words (λ v. IsSeenIn execution.now self.now → IsEncoded execution.now v.items)) }
    {
        let mut words = self.standing(alloc)?;
        let rows = self.rows();
        let are_added = execution.add_contents(alloc, rows, &mut words)?;
        if !are_added {
            return Ok(None);
        }
        Ok(Some(words))
    }

    // The words of its time, handler, places and sleepers.
    fn standing(&self, alloc: Global) -> Result<Vec<i64>, AllocError>
        ensures { IfOk result (λ words. words.items ≡ standing_words self.now) }
    {
        let mut words = Vec::with_capacity(alloc, ROOM)?;
        words.push(self.time)?;
        add_handler(&mut words, self.handler)?;
        add_places(&mut words, self.places.as_slice())?;
        add_sleepers(&mut words, self.sleepers.as_slice())?;
        Ok(words)
    }

    // How many rows of frames count: those of the tasks, and one more where a handler runs.
    fn rows(&self) -> usize
        ensures { result ≡ rows_of self.now.handler (length self.now.places) }
    {
        if self.handler.is_some() {
            self.places.len() + 1
        } else {
            self.places.len()
        }
    }
}

// Where each task is, if none is ready.
fn places_of<R: Ready, D: Delays>(
    alloc: Global,
    tasking: &Tasking<'_, R, D>,
) -> Result<Option<Vec<Place>>, AllocError>
    ensures { IfOk result (λ places. IfSome places (λ p. StandThere tasking.now p.items)) }
{
    let count = tasking.task_count();
    let mut places = Vec::new(alloc);
    let mut task = 0;
    while task < count {
        let place = tasking.place(task);
        if is_ready(place) {
            return Ok(None);
        }
        places.push(place)?;
        task += 1;
    }
    Ok(Some(places))
}

// Whether a task at a place is ready.
fn is_ready(place: Place) -> bool
    ensures { result ≡ false → place_of place ≢ IsReady }
{
    match place {
        Place::Ready => true,
        Place::Running => false,
        Place::Asleep => false,
        Place::Finished => false,
        Place::Queued(_) => false,
        Place::Served(_) => false,
    }
}

// A copy of sleepers.
fn copied_sleepers(alloc: Global, sleepers: &[Sleeper]) -> Result<Vec<Sleeper>, AllocError>
    ensures { IfOk result (λ copied. copied.items ≡ sleepers.now) }
{
    let mut copied = Vec::new(alloc);
    copied.extend_from_slice(sleepers)?;
    Ok(copied)
}

// Adds the words of who handles an interrupt, if somebody does.
#[tactic(auto, unfolding(execution::specs::Encoding::option_words))]
fn add_handler(out: &mut Vec<i64>, handler: Option<u8>) -> Result<(), AllocError>
    ensures { OnOk result (out.new.items ≡ out.old.items ++ option_words handler) }
{
    match handler {
        None => out.push(0)?,
        Some(handler) => {
            out.push(1)?;
            out.push(i64::from(handler))?;
        }
    }
    Ok(())
}

// Adds the words of all places.
fn add_places(out: &mut Vec<i64>, places: &[Place]) -> Result<(), AllocError>
    ensures { OnOk result (out.new.items ≡ out.old.items ++ ended_words place_words places.now) }
{
    add_each_place(out, places)?;
    out.push(0)?;
    Ok(())
}

fn add_each_place(out: &mut Vec<i64>, places: &[Place]) -> Result<(), AllocError>
    ensures { OnOk result (out.new.items ≡ out.old.items ++ flat_map place_words places.now) }
{
    for place in places {
        add_place(out, *place)?;
    }
    Ok(())
}

#[tactic(auto, unfolding(crate::specs::Encoding::place_words))]
fn add_place(out: &mut Vec<i64>, place: Place) -> Result<(), AllocError>
    ensures { OnOk result (out.new.items ≡ out.old.items ++ place_words place) }
{
    let (number, object) = match place {
        Place::Running => (1, 0),
        Place::Ready => (2, 0),
        Place::Asleep => (3, 0),
        Place::Finished => (4, 0),
        Place::Queued(object) => (5, object),
        Place::Served(object) => (6, object),
    };
    out.push(number)?;
    out.push(i64::from(object))?;
    Ok(())
}

// Adds the words of all sleepers.
fn add_sleepers(out: &mut Vec<i64>, sleepers: &[Sleeper]) -> Result<(), AllocError>
    ensures { OnOk result (out.new.items ≡ out.old.items ++ ended_words sleeper_words sleepers.now) }
{
    add_each_sleeper(out, sleepers)?;
    out.push(0)?;
    Ok(())
}

fn add_each_sleeper(out: &mut Vec<i64>, sleepers: &[Sleeper]) -> Result<(), AllocError>
    ensures { OnOk result (out.new.items ≡ out.old.items ++ flat_map sleeper_words sleepers.now) }
{
    for sleeper in sleepers {
        add_sleeper(out, *sleeper)?;
    }
    Ok(())
}

#[tactic(auto, unfolding(crate::specs::Encoding::sleeper_words))]
fn add_sleeper(out: &mut Vec<i64>, sleeper: Sleeper) -> Result<(), AllocError>
    ensures { OnOk result (out.new.items ≡ out.old.items ++ sleeper_words sleeper) }
{
    out.push(1)?;
    out.push(i64::from(sleeper.task))?;
    out.push(sleeper.wake)?;
    Ok(())
}
