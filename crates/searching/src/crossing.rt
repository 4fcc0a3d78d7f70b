//! Passing the times of slots: whether the run on a choice has met an earlier one.
ghost use Rattle.std.specs.Prelude.{◌≡◌, ◌⊎◌, ◌<◌, ℕ, ℤ, IfOk, IfSome, OnOk, drop, length, true};
ghost use Rattle.base.specs.Schedule.{input};
ghost use Rattle.choices.specs.Places.{AreWithin};
ghost use Rattle.execution.specs.Held.{HeldWorld};
ghost use Rattle.searching.specs.Following.{AreCheckpoints, AreKeptRows, AreValues, CrossesAt, CrossesFrom, HasMetAfter, HasMetQuietly, IsMomentOf, Standing, StepsOn};
ghost use Rattle.searching.specs.Meeting.{IsSetAnew, SetsAnew, schedule_of};
ghost use Rattle.searching.specs.declared.sight.Wanted.{Wanted as Asked};

use crate::moment::Moment;
use crate::parting::{has_come_to, last_before, parting_time};
use crate::path::{Checkpoint, Path};
use crate::table::{Row, Table};
use base::limits::CHANNELS;
use choices::{Choice, Choices, Part, Slot};
use clock::{Delays, Schedule};
use dispatch::Ready;
use execution::Execution;
use std::alloc::{AllocError, Global};
use std::hash::{FoldHasher, Hasher};

/// The number of first slots with which the run on a choice has met an earlier one, where its last step may have passed the times of the slots from `front` to
/// `passed`. If it has met none, the world before the step is kept for later runs, to be met and to go on from.
///
/// # Errors
/// Where memory was refused.
pub(crate) fn cross<R: Ready, D: Delays>(
    alloc: Global,
    execution: &Execution<'_, '_, R, D>,
    choices: &Choices,
    part: Part,
    choice: &Choice,
    schedule: &Schedule,
    moment: Option<Moment>,
    front: usize,
    passed: usize,
    left: u64,
    path: &mut Path,
    table: &mut Table,
) -> Result<Option<usize>, AllocError>
    requires schedule { schedule.now ≡ schedule_of choices.now choice.now }
    ensures met { (h : HeldWorld) (until : ℤ) (limit : ℕ) (wanted : Asked) (now : ℤ)
        → StepsOn choices.now part choice.now until limit wanted h now left execution.now → IfSome moment (IsMomentOf h)
        → AreKeptRows h.image choices.now part table.old → IfOk result (λ met. IfSome met (HasMetQuietly h.image choices.now part until wanted choice.now)) }
    ensures checkpoints { (h : HeldWorld) (until : ℤ) (limit : ℕ) (wanted : Asked) (now : ℤ)
        → StepsOn choices.now part choice.now until limit wanted h now left execution.now → IfSome moment (IsMomentOf h)
        → AreCheckpoints h.image choices.now until limit wanted path.old → OnOk result (AreCheckpoints h.image choices.now until limit wanted path.new) }
    ensures rows { (h : HeldWorld) (until : ℤ) (limit : ℕ) (wanted : Asked) (now : ℤ)
        → StepsOn choices.now part choice.now until limit wanted h now left execution.now → IfSome moment (IsMomentOf h)
        → AreKeptRows h.image choices.now part table.old → OnOk result (AreKeptRows h.image choices.now part table.new) }
{
    let Some(moment) = moment else {
        return Ok(None);
    };
    if passed <= front {
        return Ok(None);
    }
    let met = meet_among(
        alloc, execution, choices, part, choice, schedule, &moment, front, passed, table,
    )?;
    if met.is_some() {
        return Ok(met);
    }
    keep_checkpoint(execution, choices, choice, moment, front, left, path)?;
    Ok(None)
}

// The number of first slots with which the run has met one that the table has; if it has met none, the table keeps its world.
fn meet_among<R: Ready, D: Delays>(
    alloc: Global,
    execution: &Execution<'_, '_, R, D>,
    choices: &Choices,
    part: Part,
    choice: &Choice,
    schedule: &Schedule,
    moment: &Moment,
    front: usize,
    passed: usize,
    table: &mut Table,
) -> Result<Option<usize>, AllocError>
    requires schedule { schedule.now ≡ schedule_of choices.now choice.now }
    ensures met { (h : HeldWorld) (n : ℕ) → CrossesFrom choices.now part choice.now h n execution.now moment.now
        → AreKeptRows h.image choices.now part table.old
        → IfOk result (λ met. IfSome met (HasMetAfter h.image choices.now part choice.now n)) }
    ensures rows { (h : HeldWorld) (n : ℕ) → CrossesFrom choices.now part choice.now h n execution.now moment.now
        → AreKeptRows h.image choices.now part table.old
        → OnOk result (AreKeptRows h.image choices.now part table.new) }
{
    let slots = choices.slots();
    let last = passed.min(slots.len());
    let mut at = front;
    while at < last {
        let met = is_met(
            alloc, execution, choices, part, choice, schedule, moment, at, table,
        )?;
        if met {
            return Ok(Some(at));
        }
        at = next_time(slots, at);
    }
    Ok(None)
}

// Whether the run has met one that the table has with the same first slots; if not, the table keeps its world.
fn is_met<R: Ready, D: Delays>(
    alloc: Global,
    execution: &Execution<'_, '_, R, D>,
    choices: &Choices,
    part: Part,
    choice: &Choice,
    schedule: &Schedule,
    moment: &Moment,
    front: usize,
    table: &mut Table,
) -> Result<bool, AllocError>
    requires schedule { schedule.now ≡ schedule_of choices.now choice.now }
    ensures met { (h : HeldWorld) (n : ℕ) → CrossesFrom choices.now part choice.now h n execution.now moment.now
        → AreKeptRows h.image choices.now part table.old
        → IfOk result (λ met. met ≡ true → HasMetAfter h.image choices.now part choice.now n front) }
    ensures rows { (h : HeldWorld) (n : ℕ) → CrossesFrom choices.now part choice.now h n execution.now moment.now
        → AreKeptRows h.image choices.now part table.old
        → OnOk result (AreKeptRows h.image choices.now part table.new) }
{
    if front < part.front(choices) {
        return Ok(false);
    }
    if !choice.is_first_after(front) {
        return Ok(false);
    }
    let Some(time) = crossed_time(execution, choices, moment, front) else {
        return Ok(false);
    };
    let last = last_before(time);
    let slots = choices.slots();
    let values = values_before(alloc, slots, front, time, schedule, last)?;
    let given = values.as_slice();
    let words = moment.words();
    let own = row_digest(moment.digest(), slots, front, time, schedule);
    if table.has_met(own, choice, front, time, given, words) {
        return Ok(true);
    }
    let row = Row::new(alloc, front, time, choice, given, words)?;
    table.keep(own, row)?;
    Ok(false)
}

// The time of the slot after the first `front` ones, if the step has led from a world before it, with no interrupt sooner, to it or past it.
fn crossed_time<R: Ready, D: Delays>(
    execution: &Execution<'_, '_, R, D>,
    choices: &Choices,
    moment: &Moment,
    front: usize,
) -> Option<i64>
    ensures { IfSome result (CrossesAt choices.now moment.now execution.now front) }
{
    let time = parting_time(choices.slots(), front)?;
    if time <= moment.world().time() {
        return None;
    }
    if moment.is_interrupted_before(time) {
        return None;
    }
    if !has_come_to(execution, time) {
        return None;
    }
    Some(time)
}

// Keeps the world of a moment for runs on later choices to go on from, if it stands before the times of the slots after the first `front` ones.
fn keep_checkpoint<R: Ready, D: Delays>(
    execution: &Execution<'_, '_, R, D>,
    choices: &Choices,
    choice: &Choice,
    moment: Moment,
    front: usize,
    left: u64,
    path: &mut Path,
) -> Result<(), AllocError>
    ensures { (h : HeldWorld) (until : ℤ) (limit : ℕ) (wanted : Asked) (now : ℤ)
        → IsMomentOf h moment → AreWithin choices.now choice.now → Standing h.image (schedule_of choices.now choice.now) until limit wanted h now left
        → AreCheckpoints h.image choices.now until limit wanted path.old → OnOk result (AreCheckpoints h.image choices.now until limit wanted path.new) }
{
    if !choice.is_first_after(front) {
        return Ok(());
    }
    if path.front() == Some(front) {
        return Ok(());
    }
    let Some(time) = crossed_time(execution, choices, &moment, front) else {
        return Ok(());
    };
    let (world, pause) = moment.into_parts();
    let Some(pause) = pause else {
        return Ok(());
    };
    let checkpoint = Checkpoint::new(choice, front, time, left, world, pause)?;
    path.push(checkpoint)?;
    Ok(())
}

/// Whether the table most likely has a world that the run meets, if its next step leads to the time of the slot after the first `front` ones, by the digest of
/// its world.
pub(crate) fn is_known(
    slots: &[Slot],
    schedule: &Schedule,
    front: usize,
    digest: u64,
    table: &Table,
) -> bool {
    match slots.get(front) {
        None => false,
        Some(slot) => table.has_digest(row_digest(digest, slots, front, slot.time(), schedule)),
    }
}

/// The first front from this one on, of those before the slots of one time, that is not before `first`: from there on a choice takes the first alternative of
/// each slot, so that it may meet an earlier one, and be met.
pub(crate) fn meeting_front(slots: &[Slot], first: usize, front: usize) -> usize {
    let mut at = front;
    while at < first && at < slots.len() {
        at = next_time(slots, at);
    }
    at
}

// The digest of a row, by that of its world.
fn row_digest(world: u64, slots: &[Slot], front: usize, time: i64, schedule: &Schedule) -> u64 {
    let last = time.saturating_sub(1);
    let mut hasher = FoldHasher::default();
    hasher.write_u64(world);
    hasher.write_usize(front);
    for channel in 0..CHANNELS {
        hasher.write_i64(value_before(slots, front, time, schedule, channel + 1, last));
    }
    hasher.finish()
}

// The values of all channels at the last time before that of the slots after the first `front` ones, and 0 for those that get another by each alternative.
fn values_before(
    alloc: Global,
    slots: &[Slot],
    front: usize,
    time: i64,
    schedule: &Schedule,
    last: i64,
) -> Result<Vec<i64>, AllocError>
    ensures { IfOk result (λ values. AreValues (drop front slots.now) time schedule.now last values.items) }
{
    let mut values = Vec::with_capacity(alloc, usize::from(CHANNELS))?;
    let mut channel = 0;
    while channel < CHANNELS {
        channel += 1;
        values.push(value_before(slots, front, time, schedule, channel, last))?;
    }
    Ok(values)
}

// The value of one of them.
fn value_before(
    slots: &[Slot],
    front: usize,
    time: i64,
    schedule: &Schedule,
    channel: u8,
    last: i64,
) -> i64
    ensures { IsSetAnew time channel (drop front slots.now) ⊎ (result ≡ input schedule.now channel last) }
{
    if is_set_anew(slots, front, time, channel) {
        0
    } else {
        schedule.value(channel, last)
    }
}

// Whether a slot after the first `front` ones gives a channel a value at their time, whichever alternative is taken.
fn is_set_anew(slots: &[Slot], front: usize, time: i64, channel: u8) -> bool
    ensures { result ≡ true → IsSetAnew time channel (drop front slots.now) }
{
    let mut at = front;
    while at < slots.len() {
        let slot = &slots[at];
        if time < slot.time() {
            return false;
        }
        if sets_anew(slot, time, channel) {
            return true;
        }
        at += 1;
    }
    false
}

// Whether a slot does.
fn sets_anew(slot: &Slot, time: i64, channel: u8) -> bool
    ensures { result ≡ true → SetsAnew time channel slot.now }
{
    if slot.time() != time {
        return false;
    }
    if slot.channel() != channel {
        return false;
    }
    slot.has_values_alone()
}

// The first slot after this one that has another time.
fn next_time(slots: &[Slot], front: usize) -> usize
    requires { front < length slots.now }
    ensures { front < result }
{
    let time = slots[front].time();
    let mut at = front + 1;
    while at < slots.len() && slots[at].time() == time {
        at += 1;
    }
    at
}
