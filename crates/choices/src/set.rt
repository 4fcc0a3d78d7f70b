//! Sets of schedules, read from their text.
ghost use Rattle.std.specs.Prelude.{◌≡◌, ◌≤◌, ◌<◌, ◌+◌, ◌^◌, IfErr, IfOk, OnOk, IsTrue, int_le, length};
ghost use Rattle.std.specs.List.{prefix_len};
ghost use Rattle.base.specs.declared.limits.TheConstants.{SCHEDULE_LINES};
ghost use Rattle.choices.specs.Faults.{RefusesChoicesText};
ghost use Rattle.choices.specs.Sets.{IsChoicesText, insert, slots_from, with_slots};
ghost use Rattle.choices.specs.Shapes.{AreLawfulTimes, IsNextLine, RefusesLine};
ghost use Rattle.choices.specs.Slots.{are_slots};
ghost use Rattle.choices.specs.Texts.{count_of};

use crate::faults::{
    ChoicesFault, SAME_ALTERNATIVE, SLOT_TOO_LATE, TOO_MANY_ALTERNATIVES, TOO_MANY_SLOTS,
    UNKNOWN_CHANNEL, WRONG_CHOICES_LINE,
};
use crate::form::{Times, front_fields};
use crate::ranges::{alternatives, has_twice, ranges};
use crate::slot::Slot;
use base::limits::SCHEDULE_LINES;
use std::alloc::{AllocError, Global};
use std::marker::Model;

/// A set of schedules: at most 4,096 slots in the order of their times, each with at least one alternative. Contracts see the slots.
#[derive(Drop)]
pub struct Choices {
    slots: Vec<Slot>,
}

impl Model for Choices {
    ghost use Rattle.std.specs.Prelude.{List, IsTrue};
    ghost use Rattle.choices.specs.Slots.{Slot as Row, are_slots};

    ghost Value = { List Row };

    ghost view = { λ c. c.slots.items };

    ghost invariant = { λ c. IsTrue (are_slots c.slots.items) };
}

/// A line of the text that breaks no rule.
#[derive(Drop)]
pub(crate) struct Line {
    pub(crate) times: Times,
    pub(crate) channel: u8,
    pub(crate) alternatives: Vec<Option<i64>>,
}

impl Choices {
    /// Reads a set of schedules (docs/FORMATS.md, "Sets of schedules") of a search that ends at `until` (microseconds since the start).
    ///
    /// # Errors
    /// The first faulty line, with the first of these that it breaks: 80 where it isn't times, a channel and alternatives, 82 where the channel is none of 1
    /// to 8, 84 where there are more than 4,096 alternatives, 85 where two of them are the same, 83 where there are more than 4,096 slots with its own, 86
    /// where one of these is later than `until`. 60, at line 0, where memory was refused.
    pub fn read(alloc: Global, text: &[u8], until: i64) -> Result<Choices, ChoicesFault>
        ensures read { IfOk result (λ choices. IsChoicesText until text.now choices) }
        ensures refused { IfErr result (RefusesChoicesText until text.now) }
    {
        let mut slots = Vec::new(alloc);
        let mut rest = text;
        let mut number = 1;
        while !rest.is_empty() {
            let (line, behind) = next_line(alloc, number, slots.len(), until, rest)?;
            add_slots(&mut slots, &line)?;
            rest = behind;
            number += 1;
        }
        Ok(Choices { slots })
    }

    /// The slots, in the order of their times.
    pub fn slots(&self) -> &[Slot]
        ensures same { result.now ≡ self.now }
        ensures lawful { IsTrue (are_slots self.now) }
    {
        &self.slots
    }
}

// The line at the front of the rest, after so many slots, and what follows it.
fn next_line(
    alloc: Global,
    number: u32,
    slots: usize,
    until: i64,
    rest: &[u8],
) -> Result<(Line, &[u8]), ChoicesFault>
    requires { slots ≤ SCHEDULE_LINES }
    ensures next { IfOk result (λ read. IsNextLine until slots rest.now read.0 read.1.now) }
    ensures fault { IfErr result (RefusesLine until slots number rest.now) }
{
    let fault = |rule| ChoicesFault {
        number: rule,
        line: number,
    };
    let Some((fields, behind)) = front_fields(rest) else {
        return Err(fault(WRONG_CHOICES_LINE));
    };
    let Some(ranges) = ranges(alloc, fields.alternatives)? else {
        return Err(fault(WRONG_CHOICES_LINE));
    };
    let Some(channel) = fields.channel else {
        return Err(fault(UNKNOWN_CHANNEL));
    };
    let Some(alternatives) = alternatives(alloc, &ranges)? else {
        return Err(fault(TOO_MANY_ALTERNATIVES));
    };
    if has_twice(&ranges) {
        return Err(fault(SAME_ALTERNATIVE));
    }
    let times = fields.times;
    if ((SCHEDULE_LINES - slots) as u64) < times.count() {
        return Err(fault(TOO_MANY_SLOTS));
    }
    if until < times.latest().cast_signed() {
        return Err(fault(SLOT_TOO_LATE));
    }
    let line = Line {
        times,
        channel,
        alternatives,
    };
    Ok((line, behind))
}

// Adds the slots of a line.
fn add_slots(slots: &mut Vec<Slot>, line: &Line) -> Result<(), AllocError>
    requires lawful { AreLawfulTimes line.now.times }
    ensures { OnOk result (slots.new.items ≡ with_slots slots.old.items (slots_from line.now.times.first line.now.times.step line.now.channel
        line.now.alternatives.items (count_of line.now.times))) }
{
    let mut time = line.times.first;
    let mut left = line.times.count();
    while 0 < left {
        let slot = Slot {
            time: time.cast_signed(),
            channel: line.channel,
            alternatives: line.alternatives.clone()?,
        };
        insert(slots, slot)?;
        time += line.times.step;
        left -= 1;
    }
    Ok(())
}

// Adds a slot after those of its time and of earlier ones.
fn insert(slots: &mut Vec<Slot>, slot: Slot) -> Result<(), AllocError>
    ensures { OnOk result (slots.new.items ≡ insert slot slots.old.items) }
{
    let place = count_up_to(slots, slot.time);
    slots.insert(place, slot)?;
    Ok(())
}

// How many slots stand before the first one that is later.
fn count_up_to(slots: &[Slot], time: i64) -> usize
    ensures same { result ≡ prefix_len (λ s. int_le s.time time) slots.now }
    ensures within { result ≤ length slots.now }
{
    slots.iter().take_while(|slot| is_up_to(slot, time)).count()
}

fn is_up_to(slot: &Slot, time: i64) -> bool
    ensures { result ≡ int_le slot.now.time time }
{
    slot.time <= time
}
