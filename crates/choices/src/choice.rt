//! One choice among the alternatives of all slots, and the next one.
ghost use Rattle.std.specs.Prelude.{◌≡◌, ◌<◌, ◌≤◌, None, Some, IfOk, drop, length, IsTrue, take, true, if◌then◌else◌};
ghost use Rattle.base.specs.Schedule.{is_schedule};
ghost use Rattle.choices.specs.Parts.{is_of_part};
ghost use Rattle.choices.specs.Places.{AreWithin, IsBefore, firsts, next, taken};
ghost use Rattle.choices.specs.Slots.{are_each_slots, are_slots, lines_of};
ghost use Rattle.choices.specs.Stepping.{IsEarlierInFront, IsFurther, MovesOn};

use crate::part::{Part, front_in, remainder_in};
use crate::set::Choices;
use crate::slot::Slot;
use base::ScheduleLine;
use clock::Schedule;
use std::alloc::{AllocError, Global};
use std::marker::Model;

/// An alternative of each slot of a set, by its place. Contracts see the places.
#[derive(Drop)]
pub struct Choice {
    places: Vec<usize>,
}

impl Model for Choice {
    ghost use Rattle.std.specs.Prelude.{List, ℕ};

    ghost Value = { List ℕ };

    ghost view = { λ c. c.places.items };

    ghost invariant = { λ c. Unit {0} };
}

impl Choice {
    /// The first alternative of each slot.
    ///
    /// # Errors
    /// Where memory was refused.
    pub fn first(alloc: Global, choices: &Choices) -> Result<Choice, AllocError>
        ensures first { IfOk result (λ choice. choice ≡ firsts choices.now) }
        ensures within { IfOk result (λ choice. AreWithin choices.now choice) }
    {
        let slots = choices.slots();
        let mut places = Vec::new(alloc);
        while places.len() < slots.len() {
            places.push(0)?;
        }
        Ok(Choice { places })
    }

    /// Goes on to the next choice of the set, in the order of alternatives, where the first slot counts most; answers false after the last one.
    pub fn advance(&mut self, choices: &Choices) -> bool
        requires { AreWithin choices.now self.old }
        ensures { MovesOn result choices.now self.old self.new }
    {
        advance_places(choices.slots(), &mut self.places)
    }

    /// Becomes the last choice of the set with the same alternatives of the first `front` slots.
    pub fn go_to_last(&mut self, choices: &Choices, front: usize)
        requires { AreWithin choices.now self.old }
        ensures { IsFurther choices.now front self.old self.new }
    {
        raise_places(choices.slots(), front, &mut self.places);
    }

    /// A copy of the choice.
    ///
    /// # Errors
    /// Where memory was refused.
    pub fn copy(&self) -> Result<Choice, AllocError>
        ensures { IfOk result (λ choice. choice ≡ self.now) }
    {
        Ok(Choice {
            places: self.places.clone()?,
        })
    }

    /// Whether it is a choice of this set: an alternative of each of its slots.
    pub fn is_of(&self, choices: &Choices) -> bool
        ensures { result ≡ true → AreWithin choices.now self.now }
    {
        are_within(choices.slots(), &self.places)
    }

    /// Whether it is of this part of the set.
    pub fn is_of_part(&self, choices: &Choices, part: Part) -> bool
        requires { AreWithin choices.now self.now }
        ensures { result ≡ is_of_part part choices.now self.now }
    {
        let parts = part.count();
        let slots = choices.slots();
        let front = front_in(parts, slots);
        remainder_in(parts, front.slots, slots, &self.places) == u64::from(part.before)
    }

    /// Whether another choice has the same alternatives of the first `front` slots. `false` doesn't say that it hasn't.
    pub fn begins_like(&self, other: &Choice, front: usize) -> bool
        ensures { result ≡ true → take front self.now ≡ take front other.now }
    {
        are_alike_before(&self.places, &other.places, front)
    }

    /// Whether another choice is later than this one by the first `front` slots alone, and has the same alternatives of the others.
    pub fn is_earlier_in_front(&self, later: &Choice, front: usize) -> bool
        ensures { result ≡ true → IsEarlierInFront front self.now later.now }
    {
        if !are_alike_after(&self.places, &later.places, front) {
            return false;
        }
        is_before_within(&self.places, &later.places, front)
    }

    /// Whether it takes the first alternative of each slot after the first `front` ones, so that no earlier choice has the same alternatives of those.
    pub fn is_first_after(&self, front: usize) -> bool {
        self.first_from() <= front
    }

    /// After how many first slots it takes the first alternative of each slot: the least such number.
    pub fn first_from(&self) -> usize {
        let mut at = self.places.len();
        while 0 < at && self.places[at - 1] == 0 {
            at -= 1;
        }
        at
    }

    /// How far it is in the order of the alternatives: about how many millionths of the choices are before it.
    pub fn millionths(&self, choices: &Choices) -> u64 {
        let mut before: u64 = 0;
        let mut share: u64 = 1_000_000;
        for (slot, place) in choices.slots().iter().zip(self.places.iter()) {
            let count = slot.alternatives.len() as u64;
            share = share.checked_div(count).unwrap_or(0);
            before = before.saturating_add(share.saturating_mul(*place as u64));
        }
        before
    }

    /// The schedule of the choice.
    ///
    /// # Errors
    /// Where memory was refused.
    pub fn schedule(&self, alloc: Global, choices: &Choices) -> Result<Schedule, AllocError>
        requires { AreWithin choices.now self.now }
        ensures lines { IfOk result (λ schedule. schedule ≡ lines_of choices.now (taken choices.now self.now)) }
        ensures lawful { IfOk result (λ schedule. IsTrue (is_schedule schedule)) }
    {
        let slots = choices.slots();
        let places = self.places.as_slice();
        let mut lines = Vec::with_capacity(alloc, slots.len())?;
        let mut at = 0;
        while at < slots.len() {
            let slot = &slots[at];
            match slot.alternatives[places[at]] {
                Some(value) => lines.push(ScheduleLine {
                    time: slot.time,
                    channel: slot.channel,
                    value,
                })?,
                None => {}
            }
            at += 1;
        }
        Schedule::of_lines(alloc, lines)
    }
}

// Sets each place after the first `front` ones to that of the last alternative.
fn raise_places(slots: &[Slot], front: usize, places: &mut [usize])
    requires within { AreWithin slots.now places.old }
    requires lawful { IsTrue (are_slots slots.now) }
    ensures { IsFurther slots.now front places.old places.new }
{
    let mut at = front;
    while at < slots.len() {
        let slot = &slots[at];
        places[at] = slot.alternatives.len() - 1;
        at += 1;
    }
}

// Whether each place is one of the alternatives of its slot.
fn are_within(slots: &[Slot], places: &[usize]) -> bool
    ensures { result ≡ true → AreWithin slots.now places.now }
{
    if slots.len() != places.len() {
        return false;
    }
    let mut at = slots.len();
    while 0 < at {
        at -= 1;
        let slot = &slots[at];
        if slot.alternatives.len() <= places[at] {
            return false;
        }
    }
    true
}

// Whether the first `front` places are the same.
fn are_alike_before(places: &[usize], others: &[usize], front: usize) -> bool
    ensures { result ≡ true → take front places.now ≡ take front others.now }
{
    if places.len() < front {
        return false;
    }
    if others.len() < front {
        return false;
    }
    places[..front] == others[..front]
}

// Whether the places after the first `front` ones are the same.
fn are_alike_after(places: &[usize], others: &[usize], front: usize) -> bool
    ensures { result ≡ true → (drop front places.now ≡ drop front others.now) × (front ≤ length places.now) × (front ≤ length others.now) }
{
    if places.len() < front {
        return false;
    }
    if others.len() < front {
        return false;
    }
    places[front..] == others[front..]
}

// Whether the first `front` places come before others in the order of alternatives.
fn is_before_within(places: &[usize], others: &[usize], front: usize) -> bool
    ensures { result ≡ true → IsBefore (take front places.now) (take front others.now) }
{
    if places.len() < front {
        return false;
    }
    if others.len() < front {
        return false;
    }
    let mut at = 0;
    while at < front {
        if places[at] < others[at] {
            return true;
        }
        if others[at] < places[at] {
            return false;
        }
        at += 1;
    }
    false
}

// From the last slot back: the first that has a further alternative takes it, and those after it take their first.
fn advance_places(slots: &[Slot], places: &mut [usize]) -> bool
    requires within { AreWithin slots.now places.old }
    requires lawful { IsTrue (are_slots slots.now) }
    ensures { MovesOn result slots.now places.old places.new }
{
    let mut at = slots.len();
    while 0 < at {
        at -= 1;
        let slot = &slots[at];
        let count = slot.alternatives.len();
        if places[at] + 1 < count {
            places[at] += 1;
            return true;
        }
        places[at] = 0;
    }
    false
}
