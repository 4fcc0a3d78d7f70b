//! Parts of a set of schedules, by the combinations of its first slots (docs/FORMATS.md, "Search").
ghost use Rattle.std.specs.Prelude.{◌≡◌, ◌<◌, ◌≤◌, ◌+◌, ◌%◌, ◌^◌, length, take};
ghost use Rattle.choices.specs.Parts.{front_from, front_of, number_from, parts_of};
ghost use Rattle.choices.specs.Places.{AreWithin};
ghost use Rattle.choices.specs.Slots.{number_of};

use crate::set::Choices;
use crate::slot::Slot;

/// One of the parts of a set of schedules: so many parts come before it, and so many after it.
#[derive(Clone, Copy, PartialEq, Eq, Debug)]
pub struct Part {
    pub before: u32,
    pub after: u32,
}

/// The first slots, by which the parts differ, and how many combinations they have.
#[derive(Clone, Copy, PartialEq, Eq, Debug)]
pub(crate) struct Front {
    pub(crate) slots: usize,
    pub(crate) combinations: u128,
}

impl Part {
    /// The whole set, which is its only part.
    pub fn whole() -> Part
        ensures before { result.before ≡ 0 }
        ensures after { result.after ≡ 0 }
    {
        Part {
            before: 0,
            after: 0,
        }
    }

    /// How many of the first slots distinguish the parts of a set: the least number of them that has as many combinations as there are parts, or more, or all.
    pub fn front(self, choices: &Choices) -> usize
        ensures { result ≡ front_of self choices.now }
    {
        front_in(self.count(), choices.slots()).slots
    }

    // How many parts there are.
    pub(crate) fn count(self) -> u64
        ensures is { result ≡ parts_of self }
        ensures some { 0 < result }
    {
        u64::from(self.before) + u64::from(self.after) + 1
    }
}

// The first slots of these, where there are so many parts.
pub(crate) fn front_in(parts: u64, slots: &[Slot]) -> Front
    ensures slots { result.slots ≡ front_from parts 1 slots.now }
    ensures combinations { result.combinations ≡ number_of (take result.slots slots.now) }
    ensures within { result.slots ≤ length slots.now }
    ensures small { result.combinations + 2 ^ 32 < 2 ^ 128 }
{
    let enough = u128::from(parts);
    let mut combinations = 1u128;
    let mut at = 0;
    while at < slots.len() {
        if enough <= combinations {
            return Front {
                slots: at,
                combinations,
            };
        }
        let slot = &slots[at];
        combinations *= slot.alternatives.len() as u128;
        at += 1;
    }
    Front {
        slots: at,
        combinations,
    }
}

// The remainder of the number of the combination of the first `front` slots.
pub(crate) fn remainder_in(parts: u64, front: usize, slots: &[Slot], places: &[usize]) -> u64
    requires parts { 0 < parts }
    requires within { AreWithin slots.now places.now }
    requires front { front ≤ length slots.now }
    ensures { result ≡ number_from 0 front slots.now places.now % parts }
{
    let divisor = u128::from(parts);
    let mut rest = 0u128;
    let mut at = 0;
    while at < front {
        let slot = &slots[at];
        rest = (rest * slot.alternatives.len() as u128 + places[at] as u128) % divisor;
        at += 1;
    }
    rest as u64
}
