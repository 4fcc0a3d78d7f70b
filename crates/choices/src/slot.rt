//! Slots of time with alternatives.
ghost use Rattle.std.specs.Prelude.{◌≡◌, is_some};
ghost use Rattle.std.specs.List.{list_all};

use std::marker::Model;

/// The most alternatives of a slot.
pub const ALTERNATIVES: usize = 4_096;

/// A time at which a channel may change, and what there is to choose from. Contracts see a record of the same fields (specs/Slots).
#[derive(Drop)]
pub struct Slot {
    /// Its time, in microseconds since the start.
    pub(crate) time: i64,
    /// From 1 to 8.
    pub(crate) channel: u8,
    /// The values that the channel may have from then on, in the order in which they are tried; None leaves it as it is.
    pub(crate) alternatives: Vec<Option<i64>>,
}

impl Model for Slot {
    ghost use Rattle.choices.specs.Slots.{Slot as Row};

    ghost Value = { Row };

    ghost view = { λ s. record { time = s.time; channel = s.channel; alternatives = s.alternatives.items } };
}

impl Slot {
    /// Its time, in microseconds since the start.
    pub fn time(&self) -> i64
        ensures { result ≡ self.now.time }
    {
        self.time
    }

    /// Its channel, from 1 to 8.
    pub fn channel(&self) -> u8
        ensures { result ≡ self.now.channel }
    {
        self.channel
    }

    /// Whether each of its alternatives is a value, so that none leaves the channel as it is.
    pub fn has_values_alone(&self) -> bool
        ensures { result ≡ list_all is_some self.now.alternatives }
    {
        self.alternatives.iter().all(|value| value.is_some())
    }
}
