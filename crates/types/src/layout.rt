//! Where objects are (docs/FORMATS.md): one after the other, in the order of their declarations.
ghost use Rattle.std.specs.Prelude.{◌≡◌, ◌+◌, ◌<◌, ◌≤◌, ◌++◌, ◌∷◌, ◌↔◌, [], length, IfErr, IfOk, IfSome, IsSome, OnErr, OnOk};
ghost use Rattle.types.specs.Layouts.{first_word, total};

use std::alloc::{AllocFailed, Global};
use std::marker::Model;
use thiserror::Error;

/// Why an object finds no place.
#[derive(Clone, Copy, Debug, PartialEq, Eq, Error)]
pub enum LayoutFault {
    /// The words of all objects together would pass the limit.
    #[error("too many words")]
    Full,
    #[error("no memory")]
    Memory,
}

impl<T: Drop> From<AllocFailed<T>> for LayoutFault {
    ghost use Rattle.types.specs.declared.layout.LayoutFault.TheVariants.{Memory};

    ghost from_gives = { λ _ fault. fault ≡ Memory };

    fn from(_refused: AllocFailed<T>) -> LayoutFault {
        LayoutFault::Memory
    }
}

// The first word of an object, and its words.
#[derive(Clone, Copy)]
struct Placed {
    first: u16,
    words: u16,
}

/// The places of the objects of a package, a protected object or a frame. Contracts see the words of each object, and the limit on all.
#[derive(Drop)]
pub struct Layout {
    objects: Vec<Placed>,
    words: u16,
    limit: u16,
}

impl Model for Layout {
    ghost use Rattle.std.specs.Prelude.{◌≡◌, ◌≤◌, map};
    ghost use Rattle.types.specs.Layouts.{Objects, total};
    ghost use Rattle.types.specs.Kept.{first_words, placed_first, placed_words};

    ghost Value = { Objects };

    ghost view = { λ l. record { words = map placed_words l.objects.items; limit = l.limit } };

    ghost invariant = { λ l. (map placed_first l.objects.items ≡ first_words 0 (map placed_words l.objects.items))
        × (l.words ≡ total (map placed_words l.objects.items)) × (l.words ≤ l.limit) };
}

impl Layout {
    /// No objects, and at most this many words.
    pub fn new(alloc: Global, limit: u16) -> Layout
        ensures { result ≡ record { words = []; limit = limit } }
    {
        Layout {
            objects: Vec::new(alloc),
            words: 0,
            limit,
        }
    }

    /// The words of all objects.
    pub fn words(&self) -> u16
        ensures all { result ≡ total self.now.words }
        ensures most { result ≤ self.now.limit }
    {
        self.words
    }

    /// The first word of the object at a position, from 0 on.
    pub fn first_word(&self, position: usize) -> Option<u16>
        ensures place { IfSome result (λ first. first ≡ first_word self.now.words position) }
        ensures found { IsSome result ↔ (position < length self.now.words) }
    {
        match self.objects.get(position) {
            Some(placed) => Some(placed.first),
            None => None,
        }
    }

    /// Places an object of so many words after the others, and gives its first word. `Full` where the limit is passed; a refusal changes nothing.
    pub fn add(&mut self, words: u16) -> Result<u16, LayoutFault>
        ensures place { IfOk result (λ first. first ≡ total self.old.words) }
        ensures added { OnOk result (self.new ≡ record self.old { words = self.old.words ++ words ∷ [] }) }
        ensures fits { OnOk result (total self.old.words + words ≤ self.old.limit) }
        ensures full { IfErr result (λ fault. fault ≡ LayoutFault.Full → self.old.limit < total self.old.words + words) }
        ensures kept { OnErr result (self.new ≡ self.old) }
    {
        if words > self.limit - self.words {
            return Err(LayoutFault::Full);
        }
        let first = self.words;
        self.objects.push(Placed { first, words })?;
        self.words += words;
        Ok(first)
    }
}
