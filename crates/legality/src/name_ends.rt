//! Names, each with a place, found at once: up to where names of parts are open, and the places of bodies.
ghost use Rattle.std.specs.Prelude.{◌≡◌, [], OnOk};
ghost use Rattle.types.specs.Seen.{place_of};
ghost use Rattle.legality.specs.OpenParts.{extended, is_open, reaches, with_end};

use indexmap::IndexMap;
use lexer::Text;
use std::alloc::{AllocError, Global};
use std::marker::Model;

/// Names, each with a place. Contracts see a list.
#[derive(Drop)]
pub(crate) struct NameEnds {
    ends: IndexMap<Text, usize>,
}

impl Model for NameEnds {
    ghost use Rattle.std.specs.Prelude.{ℕ, List};

    ghost Value = { List (List ℕ × ℕ) };

    ghost view = { λ e. e.ends.entries };
}

impl NameEnds {
    /// No names.
    pub(crate) fn new(alloc: Global) -> NameEnds
        ensures { result ≡ [] }
    {
        NameEnds {
            ends: IndexMap::new(alloc),
        }
    }

    /// The place of a name.
    pub(crate) fn end_of(&self, name: &Text) -> Option<usize>
        ensures { result ≡ place_of self.now name.now }
    {
        self.ends.get(name).copied()
    }

    /// Whether the place of a name is after this one.
    pub(crate) fn is_open(&self, name: &Text, place: usize) -> bool
        ensures { result ≡ is_open self.now name.now place }
    {
        match self.end_of(name) {
            Some(end) => place < end,
            None => false,
        }
    }

    fn reaches(&self, name: &Text, end: usize) -> bool
        ensures { result ≡ reaches end (place_of self.now name.now) }
    {
        match self.end_of(name) {
            Some(own) => !(own < end),
            None => false,
        }
    }

    /// Gives a name this place, in place of its own if it has one. Memory is the only refusal.
    pub(crate) fn put(&mut self, name: &Text, end: usize) -> Result<(), AllocError>
        ensures { OnOk result (self.new ≡ with_end self.old name.now end) }
    {
        self.ends.insert(name.clone()?, end)?;
        Ok(())
    }

    /// Gives a name this place, unless its own is the same or later. Memory is the only refusal.
    pub(crate) fn extend(&mut self, name: &Text, end: usize) -> Result<(), AllocError>
        ensures { OnOk result (self.new ≡ extended self.old name.now end) }
    {
        if self.reaches(name, end) {
            return Ok(());
        }
        self.put(name, end)
    }
}
