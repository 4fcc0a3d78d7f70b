//! Tables of names, in which each is found at once.
ghost use Rattle.std.specs.Prelude.{◌≡◌, [], IfOk, OnOk};
ghost use Rattle.types.specs.Seen.{is_seen, place_of, seen_with, with_place};

use indexmap::{IndexMap, IndexSet};
use lexer::Text;
use std::alloc::{AllocError, Global};
use std::marker::Model;

/// Names that were seen. Contracts see them in the order in which they were seen first.
#[derive(Drop)]
pub struct SeenNames {
    names: IndexSet<Text>,
}

impl Model for SeenNames {
    ghost use Rattle.std.specs.Prelude.{ℕ, List};

    ghost Value = { List (List ℕ) };

    ghost view = { λ s. s.names.keys };
}

impl SeenNames {
    /// No names.
    pub fn new(alloc: Global) -> SeenNames
        ensures { result ≡ [] }
    {
        SeenNames {
            names: IndexSet::new(alloc),
        }
    }

    /// Whether a name was seen.
    pub fn has(&self, name: &Text) -> bool
        ensures { result ≡ is_seen self.now name.now }
    {
        self.names.contains(name)
    }

    /// Sees a name, and says whether it was seen before. Memory is the only refusal.
    pub fn see(&mut self, name: &Text) -> Result<bool, AllocError>
        ensures before { IfOk result (λ b. b ≡ is_seen self.old name.now) }
        ensures seen { OnOk result (self.new ≡ seen_with self.old name.now) }
    {
        let is_new = self.names.insert(name.clone()?)?;
        Ok(!is_new)
    }
}

/// Names with the place of each, the first that it was given. Contracts see a list.
#[derive(Drop)]
pub struct NamePlaces {
    places: IndexMap<Text, usize>,
}

impl Model for NamePlaces {
    ghost use Rattle.std.specs.Prelude.{ℕ, List};

    ghost Value = { List (List ℕ × ℕ) };

    ghost view = { λ p. p.places.entries };
}

impl NamePlaces {
    /// No names.
    pub fn new(alloc: Global) -> NamePlaces
        ensures { result ≡ [] }
    {
        NamePlaces {
            places: IndexMap::new(alloc),
        }
    }

    /// The place of a name.
    pub fn place_of(&self, name: &Text) -> Option<usize>
        ensures { result ≡ place_of self.now name.now }
    {
        self.places.get(name).copied()
    }

    /// Gives a name this place, unless it has one. Memory is the only refusal.
    pub fn add(&mut self, name: Text, place: usize) -> Result<(), AllocError>
        ensures { OnOk result (self.new ≡ with_place self.old name place) }
    {
        if self.place_of(&name).is_some() {
            return Ok(());
        }
        self.places.insert(name, place)?;
        Ok(())
    }
}
