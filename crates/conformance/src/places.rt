//! The bodies among the items of a package's body, each found by its key at once.
ghost use Rattle.std.specs.Prelude.{◌≡◌, [], drop, map, nat_le, OnOk, IfOk};
ghost use Rattle.std.specs.List.{list_any};
ghost use Rattle.ada_tree.specs.ProgramTree.{body_item_tree, protected_item_tree};
ghost use Rattle.conformance.specs.MatchingRules.{has_operation, is_body_of};
ghost use Rattle.conformance.specs.Tables.{AreLastPlaces, PutsPlace, has_body_key, has_inner_key, has_key, has_operation_key, is_from, is_same_key, place_at};

use crate::bodies::BodyOf;
use crate::keys::Key;
use ada_tree::{BodyItem, Identifier, ProtectedBodyItem};
use indexmap::IndexMap;
use std::alloc::{AllocError, Global};
use std::marker::Model;

// The last place of each key.
#[derive(Drop)]
struct Places<'a> {
    table: IndexMap<Key<'a>, usize>,
}

fn is_from(start: usize, place: Option<usize>) -> bool
    ensures { result ≡ is_from start place }
{
    match place {
        Some(place) => start <= place,
        None => false,
    }
}

impl<'a> Places<'a> {
    fn new(alloc: Global) -> Places<'a>
        ensures { result.table.entries ≡ [] }
    {
        Places {
            table: IndexMap::new(alloc),
        }
    }

    fn place_of(&self, key: Key<'a>) -> Option<usize>
        ensures { result ≡ place_at self.now.table.entries key.entry }
    {
        self.table.get(&key).copied()
    }

    fn put(&mut self, key: Key<'a>, place: usize) -> Result<(), AllocError>
        ensures { OnOk result (PutsPlace self.old.table.entries self.new.table.entries (is_same_key key.entry) place) }
    {
        self.table.insert(key, place)?;
        Ok(())
    }

    fn put_body(&mut self, item: &'a BodyItem, place: usize) -> Result<(), AllocError>
        ensures { OnOk result (PutsPlace self.old.table.entries self.new.table.entries (λ k. has_body_key k (body_item_tree item.now)) place) }
    {
        match Key::of_item(item) {
            Some(key) => self.put(key, place),
            None => Ok(()),
        }
    }

    fn put_operations(
        &mut self,
        object: &'a Identifier,
        bodies: &'a [ProtectedBodyItem],
        place: usize,
    ) -> Result<(), AllocError>
        ensures { OnOk result (PutsPlace self.old.table.entries self.new.table.entries
            (λ k. list_any (has_operation_key k object.now) (map protected_item_tree bodies.now)) place) }
    {
        for body in bodies {
            self.put(Key::of_operation_body(object, body), place)?;
        }
        Ok(())
    }

    fn put_inner(&mut self, item: &'a BodyItem, place: usize) -> Result<(), AllocError>
        ensures { OnOk result (PutsPlace self.old.table.entries self.new.table.entries (λ k. has_inner_key k (body_item_tree item.now)) place) }
    {
        match item {
            BodyItem::Protected(name, bodies, _) => self.put_operations(name, bodies, place),
            _ => Ok(()),
        }
    }

    fn put_item(&mut self, item: &'a BodyItem, place: usize) -> Result<(), AllocError>
        ensures { OnOk result (PutsPlace self.old.table.entries self.new.table.entries (λ k. has_key k (body_item_tree item.now)) place) }
    {
        self.put_body(item, place)?;
        self.put_inner(item, place)?;
        Ok(())
    }
}

fn last_places<'a>(alloc: Global, items: &'a [BodyItem]) -> Result<Places<'a>, AllocError>
    ensures { IfOk result (λ p. AreLastPlaces (map body_item_tree items.now) p.table.entries) }
{
    let mut places = Places::new(alloc);
    for (place, item) in items.iter().enumerate() {
        places.put_item(item, place)?;
    }
    Ok(places)
}

/// The items of a package's body, with the last place of each body among them. Contracts see the items.
#[derive(Drop)]
pub(crate) struct Bodies<'a> {
    items: &'a [BodyItem],
    places: Places<'a>,
}

impl<'a> Model for Bodies<'a> {
    ghost use Rattle.std.specs.Prelude.{List, map};
    ghost use Rattle.std.specs.Coded.{codes};
    ghost use Rattle.ada_tree.specs.declared.program.BodyItem as declared;
    ghost use Rattle.ada_tree.specs.contracts.program.BodyItem as contract;
    ghost use Rattle.ada_tree.specs.ProgramTree.{body_item_tree};
    ghost use Rattle.conformance.specs.Tables.{AreLastPlaces};

    ghost Value = { List declared.BodyItem };

    ghost coded = { Prim.hlevel (codes, contract.the_row.coded) };

    ghost view = { λ b. b.items.now };

    ghost invariant = { λ b. AreLastPlaces (map body_item_tree b.items.now) b.places.table.entries };
}

impl<'a> Bodies<'a> {
    /// These items. Memory is the only refusal.
    pub(crate) fn new(alloc: Global, items: &'a [BodyItem]) -> Result<Bodies<'a>, AllocError>
        ensures { IfOk result (λ b. b ≡ items.now) }
    {
        let places = last_places(alloc, items)?;
        Ok(Bodies { items, places })
    }

    /// The items.
    pub(crate) fn items(&self) -> &'a [BodyItem]
        ensures { result.now ≡ self.now }
    {
        self.items
    }

    fn has_from(&self, start: usize, key: Key<'a>) -> bool
        ensures { result ≡ list_any (has_key key.entry) (map body_item_tree (drop start self.now)) }
    {
        is_from(start, self.places.place_of(key))
    }

    /// Whether a body of this kind and name is among the items from this place on.
    pub(crate) fn has_body(&self, start: usize, kind: BodyOf, name: &'a Identifier) -> bool
        ensures { result ≡ list_any (is_body_of kind name.now) (map body_item_tree (drop start self.now)) }
    {
        self.has_from(start, Key::of_body(kind, name))
    }

    /// Whether the body of an operation of this name is in a body of this object among the items from this place on.
    pub(crate) fn has_operation(
        &self,
        start: usize,
        object: &'a Identifier,
        name: &'a Identifier,
    ) -> bool
        ensures { result ≡ list_any (has_operation object.now name.now) (map body_item_tree (drop start self.now)) }
    {
        self.has_from(start, Key::of_operation(object, name))
    }
}
