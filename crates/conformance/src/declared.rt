//! Profiles of what is declared, each found by its key (RM 6.3.1).
ghost use Rattle.std.specs.Prelude.{◌≡◌, ◌&&◌, ◌||◌, not, [], map, Some, OnOk};
ghost use Rattle.std.specs.List.{list_any};
ghost use Rattle.ada_tree.specs.StatementTree.{operation_tree};
ghost use Rattle.ada_tree.specs.ProgramTree.{item_tree};
ghost use Rattle.conformance.specs.Tables.{Declares, ProfileTree, are_alike, declared_at, declares_unlike, declares_unlike_operation, is_same_key, is_unlike, profile_tree};

use crate::bodies::BodyOf;
use crate::conformance::Profile;
use crate::keys::Key;
use ada_tree::{Identifier, Item, Operation};
use indexmap::IndexMap;
use std::alloc::{AllocError, Global};

// The profile that a key was declared with first, and whether each later one is like it.
#[derive(Clone, Copy)]
struct Declared<'a> {
    profile: Profile<'a>,
    is_alike: bool,
}

impl<'a> Declared<'a> {
    // Whether each of them is like this one.
    fn are_like(self, profile: Profile<'a>) -> bool
        ensures { result ≡ (self.entry.is_alike && are_alike (profile_tree self.entry.profile) (profile_tree profile.entry)) }
    {
        self.is_alike && self.profile.is_like(profile)
    }
}

/// The profiles that keys were declared with.
#[derive(Drop)]
pub(crate) struct Profiles<'a> {
    table: IndexMap<Key<'a>, Declared<'a>>,
}

fn declared_again<'a>(declared: Option<Declared<'a>>, profile: Profile<'a>) -> Declared<'a>
    ensures { (p : ProfileTree) → is_unlike (Some result) p ≡ (is_unlike declared.entry p || not (are_alike (profile_tree profile.entry) p)) }
{
    match declared {
        Some(declared) => Declared {
            profile: declared.profile,
            is_alike: declared.are_like(profile),
        },
        None => Declared {
            profile,
            is_alike: true,
        },
    }
}

impl<'a> Profiles<'a> {
    /// No profiles.
    pub(crate) fn new(alloc: Global) -> Profiles<'a>
        ensures { result.table.entries ≡ [] }
    {
        Profiles {
            table: IndexMap::new(alloc),
        }
    }

    fn declared(&self, key: Key<'a>) -> Option<Declared<'a>>
        ensures { result ≡ declared_at self.now.table.entries key.entry }
    {
        self.table.get(&key).copied()
    }

    /// Whether this key was declared with a profile unlike this one.
    pub(crate) fn is_unlike(&self, key: Key<'a>, profile: Profile<'a>) -> bool
        ensures { result ≡ is_unlike (declared_at self.now.table.entries key.entry) (profile_tree profile.entry) }
    {
        match self.declared(key) {
            Some(declared) => !declared.are_like(profile),
            None => false,
        }
    }

    fn declare(&mut self, key: Key<'a>, profile: Profile<'a>) -> Result<(), AllocError>
        ensures { OnOk result (Declares self.old.table.entries self.new.table.entries
            (λ k p. is_same_key key.entry k && not (are_alike (profile_tree profile.entry) p))) }
    {
        let declared = declared_again(self.declared(key), profile);
        self.table.insert(key, declared)?;
        Ok(())
    }

    fn declare_operation(
        &mut self,
        object: &'a Identifier,
        operation: &'a Operation,
    ) -> Result<(), AllocError>
        ensures { OnOk result (Declares self.old.table.entries self.new.table.entries
            (λ k p. declares_unlike_operation k p object.now (operation_tree operation.now))) }
    {
        match operation {
            Operation::Subprogram(subprogram, _) => {
                let key = Key::of_operation(object, &subprogram.name);
                self.declare(key, Profile::of_subprogram(subprogram))
            }
            Operation::Entry(entry) => {
                let key = Key::of_operation(object, &entry.name);
                self.declare(key, Profile::of_entry(entry))
            }
        }
    }

    fn declare_operations(
        &mut self,
        object: &'a Identifier,
        operations: &'a [Operation],
    ) -> Result<(), AllocError>
        ensures { OnOk result (Declares self.old.table.entries self.new.table.entries
            (λ k p. list_any (declares_unlike_operation k p object.now) (map operation_tree operations.now))) }
    {
        for operation in operations {
            self.declare_operation(object, operation)?;
        }
        Ok(())
    }

    /// Declares what this item does, if it has a profile. Memory is the only refusal.
    pub(crate) fn declare_item(&mut self, item: &'a Item) -> Result<(), AllocError>
        ensures { OnOk result (Declares self.old.table.entries self.new.table.entries (λ k p. declares_unlike k p (item_tree item.now))) }
    {
        match item {
            Item::Subprogram(subprogram) => {
                let key = Key::of_body(BodyOf::Subprogram, &subprogram.name);
                self.declare(key, Profile::of_subprogram(subprogram))
            }
            Item::Protected(object) => self.declare_operations(&object.name, &object.operations),
            _ => Ok(()),
        }
    }

    /// Declares what each of these items does. Memory is the only refusal.
    pub(crate) fn declare_items(&mut self, items: &'a [Item]) -> Result<(), AllocError>
        ensures { OnOk result (Declares self.old.table.entries self.new.table.entries (λ k p. list_any (declares_unlike k p) (map item_tree items.now))) }
    {
        for item in items {
            self.declare_item(item)?;
        }
        Ok(())
    }
}
