//! What a declaration and its bodies have in common, as the key of a table.
ghost use Rattle.std.specs.Prelude.{◌≡◌, [], OnOk, IfOk};
ghost use Rattle.ada_tree.specs.ProgramTree.{body_item_tree, protected_item_tree};
ghost use Rattle.conformance.specs.MatchingRules.{operation_name};
ghost use Rattle.conformance.specs.declared.keys.Kind.TheVariants as kind;
ghost use Rattle.conformance.specs.Tables.{IsKeyOf, SeesKeys, has_body_key, is_same_key, is_seen, kind_of, optional_has};

use crate::bodies::BodyOf;
use ada_tree::{BodyItem, Identifier, ProtectedBodyItem};
use indexmap::IndexSet;
use lexer::Text;
use std::alloc::{AllocError, Global};

/// What a name with a body denotes.
#[derive(Clone, Copy, Debug, PartialEq, Eq, Hash)]
pub(crate) enum Kind {
    Subprogram,
    Task,
    Object,
    /// A procedure, function or entry of a protected object.
    Operation,
}

/// A name with a body: what it denotes, and the object that it is an operation of, or its own name where it is none.
#[derive(Clone, Copy, PartialEq, Eq, Hash)]
pub(crate) struct Key<'a> {
    pub kind: Kind,
    pub object: &'a Text,
    pub name: &'a Text,
}

fn kind_of(kind: BodyOf) -> Kind
    ensures { result ≡ kind_of kind }
{
    match kind {
        BodyOf::Subprogram => Kind::Subprogram,
        BodyOf::Task => Kind::Task,
        BodyOf::Object => Kind::Object,
    }
}

/// The name of the operation that this is the body of.
pub(crate) fn operation_name(body: &ProtectedBodyItem) -> &Identifier
    ensures { result.now ≡ operation_name (protected_item_tree body.now) }
{
    match body {
        ProtectedBodyItem::Subprogram(subprogram, _) => &subprogram.name,
        ProtectedBodyItem::Entry(entry, _, _) => &entry.name,
    }
}

impl<'a> Key<'a> {
    /// The key of what has a body of this kind.
    pub(crate) fn of_body(kind: BodyOf, name: &'a Identifier) -> Key<'a>
        ensures { IsKeyOf result (kind_of kind) name.now.name name.now.name }
    {
        Key {
            kind: kind_of(kind),
            object: &name.name,
            name: &name.name,
        }
    }

    /// The key of an operation of this object.
    pub(crate) fn of_operation(object: &'a Identifier, name: &'a Identifier) -> Key<'a>
        ensures { IsKeyOf result kind.Operation object.now.name name.now.name }
    {
        Key {
            kind: Kind::Operation,
            object: &object.name,
            name: &name.name,
        }
    }

    /// The key of what this is the body of.
    pub(crate) fn of_operation_body(object: &'a Identifier, body: &'a ProtectedBodyItem) -> Key<'a>
        ensures { IsKeyOf result kind.Operation object.now.name (operation_name (protected_item_tree body.now)).name }
    {
        Key::of_operation(object, operation_name(body))
    }

    /// The key of what this item is the body of, if it is one.
    pub(crate) fn of_item(item: &'a BodyItem) -> Option<Key<'a>>
        ensures { (k : Key) → optional_has k result ≡ has_body_key k (body_item_tree item.now) }
    {
        match item {
            BodyItem::Item(_) => None,
            BodyItem::Subprogram(subprogram, _) => {
                Some(Key::of_body(BodyOf::Subprogram, &subprogram.name))
            }
            BodyItem::Task(name, _) => Some(Key::of_body(BodyOf::Task, name)),
            BodyItem::Protected(name, _, _) => Some(Key::of_body(BodyOf::Object, name)),
        }
    }
}

/// Keys that were seen.
#[derive(Drop)]
pub(crate) struct Keys<'a> {
    set: IndexSet<Key<'a>>,
}

impl<'a> Keys<'a> {
    /// No keys.
    pub(crate) fn new(alloc: Global) -> Keys<'a>
        ensures { result.set.keys ≡ [] }
    {
        Keys {
            set: IndexSet::new(alloc),
        }
    }

    /// Whether a key was seen.
    pub(crate) fn has(&self, key: Key<'a>) -> bool
        ensures { result ≡ is_seen self.now.set.keys key.entry }
    {
        self.set.contains(&key)
    }

    /// Sees a key, and says whether it was seen before. Memory is the only refusal.
    pub(crate) fn see(&mut self, key: Key<'a>) -> Result<bool, AllocError>
        ensures before { IfOk result (λ b. b ≡ is_seen self.old.set.keys key.entry) }
        ensures seen { OnOk result (SeesKeys self.old.set.keys self.new.set.keys (is_same_key key.entry)) }
    {
        let is_new = self.set.insert(key)?;
        Ok(!is_new)
    }

    /// Sees the key of what this item is the body of. Memory is the only refusal.
    pub(crate) fn see_item(&mut self, item: &'a BodyItem) -> Result<(), AllocError>
        ensures { OnOk result (SeesKeys self.old.set.keys self.new.set.keys (λ k. has_body_key k (body_item_tree item.now))) }
    {
        match Key::of_item(item) {
            Some(key) => {
                self.see(key)?;
                Ok(())
            }
            None => Ok(()),
        }
    }
}
