//! Scopes: the visible names and what they denote (RM 8.3).
ghost use Rattle.std.specs.Prelude.{◌≡◌, ◌+◌, ◌*◌, ◌<◌, ◌^◌, [], length, map, take, option_map, Some, OnOk, OnErr, IfOk};
ghost use Rattle.types.specs.Entities.{entity_value, form_value, operation_value, profile_value, protected_value};
ghost use Rattle.types.specs.Layouts.{capped, component_offset, words_of};
ghost use Rattle.types.specs.Kept.{components_words, entity_words};
ghost use Rattle.types.specs.Scopes.{barred, entity_at, form_at, is_visible, number_of, offering, one_if_protected, operations_or, profile_at, protected_at, protected_count, protected_of, with_barrier, with_name, with_operations};

use crate::entity::{
    Barrier, Entity, Profile, ProtectedObject, RecordComponent, Subtype, TypeForm,
};
use crate::parts::Operations;
use base::limits::WORDS;
use indexmap::IndexMap;
use lexer::Text;
use std::alloc::{AllocError, Global};
use std::marker::Model;
use std::mem;

/// One more word than a program may have.
pub const MORE_WORDS: u16 = WORDS as u16 + 1;

// What a name stands for; the words of an object of the type that it is: 0 where it is none, `MORE_WORDS` where there are more than a program may have; and
// the number of protected objects up to it, itself among them.
#[derive(Drop)]
struct Declared {
    entity: Entity,
    words: u16,
    objects: usize,
}

impl Declared {
    fn set_barrier(&mut self, barrier: Barrier)
        ensures entity { entity_value self.new.entity ≡ barred barrier (entity_value self.old.entity) }
        ensures words { self.new.words ≡ self.old.words }
        ensures objects { self.new.objects ≡ self.old.objects }
    {
        if let Entity::Protected(object) = &mut self.entity {
            object.barrier = Some(barrier);
        }
    }

    fn replace_operations(&mut self, operations: Operations) -> Operations
        ensures entity { entity_value self.new.entity ≡ offering (map operation_value operations) (entity_value self.old.entity) }
        ensures words { self.new.words ≡ self.old.words }
        ensures objects { self.new.objects ≡ self.old.objects }
        ensures back { map operation_value result ≡ operations_or (protected_of (Some (entity_value self.old.entity))) (map operation_value operations) }
    {
        match &mut self.entity {
            Entity::Protected(object) => mem::replace(&mut object.operations, operations),
            _ => operations,
        }
    }
}

/// The visible names in the order of their declarations, with what they denote. A name's number is its position. Contracts see a list.
#[derive(Drop)]
pub struct Scope {
    names: IndexMap<Text, Declared>,
}

impl Model for Scope {
    ghost use Rattle.std.specs.Prelude.{◌≡◌, List, map};
    ghost use Rattle.types.specs.Kept.{capped_words, entry_objects, entry_words, objects_after};
    ghost use Rattle.types.specs.Scopes.{Named, entry_value};
    ghost use Rattle.types.specs.Shapes.{shapes};

    ghost Value = { List Named };

    ghost view = { λ s. map entry_value s.names.entries };

    ghost invariant = { λ s. (map entry_words s.names.entries ≡ map capped_words (shapes (map entry_value s.names.entries)))
        × (map entry_objects s.names.entries ≡ objects_after 0 (map entry_value s.names.entries)) };
}

fn capped(words: u32) -> u16
    ensures { result ≡ capped words }
{
    if words < MORE_WORDS as u32 {
        words as u16
    } else {
        MORE_WORDS
    }
}

fn capped_sum(left: u16, right: u16) -> u16
    ensures { result ≡ capped (left + right) }
{
    capped(left as u32 + right as u32)
}

fn capped_product(left: u16, right: u16) -> u16
    ensures { result ≡ capped (left * right) }
{
    capped(left as u32 * right as u32)
}

impl Scope {
    /// No names.
    pub fn new(alloc: Global) -> Scope
        ensures { result ≡ [] }
    {
        Scope {
            names: IndexMap::new(alloc),
        }
    }

    /// The number of names.
    pub fn len(&self) -> usize
        ensures value { result ≡ length self.now }
        ensures small { result < 2 ^ 63 }
    {
        self.names.len()
    }

    /// The number of a visible name.
    pub fn number_of(&self, name: &Text) -> Option<usize>
        ensures { result ≡ number_of self.now name.now }
    {
        self.names.get_index_of(name)
    }

    /// What the name with this number denotes.
    pub fn entity(&self, number: usize) -> Option<&Entity>
        ensures { option_map (λ e. entity_value e.now) result ≡ entity_at self.now number }
    {
        match self.names.get_index(number) {
            Some((_, declared)) => Some(&declared.entity),
            None => None,
        }
    }

    /// The form of the type with this number, if it is one.
    pub fn form(&self, number: usize) -> Option<&TypeForm>
        ensures { option_map (λ f. form_value f.now) result ≡ form_at self.now number }
    {
        match self.entity(number) {
            Some(Entity::Type(form, _)) => Some(form),
            _ => None,
        }
    }

    /// The profile of the subprogram or entry with this number, if it is one.
    pub fn profile(&self, number: usize) -> Option<&Profile>
        ensures { option_map (λ p. profile_value p.now) result ≡ profile_at self.now number }
    {
        match self.entity(number) {
            Some(Entity::Subprogram(profile)) => Some(profile),
            Some(Entity::Entry(profile)) => Some(profile),
            Some(Entity::Predefined(_, profile)) => Some(profile),
            _ => None,
        }
    }

    /// The protected object with this number, if it is one.
    pub fn protected(&self, number: usize) -> Option<&ProtectedObject>
        ensures { option_map (λ p. protected_value p.now) result ≡ protected_at self.now number }
    {
        match self.entity(number) {
            Some(Entity::Protected(object)) => Some(object),
            _ => None,
        }
    }

    /// The words of an object of this subtype (docs/FORMATS.md), or `MORE_WORDS` where they are more than a program may have.
    pub fn words(&self, subtype: Subtype) -> u16
        ensures { result ≡ capped (words_of self.now subtype) }
    {
        match self.names.get_index(subtype.type_number) {
            Some((_, declared)) => declared.words,
            None => 0,
        }
    }

    /// The first word of the component with this name, counted from that of the record, or `MORE_WORDS` where it is after more words than a program may
    /// have.
    pub fn component_offset(&self, components: &[RecordComponent], name: &Text) -> Option<u16>
        ensures { result ≡ option_map capped (component_offset self.now components.now name.now) }
    {
        let mut words = 0;
        for component in components {
            if component.name.as_bytes() == name.as_bytes() {
                return Some(words);
            }
            words = capped_sum(words, self.words(component.subtype));
        }
        None
    }

    /// The words of the components of a record, or `MORE_WORDS`.
    fn components_words(&self, components: &[RecordComponent]) -> u16
        ensures { result ≡ capped (components_words self.now components.now) }
    {
        let mut words = 0;
        for component in components {
            words = capped_sum(words, self.words(component.subtype));
        }
        words
    }

    /// The words of an object of the type that this is, or `MORE_WORDS`; 0 where it is none.
    fn entity_words(&self, entity: &Entity) -> u16
        ensures { result ≡ capped (entity_words self.now (entity_value entity.now)) }
    {
        match entity {
            Entity::Type(TypeForm::Array(_, length, element), _) => {
                capped_product(*length, self.words(*element))
            }
            Entity::Type(TypeForm::Record(components), _) => {
                self.components_words(components.as_slice())
            }
            Entity::Type(_, _) => 1,
            _ => 0,
        }
    }

    /// The number of protected objects among the names.
    pub fn protected_count(&self) -> usize
        ensures count { result ≡ protected_count self.now }
        ensures small { result < 2 ^ 63 }
    {
        let len = self.len();
        if len == 0 {
            return 0;
        }
        match self.names.get_index(len - 1) {
            Some((_, declared)) => declared.objects,
            None => 0,
        }
    }

    // The number of protected objects among the names, with one name more, which denotes this.
    fn objects_with(&self, entity: &Entity) -> usize
        ensures { result ≡ protected_count self.now + one_if_protected (entity_value entity.now) }
    {
        match entity {
            Entity::Protected(_) => self.protected_count() + 1,
            _ => self.protected_count(),
        }
    }

    /// Adds a name, unless one like it is visible: the first keeps the name. Memory is the only refusal, and leaves the scope as it was.
    pub fn add(&mut self, name: Text, entity: Entity) -> Result<(), AllocError>
        ensures ok { OnOk result (self.new ≡ with_name self.old name (entity_value entity)) }
        ensures err { OnErr result (self.new ≡ self.old) }
    {
        if self.number_of(&name).is_some() {
            return Ok(());
        }
        let words = self.entity_words(&entity);
        let objects = self.objects_with(&entity);
        let declared = Declared {
            entity,
            words,
            objects,
        };
        self.names.insert(name, declared)?;
        Ok(())
    }

    /// Gives the protected object with this number the barrier of its entry, once the entry's body is known (RM 9.5.2). Where the number is
    /// none of a protected object, nothing changes.
    pub fn set_barrier(&mut self, number: usize, barrier: Barrier)
        ensures { self.new ≡ with_barrier self.old number barrier }
    {
        if let Some(declared) = self.names.get_index_mut(number) {
            declared.set_barrier(barrier);
        }
    }

    /// Gives the protected object with this number these operations, and gives its own back: in its own body it has none after its name (RM 9.4).
    /// Where the number is none of a protected object, nothing changes and the given ones come back.
    pub fn replace_operations(&mut self, number: usize, operations: Operations) -> Operations
        ensures scope { self.new ≡ with_operations self.old number (map operation_value operations) }
        ensures back { map operation_value result ≡ operations_or (protected_at self.old number) (map operation_value operations) }
    {
        match self.names.get_index_mut(number) {
            Some(declared) => declared.replace_operations(operations),
            None => operations,
        }
    }

    /// Drops all names but the first `len`, as at the end of a body.
    pub fn truncate(&mut self, len: usize)
        ensures { self.new ≡ take len self.old }
    {
        self.names.truncate(len);
    }
}
