//! What is visible to code: names, where the words of objects are, and which subprograms functions have.
ghost use Rattle.std.specs.Prelude.{◌≡◌, ◌∷◌, ◌++◌, [], length, option_map, take, IfErr, IfSome, OnOk};
ghost use Rattle.types.specs.Entities.{profile_value, protected_value};
ghost use Rattle.types.specs.Scopes.{form_at};
ghost use Rattle.expr_code.specs.Entries.{entry_at};
ghost use Rattle.expr_code.specs.ExpressionCode.{field_of};
ghost use Rattle.expr_code.specs.Refusing.{IsRefused};
ghost use Rattle.expr_code.specs.Seeing.{external_of, external_profile, NamesOperation, NamesProfile, object_named, operation_entry, operation_named, profile_named, slot_of, subprogram_of};

use crate::refusal::Refusal;
use image::Region;
use lexer::Text;
use std::alloc::Global;
use std::marker::Model;
use types::{Entity, PredefinedOperation, Profile, ProtectedObject, Scope, Subtype, TypeForm};

/// Where the first word of an object is: its region, and how many words are before it there.
#[derive(Clone, Copy, PartialEq, Eq, Debug)]
pub struct Slot {
    pub region: Region,
    pub offset: u16,
}

/// What names have, by their numbers, where they have something. Contracts see a list.
#[derive(Drop)]
pub struct Entries<T> {
    entries: Vec<Option<T>>,
}

impl<T> Model for Entries<T> {
    ghost use Rattle.std.specs.Prelude.{List, Option};

    ghost Value = { List (Option T) };

    ghost view = { λ e. e.entries.items };
}

impl<T: Copy> Entries<T> {
    /// No entries.
    pub fn new(alloc: Global) -> Entries<T>
        ensures { result ≡ [] }
    {
        Entries {
            entries: Vec::new(alloc),
        }
    }

    /// What the name of this number has.
    pub fn at(&self, number: usize) -> Option<T>
        ensures { result ≡ entry_at self.now number }
    {
        match self.entries.get(number) {
            Some(entry) => *entry,
            None => None,
        }
    }

    /// How many names have an entry.
    pub fn len(&self) -> usize
        ensures { result ≡ length self.now }
    {
        self.entries.len()
    }

    /// Adds the entry of one name more.
    pub fn push(&mut self, entry: Option<T>) -> Result<(), Refusal>
        ensures pushed { OnOk result (self.new ≡ self.old ++ entry ∷ []) }
        ensures refused { IfErr result (λ why. IsRefused 0 0 why) }
    {
        self.entries.push(entry)?;
        Ok(())
    }

    /// Keeps those of the first names.
    pub fn truncate(&mut self, many: usize)
        ensures { self.new ≡ take many self.old }
    {
        self.entries.truncate(many);
    }
}

/// The numbers of the subprograms of operations, by the number of their protected object among all, and by their place in its declaration (RM 9.4). Contracts
/// see lists.
#[derive(Drop)]
pub struct OperationNumbers {
    objects: Vec<Entries<u16>>,
}

impl Model for OperationNumbers {
    ghost use Rattle.std.specs.Prelude.{ℕ, List, Option};

    ghost Value = { List (List (Option ℕ)) };

    ghost view = { λ o. o.objects.items };
}

impl OperationNumbers {
    /// No object has operations yet.
    pub fn new(alloc: Global) -> OperationNumbers
        ensures { result ≡ [] }
    {
        OperationNumbers {
            objects: Vec::new(alloc),
        }
    }

    /// The number of the subprogram of the operation at this place, of the object with this number.
    pub fn at(&self, object: usize, place: usize) -> Option<u16>
        ensures { result ≡ operation_entry self.now object place }
    {
        match self.objects.get(object) {
            Some(numbers) => numbers.at(place),
            None => None,
        }
    }

    /// Adds those of one object more.
    pub fn push(&mut self, numbers: Entries<u16>) -> Result<(), Refusal>
        ensures pushed { OnOk result (self.new ≡ self.old ++ numbers ∷ []) }
        ensures refused { IfErr result (λ why. IsRefused 0 0 why) }
    {
        self.objects.push(numbers)?;
        Ok(())
    }
}

/// The names that are visible in a part of a program. For each of them, by its number: where its words are, if it is an object that has words, and the number
/// of its subprogram, if it is one that may be called. And for each protected object, by its number among them, the numbers of the subprograms of its
/// operations in the order of their declarations (RM 9.4).
#[derive(Drop)]
pub struct Visible {
    pub scope: Scope,
    pub slots: Entries<Slot>,
    pub subprograms: Entries<u16>,
    pub operations: OperationNumbers,
}

impl Visible {
    /// Where the object of this name is, if it is one that has words.
    pub fn slot(&self, name: &Text) -> Option<Slot>
        ensures { result ≡ slot_of self.now name.now }
    {
        let number = self.scope.number_of(name)?;
        self.slots.at(number)
    }

    /// The subtype of a component of a record, and how many words precede it there.
    pub(crate) fn field(&self, subtype: Subtype, name: &Text) -> Option<(Subtype, u16)>
        ensures { result ≡ field_of self.now.scope (form_at self.now.scope subtype.type_number) name.now }
    {
        let Some(TypeForm::Record(components)) = self.scope.form(subtype.type_number) else {
            return None;
        };
        let subtype = components.subtype_of(name)?;
        let offset = self.scope.component_offset(components.as_slice(), name)?;
        Some((subtype, offset))
    }

    /// The number of the subprogram of this name, if it is one that may be called.
    pub fn subprogram(&self, name: &Text) -> Option<u16>
        ensures { result ≡ subprogram_of self.now name.now }
    {
        let number = self.scope.number_of(name)?;
        self.subprograms.at(number)
    }

    /// The profile of the subprogram of this name, if it is one.
    pub fn profile(&self, name: &Text) -> Option<&Profile>
        ensures is { option_map (λ p. profile_value p.now) result ≡ profile_named self.now.scope name.now }
        ensures names { IfSome result (λ profile. NamesProfile self.now.scope name.now (profile_value profile.now)) }
    {
        let number = self.scope.number_of(name)?;
        match self.scope.entity(number) {
            Some(Entity::Subprogram(profile)) => Some(profile),
            _ => None,
        }
    }

    /// The protected object of this name, if it is one (RM 9.4).
    fn protected(&self, name: &Text) -> Option<&ProtectedObject>
        ensures { option_map (λ p. protected_value p.now) result ≡ object_named self.now.scope name.now }
    {
        let number = self.scope.number_of(name)?;
        self.scope.protected(number)
    }

    /// The number of the subprogram of the operation that is named after its protected object, if it is one that may be called.
    pub fn external(&self, object: &Text, operation: &Text) -> Option<u16>
        ensures { result ≡ external_of self.now object.now operation.now }
    {
        let protected = self.protected(object)?;
        let place = protected.position_of(operation)?;
        self.operations.at(protected.number, place)
    }

    /// The profile of the operation that is named after its protected object, if it is one.
    pub fn external_profile(&self, object: &Text, operation: &Text) -> Option<&Profile>
        ensures { option_map (λ p. profile_value p.now) result ≡ external_profile self.now.scope object.now operation.now }
    {
        let protected = self.protected(object)?;
        let place = protected.position_of(operation)?;
        match protected.operations.as_slice().get(place) {
            Some(found) => Some(&found.profile),
            None => None,
        }
    }

    /// The function of the language that has this name, if it is one (RM D.8, and Control_IO).
    pub fn predefined(&self, name: &Text) -> Option<PredefinedOperation>
        ensures is { result ≡ operation_named self.now.scope name.now }
        ensures names { IfSome result (λ operation. NamesOperation self.now.scope name.now operation) }
    {
        let number = self.scope.number_of(name)?;
        match self.scope.entity(number) {
            Some(Entity::Predefined(operation, _)) => Some(*operation),
            _ => None,
        }
    }
}
