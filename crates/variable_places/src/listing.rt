//! Variables or components, one after the other, and their scalar parts.
ghost use Rattle.std.specs.Prelude.{◌≡◌, ◌+◌, IfOk, OnOk};
ghost use Rattle.meaning.specs.Programs.{subtype_named, subtype_or_integer};
ghost use Rattle.variable_places.specs.Shown.{none_listed, object_listed};

use crate::parts::{push_parts, word_after};
use ada_tree::Identifier;
use std::alloc::{AllocError, Global};
use std::marker::Model;
use type_rules::subtype_of;
use types::{Scope, Subtype};
use waveforms::Variable;

// The subtype that a name denotes; Integer where it denotes none, which a legal program doesn't.
fn subtype_named(scope: &Scope, name: &Identifier) -> Subtype
    ensures { result ≡ subtype_named scope.now name.now }
{
    match subtype_of(scope, name) {
        Some(subtype) => subtype,
        None => Subtype::INTEGER,
    }
}

// One more.
fn above(number: usize) -> Result<usize, AllocError>
    ensures { IfOk result (λ above. above ≡ number + 1) }
{
    number.checked_add(1).ok_or(AllocError)
}

/// What was listed of the objects so far, and the number of the word after theirs.
#[derive(Drop)]
pub(crate) struct Listing {
    variables: Vec<Variable>,
    next: u16,
}

impl Model for Listing {
    ghost use Rattle.variable_places.specs.Shown.{Listed};

    ghost Value = { Listed };

    ghost view = { λ l. record { variables = l.variables.items; next = l.next } };

    ghost invariant = { λ l. Unit {0} };
}

impl Listing {
    /// Nothing is listed.
    pub(crate) fn new(alloc: Global) -> Listing
        ensures { result ≡ none_listed }
    {
        Listing {
            variables: Vec::new(alloc),
            next: 0,
        }
    }

    /// Lists the scalar parts of an object of this name and subtype, after those before it.
    pub(crate) fn push(
        &mut self,
        alloc: Global,
        scope: &Scope,
        name: &Identifier,
        subtype: &Identifier,
    ) -> Result<(), AllocError>
        ensures { OnOk result (self.new ≡ object_listed scope.now self.old name.now.name (subtype_named scope.now subtype.now)) }
    {
        let subtype = subtype_named(scope, subtype);
        let first = self.next;
        let below = above(subtype.type_number)?;
        push_parts(
            alloc,
            &mut self.variables,
            scope,
            subtype,
            below,
            name.name.as_bytes(),
            first,
        )?;
        self.next = word_after(first, u32::from(scope.words(subtype)));
        Ok(())
    }

    /// The variables that are listed.
    pub(crate) fn into_variables(self) -> Vec<Variable>
        ensures { result.items ≡ self.variables }
    {
        self.variables
    }
}
