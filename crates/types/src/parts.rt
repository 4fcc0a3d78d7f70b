//! Components and operations, each found by its name at once (RM 3.8, 9.4).
ghost use Rattle.std.specs.Prelude.{◌≡◌, bytes_eq, position, IfOk};
ghost use Rattle.types.specs.Kept.{subtype_at};
ghost use Rattle.types.specs.Standings.{component_of};

use crate::entity::{Operation, RecordComponent, Subtype};
use crate::seen::NamePlaces;
use lexer::Text;
use std::alloc::{AllocError, Global};
use std::marker::Model;

fn subtype_at(components: &[RecordComponent], place: Option<usize>) -> Option<Subtype>
    ensures { result ≡ subtype_at components.now place }
{
    match place {
        Some(place) => match components.get(place) {
            Some(component) => Some(component.subtype),
            None => None,
        },
        None => None,
    }
}

/// The components of a record in order. Contracts see a list.
#[derive(Drop)]
pub struct Components {
    list: Vec<RecordComponent>,
    places: NamePlaces,
}

impl Model for Components {
    ghost use Rattle.std.specs.Prelude.{List};
    ghost use Rattle.types.specs.declared.entity.RecordComponent.{RecordComponent};
    ghost use Rattle.types.specs.Seen.{ArePlaces};

    ghost Value = { List RecordComponent };

    ghost view = { λ c. c.list.items };

    ghost invariant = { λ c. ArePlaces (λ x. x.name) c.list.items c.places };
}

impl Components {
    /// These components. Memory is the only refusal.
    pub fn new(alloc: Global, list: Vec<RecordComponent>) -> Result<Components, AllocError>
        ensures { IfOk result (λ c. c ≡ list.items) }
    {
        let mut places = NamePlaces::new(alloc);
        for (place, component) in list.iter().enumerate() {
            places.add(component.name.clone()?, place)?;
        }
        Ok(Components { list, places })
    }

    /// The components.
    pub fn as_slice(&self) -> &[RecordComponent]
        ensures { result.now ≡ self.now }
    {
        &self.list
    }

    /// The subtype of the component with this name (RM 4.1.3).
    pub fn subtype_of(&self, name: &Text) -> Option<Subtype>
        ensures { result ≡ component_of self.now name.now }
    {
        subtype_at(&self.list, self.places.place_of(name))
    }
}

/// The operations of a protected object in order. Contracts see a list.
#[derive(Drop)]
pub struct Operations {
    list: Vec<Operation>,
    places: NamePlaces,
}

impl Model for Operations {
    ghost use Rattle.std.specs.Prelude.{List};
    ghost use Rattle.types.specs.declared.entity.Operation.{Operation};
    ghost use Rattle.types.specs.Seen.{ArePlaces};

    ghost Value = { List Operation };

    ghost view = { λ o. o.list.items };

    ghost invariant = { λ o. ArePlaces (λ x. x.name) o.list.items o.places };
}

impl Operations {
    /// These operations. Memory is the only refusal.
    pub fn new(alloc: Global, list: Vec<Operation>) -> Result<Operations, AllocError>
        ensures { IfOk result (λ o. o ≡ list.items) }
    {
        let mut places = NamePlaces::new(alloc);
        for (place, operation) in list.iter().enumerate() {
            places.add(operation.name.clone()?, place)?;
        }
        Ok(Operations { list, places })
    }

    /// The operations.
    pub fn as_slice(&self) -> &[Operation]
        ensures { result.now ≡ self.now }
    {
        &self.list
    }

    /// The position of the operation with this name.
    pub fn position_of(&self, name: &Text) -> Option<usize>
        ensures { result ≡ position (λ o. bytes_eq o.name name.now) self.now }
    {
        self.places.place_of(name)
    }
}
