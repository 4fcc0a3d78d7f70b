//! Specifications of subprograms, and which declaration a body completes (RM 6.1, 6.3).

use crate::entity::{EntityId, EntityKind};
use crate::resolver::{Around, Resolver};
use crate::subtype::FormalKind;
use ada2012_tree::{Aspect, Formal, Identifier, Name, Specification};
use std::alloc::AllocError;

// Is this a subprogram of the kind that is specified?
fn is_specified(kind: EntityKind, specification: &Specification) -> bool {
    match kind {
        EntityKind::Function => specification.result.is_some(),
        EntityKind::Procedure => specification.result.is_none(),
        _ => false,
    }
}

impl Resolver {
    // Resolves the subtype of a result, if there is one.
    fn optional_mark(&mut self, mark: Option<&Name>) -> Result<Option<EntityId>, AllocError> {
        match mark {
            Some(name) => self.subtype_mark(name),
            None => Ok(None),
        }
    }

    // Declares formal parameters within this subprogram or entry.
    fn declare_parameters(
        &mut self,
        id: EntityId,
        formals: &[Formal],
        subtypes: &[Option<EntityId>],
    ) -> Result<(), AllocError> {
        let around = self.enter_entity(id, false)?;
        self.declare_formals(formals, FormalKind::Parameter, subtypes)?;
        self.leave(around);
        Ok(())
    }

    /// Declares a subprogram, and its formal parameters within it.
    pub(crate) fn specification(
        &mut self,
        specification: &Specification,
    ) -> Result<EntityId, AllocError> {
        let kind = if specification.result.is_some() {
            EntityKind::Function
        } else {
            EntityKind::Procedure
        };
        let subtypes = self.formal_subtypes(&specification.formals)?;
        let subtype = self.optional_mark(specification.result.as_ref())?;
        let id = self.declare(&specification.name, kind, subtype)?;
        self.declare_parameters(id, &specification.formals, subtypes.as_slice())?;
        self.visibility.show(id)?;
        Ok(id)
    }

    /// Declares an entry, and its formal parameters within it.
    pub(crate) fn entry(
        &mut self,
        name: &Identifier,
        formals: &[Formal],
    ) -> Result<EntityId, AllocError> {
        let subtypes = self.formal_subtypes(formals)?;
        let id = self.introduce(name, EntityKind::Entry, None)?;
        self.declare_parameters(id, formals, subtypes.as_slice())?;
        Ok(id)
    }

    // Are all these formal parameters named like those of an entity?
    fn has_formals(&self, owner: EntityId, formals: &[Formal]) -> bool {
        formals.iter().all(|formal| {
            formal
                .names
                .iter()
                .all(|name| self.names.part_named(owner, &name.name).is_some())
        })
    }

    // Is this formal parameter of an entity named like one of these?
    fn is_among_formals(&self, part: EntityId, formals: &[Formal]) -> bool {
        formals.iter().any(|formal| {
            formal
                .names
                .iter()
                .any(|name| self.names.is_named(part, &name.name))
        })
    }

    // Has an entity formal parameters of just these names?
    fn repeats_formals(&self, owner: EntityId, formals: &[Formal]) -> bool {
        for place in 0..self.names.entities().len() {
            match self.names.part_at(owner, place) {
                Some(part) => {
                    if !self.is_among_formals(part, formals) {
                        return false;
                    }
                }
                None => return self.has_formals(owner, formals),
            }
        }
        false
    }

    /// Has an entity a body?
    pub(crate) fn is_completed(&self, id: EntityId) -> bool {
        self.completed.iter().any(|completed| *completed == id)
    }

    // Can a body with this specification complete the declaration of this entity?
    fn can_complete(&self, id: EntityId, specification: &Specification) -> bool {
        match self.names.entity(id) {
            Some(entity) => {
                entity.within == self.region.owner
                    && is_specified(entity.kind, specification)
                    && self.names.is_named(id, &specification.name.name)
                    && !self.is_completed(id)
                    && self.repeats_formals(id, &specification.formals)
            }
            None => false,
        }
    }

    // The declaration that a body with this specification completes, if it completes one.
    fn declaration_of(&self, specification: &Specification) -> Option<EntityId> {
        for number in 0..self.names.entities().len() {
            let id = EntityId { number };
            if self.can_complete(id, specification) {
                return Some(id);
            }
        }
        None
    }

    /// Resolves the specification of a body, and returns the subprogram: the one that it completes, or else a new one.
    pub(crate) fn body_specification(
        &mut self,
        specification: &Specification,
    ) -> Result<EntityId, AllocError> {
        match self.declaration_of(specification) {
            Some(id) => {
                self.completed.push(id)?;
                self.note_entity(&specification.name, Some(id))?;
                self.repeated_formals(id, &specification.formals)?;
                self.optional_mark(specification.result.as_ref())?;
                Ok(id)
            }
            None => {
                let id = self.specification(specification)?;
                self.completed.push(id)?;
                Ok(id)
            }
        }
    }

    /// Enters the body of a subprogram or an entry: its formal parameters are visible.
    pub(crate) fn enter_subprogram(&mut self, id: EntityId) -> Result<Around, AllocError> {
        let around = self.enter_entity(id, true)?;
        self.region.result = self.names.subtype_of(id);
        Ok(around)
    }

    /// Resolves the aspects of a subprogram or an entry, in which its formal parameters are visible.
    pub(crate) fn aspects_of(
        &mut self,
        id: EntityId,
        aspects: &[Aspect],
    ) -> Result<(), AllocError> {
        let around = self.enter_subprogram(id)?;
        self.aspects(aspects)?;
        self.leave(around);
        Ok(())
    }

    /// The entry of this name in the region in which the walk is.
    pub(crate) fn entry_here(&self, name: &Identifier) -> Option<EntityId> {
        for (number, entity) in self.names.entities().iter().enumerate() {
            let id = EntityId { number };
            if entity.within == self.region.owner
                && matches!(entity.kind, EntityKind::Entry)
                && self.names.is_named(id, &name.name)
            {
                return Some(id);
            }
        }
        None
    }
}
