//! Declarations that hold no statements (RM 3, 8.4).

use crate::entity::{EntityId, EntityKind, TypeForm};
use crate::part::Part;
use crate::resolver::Resolver;
use crate::visibility::ClauseKind;
use ada2012_tree::{
    Component, Formal, Identifier, ObjectDeclaration, TypeDeclaration, TypeDefinition, UseClause,
};
use std::alloc::AllocError;

fn form_of(definition: &TypeDefinition) -> TypeForm {
    match definition {
        TypeDefinition::Enumeration(_) => TypeForm::Enumeration,
        TypeDefinition::Integer(_) => TypeForm::Integer,
        TypeDefinition::Modular(_) => TypeForm::Modular,
        TypeDefinition::Array(_) => TypeForm::Array,
        TypeDefinition::Record(_) => TypeForm::Record,
    }
}

impl Resolver {
    // The package in whose specification the walk is.
    fn package_here(&self) -> Option<EntityId> {
        let owner = self.region.owner?;
        match self.names.kind_of(owner) {
            Some(EntityKind::Package) if !self.is_completed(owner) => Some(owner),
            _ => None,
        }
    }

    // The deferred constant of this name in the region in which the walk is (RM 7.4).
    fn deferred(&self, name: &Identifier) -> Option<EntityId> {
        let id = self.declared_here(&name.name)?;
        match self.names.kind_of(id) {
            Some(EntityKind::Constant) => Some(id),
            _ => None,
        }
    }

    // Are these, in a private part, constants that were deferred?
    fn are_deferred(&self, object: &ObjectDeclaration) -> bool {
        object.constant
            && self.region.hides
            && self.package_here().is_some()
            && object
                .names
                .iter()
                .all(|name| self.deferred(name).is_some())
    }

    // Resolves the names of constants that were deferred.
    fn complete_constants(&mut self, names: &[Identifier]) -> Result<(), AllocError> {
        for name in names {
            let deferred = self.deferred(name);
            self.note_entity(name, deferred)?;
        }
        Ok(())
    }

    // Resolves the subtype, the value and the aspects of objects, and returns the subtype.
    fn object_parts(&mut self, object: &ObjectDeclaration) -> Result<Option<EntityId>, AllocError> {
        let of = self.object_subtype(&object.subtype)?;
        self.optional_expression(object.value.as_ref(), of)?;
        self.aspects(&object.aspects)?;
        Ok(of)
    }

    /// Declares objects (RM 3.3.1), or completes constants that were deferred.
    pub(crate) fn object(&mut self, object: &ObjectDeclaration) -> Result<(), AllocError> {
        if self.are_deferred(object) {
            self.complete_constants(&object.names)?;
            self.object_parts(object)?;
            return Ok(());
        }
        let of = self.object_parts(object)?;
        let kind = if object.constant {
            EntityKind::Constant
        } else {
            EntityKind::Variable
        };
        self.introduce_all(&object.names, kind, of)
    }

    // Declares the literals of an enumeration, beside their type (RM 3.5.1).
    fn literals(&mut self, of: EntityId, literals: &[Identifier]) -> Result<(), AllocError> {
        for (position, literal) in literals.iter().enumerate() {
            self.introduce(literal, EntityKind::Literal(position), Some(of))?;
        }
        Ok(())
    }

    // Declares the discriminants and components of a record type within it.
    fn record(
        &mut self,
        record: EntityId,
        discriminants: &[Formal],
        components: &[Component],
    ) -> Result<(), AllocError> {
        let around = self.enter_entity(record, false)?;
        self.discriminants(discriminants)?;
        for component in components {
            self.component(component)?;
        }
        self.leave(around);
        Ok(())
    }

    // Resolves the definition of a type, and declares it.
    fn defined(&mut self, of: &TypeDeclaration) -> Result<EntityId, AllocError> {
        let kind = EntityKind::Type(form_of(&of.definition));
        match &of.definition {
            TypeDefinition::Enumeration(literals) => {
                let id = self.declare(&of.name, kind, None)?;
                self.literals(id, literals)?;
                Ok(id)
            }
            TypeDefinition::Integer(range) => {
                self.range(range, None)?;
                self.declare(&of.name, kind, None)
            }
            TypeDefinition::Modular(modulus) => {
                self.expression(modulus, None)?;
                self.declare(&of.name, kind, None)
            }
            TypeDefinition::Array(definition) => self.array(Some(&of.name), definition),
            TypeDefinition::Record(components) => {
                let id = self.declare(&of.name, kind, None)?;
                self.record(id, &of.discriminants, components)?;
                Ok(id)
            }
        }
    }

    /// Declares a type (RM 3.2.1).
    pub(crate) fn type_declaration(&mut self, of: &TypeDeclaration) -> Result<(), AllocError> {
        let id = self.defined(of)?;
        self.visibility.show(id)?;
        self.aspects(&of.aspects)
    }

    // Keeps a use clause of the specification of a package for its body.
    fn keep_use(&mut self, package: EntityId) -> Result<(), AllocError> {
        match self.package_here() {
            Some(owner) => self.visibility.keep(owner, ClauseKind::Use, package),
            None => Ok(()),
        }
    }

    /// Resolves a use clause. What its packages declare is visible from here on; a clause of types makes only operators visible (RM 8.4).
    pub(crate) fn use_clause(&mut self, clause: &UseClause) -> Result<(), AllocError> {
        for name in &clause.names {
            let part = self.name(name, None)?;
            if let Part::Entity(package) = part
                && !clause.types
            {
                self.visibility.apply(ClauseKind::Use, package)?;
                self.keep_use(package)?;
            }
        }
        Ok(())
    }
}
