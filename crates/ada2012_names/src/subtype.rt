//! Subtypes, and parts of declarations that have one (RM 3.2, 3.6, 3.8, 6.1), aspects and pragmas.

use crate::entity::{EntityId, EntityKind, TypeForm};
use crate::predefined::Predefined;
use crate::resolver::{Region, Resolver};
use ada2012_tree::{
    ArrayDefinition, Aspect, Component, DiscreteRange, Formal, Identifier, Name, ObjectSubtype,
    Pragma, Span, SubtypeIndication,
};
use std::alloc::AllocError;

// Aspects whose values have words that are no names of the program.
const WORD_ASPECTS: [&str; 6] = [
    "CONVENTION",
    "SPARK_MODE",
    "GLOBAL",
    "DEPENDS",
    "INITIALIZES",
    "ABSTRACT_STATE",
];

// Pragmas whose arguments are names of the program or expressions.
const NAME_PRAGMAS: [&str; 12] = [
    "PRIORITY",
    "INTERRUPT_PRIORITY",
    "ATTACH_HANDLER",
    "INTERRUPT_HANDLER",
    "ASSERT",
    "STORAGE_SIZE",
    "CPU",
    "INLINE",
    "ATOMIC",
    "VOLATILE",
    "UNREFERENCED",
    "ELABORATE_ALL",
];

fn is_among(identifier: &Identifier, words: &[&str]) -> bool {
    words
        .iter()
        .any(|word| identifier.name.as_bytes() == word.as_bytes())
}

fn span_of(range: &DiscreteRange) -> Span {
    match range {
        DiscreteRange::Bounds(range) => range.span,
        DiscreteRange::Name(value) => value.span,
        DiscreteRange::Constrained(span, _, _) => *span,
    }
}

fn at(subtypes: &[Option<EntityId>], place: usize) -> Option<EntityId> {
    match subtypes.get(place) {
        Some(subtype) => *subtype,
        None => None,
    }
}

/// What formal parameters in a declaration are.
#[derive(Clone, Copy, PartialEq, Eq)]
pub(crate) enum FormalKind {
    Parameter,
    Discriminant,
}

impl Resolver {
    /// Resolves the name of a subtype.
    pub(crate) fn subtype_mark(&mut self, name: &Name) -> Result<Option<EntityId>, AllocError> {
        let part = self.name(name, None)?;
        Ok(self.names.subtype_of_part(part))
    }

    /// Resolves the name of a subtype and its constraint (RM 3.2.2).
    pub(crate) fn indication(
        &mut self,
        indication: &SubtypeIndication,
    ) -> Result<Option<EntityId>, AllocError> {
        let of = self.subtype_mark(&indication.name)?;
        if let Some(range) = &indication.range {
            self.range(range, of)?;
        }
        Ok(of)
    }

    /// Resolves a discrete range, and returns its subtype: of two literals it is Integer (RM 3.6.1).
    pub(crate) fn discrete_range(
        &mut self,
        range: &DiscreteRange,
    ) -> Result<Option<EntityId>, AllocError> {
        match range {
            DiscreteRange::Bounds(range) => {
                let of = self.range(range, None)?;
                Ok(of.or(self.predefined(Predefined::Integer)))
            }
            DiscreteRange::Name(value) => self.expression(value, None),
            DiscreteRange::Constrained(_, value, range) => {
                let of = self.expression(value, None)?;
                self.range(range, of)?;
                Ok(of)
            }
        }
    }

    // Resolves the ranges of an array type, and returns their subtypes.
    fn index_subtypes(
        &mut self,
        ranges: &[DiscreteRange],
    ) -> Result<Vec<Option<EntityId>>, AllocError> {
        let mut subtypes = Vec::new(self.alloc);
        for range in ranges {
            let of = self.discrete_range(range)?;
            subtypes.push(of)?;
        }
        Ok(subtypes)
    }

    // Declares the indexes of an array type, which have these ranges and subtypes.
    fn declare_indexes(
        &mut self,
        array: EntityId,
        ranges: &[DiscreteRange],
        subtypes: &[Option<EntityId>],
    ) -> Result<(), AllocError> {
        let around = self.enter(Region {
            owner: Some(array),
            hides: false,
            result: None,
        });
        for (place, range) in ranges.iter().enumerate() {
            self.declare_unnamed(span_of(range), EntityKind::Index, at(subtypes, place))?;
        }
        self.leave(around);
        Ok(())
    }

    /// Resolves the definition of an array type, and declares it by its name, if it has one (RM 3.6).
    pub(crate) fn array(
        &mut self,
        name: Option<&Identifier>,
        definition: &ArrayDefinition,
    ) -> Result<EntityId, AllocError> {
        let subtypes = self.index_subtypes(&definition.indexes)?;
        let component = self.indication(&definition.component)?;
        let kind = EntityKind::Type(TypeForm::Array);
        let array = match name {
            Some(name) => self.declare(name, kind, component)?,
            None => self.declare_unnamed(definition.span, kind, component)?,
        };
        self.declare_indexes(array, &definition.indexes, subtypes.as_slice())?;
        Ok(array)
    }

    /// Resolves that of which objects are declared, and returns their subtype.
    pub(crate) fn object_subtype(
        &mut self,
        subtype: &ObjectSubtype,
    ) -> Result<Option<EntityId>, AllocError> {
        match subtype {
            ObjectSubtype::Subtype(indication) => self.indication(indication),
            ObjectSubtype::Array(definition) => Ok(Some(self.array(None, definition)?)),
        }
    }

    /// Resolves a declaration of components, and declares them (RM 3.8).
    pub(crate) fn component(&mut self, component: &Component) -> Result<(), AllocError> {
        let of = self.object_subtype(&component.subtype)?;
        self.optional_expression(component.value.as_ref(), of)?;
        self.aspects(&component.aspects)?;
        self.introduce_all(&component.names, EntityKind::Component, of)
    }

    // Resolves the subtype and the default of formal parameters, and returns the subtype.
    fn formal_subtype(&mut self, formal: &Formal) -> Result<Option<EntityId>, AllocError> {
        let of = self.subtype_mark(&formal.subtype)?;
        self.optional_expression(formal.default.as_ref(), of)?;
        Ok(of)
    }

    /// Resolves the subtypes and the defaults of formal parameters or discriminants, and returns the subtypes (RM 6.1, 3.7).
    pub(crate) fn formal_subtypes(
        &mut self,
        formals: &[Formal],
    ) -> Result<Vec<Option<EntityId>>, AllocError> {
        let mut subtypes = Vec::new(self.alloc);
        for formal in formals {
            let of = self.formal_subtype(formal)?;
            subtypes.push(of)?;
        }
        Ok(subtypes)
    }

    /// Declares formal parameters or discriminants, which have these subtypes.
    pub(crate) fn declare_formals(
        &mut self,
        formals: &[Formal],
        kind: FormalKind,
        subtypes: &[Option<EntityId>],
    ) -> Result<(), AllocError> {
        for (place, formal) in formals.iter().enumerate() {
            let kind = match kind {
                FormalKind::Parameter => EntityKind::Formal(formal.mode),
                FormalKind::Discriminant => EntityKind::Discriminant,
            };
            self.introduce_all(&formal.names, kind, at(subtypes, place))?;
        }
        Ok(())
    }

    /// Resolves discriminants, and declares them (RM 3.7).
    pub(crate) fn discriminants(&mut self, formals: &[Formal]) -> Result<(), AllocError> {
        let subtypes = self.formal_subtypes(formals)?;
        self.declare_formals(formals, FormalKind::Discriminant, subtypes.as_slice())
    }

    // Resolves names of formal parameters that repeat those of this subprogram or entry.
    fn repeated_names(
        &mut self,
        owner: EntityId,
        identifiers: &[Identifier],
    ) -> Result<(), AllocError> {
        for identifier in identifiers {
            let formal = self.names.part_named(owner, &identifier.name);
            self.note_entity(identifier, formal)?;
        }
        Ok(())
    }

    /// Resolves formal parameters in a body, which repeat those of this subprogram or entry (RM 6.3(4)).
    pub(crate) fn repeated_formals(
        &mut self,
        owner: EntityId,
        formals: &[Formal],
    ) -> Result<(), AllocError> {
        for formal in formals {
            self.repeated_names(owner, &formal.names)?;
            self.formal_subtype(formal)?;
        }
        Ok(())
    }

    /// Resolves the values of aspects (RM 13.1.1).
    pub(crate) fn aspects(&mut self, aspects: &[Aspect]) -> Result<(), AllocError> {
        for aspect in aspects {
            if !is_among(&aspect.name, &WORD_ASPECTS) {
                self.optional_expression(aspect.value.as_ref(), None)?;
            }
        }
        Ok(())
    }

    /// Resolves the arguments of a pragma that are names of the program or expressions (RM 2.8).
    pub(crate) fn pragma(&mut self, pragma: &Pragma) -> Result<(), AllocError> {
        if is_among(&pragma.name, &NAME_PRAGMAS) {
            for argument in &pragma.arguments {
                self.expression(&argument.value, None)?;
            }
        }
        Ok(())
    }

    /// Resolves the arguments of pragmas.
    pub(crate) fn pragmas(&mut self, pragmas: &[Pragma]) -> Result<(), AllocError> {
        for pragma in pragmas {
            self.pragma(pragma)?;
        }
        Ok(())
    }
}
