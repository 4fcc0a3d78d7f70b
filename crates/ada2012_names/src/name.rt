//! Names (RM 4.1), and what is associated in parentheses and aggregates (RM 4.3, 6.4.1).

use crate::entity::{EntityId, TypeForm};
use crate::part::{Applied, Part};
use crate::resolver::Resolver;
use ada2012_tree::{Association, Choice, Expr, ExprKind, Identifier, Name, Range, Selector};
use std::alloc::AllocError;

/// The identifier that an expression is, if it is one and nothing else.
pub(crate) fn bare_identifier(value: &Expr) -> Option<&Identifier> {
    match &value.kind {
        ExprKind::Name(name) if name.selectors.is_empty() => Some(&name.prefix),
        _ => None,
    }
}

// The identifier that a choice is, if it is one and nothing else.
fn chosen_identifier(choice: &Choice) -> Option<&Identifier> {
    match choice {
        Choice::Value(value) => bare_identifier(value),
        _ => None,
    }
}

impl Resolver {
    /// Resolves a name, at a place where a value of this type is expected.
    #[cycle(expression)]
    pub(crate) fn name(
        &mut self,
        name: &Name,
        expected: Option<EntityId>,
    ) -> Result<Part, AllocError> {
        let mut part = self.resolve(&name.prefix, expected)?;
        for selector in &name.selectors {
            part = self.selector(selector, part, expected)?;
        }
        Ok(part)
    }

    // Resolves what follows a part of a name.
    #[cycle(expression)]
    fn selector(
        &mut self,
        selector: &Selector,
        part: Part,
        expected: Option<EntityId>,
    ) -> Result<Part, AllocError> {
        match selector {
            Selector::Component(_, identifier) => self.select(part, identifier, expected),
            Selector::Arguments(_, associations) => self.arguments(associations, part),
            Selector::Attribute(_, name) => Ok(self.names.attribute(part, name)),
            Selector::Qualified(_, operand) => {
                let subtype = self.names.subtype_of_part(part);
                self.expression(operand, subtype)?;
                Ok(Part::Value(subtype))
            }
        }
    }

    // Resolves a list in parentheses after a part of a name.
    #[cycle(expression)]
    fn arguments(&mut self, associations: &[Association], part: Part) -> Result<Part, AllocError> {
        match self.names.applied(part) {
            Applied::Parts(owner, gives) => {
                self.associate(associations, Some(owner))?;
                Ok(Part::Value(gives))
            }
            Applied::Values(of, gives) => {
                self.values(associations, of)?;
                Ok(Part::Value(gives))
            }
            Applied::Unknown => {
                self.associate(associations, None)?;
                Ok(Part::Unknown)
            }
        }
    }

    // Resolves associations with the formal parameters, discriminants, components or indexes of an entity, by place or by name.
    #[cycle(expression)]
    fn associate(
        &mut self,
        associations: &[Association],
        owner: Option<EntityId>,
    ) -> Result<(), AllocError> {
        for (place, association) in associations.iter().enumerate() {
            let part = if association.choices.is_empty() {
                self.part_at(owner, place)
            } else {
                self.named_parts(&association.choices, owner)?
            };
            let expected = self.subtype_of(part);
            self.expression(&association.value, expected)?;
        }
        Ok(())
    }

    fn part_at(&self, owner: Option<EntityId>, place: usize) -> Option<EntityId> {
        self.names.part_at(owner?, place)
    }

    fn part_named(&self, owner: Option<EntityId>, identifier: &Identifier) -> Option<EntityId> {
        self.names.part_named(owner?, &identifier.name)
    }

    fn subtype_of(&self, id: Option<EntityId>) -> Option<EntityId> {
        self.names.subtype_of(id?)
    }

    // Resolves choices that name parts of an entity, and returns the last of these.
    fn named_parts(
        &mut self,
        choices: &[Choice],
        owner: Option<EntityId>,
    ) -> Result<Option<EntityId>, AllocError> {
        let mut last = None;
        for choice in choices {
            if let Some(identifier) = chosen_identifier(choice) {
                last = self.part_named(owner, identifier);
                self.note_entity(identifier, last)?;
            }
        }
        Ok(last)
    }

    // Resolves what is associated by place with values of one subtype.
    #[cycle(expression)]
    fn values(
        &mut self,
        associations: &[Association],
        expected: Option<EntityId>,
    ) -> Result<(), AllocError> {
        for association in associations {
            self.expression(&association.value, expected)?;
        }
        Ok(())
    }

    // Resolves an aggregate of an array type: its choices are values of its index.
    #[cycle(expression)]
    fn array_aggregate(
        &mut self,
        associations: &[Association],
        array: EntityId,
    ) -> Result<(), AllocError> {
        let index = self.subtype_of(self.names.part_at(array, 0));
        let component = self.names.subtype_of(array);
        for association in associations {
            self.choices(&association.choices, index)?;
            self.expression(&association.value, component)?;
        }
        Ok(())
    }

    /// Resolves an aggregate, at a place where this type is expected (RM 4.3).
    #[cycle(expression)]
    pub(crate) fn aggregate(
        &mut self,
        associations: &[Association],
        expected: Option<EntityId>,
    ) -> Result<(), AllocError> {
        let of = match expected {
            Some(subtype) => Some(self.names.type_of(subtype)),
            None => None,
        };
        match of {
            Some(array) if self.is_array(array) => self.array_aggregate(associations, array),
            _ => self.associate(associations, of),
        }
    }

    fn is_array(&self, id: EntityId) -> bool {
        matches!(self.names.form_of(id), Some(TypeForm::Array))
    }

    /// Resolves choices of a case, a membership test or an array aggregate, where a value of this type is expected.
    #[cycle(expression)]
    pub(crate) fn choices(
        &mut self,
        choices: &[Choice],
        expected: Option<EntityId>,
    ) -> Result<(), AllocError> {
        for choice in choices {
            match choice {
                Choice::Value(value) => {
                    self.expression(value, expected)?;
                }
                Choice::Range(range) => {
                    self.range(range, expected)?;
                }
                Choice::Others(_) => {}
            }
        }
        Ok(())
    }

    /// Resolves two bounds, and returns their subtype, which of two literals isn't known.
    #[cycle(expression)]
    pub(crate) fn range(
        &mut self,
        range: &Range,
        expected: Option<EntityId>,
    ) -> Result<Option<EntityId>, AllocError> {
        let first = self.expression(&range.first, expected)?;
        let last = self.expression(&range.last, first.or(expected))?;
        Ok(first.or(last))
    }
}
