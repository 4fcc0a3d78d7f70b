//! What a part of a name is (RM 4.1), and what may be applied to it.

use crate::entity::{Denoted, EntityId, EntityKind, TypeForm};
use crate::table::Names;

/// What a name denotes, as far as it has been read.
#[derive(Clone, Copy)]
pub(crate) enum Part {
    Unknown,
    Entity(EntityId),
    /// A value or an object that has no declaration of its own, of this subtype.
    Value(Option<EntityId>),
    /// An attribute of an argument: the subtype of the argument, and of its value.
    Attribute {
        of: Option<EntityId>,
        gives: Option<EntityId>,
    },
}

/// What is applied to a list in parentheses.
#[derive(Clone, Copy)]
pub(crate) enum Applied {
    Unknown,
    /// What is in the list is associated with the parts of this entity: parameters, discriminants or indexes. What the whole gives has this subtype.
    Parts(EntityId, Option<EntityId>),
    /// Each of the list has the first subtype, and the whole the second one.
    Values(Option<EntityId>, Option<EntityId>),
}

impl Part {
    /// What an identifier that denotes this is. An ambiguous one isn't known.
    pub(crate) fn of(denoted: Denoted) -> Part {
        match denoted {
            Denoted::Entity(id) => Part::Entity(id),
            _ => Part::Unknown,
        }
    }
}

impl Names {
    /// The subtype of the value of a part: what is named by a subtype is that subtype.
    pub(crate) fn subtype_of_part(&self, part: Part) -> Option<EntityId> {
        match part {
            Part::Unknown => None,
            Part::Entity(id) => match self.kind_of(id) {
                Some(kind) if kind.is_subtype() => Some(id),
                _ => self.subtype_of(id),
            },
            Part::Value(subtype) => subtype,
            Part::Attribute { of: _, gives } => gives,
        }
    }

    /// The type of the value of a part.
    pub(crate) fn type_of_part(&self, part: Part) -> Option<EntityId> {
        Some(self.type_of(self.subtype_of_part(part)?))
    }

    // Has a type discriminants?
    fn has_discriminants(&self, id: EntityId) -> bool {
        match self.part_at(id, 0) {
            Some(first) => matches!(self.kind_of(first), Some(EntityKind::Discriminant)),
            None => false,
        }
    }

    // What a list after the name of a subtype is: a constraint of discriminants, or the operand of a conversion.
    fn applied_subtype(&self, id: EntityId) -> Applied {
        let of = self.type_of(id);
        if self.has_discriminants(of) {
            Applied::Parts(of, Some(id))
        } else {
            Applied::Values(None, Some(id))
        }
    }

    // What a list after a value is: its indexes, where it is an array.
    fn applied_value(&self, part: Part) -> Applied {
        match self.type_of_part(part) {
            Some(of) => match self.kind_of(of) {
                Some(EntityKind::Type(TypeForm::Array)) => Applied::Parts(of, self.subtype_of(of)),
                _ => Applied::Unknown,
            },
            None => Applied::Unknown,
        }
    }

    /// The subtype of the components of a part, where that is an array.
    pub(crate) fn component_of(&self, part: Part) -> Option<EntityId> {
        match self.applied_value(part) {
            Applied::Parts(_, gives) => gives,
            _ => None,
        }
    }

    /// What a list in parentheses after a part is applied to.
    pub(crate) fn applied(&self, part: Part) -> Applied {
        match part {
            Part::Unknown => Applied::Unknown,
            Part::Attribute { of, gives } => Applied::Values(of, gives),
            Part::Value(_) => self.applied_value(part),
            Part::Entity(id) => match self.kind_of(id) {
                Some(kind) if kind.is_subtype() => self.applied_subtype(id),
                Some(kind) if kind.is_callable() && self.part_at(id, 0).is_some() => {
                    Applied::Parts(id, self.subtype_of(id))
                }
                _ => self.applied_value(part),
            },
        }
    }
}
