//! Which indexes of an array an aggregate gives values (RM 4.3.3).

use crate::fixed::bounds_of;
use ada2012_names::{EntityId, EntityKind, TypeForm};
use ada2012_tree::{
    ArrayDefinition, Association, Choice, Declaration, DiscreteRange, Expr, TypeDefinition,
};
use lowering_text::{Whole, last_of, name_of};
use lowering_types::static_value;

/// The least and the greatest value of a range, numbers or places of literals.
#[derive(Clone, Copy)]
struct Bounds {
    first: i64,
    last: i64,
}

impl Bounds {
    fn count(&self) -> i64 {
        self.last.saturating_sub(self.first).saturating_add(1)
    }

    fn has(&self, inner: &Bounds) -> bool {
        self.first <= inner.first && inner.last <= self.last && inner.first <= inner.last
    }
}

// The value of an index: a number, or the place of a literal.
fn value_of_index(whole: &Whole<'_>, e: &Expr) -> Option<i64> {
    if let Some(value) = static_value(whole, e) {
        return Some(value);
    }
    let name = name_of(e)?;
    let id = whole.denoted(last_of(&name.prefix, &name.selectors)?.span)?;
    match whole.names.kind_of(id) {
        Some(EntityKind::Literal(place)) => i64::try_from(place).ok(),
        _ => None,
    }
}

fn bounds_between(whole: &Whole<'_>, first: &Expr, last: &Expr) -> Option<Bounds> {
    Some(Bounds {
        first: value_of_index(whole, first)?,
        last: value_of_index(whole, last)?,
    })
}

// The places of the literals of an enumeration type of the text.
fn places_of_literals(whole: &Whole<'_>, subtype: EntityId) -> Option<Bounds> {
    for declaration in whole.parts.declarations.as_slice() {
        if let Declaration::Type(own) = declaration {
            if let TypeDefinition::Enumeration(literals) = &own.definition {
                if whole.declared(own.name.span) == Some(subtype) {
                    let last = i64::try_from(literals.len()).ok()?.saturating_sub(1);
                    return Some(Bounds { first: 0, last });
                }
            }
        }
    }
    None
}

fn bounds_of_subtype(whole: &Whole<'_>, subtype: EntityId) -> Option<Bounds> {
    if whole.names.form_of(subtype) == Some(TypeForm::Enumeration) {
        return places_of_literals(whole, subtype);
    }
    let (first, last) = bounds_of(whole, subtype)?;
    Some(Bounds { first, last })
}

// The indexes of an array type with one index, where they are known.
fn indexes_of(whole: &Whole<'_>, definition: &ArrayDefinition) -> Option<Bounds> {
    let [index] = definition.indexes.as_slice() else {
        return None;
    };
    match index {
        DiscreteRange::Bounds(range) | DiscreteRange::Constrained(_, _, range) => {
            bounds_between(whole, &range.first, &range.last)
        }
        DiscreteRange::Name(e) => bounds_of_subtype(whole, whole.denoted_subtype(name_of(e)?)?),
    }
}

fn is_others(choice: &Choice) -> bool {
    matches!(choice, Choice::Others(_))
}

// How many indexes a choice names, if they are all of the array.
fn count_of_choice(whole: &Whole<'_>, indexes: &Bounds, choice: &Choice) -> Option<i64> {
    let chosen = match choice {
        Choice::Others(_) => return Some(0),
        Choice::Value(e) => bounds_between(whole, e, e)?,
        Choice::Range(range) => bounds_between(whole, &range.first, &range.last)?,
    };
    if indexes.has(&chosen) {
        Some(chosen.count())
    } else {
        None
    }
}

// How many indexes an association names, if they are all of the array.
fn count_of_association(
    whole: &Whole<'_>,
    indexes: &Bounds,
    association: &Association,
) -> Option<i64> {
    if association.choices.is_empty() {
        return Some(1);
    }
    let mut count = 0i64;
    for choice in association.choices.as_slice() {
        count = count.saturating_add(count_of_choice(whole, indexes, choice)?);
    }
    Some(count)
}

fn count_of_all(whole: &Whole<'_>, indexes: &Bounds, associations: &[Association]) -> Option<i64> {
    let mut count = 0i64;
    for association in associations {
        count = count.saturating_add(count_of_association(whole, indexes, association)?);
    }
    Some(count)
}

/// Has an aggregate `others`?
pub(crate) fn has_others(associations: &[Association]) -> bool {
    for association in associations {
        for choice in association.choices.as_slice() {
            if is_others(choice) {
                return true;
            }
        }
    }
    false
}

/// Does an aggregate give a value to each component of an array and to no other? Else it raises Constraint_Error.
pub(crate) fn gives_all(
    whole: &Whole<'_>,
    definition: &ArrayDefinition,
    associations: &[Association],
) -> bool {
    if let [association] = associations {
        if has_others(associations) && association.choices.len() == 1 {
            return true;
        }
    }
    let Some(indexes) = indexes_of(whole, definition) else {
        return false;
    };
    match count_of_all(whole, &indexes, associations) {
        Some(count) if has_others(associations) => count <= indexes.count(),
        Some(count) => count == indexes.count(),
        None => false,
    }
}
