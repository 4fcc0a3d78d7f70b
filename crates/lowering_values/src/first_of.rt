//! Values at which objects start in the language without being told: the first of the subtype, and False.

use ada2012_names::{EntityId, EntityKind, Predefined, TypeForm};
use ada2012_tree::{AttributeName, Declaration, Expr, ExprKind, Selector, TypeDefinition};
use lowering_text::{Known, Whole, associations_of, is_aggregate, is_attribute, value_of};
use lowering_types::part_of;

// The first value of a subtype of an integer type, where literals give it.
fn first_number(whole: &Whole<'_>, id: EntityId) -> Option<i64> {
    match whole.names.predefined(id) {
        Some(Predefined::Natural) => return Some(0),
        Some(Predefined::Positive) => return Some(1),
        Some(_) => return None,
        None => {}
    }
    for declaration in whole.parts.declarations.as_slice() {
        let (name, first) = match declaration {
            Declaration::Type(own) => match &own.definition {
                TypeDefinition::Integer(range) => (own.name.span, &range.first),
                _ => continue,
            },
            Declaration::Subtype(_, name, subtype, _) => match &subtype.range {
                Some(range) => (name.span, &range.first),
                None => continue,
            },
            _ => continue,
        };
        if whole.declared(name) == Some(id) {
            return match value_of(first) {
                Known::Value(value) => Some(value),
                _ => None,
            };
        }
    }
    None
}

// Is a name False, or the first literal of an enumeration type?
fn is_first_literal(whole: &Whole<'_>, e: &Expr, id: EntityId) -> bool {
    let ExprKind::Name(name) = &e.kind else {
        return false;
    };
    if !name.selectors.is_empty() || whole.names.type_of(id) != id {
        return false;
    }
    match whole.denoted(name.prefix.span) {
        Some(literal) => matches!(whole.names.kind_of(literal), Some(EntityKind::Literal(0))),
        None => false,
    }
}

// Is a name the attribute First of this subtype?
fn is_first_attribute(whole: &Whole<'_>, e: &Expr, id: EntityId) -> bool {
    let ExprKind::Name(name) = &e.kind else {
        return false;
    };
    match name.selectors.as_slice() {
        [Selector::Attribute(_, AttributeName::Identifier(attribute))] => {
            is_attribute(attribute, "FIRST") && whole.denoted(name.prefix.span) == Some(id)
        }
        _ => false,
    }
}

// Is a value the one at which a scalar object of a subtype starts?
fn is_first_scalar(whole: &Whole<'_>, e: &Expr, id: EntityId) -> bool {
    match value_of(e) {
        Known::Value(value) => first_number(whole, id) == Some(value),
        _ => is_first_literal(whole, e, id) || is_first_attribute(whole, e, id),
    }
}

// Is each value of an aggregate of a record of scalar components the one at which its component starts?
fn is_first_record(whole: &Whole<'_>, e: &Expr, id: EntityId) -> bool {
    let owner = whole.names.type_of(id);
    for (place, association) in associations_of(e).iter().enumerate() {
        let Some(part) = part_of(whole, owner, place, association) else {
            return false;
        };
        let Some(subtype) = whole.names.subtype_of(part) else {
            return false;
        };
        if association.choices.len() > 1 || !is_first_scalar(whole, &association.value, subtype) {
            return false;
        }
    }
    true
}

// Is a value of a component of an array the one at which this starts?
fn is_first_component(whole: &Whole<'_>, e: &Expr, id: EntityId) -> bool {
    if is_aggregate(e) {
        matches!(whole.names.form_of(id), Some(TypeForm::Record)) && is_first_record(whole, e, id)
    } else {
        is_first_scalar(whole, e, id)
    }
}

// Is each value of an aggregate the one at which its component starts: of a record of scalars, or of an array of scalars or such records?
fn is_first_aggregate(whole: &Whole<'_>, e: &Expr, id: EntityId) -> bool {
    let owner = whole.names.type_of(id);
    let associations = associations_of(e);
    match whole.names.form_of(id) {
        Some(TypeForm::Array) => match whole.names.subtype_of(owner) {
            Some(component) => associations.iter().all(|association| {
                is_first_component(whole, &association.value, component)
            }),
            None => false,
        },
        Some(TypeForm::Record) => is_first_record(whole, e, id),
        _ => false,
    }
}

/// Is an aggregate the value at which an object of a subtype starts?
pub(crate) fn is_first(whole: &Whole<'_>, e: &Expr, id: EntityId) -> bool {
    is_aggregate(e) && is_first_aggregate(whole, e, id)
}
