//! Values that are known to be in the subtypes of what they are assigned to: no exception is raised there (RM 3.5, 4.6).

use ada2012_lexer::Span;
use ada2012_names::{EntityId, EntityKind, Predefined};
use ada2012_tree::{Association, Declaration, Expr, ExprKind, Name, Range, TypeDefinition};
use lowering_text::{Known, Whole, value_of};
use lowering_types::{is_array, static_value, subtype_of_value};

fn static_bounds(whole: &Whole<'_>, range: &Range) -> Option<(i64, i64)> {
    Some((
        static_value(whole, &range.first)?,
        static_value(whole, &range.last)?,
    ))
}

// The range by which an integer type or a subtype is declared.
fn declared_range<'a>(whole: &Whole<'a>, declared: Span) -> Option<&'a Range> {
    for declaration in whole.parts.declarations.as_slice() {
        match declaration {
            Declaration::Type(own) if own.name.span == declared => {
                return match &own.definition {
                    TypeDefinition::Integer(range) => Some(range),
                    _ => None,
                };
            }
            Declaration::Subtype(_, name, indication, _) if name.span == declared => {
                return indication.range.as_ref();
            }
            _ => {}
        }
    }
    None
}

/// The least and the greatest value of an integer subtype, where they are known.
pub(crate) fn bounds_of(whole: &Whole<'_>, subtype: EntityId) -> Option<(i64, i64)> {
    match whole.names.predefined(subtype) {
        Some(Predefined::Integer) => Some((i64::MIN, i64::MAX)),
        Some(Predefined::Natural) => Some((0, i64::MAX)),
        Some(Predefined::Positive) => Some((1, i64::MAX)),
        Some(_) => None,
        None => static_bounds(
            whole,
            declared_range(whole, whole.names.entity(subtype)?.span)?,
        ),
    }
}

// Is it a constant of this subtype, or a literal of this type?
fn is_of_subtype(whole: &Whole<'_>, name: &Name, subtype: EntityId) -> bool {
    let Some(id) = whole.denoted(name.prefix.span) else {
        return false;
    };
    if !name.selectors.is_empty() {
        return false;
    }
    match whole.names.kind_of(id) {
        Some(EntityKind::Constant) => whole.names.subtype_of(id) == Some(subtype),
        Some(EntityKind::Literal(_)) => whole.names.type_of(subtype) == subtype,
        _ => false,
    }
}

// Is a value known to be in a subtype?
fn is_fixed(whole: &Whole<'_>, e: &Expr, subtype: EntityId) -> bool {
    if let Known::Value(value) = value_of(e) {
        return match bounds_of(whole, subtype) {
            Some((first, last)) => first <= value && value <= last,
            None => false,
        };
    }
    match &e.kind {
        ExprKind::Name(name) => is_of_subtype(whole, name, subtype),
        _ => false,
    }
}

/// Are all values of an aggregate known to be in the subtypes of its components? Those for several components of a record are not.
pub(crate) fn are_fixed(
    whole: &Whole<'_>,
    subtype: EntityId,
    associations: &[Association],
) -> bool {
    let owner = whole.names.type_of(subtype);
    for (place, association) in associations.iter().enumerate() {
        if association.choices.len() > 1 && !is_array(whole, owner) {
            return false;
        }
        match subtype_of_value(whole, owner, place, association) {
            Some(own) if is_fixed(whole, &association.value, own) => {}
            _ => return false,
        }
    }
    true
}
