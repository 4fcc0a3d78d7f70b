//! Ranges of a subtype with bounds (RM 3.6.1, 5.5), `S range A .. B`: the bounds alone, or a subtype of its own.

use crate::constraints::is_of_packages;
use ada2012_lexer::Span;
use ada2012_names::{EntityId, EntityKind, Predefined};
use ada2012_tree::{DiscreteRange, Expr, Iteration, Range, Statement};
use lowering_text::{Changes, Known, Whole, name_of, start_of_item, value_of};
use std::alloc::AllocError;

// Is it a subtype of Integer?
fn is_of_integer(whole: &Whole<'_>, id: EntityId) -> bool {
    whole.names.predefined(whole.names.type_of(id)) == Some(Predefined::Integer)
}

// The subtype that an expression names.
fn subtype_named(whole: &Whole<'_>, e: &Expr) -> Option<EntityId> {
    whole.denoted_subtype(name_of(e)?)
}

// Is the type of an expression the same as that of a subtype?
fn is_of_type(whole: &Whole<'_>, e: &Expr, id: EntityId) -> bool {
    match whole.names.type_at(e.span) {
        Some(subtype) => whole.names.type_of(subtype) == whole.names.type_of(id),
        None => false,
    }
}

// Does the name of an object or a literal have a value of a subtype, whatever it is?
fn is_object_of(whole: &Whole<'_>, denoted: EntityId, id: EntityId) -> bool {
    match whole.names.kind_of(denoted) {
        Some(EntityKind::Literal(_)) => true,
        Some(_) => match whole.names.subtype_of(denoted) {
            Some(subtype) => subtype == id || whole.names.type_of(subtype) == id,
            None => false,
        },
        None => false,
    }
}

// Is a bound within a subtype, so that no check of it can fail?
fn is_inside(whole: &Whole<'_>, e: &Expr, id: EntityId) -> bool {
    if let Known::Value(_) = value_of(e) {
        return true;
    }
    match name_of(e) {
        Some(name) if name.selectors.is_empty() => match whole.denoted(name.prefix.span) {
            Some(denoted) => is_object_of(whole, denoted, id),
            None => false,
        },
        _ => false,
    }
}

// Has no bound of a range to be checked? A known first bound that isn't below 1 leaves none above it outside Natural and Positive.
fn is_unchecked(whole: &Whole<'_>, range: &Range, id: EntityId) -> bool {
    let counts = matches!(
        whole.names.predefined(id),
        Some(Predefined::Integer | Predefined::Natural | Predefined::Positive)
    );
    match value_of(&range.first) {
        Known::Value(first) if counts && first >= 1 => true,
        _ => {
            whole.names.predefined(id) == Some(Predefined::Integer)
                || is_inside(whole, &range.first, id) && is_inside(whole, &range.last, id)
        }
    }
}

// A bound as a conversion to a subtype.
fn converted(changes: &mut Changes<'_>, subtype: Span, bound: Span) -> Result<(), AllocError> {
    let subtype = changes.copied(subtype)?;
    let words = changes.joined(&[subtype.as_slice(), b" ("])?;
    changes.insert(bound.start, &words)?;
    changes.insert(bound.end_, ")".as_bytes())
}

// `S range A .. B` of a loop.
fn loop_range(
    changes: &mut Changes<'_>,
    whole: &Whole<'_>,
    id: EntityId,
    name: &Expr,
    range: &Range,
) -> Result<(), AllocError> {
    bounds_alone(changes, name, range)?;
    if is_of_integer(whole, id)
        || is_of_type(whole, &range.first, id)
        || is_of_type(whole, &range.last, id)
    {
        return Ok(());
    }
    converted(changes, name.span, range.first.span)?;
    converted(changes, name.span, range.last.span)
}

// `S range A .. B` of an array, whose bounds alone are of type Integer, as a subtype of its own.
fn index_subtype(
    changes: &mut Changes<'_>,
    whole: &Whole<'_>,
    span: Span,
    name: &Expr,
) -> Result<(), AllocError> {
    if !is_of_packages(whole, span) {
        return Ok(());
    }
    let Some(start) = start_of_item(whole, span) else {
        return Ok(());
    };
    let new = changes
        .source
        .fresh_name(changes.alloc, name.span, "_Index".as_bytes())?;
    let own = changes.copied(span)?;
    let words = changes.joined(&[b"subtype ", new.as_slice(), b" is ", own.as_slice(), b"; "])?;
    changes.insert(start, &words)?;
    changes.replace(span, new, None)
}

// The bounds without the name of the subtype.
fn bounds_alone(changes: &mut Changes<'_>, name: &Expr, range: &Range) -> Result<(), AllocError> {
    let words = Span {
        start: name.span.start,
        end_: range.first.span.start,
    };
    changes.write(words, &[])
}

fn lower_index(
    changes: &mut Changes<'_>,
    whole: &Whole<'_>,
    index: &DiscreteRange,
) -> Result<(), AllocError> {
    let DiscreteRange::Constrained(span, name, range) = index else {
        return Ok(());
    };
    match subtype_named(whole, name) {
        Some(id) if is_of_integer(whole, id) && is_unchecked(whole, range, id) => {
            bounds_alone(changes, name, range)
        }
        Some(_) => index_subtype(changes, whole, *span, name),
        None => Ok(()),
    }
}

// Loops over a subtype with bounds.
fn loop_ranges(changes: &mut Changes<'_>, whole: &Whole<'_>) -> Result<(), AllocError> {
    for statement in whole.parts.statements.as_slice() {
        if let Statement::Loop(
            _,
            _,
            Iteration::For(_, _, DiscreteRange::Constrained(_, name, range)),
            _,
        ) = statement
        {
            match subtype_named(whole, name) {
                Some(id) if is_unchecked(whole, range, id) => {
                    loop_range(changes, whole, id, name, range)?
                }
                _ => {}
            }
        }
    }
    Ok(())
}

/// Ranges of loops and indexes with a subtype and bounds: of indexes one in a round, since two subtypes may have one name.
pub fn lower_ranges(changes: &mut Changes<'_>, whole: &Whole<'_>) -> Result<(), AllocError> {
    loop_ranges(changes, whole)?;
    for array in whole.parts.arrays.as_slice() {
        for index in array.indexes.as_slice() {
            if changes.requests.is_empty() {
                lower_index(changes, whole, index)?;
            }
        }
    }
    Ok(())
}
