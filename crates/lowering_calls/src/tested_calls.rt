//! Calls that are the values of membership tests (RM 4.5.2): they are evaluated once, before the statement that they are in.

use crate::results::{begin_before, has_operation, is_first_part, is_read_after, start_of_part};
use ada2012_names::{EntityId, Predefined};
use ada2012_tree::{Expr, ExprKind};
use lowering_text::{
    Changes, Whole, leading_identifier, name_of, span_of_statement, statement_around,
};
use std::alloc::AllocError;

// The subtype of the result of a function, as it is written.
fn result_of<'a>(
    changes: &Changes<'a>,
    whole: &Whole<'_>,
    function: EntityId,
) -> Result<Option<Vec<u8>>, AllocError> {
    if whole.names.predefined(function) == Some(Predefined::Read) {
        return Ok(Some(changes.joined(&[b"Integer"])?));
    }
    for specification in whole.parts.specifications.as_slice() {
        if let Some(result) = &specification.result {
            if whole.declared(specification.name.span) == Some(function) {
                return Ok(Some(changes.copied(result.span)?));
            }
        }
    }
    Ok(None)
}

// The function that a value calls, if it is a call.
fn called_function(whole: &Whole<'_>, value: &Expr) -> Option<EntityId> {
    let (last, _) = leading_identifier(name_of(value)?);
    let id = whole.denoted(last)?;
    if whole.is_callable(id) {
        Some(id)
    } else {
        None
    }
}

// Puts a call into an object before its statement, where nothing comes before it in that.
fn take_out_tested(
    changes: &mut Changes<'_>,
    whole: &Whole<'_>,
    value: &Expr,
) -> Result<(), AllocError> {
    let place = value.span.start;
    let (Some(function), Some(statement)) = (
        called_function(whole, value),
        statement_around(whole.parts, place),
    ) else {
        return Ok(());
    };
    let from = span_of_statement(statement).start;
    let Some(begin) = begin_before(changes, whole, from) else {
        return Ok(());
    };
    let part = start_of_part(statement, place);
    if !is_first_part(statement, place)
        || !is_read_after(changes, whole, part, place)
        || has_operation(whole, part, place)
    {
        return Ok(());
    }
    let Some(subtype) = result_of(changes, whole, function)? else {
        return Ok(());
    };
    let name = changes
        .source
        .fresh_word(changes.alloc, "Tested".as_bytes(), &[])?;
    let text = changes.copied(value.span)?;
    let words = changes.joined(&[name.as_slice(), b" := ", text.as_slice(), b"; "])?;
    changes.declare(begin, &name, &subtype)?;
    changes.insert(from, &words)?;
    changes.write(value.span, &name)
}

/// Calls that are values of membership tests, one of each body.
pub fn lower_tested_calls(changes: &mut Changes<'_>, whole: &Whole<'_>) -> Result<(), AllocError> {
    for e in whole.parts.expressions.as_slice() {
        if let ExprKind::Membership(value, _, _) = &e.kind {
            if whole.may_call(value.span) {
                take_out_tested(changes, whole, value)?;
            }
        }
    }
    Ok(())
}
