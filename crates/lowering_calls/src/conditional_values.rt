//! If expressions (RM 4.5.7) with calls that are to be statements, as the value of an assignment or a return statement: they become if statements.

use crate::conditions::has_call;
use crate::results::LargeFunctions;
use ada2012_lexer::Span;
use ada2012_tree::{Condition, Expr, ExprKind, Statement};
use lowering_text::{Changes, Whole, put_all};
use std::alloc::AllocError;

// The conditions and the last value of an if expression.
fn parts_of(e: &Expr) -> Option<(&[Condition], &Expr)> {
    match &e.kind {
        ExprKind::Conditional(conditions, other) => Some((conditions.as_slice(), other)),
        ExprKind::Parenthesized(inner) => match &inner.kind {
            ExprKind::Conditional(conditions, other) => Some((conditions.as_slice(), other)),
            _ => None,
        },
        _ => None,
    }
}

// `if A then HEAD B; else HEAD C; end if;`.
fn branches_of(
    changes: &Changes<'_>,
    head: &[u8],
    conditions: &[Condition],
    other: &Expr,
) -> Result<Vec<u8>, AllocError> {
    let mut words = Vec::new(changes.alloc);
    for own in conditions {
        let condition = changes.copied(own.condition.span)?;
        let value = changes.copied(own.value.span)?;
        if words.is_empty() {
            words.extend_from_slice(b"if ")?;
        } else {
            words.extend_from_slice(b" elsif ")?;
        }
        let parts = [
            condition.as_slice(),
            b" then ",
            head,
            value.as_slice(),
            b";",
        ];
        put_all(&mut words, &parts)?;
    }
    let value = changes.copied(other.span)?;
    let parts = [b" else ", head, value.as_slice(), b"; end if;"];
    put_all(&mut words, &parts)?;
    Ok(words)
}

fn write_branches(
    changes: &mut Changes<'_>,
    large: &LargeFunctions<'_>,
    span: Span,
    head: &[u8],
    value: &Expr,
) -> Result<(), AllocError> {
    if !has_call(large, value.span) {
        return Ok(());
    }
    match parts_of(value) {
        Some((conditions, other)) => {
            let words = branches_of(changes, head, conditions, other)?;
            changes.replace(span, words, None)
        }
        None => Ok(()),
    }
}

fn conditional_value(
    changes: &mut Changes<'_>,
    whole: &Whole<'_>,
    large: &LargeFunctions<'_>,
    statement: &Statement,
) -> Result<(), AllocError> {
    match statement {
        Statement::Assignment(span, target, value) if !whole.may_call(target.span) => {
            let target = changes.copied(target.span)?;
            let head = changes.joined(&[target.as_slice(), b" := "])?;
            write_branches(changes, large, *span, &head, value)
        }
        Statement::Return(span, Some(value)) => {
            write_branches(changes, large, *span, "return ".as_bytes(), value)
        }
        _ => Ok(()),
    }
}

/// The first if expression with such a call that is all of the value of an assignment or a return statement.
pub(crate) fn lower_conditional_values(
    changes: &mut Changes<'_>,
    whole: &Whole<'_>,
    large: &LargeFunctions<'_>,
) -> Result<(), AllocError> {
    for statement in whole.parts.statements.as_slice() {
        if changes.requests.is_empty() {
            conditional_value(changes, whole, large, statement)?;
        }
    }
    Ok(())
}
