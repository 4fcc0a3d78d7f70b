//! Functions that return the value of one of several alternatives (RM 6.5): one return of an if expression (RM 4.5.7).

use ada2012_lexer::Span;
use ada2012_tree::{Body, Branch, Expr, Statement};
use lowering_text::{Changes, span_of};
use std::alloc::AllocError;

// The return statement that is all of these statements, and its value.
fn only_return(statements: &[Statement]) -> Option<(Span, &Expr)> {
    let [statement] = statements else {
        return None;
    };
    match statement {
        Statement::Return(span, Some(value)) => Some((*span, value)),
        _ => None,
    }
}

fn is_return(statements: &[Statement]) -> bool {
    only_return(statements).is_some()
}

fn are_returns(branches: &[Branch]) -> bool {
    branches.iter().all(|branch| is_return(&branch.statements))
}

// Leaves out `return` and the semicolon of the return statement that is all of these statements.
fn value_alone(changes: &mut Changes<'_>, statements: &[Statement]) -> Result<(), AllocError> {
    let Some((span, _)) = only_return(statements) else {
        return Ok(());
    };
    replace_token_from(changes, span.start, &[])?;
    replace_token_before(changes, span.end_, &[])
}

fn values_alone(changes: &mut Changes<'_>, branches: &[Branch]) -> Result<(), AllocError> {
    for branch in branches {
        value_alone(changes, &branch.statements)?;
    }
    Ok(())
}

// Writes these words for the token that begins at the place.
fn replace_token_from(
    changes: &mut Changes<'_>,
    place: u32,
    words: &[u8],
) -> Result<(), AllocError> {
    match changes.source.token_from(place) {
        Some(token) => changes.write(span_of(token), words),
        None => Ok(()),
    }
}

// Writes these words for the last token before the place.
fn replace_token_before(
    changes: &mut Changes<'_>,
    place: u32,
    words: &[u8],
) -> Result<(), AllocError> {
    match changes.source.token_before(place) {
        Some(token) => changes.write(span_of(token), words),
        None => Ok(()),
    }
}

// Leaves out `end if`, and writes these words for the semicolon after it.
fn close_condition(changes: &mut Changes<'_>, end: u32, words: &[u8]) -> Result<(), AllocError> {
    let Some(semicolon) = changes.source.token_before(end) else {
        return Ok(());
    };
    let Some(condition) = changes.source.token_before(semicolon.start) else {
        return Ok(());
    };
    replace_token_before(changes, condition.start, &[])?;
    changes.write(span_of(condition), &[])?;
    changes.write(span_of(semicolon), words)
}

// An if statement with an else part, all parts of which return.
fn return_of_parts(
    changes: &mut Changes<'_>,
    span: Span,
    branches: &[Branch],
    other: &[Statement],
) -> Result<(), AllocError> {
    replace_token_from(changes, span.start, "return (if".as_bytes())?;
    values_alone(changes, branches)?;
    value_alone(changes, other)?;
    close_condition(changes, span.end_, ");".as_bytes())
}

// An if statement without an else part, all parts of which return, and the return statement after it.
fn return_of_rest(
    changes: &mut Changes<'_>,
    span: Span,
    branches: &[Branch],
    rest: Span,
) -> Result<(), AllocError> {
    replace_token_from(changes, span.start, "return (if".as_bytes())?;
    values_alone(changes, branches)?;
    close_condition(changes, span.end_, &[])?;
    replace_token_from(changes, rest.start, "else".as_bytes())?;
    replace_token_before(changes, rest.end_, ");".as_bytes())
}

/// The body of a function that is an if statement whose parts all return, or one and a return statement after it, as one return of an if expression.
pub(crate) fn return_condition(changes: &mut Changes<'_>, body: &Body) -> Result<(), AllocError> {
    if !body.declarations.is_empty() || !body.handlers.is_empty() {
        return Ok(());
    }
    let [Statement::If(span, branches, other), rest @ ..] = body.statements.as_slice() else {
        return Ok(());
    };
    if !are_returns(branches) {
        return Ok(());
    }
    if rest.is_empty() && is_return(other) {
        return return_of_parts(changes, *span, branches, other);
    }
    match only_return(rest) {
        Some((after, _)) if other.is_empty() => return_of_rest(changes, *span, branches, after),
        _ => Ok(()),
    }
}
