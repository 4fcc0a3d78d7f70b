//! Functions as procedures with a parameter for the result (RM 6.1, 6.5), where each call is all of the value of an assignment.

use crate::results::{Large, LargeCall, LargeFunctions, is_assigned, is_in_only, large_functions};
use ada2012_lexer::Span;
use ada2012_tree::{Body, Specification, Statement};
use lowering_text::{Changes, Whole, is_within, span_of, span_of_statement, statement_around};
use std::alloc::AllocError;

fn after(place: u32) -> Span {
    Span {
        start: place,
        end_: place,
    }
}

// Does a sequence of statements end with one after which none follows?
fn ends_with_return(statements: &[Statement]) -> bool {
    match statements {
        [.., last] => matches!(last, Statement::Return(_, _) | Statement::Raise(_, _, _)),
        [] => false,
    }
}

// Is each call of a function all of the value of an assignment?
fn are_assigned(whole: &Whole<'_>, calls: &[LargeCall<'_>], function: &Large<'_>) -> bool {
    calls.iter().all(|call| {
        if call.function.id != function.id {
            return true;
        }
        match statement_around(whole.parts, call.span.start) {
            Some(statement) => is_assigned(statement, call),
            None => false,
        }
    })
}

// `function F (A : T) return S` as `procedure F (A : T; R : out S)`.
fn procedure_specification(
    changes: &mut Changes<'_>,
    specification: &Specification,
    formal: &[u8],
) -> Result<(), AllocError> {
    let Some(result) = &specification.result else {
        return Ok(());
    };
    let Some(return_) = changes.source.token_before(result.span.start) else {
        return Ok(());
    };
    let subtype = changes.copied(result.span)?;
    let subtype = subtype.as_slice();
    if specification.formals.is_empty() {
        let words = changes.joined(&[b" (", formal, b" : out ", subtype, b")"])?;
        changes.replace(after(specification.name.span.end_), words, None)?;
    } else if let Some(close) = changes.source.token_before(return_.start) {
        let words = changes.joined(&[b"; ", formal, b" : out ", subtype])?;
        changes.replace(after(close.start), words, None)?;
    }
    if let Some(function) = changes.source.token_from(specification.span.start) {
        changes.write(span_of(function), "procedure".as_bytes())?;
    }
    changes.write(span_of(return_), &[])?;
    changes.write(result.span, &[])
}

// The specifications of a function.
fn procedure_specifications(
    changes: &mut Changes<'_>,
    whole: &Whole<'_>,
    function: &Large<'_>,
    formal: &[u8],
) -> Result<(), AllocError> {
    for specification in whole.parts.specifications.as_slice() {
        if whole.declared(specification.name.span) == Some(function.id) {
            procedure_specification(changes, specification, formal)?;
        }
    }
    Ok(())
}

// `return E;` as `R := E; return;`.
fn procedure_return(
    changes: &mut Changes<'_>,
    span: Span,
    formal: &[u8],
) -> Result<(), AllocError> {
    let Some(return_) = changes.source.token_from(span.start) else {
        return Ok(());
    };
    let words = changes.joined(&[formal, b" :="])?;
    changes.replace(span_of(return_), words, None)?;
    changes.insert(span.end_, " return;".as_bytes())
}

// The return statements of the body of a function.
fn procedure_returns(
    changes: &mut Changes<'_>,
    whole: &Whole<'_>,
    body: &Body,
    formal: &[u8],
) -> Result<(), AllocError> {
    for statement in whole.parts.statements.as_slice() {
        if let Statement::Return(span, Some(_)) = statement {
            if is_within(span.start, body.span) {
                procedure_return(changes, *span, formal)?;
            }
        }
    }
    Ok(())
}

// What a function does whose statements end without a return: it raises Program_Error (RM 6.5(20)).
fn raise_at_end(changes: &mut Changes<'_>, statements: &[Statement]) -> Result<(), AllocError> {
    match statements {
        [.., last] if !ends_with_return(statements) => {
            changes.insert(
                span_of_statement(last).end_,
                " raise Program_Error;".as_bytes(),
            )
        }
        _ => Ok(()),
    }
}

fn raise_at_ends(changes: &mut Changes<'_>, body: &Body) -> Result<(), AllocError> {
    raise_at_end(changes, &body.statements)?;
    for handler in body.handlers.as_slice() {
        raise_at_end(changes, &handler.statements)?;
    }
    Ok(())
}

// A call with the name of one more actual parameter.
fn call_with(
    changes: &Changes<'_>,
    call: &LargeCall<'_>,
    target: Span,
) -> Result<Vec<u8>, AllocError> {
    let target = changes.copied(target)?;
    let target = target.as_slice();
    match changes.source.token_before(call.span.end_) {
        Some(close) if call.has_actuals() => {
            let beginning = changes.copied(Span {
                start: call.span.start,
                end_: close.start,
            })?;
            changes.joined(&[beginning.as_slice(), b", ", target, b")"])
        }
        _ => {
            let name = changes.copied(call.span)?;
            changes.joined(&[name.as_slice(), b" (", target, b")"])
        }
    }
}

// `X := F (A);` as `F (A, X);`.
fn procedure_call(
    changes: &mut Changes<'_>,
    whole: &Whole<'_>,
    call: &LargeCall<'_>,
) -> Result<(), AllocError> {
    let Some(Statement::Assignment(_, target, _)) = statement_around(whole.parts, call.span.start)
    else {
        return Ok(());
    };
    let Some(mark) = changes.source.token_from(target.span.end_) else {
        return Ok(());
    };
    let words = call_with(changes, call, target.span)?;
    changes.replace(target.span, words, None)?;
    changes.write(span_of(mark), &[])?;
    changes.write(call.span, &[])
}

fn procedure_calls(
    changes: &mut Changes<'_>,
    whole: &Whole<'_>,
    calls: &[LargeCall<'_>],
    function: &Large<'_>,
) -> Result<(), AllocError> {
    for call in calls {
        if call.function.id == function.id {
            procedure_call(changes, whole, call)?;
        }
    }
    Ok(())
}

// A function as a procedure.
fn function_as_procedure(
    changes: &mut Changes<'_>,
    whole: &Whole<'_>,
    large: &LargeFunctions<'_>,
    function: &Large<'_>,
) -> Result<(), AllocError> {
    let name = changes.source.bytes(function.specification.name.span);
    let formal = changes
        .source
        .fresh_word(changes.alloc, name, "_Result".as_bytes())?;
    procedure_specifications(changes, whole, function, &formal)?;
    procedure_returns(changes, whole, function.body, &formal)?;
    raise_at_ends(changes, function.body)?;
    procedure_calls(changes, whole, &large.calls, function)
}

/// Functions that can't stay functions, and whose calls are all values of assignments, as procedures.
pub fn lower_procedures(changes: &mut Changes<'_>, whole: &Whole<'_>) -> Result<(), AllocError> {
    let large = large_functions(whole, changes.alloc)?;
    for function in large.functions.as_slice() {
        if is_in_only(&function.specification.formals)
            && are_assigned(whole, &large.calls, function)
        {
            function_as_procedure(changes, whole, &large, function)?;
        }
    }
    Ok(())
}
