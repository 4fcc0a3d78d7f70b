//! Short-circuit control forms (RM 4.5.1) with calls that are to be statements: they are evaluated by if statements before the statement that they are in.

use crate::conditions::has_call;
use crate::results::{
    LargeFunctions, begin_before, has_operation, is_first_part, is_read_after, start_of_part,
};
use ada2012_tree::{BinaryOperator, Expr, ExprKind, Operand, Statement};
use lowering_text::{Changes, Whole, put_all, span_of_statement, statement_around};
use std::alloc::AllocError;

fn is_short_circuit(operator: BinaryOperator) -> bool {
    matches!(operator, BinaryOperator::AndThen | BinaryOperator::OrElse)
}

// Is a call that is to be a statement in an operand after the first of a short-circuit control form?
fn has_later_call(large: &LargeFunctions<'_>, operands: &[Operand]) -> bool {
    for operand in operands {
        if is_short_circuit(operand.operator) && has_call(large, operand.value.span) {
            return true;
        }
    }
    false
}

// `C := A; if C then C := B; end if; ` for `A and then B`, `if not C` for `or else`.
fn evaluation_of(
    changes: &Changes<'_>,
    name: &[u8],
    first: &Expr,
    operands: &[Operand],
) -> Result<Vec<u8>, AllocError> {
    let value = changes.copied(first.span)?;
    let mut words = changes.joined(&[name, b" := ", value.as_slice(), b"; "])?;
    for operand in operands {
        let value = changes.copied(operand.value.span)?;
        if operand.operator == BinaryOperator::AndThen {
            words.extend_from_slice(b"if ")?;
        } else {
            words.extend_from_slice(b"if not ")?;
        }
        let parts = [
            name,
            b" then ",
            name,
            b" := ",
            value.as_slice(),
            b"; end if; ",
        ];
        put_all(&mut words, &parts)?;
    }
    Ok(words)
}

// Evaluates a short-circuit control form before its statement, where nothing comes before it in that.
fn evaluate_before(
    changes: &mut Changes<'_>,
    whole: &Whole<'_>,
    statement: &Statement,
    e: &Expr,
    first: &Expr,
    operands: &[Operand],
) -> Result<(), AllocError> {
    let (place, from) = (e.span.start, span_of_statement(statement).start);
    let Some(begin) = begin_before(changes, whole, from) else {
        return Ok(());
    };
    let part = start_of_part(statement, place);
    if !is_first_part(statement, place)
        || !is_read_after(changes, whole, part, place)
        || has_operation(whole, part, place)
    {
        return Ok(());
    }
    let name = changes
        .source
        .fresh_word(changes.alloc, "Condition".as_bytes(), &[])?;
    let words = evaluation_of(changes, &name, first, operands)?;
    changes.declare(begin, &name, "Boolean".as_bytes())?;
    changes.insert(from, &words)?;
    changes.write(e.span, &name)
}

/// The first short-circuit control form that has a call in an operand after the first one.
pub(crate) fn lower_short_circuits(
    changes: &mut Changes<'_>,
    whole: &Whole<'_>,
    large: &LargeFunctions<'_>,
) -> Result<(), AllocError> {
    for e in whole.parts.expressions.as_slice() {
        if let ExprKind::Chain(first, operands) = &e.kind {
            if changes.requests.is_empty() && has_later_call(large, operands) {
                if let Some(statement) = statement_around(whole.parts, e.span.start) {
                    evaluate_before(changes, whole, statement, e, first, operands)?;
                }
            }
        }
    }
    Ok(())
}
