//! Conditions with calls that are to be statements (RM 5.3, 5.5, 4.5.1): they become the conditions of if and exit statements, before which a call can be one.

use crate::conditional_values::lower_conditional_values;
use crate::results::{LargeFunctions, large_functions};
use crate::short_circuits::lower_short_circuits;
use ada2012_lexer::Span;
use ada2012_tree::{BinaryOperator, Branch, Expr, ExprKind, Iteration, Operand, Statement};
use lexer::Word;
use lowering_text::{Changes, Whole, is_within, span_of};
use std::alloc::AllocError;

/// Is there a call that is to be a statement in a span?
pub(crate) fn has_call(large: &LargeFunctions<'_>, span: Span) -> bool {
    large
        .calls
        .iter()
        .any(|call| is_within(call.span.start, span))
}

// The first branch after the first one that has a call in its condition.
fn later_branch<'b>(large: &LargeFunctions<'_>, branches: &'b [Branch]) -> Option<&'b Branch> {
    let [_, later @ ..] = branches else {
        return None;
    };
    later
        .iter()
        .find(|branch| has_call(large, branch.condition.span))
}

// What is between the operands of `and then` where the right one is the first that has a call in it, the first of all left out.
fn first_link(large: &LargeFunctions<'_>, first: &Expr, operands: &[Operand]) -> Option<Span> {
    let mut end = first.span.end_;
    for operand in operands {
        if operand.operator != BinaryOperator::AndThen {
            return None;
        }
        if has_call(large, operand.value.span) {
            return Some(Span {
                start: end,
                end_: operand.value.span.start,
            });
        }
        end = operand.value.span.end_;
    }
    None
}

// `elsif C` as `else if C`, with one more end.
fn nest_branch(changes: &mut Changes<'_>, whole: Span, branch: &Branch) -> Result<(), AllocError> {
    let Some(elsif) = changes.source.token_before(branch.condition.span.start) else {
        return Ok(());
    };
    let Some(tail) = changes.source.if_tail(whole) else {
        return Ok(());
    };
    changes.write(span_of(elsif), "else if".as_bytes())?;
    changes.insert(tail, "end if; ".as_bytes())
}

// `if A and then B then S; end if;` as `if A then if B then S; end if; end if;`.
fn nest_operand(
    changes: &mut Changes<'_>,
    large: &LargeFunctions<'_>,
    whole: Span,
    condition: &Expr,
) -> Result<(), AllocError> {
    let ExprKind::Chain(first, operands) = &condition.kind else {
        return Ok(());
    };
    let Some(link) = first_link(large, first, operands) else {
        return Ok(());
    };
    let Some(tail) = changes.source.if_tail(whole) else {
        return Ok(());
    };
    changes.write(link, " then if ".as_bytes())?;
    changes.insert(tail, "end if; ".as_bytes())
}

// `A and then B` in a condition of exits as two of them.
fn separate_operands(changes: &mut Changes<'_>, condition: &Expr) -> Result<(), AllocError> {
    let ExprKind::Chain(first, operands) = &condition.kind else {
        return Ok(());
    };
    let mut end = first.span.end_;
    for operand in operands {
        if operand.operator == BinaryOperator::AndThen {
            let link = Span {
                start: end,
                end_: operand.value.span.start,
            };
            changes.write(link, "); exit when not (".as_bytes())?;
        }
        end = operand.value.span.end_;
    }
    Ok(())
}

// `while C loop` as `loop exit when not (C);`.
fn exit_unless(changes: &mut Changes<'_>, condition: &Expr) -> Result<(), AllocError> {
    let (Some(while_), Some(loop_)) = (
        changes.source.token_before(condition.span.start),
        changes.source.word_from(condition.span.end_, Word::Loop),
    ) else {
        return Ok(());
    };
    changes.write(span_of(while_), "loop exit when not (".as_bytes())?;
    separate_operands(changes, condition)?;
    changes.write(span_of(loop_), ");".as_bytes())
}

// `exit when A and then B;` as `if A then exit when B; end if;`.
fn nest_exit(
    changes: &mut Changes<'_>,
    large: &LargeFunctions<'_>,
    whole: Span,
    condition: &Expr,
) -> Result<(), AllocError> {
    let ExprKind::Chain(first, operands) = &condition.kind else {
        return Ok(());
    };
    let Some(link) = first_link(large, first, operands) else {
        return Ok(());
    };
    let begin = Span {
        start: whole.start,
        end_: condition.span.start,
    };
    changes.write(begin, "if ".as_bytes())?;
    changes.write(link, " then exit when ".as_bytes())?;
    changes.insert(whole.end_, " end if;".as_bytes())
}

// Writes the condition of an if statement so that a call in it can be a statement.
fn if_condition(
    changes: &mut Changes<'_>,
    large: &LargeFunctions<'_>,
    whole: Span,
    branches: &[Branch],
    other: &[Statement],
) -> Result<(), AllocError> {
    if let Some(branch) = later_branch(large, branches) {
        return nest_branch(changes, whole, branch);
    }
    match branches {
        [branch] if other.is_empty() => nest_operand(changes, large, whole, &branch.condition),
        _ => Ok(()),
    }
}

fn condition(
    changes: &mut Changes<'_>,
    large: &LargeFunctions<'_>,
    statement: &Statement,
) -> Result<(), AllocError> {
    match statement {
        Statement::If(span, branches, other) => {
            if_condition(changes, large, *span, branches, other)
        }
        Statement::Exit(span, None, Some(condition)) => {
            nest_exit(changes, large, *span, condition)
        }
        Statement::Loop(_, _, Iteration::While(condition), _) if has_call(large, condition.span) =>
            exit_unless(changes, condition),
        _ => Ok(()),
    }
}

/// Conditions that are evaluated again or not always, and have calls in them: one in a round.
pub fn lower_conditions(changes: &mut Changes<'_>, whole: &Whole<'_>) -> Result<(), AllocError> {
    let large = large_functions(whole, changes.alloc)?;
    for statement in whole.parts.statements.as_slice() {
        if changes.requests.is_empty() {
            condition(changes, &large, statement)?;
        }
    }
    lower_short_circuits(changes, whole, &large)?;
    lower_conditional_values(changes, whole, &large)
}
