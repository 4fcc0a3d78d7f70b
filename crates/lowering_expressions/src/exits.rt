//! Exits by the name of a loop (RM 5.7): from the innermost loop without it, and from a loop around that by a Boolean object.

use ada2012_lexer::Span;
use ada2012_tree::{Expr, Identifier, Statement};
use lowering_text::{Changes, Whole, are_same, body_around, is_within};
use std::alloc::AllocError;

/// An exit with a name.
#[derive(Clone, Copy)]
struct Exit<'a> {
    span: Span,
    name: &'a Identifier,
    condition: &'a Option<Expr>,
}

// The exit that a statement is, if it is one with a name.
fn named_exit(statement: &Statement) -> Option<Exit<'_>> {
    match statement {
        Statement::Exit(span, Some(name), condition) => Some(Exit {
            span: *span,
            name,
            condition,
        }),
        _ => None,
    }
}

fn is_of(name: &Option<Identifier>, other: &Identifier) -> bool {
    match name {
        Some(own) => are_same(own, other),
        None => false,
    }
}

// The innermost loop around a place, and its name.
fn loop_around<'a>(whole: &Whole<'a>, place: u32) -> Option<(Span, &'a Option<Identifier>)> {
    let mut found = None;
    for statement in whole.parts.statements.as_slice() {
        if let Statement::Loop(span, name, _, _) = statement {
            if is_within(place, *span) {
                found = Some((*span, name));
            }
        }
    }
    found
}

// Is the innermost loop around an exit the one with this span, and is it an exit of the loop with this name?
fn leaves(whole: &Whole<'_>, exit: &Exit<'_>, inner: Span, name: &Identifier) -> bool {
    match loop_around(whole, exit.span.start) {
        Some((span, _)) => span == inner && are_same(exit.name, name),
        None => false,
    }
}

// `exit L when C;` as `if C then FLAG := True; exit; end if;`.
fn set_and_exit(changes: &mut Changes<'_>, exit: &Exit<'_>, flag: &[u8]) -> Result<(), AllocError> {
    let set = changes.joined(&[flag, b" := True; exit"])?;
    let Some(condition) = exit.condition else {
        let words = Span {
            start: exit.span.start,
            end_: exit.name.span.end_,
        };
        return changes.replace(words, set, None);
    };
    let begin = Span {
        start: exit.span.start,
        end_: condition.span.start,
    };
    changes.write(begin, "if ".as_bytes())?;
    let words = changes.joined(&[b" then ", set.as_slice(), b"; end if"])?;
    changes.insert(condition.span.end_, &words)
}

// Exits from an inner loop of one around it: the inner loop is left with the object set, and then the outer one.
fn leave_outer(
    changes: &mut Changes<'_>,
    whole: &Whole<'_>,
    inner: Span,
    name: &Identifier,
    begin: u32,
) -> Result<(), AllocError> {
    let flag = changes
        .source
        .fresh_name(changes.alloc, name.span, "_Done".as_bytes())?;
    changes.declare(begin, &flag, "Boolean".as_bytes())?;
    let clear = changes.joined(&[flag.as_slice(), b" := False; "])?;
    changes.insert(inner.start, &clear)?;
    for statement in whole.parts.statements.as_slice() {
        if let Some(exit) = named_exit(statement) {
            if leaves(whole, &exit, inner, name) {
                set_and_exit(changes, &exit, &flag)?;
            }
        }
    }
    let outer = changes.source.bytes(name.span);
    let words = changes.joined(&[b" exit ", outer, b" when ", flag.as_slice(), b";"])?;
    changes.insert(inner.end_, &words)
}

fn lower_exit(
    changes: &mut Changes<'_>,
    whole: &Whole<'_>,
    exit: &Exit<'_>,
) -> Result<(), AllocError> {
    let Some((inner, label)) = loop_around(whole, exit.span.start) else {
        return Ok(());
    };
    if is_of(label, exit.name) {
        return changes.write(exit.name.span, &[]);
    }
    let Some(body) = body_around(whole.parts, inner.start) else {
        return Ok(());
    };
    match changes.begin_of(body) {
        Some(begin) if begin.start < inner.start && changes.requests.is_empty() => {
            leave_outer(changes, whole, inner, exit.name, begin.start)
        }
        _ => Ok(()),
    }
}

/// Exits by name: those of innermost loops, and those of one inner loop.
pub fn lower_exits(changes: &mut Changes<'_>, whole: &Whole<'_>) -> Result<(), AllocError> {
    for statement in whole.parts.statements.as_slice() {
        if let Some(exit) = named_exit(statement) {
            lower_exit(changes, whole, &exit)?;
        }
    }
    Ok(())
}
