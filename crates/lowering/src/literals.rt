//! Based literals and literals with exponents (RM 2.4), and priorities and their bounds (RM D.1), by tokens.

use ada2012_lexer::{Delimiter, Span, Token, TokenKind};
use itoa::Buffer;
use lowering_text::{Changes, is_mark, span_of};
use std::alloc::AllocError;

// Is the literal written otherwise than by decimal digits and underlines?
fn is_based_or_scaled(literal: &[u8]) -> bool {
    literal.iter().any(|c| matches!(*c, b'#' | b'E' | b'e'))
}

fn is_identifier(token: &Token, name: &str) -> bool {
    match &token.kind {
        TokenKind::Identifier(own) => own.as_bytes() == name.as_bytes(),
        _ => false,
    }
}

// The bound of a subtype of package System that these five tokens name.
fn bound_of(tokens: &[Token]) -> Option<&'static str> {
    let [system, dot, subtype, tick, attribute, ..] = tokens else {
        return None;
    };
    if !is_identifier(system, "SYSTEM")
        || !is_mark(dot, Delimiter::Dot)
        || !is_mark(tick, Delimiter::Apostrophe)
    {
        return None;
    }
    let is_first = is_identifier(attribute, "FIRST");
    if !is_first && !is_identifier(attribute, "LAST") {
        return None;
    }
    if is_identifier(subtype, "PRIORITY") {
        Some(if is_first { "0" } else { "30" })
    } else if is_identifier(subtype, "INTERRUPT_PRIORITY") {
        Some("31")
    } else {
        None
    }
}

// Do these tokens begin with a name of a subtype of priorities, which is none of an attribute?
fn is_subtype_of_priorities(tokens: &[Token]) -> bool {
    let [system, dot, subtype, after, ..] = tokens else {
        return false;
    };
    is_identifier(system, "SYSTEM")
        && is_mark(dot, Delimiter::Dot)
        && !is_mark(after, Delimiter::Apostrophe)
        && (is_identifier(subtype, "ANY_PRIORITY")
            || is_identifier(subtype, "PRIORITY")
            || is_identifier(subtype, "INTERRUPT_PRIORITY"))
}

fn literal(changes: &mut Changes<'_>, tokens: &[Token]) -> Result<(), AllocError> {
    let [token, ..] = tokens else {
        return Ok(());
    };
    let TokenKind::Integer(Some(value)) = token.kind else {
        return Ok(());
    };
    if !is_based_or_scaled(changes.source.bytes(span_of(token))) {
        return Ok(());
    }
    let mut buffer = Buffer::new();
    changes.write(span_of(token), buffer.format(value).as_bytes())
}

fn bound(changes: &mut Changes<'_>, tokens: &[Token]) -> Result<(), AllocError> {
    let Some(bound) = bound_of(tokens) else {
        return Ok(());
    };
    let [system, _, _, _, attribute, ..] = tokens else {
        return Ok(());
    };
    changes.write(
        Span {
            start: system.start,
            end_: attribute.end_,
        },
        bound.as_bytes(),
    )
}

// Writes Natural in the place of a subtype of priorities.
fn priorities(changes: &mut Changes<'_>, tokens: &[Token]) -> Result<(), AllocError> {
    if !is_subtype_of_priorities(tokens) {
        return Ok(());
    }
    let [system, _, subtype, ..] = tokens else {
        return Ok(());
    };
    changes.write(
        Span {
            start: system.start,
            end_: subtype.end_,
        },
        "Natural".as_bytes(),
    )
}

/// What single tokens, and some in a row, are written as.
pub(crate) fn lower_tokens(changes: &mut Changes<'_>) -> Result<(), AllocError> {
    let tokens = changes.source.tokens;
    for number in 0..tokens.len() {
        if let Some(rest) = tokens.get(number..) {
            literal(changes, rest)?;
            bound(changes, rest)?;
            priorities(changes, rest)?;
        }
    }
    Ok(())
}
