//! What names in texts of whole Ada denote, and the types of expressions.

use crate::name_rows::{
    BODIES, COMPONENTS_AND_ACTUALS, Expected, HIDING, LITERALS_AND_STATEMENTS, PACKAGES, Row,
};
use ada2012_lexer::{Span, Token, TokenKind};
use ada2012_names::{Denoted, EntityId, Names, Predefined, resolve};
use ada2012_parser::parse;
use std::alloc::Global;
use std::test::Fail;

/// A text, an expression in it, where it first is, and its type or subtype, as the name of it and which identifier of this name declares it.
type TypeRow = (&'static str, &'static str, &'static str, Expected);

const TYPES: [TypeRow; 9] = [
    (
        "procedure P is type M is mod 8; X, Y, Z : M; begin Z := X + Y * 2; end;",
        "X + Y * 2",
        "M",
        Expected::At(1),
    ),
    (
        "procedure P is type M is mod 8; subtype S is M range 0 .. 3; X, Y : S; begin Y := X; end;",
        "X;",
        "S",
        Expected::At(1),
    ),
    (
        "procedure P is X, Y : Integer; B : Boolean := X = Y; begin null; end;",
        "X = Y",
        "",
        Expected::Predefined(Predefined::Boolean),
    ),
    (
        "procedure P is type M is range 0 .. 9; X : Integer; Y : M := M (X); begin null; end;",
        "M (X)",
        "M",
        Expected::At(1),
    ),
    (
        "procedure P is type E is (U, V); X : E; begin X := E'Val (1); end;",
        "E'Val (1)",
        "E",
        Expected::At(1),
    ),
    (
        "procedure P is type M is mod 8; type V is array (1 .. 3) of M; X : V; Y : M; begin Y := X (2); end;",
        "X (2)",
        "M",
        Expected::At(1),
    ),
    (
        "with Ada.Real_Time; use Ada.Real_Time; procedure P is X : Time; Y : Time_Span; begin Y := X - Clock; end;",
        "X - Clock",
        "",
        Expected::Predefined(Predefined::TimeSpan),
    ),
    (
        "with Ada.Real_Time; use Ada.Real_Time; procedure P is X : Time; begin X := X + 2 * Milliseconds (3); end;",
        "X + 2 * Milliseconds (3)",
        "",
        Expected::Predefined(Predefined::Time),
    ),
    (
        "with Ada.Real_Time; use Ada.Real_Time; procedure P is X : Time_Span; Y : Integer; begin Y := X / Milliseconds (1); end;",
        "X / Milliseconds (1)",
        "",
        Expected::Predefined(Predefined::Integer),
    ),
];

// The span of the identifier of this name that is this one of them.
fn nth(tokens: &[Token], name: &str, occurrence: usize) -> Option<Span> {
    let mut left = occurrence;
    for token in tokens {
        if let TokenKind::Identifier(own) = &token.kind
            && own.as_bytes() == name.as_bytes()
        {
            if left <= 1 {
                return Some(Span {
                    start: token.start,
                    end_: token.end_,
                });
            }
            left -= 1;
        }
    }
    None
}

// Is this entity declared by the identifier of this name that is this one of them?
fn is_declared_by(
    names: &Names,
    id: EntityId,
    tokens: &[Token],
    name: &str,
    occurrence: usize,
) -> bool {
    match nth(tokens, name, occurrence) {
        Some(span) => names.declared_at(span) == Some(id),
        None => false,
    }
}

// Is what is denoted as it is expected?
fn is_expected(
    names: &Names,
    tokens: &[Token],
    name: &str,
    denoted: Denoted,
    expected: Expected,
) -> bool {
    match (denoted, expected) {
        (Denoted::Entity(id), Expected::At(occurrence)) => {
            is_declared_by(names, id, tokens, name, occurrence)
        }
        (Denoted::Ambiguous(id), Expected::Ambiguous(occurrence)) => {
            is_declared_by(names, id, tokens, name, occurrence)
        }
        (Denoted::Entity(id), Expected::Predefined(predefined)) => {
            names.predefined(id) == Some(predefined)
        }
        (Denoted::Unknown, Expected::Unknown) => true,
        _ => false,
    }
}

// What the names of a text denote, none where it isn't parsed or memory is wanting.
fn names_of(alloc: Global, tokens: &[Token]) -> Option<Names> {
    let Ok(program) = parse(alloc, tokens) else {
        return None;
    };
    resolve(alloc, &program).ok()
}

// Is a row of names right?
fn is_right(alloc: Global, row: &Row) -> bool {
    let (text, name, occurrence, expected) = *row;
    let Ok(found) = ada2012_lexer::tokens(alloc, text.as_bytes()) else {
        return false;
    };
    let tokens = found.tokens.as_slice();
    let Some(names) = names_of(alloc, tokens) else {
        return false;
    };
    let Some(span) = nth(tokens, name, occurrence) else {
        return false;
    };
    match names.use_at(span) {
        Some(denoted) => is_expected(&names, tokens, name, denoted, expected),
        None => false,
    }
}

// The span of a part of a text, where it first is. A semicolon after it isn't part of it.
fn span_of(text: &str, part: &str) -> Option<Span> {
    let start = u32::try_from(text.find(part)?).ok()?;
    let length = u32::try_from(part.trim_end_matches(';').len()).ok()?;
    Some(Span {
        start,
        end_: start.checked_add(length)?,
    })
}

// Is a row of types right?
fn is_type_right(alloc: Global, row: &TypeRow) -> bool {
    let (text, part, name, expected) = *row;
    let Ok(found) = ada2012_lexer::tokens(alloc, text.as_bytes()) else {
        return false;
    };
    let tokens = found.tokens.as_slice();
    let Some(names) = names_of(alloc, tokens) else {
        return false;
    };
    let Some(span) = span_of(text, part) else {
        return false;
    };
    match names.type_at(span) {
        Some(id) => is_expected(&names, tokens, name, Denoted::Entity(id), expected),
        None => false,
    }
}

// Is a token no identifier, or one that declares something or is a use?
fn is_found(names: &Names, token: &Token) -> bool {
    let span = Span {
        start: token.start,
        end_: token.end_,
    };
    match &token.kind {
        TokenKind::Identifier(_) => {
            names.use_at(span).is_some() || names.declared_at(span).is_some()
        }
        _ => true,
    }
}

// Is each identifier of the text of a row found?
fn is_whole(alloc: Global, row: &Row) -> bool {
    let Ok(found) = ada2012_lexer::tokens(alloc, row.0.as_bytes()) else {
        return false;
    };
    let tokens = found.tokens.as_slice();
    match names_of(alloc, tokens) {
        Some(names) => tokens.iter().all(|token| is_found(&names, token)),
        None => false,
    }
}

// Is each row right?
fn are_right(alloc: Global, rows: &[Row]) -> bool {
    rows.iter().all(|row| is_right(alloc, row))
}

// Is each identifier of the texts of these rows found?
fn are_whole(alloc: Global, rows: &[Row]) -> bool {
    rows.iter().all(|row| is_whole(alloc, row))
}

#[test]
fn inner_declarations_hide_outer_ones(rt: HostRuntime) -> Result<(), Fail> {
    assert!(rt; are_right(rt.alloc(), &HIDING));
    Ok(())
}

#[test]
fn literals_and_names_in_statements_are_found(rt: HostRuntime) -> Result<(), Fail> {
    assert!(rt; are_right(rt.alloc(), &LITERALS_AND_STATEMENTS));
    Ok(())
}

#[test]
fn clauses_make_packages_visible(rt: HostRuntime) -> Result<(), Fail> {
    assert!(rt; are_right(rt.alloc(), &PACKAGES));
    Ok(())
}

#[test]
fn bodies_complete_declarations(rt: HostRuntime) -> Result<(), Fail> {
    assert!(rt; are_right(rt.alloc(), &BODIES));
    Ok(())
}

#[test]
fn components_and_formals_are_found_by_name(rt: HostRuntime) -> Result<(), Fail> {
    assert!(rt; are_right(rt.alloc(), &COMPONENTS_AND_ACTUALS));
    Ok(())
}

#[test]
fn no_identifier_is_left_out(rt: HostRuntime) -> Result<(), Fail> {
    assert!(rt; are_whole(rt.alloc(), &HIDING));
    assert!(rt; are_whole(rt.alloc(), &PACKAGES));
    assert!(rt; are_whole(rt.alloc(), &BODIES));
    assert!(rt; are_whole(rt.alloc(), &COMPONENTS_AND_ACTUALS));
    Ok(())
}

#[test]
fn expressions_have_types(rt: HostRuntime) -> Result<(), Fail> {
    for row in &TYPES {
        assert!(rt; is_type_right(rt.alloc(), row));
    }
    Ok(())
}
