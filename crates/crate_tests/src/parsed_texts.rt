//! Texts of whole Ada that are parsed, and such as are not, with what is wrong with them.

use ada2012_lexer::Delimiter;
use ada2012_parser::{Expected, Fault, FaultKind, LeftOut, parse};
use lexer::Word;
use std::alloc::Global;
use std::test::Fail;

const PARSED: [&str; 13] = [
    "",
    "procedure P is begin null; end P;",
    "with A.B; use A.B; package Q is type T is range 0 .. 9; type R is record A, B : T := 1; end record; subtype S is T range 1 .. 3; end Q;",
    "package Q is type V is array (T, 1 .. 3) of R; type E is (X, Y); N : constant := -2 ** 3 mod 5; C : constant T := 4; F, G : exception; end Q;",
    "package Q is task K with Priority => 3; task type W (A : T) is pragma Priority (4); end W; V : T := (1, 2 | 3 => 3, others => 4); end Q;",
    "package Q is protected O is entry W (A : in T); procedure S (A : out T); function G return T; private Z : B := F; end O; end Q;",
    "package body Q is task body K is begin loop delay until N + 1; O.S (A => 2); exit when D; end loop; end K; begin null; end Q;",
    "package body Q is protected body O is entry W (A : in T) when Z is begin Z := not A; end W; end O; end Q;",
    "package Q is function G (A : T) return T is (if A > 0 then A elsif A in 1 | 3 .. 4 then 2 else -A); procedure H is null; end Q;",
    "procedure P is begin if A and then not B then X := Y (1).Z'First; elsif C'Valid then return; else raise E with S; end if; end P;",
    "procedure P is begin case X is when 1 | 2 .. 3 => null; when others => P (T'(1, 2)); end case; exception when X : E | F => null; end P;",
    "procedure P is begin L : for I in reverse 1 .. 9 loop exit L; end loop L; while X loop null; end loop; declare Z : T; begin null; end; end P;",
    "procedure P is begin X := ((((((((((((((((((((((((((((((((((((((((1)))))))))))))))))))))))))))))))))))))))); end P;",
];

/// A text, the byte at which it is wrong, and what is wrong there.
type Row = (&'static str, u32, FaultKind);

const REFUSED: [Row; 16] = [
    (
        "procedure P is begin null end P;",
        26,
        FaultKind::Unexpected(Expected::Delimiter(Delimiter::Semicolon)),
    ),
    (
        "procedure P is begin null; end P",
        32,
        FaultKind::Unexpected(Expected::Delimiter(Delimiter::Semicolon)),
    ),
    (
        "procedure P is begin end P;",
        21,
        FaultKind::Unexpected(Expected::Statement),
    ),
    (
        "procedure P is begin X := (1 + ; end P;",
        31,
        FaultKind::Unexpected(Expected::Expression),
    ),
    (
        "procedure P is begin X := A and B or C; end P;",
        34,
        FaultKind::Unexpected(Expected::SameOperator),
    ),
    (
        "procedure P is begin X := A (1) (3; end P;",
        34,
        FaultKind::Unexpected(Expected::Delimiter(Delimiter::RightParenthesis)),
    ),
    (
        "procedure P is begin X := A (1 .. 2); end P;",
        35,
        FaultKind::LeftOut(LeftOut::Slice),
    ),
    (
        "procedure P is X : end P;",
        19,
        FaultKind::Unexpected(Expected::Identifier),
    ),
    (
        "package Q is type T is digits 6; end Q;",
        23,
        FaultKind::LeftOut(LeftOut::RealType),
    ),
    (
        "package Q is type T is; end Q;",
        22,
        FaultKind::Unexpected(Expected::Type),
    ),
    (
        "package Q is begin end Q;",
        13,
        FaultKind::Unexpected(Expected::Word(Word::End)),
    ),
    (
        "procedure P is begin select",
        21,
        FaultKind::LeftOut(LeftOut::Select),
    ),
    (
        "generic package Q is end Q;",
        0,
        FaultKind::LeftOut(LeftOut::Generic),
    ),
    ("null;", 0, FaultKind::Unexpected(Expected::Unit)),
    ("with", 4, FaultKind::Unexpected(Expected::Identifier)),
    (
        "procedure P is begin X := (((((((((((((((((((((((((((((((((((((((((1",
        66,
        FaultKind::TooManyLevels,
    ),
];

// What is wrong with a text, none where it is parsed; where it has no tokens, that memory is wanting.
fn fault_in(alloc: Global, text: &str) -> Option<Fault> {
    let Ok(found) = ada2012_lexer::tokens(alloc, text.as_bytes()) else {
        return Some(Fault {
            kind: FaultKind::Memory,
            place: 0,
        });
    };
    match parse(alloc, found.tokens.as_slice()) {
        Ok(_) => None,
        Err(fault) => Some(fault),
    }
}

#[test]
fn texts_of_whole_ada_are_parsed(rt: HostRuntime) -> Result<(), Fail> {
    for text in &PARSED {
        assert!(rt; fault_in(rt.alloc(), text).is_none());
    }
    Ok(())
}

#[test]
fn faults_are_at_the_first_wrong_token(rt: HostRuntime) -> Result<(), Fail> {
    for (text, place, kind) in &REFUSED {
        let fault = Fault {
            kind: *kind,
            place: *place,
        };
        assert!(rt; fault_in(rt.alloc(), text) == Some(fault));
    }
    Ok(())
}
