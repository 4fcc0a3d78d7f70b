//! Parsing whole texts.
ghost use Rattle.std.specs.Prelude.{◌≡◌, IfErr, IfOk};
ghost use Rattle.ada2012_tree.specs.Spans.{Nested};
ghost use Rattle.ada2012_tree.specs.ProgramSpans.{program_spans};
ghost use Rattle.ada2012_parser.specs.Parsing.{IsAtToken, SpansAll, end_of, place_at};

use crate::fault::{Found, Stop};
use crate::parser::Parser;
use crate::{Fault, FaultKind};
use ada2012_lexer::{Span, Token};
use ada2012_tree::Program;
use std::alloc::Global;

/// The most levels that are open at once: parentheses, statements that hold statements, and bodies.
pub const LEVELS: u8 = 40;

// Where the last token ends.
fn end_of(tokens: &[Token]) -> u32
    ensures { result ≡ end_of tokens.now }
{
    match tokens {
        [.., last] => last.end_,
        [] => 0,
    }
}

// The first byte of the token from which on so many are left, or the end.
fn place_at(tokens: &[Token], left: usize) -> u32
    ensures { result ≡ place_at tokens.now left }
{
    match tokens.get(tokens.len().saturating_sub(left)) {
        Some(token) => token.start,
        None => end_of(tokens),
    }
}

fn fault_of(tokens: &[Token], stop: Stop) -> Fault
    ensures { IsAtToken tokens.now result }
{
    match stop {
        Stop::Memory => Fault {
            kind: FaultKind::Memory,
            place: 0,
        },
        Stop::Found(Found { kind, left }) => Fault {
            kind,
            place: place_at(tokens, left),
        },
    }
}

fn program(alloc: Global, tokens: &[Token]) -> Result<Program, Stop>
    ensures nested { IfOk result (λ program. Nested (program_spans program)) }
    ensures covers { IfOk result (λ program. SpansAll tokens.now program.span) }
{
    let mut parser = Parser {
        alloc,
        rest: tokens,
        last: 0,
    };
    let start = parser.here();
    let units = parser.units(LEVELS)?;
    let span = Span {
        start,
        end_: parser.last.max(end_of(tokens)),
    };
    Ok(Program { span, units })
}

/// The tree of the units that these tokens spell (RM 10.1).
///
/// # Errors
///
/// The first token that can't be where it is, with what would have been right there; a construct that isn't taken, at its first token; a token that opens more
/// than `LEVELS` levels. `Memory` where memory is refused.
pub fn parse(alloc: Global, tokens: &[Token]) -> Result<Program, Fault>
    // The nodes in each node lie in its span, one after the other.
    ensures nested { IfOk result (λ program. Nested (program_spans program)) }
    // The whole has the first byte of the first token, and the last one of the last.
    ensures covers { IfOk result (λ program. SpansAll tokens.now program.span) }
    // The place of a fault is that of a token, or the end of the last one.
    ensures fault { IfErr result (λ fault. IsAtToken tokens.now fault) }
{
    match program(alloc, tokens) {
        Ok(program) => Ok(program),
        Err(stop) => Err(fault_of(tokens, stop)),
    }
}
