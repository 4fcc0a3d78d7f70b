//! Which tokens may follow others, asked of the parser.
ghost use Rattle.std.specs.Prelude.{◌≡◌, ◌++◌, [], ◌∷◌, Decides, IfOk, OnOk};
ghost use Rattle.parser.specs.Parsing.{SomeBegins};
ghost use Rattle.diagnostics.specs.continuations.Following.{AreTheAllowed, CanEnd, CanFollow, IsAsked, sample, sample_kind, sample_name};

use crate::continuations::continuation::{Continuation, EVERY_CONTINUATION};
use arrayvec::ArrayVec;
use base::faults::MEMORY_REFUSED;
use lexer::{Text, Token, TokenKind};
use parser::{longest_beginning, parse};
use std::alloc::{AllocError, Global};

// The name of the identifier, and the text of the label, that are taken for all of them.
fn sample_name() -> Text
    ensures { result ≡ sample_name }
{
    let mut bytes = ArrayVec::new();
    bytes.push(b'X');
    Text::of(bytes)
}

// A kind of token that is taken for all that are such a continuation; None for the end.
fn sample_kind(continuation: Continuation) -> Option<TokenKind>
    ensures { result ≡ sample_kind continuation }
{
    match continuation {
        Continuation::Identifier => Some(TokenKind::Identifier(sample_name())),
        Continuation::Number => Some(TokenKind::Number(1)),
        Continuation::Label => Some(TokenKind::Label(sample_name())),
        Continuation::Delimiter(delimiter) => Some(TokenKind::Delimiter(delimiter)),
        Continuation::Word(word) => Some(TokenKind::Word(word)),
        Continuation::End => None,
    }
}

// Does some derivation begin with the tokens and this kind after them?
fn goes_on(alloc: Global, front: &[Token], kind: TokenKind) -> Result<bool, AllocError>
    ensures { IfOk result (λ does. Decides does (SomeBegins (front.now ++ (sample kind ∷ [])))) }
{
    let mut tokens = front.to_vec(alloc)?;
    tokens.push(Token {
        kind,
        start: 0,
        end_: 1,
    })?;
    let count = longest_beginning(alloc, &tokens)?;
    Ok(count == tokens.len())
}

// Does some derivation end with the tokens?
fn ends(alloc: Global, front: &[Token]) -> Result<bool, AllocError>
    ensures { IfOk result (λ does. Decides does (CanEnd front.now)) }
{
    match parse(alloc, front) {
        Ok(_) => Ok(true),
        Err(fault) => {
            if fault.number == MEMORY_REFUSED {
                Err(AllocError)
            } else {
                Ok(false)
            }
        }
    }
}

fn can_follow(
    alloc: Global,
    front: &[Token],
    continuation: Continuation,
) -> Result<bool, AllocError>
    ensures { IfOk result (λ can. Decides can (CanFollow front.now continuation)) }
{
    match sample_kind(continuation) {
        Some(kind) => goes_on(alloc, front, kind),
        None => ends(alloc, front),
    }
}

// Puts it after the list where it may follow.
fn ask(
    alloc: Global,
    front: &[Token],
    continuation: Continuation,
    list: &mut Vec<Continuation>,
) -> Result<(), AllocError>
    ensures { OnOk result (IsAsked front.now continuation list.old.items list.new.items) }
{
    if can_follow(alloc, front, continuation)? {
        list.push(continuation)?;
    }
    Ok(())
}

/// All that may follow the tokens, in the order of the table: each continuation with which some tree derives a list that begins so, at
/// most 40 levels being open at once in the tree, and no other one.
///
/// # Errors
/// Where memory was refused.
pub fn allowed(alloc: Global, front: &[Token]) -> Result<Vec<Continuation>, AllocError>
    ensures { IfOk result (λ list. AreTheAllowed front.now list.items) }
{
    let mut list = Vec::new(alloc);
    for continuation in &EVERY_CONTINUATION {
        ask(alloc, front, *continuation, &mut list)?;
    }
    Ok(list)
}
