//! Whether a text goes on with another token, asked of the parser.
ghost use Rattle.std.specs.Prelude.{◌≡◌, ◌++◌, ◌∷◌, Decides, IfOk, drop, take};
ghost use Rattle.parser.specs.Parsing.{SomeBegins};
ghost use Rattle.diagnostics.specs.continuations.Following.{CanEnd, sample};
ghost use Rattle.diagnostics.specs.repairs.Mending.{Continues, Mends};

use base::faults::MEMORY_REFUSED;
use lexer::{Token, TokenKind};
use parser::{longest_beginning, parse};
use std::alloc::{AllocError, Global};

/// The first so many of the tokens; all where there are fewer.
pub(crate) fn first_tokens(count: usize, tokens: &[Token]) -> &[Token]
    ensures { result.now ≡ take count tokens.now }
{
    &tokens[..count.min(tokens.len())]
}

/// The tokens after the first so many.
pub(crate) fn tokens_behind(count: usize, tokens: &[Token]) -> &[Token]
    ensures { result.now ≡ drop count tokens.now }
{
    &tokens[count.min(tokens.len())..]
}

// The tokens of both parts, and one of this kind between them.
fn with_token(
    alloc: Global,
    front: &[Token],
    kind: TokenKind,
    after: &[Token],
) -> Result<Vec<Token>, AllocError>
    ensures { IfOk result (λ tokens. tokens.items ≡ front.now ++ (sample kind ∷ after.now)) }
{
    let mut tokens = front.to_vec(alloc)?;
    tokens.push(Token {
        kind,
        start: 0,
        end_: 1,
    })?;
    let mut rest = after.to_vec(alloc)?;
    tokens.append(&mut rest)?;
    Ok(tokens)
}

// Does some derivation begin with the tokens?
fn begins(alloc: Global, tokens: &[Token]) -> Result<bool, AllocError>
    ensures { IfOk result (λ does. Decides does (SomeBegins tokens.now)) }
{
    let count = longest_beginning(alloc, tokens)?;
    Ok(count == tokens.len())
}

// Does some tree derive just the tokens?
fn is_derived(alloc: Global, tokens: &[Token]) -> Result<bool, AllocError>
    ensures { IfOk result (λ is_so. Decides is_so (CanEnd tokens.now)) }
{
    match parse(alloc, tokens) {
        Ok(_) => Ok(true),
        Err(fault) => {
            if fault.number == MEMORY_REFUSED {
                Err(AllocError)
            } else {
                Ok(false)
            }
        }
    }
}

fn goes_on(alloc: Global, tokens: &[Token], is_whole: bool) -> Result<bool, AllocError>
    ensures { IfOk result (λ does. Decides does (Continues is_whole tokens.now)) }
{
    if is_whole {
        is_derived(alloc, tokens)
    } else {
        begins(alloc, tokens)
    }
}

/// Whether a token of this kind between both parts lets the text go on with so many tokens of the second one, or makes a program of it where it has no more.
///
/// # Errors
/// Where memory was refused.
pub(crate) fn mends(
    alloc: Global,
    front: &[Token],
    kind: TokenKind,
    after: &[Token],
    far: usize,
) -> Result<bool, AllocError>
    ensures { IfOk result (λ does. Decides does (Mends front.now kind after.now far)) }
{
    let tokens = with_token(alloc, front, kind, first_tokens(far, after))?;
    goes_on(alloc, &tokens, after.len() < far)
}
