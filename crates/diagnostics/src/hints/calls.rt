//! How many actual parameters a call has, and how many formal ones what it calls.
ghost use Rattle.std.specs.Prelude.{◌≡◌, ◌≤◌, ◌++◌, suc, drop, length, OnOk, option_map};
ghost use Rattle.diagnostics.specs.hints.Calls as calls;

use crate::hints::places::{name_or_none, put_place, start_at};
use itoa::Buffer;
use lexer::{Delimiter, Token, TokenKind};
use remedies::{TextTokens, kind_at, name_of};
use std::alloc::AllocError;

fn is_mark(delimiter: Delimiter, kind: &TokenKind) -> bool
    ensures { result ≡ calls.is_mark delimiter kind.now }
{
    match kind {
        TokenKind::Delimiter(found) => *found == delimiter,
        _ => false,
    }
}

fn is_mark_next(delimiter: Delimiter, kind: Option<&TokenKind>) -> bool
    ensures { result ≡ calls.is_mark_next delimiter (option_map (λ k. k.now) kind.entry) }
{
    match kind {
        Some(kind) => is_mark(delimiter, kind),
        None => false,
    }
}

// How many the parenthesis lists after which the tokens begin.
fn count_listed(separator: Delimiter, tokens: &[Token]) -> usize
    ensures { result ≡ calls.count_listed separator 0 1 tokens.now }
{
    let mut depth = 0usize;
    let mut count = 1usize;
    for token in tokens {
        if is_mark(Delimiter::LeftParenthesis, &token.kind) {
            depth += 1;
        } else if is_mark(Delimiter::RightParenthesis, &token.kind) {
            if depth == 0 {
                return count;
            }
            depth -= 1;
        } else if depth == 0 && is_mark(separator, &token.kind) {
            count += 1;
        }
    }
    count
}

fn count_parenthesized(separator: Delimiter, tokens: &[Token]) -> usize
    ensures { result ≡ calls.count_parenthesized separator tokens.now }
{
    match tokens {
        [first, rest @ ..] if is_mark(Delimiter::LeftParenthesis, &first.kind) => {
            count_listed(separator, rest)
        }
        _ => 0,
    }
}

fn called_number(first: usize, tokens: &[Token]) -> usize
    requires { first ≤ length tokens.now }
    ensures { result ≡ calls.called_number first tokens.now }
{
    if is_mark_next(Delimiter::Dot, kind_at(first + 1, tokens)) {
        first + 2
    } else {
        first
    }
}

fn introduced(name: Option<&[u8]>, tokens: &TextTokens, from: usize) -> Option<usize>
    ensures { result ≡ calls.introduced (option_map (λ n. n.now) name.entry) tokens.now from }
{
    match name {
        Some(name) => tokens.first_same(name, from),
        None => None,
    }
}

fn declared_from(first: usize, called: usize, tokens: &TextTokens) -> usize
    ensures { result ≡ calls.declared_from first called tokens.now }
{
    if first == called {
        0
    } else {
        introduced(name_of(kind_at(first, tokens.tokens())), tokens, 0).unwrap_or(0)
    }
}

fn declared_number(first: usize, called: usize, tokens: &TextTokens) -> Option<usize>
    ensures { result ≡ calls.declared_number first called tokens.now }
{
    let from = declared_from(first, called, tokens);
    introduced(name_of(kind_at(called, tokens.tokens())), tokens, from)
}

#[tactic(auto, unfolding(crate::specs::hints::Calls::actuals_part))]
fn put_actuals_part(out: &mut Vec<u8>, count: usize) -> Result<(), AllocError>
    ensures { OnOk result (out.new.items ≡ out.old.items ++ calls.actuals_part count) }
{
    out.extend_from_slice(b"hint: actual parameters in this call: ")?;
    out.extend_from_slice(Buffer::new().format(count).as_bytes())?;
    out.extend_from_slice(b"; formal ones of ")
}

#[tactic(auto, unfolding(crate::specs::hints::Calls::formals_part))]
fn put_formals_part(
    out: &mut Vec<u8>,
    text: &[u8],
    name: &[u8],
    place: u32,
    count: usize,
) -> Result<(), AllocError>
    ensures { OnOk result (out.new.items ≡ out.old.items ++ calls.formals_part text.now name.now place count) }
{
    out.extend_from_slice(name)?;
    out.extend_from_slice(b" at ")?;
    put_place(out, text, place)?;
    out.extend_from_slice(b": ")?;
    out.extend_from_slice(Buffer::new().format(count).as_bytes())?;
    out.extend_from_slice(b"\n")
}

// The tokens after the one with so many before it.
fn after(number: usize, tokens: &[Token]) -> &[Token]
    ensures { result.now ≡ drop (suc number) tokens.now }
{
    if number < tokens.len() {
        &tokens[number + 1..]
    } else {
        &[]
    }
}

fn put_call_lines(
    out: &mut Vec<u8>,
    text: &[u8],
    tokens: &[Token],
    called: usize,
    declared: Option<usize>,
) -> Result<(), AllocError>
    ensures { OnOk result (out.new.items ≡ out.old.items ++ calls.call_lines text.now tokens.now called declared) }
{
    let Some(declared) = declared else {
        return Ok(());
    };
    let actuals = count_parenthesized(Delimiter::Comma, after(called, tokens));
    let formals = count_parenthesized(Delimiter::Semicolon, after(declared, tokens));
    put_actuals_part(out, actuals)?;
    put_formals_part(
        out,
        text,
        name_or_none(declared, tokens),
        start_at(declared, tokens),
        formals,
    )
}

/// Appends the line that gives how many actual parameters the call at the place has, and how many formal ones what it calls; nothing where the text declares
/// nothing of that name.
///
/// # Errors
/// Where memory was refused.
pub(crate) fn put_call_lines_at(
    out: &mut Vec<u8>,
    text: &[u8],
    tokens: &TextTokens,
    place: u32,
) -> Result<(), AllocError>
    ensures { OnOk result (out.new.items ≡ out.old.items ++ calls.call_lines_at text.now tokens.now place) }
{
    let first = tokens.count_before(place);
    let called = called_number(first, tokens.tokens());
    let declared = declared_number(first, called, tokens);
    put_call_lines(out, text, tokens.tokens(), called, declared)
}
