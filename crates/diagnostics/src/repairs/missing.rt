//! A token that is missing.
ghost use Rattle.std.specs.Prelude.{◌≡◌, IfOk};
ghost use Rattle.diagnostics.specs.repairs.First.{FirstOf};
ghost use Rattle.diagnostics.specs.repairs.MissingTokens.{IsMissingAt, IsMissingBefore, IsThisOne, kind_of, missing_text};

use crate::repairs::mending::{first_tokens, mends, tokens_behind};
use base::faults::UNEXPECTED_TOKEN;
use lexer::{Delimiter, Token, TokenKind, Word};
use remedies::count_before;
use std::alloc::{AllocError, Global};

/// A token that is left out most.
#[derive(Clone, Copy)]
pub enum Missing {
    Semicolon,
    RightParenthesis,
    LeftParenthesis,
    Comma,
    Colon,
    Assignment,
    Arrow,
    Is,
    Then,
    Loop,
    Begin,
    Of,
    In,
    Return,
    When,
    Range,
    End,
}

/// How many tokens from the place on a text has to go on with.
pub const FURTHER: usize = 4;

/// In the order in which they are tried.
pub const EACH_MISSING: [Missing; 17] = [
    Missing::Semicolon,
    Missing::RightParenthesis,
    Missing::LeftParenthesis,
    Missing::Comma,
    Missing::Colon,
    Missing::Assignment,
    Missing::Arrow,
    Missing::Is,
    Missing::Then,
    Missing::Loop,
    Missing::Begin,
    Missing::Of,
    Missing::In,
    Missing::Return,
    Missing::When,
    Missing::Range,
    Missing::End,
];

fn kind_of(missing: Missing) -> TokenKind
    ensures { result ≡ kind_of missing }
{
    match missing {
        Missing::Semicolon => TokenKind::Delimiter(Delimiter::Semicolon),
        Missing::RightParenthesis => TokenKind::Delimiter(Delimiter::RightParenthesis),
        Missing::LeftParenthesis => TokenKind::Delimiter(Delimiter::LeftParenthesis),
        Missing::Comma => TokenKind::Delimiter(Delimiter::Comma),
        Missing::Colon => TokenKind::Delimiter(Delimiter::Colon),
        Missing::Assignment => TokenKind::Delimiter(Delimiter::Assignment),
        Missing::Arrow => TokenKind::Delimiter(Delimiter::Arrow),
        Missing::Is => TokenKind::Word(Word::Is),
        Missing::Then => TokenKind::Word(Word::Then),
        Missing::Loop => TokenKind::Word(Word::Loop),
        Missing::Begin => TokenKind::Word(Word::Begin),
        Missing::Of => TokenKind::Word(Word::Of),
        Missing::In => TokenKind::Word(Word::In),
        Missing::Return => TokenKind::Word(Word::Return),
        Missing::When => TokenKind::Word(Word::When),
        Missing::Range => TokenKind::Word(Word::Range),
        Missing::End => TokenKind::Word(Word::End),
    }
}

/// What is said where it is missing, as one line without its line feed; code is between two marks (96).
pub fn missing_text(missing: Missing) -> &'static str
    ensures { result.now ≡ missing_text missing }
{
    match missing {
        Missing::Semicolon => "`;` is missing before this.",
        Missing::RightParenthesis => "`)` is missing before this.",
        Missing::LeftParenthesis => "`(` is missing before this.",
        Missing::Comma => "`,` is missing before this.",
        Missing::Colon => "`:` is missing before this.",
        Missing::Assignment => "`:=` is missing before this.",
        Missing::Arrow => "`=>` is missing before this.",
        Missing::Is => "`is` is missing before this.",
        Missing::Then => "`then` is missing before this.",
        Missing::Loop => "`loop` is missing before this.",
        Missing::Begin => "`begin` is missing before this.",
        Missing::Of => "`of` is missing before this.",
        Missing::In => "`in` is missing before this.",
        Missing::Return => "`return` is missing before this.",
        Missing::When => "`when` is missing before this.",
        Missing::Range => "`range` is missing before this.",
        Missing::End => "`end` is missing before this.",
    }
}

// The token, where it mends the text between both parts.
fn this_one(
    alloc: Global,
    missing: Missing,
    front: &[Token],
    back: &[Token],
) -> Result<Option<Missing>, AllocError>
    ensures { IfOk result (λ found. IsThisOne front.now back.now missing found) }
{
    if mends(alloc, front, kind_of(missing), back, FURTHER)? {
        return Ok(Some(missing));
    }
    Ok(None)
}

fn first_missing(
    alloc: Global,
    tried: &[Missing],
    front: &[Token],
    back: &[Token],
) -> Result<Option<Missing>, AllocError>
    ensures { IfOk result (λ found. FirstOf (IsThisOne front.now back.now) tried.now found) }
{
    for missing in tried {
        if let Some(found) = this_one(alloc, *missing, front, back)? {
            return Ok(Some(found));
        }
    }
    Ok(None)
}

// Before the token that has so many before it.
fn missing_before(
    alloc: Global,
    count: usize,
    tokens: &[Token],
) -> Result<Option<Missing>, AllocError>
    ensures { IfOk result (λ found. IsMissingBefore count tokens.now found) }
{
    let front = first_tokens(count, tokens);
    first_missing(alloc, &EACH_MISSING, front, tokens_behind(count, tokens))
}

/// The token that mends a text with these tokens, refused at this place for a token that can't be there, where it is put in at the place. None where none of
/// those that are tried does, and for other faults.
///
/// # Errors
/// Where memory was refused.
pub fn missing_at(
    alloc: Global,
    fault: u64,
    place: u32,
    tokens: &[Token],
) -> Result<Option<Missing>, AllocError>
    ensures { IfOk result (λ found. IsMissingAt fault place tokens.now found) }
{
    if fault == u64::from(UNEXPECTED_TOKEN) {
        missing_before(alloc, count_before(place, tokens), tokens)
    } else {
        Ok(None)
    }
}
