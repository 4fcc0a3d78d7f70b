//! A reserved word in place of an identifier that is like it (RM 2.9).
ghost use Rattle.std.specs.Prelude.{◌≡◌, IfOk};
ghost use Rattle.diagnostics.specs.repairs.First.{FirstOf};
ghost use Rattle.diagnostics.specs.repairs.Misspellings.{IsMisspelledAs, IsMisspelledAt, IsMisspelledName, IsMisspelling, IsThisWord, IsWordMeant, misspelling_of};

use crate::continuations::{Continuation, EVERY_CONTINUATION};
use crate::repairs::mending::{first_tokens, mends, tokens_behind};
use base::faults::UNEXPECTED_TOKEN;
use lexer::{Token, TokenKind, Word};
use remedies::{count_before, is_like};
use std::alloc::{AllocError, Global};

/// A reserved word that mends a text in place of the token with so many before it.
#[derive(Clone, Copy)]
pub struct Misspelling {
    pub number: usize,
    pub word: Word,
}

/// A token that may be misspelled, by how many tokens before the place of the fault it is, and with how many tokens after it the text has to go on.
#[derive(Clone, Copy)]
pub struct Reach {
    pub back: usize,
    pub far: usize,
}

/// The token at the place of the fault, and those before it; with each the text has to go on with four tokens after that place.
pub const REACHES: [Reach; 4] = [
    Reach { back: 0, far: 4 },
    Reach { back: 1, far: 5 },
    Reach { back: 2, far: 6 },
    Reach { back: 3, far: 7 },
];

// The word, where it is like the name and mends the text in its place.
fn this_word(
    alloc: Global,
    word: Word,
    name: &[u8],
    front: &[Token],
    after: &[Token],
    far: usize,
) -> Result<Option<Word>, AllocError>
    ensures { IfOk result (λ found. IsThisWord word name.now front.now after.now far found) }
{
    if is_like(name, word.spelling()) {
        let kind = TokenKind::Word(word);
        if mends(alloc, front, kind, after, far)? {
            return Ok(Some(word));
        }
    }
    Ok(None)
}

fn word_of(
    alloc: Global,
    continuation: Continuation,
    name: &[u8],
    front: &[Token],
    after: &[Token],
    far: usize,
) -> Result<Option<Word>, AllocError>
    ensures { IfOk result (λ found. IsWordMeant name.now front.now after.now far continuation found) }
{
    match continuation {
        Continuation::Word(word) => this_word(alloc, word, name, front, after, far),
        _ => Ok(None),
    }
}

fn first_word(
    alloc: Global,
    continuations: &[Continuation],
    name: &[u8],
    front: &[Token],
    after: &[Token],
    far: usize,
) -> Result<Option<Word>, AllocError>
    ensures { IfOk result (λ found. FirstOf (IsWordMeant name.now front.now after.now far) continuations.now found) }
{
    for continuation in continuations {
        if let Some(word) = word_of(alloc, *continuation, name, front, after, far)? {
            return Ok(Some(word));
        }
    }
    Ok(None)
}

fn misspelling_of(number: usize, word: Option<Word>) -> Option<Misspelling>
    ensures { result ≡ misspelling_of number word }
{
    match word {
        Some(word) => Some(Misspelling { number, word }),
        None => None,
    }
}

fn misspelled_name(
    alloc: Global,
    number: usize,
    far: usize,
    name: &[u8],
    front: &[Token],
    after: &[Token],
) -> Result<Option<Misspelling>, AllocError>
    ensures { IfOk result (λ found. IsMisspelledName number far name.now front.now after.now found) }
{
    let word = first_word(alloc, &EVERY_CONTINUATION, name, front, after, far)?;
    Ok(misspelling_of(number, word))
}

fn misspelled_as(
    alloc: Global,
    number: usize,
    far: usize,
    front: &[Token],
    kind: &TokenKind,
    after: &[Token],
) -> Result<Option<Misspelling>, AllocError>
    ensures { IfOk result (λ found. IsMisspelledAs number far front.now kind.now after.now found) }
{
    match kind {
        TokenKind::Identifier(name) => {
            misspelled_name(alloc, number, far, name.as_bytes(), front, after)
        }
        _ => Ok(None),
    }
}

fn misspelled_at(
    alloc: Global,
    count: usize,
    tokens: &[Token],
    reach: Reach,
) -> Result<Option<Misspelling>, AllocError>
    ensures { IfOk result (λ found. IsMisspelledAt count tokens.now reach found) }
{
    let number = count.saturating_sub(reach.back);
    match tokens_behind(number, tokens) {
        [token, after @ ..] => misspelled_as(
            alloc,
            number,
            reach.far,
            first_tokens(number, tokens),
            &token.kind,
            after,
        ),
        [] => Ok(None),
    }
}

fn first_misspelled(
    alloc: Global,
    reaches: &[Reach],
    count: usize,
    tokens: &[Token],
) -> Result<Option<Misspelling>, AllocError>
    ensures { IfOk result (λ found. FirstOf (IsMisspelledAt count tokens.now) reaches.now found) }
{
    for reach in reaches {
        if let Some(found) = misspelled_at(alloc, count, tokens, *reach)? {
            return Ok(Some(found));
        }
    }
    Ok(None)
}

/// The reserved word that mends a text with these tokens, refused at this place for a token that can't be there, in place of an identifier at the place or
/// close before it that is like the word: a letter more, less or other, or two exchanged. None where no such word does, and for other faults.
///
/// # Errors
/// Where memory was refused.
pub fn misspelling_at(
    alloc: Global,
    fault: u64,
    place: u32,
    tokens: &[Token],
) -> Result<Option<Misspelling>, AllocError>
    ensures { IfOk result (λ found. IsMisspelling fault place tokens.now found) }
{
    if fault == u64::from(UNEXPECTED_TOKEN) {
        first_misspelled(alloc, &REACHES, count_before(place, tokens), tokens)
    } else {
        Ok(None)
    }
}
