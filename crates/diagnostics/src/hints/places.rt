//! Places of a text.
ghost use Rattle.std.specs.Prelude.{◌≡◌, ◌≤◌, ◌++◌, IfOk, length, OnOk, option_map, slice_get};
ghost use Rattle.diagnostics.specs.hints.Places.{after_empty, column_from, line_from, line_start, name_at, name_of_kind, name_of_token, name_or_none, place_text, start_of};
ghost use Rattle.remedies.specs.Likeness.{name_of};
ghost use Rattle.remedies.specs.Recognition.{kind_at};

use itoa::Buffer;
use lexer::{Text, Token, TokenKind};
use remedies::TextTokens;
use std::alloc::{AllocError, Global};

fn name_of_kind(kind: &TokenKind) -> Option<&Text>
    ensures { option_map (λ name. name.now) result ≡ name_of_kind kind.now }
{
    match kind {
        TokenKind::Identifier(name) => Some(name),
        _ => None,
    }
}

fn name_of_token(token: Option<&Token>) -> Option<&Text>
    ensures { option_map (λ name. name.now) result ≡ name_of_token (option_map (λ t. t.now) token.entry) }
{
    match token {
        Some(token) => name_of_kind(&token.kind),
        None => None,
    }
}

/// The name of the identifier that begins at the place, if one does.
pub(crate) fn name_at(place: u32, tokens: &TextTokens) -> Option<&Text>
    ensures { option_map (λ name. name.now) result ≡ name_at place tokens.now }
{
    name_of_token(tokens.at(place))
}

/// The name of the first of these tokens that begins at the place, if it is an identifier.
pub(crate) fn first_name_at(place: u32, tokens: &[Token]) -> Option<&Text>
    ensures { option_map (λ name. name.now) result ≡ name_at place tokens.now }
{
    for token in tokens {
        if token.start == place {
            return name_of_kind(&token.kind);
        }
    }
    None
}

/// The line after the text, from 1.
pub fn line_after(text: &[u8]) -> usize
    ensures { result ≡ line_from 1 text.now }
{
    let mut line = 1usize;
    for c in text {
        if *c == b'\n' {
            line += 1;
        }
    }
    line
}

/// Where the line begins on which the text ends.
pub fn line_start(text: &[u8]) -> usize
    ensures start { result ≡ line_start 0 0 text.now }
    ensures most { result ≤ length text.now }
{
    let mut start = text.len();
    while start > 0 {
        if text[start - 1] == b'\n' {
            return start;
        }
        start -= 1;
    }
    0
}

/// The column after the text, from 1 and in bytes.
pub fn column_after(text: &[u8]) -> usize
    ensures { result ≡ column_from 1 text.now }
{
    text.len() - line_start(text) + 1
}

/// Adds the line and the column of a place of the text.
///
/// # Errors
/// Where memory was refused.
pub fn put_place(out: &mut Vec<u8>, text: &[u8], place: u32) -> Result<(), AllocError>
    ensures { OnOk result (out.new.items ≡ out.old.items ++ place_text text.now place) }
{
    let front = &text[..(place as usize).min(text.len())];
    out.extend_from_slice(Buffer::new().format(line_after(front)).as_bytes())?;
    out.extend_from_slice(b":")?;
    out.extend_from_slice(Buffer::new().format(column_after(front)).as_bytes())
}

/// An empty line, and after it the lines; nothing where there are none.
///
/// # Errors
/// Where memory was refused.
pub(crate) fn after_empty(alloc: Global, lines: &[u8]) -> Result<Vec<u8>, AllocError>
    ensures { IfOk result (λ notes. notes.items ≡ after_empty lines.now) }
{
    let mut notes = Vec::new(alloc);
    if !lines.is_empty() {
        notes.extend_from_slice(b"\n")?;
        notes.extend_from_slice(lines)?;
    }
    Ok(notes)
}

/// Where the token with so many before it begins; 0 where there is none.
pub(crate) fn start_at(number: usize, list: &[Token]) -> u32
    ensures { result ≡ start_of (slice_get list.now number) }
{
    match list.get(number) {
        Some(token) => token.start,
        None => 0,
    }
}

/// The name of an identifier; none of another token.
pub(crate) fn name_or_none(number: usize, list: &[Token]) -> &[u8]
    ensures { result.now ≡ name_or_none (name_of (kind_at number list.now)) }
{
    match list.get(number) {
        Some(
            Token {
                kind: TokenKind::Identifier(name),
                ..
            },
        ) => name.as_bytes(),
        _ => &[],
    }
}
