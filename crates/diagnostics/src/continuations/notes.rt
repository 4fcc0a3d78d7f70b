//! Reporting what may be at a place, in the words of the source.
ghost use Rattle.std.specs.Prelude.{◌≡◌, ◌++◌, flat_map, OnOk, IfOk};
ghost use Rattle.std.specs.List.{list_any};
ghost use Rattle.std.specs.Str.{str_to_ascii_lowercase};
ghost use Rattle.lexer.specs.Delimiters.{delimiter_text};
ghost use Rattle.lexer.specs.Words.{spelling};
ghost use Rattle.diagnostics.specs.continuations.Notes.{AreNotesOfPlace, begins_after_name, could_line, in_quotes, is_identifier, is_meant_as_name, more_of, name_of, reserved_line};

use crate::continuations::continuation::Continuation;
use crate::continuations::following::allowed;
use lexer::{Delimiter, Token, TokenKind, Word};
use std::alloc::{AllocError, Global};

fn delimiter_text(delimiter: Delimiter) -> &'static [u8]
    ensures { result.now ≡ delimiter_text delimiter }
{
    match delimiter {
        Delimiter::LeftParenthesis => b"(",
        Delimiter::RightParenthesis => b")",
        Delimiter::Comma => b",",
        Delimiter::Semicolon => b";",
        Delimiter::Colon => b":",
        Delimiter::Dot => b".",
        Delimiter::Apostrophe => b"'",
        Delimiter::Plus => b"+",
        Delimiter::Minus => b"-",
        Delimiter::Asterisk => b"*",
        Delimiter::Slash => b"/",
        Delimiter::Equals => b"=",
        Delimiter::LessThan => b"<",
        Delimiter::GreaterThan => b">",
        Delimiter::VerticalLine => b"|",
        Delimiter::Arrow => b"=>",
        Delimiter::DoubleDot => b"..",
        Delimiter::Assignment => b":=",
        Delimiter::Inequality => b"/=",
        Delimiter::LessOrEqual => b"<=",
        Delimiter::GreaterOrEqual => b">=",
    }
}

// The text in quotes, as the documents have what is written in a source.
fn put_in_quotes(out: &mut Vec<u8>, text: &[u8]) -> Result<(), AllocError>
    ensures { OnOk result (out.new.items ≡ out.old.items ++ in_quotes text.now) }
{
    out.push(b'`')?;
    out.extend_from_slice(text)?;
    out.push(b'`')?;
    Ok(())
}

fn put_word(alloc: Global, out: &mut Vec<u8>, word: Word) -> Result<(), AllocError>
    ensures { OnOk result (out.new.items ≡ out.old.items ++ in_quotes (str_to_ascii_lowercase (spelling word))) }
{
    let text = word.spelling().to_ascii_lowercase(alloc)?;
    put_in_quotes(out, &text)
}

fn put_name(alloc: Global, out: &mut Vec<u8>, continuation: Continuation) -> Result<(), AllocError>
    ensures { OnOk result (out.new.items ≡ out.old.items ++ name_of continuation) }
{
    match continuation {
        Continuation::Identifier => out.extend_from_slice(b"an identifier"),
        Continuation::Number => out.extend_from_slice(b"a number"),
        Continuation::Label => out.extend_from_slice(b"a label in quotes"),
        Continuation::Delimiter(delimiter) => put_in_quotes(out, delimiter_text(delimiter)),
        Continuation::Word(word) => put_word(alloc, out, word),
        Continuation::End => out.extend_from_slice(b"the end of the text"),
    }
}

// Each with a comma in front.
fn put_more(
    alloc: Global,
    out: &mut Vec<u8>,
    continuations: &[Continuation],
) -> Result<(), AllocError>
    ensures { OnOk result (out.new.items ≡ out.old.items ++ flat_map more_of continuations.now) }
{
    for continuation in continuations {
        out.extend_from_slice(b", ")?;
        put_name(alloc, out, *continuation)?;
    }
    Ok(())
}

fn put_could_line(
    alloc: Global,
    out: &mut Vec<u8>,
    continuations: &[Continuation],
) -> Result<(), AllocError>
    ensures { OnOk result (out.new.items ≡ out.old.items ++ could_line continuations.now) }
{
    out.extend_from_slice(b"could stand here: ")?;
    if let [first, rest @ ..] = continuations {
        put_name(alloc, out, *first)?;
        put_more(alloc, out, rest)?;
    }
    out.extend_from_slice(b"\n")
}

fn has_identifier(continuations: &[Continuation]) -> bool
    ensures { result ≡ list_any is_identifier continuations.now }
{
    continuations.iter().any(|continuation| matches!(continuation, Continuation::Identifier))
}

fn begins_after_name(after: &[Token]) -> bool
    ensures { result ≡ begins_after_name after.now }
{
    matches!(
        after,
        [
            Token {
                kind: TokenKind::Delimiter(Delimiter::Colon | Delimiter::Semicolon)
                    | TokenKind::Word(Word::Is),
                ..
            },
            ..
        ]
    )
}

// Whether a word is meant as a name that has this after it, where these could stand in its place.
fn is_meant_as_name(after: &[Token], continuations: &[Continuation]) -> bool
    ensures { result ≡ is_meant_as_name after.now continuations.now }
{
    has_identifier(continuations) && (continuations.len() == 1 || begins_after_name(after))
}

// Appends the line that reports a reserved word meant as a name, where one is.
fn put_reserved_line(
    alloc: Global,
    out: &mut Vec<u8>,
    back: &[Token],
    continuations: &[Continuation],
) -> Result<(), AllocError>
    ensures { OnOk result (out.new.items ≡ out.old.items ++ reserved_line back.now continuations.now) }
{
    match back {
        [
            Token {
                kind: TokenKind::Word(word),
                ..
            },
            after @ ..,
        ] if is_meant_as_name(after, continuations) => {
            put_word(alloc, out, *word)?;
            out.extend_from_slice(b" is a reserved word, and no identifier\n")
        }
        _ => Ok(()),
    }
}

/// What is reported of the place between two parts of the tokens of a text: a line with all that could be there, and another one where a
/// reserved word is there that is meant as a name: an identifier could, and nothing else, or `:`, `;` or `is` follows.
///
/// # Errors
/// Where memory was refused.
pub fn notes_of_place(alloc: Global, front: &[Token], back: &[Token]) -> Result<Vec<u8>, AllocError>
    ensures { IfOk result (λ text. AreNotesOfPlace front.now back.now text.items) }
{
    let continuations = allowed(alloc, front)?;
    let mut text = Vec::new(alloc);
    text.extend_from_slice(b"\n")?;
    put_could_line(alloc, &mut text, &continuations)?;
    put_reserved_line(alloc, &mut text, back, &continuations)?;
    Ok(text)
}
