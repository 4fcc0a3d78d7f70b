//! From a text and its tokens to its layout.
ghost use Rattle.std.specs.Prelude.{◌≡◌, ◌≤◌, drop, length, option_map};
ghost use Rattle.std.specs.List.{prefix_len};
ghost use Rattle.lexer.specs.Characters as characters;
ghost use Rattle.lexer.specs.Spelling.{Spells};
ghost use Rattle.printing.specs.Pieces.{first_kind, token_at};
ghost use Rattle.printing.specs.Layout.{GivesText, formatted, symbol_in};

use crate::Refusal;
use crate::progress::Progress;
use crate::symbol::{Symbol, symbol_of};
use base::limits::TEXT_LIMIT;
use lexer::Token;
use std::alloc::Global;

fn is_white(character: u8) -> bool
    ensures { result ≡ characters.is_white character }
{
    matches!(character, b'\t' | b'\n' | b'\r' | b' ')
}

// How many bytes the comment at the front of a text has: all up to the end of its line.
fn comment_length(text: &[u8]) -> usize
    ensures value { result ≡ prefix_len characters.stays_on_line text.now }
    ensures in_text { result ≤ length text.now }
{
    text.iter().take_while(|c| **c != b'\n').count()
}

// The first of the tokens, if it begins at the place.
fn token_at(tokens: &[Token], place: usize) -> Option<&Token>
    ensures { option_map (λ token. token.now) result ≡ token_at place tokens.now }
{
    match tokens {
        [token, ..] => {
            if token.start as usize == place {
                Some(token)
            } else {
                None
            }
        }
        [] => None,
    }
}

fn first_symbol(tokens: &[Token]) -> Option<Symbol>
    ensures { result ≡ symbol_in (first_kind tokens.now) }
{
    match tokens {
        [token, ..] => Some(symbol_of(&token.kind)),
        [] => None,
    }
}

fn without_first(tokens: &[Token]) -> &[Token]
    ensures { result.now ≡ drop 1 tokens.now }
{
    match tokens {
        [_, rest @ ..] => rest,
        [] => tokens,
    }
}

/// The layout of a text that these tokens spell (docs/FORMATS.md, "Layout").
///
/// # Errors
/// `TooLong` where the layout has more bytes than a text may have, `Memory` where memory was refused.
pub fn format(alloc: Global, text: &[u8], tokens: &[Token]) -> Result<Vec<u8>, Refusal>
    requires { Spells text.now tokens.now }
    ensures { (spells : Spells text.now tokens.now) → GivesText result (formatted spells) }
{
    let mut out = Vec::new(alloc);
    let mut progress = Progress::new(alloc);
    let mut left = tokens;
    let mut start = 0;
    let mut at = 0;
    while at < text.len() {
        if is_white(text[at]) {
            at += 1;
        } else if let Some(token) = token_at(left, at) {
            let end = token.end_ as usize;
            let white = &text[start..at];
            let element = &text[at..end];
            progress.put_token(&mut out, white, symbol_of(&token.kind), element)?;
            left = without_first(left);
            start = end;
            at = end;
        } else {
            let end = at + comment_length(&text[at..]);
            let white = &text[start..at];
            let comment = &text[at..end];
            let shown = comment.trim_ascii_end();
            progress.put_comment(&mut out, white, shown, first_symbol(left))?;
            start = end;
            at = end;
        }
    }
    progress.put_ending(&mut out)?;
    if out.len() > TEXT_LIMIT {
        return Err(Refusal::TooLong);
    }
    Ok(out)
}
