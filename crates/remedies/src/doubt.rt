//! What may be why an `end` doesn't close what it is meant to close.
ghost use Rattle.std.specs.Prelude.{◌≡◌, ◌≤◌, ◌-◌, length, option_map};
ghost use Rattle.remedies.specs.Likeness.{first_where};
ghost use Rattle.remedies.specs.Doubts.{doubt_of, doubtful_from, is_doubtful, is_else, is_end_word, is_if, is_if_after_else};

use crate::name::{Name, name_text};
use crate::row::kind_at;
use lexer::{Token, TokenKind, Word};

/// Why what is open may not be closed. Tokens are given by how many are before them.
#[derive(Clone, Copy)]
pub enum Doubt {
    /// This `else` is followed by `if`.
    ElseIf(usize),
    /// This identifier has the words of an `end` in one.
    EndWord(usize),
}

fn is_else(kind: Option<&TokenKind>) -> bool
    ensures { result ≡ is_else (option_map (λ k. k.now) kind.entry) }
{
    matches!(kind, Some(TokenKind::Word(Word::Else)))
}

fn is_if(kind: Option<&TokenKind>) -> bool
    ensures { result ≡ is_if (option_map (λ k. k.now) kind.entry) }
{
    matches!(kind, Some(TokenKind::Word(Word::If)))
}

fn is_end_word(kind: Option<&TokenKind>) -> bool
    ensures { result ≡ is_end_word (option_map (λ k. k.now) kind.entry) }
{
    match kind {
        Some(TokenKind::Identifier(name)) => {
            let name = name.as_bytes();
            name == name_text(Name::EndIf)
                || name == name_text(Name::EndLoop)
                || name == name_text(Name::EndCase)
        }
        _ => false,
    }
}

fn is_if_after_else(tokens: &[Token], number: usize) -> bool
    requires { number ≤ length tokens.now }
    ensures { result ≡ is_if_after_else tokens.now number }
{
    is_else(kind_at(number, tokens)) && is_if(kind_at(number + 1, tokens))
}

fn is_doubtful(tokens: &[Token], number: usize) -> bool
    requires { number ≤ length tokens.now }
    ensures { result ≡ is_doubtful tokens.now number }
{
    is_if_after_else(tokens, number) || is_end_word(kind_at(number, tokens))
}

// The first doubtful token from the one with so many before it on.
fn first_doubtful(tokens: &[Token], from: usize) -> Option<usize>
    ensures { result ≡ first_where (is_doubtful tokens.now) from (length tokens.now - from) }
{
    let mut number = from;
    while number < tokens.len() {
        if is_doubtful(tokens, number) {
            return Some(number);
        }
        number += 1;
    }
    None
}

fn doubt_of(tokens: &[Token], number: Option<usize>) -> Option<Doubt>
    ensures { result ≡ doubt_of tokens.now number }
{
    match number {
        Some(number) => Some(if is_end_word(kind_at(number, tokens)) {
            Doubt::EndWord(number)
        } else {
            Doubt::ElseIf(number)
        }),
        None => None,
    }
}

/// What from the token with so many before it on may be why what begins there isn't closed: an `else` that `if` follows, or an `end` whose words are one.
pub fn doubtful_from(number: usize, tokens: &[Token]) -> Option<Doubt>
    ensures { result ≡ doubtful_from number tokens.now }
{
    doubt_of(tokens, first_doubtful(tokens, number))
}
