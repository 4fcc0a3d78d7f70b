//! Tokens.

use crate::{Delimiter, Word};
use base::Text;

/// What a token is (RM 2.2).
#[derive(Clone, Debug, Drop, PartialEq, Eq)]
pub enum TokenKind {
    /// An identifier that is no reserved word, by its name.
    Identifier(Text),
    /// A reserved word.
    Word(Word),
    /// A decimal literal, by its value: at most 2**63 - 1.
    Number(i64),
    /// A string literal, by the text between its quotes.
    Label(Text),
    /// A delimiter.
    Delimiter(Delimiter),
}

/// A token, and the bytes of the text that it takes: those from `start` on, up to `end_`, which is the place after its last byte.
#[derive(Clone, Debug, Drop, PartialEq, Eq)]
pub struct Token {
    pub kind: TokenKind,
    pub start: u32,
    pub end_: u32,
}
