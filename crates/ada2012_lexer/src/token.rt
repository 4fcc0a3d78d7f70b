//! Tokens and comments.

use crate::Delimiter;
use base::Text;
use lexer::Word;

/// What a token is (RM 2.2).
#[derive(Drop, PartialEq, Eq)]
pub enum TokenKind {
    /// An identifier that is no reserved word, by its name: its characters, with the letters in upper case (RM 2.3).
    Identifier(Text),
    /// A reserved word, whatever the case of its letters (RM 2.9).
    Word(Word),
    /// A numeric literal without a point, decimal or based (RM 2.4), by its value where that is at most 2**63 - 1.
    Integer(Option<u64>),
    /// A numeric literal with a point (RM 2.4).
    Real,
    /// A character literal, by its character (RM 2.5).
    Character(u8),
    /// A string literal (RM 2.6). Its text is between the first and the last byte of its span, with each quotation mark doubled.
    StringLiteral,
    /// A delimiter, simple or compound (RM 2.2).
    Delimiter(Delimiter),
}

/// A token, and the bytes of the text that it takes: those from `start` on, up to `end_`, which is the place after its last byte.
#[derive(Drop, PartialEq, Eq)]
pub struct Token {
    pub kind: TokenKind,
    pub start: u32,
    pub end_: u32,
}

/// The bytes of a text that a comment takes, its hyphens among them: those from `start` on, up to `end_`, which is the place after its last byte (RM 2.7).
#[derive(Clone, Copy, PartialEq, Eq)]
pub struct Span {
    pub start: u32,
    pub end_: u32,
}

/// The lexical elements of a text, in their order: its tokens, and beside them its comments.
#[derive(Drop)]
pub struct LexicalElements {
    pub tokens: Vec<Token>,
    pub comments: Vec<Span>,
}
