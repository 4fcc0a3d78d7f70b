//! Looking at the next tokens.

use crate::parser::Parser;
use ada2012_lexer::{Delimiter, Token, TokenKind};
use lexer::Word;

impl<'a> Parser<'a> {
    /// Does this word come next?
    pub(crate) fn at_word(&self, word: Word) -> bool {
        matches!(
            self.rest,
            [
                Token {
                    kind: TokenKind::Word(next),
                    ..
                },
                ..
            ] if *next == word
        )
    }

    /// Does this delimiter come next?
    pub(crate) fn at_mark(&self, mark: Delimiter) -> bool {
        matches!(
            self.rest,
            [
                Token {
                    kind: TokenKind::Delimiter(next),
                    ..
                },
                ..
            ] if *next == mark
        )
    }

    /// The word that comes next, if one does.
    pub(crate) fn next_word(&self) -> Option<Word> {
        match self.rest {
            [
                Token {
                    kind: TokenKind::Word(word),
                    ..
                },
                ..
            ] => Some(*word),
            _ => None,
        }
    }

    /// Does an identifier come next?
    pub(crate) fn at_identifier(&self) -> bool {
        matches!(
            self.rest,
            [
                Token {
                    kind: TokenKind::Identifier(_),
                    ..
                },
                ..
            ]
        )
    }

    /// Does an identifier come next, and then this delimiter?
    pub(crate) fn at_identifier_before(&self, mark: Delimiter) -> bool {
        matches!(
            self.rest,
            [
                Token {
                    kind: TokenKind::Identifier(_),
                    ..
                },
                Token {
                    kind: TokenKind::Delimiter(next),
                    ..
                },
                ..
            ] if *next == mark
        )
    }
}
