//! A text with its tokens, in which rules look around.

use ada2012_lexer::{Delimiter, Span, Token, TokenKind};
use base::Text;
use lexer::Word;
use std::alloc::AllocError;

/// A text and its tokens.
#[derive(Clone, Copy)]
pub struct Source<'a> {
    pub text: &'a [u8],
    pub tokens: &'a [Token],
}

impl<'a> Source<'a> {
    /// How many tokens begin before the place: the number of the first that doesn't.
    pub fn number_from(&self, place: u32) -> usize {
        self.tokens.partition_point(|token| token.start < place)
    }

    /// The first token that begins at the place or after it.
    pub fn token_from(&self, place: u32) -> Option<&'a Token> {
        self.tokens.get(self.number_from(place))
    }

    /// The last token that begins before the place.
    pub fn token_before(&self, place: u32) -> Option<&'a Token> {
        self.tokens.get(self.number_from(place).checked_sub(1)?)
    }

    /// The tokens that begin from one place on and before another one.
    pub fn between(&self, from: u32, to: u32) -> &'a [Token] {
        match self
            .tokens
            .get(self.number_from(from)..self.number_from(to))
        {
            Some(tokens) => tokens,
            None => &[],
        }
    }

    /// The first token of this word from the place on.
    pub fn word_from(&self, place: u32, word: Word) -> Option<&'a Token> {
        let rest = self.tokens.get(self.number_from(place)..)?;
        rest.iter().find(|token| is_word(token, word))
    }

    /// The bytes of a span; none where it isn't in the text.
    pub fn bytes(&self, span: Span) -> &'a [u8] {
        match self.text.get(span.start as usize..span.end_ as usize) {
            Some(bytes) => bytes,
            None => &[],
        }
    }

    /// Adds the tokens of a span, with a space between two that aren't joined: without comments and line feeds.
    pub fn copy(&self, span: Span, out: &mut Vec<u8>) -> Result<(), AllocError> {
        let Some(rest) = self.tokens.get(self.number_from(span.start)..) else {
            return Ok(());
        };
        let mut end = span.start;
        for token in rest {
            if span.end_ <= token.start {
                return Ok(());
            }
            if end < token.start {
                out.push(b' ')?;
            }
            out.extend_from_slice(self.bytes(span_of(token)))?;
            end = token.end_;
        }
        Ok(())
    }

    /// Is there such a delimiter in a span?
    pub fn has_mark(&self, mark: Delimiter, span: Span) -> bool {
        let Some(rest) = self.tokens.get(self.number_from(span.start)..) else {
            return false;
        };
        rest.iter()
            .any(|token| token.start < span.end_ && is_mark(token, mark))
    }

    /// How often an identifier occurs in a span.
    pub fn count(&self, name: &Text, span: Span) -> usize {
        let Some(rest) = self.tokens.get(self.number_from(span.start)..) else {
            return 0;
        };
        rest.iter()
            .filter(|token| token.start < span.end_ && is_name(token, name))
            .count()
    }
}

/// The bytes that a token takes.
pub fn span_of(token: &Token) -> Span {
    Span {
        start: token.start,
        end_: token.end_,
    }
}

/// Is a token this reserved word?
pub fn is_word(token: &Token, word: Word) -> bool {
    match token.kind {
        TokenKind::Word(own) => own == word,
        _ => false,
    }
}

/// Is a token this delimiter?
pub fn is_mark(token: &Token, mark: Delimiter) -> bool {
    match token.kind {
        TokenKind::Delimiter(own) => own == mark,
        _ => false,
    }
}

/// Is a token this identifier?
pub fn is_name(token: &Token, name: &Text) -> bool {
    match &token.kind {
        TokenKind::Identifier(own) => own.as_bytes() == name.as_bytes(),
        _ => false,
    }
}
