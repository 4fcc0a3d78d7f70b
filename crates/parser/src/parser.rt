//! What is left of the tokens, and reading one of them.
ghost use Rattle.std.specs.Prelude.{◌≡◌, length};
ghost use Rattle.lexer.specs.declared.token.TokenKind.TheVariants as kinds;
ghost use Rattle.parser.specs.declared.refusal.Refusal.TheVariants as refusals;
ghost use Rattle.parser.specs.Reading.{Gives, first, behind, word_of, mark_of, is_word, is_mark, identifier_of, OpensLevel};

use crate::refusal::{Broken, Refusal};
use ada_tree::Identifier;
use lexer::{Delimiter, Token, TokenKind, Word};
use std::alloc::Global;

/// The tokens that are still to be read.
#[derive(Drop)]
pub(crate) struct Parser<'a> {
    pub(crate) alloc: Global,
    pub(crate) rest: &'a [Token],
}

impl<'a> Parser<'a> {
    /// The next token cannot be here, or opens too many levels.
    pub(crate) fn refusal(&self, deep: bool) -> Refusal
        ensures { result ≡ refusals.Broken (record { deep = deep; left = length self.now.rest.now }) }
    {
        Refusal::Broken(Broken {
            deep,
            left: self.rest.len(),
        })
    }

    /// The levels that may be opened inside the next token, which opens one.
    pub(crate) fn open(&self, levels: u8) -> Result<u8, Refusal>
        ensures { OpensLevel levels self.now.rest.now result }
    {
        if levels == 0 {
            return Err(self.refusal(true));
        }
        Ok(levels - 1)
    }

    /// Goes past the next token.
    pub(crate) fn pass(&mut self)
        ensures { self.new.rest.now ≡ behind self.old.rest.now }
    {
        if let [_, rest @ ..] = self.rest {
            self.rest = rest;
        }
    }

    /// Goes past this word, and gives its place.
    pub(crate) fn word(&mut self, word: Word) -> Result<u32, Refusal>
        ensures { Gives (λ place. place) result self.new.rest.now (word_of word self.old.rest.now) }
    {
        match self.rest {
            [
                Token {
                    kind: TokenKind::Word(next),
                    start,
                    ..
                },
                rest @ ..,
            ] if *next == word => {
                self.rest = rest;
                Ok(*start)
            }
            _ => Err(self.refusal(false)),
        }
    }

    /// Goes past this delimiter, and gives its place.
    pub(crate) fn mark(&mut self, mark: Delimiter) -> Result<u32, Refusal>
        ensures { Gives (λ place. place) result self.new.rest.now (mark_of mark self.old.rest.now) }
    {
        match self.rest {
            [
                Token {
                    kind: TokenKind::Delimiter(next),
                    start,
                    ..
                },
                rest @ ..,
            ] if *next == mark => {
                self.rest = rest;
                Ok(*start)
            }
            _ => Err(self.refusal(false)),
        }
    }

    /// Goes past an identifier.
    #[inline(never)]
    pub(crate) fn identifier(&mut self) -> Result<Identifier, Refusal>
        ensures { Gives (λ identifier. identifier) result self.new.rest.now (identifier_of self.old.rest.now) }
    {
        match self.rest {
            [
                Token {
                    kind: TokenKind::Identifier(name),
                    start,
                    ..
                },
                rest @ ..,
            ] => {
                self.rest = rest;
                Ok(Identifier {
                    name: name.clone()?,
                    place: *start,
                })
            }
            _ => Err(self.refusal(false)),
        }
    }

    /// Does this word come next?
    pub(crate) fn at_word(&self, word: Word) -> bool
        ensures { result ≡ is_word word (first self.now.rest.now) }
    {
        match self.rest {
            [
                Token {
                    kind: TokenKind::Word(next),
                    ..
                },
                ..
            ] => *next == word,
            _ => false,
        }
    }

    /// Does this delimiter come next?
    pub(crate) fn at_mark(&self, mark: Delimiter) -> bool
        ensures { result ≡ is_mark mark (first self.now.rest.now) }
    {
        match self.rest {
            [
                Token {
                    kind: TokenKind::Delimiter(next),
                    ..
                },
                ..
            ] => *next == mark,
            _ => false,
        }
    }
}
