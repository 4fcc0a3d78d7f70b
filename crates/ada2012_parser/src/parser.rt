//! What is left of the tokens, and reading one of them.
ghost use Rattle.ada2012_tree.specs.Spans.{NoTrees, only};
ghost use Rattle.std.specs.Prelude.{◌≡◌, ◌<◌, ◌+◌, IfOk, OnOk, length};
ghost use Rattle.ada2012_tree.specs.ExpressionSpans.{identifier_spans, leaf};
ghost use Rattle.ada2012_parser.specs.Reading.{ReadsSome, here};

use crate::fault::{Found, Stop};
use crate::{Expected, FaultKind, LeftOut};
use ada2012_lexer::{Delimiter, Span, Token, TokenKind};
use ada2012_tree::Identifier;
use lexer::Word;
use std::alloc::Global;

/// The tokens that are still to be read, and the byte after the last one that was.
#[derive(Drop)]
pub(crate) struct Parser<'a> {
    pub(crate) alloc: Global,
    pub(crate) rest: &'a [Token],
    pub(crate) last: u32,
}

impl<'a> Parser<'a> {
    fn found(&self, kind: FaultKind) -> Stop {
        Stop::Found(Found {
            kind,
            left: self.rest.len(),
        })
    }

    /// The next token can't be here.
    pub(crate) fn unexpected(&self, expected: Expected) -> Stop {
        self.found(FaultKind::Unexpected(expected))
    }

    /// The next token begins what isn't taken.
    pub(crate) fn left_out(&self, what: LeftOut) -> Stop {
        self.found(FaultKind::LeftOut(what))
    }

    /// The levels that may be opened inside the next token, which opens one.
    pub(crate) fn open(&self, levels: u8) -> Result<u8, Stop>
        ensures { IfOk result (λ inside. inside + 1 ≡ levels) }
    {
        if levels == 0 {
            return Err(self.found(FaultKind::TooManyLevels));
        }
        Ok(levels - 1)
    }

    /// Where the next token begins. Where tokens overlap, which those of a text don't, what is read next begins where the last one ends.
    pub(crate) fn here(&self) -> u32
        ensures { result ≡ here self.now }
    {
        match self.rest {
            [token, ..] => self.last.max(token.start),
            [] => self.last,
        }
    }

    /// From this byte to the end of what was read.
    pub(crate) fn since(&self, start: u32) -> Span
        ensures start { result.start ≡ start }
        ensures end_ { result.end_ ≡ self.now.last }
    {
        Span {
            start,
            end_: self.last,
        }
    }

    /// Passes the next token.
    pub(crate) fn pass(&mut self) -> Span
        requires { 0 < length self.old.rest.now }
        ensures { ReadsSome (here self.old) self.old self.new (only (leaf result)) }
    {
        let [token, rest @ ..] = self.rest else {
            unreachable!()
        };
        let start = self.last.max(token.start);
        self.last = start.max(token.end_);
        self.rest = rest;
        self.since(start)
    }

    /// Passes this word, and returns its span.
    pub(crate) fn word_span(&mut self, word: Word) -> Result<Span, Stop>
        ensures { IfOk result (λ span. ReadsSome (here self.old) self.old self.new (only (leaf span))) }
    {
        match self.rest {
            [
                Token {
                    kind: TokenKind::Word(next),
                    ..
                },
                ..
            ] if *next == word => Ok(self.pass()),
            _ => Err(self.unexpected(Expected::Word(word))),
        }
    }

    /// Passes this word.
    pub(crate) fn word(&mut self, word: Word) -> Result<(), Stop>
        ensures { OnOk result (ReadsSome (here self.old) self.old self.new NoTrees) }
    {
        self.word_span(word)?;
        Ok(())
    }

    /// Passes this delimiter.
    pub(crate) fn mark(&mut self, mark: Delimiter) -> Result<(), Stop>
        ensures { OnOk result (ReadsSome (here self.old) self.old self.new NoTrees) }
    {
        match self.rest {
            [
                Token {
                    kind: TokenKind::Delimiter(next),
                    ..
                },
                ..
            ] if *next == mark => {
                self.pass();
                Ok(())
            }
            _ => Err(self.unexpected(Expected::Delimiter(mark))),
        }
    }

    /// Reads an identifier.
    #[inline(never)]
    pub(crate) fn identifier(&mut self) -> Result<Identifier, Stop>
        ensures { IfOk result (λ identifier. ReadsSome (here self.old) self.old self.new (only (identifier_spans identifier))) }
    {
        match self.rest {
            [
                Token {
                    kind: TokenKind::Identifier(name),
                    ..
                },
                ..
            ] => {
                let name = name.clone()?;
                Ok(Identifier {
                    span: self.pass(),
                    name,
                })
            }
            _ => Err(self.unexpected(Expected::Identifier)),
        }
    }
}
