//! What is to be changed in a text, as rules find it.

use crate::note::NoteKind;
use crate::source::Source;
use ada2012_lexer::Span;
use std::alloc::{AllocError, Global};

/// A part of the text, what is to be written for it, and what is to be said of that.
#[derive(Drop)]
pub struct Request {
    pub span: Span,
    pub replacement: Vec<u8>,
    pub note: Option<NoteKind>,
}

/// Why a construct can't be written in the language.
#[derive(Clone, Copy, PartialEq, Eq)]
pub enum RefusalKind {
    /// A named number is real.
    RealNumber,
    /// A named number is outside `-2**63 .. 2**63 - 1`, or its value raises an exception.
    NumberOutOfRange,
}

/// A construct that can't be written in the language, and the first byte of it.
#[derive(Clone, Copy)]
pub struct Refusal {
    pub kind: RefusalKind,
    pub place: u32,
}

/// What is to be changed in a text, and the first construct that can't be.
#[derive(Drop)]
pub struct Changes<'a> {
    pub alloc: Global,
    pub source: Source<'a>,
    pub requests: Vec<Request>,
    pub refusal: Option<Refusal>,
    /// Where the last object was declared that this round has in a body: each body gets one, so that names that are made up differ.
    pub declared_at: Option<u32>,
}

impl<'a> Changes<'a> {
    /// None yet.
    pub fn new(alloc: Global, source: Source<'a>) -> Changes<'a> {
        Changes {
            alloc,
            source,
            requests: Vec::new(alloc),
            refusal: None,
            declared_at: None,
        }
    }

    /// Asks for these bytes in the place of a span.
    pub fn replace(
        &mut self,
        span: Span,
        replacement: Vec<u8>,
        note: Option<NoteKind>,
    ) -> Result<(), AllocError> {
        self.requests.push(Request {
            span,
            replacement,
            note,
        })?;
        Ok(())
    }

    /// Asks for these words in the place of a span.
    pub fn write(&mut self, span: Span, words: &[u8]) -> Result<(), AllocError> {
        let mut replacement = Vec::new(self.alloc);
        replacement.extend_from_slice(words)?;
        self.replace(span, replacement, None)
    }

    /// Asks for these words at a place, before what is there.
    pub fn insert(&mut self, place: u32, words: &[u8]) -> Result<(), AllocError> {
        self.write(
            Span {
                start: place,
                end_: place,
            },
            words,
        )
    }

    /// Asks for these words and then a copy of a name at a place, before what is there.
    pub fn insert_name(&mut self, place: u32, words: &[u8], name: Span) -> Result<(), AllocError> {
        let mut replacement = Vec::new(self.alloc);
        replacement.extend_from_slice(words)?;
        self.source.copy(name, &mut replacement)?;
        self.replace(
            Span {
                start: place,
                end_: place,
            },
            replacement,
            None,
        )
    }

    /// Has a rule asked for an edit, or refused something?
    pub fn is_settled(&self) -> bool {
        !self.requests.is_empty() || self.refusal.is_some()
    }

    /// Refuses a construct, if none was refused before.
    pub fn refuse(&mut self, kind: RefusalKind, place: u32) {
        if self.refusal.is_none() {
            self.refusal = Some(Refusal { kind, place });
        }
    }
}
