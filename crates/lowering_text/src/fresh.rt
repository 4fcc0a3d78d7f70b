//! Names that are made up: no identifier of the text is like one.

use crate::source::Source;
use ada2012_lexer::{Span, TokenKind};
use itoa::Buffer;
use std::alloc::{AllocError, Global};

// The most characters of a name that are kept before its end: an identifier of the language has 40.
const BEGINNING: usize = 24;

/// The first characters of an identifier, without an underline at their end.
pub fn beginning_of(identifier: &[u8]) -> &[u8] {
    let first = match identifier.get(..BEGINNING) {
        Some(first) => first,
        None => identifier,
    };
    match first {
        [rest @ .., b'_'] => rest,
        _ => first,
    }
}

// Is this the name in upper case?
fn is_upper_of(upper: &[u8], name: &[u8]) -> bool {
    if upper.len() != name.len() {
        return false;
    }
    for (left, right) in upper.iter().zip(name.iter()) {
        if *left != right.to_ascii_uppercase() {
            return false;
        }
    }
    true
}

impl<'a> Source<'a> {
    // Is there an identifier of these characters, whatever the case of letters?
    fn has_identifier(&self, name: &[u8]) -> bool {
        self.tokens.iter().any(|token| match &token.kind {
            TokenKind::Identifier(own) => is_upper_of(own.as_bytes(), name),
            _ => false,
        })
    }

    /// A name that no identifier of the text is like: these words, cut to 24 characters, with this end, and a number where it is needed.
    pub fn fresh_word(
        &self,
        alloc: Global,
        words: &[u8],
        end: &[u8],
    ) -> Result<Vec<u8>, AllocError> {
        let mut name = Vec::new(alloc);
        name.extend_from_slice(beginning_of(words))?;
        name.extend_from_slice(end)?;
        for number in 2..self.tokens.len() {
            if !self.has_identifier(&name) {
                return Ok(name);
            }
            let mut buffer = Buffer::new();
            name = Vec::new(alloc);
            name.extend_from_slice(beginning_of(words))?;
            name.extend_from_slice(end)?;
            name.push(b'_')?;
            name.extend_from_slice(buffer.format(number).as_bytes())?;
        }
        Ok(name)
    }

    /// A name that no identifier of the text is like: that at the span, cut to 24 characters, with this end, and a number where it is needed.
    pub fn fresh_name(
        &self,
        alloc: Global,
        identifier: Span,
        end: &[u8],
    ) -> Result<Vec<u8>, AllocError> {
        self.fresh_word(alloc, self.bytes(identifier), end)
    }
}
