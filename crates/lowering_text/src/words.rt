//! Words put together.

use crate::changes::Changes;
use ada2012_lexer::Span;
use itoa::Buffer;
use std::alloc::AllocError;

/// Adds these parts, one after the other.
pub fn put_all(words: &mut Vec<u8>, parts: &[&[u8]]) -> Result<(), AllocError> {
    for part in parts {
        words.extend_from_slice(part)?;
    }
    Ok(())
}

impl<'a> Changes<'a> {
    /// The tokens of a span.
    pub fn copied(&self, span: Span) -> Result<Vec<u8>, AllocError> {
        let mut words = Vec::new(self.alloc);
        self.source.copy(span, &mut words)?;
        Ok(words)
    }

    /// These parts, one after the other.
    pub fn joined(&self, parts: &[&[u8]]) -> Result<Vec<u8>, AllocError> {
        let mut words = Vec::new(self.alloc);
        put_all(&mut words, parts)?;
        Ok(words)
    }

    /// Writes a value, in parentheses where it is below 0.
    pub fn write_value(&mut self, span: Span, value: i64) -> Result<(), AllocError> {
        let mut buffer = Buffer::new();
        let number = buffer.format(value).as_bytes();
        let words = if value < 0 {
            self.joined(&[b"(", number, b")"])?
        } else {
            self.joined(&[number])?
        };
        self.replace(span, words, None)
    }
}
