//! One edit of a text.
ghost use Rattle.std.specs.Prelude.{◌≡◌};

use ada2012_lexer::Span;
use std::marker::Model;

/// A part of a text, and what is written for it. Contracts see both, the bytes of the replacement as a list.
#[derive(Drop)]
pub struct Edit {
    span: Span,
    replacement: Vec<u8>,
}

impl Model for Edit {
    ghost use Rattle.text_edits.specs.Edits.{TextEdit};

    ghost Value = { TextEdit };

    ghost view = { λ e. record { span = e.span; replacement = e.replacement.items } };
}

impl Edit {
    pub(crate) fn new(span: Span, replacement: Vec<u8>) -> Edit
        ensures { result ≡ record { span = span; replacement = replacement.items } }
    {
        Edit { span, replacement }
    }

    /// The bytes of the text that are replaced.
    pub fn span(&self) -> Span
        ensures { result ≡ self.now.span }
    {
        self.span
    }

    /// What is written for them.
    pub fn replacement(&self) -> &[u8]
        ensures { result.now ≡ self.now.replacement }
    {
        &self.replacement
    }
}
