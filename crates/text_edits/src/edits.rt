//! Edits of one text, and the text with them.
ghost use Rattle.std.specs.Prelude.{◌≡◌, ◌++◌, ◌↔◌, [], length, replicate, true, IfOk, OnErr, OnOk};
ghost use Rattle.text_edits.specs.Edits.{IsEdited, edited, end_of, in_one_line, is_after, line_feed, line_feeds, replacement_of, with_edit};

use crate::{Edit, Places};
use ada2012_lexer::Span;
use std::alloc::{AllocError, Global};
use std::marker::Model;

/// Edits of a text, in its order: none begins before the end of the one before it, and each has as many line feeds as the part that it replaces.
#[derive(Drop)]
pub struct Edits<'a> {
    text: &'a [u8],
    edits: Vec<Edit>,
}

impl<'a> Model for Edits<'a> {
    ghost use Rattle.text_edits.specs.Edits.{AreEditsFrom, EditedText};

    ghost Value = { EditedText };

    ghost view = { λ e. record { text = e.text.now; edits = e.edits.items } };

    ghost invariant = { λ e. AreEditsFrom 0 e.text.now e.edits.items };
}

fn line_feeds(text: &[u8]) -> usize
    ensures { result ≡ line_feeds text.now }
{
    text.iter().filter(|c| **c == b'\n').count()
}

// Where the last of the edits ends.
fn end_of(edits: &[Edit]) -> u32
    ensures { result ≡ end_of edits.now }
{
    match edits {
        [.., last] => last.span().end_,
        [] => 0,
    }
}

// Does the span lie in a text of so many bytes, after all edits up to this place?
fn is_after(end: u32, length: usize, span: Span) -> bool
    ensures { result ≡ is_after end length span }
{
    end <= span.start && span.start <= span.end_ && span.end_ as usize <= length
}

// Adds the text with spaces for its line feeds.
fn put_in_one_line(out: &mut Vec<u8>, text: &[u8]) -> Result<(), AllocError>
    ensures { OnOk result (out.new.items ≡ out.old.items ++ in_one_line text.now) }
{
    for c in text {
        out.push(if *c == b'\n' { b' ' } else { *c })?;
    }
    Ok(())
}

fn put_line_feeds(out: &mut Vec<u8>, count: usize) -> Result<(), AllocError>
    ensures { OnOk result (out.new.items ≡ out.old.items ++ replicate count line_feed) }
{
    let mut added = 0;
    while added < count {
        out.push(b'\n')?;
        added += 1;
    }
    Ok(())
}

// The replacement, in one line, and then as many line feeds as there are in what it replaces.
fn replacement_of(alloc: Global, replaced: &[u8], replacement: &[u8]) -> Result<Vec<u8>, AllocError>
    ensures { IfOk result (λ new. new.items ≡ replacement_of replaced.now replacement.now) }
{
    let mut new = Vec::new(alloc);
    put_in_one_line(&mut new, replacement)?;
    put_line_feeds(&mut new, line_feeds(replaced))?;
    Ok(new)
}

impl<'a> Edits<'a> {
    /// No edits of this text.
    pub fn new(alloc: Global, text: &'a [u8]) -> Edits<'a>
        ensures { result ≡ record { text = text.now; edits = [] } }
    {
        Edits {
            text,
            edits: Vec::new(alloc),
        }
    }

    /// The text without the edits.
    pub fn text(&self) -> &'a [u8]
        ensures { result.now ≡ self.now.text }
    {
        self.text
    }

    /// Are there none?
    pub fn is_empty(&self) -> bool
        ensures { result ≡ true ↔ self.now.edits ≡ [] }
    {
        self.edits.is_empty()
    }

    /// Does an edit of this span come after all others?
    pub fn has_room(&self, span: Span) -> bool
        ensures { result ≡ is_after (end_of self.now.edits) (length self.now.text) span }
    {
        is_after(end_of(&self.edits), self.text.len(), span)
    }

    /// Adds an edit: what is in the span is replaced by these bytes, of which each line feed becomes a space, and then as many line feeds as are in the span,
    /// so that all that follows stays in its line. An edit that begins before the end of an earlier one, or isn't in the text, is left out; so of two that
    /// overlap the first that is added remains.
    ///
    /// # Errors
    /// Where memory was refused; then there are the edits that there were.
    pub fn replace(
        &mut self,
        alloc: Global,
        span: Span,
        replacement: &[u8],
    ) -> Result<(), AllocError>
        ensures added { OnOk result (self.new ≡ with_edit self.old span replacement.now) }
        ensures same_text { self.new.text ≡ self.old.text }
        ensures refused { OnErr result (self.new ≡ self.old) }
    {
        if !is_after(end_of(&self.edits), self.text.len(), span) {
            return Ok(());
        }
        let replaced = &self.text[span.start as usize..span.end_ as usize];
        let new = replacement_of(alloc, replaced, replacement)?;
        self.edits.push(Edit::new(span, new))?;
        Ok(())
    }

    // What is outside of the edits, and their replacements, in the order of the text.
    fn written(&self, alloc: Global) -> Result<Vec<u8>, AllocError>
        ensures { IfOk result (λ new. new.items ≡ edited self.now) }
    {
        let edits = self.edits.as_slice();
        let mut new = Vec::new(alloc);
        let mut at = 0;
        for edit in edits {
            let span = edit.span();
            new.extend_from_slice(&self.text[at..span.start as usize])?;
            new.extend_from_slice(edit.replacement())?;
            at = span.end_ as usize;
        }
        new.extend_from_slice(&self.text[at..])?;
        Ok(new)
    }

    /// The text with the edits.
    ///
    /// # Errors
    /// Where memory was refused.
    pub fn apply(&self, alloc: Global) -> Result<Vec<u8>, AllocError>
        // What is outside of the edits, and their replacements, in the order of the text.
        ensures text { IfOk result (λ new. new.items ≡ edited self.now) }
        // The new text comes from the old one by edits in its order.
        ensures is_edited { IfOk result (λ new. IsEdited self.now.text new.items) }
        // The new text has as many lines as the old one.
        ensures lines { IfOk result (λ new. line_feeds new.items ≡ line_feeds self.now.text) }
    {
        let _edits = self.edits.as_slice();
        let new = self.written(alloc)?;
        Ok(new)
    }

    /// Where what is in the text with the edits comes from.
    pub fn into_places(self) -> Places
        ensures { result ≡ self.entry.edits }
    {
        let Edits { text: _, edits } = self;
        Places::new(edits)
    }
}
