//! What decides how the rest of a text is laid out, and what is written before a token or a comment.
ghost use Rattle.std.specs.Prelude.{◌≡◌, ◌++◌, ◌≤◌, List, [], length, replicate, take, OnOk};
ghost use Rattle.printing.specs.Pieces.{line_feeds};
ghost use Rattle.printing.specs.Constructs.{innermost, with_opened};
ghost use Rattle.printing.specs.Layout.{after_comment, after_token, comment_columns, comment_gap, constructs_around, ending, gap, nothing_read, opened_by, token_columns, token_gap};

use crate::construct::{
    Construct, Phrase, closed, columns_within, continued, innermost, opened, phrase_after,
};
use crate::spacing::{is_sign, precedes_sign, spaces_between};
use crate::symbol::Symbol;
use lexer::Word;
use std::alloc::{AllocError, Global};
use std::marker::Model;

/// What is known after the first pieces of a text.
#[derive(Drop)]
pub(crate) struct Progress {
    /// What is open, the innermost last.
    constructs: Vec<Construct>,
    phrase: Phrase,
    /// The last token.
    previous: Option<Symbol>,
    /// Whether it is a unary sign.
    is_unary: bool,
    /// Whether there was a piece.
    is_begun: bool,
}

impl Model for Progress {
    ghost use Rattle.printing.specs.Layout as layout;

    ghost Value = { layout.Progress };

    ghost view = { λ p. record { constructs = p.constructs.items; phrase = p.phrase; previous = p.previous; unary = p.is_unary; begun = p.is_begun } };
}

// Adds a byte so many times.
fn put_times(out: &mut Vec<u8>, byte: u8, count: usize) -> Result<(), AllocError>
    ensures { OnOk result (out.new.items ≡ out.old.items ++ replicate count byte) }
{
    let mut added = 0;
    while added < count {
        out.push(byte)?;
        added += 1;
    }
    Ok(())
}

fn line_feeds(white: &[u8]) -> usize
    ensures { result ≡ line_feeds white.now }
{
    white.iter().filter(|c| **c == b'\n').count()
}

// Adds what is before a piece.
fn put_gap(
    out: &mut Vec<u8>,
    is_begun: bool,
    lines: usize,
    spaces: usize,
    columns: usize,
) -> Result<(), AllocError>
    ensures { OnOk result (out.new.items ≡ out.old.items ++ gap is_begun lines spaces columns) }
{
    if !is_begun {
        return Ok(());
    }
    if lines == 0 {
        put_times(out, b' ', spaces)
    } else {
        put_times(out, b'\n', lines.min(2))?;
        put_times(out, b' ', columns)
    }
}

impl Progress {
    /// Before the first piece.
    pub(crate) fn new(alloc: Global) -> Progress
        ensures { result ≡ nothing_read }
    {
        Progress {
            constructs: Vec::new(alloc),
            phrase: Phrase::Start,
            previous: None,
            is_unary: false,
            is_begun: false,
        }
    }

    fn opened_by(&self, symbol: Symbol) -> Option<Construct>
        ensures { result ≡ opened_by self.now symbol }
    {
        opened(
            innermost(&self.constructs),
            self.phrase,
            self.previous,
            symbol,
        )
    }

    // What stays open around a token.
    fn constructs_around(&self, symbol: Symbol) -> &[Construct]
        ensures value { result.now ≡ constructs_around self.now symbol }
        ensures front { constructs_around self.now symbol ≡ take (length result.now) self.now.constructs }
        ensures fewer { length result.now ≤ length self.now.constructs }
    {
        let count = closed(innermost(&self.constructs), self.phrase, symbol);
        let kept = self.constructs.len().saturating_sub(count);
        &self.constructs[..kept]
    }

    fn token_columns(&self, symbol: Symbol) -> usize
        ensures { result ≡ token_columns self.now symbol }
    {
        columns_within(self.constructs_around(symbol))
            + continued(self.opened_by(symbol), self.phrase)
    }

    fn comment_columns(&self, next: Option<Symbol>) -> usize
        ensures { result ≡ comment_columns self.now next }
    {
        match next {
            Some(Symbol::Word(Word::When)) => self.token_columns(Symbol::Word(Word::When)),
            _ => columns_within(&self.constructs) + continued(None, self.phrase),
        }
    }

    // Adds what is before a token, given the white space of the text there.
    fn put_token_gap(
        &self,
        out: &mut Vec<u8>,
        white: &[u8],
        symbol: Symbol,
    ) -> Result<(), AllocError>
        ensures { OnOk result (out.new.items ≡ out.old.items ++ token_gap self.now white.now symbol) }
    {
        let spaces = spaces_between(self.is_unary, self.previous, symbol, white.len());
        put_gap(
            out,
            self.is_begun,
            line_feeds(white),
            spaces,
            self.token_columns(symbol),
        )
    }

    // Adds what is before a comment, given the white space of the text there and the token after it.
    fn put_comment_gap(
        &self,
        out: &mut Vec<u8>,
        white: &[u8],
        next: Option<Symbol>,
    ) -> Result<(), AllocError>
        ensures { OnOk result (out.new.items ≡ out.old.items ++ comment_gap self.now white.now next) }
    {
        put_gap(
            out,
            self.is_begun,
            line_feeds(white),
            white.len().max(1),
            self.comment_columns(next),
        )
    }

    // Goes on after a comment.
    fn pass_comment(&mut self)
        ensures { self.new ≡ after_comment self.old }
    {
        self.is_begun = true;
    }

    // Goes on after a token.
    fn pass_token(&mut self, symbol: Symbol) -> Result<(), AllocError>
        ensures { OnOk result (self.new ≡ after_token self.old symbol) }
    {
        let inner = innermost(&self.constructs);
        let opened = self.opened_by(symbol);
        let kept = self.constructs_around(symbol).len();
        self.constructs.truncate(kept);
        if let Some(construct) = opened {
            self.constructs.push(construct)?;
        }
        self.phrase = phrase_after(inner, self.phrase, self.previous, symbol);
        self.is_unary = is_sign(symbol) && precedes_sign(self.previous);
        self.previous = Some(symbol);
        self.is_begun = true;
        Ok(())
    }

    /// Adds a token, given the white space of the text before it.
    pub(crate) fn put_token(
        &mut self,
        out: &mut Vec<u8>,
        white: &[u8],
        symbol: Symbol,
        element: &[u8],
    ) -> Result<(), AllocError>
        ensures text { OnOk result (out.new.items ≡ out.old.items ++ (token_gap self.old white.now symbol ++ element.now)) }
        ensures after { OnOk result (self.new ≡ after_token self.old symbol) }
    {
        self.put_token_gap(out, white, symbol)?;
        out.extend_from_slice(element)?;
        self.pass_token(symbol)
    }

    /// Adds a comment, given the white space of the text before it and the token after it.
    pub(crate) fn put_comment(
        &mut self,
        out: &mut Vec<u8>,
        white: &[u8],
        comment: &[u8],
        next: Option<Symbol>,
    ) -> Result<(), AllocError>
        ensures text { OnOk result (out.new.items ≡ out.old.items ++ (comment_gap self.old white.now next ++ comment.now)) }
        ensures after { OnOk result (self.new ≡ after_comment self.old) }
    {
        self.put_comment_gap(out, white, next)?;
        out.extend_from_slice(comment)?;
        self.pass_comment();
        Ok(())
    }

    /// Ends the last line.
    pub(crate) fn put_ending(&self, out: &mut Vec<u8>) -> Result<(), AllocError>
        ensures { OnOk result (out.new.items ≡ out.old.items ++ ending self.now.begun) }
    {
        if self.is_begun {
            out.push(b'\n')?;
        }
        Ok(())
    }
}
