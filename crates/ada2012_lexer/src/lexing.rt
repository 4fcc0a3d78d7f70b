//! From a text to its lexical elements.
ghost use Rattle.std.specs.Prelude.{◌≡◌, ◌⊎◌, ◌++◌, Err, IfErr, IfOk, Ok, OnOk, length, map};
ghost use Rattle.ada2012_lexer.specs.Faults.{memory_fault};
ghost use Rattle.ada2012_lexer.specs.Reading.{AreSpansInOrder, comments_of, reading, span_of, tick_after, tokens_of};

use crate::element::{ElementKind, read_element};
use crate::{Fault, FaultKind, LexicalElements, Span, Token};
use std::alloc::Global;

/// The most bytes of a text.
pub const TEXT_LIMIT: usize = 1_048_576;

impl ElementKind {
    // Whether the token before what follows allows a tick.
    fn tick_after(&self, tick: bool) -> bool
        ensures { result ≡ tick_after tick self.now }
    {
        match self {
            ElementKind::Separator | ElementKind::Comment => tick,
            ElementKind::Token(kind) => kind.allows_tick(),
        }
    }
}

impl LexicalElements {
    // Adds the token or comment of these bytes; a separator is none.
    fn add(&mut self, kind: ElementKind, span: Span) -> Result<(), Fault>
        ensures tokens { OnOk result (self.new.tokens.items ≡ self.old.tokens.items ++ tokens_of kind span.start span.end_) }
        ensures comments { OnOk result (self.new.comments.items ≡ self.old.comments.items ++ comments_of kind span.start span.end_) }
        ensures fault { IfErr result (λ fault. fault ≡ memory_fault) }
    {
        match kind {
            ElementKind::Separator => {}
            ElementKind::Comment => self.comments.push(span)?,
            ElementKind::Token(kind) => self.tokens.push(Token {
                kind,
                start: span.start,
                end_: span.end_,
            })?,
        }
        Ok(())
    }
}

/// The tokens and comments of a text (RM 2).
///
/// # Errors
///
/// `TextTooLong` at `TEXT_LIMIT` where the text is longer. The first place at which no element begins, or at which one is broken. `Memory` where memory is
/// refused.
pub fn tokens(alloc: Global, text: &[u8]) -> Result<LexicalElements, Fault>
    ensures read { IfOk result (λ found. reading text.now ≡ Ok (record { tokens = found.tokens.items; comments = found.comments.items })) }
    ensures fault { IfErr result (λ fault. (reading text.now ≡ Err fault) ⊎ (fault ≡ memory_fault)) }
    ensures tokens_in_order { IfOk result (λ found. AreSpansInOrder 0 (length text.now) (map span_of found.tokens.items)) }
    ensures comments_in_order { IfOk result (λ found. AreSpansInOrder 0 (length text.now) found.comments.items) }
{
    if text.len() > TEXT_LIMIT {
        return Err(Fault {
            kind: FaultKind::TextTooLong,
            place: TEXT_LIMIT as u32,
        });
    }
    let mut found = LexicalElements {
        tokens: Vec::new(alloc),
        comments: Vec::new(alloc),
    };
    let mut tick = false;
    let mut at = 0;
    while at < text.len() {
        let element = match read_element(tick, &text[at..]) {
            Ok(element) => element,
            Err(broken) => {
                return Err(Fault {
                    kind: broken.kind,
                    place: (at + broken.offset) as u32,
                });
            }
        };
        tick = element.kind.tick_after(tick);
        let end = at + element.length;
        let span = Span {
            start: at as u32,
            end_: end as u32,
        };
        found.add(element.kind, span)?;
        at = end;
    }
    Ok(found)
}
