//! The bodies and statements around a place, and objects that rules declare in them.

use crate::changes::Changes;
use crate::parts::Parts;
use crate::source::span_of;
use ada2012_lexer::Span;
use ada2012_tree::{Body, Declaration, Statement};
use std::alloc::AllocError;

/// The bytes that a statement takes.
pub fn span_of_statement(statement: &Statement) -> Span {
    match statement {
        Statement::Null(span) => *span,
        Statement::Assignment(span, _, _) => *span,
        Statement::Call(span, _) => *span,
        Statement::Return(span, _) => *span,
        Statement::Exit(span, _, _) => *span,
        Statement::Raise(span, _, _) => *span,
        Statement::Delay(span, _) => *span,
        Statement::DelayUntil(span, _) => *span,
        Statement::Pragma(pragma) => pragma.span,
        Statement::If(span, _, _) => *span,
        Statement::Case(span, _, _) => *span,
        Statement::Loop(span, _, _, _) => *span,
        Statement::Block(span, _, _) => *span,
    }
}

/// Is a place in a span?
pub fn is_within(place: u32, span: Span) -> bool {
    span.start <= place && place < span.end_
}

/// The body of a subprogram, a task or an entry, and the bytes that its declaration takes.
pub fn body_of(declaration: &Declaration) -> Option<(Span, &Body)> {
    match declaration {
        Declaration::SubprogramBody(span, _, _, body) => Some((*span, body)),
        Declaration::TaskBody(span, _, body) => Some((*span, body)),
        Declaration::EntryBody(span, _, _, _, body) => Some((*span, body)),
        _ => None,
    }
}

/// The innermost body of a subprogram, a task or an entry around a place.
pub fn body_around<'a>(parts: &Parts<'a>, place: u32) -> Option<&'a Body> {
    let mut found = None;
    for declaration in parts.declarations.as_slice() {
        if let Some((span, body)) = body_of(declaration) {
            if is_within(place, span) {
                found = Some(body);
            }
        }
    }
    found
}

/// The innermost statement around a place.
pub fn statement_around<'a>(parts: &Parts<'a>, place: u32) -> Option<&'a Statement> {
    let mut found = None;
    for statement in parts.statements.as_slice() {
        if is_within(place, span_of_statement(statement)) {
            found = Some(*statement);
        }
    }
    found
}

impl<'a> Changes<'a> {
    /// The `begin` of a body.
    pub fn begin_of(&self, body: &Body) -> Option<Span> {
        let [first, ..] = body.statements.as_slice() else {
            return None;
        };
        let begin = self.source.token_before(span_of_statement(first).start)?;
        Some(span_of(begin))
    }

    /// Has the round declared an object before the `begin` that is at this place?
    pub fn has_declared(&self, begin: u32) -> bool {
        self.declared_at == Some(begin)
    }

    /// Declares an object of a subtype before the `begin` that is at this place.
    pub fn declare(&mut self, begin: u32, name: &[u8], subtype: &[u8]) -> Result<(), AllocError> {
        self.declared_at = Some(begin);
        let words = self.joined(&[name, b" : ", subtype, b"; "])?;
        self.insert(begin, &words)
    }
}
