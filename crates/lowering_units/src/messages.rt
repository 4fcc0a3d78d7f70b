//! Messages of exceptions (RM 11.3), and names of occurrences (RM 11.2).

use ada2012_lexer::Span;
use ada2012_tree::{Expr, Handler, Name};
use lowering_text::{Changes, NoteKind};
use std::alloc::AllocError;

/// Leaves out the message of a raise statement, with a note.
pub fn lower_raise(
    changes: &mut Changes<'_>,
    name: &Name,
    message: &Expr,
) -> Result<(), AllocError> {
    let span = Span {
        start: name.span.end_,
        end_: message.span.end_,
    };
    changes.replace(
        span,
        Vec::new(changes.alloc),
        Some(NoteKind::MessageLeftOut),
    )
}

/// Leaves out the name of an occurrence, with its colon, where nothing else in the handler has it.
pub fn lower_occurrence(changes: &mut Changes<'_>, handler: &Handler) -> Result<(), AllocError> {
    let Some(occurrence) = &handler.occurrence else {
        return Ok(());
    };
    if changes.source.count(&occurrence.name, handler.span) != 1 {
        return Ok(());
    }
    let Some(colon) = changes.source.token_from(occurrence.span.end_) else {
        return Ok(());
    };
    changes.write(
        Span {
            start: occurrence.span.start,
            end_: colon.end_,
        },
        &[],
    )
}
