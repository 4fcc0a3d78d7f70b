//! Names of loops and blocks (RM 5.5, 5.6) that nothing else mentions.

use ada2012_lexer::Span;
use ada2012_tree::Identifier;
use lowering_text::{Changes, is_name, span_of};
use std::alloc::AllocError;

/// Leaves out the name of a loop or block, with its colon and at its end, where it occurs nowhere else in the statement.
pub(crate) fn leave_out_label(
    changes: &mut Changes<'_>,
    whole: Span,
    name: &Identifier,
) -> Result<(), AllocError> {
    if changes.source.count(&name.name, whole) != 2 {
        return Ok(());
    }
    let Some(colon) = changes.source.token_from(name.span.end_) else {
        return Ok(());
    };
    let Some(semicolon) = changes.source.token_before(whole.end_) else {
        return Ok(());
    };
    let Some(last) = changes.source.token_before(semicolon.start) else {
        return Ok(());
    };
    if !is_name(last, &name.name) {
        return Ok(());
    }
    changes.write(name.span, &[])?;
    changes.write(span_of(colon), &[])?;
    changes.write(span_of(last), &[])
}
