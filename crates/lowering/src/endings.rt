//! The name after the `end` of a body, a package, a task or a protected object.

use ada2012_lexer::Span;
use lexer::Word;
use lowering_text::{Changes, is_word};
use std::alloc::AllocError;

/// Writes the name after the `end` that is the last token of a construct but for its semicolon.
pub(crate) fn name_end(
    changes: &mut Changes<'_>,
    whole: Span,
    name: Span,
) -> Result<(), AllocError> {
    let Some(semicolon) = changes.source.token_before(whole.end_) else {
        return Ok(());
    };
    let Some(last) = changes.source.token_before(semicolon.start) else {
        return Ok(());
    };
    if !is_word(last, Word::End) {
        return Ok(());
    }
    changes.insert_name(last.end_, " ".as_bytes(), name)
}
