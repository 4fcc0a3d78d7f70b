//! Case statements without `others` (RM 5.4): their choices are all values, so that others do nothing.

use ada2012_lexer::Span;
use ada2012_tree::{Alternative, Choice};
use lowering_text::Changes;
use std::alloc::AllocError;

fn is_others(choice: &Choice) -> bool {
    matches!(choice, Choice::Others(_))
}

fn has_others(alternative: &Alternative) -> bool {
    alternative.choices.as_slice().iter().any(is_others)
}

/// Adds `when others => null;` before the end of a case statement that has no `others`.
pub(crate) fn complete(
    changes: &mut Changes<'_>,
    whole: Span,
    alternatives: &[Alternative],
) -> Result<(), AllocError> {
    if alternatives.iter().any(has_others) {
        return Ok(());
    }
    let Some(semicolon) = changes.source.token_before(whole.end_) else {
        return Ok(());
    };
    let Some(case) = changes.source.token_before(semicolon.start) else {
        return Ok(());
    };
    let Some(end) = changes.source.token_before(case.start) else {
        return Ok(());
    };
    changes.insert(end.start, "when others => null; ".as_bytes())
}
