//! Several names in one declaration, component or formal parameter (RM 3.3.1, 3.8, 6.1): one declaration for each.

use ada2012_lexer::{Delimiter, Span};
use ada2012_tree::Identifier;
use lowering_text::{Changes, is_mark, span_of};
use std::alloc::AllocError;

// What follows the last name up to the end of the declaration, in the place of the comma after a name.
fn separate_after(
    changes: &mut Changes<'_>,
    name: &Identifier,
    rest: Span,
    end: &[u8],
) -> Result<(), AllocError> {
    let Some(comma) = changes.source.token_from(name.span.end_) else {
        return Ok(());
    };
    if !is_mark(comma, Delimiter::Comma) {
        return Ok(());
    }
    let mut replacement = Vec::new(changes.alloc);
    changes.source.copy(rest, &mut replacement)?;
    replacement.extend_from_slice(end)?;
    changes.replace(span_of(comma), replacement, None)
}

/// One declaration for each name: all but the last get a copy of what follows the names, and then these bytes.
pub(crate) fn separate(
    changes: &mut Changes<'_>,
    names: &[Identifier],
    whole: Span,
    end: &[u8],
) -> Result<(), AllocError> {
    let [first @ .., last] = names else {
        return Ok(());
    };
    let rest = Span {
        start: last.span.end_,
        end_: whole.end_,
    };
    for name in first {
        separate_after(changes, name, rest, end)?;
    }
    Ok(())
}
