//! Qualified expressions of integer and enumeration types (RM 4.7): conversions.

use ada2012_tree::{ExprKind, Name, Selector, Span};
use lowering_text::{Changes, Whole, last_of};
use std::alloc::AllocError;

// The span of the apostrophe of a qualified expression that a conversion can be written for.
fn convertible(whole: &Whole<'_>, name: &Name) -> Option<Span> {
    let [before @ .., Selector::Qualified(span, operand)] = name.selectors.as_slice() else {
        return None;
    };
    let id = whole.denoted(last_of(&name.prefix, before)?.span)?;
    if !whole.is_counted(id) || !matches!(operand.kind, ExprKind::Parenthesized(_)) {
        return None;
    }
    Some(Span {
        start: span.start,
        end_: operand.span.start,
    })
}

/// `S'(E)` as `S (E)`.
pub fn lower_qualifications(
    changes: &mut Changes<'_>,
    whole: &Whole<'_>,
) -> Result<(), AllocError> {
    for name in whole.parts.names.as_slice() {
        if let Some(apostrophe) = convertible(whole, name) {
            changes.write(apostrophe, " ".as_bytes())?;
        }
    }
    Ok(())
}
