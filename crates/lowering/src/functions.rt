//! Expression functions (RM 6.8) and null procedures (RM 6.7) in bodies.

use ada2012_tree::{Expr, Specification};
use lexer::Word;
use lowering_text::{Changes, span_of};
use std::alloc::AllocError;

/// `is (E);` as `is begin return (E); end F;`.
pub(crate) fn expression_function(
    changes: &mut Changes<'_>,
    specification: &Specification,
    value: &Expr,
) -> Result<(), AllocError> {
    changes.insert(value.span.start, "begin return ".as_bytes())?;
    changes.insert_name(
        value.span.end_,
        "; end ".as_bytes(),
        specification.name.span,
    )
}

/// `is null;` as `is begin null; end P;`.
pub(crate) fn null_procedure(
    changes: &mut Changes<'_>,
    specification: &Specification,
) -> Result<(), AllocError> {
    let Some(null) = changes
        .source
        .word_from(specification.span.end_, Word::Null)
    else {
        return Ok(());
    };
    changes.insert(null.start, "begin ".as_bytes())?;
    changes.insert_name(
        span_of(null).end_,
        "; end ".as_bytes(),
        specification.name.span,
    )
}
