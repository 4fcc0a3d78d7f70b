//! What could be where a token can't.

use ada2012_parser::Expected;
use std::alloc::AllocError;

// The words for it; of a reserved word or a delimiter its characters.
fn words_of(expected: Expected) -> &'static [u8] {
    match expected {
        Expected::Word(word) => word.spelling(),
        Expected::Delimiter(delimiter) => delimiter.text(),
        Expected::Identifier => b"an identifier",
        Expected::Attribute => b"the name of an attribute",
        Expected::Expression => b"an expression",
        Expected::SameOperator => b"the operator before, or parentheses",
        Expected::Statement => b"a statement",
        Expected::Declaration => b"a declaration",
        Expected::Type => b"the definition of a type",
        Expected::Unit => b"a package, a procedure or a function",
    }
}

/// Adds that a token can't be where it is, and what could.
pub(crate) fn put_unexpected(out: &mut Vec<u8>, expected: Expected) -> Result<(), AllocError> {
    out.extend_from_slice(b"this can't be here: expected ")?;
    out.extend_from_slice(words_of(expected))?;
    Ok(())
}
