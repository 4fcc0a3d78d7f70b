//! Membership tests (RM 4.5.2): relations.

use crate::loops::range_of;
use ada2012_lexer::Span;
use ada2012_tree::{Choice, ExprKind, Membership, Name};
use lowering_text::{Changes, Whole, name_of};
use std::alloc::AllocError;

// What a value is compared with.
#[derive(Clone, Copy)]
enum Test {
    /// The bounds of a subtype or an array.
    Within(Span),
    /// Two bounds.
    Between(Span, Span),
    /// One value.
    Same(Span),
}

// What a value is compared with where the choice is a name.
fn named_test(whole: &Whole<'_>, name: &Name) -> Option<Test> {
    if let Some((array, _)) = range_of(name) {
        return Some(Test::Within(array));
    }
    match whole.denoted_subtype(name) {
        Some(id) if whole.is_counted(id) => Some(Test::Within(name.span)),
        Some(_) => None,
        None if whole.may_call(name.span) => None,
        None => Some(Test::Same(name.span)),
    }
}

// What a value is compared with, if the language can.
fn test_of(whole: &Whole<'_>, choice: &Choice) -> Option<Test> {
    match choice {
        Choice::Value(e) => match name_of(e) {
            Some(name) => named_test(whole, name),
            None => Some(Test::Same(e.span)),
        },
        Choice::Range(range) => Some(Test::Between(range.first.span, range.last.span)),
        Choice::Others(_) => None,
    }
}

fn has_test(whole: &Whole<'_>, choice: &Choice) -> bool {
    test_of(whole, choice).is_some()
}

// An operand, and these words after it.
fn put(
    changes: &Changes<'_>,
    operand: Span,
    words: &str,
    out: &mut Vec<u8>,
) -> Result<(), AllocError> {
    changes.source.copy(operand, out)?;
    out.extend_from_slice(words.as_bytes())?;
    Ok(())
}

// Writes one comparison of a value.
fn put_test(
    changes: &Changes<'_>,
    value: Span,
    test: Test,
    out: &mut Vec<u8>,
) -> Result<(), AllocError> {
    match test {
        Test::Within(of) => {
            put(changes, value, " >= ", out)?;
            put(changes, of, "'First and ", out)?;
            put(changes, value, " <= ", out)?;
            put(changes, of, "'Last", out)
        }
        Test::Between(first, last) => {
            put(changes, value, " >= ", out)?;
            put(changes, first, " and ", out)?;
            put(changes, value, " <= ", out)?;
            put(changes, last, "", out)
        }
        Test::Same(other) => {
            put(changes, value, " = ", out)?;
            put(changes, other, "", out)
        }
    }
}

// The tests of all choices, each in parentheses, in their order.
fn put_tests(
    changes: &Changes<'_>,
    whole: &Whole<'_>,
    value: Span,
    choices: &[Choice],
) -> Result<Vec<u8>, AllocError> {
    let mut words = Vec::new(changes.alloc);
    for choice in choices {
        if !words.is_empty() {
            words.extend_from_slice(" or else ".as_bytes())?;
        }
        if let Some(test) = test_of(whole, choice) {
            words.push(b'(')?;
            put_test(changes, value, test, &mut words)?;
            words.push(b')')?;
        }
    }
    Ok(words)
}

fn membership(
    changes: &mut Changes<'_>,
    place: Span,
    operator: Membership,
    tests: Vec<u8>,
    several: bool,
) -> Result<(), AllocError> {
    let mut words = Vec::new(changes.alloc);
    if operator == Membership::NotIn {
        words.extend_from_slice("not ".as_bytes())?;
    }
    if several {
        words.push(b'(')?;
    }
    words.extend_from_slice(&tests)?;
    if several {
        words.push(b')')?;
    }
    changes.replace(place, words, None)
}

/// Membership tests of values that are not calls.
pub fn lower_memberships(changes: &mut Changes<'_>, whole: &Whole<'_>) -> Result<(), AllocError> {
    for e in whole.parts.expressions.as_slice() {
        if let ExprKind::Membership(value, operator, choices) = &e.kind {
            if !whole.may_call(value.span) && choices.iter().all(|choice| has_test(whole, choice)) {
                let tests = put_tests(changes, whole, value.span, choices)?;
                membership(changes, e.span, *operator, tests, choices.len() > 1)?;
            }
        }
    }
    Ok(())
}
