//! Ranges among the choices of case statements (RM 5.4): their values.

use crate::modular::static_value;
use ada2012_lexer::Span;
use ada2012_tree::{Alternative, Choice, Statement};
use itoa::Buffer;
use lowering_text::{Changes, Whole};
use std::alloc::AllocError;

// The most values of a range that are written one by one.
const MOST: i64 = 64;

// `1 | 2 | 3` for a range of at least one value.
fn put_values(
    changes: &mut Changes<'_>,
    place: Span,
    first: i64,
    last: i64,
) -> Result<(), AllocError> {
    let mut words = Vec::new(changes.alloc);
    for value in first..=last {
        if !words.is_empty() {
            words.extend_from_slice(" | ".as_bytes())?;
        }
        let mut buffer = Buffer::new();
        words.extend_from_slice(buffer.format(value).as_bytes())?;
    }
    changes.replace(place, words, None)
}

fn range_choice(
    changes: &mut Changes<'_>,
    whole: &Whole<'_>,
    choice: &Choice,
) -> Result<(), AllocError> {
    let Choice::Range(range) = choice else {
        return Ok(());
    };
    let (Some(first), Some(last)) = (
        static_value(whole, &range.first),
        static_value(whole, &range.last),
    ) else {
        return Ok(());
    };
    match last.checked_sub(first) {
        Some(distance) if 0 <= distance && distance < MOST => {
            put_values(changes, range.span, first, last)
        }
        _ => Ok(()),
    }
}

fn range_choices(
    changes: &mut Changes<'_>,
    whole: &Whole<'_>,
    alternatives: &[Alternative],
) -> Result<(), AllocError> {
    for alternative in alternatives {
        for choice in alternative.choices.as_slice() {
            range_choice(changes, whole, choice)?;
        }
    }
    Ok(())
}

/// Ranges of at most 64 values, whose bounds are known.
pub fn lower_case_ranges(changes: &mut Changes<'_>, whole: &Whole<'_>) -> Result<(), AllocError> {
    for statement in whole.parts.statements.as_slice() {
        if let Statement::Case(_, _, alternatives) = statement {
            range_choices(changes, whole, alternatives)?;
        }
    }
    Ok(())
}
