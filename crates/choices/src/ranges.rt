//! Alternatives as they are written, and what they are.
ghost use Rattle.std.specs.Prelude.{◌≡◌, ◌≤◌, ◌<◌, ◌+◌, ◌∷◌, IfOk, IfSome, MatchOption, length, option_map, position};
ghost use Rattle.std.specs.List.{slice_split};
ghost use Rattle.choices.specs.Filling.{Fills, parts_behind};
ghost use Rattle.choices.specs.Texts as texts;
ghost use Rattle.choices.specs.Texts.{alternatives_in, alternatives_of, distance, has_twice, is_bar, is_shared, is_shared_with, range_of, ranges_of, values_from};

use crate::form::behind_dots;
use crate::slot::ALTERNATIVES;
use clock::reading::value;
use std::alloc::{AllocError, Global};

/// One or more alternatives as they are written.
#[derive(Clone, Copy, PartialEq, Eq, Debug)]
pub(crate) enum Range {
    /// The channel keeps its value.
    NoLine,
    /// Each value from the first to the last.
    Values(i64, i64),
}

fn is_dash(text: &[u8]) -> bool
    ensures { result ≡ texts.is_dash text.now }
{
    match text {
        [only] => *only == b'-',
        _ => false,
    }
}

// The alternatives that a text between two bars is.
#[tactic(auto, unfolding(crate::specs::Texts::range_of))]
fn range_of(text: &[u8]) -> Option<Range>
    ensures { result ≡ range_of text.now }
{
    if is_dash(text) {
        return Some(Range::NoLine);
    }
    let (first, rest) = value(text)?;
    if rest.is_empty() {
        return Some(Range::Values(first, first));
    }
    let (last, rest) = value(behind_dots(rest)?)?;
    if rest.is_empty() && first <= last {
        Some(Range::Values(first, last))
    } else {
        None
    }
}

fn is_bar(c: u8) -> bool
    ensures { result ≡ is_bar c }
{
    c == b'|'
}

// Where the first bar stands, if there is one.
fn bar_at(text: &[u8]) -> Option<usize>
    ensures { result ≡ position is_bar text.now }
{
    text.iter().position(|c| is_bar(*c))
}

// What comes before the first bar, and after it, if there is one.
fn first_part(text: &[u8]) -> (&[u8], Option<&[u8]>)
    ensures parts { slice_split is_bar text.now ≡ result.0.now ∷ parts_behind (option_map (λ rest. rest.now) result.1) }
    ensures fewer { IfSome result.1 (λ rest. length rest.now < length text.now) }
{
    match bar_at(text) {
        Some(at) => (&text[..at], Some(&text[at + 1..])),
        None => (text, None),
    }
}

/// The alternatives that a text is, with a bar between each two; None where it isn't any.
pub(crate) fn ranges(alloc: Global, text: &[u8]) -> Result<Option<Vec<Range>>, AllocError>
    ensures { IfOk result (λ ranges. option_map (λ r. r.items) ranges ≡ ranges_of text.now) }
{
    let mut ranges = Vec::new(alloc);
    let mut parts = Some(text);
    while let Some(rest) = parts {
        let (part, behind) = first_part(rest);
        let Some(range) = range_of(part) else {
            return Ok(None);
        };
        ranges.push(range)?;
        parts = behind;
    }
    Ok(Some(ranges))
}

// How far the last value is above the first one, or 0 where it isn't.
fn distance(first: i64, last: i64) -> u64
    ensures { result ≡ distance first last }
{
    if first <= last {
        last.abs_diff(first)
    } else {
        0
    }
}

// Adds each value from the first to the last, if there is room for them.
fn push_values(
    alternatives: &mut Vec<Option<i64>>,
    first: i64,
    last: i64,
) -> Result<bool, AllocError>
    requires { length alternatives.old.items ≤ ALTERNATIVES }
    ensures { IfOk result (λ fits. Fills fits alternatives.old.items (values_from first (distance first last + 1)) alternatives.new.items) }
{
    let mut left = distance(first, last);
    if ALTERNATIVES as u64 <= alternatives.len() as u64 + left.min(ALTERNATIVES as u64) {
        return Ok(false);
    }
    let mut value = first;
    while 0 < left {
        alternatives.push(Some(value))?;
        value += 1;
        left -= 1;
    }
    alternatives.push(Some(value))?;
    Ok(true)
}

// Adds the alternatives of a range, if there is room for them.
fn push_range(alternatives: &mut Vec<Option<i64>>, range: Range) -> Result<bool, AllocError>
    requires { length alternatives.old.items ≤ ALTERNATIVES }
    ensures { IfOk result (λ fits. Fills fits alternatives.old.items (alternatives_in range) alternatives.new.items) }
{
    match range {
        Range::NoLine => {
            if ALTERNATIVES <= alternatives.len() {
                return Ok(false);
            }
            alternatives.push(None)?;
            Ok(true)
        }
        Range::Values(first, last) => push_values(alternatives, first, last),
    }
}

/// All alternatives, None where they are more than a slot may have.
pub(crate) fn alternatives(
    alloc: Global,
    ranges: &[Range],
) -> Result<Option<Vec<Option<i64>>>, AllocError>
    ensures { IfOk result (λ all. MatchOption all (ALTERNATIVES < length (alternatives_of ranges.now))
        (λ all. (all.items ≡ alternatives_of ranges.now) × (length all.items ≤ ALTERNATIVES))) }
{
    let mut alternatives = Vec::new(alloc);
    for range in ranges {
        if !push_range(&mut alternatives, *range)? {
            return Ok(None);
        }
    }
    Ok(Some(alternatives))
}

fn is_shared(one: Range, other: Range) -> bool
    ensures { result ≡ is_shared one other }
{
    match (one, other) {
        (Range::NoLine, Range::NoLine) => true,
        (Range::Values(first, last), Range::Values(least, most)) => first <= most && least <= last,
        _ => false,
    }
}

fn is_shared_with(one: Range, ranges: &[Range]) -> bool
    ensures { result ≡ is_shared_with one ranges.now }
{
    ranges.iter().any(|other| is_shared(one, *other))
}

/// Whether two of them have an alternative in common.
pub(crate) fn has_twice(ranges: &[Range]) -> bool
    ensures { result ≡ has_twice ranges.now }
{
    let mut rest = ranges;
    while let [first, behind @ ..] = rest {
        if is_shared_with(*first, behind) {
            return true;
        }
        rest = behind;
    }
    false
}
