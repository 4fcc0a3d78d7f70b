//! Loops over subtypes and arrays (RM 5.5, 5.5.2): loops from one bound to another.

use ada2012_names::{Denoted, EntityId, EntityKind, TypeForm};
use ada2012_tree::{
    AttributeName, DiscreteRange, Identifier, Iteration, Name, Selector, Span, Statement,
};
use lexer::Word;
use lowering_text::{Changes, Whole, after, last_of, name_of, span_of};
use std::alloc::AllocError;

/// The array of which a name is the range, and the span of the attribute.
pub(crate) fn range_of(name: &Name) -> Option<(Span, Span)> {
    let [
        before @ ..,
        Selector::Attribute(span, AttributeName::Word(Word::Range, ..)),
    ] = name.selectors.as_slice()
    else {
        return None;
    };
    last_of(&name.prefix, before)?;
    let array = Span {
        start: name.span.start,
        end_: span.start,
    };
    Some((array, *span))
}

// `'First .. S'Last` in this place, S being what has this span.
fn bounds(changes: &mut Changes<'_>, place: Span, of: Span) -> Result<(), AllocError> {
    let mut words = Vec::new(changes.alloc);
    words.extend_from_slice("'First .. ".as_bytes())?;
    changes.source.copy(of, &mut words)?;
    words.extend_from_slice("'Last".as_bytes())?;
    changes.replace(place, words, None)
}

// The range of a loop that is a name.
fn named_range(
    changes: &mut Changes<'_>,
    whole: &Whole<'_>,
    name: &Name,
) -> Result<(), AllocError> {
    if let Some((array, attribute)) = range_of(name) {
        return bounds(changes, attribute, array);
    }
    match whole.denoted_subtype(name) {
        Some(id) if whole.is_counted(id) => bounds(changes, after(name.span), name.span),
        _ => Ok(()),
    }
}

/// Loops over subtypes and over ranges of arrays.
pub fn lower_loops(changes: &mut Changes<'_>, whole: &Whole<'_>) -> Result<(), AllocError> {
    for statement in whole.parts.statements.as_slice() {
        if let Statement::Loop(_, _, Iteration::For(_, _, DiscreteRange::Name(e)), _) = statement {
            if let Some(name) = name_of(e) {
                named_range(changes, whole, name)?;
            }
        }
    }
    Ok(())
}

// Each use of a component of an array by the parameter of a loop.
fn write_components(
    changes: &mut Changes<'_>,
    whole: &Whole<'_>,
    parameter: EntityId,
    array: Span,
    index: &[u8],
) -> Result<(), AllocError> {
    for use_ in whole.names.uses() {
        if use_.denoted == Denoted::Entity(parameter) {
            let mut words = Vec::new(changes.alloc);
            changes.source.copy(array, &mut words)?;
            words.extend_from_slice(" (".as_bytes())?;
            words.extend_from_slice(index)?;
            words.push(b')')?;
            changes.replace(use_.span, words, None)?;
        }
    }
    Ok(())
}

// A loop over the components of an array, whose parameter is this entity.
fn element_loop(
    changes: &mut Changes<'_>,
    whole: &Whole<'_>,
    parameter: &Identifier,
    id: EntityId,
    array: &Name,
) -> Result<(), AllocError> {
    let Some(of) = changes.source.word_from(parameter.span.end_, Word::Of) else {
        return Ok(());
    };
    let index = changes
        .source
        .fresh_name(changes.alloc, parameter.span, "_Index".as_bytes())?;
    write_components(changes, whole, id, array.span, &index)?;
    changes.write(span_of(of), "in".as_bytes())?;
    bounds(changes, after(array.span), array.span)?;
    changes.replace(parameter.span, index, None)
}

/// One loop over the components of an array, the first that is over an array that a name of identifiers denotes.
pub fn lower_elements(changes: &mut Changes<'_>, whole: &Whole<'_>) -> Result<(), AllocError> {
    for statement in whole.parts.statements.as_slice() {
        if let Statement::Loop(_, _, Iteration::Of(parameter, array), _) = statement {
            if let Some(id) = whole.names.declared_at(parameter.span) {
                if is_plain_array(whole, array) {
                    return element_loop(changes, whole, parameter, id, array);
                }
            }
        }
    }
    Ok(())
}

// Is it of an array type with one index?
fn is_row(whole: &Whole<'_>, id: EntityId) -> bool {
    let Some(subtype) = whole.names.subtype_of(id) else {
        return false;
    };
    matches!(whole.names.form_of(subtype), Some(TypeForm::Array))
        && whole
            .names
            .part_at(whole.names.type_of(subtype), 1)
            .is_none()
}

// Does a name of identifiers denote an array with one index, which isn't the parameter of another loop?
fn is_plain_array(whole: &Whole<'_>, name: &Name) -> bool {
    let Some(last) = last_of(&name.prefix, &name.selectors) else {
        return false;
    };
    let Some(id) = whole.denoted(last.span) else {
        return false;
    };
    match whole.names.kind_of(id) {
        Some(EntityKind::LoopParameter) => false,
        Some(_) => is_row(whole, id),
        None => false,
    }
}
