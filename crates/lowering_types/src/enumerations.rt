//! Enumeration types (RM 3.5.1): integer types, and a constant for each literal.

use ada2012_lexer::{Delimiter, Span};
use ada2012_names::EntityKind;
use ada2012_tree::{Declaration, Identifier, TypeDeclaration, TypeDefinition};
use base::Text;
use itoa::Buffer;
use lowering_text::{AttributeUse, Changes, Whole, after, is_attribute, is_called, is_mark};
use std::alloc::AllocError;

// How many literals have this name?
fn literals_named(whole: &Whole<'_>, name: &Text) -> usize {
    whole
        .names
        .entities()
        .iter()
        .filter(|entity| {
            matches!(entity.kind, EntityKind::Literal(_)) && is_called(entity, name)
        })
        .count()
}

// Has no literal of another type one of these names?
fn are_single(whole: &Whole<'_>, literals: &[Identifier]) -> bool {
    literals
        .iter()
        .all(|literal| literals_named(whole, &literal.name) == 1)
}

// `range 0 .. N` in the place of the literals in their parentheses.
fn put_range(
    changes: &mut Changes<'_>,
    first: &Identifier,
    last: &Identifier,
    count: usize,
) -> Result<bool, AllocError> {
    let Some(open) = changes.source.token_before(first.span.start) else {
        return Ok(false);
    };
    let Some(close) = changes.source.token_from(last.span.end_) else {
        return Ok(false);
    };
    if !is_mark(open, Delimiter::LeftParenthesis) || !is_mark(close, Delimiter::RightParenthesis) {
        return Ok(false);
    }
    let mut words = Vec::new(changes.alloc);
    words.extend_from_slice("range 0 .. ".as_bytes())?;
    put_number(changes, count.saturating_sub(1), &mut words)?;
    let place = Span {
        start: open.start,
        end_: close.end_,
    };
    changes.replace(place, words, None)?;
    Ok(true)
}

fn put_number(changes: &Changes<'_>, number: usize, out: &mut Vec<u8>) -> Result<(), AllocError> {
    let mut buffer = Buffer::new();
    out.extend_from_slice(buffer.format(number).as_bytes())?;
    Ok(())
}

// ` A : constant S := 0; B : constant S := 1;` after the declaration of a type.
fn put_constants(
    changes: &mut Changes<'_>,
    own: &TypeDeclaration,
    literals: &[Identifier],
) -> Result<(), AllocError> {
    let mut words = Vec::new(changes.alloc);
    for (position, literal) in literals.iter().enumerate() {
        words.push(b' ')?;
        changes.source.copy(literal.span, &mut words)?;
        words.extend_from_slice(" : constant ".as_bytes())?;
        changes.source.copy(own.name.span, &mut words)?;
        words.extend_from_slice(" := ".as_bytes())?;
        put_number(changes, position, &mut words)?;
        words.push(b';')?;
    }
    changes.replace(after(own.span), words, None)
}

fn enumeration(
    changes: &mut Changes<'_>,
    own: &TypeDeclaration,
    literals: &[Identifier],
) -> Result<(), AllocError> {
    let [first, ..] = literals else {
        return Ok(());
    };
    let [.., last] = literals else {
        return Ok(());
    };
    if put_range(changes, first, last, literals.len())? {
        put_constants(changes, own, literals)?;
    }
    Ok(())
}

// ` + 1` or ` - 1` before the end of an argument.
fn step(changes: &mut Changes<'_>, arguments: Span, words: &str) -> Result<(), AllocError> {
    match changes.source.token_before(arguments.end_) {
        Some(close) => changes.insert(close.start, words.as_bytes()),
        None => Ok(()),
    }
}

// The name of a type, in the place of an attribute of it or of a subtype of it.
fn convert(
    changes: &mut Changes<'_>,
    whole: &Whole<'_>,
    found: &AttributeUse<'_>,
) -> Result<(), AllocError> {
    let Some(entity) = whole.names.entity(whole.names.type_of(found.subtype)) else {
        return Ok(());
    };
    let mut words = Vec::new(changes.alloc);
    changes.source.copy(entity.span, &mut words)?;
    changes.replace(found.prefix, words, None)
}

fn position(
    changes: &mut Changes<'_>,
    whole: &Whole<'_>,
    found: &AttributeUse<'_>,
) -> Result<(), AllocError> {
    let name = found.attribute;
    if is_attribute(name, "POS") {
        changes.write(found.prefix, "Integer".as_bytes())
    } else if is_attribute(name, "VAL") {
        convert(changes, whole, found)
    } else if is_attribute(name, "SUCC") {
        convert(changes, whole, found)?;
        step(changes, found.list, " + 1")
    } else if is_attribute(name, "PRED") {
        convert(changes, whole, found)?;
        step(changes, found.list, " - 1")
    } else {
        Ok(())
    }
}

/// Enumeration types, if no literal is one of two types, and their attributes `Pos`, `Val`, `Succ` and `Pred`.
pub fn lower_enumerations(changes: &mut Changes<'_>, whole: &Whole<'_>) -> Result<(), AllocError> {
    for name in whole.parts.names.as_slice() {
        if let Some(found) = whole.attribute_use(name) {
            if whole.is_of_enumeration(found.subtype) {
                position(changes, whole, &found)?;
            }
        }
    }
    for declaration in whole.parts.declarations.as_slice() {
        if let Declaration::Type(own) = declaration {
            if let TypeDefinition::Enumeration(literals) = &own.definition {
                if own.aspects.is_empty() && are_single(whole, literals) {
                    enumeration(changes, own, literals)?;
                }
            }
        }
    }
    Ok(())
}
