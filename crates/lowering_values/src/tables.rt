//! Constant arrays of package bodies, given by aggregates (RM 4.3.3), as functions of an index.

use crate::indexes::gives_all;
use ada2012_lexer::Span;
use ada2012_names::EntityId;
use ada2012_tree::{
    ArrayDefinition, Association, Choice, Declaration, DiscreteRange, Name, ObjectDeclaration,
    ObjectSubtype, Selector, TypeDefinition, UnitItem,
};
use itoa::Buffer;
use lowering_text::{Changes, Whole, associations_of, is_aggregate, is_scalar, put_all};
use std::alloc::AllocError;

// Is a name one component of an array by one index, and nothing of that?
fn is_indexed(name: &Name) -> bool {
    match name.selectors.as_slice() {
        [Selector::Arguments(_, arguments)] => match arguments.as_slice() {
            [argument] => argument.choices.is_empty(),
            _ => false,
        },
        _ => false,
    }
}

// Is each use of an array, and of each use of its name, one of a component?
fn is_only_indexed(whole: &Whole<'_>, id: EntityId) -> bool {
    let names = whole.parts.names.iter();
    let uses = whole.names.uses().iter();
    let count = uses
        .filter(|use_| whole.denoted(use_.span) == Some(id))
        .count();
    let indexed = names
        .filter(|name| is_indexed(name) && whole.denoted(name.prefix.span) == Some(id))
        .count();
    count == indexed
}

/// The definition of a named array type.
pub(crate) fn array_definition<'a>(whole: &Whole<'a>, id: EntityId) -> Option<&'a ArrayDefinition> {
    for declaration in whole.parts.declarations.as_slice() {
        if let Declaration::Type(own) = declaration {
            if let TypeDefinition::Array(definition) = &own.definition {
                if whole.declared(own.name.span) == Some(id) {
                    return Some(definition);
                }
            }
        }
    }
    None
}

// The definition of the array type of an object.
fn definition_of<'a>(
    whole: &Whole<'a>,
    object: &'a ObjectDeclaration,
    id: EntityId,
) -> Option<&'a ArrayDefinition> {
    match &object.subtype {
        ObjectSubtype::Array(definition) => Some(definition),
        ObjectSubtype::Subtype(_) => {
            array_definition(whole, whole.names.type_of(whole.names.subtype_of(id)?))
        }
    }
}

/// How a function names its index: the parameter, and the subtype of it.
#[derive(Drop)]
struct Index {
    parameter: Vec<u8>,
    subtype: Vec<u8>,
}

// `PARAMETER = CHOICE`, or the bounds that it lies in.
fn put_condition(
    changes: &Changes<'_>,
    index: &Index,
    choice: &Choice,
    words: &mut Vec<u8>,
) -> Result<(), AllocError> {
    match choice {
        Choice::Value(e) => {
            let value = changes.copied(e.span)?;
            put_all(
                words,
                &[index.parameter.as_slice(), b" = ", value.as_slice()],
            )
        }
        Choice::Range(range) => {
            let first = changes.copied(range.first.span)?;
            let last = changes.copied(range.last.span)?;
            put_all(
                words,
                &[
                    b"(",
                    index.parameter.as_slice(),
                    b" >= ",
                    first.as_slice(),
                    b" and then ",
                ],
            )?;
            put_all(
                words,
                &[index.parameter.as_slice(), b" <= ", last.as_slice(), b")"],
            )
        }
        Choice::Others(_) => put_all(words, &[b"True"]),
    }
}

// The condition under which an association gives the value.
fn put_conditions(
    changes: &Changes<'_>,
    index: &Index,
    place: usize,
    association: &Association,
    words: &mut Vec<u8>,
) -> Result<(), AllocError> {
    if association.choices.is_empty() {
        let mut buffer = Buffer::new();
        let number = buffer.format(place).as_bytes();
        let (parameter, subtype) = (index.parameter.as_slice(), index.subtype.as_slice());
        return put_all(words, &[parameter, b" = ", subtype, b"'First + ", number]);
    }
    for (number, choice) in association.choices.iter().enumerate() {
        if number > 0 {
            put_all(words, &[b" or else "])?;
        }
        put_condition(changes, index, choice, words)?;
    }
    Ok(())
}

// The value of the array at the index: the last association gives what no other does.
fn put_table(
    changes: &Changes<'_>,
    index: &Index,
    associations: &[Association],
    words: &mut Vec<u8>,
) -> Result<(), AllocError> {
    let [first @ .., last] = associations else {
        return Ok(());
    };
    for (place, association) in first.iter().enumerate() {
        let begin = if place == 0 { "if " } else { " elsif " };
        words.extend_from_slice(begin.as_bytes())?;
        put_conditions(changes, index, place, association, words)?;
        words.extend_from_slice(" then ".as_bytes())?;
        changes.source.copy(association.value.span, words)?;
    }
    if !first.is_empty() {
        words.extend_from_slice(" else ".as_bytes())?;
    }
    changes.source.copy(last.value.span, words)
}

// Declares the subtype of an index, which has no name of its own.
fn put_subtype(
    changes: &Changes<'_>,
    name: &[u8],
    base: &[u8],
    range: Span,
    words: &mut Vec<u8>,
) -> Result<Vec<u8>, AllocError> {
    let own = changes
        .source
        .fresh_word(changes.alloc, name, "_Index".as_bytes())?;
    let range = changes.copied(range)?;
    put_all(
        words,
        &[
            b"subtype ",
            own.as_slice(),
            b" is ",
            base,
            range.as_slice(),
            b"; ",
        ],
    )?;
    Ok(own)
}

// How a function of this name names its index, after the declaration of a subtype where that has no name.
fn put_index(
    changes: &Changes<'_>,
    range: &DiscreteRange,
    name: &[u8],
    words: &mut Vec<u8>,
) -> Result<Index, AllocError> {
    let subtype = match range {
        DiscreteRange::Name(e) => { changes.copied(e.span)? }
        DiscreteRange::Bounds(bounds) => {
            put_subtype(changes, name, b"Integer range ", bounds.span, words)?
        }
        DiscreteRange::Constrained(span, _, _) => put_subtype(changes, name, &[], *span, words)?,
    };
    let parameter = changes
        .source
        .fresh_word(changes.alloc, "Place".as_bytes(), &[])?;
    Ok(Index { parameter, subtype })
}

// `function NAME (PARAMETER : SUBTYPE) return COMPONENT is begin return (..); end NAME;` in the place of a declaration.
fn table(
    changes: &mut Changes<'_>,
    whole: Span,
    name: &[u8],
    definition: &ArrayDefinition,
    associations: &[Association],
) -> Result<(), AllocError> {
    let [range] = definition.indexes.as_slice() else {
        return Ok(());
    };
    let mut words = Vec::new(changes.alloc);
    let index = put_index(changes, range, name, &mut words)?;
    let (parameter, subtype) = (index.parameter.as_slice(), index.subtype.as_slice());
    let component = changes.copied(definition.component.span)?;
    put_all(
        &mut words,
        &[b"function ", name, b" (", parameter, b" : ", subtype],
    )?;
    put_all(
        &mut words,
        &[b") return ", component.as_slice(), b" is begin return ("],
    )?;
    put_table(changes, &index, associations, &mut words)?;
    put_all(&mut words, &[b"); end ", name, b";"])?;
    changes.replace(whole, words, None)
}

// A constant array with one index whose components alone are used.
fn table_of<'w>(
    changes: &mut Changes<'_>,
    whole: &Whole<'w>,
    object: &'w ObjectDeclaration,
) -> Result<(), AllocError> {
    let [name] = object.names.as_slice() else {
        return Ok(());
    };
    let (Some(value), Some(id)) = (&object.value, whole.declared(name.span)) else {
        return Ok(());
    };
    if !object.constant || !is_aggregate(value) || !is_only_indexed(whole, id) {
        return Ok(());
    }
    let Some(definition) = definition_of(whole, object, id) else {
        return Ok(());
    };
    let component = whole.denoted(definition.component.name.prefix.span);
    let scalar = match component {
        Some(component) => is_scalar(whole.names.form_of(component)),
        None => false,
    };
    if definition.component.range.is_some() || !scalar {
        return Ok(());
    }
    if !gives_all(whole, definition, associations_of(value)) {
        return Ok(());
    }
    let words = changes.source.bytes(name.span);
    table(
        changes,
        object.span,
        words,
        definition,
        associations_of(value),
    )
}

/// Constant arrays of package bodies as functions.
pub fn lower_tables<'w>(changes: &mut Changes<'_>, whole: &Whole<'w>) -> Result<(), AllocError> {
    for unit in whole.program.units.as_slice() {
        if let UnitItem::PackageBody(package) = &unit.item {
            for declaration in package.body.declarations.as_slice() {
                if let Declaration::Object(object) = declaration {
                    table_of(changes, whole, object)?;
                }
            }
        }
    }
    Ok(())
}
