//! Default values of components of records (RM 3.8): each object without a value gets them as an aggregate, and so does each component that is such a record.

use ada2012_lexer::Span;
use ada2012_names::{EntityId, Predefined};
use ada2012_tree::{
    ArrayDefinition, Component, Declaration, Expr, ObjectSubtype, SubtypeIndication, TypeDefinition,
};
use lowering_text::{Changes, Whole, begins_in, is_scalar, span_of};
use std::alloc::{AllocError, Global};

fn has_default(components: &[Component]) -> bool {
    components.iter().any(|component| component.value.is_some())
}

// The subtype that an object is declared of, without any constraint.
fn plain_subtype(subtype: &ObjectSubtype) -> Option<&SubtypeIndication> {
    match subtype {
        ObjectSubtype::Subtype(own) if own.range.is_none() => Some(own),
        _ => None,
    }
}

// Is an object of this type, by the name of it or of a subtype?
fn is_of(whole: &Whole<'_>, subtype: &ObjectSubtype, id: EntityId) -> bool {
    match plain_subtype(subtype) {
        Some(own) => match whole.denoted(own.name.span) {
            Some(found) => own.name.selectors.is_empty() && whole.names.type_of(found) == id,
            None => false,
        },
        None => false,
    }
}

// Is the component of an array of this type?
fn is_array_of(whole: &Whole<'_>, array: &ArrayDefinition, id: EntityId) -> bool {
    let name = &array.component.name;
    match whole.denoted(name.prefix.span) {
        Some(found) => name.selectors.is_empty() && whole.names.type_of(found) == id,
        None => false,
    }
}

// Has an array components of this type?
fn is_component_of_array(whole: &Whole<'_>, id: EntityId) -> bool {
    whole
        .parts
        .arrays
        .iter()
        .any(|array| is_array_of(whole, array, id))
}

// The type whose definition is this one, where it has one index and isn't that of components of an array.
fn row_type(whole: &Whole<'_>, array: &ArrayDefinition) -> Option<EntityId> {
    let [_] = array.indexes.as_slice() else {
        return None;
    };
    for declaration in whole.parts.declarations.as_slice() {
        if let Declaration::Type(own) = declaration {
            if begins_in(own.span, array.span) {
                let id = whole.declared(own.name.span)?;
                return if is_component_of_array(whole, id) {
                    None
                } else {
                    Some(id)
                };
            }
        }
    }
    None
}

// The types of arrays with components of a type; none where one of these arrays has no such type.
fn row_types(
    whole: &Whole<'_>,
    alloc: Global,
    id: EntityId,
) -> Result<Option<Vec<EntityId>>, AllocError> {
    let mut found = Vec::new(alloc);
    for array in whole.parts.arrays.as_slice() {
        if is_array_of(whole, array, id) {
            match row_type(whole, array) {
                Some(row) => found.push(row)?,
                None => return Ok(None),
            }
        }
    }
    Ok(Some(found))
}

// The value at which a component without a default starts in the language.
fn put_first(
    changes: &Changes<'_>,
    whole: &Whole<'_>,
    subtype: &ObjectSubtype,
    words: &mut Vec<u8>,
) -> Result<bool, AllocError> {
    let Some(own) = plain_subtype(subtype) else {
        return Ok(false);
    };
    let Some(id) = whole.denoted(own.name.span) else {
        return Ok(false);
    };
    if whole.names.predefined(whole.names.type_of(id)) == Some(Predefined::Boolean) {
        words.extend_from_slice("False".as_bytes())?;
        return Ok(true);
    }
    if !is_scalar(whole.names.form_of(id)) {
        return Ok(false);
    }
    changes.source.copy(own.name.span, words)?;
    words.extend_from_slice("'First".as_bytes())?;
    Ok(true)
}

// `NAME => VALUE` of a component.
fn put_default(
    changes: &Changes<'_>,
    whole: &Whole<'_>,
    component: &Component,
    words: &mut Vec<u8>,
) -> Result<bool, AllocError> {
    let [name] = component.names.as_slice() else {
        return Ok(false);
    };
    words.extend_from_slice(changes.source.bytes(name.span))?;
    words.extend_from_slice(" => ".as_bytes())?;
    match &component.value {
        Some(value) => {
            changes.source.copy(value.span, words)?;
            Ok(true)
        }
        None => put_first(changes, whole, &component.subtype, words),
    }
}

// `(NAME => VALUE, ..)` of a record; none where a value isn't known.
fn default_value(
    changes: &Changes<'_>,
    whole: &Whole<'_>,
    components: &[Component],
) -> Result<Option<Vec<u8>>, AllocError> {
    let mut words = Vec::new(changes.alloc);
    words.push(b'(')?;
    for (place, component) in components.iter().enumerate() {
        if place > 0 {
            words.extend_from_slice(", ".as_bytes())?;
        }
        if !put_default(changes, whole, component, &mut words)? {
            return Ok(None);
        }
    }
    words.push(b')')?;
    Ok(Some(words))
}

// Gives an object of the type without a value this value.
fn give_default(
    changes: &mut Changes<'_>,
    subtype: &ObjectSubtype,
    value: &Option<Expr>,
    words: &[u8],
) -> Result<(), AllocError> {
    match plain_subtype(subtype) {
        Some(own) if value.is_none() => changes.insert(own.span.end_, words),
        _ => Ok(()),
    }
}

// Leaves out the default of a component.
fn leave_out_default(changes: &mut Changes<'_>, component: &Component) -> Result<(), AllocError> {
    let Some(value) = &component.value else {
        return Ok(());
    };
    let Some(mark) = changes.source.token_before(value.span.start) else {
        return Ok(());
    };
    changes.write(span_of(mark), &[])?;
    changes.write(value.span, &[])
}

// The objects and components of protected objects that are of a type.
fn give_defaults(
    changes: &mut Changes<'_>,
    whole: &Whole<'_>,
    id: EntityId,
    words: &[u8],
) -> Result<(), AllocError> {
    for declaration in whole.parts.declarations.as_slice() {
        if let Declaration::Object(object) = declaration {
            if is_of(whole, &object.subtype, id) {
                give_default(changes, &object.subtype, &object.value, words)?;
            }
        }
    }
    for component in whole.parts.components.as_slice() {
        if is_of(whole, &component.subtype, id) {
            give_default(changes, &component.subtype, &component.value, words)?;
        }
    }
    Ok(())
}

// The record type that an identifier declares, whose components have defaults.
fn defaults_of(
    changes: &mut Changes<'_>,
    whole: &Whole<'_>,
    name: Span,
    components: &[Component],
) -> Result<(), AllocError> {
    let Some(id) = whole.declared(name) else {
        return Ok(());
    };
    let Some(rows) = row_types(whole, changes.alloc, id)? else {
        return Ok(());
    };
    let Some(value) = default_value(changes, whole, components)? else {
        return Ok(());
    };
    let words = changes.joined(&[b" := ", value.as_slice()])?;
    give_defaults(changes, whole, id, &words)?;
    let words = changes.joined(&[b" := (others => ", value.as_slice(), b")"])?;
    for row in rows.as_slice() {
        give_defaults(changes, whole, *row, &words)?;
    }
    for component in components {
        leave_out_default(changes, component)?;
    }
    Ok(())
}

/// Record types with defaults.
pub fn lower_defaults(changes: &mut Changes<'_>, whole: &Whole<'_>) -> Result<(), AllocError> {
    for declaration in whole.parts.declarations.as_slice() {
        if let Declaration::Type(own) = declaration {
            if let TypeDefinition::Record(components) = &own.definition {
                if has_default(components) {
                    defaults_of(changes, whole, own.name.span, components)?;
                }
            }
        }
    }
    Ok(())
}
