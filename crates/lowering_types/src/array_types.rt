//! Array types of objects without a name (RM 3.3.1, 3.6): they get one.

use ada2012_tree::{ArrayDefinition, Declaration, Identifier, ObjectDeclaration, ObjectSubtype};
use lowering_text::{Changes, Whole, start_of_item};
use std::alloc::AllocError;

// Declares the type of an object before what has this in a package, and names it where it was.
fn array_type(
    changes: &mut Changes<'_>,
    whole: &Whole<'_>,
    name: &Identifier,
    array: &ArrayDefinition,
) -> Result<(), AllocError> {
    let Some(start) = start_of_item(whole, name.span) else {
        return Ok(());
    };
    let new = changes
        .source
        .fresh_name(changes.alloc, name.span, "_Type".as_bytes())?;
    let mut words = Vec::new(changes.alloc);
    words.extend_from_slice("type ".as_bytes())?;
    words.extend_from_slice(&new)?;
    words.extend_from_slice(" is ".as_bytes())?;
    changes.source.copy(array.span, &mut words)?;
    words.extend_from_slice("; ".as_bytes())?;
    changes.insert(start, &words)?;
    changes.replace(array.span, new, None)
}

fn array_object(
    changes: &mut Changes<'_>,
    whole: &Whole<'_>,
    object: &ObjectDeclaration,
) -> Result<(), AllocError> {
    match (object.names.as_slice(), &object.subtype) {
        ([name], ObjectSubtype::Array(array)) => array_type(changes, whole, name, array),
        _ => Ok(()),
    }
}

/// Array types without a name get one: of one object in a round, since two may have one name.
pub fn lower_array_types(changes: &mut Changes<'_>, whole: &Whole<'_>) -> Result<(), AllocError> {
    for declaration in whole.parts.declarations.as_slice() {
        if let Declaration::Object(object) = declaration {
            if changes.requests.is_empty() {
                array_object(changes, whole, object)?;
            }
        }
    }
    Ok(())
}
