//! Ranges in the declarations of objects and components (RM 3.2.2, 3.3.1, 3.8): subtypes of their own.

use ada2012_lexer::Span;
use ada2012_tree::{Declaration, Identifier, ObjectSubtype, SubtypeIndication, TypeDefinition};
use lowering_text::{Changes, Whole, is_within, start_of_item};
use std::alloc::AllocError;

/// Does what has this span mean the same before the declaration of a package that it is in: does it name nothing of a body?
pub(crate) fn is_of_packages(whole: &Whole<'_>, span: Span) -> bool {
    whole.names.uses().iter().all(|use_| {
        !is_within(use_.span.start, span)
            || match whole.denoted(use_.span) {
                Some(id) => !whole.is_local(id),
                None => false,
            }
    })
}

// Declares a subtype before what has an object or component of this name in the package, and names it where its range was.
fn constraint(
    changes: &mut Changes<'_>,
    whole: &Whole<'_>,
    name: &Identifier,
    indication: &SubtypeIndication,
) -> Result<(), AllocError> {
    if indication.range.is_none() || !is_of_packages(whole, indication.span) {
        return Ok(());
    }
    let Some(start) = start_of_item(whole, name.span) else {
        return Ok(());
    };
    let new = changes
        .source
        .fresh_name(changes.alloc, name.span, "_Subtype".as_bytes())?;
    let own = changes.copied(indication.span)?;
    let words = changes.joined(&[b"subtype ", new.as_slice(), b" is ", own.as_slice(), b"; "])?;
    changes.insert(start, &words)?;
    changes.replace(indication.span, new, None)
}

fn constraint_of(
    changes: &mut Changes<'_>,
    whole: &Whole<'_>,
    names: &[Identifier],
    subtype: &ObjectSubtype,
) -> Result<(), AllocError> {
    match (names, subtype) {
        ([name], ObjectSubtype::Subtype(own)) => constraint(changes, whole, name, own),
        _ => Ok(()),
    }
}

fn constraint_in(
    changes: &mut Changes<'_>,
    whole: &Whole<'_>,
    declaration: &Declaration,
) -> Result<(), AllocError> {
    match declaration {
        Declaration::Object(object) => {
            constraint_of(changes, whole, &object.names, &object.subtype)
        }
        Declaration::Type(own) => match &own.definition {
            TypeDefinition::Array(array) => {
                constraint(changes, whole, &own.name, &array.component)
            }
            _ => Ok(()),
        },
        _ => Ok(()),
    }
}

/// Objects and components with a range get a subtype: one in a round, since two may have one name.
pub fn lower_constraints(changes: &mut Changes<'_>, whole: &Whole<'_>) -> Result<(), AllocError> {
    for declaration in whole.parts.declarations.as_slice() {
        if changes.requests.is_empty() {
            constraint_in(changes, whole, declaration)?;
        }
    }
    for component in whole.parts.components.as_slice() {
        if changes.requests.is_empty() {
            constraint_of(changes, whole, &component.names, &component.subtype)?;
        }
    }
    Ok(())
}
