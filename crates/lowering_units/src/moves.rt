//! Subprograms, types and subtypes in bodies (RM 3.11, 6.3) that use nothing of these: they are declared before what has them in the package.

use crate::clashes::{is_told, rename};
use ada2012_lexer::Span;
use ada2012_names::{Denoted, Entity, EntityId, EntityKind, TypeForm, Use};
use ada2012_tree::{Declaration, Identifier};
use lowering_text::{Changes, Whole, declaration_span, is_called, is_within, item_around};
use std::alloc::AllocError;

// The name of a declaration that can be one of the package.
fn movable_name(declaration: &Declaration) -> Option<&Identifier> {
    match declaration {
        Declaration::Type(own) => Some(&own.name),
        Declaration::Subtype(_, name, _, _) => Some(name),
        Declaration::SubprogramBody(_, specification, _, _) => Some(&specification.name),
        _ => None,
    }
}

// May an entity of this kind in a body become one of the package?
fn is_movable(kind: EntityKind) -> bool {
    matches!(
        kind,
        EntityKind::Type(_)
            | EntityKind::Subtype
            | EntityKind::Procedure
            | EntityKind::Function
            | EntityKind::Literal(_)
    )
}

fn is_protected_body(declaration: &Declaration) -> bool {
    matches!(declaration, Declaration::ProtectedBody(_, _, _))
}

// Is what an entity is declared in a protected object, the name of which its own one follows?
fn is_operation(whole: &Whole<'_>, id: EntityId) -> bool {
    let Some(owner) = whole.names.within(id) else {
        return false;
    };
    matches!(
        whole.names.kind_of(owner),
        Some(EntityKind::Protected | EntityKind::Type(TypeForm::Protected))
    )
}

// Is a component one of a record that isn't declared in this item?
fn is_of_outer_record(whole: &Whole<'_>, id: EntityId, entity: &Entity, item: Span) -> bool {
    whole.is_of_record(id) && !is_within(entity.span.start, item)
}

// Does a name within a declaration that is in an item denote the same before this item?
fn is_the_same_before(whole: &Whole<'_>, use_: &Use, own: Span, item: Span) -> bool {
    let Denoted::Entity(id) = use_.denoted else {
        return false;
    };
    let Some(entity) = whole.names.entity(id) else {
        return false;
    };
    if entity.predefined.is_some() || is_within(entity.span.start, own) {
        return true;
    }
    if is_operation(whole, id) || is_of_outer_record(whole, id, entity, item) {
        return true;
    }
    !whole.is_local(id) && !is_within(entity.span.start, item)
}

fn are_the_same_before(whole: &Whole<'_>, own: Span, item: Span) -> bool {
    whole.names.uses().iter().all(|use_| {
        !is_within(use_.span.start, own) || is_the_same_before(whole, use_, own, item)
    })
}

// Is an entity declared in a package, or a unit?
fn is_of_package(whole: &Whole<'_>, entity: &Entity) -> bool {
    match entity.within {
        Some(owner) => matches!(whole.names.kind_of(owner), Some(EntityKind::Package)),
        None => true,
    }
}

// Has another entity the name of this one with which it would clash in the package, or that could be one of the package too?
fn has_namesake(whole: &Whole<'_>, entity: &Entity) -> bool {
    let Some(name) = &entity.name else {
        return true;
    };
    whole.names.entities().iter().any(|other| {
        is_called(other, name)
            && other.span != entity.span
            && (is_movable(other.kind) || is_of_package(whole, other))
    })
}

// Can a declaration in an item be one before this?
fn can_be_before(whole: &Whole<'_>, declaration: &Declaration, item: Span) -> bool {
    let own = declaration_span(declaration);
    item.start < own.start && are_the_same_before(whole, own, item)
}

// Writes a copy of a declaration at a place, and leaves it out.
fn move_to(changes: &mut Changes<'_>, place: u32, own: Span) -> Result<(), AllocError> {
    let copy = changes.copied(own)?;
    let words = changes.joined(&[copy.as_slice(), b" "])?;
    changes.insert(place, &words)?;
    changes.write(own, &[])
}

// Moves a declaration before what has it in the package; where its name is that of another one, it gets a fresh one first.
fn move_before(
    changes: &mut Changes<'_>,
    whole: &Whole<'_>,
    declaration: &Declaration,
    name: &Identifier,
) -> Result<(), AllocError> {
    let Some(item) = item_around(whole, name.span) else {
        return Ok(());
    };
    let place = declaration_span(item);
    if is_protected_body(item) || !can_be_before(whole, declaration, place) {
        return Ok(());
    }
    let Some(id) = whole.names.declared_at(name.span) else {
        return Ok(());
    };
    match whole.names.entity(id) {
        Some(entity) if !has_namesake(whole, entity) => {
            move_to(changes, place.start, declaration_span(declaration))
        }
        Some(entity) if is_told(whole, entity) => rename(changes, whole, id, entity),
        _ => Ok(()),
    }
}

/// Declarations of bodies that can be ones of the package: one in a round.
pub fn lower_moves(changes: &mut Changes<'_>, whole: &Whole<'_>) -> Result<(), AllocError> {
    for declaration in whole.parts.declarations.as_slice() {
        if let Some(name) = movable_name(declaration) {
            if changes.requests.is_empty() {
                move_before(changes, whole, declaration, name)?;
            }
        }
    }
    Ok(())
}
