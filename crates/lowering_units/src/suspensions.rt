//! Suspension objects (RM D.10): protected objects with an entry that waits.

use crate::units::{Layout, layout_of, package_head};
use ada2012_lexer::Span;
use ada2012_names::{Denoted, EntityId, Predefined};
use ada2012_tree::{
    Declaration, ExprKind, Identifier, Name, ObjectDeclaration, ObjectSubtype, UnitItem,
};
use lowering_text::{Changes, Whole, called, last_identifier};
use std::alloc::AllocError;

const VISIBLE: &str = " with Priority => 31 is procedure Set_True; procedure Set_False; \
    function Current_State return Boolean; entry Suspend_Until_True; private Is_Open : Boolean := False; end ";

const BODIES: &str = " is procedure Set_True is begin Is_Open := True; end Set_True; \
    procedure Set_False is begin Is_Open := False; end Set_False; \
    function Current_State return Boolean is begin return Is_Open; end Current_State; \
    entry Suspend_Until_True when Is_Open is begin Is_Open := False; end Suspend_Until_True; end ";

// The operation of the protected object that one of the subprograms becomes.
fn operation_of(predefined: Predefined) -> Option<&'static str> {
    match predefined {
        Predefined::SetTrue => Some(".Set_True"),
        Predefined::SetFalse => Some(".Set_False"),
        Predefined::CurrentState => Some(".Current_State"),
        Predefined::SuspendUntilTrue => Some(".Suspend_Until_True"),
        _ => None,
    }
}

// The name of a suspension object, where this declares one.
fn declared<'b>(whole: &Whole<'_>, object: &'b ObjectDeclaration) -> Option<&'b Identifier> {
    let [name] = object.names.as_slice() else {
        return None;
    };
    let ObjectSubtype::Subtype(indication) = &object.subtype else {
        return None;
    };
    let subtype = whole.denoted(last_identifier(&indication.name)?.span)?;
    if whole.names.predefined(subtype) == Some(Predefined::SuspensionObject) {
        Some(name)
    } else {
        None
    }
}

// The name of the suspension object with which this calls a subprogram, and the operation of its protected object.
fn call_of<'b>(
    whole: &Whole<'_>,
    object: EntityId,
    name: &'b Name,
) -> Option<(&'b Name, &'static str)> {
    let (subprogram, arguments) = called(name)?;
    let [argument] = arguments else {
        return None;
    };
    let operation = operation_of(whole.names.predefined(whole.denoted(subprogram.span)?)?)?;
    let ExprKind::Name(actual) = &argument.value.kind else {
        return None;
    };
    if whole.denoted(last_identifier(actual)?.span) == Some(object) {
        Some((actual, operation))
    } else {
        None
    }
}

fn is_call_of(whole: &Whole<'_>, object: EntityId, name: &Name) -> bool {
    call_of(whole, object, name).is_some()
}

// Is a suspension object nowhere but in calls of these subprograms?
fn is_called_alone(whole: &Whole<'_>, object: EntityId) -> bool {
    let uses = whole
        .names
        .uses()
        .iter()
        .filter(|use_| use_.denoted == Denoted::Entity(object))
        .count();
    let calls = whole
        .parts
        .names
        .iter()
        .filter(|name| is_call_of(whole, object, name))
        .count();
    uses == calls
}

// Adds words with the name of a protected object before and after them.
fn add_named(
    changes: &Changes<'_>,
    out: &mut Vec<u8>,
    before: &str,
    name: Span,
    words: &str,
) -> Result<(), AllocError> {
    out.extend_from_slice(before.as_bytes())?;
    changes.source.copy(name, out)?;
    out.extend_from_slice(words.as_bytes())?;
    changes.source.copy(name, out)?;
    out.push(b';')?;
    Ok(())
}

fn suspension_calls(
    changes: &mut Changes<'_>,
    whole: &Whole<'_>,
    object: EntityId,
) -> Result<(), AllocError> {
    for name in whole.parts.names.as_slice() {
        if let Some((actual, operation)) = call_of(whole, object, name) {
            let mut words = Vec::new(changes.alloc);
            changes.source.copy(actual.span, &mut words)?;
            words.extend_from_slice(operation.as_bytes())?;
            changes.replace(name.span, words, None)?;
        }
    }
    Ok(())
}

// Writes the protected object for a suspension object, whose body is at this place, or after it where there is none.
fn suspension(
    changes: &mut Changes<'_>,
    whole: &Whole<'_>,
    object: &ObjectDeclaration,
    place: Option<u32>,
) -> Result<(), AllocError> {
    let Some(name) = declared(whole, object) else {
        return Ok(());
    };
    let Some(id) = whole.names.declared_at(name.span) else {
        return Ok(());
    };
    if !is_called_alone(whole, id) {
        return Ok(());
    }
    let mut visible = Vec::new(changes.alloc);
    add_named(changes, &mut visible, "protected ", name.span, VISIBLE)?;
    let mut body = Vec::new(changes.alloc);
    add_named(changes, &mut body, " protected body ", name.span, BODIES)?;
    match place {
        Some(place) => changes.insert(place, &body)?,
        None => visible.extend_from_slice(&body)?,
    }
    changes.replace(object.span, visible, None)?;
    suspension_calls(changes, whole, id)
}

fn suspensions_among(
    changes: &mut Changes<'_>,
    whole: &Whole<'_>,
    declarations: &[Declaration],
    place: Option<u32>,
) -> Result<(), AllocError> {
    for declaration in declarations {
        if let Declaration::Object(object) = declaration {
            suspension(changes, whole, object, place)?;
        }
    }
    Ok(())
}

// The suspension objects of the one package.
fn suspensions_of(
    changes: &mut Changes<'_>,
    whole: &Whole<'_>,
    layout: &Layout<'_>,
) -> Result<(), AllocError> {
    let [first, second] = layout.packages else {
        return Ok(());
    };
    let UnitItem::Package(package) = &first.item else {
        return Ok(());
    };
    let UnitItem::PackageBody(body) = &second.item else {
        return Ok(());
    };
    let Some(head) = package_head(changes, second) else {
        return Ok(());
    };
    suspensions_among(changes, whole, &package.visible, Some(head.end_))?;
    suspensions_among(changes, whole, &body.body.declarations, None)
}

/// Suspension objects of the one package become protected objects.
pub fn lower_suspensions(changes: &mut Changes<'_>, whole: &Whole<'_>) -> Result<(), AllocError> {
    match layout_of(whole.program) {
        Some(layout) => suspensions_of(changes, whole, &layout),
        None => Ok(()),
    }
}
