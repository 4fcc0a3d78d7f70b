//! Task types (RM 9.1): a procedure with the discriminants as formal parameters, which the task of each object calls.

use ada2012_lexer::Span;
use ada2012_names::{Denoted, EntityId};
use ada2012_tree::{
    Association, Body, Choice, Declaration, Expr, ExprKind, Form, Formal, Identifier, Name,
    ObjectDeclaration, ObjectSubtype, Selector, TaskDeclaration,
};
use lowering_text::{Changes, Whole, put_all, span_of};
use std::alloc::{AllocError, Global};

/// A task type, its body, and its objects.
#[derive(Drop)]
struct TaskType<'a> {
    task: &'a TaskDeclaration,
    span: Span,
    name: &'a Identifier,
    body: &'a Body,
    objects: Vec<TaskObject<'a>>,
}

/// An object of a task type, and the values of the discriminants, in the order of these.
#[derive(Drop)]
struct TaskObject<'a> {
    span: Span,
    name: &'a Identifier,
    values: Vec<&'a Expr>,
}

// Is the discriminant the choice of an association?
fn is_chosen(choices: &[Choice], discriminant: &Identifier) -> bool {
    choices.iter().any(|choice| match choice {
        Choice::Value(
            Expr {
                kind: ExprKind::Name(name),
                ..
            },
        ) => name.prefix.name.as_bytes() == discriminant.name.as_bytes(),
        _ => false,
    })
}

// The value of a discriminant that has this place among them.
fn value_of<'a>(
    associations: &'a [Association],
    place: usize,
    discriminant: &Identifier,
) -> Option<&'a Expr> {
    for (number, association) in associations.iter().enumerate() {
        let is_its = if association.choices.is_empty() {
            number == place
        } else {
            is_chosen(&association.choices, discriminant)
        };
        if is_its {
            return Some(&association.value);
        }
    }
    None
}

fn discriminant_of(formal: &Formal) -> Option<&Identifier> {
    match formal.names.as_slice() {
        [name] => Some(name),
        _ => None,
    }
}

// The values of all discriminants, none where one has none.
fn values_of<'a>(
    alloc: Global,
    discriminants: &[Formal],
    associations: &'a [Association],
) -> Result<Option<Vec<&'a Expr>>, AllocError> {
    let mut values = Vec::new(alloc);
    for (place, formal) in discriminants.iter().enumerate() {
        let Some(discriminant) = discriminant_of(formal) else {
            return Ok(None);
        };
        match value_of(associations, place, discriminant) {
            Some(value) => values.push(value)?,
            None => return Ok(None),
        }
    }
    Ok(Some(values))
}

// What a name has in parentheses at its end, which here are values of discriminants.
fn constraint_of(name: &Name) -> &[Association] {
    match name.selectors.as_slice() {
        [Selector::Arguments(_, associations)] => associations.as_slice(),
        _ => &[],
    }
}

// The name of an object of a type, and that of its subtype.
fn object_of<'a>(
    whole: &Whole<'_>,
    id: EntityId,
    object: &'a ObjectDeclaration,
) -> Option<(&'a Identifier, &'a Name)> {
    let [name] = object.names.as_slice() else {
        return None;
    };
    let ObjectSubtype::Subtype(indication) = &object.subtype else {
        return None;
    };
    if whole.denoted(indication.name.prefix.span) == Some(id) && object.value.is_none() {
        Some((name, &indication.name))
    } else {
        None
    }
}

// The objects of a task type, none where a value of a discriminant isn't found.
fn objects_of<'a>(
    alloc: Global,
    whole: &Whole<'a>,
    id: EntityId,
    task: &TaskDeclaration,
) -> Result<Option<Vec<TaskObject<'a>>>, AllocError> {
    let mut objects = Vec::new(alloc);
    for declaration in whole.parts.declarations.as_slice() {
        let Declaration::Object(object) = declaration else {
            continue;
        };
        let Some((name, subtype)) = object_of(whole, id, object) else {
            continue;
        };
        match values_of(alloc, &task.discriminants, constraint_of(subtype))? {
            Some(values) => objects.push(TaskObject {
                span: object.span,
                name,
                values,
            })?,
            None => return Ok(None),
        }
    }
    Ok(Some(objects))
}

// The body of a task type.
fn body_of<'a>(whole: &Whole<'a>, id: EntityId) -> Option<(Span, &'a Identifier, &'a Body)> {
    for declaration in whole.parts.declarations.as_slice() {
        if let Declaration::TaskBody(span, name, body) = declaration {
            if whole.denoted(name.span) == Some(id) {
                return Some((*span, name, body));
            }
        }
    }
    None
}

fn count_of_uses(whole: &Whole<'_>, id: EntityId) -> usize {
    whole
        .names
        .uses()
        .iter()
        .filter(|use_| use_.denoted == Denoted::Entity(id))
        .count()
}

// A task type with what belongs to it, if it is used for nothing but its objects and its body.
fn task_type<'a>(
    alloc: Global,
    whole: &Whole<'a>,
    task: &'a TaskDeclaration,
) -> Result<Option<TaskType<'a>>, AllocError> {
    let Some(id) = whole.names.declared_at(task.name.span) else {
        return Ok(None);
    };
    let Some((span, name, body)) = body_of(whole, id) else {
        return Ok(None);
    };
    let Some(objects) = objects_of(alloc, whole, id, task)? else {
        return Ok(None);
    };
    if count_of_uses(whole, id).checked_sub(1) != Some(objects.len()) {
        return Ok(None);
    }
    Ok(Some(TaskType {
        task,
        span,
        name,
        body,
        objects,
    }))
}

// The value of the priority of an object, or the expression that all have.
fn priority_of<'a>(own: &'a TaskType<'_>, object: &'a TaskObject<'_>) -> Option<Span> {
    for aspect in own.task.aspects.as_slice() {
        if aspect.name.name.as_bytes() != "PRIORITY".as_bytes() {
            continue;
        }
        let value = aspect.value.as_ref()?;
        let ExprKind::Name(name) = &value.kind else {
            return Some(value.span);
        };
        for (place, formal) in own.task.discriminants.iter().enumerate() {
            if is_named(formal, &name.prefix) {
                return Some(object.values.get(place)?.span);
            }
        }
        return Some(value.span);
    }
    None
}

fn is_named(formal: &Formal, name: &Identifier) -> bool {
    match discriminant_of(formal) {
        Some(own) => own.name.as_bytes() == name.name.as_bytes(),
        None => false,
    }
}

// The declaration of the task that an object becomes.
fn task_of(
    changes: &Changes<'_>,
    own: &TaskType<'_>,
    object: &TaskObject<'_>,
    out: &mut Vec<u8>,
) -> Result<(), AllocError> {
    out.extend_from_slice("task ".as_bytes())?;
    changes.source.copy(object.name.span, out)?;
    if let Some(priority) = priority_of(own, object) {
        out.extend_from_slice(" with Priority => ".as_bytes())?;
        changes.source.copy(priority, out)?;
    }
    out.push(b';')?;
    Ok(())
}

// The body of that task, which calls the procedure.
fn body_of_task(
    changes: &Changes<'_>,
    object: &TaskObject<'_>,
    procedure: &[u8],
    out: &mut Vec<u8>,
) -> Result<(), AllocError> {
    out.extend_from_slice(" task body ".as_bytes())?;
    out.extend_from_slice(changes.source.bytes(object.name.span))?;
    put_all(out, &[b" is begin ", procedure])?;
    put_actuals_of(changes, object, out)?;
    put_all(
        out,
        &[b"; end ", changes.source.bytes(object.name.span), b";"],
    )
}

// The actual parameters of its call.
fn put_actuals_of(
    changes: &Changes<'_>,
    object: &TaskObject<'_>,
    out: &mut Vec<u8>,
) -> Result<(), AllocError> {
    for (place, value) in object.values.iter().enumerate() {
        let before = if place == 0 { " (" } else { ", " };
        put_all(out, &[before.as_bytes()])?;
        changes.source.copy(value.span, out)?;
    }
    if !object.values.is_empty() {
        out.push(b')')?;
    }
    Ok(())
}

// Writes the tasks for the objects, and the bodies of those that are declared before the procedure after it.
fn tasks(
    changes: &mut Changes<'_>,
    own: &TaskType<'_>,
    procedure: &[u8],
) -> Result<(), AllocError> {
    let mut after = Vec::new(changes.alloc);
    for object in own.objects.as_slice() {
        let mut task = Vec::new(changes.alloc);
        task_of(changes, own, object, &mut task)?;
        if object.span.start < own.span.start {
            body_of_task(changes, object, procedure, &mut after)?;
        } else {
            body_of_task(changes, object, procedure, &mut task)?;
        }
        changes.replace(object.span, task, None)?;
    }
    let end = Span {
        start: own.span.end_,
        end_: own.span.end_,
    };
    changes.replace(end, after, None)
}

// The words of the procedure up to `is`.
fn procedure_head(
    changes: &Changes<'_>,
    task: &TaskDeclaration,
    procedure: &[u8],
) -> Result<Vec<u8>, AllocError> {
    let mut head = Vec::new(changes.alloc);
    head.extend_from_slice("procedure ".as_bytes())?;
    head.extend_from_slice(procedure)?;
    let Some(first) = task.discriminants.first() else {
        return Ok(head);
    };
    let Some(last) = task.discriminants.last() else {
        return Ok(head);
    };
    head.extend_from_slice(" (".as_bytes())?;
    let all = Span {
        start: first.span.start,
        end_: last.span.end_,
    };
    changes.source.copy(all, &mut head)?;
    head.push(b')')?;
    Ok(head)
}

// Writes the procedure that the body of a task type becomes.
fn write_procedure(
    changes: &mut Changes<'_>,
    own: &TaskType<'_>,
    procedure: &[u8],
) -> Result<(), AllocError> {
    let head = procedure_head(changes, own.task, procedure)?;
    let words = Span {
        start: own.span.start,
        end_: own.name.span.end_,
    };
    changes.replace(words, head, None)?;
    match changes.source.end_name(own.span) {
        Some(token) if own.body.span.end_ <= token.start => {
            changes.write(span_of(token), procedure)
        }
        _ => Ok(()),
    }
}

fn task_declaration(
    changes: &mut Changes<'_>,
    whole: &Whole<'_>,
    task: &TaskDeclaration,
) -> Result<(), AllocError> {
    if task.form != Form::Type {
        return Ok(());
    }
    let Some(own) = task_type(changes.alloc, whole, task)? else {
        return Ok(());
    };
    let procedure = changes
        .source
        .fresh_name(changes.alloc, task.name.span, "_Body".as_bytes())?;
    changes.write(task.span, &[])?;
    write_procedure(changes, &own, &procedure)?;
    tasks(changes, &own, &procedure)
}

/// Task types become procedures, and their objects tasks that call these: one type in a round, since two may have one name.
pub fn lower_task_types(changes: &mut Changes<'_>, whole: &Whole<'_>) -> Result<(), AllocError> {
    for declaration in whole.parts.declarations.as_slice() {
        if let Declaration::Task(task) = declaration {
            if changes.requests.is_empty() {
                task_declaration(changes, whole, task)?;
            }
        }
    }
    Ok(())
}
