//! First values of objects in bodies and blocks (RM 3.3.1) that only statements can give: aggregates, and calls that become statements.

use crate::results::{LargeFunctions, large_functions};
use ada2012_lexer::Span;
use ada2012_names::{EntityId, EntityKind, Predefined};
use ada2012_tree::{Body, Declaration, Expr, Identifier, ObjectDeclaration, Statement};
use lexer::Word;
use lowering_text::{Changes, Whole, after, body_of, is_aggregate, is_within, span_of};
use std::alloc::AllocError;

// Is there a call of a function that can't stay one in an expression?
fn has_large_call(large: &LargeFunctions<'_>, e: &Expr) -> bool {
    large
        .calls
        .iter()
        .any(|call| is_within(call.span.start, e.span))
}

fn is_task(declaration: &Declaration) -> bool {
    matches!(declaration, Declaration::TaskBody(_, _, _))
}

// Is an entity known before the run: is it none of a body, and no function of the program?
fn is_known(whole: &Whole<'_>, id: EntityId, e: &Expr) -> bool {
    match whole.names.kind_of(id) {
        Some(EntityKind::Constant) => !whole.is_local(id) && !is_time(whole, id),
        Some(EntityKind::Function) => {
            !is_declared_here(whole, id)
                && (whole.names.predefined(id) != Some(Predefined::Clock) || e.is_name())
        }
        Some(EntityKind::Variable | EntityKind::Formal(_) | EntityKind::LoopParameter) => false,
        Some(EntityKind::Component | EntityKind::Discriminant) => false,
        _ => true,
    }
}

// Is an object a time?
fn is_time(whole: &Whole<'_>, id: EntityId) -> bool {
    match whole.names.subtype_of(id) {
        Some(subtype) => {
            whole.names.predefined(whole.names.type_of(subtype)) == Some(Predefined::Time)
        }
        None => false,
    }
}

/// Does a value depend on what is evaluated at run time, so that no object of a package or a task may have it as its first value?
pub fn is_evaluated(whole: &Whole<'_>, e: &Expr) -> bool {
    whole.names.uses().iter().any(|use_| {
        is_within(use_.span.start, e.span)
            && match whole.denoted(use_.span) {
                Some(id) => !is_known(whole, id, e),
                None => false,
            }
    })
}

// Can what an entity has change while the objects of a body are declared: is it a function of the program, or a variable that isn't of the body?
fn is_changed(whole: &Whole<'_>, id: EntityId) -> bool {
    match whole.names.kind_of(id) {
        Some(EntityKind::Function) => is_declared_here(whole, id),
        Some(EntityKind::Variable) => !whole.is_local(id),
        Some(EntityKind::Component) => !whole.is_of_record(id),
        _ => false,
    }
}

// Does a span name anything that can change or change anything while the objects of a body are declared?
fn has_changes(whole: &Whole<'_>, span: Span) -> bool {
    whole.names.uses().iter().any(|use_| {
        is_within(use_.span.start, span)
            && match whole.denoted(use_.span) {
                Some(id) => is_changed(whole, id),
                None => false,
            }
    })
}

// Is an entity declared in the text?
fn is_declared_here(whole: &Whole<'_>, id: EntityId) -> bool {
    match whole.names.entity(id) {
        Some(entity) => entity.predefined.is_none(),
        None => false,
    }
}

// Leaves out `constant`, `:=` and the value of an object.
fn leave_out_first(
    changes: &mut Changes<'_>,
    object: &ObjectDeclaration,
    name: &Identifier,
    value: &Expr,
) -> Result<(), AllocError> {
    if let Some(mark) = changes.source.token_before(value.span.start) {
        changes.write(span_of(mark), &[])?;
    }
    changes.write(value.span, &[])?;
    match changes.source.word_from(name.span.end_, Word::Constant) {
        Some(constant) if object.constant => changes.write(span_of(constant), &[]),
        _ => Ok(()),
    }
}

// Makes a block of the statements and the handlers of a body, where it has any; its `begin` is left to be written.
fn open_block(changes: &mut Changes<'_>, body: &Body) -> Result<bool, AllocError> {
    if body.handlers.is_empty() {
        return Ok(false);
    }
    match changes.source.token_before(body.span.end_) {
        Some(end) => {
            changes.insert(end.start, "end; ".as_bytes())?;
            Ok(true)
        }
        None => Ok(false),
    }
}

// Assigns the value of an object after `begin`. The handlers of the body, which handle no exception of its declarations, are those of a block for the rest.
fn move_value(
    changes: &mut Changes<'_>,
    body: &Body,
    object: &ObjectDeclaration,
    name: &Identifier,
    value: &Expr,
    begin: Span,
) -> Result<(), AllocError> {
    let text = changes.copied(value.span)?;
    let mut words = changes.joined(&[
        b" ",
        changes.source.bytes(name.span),
        b" := ",
        text.as_slice(),
        b";",
    ])?;
    if open_block(changes, body)? {
        words.extend_from_slice(" begin".as_bytes())?;
    }
    leave_out_first(changes, object, name, value)?;
    changes.replace(
        Span {
            start: begin.end_,
            end_: begin.end_,
        },
        words,
        None,
    )
}

// Gives an object its value before the declarations that follow it: these are those of a block with the statements and the handlers of the body.
fn open_inner_block(
    changes: &mut Changes<'_>,
    body: &Body,
    object: &ObjectDeclaration,
    name: &Identifier,
    value: &Expr,
) -> Result<(), AllocError> {
    let Some(end) = changes.source.token_before(body.span.end_) else {
        return Ok(());
    };
    let text = changes.copied(value.span)?;
    let words = changes.joined(&[
        b" begin ",
        changes.source.bytes(name.span),
        b" := ",
        text.as_slice(),
        b"; declare",
    ])?;
    leave_out_first(changes, object, name, value)?;
    changes.replace(after(object.span), words, None)?;
    changes.insert(end.start, "end; ".as_bytes())
}

// Can the value of an object be given after the declarations that follow it up to `begin`: don't they name it, nor anything that a call can change?
fn can_move(
    changes: &Changes<'_>,
    whole: &Whole<'_>,
    object: &ObjectDeclaration,
    name: &Identifier,
    begin: Span,
) -> bool {
    let rest = Span {
        start: object.span.end_,
        end_: begin.start,
    };
    changes.source.count(&name.name, rest) == 0 && !has_changes(whole, rest)
}

// The value of an object of a body, which of a task is to be static.
fn first_value(
    changes: &mut Changes<'_>,
    whole: &Whole<'_>,
    large: &LargeFunctions<'_>,
    body: &Body,
    object: &ObjectDeclaration,
    begin: Span,
    is_static: bool,
) -> Result<(), AllocError> {
    let [name] = object.names.as_slice() else {
        return Ok(());
    };
    let Some(value) = &object.value else {
        return Ok(());
    };
    let evaluated = is_static && is_evaluated(whole, value);
    if !is_aggregate(value) && !has_large_call(large, value) && !evaluated {
        return Ok(());
    }
    if can_move(changes, whole, object, name, begin) {
        move_value(changes, body, object, name, value, begin)
    } else {
        open_inner_block(changes, body, object, name, value)
    }
}

// The last object of a body whose value is to be given by a statement.
fn first_values_of(
    changes: &mut Changes<'_>,
    whole: &Whole<'_>,
    large: &LargeFunctions<'_>,
    body: &Body,
    is_static: bool,
) -> Result<(), AllocError> {
    let Some(begin) = changes.begin_of(body) else {
        return Ok(());
    };
    let found = changes.requests.len();
    for declaration in body.declarations.iter().rev() {
        if let Declaration::Object(object) = declaration {
            if changes.requests.len() == found {
                first_value(changes, whole, large, body, object, begin, is_static)?;
            }
        }
    }
    Ok(())
}

/// First values that statements are to give: an assignment after `begin`, where nothing can see the difference, else before the declarations that follow.
pub fn lower_first_values(changes: &mut Changes<'_>, whole: &Whole<'_>) -> Result<(), AllocError> {
    let large = large_functions(whole, changes.alloc)?;
    for declaration in whole.parts.declarations.as_slice() {
        if let Some((_, body)) = body_of(declaration) {
            first_values_of(changes, whole, &large, body, is_task(declaration))?;
        }
    }
    for statement in whole.parts.statements.as_slice() {
        if let Statement::Block(_, _, body) = statement {
            first_values_of(changes, whole, &large, body, false)?;
        }
    }
    Ok(())
}
