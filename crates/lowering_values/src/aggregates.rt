//! Aggregates (RM 4.3) as assignments to the components.

use crate::fixed::are_fixed;
use crate::indexes::gives_all;
use crate::tables::array_definition;
use ada2012_lexer::Span;
use ada2012_names::{EntityId, TypeForm};
use ada2012_tree::{Association, Choice, Expr, ExprKind, Name, Selector, Statement};
use itoa::Buffer;
use lowering_calls::is_quiet;
use lowering_text::{
    Changes, Whole, associations_of, body_around, chosen_identifier, is_aggregate, is_within,
    leading_identifier, put_all,
};
use lowering_types::subtype_of_object;
use std::alloc::AllocError;

fn is_others(choice: &Choice) -> bool {
    matches!(choice, Choice::Others(_))
}

// Does an association choose a component of this name?
fn chooses(association: &Association, name: &[u8]) -> bool {
    association.choices.iter().any(|choice| {
        is_others(choice)
            || match chosen_identifier(choice) {
                Some(identifier) => identifier.name.as_bytes() == name,
                None => false,
            }
    })
}

// The value of the component of a record with this place and name in an aggregate.
fn value_of_component<'e>(
    associations: &'e [Association],
    place: usize,
    name: &[u8],
) -> Option<&'e Expr> {
    let at_place = associations.get(place);
    if let Some(association) = at_place {
        if association.choices.is_empty() {
            return Some(&association.value);
        }
    }
    let chosen = associations
        .iter()
        .find(|association| chooses(association, name))?;
    Some(&chosen.value)
}

// Is nothing changed by the evaluation of an actual parameter, and the value the same after that of an aggregate? Each may raise Constraint_Error alone.
fn is_plain(whole: &Whole<'_>, e: &Expr, has_calls: bool) -> bool {
    if whole.may_call(e.span) {
        return false;
    }
    if !has_calls {
        return true;
    }
    match &e.kind {
        ExprKind::Integer(_) => true,
        ExprKind::Name(name) => name.selectors.is_empty() && is_quiet(whole, name.prefix.span),
        _ => false,
    }
}

// Are the actual parameters before one plain?
fn are_plain(whole: &Whole<'_>, before: &[Association], value: &Expr) -> bool {
    let has_calls = whole.may_call(value.span);
    for argument in before {
        if !is_plain(whole, &argument.value, has_calls) {
            return false;
        }
    }
    true
}

// Has a block around a place handlers?
fn is_handled(whole: &Whole<'_>, place: u32) -> bool {
    whole
        .parts
        .statements
        .iter()
        .any(|statement| match statement {
            Statement::Block(span, _, inner) => is_within(place, *span)
                && !inner.handlers.is_empty(),
            _ => false,
        })
}

// Is a name one of an object that nobody sees where the statement propagates an exception: one of a body without handlers around it?
fn is_unseen(whole: &Whole<'_>, name: &Name) -> bool {
    match body_around(whole.parts, name.span.start) {
        Some(body) => {
            is_quiet(whole, name.prefix.span)
                && body.handlers.is_empty()
                && !is_handled(whole, name.span.start)
        }
        None => false,
    }
}

// `TARGET`, these words, ` := VALUE; `.
fn put_value(
    changes: &Changes<'_>,
    target: &[u8],
    component: &[u8],
    value: &Expr,
    words: &mut Vec<u8>,
) -> Result<(), AllocError> {
    let value = changes.copied(value.span)?;
    put_all(
        words,
        &[target, component, b" := ", value.as_slice(), b"; "],
    )
}

// The assignments of all components of a record; `false` where a value is not found.
fn put_record(
    changes: &Changes<'_>,
    whole: &Whole<'_>,
    target: &[u8],
    subtype: EntityId,
    associations: &[Association],
    words: &mut Vec<u8>,
) -> Result<bool, AllocError> {
    let owner = whole.names.type_of(subtype);
    for place in 0..whole.names.entities().len() {
        let Some(part) = whole.names.part_at(owner, place) else {
            return Ok(place > 0);
        };
        let Some(entity) = whole.names.entity(part) else {
            return Ok(false);
        };
        let Some(name) = &entity.name else {
            return Ok(false);
        };
        let Some(value) = value_of_component(associations, place, name.as_bytes()) else {
            return Ok(false);
        };
        let component = changes.joined(&[b".", changes.source.bytes(entity.span)])?;
        put_value(changes, target, &component, value, words)?;
    }
    Ok(false)
}

// `for I in FIRST .. LAST loop TARGET (I) := VALUE; end loop; `.
fn put_loop(
    changes: &Changes<'_>,
    target: &[u8],
    first: &[u8],
    last: &[u8],
    value: &Expr,
    words: &mut Vec<u8>,
) -> Result<(), AllocError> {
    let parameter = changes
        .source
        .fresh_word(changes.alloc, "Place".as_bytes(), &[])?;
    put_all(
        words,
        &[
            b"for ",
            parameter.as_slice(),
            b" in ",
            first,
            b" .. ",
            last,
            b" loop ",
        ],
    )?;
    let index = changes.joined(&[b" (", parameter.as_slice(), b")"])?;
    put_value(changes, target, &index, value, words)?;
    put_all(words, &[b"end loop; "])
}

// `TARGET` and an attribute.
fn bound_of(changes: &Changes<'_>, target: &[u8], attribute: &[u8]) -> Result<Vec<u8>, AllocError> {
    changes.joined(&[target, attribute])
}

// The assignments of the components that a choice names.
fn put_choice(
    changes: &Changes<'_>,
    target: &[u8],
    choice: &Choice,
    value: &Expr,
    words: &mut Vec<u8>,
) -> Result<(), AllocError> {
    match choice {
        Choice::Others(_) => Ok(()),
        Choice::Value(e) => {
            let chosen = changes.copied(e.span)?;
            let index = changes.joined(&[b" (", chosen.as_slice(), b")"])?;
            put_value(changes, target, &index, value, words)
        }
        Choice::Range(range) => {
            let first = changes.copied(range.first.span)?;
            let last = changes.copied(range.last.span)?;
            put_loop(changes, target, &first, &last, value, words)
        }
    }
}

// The assignment of the component with this place in an array.
fn put_component(
    changes: &Changes<'_>,
    target: &[u8],
    place: usize,
    value: &Expr,
    words: &mut Vec<u8>,
) -> Result<(), AllocError> {
    let mut buffer = Buffer::new();
    let number = buffer.format(place).as_bytes();
    let index = if place == 0 {
        changes.joined(&[b" (", target, b"'First)"])?
    } else {
        changes.joined(&[b" (", target, b"'First + ", number, b")"])?
    };
    put_value(changes, target, &index, value, words)
}

// The assignments of the components of an array: first those of `others`.
fn put_array(
    changes: &Changes<'_>,
    target: &[u8],
    associations: &[Association],
    words: &mut Vec<u8>,
) -> Result<(), AllocError> {
    for association in associations {
        if association.choices.iter().any(|choice| is_others(choice)) {
            let first = bound_of(changes, target, b"'First")?;
            let last = bound_of(changes, target, b"'Last")?;
            put_loop(changes, target, &first, &last, &association.value, words)?;
        }
    }
    for (place, association) in associations.iter().enumerate() {
        if association.choices.is_empty() {
            put_component(changes, target, place, &association.value, words)?;
        }
        for choice in association.choices.as_slice() {
            put_choice(changes, target, choice, &association.value, words)?;
        }
    }
    Ok(())
}

// The assignments of all components; `false` where they aren't known.
fn put_aggregate(
    changes: &Changes<'_>,
    whole: &Whole<'_>,
    target: &[u8],
    subtype: EntityId,
    value: &Expr,
    words: &mut Vec<u8>,
) -> Result<bool, AllocError> {
    let associations = associations_of(value);
    match whole.names.form_of(subtype) {
        Some(TypeForm::Record) => put_record(changes, whole, target, subtype, associations, words),
        Some(TypeForm::Array) => match array_definition(whole, whole.names.type_of(subtype)) {
            Some(definition) if gives_all(whole, definition, associations) => {
                put_array(changes, target, associations, words)?;
                Ok(true)
            }
            _ => Ok(false),
        },
        _ => Ok(false),
    }
}

// An aggregate that is assigned to a variable that it doesn't name, component by component.
fn assign_components(
    changes: &mut Changes<'_>,
    whole: &Whole<'_>,
    span: Span,
    target: &Name,
    subtype: EntityId,
    value: &Expr,
) -> Result<(), AllocError> {
    let mut name = Vec::new(changes.alloc);
    changes.source.copy(target.span, &mut name)?;
    let mut words = Vec::new(changes.alloc);
    if put_aggregate(changes, whole, &name, subtype, value, &mut words)? {
        changes.replace(span, words, None)?;
    }
    Ok(())
}

// The name of a new object of a subtype, declared in the body around a place, and the assignments that give it the value of an aggregate.
fn new_object(
    changes: &mut Changes<'_>,
    whole: &Whole<'_>,
    place: u32,
    subtype: EntityId,
    value: &Expr,
) -> Result<Option<(Vec<u8>, Vec<u8>)>, AllocError> {
    let Some(body) = body_around(whole.parts, place) else {
        return Ok(None);
    };
    let Some(begin) = changes.begin_of(body) else {
        return Ok(None);
    };
    let Some(entity) = whole.names.entity(subtype) else {
        return Ok(None);
    };
    if entity.name.is_none() || changes.has_declared(begin.start) {
        return Ok(None);
    }
    let own = changes.source.bytes(entity.span);
    let name = changes
        .source
        .fresh_word(changes.alloc, own, "_Value".as_bytes())?;
    let mut words = Vec::new(changes.alloc);
    if !put_aggregate(changes, whole, &name, subtype, value, &mut words)? {
        return Ok(None);
    }
    changes.declare(begin.start, &name, own)?;
    Ok(Some((name, words)))
}

// An aggregate as the value of an assignment.
fn assign_aggregate(
    changes: &mut Changes<'_>,
    whole: &Whole<'_>,
    span: Span,
    target: &Name,
    value: &Expr,
) -> Result<(), AllocError> {
    let Some(subtype) = subtype_of_object(whole, target) else {
        return Ok(());
    };
    let associations = associations_of(value);
    let plain = are_fixed(whole, subtype, associations);
    let named = changes.source.count(&target.prefix.name, value.span) > 0;
    if !named && (plain || is_unseen(whole, target)) {
        return assign_components(changes, whole, span, target, subtype, value);
    }
    if let Some((name, words)) = new_object(changes, whole, span.start, subtype, value)? {
        changes.insert(span.start, &words)?;
        changes.write(value.span, &name)?;
    }
    Ok(())
}

// The aggregate that is an actual parameter of a call with this place, in an object of its own before the call.
fn pass_aggregate(
    changes: &mut Changes<'_>,
    whole: &Whole<'_>,
    span: Span,
    callee: Span,
    place: usize,
    value: &Expr,
) -> Result<(), AllocError> {
    let Some(callee) = whole.denoted(callee) else {
        return Ok(());
    };
    let Some(formal) = whole.names.part_at(callee, place) else {
        return Ok(());
    };
    let Some(subtype) = whole.names.subtype_of(formal) else {
        return Ok(());
    };
    if let Some((name, words)) = new_object(changes, whole, span.start, subtype, value)? {
        changes.insert(span.start, &words)?;
        changes.write(value.span, &name)?;
    }
    Ok(())
}

// The first aggregate among the positional actual parameters of a call, where the others are plain.
fn pass_aggregates(
    changes: &mut Changes<'_>,
    whole: &Whole<'_>,
    span: Span,
    name: &Name,
) -> Result<(), AllocError> {
    let (callee, count) = leading_identifier(name);
    let Some(Selector::Arguments(_, arguments)) = name.selectors.get(count) else {
        return Ok(());
    };
    for (place, argument) in arguments.iter().enumerate() {
        if !argument.choices.is_empty() {
            return Ok(());
        }
        if is_aggregate(&argument.value) {
            return match arguments.as_slice().get(..place) {
                Some(before) if are_plain(whole, before, &argument.value) => {
                    pass_aggregate(changes, whole, span, callee, place, &argument.value)
                }
                _ => Ok(()),
            };
        }
    }
    Ok(())
}

// Leaves out the parentheses around a value.
fn leave_out_parentheses(
    changes: &mut Changes<'_>,
    outer: Span,
    inner: Span,
) -> Result<(), AllocError> {
    let before = Span {
        start: outer.start,
        end_: inner.start,
    };
    let after = Span {
        start: inner.end_,
        end_: outer.end_,
    };
    changes.write(before, &[])?;
    changes.write(after, &[])
}

// Leaves out the parentheses around aggregates, as those of expression functions; is there any?
fn open_aggregates(changes: &mut Changes<'_>, whole: &Whole<'_>) -> Result<bool, AllocError> {
    let found = changes.requests.len();
    for e in whole.parts.expressions.as_slice() {
        if let ExprKind::Parenthesized(inner) = &e.kind {
            if is_aggregate(inner) {
                leave_out_parentheses(changes, e.span, inner.span)?;
            }
        }
    }
    Ok(changes.requests.len() > found)
}

/// Aggregates that are values of assignments or actual parameters of calls, component by component.
pub fn lower_aggregates(changes: &mut Changes<'_>, whole: &Whole<'_>) -> Result<(), AllocError> {
    if open_aggregates(changes, whole)? {
        return Ok(());
    }
    for statement in whole.parts.statements.as_slice() {
        match statement {
            Statement::Assignment(span, target, value) => {
                if is_aggregate(value) {
                    assign_aggregate(changes, whole, *span, target, value)?;
                }
            }
            Statement::Call(span, name) => pass_aggregates(changes, whole, *span, name)?,
            _ => {}
        }
    }
    Ok(())
}
