//! Named numbers (RM 3.3.2): their values where another type than Integer is asked for, and constants of type Integer for the rest.

use crate::names::separate;
use ada2012_lexer::{Delimiter, Span};
use ada2012_names::{Denoted, EntityId, EntityKind, Predefined, TypeForm, Use};
use ada2012_tree::{Declaration, Expr, Identifier};
use itoa::Buffer;
use lexer::Word;
use lowering_text::{Changes, Known, RefusalKind, Whole, last_of, value_of};
use lowering_types::expressions_asked_for;
use std::alloc::{AllocError, Global};

/// A name of a named number, and the expression that gives this its value.
#[derive(Clone, Copy)]
struct NumberUse<'a> {
    name: Span,
    value: &'a Expr,
}

// The named number that a use of a name denotes.
fn number_at(whole: &Whole<'_>, denoted: Denoted) -> Option<EntityId> {
    match denoted {
        Denoted::Entity(id) => match whole.names.kind_of(id) {
            Some(EntityKind::Number) => Some(id),
            _ => None,
        },
        _ => None,
    }
}

// The uses of names in a span.
fn uses_in<'a>(whole: &Whole<'a>, span: Span) -> &'a [Use] {
    let uses = whole.names.uses();
    let first = uses.partition_point(|use_| use_.span.start < span.start);
    let end = uses.partition_point(|use_| use_.span.start < span.end_);
    match uses.get(first..end) {
        Some(within) => within,
        None => &[],
    }
}

fn is_package(whole: &Whole<'_>, denoted: Denoted) -> bool {
    match denoted {
        Denoted::Entity(id) => matches!(whole.names.kind_of(id), Some(EntityKind::Package)),
        _ => false,
    }
}

// Is each name in an expression that of a named number?
fn is_of_numbers(whole: &Whole<'_>, e: &Expr) -> bool {
    uses_in(whole, e.span).iter().all(|use_| {
        number_at(whole, use_.denoted).is_some() || is_package(whole, use_.denoted)
    })
}

// The named numbers in an expression.
fn numbers_in<'a>(
    whole: &Whole<'a>,
    alloc: Global,
    e: &Expr,
) -> Result<Vec<NumberUse<'a>>, AllocError> {
    let mut found = Vec::new(alloc);
    for use_ in uses_in(whole, e.span) {
        if let Some(id) = number_at(whole, use_.denoted) {
            if let Some(value) = expression_of(whole, id) {
                found.push(NumberUse {
                    name: whole_name(whole, use_.span),
                    value,
                })?;
            }
        }
    }
    Ok(found)
}

// The expression that gives a named number its value.
fn expression_of<'a>(whole: &Whole<'a>, id: EntityId) -> Option<&'a Expr> {
    for declaration in whole.parts.declarations.as_slice() {
        if let Declaration::Number(_, names, value) = declaration {
            if names
                .iter()
                .any(|name| whole.names.declared_at(name.span) == Some(id))
            {
                return Some(value);
            }
        }
    }
    None
}

// The bytes of the name that ends with this identifier.
fn whole_name(whole: &Whole<'_>, identifier: Span) -> Span {
    for name in whole.parts.names.as_slice() {
        match last_of(&name.prefix, &name.selectors) {
            Some(last) if last.span == identifier => return name.span,
            _ => {}
        }
    }
    identifier
}

// Is it a subtype of an integer type of the text?
fn is_other_integer(whole: &Whole<'_>, id: EntityId) -> bool {
    matches!(
        whole.names.form_of(id),
        Some(TypeForm::Integer | TypeForm::Modular)
    ) && whole.names.predefined(whole.names.type_of(id)) != Some(Predefined::Integer)
}

fn has_numbers(whole: &Whole<'_>) -> bool {
    whole.parts.declarations.iter().any(|declaration| matches!(
        declaration,
        Declaration::Number(_, _, _)
    ))
}

/// Refuses a named number whose value is known and no Integer; of several it makes a declaration for each.
pub(crate) fn lower_number(
    changes: &mut Changes<'_>,
    whole: Span,
    names: &[Identifier],
    value: &Expr,
) -> Result<(), AllocError> {
    match value_of(value) {
        Known::Real => changes.refuse(RefusalKind::RealNumber, value.span.start),
        Known::OutOfRange => changes.refuse(RefusalKind::NumberOutOfRange, value.span.start),
        _ => {}
    }
    separate(changes, names, whole, &[])
}

// Writes the values of the named numbers in the expression of one, where they are known.
fn write_in_number(
    changes: &mut Changes<'_>,
    whole: &Whole<'_>,
    e: &Expr,
) -> Result<(), AllocError> {
    let numbers = numbers_in(whole, changes.alloc, e)?;
    for number in numbers.as_slice() {
        if let Known::Value(known) = value_of(number.value) {
            changes.write_value(number.name, known)?;
        }
    }
    Ok(())
}

// Writes the values of the named numbers in an expression; where one isn't known, those in its own expression first.
fn write_known(changes: &mut Changes<'_>, whole: &Whole<'_>, e: &Expr) -> Result<(), AllocError> {
    let numbers = numbers_in(whole, changes.alloc, e)?;
    for number in numbers.as_slice() {
        match value_of(number.value) {
            Known::Value(known) => changes.write_value(number.name, known)?,
            _ => write_in_number(changes, whole, number.value)?,
        }
    }
    Ok(())
}

// Values in the place of named numbers where a type of the text is asked for.
fn write_asked(changes: &mut Changes<'_>, whole: &Whole<'_>) -> Result<(), AllocError> {
    let asked = expressions_asked_for(whole, changes.alloc)?;
    for asked in asked.as_slice() {
        if is_other_integer(whole, asked.subtype) && is_of_numbers(whole, asked.value) {
            write_known(changes, whole, asked.value)?;
        }
    }
    Ok(())
}

// Writes the value of an expression that has a power in it, which the language hasn't.
fn power(changes: &mut Changes<'_>, value: &Expr) -> Result<(), AllocError> {
    match value_of(value) {
        Known::Value(number) if changes.source.has_mark(Delimiter::DoubleStar, value.span) => {
            let mut buffer = Buffer::new();
            changes.write(value.span, buffer.format(number).as_bytes())
        }
        _ => Ok(()),
    }
}

// `N : constant := E;` as `N : constant Integer := E;`.
fn constant(changes: &mut Changes<'_>, whole: Span, value: &Expr) -> Result<(), AllocError> {
    let Some(constant) = changes.source.word_from(whole.start, Word::Constant) else {
        return Ok(());
    };
    changes.insert(constant.end_, " Integer".as_bytes())?;
    power(changes, value)
}

/// Named numbers: values where a type of the text is asked for, and where that is nowhere, constants.
pub(crate) fn lower_numbers(
    changes: &mut Changes<'_>,
    whole: &Whole<'_>,
) -> Result<(), AllocError> {
    if !has_numbers(whole) {
        return Ok(());
    }
    write_asked(changes, whole)?;
    if !changes.requests.is_empty() {
        return Ok(());
    }
    for declaration in whole.parts.declarations.as_slice() {
        if let Declaration::Number(span, _, value) = declaration {
            constant(changes, *span, value)?;
        }
    }
    Ok(())
}
