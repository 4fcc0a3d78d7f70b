//! Modular types (RM 3.5.4): integer types, with `mod` after each operation.

use crate::asked::{Asked, expressions_asked_for};
use ada2012_lexer::{Delimiter, Span};
use ada2012_names::{EntityId, EntityKind, TypeForm};
use ada2012_tree::{
    BinaryOperator, Declaration, DiscreteRange, Expr, ExprKind, Name, Operand, Range,
    TypeDefinition, UnaryOperator,
};
use itoa::Buffer;
use lexer::Word;
use lowering_text::{
    Changes, Known, Whole, after, is_attribute, is_mark, is_within, last_of, name_of, span_of,
    value_of,
};
use std::alloc::AllocError;

/// The greatest modulus: products are within 64 bits.
const MOST: i64 = 1 << 31;

// Has the operation of an operator on values below the modulus a value that may not be?
fn leaves_range(operator: BinaryOperator) -> bool {
    matches!(
        operator,
        BinaryOperator::Add | BinaryOperator::Subtract | BinaryOperator::Multiply
    )
}

// Is it an operation of bits, or a power?
fn has_no_words(operator: BinaryOperator) -> bool {
    matches!(
        operator,
        BinaryOperator::And | BinaryOperator::Or | BinaryOperator::Xor | BinaryOperator::Power
    )
}

// Is it an operation of numbers?
fn is_operation(e: &Expr) -> bool {
    match &e.kind {
        ExprKind::Chain(_, operands) => operands.as_slice().iter().any(|operand| leaves_range(
            operand.operator,
        ) || has_no_words(operand.operator)),
        ExprKind::Unary(_, _) => true,
        _ => false,
    }
}

// The value of the constant or named number that has this identifier, where its expression has no names.
fn constant_at(whole: &Whole<'_>, declared: Span) -> Option<i64> {
    for declaration in whole.parts.declarations.as_slice() {
        let (names, value) = match declaration {
            Declaration::Number(_, names, value) => (names, value),
            Declaration::Object(object) => match &object.value {
                Some(value) if object.constant => (&object.names, value),
                _ => continue,
            },
            _ => continue,
        };
        if names.iter().any(|name| name.span.start == declared.start) {
            return match value_of(value) {
                Known::Value(value) => Some(value),
                _ => None,
            };
        }
    }
    None
}

/// The value of an expression that is a constant, or has no names.
pub fn static_value(whole: &Whole<'_>, e: &Expr) -> Option<i64> {
    if let Known::Value(value) = value_of(e) {
        return Some(value);
    }
    let name = name_of(e)?;
    let id = whole.denoted(last_of(&name.prefix, &name.selectors)?.span)?;
    constant_at(whole, whole.names.entity(id)?.span)
}

// The value of the modulus of a type, if it isn't too great.
fn modulus_value(whole: &Whole<'_>, modulus: &Expr) -> Option<i64> {
    let value = static_value(whole, modulus)?;
    if 0 < value && value <= MOST {
        Some(value)
    } else {
        None
    }
}

// The modulus of a modular type of the text, if it isn't too great.
fn modulus_of_type(whole: &Whole<'_>, id: EntityId) -> Option<i64> {
    let declared = whole.names.entity(whole.names.type_of(id))?.span;
    for declaration in whole.parts.declarations.as_slice() {
        if let Declaration::Type(own) = declaration {
            if let TypeDefinition::Modular(modulus) = &own.definition {
                if own.name.span.start == declared.start {
                    return modulus_value(whole, modulus);
                }
            }
        }
    }
    None
}

// The modulus of the type of an expression, if it is a modular one.
fn modulus_of(whole: &Whole<'_>, e: &Expr) -> Option<i64> {
    modulus_of_type(whole, whole.names.type_at(e.span)?)
}

fn is_modular(whole: &Whole<'_>, e: &Expr) -> bool {
    match whole.names.type_at(e.span) {
        Some(id) => matches!(whole.names.form_of(id), Some(TypeForm::Modular)),
        None => false,
    }
}

fn has_name(whole: &Whole<'_>, span: Span) -> bool {
    whole.names.uses().iter().any(|use_| span.start <= use_.span.start
        && use_.span.start < span.end_)
}

// Is there nothing but parentheses between two places?
fn has_parentheses_alone(changes: &Changes<'_>, from: u32, to: u32) -> bool {
    for token in changes.source.between(from, to) {
        if !is_mark(token, Delimiter::LeftParenthesis)
            && !is_mark(token, Delimiter::RightParenthesis)
        {
            return false;
        }
    }
    true
}

// Is a type other than a modular one asked for in the place of an expression, with or without parentheses around it?
fn is_of_another_type(
    changes: &Changes<'_>,
    whole: &Whole<'_>,
    asked: &[Asked<'_>],
    span: Span,
) -> bool {
    for own in asked {
        let value = own.value.span;
        if value.start <= span.start
            && span.end_ <= value.end_
            && has_parentheses_alone(changes, value.start, span.start)
            && has_parentheses_alone(changes, span.end_, value.end_)
        {
            return match whole.names.form_of(own.subtype) {
                Some(form) => form != TypeForm::Modular,
                None => false,
            };
        }
    }
    false
}

fn has_bound(range: &Range, span: Span) -> bool {
    is_within(span.start, range.first.span) || is_within(span.start, range.last.span)
}

// Is it in a bound of an integer type, or of an index or a loop whose bounds have no other type than Integer (RM 3.5.4, 3.6, 5.5)?
fn is_of_integer_range(whole: &Whole<'_>, span: Span) -> bool {
    for declaration in whole.parts.declarations.as_slice() {
        if let Declaration::Type(own) = declaration {
            if let TypeDefinition::Integer(range) = &own.definition {
                if has_bound(range, span) {
                    return true;
                }
            }
        }
    }
    for range in whole.parts.discrete_ranges.as_slice() {
        if let DiscreteRange::Bounds(range) = range {
            if has_bound(range, span) {
                return whole.names.type_at(range.first.span).is_none()
                    && whole.names.type_at(range.last.span).is_none();
            }
        }
    }
    false
}

// Can't it be told what an operation is written as?
fn is_in_doubt(changes: &Changes<'_>, whole: &Whole<'_>, asked: &[Asked<'_>], e: &Expr) -> bool {
    if !is_operation(e) {
        return false;
    }
    match whole.names.type_at(e.span) {
        Some(_) if is_modular(whole, e) => modulus_of(whole, e).is_none() || has_bits(e),
        Some(_) => false,
        None if has_name(whole, e.span) || is_negative(e) => {
            !is_of_another_type(changes, whole, asked, e.span)
                && !is_of_integer_range(whole, e.span)
        }
        None => false,
    }
}

// Is there an operation of which it can't be told what it is written as?
fn has_doubts(changes: &Changes<'_>, whole: &Whole<'_>) -> Result<bool, AllocError> {
    let asked = expressions_asked_for(whole, changes.alloc)?;
    for e in whole.parts.expressions.as_slice() {
        if is_in_doubt(changes, whole, &asked, e) {
            return Ok(true);
        }
    }
    Ok(false)
}

// Is it an operation of literals whose value is below 0? Of a modular type it is another one.
fn is_negative(e: &Expr) -> bool {
    match value_of(e) {
        Known::Value(value) => value < 0,
        _ => false,
    }
}

fn has_bits(e: &Expr) -> bool {
    match &e.kind {
        ExprKind::Chain(_, operands) => operands
            .as_slice()
            .iter()
            .any(|operand| has_no_words(operand.operator)),
        ExprKind::Unary(operator, _) => *operator == UnaryOperator::Not,
        _ => false,
    }
}

// A modulus, after these words and before others.
fn insert_modulus(
    changes: &mut Changes<'_>,
    place: Span,
    words: &str,
    modulus: i64,
) -> Result<(), AllocError> {
    let mut replacement = Vec::new(changes.alloc);
    replacement.extend_from_slice(words.as_bytes())?;
    let mut buffer = Buffer::new();
    replacement.extend_from_slice(buffer.format(modulus).as_bytes())?;
    changes.replace(place, replacement, None)
}

// `mod N` after each operation of a chain that may leave the range.
fn chain(
    changes: &mut Changes<'_>,
    start: u32,
    operands: &[Operand],
    modulus: i64,
) -> Result<(), AllocError> {
    for operand in operands {
        if leaves_range(operand.operator) {
            changes.insert(start, "(".as_bytes())?;
            insert_modulus(changes, after(operand.span), ") mod ", modulus)?;
        }
    }
    Ok(())
}

fn operation(changes: &mut Changes<'_>, e: &Expr, modulus: i64) -> Result<(), AllocError> {
    match &e.kind {
        ExprKind::Chain(_, operands) => chain(changes, e.span.start, operands, modulus),
        ExprKind::Unary(UnaryOperator::Minus, _) => {
            changes.insert(e.span.start, "(".as_bytes())?;
            insert_modulus(changes, after(e.span), ") mod ", modulus)
        }
        _ => Ok(()),
    }
}

// `mod E` as `range 0 .. N`.
fn modular_type(
    changes: &mut Changes<'_>,
    from: u32,
    modulus: &Expr,
    value: i64,
) -> Result<(), AllocError> {
    let Some(word) = changes.source.word_from(from, Word::Mod) else {
        return Ok(());
    };
    let place = Span {
        start: word.start,
        end_: modulus.span.end_,
    };
    insert_modulus(changes, place, "range 0 .. ", value.saturating_sub(1))
}

fn modular_declarations(changes: &mut Changes<'_>, whole: &Whole<'_>) -> Result<(), AllocError> {
    for declaration in whole.parts.declarations.as_slice() {
        if let Declaration::Type(own) = declaration {
            if let TypeDefinition::Modular(modulus) = &own.definition {
                if let Some(value) = modulus_value(whole, modulus) {
                    modular_type(changes, own.name.span.end_, modulus, value)?;
                }
            }
        }
    }
    Ok(())
}

// Writes `X + 1` or `X - 1` and `mod N` for the attribute `Succ` or `Pred` of a modular type.
fn modular_step(
    changes: &mut Changes<'_>,
    whole: &Whole<'_>,
    name: &Name,
) -> Result<(), AllocError> {
    let Some(found) = whole.attribute_use(name) else {
        return Ok(());
    };
    let Some(modulus) = modulus_of_type(whole, found.subtype) else {
        return Ok(());
    };
    let words = if is_attribute(found.attribute, "SUCC") {
        " + 1) mod "
    } else if is_attribute(found.attribute, "PRED") {
        " - 1) mod "
    } else {
        return Ok(());
    };
    let Some(close) = changes.source.token_before(found.list.end_) else {
        return Ok(());
    };
    let prefix = Span {
        start: name.span.start,
        end_: found.list.start,
    };
    changes.write(prefix, "(".as_bytes())?;
    insert_modulus(changes, span_of(close), words, modulus)?;
    changes.insert(found.list.end_, ")".as_bytes())
}

/// Modular types of at most 2**31 values, with their operations, if none of these is one of bits or of a type that isn't known.
pub fn lower_modular_types(changes: &mut Changes<'_>, whole: &Whole<'_>) -> Result<(), AllocError> {
    if has_no_modular_type(whole) || has_doubts(changes, whole)? {
        return Ok(());
    }
    for e in whole.parts.expressions.as_slice() {
        if is_operation(e) {
            if let Some(modulus) = modulus_of(whole, e) {
                operation(changes, e, modulus)?;
            }
        }
    }
    for name in whole.parts.names.as_slice() {
        modular_step(changes, whole, name)?;
    }
    modular_declarations(changes, whole)
}

fn has_no_modular_type(whole: &Whole<'_>) -> bool {
    !whole.names.entities().iter().any(|entity| matches!(
        entity.kind,
        EntityKind::Type(TypeForm::Modular)
    ))
}
