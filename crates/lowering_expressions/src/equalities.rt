//! Equality of records (RM 4.5.2): that of their components.

use ada2012_lexer::Span;
use ada2012_names::{EntityId, Predefined, TypeForm};
use ada2012_tree::{BinaryOperator, Expr, ExprKind};
use lowering_text::{Changes, Whole, is_scalar, name_of, put_all};
use std::alloc::AllocError;

/// Two records, and whether they are to be equal.
#[derive(Clone, Copy)]
struct Sides<'b> {
    left: &'b [u8],
    right: &'b [u8],
    is_equal: bool,
}

// Is a component a scalar, a record, a time or a span?
fn is_comparable(whole: &Whole<'_>, part: EntityId) -> bool {
    let Some(subtype) = whole.names.subtype_of(part) else {
        return false;
    };
    let form = whole.names.form_of(subtype);
    is_scalar(form)
        || form == Some(TypeForm::Record)
        || matches!(
            whole.names.predefined(whole.names.type_of(subtype)),
            Some(Predefined::Time | Predefined::TimeSpan)
        )
}

// The relation of a component of two records, with the word that links it to the one before.
fn put_relation(
    changes: &Changes<'_>,
    words: &mut Vec<u8>,
    sides: &Sides<'_>,
    name: Span,
    is_first: bool,
) -> Result<(), AllocError> {
    let operator = if sides.is_equal { " = " } else { " /= " };
    let link = match (is_first, sides.is_equal) {
        (true, _) => "",
        (false, true) => " and then ",
        (false, false) => " or else ",
    };
    let name = changes.copied(name)?;
    let name = name.as_slice();
    put_all(
        words,
        &[
            link.as_bytes(),
            sides.left,
            b".",
            name,
            operator.as_bytes(),
            sides.right,
            b".",
            name,
        ],
    )
}

// The relations of the components in parentheses; none where one is neither a scalar nor a record.
fn relations(
    changes: &Changes<'_>,
    whole: &Whole<'_>,
    owner: EntityId,
    sides: &Sides<'_>,
) -> Result<Option<Vec<u8>>, AllocError> {
    let mut words = Vec::new(changes.alloc);
    words.push(b'(')?;
    for place in 0..whole.names.entities().len() {
        let Some(part) = whole.names.part_at(owner, place) else {
            words.push(b')')?;
            return Ok(if place > 0 { Some(words) } else { None });
        };
        match whole.names.entity(part) {
            Some(entity) if is_comparable(whole, part) => {
                put_relation(changes, &mut words, sides, entity.span, place == 0)?
            }
            _ => return Ok(None),
        }
    }
    Ok(None)
}

// The relation of two objects, or parts of them.
fn equality_of(
    changes: &mut Changes<'_>,
    whole: &Whole<'_>,
    e: &Expr,
    left: &Expr,
    right: &Expr,
    is_equal: bool,
) -> Result<(), AllocError> {
    let Some(subtype) = whole.names.type_at(left.span) else {
        return Ok(());
    };
    if whole.names.form_of(subtype) != Some(TypeForm::Record) {
        return Ok(());
    }
    let owner = whole.names.type_of(subtype);
    let first = changes.copied(left.span)?;
    let second = changes.copied(right.span)?;
    let sides = Sides {
        left: &first,
        right: &second,
        is_equal,
    };
    match relations(changes, whole, owner, &sides)? {
        Some(words) => changes.replace(e.span, words, None),
        None => Ok(()),
    }
}

fn equality(changes: &mut Changes<'_>, whole: &Whole<'_>, e: &Expr) -> Result<(), AllocError> {
    let ExprKind::Chain(left, operands) = &e.kind else {
        return Ok(());
    };
    let [right] = operands.as_slice() else {
        return Ok(());
    };
    let is_equal = match right.operator {
        BinaryOperator::Equal => true,
        BinaryOperator::NotEqual => false,
        _ => return Ok(()),
    };
    if name_of(left).is_none() || name_of(&right.value).is_none() || whole.may_call(e.span) {
        return Ok(());
    }
    equality_of(changes, whole, e, left, &right.value, is_equal)
}

/// Relations of records that are objects or parts of them.
pub fn lower_equalities(changes: &mut Changes<'_>, whole: &Whole<'_>) -> Result<(), AllocError> {
    for e in whole.parts.expressions.as_slice() {
        equality(changes, whole, e)?;
    }
    Ok(())
}
