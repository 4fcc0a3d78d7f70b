//! The values of expressions of literals (RM 4.9).

use ada2012_tree::{BinaryOperator, Expr, ExprKind, Operand, UnaryOperator};

/// What is known of the value of a static expression without names.
#[derive(Clone, Copy, PartialEq, Eq)]
pub enum Known {
    /// It is this number.
    Value(i64),
    /// It has a real literal in it.
    Real,
    /// It, or a part of it, is out of 64 bits or raises an exception.
    OutOfRange,
    /// It has a name in it, or is no number.
    Unknown,
}

fn value_or_range(value: Option<i64>) -> Known {
    match value {
        Some(value) => Known::Value(value),
        None => Known::OutOfRange,
    }
}

fn remainder(left: i64, right: i64) -> Option<i64> {
    if right == -1 {
        Some(0)
    } else {
        left.checked_rem(right)
    }
}

fn modulus(left: i64, right: i64) -> Option<i64> {
    let rest = remainder(left, right)?;
    if rest != 0 && (rest < 0) != (right < 0) {
        rest.checked_add(right)
    } else {
        Some(rest)
    }
}

/// A power; none where it is out of 64 bits. The exponent of one whose base is neither 0, 1 nor -1 is below 64.
pub fn power(base: i64, exponent: i64) -> Option<i64> {
    if exponent < 0 {
        return None;
    }
    let most = if exponent % 2 == 0 { 64 } else { 65 };
    let mut value: i64 = 1;
    for _ in 0..exponent.min(most) {
        value = value.checked_mul(base)?;
    }
    Some(value)
}

fn of_operator(operator: BinaryOperator, left: i64, right: i64) -> Known {
    match operator {
        BinaryOperator::Add => value_or_range(left.checked_add(right)),
        BinaryOperator::Subtract => value_or_range(left.checked_sub(right)),
        BinaryOperator::Multiply => value_or_range(left.checked_mul(right)),
        BinaryOperator::Divide => value_or_range(left.checked_div(right)),
        BinaryOperator::Mod => value_or_range(modulus(left, right)),
        BinaryOperator::Rem => value_or_range(remainder(left, right)),
        BinaryOperator::Power => value_or_range(power(left, right)),
        _ => Known::Unknown,
    }
}

fn both(operator: BinaryOperator, left: Known, right: Known) -> Known {
    match (left, right) {
        (Known::Value(left), Known::Value(right)) => of_operator(operator, left, right),
        (Known::Value(_), other) => other,
        (other, _) => other,
    }
}

fn of_unary(operator: UnaryOperator, value: Known) -> Known {
    match (operator, value) {
        (UnaryOperator::Minus, Known::Value(value)) => value_or_range(value.checked_neg()),
        (UnaryOperator::Abs, Known::Value(value)) => value_or_range(value.checked_abs()),
        (UnaryOperator::Plus, value) => value,
        _ => Known::Unknown,
    }
}

#[cycle(value)]
fn of_chain(first: Known, operands: &[Operand]) -> Known {
    let mut value = first;
    for operand in operands {
        value = both(operand.operator, value, value_of(&operand.value));
    }
    value
}

/// The value of an expression of literals.
#[cycle(value)]
pub fn value_of(e: &Expr) -> Known {
    match &e.kind {
        ExprKind::Integer(Some(value)) => value_or_range(i64::try_from(*value).ok()),
        ExprKind::Integer(None) => Known::OutOfRange,
        ExprKind::Real => Known::Real,
        ExprKind::Parenthesized(inner) => value_of(inner),
        ExprKind::Unary(operator, operand) => of_unary(*operator, value_of(operand)),
        ExprKind::Chain(first, operands) => of_chain(value_of(first), operands),
        _ => Known::Unknown,
    }
}
