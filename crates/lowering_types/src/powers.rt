//! Powers whose value is known (RM 4.5.6): the value.

use crate::modular::static_value;
use ada2012_tree::{BinaryOperator, Expr, ExprKind};
use lowering_text::{Changes, Whole, power};
use std::alloc::AllocError;

// The value of an expression that is a power of a literal or a constant.
fn power_value(whole: &Whole<'_>, e: &Expr) -> Option<i64> {
    let ExprKind::Chain(base, operands) = &e.kind else {
        return None;
    };
    let [exponent] = operands.as_slice() else {
        return None;
    };
    if exponent.operator != BinaryOperator::Power {
        return None;
    }
    power(
        static_value(whole, base)?,
        static_value(whole, &exponent.value)?,
    )
}

/// Powers of literals and of constants whose values are known.
pub fn lower_powers(changes: &mut Changes<'_>, whole: &Whole<'_>) -> Result<(), AllocError> {
    for e in whole.parts.expressions.as_slice() {
        if let Some(value) = power_value(whole, e) {
            changes.write_value(e.span, value)?;
        }
    }
    Ok(())
}
