//! Checked arithmetic of the integer base range (RM 3.5.4, 4.5).
ghost use Rattle.std.specs.Prelude.{◌≡◌};
ghost use Rattle.base.specs.Arithmetic.{absolute_of, differ_in_sign, difference_of, modulus_of, negation_of, product_of, quotient_of, remainder_of, sum_of};

use crate::PredefinedException;

/// A value of the base range `-2**63 .. 2**63 - 1`, or the exception that the operation raises.
pub type Checked = Result<i64, PredefinedException>;

/// `left + right`; Constraint_Error where the sum lies outside the base range (RM 4.5.3).
pub fn add(left: i64, right: i64) -> Checked
    ensures { result ≡ sum_of left right }
{
    left.checked_add(right)
        .ok_or(PredefinedException::ConstraintError)
}

/// `left - right`; Constraint_Error where the difference lies outside the base range (RM 4.5.3).
pub fn subtract(left: i64, right: i64) -> Checked
    ensures { result ≡ difference_of left right }
{
    left.checked_sub(right)
        .ok_or(PredefinedException::ConstraintError)
}

/// `left * right`; Constraint_Error where the product lies outside the base range (RM 4.5.5).
pub fn multiply(left: i64, right: i64) -> Checked
    ensures { result ≡ product_of left right }
{
    left.checked_mul(right)
        .ok_or(PredefinedException::ConstraintError)
}

/// `left / right`, toward zero; Constraint_Error where `right` is 0, or the quotient lies outside the base range (RM 4.5.5).
pub fn divide(left: i64, right: i64) -> Checked
    ensures { result ≡ quotient_of left right }
{
    left.checked_div(right)
        .ok_or(PredefinedException::ConstraintError)
}

/// `left rem right`, with the sign of `left`; Constraint_Error where `right` is 0 (RM 4.5.5).
pub fn remainder(left: i64, right: i64) -> Checked
    ensures { result ≡ remainder_of left right }
{
    match right {
        0 => Err(PredefinedException::ConstraintError),
        -1 => Ok(0),
        _ => Ok(left % right),
    }
}

/// Whether one number is positive and the other negative.
fn differ_in_sign(left: i64, right: i64) -> bool
    ensures { result ≡ differ_in_sign left right }
{
    left < 0 && 0 < right || right < 0 && 0 < left
}

/// `left mod right`, with the sign of `right`; Constraint_Error where `right` is 0 (RM 4.5.5).
pub fn modulus(left: i64, right: i64) -> Checked
    ensures { result ≡ modulus_of left right }
{
    match right {
        0 => Err(PredefinedException::ConstraintError),
        -1 => Ok(0),
        _ => {
            let rest = left % right;
            Ok(if differ_in_sign(rest, right) {
                rest + right
            } else {
                rest
            })
        }
    }
}

/// `-operand`; Constraint_Error where the result lies outside the base range (RM 4.5.4).
pub fn negate(operand: i64) -> Checked
    ensures { result ≡ negation_of operand }
{
    operand
        .checked_neg()
        .ok_or(PredefinedException::ConstraintError)
}

/// `abs operand`; Constraint_Error where the result lies outside the base range (RM 4.5.6).
pub fn absolute(operand: i64) -> Checked
    ensures { result ≡ absolute_of operand }
{
    operand
        .checked_abs()
        .ok_or(PredefinedException::ConstraintError)
}
