//! Between which two numbers the values of an integer expression lie (RM 3.5, 4.9).
ghost use Rattle.std.specs.Prelude.{◌≡◌};
ghost use Rattle.ada_tree.specs.ExpressionTree.{elsif_value_trees, expr_tree};
ghost use Rattle.types.specs.Bounds.{base_bounds, bounds_of, elsif_bounds, known_or, modulus_bounds, name_bounds, operation_bounds, spanned, static_number, subtype_bounds, unary_bounds};
ghost use Rattle.types.specs.Walking.{bounds_after, standing_bounds};

use crate::entity::{Subtype, Value};
use crate::scope::Scope;
use crate::standing::Standing;
use crate::statics::static_value;
use ada_tree::laws::{chains_by_parts, conditional_by_parts, names_by_parts};
use ada_tree::{BinaryOperator, ElsifValue, Expr, Operand, UnaryOperator};

const BASE_RANGE: (i64, i64) = (i64::MIN, i64::MAX);

fn subtype_bounds(subtype: Subtype) -> (i64, i64)
    ensures { result ≡ subtype_bounds subtype }
{
    (subtype.first, subtype.last)
}

// From the least to the greatest number of either.
fn spanned(one: (i64, i64), other: (i64, i64)) -> (i64, i64)
    ensures { result ≡ spanned one other }
{
    (one.0.min(other.0), one.1.max(other.1))
}

// The number that a static expression is worth; none where its evaluation raises.
fn static_number(scope: &Scope, e: &Expr) -> Option<i64>
    ensures { result ≡ static_number scope.now (expr_tree e.now) }
{
    match static_value(scope, e) {
        Ok(Value::Number(number)) => Some(number),
        Ok(Value::Truth(_)) => None,
        Err(_) => None,
    }
}

// Of a value of the subtype that the name stands for.
fn name_bounds(standing: Standing) -> (i64, i64)
    ensures { result ≡ name_bounds standing }
{
    match standing {
        Standing::Part(_, subtype) => subtype_bounds(subtype),
        Standing::Fixed(subtype, _) => subtype_bounds(subtype),
        Standing::Given(subtype, _) => subtype_bounds(subtype),
        _ => BASE_RANGE,
    }
}

// Of an operator with one operand, which has these bounds (RM 4.5.4, 4.5.6).
fn unary_bounds(operator: UnaryOperator, operand: (i64, i64)) -> (i64, i64)
    ensures { result ≡ unary_bounds operator operand }
{
    match operator {
        UnaryOperator::Plus => operand,
        _ => BASE_RANGE,
    }
}

// Of `E mod k`, where k is known (RM 4.5.5).
fn modulus_bounds(right: Option<i64>) -> (i64, i64)
    ensures { result ≡ modulus_bounds right }
{
    match right {
        Some(number) => {
            if number > 0 {
                (0, number - 1)
            } else {
                BASE_RANGE
            }
        }
        None => BASE_RANGE,
    }
}

fn operation_bounds(scope: &Scope, operator: BinaryOperator, right: &Expr) -> (i64, i64)
    ensures { result ≡ operation_bounds operator (static_number scope.now (expr_tree right.now)) }
{
    match operator {
        BinaryOperator::Mod => modulus_bounds(static_number(scope, right)),
        _ => BASE_RANGE,
    }
}

// Of the last operation in a row of them, of which the ones in front have these bounds.
fn bounds_after(scope: &Scope, first: (i64, i64), operands: &[Operand]) -> (i64, i64)
    ensures { result ≡ bounds_after scope.now first operands.now }
{
    let mut bounds = first;
    for operand in operands {
        bounds = operation_bounds(scope, operand.operator, &operand.value);
    }
    bounds
}

// This number alone, and where none is known what else is.
fn known_or(number: Option<i64>, others: (i64, i64)) -> (i64, i64)
    ensures { result ≡ known_or number others }
{
    match number {
        Some(number) => (number, number),
        None => others,
    }
}

// The number that is known of a name, twice, or else the bounds of its subtype.
fn standing_bounds(standing: Standing) -> (i64, i64)
    ensures { result ≡ standing_bounds standing }
{
    match standing {
        Standing::Fixed(_, Some(Value::Number(number))) => (number, number),
        Standing::Given(_, Some(Value::Number(number))) => (number, number),
        Standing::Plain(number) => (number, number),
        _ => name_bounds(standing),
    }
}

// Of the parts of an if expression up to here, of which the first ones have these bounds.
#[cycle(bounds)]
fn elsif_bounds(scope: &Scope, first: (i64, i64), parts: &[ElsifValue]) -> (i64, i64)
    ensures { result ≡ elsif_bounds scope.now first (elsif_value_trees parts.now) }
{
    let mut both = first;
    for part in parts {
        both = spanned(both, bounds(scope, &part.value));
    }
    both
}

/// Two numbers between which every value of a legal integer expression lies, these among them: for a static expression whose evaluation doesn't
/// raise its value twice; for an object, a loop parameter, a component, a call or a conversion the bounds of its subtype; for an if expression the
/// least and the greatest over its parts; for `E mod k` with a static k above 0 those from 0 to k - 1; for `+ E`, and in parentheses, those of what
/// is there; else the base range. No memory is asked for.
#[cycle(bounds)]
pub fn bounds(scope: &Scope, e: &Expr) -> (i64, i64)
    ensures { result ≡ bounds_of scope.now (expr_tree e.now) }
{
    names_by_parts();
    conditional_by_parts();
    chains_by_parts();
    match e {
        Expr::Number(number, _) => (*number, *number),
        Expr::Name(name) => standing_bounds(scope.standing(name)),
        Expr::Parenthesized(_, inner) => bounds(scope, inner),
        Expr::Unary(operator, _, operand) => {
            let others = unary_bounds(*operator, bounds(scope, operand));
            known_or(static_number(scope, e), others)
        }
        Expr::Chain(_, second, more) => {
            let first = operation_bounds(scope, second.operator, &second.value);
            known_or(static_number(scope, e), bounds_after(scope, first, more))
        }
        Expr::Conditional(_, _, value, parts, else_value) => {
            let first = elsif_bounds(scope, bounds(scope, value), parts);
            spanned(first, bounds(scope, else_value))
        }
    }
}
