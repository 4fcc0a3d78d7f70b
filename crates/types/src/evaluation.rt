//! What operators give (RM 4.5).
ghost use Rattle.std.specs.Prelude.{◌≡◌};
ghost use Rattle.types.specs.Evaluations.{and_then, computed};
ghost use Rattle.types.specs.Knowing.{evaluation_value, operation_value};
ghost use Rattle.types.specs.Operators.{binary_value, is_decided, truth, unary_value};
ghost use Rattle.types.specs.Values.{Number, Truth, value_of};

use crate::entity::Value;
use ada_tree::{BinaryOperator, UnaryOperator};
use base::arithmetic::{absolute, add, divide, modulus, multiply, negate, remainder, subtract};
use base::{Checked, PredefinedException};

/// What the evaluation of a static expression comes to: a value, an exception, or nothing where no rule gives it a meaning.
#[derive(Clone, Copy, Debug, PartialEq, Eq)]
pub(crate) enum Evaluation {
    Gives(Value),
    Raises(PredefinedException),
    Meaningless,
}

fn computed(outcome: Checked) -> Evaluation
    ensures { evaluation_value result ≡ computed outcome }
{
    match outcome {
        Ok(number) => Evaluation::Gives(Value::Number(number)),
        Err(exception) => Evaluation::Raises(exception),
    }
}

fn truth(b: bool) -> Evaluation
    ensures { evaluation_value result ≡ truth b }
{
    Evaluation::Gives(Value::Truth(b))
}

// An operator of a single operand (RM 4.5.4, 4.5.6).
fn unary_value(operator: UnaryOperator, operand: Value) -> Evaluation
    ensures { evaluation_value result ≡ unary_value operator (value_of operand) }
{
    match (operator, operand) {
        (UnaryOperator::Plus, Value::Number(z)) => Evaluation::Gives(Value::Number(z)),
        (UnaryOperator::Minus, Value::Number(z)) => computed(negate(z)),
        (UnaryOperator::Abs, Value::Number(z)) => computed(absolute(z)),
        (UnaryOperator::Not, Value::Truth(b)) => truth(!b),
        _ => Evaluation::Meaningless,
    }
}

// An operator between numbers (RM 4.5.2, 4.5.3, 4.5.5).
fn number_value(operator: BinaryOperator, x: i64, y: i64) -> Evaluation
    ensures { evaluation_value result ≡ binary_value operator (Number x) (Number y) }
{
    match operator {
        BinaryOperator::Add => computed(add(x, y)),
        BinaryOperator::Subtract => computed(subtract(x, y)),
        BinaryOperator::Multiply => computed(multiply(x, y)),
        BinaryOperator::Divide => computed(divide(x, y)),
        BinaryOperator::Mod => computed(modulus(x, y)),
        BinaryOperator::Rem => computed(remainder(x, y)),
        BinaryOperator::Equal => truth(x <= y && y <= x),
        BinaryOperator::NotEqual => truth(!(x <= y && y <= x)),
        BinaryOperator::Less => truth(!(y <= x)),
        BinaryOperator::LessOrEqual => truth(x <= y),
        BinaryOperator::Greater => truth(!(x <= y)),
        BinaryOperator::GreaterOrEqual => truth(y <= x),
        _ => Evaluation::Meaningless,
    }
}

// An operator between truth values (RM 4.5.1, 4.5.2).
fn truth_value(operator: BinaryOperator, x: bool, y: bool) -> Evaluation
    ensures { evaluation_value result ≡ binary_value operator (Truth x) (Truth y) }
{
    match operator {
        BinaryOperator::Equal => truth(x == y),
        BinaryOperator::NotEqual => truth(x != y),
        BinaryOperator::Less => truth(!x && y),
        BinaryOperator::LessOrEqual => truth(!x || y),
        BinaryOperator::Greater => truth(x && !y),
        BinaryOperator::GreaterOrEqual => truth(x || !y),
        BinaryOperator::And => truth(x && y),
        BinaryOperator::Or => truth(x || y),
        BinaryOperator::Xor => truth(x != y),
        BinaryOperator::AndThen => truth(y),
        BinaryOperator::OrElse => truth(y),
        _ => Evaluation::Meaningless,
    }
}

fn binary_value(operator: BinaryOperator, left: Value, right: Value) -> Evaluation
    ensures { evaluation_value result ≡ binary_value operator (value_of left) (value_of right) }
{
    match (left, right) {
        (Value::Number(x), Value::Number(y)) => number_value(operator, x, y),
        (Value::Truth(x), Value::Truth(y)) => truth_value(operator, x, y),
        _ => Evaluation::Meaningless,
    }
}

// Whether the left operand alone decides (RM 4.5.1).
fn is_decided(operator: BinaryOperator, left: Value) -> bool
    ensures { result ≡ is_decided operator (value_of left) }
{
    match (operator, left) {
        (BinaryOperator::AndThen, Value::Truth(false)) => true,
        (BinaryOperator::OrElse, Value::Truth(true)) => true,
        _ => false,
    }
}

impl Evaluation {
    /// What an operator makes of this operand.
    pub(crate) fn under(self, operator: UnaryOperator) -> Evaluation
        ensures { evaluation_value result ≡ and_then (evaluation_value self) (unary_value operator) }
    {
        match self {
            Evaluation::Gives(v) => unary_value(operator, v),
            other => other,
        }
    }

    /// What an operator makes of this left operand and that right one.
    pub(crate) fn with(self, operator: BinaryOperator, right: Evaluation) -> Evaluation
        ensures { evaluation_value result ≡ operation_value operator (evaluation_value self) (evaluation_value right) }
    {
        match self {
            Evaluation::Gives(v) => {
                if is_decided(operator, v) {
                    self
                } else {
                    match right {
                        Evaluation::Gives(w) => binary_value(operator, v, w),
                        other => other,
                    }
                }
            }
            other => other,
        }
    }
}
