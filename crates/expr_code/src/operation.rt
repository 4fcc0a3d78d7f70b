//! The instructions of operators (RM 4.5).
ghost use Rattle.std.specs.Prelude.{◌≡◌};
ghost use Rattle.expr_code.specs.OperatorCode.{binary_operation, unary_operation};

use ada_tree::{BinaryOperator, UnaryOperator};
use image::Operation;

/// The instruction of an operator of one operand; `+` has none.
pub(crate) fn unary_operation(operator: UnaryOperator) -> Option<Operation>
    ensures { result ≡ unary_operation operator }
{
    match operator {
        UnaryOperator::Plus => None,
        UnaryOperator::Minus => Some(Operation::Negate),
        UnaryOperator::Abs => Some(Operation::Absolute),
        UnaryOperator::Not => Some(Operation::Not),
    }
}

/// The instruction of an operator that takes both operands; `and then` and `or else` have none.
pub(crate) fn binary_operation(operator: BinaryOperator) -> Option<Operation>
    ensures { result ≡ binary_operation operator }
{
    let operation = match operator {
        BinaryOperator::Add => Operation::Add,
        BinaryOperator::Subtract => Operation::Subtract,
        BinaryOperator::Multiply => Operation::Multiply,
        BinaryOperator::Divide => Operation::Divide,
        BinaryOperator::Mod => Operation::Modulo,
        BinaryOperator::Rem => Operation::Remainder,
        BinaryOperator::Equal => Operation::Equal,
        BinaryOperator::NotEqual => Operation::NotEqual,
        BinaryOperator::Less => Operation::Less,
        BinaryOperator::LessOrEqual => Operation::LessOrEqual,
        BinaryOperator::Greater => Operation::Greater,
        BinaryOperator::GreaterOrEqual => Operation::GreaterOrEqual,
        BinaryOperator::And => Operation::And,
        BinaryOperator::Or => Operation::Or,
        BinaryOperator::Xor => Operation::ExclusiveOr,
        BinaryOperator::AndThen | BinaryOperator::OrElse => return None,
    };
    Some(operation)
}
