//! The type of an operation, and whether its operator has a meaning for its operands (RM 4.5).
ghost use Rattle.std.specs.Prelude.{◌≡◌, ◌+◌, true};
ghost use Rattle.types.specs.Scopes.{form_at};
ghost use Rattle.expr_rules.specs.Typing.{arithmetic_own, binary_own, has_binary, has_unary, integral_or_unknown, is_logical, is_relation, is_times, join, time_own};
ghost use Rattle.mismatches.specs.ExpressionMismatches.{binary_mismatch, operand_wanted, unary_mismatch};
ghost use Rattle.mismatches.specs.Conflicts.{noted};

use crate::conflict::{Conflict, Search, is_known};
use ada_tree::{BinaryOperator, UnaryOperator};
use expr_rules::{Own, Wanted, is_boolean, is_integral, is_scalar, is_span, is_time};
use types::{Scope, Subtype};

fn joined_with(scope: &Scope, number: usize) -> Own
    ensures { result ≡ join scope.now Own.Universal (Own.Typed number) }
{
    if is_integral(scope, Own::Typed(number)) {
        Own::Typed(number)
    } else {
        Own::Unknown
    }
}

/// The one type of two parts.
pub(crate) fn join(scope: &Scope, a: Own, b: Own) -> Own
    ensures { result ≡ join scope.now a b }
{
    match (a, b) {
        (Own::Universal, Own::Universal) => Own::Universal,
        (Own::Universal, Own::Typed(n)) | (Own::Typed(n), Own::Universal) => joined_with(scope, n),
        (Own::Typed(n), Own::Typed(m)) => { if n == m { Own::Typed(n) } else { Own::Unknown } }
        _ => Own::Unknown,
    }
}

pub(crate) fn is_logical(operator: BinaryOperator) -> bool
    ensures { result ≡ is_logical operator }
{
    match operator {
        BinaryOperator::And
        | BinaryOperator::Or
        | BinaryOperator::Xor
        | BinaryOperator::AndThen
        | BinaryOperator::OrElse => true,
        _ => false,
    }
}

pub(crate) fn is_relation(operator: BinaryOperator) -> bool
    ensures { result ≡ is_relation operator }
{
    match operator {
        BinaryOperator::Equal
        | BinaryOperator::NotEqual
        | BinaryOperator::Less
        | BinaryOperator::LessOrEqual
        | BinaryOperator::Greater
        | BinaryOperator::GreaterOrEqual => true,
        _ => false,
    }
}

fn integral_or_unknown(scope: &Scope, own: Own) -> Own
    ensures { result ≡ integral_or_unknown scope.now own }
{
    if is_integral(scope, own) {
        own
    } else {
        Own::Unknown
    }
}

// The number of Time_Span, which is declared after Time.
#[tactic(auto, using(crate::proofs::Times::time_within))]
fn span_after(scope: &Scope, time: usize) -> usize
    requires { is_times (form_at scope.now time) ≡ true }
    ensures { result ≡ time + 1 }
{
    let names = scope.len();
    prove!(time < names);
    time + 1
}

// What an operator makes of a Time and this.
fn time_own(scope: &Scope, operator: BinaryOperator, time: usize, right: Own) -> Own
    requires { is_times (form_at scope.now time) ≡ true }
    ensures { result ≡ time_own scope.now operator (Own.Typed time) right }
{
    match operator {
        BinaryOperator::Add => {
            if is_span(scope, right) {
                Own::Typed(time)
            } else {
                Own::Unknown
            }
        }
        BinaryOperator::Subtract => {
            if is_time(scope, right) {
                Own::Typed(span_after(scope, time))
            } else {
                Own::Unknown
            }
        }
        _ => Own::Unknown,
    }
}

fn arithmetic_own(scope: &Scope, operator: BinaryOperator, a: Own, b: Own) -> Own
    ensures { result ≡ arithmetic_own scope.now operator a b }
{
    match a {
        Own::Typed(number) => {
            if is_time(scope, a) {
                time_own(scope, operator, number, b)
            } else {
                integral_or_unknown(scope, join(scope, a, b))
            }
        }
        _ => integral_or_unknown(scope, join(scope, a, b)),
    }
}

/// The type of an operation on operands of these types.
pub(crate) fn binary_own(scope: &Scope, operator: BinaryOperator, a: Own, b: Own) -> Own
    ensures { result ≡ binary_own scope.now operator a b }
{
    if is_logical(operator) || is_relation(operator) {
        Own::Typed(Subtype::BOOLEAN.type_number)
    } else {
        arithmetic_own(scope, operator, a, b)
    }
}

fn has_unary(scope: &Scope, operator: UnaryOperator, own: Own) -> bool
    ensures { result ≡ has_unary scope.now operator own }
{
    match operator {
        UnaryOperator::Not => is_boolean(scope, own),
        _ => is_integral(scope, own),
    }
}

fn has_binary(scope: &Scope, operator: BinaryOperator, a: Own, b: Own) -> bool
    ensures { result ≡ has_binary scope.now operator a b }
{
    if is_logical(operator) {
        is_boolean(scope, join(scope, a, b))
    } else if is_relation(operator) {
        is_scalar(scope, join(scope, a, b))
    } else {
        is_known(arithmetic_own(scope, operator, a, b))
    }
}

fn operand_wanted(operator: UnaryOperator) -> Wanted
    ensures { result ≡ operand_wanted operator }
{
    match operator {
        UnaryOperator::Not => Wanted::BOOLEAN,
        _ => Wanted::AnyInteger,
    }
}

/// The operation at this place on an operand of this type.
pub(crate) fn note_unary(
    scope: &Scope,
    operator: UnaryOperator,
    place: u32,
    own: Own,
    search: &mut Search,
)
    ensures { search.new ≡ noted search.old (unary_mismatch scope.now operator place own) }
{
    let conflict = Conflict::Unexpected(operand_wanted(operator), own);
    search.note(
        place,
        conflict,
        is_known(own) && !has_unary(scope, operator, own),
    );
}

/// The operation at this place on operands of these types.
pub(crate) fn note_binary(
    scope: &Scope,
    operator: BinaryOperator,
    place: u32,
    a: Own,
    b: Own,
    search: &mut Search,
)
    ensures { search.new ≡ noted search.old (binary_mismatch scope.now operator place a b) }
{
    search.note(
        place,
        Conflict::Operands(a, b),
        is_known(a) && (is_known(b) && !has_binary(scope, operator, a, b)),
    );
}
