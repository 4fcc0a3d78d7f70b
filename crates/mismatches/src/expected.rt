//! What is expected of the parts of an expression where they have no type by themselves (RM 4.5, 4.5.7, 6.4.1).
ghost use Rattle.std.specs.Prelude.{◌≡◌};
ghost use Rattle.ada_tree.specs.ExpressionTree.{elsif_value_trees, expr_tree};
ghost use Rattle.expr_rules.specs.ExpressionRules.{below, beside, beside_typed, conditional_wanted, first_typed, or_first, parts_own, parts_wanted};
ghost use Rattle.expr_rules.specs.NameRules.{slot_wanted};
ghost use Rattle.expr_rules.specs.Typing.{elsif_own_of, own_of};

use crate::operators::{is_logical, is_relation, join};
use ada_tree::{BinaryOperator, ElsifValue, Expr, Operand, UnaryOperator};
use expr_rules::{Own, Slot, Wanted, is_integral, own_of, typed_wanted};
use types::Scope;

/// What is expected of the operand of a unary operator, of whose operation this is.
pub(crate) fn below(operator: UnaryOperator, wanted: Wanted) -> Wanted
    ensures { result ≡ below operator wanted }
{
    match operator {
        UnaryOperator::Not => Wanted::BOOLEAN,
        _ => wanted,
    }
}

fn beside_typed(scope: &Scope, operator: BinaryOperator, own: Own) -> Wanted
    ensures { result ≡ beside_typed scope.now operator own }
{
    match own {
        Own::Typed(number) => {
            if is_relation(operator) || is_integral(scope, Own::Typed(number)) {
                Wanted::OfType(number)
            } else {
                Wanted::Anything
            }
        }
        _ => Wanted::Anything,
    }
}

/// What is expected of an operand beside one of this type.
pub(crate) fn beside(scope: &Scope, operator: BinaryOperator, own: Own) -> Wanted
    ensures { result ≡ beside scope.now operator own }
{
    if is_logical(operator) {
        Wanted::BOOLEAN
    } else {
        beside_typed(scope, operator, own)
    }
}

/// What is expected of the left operand of an operator, which has this right one.
pub(crate) fn before(scope: &Scope, right: &Operand) -> Wanted
    ensures { result ≡ beside scope.now right.now.operator (own_of scope.now (expr_tree right.now.value)) }
{
    beside(scope, right.operator, own_of(scope, &right.value))
}

fn or_first(a: Own, b: Own) -> Own
    ensures { result ≡ or_first a b }
{
    match a {
        Own::Typed(number) => Own::Typed(number),
        _ => b,
    }
}

// The first value of an if expression that has a type by itself.
fn first_typed(scope: &Scope, parts: &[ElsifValue], last: Own) -> Own
    ensures { result ≡ first_typed scope.now (elsif_value_trees parts.now) last }
{
    for part in parts {
        if let Own::Typed(number) = own_of(scope, &part.value) {
            return Own::Typed(number);
        }
    }
    last
}

// The one type of all values up to here.
fn elsif_own_of(scope: &Scope, first: Own, parts: &[ElsifValue]) -> Own
    ensures { result ≡ elsif_own_of scope.now first (elsif_value_trees parts.now) }
{
    let mut own = first;
    for part in parts {
        own = join(scope, own, own_of(scope, &part.value));
    }
    own
}

fn parts_own(scope: &Scope, value: &Expr, parts: &[ElsifValue], else_value: &Expr) -> Own
    ensures { result ≡ parts_own scope.now (expr_tree value.now) (elsif_value_trees parts.now) (expr_tree else_value.now) }
{
    let own = elsif_own_of(scope, own_of(scope, value), parts);
    join(scope, own, own_of(scope, else_value))
}

fn parts_wanted(own: Own, wanted: Wanted, first: Own) -> Wanted
    ensures { result ≡ parts_wanted own wanted first }
{
    match own {
        Own::Unknown => match wanted {
            Wanted::OfType(number) => Wanted::OfType(number),
            _ => typed_wanted(first),
        },
        _ => Wanted::Anything,
    }
}

/// What is expected of the values of an if expression.
pub(crate) fn conditional_wanted(
    scope: &Scope,
    wanted: Wanted,
    value: &Expr,
    parts: &[ElsifValue],
    else_value: &Expr,
) -> Wanted
    ensures { result ≡ conditional_wanted scope.now wanted (expr_tree value.now) (elsif_value_trees parts.now) (expr_tree else_value.now) }
{
    let first = or_first(
        own_of(scope, value),
        first_typed(scope, parts, own_of(scope, else_value)),
    );
    parts_wanted(parts_own(scope, value, parts, else_value), wanted, first)
}

/// What is expected of an argument.
pub(crate) fn slot_wanted(slot: Slot) -> Wanted
    ensures { result ≡ slot_wanted slot }
{
    match slot {
        Slot::Expects(wanted) => wanted,
        Slot::Takes(number) => Wanted::OfType(number),
        Slot::TakesLabel => Wanted::Anything,
    }
}
