//! The types that expressions have by themselves, and those that are expected of them (RM 4).
ghost use Rattle.std.specs.Prelude.{◌≡◌, ◌+◌, ◌<◌, length, option_map, true};
ghost use Rattle.ada_tree.specs.ExpressionTree.{expr_tree, elsif_value_trees};
ghost use Rattle.types.specs.Entities.{form_value};
ghost use Rattle.types.specs.Scopes.{form_at};
ghost use Rattle.expr_rules.specs.Judging.{own_after};
ghost use Rattle.expr_rules.specs.ExpressionRules.{parts_own};
ghost use Rattle.expr_rules.specs.Typing.{arithmetic_own, binary_own, elsif_own_of, has_binary, has_unary, integral_or_unknown, is_boolean, is_booleans, is_integers, is_integral, is_known, is_logical, is_relation, is_scalar, is_span, is_spans, is_time, is_times, is_wanted, join, own_of, own_of_standing, time_own, typed_wanted, unary_own};

use ada_tree::laws::{chains_by_parts, conditional_by_parts, names_by_parts};
use ada_tree::{BinaryOperator, ElsifValue, Expr, Operand, UnaryOperator};
use types::{Scope, Standing, Subtype, TypeForm};

/// The type that an expression has by itself.
#[derive(Clone, Copy, Debug, PartialEq, Eq)]
pub enum Own {
    /// Not known, since it would depend on a part that breaks a rule.
    Unknown,
    /// None: of a literal, or of operators over literals. It takes each integer type that is expected.
    Universal,
    /// The type with this number.
    Typed(usize),
}

/// What an expression is expected to be.
#[derive(Clone, Copy, Debug, PartialEq, Eq)]
pub enum Wanted {
    Anything,
    /// Of some integer type.
    AnyInteger,
    /// Of the type with this number.
    OfType(usize),
}

impl Wanted {
    /// Of the type Boolean.
    pub const BOOLEAN: Wanted = Wanted::OfType(Subtype::BOOLEAN.type_number);
}

/// The type of what a name denotes.
pub fn own_of_standing(standing: Standing) -> Own
    ensures { result ≡ own_of_standing standing }
{
    match standing {
        Standing::Part(_, subtype) => Own::Typed(subtype.type_number),
        Standing::Fixed(subtype, _) => Own::Typed(subtype.type_number),
        Standing::Given(subtype, _) => Own::Typed(subtype.type_number),
        Standing::Plain(_) => Own::Universal,
        _ => Own::Unknown,
    }
}

/// The expectation that a type is.
pub fn typed_wanted(own: Own) -> Wanted
    ensures { result ≡ typed_wanted own }
{
    match own {
        Own::Typed(number) => Wanted::OfType(number),
        _ => Wanted::Anything,
    }
}

pub(crate) fn is_known(own: Own) -> bool
    ensures { result ≡ is_known own }
{
    match own {
        Own::Unknown => false,
        _ => true,
    }
}

pub(crate) fn is_integers(form: Option<&TypeForm>) -> bool
    ensures { result ≡ is_integers (option_map (λ f. form_value f.now) form.entry) }
{
    match form {
        Some(TypeForm::Integer) => true,
        _ => false,
    }
}

fn is_booleans(form: Option<&TypeForm>) -> bool
    ensures { result ≡ is_booleans (option_map (λ f. form_value f.now) form.entry) }
{
    match form {
        Some(TypeForm::Boolean) => true,
        _ => false,
    }
}

fn is_times(form: Option<&TypeForm>) -> bool
    ensures { result ≡ is_times (option_map (λ f. form_value f.now) form.entry) }
{
    match form {
        Some(TypeForm::Time) => true,
        _ => false,
    }
}

fn is_spans(form: Option<&TypeForm>) -> bool
    ensures { result ≡ is_spans (option_map (λ f. form_value f.now) form.entry) }
{
    match form {
        Some(TypeForm::TimeSpan) => true,
        _ => false,
    }
}

/// Whether it is an integer type, or none, as that of a literal.
pub fn is_integral(scope: &Scope, own: Own) -> bool
    ensures { result ≡ is_integral scope.now own }
{
    match own {
        Own::Unknown => false,
        Own::Universal => true,
        Own::Typed(number) => is_integers(scope.form(number)),
    }
}

/// Whether it is Boolean.
pub fn is_boolean(scope: &Scope, own: Own) -> bool
    ensures { result ≡ is_boolean scope.now own }
{
    match own {
        Own::Typed(number) => is_booleans(scope.form(number)),
        _ => false,
    }
}

/// Whether it is Time (RM D.8).
pub fn is_time(scope: &Scope, own: Own) -> bool
    ensures { result ≡ is_time scope.now own }
{
    match own {
        Own::Typed(number) => is_times(scope.form(number)),
        _ => false,
    }
}

/// Whether it is Time_Span (RM D.8).
pub fn is_span(scope: &Scope, own: Own) -> bool
    ensures { result ≡ is_span scope.now own }
{
    match own {
        Own::Typed(number) => is_spans(scope.form(number)),
        _ => false,
    }
}

/// Whether it is a scalar type, or none, as that of a literal.
pub fn is_scalar(scope: &Scope, own: Own) -> bool
    ensures { result ≡ is_scalar scope.now own }
{
    is_integral(scope, own) || is_boolean(scope, own) || is_time(scope, own) || is_span(scope, own)
}

// The one type of two parts.
fn join(scope: &Scope, a: Own, b: Own) -> Own
    ensures { result ≡ join scope.now a b }
{
    match (a, b) {
        (Own::Universal, Own::Universal) => Own::Universal,
        (Own::Universal, Own::Typed(n)) | (Own::Typed(n), Own::Universal) => {
            if is_integers(scope.form(n)) {
                Own::Typed(n)
            } else {
                Own::Unknown
            }
        }
        (Own::Typed(n), Own::Typed(m)) => { if n == m { Own::Typed(n) } else { Own::Unknown } }
        _ => Own::Unknown,
    }
}

pub(crate) fn is_logical(operator: BinaryOperator) -> bool
    ensures { result ≡ is_logical operator }
{
    match operator {
        BinaryOperator::And
        | BinaryOperator::Or
        | BinaryOperator::Xor
        | BinaryOperator::AndThen
        | BinaryOperator::OrElse => true,
        _ => false,
    }
}

pub(crate) fn is_relation(operator: BinaryOperator) -> bool
    ensures { result ≡ is_relation operator }
{
    match operator {
        BinaryOperator::Equal
        | BinaryOperator::NotEqual
        | BinaryOperator::Less
        | BinaryOperator::LessOrEqual
        | BinaryOperator::Greater
        | BinaryOperator::GreaterOrEqual => true,
        _ => false,
    }
}

fn integral_or_unknown(scope: &Scope, own: Own) -> Own
    ensures { result ≡ integral_or_unknown scope.now own }
{
    if is_integral(scope, own) {
        own
    } else {
        Own::Unknown
    }
}

// The number of Time_Span, which is declared behind Time.
#[tactic(auto, using(crate::proofs::Times::time_within))]
fn span_behind(scope: &Scope, time: usize) -> usize
    requires { is_times (form_at scope.now time) ≡ true }
    ensures { result ≡ time + 1 }
{
    let names = scope.len();
    prove!(time < names);
    time + 1
}

// What an operator makes of a Time and this.
fn time_own(scope: &Scope, operator: BinaryOperator, time: usize, right: Own) -> Own
    requires { is_times (form_at scope.now time) ≡ true }
    ensures { result ≡ time_own scope.now operator (Own.Typed time) right }
{
    match operator {
        BinaryOperator::Add => {
            if is_span(scope, right) {
                Own::Typed(time)
            } else {
                Own::Unknown
            }
        }
        BinaryOperator::Subtract => {
            if is_time(scope, right) {
                Own::Typed(span_behind(scope, time))
            } else {
                Own::Unknown
            }
        }
        _ => Own::Unknown,
    }
}

fn arithmetic_own(scope: &Scope, operator: BinaryOperator, a: Own, b: Own) -> Own
    ensures { result ≡ arithmetic_own scope.now operator a b }
{
    match a {
        Own::Typed(number) => {
            if is_times(scope.form(number)) {
                time_own(scope, operator, number, b)
            } else {
                integral_or_unknown(scope, join(scope, a, b))
            }
        }
        _ => integral_or_unknown(scope, join(scope, a, b)),
    }
}

pub(crate) fn unary_own(scope: &Scope, operator: UnaryOperator, own: Own) -> Own
    ensures { result ≡ unary_own scope.now operator own }
{
    match operator {
        UnaryOperator::Not => Own::Typed(Subtype::BOOLEAN.type_number),
        _ => integral_or_unknown(scope, own),
    }
}

pub(crate) fn binary_own(scope: &Scope, operator: BinaryOperator, a: Own, b: Own) -> Own
    ensures { result ≡ binary_own scope.now operator a b }
{
    if is_logical(operator) || is_relation(operator) {
        Own::Typed(Subtype::BOOLEAN.type_number)
    } else {
        arithmetic_own(scope, operator, a, b)
    }
}

pub(crate) fn has_unary(scope: &Scope, operator: UnaryOperator, own: Own) -> bool
    ensures { result ≡ has_unary scope.now operator own }
{
    match operator {
        UnaryOperator::Not => is_boolean(scope, own),
        _ => is_integral(scope, own),
    }
}

pub(crate) fn has_binary(scope: &Scope, operator: BinaryOperator, a: Own, b: Own) -> bool
    ensures { result ≡ has_binary scope.now operator a b }
{
    if is_logical(operator) {
        is_boolean(scope, join(scope, a, b))
    } else if is_relation(operator) {
        is_scalar(scope, join(scope, a, b))
    } else {
        is_known(arithmetic_own(scope, operator, a, b))
    }
}

pub(crate) fn is_wanted(scope: &Scope, wanted: Wanted, own: Own) -> bool
    ensures { result ≡ is_wanted scope.now wanted own }
{
    match wanted {
        Wanted::Anything => true,
        Wanted::AnyInteger => is_integral(scope, own),
        Wanted::OfType(number) => match own {
            Own::Unknown => true,
            Own::Universal => is_integers(scope.form(number)),
            Own::Typed(own) => number == own,
        },
    }
}

#[cycle(own)]
fn elsif_own_of(scope: &Scope, first: Own, parts: &[ElsifValue]) -> Own
    ensures { result ≡ elsif_own_of scope.now first (elsif_value_trees parts.now) }
{
    let mut own = first;
    for part in parts {
        own = join(scope, own, own_of(scope, &part.value));
    }
    own
}

// The type of a chain of operators, of which this much has the first type.
#[cycle(own)]
fn own_after(scope: &Scope, first: Own, operands: &[Operand]) -> Own
    ensures { result ≡ own_after scope.now first operands.now }
{
    let mut own = first;
    for operand in operands {
        own = binary_own(scope, operand.operator, own, own_of(scope, &operand.value));
    }
    own
}

/// The type that the expression has by itself.
#[cycle(own)]
pub fn own_of(scope: &Scope, e: &Expr) -> Own
    ensures { result ≡ own_of scope.now (expr_tree e.now) }
{
    names_by_parts();
    conditional_by_parts();
    chains_by_parts();
    match e {
        Expr::Number(..) => Own::Universal,
        Expr::Name(name) => own_of_standing(scope.standing(name)),
        Expr::Parenthesized(_, inner) => own_of(scope, inner),
        Expr::Unary(operator, _, operand) => unary_own(scope, *operator, own_of(scope, operand)),
        Expr::Chain(first, second, more) => {
            let left = own_of(scope, first);
            let right = own_of(scope, &second.value);
            own_after(scope, binary_own(scope, second.operator, left, right), more)
        }
        Expr::Conditional(_, _, value, parts, else_value) => {
            let first = own_of(scope, value);
            let own = elsif_own_of(scope, first, parts);
            join(scope, own, own_of(scope, else_value))
        }
    }
}

// The one type of all parts of an if expression.
pub(crate) fn parts_own(scope: &Scope, value: &Expr, parts: &[ElsifValue], else_value: &Expr) -> Own
    ensures { result ≡ parts_own scope.now (expr_tree value.now) (elsif_value_trees parts.now) (expr_tree else_value.now) }
{
    let own = elsif_own_of(scope, own_of(scope, value), parts);
    join(scope, own, own_of(scope, else_value))
}
