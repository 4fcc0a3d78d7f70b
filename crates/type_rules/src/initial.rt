//! Initial values that must be static (RM 3.3.1, 4.9, D.8).
ghost use Rattle.std.specs.Prelude.{◌≡◌, ◌++◌, [], option_map};
ghost use Rattle.ada_tree.specs.ExpressionTree.{argument_trees, expr_tree, selector_trees};
ghost use Rattle.types.specs.Entities.{entity_value};
ghost use Rattle.types.specs.Statics.{static_form, static_value, start_of};
ghost use Rattle.expr_rules.specs.Faults.{least};
ghost use Rattle.expr_rules.specs.Findings.{noted};
ghost use Rattle.expr_rules.specs.StaticRules.{form_rule, value_rule};
ghost use Rattle.type_rules.specs.ObjectRules.{computed_faults, counted, fixed_faults, fixed_scalar, fixed_value, is_clock, is_clock_entity, scalar_of, single_argument, single_expression, span_by, span_call, span_faults, span_rule, span_value};

use crate::names::{named_entity, wanted_by};
use ada_tree::laws::{arguments_by_parts, chains_by_parts, names_by_parts};
use ada_tree::{Argument, Expr, Selector};
use base::Checked;
use base::arithmetic::multiply;
use base::faults::{NOT_STATIC, WRONG_STATIC_VALUE};
use expr_rules::laws::{found_is_all, least_is_least, noted_by_parts};
use expr_rules::{
    Findings, Wanted, expression_fault, expression_faults, static_faults, static_scalar,
};
use lexer::Fault;
use types::{
    Entity, PredefinedOperation, Scope, StaticForm, Subtype, Value, start_of, static_value,
};

fn is_clock_entity(entity: Option<&Entity>) -> bool
    ensures { result ≡ is_clock_entity (option_map (λ e. entity_value e.now) entity.entry) }
{
    match entity {
        Some(Entity::Predefined(PredefinedOperation::Clock, _)) => true,
        _ => false,
    }
}

fn is_clock(scope: &Scope, e: &Expr) -> bool
    ensures { result ≡ is_clock scope.now (expr_tree e.now) }
{
    match e.bare_name() {
        Some(name) => is_clock_entity(named_entity(scope, name)),
        None => false,
    }
}

fn single_expression(arguments: &[Argument]) -> Option<&Expr>
    ensures { option_map (λ e. expr_tree e.now) result ≡ single_expression (argument_trees arguments.now) }
{
    match arguments {
        [] => None,
        [Argument::Expr(e, ..)] => Some(e),
        [Argument::Label(..)] => None,
        [_, _, ..] => None,
    }
}

fn single_argument(selectors: &[Selector]) -> Option<&Expr>
    ensures { option_map (λ e. expr_tree e.now) result ≡ single_argument (selector_trees selectors.now) }
{
    arguments_by_parts();
    match selectors {
        [] => None,
        [Selector::Arguments(arguments, ..)] => single_expression(arguments),
        [Selector::Component(..)] => None,
        [Selector::Attribute(..)] => None,
        [_, _, ..] => None,
    }
}

fn span_by<'a>(
    entity: Option<&Entity>,
    argument: Option<&'a Expr>,
) -> Option<(PredefinedOperation, &'a Expr)>
    ensures { option_map (λ x. (x.0, expr_tree x.1.now)) result ≡ span_by (option_map (λ e. entity_value e.now) entity.entry)
        (option_map (λ e. expr_tree e.now) argument.entry) }
{
    match (entity, argument) {
        (Some(Entity::Predefined(PredefinedOperation::Milliseconds, _)), Some(e)) => {
            Some((PredefinedOperation::Milliseconds, e))
        }
        (Some(Entity::Predefined(PredefinedOperation::Microseconds, _)), Some(e)) => {
            Some((PredefinedOperation::Microseconds, e))
        }
        _ => None,
    }
}

// The operation that makes a span of time, and its argument.
fn span_call<'a>(scope: &Scope, e: &'a Expr) -> Option<(PredefinedOperation, &'a Expr)>
    ensures { option_map (λ x. (x.0, expr_tree x.1.now)) result ≡ span_call scope.now (expr_tree e.now) }
{
    names_by_parts();
    chains_by_parts();
    match e {
        Expr::Name(name) => span_by(
            named_entity(scope, &name.first),
            single_argument(&name.selectors),
        ),
        Expr::Chain(..) => None,
        _ => None,
    }
}

// The span of a static argument in microseconds, where nothing is broken in that.
fn span_value(scope: &Scope, operation: PredefinedOperation, argument: &Expr) -> Option<Checked>
    ensures { counted result ≡ span_value scope.now operation (expr_tree argument.now) }
{
    let wanted = Wanted::OfType(Subtype::INTEGER.type_number);
    match static_scalar(scope, wanted, None, argument) {
        Some(Value::Number(z)) => Some(match operation {
            PredefinedOperation::Milliseconds => multiply(1000, z),
            _ => Ok(z),
        }),
        _ => None,
    }
}

fn span_rule(place: u32, span: Option<Checked>, found: &mut Findings)
    ensures { found.new ≡ noted found.old (span_rule place (counted span)) }
{
    match span {
        Some(Err(_)) => found.note_rule(WRONG_STATIC_VALUE, place, true),
        _ => {}
    }
}

fn raised_rule(scope: &Scope, place: u32, argument: &Expr, found: &mut Findings)
    ensures { found.new ≡ noted found.old (value_rule place None (static_form scope.now (expr_tree argument.now))
        (static_value scope.now (expr_tree argument.now))) }
{
    match static_value(scope, argument) {
        Ok(_) => {}
        Err(fault) => found.note_rule(
            WRONG_STATIC_VALUE,
            place,
            fault.number == WRONG_STATIC_VALUE,
        ),
    }
}

// What is broken only where the call is legal: the argument raises, or the span overflows.
fn computed_faults(
    scope: &Scope,
    place: u32,
    operation: PredefinedOperation,
    argument: &Expr,
    found: &mut Findings,
)
    ensures { found.new ≡ noted found.old (computed_faults scope.now place operation (expr_tree argument.now)) }
{
    noted_by_parts();
    raised_rule(scope, place, argument, found);
    span_rule(place, span_value(scope, operation, argument), found);
}

fn form_rule(place: u32, form: StaticForm, found: &mut Findings)
    ensures { found.new ≡ noted found.old (form_rule place form) }
{
    match form {
        StaticForm::NotStatic => found.note_rule(NOT_STATIC, place, true),
        _ => {}
    }
}

fn span_faults(
    scope: &Scope,
    subtype: Option<Subtype>,
    e: &Expr,
    operation: PredefinedOperation,
    argument: &Expr,
    found: &mut Findings,
)
    ensures { found.new ≡ noted found.old (span_faults scope.now subtype (expr_tree e.now) operation (expr_tree argument.now)) }
{
    least_is_least();
    let place = start_of(e);
    let form = scope.static_form(argument);
    let wanted = wanted_by(subtype);
    match expression_fault(scope, wanted, e) {
        None => {
            form_rule(place, form, found);
            computed_faults(scope, place, operation, argument, found);
        }
        Some(_) => {
            expression_faults(scope, wanted, e, found);
            form_rule(place, form, found);
        }
    }
}

/// The broken rules of an initial value that must be static: of an object of the package or of a task body, or of a component of a protected object.
pub fn fixed_faults(scope: &Scope, subtype: Option<Subtype>, e: &Expr, found: &mut Findings)
    ensures { found.new ≡ noted found.old (fixed_faults scope.now subtype (expr_tree e.now)) }
{
    if is_clock(scope, e) {
        expression_faults(scope, wanted_by(subtype), e, found);
    } else {
        match span_call(scope, e) {
            Some((operation, argument)) => {
                span_faults(scope, subtype, e, operation, argument, found);
            }
            None => static_faults(scope, wanted_by(subtype), subtype, e, found),
        }
    }
}

// The least fault of an initial value that must be static.
fn fixed_fault(scope: &Scope, subtype: Option<Subtype>, e: &Expr) -> Option<Fault>
    ensures { result ≡ least (fixed_faults scope.now subtype (expr_tree e.now)) }
{
    found_is_all();
    let mut found = Findings::new();
    fixed_faults(scope, subtype, e, &mut found);
    found.least()
}

fn number_of(span: Option<Checked>) -> Option<Value>
    ensures { result ≡ scalar_of (counted span) }
{
    match span {
        Some(Ok(z)) => Some(Value::Number(z)),
        _ => None,
    }
}

#[tactic(auto, using(crate::proofs::Calls::known_back))]
fn fixed_value(scope: &Scope, subtype: Option<Subtype>, e: &Expr) -> Option<Value>
    ensures { result ≡ fixed_value scope.now subtype (expr_tree e.now) }
{
    if is_clock(scope, e) {
        Some(Value::Number(0))
    } else {
        match span_call(scope, e) {
            Some((operation, argument)) => number_of(span_value(scope, operation, argument)),
            None => static_scalar(scope, wanted_by(subtype), subtype, e),
        }
    }
}

/// The value of such an initial value, where nothing is broken in it and the value is known. The time at the start is 0.
pub fn fixed_scalar(scope: &Scope, subtype: Option<Subtype>, e: &Expr) -> Option<Value>
    ensures { result ≡ fixed_scalar scope.now subtype (expr_tree e.now) }
{
    least_is_least();
    match fixed_fault(scope, subtype, e) {
        None => fixed_value(scope, subtype, e),
        Some(_) => None,
    }
}
