//! Expressions that must be static (RM 3.3.1, 3.5, 4.9, D.8): what keeps them from being so, and what is wrong with their values.
ghost use Rattle.std.specs.Prelude.{◌≡◌, ◌++◌, option_map};
ghost use Rattle.ada_tree.specs.ExpressionTree.{argument_trees, expr_tree, selector_trees};
ghost use Rattle.ada_tree.specs.StatementTree.{optional_tree, range_tree};
ghost use Rattle.types.specs.Entities.{entity_value};
ghost use Rattle.types.specs.Statics.{name_form, start_of, static_form, static_value};
ghost use Rattle.types.specs.Values.{value_of};
ghost use Rattle.expr_rules.specs.ExpressionRules.{faults_of};
ghost use Rattle.type_rules.specs.ObjectRules.{is_clock, is_clock_entity, single_argument, single_expression, span_by, span_call};
ghost use Rattle.type_rules.specs.TypeRules.{static_whole, whole_of};
ghost use Rattle.mismatches.specs.Chaining.{operands_obstacle};
ghost use Rattle.mismatches.specs.Conflicts.{noted};
ghost use Rattle.mismatches.specs.StaticMismatches.{bounds_mismatches, fixed_initial_mismatches, fixed_mismatches, form_obstacle, null_conflicts, number_conflicts, obstacle_conflicts, obstacle_in, or_obstacle, static_mismatches, value_conflicts, where_unbroken};

use crate::conflict::{Conflict, Obstacle, Search, noted_by_parts};
use crate::expressions::mismatches_of;
use ada_tree::laws::{arguments_by_parts, chains_by_parts, names_by_parts};
use ada_tree::{Argument, Expr, Operand, Range, Selector};
use base::faults::WRONG_STATIC_VALUE;
use expr_rules::laws::least_is_least;
use expr_rules::{Wanted, expression_fault, static_scalar};
use type_rules::{named_entity, wanted_by};
use types::{Entity, PredefinedOperation, Scope, Standing, Subtype, Value, start_of, static_value};

fn name_obstacle(standing: Standing, place: u32) -> Option<Obstacle>
    ensures { result ≡ form_obstacle (name_form standing) (Obstacle.Name place) }
{
    match standing {
        Standing::Fixed(_, Some(_))
        | Standing::Given(_, Some(_))
        | Standing::Plain(_)
        | Standing::Doubtful => None,
        _ => Some(Obstacle::Name(place)),
    }
}

fn or_obstacle(first: Option<Obstacle>, other: Option<Obstacle>) -> Option<Obstacle>
    ensures { result ≡ or_obstacle first other }
{
    match first {
        Some(obstacle) => Some(obstacle),
        None => other,
    }
}

#[cycle(obstacle)]
fn obstacle_in(scope: &Scope, e: &Expr) -> Option<Obstacle>
    ensures { result ≡ obstacle_in scope.now (expr_tree e.now) }
{
    names_by_parts();
    chains_by_parts();
    match e {
        Expr::Number(..) => None,
        Expr::Name(name) => name_obstacle(scope.standing(name), name.first.place),
        Expr::Parenthesized(_, inner) => obstacle_in(scope, inner),
        Expr::Unary(_, _, operand) => obstacle_in(scope, operand),
        Expr::Chain(first, second, more) => {
            let left = obstacle_in(scope, first);
            let right = obstacle_in(scope, &second.value);
            operands_obstacle(scope, or_obstacle(left, right), more)
        }
        Expr::Conditional(place, ..) => Some(Obstacle::IfExpression(*place)),
    }
}

// The first obstacle in a chain of operators, of which this is the one before these operands.
#[cycle(obstacle)]
fn operands_obstacle(
    scope: &Scope,
    first: Option<Obstacle>,
    operands: &[Operand],
) -> Option<Obstacle>
    ensures { result ≡ operands_obstacle scope.now first operands.now }
{
    let mut obstacle = first;
    for operand in operands {
        obstacle = or_obstacle(obstacle, obstacle_in(scope, &operand.value));
    }
    obstacle
}

fn note_obstacle(place: u32, obstacle: Option<Obstacle>, search: &mut Search)
    ensures { search.new ≡ noted search.old (obstacle_conflicts place obstacle) }
{
    match obstacle {
        Some(obstacle) => search.note(place, Conflict::NotStatic(obstacle), true),
        None => {}
    }
}

fn note_number(place: u32, within: Option<Subtype>, number: i64, search: &mut Search)
    ensures { search.new ≡ noted search.old (number_conflicts place within number) }
{
    match within {
        Some(subtype) => {
            let conflict = Conflict::Outside(number, subtype.first, subtype.last);
            let is_within = subtype.first <= number && number <= subtype.last;
            search.note(place, conflict, !is_within);
        }
        None => {}
    }
}

fn note_value(scope: &Scope, within: Option<Subtype>, e: &Expr, search: &mut Search)
    ensures { search.new ≡ noted search.old (value_conflicts (start_of (expr_tree e.now)) within (static_form scope.now (expr_tree e.now))
        (static_value scope.now (expr_tree e.now))) }
{
    match static_value(scope, e) {
        Ok(Value::Number(number)) => note_number(start_of(e), within, number, search),
        Ok(Value::Truth(_)) => {}
        Err(fault) => search.note(
            start_of(e),
            Conflict::Raises,
            fault.number == WRONG_STATIC_VALUE,
        ),
    }
}

fn note_unbroken_value(
    scope: &Scope,
    wanted: Wanted,
    within: Option<Subtype>,
    e: &Expr,
    search: &mut Search,
)
    ensures { search.new ≡ noted search.old (where_unbroken (faults_of scope.now wanted (expr_tree e.now)) (value_conflicts (start_of (expr_tree e.now))
        within (static_form scope.now (expr_tree e.now)) (static_value scope.now (expr_tree e.now)))) }
{
    least_is_least();
    match expression_fault(scope, wanted, e) {
        None => note_value(scope, within, e, search),
        Some(_) => {}
    }
}

/// An expression that must be static, of which this is expected, and whose value must lie in the subtype, if there is one.
pub(crate) fn static_mismatches(
    scope: &Scope,
    wanted: Wanted,
    within: Option<Subtype>,
    e: &Expr,
    search: &mut Search,
)
    ensures { search.new ≡ noted search.old (static_mismatches scope.now wanted within (expr_tree e.now)) }
{
    noted_by_parts();
    mismatches_of(scope, wanted, e, search);
    note_obstacle(start_of(e), obstacle_in(scope, e), search);
    note_unbroken_value(scope, wanted, within, e, search);
}

fn whole_of(value: Option<Value>) -> Option<i64>
    ensures { result ≡ whole_of (option_map (λ v. value_of v) value) }
{
    match value {
        Some(Value::Number(number)) => Some(number),
        _ => None,
    }
}

// The value of a static bound, where nothing is broken in it.
fn static_whole(scope: &Scope, wanted: Wanted, within: Option<Subtype>, e: &Expr) -> Option<i64>
    ensures { result ≡ static_whole scope.now wanted within (expr_tree e.now) }
{
    whole_of(static_scalar(scope, wanted, within, e))
}

fn note_null(place: u32, first: Option<i64>, last: Option<i64>, search: &mut Search)
    ensures { search.new ≡ noted search.old (null_conflicts place first last) }
{
    match (first, last) {
        (Some(first), Some(last)) => {
            search.note(place, Conflict::NullRange(first, last), !(first <= last));
        }
        _ => {}
    }
}

/// A range that is declared, whose bounds are of what is expected, and lie in the subtype, if there is one.
pub(crate) fn bounds_mismatches(
    scope: &Scope,
    wanted: Wanted,
    within: Option<Subtype>,
    range: &Range,
    search: &mut Search,
)
    ensures { search.new ≡ noted search.old (bounds_mismatches scope.now wanted within (range_tree range.now)) }
{
    noted_by_parts();
    static_mismatches(scope, wanted, within, &range.first, search);
    static_mismatches(scope, wanted, within, &range.last, search);
    let first = static_whole(scope, wanted, within, &range.first);
    let last = static_whole(scope, wanted, within, &range.last);
    note_null(start_of(&range.first), first, last, search);
}

fn is_clock_entity(entity: Option<&Entity>) -> bool
    ensures { result ≡ is_clock_entity (option_map (λ e. entity_value e.now) entity.entry) }
{
    match entity {
        Some(Entity::Predefined(PredefinedOperation::Clock, _)) => true,
        _ => false,
    }
}

fn is_clock(scope: &Scope, e: &Expr) -> bool
    ensures { result ≡ is_clock scope.now (expr_tree e.now) }
{
    match e.bare_name() {
        Some(name) => is_clock_entity(named_entity(scope, name)),
        None => false,
    }
}

fn single_expression(arguments: &[Argument]) -> Option<&Expr>
    ensures { option_map (λ e. expr_tree e.now) result ≡ single_expression (argument_trees arguments.now) }
{
    match arguments {
        [] => None,
        [Argument::Expr(e, ..)] => Some(e),
        [Argument::Label(..)] => None,
        [_, _, ..] => None,
    }
}

fn single_argument(selectors: &[Selector]) -> Option<&Expr>
    ensures { option_map (λ e. expr_tree e.now) result ≡ single_argument (selector_trees selectors.now) }
{
    arguments_by_parts();
    match selectors {
        [] => None,
        [Selector::Arguments(arguments, ..)] => single_expression(arguments),
        [Selector::Component(..)] => None,
        [Selector::Attribute(..)] => None,
        [_, _, ..] => None,
    }
}

fn span_by<'a>(
    entity: Option<&Entity>,
    argument: Option<&'a Expr>,
) -> Option<(PredefinedOperation, &'a Expr)>
    ensures { option_map (λ x. (x.0, expr_tree x.1.now)) result ≡ span_by (option_map (λ e. entity_value e.now) entity.entry)
        (option_map (λ e. expr_tree e.now) argument.entry) }
{
    match (entity, argument) {
        (Some(Entity::Predefined(PredefinedOperation::Milliseconds, _)), Some(e)) => {
            Some((PredefinedOperation::Milliseconds, e))
        }
        (Some(Entity::Predefined(PredefinedOperation::Microseconds, _)), Some(e)) => {
            Some((PredefinedOperation::Microseconds, e))
        }
        _ => None,
    }
}

// The operation that makes a span of time, and its argument.
fn span_call<'a>(scope: &Scope, e: &'a Expr) -> Option<(PredefinedOperation, &'a Expr)>
    ensures { option_map (λ x. (x.0, expr_tree x.1.now)) result ≡ span_call scope.now (expr_tree e.now) }
{
    names_by_parts();
    chains_by_parts();
    match e {
        Expr::Name(name) => span_by(
            named_entity(scope, &name.first),
            single_argument(&name.selectors),
        ),
        Expr::Chain(..) => None,
        _ => None,
    }
}

// An initial value that must be static.
fn fixed_mismatches(scope: &Scope, subtype: Option<Subtype>, e: &Expr, search: &mut Search)
    ensures { search.new ≡ noted search.old (fixed_mismatches scope.now subtype (expr_tree e.now)) }
{
    noted_by_parts();
    let wanted = wanted_by(subtype);
    if is_clock(scope, e) {
        mismatches_of(scope, wanted, e, search);
    } else {
        match span_call(scope, e) {
            Some((_, argument)) => {
                mismatches_of(scope, wanted, e, search);
                note_obstacle(start_of(e), obstacle_in(scope, argument), search);
            }
            None => static_mismatches(scope, wanted, subtype, e, search),
        }
    }
}

/// The initial value, which must be static, of an object of the package or of a task body, or of a component of a protected object.
pub(crate) fn fixed_initial_mismatches(
    scope: &Scope,
    subtype: Option<Subtype>,
    value: &Option<Expr>,
    search: &mut Search,
)
    ensures { search.new ≡ noted search.old (fixed_initial_mismatches scope.now subtype (optional_tree expr_tree value.now)) }
{
    match value {
        Some(e) => fixed_mismatches(scope, subtype, e, search),
        None => {}
    }
}
