//! Simple statements (RM 5.1).
ghost use Rattle.std.specs.Prelude.{◌≡◌, ◌++◌, codes, option_map};
ghost use Rattle.ada_tree.specs.ExpressionTree.{expr_tree, name_tree};
ghost use Rattle.ada_tree.specs.StatementTree.{optional_tree, stmt_tree};
ghost use Rattle.types.specs.Entities.{entity_value};
ghost use Rattle.types.specs.Scopes.{number_of};
ghost use Rattle.expr_rules.specs.Findings.{noted};
ghost use Rattle.stmt_rules.specs.SimpleRules.{assigned_wanted, assignment_faults, condition_faults, delay_faults, delay_until_faults, exit_rule, has_plain_return, is_function, optional_condition_faults, raise_faults, raised_rule, result_wanted, return_faults, simple_faults, time_at, time_rule, time_wanted};

use crate::around::{Around, BodyKind};
use ada_tree::laws::statements_by_parts;
use ada_tree::{Expr, Identifier, NameExpr, Stmt};
use base::faults::{MISPLACED_STATEMENT, NAME_NOT_VISIBLE, NO_MEANING};
use expr_rules::laws::noted_by_parts;
use expr_rules::{
    Findings, Own, Wanted, call_faults, expression_faults, is_time, own_of, own_of_standing,
    target_faults, typed_wanted,
};
use lexer::Text;
use type_rules::named_entity;
use types::{Entity, Scope, Subtype, start_of};

pub(crate) fn condition_faults(scope: &Scope, e: &Expr, found: &mut Findings)
    ensures { found.new ≡ noted found.old (condition_faults scope.now (expr_tree e.now)) }
{
    expression_faults(scope, Wanted::BOOLEAN, e, found);
}

fn optional_condition_faults(scope: &Scope, e: &Option<Expr>, found: &mut Findings)
    ensures { found.new ≡ noted found.old (optional_condition_faults scope.now (optional_tree expr_tree e.now)) }
{
    match e {
        Some(e) => condition_faults(scope, e, found),
        None => {}
    }
}

fn exit_faults(
    scope: &Scope,
    around: Around,
    place: u32,
    condition: &Option<Expr>,
    found: &mut Findings,
)
    ensures { found.new ≡ noted found.old (exit_rule around place ++ optional_condition_faults scope.now (optional_tree expr_tree condition.now)) }
{
    noted_by_parts();
    found.note_rule(MISPLACED_STATEMENT, place, !around.in_loop);
    optional_condition_faults(scope, condition, found);
}

fn assigned_wanted(scope: &Scope, target: &NameExpr) -> Wanted
    ensures { result ≡ assigned_wanted scope.now (name_tree target.now) }
{
    typed_wanted(own_of_standing(scope.standing(target)))
}

fn assignment_faults(scope: &Scope, target: &NameExpr, value: &Expr, found: &mut Findings)
    ensures { found.new ≡ noted found.old (assignment_faults scope.now (name_tree target.now) (expr_tree value.now)) }
{
    noted_by_parts();
    target_faults(scope, target, found);
    expression_faults(scope, assigned_wanted(scope, target), value, found);
}

fn has_plain_return(kind: BodyKind) -> bool
    ensures { result ≡ has_plain_return kind }
{
    match kind {
        BodyKind::Procedure => true,
        BodyKind::Entry => true,
        _ => false,
    }
}

fn is_function(kind: BodyKind) -> bool
    ensures { result ≡ is_function kind }
{
    match kind {
        BodyKind::Function(_) => true,
        _ => false,
    }
}

fn result_wanted(kind: BodyKind) -> Wanted
    ensures { result ≡ result_wanted kind }
{
    match kind {
        BodyKind::Function(Some(number)) => Wanted::OfType(number),
        _ => Wanted::Anything,
    }
}

fn return_faults(
    scope: &Scope,
    around: Around,
    place: u32,
    value: &Option<Expr>,
    found: &mut Findings,
)
    ensures { found.new ≡ noted found.old (return_faults scope.now around place (optional_tree expr_tree value.now)) }
{
    noted_by_parts();
    match value {
        None => {
            found.note_rule(MISPLACED_STATEMENT, place, !has_plain_return(around.kind));
        }
        Some(e) => {
            found.note_rule(MISPLACED_STATEMENT, place, !is_function(around.kind));
            expression_faults(scope, result_wanted(around.kind), e, found);
        }
    }
}

fn raised_rule(place: u32, entity: Option<&Entity>, found: &mut Findings)
    ensures { found.new ≡ noted found.old (raised_rule place (option_map (λ e. entity_value e.now) entity.entry)) }
{
    match entity {
        None => found.note_rule(NAME_NOT_VISIBLE, place, true),
        Some(Entity::Exception) => {}
        Some(Entity::Doubtful) => {}
        Some(_) => found.note_rule(NO_MEANING, place, true),
    }
}

fn raise_faults(
    scope: &Scope,
    around: Around,
    place: u32,
    name: &Option<Identifier>,
    found: &mut Findings,
)
    ensures { found.new ≡ noted found.old (raise_faults scope.now around place name.now) }
{
    match name {
        Some(name) => raised_rule(name.place, named_entity(scope, name), found),
        None => found.note_rule(MISPLACED_STATEMENT, place, !around.in_handler),
    }
}

fn time_at(scope: &Scope, number: Option<usize>) -> Wanted
    ensures { result ≡ time_at scope.now number }
{
    match number {
        Some(number) => {
            if is_time(scope, Own::Typed(number)) {
                Wanted::OfType(number)
            } else {
                Wanted::Anything
            }
        }
        None => Wanted::Anything,
    }
}

fn time_number(scope: &Scope) -> Option<usize>
    ensures { result ≡ number_of scope.now (codes "TIME") }
{
    match Text::new(b"TIME") {
        Some(name) => scope.number_of(&name),
        None => unreachable!(),
    }
}

fn time_rule(scope: &Scope, own: Own, place: u32, found: &mut Findings)
    ensures { found.new ≡ noted found.old (time_rule scope.now own place) }
{
    match own {
        Own::Unknown => {}
        own => found.note_rule(NO_MEANING, place, !is_time(scope, own)),
    }
}

fn delay_until_faults(scope: &Scope, e: &Expr, found: &mut Findings)
    ensures { found.new ≡ noted found.old (delay_until_faults scope.now (expr_tree e.now)) }
{
    noted_by_parts();
    let wanted = time_at(scope, time_number(scope));
    expression_faults(scope, wanted, e, found);
    time_rule(scope, own_of(scope, e), start_of(e), found);
}

fn delay_faults(scope: &Scope, e: &Expr, found: &mut Findings)
    ensures { found.new ≡ noted found.old (delay_faults scope.now (expr_tree e.now)) }
{
    let wanted = Wanted::OfType(Subtype::INTEGER.type_number);
    expression_faults(scope, wanted, e, found);
}

/// The broken rules of a simple statement.
pub(crate) fn simple_faults(scope: &Scope, around: Around, statement: &Stmt, found: &mut Findings)
    ensures { found.new ≡ noted found.old (simple_faults scope.now around (stmt_tree statement.now)) }
{
    statements_by_parts();
    match statement {
        Stmt::Assignment(target, value) => assignment_faults(scope, target, value, found),
        Stmt::Call(name) => call_faults(scope, name, found),
        Stmt::Exit(place, condition) => exit_faults(scope, around, *place, condition, found),
        Stmt::Return(place, value) => return_faults(scope, around, *place, value, found),
        Stmt::Raise(place, name) => raise_faults(scope, around, *place, name, found),
        Stmt::Delay(_, e) => delay_faults(scope, e, found),
        Stmt::DelayUntil(_, e) => delay_until_faults(scope, e, found),
        _ => {}
    }
}
