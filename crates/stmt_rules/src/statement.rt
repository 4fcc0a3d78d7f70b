//! Statements and their parts (RM 5, 11.2).
ghost use Rattle.std.specs.Prelude.{◌≡◌, ◌++◌, [], OnOk};
ghost use Rattle.ada_tree.specs.StatementTree.{alternative_tree, alternative_trees, choices_tree, elsif_tree, elsif_trees, handler_tree, handler_trees, iteration_tree, stmt_tree, stmt_trees};
ghost use Rattle.expr_rules.specs.Findings.{noted};
ghost use Rattle.stmt_rules.specs.Choosing.{once_by, seen_after};
ghost use Rattle.stmt_rules.specs.StatementRules.{alternative_faults, alternatives_faults, elsif_faults, elsifs_faults, handler_faults, handlers_faults, iteration_faults, iteration_scope, looped_faults, sequence_faults, stmt_faults, stmts_faults};

use crate::around::Around;
use crate::case::{choices_faults, choices_wanted, others_rule, selecting_faults};
use crate::handlers::handler_choices_faults;
use crate::simple::{condition_faults, simple_faults};
use ada_tree::laws::statements_by_parts;
use ada_tree::{Alternative, ElsifPart, Handler, Iteration, Stmt};
use declaration_rules::laws::names_are_added;
use declaration_rules::{check_locals, declare_loop_parameter, loop_faults};
use expr_rules::laws::noted_by_parts;
use expr_rules::{Findings, Wanted, own_of};
use indexmap::IndexSet;
use std::alloc::{AllocError, Global};
use types::{Scope, SeenNames, Value};

// Checks how often a loop turns, and makes its parameter visible.
fn iterate(scope: &mut Scope, iteration: &Iteration, found: &mut Findings) -> Result<(), AllocError>
    ensures found { OnOk result (found.new ≡ noted found.old (iteration_faults scope.old (iteration_tree iteration.now))) }
    ensures scope { OnOk result (scope.new ≡ iteration_scope scope.old (iteration_tree iteration.now)) }
{
    match iteration {
        Iteration::Forever => Ok(()),
        Iteration::While(condition) => {
            condition_faults(scope, condition, found);
            Ok(())
        }
        Iteration::For(parameter, _, range) => {
            loop_faults(scope, parameter, range, found);
            declare_loop_parameter(scope, parameter, range)
        }
    }
}

#[cycle(statement)]
fn elsif_part(
    alloc: Global,
    scope: &mut Scope,
    around: Around,
    part: &ElsifPart,
    found: &mut Findings,
) -> Result<(), AllocError>
    ensures found { OnOk result (found.new ≡ noted found.old (elsif_faults scope.old around (elsif_tree part.now))) }
    ensures scope { OnOk result (scope.new ≡ scope.old) }
{
    noted_by_parts();
    condition_faults(scope, &part.condition, found);
    statements(alloc, scope, around, &part.statements, found)
}

#[cycle(statement)]
fn elsif_parts(
    alloc: Global,
    scope: &mut Scope,
    around: Around,
    all: &[ElsifPart],
    found: &mut Findings,
) -> Result<(), AllocError>
    ensures found { OnOk result (found.new ≡ noted found.old (elsifs_faults scope.old around (elsif_trees all.now))) }
    ensures scope { OnOk result (scope.new ≡ scope.old) }
{
    noted_by_parts();
    for part in all {
        elsif_part(alloc, scope, around, part, found)?;
    }
    Ok(())
}

// An alternative after those that choose these values, to which its own are added.
#[cycle(statement)]
fn alternative(
    alloc: Global,
    scope: &mut Scope,
    around: Around,
    wanted: Wanted,
    chosen: &mut IndexSet<Value>,
    is_last: bool,
    one: &Alternative,
    found: &mut Findings,
) -> Result<(), AllocError>
    ensures found { OnOk result (found.new ≡ noted found.old (alternative_faults scope.old around wanted chosen.old.keys is_last (alternative_tree one.now))) }
    ensures chosen { OnOk result (chosen.new.keys ≡ once_by scope.old wanted chosen.old.keys (choices_tree one.now.choices)) }
    ensures scope { OnOk result (scope.new ≡ scope.old) }
{
    noted_by_parts();
    choices_faults(scope, wanted, chosen, is_last, &one.choices, found)?;
    statements(alloc, scope, around, &one.statements, found)
}

#[cycle(statement)]
fn alternatives(
    alloc: Global,
    scope: &mut Scope,
    around: Around,
    wanted: Wanted,
    all: &[Alternative],
    found: &mut Findings,
) -> Result<(), AllocError>
    ensures found { OnOk result (found.new ≡ noted found.old (alternatives_faults scope.old around wanted [] (alternative_trees all.now))) }
    ensures scope { OnOk result (scope.new ≡ scope.old) }
{
    let mut chosen = IndexSet::new(alloc);
    for (index, one) in all.iter().enumerate() {
        let is_last = index + 1 == all.len();
        alternative(
            alloc,
            scope,
            around,
            wanted,
            &mut chosen,
            is_last,
            one,
            found,
        )?;
    }
    Ok(())
}

// A handler after those that name these exceptions, to which its own are added.
#[cycle(statement)]
fn handler(
    alloc: Global,
    scope: &mut Scope,
    around: Around,
    named: &mut SeenNames,
    is_last: bool,
    one: &Handler,
    found: &mut Findings,
) -> Result<(), AllocError>
    ensures found { OnOk result (found.new ≡ noted found.old (handler_faults scope.old around named.old is_last (handler_tree one.now))) }
    ensures named { OnOk result (named.new ≡ seen_after named.old one.now.choices.items) }
    ensures scope { OnOk result (scope.new ≡ scope.old) }
{
    noted_by_parts();
    handler_choices_faults(scope, named, is_last, &one.choices, found)?;
    statements(alloc, scope, around.in_handler(), &one.statements, found)
}

#[cycle(statement)]
fn handlers(
    alloc: Global,
    scope: &mut Scope,
    around: Around,
    all: &[Handler],
    found: &mut Findings,
) -> Result<(), AllocError>
    ensures found { OnOk result (found.new ≡ noted found.old (handlers_faults scope.old around (handler_trees all.now))) }
    ensures scope { OnOk result (scope.new ≡ scope.old) }
{
    let mut named = SeenNames::new(alloc);
    for (index, one) in all.iter().enumerate() {
        let is_last = index + 1 == all.len();
        handler(alloc, scope, around, &mut named, is_last, one, found)?;
    }
    Ok(())
}

#[cycle(statement)]
fn looped(
    alloc: Global,
    scope: &mut Scope,
    around: Around,
    iteration: &Iteration,
    body: &[Stmt],
    found: &mut Findings,
) -> Result<(), AllocError>
    ensures found { OnOk result (found.new ≡ noted found.old (looped_faults scope.old around (iteration_tree iteration.now) (stmt_trees body.now))) }
    ensures scope { OnOk result (scope.new ≡ scope.old) }
{
    noted_by_parts();
    names_are_added();
    let len = scope.len();
    iterate(scope, iteration, found)?;
    statements(alloc, scope, around.in_loop(), body, found)?;
    scope.truncate(len);
    Ok(())
}

#[cycle(statement)]
fn statement(
    alloc: Global,
    scope: &mut Scope,
    around: Around,
    one: &Stmt,
    found: &mut Findings,
) -> Result<(), AllocError>
    ensures found { OnOk result (found.new ≡ noted found.old (stmt_faults scope.old around (stmt_tree one.now))) }
    ensures scope { OnOk result (scope.new ≡ scope.old) }
{
    noted_by_parts();
    statements_by_parts();
    names_are_added();
    match one {
        Stmt::If(_, condition, body, elsifs, others) => {
            condition_faults(scope, condition, found);
            statements(alloc, scope, around, body, found)?;
            elsif_parts(alloc, scope, around, elsifs, found)?;
            statements(alloc, scope, around, others, found)
        }
        Stmt::Case(place, value, all) => {
            selecting_faults(scope, value, found);
            let wanted = choices_wanted(scope, own_of(scope, value));
            alternatives(alloc, scope, around, wanted, all, found)?;
            others_rule(*place, all, found);
            Ok(())
        }
        Stmt::Loop(_, iteration, body) => looped(alloc, scope, around, iteration, body, found),
        Stmt::Block(_, declarations, body, all) => {
            let len = scope.len();
            check_locals(alloc, scope, declarations, found)?;
            statements(alloc, scope, around, body, found)?;
            handlers(alloc, scope, around, all, found)?;
            scope.truncate(len);
            Ok(())
        }
        _ => {
            simple_faults(scope, around, one, found);
            Ok(())
        }
    }
}

#[cycle(statement)]
fn statements(
    alloc: Global,
    scope: &mut Scope,
    around: Around,
    all: &[Stmt],
    found: &mut Findings,
) -> Result<(), AllocError>
    ensures found { OnOk result (found.new ≡ noted found.old (stmts_faults scope.old around (stmt_trees all.now))) }
    ensures scope { OnOk result (scope.new ≡ scope.old) }
{
    noted_by_parts();
    for one in all {
        statement(alloc, scope, around, one, found)?;
    }
    Ok(())
}

/// The broken rules of statements of a body, which see the names of the scope. The scope stays as it was. Memory is the only refusal, and may leave names of
/// loops and blocks visible.
pub fn statements_faults(
    alloc: Global,
    scope: &mut Scope,
    around: Around,
    all: &[Stmt],
    found: &mut Findings,
) -> Result<(), AllocError>
    ensures found { OnOk result (found.new ≡ noted found.old (stmts_faults scope.old around (stmt_trees all.now))) }
    ensures scope { OnOk result (scope.new ≡ scope.old) }
{
    statements(alloc, scope, around, all, found)
}

/// The broken rules of the handlers of a sequence of statements. The scope stays as it was. Memory is the only refusal, and may leave names of loops and
/// blocks visible.
pub fn handlers_faults(
    alloc: Global,
    scope: &mut Scope,
    around: Around,
    all: &[Handler],
    found: &mut Findings,
) -> Result<(), AllocError>
    ensures found { OnOk result (found.new ≡ noted found.old (handlers_faults scope.old around (handler_trees all.now))) }
    ensures scope { OnOk result (scope.new ≡ scope.old) }
{
    handlers(alloc, scope, around, all, found)
}

/// The broken rules of a sequence of statements with its handlers (RM 11.2). The scope stays as it was. Memory is the only refusal, and may leave names of
/// loops and blocks visible.
pub fn sequence_faults(
    alloc: Global,
    scope: &mut Scope,
    around: Around,
    body: &[Stmt],
    all: &[Handler],
    found: &mut Findings,
) -> Result<(), AllocError>
    ensures found { OnOk result (found.new ≡ noted found.old (sequence_faults scope.old around (stmt_trees body.now) (handler_trees all.now))) }
    ensures scope { OnOk result (scope.new ≡ scope.old) }
{
    noted_by_parts();
    statements(alloc, scope, around, body, found)?;
    handlers(alloc, scope, around, all, found)
}
