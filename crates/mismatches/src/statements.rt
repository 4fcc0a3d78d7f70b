//! Types that don't match in statements and their parts (RM 5, 11.2).
ghost use Rattle.std.specs.Prelude.{◌≡◌, ◌++◌, OnOk};
ghost use Rattle.ada_tree.specs.StatementTree.{alternative_tree, alternative_trees, choices_tree, elsif_tree, elsif_trees, handler_tree, handler_trees, iteration_tree, stmt_tree, stmt_trees};
ghost use Rattle.stmt_rules.specs.StatementRules.{iteration_scope};
ghost use Rattle.mismatches.specs.Conflicts.{noted};
ghost use Rattle.mismatches.specs.StatementMismatches.{alternative_mismatches, alternatives_mismatches, elsif_mismatches, elsifs_mismatches, handlers_mismatches, iteration_mismatches, looped_mismatches, stmt_mismatches, stmts_mismatches};

use crate::conflict::{Search, noted_by_parts};
use crate::locals::locals_mismatches;
use crate::simple::{
    choices_mismatches, choices_wanted, condition_mismatches, range_mismatches,
    selecting_mismatches, simple_mismatches,
};
use ada_tree::laws::statements_by_parts;
use ada_tree::{Alternative, ElsifPart, Handler, Iteration, Stmt};
use declaration_rules::declare_loop_parameter;
use declaration_rules::laws::names_are_added;
use expr_rules::{Wanted, own_of};
use std::alloc::{AllocError, Global};
use stmt_rules::BodyKind;
use types::Scope;

// How often a loop turns; its parameter becomes visible.
fn iterate(scope: &mut Scope, iteration: &Iteration, search: &mut Search) -> Result<(), AllocError>
    ensures search { OnOk result (search.new ≡ noted search.old (iteration_mismatches scope.old (iteration_tree iteration.now))) }
    ensures scope { OnOk result (scope.new ≡ iteration_scope scope.old (iteration_tree iteration.now)) }
{
    match iteration {
        Iteration::Forever => Ok(()),
        Iteration::While(condition) => {
            condition_mismatches(scope, condition, search);
            Ok(())
        }
        Iteration::For(parameter, _, range) => {
            range_mismatches(scope, range, search);
            declare_loop_parameter(scope, parameter, range)
        }
    }
}

#[cycle(statement)]
fn elsif_mismatches(
    alloc: Global,
    scope: &mut Scope,
    kind: BodyKind,
    part: &ElsifPart,
    search: &mut Search,
) -> Result<(), AllocError>
    ensures search { OnOk result (search.new ≡ noted search.old (elsif_mismatches scope.old kind (elsif_tree part.now))) }
    ensures scope { OnOk result (scope.new ≡ scope.old) }
{
    noted_by_parts();
    condition_mismatches(scope, &part.condition, search);
    statements(alloc, scope, kind, &part.statements, search)
}

#[cycle(statement)]
fn elsifs_mismatches(
    alloc: Global,
    scope: &mut Scope,
    kind: BodyKind,
    parts: &[ElsifPart],
    search: &mut Search,
) -> Result<(), AllocError>
    ensures search { OnOk result (search.new ≡ noted search.old (elsifs_mismatches scope.old kind (elsif_trees parts.now))) }
    ensures scope { OnOk result (scope.new ≡ scope.old) }
{
    noted_by_parts();
    for part in parts {
        elsif_mismatches(alloc, scope, kind, part, search)?;
    }
    Ok(())
}

#[cycle(statement)]
fn alternative_mismatches(
    alloc: Global,
    scope: &mut Scope,
    kind: BodyKind,
    wanted: Wanted,
    alternative: &Alternative,
    search: &mut Search,
) -> Result<(), AllocError>
    ensures search { OnOk result (search.new ≡ noted search.old (alternative_mismatches scope.old kind wanted (choices_tree alternative.now.choices)
        (stmt_trees alternative.now.statements.items))) }
    ensures scope { OnOk result (scope.new ≡ scope.old) }
{
    noted_by_parts();
    choices_mismatches(scope, wanted, &alternative.choices, search);
    statements(alloc, scope, kind, &alternative.statements, search)
}

#[cycle(statement)]
fn alternatives_mismatches(
    alloc: Global,
    scope: &mut Scope,
    kind: BodyKind,
    wanted: Wanted,
    alternatives: &[Alternative],
    search: &mut Search,
) -> Result<(), AllocError>
    ensures search { OnOk result (search.new ≡ noted search.old (alternatives_mismatches scope.old kind wanted (alternative_trees alternatives.now))) }
    ensures scope { OnOk result (scope.new ≡ scope.old) }
{
    noted_by_parts();
    for alternative in alternatives {
        alternative_mismatches(alloc, scope, kind, wanted, alternative, search)?;
    }
    Ok(())
}

#[cycle(statement)]
fn handlers_mismatches(
    alloc: Global,
    scope: &mut Scope,
    kind: BodyKind,
    handlers: &[Handler],
    search: &mut Search,
) -> Result<(), AllocError>
    ensures search { OnOk result (search.new ≡ noted search.old (handlers_mismatches scope.old kind (handler_trees handlers.now))) }
    ensures scope { OnOk result (scope.new ≡ scope.old) }
{
    noted_by_parts();
    for handler in handlers {
        statements(alloc, scope, kind, &handler.statements, search)?;
    }
    Ok(())
}

#[cycle(statement)]
fn looped_mismatches(
    alloc: Global,
    scope: &mut Scope,
    kind: BodyKind,
    iteration: &Iteration,
    body: &[Stmt],
    search: &mut Search,
) -> Result<(), AllocError>
    ensures search { OnOk result (search.new ≡ noted search.old (looped_mismatches scope.old kind (iteration_tree iteration.now) (stmt_trees body.now))) }
    ensures scope { OnOk result (scope.new ≡ scope.old) }
{
    noted_by_parts();
    names_are_added();
    let len = scope.len();
    iterate(scope, iteration, search)?;
    statements(alloc, scope, kind, body, search)?;
    scope.truncate(len);
    Ok(())
}

#[cycle(statement)]
fn statement(
    alloc: Global,
    scope: &mut Scope,
    kind: BodyKind,
    one: &Stmt,
    search: &mut Search,
) -> Result<(), AllocError>
    ensures search { OnOk result (search.new ≡ noted search.old (stmt_mismatches scope.old kind (stmt_tree one.now))) }
    ensures scope { OnOk result (scope.new ≡ scope.old) }
{
    noted_by_parts();
    statements_by_parts();
    names_are_added();
    match one {
        Stmt::If(_, condition, body, elsifs, others) => {
            condition_mismatches(scope, condition, search);
            statements(alloc, scope, kind, body, search)?;
            elsifs_mismatches(alloc, scope, kind, elsifs, search)?;
            statements(alloc, scope, kind, others, search)
        }
        Stmt::Case(_, value, alternatives) => {
            selecting_mismatches(scope, value, search);
            let wanted = choices_wanted(scope, own_of(scope, value));
            alternatives_mismatches(alloc, scope, kind, wanted, alternatives, search)
        }
        Stmt::Loop(_, iteration, body) => {
            looped_mismatches(alloc, scope, kind, iteration, body, search)
        }
        Stmt::Block(_, declarations, body, handlers) => {
            let len = scope.len();
            locals_mismatches(alloc, scope, false, declarations, search)?;
            statements(alloc, scope, kind, body, search)?;
            handlers_mismatches(alloc, scope, kind, handlers, search)?;
            scope.truncate(len);
            Ok(())
        }
        _ => {
            simple_mismatches(scope, kind, one, search);
            Ok(())
        }
    }
}

#[cycle(statement)]
fn statements(
    alloc: Global,
    scope: &mut Scope,
    kind: BodyKind,
    all: &[Stmt],
    search: &mut Search,
) -> Result<(), AllocError>
    ensures search { OnOk result (search.new ≡ noted search.old (stmts_mismatches scope.old kind (stmt_trees all.now))) }
    ensures scope { OnOk result (scope.new ≡ scope.old) }
{
    noted_by_parts();
    for one in all {
        statement(alloc, scope, kind, one, search)?;
    }
    Ok(())
}

/// Types that don't match in a sequence of statements with its handlers (RM 11.2), of a body of this kind. The scope stays as it was. Memory is the only
/// refusal, and may leave names of loops and blocks visible.
pub(crate) fn sequence_mismatches(
    alloc: Global,
    scope: &mut Scope,
    kind: BodyKind,
    body: &[Stmt],
    handlers: &[Handler],
    search: &mut Search,
) -> Result<(), AllocError>
    ensures search { OnOk result (search.new ≡ noted search.old (stmts_mismatches scope.old kind (stmt_trees body.now)
        ++ handlers_mismatches scope.old kind (handler_trees handlers.now))) }
    ensures scope { OnOk result (scope.new ≡ scope.old) }
{
    noted_by_parts();
    statements(alloc, scope, kind, body, search)?;
    handlers_mismatches(alloc, scope, kind, handlers, search)
}
