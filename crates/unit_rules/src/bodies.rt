//! Bodies of subprograms and tasks (RM 6.3, 9.1).
ghost use Rattle.std.specs.Prelude.{◌≡◌, ◌++◌, OnOk, is_some, map};
ghost use Rattle.ada_tree.specs.StatementTree.{declaration_tree, handler_trees, stmt_tree, stmt_trees, subprogram_tree};
ghost use Rattle.ada_tree.specs.ProgramTree.{body_tree};
ghost use Rattle.types.specs.Entities.{entity_value};
ghost use Rattle.expr_rules.specs.Findings.{noted};
ghost use Rattle.declaration_rules.specs.BodyNames.{formals_scope};
ghost use Rattle.type_rules.specs.ProfileRules.{subprogram_scope};
ghost use Rattle.type_rules.specs.SubtypeNames.{named_entity};
ghost use Rattle.unit_rules.specs.BodyRules.{body_faults, body_name_faults, body_name_number, body_name_rule, function_body_faults, has_no_declarations, has_no_handlers, head_faults, is_function_body, is_return_of_value, is_single_return, is_subprogram, is_task, kind_of, own_name_faults, subprogram_body_faults, task_body_faults, task_rule, type_number};

use ada_tree::laws::statements_by_parts;
use ada_tree::{Body, Declaration, Formal, Handler, Identifier, Stmt, Subprogram};
use base::faults::{DECLARED_TWICE, UNMATCHED_BODY, WRONG_FUNCTION};
use declaration_rules::laws::names_are_added;
use declaration_rules::{check_locals, check_task_locals, declare_formals};
use expr_rules::Findings;
use expr_rules::laws::noted_by_parts;
use std::alloc::{AllocError, Global};
use stmt_rules::{Around, BodyKind, sequence_faults};
use type_rules::{declare_subprogram, named_entity, note_end_name, profile_faults, subtype_of};
use types::{Entity, Scope, Subtype};

/// The broken rules of the declarations, statements and handlers of a body of this kind, which sees the names of the scope. The scope stays as it was.
/// Memory is the only refusal, and may leave names of the body visible.
pub fn body_faults(
    alloc: Global,
    scope: &mut Scope,
    kind: BodyKind,
    body: &Body,
    found: &mut Findings,
) -> Result<(), AllocError>
    ensures found { OnOk result (found.new ≡ noted found.old (body_faults scope.old kind (body_tree body.now))) }
    ensures scope { OnOk result (scope.new ≡ scope.old) }
{
    noted_by_parts();
    names_are_added();
    let len = scope.len();
    check_locals(alloc, scope, &body.declarations, found)?;
    let around = Around::body(kind);
    sequence_faults(
        alloc,
        scope,
        around,
        &body.statements,
        &body.handlers,
        found,
    )?;
    scope.truncate(len);
    Ok(())
}

fn is_task(scope: &Scope, name: &Identifier) -> bool
    ensures { result ≡ is_task (named_entity scope.now name.now) }
{
    match named_entity(scope, name) {
        Some(Entity::Task(_)) => true,
        Some(Entity::Doubtful) => true,
        _ => false,
    }
}

fn task_rule(scope: &Scope, name: &Identifier, found: &mut Findings)
    ensures { found.new ≡ noted found.old (task_rule scope.now name.now) }
{
    found.note_rule(UNMATCHED_BODY, name.place, !is_task(scope, name));
}

/// The broken rules of the body of a task, whose initial values are static. The scope stays as it was. Memory is the only refusal, and may leave names of the
/// body visible.
pub fn task_body_faults(
    alloc: Global,
    scope: &mut Scope,
    name: &Identifier,
    body: &Body,
    found: &mut Findings,
) -> Result<(), AllocError>
    ensures found { OnOk result (found.new ≡ noted found.old (task_body_faults scope.old name.now (body_tree body.now))) }
    ensures scope { OnOk result (scope.new ≡ scope.old) }
{
    noted_by_parts();
    names_are_added();
    let len = scope.len();
    task_rule(scope, name, found);
    check_task_locals(alloc, scope, &body.declarations, found)?;
    let around = Around::body(BodyKind::Task);
    sequence_faults(
        alloc,
        scope,
        around,
        &body.statements,
        &body.handlers,
        found,
    )?;
    scope.truncate(len);
    note_end_name(name, &body.end_name, found);
    Ok(())
}

fn is_return_of_value(statement: &Stmt) -> bool
    ensures { result ≡ is_return_of_value (stmt_tree statement.now) }
{
    statements_by_parts();
    match statement {
        Stmt::Return(_, Some(_)) => true,
        _ => false,
    }
}

fn is_single_return(statements: &[Stmt]) -> bool
    ensures { result ≡ is_single_return (stmt_trees statements.now) }
{
    match statements {
        [] => false,
        [statement] => is_return_of_value(statement),
        [_, _, ..] => false,
    }
}

fn has_no_declarations(declarations: &[Declaration]) -> bool
    ensures { result ≡ has_no_declarations (map declaration_tree declarations.now) }
{
    declarations.is_empty()
}

fn has_no_handlers(handlers: &[Handler]) -> bool
    ensures { result ≡ has_no_handlers (handler_trees handlers.now) }
{
    match handlers {
        [] => true,
        [_, ..] => false,
    }
}

fn is_function_body(body: &Body) -> bool
    ensures { result ≡ is_function_body (body_tree body.now) }
{
    has_no_declarations(&body.declarations)
        && (has_no_handlers(&body.handlers) && is_single_return(&body.statements))
}

fn function_body_faults(subprogram: &Subprogram, body: &Body, found: &mut Findings)
    ensures { found.new ≡ noted found.old (function_body_faults (subprogram_tree subprogram.now) (body_tree body.now)) }
{
    found.note_rule(
        WRONG_FUNCTION,
        subprogram.name.place,
        subprogram.result.is_some() && !is_function_body(body),
    );
}

fn type_number(subtype: Option<Subtype>) -> Option<usize>
    ensures { result ≡ type_number subtype }
{
    match subtype {
        Some(subtype) => Some(subtype.type_number),
        None => None,
    }
}

fn kind_of(scope: &Scope, given: &Option<Identifier>) -> BodyKind
    ensures { result ≡ kind_of scope.now given.now }
{
    match given {
        Some(name) => BodyKind::Function(type_number(subtype_of(scope, name))),
        None => BodyKind::Procedure,
    }
}

fn is_subprogram(scope: &Scope, name: &Identifier) -> bool
    ensures { result ≡ is_subprogram (named_entity scope.now name.now) }
{
    match named_entity(scope, name) {
        Some(Entity::Subprogram(_)) => true,
        Some(Entity::Doubtful) => true,
        _ => false,
    }
}

fn body_name_number(scope: &Scope, name: &Identifier) -> u8
    ensures { result ≡ body_name_number (named_entity scope.now name.now) }
{
    match named_entity(scope, name) {
        Some(Entity::Entry(_)) => UNMATCHED_BODY,
        _ => DECLARED_TWICE,
    }
}

fn body_name_rule(scope: &Scope, name: &Identifier, found: &mut Findings)
    ensures { found.new ≡ noted found.old (body_name_rule scope.now name.now) }
{
    let is_visible = scope.number_of(&name.name).is_some();
    found.note_rule(body_name_number(scope, name), name.place, is_visible);
}

fn body_name_faults(scope: &Scope, name: &Identifier, found: &mut Findings)
    ensures { found.new ≡ noted found.old (body_name_faults scope.now name.now) }
{
    if !is_subprogram(scope, name) {
        body_name_rule(scope, name, found);
    }
}

fn own_name_faults(name: &Identifier, formals: &[Formal], found: &mut Findings)
    ensures { found.new ≡ noted found.old (own_name_faults name.now formals.now) }
{
    noted_by_parts();
    for formal in formals {
        let is_own = formal.name.name.as_bytes() == name.name.as_bytes();
        found.note_rule(DECLARED_TWICE, formal.name.place, is_own);
    }
}

// What is broken before the declarations of a subprogram's body.
fn head_faults(
    alloc: Global,
    scope: &Scope,
    subprogram: &Subprogram,
    body: &Body,
    found: &mut Findings,
) -> Result<(), AllocError>
    ensures { OnOk result (found.new ≡ noted found.old (head_faults scope.now (subprogram_tree subprogram.now) (body_tree body.now))) }
{
    noted_by_parts();
    profile_faults(alloc, scope, subprogram, found)?;
    own_name_faults(&subprogram.name, &subprogram.formals, found);
    body_name_faults(scope, &subprogram.name, found);
    function_body_faults(subprogram, body, found);
    Ok(())
}

/// The broken rules of a subprogram's body, and makes its name visible, unless a declaration did before. Memory is the only refusal, and may leave names of
/// the body visible.
pub fn subprogram_body_faults(
    alloc: Global,
    scope: &mut Scope,
    subprogram: &Subprogram,
    body: &Body,
    found: &mut Findings,
) -> Result<(), AllocError>
    ensures found { OnOk result (found.new ≡ noted found.old (subprogram_body_faults scope.old (subprogram_tree subprogram.now) (body_tree body.now))) }
    ensures scope { OnOk result (scope.new ≡ subprogram_scope scope.old (subprogram_tree subprogram.now)) }
{
    noted_by_parts();
    names_are_added();
    head_faults(alloc, scope, subprogram, body, found)?;
    let kind = kind_of(scope, &subprogram.result);
    declare_subprogram(alloc, scope, subprogram)?;
    let len = scope.len();
    declare_formals(scope, &subprogram.formals)?;
    body_faults(alloc, scope, kind, body, found)?;
    scope.truncate(len);
    note_end_name(&subprogram.name, &body.end_name, found);
    Ok(())
}
