//! The declarations of a body or block, in order (RM 3.11).
ghost use Rattle.std.specs.Prelude.{◌≡◌, OnOk, map};
ghost use Rattle.ada_tree.specs.StatementTree.{declaration_tree};
ghost use Rattle.expr_rules.specs.Findings.{noted};
ghost use Rattle.declaration_rules.specs.LocalRules.{fixed_local_faults, fixed_locals_faults, local_faults, local_scope, locals_faults, locals_scope};

use crate::protected::{declare_protected, protected_faults};
use crate::tasks::{declare_task, task_faults};
use ada_tree::Declaration;
use expr_rules::Findings;
use expr_rules::laws::noted_by_parts;
use std::alloc::{AllocError, Global};
use type_rules::{declare_local_object, fixed_object_faults, local_object_faults};
use types::Scope;

// Checks a declaration of a body or block, and makes its name visible.
fn check_local(
    alloc: Global,
    scope: &mut Scope,
    declaration: &Declaration,
    found: &mut Findings,
) -> Result<(), AllocError>
    ensures found { OnOk result (found.new ≡ noted found.old (local_faults scope.old (declaration_tree declaration.now))) }
    ensures scope { OnOk result (scope.new ≡ local_scope scope.old (declaration_tree declaration.now)) }
{
    match declaration {
        Declaration::Object(object) => {
            local_object_faults(scope, object, found);
            declare_local_object(scope, object)
        }
        Declaration::Task(task) => {
            task_faults(scope, task, found);
            declare_task(scope, task)
        }
        Declaration::Protected(object) => {
            protected_faults(alloc, scope, object, found)?;
            declare_protected(alloc, scope, object)
        }
    }
}

/// Checks the declarations of a subprogram, an entry or a block in order, and makes their names visible: each from its end on. Memory is the only refusal,
/// and may leave some of the names visible.
pub fn check_locals(
    alloc: Global,
    scope: &mut Scope,
    declarations: &[Declaration],
    found: &mut Findings,
) -> Result<(), AllocError>
    ensures found { OnOk result (found.new ≡ noted found.old (locals_faults scope.old (map declaration_tree declarations.now))) }
    ensures scope { OnOk result (scope.new ≡ locals_scope scope.old (map declaration_tree declarations.now)) }
{
    noted_by_parts();
    for declaration in declarations {
        check_local(alloc, scope, declaration, found)?;
    }
    Ok(())
}

// Checks a declaration of a task body, and makes its name visible.
fn check_fixed_local(
    alloc: Global,
    scope: &mut Scope,
    declaration: &Declaration,
    found: &mut Findings,
) -> Result<(), AllocError>
    ensures found { OnOk result (found.new ≡ noted found.old (fixed_local_faults scope.old (declaration_tree declaration.now))) }
    ensures scope { OnOk result (scope.new ≡ local_scope scope.old (declaration_tree declaration.now)) }
{
    match declaration {
        Declaration::Object(object) => {
            fixed_object_faults(scope, object, found);
            declare_local_object(scope, object)
        }
        Declaration::Task(task) => {
            task_faults(scope, task, found);
            declare_task(scope, task)
        }
        Declaration::Protected(object) => {
            protected_faults(alloc, scope, object, found)?;
            declare_protected(alloc, scope, object)
        }
    }
}

/// Checks the declarations of a task body, whose initial values are static, in order, and makes their names visible: each from its end on. Memory is the only
/// refusal, and may leave some of the names visible.
pub fn check_task_locals(
    alloc: Global,
    scope: &mut Scope,
    declarations: &[Declaration],
    found: &mut Findings,
) -> Result<(), AllocError>
    ensures found { OnOk result (found.new ≡ noted found.old (fixed_locals_faults scope.old (map declaration_tree declarations.now))) }
    ensures scope { OnOk result (scope.new ≡ locals_scope scope.old (map declaration_tree declarations.now)) }
{
    noted_by_parts();
    for declaration in declarations {
        check_fixed_local(alloc, scope, declaration, found)?;
    }
    Ok(())
}
