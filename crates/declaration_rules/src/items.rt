//! The declarations of a package, each by its kind (RM 7.1).
ghost use Rattle.std.specs.Prelude.{◌≡◌, OnErr, OnOk, map};
ghost use Rattle.ada_tree.specs.ProgramTree.{item_tree};
ghost use Rattle.expr_rules.specs.Findings.{noted};
ghost use Rattle.declaration_rules.specs.ItemRules.{item_faults, item_scope, items_faults, items_scope};

use crate::protected::{declare_protected, protected_faults};
use crate::tasks::{declare_exception, declare_task, task_faults};
use ada_tree::Item;
use expr_rules::Findings;
use expr_rules::laws::noted_by_parts;
use std::alloc::{AllocError, Global};
use type_rules::{
    declare_package_object, declare_subprogram, declare_type, fixed_object_faults,
    note_declared_twice, subprogram_faults, type_faults,
};
use types::Scope;

/// The broken rules of a declaration of the package. Memory is the only refusal.
pub fn item_faults(
    alloc: Global,
    scope: &Scope,
    item: &Item,
    found: &mut Findings,
) -> Result<(), AllocError>
    ensures { OnOk result (found.new ≡ noted found.old (item_faults scope.now (item_tree item.now))) }
{
    match item {
        Item::Type(declaration) => return type_faults(alloc, scope, declaration, found),
        Item::Object(object) => fixed_object_faults(scope, object, found),
        Item::Exception(name) => note_declared_twice(scope, name, found),
        Item::Subprogram(subprogram) => return subprogram_faults(alloc, scope, subprogram, found),
        Item::Task(task) => task_faults(scope, task, found),
        Item::Protected(object) => return protected_faults(alloc, scope, object, found),
    }
    Ok(())
}

/// Makes what a declaration of the package declares visible. Memory is the only refusal, and leaves the scope as it was.
pub fn declare_item(alloc: Global, scope: &mut Scope, item: &Item) -> Result<(), AllocError>
    ensures ok { OnOk result (scope.new ≡ item_scope scope.old (item_tree item.now)) }
    ensures err { OnErr result (scope.new ≡ scope.old) }
{
    match item {
        Item::Type(declaration) => declare_type(alloc, scope, declaration),
        Item::Object(object) => declare_package_object(scope, object),
        Item::Exception(name) => declare_exception(scope, name),
        Item::Subprogram(subprogram) => declare_subprogram(alloc, scope, subprogram),
        Item::Task(task) => declare_task(scope, task),
        Item::Protected(object) => declare_protected(alloc, scope, object),
    }
}

/// Checks the declarations of a package's specification in order, and makes their names visible: each from its end on. Memory is the only refusal, and may
/// leave some of the names visible.
pub fn check_items(
    alloc: Global,
    scope: &mut Scope,
    items: &[Item],
    found: &mut Findings,
) -> Result<(), AllocError>
    ensures found { OnOk result (found.new ≡ noted found.old (items_faults scope.old (map item_tree items.now))) }
    ensures scope { OnOk result (scope.new ≡ items_scope scope.old (map item_tree items.now)) }
{
    noted_by_parts();
    for item in items {
        item_faults(alloc, scope, item, found)?;
        declare_item(alloc, scope, item)?;
    }
    Ok(())
}
