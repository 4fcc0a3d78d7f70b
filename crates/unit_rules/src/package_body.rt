//! The declarations and bodies in the body of a package (RM 7.2).
ghost use Rattle.std.specs.Prelude.{◌≡◌, OnOk, map};
ghost use Rattle.ada_tree.specs.ProgramTree.{body_item_tree, item_tree};
ghost use Rattle.declaration_rules.specs.ItemRules.{item_faults, item_scope};
ghost use Rattle.expr_rules.specs.Findings.{noted};
ghost use Rattle.declaration_rules.specs.PackageNames.{body_item_scope, body_items_scope};
ghost use Rattle.unit_rules.specs.PackageBodyRules.{body_item_faults, body_items_faults};

use crate::bodies::{subprogram_body_faults, task_body_faults};
use crate::protected::protected_body_faults;
use ada_tree::{BodyItem, Item};
use declaration_rules::{declare_item, item_faults};
use expr_rules::Findings;
use expr_rules::laws::noted_by_parts;
use std::alloc::{AllocError, Global};
use types::Scope;

fn declared_item_faults(
    alloc: Global,
    scope: &mut Scope,
    item: &Item,
    found: &mut Findings,
) -> Result<(), AllocError>
    ensures found { OnOk result (found.new ≡ noted found.old (item_faults scope.old (item_tree item.now))) }
    ensures scope { OnOk result (scope.new ≡ item_scope scope.old (item_tree item.now)) }
{
    item_faults(alloc, scope, item, found)?;
    declare_item(alloc, scope, item)
}

fn body_item_faults(
    alloc: Global,
    scope: &mut Scope,
    item: &BodyItem,
    found: &mut Findings,
) -> Result<(), AllocError>
    ensures found { OnOk result (found.new ≡ noted found.old (body_item_faults scope.old (body_item_tree item.now))) }
    ensures scope { OnOk result (scope.new ≡ body_item_scope scope.old (body_item_tree item.now)) }
{
    match item {
        BodyItem::Item(item) => declared_item_faults(alloc, scope, item, found),
        BodyItem::Subprogram(subprogram, body) => {
            subprogram_body_faults(alloc, scope, subprogram, body, found)
        }
        BodyItem::Task(name, body) => task_body_faults(alloc, scope, name, body, found),
        BodyItem::Protected(name, items, end_name) => {
            protected_body_faults(alloc, scope, name, items, end_name, found)
        }
    }
}

/// The broken rules of the declarations and bodies in the body of a package, each of which sees the names declared before it, and makes these names visible.
/// Memory is the only refusal, and may leave names of a body visible.
pub fn body_items_faults(
    alloc: Global,
    scope: &mut Scope,
    items: &[BodyItem],
    found: &mut Findings,
) -> Result<(), AllocError>
    ensures found { OnOk result (found.new ≡ noted found.old (body_items_faults scope.old (map body_item_tree items.now))) }
    ensures scope { OnOk result (scope.new ≡ body_items_scope scope.old (map body_item_tree items.now)) }
{
    noted_by_parts();
    for item in items {
        body_item_faults(alloc, scope, item, found)?;
    }
    Ok(())
}
