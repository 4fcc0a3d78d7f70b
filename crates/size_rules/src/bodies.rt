//! The bodies in the body of a package, each with its frame.
ghost use Rattle.std.specs.Prelude.{◌≡◌, ◌++◌, OnOk, map};
ghost use Rattle.ada_tree.specs.ProgramTree.{body_item_tree, protected_item_tree};
ghost use Rattle.expr_rules.specs.Findings.{noted};
ghost use Rattle.size_rules.specs.PackageSizes.{body_item_faults, body_item_inside, body_items_faults, body_items_inside, body_items_things};
ghost use Rattle.size_rules.specs.PackageSizes.{operation_faults, operation_inside, operations_faults, operations_inside};

use crate::body::body_faults;
use crate::declarations::push_body_item;
use crate::thing::Thing;
use ada_tree::{BodyItem, ProtectedBodyItem};
use expr_rules::Findings;
use expr_rules::laws::noted_by_parts;
use std::alloc::{AllocError, Global};
use types::Scope;
use unit_rules::see_body_item;

fn operation_faults(
    scope: &Scope,
    item: &ProtectedBodyItem,
    inside: &mut Vec<Thing>,
    found: &mut Findings,
) -> Result<(), AllocError>
    ensures found { OnOk result (found.new ≡ noted found.old (operation_faults scope.now (protected_item_tree item.now))) }
    ensures inside { OnOk result (inside.new.items ≡ inside.old.items ++ operation_inside scope.now (protected_item_tree item.now)) }
{
    match item {
        ProtectedBodyItem::Subprogram(subprogram, body) => {
            body_faults(scope, &subprogram.formals, body, inside, found)
        }
        ProtectedBodyItem::Entry(entry, _, body) => {
            body_faults(scope, &entry.formals, body, inside, found)
        }
    }
}

fn operations_faults(
    scope: &Scope,
    items: &[ProtectedBodyItem],
    inside: &mut Vec<Thing>,
    found: &mut Findings,
) -> Result<(), AllocError>
    ensures found { OnOk result (found.new ≡ noted found.old (operations_faults scope.now (map protected_item_tree items.now))) }
    ensures inside { OnOk result (inside.new.items ≡ inside.old.items ++ operations_inside scope.now (map protected_item_tree items.now)) }
{
    noted_by_parts();
    for item in items {
        operation_faults(scope, item, inside, found)?;
    }
    Ok(())
}

fn body_item_faults(
    scope: &Scope,
    item: &BodyItem,
    inside: &mut Vec<Thing>,
    found: &mut Findings,
) -> Result<(), AllocError>
    ensures found { OnOk result (found.new ≡ noted found.old (body_item_faults scope.now (body_item_tree item.now))) }
    ensures inside { OnOk result (inside.new.items ≡ inside.old.items ++ body_item_inside scope.now (body_item_tree item.now)) }
{
    match item {
        BodyItem::Item(_) => Ok(()),
        BodyItem::Subprogram(subprogram, body) => {
            body_faults(scope, &subprogram.formals, body, inside, found)
        }
        BodyItem::Task(_, body) => body_faults(scope, &[], body, inside, found),
        BodyItem::Protected(_, items, _) => operations_faults(scope, items, inside, found),
    }
}

/// Notes each fault of the words of the frames in the body of a package. What it declares is pushed, and what is in its bodies. Memory is the only refusal,
/// and may leave some of this done.
pub(crate) fn body_items_faults(
    alloc: Global,
    scope: &mut Scope,
    items: &[BodyItem],
    things: &mut Vec<Thing>,
    inside: &mut Vec<Thing>,
    found: &mut Findings,
) -> Result<(), AllocError>
    ensures found { OnOk result (found.new ≡ noted found.old (body_items_faults scope.old (map body_item_tree items.now))) }
    ensures things { OnOk result (things.new.items ≡ things.old.items ++ body_items_things scope.old (map body_item_tree items.now)) }
    ensures inside { OnOk result (inside.new.items ≡ inside.old.items ++ body_items_inside scope.old (map body_item_tree items.now)) }
{
    noted_by_parts();
    for item in items {
        push_body_item(scope, item, things)?;
        body_item_faults(scope, item, inside, found)?;
        see_body_item(alloc, scope, item)?;
    }
    Ok(())
}
