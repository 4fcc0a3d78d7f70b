//! The package: its declarations and bodies in order.
ghost use Rattle.std.specs.Prelude.{◌≡◌, OnOk, map, option_map};
ghost use Rattle.ada_tree.specs.ProgramTree.{body_item_tree, item_tree, package_tree, protected_item_tree};
ghost use Rattle.declaration_rules.specs.ItemRules.{items_scope};
ghost use Rattle.expr_rules.specs.Findings.{noted};
ghost use Rattle.types.specs.Entities.{entity_value};
ghost use Rattle.body_restrictions.specs.BodyRules.{operations_faults};
ghost use Rattle.ravenscar.specs.ProgramRules.{body_item_faults, body_items_faults, components_in, components_named, item_faults, items_faults, package_faults, package_part_faults, taken_by_body_item, taken_by_item, taken_by_items};

use crate::handlers::{CHANNEL_NUMBERS, none_taken};
use crate::tasking::{protected_faults, task_faults};
use ada_tree::{BodyItem, Identifier, Item, Package, ProtectedBodyItem};
use body_restrictions::{body_faults, operations_faults};
use declaration_rules::declare_item;
use expr_rules::Findings;
use expr_rules::laws::noted_by_parts;
use std::alloc::{AllocError, Global};
use type_rules::named_entity;
use types::{Entity, RecordComponent, Scope};
use unit_rules::{inside_scope, see_body_item};

fn item_faults(
    scope: &Scope,
    taken: &mut [bool; CHANNEL_NUMBERS],
    item: &Item,
    found: &mut Findings,
)
    ensures found { found.new ≡ noted found.old (item_faults scope.now taken.old (item_tree item.now)) }
    ensures taken { taken.new ≡ taken_by_item scope.now taken.old (item_tree item.now) }
{
    match item {
        Item::Task(task) => task_faults(scope, task, found),
        Item::Protected(object) => protected_faults(scope, taken, object, found),
        _ => {}
    }
}

// The declarations of the specification, which become visible.
fn items_faults(
    alloc: Global,
    scope: &mut Scope,
    taken: &mut [bool; CHANNEL_NUMBERS],
    items: &[Item],
    found: &mut Findings,
) -> Result<(), AllocError>
    ensures found { OnOk result (found.new ≡ noted found.old (items_faults scope.old taken.old (map item_tree items.now))) }
    ensures scope { OnOk result (scope.new ≡ items_scope scope.old (map item_tree items.now)) }
    ensures taken { OnOk result (taken.new ≡ taken_by_items scope.old taken.old (map item_tree items.now)) }
{
    noted_by_parts();
    for item in items {
        item_faults(scope, taken, item, found);
        declare_item(alloc, scope, item)?;
    }
    Ok(())
}

fn components_in(entity: Option<&Entity>) -> &[RecordComponent]
    ensures { result.now ≡ components_in (option_map (λ e. entity_value e.now) entity.entry) }
{
    match entity {
        Some(Entity::Protected(object)) => &object.components,
        _ => &[],
    }
}

fn components_named<'a>(scope: &'a Scope, name: &Identifier) -> &'a [RecordComponent]
    ensures { result.now ≡ components_named scope.now name.now }
{
    components_in(named_entity(scope, name))
}

fn object_body_faults(
    scope: &Scope,
    name: &Identifier,
    items: &[ProtectedBodyItem],
    found: &mut Findings,
)
    ensures { found.new ≡ noted found.old (operations_faults (components_named scope.now name.now) (map protected_item_tree items.now)) }
{
    operations_faults(components_named(scope, name), items, found);
}

fn body_item_faults(
    scope: &Scope,
    taken: &mut [bool; CHANNEL_NUMBERS],
    item: &BodyItem,
    found: &mut Findings,
)
    ensures found { found.new ≡ noted found.old (body_item_faults scope.now taken.old (body_item_tree item.now)) }
    ensures taken { taken.new ≡ taken_by_body_item scope.now taken.old (body_item_tree item.now) }
{
    match item {
        BodyItem::Item(item) => item_faults(scope, taken, item, found),
        BodyItem::Subprogram(_, body) => body_faults(body, found),
        BodyItem::Task(_, body) => body_faults(body, found),
        BodyItem::Protected(name, items, _) => object_body_faults(scope, name, items, found),
    }
}

fn body_items_faults(
    alloc: Global,
    scope: &mut Scope,
    taken: &mut [bool; CHANNEL_NUMBERS],
    items: &[BodyItem],
    found: &mut Findings,
) -> Result<(), AllocError>
    ensures { OnOk result (found.new ≡ noted found.old (body_items_faults scope.old taken.old (map body_item_tree items.now))) }
{
    noted_by_parts();
    for item in items {
        body_item_faults(scope, taken, item, found);
        see_body_item(alloc, scope, item)?;
    }
    Ok(())
}

fn package_faults(alloc: Global, package_: &Package, found: &mut Findings) -> Result<(), AllocError>
    ensures { OnOk result (found.new ≡ noted found.old (package_faults (package_tree package_.now))) }
{
    noted_by_parts();
    let mut scope = inside_scope(alloc, package_)?;
    let mut taken = none_taken();
    items_faults(
        alloc,
        &mut scope,
        &mut taken,
        &package_.declaration.items,
        found,
    )?;
    body_items_faults(alloc, &mut scope, &mut taken, &package_.body.items, found)?;
    Ok(())
}

/// Notes each restriction that the package of a program breaks, if it has one. Memory is the only refusal, and may leave some of them noted.
pub(crate) fn package_part_faults(
    alloc: Global,
    package_: Option<&Package>,
    found: &mut Findings,
) -> Result<(), AllocError>
    ensures { OnOk result (found.new ≡ noted found.old (package_part_faults (option_map (λ p. package_tree p.now) package_.entry))) }
{
    match package_ {
        Some(package_) => package_faults(alloc, package_, found),
        None => Ok(()),
    }
}
