//! What a package declares.
ghost use Rattle.std.specs.Prelude.{◌≡◌, ◌++◌, ◌∷◌, [], OnOk, map};
ghost use Rattle.ada_tree.specs.ProgramTree.{OfProtected, body_item_tree, item_tree, protected_item_tree};
ghost use Rattle.ada_tree.specs.StatementTree.{object_tree, operation_tree, protected_component_tree, protected_tree, subprogram_tree};
ghost use Rattle.declaration_rules.specs.ItemRules.{items_scope};
ghost use Rattle.types.specs.Entities.{protected_value};
ghost use Rattle.size_rules.specs.declared.thing.Thing.TheVariants.{Counted};
ghost use Rattle.size_rules.specs.PackageSizes.{body_item_things, components_things, is_operation_of, item_things, items_things, named_body_things};
ghost use Rattle.size_rules.specs.PackageSizes.{object_things, operation_place, operation_things, operations_things, protected_items_things};
ghost use Rattle.size_rules.specs.PackageSizes.{subprogram_things};

use crate::body::sized_object;
use crate::thing::{Kind, Thing};
use ada_tree::{
    BodyItem, Identifier, Item, ObjectDeclaration, Operation, ProtectedBodyItem,
    ProtectedComponent, ProtectedDeclaration, Subprogram,
};
use declaration_rules::declare_item;
use std::alloc::{AllocError, Global};
use type_rules::named_entity;
use types::{Entity, ProtectedObject, Scope};

fn push_object(
    scope: &Scope,
    object: &ObjectDeclaration,
    things: &mut Vec<Thing>,
) -> Result<(), AllocError>
    ensures { OnOk result (things.new.items ≡ things.old.items ++ object_things scope.now (object_tree object.now)) }
{
    if !object.constant {
        things.push(sized_object(scope, &object.name, &object.subtype))?;
    }
    Ok(())
}

fn operation_place(operation: &Operation) -> u32
    ensures { result ≡ operation_place (operation_tree operation.now) }
{
    match operation {
        Operation::Subprogram(subprogram, _) => subprogram.place,
        Operation::Entry(entry) => entry.place,
    }
}

fn push_operations(operations: &[Operation], things: &mut Vec<Thing>) -> Result<(), AllocError>
    ensures { OnOk result (things.new.items ≡ things.old.items ++ operations_things (map operation_tree operations.now)) }
{
    for operation in operations {
        let place = operation_place(operation);
        things.push(Thing::Counted(Kind::Subprogram, place))?;
    }
    Ok(())
}

fn push_components(
    scope: &Scope,
    components: &[ProtectedComponent],
    things: &mut Vec<Thing>,
) -> Result<(), AllocError>
    ensures { OnOk result (things.new.items ≡ things.old.items ++ components_things scope.now (map protected_component_tree components.now)) }
{
    for component in components {
        things.push(sized_object(scope, &component.name, &component.subtype))?;
    }
    Ok(())
}

fn push_counted(kind: Kind, place: u32, things: &mut Vec<Thing>) -> Result<(), AllocError>
    ensures { OnOk result (things.new.items ≡ things.old.items ++ Counted kind place ∷ []) }
{
    things.push(Thing::Counted(kind, place))?;
    Ok(())
}

fn push_protected(
    scope: &Scope,
    object: &ProtectedDeclaration,
    things: &mut Vec<Thing>,
) -> Result<(), AllocError>
    ensures { OnOk result (things.new.items ≡ things.old.items ++ item_things scope.now (OfProtected (protected_tree object.now))) }
{
    push_counted(Kind::ProtectedObject, object.place, things)?;
    push_operations(&object.operations, things)?;
    push_components(scope, &object.components, things)
}

fn push_item(scope: &Scope, item: &Item, things: &mut Vec<Thing>) -> Result<(), AllocError>
    ensures { OnOk result (things.new.items ≡ things.old.items ++ item_things scope.now (item_tree item.now)) }
{
    match item {
        Item::Type(_) => Ok(()),
        Item::Object(object) => push_object(scope, object, things),
        Item::Exception(name) => push_counted(Kind::Exception, name.place, things),
        Item::Subprogram(subprogram) => push_counted(Kind::Subprogram, subprogram.place, things),
        Item::Task(task) => push_counted(Kind::Task, task.place, things),
        Item::Protected(object) => push_protected(scope, object, things),
    }
}

/// Pushes what the declarations of a specification declare, and makes their names visible. Memory is the only refusal, and may leave some of this done.
pub(crate) fn push_items(
    alloc: Global,
    scope: &mut Scope,
    items: &[Item],
    things: &mut Vec<Thing>,
) -> Result<(), AllocError>
    ensures scope { OnOk result (scope.new ≡ items_scope scope.old (map item_tree items.now)) }
    ensures things { OnOk result (things.new.items ≡ things.old.items ++ items_things scope.old (map item_tree items.now)) }
{
    for item in items {
        push_item(scope, item, things)?;
        declare_item(alloc, scope, item)?;
    }
    Ok(())
}

fn push_subprogram(
    scope: &Scope,
    subprogram: &Subprogram,
    things: &mut Vec<Thing>,
) -> Result<(), AllocError>
    ensures { OnOk result (things.new.items ≡ things.old.items ++ subprogram_things scope.now (subprogram_tree subprogram.now)) }
{
    if scope.number_of(&subprogram.name.name).is_none() {
        push_counted(Kind::Subprogram, subprogram.place, things)?;
    }
    Ok(())
}

fn is_operation_of(object: &ProtectedObject, name: &Identifier) -> bool
    ensures { result ≡ is_operation_of (protected_value object.now) name.now }
{
    object.position_of(&name.name).is_some()
}

fn push_operation(
    object: &ProtectedObject,
    item: &ProtectedBodyItem,
    things: &mut Vec<Thing>,
) -> Result<(), AllocError>
    ensures { OnOk result (things.new.items ≡ things.old.items ++ operation_things (protected_value object.now) (protected_item_tree item.now)) }
{
    if let ProtectedBodyItem::Subprogram(subprogram, _) = item {
        if !is_operation_of(object, &subprogram.name) {
            push_counted(Kind::Subprogram, subprogram.place, things)?;
        }
    }
    Ok(())
}

fn push_protected_items(
    object: &ProtectedObject,
    items: &[ProtectedBodyItem],
    things: &mut Vec<Thing>,
) -> Result<(), AllocError>
    ensures { OnOk result (things.new.items ≡ things.old.items ++ protected_items_things (protected_value object.now) (map protected_item_tree items.now)) }
{
    for item in items {
        push_operation(object, item, things)?;
    }
    Ok(())
}

fn push_object_body(
    scope: &Scope,
    name: &Identifier,
    items: &[ProtectedBodyItem],
    things: &mut Vec<Thing>,
) -> Result<(), AllocError>
    ensures { OnOk result (things.new.items ≡ things.old.items ++ named_body_things scope.now name.now (map protected_item_tree items.now)) }
{
    match named_entity(scope, name) {
        Some(Entity::Protected(object)) => push_protected_items(object, items, things),
        _ => Ok(()),
    }
}

/// Pushes what a declaration or body in the body of a package declares. Memory is the only refusal, and may leave some of it pushed.
pub(crate) fn push_body_item(
    scope: &Scope,
    item: &BodyItem,
    things: &mut Vec<Thing>,
) -> Result<(), AllocError>
    ensures { OnOk result (things.new.items ≡ things.old.items ++ body_item_things scope.now (body_item_tree item.now)) }
{
    match item {
        BodyItem::Item(item) => push_item(scope, item, things),
        BodyItem::Subprogram(subprogram, _) => push_subprogram(scope, subprogram, things),
        BodyItem::Task(_, _) => Ok(()),
        BodyItem::Protected(name, items, _) => { push_object_body(scope, name, items, things) }
    }
}
