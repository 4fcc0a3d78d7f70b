//! Conflicts in a package (RM 7.1, 7.2).
ghost use Rattle.std.specs.Prelude.{◌≡◌, IfOk, OnOk, map, option_map};
ghost use Rattle.ada_tree.specs.StatementTree.{aspect_tree, operation_tree, protected_component_tree, protected_tree};
ghost use Rattle.ada_tree.specs.ProgramTree.{body_item_tree, item_tree, package_tree};
ghost use Rattle.types.specs.Scopes.{standard};
ghost use Rattle.declaration_rules.specs.ItemRules.{item_scope, items_scope};
ghost use Rattle.declaration_rules.specs.TaskRules.{aspect_wanted};
ghost use Rattle.declaration_rules.specs.PackageNames.{body_item_scope, body_items_scope, package_scope};
ghost use Rattle.mismatches.specs.Conflicts.{noted};
ghost use Rattle.mismatches.specs.BodyMismatches.{all_specified_mismatches, aspect_mismatches, attachment_mismatches, body_item_mismatches, body_items_mismatches, component_mismatches, components_mismatches, item_mismatches, items_mismatches, package_mismatches, protected_mismatches, specified_mismatches};

use crate::bodies::{body_mismatches, subprogram_mismatches};
use crate::conflict::{Search, noted_by_parts};
use crate::definitions::definition_mismatches;
use crate::expressions::mismatches_of;
use crate::locals::object_mismatches;
use crate::protected::object_body_mismatches;
use crate::statics::fixed_initial_mismatches;
use ada_tree::{
    Aspect, BodyItem, Item, Operation, Package, ProtectedComponent, ProtectedDeclaration,
};
use declaration_rules::{declare_item, is_attachment, is_priority};
use expr_rules::Wanted;
use std::alloc::{AllocError, Global};
use stmt_rules::BodyKind;
use type_rules::subtype_of;
use types::{Scope, Subtype};
use unit_rules::{inside_scope, see_body_item};

fn aspect_wanted(is_integer: bool) -> Wanted
    ensures { result ≡ aspect_wanted is_integer }
{
    if is_integer {
        Wanted::OfType(Subtype::INTEGER.type_number)
    } else {
        Wanted::Anything
    }
}

fn aspect_mismatches(scope: &Scope, aspect: Option<&Aspect>, search: &mut Search)
    ensures { search.new ≡ noted search.old (aspect_mismatches scope.now (option_map (λ a. aspect_tree a.now) aspect.entry)) }
{
    match aspect {
        Some(aspect) => {
            let wanted = aspect_wanted(is_priority(aspect));
            mismatches_of(scope, wanted, &aspect.value, search);
        }
        None => {}
    }
}

fn attachment_mismatches(scope: &Scope, aspect: Option<&Aspect>, search: &mut Search)
    ensures { search.new ≡ noted search.old (attachment_mismatches scope.now (option_map (λ a. aspect_tree a.now) aspect.entry)) }
{
    match aspect {
        Some(aspect) => {
            let wanted = aspect_wanted(is_attachment(aspect));
            mismatches_of(scope, wanted, &aspect.value, search);
        }
        None => {}
    }
}

fn specified_mismatches(scope: &Scope, operation: &Operation, search: &mut Search)
    ensures { search.new ≡ noted search.old (specified_mismatches scope.now (operation_tree operation.now)) }
{
    match operation {
        Operation::Subprogram(_, aspect) => {
            attachment_mismatches(scope, aspect.as_ref(), search)
        }
        Operation::Entry(_) => {}
    }
}

fn all_specified_mismatches(scope: &Scope, operations: &[Operation], search: &mut Search)
    ensures { search.new ≡ noted search.old (all_specified_mismatches scope.now (map operation_tree operations.now)) }
{
    noted_by_parts();
    for operation in operations {
        specified_mismatches(scope, operation, search);
    }
}

fn component_mismatches(scope: &Scope, component: &ProtectedComponent, search: &mut Search)
    ensures { search.new ≡ noted search.old (component_mismatches scope.now (protected_component_tree component.now)) }
{
    let subtype = subtype_of(scope, &component.subtype);
    fixed_initial_mismatches(scope, subtype, &component.value, search);
}

fn components_mismatches(scope: &Scope, components: &[ProtectedComponent], search: &mut Search)
    ensures { search.new ≡ noted search.old (components_mismatches scope.now (map protected_component_tree components.now)) }
{
    noted_by_parts();
    for component in components {
        component_mismatches(scope, component, search);
    }
}

fn protected_mismatches(scope: &Scope, object: &ProtectedDeclaration, search: &mut Search)
    ensures { search.new ≡ noted search.old (protected_mismatches scope.now (protected_tree object.now)) }
{
    noted_by_parts();
    aspect_mismatches(scope, object.aspect.as_ref(), search);
    all_specified_mismatches(scope, &object.operations, search);
    components_mismatches(scope, &object.components, search);
}

fn item_mismatches(scope: &Scope, item: &Item, search: &mut Search)
    ensures { search.new ≡ noted search.old (item_mismatches scope.now (item_tree item.now)) }
{
    match item {
        Item::Type(declaration) => definition_mismatches(scope, &declaration.definition, search),
        Item::Object(object) => object_mismatches(scope, true, object, search),
        Item::Task(task) => aspect_mismatches(scope, task.aspect.as_ref(), search),
        Item::Protected(object) => protected_mismatches(scope, object, search),
        _ => {}
    }
}

fn items_mismatches(
    alloc: Global,
    scope: &mut Scope,
    items: &[Item],
    search: &mut Search,
) -> Result<(), AllocError>
    ensures search { OnOk result (search.new ≡ noted search.old (items_mismatches scope.old (map item_tree items.now))) }
    ensures scope { OnOk result (scope.new ≡ items_scope scope.old (map item_tree items.now)) }
{
    noted_by_parts();
    for item in items {
        item_mismatches(scope, item, search);
        declare_item(alloc, scope, item)?;
    }
    Ok(())
}

fn body_item_mismatches(
    alloc: Global,
    scope: &mut Scope,
    item: &BodyItem,
    search: &mut Search,
) -> Result<(), AllocError>
    ensures search { OnOk result (search.new ≡ noted search.old (body_item_mismatches scope.old (body_item_tree item.now))) }
    ensures scope { OnOk result (scope.new ≡ scope.old) }
{
    match item {
        BodyItem::Item(item) => {
            item_mismatches(scope, item, search);
            Ok(())
        }
        BodyItem::Subprogram(subprogram, body) => {
            subprogram_mismatches(alloc, scope, subprogram, body, search)
        }
        BodyItem::Task(_, body) => body_mismatches(
            alloc,
            scope,
            true,
            BodyKind::Task,
            body,
            search,
        ),
        BodyItem::Protected(name, items, _) => {
            let number = scope.number_of(&name.name);
            object_body_mismatches(alloc, scope, number, items, search)
        }
    }
}

fn body_items_mismatches(
    alloc: Global,
    scope: &mut Scope,
    items: &[BodyItem],
    search: &mut Search,
) -> Result<(), AllocError>
    ensures search { OnOk result (search.new ≡ noted search.old (body_items_mismatches scope.old (map body_item_tree items.now))) }
    ensures scope { OnOk result (scope.new ≡ body_items_scope scope.old (map body_item_tree items.now)) }
{
    noted_by_parts();
    for item in items {
        body_item_mismatches(alloc, scope, item, search)?;
        see_body_item(alloc, scope, item)?;
    }
    Ok(())
}

/// Types that don't match in a package; gives the names that are visible after it. Memory is the only refusal.
pub(crate) fn package_mismatches(
    alloc: Global,
    package_: &Package,
    search: &mut Search,
) -> Result<Scope, AllocError>
    ensures search { OnOk result (search.new ≡ noted search.old (package_mismatches (package_tree package_.now))) }
    ensures scope { IfOk result (λ s. s ≡ package_scope standard (package_tree package_.now)) }
{
    noted_by_parts();
    let mut scope = inside_scope(alloc, package_)?;
    items_mismatches(alloc, &mut scope, &package_.declaration.items, search)?;
    body_items_mismatches(alloc, &mut scope, &package_.body.items, search)?;
    Ok(scope)
}
