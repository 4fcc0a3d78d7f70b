//! Types that don't match in bodies of protected objects (RM 9.4, 9.5.1, 9.5.2).
ghost use Rattle.std.specs.Prelude.{◌≡◌, false, IfOk, OnOk, is_some, map, option_map};
ghost use Rattle.ada_tree.specs.ExpressionTree.{expr_tree};
ghost use Rattle.ada_tree.specs.StatementTree.{entry_tree, subprogram_tree};
ghost use Rattle.ada_tree.specs.ProgramTree.{body_tree, protected_item_tree};
ghost use Rattle.declaration_rules.specs.BodyNames.{components_scope, formals_scope, object_body_scope};
ghost use Rattle.unit_rules.specs.ProtectedBodyRules.{components_at, operation_sees, protected_item_scope, protected_items_scope};
ghost use Rattle.mismatches.specs.Conflicts.{noted};
ghost use Rattle.mismatches.specs.BodyMismatches.{entry_mismatches, known_mismatches, object_body_mismatches, operation_mismatches, operations_mismatches, subprogram_mismatches};

use crate::bodies::{body_mismatches, subprogram_mismatches};
use crate::conflict::{Search, noted_by_parts};
use crate::simple::condition_mismatches;
use ada_tree::{Body, EntryDeclaration, Expr, ProtectedBodyItem, Subprogram};
use declaration_rules::laws::{names_are_added, object_bodies_end};
use declaration_rules::{declare_components, declare_formals, enter_object, leave_object};
use std::alloc::{AllocError, Global};
use stmt_rules::BodyKind;
use type_rules::declare_subprogram;
use types::{RecordComponent, Scope};

// The body of a procedure or function, which sees the components.
fn procedure_mismatches(
    alloc: Global,
    scope: &mut Scope,
    components: &[RecordComponent],
    subprogram: &Subprogram,
    body: &Body,
    search: &mut Search,
) -> Result<(), AllocError>
    ensures search { OnOk result (search.new ≡ noted search.old (subprogram_mismatches
        (operation_sees scope.old components.now (subprogram_tree subprogram.now)) (subprogram_tree subprogram.now) (body_tree body.now))) }
    ensures scope { OnOk result (scope.new ≡ scope.old) }
{
    names_are_added();
    let len = scope.len();
    declare_components(scope, subprogram.result.is_some(), components)?;
    subprogram_mismatches(alloc, scope, subprogram, body, search)?;
    scope.truncate(len);
    Ok(())
}

// The barrier and the body of an entry in a scope that has the components. Its formals stay visible.
fn entry_inside(
    alloc: Global,
    scope: &mut Scope,
    entry: &EntryDeclaration,
    barrier: &Expr,
    body: &Body,
    search: &mut Search,
) -> Result<(), AllocError>
    ensures search { OnOk result (search.new ≡ noted search.old (entry_mismatches scope.old (entry_tree entry.now) (expr_tree barrier.now)
        (body_tree body.now))) }
    ensures scope { OnOk result (scope.new ≡ formals_scope scope.old (entry_tree entry.now).formals) }
{
    noted_by_parts();
    declare_formals(scope, &entry.formals)?;
    condition_mismatches(scope, barrier, search);
    body_mismatches(alloc, scope, false, BodyKind::Entry, body, search)
}

fn entry_mismatches(
    alloc: Global,
    scope: &mut Scope,
    components: &[RecordComponent],
    entry: &EntryDeclaration,
    barrier: &Expr,
    body: &Body,
    search: &mut Search,
) -> Result<(), AllocError>
    ensures search { OnOk result (search.new ≡ noted search.old (entry_mismatches (components_scope scope.old false components.now)
        (entry_tree entry.now) (expr_tree barrier.now) (body_tree body.now))) }
    ensures scope { OnOk result (scope.new ≡ scope.old) }
{
    names_are_added();
    let len = scope.len();
    declare_components(scope, false, components)?;
    entry_inside(alloc, scope, entry, barrier, body, search)?;
    scope.truncate(len);
    Ok(())
}

fn operation_mismatches(
    alloc: Global,
    scope: &mut Scope,
    components: &[RecordComponent],
    item: &ProtectedBodyItem,
    search: &mut Search,
) -> Result<(), AllocError>
    ensures search { OnOk result (search.new ≡ noted search.old (operation_mismatches scope.old components.now (protected_item_tree item.now))) }
    ensures scope { OnOk result (scope.new ≡ protected_item_scope scope.old (protected_item_tree item.now)) }
{
    match item {
        ProtectedBodyItem::Subprogram(subprogram, body) => {
            procedure_mismatches(alloc, scope, components, subprogram, body, search)?;
            declare_subprogram(alloc, scope, subprogram)
        }
        ProtectedBodyItem::Entry(entry, barrier, body) => {
            entry_mismatches(alloc, scope, components, entry, barrier, body, search)
        }
    }
}

fn operations_mismatches(
    alloc: Global,
    scope: &mut Scope,
    components: &[RecordComponent],
    items: &[ProtectedBodyItem],
    search: &mut Search,
) -> Result<(), AllocError>
    ensures search { OnOk result (search.new ≡ noted search.old (operations_mismatches scope.old components.now (map protected_item_tree items.now))) }
    ensures scope { OnOk result (scope.new ≡ protected_items_scope scope.old (map protected_item_tree items.now)) }
{
    noted_by_parts();
    for item in items {
        operation_mismatches(alloc, scope, components, item, search)?;
    }
    Ok(())
}

// The operations in the body of the protected object with this number and these components.
fn inside_object(
    alloc: Global,
    scope: &mut Scope,
    number: usize,
    components: &[RecordComponent],
    items: &[ProtectedBodyItem],
    search: &mut Search,
) -> Result<(), AllocError>
    ensures search { OnOk result (search.new ≡ noted search.old (operations_mismatches (object_body_scope scope.old number) components.now
        (map protected_item_tree items.now))) }
    ensures scope { OnOk result (scope.new ≡ scope.old) }
{
    names_are_added();
    object_bodies_end();
    let len = scope.len();
    let operations = enter_object(alloc, scope, number)?;
    operations_mismatches(alloc, scope, components, items, search)?;
    leave_object(scope, number, len, operations);
    Ok(())
}

fn components_copy(
    alloc: Global,
    components: &[RecordComponent],
) -> Result<Vec<RecordComponent>, AllocError>
    ensures { IfOk result (λ v. v.items ≡ components.now) }
{
    let mut copy = Vec::new(alloc);
    for component in components {
        copy.push(RecordComponent {
            name: component.name.clone()?,
            subtype: component.subtype,
        })?;
    }
    Ok(copy)
}

// A copy of the components of the protected object with this number, if it is one.
fn components_at(
    alloc: Global,
    scope: &Scope,
    number: usize,
) -> Result<Option<Vec<RecordComponent>>, AllocError>
    ensures { IfOk result (λ o. option_map (λ v. v.items) o ≡ components_at scope.now number) }
{
    match scope.protected(number) {
        Some(object) => Ok(Some(components_copy(alloc, &object.components)?)),
        None => Ok(None),
    }
}

fn known_mismatches(
    alloc: Global,
    scope: &mut Scope,
    number: usize,
    items: &[ProtectedBodyItem],
    search: &mut Search,
) -> Result<(), AllocError>
    ensures search { OnOk result (search.new ≡ noted search.old (known_mismatches scope.old number (components_at scope.old number)
        (map protected_item_tree items.now))) }
    ensures scope { OnOk result (scope.new ≡ scope.old) }
{
    match components_at(alloc, scope, number)? {
        Some(components) => inside_object(alloc, scope, number, &components, items, search),
        None => Ok(()),
    }
}

/// The body of the protected object with this number, if it is one. The scope stays as it was. Memory is the only refusal, and may leave some of its names
/// visible, and the object without its operations.
pub(crate) fn object_body_mismatches(
    alloc: Global,
    scope: &mut Scope,
    number: Option<usize>,
    items: &[ProtectedBodyItem],
    search: &mut Search,
) -> Result<(), AllocError>
    ensures search { OnOk result (search.new ≡ noted search.old (object_body_mismatches scope.old number (map protected_item_tree items.now))) }
    ensures scope { OnOk result (scope.new ≡ scope.old) }
{
    match number {
        Some(number) => known_mismatches(alloc, scope, number, items, search),
        None => Ok(()),
    }
}
