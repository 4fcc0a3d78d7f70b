//! Bodies of protected objects (RM 9.4, 9.5.1, 9.5.2).
ghost use Rattle.std.specs.Prelude.{◌≡◌, ◌++◌, false, IfOk, OnOk, is_some, map, option_map};
ghost use Rattle.ada_tree.specs.ExpressionTree.{expr_tree};
ghost use Rattle.ada_tree.specs.StatementTree.{entry_tree, subprogram_tree};
ghost use Rattle.ada_tree.specs.ProgramTree.{body_tree, protected_item_tree};
ghost use Rattle.expr_rules.specs.Findings.{noted};
ghost use Rattle.declaration_rules.specs.BodyNames.{components_scope, formals_scope, object_body_scope};
ghost use Rattle.type_rules.specs.SubtypeNames.{named_entity};
ghost use Rattle.unit_rules.specs.BodyRules.{subprogram_body_faults};
ghost use Rattle.unit_rules.specs.ProtectedBodyRules.{components_at, entry_body_faults, entry_rule, is_entry, is_object, known_body_faults, object_items_faults, object_rule, operation_sees, outer_name_rule, outer_names_faults, protected_body_faults, protected_item_faults, protected_item_scope, protected_items_faults, protected_items_scope};

use crate::bodies::{body_faults, subprogram_body_faults};
use ada_tree::{Body, EntryDeclaration, Expr, Identifier, ProtectedBodyItem, Subprogram};
use base::faults::UNMATCHED_BODY;
use declaration_rules::laws::{names_are_added, object_bodies_end};
use declaration_rules::{declare_components, declare_formals, enter_object, leave_object};
use expr_rules::laws::noted_by_parts;
use expr_rules::{Findings, Wanted, expression_faults};
use std::alloc::{AllocError, Global};
use stmt_rules::BodyKind;
use type_rules::{
    declare_subprogram, formals_faults, named_entity, note_declared_twice, note_end_name,
};
use types::{Entity, RecordComponent, Scope};

// The body of a procedure or function, which sees the components; of its names none is visible after it, its own neither.
fn operation_body_faults(
    alloc: Global,
    scope: &mut Scope,
    components: &[RecordComponent],
    subprogram: &Subprogram,
    body: &Body,
    found: &mut Findings,
) -> Result<(), AllocError>
    ensures found { OnOk result (found.new ≡ noted found.old (subprogram_body_faults
        (operation_sees scope.old components.now (subprogram_tree subprogram.now)) (subprogram_tree subprogram.now) (body_tree body.now))) }
    ensures scope { OnOk result (scope.new ≡ scope.old) }
{
    names_are_added();
    let len = scope.len();
    declare_components(scope, subprogram.result.is_some(), components)?;
    subprogram_body_faults(alloc, scope, subprogram, body, found)?;
    scope.truncate(len);
    Ok(())
}

fn is_entry(scope: &Scope, name: &Identifier) -> bool
    ensures { result ≡ is_entry (named_entity scope.now name.now) }
{
    match named_entity(scope, name) {
        Some(Entity::Entry(_)) => true,
        _ => false,
    }
}

fn entry_rule(scope: &Scope, name: &Identifier, found: &mut Findings)
    ensures { found.new ≡ noted found.old (entry_rule scope.now name.now) }
{
    found.note_rule(UNMATCHED_BODY, name.place, !is_entry(scope, name));
}

// The body of an entry in a scope that has the components. Its formals stay visible.
fn entry_inside_faults(
    alloc: Global,
    scope: &mut Scope,
    entry: &EntryDeclaration,
    barrier: &Expr,
    body: &Body,
    found: &mut Findings,
) -> Result<(), AllocError>
    ensures found { OnOk result (found.new ≡ noted found.old (entry_body_faults scope.old (entry_tree entry.now) (expr_tree barrier.now)
        (body_tree body.now))) }
    ensures scope { OnOk result (scope.new ≡ formals_scope scope.old (entry_tree entry.now).formals) }
{
    noted_by_parts();
    entry_rule(scope, &entry.name, found);
    formals_faults(alloc, scope, &entry.formals, found)?;
    declare_formals(scope, &entry.formals)?;
    expression_faults(scope, Wanted::BOOLEAN, barrier, found);
    body_faults(alloc, scope, BodyKind::Entry, body, found)?;
    note_end_name(&entry.name, &body.end_name, found);
    Ok(())
}

fn entry_body_faults(
    alloc: Global,
    scope: &mut Scope,
    components: &[RecordComponent],
    entry: &EntryDeclaration,
    barrier: &Expr,
    body: &Body,
    found: &mut Findings,
) -> Result<(), AllocError>
    ensures found { OnOk result (found.new ≡ noted found.old (entry_body_faults (components_scope scope.old false components.now) (entry_tree entry.now)
        (expr_tree barrier.now) (body_tree body.now))) }
    ensures scope { OnOk result (scope.new ≡ scope.old) }
{
    names_are_added();
    let len = scope.len();
    declare_components(scope, false, components)?;
    entry_inside_faults(alloc, scope, entry, barrier, body, found)?;
    scope.truncate(len);
    Ok(())
}

fn protected_item_faults(
    alloc: Global,
    scope: &mut Scope,
    components: &[RecordComponent],
    item: &ProtectedBodyItem,
    found: &mut Findings,
) -> Result<(), AllocError>
    ensures found { OnOk result (found.new ≡ noted found.old (protected_item_faults scope.old components.now (protected_item_tree item.now))) }
    ensures scope { OnOk result (scope.new ≡ protected_item_scope scope.old (protected_item_tree item.now)) }
{
    match item {
        ProtectedBodyItem::Subprogram(subprogram, body) => {
            operation_body_faults(alloc, scope, components, subprogram, body, found)?;
            declare_subprogram(alloc, scope, subprogram)
        }
        ProtectedBodyItem::Entry(entry, barrier, body) => {
            entry_body_faults(alloc, scope, components, entry, barrier, body, found)
        }
    }
}

fn protected_items_faults(
    alloc: Global,
    scope: &mut Scope,
    components: &[RecordComponent],
    items: &[ProtectedBodyItem],
    found: &mut Findings,
) -> Result<(), AllocError>
    ensures found { OnOk result (found.new ≡ noted found.old (protected_items_faults scope.old components.now (map protected_item_tree items.now))) }
    ensures scope { OnOk result (scope.new ≡ protected_items_scope scope.old (map protected_item_tree items.now)) }
{
    noted_by_parts();
    for item in items {
        protected_item_faults(alloc, scope, components, item, found)?;
    }
    Ok(())
}

fn outer_name_rule(scope: &Scope, item: &ProtectedBodyItem, found: &mut Findings)
    ensures { found.new ≡ noted found.old (outer_name_rule scope.now (protected_item_tree item.now)) }
{
    match item {
        ProtectedBodyItem::Subprogram(subprogram, _) => {
            note_declared_twice(scope, &subprogram.name, found)
        }
        ProtectedBodyItem::Entry(_, _, _) => {}
    }
}

// The names of procedures and functions in the body of an object; the scope is that before the body.
fn outer_names_faults(scope: &Scope, items: &[ProtectedBodyItem], found: &mut Findings)
    ensures { found.new ≡ noted found.old (outer_names_faults scope.now (map protected_item_tree items.now)) }
{
    noted_by_parts();
    for item in items {
        outer_name_rule(scope, item, found);
    }
}

// The items in the body of the protected object with this number and these components.
fn object_body_faults(
    alloc: Global,
    scope: &mut Scope,
    number: usize,
    components: &[RecordComponent],
    items: &[ProtectedBodyItem],
    found: &mut Findings,
) -> Result<(), AllocError>
    ensures found { OnOk result (found.new ≡ noted found.old (protected_items_faults (object_body_scope scope.old number) components.now
        (map protected_item_tree items.now))) }
    ensures scope { OnOk result (scope.new ≡ scope.old) }
{
    names_are_added();
    object_bodies_end();
    let len = scope.len();
    let operations = enter_object(alloc, scope, number)?;
    protected_items_faults(alloc, scope, components, items, found)?;
    leave_object(scope, number, len, operations);
    Ok(())
}

fn components_copy(
    alloc: Global,
    components: &[RecordComponent],
) -> Result<Vec<RecordComponent>, AllocError>
    ensures { IfOk result (λ v. v.items ≡ components.now) }
{
    let mut copy = Vec::new(alloc);
    for component in components {
        copy.push(RecordComponent {
            name: component.name.clone()?,
            subtype: component.subtype,
        })?;
    }
    Ok(copy)
}

// A copy of the components of the protected object with this number, if it is one.
fn components_at(
    alloc: Global,
    scope: &Scope,
    number: usize,
) -> Result<Option<Vec<RecordComponent>>, AllocError>
    ensures { IfOk result (λ o. option_map (λ v. v.items) o ≡ components_at scope.now number) }
{
    match scope.protected(number) {
        Some(object) => Ok(Some(components_copy(alloc, &object.components)?)),
        None => Ok(None),
    }
}

fn object_items_faults(
    alloc: Global,
    scope: &mut Scope,
    number: usize,
    items: &[ProtectedBodyItem],
    found: &mut Findings,
) -> Result<(), AllocError>
    ensures found { OnOk result (found.new ≡ noted found.old (object_items_faults scope.old number (components_at scope.old number)
        (map protected_item_tree items.now))) }
    ensures scope { OnOk result (scope.new ≡ scope.old) }
{
    noted_by_parts();
    match components_at(alloc, scope, number)? {
        Some(components) => {
            outer_names_faults(scope, items, found);
            object_body_faults(alloc, scope, number, &components, items, found)
        }
        None => Ok(()),
    }
}

fn known_body_faults(
    alloc: Global,
    scope: &mut Scope,
    number: Option<usize>,
    items: &[ProtectedBodyItem],
    found: &mut Findings,
) -> Result<(), AllocError>
    ensures found { OnOk result (found.new ≡ noted found.old (known_body_faults scope.old number (map protected_item_tree items.now))) }
    ensures scope { OnOk result (scope.new ≡ scope.old) }
{
    match number {
        Some(number) => object_items_faults(alloc, scope, number, items, found),
        None => Ok(()),
    }
}

fn is_object(scope: &Scope, name: &Identifier) -> bool
    ensures { result ≡ is_object (named_entity scope.now name.now) }
{
    match named_entity(scope, name) {
        Some(Entity::Protected(_)) => true,
        Some(Entity::Doubtful) => true,
        _ => false,
    }
}

fn object_rule(scope: &Scope, name: &Identifier, found: &mut Findings)
    ensures { found.new ≡ noted found.old (object_rule scope.now name.now) }
{
    found.note_rule(UNMATCHED_BODY, name.place, !is_object(scope, name));
}

/// The broken rules of the body of the protected object of this name, with the name after its `end`. The scope stays as it was. Memory is the only refusal, and
/// may leave some of its names visible, and the object without its operations.
pub fn protected_body_faults(
    alloc: Global,
    scope: &mut Scope,
    name: &Identifier,
    items: &[ProtectedBodyItem],
    end_name: &Identifier,
    found: &mut Findings,
) -> Result<(), AllocError>
    ensures found { OnOk result (found.new ≡ noted found.old (protected_body_faults scope.old name.now (map protected_item_tree items.now) end_name.now)) }
    ensures scope { OnOk result (scope.new ≡ scope.old) }
{
    noted_by_parts();
    object_rule(scope, name, found);
    let number = scope.number_of(&name.name);
    known_body_faults(alloc, scope, number, items, found)?;
    note_end_name(name, end_name, found);
    Ok(())
}
