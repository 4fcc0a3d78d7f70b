//! Protected objects (RM 9.4, 9.5.2, D.3).
ghost use Rattle.std.specs.Prelude.{◌≡◌, ◌++◌, ◌||◌, List, [], IfOk, OnErr, OnOk, bytes_eq, map, option_map};
ghost use Rattle.std.specs.List.{list_any};
ghost use Rattle.ada_tree.specs.StatementTree.{OperationTree, operation_tree, protected_component_tree, protected_tree};
ghost use Rattle.types.specs.Entities.{entity_value, operation_value, profile_value};
ghost use Rattle.types.specs.Scopes.{is_visible};
ghost use Rattle.types.specs.Seen.{AreNames, is_seen};
ghost use Rattle.expr_rules.specs.Findings.{noted};
ghost use Rattle.declaration_rules.specs.ProtectedRules.{component_initial_faults, default_ceiling, has_handler, is_entry, is_handler, like_operation_faults, like_part_faults, object_components, object_operations, object_with, operation_bytes, operation_name, operation_profile, operation_profile_faults, operations_faults, parts_faults, protected_entity, protected_faults, protected_scope};

use crate::tasks::{aspect_faults, is_attachment, operation_aspect_faults, priority_of};
use ada_tree::{
    Identifier, Operation as OperationDeclaration, ProtectedComponent, ProtectedDeclaration,
};
use base::faults::DECLARED_TWICE;
use base::limits::{CEILING, TASK_PRIORITY};
use expr_rules::Findings;
use expr_rules::laws::noted_by_parts;
use std::alloc::{AllocError, Global};
use type_rules::{
    declare, fixed_faults, formal_parameters, formals_faults, note_declared_twice, note_end_name,
    profile_faults, profile_with, subtype_faults, subtype_of,
};
use types::{
    Entity, Operation, Operations, Profile, ProtectedObject, RecordComponent, Scope, SeenNames,
};

/// Whether an operation is to be the handler of an interrupt (RM C.3.1).
pub fn is_handler(operation: &OperationDeclaration) -> bool
    ensures { result ≡ is_handler (operation_tree operation.now) }
{
    match operation {
        OperationDeclaration::Subprogram(_, Some(aspect)) => is_attachment(aspect),
        _ => false,
    }
}

fn any_handler(operations: &[OperationDeclaration]) -> bool
    ensures { result ≡ list_any (λ o. is_handler (operation_tree o)) operations.now }
{
    operations.iter().any(is_handler)
}

/// Whether one of them is.
pub fn has_handler(operations: &[OperationDeclaration]) -> bool
    ensures { result ≡ has_handler (map operation_tree operations.now) }
{
    any_handler(operations)
}

// The ceiling of a protected object without an aspect (RM D.3), the highest where it has a handler (RM C.3.1).
fn default_ceiling(operations: &[OperationDeclaration]) -> u8
    ensures { result ≡ default_ceiling (map operation_tree operations.now) }
{
    if has_handler(operations) {
        CEILING
    } else {
        TASK_PRIORITY
    }
}

/// The name of an operation or entry.
pub fn operation_name(operation: &OperationDeclaration) -> &Identifier
    ensures { result.now ≡ operation_name (operation_tree operation.now) }
{
    match operation {
        OperationDeclaration::Subprogram(subprogram, _) => &subprogram.name,
        OperationDeclaration::Entry(entry) => &entry.name,
    }
}

fn operation_profile_faults(
    alloc: Global,
    scope: &Scope,
    operation: &OperationDeclaration,
    found: &mut Findings,
) -> Result<(), AllocError>
    ensures { OnOk result (found.new ≡ noted found.old (operation_profile_faults scope.now (operation_tree operation.now))) }
{
    noted_by_parts();
    match operation {
        OperationDeclaration::Subprogram(subprogram, aspect) => {
            profile_faults(alloc, scope, subprogram, found)?;
            operation_aspect_faults(scope, aspect.as_ref(), found);
            Ok(())
        }
        OperationDeclaration::Entry(entry) => formals_faults(alloc, scope, &entry.formals, found),
    }
}

// Whether a name is like a visible one or the object's own.
fn is_taken(scope: &Scope, own: &Identifier, name: &Identifier) -> bool
    ensures { result ≡ (is_visible scope.now name.now.name || bytes_eq own.now.name name.now.name) }
{
    scope.number_of(&name.name).is_some() || own.name.as_bytes() == name.name.as_bytes()
}

// An operation, of which this says whether one before it has its name.
fn operation_faults(
    alloc: Global,
    scope: &Scope,
    own: &Identifier,
    is_second: bool,
    operation: &OperationDeclaration,
    found: &mut Findings,
) -> Result<(), AllocError>
    ensures { OnOk result (found.new ≡ noted found.old (like_operation_faults scope.now own.now is_second (operation_tree operation.now))) }
{
    noted_by_parts();
    let name = operation_name(operation);
    let is_like = is_taken(scope, own, name) || is_second;
    found.note_rule(DECLARED_TWICE, name.place, is_like);
    operation_profile_faults(alloc, scope, operation, found)
}

// The operations, whose names are added to those that were seen: none.
fn operations_faults(
    alloc: Global,
    scope: &Scope,
    own: &Identifier,
    names: &mut SeenNames,
    operations: &[OperationDeclaration],
    found: &mut Findings,
) -> Result<(), AllocError>
    requires { names.old ≡ [] }
    ensures found { OnOk result (found.new ≡ noted found.old (operations_faults scope.now own.now [] (map operation_tree operations.now))) }
    ensures names { OnOk result (AreNames operation_bytes (map operation_tree operations.now) names.new) }
{
    for operation in operations {
        let is_second = names.see(&operation_name(operation).name)?;
        operation_faults(alloc, scope, own, is_second, operation, found)?;
    }
    Ok(())
}

fn component_initial_faults(scope: &Scope, component: &ProtectedComponent, found: &mut Findings)
    ensures { found.new ≡ noted found.old (component_initial_faults scope.now (protected_component_tree component.now)) }
{
    match &component.value {
        Some(e) => fixed_faults(scope, subtype_of(scope, &component.subtype), e, found),
        None => {}
    }
}

// A component behind operations of these names, of which this says whether one before it has its name.
fn part_faults(
    scope: &Scope,
    own: &Identifier,
    operations: &SeenNames,
    is_second: bool,
    component: &ProtectedComponent,
    found: &mut Findings,
)
    ensures { found.new ≡ noted found.old (like_part_faults scope.now own.now (is_seen operations.now (protected_component_tree component.now).name.name)
        is_second (protected_component_tree component.now)) }
{
    noted_by_parts();
    let name = &component.name;
    let is_like = is_taken(scope, own, name) || operations.has(&name.name) || is_second;
    found.note_rule(DECLARED_TWICE, name.place, is_like);
    subtype_faults(scope, &component.subtype, found);
    component_initial_faults(scope, component, found);
}

// The components behind operations of these names.
fn parts_faults(
    alloc: Global,
    scope: &Scope,
    own: &Identifier,
    operations: &SeenNames,
    components: &[ProtectedComponent],
    found: &mut Findings,
) -> Result<(), AllocError>
    ensures { (all : List OperationTree) → AreNames operation_bytes all operations.now → OnOk result
        (found.new ≡ noted found.old (parts_faults scope.now own.now all [] (map protected_component_tree components.now))) }
{
    let mut names = SeenNames::new(alloc);
    for component in components {
        let is_second = names.see(&component.name.name)?;
        part_faults(scope, own, operations, is_second, component, found);
    }
    Ok(())
}

/// The broken rules of the declaration of a protected object. Memory is the only refusal.
pub fn protected_faults(
    alloc: Global,
    scope: &Scope,
    object: &ProtectedDeclaration,
    found: &mut Findings,
) -> Result<(), AllocError>
    ensures { OnOk result (found.new ≡ noted found.old (protected_faults scope.now (protected_tree object.now))) }
{
    noted_by_parts();
    let own = &object.name;
    let mut names = SeenNames::new(alloc);
    aspect_faults(scope, object.aspect.as_ref(), found);
    operations_faults(alloc, scope, own, &mut names, &object.operations, found)?;
    parts_faults(alloc, scope, own, &names, &object.components, found)?;
    note_end_name(own, &object.end_name, found);
    note_declared_twice(scope, own, found);
    Ok(())
}

fn operation_profile(
    alloc: Global,
    scope: &Scope,
    operation: &OperationDeclaration,
) -> Result<Option<Profile>, AllocError>
    ensures { IfOk result (λ o. option_map (λ p. profile_value p) o ≡ operation_profile scope.now (operation_tree operation.now)) }
{
    match operation {
        OperationDeclaration::Subprogram(subprogram, _) => {
            let formals = formal_parameters(alloc, scope, &subprogram.formals)?;
            Ok(profile_with(scope, formals, subprogram.result.as_ref()))
        }
        OperationDeclaration::Entry(entry) => {
            let formals = formal_parameters(alloc, scope, &entry.formals)?;
            Ok(profile_with(scope, formals, None))
        }
    }
}

fn is_entry(operation: &OperationDeclaration) -> bool
    ensures { result ≡ is_entry (operation_tree operation.now) }
{
    match operation {
        OperationDeclaration::Subprogram(_, _) => false,
        OperationDeclaration::Entry(_) => true,
    }
}

// The operations, where the profile of each is known.
fn object_operations(
    alloc: Global,
    scope: &Scope,
    operations: &[OperationDeclaration],
) -> Result<Option<Vec<Operation>>, AllocError>
    ensures { IfOk result (λ o. option_map (λ v. map operation_value v.items) o ≡ object_operations scope.now (map operation_tree operations.now)) }
{
    let mut all = Vec::new(alloc);
    for operation in operations {
        match operation_profile(alloc, scope, operation)? {
            Some(profile) => all.push(Operation {
                name: operation_name(operation).name.clone()?,
                is_entry: is_entry(operation),
                profile,
            })?,
            None => return Ok(None),
        }
    }
    Ok(Some(all))
}

// The components, where the subtype of each is known.
fn object_components(
    alloc: Global,
    scope: &Scope,
    components: &[ProtectedComponent],
) -> Result<Option<Vec<RecordComponent>>, AllocError>
    ensures { IfOk result (λ o. option_map (λ v. v.items) o ≡ object_components scope.now (map protected_component_tree components.now)) }
{
    let mut all = Vec::new(alloc);
    for component in components {
        match subtype_of(scope, &component.subtype) {
            Some(subtype) => all.push(RecordComponent {
                name: component.name.name.clone()?,
                subtype,
            })?,
            None => return Ok(None),
        }
    }
    Ok(Some(all))
}

fn object_with(
    alloc: Global,
    number: usize,
    ceiling: u8,
    operations: Option<Vec<Operation>>,
    components: Option<Vec<RecordComponent>>,
) -> Result<Entity, AllocError>
    ensures { IfOk result (λ e. entity_value e ≡ object_with number ceiling (option_map (λ v. map operation_value v.items) operations)
        (option_map (λ v. v.items) components)) }
{
    match (operations, components) {
        (Some(operations), Some(components)) => Ok(Entity::Protected(ProtectedObject {
            number,
            ceiling,
            operations: Operations::new(alloc, operations)?,
            components,
            barrier: None,
        })),
        _ => Ok(Entity::Doubtful),
    }
}

fn protected_entity(
    alloc: Global,
    scope: &Scope,
    object: &ProtectedDeclaration,
) -> Result<Entity, AllocError>
    ensures { IfOk result (λ e. entity_value e ≡ protected_entity scope.now (protected_tree object.now)) }
{
    let operations = object_operations(alloc, scope, &object.operations)?;
    let components = object_components(alloc, scope, &object.components)?;
    let ceiling = priority_of(
        scope,
        CEILING,
        default_ceiling(&object.operations),
        object.aspect.as_ref(),
    );
    object_with(
        alloc,
        scope.protected_count(),
        ceiling,
        operations,
        components,
    )
}

/// Makes a protected object visible, with its ceiling, its operations and its components. Memory is the only refusal, and leaves the scope as it was.
pub fn declare_protected(
    alloc: Global,
    scope: &mut Scope,
    object: &ProtectedDeclaration,
) -> Result<(), AllocError>
    ensures ok { OnOk result (scope.new ≡ protected_scope scope.old (protected_tree object.now)) }
    ensures err { OnErr result (scope.new ≡ scope.old) }
{
    let entity = protected_entity(alloc, scope, object)?;
    declare(scope, &object.name, entity)
}
