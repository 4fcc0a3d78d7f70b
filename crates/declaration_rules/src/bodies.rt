//! What is visible in bodies and loops (RM 6.1, 5.5, 9.5.1): formal parameters, loop parameters, the operations and components of a protected object.
ghost use Rattle.std.specs.Prelude.{◌≡◌, ◌++◌, [], IfOk, OnErr, OnOk, map, take};
ghost use Rattle.ada_tree.specs.StatementTree.{range_tree};
ghost use Rattle.types.specs.Entities.{entity_value, operation_value, profile_value};
ghost use Rattle.types.specs.Scopes.{operations_or, protected_at, with_name, with_operations};
ghost use Rattle.expr_rules.specs.Findings.{noted};
ghost use Rattle.declaration_rules.specs.BodyNames.{bounds_type, component_role, components_scope, formal_role, formal_scope, formals_scope, if_integers, last_rule, loop_faults, loop_scope, loop_subtype, loop_type, object_body_scope, operation_entity, operations_scope, parameter_entity};

use ada_tree::{Formal, Identifier, Mode, Range};
use expr_rules::laws::noted_by_parts;
use expr_rules::{Findings, Own, Wanted, expression_faults, is_integral, note_mismatch, own_of};
use std::alloc::{AllocError, Global};
use type_rules::{declare, note_declared_twice, object_entity, subtype_of};
use types::{
    Entity, Operation, Operations, Profile, RecordComponent, Role, Scope, Subtype, bounds, start_of,
};

fn formal_role(mode: Mode) -> Role
    ensures { result ≡ formal_role mode }
{
    match mode {
        Mode::In => Role::In,
        Mode::Out => Role::Out,
        Mode::InOut => Role::InOut,
    }
}

fn declare_formal(scope: &mut Scope, formal: &Formal) -> Result<(), AllocError>
    ensures { OnOk result (scope.new ≡ formal_scope scope.old formal.now) }
{
    let subtype = subtype_of(scope, &formal.subtype);
    let entity = object_entity(formal_role(formal.mode), subtype);
    declare(scope, &formal.name, entity)
}

/// Makes the formal parameters visible before their body. Memory is the only refusal, and may leave some of them visible.
pub fn declare_formals(scope: &mut Scope, formals: &[Formal]) -> Result<(), AllocError>
    ensures { OnOk result (scope.new ≡ formals_scope scope.old formals.now) }
{
    for formal in formals {
        declare_formal(scope, formal)?;
    }
    Ok(())
}

fn bounds_type(first: Own, last: Own) -> Option<usize>
    ensures { result ≡ bounds_type first last }
{
    match (first, last) {
        (Own::Typed(number), _) => Some(number),
        (Own::Universal, Own::Typed(number)) => Some(number),
        (Own::Universal, Own::Universal) => Some(Subtype::INTEGER.type_number),
        (Own::Universal, Own::Unknown) => None,
        (Own::Unknown, Own::Typed(number)) => Some(number),
        (Own::Unknown, _) => None,
    }
}

fn if_integers(scope: &Scope, number: Option<usize>) -> Option<usize>
    ensures { result ≡ if_integers scope.now number }
{
    match number {
        Some(number) => {
            if is_integral(scope, Own::Typed(number)) {
                Some(number)
            } else {
                None
            }
        }
        None => None,
    }
}

// The type of a loop parameter with this range, if it is known and an integer type.
fn loop_type(scope: &Scope, range: &Range) -> Option<usize>
    ensures { result ≡ loop_type scope.now (range_tree range.now) }
{
    let own = bounds_type(own_of(scope, &range.first), own_of(scope, &range.last));
    if_integers(scope, own)
}

fn last_rule(scope: &Scope, number: Option<usize>, own: Own, place: u32, found: &mut Findings)
    ensures { found.new ≡ noted found.old (last_rule scope.now number own place) }
{
    match number {
        Some(number) => note_mismatch(scope, Wanted::OfType(number), own, place, found),
        None => {}
    }
}

/// The broken rules of a loop parameter and its range, which need not be static (RM 5.5).
pub fn loop_faults(scope: &Scope, parameter: &Identifier, range: &Range, found: &mut Findings)
    ensures { found.new ≡ noted found.old (loop_faults scope.now parameter.now (range_tree range.now)) }
{
    noted_by_parts();
    expression_faults(scope, Wanted::AnyInteger, &range.first, found);
    expression_faults(scope, Wanted::AnyInteger, &range.last, found);
    let own = own_of(scope, &range.last);
    last_rule(
        scope,
        loop_type(scope, range),
        own,
        start_of(&range.last),
        found,
    );
    note_declared_twice(scope, parameter, found);
}

// The subtype of a loop parameter: of the type of its range, between the numbers that its bounds may have.
fn loop_subtype(scope: &Scope, range: &Range) -> Option<Subtype>
    ensures { result ≡ loop_subtype scope.now (range_tree range.now) }
{
    match loop_type(scope, range) {
        Some(type_number) => Some(Subtype {
            type_number,
            first: bounds(scope, &range.first).0,
            last: bounds(scope, &range.last).1,
        }),
        None => None,
    }
}

fn parameter_entity(subtype: Option<Subtype>) -> Entity
    ensures { entity_value result ≡ parameter_entity subtype }
{
    match subtype {
        Some(subtype) => Entity::Object(Role::LoopParameter, subtype),
        None => Entity::Doubtful,
    }
}

/// Makes a loop parameter visible in its loop. Memory is the only refusal, and leaves the scope as it was.
pub fn declare_loop_parameter(
    scope: &mut Scope,
    parameter: &Identifier,
    range: &Range,
) -> Result<(), AllocError>
    ensures ok { OnOk result (scope.new ≡ loop_scope scope.old parameter.now (range_tree range.now)) }
    ensures err { OnErr result (scope.new ≡ scope.old) }
{
    let entity = parameter_entity(loop_subtype(scope, range));
    declare(scope, parameter, entity)
}

fn profile_copy(alloc: Global, profile: &Profile) -> Result<Profile, AllocError>
    ensures { IfOk result (λ p. profile_value p ≡ profile_value profile.now) }
{
    let mut formals = Vec::new(alloc);
    formals.extend_from_slice(&profile.formals)?;
    Ok(Profile {
        formals,
        result: profile.result,
    })
}

fn operation_entity(alloc: Global, operation: &Operation) -> Result<Entity, AllocError>
    ensures { IfOk result (λ e. entity_value e ≡ operation_entity (operation_value operation.now)) }
{
    let profile = profile_copy(alloc, &operation.profile)?;
    if operation.is_entry {
        Ok(Entity::Entry(profile))
    } else {
        Ok(Entity::Subprogram(profile))
    }
}

fn declare_operation(
    alloc: Global,
    scope: &mut Scope,
    operation: &Operation,
) -> Result<(), AllocError>
    ensures { OnOk result (scope.new ≡ with_name scope.old (operation_value operation.now).name (operation_entity (operation_value operation.now))) }
{
    let entity = operation_entity(alloc, operation)?;
    scope.add(operation.name.clone()?, entity)
}

fn declare_operations(
    alloc: Global,
    scope: &mut Scope,
    operations: &[Operation],
) -> Result<(), AllocError>
    ensures { OnOk result (scope.new ≡ operations_scope scope.old (map operation_value operations.now)) }
{
    for operation in operations {
        declare_operation(alloc, scope, operation)?;
    }
    Ok(())
}

/// Begins the body of the protected object with this number: its operations are visible by their names, and none after the object's own name and a
/// point. Gives the operations, with which `leave_object` ends the body. Memory is the only refusal, and may leave some of this done.
pub fn enter_object(
    alloc: Global,
    scope: &mut Scope,
    number: usize,
) -> Result<Operations, AllocError>
    ensures scope { OnOk result (scope.new ≡ object_body_scope scope.old number) }
    ensures operations { IfOk result (λ v. map operation_value v ≡ operations_or (protected_at scope.old number) []) }
{
    let none = Operations::new(alloc, Vec::new(alloc))?;
    let operations = scope.replace_operations(number, none);
    declare_operations(alloc, scope, operations.as_slice())?;
    Ok(operations)
}

/// Ends the body of the protected object with this number: of the visible names the first `len` stay, and the object has its operations back.
pub fn leave_object(scope: &mut Scope, number: usize, len: usize, operations: Operations)
    ensures { scope.new ≡ with_operations (take len scope.old) number (map operation_value operations) }
{
    scope.truncate(len);
    scope.replace_operations(number, operations);
}

fn component_role(is_function: bool) -> Role
    ensures { result ≡ component_role is_function }
{
    if is_function {
        Role::ReadOnlyComponent
    } else {
        Role::Component
    }
}

/// Makes the components of a protected object visible before the body of one of its operations; in that of a function they are constants. Memory is the
/// only refusal, and may leave some of them visible.
pub fn declare_components(
    scope: &mut Scope,
    is_function: bool,
    components: &[RecordComponent],
) -> Result<(), AllocError>
    ensures { OnOk result (scope.new ≡ components_scope scope.old is_function components.now) }
{
    for component in components {
        let entity = Entity::Object(component_role(is_function), component.subtype);
        scope.add(component.name.clone()?, entity)?;
    }
    Ok(())
}
