//! Objects and their initial values (RM 3.3.1).
ghost use Rattle.std.specs.Prelude.{◌≡◌, ◌++◌, OnErr, OnOk};
ghost use Rattle.ada_tree.specs.StatementTree.{object_tree};
ghost use Rattle.types.specs.Entities.{entity_value};
ghost use Rattle.expr_rules.specs.Findings.{noted};
ghost use Rattle.type_rules.specs.SubtypeNames.{subtype_of};
ghost use Rattle.type_rules.specs.ObjectRules.{constant_entity, fixed_initial_faults, fixed_object_faults, initial_scalar, package_object_entity, package_object_scope, local_initial_faults, local_object_faults, local_object_scope, object_entity, role_of};

use crate::initial::{fixed_faults, fixed_scalar};
use crate::names::{declare, note_declared_twice, subtype_faults, subtype_of, wanted_by};
use ada_tree::ObjectDeclaration;
use base::faults::NOT_STATIC;
use expr_rules::laws::noted_by_parts;
use expr_rules::{Findings, expression_faults};
use std::alloc::AllocError;
use types::{Entity, Role, Scope, Subtype, Value};

fn role_of(constant: bool) -> Role
    ensures { result ≡ role_of constant }
{
    if constant {
        Role::Constant
    } else {
        Role::Variable
    }
}

/// An object of this subtype, where that is known.
pub fn object_entity(role: Role, subtype: Option<Subtype>) -> Entity
    ensures { entity_value result ≡ object_entity role subtype }
{
    match subtype {
        Some(subtype) => Entity::Object(role, subtype),
        None => Entity::Doubtful,
    }
}

fn local_initial_faults(scope: &Scope, object: &ObjectDeclaration, found: &mut Findings)
    ensures { found.new ≡ noted found.old (local_initial_faults scope.now (object_tree object.now)) }
{
    match &object.value {
        Some(e) => {
            let wanted = wanted_by(subtype_of(scope, &object.subtype));
            expression_faults(scope, wanted, e, found);
        }
        None => found.note_rule(NOT_STATIC, object.name.place, object.constant),
    }
}

/// The broken rules of an object of a subprogram, an entry or a block.
pub fn local_object_faults(scope: &Scope, object: &ObjectDeclaration, found: &mut Findings)
    ensures { found.new ≡ noted found.old (local_object_faults scope.now (object_tree object.now)) }
{
    noted_by_parts();
    subtype_faults(scope, &object.subtype, found);
    local_initial_faults(scope, object, found);
    note_declared_twice(scope, &object.name, found);
}

/// Makes an object of a body or block visible. Memory is the only refusal, and leaves the scope as it was.
pub fn declare_local_object(scope: &mut Scope, object: &ObjectDeclaration) -> Result<(), AllocError>
    ensures ok { OnOk result (scope.new ≡ local_object_scope scope.old (object_tree object.now)) }
    ensures err { OnErr result (scope.new ≡ scope.old) }
{
    let subtype = subtype_of(scope, &object.subtype);
    let entity = object_entity(role_of(object.constant), subtype);
    declare(scope, &object.name, entity)
}

fn fixed_initial_faults(scope: &Scope, object: &ObjectDeclaration, found: &mut Findings)
    ensures { found.new ≡ noted found.old (fixed_initial_faults scope.now (object_tree object.now)) }
{
    match &object.value {
        Some(e) => fixed_faults(scope, subtype_of(scope, &object.subtype), e, found),
        None => found.note_rule(NOT_STATIC, object.name.place, object.constant),
    }
}

/// The broken rules of an object of the package or of a task body, whose initial value is static.
pub fn fixed_object_faults(scope: &Scope, object: &ObjectDeclaration, found: &mut Findings)
    ensures { found.new ≡ noted found.old (fixed_object_faults scope.now (object_tree object.now)) }
{
    noted_by_parts();
    subtype_faults(scope, &object.subtype, found);
    fixed_initial_faults(scope, object, found);
    note_declared_twice(scope, &object.name, found);
}

fn constant_entity(subtype: Option<Subtype>, value: Option<Value>) -> Entity
    ensures { entity_value result ≡ constant_entity subtype value }
{
    match (subtype, value) {
        (Some(subtype), Some(value)) => Entity::Constant(subtype, Some(value)),
        _ => Entity::Doubtful,
    }
}

fn initial_scalar(scope: &Scope, object: &ObjectDeclaration) -> Option<Value>
    ensures { result ≡ initial_scalar scope.now (subtype_of scope.now (object_tree object.now).subtype) (object_tree object.now).value }
{
    match &object.value {
        Some(e) => fixed_scalar(scope, subtype_of(scope, &object.subtype), e),
        None => None,
    }
}

fn package_object_entity(scope: &Scope, object: &ObjectDeclaration) -> Entity
    ensures { entity_value result ≡ package_object_entity scope.now (object_tree object.now) }
{
    let subtype = subtype_of(scope, &object.subtype);
    if object.constant {
        constant_entity(subtype, initial_scalar(scope, object))
    } else {
        object_entity(Role::Variable, subtype)
    }
}

/// Makes an object of the package visible, a constant with its value. Memory is the only refusal, and leaves the scope as it was.
pub fn declare_package_object(
    scope: &mut Scope,
    object: &ObjectDeclaration,
) -> Result<(), AllocError>
    ensures ok { OnOk result (scope.new ≡ package_object_scope scope.old (object_tree object.now)) }
    ensures err { OnErr result (scope.new ≡ scope.old) }
{
    let entity = package_object_entity(scope, object);
    declare(scope, &object.name, entity)
}
