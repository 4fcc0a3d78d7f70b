//! The numbers of the bodies of protected objects' operations and entries, by the objects and the names (RM 9.4).
ghost use Rattle.std.specs.Prelude.{◌≡◌, ◌+◌, ◌++◌, ◌∷◌, [], length, map, IfErr, IfOk, OnOk};
ghost use Rattle.ada_tree.specs.StatementTree.{optional_tree};
ghost use Rattle.ada_tree.specs.ProgramTree.{body_item_tree, package_tree, protected_item_tree};
ghost use Rattle.expr_soundness.specs.meaning.specs.Programs.{package_bodies};
ghost use Rattle.package_code.specs.Bodies.{bodies_among, object_number, own_name};
ghost use Rattle.package_code.specs.Directory.{HasManyBodies, HasNoNumbers, entries_among, entries_in, entries_of, operation_told};

use ada_tree::{BodyItem, Identifier, Package, ProtectedBodyItem};
use expr_code::{ImageLimit, Refusal};
use lexer::Text;
use std::alloc::Global;
use type_rules::named_entity;
use types::{Entity, Scope};

/// The number of the body of an operation or entry: of the protected object with this number, the one of this name.
#[derive(Drop)]
pub struct OperationNumber {
    pub object: usize,
    pub name: Text,
    pub number: u16,
}

/// The number of the protected object of this name.
pub(crate) fn object_number(scope: &Scope, name: &Identifier) -> usize
    ensures { result ≡ object_number scope.now name.now }
{
    match named_entity(scope, name) {
        Some(Entity::Protected(object)) => object.number,
        _ => 0,
    }
}

// The name of an operation or entry.
fn operation_name(item: &ProtectedBodyItem) -> &Text
    ensures { result.now ≡ own_name (protected_item_tree item.now) }
{
    match item {
        ProtectedBodyItem::Subprogram(subprogram, _) => &subprogram.name.name,
        ProtectedBodyItem::Entry(entry, _, _) => &entry.name.name,
    }
}

// Goes on behind the bodies of an object, where this is the number of the first of them.
fn number_operations_of(
    operations: &mut Vec<OperationNumber>,
    object: usize,
    first: u16,
    items: &[ProtectedBodyItem],
) -> Result<u16, Refusal>
    ensures operations { OnOk result (operations.new.items ≡ operations.old.items ++ entries_of object first (map protected_item_tree items.now)) }
    ensures next { IfOk result (λ number. number ≡ first + length items.now) }
    ensures refused { IfErr result (λ why. HasNoNumbers (first + length items.now) why) }
{
    let mut next = first;
    for item in items {
        operations.push(OperationNumber {
            object,
            name: operation_name(item).clone()?,
            number: next,
        })?;
        next = next
            .checked_add(1)
            .ok_or(Refusal::Limit(ImageLimit::Subprograms))?;
    }
    Ok(next)
}

// Goes on behind an item of a package's body, where this is the number of the next body.
fn number_operations_in(
    scope: &Scope,
    operations: &mut Vec<OperationNumber>,
    next: u16,
    item: &BodyItem,
) -> Result<u16, Refusal>
    ensures operations { OnOk result (operations.new.items ≡ operations.old.items ++ entries_in scope.now next (body_item_tree item.now)) }
    ensures next { IfOk result (λ number. number ≡ next + bodies_among (body_item_tree item.now ∷ [])) }
    ensures refused { IfErr result (λ why. HasNoNumbers (next + bodies_among (body_item_tree item.now ∷ [])) why) }
{
    match item {
        BodyItem::Item(_) => Ok(next),
        BodyItem::Subprogram(_, _) => next
            .checked_add(1)
            .ok_or(Refusal::Limit(ImageLimit::Subprograms)),
        BodyItem::Task(_, _) => next
            .checked_add(1)
            .ok_or(Refusal::Limit(ImageLimit::Subprograms)),
        BodyItem::Protected(name, items, _) => {
            number_operations_of(operations, object_number(scope, name), next, items)
        }
    }
}

// Numbers the operations of the bodies among some items.
fn number_operations_among(
    alloc: Global,
    scope: &Scope,
    items: &[BodyItem],
) -> Result<Vec<OperationNumber>, Refusal>
    ensures numbered { IfOk result (λ operations. operations.items ≡ entries_among scope.now 0 (map body_item_tree items.now)) }
    ensures refused { IfErr result (λ why. HasManyBodies (map body_item_tree items.now) why) }
{
    let mut operations = Vec::new(alloc);
    let mut next = 0;
    for item in items {
        next = number_operations_in(scope, &mut operations, next, item)?;
    }
    Ok(operations)
}

/// The numbers of the bodies of operations and entries: that of a body is how many others are before it.
///
/// # Errors
/// Where memory was refused, or there are more bodies than numbers.
pub(crate) fn number_operations(
    alloc: Global,
    scope: &Scope,
    package_: &Option<Package>,
) -> Result<Vec<OperationNumber>, Refusal>
    ensures numbered { IfOk result (λ operations. operations.items ≡ entries_among scope.now 0 (package_bodies (optional_tree package_tree package_.now))) }
    ensures refused { IfErr result (λ why. HasManyBodies (package_bodies (optional_tree package_tree package_.now)) why) }
{
    match package_ {
        None => number_operations_among(alloc, scope, &[]),
        Some(package_) => number_operations_among(alloc, scope, &package_.body.items),
    }
}

/// The number of the body of this object's operation or entry with this name.
pub(crate) fn operation_number(
    operations: &[OperationNumber],
    object: usize,
    name: &Text,
) -> Option<u16>
    ensures { result ≡ operation_told operations.now object name.now }
{
    for operation in operations {
        if operation.object == object && operation.name == *name {
            return Some(operation.number);
        }
    }
    None
}
