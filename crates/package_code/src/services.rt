//! The rows of a program's protected objects: what their declarations give, what the entry of each runs, and what opens it (RM 9.5.2).
ghost use Rattle.std.specs.Prelude.{◌≡◌, ◌∷◌, [], Some, false, option_map, map, IfErr, IfOk};
ghost use Rattle.ada_tree.specs.ExpressionTree.{bare_name, expr_tree};
ghost use Rattle.ada_tree.specs.ProgramTree.{body_item_tree, program_tree, protected_item_tree};
ghost use Rattle.types.specs.Places.{is_of};
ghost use Rattle.types.specs.Statics.{static_form, static_value};
ghost use Rattle.expr_soundness.specs.meaning.specs.Programs.{object_numbered, operation_procedures, procedures_among, program_of};
ghost use Rattle.program_soundness.specs.step_soundness.specs.Fitting.{entry_of};
ghost use Rattle.expr_code.specs.Refusing.{IsRefused};
ghost use Rattle.package_code.specs.Bodies.{number_in};
ghost use Rattle.package_code.specs.Directory.{IsDirectory};
ghost use Rattle.package_code.specs.Objects.{barrier_by, barrier_row, barrier_slot, is_static_truth, object_row, object_rows, service_of};

use crate::components::component_slot;
use crate::directory::Directory;
use crate::objects::DeclaredObject;
use crate::operations::operation_number;
use ada_tree::{BodyItem, EntryDeclaration, Expr, Identifier, ProtectedBodyItem};
use expr_code::{Refusal, Slot};
use image::{Barrier, Object};
use ravenscar::Accepted;
use std::alloc::Global;
use type_rules::named_entity;
use types::{Entity, Scope, Value, static_value};

/// What is run for a call of an object's entry, and what opens it.
#[derive(Clone, Copy)]
pub struct Service {
    pub entry: Option<u16>,
    pub barrier: Barrier,
}

// Whether an expression is static, and true.
fn is_static_truth(scope: &Scope, e: &Expr) -> bool
    ensures { result ≡ is_static_truth (static_form scope.now (expr_tree e.now)) (static_value scope.now (expr_tree e.now)) }
{
    match static_value(scope, e) {
        Ok(Value::Truth(truth)) => truth,
        Ok(Value::Number(_)) => false,
        Err(_) => false,
    }
}

// Where the component of this object stands that a barrier names, if it names one.
fn barrier_slot(
    accepted: &Accepted,
    directory: &Directory,
    object: usize,
    barrier: &Expr,
) -> Option<Slot>
    requires directory { IsDirectory (program_tree accepted.now) directory.now }
    ensures { result ≡ barrier_slot (program_tree accepted.now) object (bare_name (expr_tree barrier.now)) }
{
    match barrier.bare_name() {
        Some(name) => component_slot(&directory.components, object, &name.name),
        None => None,
    }
}

// What opens an entry with this barrier: the word that it names, or else what it always is.
fn barrier_by(scope: &Scope, slot: Option<Slot>, barrier: &Expr) -> Barrier
    ensures { result ≡ barrier_by scope.now slot (expr_tree barrier.now) }
{
    match slot {
        Some(slot) => Barrier::Word(slot.offset),
        None => {
            if is_static_truth(scope, barrier) {
                Barrier::Open
            } else {
                Barrier::Closed
            }
        }
    }
}

// Of the entry of this object that has this barrier.
fn service_by(
    accepted: &Accepted,
    directory: &Directory,
    object: usize,
    entry: &EntryDeclaration,
    barrier: &Expr,
) -> Service
    requires directory { IsDirectory (program_tree accepted.now) directory.now }
    ensures { let t = program_tree accepted.now in result ≡ record {
      entry = number_in t (Some object) entry.now.name.name;
      barrier = barrier_row t
          object (Some (expr_tree barrier.now));
    } }
{
    let slot = barrier_slot(accepted, directory, object, barrier);
    Service {
        entry: operation_number(&directory.operations, object, &entry.name.name),
        barrier: barrier_by(accepted.scope(), slot, barrier),
    }
}

// Of the entry whose body stands among those of this object, if one does.
fn service_among(
    accepted: &Accepted,
    directory: &Directory,
    object: usize,
    items: &[ProtectedBodyItem],
) -> Option<Service>
    requires directory { IsDirectory (program_tree accepted.now) directory.now }
    ensures { let t = program_tree accepted.now in result ≡ option_map (λ q. service_of t object (Some q))
        (entry_of (operation_procedures (program_of t).scope (Some object) (map protected_item_tree items.now)) object) }
{
    for item in items {
        match item {
            ProtectedBodyItem::Subprogram(_, _) => {}
            ProtectedBodyItem::Entry(entry, barrier, _) => {
                return Some(service_by(accepted, directory, object, entry, barrier));
            }
        }
    }
    None
}

// Whether the name is that of the protected object with this number.
fn is_object(scope: &Scope, name: &Identifier, object: usize) -> bool
    ensures { result ≡ is_of (object_numbered scope.now name.now) (Some object) }
{
    match named_entity(scope, name) {
        Some(Entity::Protected(protected)) => protected.number == object,
        _ => false,
    }
}

// The service of an entry among the bodies of an item, if they are those of the object.
fn service_in(
    accepted: &Accepted,
    directory: &Directory,
    object: usize,
    item: &BodyItem,
) -> Option<Service>
    requires directory { IsDirectory (program_tree accepted.now) directory.now }
    ensures { let t = program_tree accepted.now in result ≡ option_map (λ q. service_of t object (Some q))
        (entry_of (procedures_among (program_of t).scope (body_item_tree item.now ∷ [])) object) }
{
    match item {
        BodyItem::Protected(name, items, _) => {
            if is_object(accepted.scope(), name, object) {
                service_among(accepted, directory, object, items)
            } else {
                None
            }
        }
        BodyItem::Item(_) => None,
        BodyItem::Subprogram(_, _) => None,
        BodyItem::Task(_, _) => None,
    }
}

// The service of an entry among the bodies of a package.
fn service_within(
    accepted: &Accepted,
    directory: &Directory,
    object: usize,
    items: &[BodyItem],
) -> Service
    requires directory { IsDirectory (program_tree accepted.now) directory.now }
    ensures { let t = program_tree accepted.now in result ≡ service_of t object (entry_of
        (procedures_among (program_of t).scope (map body_item_tree items.now)) object) }
{
    for item in items {
        if let Some(service) = service_in(accepted, directory, object, item) {
            return service;
        }
    }
    Service {
        entry: None,
        barrier: Barrier::Closed,
    }
}

// What is run for a call of the entry of the object with this number, and what opens it.
fn service_of(accepted: &Accepted, directory: &Directory, object: usize) -> Service
    requires directory { IsDirectory (program_tree accepted.now) directory.now }
    ensures { let t = program_tree accepted.now in result ≡ service_of t object (entry_of (program_of t).procedures object) }
{
    match &accepted.program().package_ {
        None => service_within(accepted, directory, object, &[]),
        Some(package_) => service_within(accepted, directory, object, &package_.body.items),
    }
}

// A copy of these words.
fn words_copy(alloc: Global, words: &[i64]) -> Result<Vec<i64>, Refusal>
    ensures copy { IfOk result (λ copy. copy.items ≡ words.now) }
    ensures refused { IfErr result (λ why. IsRefused 0 0 why) }
{
    let mut copy = Vec::new(alloc);
    for word in words {
        copy.push(*word)?;
    }
    Ok(copy)
}

// The row of the object with this number, whose declaration tells this.
fn object_row(
    alloc: Global,
    accepted: &Accepted,
    directory: &Directory,
    number: usize,
    object: &DeclaredObject,
) -> Result<Object, Refusal>
    requires directory { IsDirectory (program_tree accepted.now) directory.now }
    ensures row { IfOk result (λ row. row ≡ object_row (program_tree accepted.now) number object.now) }
    ensures refused { IfErr result (λ why. IsRefused 0 0 why) }
{
    let service = service_of(accepted, directory, number);
    let words = words_copy(alloc, object.words())?;
    Ok(Object::new(object.ceiling(), service.entry, service.barrier, words))
}

/// The rows of the protected objects of an accepted program, whose declarations give these: each has its ceiling, its words, the number of the body of its
/// entry, and what opens it.
///
/// # Errors
/// `Memory` where memory was refused.
pub fn object_rows(
    alloc: Global,
    accepted: &Accepted,
    directory: &Directory,
    declared: &[DeclaredObject],
) -> Result<Vec<Object>, Refusal>
    requires directory { IsDirectory (program_tree accepted.now) directory.now }
    ensures rows { IfOk result (λ rows. rows.items ≡ object_rows (program_tree accepted.now) 0 declared.now) }
    ensures refused { IfErr result (λ why. IsRefused 0 0 why) }
{
    let mut rows = Vec::new(alloc);
    for object in declared {
        let number = rows.len();
        rows.push(object_row(alloc, accepted, directory, number, object)?)?;
    }
    Ok(rows)
}
