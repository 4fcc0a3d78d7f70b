//! The names of the operations and entries of protected objects that a program's instructions call.
ghost use Rattle.std.specs.Prelude.{◌≡◌, ◌∷◌, ◌++◌, [], IfOk, OnOk, map, slice_get};
ghost use Rattle.adarun.specs.Operations.{body_names, instruction_calls, number_called, subprogram_names};
ghost use Rattle.compiler.specs.ada_tree.specs.ProgramTree.{body_item_tree, program_tree, protected_item_tree};
ghost use Rattle.compiler.specs.package_code.specs.Bodies.{own_name};

use ada_tree::{BodyItem, Program, ProtectedBodyItem};
use image::{Image, Operation};
use lexer::Text;
use std::alloc::{AllocError, Global};

// The number of the subprogram that an operation calls through the name of an object.
fn number_called(image: &Image, operation: Operation) -> Option<u16>
    ensures { result ≡ number_called image.now operation }
{
    match operation {
        Operation::ProtectedCall(number) => Some(number),
        Operation::EntryCall(object) => image.objects().get(usize::from(object))?.entry(),
        _ => None,
    }
}

/// The number of the subprogram that the instruction at an address calls through the name of an object.
pub(crate) fn called_at(image: &Image, address: u16) -> Option<u16>
    ensures { result ≡ instruction_calls image.now (slice_get image.now.instructions address) }
{
    let instruction = image.instructions().get(usize::from(address))?;
    number_called(image, instruction.operation)
}

// The name of an operation or entry.
fn own_name(item: &ProtectedBodyItem) -> &Text
    ensures { result.now ≡ own_name (protected_item_tree item.now) }
{
    match item {
        ProtectedBodyItem::Subprogram(subprogram, _) => &subprogram.name.name,
        ProtectedBodyItem::Entry(entry, _, _) => &entry.name.name,
    }
}

// Adds the names of the operations of an object.
fn push_operations(names: &mut Vec<Text>, items: &[ProtectedBodyItem]) -> Result<(), AllocError>
    ensures { OnOk result (names.new.items ≡ names.old.items ++ map own_name (map protected_item_tree items.now)) }
{
    for item in items {
        names.push(own_name(item).clone()?)?;
    }
    Ok(())
}

// Adds the names of the bodies that an item is or has.
fn push_bodies_of(names: &mut Vec<Text>, item: &BodyItem) -> Result<(), AllocError>
    ensures { OnOk result (names.new.items ≡ names.old.items ++ body_names (body_item_tree item.now ∷ [])) }
{
    match item {
        BodyItem::Item(_) => Ok(()),
        BodyItem::Subprogram(subprogram, _) => {
            names.push(subprogram.name.name.clone()?)?;
            Ok(())
        }
        BodyItem::Task(name, _) => {
            names.push(name.name.clone()?)?;
            Ok(())
        }
        BodyItem::Protected(_, items, _) => push_operations(names, items),
    }
}

// Adds the names of the bodies among items.
fn push_bodies(names: &mut Vec<Text>, items: &[BodyItem]) -> Result<(), AllocError>
    ensures { OnOk result (names.new.items ≡ names.old.items ++ body_names (map body_item_tree items.now)) }
{
    for item in items {
        push_bodies_of(names, item)?;
    }
    Ok(())
}

/// The names of a program's bodies, in the order of their subprograms' numbers.
///
/// # Errors
/// Where memory was refused.
pub(crate) fn subprograms_of(alloc: Global, program: &Program) -> Result<Vec<Text>, AllocError>
    ensures { IfOk result (λ names. names.items ≡ subprogram_names (program_tree program.now)) }
{
    let mut names = Vec::new(alloc);
    if let Some(package_) = &program.package_ {
        push_bodies(&mut names, &package_.body.items)?;
    }
    Ok(names)
}
