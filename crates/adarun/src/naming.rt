//! The names of the protected objects of a program, and of their entries.
ghost use Rattle.std.specs.Prelude.{◌≡◌, ◌∷◌, ◌++◌, [], Some, IfOk, OnOk, map};
ghost use Rattle.compiler.specs.ada_tree.specs.ProgramTree.{body_item_tree, item_tree, package_tree, program_tree};
ghost use Rattle.compiler.specs.ada_tree.specs.StatementTree.{operation_tree};
ghost use Rattle.compiler.specs.meaning.specs.Programs.{items_among, package_items};
ghost use Rattle.adarun.specs.Naming.{declared_objects, entry_among, objects_of};
ghost use Rattle.adarun.specs.Naming as naming;

use ada_tree::{BodyItem, Item, Operation, Package, Program};
use lexer::Text;
use std::alloc::{AllocError, Global};

/// The name of a protected object, and that of its entry, if it has one.
#[derive(Drop)]
pub(crate) struct ObjectNames {
    pub(crate) object: Text,
    pub(crate) entry: Option<Text>,
}

// The name of the entry among operations, if one is declared.
fn entry_name(operations: &[Operation]) -> Result<Option<Text>, AllocError>
    ensures { IfOk result (λ name. name ≡ entry_among (map operation_tree operations.now)) }
{
    for operation in operations {
        if let Operation::Entry(entry) = operation {
            return Ok(Some(entry.name.name.clone()?));
        }
    }
    Ok(None)
}

// Adds the names of the object that is declared, if one is.
fn push_item(names: &mut Vec<ObjectNames>, item: &Item) -> Result<(), AllocError>
    ensures { OnOk result (names.new.items ≡ names.old.items ++ declared_objects (item_tree item.now ∷ [])) }
{
    match item {
        Item::Protected(object) => {
            names.push(ObjectNames {
                object: object.name.name.clone()?,
                entry: entry_name(&object.operations)?,
            })?;
            Ok(())
        }
        Item::Type(_) => Ok(()),
        Item::Object(_) => Ok(()),
        Item::Exception(_) => Ok(()),
        Item::Subprogram(_) => Ok(()),
        Item::Task(_) => Ok(()),
    }
}

// Adds the names of the objects among declarations.
fn push_items(names: &mut Vec<ObjectNames>, items: &[Item]) -> Result<(), AllocError>
    ensures { OnOk result (names.new.items ≡ names.old.items ++ declared_objects (map item_tree items.now)) }
{
    for item in items {
        push_item(names, item)?;
    }
    Ok(())
}

// Adds the names of the object that is declared in the body of a package, if one is; bodies declare none.
fn push_body_item(names: &mut Vec<ObjectNames>, item: &BodyItem) -> Result<(), AllocError>
    ensures { OnOk result (names.new.items ≡ names.old.items ++ declared_objects (items_among (body_item_tree item.now ∷ []))) }
{
    match item {
        BodyItem::Item(item) => push_item(names, item),
        BodyItem::Subprogram(_, _) => Ok(()),
        BodyItem::Task(_, _) => Ok(()),
        BodyItem::Protected(_, _, _) => Ok(()),
    }
}

// Adds the names of the objects that are declared in the body of a package.
fn push_body_items(names: &mut Vec<ObjectNames>, items: &[BodyItem]) -> Result<(), AllocError>
    ensures { OnOk result (names.new.items ≡ names.old.items ++ declared_objects (items_among (map body_item_tree items.now))) }
{
    for item in items {
        push_body_item(names, item)?;
    }
    Ok(())
}

// Adds the names of the objects of a package.
fn push_package(names: &mut Vec<ObjectNames>, package_: &Package) -> Result<(), AllocError>
    ensures { OnOk result (names.new.items ≡ names.old.items ++ declared_objects (package_items (Some (package_tree package_.now)))) }
{
    push_items(names, &package_.declaration.items)?;
    push_body_items(names, &package_.body.items)
}

/// The names of a program's protected objects and their entries, in the order of the objects' declarations.
///
/// # Errors
/// Where memory was refused.
pub(crate) fn objects_of(alloc: Global, program: &Program) -> Result<Vec<ObjectNames>, AllocError>
    ensures { IfOk result (λ names. names.items ≡ objects_of (program_tree program.now)) }
{
    let mut names = Vec::new(alloc);
    if let Some(package_) = &program.package_ {
        push_package(&mut names, package_)?;
    }
    Ok(names)
}

/// The names of the objects alone.
///
/// # Errors
/// Where memory was refused.
pub(crate) fn names_alone(alloc: Global, objects: &[ObjectNames]) -> Result<Vec<Text>, AllocError>
    ensures { IfOk result (λ names. names.items ≡ naming.names_alone objects.now) }
{
    let mut names = Vec::new(alloc);
    for names_of in objects {
        names.push(names_of.object.clone()?)?;
    }
    Ok(names)
}
