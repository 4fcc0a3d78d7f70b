//! The scopes of a program's dump.
ghost use Rattle.std.specs.Prelude.{◌≡◌, ◌∷◌, ◌++◌, [], IfOk, OnOk, Some, map, option_map};
ghost use Rattle.ada_tree.specs.ProgramTree.{OfObject, body_item_tree, item_tree, package_tree, program_tree};
ghost use Rattle.ada_tree.specs.StatementTree.{object_tree, optional_tree, protected_component_tree, protected_tree};
ghost use Rattle.meaning.specs.Programs.{component, items_among, package_items, variables_among};
ghost use Rattle.variable_places.specs.Shown.{all_listed, object_scope, object_scopes, package_scope, shown_scopes};

use crate::listing::Listing;
use ada_tree::{
    BodyItem, Item, ObjectDeclaration, Package, Program, ProtectedComponent, ProtectedDeclaration,
};
use std::alloc::{AllocError, Global};
use types::Scope as Names;
use waveforms::{Scopes, VariableScope};

// Lists an object, if it is a variable: constants have no words.
fn list_object(
    alloc: Global,
    listing: &mut Listing,
    names: &Names,
    object: &ObjectDeclaration,
) -> Result<(), AllocError>
    ensures { OnOk result (listing.new ≡ all_listed names.now listing.old (variables_among names.now (OfObject (object_tree object.now) ∷ []))) }
{
    if object.constant {
        Ok(())
    } else {
        listing.push(alloc, names, &object.name, &object.subtype)
    }
}

// Lists the variable that is declared, if one is.
fn list_item(
    alloc: Global,
    listing: &mut Listing,
    names: &Names,
    item: &Item,
) -> Result<(), AllocError>
    ensures { OnOk result (listing.new ≡ all_listed names.now listing.old (variables_among names.now (item_tree item.now ∷ []))) }
{
    match item {
        Item::Object(object) => list_object(alloc, listing, names, object),
        Item::Type(_) => Ok(()),
        Item::Exception(_) => Ok(()),
        Item::Subprogram(_) => Ok(()),
        Item::Task(_) => Ok(()),
        Item::Protected(_) => Ok(()),
    }
}

// Lists the variables among declarations.
fn list_items(
    alloc: Global,
    listing: &mut Listing,
    names: &Names,
    items: &[Item],
) -> Result<(), AllocError>
    ensures { OnOk result (listing.new ≡ all_listed names.now listing.old (variables_among names.now (map item_tree items.now))) }
{
    for item in items {
        list_item(alloc, listing, names, item)?;
    }
    Ok(())
}

// Lists the variable that is declared in the body of a package, if one is; bodies declare none.
fn list_body_item(
    alloc: Global,
    listing: &mut Listing,
    names: &Names,
    item: &BodyItem,
) -> Result<(), AllocError>
    ensures { OnOk result (listing.new ≡ all_listed names.now listing.old (variables_among names.now (items_among (body_item_tree item.now ∷ [])))) }
{
    match item {
        BodyItem::Item(item) => list_item(alloc, listing, names, item),
        BodyItem::Subprogram(_, _) => Ok(()),
        BodyItem::Task(_, _) => Ok(()),
        BodyItem::Protected(_, _, _) => Ok(()),
    }
}

// Lists the variables that are declared in the body of a package.
fn list_body_items(
    alloc: Global,
    listing: &mut Listing,
    names: &Names,
    items: &[BodyItem],
) -> Result<(), AllocError>
    ensures { OnOk result (listing.new ≡ all_listed names.now listing.old (variables_among names.now (items_among (map body_item_tree items.now)))) }
{
    for item in items {
        list_body_item(alloc, listing, names, item)?;
    }
    Ok(())
}

// Lists the variables of a package.
fn list_package(
    alloc: Global,
    listing: &mut Listing,
    names: &Names,
    package_: &Package,
) -> Result<(), AllocError>
    ensures { OnOk result (listing.new ≡ all_listed names.now listing.old (variables_among names.now (package_items (Some (package_tree package_.now))))) }
{
    list_items(alloc, listing, names, &package_.declaration.items)?;
    list_body_items(alloc, listing, names, &package_.body.items)
}

// The package with its variables.
fn package_scope(
    alloc: Global,
    names: &Names,
    package_: &Package,
) -> Result<VariableScope, AllocError>
    ensures { IfOk result (λ scope. scope ≡ package_scope names.now (package_tree package_.now)) }
{
    let mut listing = Listing::new(alloc);
    list_package(alloc, &mut listing, names, package_)?;
    let name = package_.declaration.name.name.clone()?;
    Ok(VariableScope::new(name, listing.into_variables()))
}

// Lists the components of a protected object.
fn list_components(
    alloc: Global,
    listing: &mut Listing,
    names: &Names,
    components: &[ProtectedComponent],
) -> Result<(), AllocError>
    ensures { OnOk result (listing.new ≡ all_listed names.now listing.old (map (component names.now) (map protected_component_tree components.now))) }
{
    for component in components {
        listing.push(alloc, names, &component.name, &component.subtype)?;
    }
    Ok(())
}

// A protected object with its components.
fn object_scope(
    alloc: Global,
    names: &Names,
    object: &ProtectedDeclaration,
) -> Result<VariableScope, AllocError>
    ensures { IfOk result (λ scope. scope ≡ object_scope names.now (protected_tree object.now)) }
{
    let mut listing = Listing::new(alloc);
    list_components(alloc, &mut listing, names, &object.components)?;
    let name = object.name.name.clone()?;
    Ok(VariableScope::new(name, listing.into_variables()))
}

// Adds the scope of the object that is declared, if one is.
fn push_item(
    alloc: Global,
    scopes: &mut Vec<VariableScope>,
    names: &Names,
    item: &Item,
) -> Result<(), AllocError>
    ensures { OnOk result (scopes.new.items ≡ scopes.old.items ++ object_scopes names.now (item_tree item.now ∷ [])) }
{
    match item {
        Item::Protected(object) => {
            scopes.push(object_scope(alloc, names, object)?)?;
            Ok(())
        }
        Item::Type(_) => Ok(()),
        Item::Object(_) => Ok(()),
        Item::Exception(_) => Ok(()),
        Item::Subprogram(_) => Ok(()),
        Item::Task(_) => Ok(()),
    }
}

// Adds the scopes of the objects among declarations.
fn push_items(
    alloc: Global,
    scopes: &mut Vec<VariableScope>,
    names: &Names,
    items: &[Item],
) -> Result<(), AllocError>
    ensures { OnOk result (scopes.new.items ≡ scopes.old.items ++ object_scopes names.now (map item_tree items.now)) }
{
    for item in items {
        push_item(alloc, scopes, names, item)?;
    }
    Ok(())
}

// Adds the scope of the object that is declared in the body of a package, if one is.
fn push_body_item(
    alloc: Global,
    scopes: &mut Vec<VariableScope>,
    names: &Names,
    item: &BodyItem,
) -> Result<(), AllocError>
    ensures { OnOk result (scopes.new.items ≡ scopes.old.items ++ object_scopes names.now (items_among (body_item_tree item.now ∷ []))) }
{
    match item {
        BodyItem::Item(item) => push_item(alloc, scopes, names, item),
        BodyItem::Subprogram(_, _) => Ok(()),
        BodyItem::Task(_, _) => Ok(()),
        BodyItem::Protected(_, _, _) => Ok(()),
    }
}

// Adds the scopes of the objects that are declared in the body of a package.
fn push_body_items(
    alloc: Global,
    scopes: &mut Vec<VariableScope>,
    names: &Names,
    items: &[BodyItem],
) -> Result<(), AllocError>
    ensures { OnOk result (scopes.new.items ≡ scopes.old.items ++ object_scopes names.now (items_among (map body_item_tree items.now))) }
{
    for item in items {
        push_body_item(alloc, scopes, names, item)?;
    }
    Ok(())
}

// Adds the scopes of the objects of a package.
fn push_package(
    alloc: Global,
    scopes: &mut Vec<VariableScope>,
    names: &Names,
    package_: &Package,
) -> Result<(), AllocError>
    ensures { OnOk result (scopes.new.items ≡ scopes.old.items ++ object_scopes names.now (package_items (Some (package_tree package_.now)))) }
{
    push_items(alloc, scopes, names, &package_.declaration.items)?;
    push_body_items(alloc, scopes, names, &package_.body.items)
}

// The package of a program with its variables, if there is a package.
fn optional_scope(
    alloc: Global,
    names: &Names,
    package_: &Option<Package>,
) -> Result<Option<VariableScope>, AllocError>
    ensures { IfOk result (λ scope. scope ≡ option_map (package_scope names.now) (optional_tree package_tree package_.now)) }
{
    match package_ {
        None => Ok(None),
        Some(package_) => Ok(Some(package_scope(alloc, names, package_)?)),
    }
}

// The scopes of a program's protected objects.
fn objects_of(
    alloc: Global,
    names: &Names,
    program: &Program,
) -> Result<Vec<VariableScope>, AllocError>
    ensures { IfOk result (λ scopes. scopes.items ≡ object_scopes names.now (package_items (program_tree program.now).package_)) }
{
    let mut scopes = Vec::new(alloc);
    if let Some(package_) = &program.package_ {
        push_package(alloc, &mut scopes, names, package_)?;
    }
    Ok(scopes)
}

/// The scopes of a program's dump: its package with the variables of the package, and its protected objects with their components. `names` are those that are
/// visible after the package.
///
/// # Errors
/// Where memory was refused.
pub fn scopes_of(alloc: Global, names: &Names, program: &Program) -> Result<Scopes, AllocError>
    ensures { IfOk result (λ scopes. scopes ≡ shown_scopes names.now (program_tree program.now)) }
{
    let package_ = optional_scope(alloc, names, &program.package_)?;
    let objects = objects_of(alloc, names, program)?;
    Ok(Scopes::new(package_, objects))
}
