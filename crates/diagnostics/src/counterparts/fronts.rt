//! Names that are declared before a place.
ghost use Rattle.std.specs.Prelude.{◌≡◌, map};
ghost use Rattle.ada_tree.specs.ProgramTree.{body_item_tree, item_tree};
ghost use Rattle.ada_tree.specs.StatementTree.{declaration_tree, operation_tree, protected_component_tree, protected_tree};
ghost use Rattle.diagnostics.specs.counterparts.Fronts as fronts;

use ada_tree::{
    BodyItem, Component, Declaration, Formal, Identifier, Item, Operation, ProtectedComponent,
    ProtectedDeclaration,
};

pub(crate) fn or_first(first: Option<u32>, other: Option<u32>) -> Option<u32>
    ensures { result ≡ fronts.or_first first other }
{
    match first {
        Some(place) => Some(place),
        None => other,
    }
}

// The place of the identifier, where it has this name and stands in front of the place.
pub(crate) fn in_front(name: &[u8], place: u32, identifier: &Identifier) -> Option<u32>
    ensures { result ≡ fronts.in_front name.now place identifier.now }
{
    if identifier.name.as_bytes() == name && identifier.place < place {
        Some(identifier.place)
    } else {
        None
    }
}

pub(crate) fn is_at(place: u32, identifier: &Identifier) -> bool
    ensures { result ≡ fronts.is_at place identifier.now }
{
    identifier.place == place
}

pub(crate) fn is_between(place: u32, first: &Identifier, last: &Identifier) -> bool
    ensures { result ≡ fronts.is_between place first.now last.now }
{
    first.place < place && place < last.place
}

pub(crate) fn declared_name(item: &Item) -> &Identifier
    ensures { result.now ≡ fronts.declared_name (item_tree item.now) }
{
    match item {
        Item::Type(declared) => &declared.name,
        Item::Object(declared) => &declared.name,
        Item::Exception(name) => name,
        Item::Subprogram(declared) => &declared.name,
        Item::Task(declared) => &declared.name,
        Item::Protected(declared) => &declared.name,
    }
}

pub(crate) fn local_name(declaration: &Declaration) -> &Identifier
    ensures { result.now ≡ fronts.local_name (declaration_tree declaration.now) }
{
    match declaration {
        Declaration::Object(declared) => &declared.name,
        Declaration::Task(declared) => &declared.name,
        Declaration::Protected(declared) => &declared.name,
    }
}

pub(crate) fn part_name(operation: &Operation) -> &Identifier
    ensures { result.now ≡ fronts.part_name (operation_tree operation.now) }
{
    match operation {
        Operation::Subprogram(declared, _) => &declared.name,
        Operation::Entry(declared) => &declared.name,
    }
}

pub(crate) fn part_formals(operation: &Operation) -> &[Formal]
    ensures { result.now ≡ fronts.part_formals (operation_tree operation.now) }
{
    match operation {
        Operation::Subprogram(declared, _) => &declared.formals,
        Operation::Entry(declared) => &declared.formals,
    }
}

pub(crate) fn first_formal(name: &[u8], place: u32, formals: &[Formal]) -> Option<u32>
    ensures { result ≡ fronts.first_formal name.now place formals.now }
{
    for formal in formals {
        if let Some(found) = in_front(name, place, &formal.name) {
            return Some(found);
        }
    }
    None
}

pub(crate) fn first_component(name: &[u8], place: u32, components: &[Component]) -> Option<u32>
    ensures { result ≡ fronts.first_component name.now place components.now }
{
    for component in components {
        if let Some(found) = in_front(name, place, &component.name) {
            return Some(found);
        }
    }
    None
}

pub(crate) fn first_local(name: &[u8], place: u32, declarations: &[Declaration]) -> Option<u32>
    ensures { result ≡ fronts.first_local name.now place (map declaration_tree declarations.now) }
{
    for declaration in declarations {
        if let Some(found) = in_front(name, place, local_name(declaration)) {
            return Some(found);
        }
    }
    None
}

pub(crate) fn first_item(name: &[u8], place: u32, items: &[Item]) -> Option<u32>
    ensures { result ≡ fronts.first_item name.now place (map item_tree items.now) }
{
    for item in items {
        if let Some(found) = in_front(name, place, declared_name(item)) {
            return Some(found);
        }
    }
    None
}

fn of_body_item(name: &[u8], place: u32, item: &BodyItem) -> Option<u32>
    ensures { result ≡ fronts.of_body_item name.now place (body_item_tree item.now) }
{
    match item {
        BodyItem::Item(item) => in_front(name, place, declared_name(item)),
        BodyItem::Subprogram(declared, _) => in_front(name, place, &declared.name),
        _ => None,
    }
}

pub(crate) fn first_body_item(name: &[u8], place: u32, items: &[BodyItem]) -> Option<u32>
    ensures { result ≡ fronts.first_body_item name.now place (map body_item_tree items.now) }
{
    for item in items {
        if let Some(found) = of_body_item(name, place, item) {
            return Some(found);
        }
    }
    None
}

fn first_operation(name: &[u8], place: u32, operations: &[Operation]) -> Option<u32>
    ensures { result ≡ fronts.first_operation name.now place (map operation_tree operations.now) }
{
    for operation in operations {
        if let Some(found) = in_front(name, place, part_name(operation)) {
            return Some(found);
        }
    }
    None
}

fn first_own_component(name: &[u8], place: u32, components: &[ProtectedComponent]) -> Option<u32>
    ensures { result ≡ fronts.first_own_component name.now place (map protected_component_tree components.now) }
{
    for component in components {
        if let Some(found) = in_front(name, place, &component.name) {
            return Some(found);
        }
    }
    None
}

pub(crate) fn first_part(name: &[u8], place: u32, object: &ProtectedDeclaration) -> Option<u32>
    ensures { result ≡ fronts.first_part name.now place (protected_tree object.now) }
{
    or_first(
        first_operation(name, place, &object.operations),
        first_own_component(name, place, &object.components),
    )
}

fn part_of_object(object: &[u8], name: &[u8], place: u32, item: &Item) -> Option<u32>
    ensures { result ≡ fronts.part_of_object object.now name.now place (item_tree item.now) }
{
    match item {
        Item::Protected(declared) => {
            if declared.name.name.as_bytes() == object {
                first_part(name, place, declared)
            } else {
                None
            }
        }
        _ => None,
    }
}

fn part_of_own_object(object: &[u8], name: &[u8], place: u32, item: &BodyItem) -> Option<u32>
    ensures { result ≡ fronts.part_of_own_object object.now name.now place (body_item_tree item.now) }
{
    match item {
        BodyItem::Item(item) => part_of_object(object, name, place, item),
        _ => None,
    }
}

fn part_of_items(object: &[u8], name: &[u8], place: u32, items: &[Item]) -> Option<u32>
    ensures { result ≡ fronts.first_of (fronts.part_of_object object.now name.now place) (map item_tree items.now) }
{
    for item in items {
        if let Some(found) = part_of_object(object, name, place, item) {
            return Some(found);
        }
    }
    None
}

fn part_of_body_items(object: &[u8], name: &[u8], place: u32, items: &[BodyItem]) -> Option<u32>
    ensures { result ≡ fronts.first_of (fronts.part_of_own_object object.now name.now place) (map body_item_tree items.now) }
{
    for item in items {
        if let Some(found) = part_of_own_object(object, name, place, item) {
            return Some(found);
        }
    }
    None
}

// Of the object of this name, in the specification or in the body.
pub(crate) fn part_of(
    object: &[u8],
    name: &[u8],
    place: u32,
    specified: &[Item],
    items: &[BodyItem],
) -> Option<u32>
    ensures { result ≡ fronts.part_of object.now name.now place (map item_tree specified.now) (map body_item_tree items.now) }
{
    or_first(
        part_of_items(object, name, place, specified),
        part_of_body_items(object, name, place, items),
    )
}
