//! Which declaration of a name is visible where the name is declared again (RM 8.2, 8.3).
ghost use Rattle.std.specs.Prelude.{◌≡◌, map};
ghost use Rattle.std.specs.List.{list_any};
ghost use Rattle.ada_tree.specs.ProgramTree.{body_item_tree, body_tree, definition_tree, item_tree, package_tree, program_tree, protected_item_tree};
ghost use Rattle.ada_tree.specs.StatementTree.{operation_tree, protected_component_tree, protected_tree};
ghost use Rattle.diagnostics.specs.counterparts.Fronts as fronts;
ghost use Rattle.diagnostics.specs.counterparts.Fronts.{first_of};
ghost use Rattle.diagnostics.specs.counterparts.Twice as twice;

use crate::counterparts::fronts::{
    declared_name, first_body_item, first_component, first_formal, first_item, first_local,
    first_part, in_front, is_at, is_between, or_first, part_formals, part_name, part_of,
};
use crate::counterparts::nested::nested_in;
use ada_tree::{
    Body, BodyItem, Component, Formal, Identifier, Item, Operation, Package, Program,
    ProtectedBodyItem, ProtectedComponent, ProtectedDeclaration, TypeDefinition, UnitClause,
};

fn has_formal(place: u32, formals: &[Formal]) -> bool
    ensures { result ≡ list_any (λ f. fronts.is_at place f.name) formals.now }
{
    for formal in formals {
        if is_at(place, &formal.name) {
            return true;
        }
    }
    false
}

fn has_component(place: u32, components: &[Component]) -> bool
    ensures { result ≡ list_any (λ c. fronts.is_at place c.name) components.now }
{
    for component in components {
        if is_at(place, &component.name) {
            return true;
        }
    }
    false
}

fn has_operation(place: u32, operations: &[Operation]) -> bool
    ensures { result ≡ list_any (λ o. fronts.is_at place (fronts.part_name o)) (map operation_tree operations.now) }
{
    for operation in operations {
        if is_at(place, part_name(operation)) {
            return true;
        }
    }
    false
}

fn has_own_component(place: u32, components: &[ProtectedComponent]) -> bool
    ensures { result ≡ list_any (λ c. fronts.is_at place c.name) (map protected_component_tree components.now) }
{
    for component in components {
        if is_at(place, &component.name) {
            return true;
        }
    }
    false
}

fn among_formals(name: &[u8], place: u32, formals: &[Formal]) -> Option<u32>
    ensures { result ≡ twice.among_formals name.now place formals.now }
{
    if has_formal(place, formals) {
        first_formal(name, place, formals)
    } else {
        None
    }
}

fn among_components(name: &[u8], place: u32, components: &[Component]) -> Option<u32>
    ensures { result ≡ twice.among_components name.now place components.now }
{
    if has_component(place, components) {
        first_component(name, place, components)
    } else {
        None
    }
}

fn has_part_at(place: u32, object: &ProtectedDeclaration) -> bool
    ensures { result ≡ twice.has_part_at place (protected_tree object.now) }
{
    has_operation(place, &object.operations) || has_own_component(place, &object.components)
}

fn among_profiles(name: &[u8], place: u32, operations: &[Operation]) -> Option<u32>
    ensures { result ≡ twice.among_profiles name.now place (map operation_tree operations.now) }
{
    for operation in operations {
        if let Some(found) = among_formals(name, place, part_formals(operation)) {
            return Some(found);
        }
    }
    None
}

fn among_own_parts(name: &[u8], place: u32, object: &ProtectedDeclaration) -> Option<u32>
    ensures { result ≡ twice.among_own_parts name.now place (protected_tree object.now) }
{
    if has_part_at(place, object) {
        first_part(name, place, object)
    } else {
        None
    }
}

fn among_parts(name: &[u8], place: u32, object: &ProtectedDeclaration) -> Option<u32>
    ensures { result ≡ twice.among_parts name.now place (protected_tree object.now) }
{
    or_first(
        among_own_parts(name, place, object),
        among_profiles(name, place, &object.operations),
    )
}

fn within_definition(name: &[u8], place: u32, definition: &TypeDefinition) -> Option<u32>
    ensures { result ≡ twice.within_definition name.now place (definition_tree definition.now) }
{
    match definition {
        TypeDefinition::Record(components) => among_components(name, place, components),
        _ => None,
    }
}

fn within_item(name: &[u8], place: u32, item: &Item) -> Option<u32>
    ensures { result ≡ twice.within_item name.now place (item_tree item.now) }
{
    match item {
        Item::Type(declared) => within_definition(name, place, &declared.definition),
        Item::Subprogram(declared) => among_formals(name, place, &declared.formals),
        Item::Protected(declared) => among_parts(name, place, declared),
        _ => None,
    }
}

fn of_body(
    name: &[u8],
    place: u32,
    own: &Identifier,
    formals: &[Formal],
    body: &Body,
) -> Option<u32>
    ensures { result ≡ twice.of_body name.now place own.now formals.now (body_tree body.now) }
{
    or_first(
        in_front(name, place, own),
        or_first(
            first_formal(name, place, formals),
            first_local(name, place, &body.declarations),
        ),
    )
}

fn within_body(
    name: &[u8],
    place: u32,
    own: &Identifier,
    formals: &[Formal],
    body: &Body,
) -> Option<u32>
    ensures { result ≡ twice.within_body name.now place own.now formals.now (body_tree body.now) }
{
    if is_between(place, own, &body.end_name) {
        or_first(
            nested_in(name, place, body),
            of_body(name, place, own, formals, body),
        )
    } else {
        None
    }
}

fn within_operation(name: &[u8], place: u32, item: &ProtectedBodyItem) -> Option<u32>
    ensures { result ≡ twice.within_operation name.now place (protected_item_tree item.now) }
{
    match item {
        ProtectedBodyItem::Subprogram(declared, body) => {
            within_body(name, place, &declared.name, &declared.formals, body)
        }
        ProtectedBodyItem::Entry(declared, _, body) => {
            within_body(name, place, &declared.name, &declared.formals, body)
        }
    }
}

fn within_operations(name: &[u8], place: u32, items: &[ProtectedBodyItem]) -> Option<u32>
    ensures { result ≡ first_of (twice.within_operation name.now place) (map protected_item_tree items.now) }
{
    for item in items {
        if let Some(found) = within_operation(name, place, item) {
            return Some(found);
        }
    }
    None
}

fn within_body_item(
    name: &[u8],
    place: u32,
    specified: &[Item],
    all: &[BodyItem],
    item: &BodyItem,
) -> Option<u32>
    ensures { result ≡ twice.within_body_item name.now place (map item_tree specified.now) (map body_item_tree all.now) (body_item_tree item.now) }
{
    match item {
        BodyItem::Item(item) => within_item(name, place, item),
        BodyItem::Subprogram(declared, body) => {
            within_body(name, place, &declared.name, &declared.formals, body)
        }
        BodyItem::Task(own, body) => within_body(name, place, own, &[], body),
        BodyItem::Protected(own, bodies, end_name) => {
            if is_between(place, own, end_name) {
                or_first(
                    within_operations(name, place, bodies),
                    part_of(own.name.as_bytes(), name, place, specified, all),
                )
            } else {
                None
            }
        }
    }
}

fn within_items(name: &[u8], place: u32, items: &[Item]) -> Option<u32>
    ensures { result ≡ first_of (twice.within_item name.now place) (map item_tree items.now) }
{
    for item in items {
        if let Some(found) = within_item(name, place, item) {
            return Some(found);
        }
    }
    None
}

fn within_body_items(
    name: &[u8],
    place: u32,
    specified: &[Item],
    all: &[BodyItem],
    items: &[BodyItem],
) -> Option<u32>
    ensures { result ≡ first_of (twice.within_body_item name.now place (map item_tree specified.now) (map body_item_tree all.now))
        (map body_item_tree items.now) }
{
    for item in items {
        if let Some(found) = within_body_item(name, place, specified, all, item) {
            return Some(found);
        }
    }
    None
}

fn is_closing(place: u32, object: &Identifier, item: &BodyItem) -> bool
    ensures { result ≡ twice.is_closing place object.now (body_item_tree item.now) }
{
    match item {
        BodyItem::Protected(own, _, _) => {
            own.name.as_bytes() == object.name.as_bytes() && own.place < place
        }
        _ => false,
    }
}

fn has_closing(place: u32, object: &Identifier, items: &[BodyItem]) -> bool
    ensures { result ≡ list_any (twice.is_closing place object.now) (map body_item_tree items.now) }
{
    for item in items {
        if is_closing(place, object, item) {
            return true;
        }
    }
    false
}

fn open_part(name: &[u8], place: u32, all: &[BodyItem], item: &Item) -> Option<u32>
    ensures { result ≡ twice.open_part name.now place (map body_item_tree all.now) (item_tree item.now) }
{
    match item {
        Item::Protected(declared) => {
            if declared.end_name.place < place && !has_closing(place, &declared.name, all) {
                first_part(name, place, declared)
            } else {
                None
            }
        }
        _ => None,
    }
}

fn open_own_part(name: &[u8], place: u32, all: &[BodyItem], item: &BodyItem) -> Option<u32>
    ensures { result ≡ twice.open_own_part name.now place (map body_item_tree all.now) (body_item_tree item.now) }
{
    match item {
        BodyItem::Item(item) => open_part(name, place, all, item),
        _ => None,
    }
}

fn open_parts(name: &[u8], place: u32, all: &[BodyItem], items: &[Item]) -> Option<u32>
    ensures { result ≡ first_of (twice.open_part name.now place (map body_item_tree all.now)) (map item_tree items.now) }
{
    for item in items {
        if let Some(found) = open_part(name, place, all, item) {
            return Some(found);
        }
    }
    None
}

fn open_own_parts(name: &[u8], place: u32, all: &[BodyItem], items: &[BodyItem]) -> Option<u32>
    ensures { result ≡ first_of (twice.open_own_part name.now place (map body_item_tree all.now)) (map body_item_tree items.now) }
{
    for item in items {
        if let Some(found) = open_own_part(name, place, all, item) {
            return Some(found);
        }
    }
    None
}

fn declares_at(place: u32, item: &BodyItem) -> bool
    ensures { result ≡ twice.declares_at place (body_item_tree item.now) }
{
    match item {
        BodyItem::Item(item) => is_at(place, declared_name(item)),
        BodyItem::Subprogram(declared, _) => is_at(place, &declared.name),
        _ => false,
    }
}

fn has_item(place: u32, items: &[Item]) -> bool
    ensures { result ≡ list_any (λ i. fronts.is_at place (fronts.declared_name i)) (map item_tree items.now) }
{
    for item in items {
        if is_at(place, declared_name(item)) {
            return true;
        }
    }
    false
}

fn has_body_item(place: u32, items: &[BodyItem]) -> bool
    ensures { result ≡ list_any (twice.declares_at place) (map body_item_tree items.now) }
{
    for item in items {
        if declares_at(place, item) {
            return true;
        }
    }
    false
}

fn first_open_part(name: &[u8], place: u32, specified: &[Item], items: &[BodyItem]) -> Option<u32>
    ensures { result ≡ twice.first_open_part name.now place (map item_tree specified.now) (map body_item_tree items.now) }
{
    if has_item(place, specified) || has_body_item(place, items) {
        or_first(
            open_parts(name, place, items, specified),
            open_own_parts(name, place, items, items),
        )
    } else {
        None
    }
}

fn of_package(name: &[u8], place: u32, package_: &Package) -> Option<u32>
    ensures { result ≡ twice.of_package name.now place (package_tree package_.now) }
{
    or_first(
        in_front(name, place, &package_.declaration.name),
        or_first(
            first_item(name, place, &package_.declaration.items),
            first_body_item(name, place, &package_.body.items),
        ),
    )
}

fn within_package(name: &[u8], place: u32, package_: &Package) -> Option<u32>
    ensures { result ≡ twice.within_package name.now place (package_tree package_.now) }
{
    let specified = &package_.declaration.items;
    let items = &package_.body.items;
    or_first(
        within_items(name, place, specified),
        within_body_items(name, place, specified, items, items),
    )
}

fn first_clause(name: &[u8], place: u32, clauses: &[UnitClause]) -> Option<u32>
    ensures { result ≡ twice.first_clause name.now place clauses.now }
{
    for clause in clauses {
        if let Some(found) = in_front(name, place, &clause.unit.first) {
            return Some(found);
        }
    }
    None
}

fn of_all(name: &[u8], place: u32, package_: &Package) -> Option<u32>
    ensures { result ≡ twice.of_all name.now place (package_tree package_.now) }
{
    let specified = &package_.declaration.items;
    let items = &package_.body.items;
    or_first(
        within_package(name, place, package_),
        or_first(
            of_package(name, place, package_),
            first_open_part(name, place, specified, items),
        ),
    )
}

fn twice_in(name: &[u8], place: u32, package_: &Package) -> Option<u32>
    ensures { result ≡ twice.twice_in name.now place (package_tree package_.now) }
{
    if place < package_.declaration.place {
        first_clause(name, place, &package_.clauses)
    } else {
        of_all(name, place, package_)
    }
}

/// The other place of a fault 11 at the place where this name is declared again: that of the declaration before it that is visible
/// there, or that of the part of a protected object, a record or a profile that has the name. None where there is none, as for a predefined
/// name.
pub fn twice_other(program: &Program, name: &[u8], place: u32) -> Option<u32>
    ensures { result ≡ twice.twice_other (program_tree program.now) name.now place }
{
    match &program.package_ {
        Some(package_) => twice_in(name, place, package_),
        None => None,
    }
}
