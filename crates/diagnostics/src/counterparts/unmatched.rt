//! To which declaration a body should belong (RM 3.11.1).
ghost use Rattle.std.specs.Prelude.{◌≡◌, map};
ghost use Rattle.ada_tree.specs.ProgramTree.{body_item_tree, item_tree, package_tree, program_tree, protected_item_tree};
ghost use Rattle.diagnostics.specs.counterparts.Fronts.{first_of};
ghost use Rattle.diagnostics.specs.counterparts.Unmatched as unmatched;

use crate::counterparts::fronts::{
    first_body_item, first_item, in_front, is_at, is_between, or_first, part_of,
};
use ada_tree::{BodyItem, Identifier, Item, Package, Program, ProtectedBodyItem};

fn body_name(item: &ProtectedBodyItem) -> &Identifier
    ensures { result.now ≡ unmatched.body_name (protected_item_tree item.now) }
{
    match item {
        ProtectedBodyItem::Subprogram(declared, _) => &declared.name,
        ProtectedBodyItem::Entry(declared, _, _) => &declared.name,
    }
}

fn first_operation_body(name: &[u8], place: u32, items: &[ProtectedBodyItem]) -> Option<u32>
    ensures { result ≡ unmatched.first_operation_body name.now place (map protected_item_tree items.now) }
{
    for item in items {
        if let Some(found) = in_front(name, place, body_name(item)) {
            return Some(found);
        }
    }
    None
}

fn in_object_body(
    name: &[u8],
    place: u32,
    specified: &[Item],
    all: &[BodyItem],
    item: &BodyItem,
) -> Option<u32>
    ensures { result ≡ unmatched.in_object_body name.now place (map item_tree specified.now) (map body_item_tree all.now) (body_item_tree item.now) }
{
    match item {
        BodyItem::Protected(own, bodies, end_name) => {
            if is_between(place, own, end_name) {
                or_first(
                    first_operation_body(name, place, bodies),
                    part_of(own.name.as_bytes(), name, place, specified, all),
                )
            } else {
                None
            }
        }
        _ => None,
    }
}

fn in_object_bodies(
    name: &[u8],
    place: u32,
    specified: &[Item],
    all: &[BodyItem],
    items: &[BodyItem],
) -> Option<u32>
    ensures { result ≡ first_of (unmatched.in_object_body name.now place (map item_tree specified.now) (map body_item_tree all.now))
        (map body_item_tree items.now) }
{
    for item in items {
        if let Some(found) = in_object_body(name, place, specified, all, item) {
            return Some(found);
        }
    }
    None
}

fn in_front_as_body(name: &[u8], place: u32, item: &BodyItem) -> Option<u32>
    ensures { result ≡ unmatched.in_front_as_body name.now place (body_item_tree item.now) }
{
    match item {
        BodyItem::Subprogram(declared, _) => in_front(name, place, &declared.name),
        BodyItem::Task(own, _) => in_front(name, place, own),
        BodyItem::Protected(own, _, _) => in_front(name, place, own),
        _ => None,
    }
}

fn first_body(name: &[u8], place: u32, items: &[BodyItem]) -> Option<u32>
    ensures { result ≡ first_of (unmatched.in_front_as_body name.now place) (map body_item_tree items.now) }
{
    for item in items {
        if let Some(found) = in_front_as_body(name, place, item) {
            return Some(found);
        }
    }
    None
}

fn of_package_body(name: &[u8], place: u32, specified: &[Item], items: &[BodyItem]) -> Option<u32>
    ensures { result ≡ unmatched.of_package_body name.now place (map item_tree specified.now) (map body_item_tree items.now) }
{
    or_first(
        first_body(name, place, items),
        or_first(
            first_item(name, place, specified),
            first_body_item(name, place, items),
        ),
    )
}

fn of_bodies(name: &[u8], place: u32, specified: &[Item], items: &[BodyItem]) -> Option<u32>
    ensures { result ≡ unmatched.of_bodies name.now place (map item_tree specified.now) (map body_item_tree items.now) }
{
    or_first(
        in_object_bodies(name, place, specified, items, items),
        of_package_body(name, place, specified, items),
    )
}

fn unmatched_in(name: &[u8], place: u32, package_: &Package) -> Option<u32>
    ensures { result ≡ unmatched.unmatched_in name.now place (package_tree package_.now) }
{
    if is_at(place, &package_.body.name) {
        Some(package_.declaration.name.place)
    } else {
        let specified = &package_.declaration.items;
        let items = &package_.body.items;
        of_bodies(name, place, specified, items)
    }
}

/// The other place of a fault 18 at the place of a body of this name: that of the declaration that it should belong to, or of the body in
/// front that has the name; of a package's body that of its specification. None where there is none.
pub fn unmatched_other(program: &Program, name: &[u8], place: u32) -> Option<u32>
    ensures { result ≡ unmatched.unmatched_other (program_tree program.now) name.now place }
{
    match &program.package_ {
        Some(package_) => unmatched_in(name, place, package_),
        None => None,
    }
}
