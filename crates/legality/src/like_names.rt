//! Names between the declaration of a protected object and its body (RM 8.3), in one walk.
ghost use Rattle.std.specs.Prelude.{◌≡◌, ◌+◌, ◌++◌, ℕ, List, [], IfOk, OnOk, length, map};
ghost use Rattle.ada_tree.specs.StatementTree.{operation_tree, protected_component_tree, protected_tree};
ghost use Rattle.ada_tree.specs.ProgramTree.{body_item_tree, item_tree, package_tree};
ghost use Rattle.expr_rules.specs.Findings.{noted};
ghost use Rattle.declaration_rules.specs.ProtectedRules.{operation_bytes};
ghost use Rattle.legality.specs.OpenParts.{bodies_from, component_bytes, end_of, extended_by, object_ends, open_body_faults, open_item_faults, open_items_faults, open_parts_faults, open_rule, own_end, with_body, with_body_item, with_item, with_items, with_object};

use crate::name_ends::NameEnds;
use ada_tree::{
    BodyItem, Identifier, Item, Operation, Package, ProtectedComponent, ProtectedDeclaration,
};
use base::faults::DECLARED_TWICE;
use declaration_rules::operation_name;
use expr_rules::Findings;
use expr_rules::laws::noted_by_parts;
use std::alloc::{AllocError, Global};
use unit_rules::item_name;

// ---- where the bodies of objects stand

fn see_body(bodies: &mut NameEnds, place: usize, item: &BodyItem) -> Result<(), AllocError>
    ensures { OnOk result (bodies.new ≡ with_body bodies.old place (body_item_tree item.now)) }
{
    match item {
        BodyItem::Protected(name, _, _) => bodies.put(&name.name, place),
        _ => Ok(()),
    }
}

// The place of an object's body; where there is none, the end of the package's body.
fn end_of(bodies: &NameEnds, whole: usize, object: &ProtectedDeclaration) -> usize
    ensures { result ≡ end_of bodies.now whole (protected_tree object.now) }
{
    match bodies.end_of(&object.name.name) {
        Some(place) => place,
        None => whole,
    }
}

fn push_own_end(
    bodies: &NameEnds,
    whole: usize,
    item: &BodyItem,
    ends: &mut Vec<usize>,
) -> Result<(), AllocError>
    ensures { OnOk result (ends.new.items ≡ ends.old.items ++ own_end bodies.now whole (body_item_tree item.now)) }
{
    match item {
        BodyItem::Item(Item::Protected(object)) => {
            ends.push(end_of(bodies, whole, object))?;
            Ok(())
        }
        _ => Ok(()),
    }
}

// The first body of each object, and the ends of the objects that the package's body declares, the last one first.
#[derive(Drop)]
struct Bodies {
    first: NameEnds,
    ends: Vec<usize>,
}

fn bodies_of(alloc: Global, whole: usize, items: &[BodyItem]) -> Result<Bodies, AllocError>
    ensures first { IfOk result (λ b. b.first ≡ bodies_from 1 (map body_item_tree items.now)) }
    ensures ends { IfOk result (λ b. b.ends.items ≡ object_ends whole 1 (map body_item_tree items.now)) }
{
    let mut first = NameEnds::new(alloc);
    let mut ends = Vec::new(alloc);
    for behind in 0..items.len() {
        let place = items.len() - behind;
        let item = &items[place - 1];
        push_own_end(&first, whole, item, &mut ends)?;
        see_body(&mut first, place, item)?;
    }
    Ok(Bodies { first, ends })
}

// ---- names of parts

fn open_operations(
    names: &mut NameEnds,
    operations: &[Operation],
    end: usize,
) -> Result<(), AllocError>
    ensures { OnOk result (names.new ≡ extended_by operation_bytes names.old (map operation_tree operations.now) end) }
{
    for operation in operations {
        names.extend(&operation_name(operation).name, end)?;
    }
    Ok(())
}

fn open_components(
    names: &mut NameEnds,
    components: &[ProtectedComponent],
    end: usize,
) -> Result<(), AllocError>
    ensures { OnOk result (names.new ≡ extended_by component_bytes names.old (map protected_component_tree components.now) end) }
{
    for component in components {
        names.extend(&component.name.name, end)?;
    }
    Ok(())
}

fn open_object(
    names: &mut NameEnds,
    object: &ProtectedDeclaration,
    end: usize,
) -> Result<(), AllocError>
    ensures { OnOk result (names.new ≡ with_object names.old (protected_tree object.now) end) }
{
    open_operations(names, &object.operations, end)?;
    open_components(names, &object.components, end)
}

fn open_rule(names: &NameEnds, place: usize, name: &Identifier, found: &mut Findings)
    ensures { found.new ≡ noted found.old (open_rule names.now place name.now) }
{
    found.note_rule(DECLARED_TWICE, name.place, names.is_open(&name.name, place));
}

// ---- the walk

fn open_item(
    bodies: &NameEnds,
    whole: usize,
    names: &mut NameEnds,
    item: &Item,
) -> Result<(), AllocError>
    ensures { OnOk result (names.new ≡ with_item bodies.now whole names.old (item_tree item.now)) }
{
    match item {
        Item::Protected(object) => open_object(names, object, end_of(bodies, whole, object)),
        _ => Ok(()),
    }
}

// The declarations of the specification.
fn specification_faults(
    bodies: &NameEnds,
    whole: usize,
    names: &mut NameEnds,
    items: &[Item],
    found: &mut Findings,
) -> Result<(), AllocError>
    ensures found { OnOk result (found.new ≡ noted found.old (open_items_faults bodies.now whole names.old (map item_tree items.now))) }
    ensures names { OnOk result (names.new ≡ with_items bodies.now whole names.old (map item_tree items.now)) }
{
    noted_by_parts();
    for item in items {
        open_rule(names, 0, item_name(item), found);
        open_item(bodies, whole, names, item)?;
    }
    Ok(())
}

fn open_item_faults(names: &NameEnds, place: usize, item: &BodyItem, found: &mut Findings)
    ensures { found.new ≡ noted found.old (open_item_faults names.now place (body_item_tree item.now)) }
{
    match item {
        BodyItem::Item(item) => open_rule(names, place, item_name(item), found),
        BodyItem::Subprogram(subprogram, _) => open_rule(names, place, &subprogram.name, found),
        _ => {}
    }
}

// The last of these ends is the object's, if the item declares one; it is taken off.
fn open_body_item(
    names: &mut NameEnds,
    ends: &mut Vec<usize>,
    item: &BodyItem,
) -> Result<(), AllocError>
    ensures { (bodies : List (List ℕ × ℕ)) (whole : ℕ) (rest : List ℕ) → ends.old.items ≡ rest ++ own_end bodies whole (body_item_tree item.now)
        → OnOk result ((names.new ≡ with_body_item bodies whole names.old (body_item_tree item.now)) × (ends.new.items ≡ rest)) }
{
    match item {
        BodyItem::Item(Item::Protected(object)) => match ends.pop() {
            Some(end) => open_object(names, object, end),
            None => Ok(()),
        },
        _ => Ok(()),
    }
}

// What the package's body declares. These are the ends of its objects.
fn body_faults(
    whole: usize,
    names: &mut NameEnds,
    ends: &mut Vec<usize>,
    items: &[BodyItem],
    found: &mut Findings,
) -> Result<(), AllocError>
    requires { ends.old.items ≡ object_ends whole 1 (map body_item_tree items.now) }
    ensures { OnOk result (found.new ≡ noted found.old (open_body_faults whole names.old 1 (map body_item_tree items.now))) }
{
    noted_by_parts();
    for (index, item) in items.iter().enumerate() {
        open_item_faults(names, index + 1, item, found);
        open_body_item(names, ends, item)?;
    }
    Ok(())
}

// The place behind the package's body with these items.
fn end_place(items: &[BodyItem]) -> usize
    ensures { result ≡ length (map body_item_tree items.now) + 1 }
{
    items.len() + 1
}

/// Notes each fault of a name between the declaration of a protected object and its body that is like one of the object's operations or components: both would
/// be visible in that body (RM 8.3). One walk finds each such name once, and its list is in another order than that of the definition, object by object. Memory
/// is the only refusal, and may leave some of them noted.
pub(crate) fn like_name_faults(
    alloc: Global,
    package_: &Package,
    found: &mut Findings,
) -> Result<(), AllocError>
    ensures { OnOk result (found.new ≡ noted found.old (open_parts_faults (package_tree package_.now))) }
{
    noted_by_parts();
    let items = &package_.body.items;
    let whole = end_place(items);
    let mut bodies = bodies_of(alloc, whole, items)?;
    let mut names = NameEnds::new(alloc);
    let specified = &package_.declaration.items;
    specification_faults(&bodies.first, whole, &mut names, specified, found)?;
    body_faults(whole, &mut names, &mut bodies.ends, items, found)
}
