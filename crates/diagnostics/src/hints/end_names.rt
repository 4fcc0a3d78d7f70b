//! The name that is wanted after an `end`.
ghost use Rattle.std.specs.Prelude.{◌≡◌, ◌++◌, map, OnOk, option_map};
ghost use Rattle.ada_tree.specs.ProgramTree.{body_item_tree, item_tree, package_tree, program_tree, protected_item_tree};
ghost use Rattle.ada_tree.specs.StatementTree.{optional_tree, task_definition_tree};
ghost use Rattle.diagnostics.specs.hints.EndNames as ends;
ghost use Rattle.diagnostics.specs.hints.Found.{first_found, or_else};

use crate::hints::places::put_place;
use ada_tree::{BodyItem, Identifier, Item, Package, Program, ProtectedBodyItem, TaskDefinition};
use std::alloc::AllocError;

fn ends_at<'a>(place: u32, name: &'a Identifier, end_name: &Identifier) -> Option<&'a Identifier>
    ensures { option_map (λ i. i.now) result ≡ ends.ends_at place name.now end_name.now }
{
    if end_name.place == place {
        Some(name)
    } else {
        None
    }
}

fn task_end<'a>(
    place: u32,
    name: &'a Identifier,
    definition: Option<&TaskDefinition>,
) -> Option<&'a Identifier>
    ensures { option_map (λ i. i.now) result ≡ ends.task_end place name.now (optional_tree task_definition_tree (option_map (λ d. d.now) definition.entry)) }
{
    match definition {
        Some(definition) => ends_at(place, name, &definition.end_name),
        None => None,
    }
}

fn item_end(place: u32, item: &Item) -> Option<&Identifier>
    ensures { option_map (λ i. i.now) result ≡ ends.item_end place (item_tree item.now) }
{
    match item {
        Item::Task(declared) => task_end(place, &declared.name, declared.definition.as_ref()),
        Item::Protected(declared) => ends_at(place, &declared.name, &declared.end_name),
        _ => None,
    }
}

fn item_end_among(place: u32, items: &[Item]) -> Option<&Identifier>
    ensures { option_map (λ i. i.now) result ≡ first_found (ends.item_end place) (map item_tree items.now) }
{
    for item in items {
        if let Some(found) = item_end(place, item) {
            return Some(found);
        }
    }
    None
}

fn operation_end(place: u32, item: &ProtectedBodyItem) -> Option<&Identifier>
    ensures { option_map (λ i. i.now) result ≡ ends.operation_end place (protected_item_tree item.now) }
{
    match item {
        ProtectedBodyItem::Subprogram(declared, body) => {
            ends_at(place, &declared.name, &body.end_name)
        }
        ProtectedBodyItem::Entry(declared, _, body) => {
            ends_at(place, &declared.name, &body.end_name)
        }
    }
}

fn operation_end_among(place: u32, items: &[ProtectedBodyItem]) -> Option<&Identifier>
    ensures { option_map (λ i. i.now) result ≡ first_found (ends.operation_end place) (map protected_item_tree items.now) }
{
    for item in items {
        if let Some(found) = operation_end(place, item) {
            return Some(found);
        }
    }
    None
}

fn body_item_end(place: u32, item: &BodyItem) -> Option<&Identifier>
    ensures { option_map (λ i. i.now) result ≡ ends.body_item_end place (body_item_tree item.now) }
{
    match item {
        BodyItem::Item(declared) => item_end(place, declared),
        BodyItem::Subprogram(declared, body) => ends_at(place, &declared.name, &body.end_name),
        BodyItem::Task(name, body) => ends_at(place, name, &body.end_name),
        BodyItem::Protected(name, items, end_name) => {
            ends_at(place, name, end_name).or(operation_end_among(place, items))
        }
    }
}

fn body_item_end_among(place: u32, items: &[BodyItem]) -> Option<&Identifier>
    ensures { option_map (λ i. i.now) result ≡ first_found (ends.body_item_end place) (map body_item_tree items.now) }
{
    for item in items {
        if let Some(found) = body_item_end(place, item) {
            return Some(found);
        }
    }
    None
}

fn package_end(place: u32, package_: &Package) -> Option<&Identifier>
    ensures { option_map (λ i. i.now) result ≡ ends.package_end place (package_tree package_.now) }
{
    let declaration = &package_.declaration;
    let body = &package_.body;
    ends_at(place, &declaration.name, &declaration.end_name)
        .or(ends_at(place, &body.name, &body.end_name))
        .or(item_end_among(place, &declaration.items))
        .or(body_item_end_among(place, &body.items))
}

/// What ends where the place is that of the name after `end`, by its own name; None where the place is no such, or where it is in a body.
pub(crate) fn ended_at(place: u32, program: &Program) -> Option<&Identifier>
    ensures { option_map (λ i. i.now) result ≡ ends.ended_at place (program_tree program.now) }
{
    let main = ends_at(place, &program.main.name, &program.main.end_name);
    match (main, &program.package_) {
        (Some(name), _) => Some(name),
        (None, Some(package_)) => package_end(place, package_),
        (None, None) => None,
    }
}

#[tactic(auto, unfolding(crate::specs::hints::EndNames::expected_part))]
fn put_expected_part(out: &mut Vec<u8>, name: &[u8]) -> Result<(), AllocError>
    ensures { OnOk result (out.new.items ≡ out.old.items ++ ends.expected_part name.now) }
{
    out.extend_from_slice(b"hint: `end ")?;
    out.extend_from_slice(name)
}

#[tactic(auto, unfolding(crate::specs::hints::EndNames::ended_part))]
fn put_ended_part(out: &mut Vec<u8>, text: &[u8], name: &[u8], place: u32) -> Result<(), AllocError>
    ensures { OnOk result (out.new.items ≡ out.old.items ++ ends.ended_part text.now name.now place) }
{
    out.extend_from_slice(name)?;
    out.extend_from_slice(b" at ")?;
    put_place(out, text, place)?;
    out.extend_from_slice(b"\n")
}

/// Appends the line that gives the name that is wanted after an `end`, and where it is.
///
/// # Errors
/// Where memory was refused.
pub(crate) fn put_end_name_lines(
    out: &mut Vec<u8>,
    text: &[u8],
    ended: Option<&Identifier>,
) -> Result<(), AllocError>
    ensures { OnOk result (out.new.items ≡ out.old.items ++ ends.end_name_lines text.now (option_map (λ i. i.now) ended.entry)) }
{
    let Some(ended) = ended else {
        return Ok(());
    };
    put_expected_part(out, ended.name.as_bytes())?;
    out.extend_from_slice(b";` is expected here, for ")?;
    put_ended_part(out, text, ended.name.as_bytes(), ended.place)
}
