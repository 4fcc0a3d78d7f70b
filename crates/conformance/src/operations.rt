//! Operations of protected objects and their bodies (RM 6.3.1, 9.4), and all declarations and bodies of a package in order (RM 7.2).
ghost use Rattle.std.specs.Prelude.{◌≡◌, [], drop, map, OnOk};
ghost use Rattle.ada_tree.specs.ProgramTree.{body_item_tree, item_tree, protected_item_tree};
ghost use Rattle.expr_rules.specs.Findings.{noted};
ghost use Rattle.conformance.specs.MatchingRules.{item_matching, items_matching, matching_faults, operation_bodies_faults};
ghost use Rattle.conformance.specs.Tables.{front_before, front_specified, known_operation_rule};

use crate::bodies::{BodyOf, all_missing_faults, body_rule, missing_faults, second_rule};
use crate::front::Front;
use crate::keys::{Key, Keys, operation_name};
use crate::places::Bodies;
use ada_tree::{BodyItem, Identifier, Item, ProtectedBodyItem};
use base::faults::UNMATCHED_BODY;
use expr_rules::Findings;
use expr_rules::laws::noted_by_parts;
use std::alloc::{AllocError, Global};

fn operation_body_rule<'a>(
    front: &Front<'a>,
    object: &'a Identifier,
    body: &'a ProtectedBodyItem,
    is_second: bool,
    found: &mut Findings,
)
    ensures { found.new ≡ noted found.old (known_operation_rule (front_specified front.now) (front_before front.now) object.now is_second
        (protected_item_tree body.now)) }
{
    let is_wrong = is_second || front.has_unlike_operation(object, body);
    found.note_rule(UNMATCHED_BODY, operation_name(body).place, is_wrong);
}

fn operation_bodies_faults<'a>(
    alloc: Global,
    front: &Front<'a>,
    object: &'a Identifier,
    bodies: &'a [ProtectedBodyItem],
    found: &mut Findings,
) -> Result<(), AllocError>
    ensures { OnOk result (found.new ≡ noted found.old (operation_bodies_faults (front_specified front.now) (front_before front.now) object.now []
        (map protected_item_tree bodies.now))) }
{
    noted_by_parts();
    let mut seen = Keys::new(alloc);
    for body in bodies {
        let is_second = seen.see(Key::of_operation_body(object, body))?;
        operation_body_rule(front, object, body, is_second, found);
    }
    Ok(())
}

fn item_matching<'a>(
    alloc: Global,
    front: &Front<'a>,
    bodies: &Bodies<'a>,
    behind: usize,
    item: &'a BodyItem,
    found: &mut Findings,
) -> Result<(), AllocError>
    ensures { OnOk result (found.new ≡ noted found.old (item_matching (front_specified front.now) (front_before front.now)
        (map body_item_tree (drop behind bodies.now)) (body_item_tree item.now))) }
{
    noted_by_parts();
    match item {
        BodyItem::Item(item) => missing_faults(bodies, behind, item, found),
        BodyItem::Subprogram(subprogram, _) => body_rule(front, subprogram, found),
        BodyItem::Task(name, _) => second_rule(front, BodyOf::Task, name, found),
        BodyItem::Protected(name, inner, _) => {
            second_rule(front, BodyOf::Object, name, found);
            operation_bodies_faults(alloc, front, name, inner, found)?;
        }
    }
    Ok(())
}

fn items_matching<'a>(
    alloc: Global,
    specified: &'a [Item],
    bodies: &Bodies<'a>,
    found: &mut Findings,
) -> Result<(), AllocError>
    ensures { OnOk result (found.new ≡ noted found.old (items_matching (map item_tree specified.now) [] (map body_item_tree bodies.now))) }
{
    noted_by_parts();
    let items = bodies.items();
    let mut front = Front::new(alloc, specified, items)?;
    for (index, item) in items.iter().enumerate() {
        item_matching(alloc, &front, bodies, index + 1, item, found)?;
        front = front.go_on()?;
    }
    Ok(())
}

/// Notes each fault of declarations and bodies that don't belong together, in the specification of a package with these declarations and its body with these
/// items: a missing body, a second one, or one that is not like its declaration. Memory is the only refusal, and may leave some of them noted.
pub fn matching_faults(
    alloc: Global,
    specified: &[Item],
    items: &[BodyItem],
    found: &mut Findings,
) -> Result<(), AllocError>
    ensures { OnOk result (found.new ≡ noted found.old (matching_faults (map item_tree specified.now) (map body_item_tree items.now))) }
{
    noted_by_parts();
    let bodies = Bodies::new(alloc, items)?;
    all_missing_faults(&bodies, specified, found);
    items_matching(alloc, specified, &bodies, found)
}
