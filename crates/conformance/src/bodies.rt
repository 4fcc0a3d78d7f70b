//! Declarations and their bodies (RM 3.11.1, 7.2, 9.1, 9.4).
ghost use Rattle.std.specs.Prelude.{◌≡◌, drop, map};
ghost use Rattle.ada_tree.specs.StatementTree.{operation_tree, subprogram_tree};
ghost use Rattle.ada_tree.specs.ProgramTree.{body_item_tree, item_tree};
ghost use Rattle.expr_rules.specs.Findings.{noted};
ghost use Rattle.conformance.specs.MatchingRules.{all_missing_faults, body_rule, missing_body_rule, missing_faults, missing_operation_rule, missing_operations_faults, second_rule};
ghost use Rattle.conformance.specs.Tables.{front_before, front_specified};

use crate::front::Front;
use crate::places::Bodies;
use ada_tree::{Identifier, Item, Operation, Subprogram};
use base::faults::UNMATCHED_BODY;
use expr_rules::Findings;
use expr_rules::laws::noted_by_parts;

/// What has a body in the body of a package.
#[derive(Clone, Copy, Debug, PartialEq, Eq)]
pub(crate) enum BodyOf {
    Subprogram,
    Task,
    /// A protected object.
    Object,
}

// Of these bodies those from `start` on stand behind the declaration.
fn missing_body_rule<'a>(
    bodies: &Bodies<'a>,
    start: usize,
    kind: BodyOf,
    name: &'a Identifier,
    found: &mut Findings,
)
    ensures { found.new ≡ noted found.old (missing_body_rule (map body_item_tree (drop start bodies.now)) kind name.now) }
{
    let is_there = bodies.has_body(start, kind, name);
    found.note_rule(UNMATCHED_BODY, name.place, !is_there);
}

fn missing_operation_rule<'a>(
    bodies: &Bodies<'a>,
    start: usize,
    object: &'a Identifier,
    operation: &'a Operation,
    found: &mut Findings,
)
    ensures { found.new ≡ noted found.old (missing_operation_rule (map body_item_tree (drop start bodies.now)) object.now (operation_tree operation.now)) }
{
    match operation {
        Operation::Subprogram(subprogram, _) => {
            let name = &subprogram.name;
            let is_there = bodies.has_operation(start, object, name);
            found.note_rule(UNMATCHED_BODY, name.place, !is_there);
        }
        Operation::Entry(entry) => {
            let name = &entry.name;
            let is_there = bodies.has_operation(start, object, name);
            found.note_rule(UNMATCHED_BODY, name.place, !is_there);
        }
    }
}

fn missing_operations_faults<'a>(
    bodies: &Bodies<'a>,
    start: usize,
    object: &'a Identifier,
    operations: &'a [Operation],
    found: &mut Findings,
)
    ensures { found.new ≡ noted found.old (missing_operations_faults (map body_item_tree (drop start bodies.now)) object.now
        (map operation_tree operations.now)) }
{
    noted_by_parts();
    for operation in operations {
        missing_operation_rule(bodies, start, object, operation, found);
    }
}

pub(crate) fn missing_faults<'a>(
    bodies: &Bodies<'a>,
    start: usize,
    item: &'a Item,
    found: &mut Findings,
)
    ensures { found.new ≡ noted found.old (missing_faults (map body_item_tree (drop start bodies.now)) (item_tree item.now)) }
{
    noted_by_parts();
    match item {
        Item::Subprogram(subprogram) => {
            missing_body_rule(bodies, start, BodyOf::Subprogram, &subprogram.name, found);
        }
        Item::Task(task) => missing_body_rule(bodies, start, BodyOf::Task, &task.name, found),
        Item::Protected(object) => {
            missing_body_rule(bodies, start, BodyOf::Object, &object.name, found);
            missing_operations_faults(bodies, start, &object.name, &object.operations, found);
        }
        _ => {}
    }
}

pub(crate) fn all_missing_faults<'a>(bodies: &Bodies<'a>, items: &'a [Item], found: &mut Findings)
    ensures { found.new ≡ noted found.old (all_missing_faults (map body_item_tree bodies.now) (map item_tree items.now)) }
{
    noted_by_parts();
    for item in items {
        missing_faults(bodies, 0, item, found);
    }
}

pub(crate) fn body_rule<'a>(front: &Front<'a>, body: &'a Subprogram, found: &mut Findings)
    ensures { found.new ≡ noted found.old (body_rule (front_specified front.now) (front_before front.now) (subprogram_tree body.now)) }
{
    let is_wrong = front.has_body(BodyOf::Subprogram, &body.name) || front.has_unlike(body);
    found.note_rule(UNMATCHED_BODY, body.name.place, is_wrong);
}

pub(crate) fn second_rule<'a>(
    front: &Front<'a>,
    kind: BodyOf,
    name: &'a Identifier,
    found: &mut Findings,
)
    ensures { found.new ≡ noted found.old (second_rule (front_before front.now) kind name.now) }
{
    found.note_rule(UNMATCHED_BODY, name.place, front.has_body(kind, name));
}
