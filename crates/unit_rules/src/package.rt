//! The package (RM 7.1, 7.2).
ghost use Rattle.std.specs.Prelude.{◌≡◌, OnOk, map};
ghost use Rattle.std.specs.List.{list_any};
ghost use Rattle.ada_tree.specs.ProgramTree.{body_item_tree, item_tree, package_tree};
ghost use Rattle.expr_rules.specs.Findings.{noted};
ghost use Rattle.declaration_rules.specs.PackageNames.{body_items_scope, package_scope, specified_scope};
ghost use Rattle.unit_rules.specs.PackageRules.{behind_faults, bodiless_rule, has_body, package_faults, specification_faults};

use crate::package_body::body_items_faults;
use crate::units::{clauses_faults, see_units};
use ada_tree::{Item, Package};
use base::faults::{NAME_NOT_VISIBLE, UNMATCHED_BODY};
use conformance::{matching_faults, same_name};
use declaration_rules::check_items;
use expr_rules::Findings;
use expr_rules::laws::noted_by_parts;
use std::alloc::{AllocError, Global};
use type_rules::{declare, note_declared_twice, note_end_name};
use types::{Entity, Scope};

fn has_body(item: &Item) -> bool
    ensures { result ≡ has_body (item_tree item.now) }
{
    match item {
        Item::Subprogram(_) => true,
        Item::Task(_) => true,
        Item::Protected(_) => true,
        _ => false,
    }
}

fn any_has_body(items: &[Item]) -> bool
    ensures { result ≡ list_any (λ d. has_body (item_tree d)) items.now }
{
    items.iter().any(has_body)
}

#[tactic(auto, using(crate::proofs::Walks::any_of_trees))]
fn bodiless_rule(package_: &Package, found: &mut Findings)
    ensures { found.new ≡ noted found.old (bodiless_rule (package_tree package_.now)) }
{
    let declaration = &package_.declaration;
    let has_none = !any_has_body(&declaration.items);
    found.note_rule(UNMATCHED_BODY, declaration.name.place, has_none);
}

// The specification, which sees these names. What it declares becomes visible.
fn specification_faults(
    alloc: Global,
    scope: &mut Scope,
    package_: &Package,
    found: &mut Findings,
) -> Result<(), AllocError>
    ensures found { OnOk result (found.new ≡ noted found.old (specification_faults scope.old (package_tree package_.now))) }
    ensures scope { OnOk result (scope.new ≡ specified_scope scope.old (package_tree package_.now)) }
{
    noted_by_parts();
    let declaration = &package_.declaration;
    let name = &declaration.name;
    see_units(alloc, scope, &package_.clauses)?;
    clauses_faults(&package_.clauses, found);
    note_declared_twice(scope, name, found);
    declare(scope, name, Entity::Unit)?;
    check_items(alloc, scope, &declaration.items, found)?;
    bodiless_rule(package_, found);
    note_end_name(name, &declaration.end_name, found);
    Ok(())
}

// What follows the specification, in its scope. What the body declares becomes visible.
fn behind_faults(
    alloc: Global,
    scope: &mut Scope,
    package_: &Package,
    found: &mut Findings,
) -> Result<(), AllocError>
    ensures found { OnOk result (found.new ≡ noted found.old (behind_faults scope.old (package_tree package_.now))) }
    ensures scope { OnOk result (scope.new ≡ body_items_scope scope.old (map body_item_tree package_.now.body.items.items)) }
{
    noted_by_parts();
    let name = &package_.declaration.name;
    let body = &package_.body;
    let with = &package_.with_name;
    found.note_rule(
        UNMATCHED_BODY,
        body.name.place,
        !same_name(name, &body.name),
    );
    matching_faults(alloc, &package_.declaration.items, &body.items, found)?;
    body_items_faults(alloc, scope, &body.items, found)?;
    note_end_name(&body.name, &body.end_name, found);
    found.note_rule(NAME_NOT_VISIBLE, with.place, !same_name(name, with));
    Ok(())
}

/// The broken rules of a package with the clauses before it and the `with` after it, its limits aside; and makes visible what is visible after the package.
/// Memory is the only refusal, and may leave some of the names visible.
pub fn package_faults(
    alloc: Global,
    scope: &mut Scope,
    package_: &Package,
    found: &mut Findings,
) -> Result<(), AllocError>
    ensures found { OnOk result (found.new ≡ noted found.old (package_faults scope.old (package_tree package_.now))) }
    ensures scope { OnOk result (scope.new ≡ package_scope scope.old (package_tree package_.now)) }
{
    noted_by_parts();
    specification_faults(alloc, scope, package_, found)?;
    behind_faults(alloc, scope, package_, found)
}
