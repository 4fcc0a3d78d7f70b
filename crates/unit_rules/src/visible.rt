//! What is visible in a package: before its first declaration, and after each one of its body.
ghost use Rattle.std.specs.Prelude.{◌≡◌, IfOk, OnOk};
ghost use Rattle.ada_tree.specs.ProgramTree.{body_item_tree, package_tree};
ghost use Rattle.types.specs.Scopes.{standard};
ghost use Rattle.declaration_rules.specs.PackageNames.{body_item_scope, inside_scope};

use crate::units::see_units;
use ada_tree::{BodyItem, Package};
use declaration_rules::declare_item;
use std::alloc::{AllocError, Global};
use type_rules::{declare, declare_subprogram};
use types::{Entity, Scope};

/// What the first declaration of a package sees: the names that are always visible, those of its units, and its own. Memory is the only refusal.
pub fn inside_scope(alloc: Global, package_: &Package) -> Result<Scope, AllocError>
    ensures { IfOk result (λ s. s ≡ inside_scope standard (package_tree package_.now)) }
{
    let mut scope = Scope::standard(alloc)?;
    see_units(alloc, &mut scope, &package_.clauses)?;
    declare(&mut scope, &package_.declaration.name, Entity::Unit)?;
    Ok(scope)
}

/// Makes visible what is visible after a declaration or body in the body of a package. Memory is the only refusal.
pub fn see_body_item(alloc: Global, scope: &mut Scope, item: &BodyItem) -> Result<(), AllocError>
    ensures { OnOk result (scope.new ≡ body_item_scope scope.old (body_item_tree item.now)) }
{
    match item {
        BodyItem::Item(item) => declare_item(alloc, scope, item),
        BodyItem::Subprogram(subprogram, _) => declare_subprogram(alloc, scope, subprogram),
        BodyItem::Task(_, _) => Ok(()),
        BodyItem::Protected(_, _, _) => Ok(()),
    }
}
