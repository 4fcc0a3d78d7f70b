//! Objects, and the declarations of a body or block in order (RM 3.3.1, 3.11).
ghost use Rattle.std.specs.Prelude.{◌≡◌, OnOk, map};
ghost use Rattle.ada_tree.specs.ExpressionTree.{expr_tree};
ghost use Rattle.ada_tree.specs.StatementTree.{declaration_tree, object_tree, optional_tree};
ghost use Rattle.declaration_rules.specs.LocalRules.{local_scope, locals_scope};
ghost use Rattle.mismatches.specs.Conflicts.{noted};
ghost use Rattle.mismatches.specs.StatementMismatches.{initial_mismatches, local_mismatches, locals_mismatches, object_mismatches};

use crate::conflict::{Search, noted_by_parts};
use crate::expressions::mismatches_of;
use crate::statics::fixed_initial_mismatches;
use ada_tree::{Declaration, Expr, ObjectDeclaration};
use declaration_rules::{declare_protected, declare_task};
use expr_rules::Wanted;
use std::alloc::{AllocError, Global};
use type_rules::{declare_local_object, subtype_of, wanted_by};
use types::Scope;

// An initial value of which this is expected.
fn initial_mismatches(scope: &Scope, wanted: Wanted, value: &Option<Expr>, search: &mut Search)
    ensures { search.new ≡ noted search.old (initial_mismatches scope.now wanted (optional_tree expr_tree value.now)) }
{
    match value {
        Some(e) => mismatches_of(scope, wanted, e, search),
        None => {}
    }
}

/// The declaration of an object, whose initial value must be static where it is fixed.
pub(crate) fn object_mismatches(
    scope: &Scope,
    is_fixed: bool,
    object: &ObjectDeclaration,
    search: &mut Search,
)
    ensures { search.new ≡ noted search.old (object_mismatches scope.now is_fixed (object_tree object.now)) }
{
    let subtype = subtype_of(scope, &object.subtype);
    if is_fixed {
        fixed_initial_mismatches(scope, subtype, &object.value, search);
    } else {
        initial_mismatches(scope, wanted_by(subtype), &object.value, search);
    }
}

// A declaration, whose name becomes visible.
fn local_mismatches(
    alloc: Global,
    scope: &mut Scope,
    is_fixed: bool,
    declaration: &Declaration,
    search: &mut Search,
) -> Result<(), AllocError>
    ensures search { OnOk result (search.new ≡ noted search.old (local_mismatches scope.old is_fixed (declaration_tree declaration.now))) }
    ensures scope { OnOk result (scope.new ≡ local_scope scope.old (declaration_tree declaration.now)) }
{
    match declaration {
        Declaration::Object(object) => {
            object_mismatches(scope, is_fixed, object, search);
            declare_local_object(scope, object)
        }
        Declaration::Task(task) => declare_task(scope, task),
        Declaration::Protected(object) => declare_protected(alloc, scope, object),
    }
}

/// The declarations of a body or block, whose names become visible, each from its end on; their initial values must be static where they are fixed. Memory is
/// the only refusal.
pub(crate) fn locals_mismatches(
    alloc: Global,
    scope: &mut Scope,
    is_fixed: bool,
    declarations: &[Declaration],
    search: &mut Search,
) -> Result<(), AllocError>
    ensures search { OnOk result (search.new ≡ noted search.old (locals_mismatches scope.old is_fixed (map declaration_tree declarations.now))) }
    ensures scope { OnOk result (scope.new ≡ locals_scope scope.old (map declaration_tree declarations.now)) }
{
    noted_by_parts();
    for declaration in declarations {
        local_mismatches(alloc, scope, is_fixed, declaration, search)?;
    }
    Ok(())
}
