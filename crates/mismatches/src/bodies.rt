//! Types that don't match in bodies of subprograms, entries and tasks (RM 6.3, 9.1, 9.5.2).
ghost use Rattle.std.specs.Prelude.{◌≡◌, OnOk};
ghost use Rattle.ada_tree.specs.ProgramTree.{body_tree};
ghost use Rattle.ada_tree.specs.StatementTree.{subprogram_tree};
ghost use Rattle.unit_rules.specs.BodyRules.{kind_of, type_number};
ghost use Rattle.mismatches.specs.Conflicts.{noted};
ghost use Rattle.mismatches.specs.BodyMismatches.{body_mismatches, subprogram_mismatches};

use crate::conflict::{Search, noted_by_parts};
use crate::locals::locals_mismatches;
use crate::statements::sequence_mismatches;
use ada_tree::{Body, Identifier, Subprogram};
use declaration_rules::declare_formals;
use declaration_rules::laws::names_are_added;
use std::alloc::{AllocError, Global};
use stmt_rules::BodyKind;
use type_rules::{declare_subprogram, subtype_of};
use types::{Scope, Subtype};

/// A body of this kind, which sees the names of the scope; the initial values of its declarations must be static where they are fixed. The scope stays as it
/// was. Memory is the only refusal, and may leave names of the body visible.
pub(crate) fn body_mismatches(
    alloc: Global,
    scope: &mut Scope,
    is_fixed: bool,
    kind: BodyKind,
    body: &Body,
    search: &mut Search,
) -> Result<(), AllocError>
    ensures search { OnOk result (search.new ≡ noted search.old (body_mismatches scope.old is_fixed kind (body_tree body.now))) }
    ensures scope { OnOk result (scope.new ≡ scope.old) }
{
    noted_by_parts();
    names_are_added();
    let len = scope.len();
    locals_mismatches(alloc, scope, is_fixed, &body.declarations, search)?;
    sequence_mismatches(alloc, scope, kind, &body.statements, &body.handlers, search)?;
    scope.truncate(len);
    Ok(())
}

fn type_number(subtype: Option<Subtype>) -> Option<usize>
    ensures { result ≡ type_number subtype }
{
    match subtype {
        Some(subtype) => Some(subtype.type_number),
        None => None,
    }
}

fn kind_of(scope: &Scope, given: &Option<Identifier>) -> BodyKind
    ensures { result ≡ kind_of scope.now given.now }
{
    match given {
        Some(name) => BodyKind::Function(type_number(subtype_of(scope, name))),
        None => BodyKind::Procedure,
    }
}

/// The body of a procedure or function. The scope stays as it was. Memory is the only refusal, and may leave names of the body visible.
pub(crate) fn subprogram_mismatches(
    alloc: Global,
    scope: &mut Scope,
    subprogram: &Subprogram,
    body: &Body,
    search: &mut Search,
) -> Result<(), AllocError>
    ensures search { OnOk result (search.new ≡ noted search.old (subprogram_mismatches scope.old (subprogram_tree subprogram.now) (body_tree body.now))) }
    ensures scope { OnOk result (scope.new ≡ scope.old) }
{
    names_are_added();
    let len = scope.len();
    let kind = kind_of(scope, &subprogram.result);
    declare_subprogram(alloc, scope, subprogram)?;
    declare_formals(scope, &subprogram.formals)?;
    body_mismatches(alloc, scope, false, kind, body, search)?;
    scope.truncate(len);
    Ok(())
}
