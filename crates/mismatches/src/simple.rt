//! Conflicts in simple statements (RM 5.1), in ranges, in selecting expressions and in choices.
ghost use Rattle.std.specs.Prelude.{◌≡◌, codes, map};
ghost use Rattle.ada_tree.specs.ExpressionTree.{expr_tree, name_tree};
ghost use Rattle.ada_tree.specs.StatementTree.{choices_tree, optional_tree, range_tree, stmt_tree};
ghost use Rattle.types.specs.Scopes.{number_of};
ghost use Rattle.stmt_rules.specs.CaseRules.{choices_wanted, is_discrete};
ghost use Rattle.stmt_rules.specs.SimpleRules.{assigned_wanted, result_wanted, time_at, time_wanted};
ghost use Rattle.mismatches.specs.Conflicts.{noted, unexpected};
ghost use Rattle.mismatches.specs.ExpressionMismatches.{condition_mismatches};
ghost use Rattle.mismatches.specs.StatementMismatches.{assignment_mismatches, choices_mismatches, discrete_mismatch, last_wanted, optional_mismatches, range_mismatches, return_mismatches, selecting_mismatches, simple_mismatches, values_mismatches};

use crate::conflict::{Conflict, Search, is_known, note_unexpected, noted_by_parts};
use crate::expressions::{mismatches_in, mismatches_of, name_mismatches};
use crate::statics::static_mismatches;
use ada_tree::laws::statements_by_parts;
use ada_tree::{CaseChoices, Expr, NameExpr, Range, Stmt};
use expr_rules::{
    Own, Wanted, is_boolean, is_integral, is_time, own_of, own_of_standing, typed_wanted,
};
use lexer::Text;
use stmt_rules::BodyKind;
use types::{Scope, Subtype, start_of};

/// A condition, which is Boolean (RM 5.3).
pub(crate) fn condition_mismatches(scope: &Scope, e: &Expr, search: &mut Search)
    ensures { search.new ≡ noted search.old (condition_mismatches scope.now (expr_tree e.now)) }
{
    mismatches_of(scope, Wanted::BOOLEAN, e, search);
}

fn optional_mismatches(scope: &Scope, e: &Option<Expr>, search: &mut Search)
    ensures { search.new ≡ noted search.old (optional_mismatches scope.now (optional_tree expr_tree e.now)) }
{
    match e {
        Some(e) => condition_mismatches(scope, e, search),
        None => {}
    }
}

fn assigned_wanted(scope: &Scope, target: &NameExpr) -> Wanted
    ensures { result ≡ assigned_wanted scope.now (name_tree target.now) }
{
    typed_wanted(own_of_standing(scope.standing(target)))
}

fn assignment_mismatches(scope: &Scope, target: &NameExpr, value: &Expr, search: &mut Search)
    ensures { search.new ≡ noted search.old (assignment_mismatches scope.now (name_tree target.now) (expr_tree value.now)) }
{
    noted_by_parts();
    name_mismatches(scope, target, search);
    mismatches_of(scope, assigned_wanted(scope, target), value, search);
}

fn result_wanted(kind: BodyKind) -> Wanted
    ensures { result ≡ result_wanted kind }
{
    match kind {
        BodyKind::Function(Some(number)) => Wanted::OfType(number),
        _ => Wanted::Anything,
    }
}

fn return_mismatches(scope: &Scope, kind: BodyKind, value: &Option<Expr>, search: &mut Search)
    ensures { search.new ≡ noted search.old (return_mismatches scope.now kind (optional_tree expr_tree value.now)) }
{
    match value {
        Some(e) => mismatches_of(scope, result_wanted(kind), e, search),
        None => {}
    }
}

fn time_at(scope: &Scope, number: Option<usize>) -> Wanted
    ensures { result ≡ time_at scope.now number }
{
    match number {
        Some(number) => {
            if is_time(scope, Own::Typed(number)) {
                Wanted::OfType(number)
            } else {
                Wanted::Anything
            }
        }
        None => Wanted::Anything,
    }
}

// Time, where Ada.Real_Time is visible (RM D.8).
fn time_wanted(scope: &Scope) -> Wanted
    ensures { result ≡ time_wanted scope.now }
{
    match Text::new(b"TIME") {
        Some(name) => time_at(scope, scope.number_of(&name)),
        None => unreachable!(),
    }
}

/// A statement without statements in it.
pub(crate) fn simple_mismatches(
    scope: &Scope,
    kind: BodyKind,
    statement: &Stmt,
    search: &mut Search,
)
    ensures { search.new ≡ noted search.old (simple_mismatches scope.now kind (stmt_tree statement.now)) }
{
    statements_by_parts();
    match statement {
        Stmt::Assignment(target, value) => assignment_mismatches(scope, target, value, search),
        Stmt::Call(name) => name_mismatches(scope, name, search),
        Stmt::Exit(_, condition) => optional_mismatches(scope, condition, search),
        Stmt::Return(_, value) => return_mismatches(scope, kind, value, search),
        Stmt::Delay(_, e) => {
            let wanted = Wanted::OfType(Subtype::INTEGER.type_number);
            mismatches_of(scope, wanted, e, search)
        }
        Stmt::DelayUntil(_, e) => mismatches_of(scope, time_wanted(scope), e, search),
        _ => {}
    }
}

fn last_wanted(scope: &Scope, first: Own) -> Wanted
    ensures { result ≡ last_wanted scope.now first }
{
    match first {
        Own::Typed(number) => {
            if is_integral(scope, first) {
                Wanted::OfType(number)
            } else {
                Wanted::AnyInteger
            }
        }
        _ => Wanted::AnyInteger,
    }
}

/// The range of a loop (RM 5.5).
pub(crate) fn range_mismatches(scope: &Scope, range: &Range, search: &mut Search)
    ensures { search.new ≡ noted search.old (range_mismatches scope.now (range_tree range.now)) }
{
    noted_by_parts();
    mismatches_of(scope, Wanted::AnyInteger, &range.first, search);
    mismatches_in(scope, Wanted::AnyInteger, &range.last, search);
    let wanted = last_wanted(scope, own_of(scope, &range.first));
    let own = own_of(scope, &range.last);
    note_unexpected(scope, wanted, own, start_of(&range.last), search);
}

fn is_discrete(scope: &Scope, own: Own) -> bool
    ensures { result ≡ is_discrete scope.now own }
{
    is_integral(scope, own) || is_boolean(scope, own)
}

fn note_discrete(scope: &Scope, own: Own, place: u32, search: &mut Search)
    ensures { search.new ≡ noted search.old (discrete_mismatch scope.now own place) }
{
    search.note(
        place,
        Conflict::NotDiscrete(own),
        is_known(own) && !is_discrete(scope, own),
    );
}

/// The selecting expression of a case statement, which is of an integer type or Boolean (RM 5.4).
pub(crate) fn selecting_mismatches(scope: &Scope, e: &Expr, search: &mut Search)
    ensures { search.new ≡ noted search.old (selecting_mismatches scope.now (expr_tree e.now)) }
{
    noted_by_parts();
    mismatches_of(scope, Wanted::Anything, e, search);
    note_discrete(scope, own_of(scope, e), start_of(e), search);
}

/// What is expected of the choices for an expression of this type (RM 5.4).
pub(crate) fn choices_wanted(scope: &Scope, own: Own) -> Wanted
    ensures { result ≡ choices_wanted scope.now own }
{
    match own {
        Own::Universal => Wanted::OfType(Subtype::INTEGER.type_number),
        own => {
            if is_discrete(scope, own) {
                typed_wanted(own)
            } else {
                Wanted::Anything
            }
        }
    }
}

fn values_mismatches(scope: &Scope, wanted: Wanted, values: &[Expr], search: &mut Search)
    ensures { search.new ≡ noted search.old (values_mismatches scope.now wanted (map expr_tree values.now)) }
{
    noted_by_parts();
    for value in values {
        static_mismatches(scope, wanted, None, value, search);
    }
}

/// The choices of an alternative, of which this is expected.
pub(crate) fn choices_mismatches(
    scope: &Scope,
    wanted: Wanted,
    choices: &CaseChoices,
    search: &mut Search,
)
    ensures { search.new ≡ noted search.old (choices_mismatches scope.now wanted (choices_tree choices.now)) }
{
    match choices {
        CaseChoices::Values(values) => values_mismatches(scope, wanted, values, search),
        CaseChoices::Others(_) => {}
    }
}
