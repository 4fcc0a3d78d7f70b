//! The expression and the choices of case statements (RM 5.4).
ghost use Rattle.std.specs.Prelude.{◌≡◌, IfOk, OnOk, None, map};
ghost use Rattle.ada_tree.specs.ExpressionTree.{expr_tree};
ghost use Rattle.ada_tree.specs.StatementTree.{alternative_trees, choices_tree};
ghost use Rattle.expr_rules.specs.Findings.{noted};
ghost use Rattle.stmt_rules.specs.CaseRules.{choice_faults, choice_value, choices_faults, choices_wanted, discrete_rule, has_others, is_chosen, is_discrete, is_others, others_rule, selecting_faults, values_faults};
ghost use Rattle.stmt_rules.specs.Choosing.{chosen_once, once_after, once_by};

use ada_tree::{Alternative, CaseChoices, Expr};
use base::faults::{NO_MEANING, WRONG_CHOICES};
use expr_rules::laws::noted_by_parts;
use expr_rules::{
    Findings, Own, Wanted, expression_faults, is_boolean, is_integral, own_of, static_faults,
    static_scalar, typed_wanted,
};
use indexmap::IndexSet;
use std::alloc::AllocError;
use types::{Scope, Subtype, Value, start_of};

fn is_discrete(scope: &Scope, own: Own) -> bool
    ensures { result ≡ is_discrete scope.now own }
{
    is_integral(scope, own) || is_boolean(scope, own)
}

fn discrete_rule(scope: &Scope, own: Own, place: u32, found: &mut Findings)
    ensures { found.new ≡ noted found.old (discrete_rule scope.now own place) }
{
    match own {
        Own::Unknown => {}
        own => found.note_rule(NO_MEANING, place, !is_discrete(scope, own)),
    }
}

/// The broken rules of the expression of a case statement.
pub(crate) fn selecting_faults(scope: &Scope, e: &Expr, found: &mut Findings)
    ensures { found.new ≡ noted found.old (selecting_faults scope.now (expr_tree e.now)) }
{
    noted_by_parts();
    expression_faults(scope, Wanted::Anything, e, found);
    discrete_rule(scope, own_of(scope, e), start_of(e), found);
}

/// What is expected of the choices for an expression of this type.
pub(crate) fn choices_wanted(scope: &Scope, own: Own) -> Wanted
    ensures { result ≡ choices_wanted scope.now own }
{
    match own {
        Own::Universal => Wanted::OfType(Subtype::INTEGER.type_number),
        own => {
            if is_discrete(scope, own) {
                typed_wanted(own)
            } else {
                Wanted::Anything
            }
        }
    }
}

#[tactic(auto, using(crate::proofs::Choices::known_back))]
fn choice_value(scope: &Scope, wanted: Wanted, e: &Expr) -> Option<Value>
    ensures { result ≡ choice_value scope.now wanted (expr_tree e.now) }
{
    static_scalar(scope, wanted, None, e)
}

// Adds a value to those that are chosen, and says whether it was among them.
fn choose(chosen: &mut IndexSet<Value>, value: Option<Value>) -> Result<bool, AllocError>
    ensures again { IfOk result (λ b. b ≡ is_chosen chosen.old.keys value) }
    ensures chosen { OnOk result (chosen.new.keys ≡ chosen_once chosen.old.keys value) }
{
    match value {
        Some(value) => Ok(!chosen.insert(value)?),
        None => Ok(false),
    }
}

fn choice_faults(
    scope: &Scope,
    wanted: Wanted,
    chosen: &mut IndexSet<Value>,
    e: &Expr,
    found: &mut Findings,
) -> Result<(), AllocError>
    ensures found { OnOk result (found.new ≡ noted found.old (choice_faults scope.now wanted chosen.old.keys (expr_tree e.now))) }
    ensures chosen { OnOk result (chosen.new.keys ≡ chosen_once chosen.old.keys (choice_value scope.now wanted (expr_tree e.now))) }
{
    noted_by_parts();
    static_faults(scope, wanted, None, e, found);
    let is_again = choose(chosen, choice_value(scope, wanted, e))?;
    found.note_rule(WRONG_CHOICES, start_of(e), is_again);
    Ok(())
}

fn values_faults(
    scope: &Scope,
    wanted: Wanted,
    chosen: &mut IndexSet<Value>,
    values: &[Expr],
    found: &mut Findings,
) -> Result<(), AllocError>
    ensures found { OnOk result (found.new ≡ noted found.old (values_faults scope.now wanted chosen.old.keys (map expr_tree values.now))) }
    ensures chosen { OnOk result (chosen.new.keys ≡ once_after scope.now wanted chosen.old.keys (map expr_tree values.now)) }
{
    for e in values {
        choice_faults(scope, wanted, chosen, e, found)?;
    }
    Ok(())
}

/// The broken rules of the choices of an alternative after alternatives that choose these values, to which its own are added. Memory is the only refusal,
/// and may leave some of them added.
pub(crate) fn choices_faults(
    scope: &Scope,
    wanted: Wanted,
    chosen: &mut IndexSet<Value>,
    is_last: bool,
    choices: &CaseChoices,
    found: &mut Findings,
) -> Result<(), AllocError>
    ensures found { OnOk result (found.new ≡ noted found.old (choices_faults scope.now wanted chosen.old.keys is_last (choices_tree choices.now))) }
    ensures chosen { OnOk result (chosen.new.keys ≡ once_by scope.now wanted chosen.old.keys (choices_tree choices.now)) }
{
    match choices {
        CaseChoices::Values(values) => values_faults(scope, wanted, chosen, values, found),
        CaseChoices::Others(place) => {
            found.note_rule(WRONG_CHOICES, *place, !is_last);
            Ok(())
        }
    }
}

fn is_others(choices: &CaseChoices) -> bool
    ensures { result ≡ is_others (choices_tree choices.now) }
{
    match choices {
        CaseChoices::Others(_) => true,
        CaseChoices::Values(_) => false,
    }
}

fn has_others(all: &[Alternative]) -> bool
    ensures { result ≡ has_others (alternative_trees all.now) }
{
    for alternative in all {
        if is_others(&alternative.choices) {
            return true;
        }
    }
    false
}

/// Rule 17 at the place of a case statement, broken where it is without `others`.
pub(crate) fn others_rule(place: u32, all: &[Alternative], found: &mut Findings)
    ensures { found.new ≡ noted found.old (others_rule place (alternative_trees all.now)) }
{
    found.note_rule(WRONG_CHOICES, place, !has_others(all));
}
