//! Expressions that must be static (RM 4.9).
ghost use Rattle.std.specs.Prelude.{◌≡◌, ◌++◌, Option, option_map};
ghost use Rattle.ada_tree.specs.ExpressionTree.{expr_tree};
ghost use Rattle.types.specs.Values.{value_of};
ghost use Rattle.types.specs.Statics.{start_of, static_form, static_value};
ghost use Rattle.expr_rules.specs.Faults.{least};
ghost use Rattle.expr_rules.specs.Findings.{noted};
ghost use Rattle.expr_rules.specs.StaticRules.{form_rule, is_outside, static_faults, static_scalar, value_rule};

use crate::findings::Findings;
use crate::own::Wanted;
use crate::walk::{expression_fault, expression_faults};
use ada_tree::Expr;
use base::faults::{NOT_STATIC, WRONG_STATIC_VALUE};
use lexer::Fault;
use types::{Scope, StaticForm, Subtype, Value, start_of, static_value};

fn form_rule(place: u32, form: StaticForm, found: &mut Findings)
    ensures { found.new ≡ noted found.old (form_rule place form) }
{
    match form {
        StaticForm::NotStatic => found.note_rule(NOT_STATIC, place, true),
        _ => {}
    }
}

fn is_outside(within: Option<Subtype>, value: Value) -> bool
    ensures { result ≡ is_outside within (value_of value) }
{
    match within {
        Some(subtype) => !subtype.fits(value),
        None => false,
    }
}

fn value_rule(scope: &Scope, within: Option<Subtype>, e: &Expr, found: &mut Findings)
    ensures { found.new ≡ noted found.old (value_rule (start_of (expr_tree e.now)) within (static_form scope.now (expr_tree e.now))
        (static_value scope.now (expr_tree e.now))) }
{
    match static_value(scope, e) {
        Ok(value) => {
            found.note_rule(WRONG_STATIC_VALUE, start_of(e), is_outside(within, value));
        }
        Err(fault) => found.note_rule(
            WRONG_STATIC_VALUE,
            start_of(e),
            fault.number == WRONG_STATIC_VALUE,
        ),
    }
}

/// The broken rules of an expression that must be static, of which this is expected, and whose value must lie in the subtype, if there is one: 14 where it is
/// not static, 15 where nothing else is broken and its evaluation raises or leaves the subtype (docs/LANGUAGE.md, "Rules of expressions").
#[tactic(auto, using(crate::specs::Walks::noted_append))]
pub fn static_faults(
    scope: &Scope,
    wanted: Wanted,
    within: Option<Subtype>,
    e: &Expr,
    found: &mut Findings,
)
    ensures { found.new ≡ noted found.old (static_faults scope.now wanted within (expr_tree e.now)) }
{
    let form = scope.static_form(e);
    match expression_fault(scope, wanted, e) {
        None => {
            form_rule(start_of(e), form, found);
            value_rule(scope, within, e, found);
        }
        Some(_) => {
            expression_faults(scope, wanted, e, found);
            form_rule(start_of(e), form, found);
        }
    }
}

/// The least fault in an expression that must be static, of which this is expected, and whose value must lie in the subtype, if there is one: 14 where it is
/// not static, 15 where nothing else is broken and its evaluation raises or leaves the subtype (docs/LANGUAGE.md, "Rules of expressions").
#[tactic(auto, using(crate::proofs::Noted::least_found))]
pub fn static_fault(
    scope: &Scope,
    wanted: Wanted,
    within: Option<Subtype>,
    e: &Expr,
) -> Option<Fault>
    ensures { result ≡ least (static_faults scope.now wanted within (expr_tree e.now)) }
{
    let mut found = Findings::new();
    static_faults(scope, wanted, within, e, &mut found);
    found.least()
}

/// The value of such an expression, where nothing is broken in it and the value is known.
pub fn static_scalar(
    scope: &Scope,
    wanted: Wanted,
    within: Option<Subtype>,
    e: &Expr,
) -> Option<Value>
    ensures { option_map (λ v. value_of v) result ≡ static_scalar scope.now wanted within (expr_tree e.now) }
{
    match static_fault(scope, wanted, within, e) {
        None => match static_value(scope, e) {
            Ok(value) => Some(value),
            Err(_) => None,
        },
        Some(_) => None,
    }
}
