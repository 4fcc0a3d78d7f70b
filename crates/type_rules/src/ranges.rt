//! Ranges that are declared (RM 3.5): static bounds, and not null.
ghost use Rattle.std.specs.Prelude.{◌≡◌, ◌++◌, option_map};
ghost use Rattle.ada_tree.specs.ExpressionTree.{expr_tree};
ghost use Rattle.ada_tree.specs.StatementTree.{range_tree};
ghost use Rattle.types.specs.Values.{value_of};
ghost use Rattle.expr_rules.specs.Findings.{noted};
ghost use Rattle.type_rules.specs.TypeRules.{bounded, null_rule, range_faults, range_subtype, static_whole, whole_of};

use ada_tree::{Expr, Range};
use base::faults::WRONG_STATIC_VALUE;
use expr_rules::laws::noted_by_parts;
use expr_rules::{Findings, Wanted, static_faults, static_scalar};
use types::{Scope, Subtype, Value, start_of};

fn whole_of(value: Option<Value>) -> Option<i64>
    ensures { result ≡ whole_of (option_map (λ v. value_of v) value) }
{
    match value {
        Some(Value::Number(z)) => Some(z),
        _ => None,
    }
}

// The value of a static bound, where nothing is broken in it.
fn static_whole(scope: &Scope, wanted: Wanted, within: Option<Subtype>, e: &Expr) -> Option<i64>
    ensures { result ≡ static_whole scope.now wanted within (expr_tree e.now) }
{
    whole_of(static_scalar(scope, wanted, within, e))
}

fn null_rule(place: u32, first: Option<i64>, last: Option<i64>, found: &mut Findings)
    ensures { found.new ≡ noted found.old (null_rule place first last) }
{
    match (first, last) {
        (Some(first), Some(last)) => {
            found.note_rule(WRONG_STATIC_VALUE, place, !(first <= last));
        }
        _ => {}
    }
}

/// The broken rules of a range whose bounds are of what is expected, and lie in the subtype, if there is one.
pub(crate) fn range_faults(
    scope: &Scope,
    wanted: Wanted,
    within: Option<Subtype>,
    range: &Range,
    found: &mut Findings,
)
    ensures { found.new ≡ noted found.old (range_faults scope.now wanted within (range_tree range.now)) }
{
    noted_by_parts();
    static_faults(scope, wanted, within, &range.first, found);
    static_faults(scope, wanted, within, &range.last, found);
    let first = static_whole(scope, wanted, within, &range.first);
    let last = static_whole(scope, wanted, within, &range.last);
    null_rule(start_of(&range.first), first, last, found);
}

fn bounded(type_number: usize, first: Option<i64>, last: Option<i64>) -> Option<Subtype>
    ensures { result ≡ bounded type_number first last }
{
    match (first, last) {
        (Some(first), Some(last)) => {
            if first <= last {
                Some(Subtype {
                    type_number,
                    first,
                    last,
                })
            } else {
                None
            }
        }
        _ => None,
    }
}

/// The subtype of this type with these bounds, where nothing is broken in them and the range is not null.
pub(crate) fn range_subtype(
    scope: &Scope,
    type_number: usize,
    wanted: Wanted,
    within: Option<Subtype>,
    range: &Range,
) -> Option<Subtype>
    ensures { result ≡ range_subtype scope.now type_number wanted within (range_tree range.now) }
{
    let first = static_whole(scope, wanted, within, &range.first);
    let last = static_whole(scope, wanted, within, &range.last);
    bounded(type_number, first, last)
}
