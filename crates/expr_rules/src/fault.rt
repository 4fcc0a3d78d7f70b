//! The least of the faults that are found (docs/LANGUAGE.md, "Rules of expressions").
ghost use Rattle.std.specs.Prelude.{◌≡◌};
ghost use Rattle.expr_rules.specs.Faults.{least, order_of, rule, sooner};

use lexer::Fault;

/// The fault of the rule with this number at this place, if it is broken there.
pub fn rule(number: u8, place: u32, is_broken: bool) -> Option<Fault>
    ensures { result ≡ least (rule number place is_broken) }
{
    if is_broken {
        Some(Fault { number, place })
    } else {
        None
    }
}

// The order in which faults are told: by place, then by number.
fn order_of(fault: Fault) -> u64
    ensures { result ≡ order_of fault }
{
    fault.place as u64 * 256 + fault.number as u64
}

/// The one with the lesser place, and at one place the one with the lesser number.
pub fn sooner(a: Option<Fault>, b: Option<Fault>) -> Option<Fault>
    ensures { result ≡ sooner a b }
{
    match (a, b) {
        (None, b) => b,
        (Some(a), None) => Some(a),
        (Some(a), Some(b)) => {
            if order_of(b) < order_of(a) {
                Some(b)
            } else {
                Some(a)
            }
        }
    }
}
