//! What the arguments of a name are expected to be: actual parameters, indexes, the operand of a conversion (RM 4.1.1, 4.6, 6.4.1).
ghost use Rattle.std.specs.Prelude.{◌≡◌, option_map};
ghost use Rattle.ada_tree.specs.ExpressionTree.{expr_tree};
ghost use Rattle.types.specs.Entities.{form_value, profile_value};
ghost use Rattle.expr_rules.specs.NameRules.{call_slot, conversion_slot, formal_slot, index_slot, put_slot, slot_at};
ghost use Rattle.mismatches.specs.Conflicts.{noted};
ghost use Rattle.mismatches.specs.ExpressionMismatches.{actual_mismatch, slot_mismatch, variable_mismatch};

use crate::conflict::{Conflict, Search, note_unexpected};
use ada_tree::laws::{chains_by_parts, names_by_parts};
use ada_tree::{Expr, Mode};
use expr_rules::{Own, Slot, Wanted};
use types::{FormalParameter, Profile, Scope, Standing, Subtype, TypeForm, start_of};

fn formal_slot(formal: FormalParameter) -> Slot
    ensures { result ≡ formal_slot formal }
{
    match formal.mode {
        Mode::In => Slot::Expects(Wanted::OfType(formal.subtype.type_number)),
        Mode::Out => Slot::Takes(formal.subtype.type_number),
        Mode::InOut => Slot::Takes(formal.subtype.type_number),
    }
}

fn call_slot(profile: Option<&Profile>, index: usize) -> Slot
    ensures { result ≡ call_slot (option_map (λ p. profile_value p.now) profile.entry) index }
{
    match profile {
        Some(profile) => match profile.formals.get(index) {
            Some(formal) => formal_slot(*formal),
            None => Slot::Expects(Wanted::Anything),
        },
        None => Slot::Expects(Wanted::Anything),
    }
}

fn put_slot(index: usize) -> Slot
    ensures { result ≡ put_slot index }
{
    match index {
        0 => Slot::TakesLabel,
        1 => Slot::Expects(Wanted::OfType(Subtype::INTEGER.type_number)),
        _ => Slot::Expects(Wanted::Anything),
    }
}

fn index_slot(form: Option<&TypeForm>) -> Slot
    ensures { result ≡ index_slot (option_map (λ f. form_value f.now) form.entry) }
{
    match form {
        Some(TypeForm::Array(index, _, _)) => Slot::Expects(Wanted::OfType(index.type_number)),
        _ => Slot::Expects(Wanted::Anything),
    }
}

fn conversion_slot(form: Option<&TypeForm>) -> Slot
    ensures { result ≡ conversion_slot (option_map (λ f. form_value f.now) form.entry) }
{
    match form {
        Some(TypeForm::Integer) => Slot::Expects(Wanted::AnyInteger),
        _ => Slot::Expects(Wanted::Anything),
    }
}

/// What the argument with this number, from 0 on, is expected to be where the name denotes this before it.
pub(crate) fn slot_at(scope: &Scope, standing: Standing, index: usize) -> Slot
    ensures { result ≡ slot_at scope.now standing index }
{
    match standing {
        Standing::Callee(callee) => call_slot(scope.callee_profile(callee), index),
        Standing::Put => put_slot(index),
        Standing::Part(_, subtype) => index_slot(scope.form(subtype.type_number)),
        Standing::Fixed(subtype, _) => index_slot(scope.form(subtype.type_number)),
        Standing::Named(subtype) => conversion_slot(scope.form(subtype.type_number)),
        _ => Slot::Expects(Wanted::Anything),
    }
}

fn note_variable(scope: &Scope, place: u32, wanted: Wanted, standing: Standing, search: &mut Search)
    ensures { search.new ≡ noted search.old (variable_mismatch scope.now place wanted standing) }
{
    match standing {
        Standing::Part(_, subtype) => {
            note_unexpected(
                scope,
                wanted,
                Own::Typed(subtype.type_number),
                place,
                search,
            )
        }
        Standing::Fixed(subtype, _) => {
            note_unexpected(
                scope,
                wanted,
                Own::Typed(subtype.type_number),
                place,
                search,
            )
        }
        Standing::Doubtful => {}
        _ => search.note(place, Conflict::NoVariable, true),
    }
}

fn note_actual(scope: &Scope, wanted: Wanted, e: &Expr, search: &mut Search)
    ensures { search.new ≡ noted search.old (actual_mismatch scope.now wanted (expr_tree e.now)) }
{
    names_by_parts();
    chains_by_parts();
    match e {
        Expr::Name(name) => note_variable(
            scope,
            name.first.place,
            wanted,
            scope.standing(name),
            search,
        ),
        Expr::Chain(..) => search.note(start_of(e), Conflict::NoVariable, true),
        _ => search.note(start_of(e), Conflict::NoVariable, true),
    }
}

/// The expression, of this type, as the argument that is expected to be this.
pub(crate) fn note_argument(scope: &Scope, slot: Slot, e: &Expr, own: Own, search: &mut Search)
    ensures { search.new ≡ noted search.old (slot_mismatch scope.now slot (expr_tree e.now) own) }
{
    match slot {
        Slot::Expects(wanted) => note_unexpected(scope, wanted, own, start_of(e), search),
        Slot::Takes(number) => note_actual(scope, Wanted::OfType(number), e, search),
        Slot::TakesLabel => {}
    }
}
