//! The rules of names and of their parts (RM 4.1, 6.4).
ghost use Rattle.std.specs.Prelude.{◌≡◌, length, option_map};
ghost use Rattle.ada_tree.specs.ExpressionTree.{argument_trees, expr_tree, selector_tree};
ghost use Rattle.types.specs.Entities.{form_value, profile_value, protected_value};
ghost use Rattle.types.specs.Standings.{count, select};
ghost use Rattle.expr_rules.specs.Faults.{least, rule};
ghost use Rattle.expr_rules.specs.Findings.{noted};
ghost use Rattle.expr_rules.specs.NameRules.{actual_rule, call_rule, call_slot, component_rule, conversion_slot, count_rule, end_rule, formal_slot, index_slot, is_changeable, is_doubtful, label_rule, mismatch, operation_rule, part_rule, profile_formals, put_slot, slot_at, slot_rule, slot_wanted, value_rule, variable_rule};

use crate::fault::rule;
use crate::findings::Findings;
use crate::own::{Own, Wanted, is_known, is_wanted};
use ada_tree::laws::{arguments_by_parts, chains_by_parts, names_by_parts};
use ada_tree::{Argument, Expr, Identifier, Mode, Selector};
use base::faults::{NAME_NOT_VISIBLE, NO_MEANING, NOT_A_VARIABLE, WRONG_ARGUMENT_COUNT};
use lexer::Fault;
use types::{
    FormalParameter, Profile, ProtectedObject, Role, Scope, Standing, Subtype, TypeForm, start_of,
};

/// What an argument is expected to be.
#[derive(Clone, Copy, Debug, PartialEq, Eq)]
pub enum Slot {
    Expects(Wanted),
    /// A variable of the type with this number, which the call may change.
    Takes(usize),
    /// The label of `Put`.
    TakesLabel,
}

/// Rule 12 at this place, broken where a type that is known is not the one that is expected.
pub fn note_mismatch(scope: &Scope, wanted: Wanted, own: Own, place: u32, found: &mut Findings)
    ensures { found.new ≡ noted found.old (mismatch scope.now wanted own place) }
{
    found.note_rule(
        NO_MEANING,
        place,
        is_known(own) && !is_wanted(scope, wanted, own),
    );
}

/// Fault 12 at this place where a type that is known is not the one that is expected.
pub fn mismatch(scope: &Scope, wanted: Wanted, own: Own, place: u32) -> Option<Fault>
    ensures { result ≡ least (mismatch scope.now wanted own place) }
{
    rule(
        NO_MEANING,
        place,
        is_known(own) && !is_wanted(scope, wanted, own),
    )
}

pub(crate) fn value_rule(place: u32, standing: Standing, found: &mut Findings)
    ensures { found.new ≡ noted found.old (value_rule place standing) }
{
    match standing {
        Standing::Statement | Standing::Other => found.note_rule(NO_MEANING, place, true),
        _ => {}
    }
}

pub(crate) fn call_rule(place: u32, standing: Standing, found: &mut Findings)
    ensures { found.new ≡ noted found.old (call_rule place standing) }
{
    match standing {
        Standing::Statement | Standing::Doubtful => {}
        _ => found.note_rule(NO_MEANING, place, true),
    }
}

fn is_changeable(role: Role) -> bool
    ensures { result ≡ is_changeable role }
{
    match role {
        Role::Variable | Role::Out | Role::InOut | Role::Component => true,
        _ => false,
    }
}

#[tactic(auto, using(crate::specs::Walks::noted_append))]
pub(crate) fn variable_rule(
    scope: &Scope,
    place: u32,
    wanted: Wanted,
    standing: Standing,
    found: &mut Findings,
)
    ensures { found.new ≡ noted found.old (variable_rule scope.now place wanted standing) }
{
    match standing {
        Standing::Part(role, subtype) => {
            note_mismatch(scope, wanted, Own::Typed(subtype.type_number), place, found);
            found.note_rule(NOT_A_VARIABLE, place, !is_changeable(role));
        }
        Standing::Fixed(subtype, _) => {
            note_mismatch(scope, wanted, Own::Typed(subtype.type_number), place, found);
            found.note_rule(NOT_A_VARIABLE, place, true);
        }
        Standing::Doubtful => {}
        _ => found.note_rule(NO_MEANING, place, true),
    }
}

fn actual_rule(scope: &Scope, wanted: Wanted, e: &Expr, found: &mut Findings)
    ensures { found.new ≡ noted found.old (actual_rule scope.now wanted (expr_tree e.now)) }
{
    names_by_parts();
    chains_by_parts();
    match e {
        Expr::Name(name) => variable_rule(
            scope,
            name.first.place,
            wanted,
            scope.standing(name),
            found,
        ),
        Expr::Chain(..) => found.note_rule(NO_MEANING, start_of(e), true),
        _ => found.note_rule(NO_MEANING, start_of(e), true),
    }
}

fn is_doubtful(standing: Standing) -> bool
    ensures { result ≡ is_doubtful standing }
{
    match standing {
        Standing::Doubtful => true,
        _ => false,
    }
}

fn formal_count(profile: Option<&Profile>) -> usize
    ensures { result ≡ length (profile_formals (option_map (λ p. profile_value p.now) profile.entry)) }
{
    match profile {
        Some(profile) => profile.formals.len(),
        None => 0,
    }
}

fn component_rule(place: u32, name: &Identifier, form: Option<&TypeForm>, found: &mut Findings)
    ensures { found.new ≡ noted found.old (component_rule place name.now (option_map (λ f. form_value f.now) form.entry)) }
{
    match form {
        Some(TypeForm::Record(components)) => found.note_rule(
            NAME_NOT_VISIBLE,
            name.place,
            components.subtype_of(&name.name).is_none(),
        ),
        _ => found.note_rule(NO_MEANING, place, true),
    }
}

fn operation_rule(name: &Identifier, object: Option<&ProtectedObject>, found: &mut Findings)
    ensures { found.new ≡ noted found.old (operation_rule name.now (option_map (λ p. protected_value p.now) object.entry)) }
{
    match object {
        Some(object) => found.note_rule(
            NAME_NOT_VISIBLE,
            name.place,
            object.position_of(&name.name).is_none(),
        ),
        None => found.note_rule(NAME_NOT_VISIBLE, name.place, true),
    }
}

fn count(arguments: &[Argument]) -> usize
    ensures { result ≡ count (argument_trees arguments.now) }
{
    arguments.len()
}

fn count_rule(place: u32, actuals: usize, formals: usize, found: &mut Findings)
    ensures { found.new ≡ noted found.old (count_rule place actuals formals) }
{
    found.note_rule(WRONG_ARGUMENT_COUNT, place, !(actuals == formals))
}

// A part without a rule of its own.
fn other_part(
    scope: &Scope,
    place: u32,
    standing: Standing,
    selector: &Selector,
    found: &mut Findings,
)
    ensures { found.new ≡ noted found.old (rule 12 place (is_doubtful (select scope.now standing (selector_tree selector.now)))) }
{
    found.note_rule(
        NO_MEANING,
        place,
        is_doubtful(scope.select(standing, selector)),
    )
}

pub(crate) fn part_rule(
    scope: &Scope,
    place: u32,
    standing: Standing,
    selector: &Selector,
    found: &mut Findings,
)
    ensures { found.new ≡ noted found.old (part_rule scope.now place standing (selector_tree selector.now)) }
{
    arguments_by_parts();
    match (standing, selector) {
        (Standing::Doubtful, _) => {}
        (Standing::Part(_, subtype), Selector::Component(name)) => {
            component_rule(place, name, scope.form(subtype.type_number), found)
        }
        (Standing::Fixed(subtype, _), Selector::Component(name)) => {
            component_rule(place, name, scope.form(subtype.type_number), found)
        }
        (Standing::Protected(number), Selector::Component(name)) => {
            operation_rule(name, scope.protected(number), found)
        }
        (Standing::Task, Selector::Component(name)) => found.note_rule(
            NAME_NOT_VISIBLE,
            name.place,
            true,
        ),
        (Standing::Callee(callee), Selector::Arguments(arguments)) => count_rule(
            place,
            count(arguments),
            formal_count(scope.callee_profile(callee)),
            found,
        ),
        (Standing::Put, Selector::Arguments(arguments)) => count_rule(
            place,
            count(arguments),
            2,
            found,
        ),
        _ => other_part(scope, place, standing, selector, found),
    }
}

pub(crate) fn end_rule(scope: &Scope, place: u32, standing: Standing, found: &mut Findings)
    ensures { found.new ≡ noted found.old (end_rule scope.now place standing) }
{
    match standing {
        Standing::Callee(callee) => {
            count_rule(place, 0, formal_count(scope.callee_profile(callee)), found)
        }
        Standing::Put => count_rule(place, 0, 2, found),
        _ => {}
    }
}

fn formal_slot(formal: FormalParameter) -> Slot
    ensures { result ≡ formal_slot formal }
{
    match formal.mode {
        Mode::In => Slot::Expects(Wanted::OfType(formal.subtype.type_number)),
        Mode::Out => Slot::Takes(formal.subtype.type_number),
        Mode::InOut => Slot::Takes(formal.subtype.type_number),
    }
}

fn call_slot(profile: Option<&Profile>, index: usize) -> Slot
    ensures { result ≡ call_slot (option_map (λ p. profile_value p.now) profile.entry) index }
{
    match profile {
        Some(profile) => match profile.formals.get(index) {
            Some(formal) => formal_slot(*formal),
            None => Slot::Expects(Wanted::Anything),
        },
        None => Slot::Expects(Wanted::Anything),
    }
}

fn put_slot(index: usize) -> Slot
    ensures { result ≡ put_slot index }
{
    match index {
        0 => Slot::TakesLabel,
        1 => Slot::Expects(Wanted::OfType(Subtype::INTEGER.type_number)),
        _ => Slot::Expects(Wanted::Anything),
    }
}

fn index_slot(form: Option<&TypeForm>) -> Slot
    ensures { result ≡ index_slot (option_map (λ f. form_value f.now) form.entry) }
{
    match form {
        Some(TypeForm::Array(index, _, _)) => Slot::Expects(Wanted::OfType(index.type_number)),
        _ => Slot::Expects(Wanted::Anything),
    }
}

fn conversion_slot(form: Option<&TypeForm>) -> Slot
    ensures { result ≡ conversion_slot (option_map (λ f. form_value f.now) form.entry) }
{
    match form {
        Some(TypeForm::Integer) => Slot::Expects(Wanted::AnyInteger),
        _ => Slot::Expects(Wanted::Anything),
    }
}

pub(crate) fn slot_at(scope: &Scope, standing: Standing, index: usize) -> Slot
    ensures { result ≡ slot_at scope.now standing index }
{
    match standing {
        Standing::Callee(callee) => call_slot(scope.callee_profile(callee), index),
        Standing::Put => put_slot(index),
        Standing::Part(_, subtype) => index_slot(scope.form(subtype.type_number)),
        Standing::Fixed(subtype, _) => index_slot(scope.form(subtype.type_number)),
        Standing::Named(subtype) => conversion_slot(scope.form(subtype.type_number)),
        _ => Slot::Expects(Wanted::Anything),
    }
}

pub(crate) fn slot_wanted(slot: Slot) -> Wanted
    ensures { result ≡ slot_wanted slot }
{
    match slot {
        Slot::Expects(wanted) => wanted,
        Slot::Takes(number) => Wanted::OfType(number),
        Slot::TakesLabel => Wanted::Anything,
    }
}

pub(crate) fn slot_rule(scope: &Scope, slot: Slot, e: &Expr, own: Own, found: &mut Findings)
    ensures { found.new ≡ noted found.old (slot_rule scope.now slot (expr_tree e.now) own) }
{
    match slot {
        Slot::Expects(wanted) => note_mismatch(scope, wanted, own, start_of(e), found),
        Slot::Takes(number) => actual_rule(scope, Wanted::OfType(number), e, found),
        Slot::TakesLabel => found.note_rule(NO_MEANING, start_of(e), true),
    }
}

pub(crate) fn label_rule(slot: Slot, place: u32, found: &mut Findings)
    ensures { found.new ≡ noted found.old (label_rule slot place) }
{
    match slot {
        Slot::TakesLabel => {}
        _ => found.note_rule(NO_MEANING, place, true),
    }
}
