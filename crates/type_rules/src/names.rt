//! New names, names after `end`, and names of subtypes (RM 8.3, 7.1, 3.2).
ghost use Rattle.std.specs.Prelude.{◌≡◌, option_map, OnErr, OnOk};
ghost use Rattle.types.specs.Entities.{entity_value};
ghost use Rattle.types.specs.Scopes.{with_name};
ghost use Rattle.expr_rules.specs.Findings.{noted};
ghost use Rattle.type_rules.specs.SubtypeNames.{declared_twice, end_rule, if_integer, is_other, named_entity, subtype_faults, subtype_in, subtype_of, subtype_rule, wanted_by};

use ada_tree::Identifier;
use base::faults::{DECLARED_TWICE, NAME_NOT_VISIBLE, NO_MEANING, WRONG_END_NAME};
use expr_rules::{Findings, Own, Wanted, is_integral};
use std::alloc::AllocError;
use types::{Entity, Scope, Subtype};

/// What the name denotes, if it is visible.
pub fn named_entity<'a>(scope: &'a Scope, name: &Identifier) -> Option<&'a Entity>
    ensures { option_map (λ e. entity_value e.now) result ≡ named_entity scope.now name.now }
{
    match scope.number_of(&name.name) {
        Some(number) => scope.entity(number),
        None => None,
    }
}

/// Rule 11, broken where the name is visible already (RM 8.3).
pub fn note_declared_twice(scope: &Scope, name: &Identifier, found: &mut Findings)
    ensures { found.new ≡ noted found.old (declared_twice scope.now name.now) }
{
    found.note_rule(
        DECLARED_TWICE,
        name.place,
        scope.number_of(&name.name).is_some(),
    );
}

/// Rule 22, broken where the name after an `end` is not that of what ends there (RM 7.1).
pub fn note_end_name(name: &Identifier, end_name: &Identifier, found: &mut Findings)
    ensures { found.new ≡ noted found.old (end_rule name.now end_name.now) }
{
    found.note_rule(
        WRONG_END_NAME,
        end_name.place,
        !(name.name.as_bytes() == end_name.name.as_bytes()),
    );
}

/// Makes the name visible, unless one like it is: the first keeps the name. Memory is the only refusal, and leaves the scope as it was.
pub fn declare(scope: &mut Scope, name: &Identifier, entity: Entity) -> Result<(), AllocError>
    ensures ok { OnOk result (scope.new ≡ with_name scope.old name.now.name (entity_value entity)) }
    ensures err { OnErr result (scope.new ≡ scope.old) }
{
    let name = name.name.clone()?;
    scope.add(name, entity)
}

fn subtype_in(entity: Option<&Entity>) -> Option<Subtype>
    ensures { result ≡ subtype_in (option_map (λ e. entity_value e.now) entity.entry) }
{
    match entity {
        Some(Entity::Type(_, subtype)) => Some(*subtype),
        Some(Entity::Subtype(subtype)) => Some(*subtype),
        _ => None,
    }
}

/// The subtype that the name denotes, if it is one.
pub fn subtype_of(scope: &Scope, name: &Identifier) -> Option<Subtype>
    ensures { result ≡ subtype_of scope.now name.now }
{
    subtype_in(named_entity(scope, name))
}

fn note_subtype_rule(place: u32, entity: Option<&Entity>, found: &mut Findings)
    ensures { found.new ≡ noted found.old (subtype_rule place (option_map (λ e. entity_value e.now) entity.entry)) }
{
    match entity {
        None => found.note_rule(NAME_NOT_VISIBLE, place, true),
        Some(Entity::Type(_, _)) => {}
        Some(Entity::Subtype(_)) => {}
        Some(Entity::Doubtful) => {}
        Some(_) => found.note_rule(NO_MEANING, place, true),
    }
}

/// The rules of a name that is to be one of a subtype: 10 where it is not visible, 12 where it denotes something else.
pub fn subtype_faults(scope: &Scope, name: &Identifier, found: &mut Findings)
    ensures { found.new ≡ noted found.old (subtype_faults scope.now name.now) }
{
    note_subtype_rule(name.place, named_entity(scope, name), found);
}

/// What is expected of a value for an object of the subtype.
pub fn wanted_by(subtype: Option<Subtype>) -> Wanted
    ensures { result ≡ wanted_by subtype }
{
    match subtype {
        Some(subtype) => Wanted::OfType(subtype.type_number),
        None => Wanted::Anything,
    }
}

/// The subtype, if it is known and an integer one.
pub(crate) fn if_integer(scope: &Scope, subtype: Option<Subtype>) -> Option<Subtype>
    ensures { result ≡ if_integer scope.now subtype }
{
    match subtype {
        Some(subtype) => {
            if is_integral(scope, Own::Typed(subtype.type_number)) {
                Some(subtype)
            } else {
                None
            }
        }
        None => None,
    }
}

/// Whether the subtype is known and no integer one.
pub(crate) fn is_other(scope: &Scope, subtype: Option<Subtype>) -> bool
    ensures { result ≡ is_other scope.now subtype }
{
    match subtype {
        Some(subtype) => !is_integral(scope, Own::Typed(subtype.type_number)),
        None => false,
    }
}
