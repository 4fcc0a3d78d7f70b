//! Formal parameters and results (RM 6.1).
ghost use Rattle.std.specs.Prelude.{◌≡◌, ◌++◌, ◌||◌, [], IfOk, OnErr, OnOk, nat_le, option_map};
ghost use Rattle.ada_tree.specs.StatementTree.{subprogram_tree};
ghost use Rattle.types.specs.Entities.{entity_value, form_value, profile_value};
ghost use Rattle.types.specs.Scopes.{is_visible};
ghost use Rattle.expr_rules.specs.Faults.{rule};
ghost use Rattle.expr_rules.specs.Findings.{noted};
ghost use Rattle.type_rules.specs.SubtypeNames.{is_composite, is_composite_form, subtype_faults};
ghost use Rattle.type_rules.specs.ProfileRules.{formal_parameters, formals_faults, function_faults, has_wrong_formal, is_in, is_wrong_formal, profile_entity, profile_faults, profile_with, result_faults, subprogram_faults, subprogram_scope};

use crate::names::{declare, note_declared_twice, subtype_faults, subtype_of};
use ada_tree::{Formal, Identifier, Mode, Subprogram};
use base::faults::{DECLARED_TWICE, LIMIT_PASSED, WRONG_FUNCTION};
use base::limits::FORMALS;
use expr_rules::Findings;
use expr_rules::laws::noted_by_parts;
use std::alloc::{AllocError, Global};
use types::{Entity, FormalParameter, Profile, Scope, SeenNames, Subtype, TypeForm};

// A formal parameter behind so many, of which this says whether one before it has its name.
fn formal_faults(
    scope: &Scope,
    before: usize,
    is_second: bool,
    formal: &Formal,
    found: &mut Findings,
)
    ensures { found.new ≡ noted found.old (rule DECLARED_TWICE formal.now.name.place (is_visible scope.now formal.now.name.name || is_second)
        ++ rule LIMIT_PASSED formal.now.name.place (nat_le FORMALS before) ++ subtype_faults scope.now formal.now.subtype) }
{
    noted_by_parts();
    let place = formal.name.place;
    let hides = scope.number_of(&formal.name.name).is_some() || is_second;
    found.note_rule(DECLARED_TWICE, place, hides);
    found.note_rule(LIMIT_PASSED, place, FORMALS <= before);
    subtype_faults(scope, &formal.subtype, found);
}

/// The broken rules of formal parameters. Memory is the only refusal.
pub fn formals_faults(
    alloc: Global,
    scope: &Scope,
    formals: &[Formal],
    found: &mut Findings,
) -> Result<(), AllocError>
    ensures { OnOk result (found.new ≡ noted found.old (formals_faults scope.now [] formals.now)) }
{
    let mut names = SeenNames::new(alloc);
    for (index, formal) in formals.iter().enumerate() {
        let is_second = names.see(&formal.name.name)?;
        formal_faults(scope, index, is_second, formal, found);
    }
    Ok(())
}

fn result_faults(scope: &Scope, given: Option<&Identifier>, found: &mut Findings)
    ensures { found.new ≡ noted found.old (result_faults scope.now (option_map (λ n. n.now) given.entry)) }
{
    match given {
        Some(name) => subtype_faults(scope, name, found),
        None => {}
    }
}

fn is_composite_form(form: Option<&TypeForm>) -> bool
    ensures { result ≡ is_composite_form (option_map (λ f. form_value f.now) form.entry) }
{
    match form {
        Some(TypeForm::Array(_, _, _)) => true,
        Some(TypeForm::Record(_)) => true,
        _ => false,
    }
}

fn is_composite(scope: &Scope, subtype: Option<Subtype>) -> bool
    ensures { result ≡ is_composite scope.now subtype }
{
    match subtype {
        Some(subtype) => is_composite_form(scope.form(subtype.type_number)),
        None => false,
    }
}

fn is_in(mode: Mode) -> bool
    ensures { result ≡ is_in mode }
{
    match mode {
        Mode::In => true,
        _ => false,
    }
}

fn is_wrong_formal(scope: &Scope, formal: &Formal) -> bool
    ensures { result ≡ is_wrong_formal scope.now formal.now }
{
    !is_in(formal.mode) || is_composite(scope, subtype_of(scope, &formal.subtype))
}

fn has_wrong_formal(scope: &Scope, formals: &[Formal]) -> bool
    ensures { result ≡ has_wrong_formal scope.now formals.now }
{
    formals.iter().any(|formal| is_wrong_formal(scope, formal))
}

fn function_faults(
    scope: &Scope,
    name: &Identifier,
    formals: &[Formal],
    given: Option<&Identifier>,
    found: &mut Findings,
)
    ensures { found.new ≡ noted found.old (function_faults scope.now name.now formals.now (option_map (λ n. n.now) given.entry)) }
{
    match given {
        Some(given) => {
            let composite = is_composite(scope, subtype_of(scope, given));
            found.note_rule(
                WRONG_FUNCTION,
                name.place,
                composite || has_wrong_formal(scope, formals),
            );
        }
        None => {}
    }
}

/// The broken rules of the formals and the result of a procedure or function. Memory is the only refusal.
pub fn profile_faults(
    alloc: Global,
    scope: &Scope,
    subprogram: &Subprogram,
    found: &mut Findings,
) -> Result<(), AllocError>
    ensures { OnOk result (found.new ≡ noted found.old (profile_faults scope.now (subprogram_tree subprogram.now))) }
{
    noted_by_parts();
    let given = subprogram.result.as_ref();
    formals_faults(alloc, scope, &subprogram.formals, found)?;
    result_faults(scope, given, found);
    function_faults(scope, &subprogram.name, &subprogram.formals, given, found);
    Ok(())
}

/// The broken rules of the declaration of a procedure or function, its body aside. Memory is the only refusal.
pub fn subprogram_faults(
    alloc: Global,
    scope: &Scope,
    subprogram: &Subprogram,
    found: &mut Findings,
) -> Result<(), AllocError>
    ensures { OnOk result (found.new ≡ noted found.old (subprogram_faults scope.now (subprogram_tree subprogram.now))) }
{
    noted_by_parts();
    profile_faults(alloc, scope, subprogram, found)?;
    note_declared_twice(scope, &subprogram.name, found);
    Ok(())
}

/// The formal parameters, where the subtype of each is known.
pub fn formal_parameters(
    alloc: Global,
    scope: &Scope,
    formals: &[Formal],
) -> Result<Option<Vec<FormalParameter>>, AllocError>
    ensures { IfOk result (λ o. option_map (λ v. v.items) o ≡ formal_parameters scope.now formals.now) }
{
    let mut all = Vec::new(alloc);
    for formal in formals {
        match subtype_of(scope, &formal.subtype) {
            Some(subtype) => all.push(FormalParameter {
                mode: formal.mode,
                subtype,
            })?,
            None => return Ok(None),
        }
    }
    Ok(Some(all))
}

/// The profile with these formals and this result, where both are known.
pub fn profile_with(
    scope: &Scope,
    formals: Option<Vec<FormalParameter>>,
    given: Option<&Identifier>,
) -> Option<Profile>
    ensures { option_map (λ p. profile_value p) result ≡ profile_with scope.now (option_map (λ v. v.items) formals) (option_map (λ n. n.now) given.entry) }
{
    let formals = formals?;
    match given {
        None => Some(Profile {
            formals,
            result: None,
        }),
        Some(name) => match subtype_of(scope, name) {
            Some(subtype) => Some(Profile {
                formals,
                result: Some(subtype),
            }),
            None => None,
        },
    }
}

fn profile_entity(profile: Option<Profile>) -> Entity
    ensures { entity_value result ≡ profile_entity (option_map (λ p. profile_value p) profile) }
{
    match profile {
        Some(profile) => Entity::Subprogram(profile),
        None => Entity::Doubtful,
    }
}

/// Makes a procedure or function visible. Memory is the only refusal, and leaves the scope as it was.
pub fn declare_subprogram(
    alloc: Global,
    scope: &mut Scope,
    subprogram: &Subprogram,
) -> Result<(), AllocError>
    ensures ok { OnOk result (scope.new ≡ subprogram_scope scope.old (subprogram_tree subprogram.now)) }
    ensures err { OnErr result (scope.new ≡ scope.old) }
{
    let formals = formal_parameters(alloc, scope, &subprogram.formals)?;
    let profile = profile_with(scope, formals, subprogram.result.as_ref());
    declare(scope, &subprogram.name, profile_entity(profile))
}
