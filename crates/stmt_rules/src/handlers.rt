//! The choices of exception handlers (RM 11.2).
ghost use Rattle.std.specs.Prelude.{◌≡◌, ◌&&◌, OnOk, option_map};
ghost use Rattle.types.specs.Entities.{entity_value};
ghost use Rattle.expr_rules.specs.Findings.{noted};
ghost use Rattle.stmt_rules.specs.HandlerRules.{exception_choice_faults, exception_choices_faults, exception_rule, is_single};
ghost use Rattle.stmt_rules.specs.Choosing.{seen_after, seen_by};

use ada_tree::ExceptionChoice;
use base::faults::{NAME_NOT_VISIBLE, WRONG_HANDLER};
use expr_rules::Findings;
use std::alloc::AllocError;
use type_rules::named_entity;
use types::{Entity, Scope, SeenNames};

fn exception_rule(place: u32, is_repeated: bool, entity: Option<&Entity>, found: &mut Findings)
    ensures { found.new ≡ noted found.old (exception_rule place is_repeated (option_map (λ e. entity_value e.now) entity.entry)) }
{
    match entity {
        None => found.note_rule(NAME_NOT_VISIBLE, place, true),
        Some(Entity::Exception) => found.note_rule(WRONG_HANDLER, place, is_repeated),
        Some(Entity::Doubtful) => {}
        Some(_) => found.note_rule(WRONG_HANDLER, place, true),
    }
}

// A choice after those that name these exceptions, to which its own is added.
fn exception_choice_faults(
    scope: &Scope,
    named: &mut SeenNames,
    is_single_last: bool,
    choice: &ExceptionChoice,
    found: &mut Findings,
) -> Result<(), AllocError>
    ensures found { OnOk result (found.new ≡ noted found.old (exception_choice_faults scope.now named.old is_single_last choice.now)) }
    ensures named { OnOk result (named.new ≡ seen_by named.old choice.now) }
{
    match choice {
        ExceptionChoice::Exception(name) => {
            let is_repeated = named.see(&name.name)?;
            exception_rule(name.place, is_repeated, named_entity(scope, name), found);
        }
        ExceptionChoice::Others(place) => found.note_rule(WRONG_HANDLER, *place, !is_single_last),
    }
    Ok(())
}

fn choices_faults(
    scope: &Scope,
    named: &mut SeenNames,
    is_single_last: bool,
    choices: &[ExceptionChoice],
    found: &mut Findings,
) -> Result<(), AllocError>
    ensures found { OnOk result (found.new ≡ noted found.old (exception_choices_faults scope.now named.old is_single_last choices.now)) }
    ensures named { OnOk result (named.new ≡ seen_after named.old choices.now) }
{
    for choice in choices {
        exception_choice_faults(scope, named, is_single_last, choice, found)?;
    }
    Ok(())
}

fn is_single(choices: &[ExceptionChoice]) -> bool
    ensures { result ≡ is_single choices.now }
{
    choices.len() == 1
}

/// The broken rules of the choices of a handler after handlers that name these exceptions, to which its own are added. Memory is the only refusal, and may
/// leave some of them added.
pub(crate) fn handler_choices_faults(
    scope: &Scope,
    named: &mut SeenNames,
    is_last: bool,
    choices: &[ExceptionChoice],
    found: &mut Findings,
) -> Result<(), AllocError>
    ensures found { OnOk result (found.new ≡ noted found.old (exception_choices_faults scope.now named.old (is_single choices.now && is_last) choices.now)) }
    ensures named { OnOk result (named.new ≡ seen_after named.old choices.now) }
{
    choices_faults(scope, named, is_single(choices) && is_last, choices, found)
}
