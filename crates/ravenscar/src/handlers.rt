//! Handlers of interrupts (RM C.3.1, D.3): aspects of operations, their channels, and ceilings.
ghost use Rattle.std.specs.Prelude.{◌≡◌, ◌≤◌, IfSome, map, option_map};
ghost use Rattle.base.specs.declared.limits.TheConstants.{CHANNELS};
ghost use Rattle.ada_tree.specs.StatementTree.{aspect_tree, operation_tree, subprogram_tree};
ghost use Rattle.types.specs.Values.{value_of};
ghost use Rattle.expr_rules.specs.Findings.{noted};
ghost use Rattle.ravenscar.specs.HandlerRules.{attachment_faults, ceiling_faults, has_formals, is_highest, is_lower, is_taken, none_taken, operation_aspect_faults, operations_aspects_faults, taken_behind, taken_by_all, with_channel};

use ada_tree::{Aspect, Formal, Operation, Subprogram};
use base::faults::{
    HANDLER_CEILING, HANDLER_PROFILE, SECOND_HANDLER, WRONG_ASPECT, WRONG_INTERRUPT,
};
use base::limits::{CEILING, CHANNELS};
use declaration_rules::{attached_channel, has_handler, is_attachment, is_priority};
use expr_rules::laws::noted_by_parts;
use expr_rules::{Findings, Wanted, static_scalar};
use types::{Scope, Subtype, Value, start_of};

/// How many numbers of channels there are, 0 among them, which none has.
pub(crate) const CHANNEL_NUMBERS: usize = CHANNELS as usize + 1;

/// No channel has a handler.
pub(crate) fn none_taken() -> [bool; CHANNEL_NUMBERS]
    ensures { result ≡ none_taken }
{
    [false; CHANNEL_NUMBERS]
}

fn is_taken(taken: &[bool; CHANNEL_NUMBERS], channel: Option<u8>) -> bool
    requires { IfSome channel (λ c. c ≤ CHANNELS) }
    ensures { result ≡ is_taken taken.now channel }
{
    match channel {
        None => false,
        Some(channel) => taken[usize::from(channel)],
    }
}

fn take(taken: &mut [bool; CHANNEL_NUMBERS], channel: Option<u8>)
    requires { IfSome channel (λ c. c ≤ CHANNELS) }
    ensures { taken.new ≡ with_channel taken.old channel }
{
    if let Some(channel) = channel {
        taken[usize::from(channel)] = true;
    }
}

fn has_formals(formals: &[Formal]) -> bool
    ensures { result ≡ has_formals formals.now }
{
    !formals.is_empty()
}

// 70, 72 and 71 of an operation with this aspect.
fn attachment_faults(
    scope: &Scope,
    taken: &[bool; CHANNEL_NUMBERS],
    subprogram: &Subprogram,
    aspect: &Aspect,
    found: &mut Findings,
)
    ensures { found.new ≡ noted found.old (attachment_faults scope.now taken.now (subprogram_tree subprogram.now) (aspect_tree aspect.now)) }
{
    noted_by_parts();
    let channel = attached_channel(scope, aspect);
    let is_other = subprogram.result.is_some() || has_formals(&subprogram.formals);
    found.note_rule(HANDLER_PROFILE, aspect.place, is_other);
    found.note_rule(SECOND_HANDLER, aspect.place, is_taken(taken, channel));
    found.note_rule(WRONG_INTERRUPT, start_of(&aspect.value), channel.is_none());
}

fn operation_aspect_faults(
    scope: &Scope,
    taken: &[bool; CHANNEL_NUMBERS],
    operation: &Operation,
    found: &mut Findings,
)
    ensures { found.new ≡ noted found.old (operation_aspect_faults scope.now taken.now (operation_tree operation.now)) }
{
    if let Operation::Subprogram(subprogram, Some(aspect)) = operation {
        if is_attachment(aspect) {
            attachment_faults(scope, taken, subprogram, aspect, found);
        } else {
            found.note_rule(WRONG_ASPECT, aspect.place, true);
        }
    }
}

fn take_behind(scope: &Scope, taken: &mut [bool; CHANNEL_NUMBERS], operation: &Operation)
    ensures { taken.new ≡ taken_behind scope.now taken.old (operation_tree operation.now) }
{
    if let Operation::Subprogram(_, Some(aspect)) = operation {
        if is_attachment(aspect) {
            take(taken, attached_channel(scope, aspect));
        }
    }
}

/// Notes each restriction that aspects of operations break, whose channels are taken then (38, 70 to 72).
pub(crate) fn operations_aspects_faults(
    scope: &Scope,
    taken: &mut [bool; CHANNEL_NUMBERS],
    operations: &[Operation],
    found: &mut Findings,
)
    ensures found { found.new ≡ noted found.old (operations_aspects_faults scope.now taken.old (map operation_tree operations.now)) }
    ensures taken { taken.new ≡ taken_by_all scope.now taken.old (map operation_tree operations.now) }
{
    noted_by_parts();
    for operation in operations {
        operation_aspect_faults(scope, taken, operation, found);
        take_behind(scope, taken, operation);
    }
}

fn is_highest(value: Option<Value>) -> bool
    ensures { result ≡ is_highest (option_map (λ v. value_of v) value) }
{
    match value {
        Some(Value::Number(number)) => number == CEILING as i64,
        _ => false,
    }
}

fn is_lower(scope: &Scope, aspect: &Aspect) -> bool
    ensures { result ≡ is_lower scope.now (aspect_tree aspect.now) }
{
    let wanted = Wanted::OfType(Subtype::INTEGER.type_number);
    is_priority(aspect) && !is_highest(static_scalar(scope, wanted, None, &aspect.value))
}

/// Notes fault 73 where an object has a handler and an aspect Priority that isn't the highest (RM C.3.1).
pub(crate) fn ceiling_faults(
    scope: &Scope,
    operations: &[Operation],
    aspect: Option<&Aspect>,
    found: &mut Findings,
)
    ensures { found.new ≡ noted found.old (ceiling_faults scope.now (map operation_tree operations.now) (option_map (λ a. aspect_tree a.now) aspect.entry)) }
{
    if let Some(aspect) = aspect {
        let is_low = has_handler(operations) && is_lower(scope, aspect);
        found.note_rule(HANDLER_CEILING, aspect.place, is_low);
    }
}
