//! Exceptions, tasks and priorities (RM 11.1, 9.1, D.1).
ghost use Rattle.std.specs.Prelude.{◌≡◌, ◌≤◌, ◌++◌, IfSome, OnErr, OnOk, option_map};
ghost use Rattle.base.specs.declared.limits.TheConstants.{CHANNELS};
ghost use Rattle.ada_tree.specs.StatementTree.{aspect_tree, optional_tree, task_definition_tree, task_tree};
ghost use Rattle.types.specs.Values.{value_of};
ghost use Rattle.expr_rules.specs.Findings.{noted};
ghost use Rattle.declaration_rules.specs.HandlerChannels.{attached_channel, channel_of};
ghost use Rattle.declaration_rules.specs.TaskRules.{aspect_faults, aspect_wanted, exception_scope, is_attachment, is_priority, operation_aspect_faults, priority_of, priority_within, task_end_faults, task_faults, task_scope};

use ada_tree::{Aspect, Identifier, TaskDeclaration, TaskDefinition};
use base::limits::{CHANNELS, TASK_PRIORITY};
use expr_rules::laws::noted_by_parts;
use expr_rules::{Findings, Wanted, expression_faults, static_scalar};
use std::alloc::AllocError;
use type_rules::{declare, note_declared_twice, note_end_name};
use types::{Entity, Scope, Subtype, Value};

/// The base priority of a task without an aspect, and of main (RM D.1).
pub const DEFAULT_PRIORITY: u8 = 15;

/// Makes an exception visible. Memory is the only refusal, and leaves the scope as it was.
pub fn declare_exception(scope: &mut Scope, name: &Identifier) -> Result<(), AllocError>
    ensures ok { OnOk result (scope.new ≡ exception_scope scope.old name.now) }
    ensures err { OnErr result (scope.new ≡ scope.old) }
{
    declare(scope, name, Entity::Exception)
}

/// Whether the aspect is Priority (RM D.1).
pub fn is_priority(aspect: &Aspect) -> bool
    ensures { result ≡ is_priority (aspect_tree aspect.now) }
{
    aspect.name.name.as_bytes() == "PRIORITY".as_bytes()
}

fn aspect_wanted(is_priority: bool) -> Wanted
    ensures { result ≡ aspect_wanted is_priority }
{
    if is_priority {
        Wanted::OfType(Subtype::INTEGER.type_number)
    } else {
        Wanted::Anything
    }
}

/// The broken rules of an aspect's expression: that of a Priority is an Integer (RM D.1).
pub fn aspect_faults(scope: &Scope, aspect: Option<&Aspect>, found: &mut Findings)
    ensures { found.new ≡ noted found.old (aspect_faults scope.now (option_map (λ a. aspect_tree a.now) aspect.entry)) }
{
    match aspect {
        Some(aspect) => {
            let wanted = aspect_wanted(is_priority(aspect));
            expression_faults(scope, wanted, &aspect.value, found);
        }
        None => {}
    }
}

/// Whether the aspect is Attach_Handler (RM C.3.1).
pub fn is_attachment(aspect: &Aspect) -> bool
    ensures { result ≡ is_attachment (aspect_tree aspect.now) }
{
    aspect.name.name.as_bytes() == "ATTACH_HANDLER".as_bytes()
}

/// The broken rules of the expression of an operation's aspect: that of an Attach_Handler is an Integer (RM C.3.1).
pub fn operation_aspect_faults(scope: &Scope, aspect: Option<&Aspect>, found: &mut Findings)
    ensures { found.new ≡ noted found.old (operation_aspect_faults scope.now (option_map (λ a. aspect_tree a.now) aspect.entry)) }
{
    match aspect {
        Some(aspect) => {
            let wanted = aspect_wanted(is_attachment(aspect));
            expression_faults(scope, wanted, &aspect.value, found);
        }
        None => {}
    }
}

fn channel_of(value: Option<Value>) -> Option<u8>
    ensures same { result ≡ channel_of (option_map (λ v. value_of v) value) }
    ensures within { IfSome result (λ c. c ≤ CHANNELS) }
{
    match value {
        Some(Value::Number(number)) if 1 <= number && number <= CHANNELS as i64 => {
            Some(number as u8)
        }
        _ => None,
    }
}

/// The channel that an aspect Attach_Handler names, where it is static and one of those that there are (RM C.3.1).
pub fn attached_channel(scope: &Scope, aspect: &Aspect) -> Option<u8>
    ensures same { result ≡ attached_channel scope.now (aspect_tree aspect.now) }
    ensures within { IfSome result (λ c. c ≤ CHANNELS) }
{
    let wanted = Wanted::OfType(Subtype::INTEGER.type_number);
    channel_of(static_scalar(scope, wanted, None, &aspect.value))
}

fn priority_within(highest: u8, other: u8, value: Option<Value>) -> u8
    ensures { result ≡ priority_within highest other (option_map (λ v. value_of v) value) }
{
    match value {
        Some(Value::Number(number)) => {
            if 0 <= number && number <= highest as i64 {
                number as u8
            } else {
                other
            }
        }
        _ => other,
    }
}

/// The priority that an aspect gives, or the other one where there is none that is static and at most the highest.
pub fn priority_of(scope: &Scope, highest: u8, other: u8, aspect: Option<&Aspect>) -> u8
    ensures { result ≡ priority_of scope.now highest other (option_map (λ a. aspect_tree a.now) aspect.entry) }
{
    match aspect {
        Some(aspect) => {
            let wanted = Wanted::OfType(Subtype::INTEGER.type_number);
            let value = static_scalar(scope, wanted, None, &aspect.value);
            priority_within(highest, other, value)
        }
        None => other,
    }
}

fn task_end_faults(name: &Identifier, definition: &Option<TaskDefinition>, found: &mut Findings)
    ensures { found.new ≡ noted found.old (task_end_faults name.now (optional_tree task_definition_tree definition.now)) }
{
    match definition {
        Some(definition) => note_end_name(name, &definition.end_name, found),
        None => {}
    }
}

/// The broken rules of the declaration of a task; its entries declare no names.
pub fn task_faults(scope: &Scope, task: &TaskDeclaration, found: &mut Findings)
    ensures { found.new ≡ noted found.old (task_faults scope.now (task_tree task.now)) }
{
    noted_by_parts();
    aspect_faults(scope, task.aspect.as_ref(), found);
    task_end_faults(&task.name, &task.definition, found);
    note_declared_twice(scope, &task.name, found);
}

/// Makes a task visible, with its priority. Memory is the only refusal, and leaves the scope as it was.
pub fn declare_task(scope: &mut Scope, task: &TaskDeclaration) -> Result<(), AllocError>
    ensures ok { OnOk result (scope.new ≡ task_scope scope.old (task_tree task.now)) }
    ensures err { OnErr result (scope.new ≡ scope.old) }
{
    let priority = priority_of(scope, TASK_PRIORITY, DEFAULT_PRIORITY, task.aspect.as_ref());
    declare(scope, &task.name, Entity::Task(priority))
}
