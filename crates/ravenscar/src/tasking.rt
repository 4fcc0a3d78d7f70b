//! Tasks and protected objects of the package, and priorities (RM D.1, D.3, D.7).
ghost use Rattle.std.specs.Prelude.{◌≡◌, false, map, option_map};
ghost use Rattle.ada_tree.specs.StatementTree.{aspect_tree, operation_tree, optional_tree, protected_tree, task_definition_tree, task_tree};
ghost use Rattle.types.specs.Values.{value_of};
ghost use Rattle.expr_rules.specs.Findings.{noted};
ghost use Rattle.ravenscar.specs.HandlerRules.{taken_by_all};
ghost use Rattle.ravenscar.specs.TaskingRules.{aspect_faults, definition_faults, entries_faults, gives_priority, is_priority_value, protected_faults, task_entries_faults, task_faults};

use crate::handlers::{CHANNEL_NUMBERS, ceiling_faults, operations_aspects_faults};
use ada_tree::{
    Aspect, Operation, ProtectedDeclaration, TaskDeclaration, TaskDefinition, TaskEntry,
};
use base::faults::{SECOND_ENTRY, TASK_ENTRY, WRONG_ASPECT};
use base::limits::{CEILING, TASK_PRIORITY};
use declaration_rules::is_priority;
use expr_rules::laws::noted_by_parts;
use expr_rules::{Findings, Wanted, static_scalar};
use types::{Scope, Subtype, Value};

fn is_priority_value(highest: u8, value: Option<Value>) -> bool
    ensures { result ≡ is_priority_value highest (option_map (λ v. value_of v) value) }
{
    match value {
        Some(Value::Number(number)) => 0 <= number && number <= i64::from(highest),
        _ => false,
    }
}

fn gives_priority(scope: &Scope, highest: u8, aspect: &Aspect) -> bool
    ensures { result ≡ gives_priority scope.now highest (aspect_tree aspect.now) }
{
    let wanted = Wanted::OfType(Subtype::INTEGER.type_number);
    let value = static_scalar(scope, wanted, None, &aspect.value);
    is_priority(aspect) && is_priority_value(highest, value)
}

/// Notes fault 38 where an aspect is another one than Priority, or gives no static one from 0 to the highest.
pub(crate) fn aspect_faults(
    scope: &Scope,
    highest: u8,
    aspect: Option<&Aspect>,
    found: &mut Findings,
)
    ensures { found.new ≡ noted found.old (aspect_faults scope.now highest (option_map (λ a. aspect_tree a.now) aspect.entry)) }
{
    if let Some(aspect) = aspect {
        found.note_rule(
            WRONG_ASPECT,
            aspect.place,
            !gives_priority(scope, highest, aspect),
        );
    }
}

fn task_entries_faults(entries: &[TaskEntry], found: &mut Findings)
    ensures { found.new ≡ noted found.old (task_entries_faults entries.now) }
{
    noted_by_parts();
    for entry in entries {
        found.note_rule(TASK_ENTRY, entry.place, true);
    }
}

fn definition_faults(definition: &Option<TaskDefinition>, found: &mut Findings)
    ensures { found.new ≡ noted found.old (definition_faults (optional_tree task_definition_tree definition.now)) }
{
    if let Some(definition) = definition {
        task_entries_faults(&definition.entries, found);
    }
}

/// Notes each restriction that a task of the package breaks: its aspect, and its entries.
pub(crate) fn task_faults(scope: &Scope, task: &TaskDeclaration, found: &mut Findings)
    ensures { found.new ≡ noted found.old (task_faults scope.now (task_tree task.now)) }
{
    noted_by_parts();
    aspect_faults(scope, TASK_PRIORITY, task.aspect.as_ref(), found);
    definition_faults(&task.definition, found);
}

fn entries_faults(operations: &[Operation], found: &mut Findings)
    ensures { found.new ≡ noted found.old (entries_faults false (map operation_tree operations.now)) }
{
    noted_by_parts();
    let mut has_entry = false;
    for operation in operations {
        if let Operation::Entry(entry) = operation {
            found.note_rule(SECOND_ENTRY, entry.place, has_entry);
            has_entry = true;
        }
    }
}

/// Notes each restriction that a protected object of the package breaks: its aspect, its entries, and its handlers of interrupts, whose channels
/// are taken then.
pub(crate) fn protected_faults(
    scope: &Scope,
    taken: &mut [bool; CHANNEL_NUMBERS],
    object: &ProtectedDeclaration,
    found: &mut Findings,
)
    ensures found { found.new ≡ noted found.old (protected_faults scope.now taken.old (protected_tree object.now)) }
    ensures taken { taken.new ≡ taken_by_all scope.now taken.old (protected_tree object.now).operations }
{
    noted_by_parts();
    let aspect = object.aspect.as_ref();
    aspect_faults(scope, CEILING, aspect, found);
    ceiling_faults(scope, &object.operations, aspect, found);
    entries_faults(&object.operations, found);
    operations_aspects_faults(scope, taken, &object.operations, found);
}
