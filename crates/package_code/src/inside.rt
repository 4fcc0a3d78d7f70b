//! What becomes visible around the bodies of operations in the body of a protected object, and what is known of it (RM 9.4, 9.5.1).
ghost use Rattle.std.specs.Prelude.{◌≡◌, false, IfErr, OnOk};
ghost use Rattle.ada_tree.specs.ProgramTree.{protected_item_tree};
ghost use Rattle.ada_tree.specs.StatementTree.{subprogram_tree};
ghost use Rattle.expr_code.specs.Refusing.{IsRefused};
ghost use Rattle.package_code.specs.Walking.{behind_operation, first_visible, operation_visible, with_components, with_own_name};

use crate::directory::Directory;
use ada_tree::{ProtectedBodyItem, Subprogram};
use declaration_rules::declare_components;
use expr_code::{Refusal, Visible};
use std::alloc::Global;
use type_rules::declare_subprogram;
use types::{RecordComponent, Scope};

// The components of this object become visible, in a function as constants.
fn see_components(
    directory: &Directory,
    whole: &Scope,
    object: usize,
    visible: &mut Visible,
    is_function: bool,
    components: &[RecordComponent],
) -> Result<(), Refusal>
    ensures seen { OnOk result (visible.new ≡ with_components whole.now directory.now object is_function components.now visible.old) }
    ensures refused { IfErr result (λ why. IsRefused 0 0 why) }
{
    declare_components(&mut visible.scope, is_function, components)?;
    directory.tell_components(whole, object, visible, components)
}

// The name of an operation of this object becomes visible.
fn see_own_name(
    alloc: Global,
    directory: &Directory,
    whole: &Scope,
    object: usize,
    visible: &mut Visible,
    subprogram: &Subprogram,
) -> Result<(), Refusal>
    ensures seen { OnOk result (visible.new ≡ with_own_name whole.now directory.now object (subprogram_tree subprogram.now) visible.old) }
    ensures refused { IfErr result (λ why. IsRefused 0 0 why) }
{
    declare_subprogram(alloc, &mut visible.scope, subprogram)?;
    directory.tell_inside(whole, object, visible, &subprogram.name.name)
}

/// What is visible before the parameters of an operation or entry of this object, which has these components, becomes so.
pub(crate) fn see_operation(
    alloc: Global,
    directory: &Directory,
    whole: &Scope,
    object: usize,
    visible: &mut Visible,
    components: &[RecordComponent],
    item: &ProtectedBodyItem,
) -> Result<(), Refusal>
    ensures seen { OnOk result (visible.new ≡ operation_visible whole.now directory.now object components.now (protected_item_tree item.now) visible.old) }
    ensures refused { IfErr result (λ why. IsRefused 0 0 why) }
{
    match item {
        ProtectedBodyItem::Subprogram(subprogram, _) => {
            let is_function = subprogram.result.is_some();
            see_components(directory, whole, object, visible, is_function, components)?;
            see_own_name(alloc, directory, whole, object, visible, subprogram)
        }
        ProtectedBodyItem::Entry(_, _, _) => {
            see_components(directory, whole, object, visible, false, components)
        }
    }
}

/// What its body leaves visible after it becomes so, where so many names were visible before it.
pub(crate) fn see_behind(
    alloc: Global,
    directory: &Directory,
    whole: &Scope,
    object: usize,
    visible: &mut Visible,
    many: usize,
    item: &ProtectedBodyItem,
) -> Result<(), Refusal>
    ensures seen { OnOk result (visible.new ≡ behind_operation whole.now directory.now object (protected_item_tree item.now) (first_visible many visible.old)) }
    ensures refused { IfErr result (λ why. IsRefused 0 0 why) }
{
    visible.scope.truncate(many);
    visible.slots.truncate(many);
    visible.subprograms.truncate(many);
    match item {
        ProtectedBodyItem::Subprogram(subprogram, _) => {
            see_own_name(alloc, directory, whole, object, visible, subprogram)
        }
        ProtectedBodyItem::Entry(_, _, _) => Ok(()),
    }
}
