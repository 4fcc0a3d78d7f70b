//! The rows of a program's tasks in the table of an image, in the order of their declarations (RM 9.1, D.1).
ghost use Rattle.std.specs.Prelude.{◌≡◌, ◌∷◌, [], Some, is_some, map, true, IfErr, IfOk, OnOk};
ghost use Rattle.ada_tree.specs.StatementTree.{aspect_tree, optional_tree, task_tree};
ghost use Rattle.ada_tree.specs.ProgramTree.{OfTask, body_item_tree, item_tree, package_tree, program_tree};
ghost use Rattle.expr_soundness.specs.meaning.specs.Programs.{base_priority, items_among, package_items, program_of};
ghost use Rattle.expr_code.specs.Refusing.{IsRefused};
ghost use Rattle.expr_code.specs.Seeing.{told_of};
ghost use Rattle.package_code.specs.Directory.{IsDirectory};
ghost use Rattle.package_code.specs.Tasks.{AddsTasks, AreKnownTasks, HaveDeclared, IsKnownTask};

use crate::directory::Directory;
use crate::laws::tasks_have_bodies;
use ada_tree::{Aspect, BodyItem, Identifier, Item, Package, TaskDeclaration};
use base::limits::TASK_PRIORITY;
use declaration_rules::{DEFAULT_PRIORITY, priority_of};
use expr_code::Refusal;
use image::Task;
use ravenscar::Accepted;
use std::alloc::Global;
use types::Scope;

/// The row of a task of this name with this aspect, whose subprogram has this number.
pub fn task_row(
    scope: &Scope,
    name: &Identifier,
    aspect: &Option<Aspect>,
    subprogram: u16,
) -> Result<Task, Refusal>
    ensures row { IfOk result (λ row. row ≡ record {
      name = name.now.name;
      priority = base_priority scope.now (optional_tree aspect_tree aspect.now);
      subprogram = subprogram;
    }) }
    ensures refused { IfErr result (λ why. IsRefused 0 0 why) }
{
    Ok(Task {
        name: name.name.clone()?,
        priority: priority_of(scope, TASK_PRIORITY, DEFAULT_PRIORITY, aspect.as_ref()),
        subprogram,
    })
}

// The number of a task's body.
fn body_number(accepted: &Accepted, directory: &Directory, name: &Identifier) -> u16
    requires told { is_some (told_of (program_of (program_tree accepted.now)).scope directory.now.numbers.items name.now.name) ≡ true }
    ensures { told_of (program_of (program_tree accepted.now)).scope directory.now.numbers.items name.now.name ≡ Some result }
{
    match directory.number(accepted.scope(), &name.name) {
        Some(number) => number,
        None => unreachable!(),
    }
}

// Adds the row of a declared task, whose subprogram is that of its body.
fn add_task(
    tasks: &mut Vec<Task>,
    accepted: &Accepted,
    directory: &Directory,
    task: &TaskDeclaration,
) -> Result<(), Refusal>
    requires directory { IsDirectory (program_tree accepted.now) directory.now }
    requires known { IsKnownTask (program_tree accepted.now) (task_tree task.now) }
    ensures adds { OnOk result (AddsTasks (program_tree accepted.now) tasks.old.items (OfTask (task_tree task.now) ∷ []) tasks.new.items) }
    ensures refused { IfErr result (λ why. IsRefused 0 0 why) }
{
    let number = body_number(accepted, directory, &task.name);
    tasks.push(task_row(accepted.scope(), &task.name, &task.aspect, number)?)?;
    Ok(())
}

// Adds the row of a task, if the declaration is one.
fn add_item(
    tasks: &mut Vec<Task>,
    accepted: &Accepted,
    directory: &Directory,
    item: &Item,
) -> Result<(), Refusal>
    requires directory { IsDirectory (program_tree accepted.now) directory.now }
    requires known { AreKnownTasks (program_tree accepted.now) (item_tree item.now ∷ []) }
    ensures adds { OnOk result (AddsTasks (program_tree accepted.now) tasks.old.items (item_tree item.now ∷ []) tasks.new.items) }
    ensures refused { IfErr result (λ why. IsRefused 0 0 why) }
{
    match item {
        Item::Task(task) => add_task(tasks, accepted, directory, task),
        Item::Type(_) => Ok(()),
        Item::Object(_) => Ok(()),
        Item::Exception(_) => Ok(()),
        Item::Subprogram(_) => Ok(()),
        Item::Protected(_) => Ok(()),
    }
}

// Adds those of the tasks among declarations.
fn add_items(
    tasks: &mut Vec<Task>,
    accepted: &Accepted,
    directory: &Directory,
    items: &[Item],
) -> Result<(), Refusal>
    requires directory { IsDirectory (program_tree accepted.now) directory.now }
    requires known { AreKnownTasks (program_tree accepted.now) (map item_tree items.now) }
    ensures adds { OnOk result (AddsTasks (program_tree accepted.now) tasks.old.items (map item_tree items.now) tasks.new.items) }
    ensures refused { IfErr result (λ why. IsRefused 0 0 why) }
{
    for item in items {
        add_item(tasks, accepted, directory, item)?;
    }
    Ok(())
}

// Adds the row of a task, if a declaration in the body of a package is one; bodies declare none.
fn add_body_item(
    tasks: &mut Vec<Task>,
    accepted: &Accepted,
    directory: &Directory,
    item: &BodyItem,
) -> Result<(), Refusal>
    requires directory { IsDirectory (program_tree accepted.now) directory.now }
    requires known { AreKnownTasks (program_tree accepted.now) (items_among (body_item_tree item.now ∷ [])) }
    ensures adds { OnOk result (AddsTasks (program_tree accepted.now) tasks.old.items (items_among (body_item_tree item.now ∷ [])) tasks.new.items) }
    ensures refused { IfErr result (λ why. IsRefused 0 0 why) }
{
    match item {
        BodyItem::Item(item) => add_item(tasks, accepted, directory, item),
        BodyItem::Subprogram(_, _) => Ok(()),
        BodyItem::Task(_, _) => Ok(()),
        BodyItem::Protected(_, _, _) => Ok(()),
    }
}

// Adds those of the tasks that are declared in the body of a package.
fn add_body_items(
    tasks: &mut Vec<Task>,
    accepted: &Accepted,
    directory: &Directory,
    items: &[BodyItem],
) -> Result<(), Refusal>
    requires directory { IsDirectory (program_tree accepted.now) directory.now }
    requires known { AreKnownTasks (program_tree accepted.now) (items_among (map body_item_tree items.now)) }
    ensures adds { OnOk result (AddsTasks (program_tree accepted.now) tasks.old.items (items_among (map body_item_tree items.now)) tasks.new.items) }
    ensures refused { IfErr result (λ why. IsRefused 0 0 why) }
{
    for item in items {
        add_body_item(tasks, accepted, directory, item)?;
    }
    Ok(())
}

// Adds those of all tasks of a package.
fn add_package(
    tasks: &mut Vec<Task>,
    accepted: &Accepted,
    directory: &Directory,
    package_: &Package,
) -> Result<(), Refusal>
    requires directory { IsDirectory (program_tree accepted.now) directory.now }
    requires known { AreKnownTasks (program_tree accepted.now) (package_items (Some (package_tree package_.now))) }
    ensures adds { OnOk result (AddsTasks (program_tree accepted.now) tasks.old.items (package_items (Some (package_tree package_.now))) tasks.new.items) }
    ensures refused { IfErr result (λ why. IsRefused 0 0 why) }
{
    add_items(tasks, accepted, directory, &package_.declaration.items)?;
    add_body_items(tasks, accepted, directory, &package_.body.items)?;
    Ok(())
}

/// The rows of the tasks that the package of an accepted program declares.
///
/// # Errors
/// `Memory` where memory was refused.
pub fn task_rows(
    alloc: Global,
    accepted: &Accepted,
    directory: &Directory,
) -> Result<Vec<Task>, Refusal>
    requires directory { IsDirectory (program_tree accepted.now) directory.now }
    ensures have { IfOk result (λ tasks. HaveDeclared (program_tree accepted.now) (package_items (program_tree accepted.now).package_) tasks.items) }
    ensures refused { IfErr result (λ why. IsRefused 0 0 why) }
{
    tasks_have_bodies();
    let mut tasks = Vec::new(alloc);
    match &accepted.program().package_ {
        None => Ok(tasks),
        Some(package_) => {
            add_package(&mut tasks, accepted, directory, package_)?;
            Ok(tasks)
        }
    }
}
