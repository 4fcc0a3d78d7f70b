//! The limits of whole programs.
ghost use Rattle.std.specs.Prelude.{◌≡◌, OnOk};
ghost use Rattle.ada_tree.specs.ProgramTree.{package_tree, program_tree};
ghost use Rattle.expr_rules.specs.Findings.{noted};
ghost use Rattle.size_rules.specs.ProgramSizes.{declared_faults, package_size_faults, size_faults};

use crate::bodies::body_items_faults;
use crate::declarations::push_items;
use crate::passing::{count_faults, label_faults, words_faults};
use crate::thing::{DECLARED_EXCEPTIONS, DECLARED_TASKS, Kind, Thing};
use ada_tree::{Package, Program};
use base::limits::{LABELS, OBJECTS, PROCEDURES, WORDS};
use expr_rules::Findings;
use expr_rules::laws::noted_by_parts;
use std::alloc::{AllocError, Global};
use unit_rules::inside_scope;

fn declared_faults(alloc: Global, things: &[Thing], found: &mut Findings) -> Result<(), AllocError>
    ensures { OnOk result (found.new ≡ noted found.old (declared_faults things.now)) }
{
    noted_by_parts();
    count_faults(alloc, Kind::Subprogram, PROCEDURES, things, found)?;
    count_faults(alloc, Kind::Task, DECLARED_TASKS, things, found)?;
    count_faults(alloc, Kind::ProtectedObject, OBJECTS, things, found)?;
    count_faults(alloc, Kind::Exception, DECLARED_EXCEPTIONS, things, found)?;
    words_faults(WORDS as u16, things, found);
    Ok(())
}

fn package_faults(alloc: Global, package_: &Package, found: &mut Findings) -> Result<(), AllocError>
    ensures { OnOk result (found.new ≡ noted found.old (package_size_faults (package_tree package_.now))) }
{
    noted_by_parts();
    let mut scope = inside_scope(alloc, package_)?;
    let mut things = Vec::new(alloc);
    let mut inside = Vec::new(alloc);
    push_items(alloc, &mut scope, &package_.declaration.items, &mut things)?;
    let items = &package_.body.items;
    body_items_faults(alloc, &mut scope, items, &mut things, &mut inside, found)?;
    declared_faults(alloc, &things, found)?;
    label_faults(alloc, LABELS, &inside, found)
}

/// Notes each limit that a program passes: fault 23 at each thing over it (docs/LANGUAGE.md, "Limits"). Memory is the only refusal, and may leave some noted.
pub fn size_faults(alloc: Global, program: &Program, found: &mut Findings) -> Result<(), AllocError>
    ensures { OnOk result (found.new ≡ noted found.old (size_faults (program_tree program.now))) }
{
    match &program.package_ {
        Some(package_) => package_faults(alloc, package_, found),
        None => Ok(()),
    }
}
