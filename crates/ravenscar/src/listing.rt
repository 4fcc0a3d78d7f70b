//! All broken rules of a program, each once and in the order of places.
ghost use Rattle.std.specs.Prelude.{◌≡◌, ◌++◌, IfOk, OnOk};
ghost use Rattle.std.specs.List.{Contains};
ghost use Rattle.ada_tree.specs.ProgramTree.{program_tree};
ghost use Rattle.lexer.specs.declared.fault.Fault.{Fault};
ghost use Rattle.expr_rules.specs.Findings.{noted};
ghost use Rattle.legality.specs.FoundFaults.{found_faults};
ghost use Rattle.ravenscar.specs.BrokenRules.{AreInOrderOfPlaces, ListsBrokenRules};
ghost use Rattle.ravenscar.specs.ProgramRules.{restriction_faults};

use crate::accepted::restriction_faults;
use ada_tree::Program;
use expr_rules::Findings;
use expr_rules::laws::{found_is_all, noted_by_parts};
use legality::laws::check_finds_what_is_broken;
use legality::program_faults;
use lexer::Fault;
use std::alloc::{AllocError, Global};

// Notes what is found in a program by the check and then by the restrictions.
fn note_found(alloc: Global, program: &Program, found: &mut Findings) -> Result<(), AllocError>
    ensures { OnOk result (found.new ≡ noted found.old (found_faults (program_tree program.now) ++ restriction_faults (program_tree program.now))) }
{
    noted_by_parts();
    program_faults(alloc, program, found)?;
    restriction_faults(alloc, program, found)
}

// What is found in a program, in two walks: the first counts, the second has room for so many. A count of all ones may stand for more, for which no memory has
// room.
fn found_in(alloc: Global, program: &Program) -> Result<Vec<Fault>, AllocError>
    ensures { IfOk result (λ faults. faults.items ≡ found_faults (program_tree program.now) ++ restriction_faults (program_tree program.now)) }
{
    found_is_all();
    let mut counted = Findings::new();
    note_found(alloc, program, &mut counted)?;
    let count = counted.count();
    if count == usize::MAX {
        return Err(AllocError);
    }
    let mut found = Findings::with_room(alloc, count)?;
    note_found(alloc, program, &mut found)?;
    Ok(found.into_kept(alloc))
}

// Puts faults into the order of places and, at one place, of numbers, each once.
fn put_in_order(faults: &mut Vec<Fault>)
    ensures ordered { AreInOrderOfPlaces faults.new.items }
    ensures given { (f : Fault) → Contains faults.new.items f → Contains faults.old.items f }
    ensures kept { (f : Fault) → Contains faults.old.items f → Contains faults.new.items f }
{
    faults.sort_unstable_by_key(|fault| (fault.place, fault.number));
    faults.dedup();
}

/// Every broken rule from 10 to 39 and from 70 to 73 of a program's tree, each once, in the order of places and, at one place, of numbers. The restrictions of
/// the profile are asked of a program that isn't legal too, so that the list is empty just where `legality::check` and `restrict` accept the program.
///
/// # Errors
/// Want of memory alone.
pub fn broken_rules(alloc: Global, program: &Program) -> Result<Vec<Fault>, AllocError>
    ensures { IfOk result (λ faults. ListsBrokenRules (program_tree program.now) faults.items) }
{
    check_finds_what_is_broken();
    let mut faults = found_in(alloc, program)?;
    put_in_order(&mut faults);
    Ok(faults)
}
