//! Which limit of images the code of an accepted program passes, and with which of its bodies.
ghost use Rattle.std.specs.Prelude.{IfErr, IfOk, OnOk};
ghost use Rattle.ada_tree.specs.ProgramTree.{program_tree};
ghost use Rattle.legality.specs.ProgramRules.{IsLegal};
ghost use Rattle.ravenscar.specs.ProgramRules.{IsRestricted};
ghost use Rattle.compiler.specs.Stopped.{IsFirstHalt, IsFirstStop, MakesAll};

use crate::program::{DeclaredTables, declarations};
use expr_code::Refusal;
use package_code::{Halt, Stop, Walk, halt_for, walk_over};
use ravenscar::Accepted;
use source_laws::cover_laws::names_are_covered;
use source_laws::table_laws::{main_is_known, main_may_be_added, tables_are_small};
use std::alloc::Global;

// Adds the code of all bodies of an accepted program, and that of main after them.
fn make_all(alloc: Global, accepted: &Accepted) -> Result<(), Halt>
    ensures made { OnOk result (MakesAll (program_tree accepted.now)) }
    ensures halts { IfErr result (λ found. IsFirstHalt (program_tree accepted.now) found) }
{
    main_is_known();
    main_may_be_added();
    names_are_covered();
    tables_are_small();
    let program = accepted.program();
    let DeclaredTables {
        exceptions,
        directory,
        ..
    } = declarations(alloc, accepted)?;
    let walk = walk_over(alloc, accepted, &directory, exceptions)?;
    let Walk {
        mut draft,
        visible,
        ..
    } = walk;
    let before = draft.code.instructions.len();
    match draft.main(&visible, &program.main.statements) {
        Ok(_) => Ok(()),
        Err(why) => Err(halt_for(why, program.main.name.place, before)),
    }
}

/// The first body of an accepted program whose code may pass a limit of images (docs/FORMATS.md), main among them; or with which item there are more rows of
/// handlers than an image has. None where all code is made.
///
/// # Errors
/// Where memory was refused; no accepted program has a body that passes another limit.
pub fn first_stop(alloc: Global, accepted: &Accepted) -> Result<Option<Stop>, Refusal>
    ensures stops { IfOk result (λ found. IsFirstStop (program_tree accepted.now) found) }
    ensures legal { IsLegal (program_tree accepted.now) }
    ensures restricted { IsRestricted (program_tree accepted.now) }
{
    let _program = accepted.program();
    match make_all(alloc, accepted) {
        Ok(()) => Ok(None),
        Err(halt) => Ok(Some(halt.stop()?)),
    }
}
